//! Looking for a key among the locations of its bucket.

ghost use Rattle.std.specs.Prelude.{◌≡◌, ◌<◌, ◌^◌, length};
ghost use Rattle.qm_index.specs.Buckets.{bucket_at};
ghost use Rattle.qm_workers.specs.Known.{knowledge};
ghost use Rattle.qm_workers.specs.Working.{sought};

use crate::keys::Keys;
use qm_base::{ByteString, Location};
use qm_build::Found;
use qm_index::Unordered;

/// What comes of looking for a key: where it was found, or that it is nowhere, or the first location whose key has to be known.
#[derive(Drop)]
pub enum Sought {
    Here(Found),
    Nowhere,
    Unknown(u64),
}

/// Looks for an update of a key at the locations in its bucket, by what keys are known.
pub fn seek<F, I: Unordered<Value = Location<F>>, K: ByteString>(
    index: &I,
    keys: &Keys<K>,
    key: &[u8],
) -> Sought
    ensures value { result ≡ sought (knowledge K.bytes keys.now) key.now 0
        (bucket_at (I.entries index.now) (I.index_key key.now)) }
    ensures few { length (bucket_at (I.entries index.now) (I.index_key key.now)) < 2 ^ 64 }
{
    let bucket = index.bucket(key);
    for place in 0..bucket.len() {
        let location = bucket[place].get();
        match keys.is_of(location, key) {
            Some(true) => return Sought::Here(Found { place, location }),
            Some(false) => {}
            None => return Sought::Unknown(location),
        }
    }
    Sought::Nowhere
}
