//! Scans of an ordered database, over a store that fails once: a refused read loses no key.

use crate::bed::{Bed, Database, kept, opened};
use qm_base::{ByteKey, ByteString, ByteValue, Error, Location, Sha256};
use qm_chain::Hold;
use qm_index::FourCap;
use qm_index::ordered::Index;
use qm_memory::MemStore;
use qm_merkle::mmr;
use qm_operations::{Ordered, VariableEncoding};
use std::alloc::Global;
use std::ops::Bound;
use std::test::Fail;

/// Keys and values of any length, in memory, each key with the next one.
pub(crate) struct Linked;

impl Bed for Linked {
    type Family = mmr::Family;

    type Store = MemStore;

    type Index = Index<FourCap, Location<mmr::Family>>;

    type Hasher = Sha256;

    type Pair = Ordered<ByteKey, VariableEncoding<ByteValue>>;

    fn store(alloc: Global) -> MemStore {
        MemStore::new(alloc, Vec::new(alloc))
    }

    fn hasher() -> Sha256 {
        Sha256::new()
    }

    fn translator() -> FourCap {
        FourCap
    }
}

// A database of the keys a, b and c over a store whose call of this number fails.
fn lettered(alloc: Global, call: u64) -> Result<Database<Linked>, Error> {
    let store = MemStore::new(alloc, vec![in alloc; call]?);
    let mut db = opened::<Linked>(alloc, store)?;
    let mut batch = db.new_batch(alloc)?;
    for letter in ["a", "b", "c"] {
        let key = ByteKey::from_bytes(alloc, letter.as_bytes())?;
        batch = batch.write(key, Some(ByteValue::from_bytes(alloc, b"v")?))?;
    }
    let batch = batch.merkleize(alloc, &mut db, None, &mut Hold)?;
    kept(db.apply_batch(alloc, &batch))
}

// What eight calls of a scan of all keys give: each key, `!` for a refused read, and `.` at the end.
fn scanned(alloc: Global, call: u64) -> Result<String, Error> {
    let mut db = lettered(alloc, call)?;
    let mut scan = db.keys(alloc, Bound::Unbounded, Bound::Unbounded);
    let mut told = String::new(alloc);
    for _ in 0..8 {
        match scan.next() {
            Some(Ok(key)) => told.push_str(str::from_utf8(key.as_bytes()).unwrap_or("?"))?,
            Some(Err(_)) => told.push('!')?,
            None => told.push('.')?,
        }
    }
    Ok(told)
}

#[test]
fn a_scan_loses_no_key_where_a_read_is_refused(rt: HostRuntime) -> Result<(), Fail> {
    let alloc = rt.alloc();
    let mut refused: u32 = 0;
    for call in 0..30 {
        let told = scanned(alloc, call).unwrap_or(String::new(alloc));
        if told.as_str() != "abc....." {
            refused = refused.saturating_add(1);
            assert!(rt; ["", "!abc....", "a!bc....", "ab!c...."].contains(&told.as_str()));
        }
    }
    assert!(rt; refused >= 3);
    Ok(())
}
