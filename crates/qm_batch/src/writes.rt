//! Writes in order.

ghost use Rattle.std.specs.Prelude.{◌≡◌, ◌++◌, ◌∷◌, [], List, map, option_map, IfOk};
ghost use Rattle.qm_model.specs.Writes as model;
ghost use Rattle.qm_model.specs.Writes.{last_writes, write_of};
ghost use Rattle.qm_step.specs.Views.{write_view};

use qm_base::{ByteString, Write};
use std::alloc::{AllocError, Global};
use std::collections::BTreeMap;
use std::marker::Model;

/// Writes in order, with where the last one of each key stands. It has a copy of each key beside the writes.
#[derive(Drop)]
pub struct Writes<K: ByteString, V: ByteString> {
    list: Vec<Write<K, V>>,
    places: BTreeMap<Vec<u8>, usize>,
}

impl<K: ByteString, V: ByteString> Model for Writes<K, V> {
    ghost use Rattle.std.specs.Prelude.{List, map};
    ghost use Rattle.qm_model.specs.Writes.{Write};
    ghost use Rattle.qm_step.specs.Views.{write_view};
    ghost use Rattle.qm_step.specs.Written.{ArePlaces};

    ghost Value = { List Write };

    ghost view = { λ ws. map (write_view K.bytes V.bytes) ws.list.items };

    ghost invariant = { λ ws. ArePlaces (λ key. key.items) ws.places.entries (map (write_view K.bytes V.bytes) ws.list.items) };
}

impl<K: ByteString, V: ByteString> Writes<K, V> {
    /// No writes. It takes no memory.
    pub fn new(alloc: Global) -> Writes<K, V>
        ensures { result ≡ [] }
    {
        Writes {
            list: Vec::new(alloc),
            places: BTreeMap::new(alloc),
        }
    }

    /// Puts a write after the others: a value for the key, or its deletion. It takes one descent of the map of keys. Without
    /// memory the writes are gone.
    pub fn push(self, key: K, value: Option<V>) -> Result<Writes<K, V>, AllocError>
        ensures { IfOk result (λ writes.
            writes ≡ self ++ record { key = K.bytes key; value = option_map V.bytes value } ∷ []) }
    {
        let Writes {
            mut list,
            mut places,
        } = self;
        let bytes = bytes_of(*list.allocator(), &key)?;
        places.insert(bytes, list.len())?;
        list.push(Write { key, value })?;
        Ok(Writes { list, places })
    }

    /// The writes, the first one first.
    pub fn as_slice(&self) -> &[Write<K, V>]
        ensures { map (write_view K.bytes V.bytes) result.now ≡ self.now }
    {
        &self.list
    }

    /// The last write of a key. It takes one descent of the map of keys.
    pub fn last(&self, key: &[u8]) -> Option<&Write<K, V>>
        ensures { option_map (λ w. write_view K.bytes V.bytes w.now) result
            ≡ write_of (last_writes self.now) key.now }
    {
        match self.places.get(key) {
            Some(place) => self.list.get(*place),
            None => None,
        }
    }
}

// A copy of a key's bytes.
fn bytes_of<K: ByteString>(alloc: Global, key: &K) -> Result<Vec<u8>, AllocError>
    ensures { IfOk result (λ bytes. bytes.items ≡ K.bytes key.now) }
{
    key.as_bytes().to_vec(alloc)
}
