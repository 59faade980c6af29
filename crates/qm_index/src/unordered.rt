//! Indices without an order of their keys.

ghost use Rattle.std.specs.Prelude.{◌≡◌, ◌<◌, ℕ, List, [], ◌∷◌, ◌++◌, length, set, remove, refl, OnOk, OnErr};
ghost use Rattle.std.specs.List.{FoldsTo};
ghost use Rattle.std.specs.Fn.{CalledAt};
ghost use Rattle.qm_index.specs.Buckets.{bucket_at, Puts, IsIndex, all_values};

use crate::bucket::Bucket;
use crate::translator::Translator;
use crate::value::IndexValue;
use std::alloc::{AllocError, Global};
use std::collections::HashMap;
use std::marker::Model;

/// Values by index key. Of each key only the index key is known, so a bucket has the values of all keys that have its index key.
pub trait Unordered {
    type Value: Drop;

    /// The index key of a key.
    ghost index_key: { List ℕ → ℕ };

    /// The buckets by index key.
    ghost entries: { Self → List (ℕ × List Self.Value) };

    /// The values under the key's index key, in the order in which they were put; none if it has no bucket.
    fn bucket(&self, key: &[u8]) -> &[Self::Value]
        ensures value { result.now ≡ bucket_at (entries self.now) (index_key key.now) }
        ensures index { IsIndex (entries self.now) };

    /// Puts a value after the others of the key's bucket. Want of memory is the only error, and leaves the index as it was.
    fn insert(&mut self, key: &[u8], value: Self::Value) -> Result<(), AllocError>
        ensures ok { OnOk result (Puts (entries self.old) (entries self.new) (index_key key.now)
            (bucket_at (entries self.old) (index_key key.now) ++ value ∷ [])) }
        ensures err { OnErr result (entries self.new ≡ entries self.old) }
        ensures index { IsIndex (entries self.new) };

    /// Puts a value in the place of one of the key's bucket.
    fn update_at(&mut self, key: &[u8], i: usize, value: Self::Value)
        requires { i < length (bucket_at (entries self.old) (index_key key.now)) }
        ensures update { Puts (entries self.old) (entries self.new) (index_key key.now)
            (set (bucket_at (entries self.old) (index_key key.now)) i value) }
        ensures index { IsIndex (entries self.new) };

    /// Takes a value out of the key's bucket; the later ones move down.
    fn remove_at(&mut self, key: &[u8], i: usize)
        requires { i < length (bucket_at (entries self.old) (index_key key.now)) }
        ensures remove { Puts (entries self.old) (entries self.new) (index_key key.now)
            (remove (bucket_at (entries self.old) (index_key key.now)) i) }
        ensures index { IsIndex (entries self.new) };

    /// Shows each value, bucket by bucket, each bucket in order.
    fn for_each_value<F: FnMut(&Self::Value)>(&self, visit: F)
        requires { F.IsAlwaysCallable visit }
        ensures shown { (last : F)
            × FoldsTo (λ p x q. CalledAt F.FnMut p x tt q) visit (all_values (entries self.now))
            last }
        ensures index { IsIndex (entries self.now) };
}

/// An index that can be made, over a translator that makes its index keys.
pub trait Factory: Unordered {
    type Translator: Translator;

    /// What makes an index key of a key, by what the translator makes of bytes.
    ghost made_from: { (List ℕ → ℕ) → List ℕ → ℕ };

    /// An index without buckets. It takes no memory yet.
    fn new(alloc: Global, translator: Self::Translator) -> Self
        ensures { Self.entries result ≡ [] };

    /// An index key is made from the translator's.
    ghost translated: { Self.index_key ≡ made_from Self.Translator.index_key };
}

/// An index by hash. It keeps an index key and the values for each bucket, and no key.
#[derive(Drop)]
pub struct Index<T, V> {
    alloc: Global,
    translator: T,
    buckets: HashMap<u64, Bucket<V>>,
}

impl<T, V> Model for Index<T, V> {
    ghost use Rattle.std.specs.Prelude.{ℕ, List};
    ghost use Rattle.qm_index.specs.Buckets.{IsIndex};

    ghost Value = { List (ℕ × List V) };

    ghost view = { λ i. i.buckets.entries };

    ghost invariant = { λ i. IsIndex i.buckets.entries };
}

impl<T: Translator, V: IndexValue> Factory for Index<T, V> {
    type Translator = T;

    ghost made_from = { λ index_key. index_key };

    ghost translated = { refl };

    fn new(alloc: Global, translator: T) -> Self {
        Index {
            alloc,
            translator,
            buckets: HashMap::new(alloc),
        }
    }
}

impl<T: Translator, V: IndexValue> Unordered for Index<T, V> {
    type Value = V;

    ghost index_key = { T.index_key };

    ghost entries = { λ i. i };

    fn bucket(&self, key: &[u8]) -> &[V] {
        match self.buckets.get(&self.translator.index_key(key)) {
            Some(bucket) => bucket.values(),
            None => &[],
        }
    }

    #[tactic(auto, using(std::proofs::lemmas::Map::Steps::set_value_same))]
    fn insert(&mut self, key: &[u8], value: V) -> Result<(), AllocError> {
        let index_key = self.translator.index_key(key);
        match self.buckets.get_mut(&index_key) {
            Some(bucket) => bucket.push(self.alloc, value),
            None => {
                self.buckets.insert(index_key, Bucket::of(value))?;
                Ok(())
            }
        }
    }

    fn update_at(&mut self, key: &[u8], i: usize, value: V) {
        let index_key = self.translator.index_key(key);
        if let Some(bucket) = self.buckets.get_mut(&index_key) {
            bucket.set(i, value);
        }
    }

    fn remove_at(&mut self, key: &[u8], i: usize) {
        let index_key = self.translator.index_key(key);
        match self.buckets.get_mut(&index_key) {
            Some(bucket) if 1 < bucket.values().len() => bucket.remove(i),
            Some(_) => drop(self.buckets.remove(&index_key)),
            None => {}
        }
    }

    fn for_each_value<F: FnMut(&V)>(&self, mut visit: F) {
        for bucket in self.buckets.values() {
            visit = show(bucket.values(), visit);
        }
    }
}

// Shows each value in order, and gives the visitor back.
pub(crate) fn show<V, F: FnMut(&V)>(values: &[V], mut visit: F) -> F
    requires { F.IsAlwaysCallable visit }
    ensures shown { FoldsTo (λ p x q. CalledAt F.FnMut p x tt q) visit values.now result }
    ensures again { F.IsAlwaysCallable result }
{
    let mut rest = values;
    while let Some((value, behind)) = rest.split_first() {
        visit(value);
        rest = behind;
    }
    visit
}
