//! Buckets by index key, without a translator.

ghost use Rattle.std.specs.Prelude.{◌≡◌, ◌<◌, ℕ, List, [], ◌∷◌, ◌++◌, length, set, remove, option_map, OnOk, OnErr};
ghost use Rattle.std.specs.List.{FoldsTo};
ghost use Rattle.std.specs.Fn.{CalledAt};
ghost use Rattle.qm_index.specs.Buckets.{bucket_at, Puts, IsIndex, all_values};
ghost use Rattle.qm_index.specs.Ways.{Up, Down, FirstIs, NextIs};

use std::alloc::{AllocError, Global};

// Buckets by index key.
pub trait Table: Drop {
    type Value: Drop;

    // The buckets by index key.
    ghost entries: { Self → List (ℕ × List Self.Value) };

    // A table without buckets. It takes no memory yet.
    fn new(alloc: Global) -> Self
        ensures { entries result ≡ [] };

    // The values under an index key, in the order in which they were put; none where it has no bucket.
    fn bucket(&self, index_key: u64) -> &[Self::Value]
        ensures value { result.now ≡ bucket_at (entries self.now) index_key }
        ensures index { IsIndex (entries self.now) };

    // Puts a value after the others under an index key. Want of memory is the only error, and leaves the table as it was.
    fn insert(&mut self, index_key: u64, value: Self::Value) -> Result<(), AllocError>
        ensures ok { OnOk result (Puts (entries self.old) (entries self.new) index_key
            (bucket_at (entries self.old) index_key ++ value ∷ [])) }
        ensures err { OnErr result (entries self.new ≡ entries self.old) }
        ensures index { IsIndex (entries self.new) };

    // Puts a value in the place of one under an index key.
    fn update_at(&mut self, index_key: u64, i: usize, value: Self::Value)
        requires { i < length (bucket_at (entries self.old) index_key) }
        ensures update { Puts (entries self.old) (entries self.new) index_key
            (set (bucket_at (entries self.old) index_key) i value) }
        ensures index { IsIndex (entries self.new) };

    // Takes a value out under an index key; the later ones move down.
    fn remove_at(&mut self, index_key: u64, i: usize)
        requires { i < length (bucket_at (entries self.old) index_key) }
        ensures remove { Puts (entries self.old) (entries self.new) index_key
            (remove (bucket_at (entries self.old) index_key) i) }
        ensures index { IsIndex (entries self.new) };

    // Shows each value, bucket by bucket, each bucket in order, and gives the visitor back.
    fn show_all<F: FnMut(&Self::Value)>(&self, visit: F) -> F
        requires { F.IsAlwaysCallable visit }
        ensures shown { FoldsTo (λ p x q. CalledAt F.FnMut p x tt q) visit
            (all_values (entries self.now)) result }
        ensures again { F.IsAlwaysCallable result }
        ensures index { IsIndex (entries self.now) };
}

// A table that finds a bucket's neighbours.
pub trait OrderedTable: Table {
    // The bucket of the least index key.
    fn first(&self) -> Option<&[Self::Value]>
        ensures { FirstIs Up (Self.entries self.now) (option_map (λ b. b.now) result) };

    // The bucket of the greatest index key.
    fn last(&self) -> Option<&[Self::Value]>
        ensures { FirstIs Down (Self.entries self.now) (option_map (λ b. b.now) result) };

    // The bucket of the least index key above this one.
    fn above(&self, index_key: u64) -> Option<&[Self::Value]>
        ensures { NextIs Up (Self.entries self.now) index_key (option_map (λ b. b.now) result) };

    // The bucket of the greatest index key below this one.
    fn below(&self, index_key: u64) -> Option<&[Self::Value]>
        ensures { NextIs Down (Self.entries self.now) index_key (option_map (λ b. b.now) result) };
}
