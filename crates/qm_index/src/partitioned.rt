//! Indices in partitions, of which ranges can be built apart.

ghost use Rattle.std.specs.Prelude.{◌≡◌, ◌⊎◌, ◌<◌, ◌≤◌, ◌+◌, ◌*◌, ◌^◌, ℕ, false, List, [], ◌∷◌, ◌++◌, length, set, remove, option_map, IfSome, IfNone, OnOk, OnErr, refl};
ghost use Rattle.std.specs.List.{FoldsTo};
ghost use Rattle.std.specs.Result.{IsErr};
ghost use Rattle.std.specs.Fn.{CalledAt};
ghost use Rattle.qm_index.specs.Buckets.{bucket_at, Puts, IsIndex, all_values};
ghost use Rattle.qm_index.specs.Ways.{Up, Down, FirstIs, NextIs};
ghost use Rattle.qm_index.specs.PartitionOrder.{partitioned-monotone};
ghost use Rattle.qm_index.specs.Partitioned.{Range, in_range, partition_of, partitioned, Installed, IsWithin, joined_parts};

use crate::ordered::Ordered;
use crate::prefix::{Prefix, rest_of};
use crate::table::{OrderedTable, Table};
use crate::table_row::TableRow;
use crate::translator::{OrderedTranslator, Translator, capped};
use crate::unordered::{Factory, Unordered};
use std::alloc::{AllocError, Global};
use std::marker::{Model, PhantomData};

pub mod ordered;
pub mod unordered;

/// An index in partitions, which the first bytes of a key tell. A range of its partitions is such an index too: it can be built apart from the others, and be installed.
pub trait Ranges: Unordered {
    /// How many partitions there are.
    ghost PARTITIONS: { ℕ };

    /// Of which partitions this is the index: of all, or of a range.
    ghost range: { Self → Range };

    /// How many partitions there are, whatever the range.
    fn partition_count(&self) -> u64
        ensures value { result ≡ PARTITIONS }
        ensures either { (result ≡ 256) ⊎ (result ≡ 65536) };

    /// The partition of a key, which stands before the rest of its index key.
    fn partition(&self, key: &[u8]) -> u64
        ensures value { result ≡ partition_of (Self.index_key key.now) }
        ensures below { result < PARTITIONS }
        ensures outside { IsWithin (Self.entries self.now) (range self.now) };

    /// An index of a range of partitions, without buckets. It takes no memory yet.
    fn new_range(&self, from: u64, count: u64) -> Self
        requires { from + count ≤ PARTITIONS }
        ensures entries { Self.entries result ≡ [] }
        ensures range { range result ≡ record { first = from; count = count } };

    /// Puts so many partitions of another index, from one on, in the place of those that are here, and leaves the others as they are. Those that the other index lacks are empty. Want of memory is the only error, and leaves the index as it was.
    fn install_range(&mut self, from: u64, count: u64, built: Self) -> Result<(), AllocError>
        requires from { (range self.old).first ≤ from }
        requires end { from + count ≤ (range self.old).first + (range self.old).count }
        ensures ok { OnOk result (Installed (Self.entries self.old) (Self.entries self.new)
            (Self.entries built) (record { first = from; count = count })) }
        ensures err { OnErr result (Self.entries self.new ≡ Self.entries self.old) }
        ensures range { range self.new ≡ range self.old }
        ensures outside { IsWithin (Self.entries self.new) (range self.new) }
        ensures index { IsIndex (Self.entries self.new) };
}

/// An index in partitions over tables of a kind: [`unordered::Index`] or [`ordered::Index`]. Each partition has a table of its own, and one that was never written, with all after it, takes no memory.
#[derive(Drop)]
pub struct Index<T, B: Table, P: Prefix> {
    alloc: Global,
    translator: T,
    first: u64,
    count: u64,
    parts: TableRow<B>,
    prefix: PhantomData<P>,
}

impl<T, B: Table, P: Prefix> Model for Index<T, B, P> {
    ghost use Rattle.std.specs.Prelude.{◌≤◌, ◌+◌, ◌^◌};
    ghost use Rattle.qm_index.specs.Partitioned.{Parts, AreParts};

    ghost Value = { Parts B.Value };

    ghost view = { λ i. record { range = record { first = i.first; count = i.count }; parts = i.parts } };

    ghost invariant = { λ i. AreParts i.count i.parts × (i.first + i.count ≤ 256 ^ P.WIDTH) };
}

impl<T: Translator, B: Table, P: Prefix> Factory for Index<T, B, P> {
    type Translator = T;

    ghost made_from = { partitioned P.WIDTH };

    ghost translated = { refl };

    fn new(alloc: Global, translator: T) -> Self
        ensures entries { joined_parts result ≡ [] }
        ensures range { result.range ≡ record { first = 0; count = 256 ^ P.WIDTH } }
    {
        Index {
            alloc,
            translator,
            first: 0,
            count: count_of(P::width()),
            parts: TableRow::new(alloc),
            prefix: PhantomData,
        }
    }
}

// How many partitions so many bytes tell.
fn count_of(width: u32) -> u64
    requires { (width ≡ 1) ⊎ (width ≡ 2) }
    ensures value { result ≡ 256 ^ width }
    ensures either { (result ≡ 256) ⊎ (result ≡ 65536) }
{
    if width == 1 { 256 } else { 65536 }
}

impl<T: Translator, B: Table, P: Prefix> Unordered for Index<T, B, P> {
    type Value = B::Value;

    ghost index_key = { partitioned P.WIDTH T.index_key };

    ghost entries = { joined_parts };

    fn bucket(&self, key: &[u8]) -> &[B::Value] {
        let partition = capped(key, P::width());
        let index_key = self.translator.index_key(rest_of(key, P::width() as usize));
        match self.part(partition) {
            Some(table) => table.bucket(index_key),
            None => &[],
        }
    }

    fn insert(&mut self, key: &[u8], value: B::Value) -> Result<(), AllocError>
        ensures ok { OnOk result (Puts (joined_parts self.old) (joined_parts self.new)
            (partitioned P.WIDTH T.index_key key.now)
            (bucket_at (joined_parts self.old) (partitioned P.WIDTH T.index_key key.now)
            ++ value ∷ [])) }
        ensures err { OnErr result (joined_parts self.new ≡ joined_parts self.old) }
        ensures index { IsIndex (joined_parts self.new) }
        ensures range { self.new.range ≡ self.old.range }
        ensures refused { in_range self.old.range (partitioned P.WIDTH T.index_key key.now) ≡ false
            → IsErr result }
    {
        let partition = capped(key, P::width());
        let index_key = self.translator.index_key(rest_of(key, P::width() as usize));
        if partition < self.first || self.count <= partition - self.first {
            return Err(AllocError);
        }
        let place = partition - self.first;
        self.parts.hold(self.alloc, place + 1)?;
        self.parts.insert(place, index_key, value)
    }

    fn update_at(&mut self, key: &[u8], i: usize, value: B::Value) {
        let partition = capped(key, P::width());
        let index_key = self.translator.index_key(rest_of(key, P::width() as usize));
        if partition < self.first {
            return;
        }
        let place = partition - self.first;
        self.parts.update_at(place, index_key, i, value);
    }

    fn remove_at(&mut self, key: &[u8], i: usize) {
        let partition = capped(key, P::width());
        let index_key = self.translator.index_key(rest_of(key, P::width() as usize));
        if partition < self.first {
            return;
        }
        let place = partition - self.first;
        self.parts.remove_at(place, index_key, i);
    }

    fn for_each_value<F: FnMut(&B::Value)>(&self, visit: F) {
        self.parts.show_all(visit);
    }
}

impl<T, B: Table, P: Prefix> Index<T, B, P> {
    // The table of a partition, if it is there.
    fn part(&self, partition: u64) -> Option<&B>
        ensures some { IfSome result (λ table. (k : ℕ) → k < 2 ^ 64
            → bucket_at (joined_parts self.now) (partition * 2 ^ 64 + k)
            ≡ bucket_at (B.entries table.now) k) }
        ensures none { IfNone result ((k : ℕ) → k < 2 ^ 64
            → bucket_at (joined_parts self.now) (partition * 2 ^ 64 + k) ≡ []) }
    {
        if partition < self.first {
            return None;
        }
        self.parts.get(partition - self.first)
    }
}

impl<T: Translator + Copy, B: Table, P: Prefix> Ranges for Index<T, B, P> {
    ghost PARTITIONS = { 256 ^ P.WIDTH };

    ghost range = { λ i. i.range };

    fn partition_count(&self) -> u64 {
        count_of(P::width())
    }

    fn partition(&self, key: &[u8]) -> u64 {
        // The rest of the index key is below 2^64.
        self.translator.index_key(rest_of(key, P::width() as usize));
        capped(key, P::width())
    }

    fn new_range(&self, from: u64, count: u64) -> Self {
        Index {
            alloc: self.alloc,
            translator: self.translator,
            first: from,
            count,
            parts: TableRow::new(self.alloc),
            prefix: PhantomData,
        }
    }

    fn install_range(&mut self, from: u64, count: u64, built: Self) -> Result<(), AllocError> {
        let Index {
            alloc: _,
            translator: _,
            first,
            count: _,
            parts,
            prefix: _,
        } = built;
        let place = from - self.first;
        self.parts.hold(self.alloc, place + count)?;
        self.parts
            .replace(self.alloc, place, parts, first, from, count);
        Ok(())
    }
}

impl<T: OrderedTranslator, B: OrderedTable, P: Prefix> Ordered for Index<T, B, P> {
    ghost monotone = { partitioned-monotone P.WIDTH T.index_key T.small T.monotone };

    fn prev_bucket(&self, key: &[u8]) -> Option<(&[B::Value], bool)> {
        let partition = capped(key, P::width());
        let index_key = self.translator.index_key(rest_of(key, P::width() as usize));
        match self.below(partition, index_key) {
            Some(bucket) => Some((bucket, false)),
            None => match self.last() {
                Some(bucket) => Some((bucket, true)),
                None => None,
            },
        }
    }

    fn next_bucket(&self, key: &[u8]) -> Option<(&[B::Value], bool)> {
        let partition = capped(key, P::width());
        let index_key = self.translator.index_key(rest_of(key, P::width() as usize));
        match self.above(partition, index_key) {
            Some(bucket) => Some((bucket, false)),
            None => match self.first() {
                Some(bucket) => Some((bucket, true)),
                None => None,
            },
        }
    }

    fn first_bucket(&self) -> Option<&[B::Value]> {
        self.first()
    }
}

impl<T, B: OrderedTable, P: Prefix> Index<T, B, P> {
    // The bucket of the least index key.
    fn first(&self) -> Option<&[B::Value]>
        ensures value { FirstIs Up (joined_parts self.now) (option_map (λ b. b.now) result) }
        ensures index { IsIndex (joined_parts self.now) }
    {
        self.parts.first()
    }

    // The bucket of the greatest index key.
    fn last(&self) -> Option<&[B::Value]>
        ensures { FirstIs Down (joined_parts self.now) (option_map (λ b. b.now) result) }
    {
        self.parts.last()
    }

    // The bucket of the least index key above one in a partition.
    fn above(&self, partition: u64, index_key: u64) -> Option<&[B::Value]>
        ensures value { NextIs Up (joined_parts self.now) (partition * 2 ^ 64 + index_key)
            (option_map (λ b. b.now) result) }
        ensures index { IsIndex (joined_parts self.now) }
    {
        if partition < self.first {
            return self.first();
        }
        self.parts.above(partition - self.first, index_key)
    }

    // The bucket of the greatest index key below one in a partition.
    fn below(&self, partition: u64, index_key: u64) -> Option<&[B::Value]>
        ensures value { NextIs Down (joined_parts self.now) (partition * 2 ^ 64 + index_key)
            (option_map (λ b. b.now) result) }
        ensures index { IsIndex (joined_parts self.now) }
    {
        if partition < self.first {
            return None;
        }
        self.parts.below(partition - self.first, index_key)
    }
}
