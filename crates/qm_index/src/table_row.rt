//! Tables in a row, one for each partition.

ghost use Rattle.std.specs.Prelude.{◌≡◌, ◌⊎◌, ◌<◌, ◌≤◌, ◌+◌, ◌*◌, ◌^◌, ℕ, ⊤, [], ◌∷◌, ◌++◌, length, set, remove, slice_index_or, option_map, IfSome, IfNone, OnOk, OnErr};
ghost use Rattle.std.specs.List.{FoldsTo, flat_map};
ghost use Rattle.std.specs.Fn.{CalledAt};
ghost use Rattle.qm_index.specs.Buckets.{bucket_at, all_values};
ghost use Rattle.qm_index.specs.Partitioned.{joined, part_at, AreParts, AreIndices, Changes};
ghost use Rattle.qm_index.specs.Ways.{Up, Down, NextIs, FirstOf};

use crate::table::{OrderedTable, Table};
use std::alloc::{AllocError, Global};
use std::marker::Model;
use std::mem;

// Tables in a row. Those after the last one that is there are empty, and take no memory.
#[derive(Drop)]
pub struct TableRow<B: Table> {
    tables: Vec<B>,
}

impl<B: Table> Model for TableRow<B> {
    ghost use Rattle.std.specs.Prelude.{ℕ, List, map};

    ghost Value = { List (List (ℕ × List B.Value)) };

    ghost view = { λ t. map B.entries t.tables.items };
}

impl<B: Table> TableRow<B> {
    // No table. It takes no memory yet.
    pub fn new(alloc: Global) -> Self
        ensures { result ≡ [] }
    {
        TableRow {
            tables: Vec::new(alloc),
        }
    }

    // The table at a place, if it is there.
    pub fn get(&self, place: u64) -> Option<&B>
        ensures some { IfSome result (λ table. (place < length self.now)
            × (B.entries table.now ≡ slice_index_or self.now place [])) }
        ensures none { IfNone result (length self.now ≤ place) }
    {
        self.tables.get(place as usize)
    }

    // So many tables are there. Those that were not there are empty. Want of memory is the only error, and changes nothing that
    // is told of the buckets.
    pub fn hold(&mut self, alloc: Global, count: u64) -> Result<(), AllocError>
        ensures same { (p : ℕ) → joined p self.new ≡ joined p self.old }
        ensures are { (most : ℕ) → count ≤ most → AreParts most self.old → AreParts most self.new }
        ensures long { OnOk result (count ≤ length self.new) }
    {
        while (self.tables.len() as u64) < count {
            self.tables.push(B::new(alloc))?;
        }
        Ok(())
    }

    // Puts a value after the others under an index key of a table. Want of memory is the only error, and leaves all as it was.
    pub fn insert(&mut self, place: u64, index_key: u64, value: B::Value) -> Result<(), AllocError>
        requires { place < length self.old }
        ensures ok { OnOk result (Changes self.old self.new place index_key
            (λ values. values ++ value ∷ [])) }
        ensures err { OnErr result (self.new ≡ self.old) }
    {
        self.tables[place as usize].insert(index_key, value)
    }

    // Puts a value in the place of one under an index key of a table.
    pub fn update_at(&mut self, place: u64, index_key: u64, i: usize, value: B::Value)
        requires { i < length (bucket_at (slice_index_or self.old place []) index_key) }
        ensures { Changes self.old self.new place index_key (λ values. set values i value) }
    {
        self.tables[place as usize].update_at(index_key, i, value);
    }

    // Takes a value out under an index key of a table; the later ones move down.
    pub fn remove_at(&mut self, place: u64, index_key: u64, i: usize)
        requires { i < length (bucket_at (slice_index_or self.old place []) index_key) }
        ensures { Changes self.old self.new place index_key (λ values. remove values i) }
    {
        self.tables[place as usize].remove_at(index_key, i);
    }

    // Takes a partition's table out, and leaves an empty one; the first table is the first partition's. What is taken is empty if
    // it was not there.
    fn take(&mut self, alloc: Global, first: u64, partition: u64) -> B
        ensures taken { B.entries result ≡ part_at first self.old partition }
        ensures others { (p : ℕ) → (p ≡ partition → ⊥)
            → part_at first self.new p ≡ part_at first self.old p }
    {
        if partition < first {
            return B::new(alloc);
        }
        let place = partition - first;
        if place < self.tables.len() as u64 {
            mem::replace(&mut self.tables[place as usize], B::new(alloc))
        } else {
            B::new(alloc)
        }
    }

    // Puts a table in the place of one.
    fn put(&mut self, place: u64, table: B)
        requires { place < length self.old }
        ensures { self.new ≡ set self.old place (B.entries table) }
    {
        self.tables[place as usize] = table;
    }

    // Puts so many partitions of another row, which begins with its first one, in the place of the tables from one on. Those that
    // the other lacks are empty.
    pub fn replace(
        &mut self,
        alloc: Global,
        place: u64,
        mut other: Self,
        first: u64,
        from: u64,
        count: u64,
    )
        requires room { place + count ≤ length self.old }
        requires end { place + count < 2 ^ 64 }
        requires last { from + count < 2 ^ 64 }
        ensures long { length self.new ≡ length self.old }
        ensures inside { (i : ℕ) → i < count
            → slice_index_or self.new (place + i) [] ≡ part_at first other (from + i) }
        ensures outside { (i : ℕ) → (i < place) ⊎ (place + count ≤ i)
            → slice_index_or self.new i [] ≡ slice_index_or self.old i [] }
    {
        for i in 0..count {
            let table = other.take(alloc, first, from + i);
            self.put(place + i, table);
        }
    }

    // Shows each value, table by table.
    pub fn show_all<F: FnMut(&B::Value)>(&self, mut visit: F) -> F
        requires { F.IsAlwaysCallable visit }
        ensures { FoldsTo (λ p x q. CalledAt F.FnMut p x tt q) visit
            (flat_map all_values self.now) result }
    {
        let mut rest = self.tables.as_slice();
        while let Some((table, behind)) = rest.split_first() {
            visit = table.show_all(visit);
            rest = behind;
        }
        visit
    }
}

impl<B: OrderedTable> TableRow<B> {
    // The first bucket from a table on.
    fn first_from(&self, place: usize) -> Option<&[B::Value]>
        requires { place ≤ length self.now }
        ensures { FirstOf Up (λ j. place ≤ j) self.now (option_map (λ b. b.now) result) }
    {
        let mut rest = &self.tables[place..];
        while let Some((table, behind)) = rest.split_first() {
            match table.first() {
                Some(bucket) => return Some(bucket),
                None => rest = behind,
            }
        }
        None
    }

    // The last bucket before a table.
    fn last_before(&self, place: usize) -> Option<&[B::Value]>
        requires { place ≤ length self.now }
        ensures { FirstOf Down (λ j. j < place) self.now (option_map (λ b. b.now) result) }
    {
        let mut rest = &self.tables[..place];
        while let Some((table, before)) = rest.split_last() {
            match table.last() {
                Some(bucket) => return Some(bucket),
                None => rest = before,
            }
        }
        None
    }

    // The first bucket of all.
    pub fn first(&self) -> Option<&[B::Value]>
        ensures { FirstOf Up (λ j. 0 ≤ j) self.now (option_map (λ b. b.now) result) }
    {
        self.first_from(0)
    }

    // The last bucket of all.
    pub fn last(&self) -> Option<&[B::Value]>
        ensures { FirstOf Down (λ j. j < length self.now) self.now
            (option_map (λ b. b.now) result) }
    {
        self.last_before(self.tables.len())
    }

    // The bucket of the least index key above one in a table.
    pub fn above(&self, place: u64, index_key: u64) -> Option<&[B::Value]>
        ensures { (first : ℕ) → AreIndices self.now → NextIs Up (joined first self.now)
            ((first + place) * 2 ^ 64 + index_key) (option_map (λ b. b.now) result) }
    {
        match self.tables.get(place as usize) {
            Some(table) => match table.above(index_key) {
                Some(bucket) => Some(bucket),
                None => self.first_from(place as usize + 1),
            },
            None => None,
        }
    }

    // The bucket of the greatest index key below one in a table.
    pub fn below(&self, place: u64, index_key: u64) -> Option<&[B::Value]>
        ensures { (first : ℕ) → AreIndices self.now → NextIs Down (joined first self.now)
            ((first + place) * 2 ^ 64 + index_key) (option_map (λ b. b.now) result) }
    {
        match self.tables.get(place as usize) {
            Some(table) => match table.below(index_key) {
                Some(bucket) => Some(bucket),
                None => self.last_before(place as usize),
            },
            None => self.last(),
        }
    }
}
