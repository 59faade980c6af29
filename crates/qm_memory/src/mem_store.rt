// A store in memory, which fails exactly at the listed calls.
ghost use Rattle.std.specs.Prelude.{◌≡◌, ◌≢◌, ◌+◌, ◌-◌, ◌^◌, ◌<◌, ◌≤◌, ◌↔◌, [], length, map, slice_get, Contains};
ghost use Rattle.std.specs.Prelude.{IsTrue, Some, IfOk, OnOk, OnErr, IsErrOf};
ghost use Rattle.std.proofs.Common.{refl};
ghost use Rattle.std.proofs.Math.Nat.{le-add_right};
ghost use Rattle.qm_model.specs.Causes.{IsCause};
ghost use Rattle.qm_model.specs.StoreModel.{metadata_in, appended, settled, rewound, pruned, with_metadata, restarted, destroyed, end_of};
ghost use Rattle.qm_memory.specs.ChangeViews.{named_of};
ghost use Rattle.qm_memory.specs.Changes.{AreNamedOnce, appending, settling, rewinding, pruning, putting, restarting, emptying};
ghost use Rattle.qm_memory.specs.Mem.{Mem, at_start, at_rest, holding, filled, called, failed, made, chosen, IsInside};

use crate::change::{Change, Cut, Dropped, Kind, Pruned};
use crate::items::Items;
use crate::metadata::{Metadata, entries_of, put_all, take_out};
use qm_store::{MetaEntry, Store, StoreError};
use std::alloc::{AllocError, Global};
use std::marker::Model;
use std::mem::replace;

/// A store in memory. Its calls that may fail are numbered from 0 on, and those fail whose numbers are listed. The numbers
/// stand still at their greatest value.
///
/// It notes what each call changed, and what it replaced, so that each earlier state can be told from the present one: some
/// 24 bytes a call, and what was cut off or dropped.
#[derive(Drop)]
pub struct MemStore {
    alloc: Global,
    first: u64,
    head: Vec<u8>,
    kept: Items,
    metadata: Vec<Metadata>,
    stable: u64,
    ends: Vec<u64>,
    changes: Vec<Change>,
    listed: Vec<u64>,
    called: u64,
    failed: u64,
}

impl Model for MemStore {
    ghost use Rattle.std.specs.Prelude.{◌+◌, ◌^◌, ◌≤◌, [], length, reverse};
    ghost use Rattle.qm_memory.specs.Changes.{AreNamedOnce, with_past};
    ghost use Rattle.qm_memory.specs.Mem.{Mem};

    ghost Value = { Mem };

    ghost view = { λ s. record { held = with_past (reverse s.changes.items) (record { start = s.first; items = s.kept; head = s.head.items; metadata = s.metadata.items; stable = s.stable; ends = s.ends.items; past = [] }); changes = reverse s.changes.items; fail = s.listed.items; calls = s.called; faults = s.failed } };

    ghost invariant = { λ s. (s.first ≤ s.stable) × (s.stable ≤ s.first + length s.kept) × (s.first + length s.kept ≤ 2 ^ 62) × AreNamedOnce s.metadata.items };
}

impl MemStore {
    /// An empty store, which fails at the calls of these numbers.
    pub fn new(alloc: Global, fail: Vec<u64>) -> MemStore
        ensures { result ≡ at_rest (at_start 0 []) fail.items }
    {
        MemStore::with_head(alloc, 0, Vec::new(alloc), fail)
    }

    /// An empty store whose first item will be at this location, with this head.
    pub fn with_head(alloc: Global, start: u64, head: Vec<u8>, fail: Vec<u64>) -> MemStore
        requires { start ≤ 2 ^ 62 }
        ensures { result ≡ at_rest (at_start start head.items) fail.items }
    {
        MemStore::at_rest(alloc, start, head, Items::new(alloc), Vec::new(alloc), fail)
    }

    /// A store with copies of these items from a location on, all of them stable, with this head and these metadata, which
    /// fails at the calls of these numbers. The metadata are put one after another, so of those of one name it has the last.
    pub fn of(
        alloc: Global,
        start: u64,
        head: Vec<u8>,
        items: &[Vec<u8>],
        metadata: Vec<(String, Vec<MetaEntry>)>,
        fail: Vec<u64>,
    ) -> Result<MemStore, AllocError>
        requires { start + length items.now ≤ 2 ^ 62 }
        ensures { IfOk result (λ store. store
            ≡ at_rest (filled start head.items (map (λ v. v.items) items.now)
            (map named_of metadata.items)) fail.items) }
    {
        let mut kept = Items::new(alloc);
        kept.append(items)?;
        let metadata = put_all(alloc, metadata)?;
        Ok(MemStore::at_rest(alloc, start, head, kept, metadata, fail))
    }

    // A store of which all is stable, and nothing was called.
    fn at_rest(
        alloc: Global,
        start: u64,
        head: Vec<u8>,
        kept: Items,
        metadata: Vec<Metadata>,
        fail: Vec<u64>,
    ) -> MemStore
        requires limit { start + length kept ≤ 2 ^ 62 }
        requires once { AreNamedOnce metadata.items }
        ensures { result ≡ at_rest (holding start head.items kept metadata.items) fail.items }
    {
        let stable = start + kept.len() as u64;
        MemStore {
            alloc,
            first: start,
            head,
            kept,
            metadata,
            stable,
            ends: Vec::new(alloc),
            changes: Vec::new(alloc),
            listed: fail,
            called: 0,
            failed: 0,
        }
    }

    /// How many items it has.
    pub fn len(&self) -> usize
        ensures { result ≡ length self.now.held.items }
    {
        self.kept.len()
    }

    /// Whether it has no item.
    pub fn is_empty(&self) -> bool
        ensures { IsTrue result ↔ (length self.now.held.items ≡ 0) }
    {
        self.kept.len() == 0
    }

    /// An item, by how many are before it.
    pub fn item(&self, at: usize) -> &[u8]
        requires { at < length self.now.held.items }
        ensures { slice_get self.now.held.items at ≡ Some result.now }
    {
        self.kept.item(at)
    }

    // Counts a call, which fails if it is listed.
    fn call(&mut self) -> Result<(), StoreError>
        ensures listed { (result ≡ Err StoreError.Failed) ↔ Contains self.old.fail self.old.calls }
        ensures ok { OnOk result (self.new ≡ called self.old) }
        ensures err { OnErr result (self.new ≡ failed self.old) }
        ensures only { OnErr result (result ≡ Err StoreError.Failed) }
        ensures inside { IsInside self.old }
        ensures cause { IsCause self.old.faults self.new.faults (IsErrOf result StoreError.Failed) }
    {
        let fails = self.listed.contains(&self.called);
        self.called = self.called.saturating_add(1);
        if fails {
            self.failed = self.failed.saturating_add(1);
            return Err(StoreError::Failed);
        }
        Ok(())
    }
}

impl Store for MemStore {
    ghost start = { λ s. s.held.start };

    ghost end = { λ s. end_of s.held };

    ghost told = { λ s. Some s.held };

    ghost faults = { λ s. s.faults };

    ghost calls = { λ s. s.calls };

    ghost ordered = { λ s. le-add_right s.held.start (length s.held.items) };

    ghost told_start = { λ s. refl };

    ghost told_end = { λ s. refl };

    fn bounds(&self) -> (u64, u64) {
        (self.first, self.first + self.kept.len() as u64)
    }

    fn faults(&self) -> u64 {
        self.failed
    }

    fn read(&mut self, at: u64) -> Result<Vec<u8>, StoreError>
        requires from { self.old.held.start ≤ at }
        requires before { at < end_of self.old.held }
        ensures item { IfOk result (λ v.
            slice_get self.old.held.items (at - self.old.held.start) ≡ Some v.items) }
        ensures same { self.new.held ≡ self.old.held }
        ensures cause { IsCause self.old.faults self.new.faults (IsErrOf result StoreError.Failed) }

        // It fails at the listed calls alone, and a call changes only the two counts.
        ensures fails { (result ≡ Err StoreError.Failed) ↔ Contains self.old.fail self.old.calls }
        ensures fault { result ≡ Err StoreError.Failed → self.new ≡ failed self.old }
        ensures other { result ≢ Err StoreError.Failed → self.new ≡ called self.old }
    {
        self.call()?;
        let item = self.kept.item((at - self.first) as usize);
        Ok(item.to_vec(self.alloc)?)
    }

    fn head(&mut self) -> Result<Vec<u8>, StoreError>
        ensures value { IfOk result (λ v. v.items ≡ self.old.held.head) }
        ensures same { self.new.held ≡ self.old.held }
        ensures cause { IsCause self.old.faults self.new.faults (IsErrOf result StoreError.Failed) }

        // It fails at the listed calls alone, and a call changes only the two counts.
        ensures fails { (result ≡ Err StoreError.Failed) ↔ Contains self.old.fail self.old.calls }
        ensures fault { result ≡ Err StoreError.Failed → self.new ≡ failed self.old }
        ensures other { result ≢ Err StoreError.Failed → self.new ≡ called self.old }
    {
        self.call()?;
        Ok(self.head.as_slice().to_vec(self.alloc)?)
    }

    fn meta(&mut self, name: &str) -> Result<Vec<MetaEntry>, StoreError>
        ensures value { IfOk result (λ v. v.items ≡ metadata_in self.old.held.metadata name.now) }
        ensures same { self.new.held ≡ self.old.held }
        ensures cause { IsCause self.old.faults self.new.faults (IsErrOf result StoreError.Failed) }

        // It fails at the listed calls alone, and a call changes only the two counts.
        ensures fails { (result ≡ Err StoreError.Failed) ↔ Contains self.old.fail self.old.calls }
        ensures fault { result ≡ Err StoreError.Failed → self.new ≡ failed self.old }
        ensures other { result ≢ Err StoreError.Failed → self.new ≡ called self.old }
    {
        self.call()?;
        Ok(entries_of(self.alloc, &self.metadata, name)?)
    }

    fn append(&mut self, added: &[Vec<u8>]) -> Result<(), StoreError>
        requires room { end_of self.old.held + length added.now ≤ 2 ^ 62 }
        ensures inside { IsInside self.old }
        ensures cause { IsCause self.old.faults self.new.faults (IsErrOf result StoreError.Failed) }

        // It fails at the listed calls alone.
        ensures fails { (result ≡ Err StoreError.Failed) ↔ Contains self.old.fail self.old.calls }
        ensures fault { result ≡ Err StoreError.Failed → self.new ≡ failed self.old }
        ensures ok { OnOk result (self.new
            ≡ made (appending (map (λ v. v.items) added.now))
            (appended (map (λ v. v.items) added.now)) self.old) }
        ensures memory { result ≡ Err StoreError.Memory → self.new ≡ called self.old }
    {
        self.call()?;
        self.changes.reserve(1)?;
        self.kept.append(added)?;
        self.changes.push_reserved(Change {
            kind: Kind::Grew(added.len() as u64),
        });
        Ok(())
    }

    fn commit(&mut self) -> Result<(), StoreError>
        ensures inside { IsInside self.old }
        ensures cause { IsCause self.old.faults self.new.faults (IsErrOf result StoreError.Failed) }

        // It fails at the listed calls alone.
        ensures fails { (result ≡ Err StoreError.Failed) ↔ Contains self.old.fail self.old.calls }
        ensures fault { result ≡ Err StoreError.Failed → self.new ≡ failed self.old }
        ensures ok { OnOk result (self.new ≡ made settling settled self.old) }
        ensures memory { result ≡ Err StoreError.Memory → self.new ≡ called self.old }
    {
        self.call()?;
        self.changes.reserve(1)?;
        self.changes.push_reserved(Change {
            kind: Kind::SettledFrom(self.stable),
        });
        self.stable = self.first + self.kept.len() as u64;
        Ok(())
    }

    fn sync(&mut self) -> Result<(), StoreError>
        ensures inside { IsInside self.old }
        ensures cause { IsCause self.old.faults self.new.faults (IsErrOf result StoreError.Failed) }

        // It fails at the listed calls alone.
        ensures fails { (result ≡ Err StoreError.Failed) ↔ Contains self.old.fail self.old.calls }
        ensures fault { result ≡ Err StoreError.Failed → self.new ≡ failed self.old }
        ensures ok { OnOk result (self.new ≡ made settling settled self.old) }
        ensures memory { result ≡ Err StoreError.Memory → self.new ≡ called self.old }
    {
        self.commit()
    }

    fn rewind(&mut self, to: u64) -> Result<(), StoreError>
        requires from { self.old.held.start ≤ to }
        requires before { to ≤ end_of self.old.held }
        ensures inside { IsInside self.old }
        ensures cause { IsCause self.old.faults self.new.faults (IsErrOf result StoreError.Failed) }

        // It fails at the listed calls alone.
        ensures fails { (result ≡ Err StoreError.Failed) ↔ Contains self.old.fail self.old.calls }
        ensures fault { result ≡ Err StoreError.Failed → self.new ≡ failed self.old }
        ensures ok { OnOk result (self.new ≡ made (rewinding to) (rewound to) self.old) }
        ensures memory { result ≡ Err StoreError.Memory → self.new ≡ called self.old }
    {
        self.call()?;
        self.changes.reserve(1)?;
        let count = (to - self.first) as usize;
        let cut = Cut {
            items: self.kept.behind(self.alloc, count)?,
            stable: self.stable,
        };
        let cut = Box::new(self.alloc, cut)?;
        self.kept.truncate(count);
        self.stable = self.stable.min(to);
        self.changes.push_reserved(Change {
            kind: Kind::RewoundFrom(cut),
        });
        Ok(())
    }

    fn prune(&mut self, to: u64, head: &[u8]) -> Result<(), StoreError>
        requires from { self.old.held.start ≤ to }
        requires before { to ≤ end_of self.old.held }
        requires stable { to ≤ self.old.held.stable }
        ensures inside { IsInside self.old }
        ensures cause { IsCause self.old.faults self.new.faults (IsErrOf result StoreError.Failed) }

        // It fails at the listed calls alone.
        ensures fails { (result ≡ Err StoreError.Failed) ↔ Contains self.old.fail self.old.calls }
        ensures fault { result ≡ Err StoreError.Failed → self.new ≡ failed self.old }
        ensures ok { OnOk result (self.new ≡ made (pruning to) (pruned to head.now) self.old) }
        ensures memory { result ≡ Err StoreError.Memory → self.new ≡ called self.old }
    {
        self.call()?;
        self.changes.reserve(1)?;
        let count = (to - self.first) as usize;
        let head = head.to_vec(self.alloc)?;
        let pruned = Pruned {
            start: self.first,
            head: Vec::new(self.alloc),
            items: self.kept.first(self.alloc, count)?,
        };
        let mut pruned = Box::new(self.alloc, pruned)?;
        pruned.head = replace(&mut self.head, head);
        self.kept.remove_first(count);
        self.first = to;
        self.changes.push_reserved(Change {
            kind: Kind::PrunedFrom(pruned),
        });
        Ok(())
    }

    fn put_meta(&mut self, name: &str, entries: &[MetaEntry]) -> Result<(), StoreError>
        ensures inside { IsInside self.old }
        ensures cause { IsCause self.old.faults self.new.faults (IsErrOf result StoreError.Failed) }

        // It fails at the listed calls alone.
        ensures fails { (result ≡ Err StoreError.Failed) ↔ Contains self.old.fail self.old.calls }
        ensures fault { result ≡ Err StoreError.Failed → self.new ≡ failed self.old }
        ensures ok { OnOk result (self.new
            ≡ made (λ s. putting name.now s.metadata) (with_metadata name.now entries.now)
            self.old) }
        ensures memory { result ≡ Err StoreError.Memory → self.new ≡ called self.old }
    {
        self.call()?;
        self.changes.reserve(1)?;
        self.metadata.reserve(1)?;
        let named = Metadata::of(self.alloc, name, entries)?;
        let change = take_out(self.alloc, &mut self.metadata, name)?;
        self.metadata.insert(0, named).unwrap();
        self.changes.push_reserved(change);
        Ok(())
    }

    fn restart(&mut self, keep: u64) -> Result<(), StoreError>
        ensures inside { IsInside self.old }
        ensures cause { IsCause self.old.faults self.new.faults (IsErrOf result StoreError.Failed) }

        // It fails at the listed calls alone.
        ensures fails { (result ≡ Err StoreError.Failed) ↔ Contains self.old.fail self.old.calls }
        ensures fault { result ≡ Err StoreError.Failed → self.new ≡ failed self.old }
        ensures ok { OnOk result (self.new
            ≡ made (λ s. restarting (chosen keep s) s) (λ s. restarted (chosen keep s) s)
            self.old) }
        ensures memory { result ≡ Err StoreError.Memory → self.new ≡ called self.old }
    {
        self.call()?;
        let end = self.first + self.kept.len() as u64;
        let to = self.stable.max(end.min(keep));
        let count = (to - self.first) as usize;
        self.changes.reserve(1)?;
        let cut = Cut {
            items: self.kept.behind(self.alloc, count)?,
            stable: self.stable,
        };
        let cut = Box::new(self.alloc, cut)?;
        self.ends.push(to)?;
        self.kept.truncate(count);
        self.stable = to;
        self.changes.push_reserved(Change {
            kind: Kind::RestartedFrom(cut),
        });
        Ok(())
    }

    fn destroy(&mut self) -> Result<(), StoreError>
        ensures inside { IsInside self.old }
        ensures cause { IsCause self.old.faults self.new.faults (IsErrOf result StoreError.Failed) }

        // It fails at the listed calls alone.
        ensures fails { (result ≡ Err StoreError.Failed) ↔ Contains self.old.fail self.old.calls }
        ensures fault { result ≡ Err StoreError.Failed → self.new ≡ failed self.old }
        ensures ok { OnOk result (self.new ≡ made emptying destroyed self.old) }
        ensures memory { result ≡ Err StoreError.Memory → self.new ≡ called self.old }
    {
        self.call()?;
        self.changes.reserve(1)?;
        let mut dropped = Box::new(self.alloc, Dropped::none(self.alloc))?;
        *dropped = Dropped {
            start: self.first,
            items: replace(&mut self.kept, Items::new(self.alloc)),
            head: replace(&mut self.head, Vec::new(self.alloc)),
            metadata: replace(&mut self.metadata, Vec::new(self.alloc)),
            stable: self.stable,
        };
        self.first = 0;
        self.stable = 0;
        self.changes.push_reserved(Change {
            kind: Kind::Emptied(dropped),
        });
        Ok(())
    }
}
