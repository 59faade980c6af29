//! Where a database's operations are kept: what a store promises, and logs over stores.
#![tactic(auto)]

ghost use Rattle.std.specs.Prelude.{◌≡◌, ℕ, ◌+◌, ◌-◌, ◌^◌, ◌<◌, ◌≤◌, min, length, map, slice_get};
ghost use Rattle.std.specs.Prelude.{Option, Some, IfSome, IfOk, OnOk, OnErr, IsErrOf};
ghost use Rattle.qm_model.specs.Causes.{IsCause, Rose};
ghost use Rattle.qm_model.specs.StoreModel.{Stored, end_of, metadata_in, appended, settled, rewound, pruned, with_metadata, destroyed, IsImage, IsOldOrNew, RewindLeaves, DestroyLeaves, HasRestarted, ReadsAs, Turns, Becomes, Leaves, Grows};

mod items;
mod kept_tree;
mod log;
mod refusal;

pub use kept_tree::KeptTree;
pub use log::{AuthLog, LogGiven, LogRefusal};
pub use refusal::{Given, Refusal};
use std::alloc::{AllocError, AllocFailed};
use std::io::{self, ErrorKind};
use std::marker::Model;
use thiserror::Error;

/// Why a store's call failed.
#[derive(Clone, Copy, Debug, PartialEq, Eq, Error)]
pub enum StoreError {
    /// There was no memory for the answer, or for the items.
    #[error("out of memory")]
    Memory,
    /// The store itself failed, and its count of faults rose.
    #[error("store fault")]
    Failed,
}

impl From<AllocError> for StoreError {
    ghost use Rattle.qm_store.specs.declared.StoreError.TheVariants.{Memory};

    ghost from_gives = { λ _ e. e ≡ Memory };

    fn from(_: AllocError) -> Self {
        StoreError::Memory
    }
}

impl<T: Drop> From<AllocFailed<T>> for StoreError {
    ghost use Rattle.qm_store.specs.declared.StoreError.TheVariants.{Memory};

    ghost from_gives = { λ _ e. e ≡ Memory };

    fn from(_: AllocFailed<T>) -> Self {
        StoreError::Memory
    }
}

// `OutOfMemory` is `Memory`, and every other error of the system is `Failed`.
impl From<io::Error> for StoreError {
    ghost use Rattle.std.specs.Prelude.{◌≡◌, ◌↔◌};
    ghost use Rattle.std.specs.IoError.{error_kind};
    ghost use Rattle.std.specs.declared.io.ErrorKind.TheVariants.{OutOfMemory};
    ghost use Rattle.qm_store.specs.declared.StoreError.TheVariants.{Memory};

    ghost from_gives = { λ e s. (s ≡ Memory) ↔ (error_kind e ≡ OutOfMemory) };

    fn from(error: io::Error) -> Self {
        match error.kind() {
            ErrorKind::OutOfMemory => StoreError::Memory,
            _ => StoreError::Failed,
        }
    }
}

/// An entry of metadata: a key and its bytes.
#[derive(Drop)]
pub struct MetaEntry {
    pub key: [u8; 9],
    pub value: Vec<u8>,
}

impl Model for MetaEntry {
    ghost use Rattle.qm_model.specs.StoreModel.{Entry};

    ghost Value = { Entry };

    ghost view = { λ e. record { key = e.key; value = e.value.items } };
}

/// A list of items, each a string of bytes, that grows at its end, with a head, metadata by name, and a stable length: the
/// location up to which its items outlive a crash. An item goes by its location, which may begin above 0, if the items before
/// are gone.
///
/// After `Ok` a call leaves what it does not name as it was. Each call but `bounds` and `faults` is counted, and may answer `Failed`, only if the
/// count of faults rose, or `Memory`, which leaves what `Failed` may leave: the store reads as a crash inside the call might
/// have left it, and its stable length is no less than before.
pub trait Store {
    /// The location of the first item that is kept.
    ghost start: { Self → ℕ };

    /// The location after the last item.
    ghost end: { Self → ℕ };

    /// What it holds, if it tells that: one in memory does, one over files does not.
    ghost told: { Self → Option Stored };

    /// How often it has failed. The count never falls, and stands still at its greatest value.
    ghost faults: { Self → ℕ };

    /// How often it was called to change or to read what it keeps. The count never falls, and stands still at its greatest value.
    ghost calls: { Self → ℕ };

    /// Where the items start, and where they end.
    fn bounds(&self) -> (u64, u64)
        ensures starts { result.0 ≡ start self.now }
        ensures ends { result.1 ≡ end self.now }
        ensures order { result.0 ≤ result.1 }
        ensures limit { result.1 ≤ 2 ^ 62 }
        ensures stable { IfSome (told self.now) (λ s.
            (s.start ≤ s.stable) × (s.stable ≤ end_of s)) };

    /// How often it has failed.
    fn faults(&self) -> u64
        ensures { result ≡ faults self.now };

    /// The item at a location.
    fn read(&mut self, at: u64) -> Result<Vec<u8>, StoreError>
        requires from { start self.old ≤ at }
        requires before { at < end self.old }
        ensures item { IfOk result (λ v.
            IfSome (told self.old) (λ s. slice_get s.items (at - s.start) ≡ Some v.items)) }
        ensures same_start { start self.new ≡ start self.old }
        ensures same_end { end self.new ≡ end self.old }
        ensures same { told self.new ≡ told self.old }
        ensures cause { IsCause (faults self.old) (faults self.new)
            (IsErrOf result StoreError.Failed) }
        ensures counted { Rose (calls self.old) (calls self.new) };

    /// The digests of the peaks at the start, one after another. At start 0 there are none, and yet no law says that the head
    /// is empty there, since what a store keeps may be damaged: who opens a log checks the head's length.
    fn head(&mut self) -> Result<Vec<u8>, StoreError>
        ensures value { IfOk result (λ v. IfSome (told self.old) (λ s. v.items ≡ s.head)) }
        ensures same_start { start self.new ≡ start self.old }
        ensures same_end { end self.new ≡ end self.old }
        ensures same { told self.new ≡ told self.old }
        ensures cause { IsCause (faults self.old) (faults self.new)
            (IsErrOf result StoreError.Failed) }
        ensures counted { Rose (calls self.old) (calls self.new) };

    /// The metadata of a name, none if none was put.
    fn meta(&mut self, name: &str) -> Result<Vec<MetaEntry>, StoreError>
        ensures value { IfOk result (λ v.
            IfSome (told self.old) (λ s. v.items ≡ metadata_in s.metadata name.now)) }
        ensures same_start { start self.new ≡ start self.old }
        ensures same_end { end self.new ≡ end self.old }
        ensures same { told self.new ≡ told self.old }
        ensures cause { IsCause (faults self.old) (faults self.new)
            (IsErrOf result StoreError.Failed) }
        ensures counted { Rose (calls self.old) (calls self.new) };

    /// Puts these after the last item. After an error a first part of them may be there; if there are none to put, no more is
    /// stable.
    fn append(&mut self, added: &[Vec<u8>]) -> Result<(), StoreError>
        requires room { end self.old + length added.now ≤ 2 ^ 62 }
        ensures ok { OnOk result
            (Becomes (told self.old) (told self.new) (appended (map (λ v. v.items) added.now))) }
        ensures ok_end { OnOk result (end self.new ≡ end self.old + length added.now) }
        ensures err { OnErr result
            (Grows (told self.old) (told self.new) (map (λ v. v.items) added.now)) }
        ensures still { OnErr result (length added.now ≡ 0
            → Turns (told self.old) (told self.new) (λ s new. new.stable ≡ s.stable)) }
        ensures same_start { start self.new ≡ start self.old }
        ensures grows { end self.old ≤ end self.new }
        ensures within { end self.new ≤ end self.old + length added.now }
        ensures cause { IsCause (faults self.old) (faults self.new)
            (IsErrOf result StoreError.Failed) }
        ensures counted { Rose (calls self.old) (calls self.new) };

    /// Makes the items stable: from then on a crash leaves them all.
    fn commit(&mut self) -> Result<(), StoreError>
        ensures ok { OnOk result (Becomes (told self.old) (told self.new) settled) }
        ensures ok_end { OnOk result (end self.new ≡ end self.old) }
        ensures err { OnErr result
            (Leaves (told self.old) (told self.new) (λ s. ReadsAs s.stable (IsImage s))) }
        ensures same_start { start self.new ≡ start self.old }
        ensures within { end self.new ≤ end self.old }
        ensures cause { IsCause (faults self.old) (faults self.new)
            (IsErrOf result StoreError.Failed) }
        ensures counted { Rose (calls self.old) (calls self.new) };

    /// Makes all that it holds stable. What is told of it is what is told of `commit`.
    fn sync(&mut self) -> Result<(), StoreError>
        ensures ok { OnOk result (Becomes (told self.old) (told self.new) settled) }
        ensures ok_end { OnOk result (end self.new ≡ end self.old) }
        ensures err { OnErr result
            (Leaves (told self.old) (told self.new) (λ s. ReadsAs s.stable (IsImage s))) }
        ensures same_start { start self.new ≡ start self.old }
        ensures within { end self.new ≤ end self.old }
        ensures cause { IsCause (faults self.old) (faults self.new)
            (IsErrOf result StoreError.Failed) }
        ensures counted { Rose (calls self.old) (calls self.new) };

    /// Takes the items from this location on away.
    fn rewind(&mut self, to: u64) -> Result<(), StoreError>
        requires from { start self.old ≤ to }
        requires before { to ≤ end self.old }
        ensures ok { OnOk result (Becomes (told self.old) (told self.new) (rewound to)) }
        ensures ok_end { OnOk result (end self.new ≡ to) }
        ensures err { OnErr result (Leaves (told self.old) (told self.new) (λ s.
            ReadsAs (min s.stable to) (RewindLeaves to s))) }
        ensures same_start { start self.new ≡ start self.old }
        ensures within { end self.new ≤ end self.old }
        ensures cause { IsCause (faults self.old) (faults self.new)
            (IsErrOf result StoreError.Failed) }
        ensures counted { Rose (calls self.old) (calls self.new) };

    /// Takes the items before this location away, and replaces the head.
    fn prune(&mut self, to: u64, head: &[u8]) -> Result<(), StoreError>
        requires from { start self.old ≤ to }
        requires before { to ≤ end self.old }
        requires stable { IfSome (told self.old) (λ s. to ≤ s.stable) }
        ensures ok { OnOk result (Becomes (told self.old) (told self.new) (pruned to head.now)) }
        ensures ok_start { OnOk result (start self.new ≡ to) }
        ensures ok_end { OnOk result (end self.new ≡ end self.old) }
        ensures err { OnErr result (Leaves (told self.old) (told self.new) (λ s.
            ReadsAs s.stable (IsOldOrNew (pruned to head.now) s))) }
        ensures within { end self.new ≤ end self.old }
        ensures cause { IsCause (faults self.old) (faults self.new)
            (IsErrOf result StoreError.Failed) }
        ensures counted { Rose (calls self.old) (calls self.new) };

    /// Replaces the metadata of a name, whole.
    fn put_meta(&mut self, name: &str, entries: &[MetaEntry]) -> Result<(), StoreError>
        ensures ok { OnOk result
            (Becomes (told self.old) (told self.new) (with_metadata name.now entries.now)) }
        ensures ok_end { OnOk result (end self.new ≡ end self.old) }
        ensures err { OnErr result (Leaves (told self.old) (told self.new) (λ s.
            ReadsAs s.stable (IsOldOrNew (with_metadata name.now entries.now) s))) }
        ensures same_start { start self.new ≡ start self.old }
        ensures within { end self.new ≤ end self.old }
        ensures cause { IsCause (faults self.old) (faults self.new)
            (IsErrOf result StoreError.Failed) }
        ensures counted { Rose (calls self.old) (calls self.new) };

    /// A crash, and the start after it: the end becomes a location from the stable length to the old end, and all is stable.
    /// The store is asked to keep the items up to `keep`, and tells the end that it chose.
    fn restart(&mut self, keep: u64) -> Result<(), StoreError>
        ensures ok { OnOk result (Turns (told self.old) (told self.new) HasRestarted) }
        ensures err { OnErr result
            (Leaves (told self.old) (told self.new) (λ s. ReadsAs s.stable (IsImage s))) }
        ensures same_start { start self.new ≡ start self.old }
        ensures within { end self.new ≤ end self.old }
        ensures cause { IsCause (faults self.old) (faults self.new)
            (IsErrOf result StoreError.Failed) }
        ensures counted { Rose (calls self.old) (calls self.new) };

    /// Empties the store: start 0, no items, no head, no metadata. Only the ends that its restarts chose stay told.
    fn destroy(&mut self) -> Result<(), StoreError>
        ensures ok { OnOk result (Becomes (told self.old) (told self.new) destroyed) }
        ensures ok_start { OnOk result (start self.new ≡ 0) }
        ensures ok_end { OnOk result (end self.new ≡ 0) }
        ensures err { OnErr result (Leaves (told self.old) (told self.new) DestroyLeaves) }
        ensures within { end self.new ≤ end self.old }
        ensures cause { IsCause (faults self.old) (faults self.new)
            (IsErrOf result StoreError.Failed) }
        ensures counted { Rose (calls self.old) (calls self.new) };

    /// The start is not after the end.
    ghost ordered: { (s : Self) → start s ≤ end s };

    /// What is told has this start.
    ghost told_start: { (s : Self) → IfSome (told s) (λ t. t.start ≡ start s) };

    /// What is told has this end.
    ghost told_end: { (s : Self) → IfSome (told s) (λ t. end_of t ≡ end s) };
}
