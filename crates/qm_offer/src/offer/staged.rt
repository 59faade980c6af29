//! Staged batches.

ghost use Rattle.std.specs.Prelude.{◌≡◌, ◌≢◌, ◌+◌, ◌++◌, map, length, option_map, IfOk, IfErr};
ghost use Rattle.qm_model.specs.Writes.{read_through};
ghost use Rattle.qm_model.specs.Batches.{IsKnown};
ghost use Rattle.qm_model.specs.Slots.{slotted};
ghost use Rattle.qm_base.specs.Slots.{slot_views, write_views};
ghost use Rattle.qm_offer.specs.Words.{AtBatch, AtStaged, CanRead, IsReadFailure, Makes, ReadsOnly, evictions_of, tip_of};

use crate::offer::Common;
use qm_base::{Error, Resolution};
use qm_chain::Policy;
use qm_store::Store;
use std::alloc::Global;
use std::ops::Range;

/// The calls on staged batches.
pub trait Staging<C: Store>: Common<C> {
    /// Reads the values of keys through a batch, as `get_through` does, and makes it a staged one with these keys. The batch
    /// is gone also if this is refused.
    fn stage(
        &mut self,
        alloc: Global,
        batch: Self::Batch,
        keys: &[Self::Key],
    ) -> Result<(Vec<Option<Self::Value>>, Self::Staged), Error>
        ensures readable { IfOk result (λ _. AtBatch Self.Meaning self.old batch
            (λ list chain above ws. CanRead Self.Meaning list above chain.base)) }
        ensures values { IfOk result (λ r. AtBatch Self.Meaning self.old batch
            (λ list chain above ws. IsKnown list above chain.base
            → (map (option_map Self.Value.bytes) r.0.items
            ≡ map (λ k. read_through chain.base ws (Self.Key.bytes k)) keys.now)
            × Self.is_staged r.1 chain above ws (map Self.Key.bytes keys.now))) }
        ensures failure { IfErr result (λ e.
            AtBatch Self.Meaning self.old batch (λ list chain above ws. IsReadFailure Self.Meaning list above chain.base e)) }
        ensures reads { ReadsOnly Self.Meaning C.Store self.old self.new result }
        ensures never { IfErr result (λ e. e ≢ Error.StaleBatch) };

    /// Reads the values of more keys, as `stage` does, and puts them after the staged ones; their places are told.
    fn expand(
        &mut self,
        alloc: Global,
        batch: Self::Staged,
        keys: &[Self::Key],
    ) -> Result<(Range<usize>, Vec<Option<Self::Value>>, Self::Staged), Error>
        ensures readable { IfOk result (λ _. AtStaged Self.Meaning self.old batch
            (λ list chain above ws staged. CanRead Self.Meaning list above chain.base)) }
        ensures range { IfOk result (λ r.
            (r.0.start ≡ Self.count batch) × (r.0.end ≡ Self.count batch + length keys.now)) }
        ensures values { IfOk result (λ r. AtStaged Self.Meaning self.old batch
            (λ list chain above ws staged. IsKnown list above chain.base
            → (map (option_map Self.Value.bytes) r.1.items
            ≡ map (λ k. read_through chain.base ws (Self.Key.bytes k)) keys.now)
            × Self.is_staged r.2 chain above ws (staged ++ map Self.Key.bytes keys.now))) }
        ensures failure { IfErr result (λ e.
            AtStaged Self.Meaning self.old batch (λ list chain above ws staged. IsReadFailure Self.Meaning list above chain.base e)) }
        ensures reads { ReadsOnly Self.Meaning C.Store self.old self.new result }
        ensures never { IfErr result (λ e. e ≢ Error.StaleBatch) };

    /// How many keys a staged batch has.
    fn staged_count(batch: &Self::Staged) -> usize
        ensures { result ≡ Self.count batch.now };

    /// Makes the tip list of a staged batch, as `merkleize` does of a batch whose writes are the recorded ones, then the slots
    /// of the staged keys that are not to be kept, then the others. There are as many slots as staged keys.
    fn resolve<P: Policy<Self::Family, Self::Key, Self::Value>>(
        &mut self,
        alloc: Global,
        batch: Self::Staged,
        resolution: &Resolution<Self::Key, Self::Value>,
        policy: &mut P,
        metadata: &Option<Self::Value>,
    ) -> Result<Self::Merkleized, Error>
        requires { length resolution.now.slots.items ≡ Self.count batch }
        ensures makes { AtStaged Self.Meaning self.old batch (λ list chain above ws keys.
            let writes = slotted ws keys (slot_views Self.Value.bytes resolution.now.slots.items) (write_views Self.Key.bytes Self.Value.bytes resolution.now.others.items) in
            Makes Self.Meaning C.Store self.old list chain (tip_of Self.scheme P.rules chain writes
            policy.old (option_map Self.Value.bytes metadata.now))
            (evictions_of Self.scheme P.rules chain writes policy.old) result) }
        ensures reads { ReadsOnly Self.Meaning C.Store self.old self.new result };
}
