//! The lists of batches: made, and applied.

ghost use Rattle.std.specs.Prelude.{option_map};
ghost use Rattle.qm_offer.specs.Words.{AtBatch, Applies, Makes, ReadsOnly, evictions_of, tip_of};

use crate::offer::Common;
use qm_base::Error;
use qm_chain::Policy;
use qm_store::{Refusal, Store};
use std::alloc::Global;

/// The calls that make the lists of batches and that move a database on to them.
pub trait Making<C: Store>: Common<C> {
    /// Makes the batch's tip list: a step of its base list, under the policy. The batch is consumed also if
    /// this is refused, and the policy may have moved on. It is refused if the batch's chain began on another instance, if
    /// the batch is stale, if an own operation's spelling has more than 65,536 bytes, and if the list has more than 2^62
    /// operations.
    fn merkleize<P: Policy<Self::Family, Self::Key, Self::Value>>(
        &mut self,
        alloc: Global,
        batch: Self::Batch,
        policy: &mut P,
        metadata: &Option<Self::Value>,
    ) -> Result<Self::Merkleized, Error>
        ensures makes { AtBatch Self.Meaning self.old batch (λ list chain above ws.
            Makes Self.Meaning C.Store self.old list chain (tip_of Self.scheme P.rules chain ws
            policy.old (option_map Self.Value.bytes metadata.now))
            (evictions_of Self.scheme P.rules chain ws policy.old) result) }
        ensures reads { ReadsOnly Self.Meaning C.Store self.old self.new result };

    /// Takes the batch's tip list, and appends to the store what it lacks of it.
    fn apply(self, alloc: Global, batch: &Self::Merkleized) -> Result<Self, Refusal<Self, C>>
        ensures { Applies Self.Meaning C.Store self batch.now result };
}
