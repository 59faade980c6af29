//! The run of a fill.

ghost use Rattle.std.specs.Prelude.{◌≡◌, ◌≢◌, ◌≤◌, ℕ, List, Err, IfSome, IfErr, ⊤};
ghost use Rattle.qm_model.specs.Causes.{Rose};
ghost use Rattle.qm_model.specs.Own.{Log, IsOwn};
ghost use Rattle.qm_model.specs.Policies.{policies};
ghost use Rattle.qm_model.specs.Schemes.{chunks_of, engine_of};
ghost use Rattle.qm_model.specs.StoreModel.{Turns};
ghost use Rattle.qm_engine.specs.Stores.{HasEnds};
ghost use Rattle.qm_fill.specs.Commands as fills;
ghost use Rattle.qm_filling.specs.Filled.{IsFilled};

use crate::parts::fill_all;
use qm_base::{ByteKey, ByteValue};
use qm_engine::{Answering, End, begin, returned};
use qm_fill::{Fill, Tally};
use qm_store::Store;
use std::alloc::Global;

/// What a fill comes to: what is told of its commands and their replies, or why they have not all their replies; and the store.
#[derive(Drop)]
pub struct Filled<C> {
    pub counted: Result<Tally, End>,
    pub store: C,
}

/// Runs a fill over the store, from no database, up to its end or to the first command for which memory or the store fails. What is told
/// holds of a store that a run left, or an empty one. Of commands and replies it holds those of one round at a time.
pub fn run_fill<X: Answering<C, Key = ByteKey, Value = ByteValue>, C: Store>(
    alloc: Global,
    store: C,
    how: X::Opening,
    fill: Fill,
) -> Filled<C>
    ensures machine { IfSome (C.told store) (λ stored.
        (log : Log) → IsOwn (engine_of X.scheme policies) log stored → (choices : List ℕ)
        → Turns (C.told store) (C.told result.store) (HasEnds (chunks_of X.scheme) ⊤ choices)
        → IsFilled X.scheme log choices (fills.commands fill.seed fill.rounds) result.counted
        (C.told result.store)) }
    ensures not_done { IfErr result.counted (λ e. e ≢ End.Done) }
    ensures ends { (choices : List ℕ)
        × Turns (C.told store) (C.told result.store) (HasEnds (chunks_of X.scheme) ⊤ choices) }
    ensures later { C.faults store ≤ C.faults result.store }
    ensures fault { result.counted ≡ Err End.StoreFault
        → Rose (C.faults store) (C.faults result.store) }
{
    let session = match begin::<X, C>(alloc, store) {
        Ok(session) => session,
        Err(store) => {
            return Filled {
                counted: Err(End::Memory),
                store,
            };
        }
    };
    let (session, counted) = fill_all::<X, C>(alloc, &how, session, fill);
    Filled {
        counted,
        store: returned::<X, C>(session.held),
    }
}
