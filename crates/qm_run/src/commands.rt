//! Runs of commands that were read already.

ghost use Rattle.std.specs.Prelude.{◌≡◌, ◌≤◌, ◌<◌, List, ℕ, IfSome, false, length, map, ⊤};
ghost use Rattle.qm_model.specs.Causes.{Rose};
ghost use Rattle.qm_model.specs.Mmr as trees;
ghost use Rattle.qm_model.specs.Own.{Log, IsOwn};
ghost use Rattle.qm_model.specs.Schemes.{chunks_of, engine_of};
ghost use Rattle.qm_model.specs.StoreModel.{Turns};
ghost use Rattle.qm_lines.specs.Views.{answer_view, line_view};
ghost use Rattle.qm_engine.specs.Runs.{IsRun};
ghost use Rattle.qm_engine.specs.Stores.{HasEnds};
ghost use Rattle.qm_run.specs.Program.{machine_over};
ghost use Rattle.qm_run.specs.Schemes.{scheme};

use crate::any::Database;
use crate::kind::{Kind, Pair, Places};
use crate::program::opening;
use qm_base::{ByteKey, ByteString, ByteValue, Digest, Gate, Location, Sha256Digest, Twin};
use qm_chain::Policy;
use qm_engine::{End, Outcome, run};
use qm_index::{Factory, FourCap};
use qm_lines::{Command, Reply};
use qm_merkle::{Family, mmr};
use qm_store::Store;
use std::alloc::Global;

/// What a run of commands gives: a reply to each of them before the end, why it ended, and the store.
#[derive(Drop)]
pub struct Replies<C> {
    pub replies: Vec<Reply<ByteKey, ByteValue, Sha256Digest>>,
    pub end: End,
    pub store: C,
}

// Runs commands by any databases over this index and these updates.
fn run_any<
    F: Family,
    C: Store + Drop,
    I: Factory<Value = Location<F>, Translator = FourCap> + Drop,
    U: Kind<F, I, Key = ByteKey, Value = ByteValue>,
    P: Policy<F, ByteKey, ByteValue> + Twin,
    G: Gate,
>(alloc: Global, store: C, commands: &[Command<ByteKey, ByteValue, P>], gate: &G) -> Replies<C>
    ensures machine { IfSome (C.told store) (λ stored. (log : Log)
        → IsOwn (engine_of (scheme F.shape U.form) P.rules) log stored → (choices : List ℕ)
        → Turns (C.told store) (C.told result.store)
        (HasEnds (chunks_of (scheme F.shape U.form)) ⊤ choices)
        → IsRun (scheme F.shape U.form) P.rules log choices
        (map (line_view ⟦<ByteKey as ByteString>⟧.bytes ⟦<ByteValue as ByteString>⟧.bytes
        (λ p. p)) commands.now)
        (map (answer_view ⟦<ByteKey as ByteString>⟧.bytes ⟦<ByteValue as ByteString>⟧.bytes
        ⟦<Sha256Digest as Digest>⟧.bytes) result.replies.items)
        (C.told result.store)) }
    ensures done { result.end ≡ End.Done → length result.replies.items ≡ length commands.now }
    ensures short { result.end ≡ End.StoreFault
        → length result.replies.items < length commands.now }
    ensures later { C.faults store ≤ C.faults result.store }
    ensures fault { result.end ≡ End.StoreFault → Rose (C.faults store) (C.faults result.store) }
{
    let Outcome {
        replies,
        end,
        store,
    } = run::<Database<F, C, I, U>, C, P, G>(alloc, store, opening(), commands, gate);
    Replies {
        replies,
        end,
        store,
    }
}

/// Runs commands over the store by unordered any databases, from no database, as `qmdb_main` does those of its lines, up to their end or
/// to the first for which memory or the store fails. Their policies may be of any type.
pub fn run_commands<C: Store + Drop, P: Policy<mmr::Family, ByteKey, ByteValue> + Twin, G: Gate>(
    alloc: Global,
    store: C,
    commands: &[Command<ByteKey, ByteValue, P>],
    gate: &G,
) -> Replies<C>
    ensures machine { IfSome (C.told store) (λ stored. (log : Log)
        → IsOwn (engine_of (machine_over trees.mmr false false) P.rules) log stored → (choices : List ℕ)
        → Turns (C.told store) (C.told result.store)
        (HasEnds (chunks_of (machine_over trees.mmr false false)) ⊤ choices)
        → IsRun (machine_over trees.mmr false false) P.rules log choices
        (map (line_view ⟦<ByteKey as ByteString>⟧.bytes ⟦<ByteValue as ByteString>⟧.bytes
        (λ p. p)) commands.now)
        (map (answer_view ⟦<ByteKey as ByteString>⟧.bytes ⟦<ByteValue as ByteString>⟧.bytes
        ⟦<Sha256Digest as Digest>⟧.bytes) result.replies.items)
        (C.told result.store)) }
    ensures done { result.end ≡ End.Done → length result.replies.items ≡ length commands.now }
    ensures short { result.end ≡ End.StoreFault
        → length result.replies.items < length commands.now }
    ensures later { C.faults store ≤ C.faults result.store }
    ensures fault { result.end ≡ End.StoreFault → Rose (C.faults store) (C.faults result.store) }
{
    run_any::<mmr::Family, C, Places<mmr::Family>, Pair, P, G>(alloc, store, commands, gate)
}
