//! A run of a list of commands, at once or in parts.

ghost use Rattle.std.specs.Prelude.{ℕ, List, ◌≡◌, ◌≢◌, ◌+◌, ◌++◌, ◌∷◌, [], ◌^◌, ◌<◌, ◌≤◌, Option, Some, None, IfNone, IfSome, IfOk, IfErr, OnSome, OnOk, OnErr, Contains, length, map, ⊤};
ghost use Rattle.qm_model.specs.Causes.{Rose};
ghost use Rattle.qm_model.specs.Batches.{Apart};
ghost use Rattle.qm_machine.specs.Lines.{Destroy};
ghost use Rattle.qm_machine.specs.Machine as machine;
ghost use Rattle.qm_lines.specs.Views.{line_view, answer_view};
ghost use Rattle.qm_store.specs.Given.{store_given};
ghost use Rattle.qm_engine.specs.Session.{Stands, LeavesSteady, IsChosen};
ghost use Rattle.qm_engine.specs.Stores.{HasLog, HasEnds};
ghost use Rattle.qm_model.specs.Schemes.{engine_of, chunks_of};
ghost use Rattle.qm_machine.specs.Sound.{IsSteady};
ghost use Rattle.qm_model.specs.Own.{Log, IsOwn};
ghost use Rattle.qm_model.specs.StoreModel.{Turns};
ghost use Rattle.qm_engine.specs.Runs.{IsRun};
ghost use Rattle.qm_engine.specs.Parts.{Between, Chose, IsPart};

use crate::answering::{Answering, returned};
use crate::session::{Session, SessionOf, Turn};
use crate::table::{Slot, push_slot};
use crate::turns::turn;
use qm_base::{Gate, Twin};
use qm_chain::Policy;
use qm_lines::{Command, Reply};
use qm_offer::Common;
use qm_store::{Given, Store};
use std::alloc::{AllocError, Global};

/// Why a run ended.
#[derive(Clone, Copy, Debug, PartialEq, Eq)]
pub enum End {
    /// Every command has its reply.
    Done,
    /// There was no memory for the next command or its reply.
    Memory,
    /// The store failed in the next command.
    StoreFault,
}

/// What a run gives: a reply to each command before the end, why it ended, and the store.
#[derive(Drop)]
pub struct Outcome<X: Common<C>, C: Store> {
    pub replies: Vec<Reply<X::Key, X::Value, X::Digest>>,
    pub end: End,
    pub store: C,
}

/// What a part of a run gives: a reply to each of its commands before the end, why it ended, and what it leaves for the next part.
#[derive(Drop)]
pub struct Part<X: Common<C>, C: Store> {
    pub replies: Vec<Reply<X::Key, X::Value, X::Digest>>,
    pub end: End,
    pub session: SessionOf<X, C>,
}

fn push_reply<K: Drop, V: Drop, D: Drop>(
    replies: &mut Vec<Reply<K, V, D>>,
    reply: Reply<K, V, D>,
) -> Result<(), AllocError>
    ensures ok { OnOk result (replies.new.items ≡ replies.old.items ++ reply ∷ []) }
    ensures err { OnErr result (replies.new.items ≡ replies.old.items) }
{
    replies.push(reply)?;
    Ok(())
}

// One command, whose reply goes last. An end tells why there is none.
fn step<X: Answering<C>, C: Store, P: Policy<X::Family, X::Key, X::Value> + Twin>(
    alloc: Global,
    opening: &X::Opening,
    session: SessionOf<X, C>,
    replies: &mut Vec<Reply<X::Key, X::Value, X::Digest>>,
    command: &Command<X::Key, X::Value, P>,
) -> (SessionOf<X, C>, Option<End>)
    requires { session.opened + 1 < 2 ^ 64 }
    ensures machine { (s : machine.State) → Stands C.Store X.Meaning session s → IsSteady X.scheme s
        → (more rest : List ℕ)
        → Turns (C.told (store_given X.inside session.held))
        (C.told (store_given X.inside result.0.held)) (HasEnds (chunks_of X.scheme) ⊤ more)
        → s.choices ≡ more ++ rest
        → IfNone result.1
        (let next = machine.turn X.scheme P.rules s (line_view X.Key.bytes X.Value.bytes (λ p. p) command.now) in
        Apart X.scheme.root next.1.had
        → (map (answer_view X.Key.bytes X.Value.bytes X.Digest.bytes) replies.new.items
        ≡ map (answer_view X.Key.bytes X.Value.bytes X.Digest.bytes) replies.old.items ++ next.0
        ∷ [])
        × Stands C.Store X.Meaning result.0 next.1) }
    ensures left { LeavesSteady C.Store X.Meaning session result.0 (λ s. machine.turn X.scheme
        P.rules s (line_view X.Key.bytes X.Value.bytes (λ p. p) command.now)) }
    ensures grown { IfNone result.1 (length replies.new.items ≡ length replies.old.items + 1) }
    ensures kept { OnSome result.1 (replies.new.items ≡ replies.old.items) }
    ensures not_done { IfSome result.1 (λ e. e ≢ End.Done) }
    ensures ends { (more : List ℕ)
        × Turns (C.told (store_given X.inside session.held))
        (C.told (store_given X.inside result.0.held)) (HasEnds (chunks_of X.scheme)
        (line_view X.Key.bytes X.Value.bytes (λ p. p) command.now ≡ Destroy) more)
        × IfNone result.1
        (IsChosen (line_view X.Key.bytes X.Value.bytes (λ p. p) command.now) more) }
    ensures later { C.faults (store_given X.inside session.held)
        ≤ C.faults (store_given X.inside result.0.held) }
    ensures fault { result.1 ≡ Some End.StoreFault
        → Rose (C.faults (store_given X.inside session.held))
        (C.faults (store_given X.inside result.0.held)) }
    ensures opened { result.0.opened ≤ session.opened + 1 }
{
    let (session, turn) = turn::<X, C, P>(alloc, opening, session, command);
    match turn {
        Turn::Memory => (session, Some(End::Memory)),
        Turn::StoreFault => (session, Some(End::StoreFault)),
        Turn::Reply(reply) => match push_reply(replies, reply) {
            Ok(()) => (session, None),
            Err(_) => (session, Some(End::Memory)),
        },
    }
}

/// Where a run begins: a session with a closed store, and no batch.
pub fn begin<X: Common<C>, C: Store>(alloc: Global, store: C) -> Result<SessionOf<X, C>, C>
    ensures session { IfOk result (λ session. (log : Log) (choices : List ℕ)
        → HasLog X.scheme (C.told store) log → log.start ≤ log.stable → log.stable ≤ length log.list
        → Stands C.Store X.Meaning session (machine.initial log choices)) }
    ensures store { IfOk result (λ session. store_given X.inside session.held ≡ store) }
    ensures opened { IfOk result (λ session. session.opened ≡ 0) }
    ensures back { IfErr result (λ c. c ≡ store) }
{
    let mut table = Vec::new(alloc);
    match push_slot(&mut table, Slot::Gone) {
        Err(_) => Err(store),
        Ok(()) => Ok(Session {
            held: Given::Store(store),
            table,
            opened: 0,
        }),
    }
}

/// Runs a part of a run's commands, from where the part before left it, up to their end or to the first for which memory or the store
/// fails. A run begins by `begin`, and gives its store back by `returned`. Of the parts before, no more is held than the session has.
pub fn run_part<X: Answering<C>, C: Store, P: Policy<X::Family, X::Key, X::Value> + Twin>(
    alloc: Global,
    opening: &X::Opening,
    session: SessionOf<X, C>,
    commands: &[Command<X::Key, X::Value, P>],
) -> Part<X, C>
    requires { session.opened + length commands.now < 2 ^ 64 }
    // From each state of the machine for which the session stands, with these choices of restarts in this part, and those to come.
    ensures machine { (s : machine.State) → (more rest : List ℕ)
        → Chose C.Store X.Meaning session result.session more
        → Between C.Store X.Meaning P.rules session (more ++ rest) s
        → IsPart X.scheme P.rules s
        (map (line_view X.Key.bytes X.Value.bytes (λ p. p)) commands.now)
        (map (answer_view X.Key.bytes X.Value.bytes X.Digest.bytes) result.replies.items)
        (C.told (store_given X.inside result.session.held)) }
    ensures onward { result.end ≡ End.Done → (s : machine.State) → (more rest : List ℕ)
        → Chose C.Store X.Meaning session result.session more
        → Between C.Store X.Meaning P.rules session (more ++ rest) s
        → Apart X.scheme.root (machine.state_after X.scheme P.rules s
        (map (line_view X.Key.bytes X.Value.bytes (λ p. p)) commands.now)).had
        → Between C.Store X.Meaning P.rules result.session rest
        (machine.state_after X.scheme P.rules s
        (map (line_view X.Key.bytes X.Value.bytes (λ p. p)) commands.now)) }
    ensures done { result.end ≡ End.Done → length result.replies.items ≡ length commands.now }
    ensures short { result.end ≢ End.Done → length result.replies.items < length commands.now }
    ensures ends { (choices : List ℕ)
        × Turns (C.told (store_given X.inside session.held))
        (C.told (store_given X.inside result.session.held)) (HasEnds (chunks_of X.scheme)
        (Contains (map (line_view X.Key.bytes X.Value.bytes (λ p. p)) commands.now) Destroy)
        choices) }
    ensures later { C.faults (store_given X.inside session.held)
        ≤ C.faults (store_given X.inside result.session.held) }
    ensures fault { result.end ≡ End.StoreFault
        → Rose (C.faults (store_given X.inside session.held))
        (C.faults (store_given X.inside result.session.held)) }
    ensures opened { result.session.opened ≤ session.opened + length commands.now }
{
    let mut replies = Vec::new(alloc);
    let mut session = session;
    for command in commands {
        let (next, ended) = step::<X, C, P>(alloc, opening, session, &mut replies, command);
        session = next;
        if let Some(end) = ended {
            return Part {
                replies,
                end,
                session,
            };
        }
    }
    Part {
        replies,
        end: End::Done,
        session,
    }
}

/// Runs the commands over the store, from no database, up to their end or to the first for which memory or the
/// store fails. What is told holds of a store that such a run left, or an empty one. Accepted openings are numbered from 1, batches too. The gate holds the workers of an opening.
pub fn run<X: Answering<C>, C: Store, P: Policy<X::Family, X::Key, X::Value> + Twin, G: Gate>(
    alloc: Global,
    store: C,
    opening: X::Opening,
    commands: &[Command<X::Key, X::Value, P>],
    _gate: &G,
) -> Outcome<X, C>
    ensures machine { IfSome (C.told store) (λ stored.
        (log : Log) → IsOwn (engine_of X.scheme P.rules) log stored → (choices : List ℕ)
        → Turns (C.told store) (C.told result.store) (HasEnds (chunks_of X.scheme) ⊤ choices)
        → IsRun X.scheme P.rules log choices
        (map (line_view X.Key.bytes X.Value.bytes (λ p. p)) commands.now)
        (map (answer_view X.Key.bytes X.Value.bytes X.Digest.bytes) result.replies.items)
        (C.told result.store)) }
    ensures done { result.end ≡ End.Done → length result.replies.items ≡ length commands.now }
    ensures short { result.end ≡ End.StoreFault
        → length result.replies.items < length commands.now }
    ensures ends { (choices : List ℕ)
        × Turns (C.told store) (C.told result.store) (HasEnds (chunks_of X.scheme)
        (Contains (map (line_view X.Key.bytes X.Value.bytes (λ p. p)) commands.now) Destroy)
        choices) }
    ensures later { C.faults store ≤ C.faults result.store }
    ensures fault { result.end ≡ End.StoreFault → Rose (C.faults store) (C.faults result.store) }
{
    let session = match begin::<X, C>(alloc, store) {
        Ok(session) => session,
        Err(store) => {
            return Outcome {
                replies: Vec::new(alloc),
                end: End::Memory,
                store,
            };
        }
    };
    let Part {
        replies,
        end,
        session,
    } = run_part::<X, C, P>(alloc, &opening, session, commands);
    Outcome {
        replies,
        end,
        store: returned::<X, C>(session.held),
    }
}
