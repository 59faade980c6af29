// The lines of an input, answered one by one.

ghost use Rattle.std.specs.Prelude.{ℕ, List, ◌≡◌, ◌≢◌, ◌+◌, ◌++◌, ◌∷◌, [], ◌^◌, ◌<◌, ◌≤◌, Some, None, IfNone, IfSome, OnOk, OnErr, OnSome, IsSome, Contains, length, ⊤};
ghost use Rattle.qm_model.specs.Causes.{Rose};
ghost use Rattle.qm_model.specs.Batches.{Apart};
ghost use Rattle.qm_machine.specs.Grammar.{line_of, commands_in, bad_in};
ghost use Rattle.qm_model.specs.Policies.{policies};
ghost use Rattle.qm_machine.specs.Lines.{Destroy};
ghost use Rattle.qm_machine.specs.Machine as machine;
ghost use Rattle.qm_machine.specs.Text.{reply_line};
ghost use Rattle.qm_lines.specs.Views.{line_view, answer_view};
ghost use Rattle.qm_store.specs.Given.{store_given};
ghost use Rattle.qm_engine.specs.Session.{Stands, LeavesSteady, IsChosen};
ghost use Rattle.qm_engine.specs.Stores.{HasEnds, IsLeft};
ghost use Rattle.qm_model.specs.Schemes.{engine_of, chunks_of};
ghost use Rattle.qm_machine.specs.Sound.{IsSteady};
ghost use Rattle.qm_model.specs.Own.{Log, IsOwn};
ghost use Rattle.qm_model.specs.StoreModel.{Turns};
ghost use Rattle.qm_engine.specs.Answered.{after_line, IsAnswered};

use crate::answering::{Answering, returned};
use crate::runs::begin;
use crate::session::{SessionOf, Turn};
use crate::turns::turn;
use qm_base::{ByteKey, ByteString, ByteValue, Digest, Gate, Twin};
use qm_chain::Policy;
use qm_lines::{AnyPolicy, Command, Reply, next_line, parse_line, reply_text};
use qm_store::Store;
use std::alloc::{AllocError, Global};

/// Why no further line is answered.
#[derive(Clone, Copy)]
pub enum Ending {
    /// Every line has its answer.
    Done,
    /// The next line is no command.
    BadLine,
    /// There was no memory for the next line or its answer.
    Memory,
    /// The store failed in the next line's command.
    StoreFault,
}

/// The text of the answers, a line each, how many there are, why there are no more, and the store.
#[derive(Drop)]
pub struct Answered<C> {
    pub text: Vec<u8>,
    pub answered: u64,
    pub ending: Ending,
    pub store: C,
}

// The reply after the text, as a line.
fn push_line<K: ByteString, V: ByteString, D: Digest>(
    alloc: Global,
    text: &mut Vec<u8>,
    reply: &Reply<K, V, D>,
) -> Result<(), AllocError>
    ensures ok { OnOk result (text.new.items
        ≡ text.old.items
        ++ (reply_line (answer_view K.bytes V.bytes D.bytes reply.now) ++ 10 ∷ [])) }
    ensures err { OnErr result (text.new.items ≡ text.old.items) }
{
    let mut line = reply_text(alloc, reply)?;
    line.push(b'\n')?;
    text.extend_from_slice(&line)?;
    Ok(())
}

// One command, whose answer goes after the text. An ending tells why there is none.
fn answer<X: Answering<C>, C: Store, P: Policy<X::Family, X::Key, X::Value> + Twin>(
    alloc: Global,
    opening: &X::Opening,
    session: SessionOf<X, C>,
    text: &mut Vec<u8>,
    command: &Command<X::Key, X::Value, P>,
) -> (SessionOf<X, C>, Option<Ending>)
    requires { session.opened + 1 < 2 ^ 64 }
    ensures machine { (s : machine.State) → Stands C.Store X.Meaning session s → IsSteady X.scheme s
        → (more rest : List ℕ)
        → Turns (C.told (store_given X.inside session.held))
        (C.told (store_given X.inside result.0.held)) (HasEnds (chunks_of X.scheme) ⊤ more)
        → s.choices ≡ more ++ rest
        → IfNone result.1
        (let next = machine.turn X.scheme P.rules s (line_view X.Key.bytes X.Value.bytes (λ p. p) command.now) in
        Apart X.scheme.root next.1.had
        → (text.new.items ≡ text.old.items ++ (reply_line next.0 ++ 10 ∷ []))
        × Stands C.Store X.Meaning result.0 next.1) }
    ensures left { LeavesSteady C.Store X.Meaning session result.0 (λ s. machine.turn X.scheme
        P.rules s (line_view X.Key.bytes X.Value.bytes (λ p. p) command.now)) }
    ensures kept { OnSome result.1 (text.new.items ≡ text.old.items) }
    ensures cause { IfSome result.1 (λ e. (e ≢ Ending.Done) × (e ≢ Ending.BadLine)) }
    ensures ends { (more : List ℕ)
        × Turns (C.told (store_given X.inside session.held))
        (C.told (store_given X.inside result.0.held)) (HasEnds (chunks_of X.scheme)
        (line_view X.Key.bytes X.Value.bytes (λ p. p) command.now ≡ Destroy) more)
        × IfNone result.1
        (IsChosen (line_view X.Key.bytes X.Value.bytes (λ p. p) command.now) more) }
    ensures later { C.faults (store_given X.inside session.held)
        ≤ C.faults (store_given X.inside result.0.held) }
    ensures fault { result.1 ≡ Some Ending.StoreFault
        → Rose (C.faults (store_given X.inside session.held))
        (C.faults (store_given X.inside result.0.held)) }
    ensures opened { result.0.opened ≤ session.opened + 1 }
{
    let (session, turn) = turn::<X, C, P>(alloc, opening, session, command);
    match turn {
        Turn::Memory => (session, Some(Ending::Memory)),
        Turn::StoreFault => (session, Some(Ending::StoreFault)),
        Turn::Reply(reply) => {
            let pushed = push_line(alloc, text, &reply);
            drop(reply);
            match pushed {
                Ok(()) => (session, None),
                Err(_) => (session, Some(Ending::Memory)),
            }
        }
    }
}

// One line, as one command.
fn answer_line<X: Answering<C, Key = ByteKey, Value = ByteValue>, C: Store>(
    alloc: Global,
    opening: &X::Opening,
    session: SessionOf<X, C>,
    text: &mut Vec<u8>,
    line: &[u8],
) -> (SessionOf<X, C>, Option<Ending>)
    requires { session.opened + 1 < 2 ^ 64 }
    ensures machine { (s : machine.State) → Stands C.Store X.Meaning session s → IsSteady X.scheme s
        → (more rest : List ℕ)
        → Turns (C.told (store_given X.inside session.held))
        (C.told (store_given X.inside result.0.held)) (HasEnds (chunks_of X.scheme) ⊤ more)
        → s.choices ≡ more ++ rest
        → IfNone result.1 (IfSome (line_of line.now) (λ command.
        let next = machine.turn X.scheme policies s command in
        Apart X.scheme.root next.1.had
        → (text.new.items ≡ text.old.items ++ (reply_line next.0 ++ 10 ∷ []))
        × Stands C.Store X.Meaning result.0 next.1)) }
    ensures left { (s : machine.State) → Stands C.Store X.Meaning session s → IsSteady X.scheme s
        → Apart X.scheme.root s.had
        → IsLeft X.scheme (C.told (store_given X.inside result.0.held)) s.log
        (after_line X.scheme policies s (line_of line.now)).log }
    ensures kept { OnSome result.1 (text.new.items ≡ text.old.items) }
    ensures command { IfNone result.1 (IsSome (line_of line.now)) }
    ensures unused { line_of line.now ≡ None
        → C.told (store_given X.inside result.0.held) ≡ C.told (store_given X.inside session.held) }
    ensures bad { result.1 ≡ Some Ending.BadLine → line_of line.now ≡ None }
    ensures fault_command { result.1 ≡ Some Ending.StoreFault → IsSome (line_of line.now) }
    ensures not_done { IfSome result.1 (λ e. e ≢ Ending.Done) }
    ensures ends { (more : List ℕ)
        × Turns (C.told (store_given X.inside session.held))
        (C.told (store_given X.inside result.0.held))
        (HasEnds (chunks_of X.scheme) (line_of line.now ≡ Some Destroy) more)
        × IfNone result.1 (IfSome (line_of line.now) (λ command. IsChosen command more)) }
    ensures later { C.faults (store_given X.inside session.held)
        ≤ C.faults (store_given X.inside result.0.held) }
    ensures fault { result.1 ≡ Some Ending.StoreFault
        → Rose (C.faults (store_given X.inside session.held))
        (C.faults (store_given X.inside result.0.held)) }
    ensures opened { result.0.opened ≤ session.opened + 1 }
{
    match parse_line(alloc, line) {
        Err(_) => (session, Some(Ending::Memory)),
        Ok(None) => (session, Some(Ending::BadLine)),
        Ok(Some(command)) => {
            let answered = answer::<X, C, AnyPolicy>(alloc, opening, session, text, &command);
            drop(command);
            answered
        }
    }
}

/// Answers the lines of an input over the store, from no database, up to their end, to the first that is no command
/// or to the first for which memory or the store fails. Accepted openings are numbered from 1, batches too. Of
/// commands and replies it keeps one at a time. What is told holds of a store that such a run left, or an
/// empty one. The gate holds the workers of an opening.
pub fn answer_lines<X: Answering<C, Key = ByteKey, Value = ByteValue>, C: Store, G: Gate>(
    alloc: Global,
    store: C,
    opening: X::Opening,
    input: &[u8],
    _gate: &G,
) -> Answered<C>
    ensures machine { IfSome (C.told store) (λ stored.
        (log : Log) → IsOwn (engine_of X.scheme policies) log stored → (choices : List ℕ)
        → Turns (C.told store) (C.told result.store) (HasEnds (chunks_of X.scheme) ⊤ choices)
        → IsAnswered X.scheme policies log choices (commands_in input.now) result.answered
        result.text.items (C.told result.store)) }
    ensures done { result.ending ≡ Ending.Done
        → (result.answered ≡ length (commands_in input.now)) × (bad_in input.now ≡ None) }
    ensures bad { result.ending ≡ Ending.BadLine
        → (result.answered ≡ length (commands_in input.now))
        × (bad_in input.now ≡ Some (result.answered + 1)) }
    ensures short { result.ending ≡ Ending.StoreFault
        → result.answered < length (commands_in input.now) }
    ensures ends { (choices : List ℕ)
        × Turns (C.told store) (C.told result.store)
        (HasEnds (chunks_of X.scheme) (Contains (commands_in input.now) Destroy) choices) }
    ensures bound { result.answered ≤ length input.now }
    ensures later { C.faults store ≤ C.faults result.store }
    ensures fault { result.ending ≡ Ending.StoreFault
        → Rose (C.faults store) (C.faults result.store) }
{
    let mut text = Vec::new(alloc);
    let mut answered = 0;
    let mut session = match begin::<X, C>(alloc, store) {
        Ok(session) => session,
        Err(store) => {
            return Answered {
                text,
                answered,
                ending: Ending::Memory,
                store,
            };
        }
    };
    let mut rest = input;
    while let Some((line, behind)) = next_line(rest) {
        let (next, ended) = answer_line::<X, C>(alloc, &opening, session, &mut text, line);
        session = next;
        if let Some(ending) = ended {
            return Answered {
                text,
                answered,
                ending,
                store: returned::<X, C>(session.held),
            };
        }
        answered += 1;
        rest = behind;
    }
    Answered {
        text,
        answered,
        ending: Ending::Done,
        store: returned::<X, C>(session.held),
    }
}
