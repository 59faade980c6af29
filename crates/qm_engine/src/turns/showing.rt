// Commands that only a current database offers: proofs of keys, of absences, of ranges and of the operations root.
ghost use Rattle.std.specs.Prelude.{◌≡◌, true, List, Some, None};
ghost use Rattle.qm_model.specs.Operations.{Operation};
ghost use Rattle.qm_machine.specs.Machine.{State};
ghost use Rattle.qm_machine.specs.Machine as machine;
ghost use Rattle.qm_lines.specs.Views.{question_view};
ghost use Rattle.qm_store.specs.Given.{store_given, IsUnchanged};
ghost use Rattle.qm_engine.specs.Shown.{offers};
ghost use Rattle.qm_engine.specs.Stores.{IsStored};
ghost use Rattle.qm_engine.specs.Session.{Answers, Obeys, TurnReads, Uses};

use crate::session::{SessionOf, Turn, no_database, turn_of};
use qm_lines::{Question, Refused, Reply};
use qm_offer::{Common, Showing, ShownRange};
use qm_store::{Given, Store};
use std::alloc::Global;

// Whether such databases are asked this.
fn is_offered<X: Common<C>, C: Store>(question: &Question<X::Key>) -> bool
    ensures { result ≡ offers X.scheme (question_view X.Key.bytes question.now) }
{
    if !X::is_current() {
        return false;
    }
    match question {
        Question::Absent(_) => X::is_ordered(),
        Question::Held(_) | Question::Chunks(_, _) | Question::Witness => true,
    }
}

// What the database proves, and what the check says of its proof.
fn shown<X: Showing<C>, C: Store>(
    alloc: Global,
    database: &mut X,
    question: &Question<X::Key>,
) -> Turn<X::Key, X::Value, X::Digest>
    ensures machine { offers X.scheme (question_view X.Key.bytes question.now) ≡ true
        → (s : State) (list : List Operation) → s.database ≡ Some list
        → X.stands database.old list → IsStored C.Store X.scheme (X.inside database.old) s.log
        → Answers C.Store X.Meaning X.Key.bytes X.Value.bytes X.Digest.bytes result s
        (machine.current X.scheme s (question_view X.Key.bytes question.now)) }
    ensures reads { TurnReads C.Store X.Meaning database.old database.new result }
{
    match question {
        Question::Held(key) => match database.held(alloc, key) {
            Ok((location, is_accepted)) => Turn::Reply(Reply::Held(location, is_accepted)),
            Err(error) => turn_of(error),
        },
        Question::Absent(key) => match database.absent(alloc, key) {
            Ok(told) => match told {
                Some((location, is_accepted)) => Turn::Reply(Reply::Absent(location, is_accepted)),
                None => Turn::Reply(Reply::Refused(Refused::NotOffered)),
            },
            Err(error) => turn_of(error),
        },
        Question::Chunks(start, max) => match database.chunks(alloc, *start, *max) {
            Ok(shown) => {
                let ShownRange {
                    operations,
                    chunks,
                    is_accepted,
                } = shown;
                Turn::Reply(Reply::Chunks(operations, chunks, is_accepted))
            }
            Err(error) => turn_of(error),
        },
        Question::Witness => match database.witness(alloc) {
            Ok(is_accepted) => Turn::Reply(Reply::Witness(is_accepted)),
            Err(_) => Turn::Memory,
        },
    }
}

/// A question that only current databases are asked, of whatever offers the proofs: proves what is asked, and checks the proof
/// against the root.
pub fn shown_turn<X: Showing<C>, C: Store>(
    alloc: Global,
    session: &mut SessionOf<X, C>,
    question: &Question<X::Key>,
) -> Turn<X::Key, X::Value, X::Digest>
    ensures machine { Obeys C.Store X.Meaning X.Key.bytes X.Value.bytes X.Digest.bytes session.old
        session.new result (λ s.
        machine.current X.scheme s (question_view X.Key.bytes question.now)) }
    ensures store { IsUnchanged C.Store (store_given X.inside session.old.held)
        (store_given X.inside session.new.held) }
    ensures uses { Uses C.Store (store_given X.inside session.old.held)
        (store_given X.inside session.new.held) result }
    ensures opened { session.new.opened ≡ session.old.opened }
{
    if !is_offered::<X, C>(question) {
        return Turn::Reply(Reply::Refused(Refused::NotOffered));
    }
    let Given::Database(x) = &mut session.held else {
        return no_database();
    };
    shown::<X, C>(alloc, x, question)
}

/// The same of a database without chunks of bits under its root, which offers no such proof.
pub fn unshown_turn<X: Common<C>, C: Store>(
    _session: &mut SessionOf<X, C>,
    question: &Question<X::Key>,
) -> Turn<X::Key, X::Value, X::Digest>
    requires { X.scheme.grafts ≡ None }
    ensures machine { Obeys C.Store X.Meaning X.Key.bytes X.Value.bytes X.Digest.bytes _session.old
        _session.new result (λ s.
        machine.current X.scheme s (question_view X.Key.bytes question.now)) }
    ensures store { IsUnchanged C.Store (store_given X.inside _session.old.held)
        (store_given X.inside _session.new.held) }
    ensures uses { Uses C.Store (store_given X.inside _session.old.held)
        (store_given X.inside _session.new.held) result }
    ensures opened { _session.new.opened ≡ _session.old.opened }
{
    Turn::Reply(Reply::Refused(Refused::NotOffered))
}
