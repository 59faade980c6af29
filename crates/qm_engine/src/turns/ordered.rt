// Commands that only an ordered database offers.
ghost use Rattle.std.specs.Prelude.{◌≡◌, true, List, IfOk, IfErr, option_map};
ghost use Rattle.qm_model.specs.Operations.{Operation};
ghost use Rattle.qm_model.specs.Live.{live_keys};
ghost use Rattle.qm_model.specs.Batches.{IsKnown};
ghost use Rattle.qm_machine.specs.Machine as machine;
ghost use Rattle.qm_lines.specs.Views.{answer_view};
ghost use Rattle.qm_store.specs.Given.{store_given, IsUnchanged};
ghost use Rattle.qm_engine.specs.Ordered.{key_beside, answer_to};
ghost use Rattle.qm_engine.specs.Session.{Obeys, IfReply, TurnReads, Uses};
ghost use Rattle.qm_offer.specs.Words.{AtTip, CanRead, IsReadFailure, ReadsOnly};

use crate::session::{SessionOf, Turn, no_database, no_such_handle, turn_of};
use crate::table::merkleized_at;
use qm_base::Error;
use qm_lines::{Refused, Reply};
use qm_offer::Neighbours;
use qm_store::{Given, Store};
use std::alloc::Global;
use std::ops::Bound;

/// On which side of a key another is sought.
#[derive(Clone, Copy)]
pub enum Side {
    Above,
    Below,
}

/// What is asked of an ordered database.
#[derive(Drop)]
pub enum Question<'a, K> {
    /// The nearest live key on this side of a key.
    Neighbour(Side, &'a K),
    /// The live update whose span holds a key.
    Span(&'a K),
    /// The value of a key, and the next key.
    All(&'a K),
    /// The live keys of a range with their values.
    Range(&'a Bound<K>, &'a Bound<K>),
    /// The live keys of a range.
    Keys(&'a Bound<K>, &'a Bound<K>),
}

// What the database answers to a question.
fn reply_to<X: Neighbours<C>, C: Store>(
    alloc: Global,
    database: &mut X,
    question: Question<'_, X::Key>,
) -> Turn<X::Key, X::Value, X::Digest>
    ensures reply { IfReply result (λ r. X.scheme.form.ordered ≡ true → (list : List Operation)
        → X.stands database.old list
        → answer_view X.Key.bytes X.Value.bytes X.Digest.bytes r
        ≡ answer_to X.Key.bytes question.entry list) }
    ensures reads { TurnReads C.Store X.Meaning database.old database.new result }
{
    match question {
        Question::Neighbour(Side::Above, key) => match database.next(alloc, key) {
            Ok(key) => Turn::Reply(Reply::Neighbour(key)),
            Err(error) => turn_of(error),
        },
        Question::Neighbour(Side::Below, key) => match database.prev(alloc, key) {
            Ok(key) => Turn::Reply(Reply::Neighbour(key)),
            Err(error) => turn_of(error),
        },
        Question::Span(key) => match database.span(alloc, key) {
            Ok(span) => Turn::Reply(Reply::Span(span)),
            Err(error) => turn_of(error),
        },
        Question::All(key) => match database.all(alloc, key) {
            Ok(whole) => Turn::Reply(Reply::All(whole)),
            Err(error) => turn_of(error),
        },
        Question::Range(low, high) => match database.range(alloc, low, high) {
            Ok(pairs) => Turn::Reply(Reply::Range(pairs)),
            Err(error) => turn_of(error),
        },
        Question::Keys(low, high) => match database.keys(alloc, low, high) {
            Ok(keys) => Turn::Reply(Reply::Keys(keys)),
            Err(error) => turn_of(error),
        },
    }
}

/// Answers a question from the database alone.
pub fn ask<X: Neighbours<C>, C: Store>(
    alloc: Global,
    session: &mut SessionOf<X, C>,
    question: Question<'_, X::Key>,
) -> Turn<X::Key, X::Value, X::Digest>
    ensures machine { Obeys C.Store X.Meaning X.Key.bytes X.Value.bytes X.Digest.bytes session.old
        session.new result (λ s. machine.if_ordered X.scheme s (machine.with_database s s.database
        (λ list. (answer_to X.Key.bytes question.entry list, s)))) }
    ensures store { IsUnchanged C.Store (store_given X.inside session.old.held)
        (store_given X.inside session.new.held) }
    ensures uses { Uses C.Store (store_given X.inside session.old.held)
        (store_given X.inside session.new.held) result }
    ensures opened { session.new.opened ≡ session.old.opened }
{
    if !X::is_ordered() {
        return Turn::Reply(Reply::Refused(Refused::NotOffered));
    }
    let Given::Database(x) = &mut session.held else {
        return no_database();
    };
    reply_to::<X, C>(alloc, x, question)
}

// The nearest live key on a side of this one, on the list that a merkleized batch makes.
fn neighbour_from<X: Neighbours<C>, C: Store>(
    alloc: Global,
    database: &mut X,
    batch: &X::Merkleized,
    side: Side,
    key: &X::Key,
) -> Result<Option<X::Key>, Error>
    ensures readable { IfOk result (λ _. X.scheme.form.ordered ≡ true
        → AtTip X.Meaning database.old batch.now (λ list chain tip.
        CanRead X.Meaning list chain tip)) }
    ensures beside { IfOk result (λ k. X.scheme.form.ordered ≡ true
        → AtTip X.Meaning database.old batch.now (λ list chain tip. IsKnown list chain tip
        → option_map X.Key.bytes k ≡ key_beside side (X.Key.bytes key.now) (live_keys tip))) }
    ensures failure { IfErr result (λ e.
        AtTip X.Meaning database.old batch.now (λ list chain tip. IsReadFailure X.Meaning
        list chain tip e)) }
    ensures reads { ReadsOnly X.Meaning C.Store database.old database.new result }
{
    match side {
        Side::Above => database.next_from(alloc, batch, key),
        Side::Below => database.prev_from(alloc, batch, key),
    }
}

/// The nearest live key on a side of this one, through a merkleized batch if its number is given.
pub fn neighbour<X: Neighbours<C>, C: Store>(
    alloc: Global,
    session: &mut SessionOf<X, C>,
    side: Side,
    key: &X::Key,
    from: Option<u64>,
) -> Turn<X::Key, X::Value, X::Digest>
    ensures machine { Obeys C.Store X.Meaning X.Key.bytes X.Value.bytes X.Digest.bytes session.old
        session.new result (λ s. machine.if_ordered X.scheme s
        (machine.neighbour_of X.scheme s (key_beside side (X.Key.bytes key.now)) from)) }
    ensures store { IsUnchanged C.Store (store_given X.inside session.old.held)
        (store_given X.inside session.new.held) }
    ensures uses { Uses C.Store (store_given X.inside session.old.held)
        (store_given X.inside session.new.held) result }
    ensures opened { session.new.opened ≡ session.old.opened }
{
    let Some(number) = from else {
        return ask::<X, C>(alloc, session, Question::Neighbour(side, key));
    };
    if !X::is_ordered() {
        return Turn::Reply(Reply::Refused(Refused::NotOffered));
    }
    let Given::Database(x) = &mut session.held else {
        return no_database();
    };
    let Some(batch) = merkleized_at(&session.table, number) else {
        return no_such_handle(number);
    };
    match neighbour_from::<X, C>(alloc, x, batch, side, key) {
        Ok(key) => Turn::Reply(Reply::Neighbour(key)),
        Err(error) => turn_of(error),
    }
}
