// Commands that make, fill and apply batches.
ghost use Rattle.std.specs.Prelude.{◌≡◌, ◌++◌, ◌∷◌, [], ◌≢◌, List, Some, None, option_map, Contains, IfOk, IsErrOf, ℕ};
ghost use Rattle.qm_model.specs.Operations.{Bytes, Operation};
ghost use Rattle.qm_model.specs.Writes.{Write};
ghost use Rattle.qm_model.specs.Batches.{Chain, IsAmong};
ghost use Rattle.qm_machine.specs.Machine.{State};
ghost use Rattle.qm_machine.specs.Machine as machine;
ghost use Rattle.qm_store.specs.Given.{store_given, IsUnchanged};
ghost use Rattle.qm_offer.specs.Words.{AtBatch, Makes, ReadsOnly, evictions_of, tip_of};
ghost use Rattle.qm_engine.specs.Making.{IsMaking, made_into};
ghost use Rattle.qm_engine.specs.Session.{SlotIs, Stands, Follows, Obeys, ObeysSteady, ObeysHeldSteady, LeavesHeldSteady, Uses};

use crate::session::{SessionOf, Turn, no_database, no_such_handle, turn_of};
use crate::table::{Slot, merkleized_at, push_slot, put_slot, take_writing};
use crate::turns::lasting::without_database;
use qm_base::{ByteString, Error, JournalError, Twin};
use qm_chain::Policy;
use qm_lines::Reply;
use qm_offer::{Batching, Common, Making, Writing};
use qm_store::{Given, Store};
use std::alloc::{AllocError, Global};

// Gives a batch the next number.
fn started<X: Common<C>, C: Store>(
    session: &mut SessionOf<X, C>,
    slot: Slot<X::Batch, X::Staged, X::Merkleized>,
) -> Turn<X::Key, X::Value, X::Digest>
    ensures machine { (s : State) (new : machine.Slot) → Stands C.Store X.Meaning session.old s
        → SlotIs C.Store X.Meaning s.had slot new
        → Follows C.Store X.Meaning X.Key.bytes X.Value.bytes X.Digest.bytes session.new result
        (machine.started s new) }
    ensures rest { session.new ≡ record session.old { table = session.new.table } }
    ensures never { result ≢ Turn.StoreFault }
{
    let number = session.table.len() as u64;
    match push_slot(&mut session.table, slot) {
        Err(_) => Turn::Memory,
        Ok(()) => Turn::Reply(Reply::Batch(number)),
    }
}

/// Begins a batch on the database, and gives it the next number.
pub fn batch<X: Batching<C>, C: Store>(
    alloc: Global,
    session: &mut SessionOf<X, C>,
) -> Turn<X::Key, X::Value, X::Digest>
    ensures machine { Obeys C.Store X.Meaning X.Key.bytes X.Value.bytes X.Digest.bytes session.old
        session.new result (machine.start_batch) }
    ensures rest { session.new ≡ record session.old { table = session.new.table } }
    ensures never { result ≢ Turn.StoreFault }
{
    let Given::Database(x) = &session.held else {
        return no_database();
    };
    match x.batch(alloc) {
        Err(_) => Turn::Memory,
        Ok(made) => started::<X, C>(session, Slot::Writing(made)),
    }
}

/// Begins a batch on a merkleized one, and gives it the next number.
pub fn child<X: Batching<C>, C: Store>(
    alloc: Global,
    session: &mut SessionOf<X, C>,
    number: u64,
    keep: Option<u64>,
) -> Turn<X::Key, X::Value, X::Digest>
    ensures machine { Obeys C.Store X.Meaning X.Key.bytes X.Value.bytes X.Digest.bytes session.old
        session.new result (λ s. machine.child s number keep) }
    ensures rest { session.new ≡ record session.old { table = session.new.table } }
    ensures never { result ≢ Turn.StoreFault }
{
    let Some(batch) = merkleized_at(&session.table, number) else {
        return no_such_handle(number);
    };
    match X::child(alloc, batch, keep) {
        Err(_) => Turn::Memory,
        Ok(made) => started::<X, C>(session, Slot::Writing(made)),
    }
}

/// Takes the database as a merkleized batch, and gives it the next number.
pub fn tip<X: Batching<C>, C: Store>(
    alloc: Global,
    session: &mut SessionOf<X, C>,
) -> Turn<X::Key, X::Value, X::Digest>
    ensures machine { Obeys C.Store X.Meaning X.Key.bytes X.Value.bytes X.Digest.bytes session.old
        session.new result (machine.start_tip) }
    ensures rest { session.new ≡ record session.old { table = session.new.table } }
    ensures never { result ≢ Turn.StoreFault }
{
    let Given::Database(x) = &session.held else {
        return no_database();
    };
    match x.tip(alloc) {
        Err(_) => Turn::Memory,
        Ok(made) => started::<X, C>(session, Slot::Merkleized(made)),
    }
}

// Writes copies of key and value, or deletes a copy of the key.
fn write<X: Writing<C>, C: Store>(
    alloc: Global,
    batch: X::Batch,
    key: &X::Key,
    value: Option<&X::Value>,
) -> Result<X::Batch, AllocError>
    ensures { IfOk result (λ b.
        (chain above : Chain) (ws : List Write) → X.is_batch batch chain above ws
        → X.is_batch b chain above (ws
        ++ record
        { key = X.Key.bytes key.now; value = option_map (λ v. X.Value.bytes v.now) value.entry }
        ∷ [])) }
{
    let key = key.twin(alloc)?;
    match value {
        None => X::del(alloc, batch, key),
        Some(value) => X::put(alloc, batch, key, value.twin(alloc)?),
    }
}

/// Writes a value for a key in a batch, or deletes the key if there is none.
pub fn put<'a, X: Writing<C>, C: Store>(
    alloc: Global,
    session: &mut SessionOf<X, C>,
    number: u64,
    key: &'a X::Key,
    value: Option<&'a X::Value>,
) -> Turn<X::Key, X::Value, X::Digest>
    ensures machine { Obeys C.Store X.Meaning X.Key.bytes X.Value.bytes X.Digest.bytes session.old
        session.new result (λ s. machine.put_in s number (record
        { key = X.Key.bytes key.now; value = option_map (λ v. X.Value.bytes v.now) value.entry })
        (machine.slot_at s.table number)) }
    ensures rest { session.new ≡ record session.old { table = session.new.table } }
    ensures never { result ≢ Turn.StoreFault }
{
    let Some(batch) = take_writing(&mut session.table, number) else {
        return no_such_handle(number);
    };
    match write::<X, C>(alloc, batch, key, value) {
        Err(_) => Turn::Memory,
        Ok(batch) => {
            put_slot(&mut session.table, number, Slot::Writing(batch));
            Turn::Reply(Reply::Done)
        }
    }
}

// Merkleizes under a twin of the policy.
fn merkleize_batch<X: Making<C>, C: Store, P: Policy<X::Family, X::Key, X::Value> + Twin>(
    alloc: Global,
    database: &mut X,
    batch: X::Batch,
    policy: &P,
    metadata: &Option<X::Value>,
) -> Result<X::Merkleized, Error>
    ensures made { AtBatch X.Meaning database.old batch (λ list chain above ws.
        Makes X.Meaning C.Store database.old list chain
        (tip_of X.scheme P.rules chain ws policy.now (option_map X.Value.bytes metadata.now))
        (evictions_of X.scheme P.rules chain ws policy.now) result) }
    ensures reads { ReadsOnly X.Meaning C.Store database.old database.new result }
{
    let mut policy = policy.twin(alloc)?;
    database.merkleize(alloc, batch, &mut policy, metadata)
}

/// Gives a merkleized batch the number under which the batch was taken out of the table, or tells why there is none.
pub fn put_made<X: Common<C>, C: Store>(
    session: &mut SessionOf<X, C>,
    number: u64,
    made: Result<X::Merkleized, Error>,
) -> Turn<X::Key, X::Value, X::Digest>
    ensures machine { (s : State) (list : List Operation) (chain : Chain) (tip : List Operation)
        (evicted : List (Bytes × Bytes))
        → Stands C.Store X.Meaning session.old (machine.with_slot s number machine.gone)
        → Contains s.had list → IsAmong s.had chain
        → IsMaking X.Meaning s.opened list chain tip evicted made
        → Follows C.Store X.Meaning X.Key.bytes X.Value.bytes X.Digest.bytes session.new result
        (made_into X.scheme s number list chain tip evicted) }
    ensures rest { session.new ≡ record session.old { table = session.new.table } }
    ensures fault { result ≡ Turn.StoreFault → IsErrOf made (Error.Journal JournalError.Store) }
{
    match made {
        Err(error) => turn_of(error),
        Ok(batch) => {
            let sizes = X::sizes(&batch);
            put_slot(&mut session.table, number, Slot::Merkleized(batch));
            Turn::Reply(Reply::Merkleized(number, sizes.base, sizes.tip, sizes.floor))
        }
    }
}

/// Merkleizes a batch, which keeps its number.
pub fn merkleize<X: Making<C>, C: Store, P: Policy<X::Family, X::Key, X::Value> + Twin>(
    alloc: Global,
    session: &mut SessionOf<X, C>,
    number: u64,
    policy: &P,
    metadata: &Option<X::Value>,
) -> Turn<X::Key, X::Value, X::Digest>
    ensures machine { ObeysSteady C.Store X.Meaning X.Key.bytes X.Value.bytes X.Digest.bytes
        session.old session.new result (λ s. machine.merkleize X.scheme P.rules s number policy.now
        (option_map X.Value.bytes metadata.now)) }
    ensures store { IsUnchanged C.Store (store_given X.inside session.old.held)
        (store_given X.inside session.new.held) }
    ensures uses { Uses C.Store (store_given X.inside session.old.held)
        (store_given X.inside session.new.held) result }
    ensures opened { session.new.opened ≡ session.old.opened }
{
    let Given::Database(x) = &mut session.held else {
        return no_database();
    };
    let Some(batch) = take_writing(&mut session.table, number) else {
        return no_such_handle(number);
    };
    let made = merkleize_batch::<X, C, P>(alloc, x, batch, policy, metadata);
    put_made::<X, C>(session, number, made)
}

/// Applies a merkleized batch, which keeps its number.
pub fn apply<X: Making<C>, C: Store>(
    alloc: Global,
    held: Given<X, C>,
    table: &Vec<Slot<X::Batch, X::Staged, X::Merkleized>>,
    number: u64,
) -> (Given<X, C>, Turn<X::Key, X::Value, X::Digest>)
    ensures machine { (count : ℕ)
        → ObeysHeldSteady C.Store X.Meaning X.Key.bytes X.Value.bytes X.Digest.bytes table.now.items
        count held count result.0 result.1 (λ s. machine.apply X.scheme s number) }
    ensures left { (count : ℕ)
        → LeavesHeldSteady C.Store X.Meaning table.now.items count held result.0
        (λ s. machine.apply X.scheme s number) }
    ensures uses { Uses C.Store (store_given X.inside held) (store_given X.inside result.0)
        result.1 }
{
    match held {
        Given::Store(store) => without_database::<X, C>(store),
        Given::Database(x) => match merkleized_at(table, number) {
            None => (Given::Database(x), no_such_handle(number)),
            Some(batch) => match x.apply(alloc, batch) {
                Ok(x) => {
                    let numbers = x.info();
                    (
                        Given::Database(x),
                        Turn::Reply(Reply::Applied(numbers.size)),
                    )
                }
                Err(refusal) => (refusal.given, turn_of(refusal.error)),
            },
        },
    }
}
