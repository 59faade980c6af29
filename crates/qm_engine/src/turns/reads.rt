// Commands that read, list and tell.
ghost use Rattle.std.specs.Prelude.{◌≡◌, ◌≢◌, ◌∷◌, [], List, ℕ, Some, None, map, Contains, IfOk};
ghost use Rattle.qm_model.specs.Operations.{Operation};
ghost use Rattle.qm_machine.specs.Machine.{State};
ghost use Rattle.qm_machine.specs.Machine as machine;
ghost use Rattle.qm_store.specs.Given.{store_given, IsUnchanged};
ghost use Rattle.qm_engine.specs.Session.{SlotIs, Answers, Obeys, Tells, Uses};

use crate::session::{SessionOf, Turn, no_database, no_such_handle, turn_of};
use crate::table::{Slot, merkleized_at, slot_at};
use qm_base::ByteString;
use qm_lines::Reply;
use qm_offer::{BatchSizes, Common, Numbers, Reading, Roots};
use qm_store::{Given, Store};
use std::alloc::{AllocError, Global};

// Reads the values of keys through what a batch number names.
fn read_slot<X: Reading<C>, C: Store>(
    alloc: Global,
    database: &mut X,
    number: u64,
    slot: &Slot<X::Batch, X::Staged, X::Merkleized>,
    keys: &[X::Key],
) -> Turn<X::Key, X::Value, X::Digest>
    ensures machine { (s : State) (list : List Operation) (named : machine.Slot)
        → X.stands database.old list
        → Contains s.had list → SlotIs C.Store X.Meaning s.had slot.now named
        → Answers C.Store X.Meaning X.Key.bytes X.Value.bytes X.Digest.bytes result s
        (machine.read_in X.scheme s number (map X.Key.bytes keys.now) list named) }
    ensures same { (list : List Operation) → X.stands database.old list
        → X.stands database.new list }
    ensures numbered { (n : ℕ) → X.numbered database.old n → X.numbered database.new n }
    ensures store { IsUnchanged C.Store (X.inside database.old) (X.inside database.new) }
    ensures uses { Uses C.Store (X.inside database.old) (X.inside database.new) result }
{
    match slot {
        Slot::Gone | Slot::Staged(_) => no_such_handle(number),
        Slot::Writing(batch) => match database.get_through(alloc, batch, keys) {
            Ok(values) => Turn::Reply(Reply::Read(values)),
            Err(error) => turn_of(error),
        },
        Slot::Merkleized(batch) => match database.get_from(alloc, batch, keys) {
            Ok(values) => Turn::Reply(Reply::Read(values)),
            Err(error) => turn_of(error),
        },
    }
}

/// Reads the values of keys, through a batch if its number is given.
pub fn read<X: Reading<C>, C: Store>(
    alloc: Global,
    session: &mut SessionOf<X, C>,
    keys: &[X::Key],
    from: Option<u64>,
) -> Turn<X::Key, X::Value, X::Digest>
    ensures machine { Obeys C.Store X.Meaning X.Key.bytes X.Value.bytes X.Digest.bytes session.old
        session.new result (λ s. machine.read X.scheme s (map X.Key.bytes keys.now) from) }
    ensures store { IsUnchanged C.Store (store_given X.inside session.old.held)
        (store_given X.inside session.new.held) }
    ensures uses { Uses C.Store (store_given X.inside session.old.held)
        (store_given X.inside session.new.held) result }
    ensures opened { session.new.opened ≡ session.old.opened }
{
    let Given::Database(x) = &mut session.held else {
        return no_database();
    };
    match from {
        None => match x.get(alloc, keys) {
            Ok(values) => Turn::Reply(Reply::Read(values)),
            Err(error) => turn_of(error),
        },
        Some(number) => match slot_at(&session.table, number) {
            None => no_such_handle(number),
            Some(slot) => read_slot::<X, C>(alloc, x, number, slot, keys),
        },
    }
}

// A copy of the key, alone.
fn alone<K: ByteString>(alloc: Global, key: &K) -> Result<Vec<K>, AllocError>
    ensures { IfOk result (λ keys. keys.items ≡ key.now ∷ []) }
{
    let key = key.twin(alloc)?;
    let mut keys = Vec::new(alloc);
    keys.push(key)?;
    Ok(keys)
}

/// Reads the value of a key, through a batch if its number is given.
pub fn read_key<X: Reading<C>, C: Store>(
    alloc: Global,
    session: &mut SessionOf<X, C>,
    key: &X::Key,
    from: Option<u64>,
) -> Turn<X::Key, X::Value, X::Digest>
    ensures machine { Obeys C.Store X.Meaning X.Key.bytes X.Value.bytes X.Digest.bytes session.old
        session.new result (λ s. machine.read X.scheme s (X.Key.bytes key.now ∷ []) from) }
    ensures store { IsUnchanged C.Store (store_given X.inside session.old.held)
        (store_given X.inside session.new.held) }
    ensures uses { Uses C.Store (store_given X.inside session.old.held)
        (store_given X.inside session.new.held) result }
    ensures opened { session.new.opened ≡ session.old.opened }
{
    match alone(alloc, key) {
        Err(_) => Turn::Memory,
        Ok(keys) => read::<X, C>(alloc, session, &keys, from),
    }
}

/// A merkleized batch's own operations, and the size of the list that it was made from.
pub fn ops<X: Reading<C>, C: Store>(
    alloc: Global,
    session: &SessionOf<X, C>,
    number: u64,
) -> Turn<X::Key, X::Value, X::Digest>
    ensures machine { Tells C.Store X.Meaning X.Key.bytes X.Value.bytes X.Digest.bytes session.now
        result (λ s. machine.ops s number) }
    ensures never { result ≢ Turn.StoreFault }
{
    let Some(batch) = merkleized_at(&session.table, number) else {
        return no_such_handle(number);
    };
    match X::ops(alloc, batch) {
        Err(_) => Turn::Memory,
        Ok((base, operations)) => Turn::Reply(Reply::Ops(base, operations)),
    }
}

/// The keys that a merkleized batch's step evicted, with the values that they had.
pub fn evicted<X: Reading<C>, C: Store>(
    alloc: Global,
    session: &SessionOf<X, C>,
    number: u64,
) -> Turn<X::Key, X::Value, X::Digest>
    ensures machine { Tells C.Store X.Meaning X.Key.bytes X.Value.bytes X.Digest.bytes session.now
        result (λ s. machine.evicted s number) }
    ensures never { result ≢ Turn.StoreFault }
{
    let Some(batch) = merkleized_at(&session.table, number) else {
        return no_such_handle(number);
    };
    match X::evicted(alloc, batch) {
        Err(_) => Turn::Memory,
        Ok(pairs) => Turn::Reply(Reply::Evicted(pairs)),
    }
}

/// The numbers of the database.
pub fn info<X: Common<C>, C: Store>(session: &SessionOf<X, C>) -> Turn<X::Key, X::Value, X::Digest>
    ensures machine { Tells C.Store X.Meaning X.Key.bytes X.Value.bytes X.Digest.bytes session.now
        result (machine.info X.scheme) }
    ensures never { result ≢ Turn.StoreFault }
{
    let Given::Database(x) = &session.held else {
        return no_database();
    };
    let Numbers {
        start,
        size,
        floor,
        boundary,
        is_live,
    } = x.info();
    Turn::Reply(Reply::Info(start, size, floor, boundary, is_live))
}

/// The numbers of a merkleized batch.
pub fn batch_info<X: Common<C>, C: Store>(
    session: &SessionOf<X, C>,
    number: u64,
) -> Turn<X::Key, X::Value, X::Digest>
    ensures machine { Tells C.Store X.Meaning X.Key.bytes X.Value.bytes X.Digest.bytes session.now
        result (λ s. machine.batch_info X.scheme s number) }
    ensures never { result ≢ Turn.StoreFault }
{
    let Some(batch) = merkleized_at(&session.table, number) else {
        return no_such_handle(number);
    };
    let BatchSizes {
        base,
        tip,
        floor,
        boundary,
    } = X::sizes(batch);
    Turn::Reply(Reply::BatchInfo(base, tip, floor, boundary))
}

/// The roots of the database.
pub fn root<X: Reading<C>, C: Store>(session: &SessionOf<X, C>) -> Turn<X::Key, X::Value, X::Digest>
    ensures machine { Tells C.Store X.Meaning X.Key.bytes X.Value.bytes X.Digest.bytes session.now
        result (machine.root X.scheme) }
    ensures never { result ≢ Turn.StoreFault }
{
    let Given::Database(x) = &session.held else {
        return no_database();
    };
    let Roots { root, operations } = x.root();
    Turn::Reply(Reply::Root(root, operations))
}

/// The roots of the list that a merkleized batch makes.
pub fn batch_root<X: Reading<C>, C: Store>(
    session: &SessionOf<X, C>,
    number: u64,
) -> Turn<X::Key, X::Value, X::Digest>
    ensures machine { Tells C.Store X.Meaning X.Key.bytes X.Value.bytes X.Digest.bytes session.now
        result (λ s. machine.batch_root X.scheme s number) }
    ensures never { result ≢ Turn.StoreFault }
{
    let Some(batch) = merkleized_at(&session.table, number) else {
        return no_such_handle(number);
    };
    let Roots { root, operations } = X::batch_root(batch);
    Turn::Reply(Reply::Root(root, operations))
}

/// The metadata of the list's last commit.
pub fn meta<X: Reading<C>, C: Store>(
    alloc: Global,
    session: &SessionOf<X, C>,
) -> Turn<X::Key, X::Value, X::Digest>
    ensures machine { Tells C.Store X.Meaning X.Key.bytes X.Value.bytes X.Digest.bytes session.now
        result (machine.meta) }
    ensures never { result ≢ Turn.StoreFault }
{
    let Given::Database(x) = &session.held else {
        return no_database();
    };
    match x.metadata(alloc) {
        Err(_) => Turn::Memory,
        Ok(metadata) => Turn::Reply(Reply::Meta(metadata)),
    }
}
