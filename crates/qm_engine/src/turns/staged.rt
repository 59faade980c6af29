// Commands of staged reads.
ghost use Rattle.std.specs.Prelude.{◌≡◌, ◌≢◌, Some, None, length, map, option_map, slice_index_or, slice_set, IfOk, IfErr, MatchOption};
ghost use Rattle.qm_base.specs.Slots.{slot_views, write_views};
ghost use Rattle.qm_model.specs.Slots.{slotted};
ghost use Rattle.qm_machine.specs.Machine as machine;
ghost use Rattle.qm_store.specs.Given.{store_given, IsUnchanged};
ghost use Rattle.qm_engine.specs.Table.{staged_of};
ghost use Rattle.qm_offer.specs.Words.{AtStaged, Makes, ReadsOnly, evictions_of, tip_of};
ghost use Rattle.qm_engine.specs.Session.{Obeys, ObeysSteady, Uses};

use super::batches::put_made;
use crate::session::{SessionOf, Turn, no_database, no_such_handle, turn_of};
use crate::table::{Slot, put_slot, take_staged, take_writing};
use qm_base::{Error, Resolution, Twin};
use qm_chain::Policy;
use qm_lines::{Refused, Reply};
use qm_offer::Staging;
use qm_store::{Given, Store};
use std::alloc::Global;

/// Reads the values of keys through a batch, which becomes a staged one and keeps its number.
pub fn stage<X: Staging<C>, C: Store>(
    alloc: Global,
    session: &mut SessionOf<X, C>,
    number: u64,
    keys: &[X::Key],
) -> Turn<X::Key, X::Value, X::Digest>
    ensures machine { Obeys C.Store X.Meaning X.Key.bytes X.Value.bytes X.Digest.bytes session.old
        session.new result (λ s. machine.stage X.scheme s number (map X.Key.bytes keys.now)) }
    ensures store { IsUnchanged C.Store (store_given X.inside session.old.held)
        (store_given X.inside session.new.held) }
    ensures uses { Uses C.Store (store_given X.inside session.old.held)
        (store_given X.inside session.new.held) result }
    ensures opened { session.new.opened ≡ session.old.opened }
{
    let Given::Database(x) = &mut session.held else {
        return no_database();
    };
    let Some(batch) = take_writing(&mut session.table, number) else {
        return no_such_handle(number);
    };
    match x.stage(alloc, batch, keys) {
        Err(error) => turn_of(error),
        Ok((values, batch)) => {
            put_slot(&mut session.table, number, Slot::Staged(batch));
            Turn::Reply(Reply::Read(values))
        }
    }
}

/// Reads the values of more keys through a staged batch, which keeps its number.
pub fn expand<X: Staging<C>, C: Store>(
    alloc: Global,
    session: &mut SessionOf<X, C>,
    number: u64,
    keys: &[X::Key],
) -> Turn<X::Key, X::Value, X::Digest>
    ensures machine { Obeys C.Store X.Meaning X.Key.bytes X.Value.bytes X.Digest.bytes session.old
        session.new result (λ s. machine.expand X.scheme s number (map X.Key.bytes keys.now)) }
    ensures store { IsUnchanged C.Store (store_given X.inside session.old.held)
        (store_given X.inside session.new.held) }
    ensures uses { Uses C.Store (store_given X.inside session.old.held)
        (store_given X.inside session.new.held) result }
    ensures opened { session.new.opened ≡ session.old.opened }
{
    let Given::Database(x) = &mut session.held else {
        return no_database();
    };
    let Some(batch) = take_staged(&mut session.table, number) else {
        return no_such_handle(number);
    };
    match x.expand(alloc, batch, keys) {
        Err(error) => turn_of(error),
        Ok((range, values, batch)) => {
            put_slot(&mut session.table, number, Slot::Staged(batch));
            Turn::Reply(Reply::Expanded(range.start as u64, range.end as u64, values))
        }
    }
}

// Takes a staged batch out of the table, if so many slots were given as it has keys.
fn take_counted<X: Staging<C>, C: Store>(
    table: &mut Vec<Slot<X::Batch, X::Staged, X::Merkleized>>,
    number: u64,
    given: usize,
) -> Result<X::Staged, Refused>
    ensures batch { IfOk result (λ b.
        (staged_of (slice_index_or table.old.items number Slot.Gone) ≡ Some b) × (given ≡ X.count b)
        × (table.new.items ≡ slice_set table.old.items number Slot.Gone)) }
    ensures refused { IfErr result (λ r.
        MatchOption (staged_of (slice_index_or table.old.items number Slot.Gone))
        (r ≡ Refused.NoSuchHandle number) (λ b.
        (X.count b ≢ given) × (r ≡ Refused.SlotCount (X.count b) given))) }
    ensures left { IfErr result (λ _. table.new.items ≡ table.old.items) }
{
    let Some(batch) = take_staged(table, number) else {
        return Err(Refused::NoSuchHandle(number));
    };
    let count = X::staged_count(&batch);
    if count == given {
        Ok(batch)
    } else {
        put_slot(table, number, Slot::Staged(batch));
        Err(Refused::SlotCount(count as u64, given as u64))
    }
}

// Resolves under a twin of the policy.
fn resolve_batch<X: Staging<C>, C: Store, P: Policy<X::Family, X::Key, X::Value> + Twin>(
    alloc: Global,
    database: &mut X,
    batch: X::Staged,
    resolution: &Resolution<X::Key, X::Value>,
    policy: &P,
    metadata: &Option<X::Value>,
) -> Result<X::Merkleized, Error>
    requires { length resolution.now.slots.items ≡ X.count batch }
    ensures made { AtStaged X.Meaning database.old batch (λ list chain above ws keys.
        let writes = slotted ws keys (slot_views X.Value.bytes resolution.now.slots.items) (write_views X.Key.bytes X.Value.bytes resolution.now.others.items) in
        Makes X.Meaning C.Store database.old list chain
        (tip_of X.scheme P.rules chain writes policy.now (option_map X.Value.bytes metadata.now))
        (evictions_of X.scheme P.rules chain writes policy.now) result) }
    ensures reads { ReadsOnly X.Meaning C.Store database.old database.new result }
{
    let mut policy = policy.twin(alloc)?;
    database.resolve(alloc, batch, resolution, &mut policy, metadata)
}

/// Merkleizes a staged batch with what becomes of its keys; it keeps its number. If there are not as many slots as keys it
/// stays a staged one.
pub fn resolve<X: Staging<C>, C: Store, P: Policy<X::Family, X::Key, X::Value> + Twin>(
    alloc: Global,
    session: &mut SessionOf<X, C>,
    number: u64,
    policy: &P,
    metadata: &Option<X::Value>,
    resolution: &Resolution<X::Key, X::Value>,
) -> Turn<X::Key, X::Value, X::Digest>
    ensures machine { ObeysSteady C.Store X.Meaning X.Key.bytes X.Value.bytes X.Digest.bytes
        session.old session.new result (λ s.
        machine.resolve X.scheme P.rules s number policy.now (option_map X.Value.bytes metadata.now)
        (slot_views X.Value.bytes resolution.now.slots.items)
        (write_views X.Key.bytes X.Value.bytes resolution.now.others.items)) }
    ensures store { IsUnchanged C.Store (store_given X.inside session.old.held)
        (store_given X.inside session.new.held) }
    ensures uses { Uses C.Store (store_given X.inside session.old.held)
        (store_given X.inside session.new.held) result }
    ensures opened { session.new.opened ≡ session.old.opened }
{
    let Given::Database(x) = &mut session.held else {
        return no_database();
    };
    match take_counted::<X, C>(&mut session.table, number, resolution.slots.len()) {
        Err(refused) => Turn::Reply(Reply::Refused(refused)),
        Ok(batch) => {
            let made = resolve_batch::<X, C, P>(alloc, x, batch, resolution, policy, metadata);
            put_made::<X, C>(session, number, made)
        }
    }
}
