//! What a batch makes of its base list.

ghost use Rattle.std.specs.List.{IsDistinct};
ghost use Rattle.std.specs.Vec.{vec_capacity};
ghost use Rattle.std.specs.Prelude.{bytes_eq, ◌≡◌, ◌<◌, ◌≤◌, ◌^◌, ◌++◌, ◌+◌, ◌-◌, ◌==◌, List, length, map, count_by, option_map, is_none, is_some, All, IfSome, IfOk, IfErr, if◌then◌else◌};
ghost use Rattle.qm_operations.specs.Parts as parts;
ghost use Rattle.qm_operations.specs.Views.{operation_view};
ghost use Rattle.qm_model.specs.Bits.{bits};
ghost use Rattle.qm_model.specs.Live as lives;
ghost use Rattle.qm_model.specs.Operations as model;
ghost use Rattle.qm_model.specs.Step.{committed, evicted_by, policy_after, step};
ghost use Rattle.qm_model.specs.Writes as writes;
ghost use Rattle.qm_step.specs.Bases.{base_view, IsBase};
ghost use Rattle.qm_step.specs.Going.{write_for, IsDecided};
ghost use Rattle.qm_step.specs.Kinds.{kind_of, AreWritten, CountsMoves, HasRing};
ghost use Rattle.qm_base.specs.Reads.{ReadsItems};
ghost use Rattle.qm_step.specs.Lent.{IsLent, IsWhole, ReadsLent};
ghost use Rattle.qm_step.specs.PlanViews.{decided_views, pair_views, touch_views};
ghost use Rattle.qm_batch.specs.PlanPaths.{AreOwn};
ghost use Rattle.qm_step.specs.Rings.{touch_in};
ghost use Rattle.qm_step.specs.Touches.{IsFrom, operations_of};
ghost use Rattle.qm_step.specs.Views.{write_view, wanted_view, AreReads, IsPlan};

mod ordered;
mod over;
mod sites;
mod walk;

use self::ordered::befores_of;
use self::over::written_over;
use self::walk::{Walked, walk_from};
use qm_base::{Error, Items, Location, Write};
use qm_bits::Candidates;
use qm_chain::{Diff, Policy};
use qm_operations::{Operation, Update};
use qm_step::decided::evicted;
use qm_step::diff::diff_of_touches;
use qm_step::kind::Steps;
use qm_step::touch::Touch;
use qm_step::writes::last_writes;
use qm_step::{Base, Wanted};
use std::alloc::{AllocError, Global};
use std::marker::Model;

/// What a batch makes of its base list.
#[derive(Drop)]
pub struct Plan<F, U: Update> {
    /// What follows the base list.
    pub operations: Vec<Operation<F, U>>,
    /// What the operations do to keys.
    pub diff: Diff<F, U::Key, U::Value>,
    /// The floor of the list with them.
    pub floor: Location<F>,
    /// How many keys are live in it.
    pub live: u64,
    /// The keys that the walk evicted, in its order, each with the value that it had.
    pub evicted: Vec<(U::Key, U::Value)>,
}

impl<F, U: Update> Model for Plan<F, U> {
    ghost use Rattle.qm_operations.specs.Views.{operation_views};
    ghost use Rattle.qm_step.specs.PlanViews.{pair_views};
    ghost use Rattle.qm_step.specs.Views.{Plan, changes_view};

    ghost Value = { Plan };

    ghost view = { λ p. record { operations = operation_views U.view U.Key.bytes U.Value.bytes p.operations.items; changes = changes_view U.Key.bytes U.Value.bytes p.diff; floor = p.floor; live = p.live; evicted = pair_views U.Key.bytes U.Value.bytes p.evicted.items } };
}

/// The own operations of a step without its commit, how many keys they leave live, where the walk ended, and the keys that it
/// evicted, each with the value that it had.
#[derive(Drop)]
struct Own<F, U: Update> {
    touches: Vec<Touch<F, U>>,
    live: u64,
    floor: u64,
    evicted: Vec<(U::Key, U::Value)>,
}

// How many of the operations are of keys that stood in the base list.
fn stood<F, U: Update>(touches: &[Touch<F, U>]) -> usize
    ensures count { result ≡ count_by (λ t. is_some t.before) touches.now }
    ensures bound { result ≤ length touches.now }
{
    let mut count = 0;
    for touch in touches {
        if touch.before.is_some() {
            count += 1;
        }
    }
    count
}

// How many of the operations are updates.
fn updated<F, U: Update>(touches: &[Touch<F, U>]) -> usize
    ensures count { result
        ≡ count_by (λ t.
        parts.is_update (operation_view U.view U.Key.bytes U.Value.bytes t.operation)) touches.now }
    ensures bound { result ≤ length touches.now }
{
    let mut count = 0;
    for touch in touches {
        if touch.operation.is_update() {
            count += 1;
        }
    }
    count
}

// How many keys are live after the operations of writes, if so many were live before them.
fn live_behind<F, U: Update>(touches: &[Touch<F, U>], live: u64) -> u64
    requires { live ≤ 2 ^ 62 }
    ensures value { result
        ≡ live - count_by (λ t. is_some t.before) touches.now + count_by (λ t.
        parts.is_update (operation_view U.view U.Key.bytes U.Value.bytes t.operation)) touches.now }
    ensures bound { result ≤ live + length touches.now }
{
    live.saturating_sub(stood(touches) as u64) + updated(touches) as u64
}

// How many operations those of writes make inactive, if so many keys were live before them and so many are after them.
fn made_inactive<F, U: Update>(touches: &[Touch<F, U>], live: u64, behind: u64) -> u64
    requires { live ≤ 2 ^ 62 }
    ensures { result ≡ length touches.now + live - behind }
{
    (touches.len() as u64 + live).saturating_sub(behind)
}

// The own operations of a step whose walk is over: those of the writes, and what was decided, with so many keys live after
// the writes.
fn own_of<F, I: qm_index::Unordered<Value = Location<F>>, L: Items, U: Steps<F, I>>(
    alloc: Global,
    index: &I,
    log: &mut L,
    base: &Base<'_, F, U>,
    made: Vec<Touch<F, U>>,
    walked: Walked<U::Key, U::Value>,
    behind: u64,
) -> Result<Own<F, U>, Error>
    requires { base.now.size ≤ 2 ^ 62 }
    ensures touches { (lent list : List model.Operation) (ws : List writes.Write)
        → IsLent L.reads U.form I.index_key (I.entries index.now) log.old lent
        → IsBase (base_view base.now) lent list
        → AreWritten (kind_of U.form) list ws
        (touch_views U.view U.Key.bytes U.Value.bytes made.items) → HasRing U.form lent
        → HasRing U.form list
        → All (IsDecided list (list ++ (kind_of U.form).writes list ws))
        (decided_views U.Key.bytes U.Value.bytes walked.decided.items)
        → IsDistinct bytes_eq (map (λ d. d.key)
        (map write_for (decided_views U.Key.bytes U.Value.bytes walked.decided.items)))
        → IfSome (L.reads.told log.old) (λ _.
        IfOk result (λ own. touch_views U.view U.Key.bytes U.Value.bytes own.touches.items
        ≡ touch_views U.view U.Key.bytes U.Value.bytes made.items
        ++ map (touch_in list) ((kind_of U.form).moves (list ++ (kind_of U.form).writes list ws)
        (map write_for (decided_views U.Key.bytes U.Value.bytes walked.decided.items))))) }
    ensures moves { IfOk result (λ _. CountsMoves (kind_of U.form).moves) }
    ensures live { IfOk result (λ own.
        own.live ≡ behind - count_by (λ d. is_none d.value) walked.decided.items) }
    ensures floor { IfOk result (λ own. own.floor ≡ walked.floor) }
    ensures evicted { IfOk result (λ own. own.evicted ≡ walked.evicted) }
    ensures count { IfOk result (λ own. length made.items ≤ length own.touches.items) }
    ensures reads { ReadsLent L.reads U.form I.index_key (I.entries index.now) log.old log.new
        result }
{
    let Walked {
        decided,
        evicted: told,
        floor,
    } = walked;
    let live = behind.saturating_sub(evicted(&decided) as u64);
    let found = befores_of(alloc, index, log, base, &made, &decided)?;
    let touches = U::moved(alloc, base.size, made, decided, &found)?;
    Ok(Own {
        touches,
        live,
        floor,
        evicted: told,
    })
}

// The own operations of a step: those of its writes, which are given, and what the policy decides.
fn own_along<
    F,
    I: qm_index::Unordered<Value = Location<F>>,
    B: Candidates<F>,
    L: Items,
    U: Steps<F, I>,
    P: Policy<F, U::Key, U::Value>,
>(
    alloc: Global,
    index: &I,
    candidates: &B,
    log: &mut L,
    base: &Base<'_, F, U>,
    made: Vec<Touch<F, U>>,
    policy: &mut P,
) -> Result<Own<F, U>, Error>
    requires size { base.now.size ≤ 2 ^ 62 }
    requires live { base.now.live ≤ base.now.size }
    ensures own { (lent list : List model.Operation) (ws : List writes.Write)
        → IsLent L.reads U.form I.index_key (I.entries index.now) log.old lent
        → B.activity candidates.now ≡ bits lent → IsBase (base_view base.now) lent list
        → AreWritten (kind_of U.form) list ws
        (touch_views U.view U.Key.bytes U.Value.bytes made.items) → HasRing U.form lent
        → HasRing U.form list
        → IfSome (L.reads.told log.old) (λ _. IfOk result (λ own. AreOwn (kind_of U.form) P.rules
        policy.old policy.new (touch_views U.view U.Key.bytes U.Value.bytes own.touches.items)
        (pair_views U.Key.bytes U.Value.bytes own.evicted.items) own.live own.floor list ws)) }
    ensures count { IfOk result (λ own. own.live ≤ base.now.size + length own.touches.items) }
    ensures reads { ReadsItems L.reads log.old log.new result
        (IsWhole L.reads U.form I.index_key (I.entries index.now) log.old
        × (L.reads.start log.old ≤ base.now.floor)) }
{
    let behind = live_behind(&made, base.live);
    let limits = policy.limits(made_inactive(&made, base.live, behind));
    let walked = walk_from(alloc, index, candidates, log, base, &made, policy, limits)?;
    own_of(alloc, index, log, base, made, walked, behind)
}

// The own operations of a step, found over its base list: those of the writes, and what the policy decides.
fn own_operations<
    F,
    I: qm_index::Unordered<Value = Location<F>>,
    B: Candidates<F>,
    L: Items,
    U: Steps<F, I>,
    P: Policy<F, U::Key, U::Value>,
>(
    alloc: Global,
    index: &I,
    candidates: &B,
    log: &mut L,
    base: &Base<'_, F, U>,
    wanted: &Wanted<'_, F, U>,
    policy: &mut P,
) -> Result<Own<F, U>, Error>
    requires size { base.now.size ≤ 2 ^ 62 }
    requires live { base.now.live ≤ base.now.size }
    ensures own { (lent list : List model.Operation)
        → IsLent L.reads U.form I.index_key (I.entries index.now) log.old lent
        → B.activity candidates.now ≡ bits lent → IsBase (base_view base.now) lent list
        → HasRing U.form lent → HasRing U.form list
        → AreReads U.view U.Key.bytes wanted.now.reads.now list
        → IfSome (L.reads.told log.old) (λ _. IfOk result (λ own. AreOwn (kind_of U.form) P.rules
        policy.old policy.new (touch_views U.view U.Key.bytes U.Value.bytes own.touches.items)
        (pair_views U.Key.bytes U.Value.bytes own.evicted.items) own.live own.floor list
        (wanted_view U.Key.bytes U.Value.bytes wanted.now))) }
    ensures count { IfOk result (λ own. own.live ≤ base.now.size + length own.touches.items) }
    ensures reads { ReadsItems L.reads log.old log.new result
        (IsWhole L.reads U.form I.index_key (I.entries index.now) log.old
        × (L.reads.start log.old ≤ base.now.floor)) }
{
    let made = {
        let last = last_writes(alloc, wanted)?;
        written_over(alloc, index, log, base.layers, wanted.reads, &last)?
    };
    own_along(alloc, index, candidates, log, base, made, policy)
}

// The floor of a commit at this location: where the walk ended, or the location if no key is live.
fn commit_floor(live: u64, at: u64, end: u64) -> u64
    ensures { result ≡ (if live == 0 then at else end) }
{
    if live == 0 { at } else { end }
}

// The operations alone, with room for one more.
fn operations_in<F, U: Update>(
    alloc: Global,
    touches: Vec<Touch<F, U>>,
) -> Result<Vec<Operation<F, U>>, AllocError>
    ensures operations { IfOk result (λ operations.
        operations.items ≡ map (λ t. t.operation) touches.items) }
    ensures room { IfOk result (λ operations. length operations.items < vec_capacity operations) }
{
    let mut operations = Vec::with_capacity(alloc, touches.len() + 1)?;
    for touch in touches {
        operations.push_reserved(touch.operation);
    }
    Ok(operations)
}

// The plan of own operations, with a commit after them.
fn planned<F, U: Update>(
    alloc: Global,
    size: u64,
    own: Own<F, U>,
    metadata: Option<U::Value>,
) -> Result<Plan<F, U>, Error>
    requires { size ≤ 2 ^ 62 }
    ensures count { IfOk result (λ plan. length plan.operations ≡ length own.touches.items + 1) }
    ensures live { IfOk result (λ plan. plan.live ≡ own.live) }
    ensures plan { IfOk result (λ plan. (base : List model.Operation) → size ≡ length base
        → All (IsFrom base) (touch_views U.view U.Key.bytes U.Value.bytes own.touches.items)
        → own.live
        ≡ length (lives.live
        (base ++ operations_of (touch_views U.view U.Key.bytes U.Value.bytes own.touches.items)))
        → IsPlan plan base (committed
        (base ++ operations_of (touch_views U.view U.Key.bytes U.Value.bytes own.touches.items))
        own.floor (option_map U.Value.bytes metadata))
        (pair_views U.Key.bytes U.Value.bytes own.evicted.items)) }
    ensures memory { IfErr result (λ e. e ≡ Error.Memory) }
{
    let diff = diff_of_touches(alloc, size, &own.touches)?;
    let floor = commit_floor(own.live, size + own.touches.len() as u64, own.floor);
    let mut operations = operations_in(alloc, own.touches)?;
    operations.push_reserved(Operation::CommitFloor(metadata, Location::new(floor)));
    Ok(Plan {
        operations,
        diff,
        floor: Location::new(floor),
        live: own.live,
        evicted: own.evicted,
    })
}

/// What writes and metadata make of the base list of a batch: the operations of the writes, then what the policy decides
/// of the live updates from the floor on, then a commit. Index, log and candidates are lent for the base list or a list on
/// the way to it. Each write takes one look-up; each candidate that the walk comes to takes one read, if no layer has it. A
/// policy that evicts takes two copies, of a key and its value, for each live update that the walk comes to. If this is
/// refused the policy may have moved on.
#[allow(clippy::too_many_arguments)]
pub fn plain<
    F,
    I: qm_index::Unordered<Value = Location<F>>,
    B: Candidates<F>,
    L: Items,
    U: Steps<F, I>,
    P: Policy<F, U::Key, U::Value>,
>(
    alloc: Global,
    index: &I,
    candidates: &B,
    log: &mut L,
    base: &Base<'_, F, U>,
    writes: &[Write<U::Key, U::Value>],
    metadata: Option<U::Value>,
    policy: &mut P,
) -> Result<Plan<F, U>, Error>
    requires size { base.now.size ≤ 2 ^ 62 }
    requires live { base.now.live ≤ base.now.size }
    ensures plan { (lent list : List model.Operation)
        → IsLent L.reads U.form I.index_key (I.entries index.now) log.old lent
        → B.activity candidates.now ≡ bits lent → IsBase (base_view base.now) lent list
        → HasRing U.form lent → HasRing U.form list
        → IfSome (L.reads.told log.old) (λ _. IfOk result (λ plan. IsPlan plan list
        (step (kind_of U.form) P.rules list (map (write_view U.Key.bytes U.Value.bytes) writes.now)
        policy.old (option_map U.Value.bytes metadata))
        (evicted_by (kind_of U.form) P.rules list
        (map (write_view U.Key.bytes U.Value.bytes) writes.now) policy.old))) }
    ensures next { (lent list : List model.Operation)
        → IsLent L.reads U.form I.index_key (I.entries index.now) log.old lent
        → B.activity candidates.now ≡ bits lent → IsBase (base_view base.now) lent list
        → HasRing U.form lent → HasRing U.form list
        → IfSome (L.reads.told log.old) (λ _. IfOk result (λ _. policy.new
        ≡ policy_after (kind_of U.form) P.rules list
        (map (write_view U.Key.bytes U.Value.bytes) writes.now) policy.old)) }
    ensures live { IfOk result (λ plan. plan.live ≤ base.now.size + length plan.operations) }
    ensures reads { ReadsItems L.reads log.old log.new result
        (IsWhole L.reads U.form I.index_key (I.entries index.now) log.old
        × (L.reads.start log.old ≤ base.now.floor)) }
{
    let wanted = Wanted {
        writes,
        reads: &[],
        slots: &[],
        others: &[],
    };
    staged(
        alloc, index, candidates, log, base, wanted, metadata, policy,
    )
}

/// What the writes that are wanted make of the base list of a batch, as `plain` has it of writes, but the keys that were
/// read are not looked up again: neither index nor log is asked for them.
#[allow(clippy::too_many_arguments)]
pub fn staged<
    F,
    I: qm_index::Unordered<Value = Location<F>>,
    B: Candidates<F>,
    L: Items,
    U: Steps<F, I>,
    P: Policy<F, U::Key, U::Value>,
>(
    alloc: Global,
    index: &I,
    candidates: &B,
    log: &mut L,
    base: &Base<'_, F, U>,
    wanted: Wanted<'_, F, U>,
    metadata: Option<U::Value>,
    policy: &mut P,
) -> Result<Plan<F, U>, Error>
    requires size { base.now.size ≤ 2 ^ 62 }
    requires live { base.now.live ≤ base.now.size }
    requires slots { length wanted.slots.now ≡ length wanted.reads.now }
    ensures plan { (lent list : List model.Operation)
        → IsLent L.reads U.form I.index_key (I.entries index.now) log.old lent
        → B.activity candidates.now ≡ bits lent → IsBase (base_view base.now) lent list
        → HasRing U.form lent → HasRing U.form list
        → AreReads U.view U.Key.bytes wanted.entry.reads.now list
        → IfSome (L.reads.told log.old) (λ _. IfOk result (λ plan. IsPlan plan list
        (step (kind_of U.form) P.rules list (wanted_view U.Key.bytes U.Value.bytes wanted.entry)
        policy.old (option_map U.Value.bytes metadata))
        (evicted_by (kind_of U.form) P.rules list
        (wanted_view U.Key.bytes U.Value.bytes wanted.entry) policy.old))) }
    ensures next { (lent list : List model.Operation)
        → IsLent L.reads U.form I.index_key (I.entries index.now) log.old lent
        → B.activity candidates.now ≡ bits lent → IsBase (base_view base.now) lent list
        → HasRing U.form lent → HasRing U.form list
        → AreReads U.view U.Key.bytes wanted.entry.reads.now list
        → IfSome (L.reads.told log.old) (λ _. IfOk result (λ _. policy.new
        ≡ policy_after (kind_of U.form) P.rules list
        (wanted_view U.Key.bytes U.Value.bytes wanted.entry) policy.old)) }
    ensures live { IfOk result (λ plan. plan.live ≤ base.now.size + length plan.operations) }
    ensures reads { ReadsItems L.reads log.old log.new result
        (IsWhole L.reads U.form I.index_key (I.entries index.now) log.old
        × (L.reads.start log.old ≤ base.now.floor)) }
{
    match own_operations(alloc, index, candidates, log, base, &wanted, policy) {
        Ok(own) => planned(alloc, base.size, own, metadata),
        Err(error) => Err(error),
    }
}
