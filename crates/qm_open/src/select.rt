//! Which list an opening takes up.

ghost use Rattle.std.specs.Prelude.{false, ◌≡◌, ◌⊎◌, ◌≤◌, ◌<◌, ◌-◌, ◌==◌, ◌&&◌, ℕ, Some, None, Ok, Err, min, option_map, IfSome, IfOk, IfErr, IsErrOf, IsSome};
ghost use Rattle.std.specs.Option.{option_map_or};
ghost use Rattle.qm_model.specs.Causes.{IsCause};
ghost use Rattle.qm_model.specs.Opening as opening;
ghost use Rattle.qm_model.specs.Opening.{opening_refusal};
ghost use Rattle.qm_model.specs.Trees.{Shape};
ghost use Rattle.qm_store.specs.Log.{IsKept};
ghost use Rattle.qm_store.specs.Refusals.{refusal_of, IsDue};
ghost use Rattle.qm_open.specs.Selecting.{bits_of, content_refusal, floor_told, found_of, kept_items, layout_of, selected_refusal, selected_view, up_to, AreFew, HasThreshold};
ghost use Rattle.qm_open.specs.Unopened.{early_refusal, IsUnselected};

use crate::pruned::{Pruned, bits_in, is_past, is_too_short};
use qm_base::{Corrupt, Error, JournalError};
use qm_build::commit_floor_in;
use qm_operations::Update;
use qm_store::Store;
use std::alloc::Global;

/// A commit that a store keeps: the size of the list that ends with it, and its floor.
#[derive(Clone, Copy, Drop)]
pub struct Selected {
    pub size: u64,
    pub floor: u64,
}

// Up to where a store that ends there is looked at, under a bound.
fn top(end: u64, bound: Option<u64>) -> u64
    ensures { result ≡ option_map_or (λ b. min b end) bound end }
{
    match bound {
        Some(bound) => bound.min(end),
        None => end,
    }
}

/// The last commit that a store keeps of a list within the bound. It reads the items after it, from the last
/// one on, and its own.
fn last_commit<F, C: Store, U: Update>(
    alloc: Global,
    store: &mut C,
    bound: Option<u64>,
) -> Result<Option<Selected>, Error>
    ensures selected { IfSome (C.told store.old) (λ s.
        IfOk result (λ at. option_map selected_view at
        ≡ opening.last_commit s.start None (up_to bound s (kept_items U.form s)))) }
    ensures floor { IfSome (C.told store.old) (λ s.
        IfOk result (λ at. IfSome at (λ c. floor_told U.form s (c.size - 1) ≡ Some c.floor))) }
    ensures within { IfOk result (λ at.
        IfSome at (λ c. (C.start store.old < c.size) × (c.size ≤ C.end store.old))) }
    ensures kept { IsKept C.Store store.old store.new }
    ensures never { IfErr result (λ e.
        (e ≡ Error.Memory) ⊎ (e ≡ Error.Journal JournalError.Store)) }
    ensures cause { IsCause (C.faults store.old) (C.faults store.new)
        (IsErrOf result (Error.Journal JournalError.Store)) }
{
    let (start, end) = store.bounds();
    for at in (start..top(end, bound)).rev() {
        let item = store.read(at)?;
        if let Some(floor) = commit_floor_in::<F, U>(alloc, &item)? {
            return Ok(Some(Selected {
                size: at + 1,
                floor,
            }));
        }
    }
    Ok(None)
}

// The commit that was found in a store with these bounds, if it is not refused. None is for an empty store alone.
fn checked(
    start: u64,
    end: u64,
    pruned: Option<Pruned>,
    found: Option<Selected>,
) -> Result<Option<Selected>, Error>
    requires few { AreFew pruned }
    requires within { IfSome found (λ c. (start < c.size) × (c.size ≤ end)) }
    ensures chosen { IfOk result (λ at. (at ≡ found)
        × (selected_refusal start (start == 0 && end == 0) pruned (option_map selected_view found)
        ≡ None)) }
    ensures refused { IfErr result (λ e. IsDue e
        (selected_refusal start (start == 0 && end == 0) pruned (option_map selected_view found))) }
    ensures told { IfErr result (λ e. IsSome (refusal_of e)) }
    ensures within { IfOk result (λ at. IfSome at (λ c.
        (start ≤ c.floor) × (bits_of pruned ≤ c.floor) × (c.floor < c.size) × (c.size ≤ end))) }
    ensures empty { result ≡ Ok None → (start ≡ 0) × (end ≡ 0) × (bits_of pruned ≡ 0) }
{
    let bits = bits_in(pruned);
    match found {
        None if bits > 0 => Err(Error::HistoricalFloorPruned(0)),
        None if start == 0 && end == 0 => Ok(None),
        None => Err(Error::DataCorrupted(Corrupt::NoRetainedCommit)),
        Some(at) if at.size < bits => Err(Error::HistoricalFloorPruned(at.size)),
        Some(at) if at.floor >= at.size => Err(Error::DataCorrupted(Corrupt::FloorExceedsCommit)),
        Some(at) if at.floor < start => Err(Error::HistoricalFloorPruned(at.size)),
        Some(at) if at.floor < bits => Err(Error::HistoricalFloorPruned(at.size)),
        Some(at) if is_too_short(pruned, at.size) => Err(Error::HistoricalFloorPruned(at.size)),
        Some(_) if is_past(pruned, start) => Err(Error::DataCorrupted(Corrupt::PrunedPastBits)),
        Some(at) => Ok(Some(at)),
    }
}

// Whether the bound is 0, up to which nothing is opened.
fn is_zero(bound: Option<u64>) -> bool
    ensures { result ≡ option_map_or (λ n. n == 0) bound false }
{
    match bound {
        Some(bound) => bound == 0,
        None => false,
    }
}

/// The commit that an opening up to a bound selects, if neither the bound nor the commit is refused. None is for an empty
/// store alone, which an opening makes the fresh list of. If chunks of activity bits are pruned, the commit is also refused
/// for these. It reads the items after the commit, from the last one on, and its own. Head, items and links of the store are
/// not looked at.
pub fn select_commit<F, C: Store, U: Update>(
    alloc: Global,
    store: &mut C,
    bound: Option<u64>,
    pruned: Option<Pruned>,
) -> Result<Option<Selected>, Error>
    requires few { AreFew pruned }
    ensures chosen { IfSome (C.told store.old) (λ s. IfOk result (λ at.
        option_map selected_view at ≡ opening.selected (found_of U.form s pruned) bound)) }
    ensures accepted { (shape : Shape) (digest_size : ℕ) → HasThreshold shape pruned
        → IfSome (C.told store.old) (λ s. IfOk result (λ at.
        opening_refusal (layout_of U.form shape digest_size pruned) (found_of U.form s pruned) bound
        ≡ content_refusal (layout_of U.form shape digest_size pruned) (found_of U.form s pruned)
        (option_map selected_view at))) }
    ensures refused { (shape : Shape) (digest_size : ℕ) → HasThreshold shape pruned
        → IfSome (C.told store.old) (λ s. IfErr result (λ e. IsDue e (opening_refusal
        (layout_of U.form shape digest_size pruned) (found_of U.form s pruned) bound))) }
    ensures floor { IfSome (C.told store.old) (λ s.
        IfOk result (λ at. IfSome at (λ c. floor_told U.form s (c.size - 1) ≡ Some c.floor))) }
    ensures within { IfOk result (λ at. IfSome at (λ c.
        (C.start store.old ≤ c.floor) × (bits_of pruned ≤ c.floor) × (c.floor < c.size)
        × (c.size ≤ C.end store.old))) }
    ensures empty { result ≡ Ok None
        → (C.start store.old ≡ 0) × (C.end store.old ≡ 0) × (bits_of pruned ≡ 0) }
    ensures allowed { IfOk result (λ at. early_refusal pruned bound (C.start store.old)
        (C.end store.old) (option_map selected_view at)
        ≡ None) }
    ensures causes { IfErr result
        (IsUnselected pruned bound (C.start store.old) (C.end store.old)) }
    ensures kept { IsKept C.Store store.old store.new }
    ensures cause { IsCause (C.faults store.old) (C.faults store.new)
        (IsErrOf result (Error.Journal JournalError.Store)) }
{
    if is_zero(bound) {
        return Err(Error::InvalidInitializationBound);
    }
    let found = last_commit::<F, C, U>(alloc, store, bound)?;
    let (start, end) = store.bounds();
    checked(start, end, pruned, found)
}
