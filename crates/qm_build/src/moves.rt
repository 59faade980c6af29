//! What an operation does to an index and to a snapshot.

ghost use Rattle.std.specs.Prelude.{◌≡◌, ◌+◌, ◌-◌, ◌<◌, ◌≤◌, ◌^◌, ℕ, ◌++◌, ◌∷◌, [], length, Some, slice_get, option_map, IfSome, IfErr, OnOk};
ghost use Rattle.qm_index.specs.Buckets.{bucket_at};
ghost use Rattle.qm_index.specs.Places.{Places, AreApart, HasPlaces, place_of, moved};
ghost use Rattle.qm_build.specs.Building.{AreWithin, cleared, counted_after};

use crate::build::Snapshot;
use crate::read::Found;
use qm_base::{Error, Location};
use std::alloc::AllocError;

/// Moves a key from its place in its bucket, if it has one, to a location, or nowhere. Want of memory is the only error.
pub fn move_key<F, I: qm_index::Unordered<Value = Location<F>>>(
    index: &mut I,
    key: &[u8],
    found: Option<Found>,
    now: Option<Location<F>>,
) -> Result<(), AllocError>
    requires { IfSome found (λ f.
        slice_get (bucket_at (I.entries index.old) (I.index_key key.now)) f.place
        ≡ Some f.location) }
    ensures moved { (ps : Places) → AreApart ps → HasPlaces I.index_key (I.entries index.old) ps
        → place_of ps key.now ≡ option_map (λ f. f.location) found
        → OnOk result (HasPlaces I.index_key (I.entries index.new) (moved ps key.now now)) }
    ensures within { (from to : ℕ) → AreWithin from to (I.entries index.old)
        → IfSome now (λ at. (from ≤ at) × (at < to))
        → OnOk result (AreWithin from to (I.entries index.new)) }
{
    match (found, now) {
        (Some(found), Some(now)) => {
            index.update_at(key, found.place, now);
            Ok(())
        }
        (Some(found), None) => {
            index.remove_at(key, found.place);
            Ok(())
        }
        (None, Some(now)) => index.insert(key, now),
        (None, None) => Ok(()),
    }
}

/// Notes an operation, an update or not, that takes the place of the update that was found. Want of memory is the only error.
pub(crate) fn note(
    snapshot: &mut Snapshot,
    floor: u64,
    found: Option<Found>,
    is_update: bool,
) -> Result<(), Error>
    requires within { IfSome found (λ f.
        (floor ≤ f.location) × (f.location < floor + length snapshot.old.activity)) }
    requires few { length snapshot.old.activity < 2 ^ 62 }
    requires counted { snapshot.old.live ≤ length snapshot.old.activity }
    ensures active { OnOk result (snapshot.new.activity
        ≡ cleared snapshot.old.activity (option_map (λ f. f.location - floor) found) ++ is_update
        ∷ []) }
    ensures long { OnOk result (length snapshot.new.activity ≡ length snapshot.old.activity + 1) }
    ensures live { OnOk result (snapshot.new.live
        ≡ counted_after snapshot.old.live (option_map (λ f. f.location) found) is_update) }
    ensures counted { OnOk result (snapshot.new.live ≤ length snapshot.new.activity) }
    ensures memory { IfErr result (λ e. e ≡ Error.Memory) }
{
    match (found, is_update) {
        (None, true) => snapshot.live += 1,
        (Some(_), false) => snapshot.live = snapshot.live.saturating_sub(1),
        _ => {}
    }
    if let Some(found) = found {
        snapshot.activity.set_bit(found.location - floor, false);
    }
    Ok(snapshot.activity.push(is_update)?)
}
