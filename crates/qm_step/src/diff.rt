//! What the own operations of a step do to keys.

ghost use Rattle.std.specs.Prelude.{◌≡◌, ◌≤◌, ◌^◌, ◌++◌, ◌∷◌, [], List, length, map, true, All, IfOk, OnOk};
ghost use Rattle.qm_model.specs.Operations as model;
ghost use Rattle.qm_step.specs.Changes.{AreChanges};
ghost use Rattle.qm_step.specs.PlanViews.{touch_view, touch_views, noted_view, IsNoted};
ghost use Rattle.qm_step.specs.Touches.{IsFrom, operations_of};
ghost use Rattle.qm_step.specs.Views.{change_view, changes_view};

use crate::put::put;
use crate::touch::Touch;
use qm_base::{ByteString, Location};
use qm_chain::{Diff, DiffEntry};
use qm_operations::{Operation, Update};
use std::alloc::{AllocError, Global};
use std::collections::BTreeMap;

/// What a step does to a key: where its last update stands and the value of that, none if the key is deleted, and
/// where its live update stood before.
#[derive(Drop)]
struct Noted<'a, V> {
    now: Option<(u64, &'a V)>,
    before: Option<u64>,
}

// Notes what the operation at a location does to its key.
fn note<'a, F, U: Update>(
    notes: &mut BTreeMap<&'a [u8], Noted<'a, U::Value>>,
    at: u64,
    touch: &'a Touch<F, U>,
) -> Result<(), AllocError>
    ensures noted { OnOk result ((base own : List model.Operation) → at ≡ length (base ++ own)
        → IsFrom base (touch_view U.view U.Key.bytes U.Value.bytes touch.now)
        → IsNoted U.Value.bytes notes.old base (base ++ own)
        → IsNoted U.Value.bytes notes.new base
        ((base ++ own) ++ (touch_view U.view U.Key.bytes U.Value.bytes touch.now).operation ∷ [])) }
    ensures known { OnOk result (All (λ e. U.Key.has e.0.now ≡ true) notes.old.entries
        → All (λ e. U.Key.has e.0.now ≡ true) notes.new.entries) }
{
    match &touch.operation {
        Operation::Update(update) => {
            let noted = Noted {
                now: Some((at, update.value())),
                before: touch.before,
            };
            put(notes, update.key().as_bytes(), noted)
        }
        Operation::Delete(key) => {
            let noted = Noted {
                now: None,
                before: touch.before,
            };
            put(notes, key.as_bytes(), noted)
        }
        Operation::CommitFloor(_, _) => Ok(()),
    }
}

// What the operations after a base list of this size do to keys.
fn notes_of<'a, F, U: Update>(
    alloc: Global,
    size: u64,
    touches: &'a [Touch<F, U>],
) -> Result<BTreeMap<&'a [u8], Noted<'a, U::Value>>, AllocError>
    requires { size ≤ 2 ^ 62 }
    ensures noted { IfOk result (λ notes. (base : List model.Operation) → size ≡ length base
        → All (IsFrom base) (touch_views U.view U.Key.bytes U.Value.bytes touches.now)
        → IsNoted U.Value.bytes notes base
        (base ++ operations_of (touch_views U.view U.Key.bytes U.Value.bytes touches.now))) }
    ensures known { IfOk result (λ notes. All (λ e. U.Key.has e.0.now ≡ true) notes.entries) }
{
    let mut notes = BTreeMap::new(alloc);
    for (i, touch) in touches.iter().enumerate() {
        note(&mut notes, size + i as u64, touch)?;
    }
    Ok(notes)
}

// The location of this number, if there is one.
fn location_of<F>(at: Option<u64>) -> Option<Location<F>>
    ensures { result ≡ at }
{
    match at {
        Some(at) => Some(Location::new(at)),
        None => None,
    }
}

// The entry of a diff for what is noted of a key.
fn entry_of<F, V: ByteString>(
    alloc: Global,
    noted: &Noted<'_, V>,
) -> Result<DiffEntry<F, V>, AllocError>
    ensures { IfOk result (λ entry.
        change_view V.bytes entry ≡ noted_view V.bytes noted.entry.now) }
{
    match noted.now {
        Some((at, value)) => {
            let value = value.twin(alloc)?;
            Ok(DiffEntry::Active {
                value,
                loc: Location::new(at),
                base_old_loc: location_of(noted.before),
            })
        }
        None => Ok(DiffEntry::Deleted {
            base_old_loc: location_of(noted.before),
        }),
    }
}

// The diff of what is noted.
fn diff_of<F, K: ByteString, V: ByteString>(
    alloc: Global,
    notes: &BTreeMap<&[u8], Noted<'_, V>>,
) -> Result<Diff<F, K, V>, AllocError>
    requires { All (λ e. K.has e.0.now ≡ true) notes.now.entries }
    ensures { IfOk result (λ diff. changes_view K.bytes V.bytes diff
        ≡ map (λ e. (e.0.now, noted_view V.bytes e.1)) notes.now.entries) }
{
    let mut entries = Vec::with_capacity(alloc, notes.len())?;
    for (key, noted) in notes {
        let key = K::from_bytes(alloc, *key)?;
        let entry = entry_of(alloc, noted)?;
        entries.push_reserved((key, entry));
    }
    Ok(Diff::new(entries))
}

/// What the operations after a base list of this size do to keys.
pub fn diff_of_touches<F, U: Update>(
    alloc: Global,
    size: u64,
    touches: &[Touch<F, U>],
) -> Result<Diff<F, U::Key, U::Value>, AllocError>
    requires { size ≤ 2 ^ 62 }
    ensures { IfOk result (λ diff. (base : List model.Operation) → size ≡ length base
        → All (IsFrom base) (touch_views U.view U.Key.bytes U.Value.bytes touches.now)
        → AreChanges (changes_view U.Key.bytes U.Value.bytes diff) base
        (base ++ operations_of (touch_views U.view U.Key.bytes U.Value.bytes touches.now))) }
{
    let notes = notes_of(alloc, size, touches)?;
    diff_of(alloc, &notes)
}
