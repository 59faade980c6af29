//! What live updates say of keys: where these stand, and which come before and after them.

ghost use Rattle.std.specs.Prelude.{◌≡◌, Some, option_and_then, option_map, IfOk};
ghost use Rattle.qm_model.specs.Forms.{IsSpelling};
ghost use Rattle.qm_model.specs.Keys.{key_lt};
ghost use Rattle.qm_model.specs.Operations as model;
ghost use Rattle.qm_step.specs.Changes.{link_of, next_in, said_by};
ghost use Rattle.qm_step.specs.Nearest.{kept, said_key};
ghost use Rattle.qm_step.specs.Views.{read_view, stands_view};

use crate::order::is_below;
use qm_base::{ByteString, Location};
use qm_operations::{Operation, Update};
use std::alloc::{AllocError, Global};

/// Where a key's live update stands and, in an ordered database, the key that it names.
#[derive(Drop)]
pub struct Stands<K> {
    /// Where it stands.
    pub at: u64,
    /// The key that it names.
    pub next: Option<K>,
}

/// A copy of the key that an update names, in an ordered database.
pub fn twin_next<U: Update>(alloc: Global, update: &U) -> Result<Option<U::Key>, AllocError>
    ensures { IfOk result (λ next. option_map U.Key.bytes next ≡ next_in (U.view update.now)) }
{
    match update.parts().2 {
        Some(next) => {
            let next = next.twin(alloc)?;
            Ok(Some(next))
        }
        None => Ok(None),
    }
}

/// That an update stands at this location, and the key that it names.
pub fn stands_at<U: Update>(
    alloc: Global,
    at: u64,
    update: &U,
) -> Result<Option<Stands<U::Key>>, AllocError>
    ensures { IfOk result (λ stands.
        option_map (stands_view U.Key.bytes) stands ≡ Some (link_of (at, U.view update.now))) }
{
    let next = twin_next(alloc, update)?;
    Ok(Some(Stands { at, next }))
}

/// What a live update with its location says of where its key stands.
pub fn stands_of<F, U: Update>(
    alloc: Global,
    found: &Option<(Location<F>, U)>,
) -> Result<Option<Stands<U::Key>>, AllocError>
    ensures { IfOk result (λ stands. option_map (stands_view U.Key.bytes) stands
        ≡ option_map link_of (option_map (read_view U.view) found.now)) }
{
    match found {
        Some((at, update)) => stands_at(alloc, at.get(), update),
        None => Ok(None),
    }
}

/// A copy of the next key of an update, if it is above the key.
pub fn next_above<F, U: Update>(
    alloc: Global,
    found: Option<(Location<F>, U)>,
    key: &[u8],
) -> Result<Option<U::Key>, AllocError>
    ensures { IfOk result (λ next. option_map U.Key.bytes next
        ≡ kept (λ k. key_lt key.now k)
        (option_and_then (λ p. next_in p.1) (option_map (read_view U.view) found))) }
{
    let Some((_, update)) = found else {
        return Ok(None);
    };
    let Some(next) = twin_next(alloc, &update)? else {
        return Ok(None);
    };
    if is_below(key, next.as_bytes()) {
        Ok(Some(next))
    } else {
        Ok(None)
    }
}

/// The key of an update, if it is below the key.
pub fn key_under<F, U: Update>(found: Option<(Location<F>, U)>, key: &[u8]) -> Option<U::Key>
    ensures { option_map U.Key.bytes result
        ≡ kept (λ k. key_lt k key.now)
        (option_map (λ p. said_key p.1) (option_map (read_view U.view) found)) }
{
    let (_, update) = found?;
    if is_below(update.key().as_bytes(), key) {
        Some(update.into_key())
    } else {
        None
    }
}

/// The update that the bytes spell, if they spell one.
pub fn update_in<U: Update>(alloc: Global, item: &[u8]) -> Result<Option<U>, AllocError>
    ensures { (op : model.Operation) → IsSpelling U.form item.now op
        → IfOk result (λ update. option_map (U.view) update ≡ said_by op) }
{
    let operation: Option<Operation<(), U>> = Operation::decode(alloc, item)?;
    match operation {
        Some(Operation::Update(update)) => Ok(Some(update)),
        _ => Ok(None),
    }
}
