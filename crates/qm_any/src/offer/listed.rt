// Operations as replies list them, and copies of what a command has.
ghost use Rattle.std.specs.Prelude.{◌≡◌, true, IfOk, map, option_map};
ghost use Rattle.qm_step.specs.Changes.{located};
ghost use Rattle.qm_step.specs.Views.{read_view};
ghost use Rattle.qm_base.specs.Listed.{listed_view, span_view};
ghost use Rattle.qm_operations.specs.Views.{operation_view, operation_views};

use qm_base::{ByteString, Listed, Location, Span, twin_option};
use qm_operations::{Operation, Update};
use std::alloc::{AllocError, Global};

/// Copies of keys.
pub fn twin_keys<K: ByteString>(alloc: Global, keys: &[K]) -> Result<Vec<K>, AllocError>
    ensures { IfOk result (λ copies. copies.items ≡ keys.now) }
{
    let mut copies = Vec::new(alloc);
    for key in keys {
        let copy = key.twin(alloc)?;
        copies.push(copy)?;
    }
    Ok(copies)
}

/// Copies of keys with values.
pub fn twin_pairs<K: ByteString, V: ByteString>(
    alloc: Global,
    pairs: &[(K, V)],
) -> Result<Vec<(K, V)>, AllocError>
    ensures { IfOk result (λ copies. copies.items ≡ pairs.now) }
{
    let mut copies = Vec::new(alloc);
    for (key, value) in pairs {
        let key = key.twin(alloc)?;
        let value = value.twin(alloc)?;
        copies.push((key, value))?;
    }
    Ok(copies)
}

// An update as a reply lists it.
fn listed_update<U: Update>(
    alloc: Global,
    update: &U,
) -> Result<Listed<U::Key, U::Value>, AllocError>
    ensures { IfOk result (λ listed.
        listed_view U.Key.bytes U.Value.bytes listed ≡ U.view update.now) }
{
    let (key, value, next) = update.parts();
    let key = key.twin(alloc)?;
    let value = value.twin(alloc)?;
    match next {
        None => Ok(Listed::Update(key, value, None)),
        Some(next) => {
            let next = next.twin(alloc)?;
            Ok(Listed::Update(key, value, Some(next)))
        }
    }
}

// The operation as a reply lists it.
fn listed_entry<F, U: Update>(
    alloc: Global,
    operation: &Operation<F, U>,
) -> Result<Listed<U::Key, U::Value>, AllocError>
    ensures { IfOk result (λ listed. listed_view U.Key.bytes U.Value.bytes listed
        ≡ operation_view U.view U.Key.bytes U.Value.bytes operation.now) }
{
    match operation {
        Operation::Update(update) => listed_update(alloc, update),
        Operation::Delete(key) => {
            let key = key.twin(alloc)?;
            Ok(Listed::Delete(key))
        }
        Operation::CommitFloor(metadata, floor) => {
            let metadata = twin_option(alloc, metadata)?;
            Ok(Listed::Commit(metadata, floor.get()))
        }
    }
}

/// The operations as a reply lists them.
pub fn listed<F, U: Update>(
    alloc: Global,
    operations: &[Operation<F, U>],
) -> Result<Vec<Listed<U::Key, U::Value>>, AllocError>
    ensures { IfOk result (λ list. map (listed_view U.Key.bytes U.Value.bytes) list.items
        ≡ operation_views U.view U.Key.bytes U.Value.bytes operations.now) }
{
    let mut list = Vec::new(alloc);
    for operation in operations {
        let listed = listed_entry(alloc, operation)?;
        list.push(listed)?;
    }
    Ok(list)
}

/// A live update that was found, as a reply lists it, if it names a next key.
pub fn span_from<F, U: Update>(found: Option<(Location<F>, U)>) -> Option<Span<U::Key, U::Value>>
    ensures { U.form.ordered ≡ true
        → option_map located (option_map (span_view U.Key.bytes U.Value.bytes) result)
        ≡ option_map (read_view U.view) found }
{
    let (location, update) = found?;
    let (key, value, next) = update.into_parts();
    Some(Span {
        location: location.get(),
        key,
        value,
        next: next?,
    })
}
