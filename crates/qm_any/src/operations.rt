//! Operations of a database, and what batches append to its list.

ghost use Rattle.std.specs.Prelude.{◌≡◌, ◌⊎◌, ◌≤◌, ◌^◌, ◌+◌, ◌++◌, ℕ, None, length, map, take, option_map, All, IfOk, IfErr, OnOk};
ghost use Rattle.qm_model.specs.Forms.{IsOf, spelling};
ghost use Rattle.qm_model.specs.Refusals.{too_long};
ghost use Rattle.qm_any.specs.Databases.{unapplied, operations_in};
ghost use Rattle.qm_any.specs.Tips.{IsLow, IsSpelled, IsTooLong};
ghost use Rattle.qm_operations.specs.Views.{operation_views};
ghost use Rattle.qm_step.specs.Views.{changes_view};

use qm_base::{ByteString, Error, JournalError, TreeRefused};
use qm_batch::Layer;
use qm_chain::Diff;
use qm_operations::{Operation, Update};
use std::alloc::{AllocError, Global};
use std::rc::Rc;

/// A kept step of a list.
pub(crate) type Step<F, U> = Rc<Layer<F, U>>;

/// How many operations a list has at most.
const MAX_OPERATIONS: u64 = 1 << 62;

/// How many bytes the spelling of an operation has at most.
const MAX_SPELLING: usize = 65_536;

/// A copy of a shared value, if there is one.
pub(crate) fn copy_of<B: ByteString>(
    alloc: Global,
    value: &Option<Rc<B>>,
) -> Result<Option<B>, AllocError>
    ensures { IfOk result (λ copy.
        option_map B.bytes copy ≡ option_map (λ b. B.bytes b.value) value.now) }
{
    match value {
        None => Ok(None),
        Some(value) => {
            let copy = value.twin(alloc)?;
            Ok(Some(copy))
        }
    }
}

/// The value, shared with whoever has it.
pub(crate) fn share<B: ByteString>(value: &Option<Rc<B>>) -> Result<Option<Rc<B>>, AllocError>
    ensures { IfOk result (λ shared.
        option_map (λ b. B.bytes b.value) shared ≡ option_map (λ b. B.bytes b.value) value.now) }
{
    match value {
        None => Ok(None),
        Some(value) => {
            let shared = value.clone()?;
            Ok(Some(shared))
        }
    }
}

/// A copy of a value, to be shared.
pub(crate) fn shared_twin<B: ByteString>(
    alloc: Global,
    value: &Option<B>,
) -> Result<Option<Rc<B>>, AllocError>
    ensures { IfOk result (λ shared.
        option_map (λ b. B.bytes b.value) shared ≡ option_map B.bytes value.now) }
{
    match value {
        None => Ok(None),
        Some(value) => {
            let copy = value.twin(alloc)?;
            Ok(Some(Rc::new(alloc, copy)?))
        }
    }
}

// Appends the spelling of each operation to the items.
fn spell<F, U: Update>(
    alloc: Global,
    operations: &[Operation<F, U>],
    items: &mut Vec<Vec<u8>>,
) -> Result<(), AllocError>
    ensures of { OnOk result (All IsLow
        (operation_views U.view U.Key.bytes U.Value.bytes operations.now)
        → All (IsOf U.form) (operation_views U.view U.Key.bytes U.Value.bytes operations.now)) }
    ensures items { OnOk result (map (λ v. v.items) items.new.items
        ≡ map (λ v. v.items) items.old.items
        ++ map (spelling U.form)
        (operation_views U.view U.Key.bytes U.Value.bytes operations.now)) }
{
    for operation in operations {
        let item = operation.encode(alloc)?;
        items.push(item)?;
    }
    Ok(())
}

/// The spellings of operations.
pub(crate) fn spelled<F, U: Update>(
    alloc: Global,
    operations: &[Operation<F, U>],
) -> Result<Vec<Vec<u8>>, AllocError>
    ensures of { IfOk result (λ _.
        All IsLow (operation_views U.view U.Key.bytes U.Value.bytes operations.now)
        → All (IsOf U.form) (operation_views U.view U.Key.bytes U.Value.bytes operations.now)) }
    ensures items { IfOk result (λ items. map (λ v. v.items) items.items
        ≡ map (spelling U.form) (operation_views U.view U.Key.bytes U.Value.bytes operations.now)) }
{
    let mut items = Vec::new(alloc);
    spell(alloc, operations, &mut items)?;
    Ok(items)
}

/// The spellings of operations that come after a list of this size. A spelling of more than 65,536 bytes is refused, and then a list of
/// more than 2^62 operations.
pub(crate) fn spelled_behind<F, U: Update>(
    alloc: Global,
    operations: &[Operation<F, U>],
    size: u64,
) -> Result<Vec<Vec<u8>>, Error>
    requires { size ≤ 2 ^ 62 }
    ensures items { IfOk result (λ items. map (λ v. v.items) items.items
        ≡ map (spelling U.form) (operation_views U.view U.Key.bytes U.Value.bytes operations.now)) }
    ensures taken { IfOk result (λ items.
        IsSpelled U.form (operation_views U.view U.Key.bytes U.Value.bytes operations.now)
        (size + length items.items)) }
    ensures refused { IfErr result (λ e. (e ≡ Error.Memory)
        ⊎ IsTooLong
        (map (spelling U.form) (operation_views U.view U.Key.bytes U.Value.bytes operations.now))
        (size + length operations.now) e) }
{
    let items = spelled(alloc, operations)?;
    refuse(&items, size + items.len() as u64)?;
    Ok(items)
}

// Refuses the first spelling that is too long, then a list of too many operations.
fn refuse(items: &[Vec<u8>], size: u64) -> Result<(), Error>
    ensures ok { OnOk result ((too_long (map (λ v. v.items) items.now) ≡ None) × (size ≤ 2 ^ 62)) }
    ensures err { IfErr result (λ e. IsTooLong (map (λ v. v.items) items.now) size e) }
{
    for item in items {
        if item.len() > MAX_SPELLING {
            return Err(Error::Journal(JournalError::ItemTooLarge(item.len() as u64)));
        }
    }
    if size > MAX_OPERATIONS {
        return Err(Error::Merkle(TreeRefused::LocationOverflow(size)));
    }
    Ok(())
}

/// The newest of the steps, up to the one that starts where a list of this size ends.
pub(crate) fn unapplied_of<F, U: Update>(steps: &[Step<F, U>], size: u64) -> &[Step<F, U>]
    ensures value { map (λ l. l.value) result.now ≡ unapplied size (map (λ l. l.value) steps.now) }
    ensures first { result.now ≡ take (length result.now) steps.now }
    ensures few { length result.now ≤ length steps.now }
{
    for at in 0..steps.len() {
        if steps[at].base() < size {
            let (newest, _) = steps.split_at(at);
            return newest;
        }
    }
    steps
}

/// The spellings of what steps, newest first, append to a list.
pub(crate) fn spelled_steps<F, U: Update>(
    alloc: Global,
    steps: &[Step<F, U>],
) -> Result<Vec<Vec<u8>>, AllocError>
    ensures { IfOk result (λ items. map (λ v. v.items) items.items
        ≡ map (spelling U.form) (operations_in (map (λ l. l.value) steps.now))) }
{
    let mut items = Vec::new(alloc);
    for at in (0..steps.len()).rev() {
        spell(alloc, steps[at].operations(), &mut items)?;
    }
    Ok(items)
}

/// The diffs of steps.
pub(crate) fn diffs_of<F, U: Update>(
    alloc: Global,
    steps: &[Step<F, U>],
) -> Result<Vec<Rc<Diff<F, U::Key, U::Value>>>, AllocError>
    ensures { IfOk result (λ diffs.
        map (λ d. changes_view U.Key.bytes U.Value.bytes d.value) diffs.items
        ≡ map (λ l. l.changes) (map (λ l. l.value) steps.now)) }
{
    let mut diffs = Vec::new(alloc);
    for step in steps {
        let diff = step.diff().clone()?;
        diffs.push(diff)?;
    }
    Ok(diffs)
}
