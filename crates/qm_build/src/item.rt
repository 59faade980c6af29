//! What an item tells of a commit.

ghost use Rattle.std.specs.Prelude.{◌≡◌, option_and_then, IfOk};
ghost use Rattle.qm_model.specs.Forms.{decoded};
ghost use Rattle.qm_model.specs.Refusals.{commit_floor};

use qm_operations::{Operation, Update};
use std::alloc::{AllocError, Global};

/// The floor of the commit that the bytes spell, if they spell one.
pub fn commit_floor_in<F, U: Update>(alloc: Global, item: &[u8]) -> Result<Option<u64>, AllocError>
    ensures { IfOk result (λ f. f ≡ option_and_then commit_floor (decoded U.form item.now)) }
{
    let operation: Option<Operation<F, U>> = Operation::decode(alloc, item)?;
    match &operation {
        Some(operation) => match operation.has_floor() {
            Some(floor) => Ok(Some(floor.get())),
            None => Ok(None),
        },
        None => Ok(None),
    }
}
