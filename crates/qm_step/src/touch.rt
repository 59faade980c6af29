//! The own operations of a step.

ghost use Rattle.std.specs.Prelude.{IfOk};
ghost use Rattle.qm_step.specs.PlanViews.{touch_views};
ghost use Rattle.qm_step.specs.Touches.{AreReplaced};

use qm_operations::{Operation, Update};
use std::alloc::{AllocError, Global};
use std::collections::BTreeSet;

/// An operation of a step, and where its key's live update stood in the base list.
#[derive(Drop)]
pub struct Touch<F, U: Update> {
    /// The operation.
    pub operation: Operation<F, U>,
    /// Where the live update stood.
    pub before: Option<u64>,
}

/// The locations of the base list whose live updates the operations replace.
pub fn replaced_by<F, U: Update>(
    alloc: Global,
    touches: &[Touch<F, U>],
) -> Result<BTreeSet<u64>, AllocError>
    ensures { IfOk result (λ replaced.
        AreReplaced replaced (touch_views U.view U.Key.bytes U.Value.bytes touches.now)) }
{
    let mut replaced = BTreeSet::new(alloc);
    for touch in touches {
        if let Some(at) = touch.before {
            replaced.insert(at)?;
        }
    }
    Ok(replaced)
}
