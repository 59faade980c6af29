//! Kept steps.

ghost use Rattle.std.specs.Prelude.{◌≡◌};
ghost use Rattle.qm_operations.specs.Views.{operation_views};
ghost use Rattle.qm_step.specs.Views.{changes_view};

use qm_chain::Diff;
use qm_operations::{Operation, Update};
use std::marker::Model;
use std::rc::Rc;

/// A kept step of a list: what it appended to its base list, and what that does to keys.
#[derive(Drop)]
pub struct Layer<F, U: Update> {
    base: u64,
    operations: Vec<Operation<F, U>>,
    diff: Rc<Diff<F, U::Key, U::Value>>,
}

impl<F, U: Update> Model for Layer<F, U> {
    ghost use Rattle.qm_operations.specs.Views.{operation_views};
    ghost use Rattle.qm_step.specs.Layers.{Layer};
    ghost use Rattle.qm_step.specs.Views.{changes_view};

    ghost Value = { Layer };

    ghost view = { λ l. record { base = l.base; operations = operation_views U.view U.Key.bytes U.Value.bytes l.operations.items; changes = changes_view U.Key.bytes U.Value.bytes l.diff.value } };
}

impl<F, U: Update> Layer<F, U> {
    /// The step that appended these operations to a base list of this size.
    pub fn new(
        base: u64,
        operations: Vec<Operation<F, U>>,
        diff: Rc<Diff<F, U::Key, U::Value>>,
    ) -> Self
        ensures { result
            ≡ record {
              base = base;
              operations = operation_views U.view U.Key.bytes U.Value.bytes
                  operations.items;
              changes = changes_view U.Key.bytes U.Value.bytes diff.value;
            } }
    {
        Layer {
            base,
            operations,
            diff,
        }
    }

    /// The size of the base list.
    pub fn base(&self) -> u64
        ensures { result ≡ self.now.base }
    {
        self.base
    }

    /// The operations after the base list.
    pub fn operations(&self) -> &[Operation<F, U>]
        ensures { operation_views U.view U.Key.bytes U.Value.bytes result.now
            ≡ self.now.operations }
    {
        &self.operations
    }

    /// What the step does to keys.
    pub fn diff(&self) -> &Rc<Diff<F, U::Key, U::Value>>
        ensures { changes_view U.Key.bytes U.Value.bytes result.now.value ≡ self.now.changes }
    {
        &self.diff
    }
}
