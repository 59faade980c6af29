//! Base lists.

ghost use Rattle.std.specs.Prelude.{◌≡◌};
ghost use Rattle.qm_step.specs.Bases.{base_view};

use crate::layer::Layer;
use qm_base::Location;
use qm_operations::Update;
use std::rc::Rc;

/// What is known of the list that a batch stands on.
#[derive(Drop)]
pub struct Base<'a, F, U: Update> {
    /// The kept steps that lead to it, newest first.
    pub layers: &'a [Rc<Layer<F, U>>],
    /// How many operations it has.
    pub size: u64,
    /// Its floor.
    pub floor: Location<F>,
    /// How many keys are live in it.
    pub live: u64,
}

impl<'a, F, U: Update> Base<'a, F, U> {
    /// The same, of which the layers are lent.
    pub fn lent(&self) -> Base<'a, F, U>
        ensures { base_view result ≡ base_view self.now }
    {
        Base {
            layers: self.layers,
            size: self.size,
            floor: Location::new(self.floor.get()),
            live: self.live,
        }
    }
}
