//! Keys that are created or deleted, and what stands before them.

ghost use Rattle.std.specs.Prelude.{◌≡◌, List};
ghost use Rattle.qm_model.specs.Live.{live};
ghost use Rattle.qm_model.specs.Operations as operations;
ghost use Rattle.qm_model.specs.Writes as model;
ghost use Rattle.qm_step.specs.PlanViews.{linked_view};
ghost use Rattle.qm_step.specs.Rings.{is_changed, linked_in};

use crate::site::Site;
use qm_base::Location;
use qm_operations::Update;

/// A key that is created or deleted, and the live update before it in the base list.
#[derive(Drop)]
pub struct Neighbour<'a, F, U: Update> {
    /// The key.
    pub key: &'a U::Key,
    /// The live update before it.
    pub before: Option<(Location<F>, U)>,
}

/// Whether the write creates its key, or deletes it.
pub fn is_changed<K, V>(site: &Site<'_, K, V>) -> bool
    ensures { (key : K → operations.Bytes) (value : V → operations.Bytes)
        (base : List operations.Operation) (w : model.Write)
        → linked_view key value site.now ≡ linked_in base w
        → result ≡ is_changed (live base) w }
{
    site.write.value.is_some() != site.stands.is_some()
}
