//! What stands in an ordered base list before the keys that are created or deleted.

ghost use Rattle.std.specs.Prelude.{◌≡◌, true, List, map, filter_map, IfSome, IfOk};
ghost use Rattle.qm_model.specs.Operations as operations;
ghost use Rattle.qm_model.specs.Ordered.{IsRing};
ghost use Rattle.qm_model.specs.Writes as model;
ghost use Rattle.qm_step.specs.Layers.{LeadOver};
ghost use Rattle.qm_step.specs.Lent.{IsLent, ReadsLent};
ghost use Rattle.qm_step.specs.OrderedViews.{neighbour_view};
ghost use Rattle.qm_step.specs.PlanViews.{linked_view};
ghost use Rattle.qm_step.specs.Rings.{linked_in, neighbour_in};

use crate::neighbours::previous;
use qm_base::{Error, Items, Location};
use qm_step::Layer;
use qm_step::kind::Steps;
use qm_step::neighbour::{Neighbour, is_changed};
use qm_step::site::Site;
use std::alloc::Global;
use std::rc::Rc;

/// What stands in an ordered base list before each key that a write creates or deletes, in the order of the writes. In an
/// unordered database nothing is looked for.
pub(crate) fn neighbours_of<
    'a,
    F,
    I: qm_index::Unordered<Value = Location<F>>,
    L: Items,
    U: Steps<F, I>,
>(
    alloc: Global,
    index: &I,
    log: &mut L,
    layers: &[Rc<Layer<F, U>>],
    sites: &[Site<'a, U::Key, U::Value>],
) -> Result<Vec<Neighbour<'a, F, U>>, Error>
    ensures value { (lent base : List operations.Operation) (ws : List model.Write)
        → U.form.ordered ≡ true
        → IsLent L.reads U.form I.index_key (I.entries index.now) log.old lent
        → LeadOver (map (λ l. l.value) layers.now) lent base → IsRing lent → IsRing base
        → map (linked_view U.Key.bytes U.Value.bytes) sites.now ≡ map (linked_in base) ws
        → IfSome (L.reads.told log.old) (λ _.
        IfOk result (λ neighbours. map (neighbour_view U.view U.Key.bytes) neighbours.items
        ≡ filter_map (neighbour_in base) ws)) }
    ensures reads { ReadsLent L.reads U.form I.index_key (I.entries index.now) log.old log.new
        result }
{
    let mut neighbours = Vec::new(alloc);
    if !U::is_ordered() {
        return Ok(neighbours);
    }
    for site in sites {
        if is_changed(site) {
            let key = site.write.key;
            let before = previous(alloc, index, log, layers, key)?;
            neighbours.push(Neighbour { key, before })?;
        }
    }
    Ok(neighbours)
}
