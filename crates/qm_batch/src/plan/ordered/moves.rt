//! The live updates before the keys that go from an ordered list.

ghost use Rattle.std.specs.Prelude.{◌≡◌, ◌≤◌, ◌^◌, ◌++◌, List, map, filter_map, true, All, IfSome, IfOk};
ghost use Rattle.qm_model.specs.Operations as model;
ghost use Rattle.qm_model.specs.Ordered.{IsRing};
ghost use Rattle.qm_step.specs.Bases.{base_view, IsBase};
ghost use Rattle.qm_step.specs.Layers.{LeadOver};
ghost use Rattle.qm_step.specs.Lent.{IsLent, ReadsLent};
ghost use Rattle.qm_step.specs.Moves.{before_evicted};
ghost use Rattle.qm_step.specs.PlanViews.{decided_views, touch_views};
ghost use Rattle.qm_step.specs.Touches.{IsFrom, operations_of};
ghost use Rattle.qm_step.specs.Views.{read_view};

use crate::neighbours::previous;
use qm_base::{Error, Items, Location};
use qm_step::decided::{Decided, evicted};
use qm_step::kind::Steps;
use qm_step::moves::layers_over;
use qm_step::touch::Touch;
use qm_step::writes::push_some;
use qm_step::{Base, Layer};
use std::alloc::Global;
use std::rc::Rc;

// The live updates before the keys that go.
fn find_before<F, I: qm_index::Unordered<Value = Location<F>>, L: Items, U: Steps<F, I>>(
    alloc: Global,
    index: &I,
    log: &mut L,
    layers: &[Rc<Layer<F, U>>],
    decided: &[Decided<U::Key, U::Value>],
) -> Result<Vec<(Location<F>, U)>, Error>
    requires { U.form.ordered ≡ true }
    ensures value { (lent list : List model.Operation)
        → IsLent L.reads U.form I.index_key (I.entries index.now) log.old lent
        → LeadOver (map (λ l. l.value) layers.now) lent list → IsRing lent → IsRing list
        → IfSome (L.reads.told log.old) (λ _.
        IfOk result (λ found. map (read_view U.view) found.items
        ≡ filter_map (before_evicted list) (decided_views U.Key.bytes U.Value.bytes decided.now))) }
    ensures reads { ReadsLent L.reads U.form I.index_key (I.entries index.now) log.old log.new
        result }
{
    let mut all = Vec::new(alloc);
    for one in decided {
        if one.value.is_none() {
            let found = previous(alloc, index, log, layers, &one.key)?;
            push_some(&mut all, found)?;
        }
    }
    Ok(all)
}

/// The live updates of an ordered list with the operations of writes before the keys of it that go. If none goes, or in
/// an unordered database, nothing is looked for.
pub(crate) fn befores_of<F, I: qm_index::Unordered<Value = Location<F>>, L: Items, U: Steps<F, I>>(
    alloc: Global,
    index: &I,
    log: &mut L,
    base: &Base<'_, F, U>,
    made: &[Touch<F, U>],
    decided: &[Decided<U::Key, U::Value>],
) -> Result<Vec<(Location<F>, U)>, Error>
    requires { base.now.size ≤ 2 ^ 62 }
    ensures value { (lent list : List model.Operation) → U.form.ordered ≡ true
        → IsLent L.reads U.form I.index_key (I.entries index.now) log.old lent
        → IsBase (base_view base.now) lent list → IsRing lent
        → IsRing (list ++ operations_of (touch_views U.view U.Key.bytes U.Value.bytes made.now))
        → All (IsFrom list) (touch_views U.view U.Key.bytes U.Value.bytes made.now)
        → IfSome (L.reads.told log.old) (λ _.
        IfOk result (λ found. map (read_view U.view) found.items
        ≡ filter_map (before_evicted
        (list ++ operations_of (touch_views U.view U.Key.bytes U.Value.bytes made.now)))
        (decided_views U.Key.bytes U.Value.bytes decided.now))) }
    ensures reads { ReadsLent L.reads U.form I.index_key (I.entries index.now) log.old log.new
        result }
{
    if !U::is_ordered() || evicted(decided) == 0 {
        return Ok(Vec::new(alloc));
    }
    let layers = layers_over(alloc, base, made)?;
    find_before(alloc, index, log, &layers, decided)
}
