//! The operations of a step of either kind of database, found over its base list.

ghost use Rattle.std.specs.Prelude.{◌≡◌, List, map, IfSome, IfOk};
ghost use Rattle.qm_model.specs.Operations as model;
ghost use Rattle.qm_model.specs.Writes as writes;
ghost use Rattle.qm_step.specs.Kinds.{kind_of, AreWritten, HasRing};
ghost use Rattle.qm_step.specs.Layers.{LeadOver};
ghost use Rattle.qm_step.specs.Lent.{IsLent, ReadsLent};
ghost use Rattle.qm_step.specs.PlanViews.{keyed, last_view, touch_views};
ghost use Rattle.qm_step.specs.Views.{AreReads};

use super::ordered::neighbours_of;
use super::sites::{find_sites, known_of};
use qm_base::{Error, Items, Location};
use qm_step::kind::Steps;
use qm_step::touch::Touch;
use qm_step::writes::Last;
use qm_step::{Layer, Read};
use std::alloc::Global;
use std::rc::Rc;

/// The operations of the last writes, found over a base list; the keys that were read are not looked up.
pub(crate) fn written_over<
    F,
    I: qm_index::Unordered<Value = Location<F>>,
    L: Items,
    U: Steps<F, I>,
>(
    alloc: Global,
    index: &I,
    log: &mut L,
    layers: &[Rc<Layer<F, U>>],
    reads: &[Read<F, U>],
    last: &Last<'_, U::Key, U::Value>,
) -> Result<Vec<Touch<F, U>>, Error>
    ensures value { (lent base : List model.Operation) (ws : List writes.Write)
        → IsLent L.reads U.form I.index_key (I.entries index.now) log.old lent
        → LeadOver (map (λ l. l.value) layers.now) lent base → HasRing U.form lent
        → HasRing U.form base → AreReads U.view U.Key.bytes reads.now base
        → map (last_view U.Key.bytes U.Value.bytes) last.now.entries
        ≡ map keyed (writes.last_writes ws)
        → IfSome (L.reads.told log.old) (λ _. IfOk result (λ touches. AreWritten (kind_of U.form)
        base ws (touch_views U.view U.Key.bytes U.Value.bytes touches.items))) }
    ensures reads { ReadsLent L.reads U.form I.index_key (I.entries index.now) log.old log.new
        result }
{
    let sites = {
        let known = known_of(alloc, reads)?;
        find_sites(alloc, index, log, layers, &known, last)?
    };
    let neighbours = neighbours_of(alloc, index, log, layers, &sites)?;
    let touches = U::written(alloc, &sites, &neighbours)?;
    Ok(touches)
}
