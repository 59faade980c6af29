//! Where written keys stand in a base list.

ghost use Rattle.std.specs.Prelude.{◌≡◌, List, map, option_map, IfSome, IfOk};
ghost use Rattle.qm_model.specs.Operations as operations;
ghost use Rattle.qm_step.specs.Changes.{link_in};
ghost use Rattle.qm_step.specs.Layers.{LeadOver};
ghost use Rattle.qm_step.specs.Lent.{IsLent, ReadsLent};
ghost use Rattle.qm_step.specs.PlanViews.{last_write_view, linked_view, AreKnown};
ghost use Rattle.qm_step.specs.Rings.{linked_in};
ghost use Rattle.qm_step.specs.Views.{stands_view, AreReads};

use crate::read::locate;
use qm_base::{ByteString, Error, Items, Location};
use qm_operations::Update;
use qm_step::found::{Stands, stands_of};
use qm_step::site::Site;
use qm_step::writes::Last;
use qm_step::{Layer, Read};
use std::alloc::{AllocError, Global};
use std::collections::BTreeMap;
use std::rc::Rc;

/// What was read of keys, by key.
pub type Known<'a, F, U> = BTreeMap<&'a [u8], &'a Read<F, U>>;

/// What was read, by key; of a key that was read twice, the later read. If nothing was read it takes no memory.
pub(crate) fn known_of<'a, F, U: Update>(
    alloc: Global,
    reads: &'a [Read<F, U>],
) -> Result<Known<'a, F, U>, AllocError>
    ensures { IfOk result (λ known.
        (base : List operations.Operation) → AreReads U.view U.Key.bytes reads.now base
        → AreKnown U.view base known.entries) }
{
    let mut known = BTreeMap::new(alloc);
    for read in reads {
        known.insert(read.key.as_bytes(), read)?;
    }
    Ok(known)
}

// Where a key stands in the base list. A key that was read is not looked up.
fn place_of<F, I: qm_index::Unordered<Value = Location<F>>, L: Items, U: Update>(
    alloc: Global,
    index: &I,
    log: &mut L,
    layers: &[Rc<Layer<F, U>>],
    known: &Known<'_, F, U>,
    key: &U::Key,
) -> Result<Option<Stands<U::Key>>, Error>
    ensures value { (lent base : List operations.Operation)
        → IsLent L.reads U.form I.index_key (I.entries index.now) log.old lent
        → LeadOver (map (λ l. l.value) layers.now) lent base
        → AreKnown U.view base known.now.entries
        → IfSome (L.reads.told log.old) (λ _. IfOk result (λ stands.
        option_map (stands_view U.Key.bytes) stands ≡ link_in base (U.Key.bytes key.now))) }
    ensures reads { ReadsLent L.reads U.form I.index_key (I.entries index.now) log.old log.new
        result }
{
    match known.get(key.as_bytes()) {
        Some(read) => Ok(stands_of(alloc, &read.found)?),
        None => locate(alloc, index, log, layers, key),
    }
}

/// The last writes, each with where its key stands in the base list. Keys that were read are not looked up.
pub(crate) fn find_sites<'a, F, I: qm_index::Unordered<Value = Location<F>>, L: Items, U: Update>(
    alloc: Global,
    index: &I,
    log: &mut L,
    layers: &[Rc<Layer<F, U>>],
    known: &Known<'_, F, U>,
    last: &Last<'a, U::Key, U::Value>,
) -> Result<Vec<Site<'a, U::Key, U::Value>>, Error>
    ensures value { (lent base : List operations.Operation)
        → IsLent L.reads U.form I.index_key (I.entries index.now) log.old lent
        → LeadOver (map (λ l. l.value) layers.now) lent base
        → AreKnown U.view base known.now.entries
        → IfSome (L.reads.told log.old) (λ _.
        IfOk result (λ sites. map (linked_view U.Key.bytes U.Value.bytes) sites.items
        ≡ map (λ e. linked_in base (last_write_view U.Key.bytes U.Value.bytes e.1))
        last.now.entries)) }
    ensures reads { ReadsLent L.reads U.form I.index_key (I.entries index.now) log.old log.new
        result }
{
    let mut sites = Vec::new(alloc);
    for write in last.values() {
        let stands = place_of(alloc, index, log, layers, known, write.key)?;
        sites.push(Site {
            write: write.lent(),
            stands,
        })?;
    }
    Ok(sites)
}
