// Fills by the program's databases.

ghost use Rattle.qm_filling.specs.Says.{IsServed};
ghost use Rattle.qm_run.specs.Program.{machine_of, machine_over};
ghost use Rattle.qm_model.specs.Mmb as delayed;
ghost use Rattle.qm_model.specs.Mmr as ranges;
ghost use Rattle.qm_run.specs.Schemes.{current, scheme};

use crate::kind::{Kind, Link, Named, OrderedPlaces, Pair, Places};
use crate::program::opening;
use crate::{any, current_mmb, current_mmr};
use qm_base::{ByteKey, ByteValue, Location};
use qm_current::Absences;
use qm_fill::Fill;
use qm_filling::serve_fill;
use qm_index::{Factory, FourCap};
use qm_lines::Sink;
use qm_merkle::{Family, mmb, mmr};
use qm_store::Store;
use std::alloc::Global;

// Runs a fill by any databases over this index and these updates.
fn fill_any<
    F: Family,
    C: Store + Drop,
    I: Factory<Value = Location<F>, Translator = FourCap> + Drop,
    U: Kind<F, I, Key = ByteKey, Value = ByteValue>,
    K: Sink,
>(alloc: Global, store: C, fill: Fill, sink: &mut K) -> (u8, C)
    ensures { IsServed (scheme F.shape U.form) fill result.0 (C.told store) (C.told result.1)
        (C.faults store) (C.faults result.1) (K.text sink.old) (K.text sink.new)
        (K.faults sink.old) (K.faults sink.new) }
{
    serve_fill::<any::Database<F, C, I, U>, C, K>(alloc, store, opening(), fill, sink)
}

// The same by current databases of mountain ranges over this index and these updates.
fn fill_current_mmr<
    C: Store + Drop,
    I: Factory<Value = Location<mmr::Family>, Translator = FourCap> + Drop,
    U: Kind<mmr::Family, I, Key = ByteKey, Value = ByteValue> + Absences<mmr::Family, I>,
    K: Sink,
>(alloc: Global, store: C, fill: Fill, sink: &mut K) -> (u8, C)
    ensures { IsServed (current ranges.mmr U.form) fill result.0 (C.told store) (C.told result.1)
        (C.faults store) (C.faults result.1) (K.text sink.old) (K.text sink.new)
        (K.faults sink.old) (K.faults sink.new) }
{
    serve_fill::<current_mmr::Database<C, I, U>, C, K>(alloc, store, opening(), fill, sink)
}

// The same by current databases of delayed merges over this index and these updates.
fn fill_current_mmb<
    C: Store + Drop,
    I: Factory<Value = Location<mmb::Family>, Translator = FourCap> + Drop,
    U: Kind<mmb::Family, I, Key = ByteKey, Value = ByteValue> + Absences<mmb::Family, I>,
    K: Sink,
>(alloc: Global, store: C, fill: Fill, sink: &mut K) -> (u8, C)
    ensures { IsServed (current delayed.mmb U.form) fill result.0 (C.told store) (C.told result.1)
        (C.faults store) (C.faults result.1) (K.text sink.old) (K.text sink.new)
        (K.faults sink.old) (K.faults sink.new) }
{
    serve_fill::<current_mmb::Database<C, I, U>, C, K>(alloc, store, opening(), fill, sink)
}

// The same by databases over mountain ranges, current ones or any ones, ordered or unordered.
fn fill_mmr<C: Store + Drop, K: Sink>(
    is_current: bool,
    is_ordered: bool,
    alloc: Global,
    store: C,
    fill: Fill,
    sink: &mut K,
) -> (u8, C)
    ensures { IsServed (machine_over ranges.mmr is_current is_ordered) fill result.0 (C.told store) (C.told result.1)
        (C.faults store) (C.faults result.1) (K.text sink.old) (K.text sink.new)
        (K.faults sink.old) (K.faults sink.new) }
{
    match (is_current, is_ordered) {
        (false, false) => fill_any::<mmr::Family, C, Places<mmr::Family>, Pair, K>(
            alloc, store, fill, sink,
        ),
        (false, true) => fill_any::<mmr::Family, C, OrderedPlaces<mmr::Family>, Link, K>(
            alloc, store, fill, sink,
        ),
        (true, false) => fill_current_mmr::<C, Places<mmr::Family>, Pair, K>(
            alloc, store, fill, sink,
        ),
        (true, true) => fill_current_mmr::<C, OrderedPlaces<mmr::Family>, Link, K>(
            alloc, store, fill, sink,
        ),
    }
}

// The same by databases over trees whose merges are delayed, current ones or any ones, ordered or unordered.
fn fill_mmb<C: Store + Drop, K: Sink>(
    is_current: bool,
    is_ordered: bool,
    alloc: Global,
    store: C,
    fill: Fill,
    sink: &mut K,
) -> (u8, C)
    ensures { IsServed (machine_over delayed.mmb is_current is_ordered) fill result.0 (C.told store) (C.told result.1)
        (C.faults store) (C.faults result.1) (K.text sink.old) (K.text sink.new)
        (K.faults sink.old) (K.faults sink.new) }
{
    match (is_current, is_ordered) {
        (false, false) => fill_any::<mmb::Family, C, Places<mmb::Family>, Pair, K>(
            alloc, store, fill, sink,
        ),
        (false, true) => fill_any::<mmb::Family, C, OrderedPlaces<mmb::Family>, Link, K>(
            alloc, store, fill, sink,
        ),
        (true, false) => fill_current_mmb::<C, Places<mmb::Family>, Pair, K>(
            alloc, store, fill, sink,
        ),
        (true, true) => fill_current_mmb::<C, OrderedPlaces<mmb::Family>, Link, K>(
            alloc, store, fill, sink,
        ),
    }
}

/// Runs a fill by the databases that are named, and writes its summary. It answers a status.
pub(crate) fn fill_by<C: Store + Drop, K: Sink>(
    named: Named,
    alloc: Global,
    store: C,
    fill: Fill,
    sink: &mut K,
) -> (u8, C)
    ensures { IsServed (machine_of named) fill result.0 (C.told store) (C.told result.1)
        (C.faults store) (C.faults result.1) (K.text sink.old) (K.text sink.new)
        (K.faults sink.old) (K.faults sink.new) }
{
    let (is_current, is_ordered) = (named.is_current, named.is_ordered);
    match named.is_delayed {
        false => { fill_mmr::<C, K>(is_current, is_ordered, alloc, store, fill, sink) }
        true => fill_mmb::<C, K>(is_current, is_ordered, alloc, store, fill, sink),
    }
}
