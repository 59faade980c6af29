//! How the list that a store keeps is opened, and looked at.

ghost use Rattle.std.specs.Prelude.{option_map, ◌≡◌, ◌⊎◌, ◌<◌, ◌≤◌, ◌*◌, List, is_none, true, false, Some, IfSome, IfOk, IfErr, OnOk};
ghost use Rattle.std.specs.List.{list_any};
ghost use Rattle.qm_model.specs.Live as lives;
ghost use Rattle.qm_model.specs.Operations.{Operation};
ghost use Rattle.qm_model.specs.Schemes.{any_scheme};
ghost use Rattle.qm_model.specs.Taken.{HasList};
ghost use Rattle.qm_build.specs.Reads.{items_within, KeepsLog, IsRebuildError};
ghost use Rattle.qm_open.specs.Broken.{links_broken};
ghost use Rattle.qm_open.specs.Opened.{IsJudged, IsMadeOf, IsOpened};
ghost use Rattle.qm_open.specs.Selecting.{refusal_at, selected_view};
ghost use Rattle.qm_open.specs.Unopened.{IsUnfinished};

use crate::config::Config;
use crate::opened::{Opened, open_at};
use crate::select::Selected;
use qm_base::{Corrupt, Digest, Error, Hasher, Location};
use qm_bits::Chunks;
use qm_build::forms_ring;
use qm_index::Factory;
use qm_merkle::Family;
use qm_operations::Update;
use qm_store::{AuthLog, Given, Refusal, Store};
use std::alloc::Global;

// Refuses the links of an ordered list that, from a location on, form no ring.
fn check_links<F: Family, C: Store, H: Hasher, U: Update>(
    alloc: Global,
    log: &mut AuthLog<F, C, H>,
    from: u64,
) -> Result<(), Error>
    requires kept { C.start log.old.store ≤ from }
    requires below { from ≤ log.old.tree.leaves }
    ensures ring { IfSome (C.told log.old.store) (λ s.
        OnOk result (links_broken U.form s from log.old.tree.leaves ≡ false)) }
    ensures broken { IfErr result (λ e. e ≡ Error.DataCorrupted Corrupt.LinksFormNoRing
        → IfSome (C.told log.old.store) (λ s.
        links_broken U.form s from log.old.tree.leaves ≡ true)) }
    ensures undecoded { IfErr result (λ e. e ≡ Error.DataCorrupted Corrupt.ItemDoesNotDecode
        → IfSome (C.told log.old.store) (λ s.
        list_any is_none (items_within U.form s from log.old.tree.leaves) ≡ true)) }
    ensures read { KeepsLog C.Store F.shape H.Digest.bytes H.hash log.old log.new }
    ensures error { IfErr result (λ e. IsRebuildError C.Store log.old log.new e
        ⊎ ((U.form.ordered ≡ true) × (e ≡ Error.DataCorrupted Corrupt.LinksFormNoRing))) }
{
    if !U::is_ordered() {
        return Ok(());
    }
    // Its tree starts where its store does.
    log.bounds();
    match forms_ring::<F, C, H, U>(alloc, log, from) {
        Ok(true) => Ok(()),
        Ok(false) => Err(Error::DataCorrupted(Corrupt::LinksFormNoRing)),
        Err(error) => Err(error),
    }
}

/// What is made of the list that ends with the selected commit, if head, items and links of the store are right. The first
/// `chunks` chunks of its bits are pruned. A refusal gives back the store.
pub fn open_checked<
    N: Chunks,
    F: Family,
    C: Store + Drop,
    I: Factory<Value = Location<F>> + Drop,
    H: Hasher + Drop,
    U: Update,
    X: Drop,
>(
    alloc: Global,
    store: C,
    hasher: H,
    config: Config<I::Translator, ()>,
    selected: Selected,
    chunks: usize,
) -> Result<Opened<N, F, C, I, H, U>, Refusal<X, C>>
    requires start { C.start store ≤ selected.floor }
    requires pruned { chunks * (8 * N.LEN) ≤ selected.floor }
    requires floor { selected.floor < selected.size }
    requires end { selected.size ≤ C.end store }
    ensures stands { IfSome (C.told store) (λ s. (list : List Operation)
        → HasList (any_scheme H.hash F.shape H.Digest.SIZE U.form) s selected.size list
        → selected.floor ≡ lives.floor list
        → IfOk result (λ o. IsOpened C.Store F.shape H.Digest.bytes H.hash U.form I.index_key N.LEN
        o.log (I.entries o.index) o.live o.activity (H.Digest.bytes o.root)
        (option_map U.Value.bytes o.metadata) list)) }
    ensures made { IfOk result (λ o.
        IsMadeOf C.Store N.LEN store selected.size chunks o.log o.live o.activity) }
    ensures judged { IsJudged C.Store store
        (refusal_at U.form F.shape H.Digest.SIZE (Some (selected_view selected))) result }
    ensures causes { IfErr result (λ r. IsUnfinished U.form (Some (selected_view selected)) r.error) }
{
    let mut opened = open_at(alloc, store, hasher, config, selected, chunks)?;
    match check_links::<F, C, H, U>(alloc, &mut opened.log, selected.floor) {
        Ok(()) => Ok(opened),
        Err(error) => Err(Refusal {
            given: Given::Store(opened.log.close()),
            error,
        }),
    }
}
