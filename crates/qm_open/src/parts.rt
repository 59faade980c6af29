//! What a list has beside its index and its log: activity bits with those below the floor, its root, its metadata.

ghost use Rattle.std.specs.Prelude.{◌≡◌, ◌+◌, ◌-◌, ◌*◌, ◌/◌, ◌^◌, ◌<◌, ◌≤◌, ◌++◌, List, [], true, false, is_none, length, replicate, option_map, IfSome, IfOk, IfErr, OnOk};
ghost use Rattle.qm_model.specs.Operations as model;
ghost use Rattle.qm_model.specs.Live as lives;
ghost use Rattle.qm_model.specs.Trees.{ops_root};
ghost use Rattle.qm_model.specs.Step.{IsGood};
ghost use Rattle.std.specs.List.{list_any};
ghost use Rattle.qm_bits.specs.Bitmaps.{all_bits, bit_count};
ghost use Rattle.qm_open.specs.Opened.{IsOpened};
ghost use Rattle.qm_build.specs.Reads.{items_within, HasOperations, KeepsLog, IsRebuildError};

use qm_base::{Corrupt, Digest, Error, Hasher, Location};
use qm_bits::{BitMap, Chunks, Prunable};
use qm_build::{build_snapshot, last_metadata};
use qm_merkle::Family;
use qm_operations::Update;
use qm_store::{AuthLog, Store};
use std::alloc::{AllocError, Global};
use std::num::NonZeroUsize;

/// The activity bits of a list, of which those from a floor on are given and those below are clear. The first
/// `chunks` chunks, which lie below the floor, are pruned.
pub fn activity_from<N: Chunks>(
    alloc: Global,
    chunks: usize,
    floor: u64,
    behind: &BitMap,
) -> Result<Prunable<N>, AllocError>
    requires below { chunks * (8 * N.LEN) ≤ floor }
    requires few { floor + length behind.now ≤ 2 ^ 62 }
    ensures pruned { IfOk result (λ activity. activity.pruned ≡ chunks) }
    ensures bits { IfOk result (λ activity.
        all_bits N.LEN activity ≡ replicate floor false ++ behind.now) }
    ensures count { IfOk result (λ activity. bit_count N.LEN activity ≡ floor + length behind.now) }
{
    let mut activity = Prunable::new_with_pruned_chunks(alloc, chunks);
    activity.extend_to(floor)?;
    for at in 0..behind.len() {
        activity.push(behind.get_bit(at))?;
    }
    Ok(activity)
}

/// The operations root of a log's list, whose floor is given.
pub fn root_of<F: Family, C: Store, H: Hasher, U: Update>(
    alloc: Global,
    log: &mut AuthLog<F, C, H>,
    floor: u64,
) -> Result<H::Digest, AllocError>
    ensures value { (ops : List model.Operation)
        → HasOperations C.Store F.shape H.Digest.bytes H.hash U.form log.old ops
        → floor ≡ lives.floor ops
        → IfOk result (λ root. H.Digest.bytes root ≡ ops_root H.hash F.shape U.form ops) }
    ensures same { log.new ≡ log.old }
{
    let (_, size) = log.bounds();
    let inactive = F::inactive_peaks(Location::new(size), Location::new(floor));
    log.root(alloc, inactive)
}

/// What a list has beside its log and its index.
#[derive(Drop)]
pub(crate) struct Held<N: Chunks, D, V> {
    pub live: u64,
    pub activity: Prunable<N>,
    pub root: D,
    pub metadata: Option<V>,
}

/// What a log's list has beside it, of which the index was empty, rebuilt from its floor on. The first `chunks` chunks of
/// its bits are pruned. It reads the items from the floor on once, and the last of them once more.
pub(crate) fn rebuilt<
    N: Chunks,
    F: Family,
    C: Store,
    I: qm_index::Unordered<Value = Location<F>>,
    H: Hasher,
    U: Update,
>(
    alloc: Global,
    index: &mut I,
    log: &mut AuthLog<F, C, H>,
    chunks: usize,
    floor: u64,
    kept_keys: NonZeroUsize,
) -> Result<Held<N, H::Digest, U::Value>, Error>
    requires empty { I.entries index.old ≡ [] }
    requires pruned { chunks * (8 * N.LEN) ≤ floor }
    requires kept { log.old.tree.start ≤ floor }
    requires below { floor < log.old.tree.leaves }
    ensures opened { (ops : List model.Operation)
        → HasOperations C.Store F.shape H.Digest.bytes H.hash U.form log.old ops → IsGood ops
        → floor ≡ lives.floor ops
        → IfSome (C.told log.old.store) (λ _. IfOk result (λ held. IsOpened C.Store F.shape
        H.Digest.bytes H.hash U.form I.index_key N.LEN log.new (I.entries index.new) held.live
        held.activity (H.Digest.bytes held.root) (option_map U.Value.bytes held.metadata) ops)) }
    ensures pruned { IfOk result (λ held. held.activity.pruned ≡ chunks) }
    ensures bits { IfOk result (λ held.
        (bit_count N.LEN held.activity ≡ log.old.tree.leaves) × (held.live ≤ log.old.tree.leaves)) }
    ensures decoded { IfSome (C.told log.old.store) (λ s.
        OnOk result (list_any is_none (items_within U.form s floor log.old.tree.leaves) ≡ false)) }
    ensures undecoded { IfErr result (λ e. e ≡ Error.DataCorrupted Corrupt.ItemDoesNotDecode
        → IfSome (C.told log.old.store) (λ s.
        list_any is_none (items_within U.form s floor log.old.tree.leaves) ≡ true)) }
    ensures read { KeepsLog C.Store F.shape H.Digest.bytes H.hash log.old log.new }
    ensures error { IfErr result (IsRebuildError C.Store log.old log.new) }
{
    // The log has at most 2^62 items.
    log.bounds();
    let snapshot = build_snapshot::<F, I, C, H, U>(
        alloc,
        index,
        log,
        Location::new(floor),
        kept_keys,
    )?;
    let root = root_of::<F, C, H, U>(alloc, log, floor)?;
    let activity = activity_from(alloc, chunks, floor, &snapshot.activity)?;
    let metadata = last_metadata::<F, C, H, U>(alloc, log)?;
    Ok(Held {
        live: snapshot.live,
        activity,
        root,
        metadata,
    })
}
