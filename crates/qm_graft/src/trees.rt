//! The grafted tree and the canonical root of a list whose trees are in memory.

ghost use Rattle.std.specs.Prelude.{◌≡◌, ◌<◌, ◌≤◌, ◌+◌, ◌*◌, ◌^◌, ℕ, suc, List, length, map, max, IfOk, IfErr, OnOk};
ghost use Rattle.qm_model.specs.Operations.{Bytes, Operation};
ghost use Rattle.qm_model.specs.Forms.{Form};
ghost use Rattle.qm_model.specs.Live as live;
ghost use Rattle.qm_model.specs.Bits as activity;
ghost use Rattle.qm_model.specs.Trees as trees;
ghost use Rattle.qm_model.specs.Grafted as grafts;
ghost use Rattle.qm_bits.specs.Bitmaps.{bit_count, all_bits};
ghost use Rattle.qm_merkle.specs.Mems.{IsWhole, Stands, more};
ghost use Rattle.qm_graft.specs.Grafting.{grafting, kept_shape, AreGrafted};

use crate::grafted::{Grafted, height};
use crate::root::compute_db_root;
use crate::tree::{Behind, follow};
use crate::view::GraftedView;
use qm_base::{Digest, Hasher, Location, MerkleError};
use qm_bits::{Chunks, Readable};
use qm_chunks::Graftable;
use qm_chunks::chunks::grafted_chunks;
use qm_merkle::StandardHasher;
use qm_merkle::mem::Mem;
use std::alloc::{AllocError, Global};

/// The grafted tree of a list, from the tree of its operations, its bits and the values of the grafted tree's peaks over the pruned
/// chunks. Each chunk that is kept takes a digest for its value, and so does each node over them. Want of memory is the only error.
pub fn build_grafted_tree<F: Graftable, N: Chunks, H: Hasher, B: Readable<N>>(
    alloc: Global,
    hasher: &mut StandardHasher<H>,
    operations: &Mem<F, H::Digest>,
    bits: &B,
    pins: Vec<H::Digest>,
) -> Result<Mem<Grafted<F, N>, H::Digest>, MerkleError>
    requires bits { bit_count N.LEN (B.bitmap bits.now) ≡ operations.now.leaves }
    requires start { operations.now.start < suc (B.bitmap bits.now).pruned * (8 * N.LEN) }
    requires pruned { (B.bitmap bits.now).pruned
        ≤ grafts.grafted_chunks F.shape (grafting N.LEN) operations.now.leaves }
    requires pins { length pins.items ≡ length (trees.peaks F.shape (B.bitmap bits.now).pruned) }
    ensures bounds { IfOk result (λ tree. (tree.start ≡ (B.bitmap bits.now).pruned)
        × (tree.leaves ≡ grafts.grafted_chunks F.shape (grafting N.LEN) operations.now.leaves)) }
    ensures stands { (digests : List Bytes)
        → Stands F.shape H.Digest.bytes H.hash operations.now digests
        → map H.Digest.bytes pins.items
        ≡ map (trees.digest_of H.hash (kept_shape F.shape (grafting N.LEN)) (grafts.chunk_values
        H.hash F.shape (grafting N.LEN) digests
        (activity.chunk N.LEN (all_bits N.LEN (B.bitmap bits.now))) 0 (B.bitmap bits.now).pruned))
        (trees.peaks F.shape (B.bitmap bits.now).pruned)
        → IfOk result (λ tree. Stands (kept_shape F.shape (grafting N.LEN)) H.Digest.bytes H.hash
        tree (grafts.chunk_values H.hash F.shape (grafting N.LEN) digests
        (activity.chunk N.LEN (all_bits N.LEN (B.bitmap bits.now))) 0
        (grafts.grafted_chunks F.shape (grafting N.LEN) operations.now.leaves))) }
    ensures cause { IfErr result (λ e. e ≡ MerkleError.Memory) }
{
    let count = chunks_over::<F, N, H::Digest>(operations);
    let mut tree = begun::<F, N, H::Digest, B>(alloc, bits, pins)?;
    let draft = tree.new_batch(alloc);
    let behind = Behind { bits, operations };
    let batch = follow(alloc, hasher, &tree, draft, &behind, &[], count)?;
    tree.apply_batch(&batch)?;
    Ok(tree)
}

// How many chunks are grafted over the operations of a tree.
fn chunks_over<F: Graftable, N: Chunks, D: Digest>(operations: &Mem<F, D>) -> u64
    ensures count { result ≡ grafts.grafted_chunks F.shape (grafting N.LEN) operations.now.leaves }
    ensures whole { IsWhole F.shape operations.now }
{
    let (_, leaves) = operations.bounds();
    grafted_chunks::<F>(height::<N>(), leaves.get())
}

// The grafted tree of nothing but the peaks over the pruned chunks.
fn begun<F: Graftable, N: Chunks, D: Digest, B: Readable<N>>(
    alloc: Global,
    bits: &B,
    pins: Vec<D>,
) -> Result<Mem<Grafted<F, N>, D>, AllocError>
    requires few { (B.bitmap bits.now).pruned ≤ 2 ^ 62 }
    requires pins { length pins.items ≡ length (trees.peaks F.shape (B.bitmap bits.now).pruned) }
    ensures { IfOk result (λ tree.
        (tree.start ≡ (B.bitmap bits.now).pruned) × (tree.leaves ≡ (B.bitmap bits.now).pruned)
        × (tree.pins ≡ pins.items)) }
{
    let chunks = Location::new(bits.pruned_chunks() as u64);
    Mem::from_pruned_with_retained(alloc, Vec::new(alloc), chunks, pins)
}

/// The canonical root of a list, over the root of its operations, from the tree of its operations, the grafted tree over it and its
/// bits. Want of memory is the only error.
pub fn canonical_root_of<F: Graftable, N: Chunks, H: Hasher, B: Readable<N>>(
    alloc: Global,
    hasher: &mut StandardHasher<H>,
    ops_root: &H::Digest,
    operations: &Mem<F, H::Digest>,
    grafted: &Mem<Grafted<F, N>, H::Digest>,
    bits: &B,
    floor: Location<F>,
) -> Result<H::Digest, AllocError>
    requires { AreGrafted F.shape N.LEN operations.now grafted.now (B.bitmap bits.now) }
    ensures canonical { (form : Form) (ops : List Operation)
        → all_bits N.LEN (B.bitmap bits.now) ≡ activity.bits ops → floor ≡ live.floor ops
        → H.Digest.bytes ops_root.now ≡ trees.ops_root H.hash F.shape form ops
        → Stands F.shape H.Digest.bytes H.hash operations.now
        (trees.leaves_from H.hash F.shape form 0 ops)
        → Stands (kept_shape F.shape (grafting N.LEN)) H.Digest.bytes H.hash grafted.now
        (grafts.chunk_values H.hash F.shape (grafting N.LEN)
        (trees.leaves_from H.hash F.shape form 0 ops) (grafts.chunk_of (grafting N.LEN) ops) 0
        (grafts.grafted_chunks F.shape (grafting N.LEN) (length ops)))
        → IfOk result (λ d.
        H.Digest.bytes d ≡ grafts.canonical H.hash F.shape (grafting N.LEN) form ops) }
    ensures made { OnOk result ((n : ℕ) × (n ≤ 3)
        × (hasher.new
        ≡ more hasher.old (max 1 (length (trees.peaks F.shape operations.now.leaves)) + n))) }
{
    let (_, leaves) = operations.bounds();
    // it has as many nodes as its leaves need
    grafted.bounds();
    let view = GraftedView::new(operations, grafted, leaves);
    compute_db_root(alloc, hasher, ops_root, &view, bits, floor)
}
