//! The grafted tree after a step, and the canonical root of the list that the step makes.

ghost use Rattle.std.specs.Prelude.{◌≡◌, ◌<◌, ◌≤◌, ◌^◌, ◌∷◌, [], ℕ, List, length, All, Contains, IsSome, IfOk, IfErr};
ghost use Rattle.qm_model.specs.Operations.{Bytes, Operation};
ghost use Rattle.qm_model.specs.Forms.{Form};
ghost use Rattle.qm_model.specs.Live as live;
ghost use Rattle.qm_model.specs.Bits as activity;
ghost use Rattle.qm_model.specs.Bits.{chunk};
ghost use Rattle.qm_model.specs.Trees as trees;
ghost use Rattle.qm_model.specs.Families.{over};
ghost use Rattle.qm_model.specs.Grafted as grafts;
ghost use Rattle.qm_model.specs.Grafted.{chunk_values};
ghost use Rattle.qm_bits.specs.Bitmaps.{all_bits, bit_count};
ghost use Rattle.qm_merkle.specs.Batches.{stops, all_layers, IsHistory};
ghost use Rattle.qm_merkle.specs.Mems.{Stands};
ghost use Rattle.qm_proofs.specs.Proofs.{Tells};
ghost use Rattle.qm_graft.specs.Grafting.{grafting, kept_shape, CanGraft, IsStep};

use crate::grafted::{Grafted, height};
use crate::root::compute_db_root;
use crate::tree::{Behind, follow};
use crate::view::GraftedView;
use qm_base::{Hasher, Location, MerkleError};
use qm_bits::{Chunks, Readable};
use qm_chunks::Graftable;
use qm_chunks::chunks::grafted_chunks;
use qm_merkle::mem::Mem;
use qm_merkle::{MerkleizedBatch, Position, StandardHasher, UnmerkleizedBatch};
use qm_proofs::{Nodes, NodesOver};
use std::alloc::Global;

/// The batch of the grafted tree after a step, as `follow` makes it, and the canonical root of the step's list, over the root of
/// its operations. Want of memory is the only error.
pub fn grown<F: Graftable, N: Chunks, H: Hasher, B: Readable<N>, O: Nodes<F, H::Digest>>(
    alloc: Global,
    hasher: &mut StandardHasher<H>,
    mem: &Mem<Grafted<F, N>, H::Digest>,
    draft: UnmerkleizedBatch<Grafted<F, N>, H::Digest>,
    behind: &Behind<'_, B, O>,
    changed: &[u64],
    ops_root: &H::Digest,
    floor: Location<F>,
) -> Result<(MerkleizedBatch<Grafted<F, N>, H::Digest>, H::Digest), MerkleError>
    requires few { bit_count N.LEN (B.bitmap behind.now.bits.now) ≤ 2 ^ 62 }
    requires fresh { (draft.replaced ≡ []) × (draft.added ≡ []) }
    requires reach { Contains (stops draft.base draft.layers) mem.now.leaves }
    requires kept { All (λ c. draft.start ≤ c) changed.now }
    requires held { All (λ c. mem.now.start ≤ c) changed.now }
    requires order { draft.base
        ≤ grafts.grafted_chunks F.shape (grafting N.LEN)
        (bit_count N.LEN (B.bitmap behind.now.bits.now)) }
    requires changed { All (λ c. c < draft.base
        → CanGraft (O.node_at behind.now.operations.now) F.shape N.LEN
        (B.bitmap behind.now.bits.now) c) changed.now }
    requires added { (c : ℕ) → draft.base ≤ c
        → c
        < grafts.grafted_chunks F.shape (grafting N.LEN)
        (bit_count N.LEN (B.bitmap behind.now.bits.now))
        → CanGraft (O.node_at behind.now.operations.now) F.shape N.LEN
        (B.bitmap behind.now.bits.now) c }
    requires peaks { (x : trees.Node)
        → trees.Shape.birth F.shape x ≤ bit_count N.LEN (B.bitmap behind.now.bits.now)
        → bit_count N.LEN (B.bitmap behind.now.bits.now) < trees.Shape.birth F.shape (over x)
        → IsSome (O.node_at behind.now.operations.now (trees.Shape.position F.shape x)) }
    requires pruned { (B.bitmap behind.now.bits.now).pruned
        ≤ grafts.grafted_chunks F.shape (grafting N.LEN)
        (bit_count N.LEN (B.bitmap behind.now.bits.now)) }
    requires may_go { 0 < mem.now.start
        → grafts.needed_size F.shape (grafting N.LEN) mem.now.start
        ≤ bit_count N.LEN (B.bitmap behind.now.bits.now) }
    ensures start { IfOk result (λ r. r.0.start ≡ draft.start) }
    ensures base { IfOk result (λ r. r.0.newest.tree.start ≡ draft.base) }
    ensures leaves { IfOk result (λ r. r.0.newest.tree.leaves
        ≡ grafts.grafted_chunks F.shape (grafting N.LEN)
        (bit_count N.LEN (B.bitmap behind.now.bits.now))) }
    ensures older { IfOk result (λ r. r.0.older ≡ draft.layers) }
    ensures history { (old list : List Bytes) (before : ℕ → Bytes) (lists : List (List Bytes))
        (form : Form) (ops : List Operation)
        → all_bits N.LEN (B.bitmap behind.now.bits.now) ≡ activity.bits ops
        → IsStep (grafting N.LEN) draft.base changed.now old
        (trees.leaves_from H.hash F.shape form 0 ops) before (grafts.chunk_of (grafting N.LEN) ops)
        → Tells F.shape H.Digest.bytes H.hash (O.node_at behind.now.operations.now)
        (trees.leaves_from H.hash F.shape form 0 ops)
        → IsHistory (kept_shape F.shape (grafting N.LEN)) H.Digest.bytes H.hash draft.layers
        (chunk_values H.hash F.shape (grafting N.LEN) old before 0 draft.base ∷ lists)
        → Contains (chunk_values H.hash F.shape (grafting N.LEN) old before 0 draft.base ∷ lists)
        list → Stands (kept_shape F.shape (grafting N.LEN)) H.Digest.bytes H.hash mem.now list
        → IfOk result (λ r. IsHistory (kept_shape F.shape (grafting N.LEN)) H.Digest.bytes H.hash
        (all_layers r.0) (chunk_values H.hash F.shape (grafting N.LEN)
        (trees.leaves_from H.hash F.shape form 0 ops) (grafts.chunk_of (grafting N.LEN) ops) 0
        (grafts.grafted_chunks F.shape (grafting N.LEN) (length ops))
        ∷ chunk_values H.hash F.shape (grafting N.LEN) old before 0 draft.base
        ∷ lists)) }
    ensures canonical { (old list : List Bytes) (before : ℕ → Bytes) (lists : List (List Bytes))
        (form : Form) (ops : List Operation)
        → all_bits N.LEN (B.bitmap behind.now.bits.now) ≡ activity.bits ops → floor ≡ live.floor ops
        → H.Digest.bytes ops_root.now ≡ trees.ops_root H.hash F.shape form ops
        → IsStep (grafting N.LEN) draft.base changed.now old
        (trees.leaves_from H.hash F.shape form 0 ops) before (grafts.chunk_of (grafting N.LEN) ops)
        → Tells F.shape H.Digest.bytes H.hash (O.node_at behind.now.operations.now)
        (trees.leaves_from H.hash F.shape form 0 ops)
        → IsHistory (kept_shape F.shape (grafting N.LEN)) H.Digest.bytes H.hash draft.layers
        (chunk_values H.hash F.shape (grafting N.LEN) old before 0 draft.base ∷ lists)
        → Contains (chunk_values H.hash F.shape (grafting N.LEN) old before 0 draft.base ∷ lists)
        list → Stands (kept_shape F.shape (grafting N.LEN)) H.Digest.bytes H.hash mem.now list
        → IfOk result (λ r.
        H.Digest.bytes r.1 ≡ grafts.canonical H.hash F.shape (grafting N.LEN) form ops) }
    ensures cause { IfErr result (λ e. e ≡ MerkleError.Memory) }
{
    let leaves = behind.bits.len();
    let count = grafted_chunks::<F>(height::<N>(), leaves);
    let batch = follow(alloc, hasher, mem, draft, behind, changed, count)?;
    // Its layers lead from a list of the tree's size, and the tree has as many nodes as it needs.
    batch.find_node(Position::new(0));
    mem.bounds();
    let over = NodesOver { batch: &batch, mem };
    let view = GraftedView::new(behind.operations, &over, Location::new(leaves));
    let root = compute_db_root(alloc, hasher, ops_root, &view, behind.bits, floor)?;
    Ok((batch, root))
}
