//! The digests that a range proof lists.

ghost use Rattle.std.specs.Prelude.{◌≡◌, ◌≤◌, ◌<◌, ◌*◌, ◌^◌, ℕ, List, length, IfOk, IfErr};
ghost use Rattle.qm_model.specs.Operations.{Bytes, Operation};
ghost use Rattle.qm_model.specs.Live as live;
ghost use Rattle.qm_model.specs.Grafted as grafts;
ghost use Rattle.qm_model.specs.RangeProofs as range_proofs;
ghost use Rattle.qm_merkle.specs.Mems.{Stands};
ghost use Rattle.qm_proofs.specs.Proofs.{proof_view};
ghost use Rattle.qm_graft.specs.Grafting.{grafting, kept_shape};

use qm_base::{Digest, Location, MerkleError};
use qm_bits::Chunks;
use qm_chunks::Graftable;
use qm_chunks::chunks::grafted_inactive;
use qm_graft::grafted::height;
use qm_graft::{Grafted, GraftedView};
use qm_merkle::mem::Mem;
use qm_proofs::Proof;
use std::alloc::Global;

// The digests of the nodes beside locations, and from the height of chunks on their values.
pub(crate) fn grafted_proof<F: Graftable, N: Chunks, D: Digest>(
    alloc: Global,
    operations: &Mem<F, D>,
    grafted: &Mem<Grafted<F, N>, D>,
    floor: Location<F>,
    start: Location<F>,
    end: Location<F>,
) -> Result<Proof<D>, MerkleError>
    requires leaves { grafted.now.leaves
        ≡ grafts.grafted_chunks F.shape (grafting N.LEN) operations.now.leaves }
    requires may_go { 0 < grafted.now.start
        → grafts.needed_size F.shape (grafting N.LEN) grafted.now.start ≤ operations.now.leaves }
    requires order { start < end }
    requires within { end ≤ operations.now.leaves }
    requires kept { operations.now.start ≤ start }
    requires chunks { grafted.now.start * 2 ^ grafting N.LEN ≤ start }
    ensures few { operations.now.leaves ≤ 2 ^ 62 }
    ensures proof { (hash : Bytes → Bytes) (digests : List Bytes) (chunks : ℕ → Bytes)
        (ops : List Operation) → length digests ≡ length ops → floor ≡ live.floor ops
        → Stands F.shape D.bytes hash operations.now digests
        → Stands (kept_shape F.shape (grafting N.LEN)) D.bytes hash grafted.now
        (grafts.chunk_values hash F.shape (grafting N.LEN) digests chunks 0
        (grafts.grafted_chunks F.shape (grafting N.LEN) (length digests)))
        → IfOk result (λ p. proof_view D.bytes p
        ≡ range_proofs.grafted_proof hash F.shape (grafting N.LEN) digests chunks
        (grafts.grafted_inactive F.shape (grafting N.LEN) ops) start end) }
    ensures cause { IfErr result (λ e. e ≡ MerkleError.Memory) }
{
    let (_, leaves) = operations.bounds();
    // it has as many nodes as its leaves need
    grafted.bounds();
    let view = GraftedView::new(operations, grafted, leaves);
    let inactive = grafted_inactive(height::<N>(), leaves, floor);
    Proof::new(alloc, &view, leaves, inactive, start, end)
}
