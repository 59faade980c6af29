//! The bits of the lists that a chain of unapplied batches makes.

ghost use Rattle.std.specs.Prelude.{◌≡◌, ◌≤◌, ◌^◌, ◌*◌, List, length, map, filter, nat_le, All, IfOk, OnOk};
ghost use Rattle.qm_model.specs.Operations.{Operation, IsCommitEnded};
ghost use Rattle.qm_model.specs.Bits as activity;
ghost use Rattle.qm_bits.specs.Bitmaps.{all_bits, bit_count};
ghost use Rattle.qm_step.specs.Changes.{LeadTo};
ghost use Rattle.qm_step.specs.Views.{changes_view};
ghost use Rattle.qm_overlay.specs.Layers.{IsFrom, seen};
ghost use Rattle.qm_roots.specs.Steps.{laid_over, AreOver, IsOverlay};

use qm_base::ByteString;
use qm_bits::{Chunks, Prunable};
use qm_chain::Diff;
use qm_overlay::{BitmapBatch, ChunkOverlay, overlay_of};
use std::alloc::{AllocError, Global};
use std::rc::Rc;

// The bits after steps over a bitmap, the newest first. Want of memory is the only error.
pub(crate) fn bits_after<'a, N: Chunks>(
    alloc: Global,
    bits: &'a Prunable<N>,
    overlays: &[Rc<ChunkOverlay<N>>],
) -> Result<BitmapBatch<'a, N>, AllocError>
    requires { AreOver N.LEN (map (λ r. r.value) overlays.now) bits.now }
    ensures { IfOk result (λ b.
        seen N.LEN b ≡ laid_over N.LEN (map (λ r. r.value) overlays.now) bits.now) }
{
    let mut batch = BitmapBatch::new(alloc, bits);
    let mut left = overlays.len();
    while left > 0 {
        left -= 1;
        let overlay = overlays[left].clone()?;
        batch.push(overlay)?;
    }
    Ok(batch)
}

// The step over bits that diffs make, for a list of this size; the bits get it. Want of memory is the only error.
pub(crate) fn stepped<F, K: ByteString, V: ByteString, N: Chunks>(
    alloc: Global,
    bits: &mut BitmapBatch<'_, N>,
    size: u64,
    diffs: &[Rc<Diff<F, K, V>>],
) -> Result<Rc<ChunkOverlay<N>>, AllocError>
    requires not_below { bit_count N.LEN (seen N.LEN bits.old) ≤ size }
    requires few { size ≤ 2 ^ 62 }
    ensures count { IfOk result (λ r. r.value.count ≡ size) }
    ensures from { IfOk result (λ r. IsFrom (seen N.LEN bits.old).pruned r.value) }
    ensures total { OnOk result (bit_count N.LEN (seen N.LEN bits.new) ≡ size) }
    ensures pruned { OnOk result ((seen N.LEN bits.new).pruned ≡ (seen N.LEN bits.old).pruned) }
    ensures active { (base tip : List Operation)
        → LeadTo (map (λ d. changes_view K.bytes V.bytes d.value) diffs.now) base tip
        → IsCommitEnded base → size ≡ length tip
        → all_bits N.LEN (seen N.LEN bits.old) ≡ activity.bits base
        → OnOk result (all_bits N.LEN (seen N.LEN bits.new) ≡ activity.bits tip) }
    ensures overlay { (base tip : List Operation)
        → LeadTo (map (λ d. changes_view K.bytes V.bytes d.value) diffs.now) base tip
        → IsCommitEnded base → size ≡ length tip
        → all_bits N.LEN (seen N.LEN bits.old) ≡ activity.bits base
        → IfOk result (λ r. IsOverlay N.LEN r.value base tip) }
{
    let overlay = overlay_of::<F, K, V, N, _>(alloc, bits, size, diffs)?;
    // its clauses say that no bit is set after the last one
    overlay.get(0);
    let overlay = Rc::new(alloc, overlay)?;
    bits.push(overlay.clone()?)?;
    Ok(overlay)
}

// The chunks that a step changes from this one on, in order. Want of memory is the only error.
pub(crate) fn changed_since<N: Chunks>(
    alloc: Global,
    overlay: &ChunkOverlay<N>,
    least: u64,
) -> Result<Vec<u64>, AllocError>
    ensures { IfOk result (λ v.
        v.items ≡ filter (nat_le least) (map (λ e. e.0) overlay.now.changed)) }
{
    let chunks = overlay.chunks(alloc)?;
    let mut found = Vec::with_capacity(alloc, chunks.len())?;
    for at in &chunks {
        if least <= *at {
            found.push(*at)?;
        }
    }
    Ok(found)
}
