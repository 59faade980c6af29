//! Steps that are put into a bitmap.

ghost use Rattle.std.specs.Prelude.{◌≡◌, ◌≢◌, ◌⊎◌, ℕ, ◌+◌, ◌*◌, ◌/◌, ◌%◌, ◌<◌, ◌≤◌, false, map, slice_index_or, OnOk, OnErr};
ghost use Rattle.qm_bits.specs.Bitmaps.{start, bit_count, all_bits};
ghost use Rattle.qm_overlay.specs.Layers.{layered, AreStacked};

use crate::chunk::Chunk;
use crate::overlay::ChunkOverlay;
use qm_bits::{Chunks, Prunable};
use std::alloc::AllocError;
use std::rc::Rc;

/// Puts steps into the bitmap that they stand over, the oldest first. Want of memory is the only error, and leaves the bitmap as it was.
pub fn commit<N: Chunks>(
    layers: &[Rc<ChunkOverlay<N>>],
    bits: &mut Prunable<N>,
) -> Result<(), AllocError>
    requires { AreStacked N.LEN (map (λ r. r.value) layers.now) bits.old }
    ensures ok { OnOk result (bits.new ≡ layered N.LEN (map (λ r. r.value) layers.now) bits.old) }
    ensures err { OnErr result (bits.new ≡ bits.old) }
{
    let count = layers.len();
    if count == 0 {
        return Ok(());
    }
    bits.extend_to(layers[count - 1].len())?;
    for layer in layers {
        layer.write_into(bits);
    }
    Ok(())
}

// Puts the bits of a chunk where they stand, those that are kept.
pub(crate) fn write_chunk<N: Chunks>(bits: &mut Prunable<N>, at: usize, chunk: &Chunk<N>)
    ensures pruned { bits.new.pruned ≡ bits.old.pruned }
    ensures count { bit_count N.LEN bits.new ≡ bit_count N.LEN bits.old }
    ensures here { (i : ℕ) → i / (8 * N.LEN) ≡ at → start N.LEN bits.old ≤ i
        → i < bit_count N.LEN bits.old
        → slice_index_or (all_bits N.LEN bits.new) i false
        ≡ slice_index_or chunk.now (i % (8 * N.LEN)) false }
    ensures other { (i : ℕ) → i / (8 * N.LEN) ≢ at
        → slice_index_or (all_bits N.LEN bits.new) i false
        ≡ slice_index_or (all_bits N.LEN bits.old) i false }
{
    let span = N::span();
    if at < bits.pruned_chunks() {
        return;
    }
    if bits.len() / span < at as u64 {
        return;
    }
    write_from(bits, at as u64 * span, chunk);
}

// Puts the bits of a chunk from a place on, as far as there are bits.
fn write_from<N: Chunks>(bits: &mut Prunable<N>, first: u64, chunk: &Chunk<N>)
    requires kept { start N.LEN bits.old ≤ first }
    requires within { first ≤ bit_count N.LEN bits.old }
    ensures pruned { bits.new.pruned ≡ bits.old.pruned }
    ensures count { bit_count N.LEN bits.new ≡ bit_count N.LEN bits.old }
    ensures here { (i : ℕ) → i < 8 * N.LEN → first + i < bit_count N.LEN bits.old
        → slice_index_or (all_bits N.LEN bits.new) (first + i) false
        ≡ slice_index_or chunk.now i false }
    ensures other { (i : ℕ) → (i < first) ⊎ (first + 8 * N.LEN ≤ i)
        → slice_index_or (all_bits N.LEN bits.new) i false
        ≡ slice_index_or (all_bits N.LEN bits.old) i false }
{
    let end = N::span().min(bits.len() - first);
    for i in 0..end {
        bits.set_bit(first + i, chunk.get(i as usize));
    }
}
