//! The canonical root of a list, from a view of its trees and from its bits.

ghost use Rattle.std.specs.Prelude.{◌≡◌, ◌≤◌, ◌+◌, ◌*◌, ◌%◌, ◌^◌, ℕ, List, length, map, max, All, IsSome, Some, IfOk, OnOk, option_map};
ghost use Rattle.qm_model.specs.Operations.{Operation};
ghost use Rattle.qm_model.specs.Forms.{Form};
ghost use Rattle.qm_model.specs.Live as live;
ghost use Rattle.qm_model.specs.Bits as activity;
ghost use Rattle.qm_model.specs.Trees as trees;
ghost use Rattle.qm_model.specs.Grafted as grafted;
ghost use Rattle.qm_bits.specs.Bitmaps.{bit_count, all_bits};
ghost use Rattle.qm_merkle.specs.Mems.{more};
ghost use Rattle.qm_chunks.specs.Views.{partial_view};
ghost use Rattle.qm_graft.specs.Grafting.{grafting};
ghost use Rattle.qm_graft.specs.Trees.{HoldsPeaks, TellsPeaks};

use crate::grafted::height;
use qm_base::{Digest, Hasher, Location};
use qm_bits::{Chunks, Readable};
use qm_chunks::Graftable;
use qm_chunks::chunks::{grafted_inactive, pending_chunk};
use qm_chunks::digests::{canonical_root, chunk_digest, grafted_root};
use qm_merkle::{Family, Position, StandardHasher};
use qm_proofs::Nodes;
use std::alloc::{AllocError, Global};

// What is held at positions.
fn held_at<F: Family, D: Digest, V: Nodes<F, D>>(
    alloc: Global,
    view: &V,
    positions: &[Position<F>],
) -> Result<Vec<D>, AllocError>
    requires { All (λ p. IsSome (V.node_at view.now p)) positions.now }
    ensures { IfOk result (λ v. map Some v.items ≡ map (V.node_at view.now) positions.now) }
{
    let mut found = Vec::with_capacity(alloc, positions.len())?;
    for position in positions {
        found.push(view.get_node(*position).unwrap())?;
    }
    Ok(found)
}

// The values of the peaks over so many leaves.
fn peak_values<F: Family, D: Digest, V: Nodes<F, D>>(
    alloc: Global,
    view: &V,
    leaves: Location<F>,
) -> Result<Vec<D>, AllocError>
    requires few { leaves ≤ 2 ^ 62 }
    requires held { HoldsPeaks (V.node_at view.now) F.shape leaves }
    ensures held { IfOk result (λ v.
        map Some v.items ≡ map (V.node_at view.now) (trees.peak_positions F.shape leaves)) }
    ensures count { IfOk result (λ v. length v.items ≡ length (trees.peaks F.shape leaves)) }
{
    let positions = F::nodes_to_pin(alloc, leaves)?;
    held_at(alloc, view, &positions)
}

/// The grafted root of a list, whose first peaks end at or below the chunk of its floor, from the values of the peaks that a view of
/// its trees holds. Want of memory is the only error.
pub fn root_of<F: Graftable, N: Chunks, H: Hasher, V: Nodes<F, H::Digest>>(
    alloc: Global,
    hasher: &mut StandardHasher<H>,
    view: &V,
    leaves: Location<F>,
    floor: Location<F>,
) -> Result<H::Digest, AllocError>
    requires few { leaves ≤ 2 ^ 62 }
    requires held { HoldsPeaks (V.node_at view.now) F.shape leaves }
    ensures root { (form : Form) (ops : List Operation) → leaves ≡ length ops
        → floor ≡ live.floor ops
        → TellsPeaks H.Digest.bytes H.hash (V.node_at view.now) F.shape (grafting N.LEN)
        (trees.leaves_from H.hash F.shape form 0 ops) (grafted.chunk_of (grafting N.LEN) ops)
        → IfOk result (λ d.
        H.Digest.bytes d ≡ grafted.grafted_root H.hash F.shape (grafting N.LEN) form ops) }
    ensures made { OnOk result
        (hasher.new ≡ more hasher.old (max 1 (length (trees.peaks F.shape leaves)))) }
{
    let values = peak_values(alloc, view, leaves)?;
    let inactive = grafted_inactive(height::<N>(), leaves, floor);
    Ok(grafted_root(hasher, leaves, inactive, &values))
}

/// The digest of the pending chunk, if there is one. Want of memory is the only error.
pub fn pending_digest<F: Graftable, N: Chunks, H: Hasher, B: Readable<N>>(
    alloc: Global,
    hasher: &mut StandardHasher<H>,
    bits: &B,
) -> Result<Option<H::Digest>, AllocError>
    requires few { bit_count N.LEN (B.bitmap bits.now) ≤ 2 ^ 62 }
    requires kept { (c : ℕ)
        → grafted.pending_chunk F.shape (grafting N.LEN) (bit_count N.LEN (B.bitmap bits.now))
        ≡ Some c
        → (B.bitmap bits.now).pruned ≤ c }
    ensures digest { IfOk result (λ d. option_map H.Digest.bytes d
        ≡ option_map (λ c. H.hash (activity.chunk N.LEN (all_bits N.LEN (B.bitmap bits.now)) c))
        (grafted.pending_chunk F.shape (grafting N.LEN) (bit_count N.LEN (B.bitmap bits.now)))) }
    ensures made { OnOk result ((n : ℕ) × (n ≤ 1) × (hasher.new ≡ more hasher.old n)) }
{
    match pending_chunk::<F>(height::<N>(), bits.len()) {
        None => Ok(None),
        Some(at) => {
            let chunk = bits.get_chunk(alloc, at as usize)?;
            Ok(Some(chunk_digest(hasher, &chunk)))
        }
    }
}

/// The number of bits of the partial chunk, if there is one, and its digest. Want of memory is the only error.
pub fn partial_digest<N: Chunks, H: Hasher, B: Readable<N>>(
    alloc: Global,
    hasher: &mut StandardHasher<H>,
    bits: &B,
) -> Result<Option<(u64, H::Digest)>, AllocError>
    ensures digest { IfOk result (λ d. partial_view H.Digest.bytes d
        ≡ option_map (λ c. (
          bit_count N.LEN (B.bitmap bits.now) % (8 * N.LEN),
          H.hash
              (activity.chunk N.LEN (all_bits N.LEN (B.bitmap bits.now)) c),
        ))
        (activity.partial_chunk (8 * N.LEN) (bit_count N.LEN (B.bitmap bits.now)))) }
    ensures made { OnOk result ((n : ℕ) × (n ≤ 1) × (hasher.new ≡ more hasher.old n)) }
{
    let (chunk, count) = bits.last_chunk(alloc)?;
    if count == 0 {
        return Ok(None);
    }
    let digest = chunk_digest(hasher, &chunk);
    Ok(Some((count, digest)))
}

/// The canonical root of a list: over the root of its operations, the values of the peaks that a view of its trees holds, and its
/// bits, of which there is one for each operation. Beside the digests that fold the peaks, three are made at most: of the pending
/// chunk, of the partial one, and the root. Want of memory is the only error.
pub fn compute_db_root<F: Graftable, N: Chunks, H: Hasher, V: Nodes<F, H::Digest>, B: Readable<N>>(
    alloc: Global,
    hasher: &mut StandardHasher<H>,
    ops_root: &H::Digest,
    view: &V,
    bits: &B,
    floor: Location<F>,
) -> Result<H::Digest, AllocError>
    requires few { bit_count N.LEN (B.bitmap bits.now) ≤ 2 ^ 62 }
    requires held { HoldsPeaks (V.node_at view.now) F.shape (bit_count N.LEN (B.bitmap bits.now)) }
    requires kept { (c : ℕ)
        → grafted.pending_chunk F.shape (grafting N.LEN) (bit_count N.LEN (B.bitmap bits.now))
        ≡ Some c
        → (B.bitmap bits.now).pruned ≤ c }
    ensures canonical { (form : Form) (ops : List Operation)
        → all_bits N.LEN (B.bitmap bits.now) ≡ activity.bits ops → floor ≡ live.floor ops
        → H.Digest.bytes ops_root.now ≡ trees.ops_root H.hash F.shape form ops
        → TellsPeaks H.Digest.bytes H.hash (V.node_at view.now) F.shape (grafting N.LEN)
        (trees.leaves_from H.hash F.shape form 0 ops) (grafted.chunk_of (grafting N.LEN) ops)
        → IfOk result (λ d.
        H.Digest.bytes d ≡ grafted.canonical H.hash F.shape (grafting N.LEN) form ops) }
    ensures made { OnOk result ((n : ℕ) × (n ≤ 3)
        × (hasher.new
        ≡ more hasher.old
        (max 1 (length (trees.peaks F.shape (bit_count N.LEN (B.bitmap bits.now)))) + n))) }
{
    let leaves = Location::new(bits.len());
    let grafted = root_of::<F, N, H, V>(alloc, hasher, view, leaves, floor)?;
    let pending = pending_digest::<F, N, H, B>(alloc, hasher, bits)?;
    let partial = partial_digest(alloc, hasher, bits)?;
    Ok(canonical_root(hasher, ops_root, &grafted, pending, partial))
}
