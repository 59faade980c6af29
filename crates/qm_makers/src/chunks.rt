//! The chunks of locations.

ghost use Rattle.std.specs.Prelude.{◌≡◌, ◌≤◌, ◌<◌, ◌*◌, ◌/◌, ◌^◌, IfOk};
ghost use Rattle.qm_model.specs.Bits as activity;
ghost use Rattle.qm_model.specs.RangeProofs.{chunks_from, touched_chunks};
ghost use Rattle.qm_bits.specs.Bitmaps.{all_bits, bit_count};
ghost use Rattle.qm_graft.specs.Grafting.{grafting};
ghost use Rattle.qm_keyproofs.specs.Views.{chunk_views};

use qm_base::Location;
use qm_bits::{Chunks, Prunable, Readable};
use qm_graft::grafted::height;
use qm_keyproofs::ChunkBytes;
use std::alloc::{AllocError, Global};

/// The chunk of this number, which has a bit. Want of memory is the only error.
pub fn chunk_at<N: Chunks>(
    alloc: Global,
    bits: &Prunable<N>,
    at: u64,
) -> Result<ChunkBytes<N>, AllocError>
    requires kept { bits.now.pruned ≤ at }
    requires begun { at * (8 * N.LEN) < bit_count N.LEN bits.now }
    ensures { IfOk result (λ c.
        c.bytes.items ≡ activity.chunk N.LEN (all_bits N.LEN bits.now) at) }
{
    let bytes = bytes_at(alloc, bits, at)?;
    Ok(ChunkBytes::new(bytes).unwrap())
}

// Its bytes.
fn bytes_at<N: Chunks>(alloc: Global, bits: &Prunable<N>, at: u64) -> Result<Vec<u8>, AllocError>
    requires kept { bits.now.pruned ≤ at }
    requires begun { at * (8 * N.LEN) < bit_count N.LEN bits.now }
    ensures { IfOk result (λ bytes.
        bytes.items ≡ activity.chunk N.LEN (all_bits N.LEN bits.now) at) }
{
    if at < bits.complete_chunks() as u64 {
        return bits.get_chunk(alloc, at as usize);
    }
    let (bytes, _) = bits.last_chunk(alloc)?;
    Ok(bytes)
}

/// The chunks of the locations from `start` up to, and without, `end`. Want of memory is the only error.
pub fn chunks_between<N: Chunks>(
    alloc: Global,
    bits: &Prunable<N>,
    start: u64,
    end: u64,
) -> Result<Vec<ChunkBytes<N>>, AllocError>
    requires order { start < end }
    requires within { end ≤ bit_count N.LEN bits.now }
    requires kept { bits.now.pruned * 2 ^ grafting N.LEN ≤ start }
    ensures { IfOk result (λ v. chunk_views v.items
        ≡ chunks_from (activity.chunk N.LEN (all_bits N.LEN bits.now)) (start / 2 ^ grafting N.LEN)
        (touched_chunks (grafting N.LEN) start end)) }
{
    let height = height::<N>();
    let mut chunks = Vec::new(alloc);
    let first = start >> height;
    let past = ((end - 1) >> height) + 1;
    'chunks: for at in first..past {
        chunks.push(chunk_at(alloc, bits, at)?)?;
    }
    Ok(chunks)
}
