//! Chunks of bits as bytes.

ghost use Rattle.std.specs.Prelude.{◌≡◌, ◌*◌, ◌/◌, ◌%◌, ◌<◌, ◌≤◌, IfOk};
ghost use Rattle.qm_model.specs.Bits.{chunk};
ghost use Rattle.qm_bits.specs.Bitmaps.{Bitmap, bit_count, all_bits};

use crate::chunks::Chunks;
use crate::prunable::Prunable;
use std::alloc::{AllocError, Global};

/// Bits that are read by chunks of so many bytes; the first bit of a byte is its lowest.
pub trait Readable<N: Chunks> {
    ghost bitmap: { Self → Bitmap };

    /// How many bits there are, with the pruned ones.
    fn len(&self) -> u64
        ensures { result ≡ bit_count N.LEN (bitmap self.now) };

    /// How many chunks have all their bits, with the pruned ones.
    fn complete_chunks(&self) -> usize
        ensures { result ≡ bit_count N.LEN (bitmap self.now) / (8 * N.LEN) };

    /// How many chunks are pruned.
    fn pruned_chunks(&self) -> usize
        ensures { result ≡ (bitmap self.now).pruned };

    /// The bytes of a complete chunk that is not pruned. Want of memory is the only error.
    fn get_chunk(&self, alloc: Global, at: usize) -> Result<Vec<u8>, AllocError>
        requires not_pruned { (bitmap self.now).pruned ≤ at }
        requires complete { at < bit_count N.LEN (bitmap self.now) / (8 * N.LEN) }
        ensures { IfOk result (λ bytes.
            bytes.items ≡ chunk N.LEN (all_bits N.LEN (bitmap self.now)) at) };

    /// The bytes of the chunk after the complete ones, zeros after its bits, and how many bits it has: none if the bits end with a chunk. Want of memory is the only error.
    fn last_chunk(&self, alloc: Global) -> Result<(Vec<u8>, u64), AllocError>
        ensures bytes { IfOk result (λ last. last.0.items
            ≡ chunk N.LEN (all_bits N.LEN (bitmap self.now))
            (bit_count N.LEN (bitmap self.now) / (8 * N.LEN))) }
        ensures bits { IfOk result (λ last.
            last.1 ≡ bit_count N.LEN (bitmap self.now) % (8 * N.LEN)) };
}

impl<N: Chunks> Readable<N> for Prunable<N> {
    ghost bitmap = { λ b. b };

    fn len(&self) -> u64
        ensures { result ≡ bit_count N.LEN self.now }
    {
        Prunable::len(self)
    }

    fn complete_chunks(&self) -> usize
        ensures { result ≡ bit_count N.LEN self.now / (8 * N.LEN) }
    {
        (Prunable::len(self) / N::span()) as usize
    }

    fn pruned_chunks(&self) -> usize
        ensures { result ≡ self.now.pruned }
    {
        Prunable::pruned_chunks(self)
    }

    fn get_chunk(&self, alloc: Global, at: usize) -> Result<Vec<u8>, AllocError>
        requires not_pruned { self.now.pruned ≤ at }
        requires complete { at < bit_count N.LEN self.now / (8 * N.LEN) }
        ensures { IfOk result (λ bytes. bytes.items ≡ chunk N.LEN (all_bits N.LEN self.now) at) }
    {
        self.chunk_bytes(alloc, at)
    }

    fn last_chunk(&self, alloc: Global) -> Result<(Vec<u8>, u64), AllocError>
        ensures bytes { IfOk result (λ last. last.0.items
            ≡ chunk N.LEN (all_bits N.LEN self.now) (bit_count N.LEN self.now / (8 * N.LEN))) }
        ensures bits { IfOk result (λ last. last.1 ≡ bit_count N.LEN self.now % (8 * N.LEN)) }
    {
        let len = Prunable::len(self);
        let span = N::span();
        let bytes = self.chunk_bytes(alloc, (len / span) as usize)?;
        Ok((bytes, len % span))
    }
}
