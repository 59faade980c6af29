//! Steps over a bitmap that is lent.

ghost use Rattle.std.specs.Prelude.{◌≡◌, ◌*◌, ◌/◌, ◌%◌, ◌^◌, ◌<◌, ◌≤◌, ◌∷◌, ◌++◌, [], ℕ, true, false, List, map, slice_index_or, IfOk, OnOk, OnErr};
ghost use Rattle.qm_model.specs.Bits.{chunk};
ghost use Rattle.qm_bits.specs.Bitmaps.{start, bit_count, all_bits};
ghost use Rattle.qm_bits.specs.Candidates.{is_candidate};
ghost use Rattle.qm_overlay.specs.Layers.{laid, layered, seen, AreStacked};

use crate::chunk::chunk_of;
use crate::overlay::ChunkOverlay;
use qm_bits::{Candidates, Chunks, Prunable, Readable};
use std::alloc::{AllocError, Global};
use std::marker::Model;
use std::rc::Rc;

/// A bitmap that is lent, and the steps over it, the oldest first. It takes a pointer for each step; the steps are shared.
#[derive(Drop)]
pub struct BitmapBatch<'a, N: Chunks> {
    base: &'a Prunable<N>,
    layers: Vec<Rc<ChunkOverlay<N>>>,
}

impl<'a, N: Chunks> Model for BitmapBatch<'a, N> {
    ghost use Rattle.std.specs.Prelude.{map};
    ghost use Rattle.qm_overlay.specs.Layers.{Batch, AreStacked};

    ghost Value = { Batch };

    ghost view = { λ b. record { base = b.base.now; layers = map (λ r. r.value) b.layers.items } };

    ghost invariant = { λ b. AreStacked N.LEN (map (λ r. r.value) b.layers.items) b.base.now };
}

impl<'a, N: Chunks> BitmapBatch<'a, N> {
    /// The bitmap itself, with no step over it. It takes no memory yet.
    pub fn new(alloc: Global, base: &'a Prunable<N>) -> Self
        ensures { result ≡ record { base = base.now; layers = [] } }
    {
        BitmapBatch {
            base,
            layers: Vec::new(alloc),
        }
    }

    /// Puts a step over the others. Want of memory is the only error, and leaves all as it was.
    pub fn push(&mut self, layer: Rc<ChunkOverlay<N>>) -> Result<(), AllocError>
        requires { bit_count N.LEN (seen N.LEN self.old) ≤ layer.value.count }
        ensures ok { OnOk result (self.new
            ≡ record { base = self.old.base; layers = self.old.layers ++ layer.value ∷ [] }) }
        ensures bits { OnOk result
            (seen N.LEN self.new ≡ laid N.LEN layer.value (seen N.LEN self.old)) }
        ensures err { OnErr result (self.new ≡ self.old) }
    {
        self.layers.push(layer)?;
        Ok(())
    }

    /// The bit at a place: it looks into each step, the newest first, up to one that changes the chunk.
    pub fn get_bit(&self, at: u64) -> bool
        requires kept { start N.LEN (seen N.LEN self.now) ≤ at }
        requires within { at < bit_count N.LEN (seen N.LEN self.now) }
        ensures { result ≡ slice_index_or (all_bits N.LEN (seen N.LEN self.now)) at false }
    {
        bit_behind(self.base, &self.layers, at)
    }

    // Whether the location of a place may hold a live update.
    fn is_candidate(&self, at: u64) -> bool
        ensures { result ≡ is_candidate (all_bits N.LEN (seen N.LEN self.now)) at }
    {
        if Readable::<N>::len(self) <= at {
            return true;
        }
        if at / N::span() < Readable::<N>::pruned_chunks(self) as u64 {
            return false;
        }
        self.get_bit(at)
    }

    /// The steps, the oldest first: `commit` puts them into the bitmap, once it is no longer lent.
    pub fn into_layers(self) -> Vec<Rc<ChunkOverlay<N>>>
        ensures layers { map (λ r. r.value) result.items ≡ self.entry.layers }
        ensures stacked { AreStacked N.LEN self.entry.layers self.entry.base }
    {
        self.layers
    }

    // The bytes of a chunk that is not pruned, zeros after the last bit.
    fn chunk(&self, alloc: Global, at: usize) -> Result<Vec<u8>, AllocError>
        requires { (seen N.LEN self.now).pruned ≤ at }
        ensures { IfOk result (λ bytes.
            bytes.items ≡ chunk N.LEN (all_bits N.LEN (seen N.LEN self.now)) at) }
    {
        chunk_over(alloc, self.base, &self.layers, at)
    }
}

impl<'a, N: Chunks> Readable<N> for BitmapBatch<'a, N> {
    ghost bitmap = { seen N.LEN };

    fn len(&self) -> u64
        ensures { result ≡ bit_count N.LEN (seen N.LEN self.now) }
    {
        let count = self.layers.len();
        if count == 0 {
            return self.base.len();
        }
        self.layers[count - 1].len()
    }

    fn complete_chunks(&self) -> usize
        ensures { result ≡ bit_count N.LEN (seen N.LEN self.now) / (8 * N.LEN) }
    {
        (Readable::<N>::len(self) / N::span()) as usize
    }

    fn pruned_chunks(&self) -> usize
        ensures { result ≡ (seen N.LEN self.now).pruned }
    {
        self.base.pruned_chunks()
    }

    fn get_chunk(&self, alloc: Global, at: usize) -> Result<Vec<u8>, AllocError>
        requires not_pruned { (seen N.LEN self.now).pruned ≤ at }
        requires complete { at < bit_count N.LEN (seen N.LEN self.now) / (8 * N.LEN) }
        ensures { IfOk result (λ bytes.
            bytes.items ≡ chunk N.LEN (all_bits N.LEN (seen N.LEN self.now)) at) }
    {
        self.chunk(alloc, at)
    }

    fn last_chunk(&self, alloc: Global) -> Result<(Vec<u8>, u64), AllocError>
        ensures bytes { IfOk result (λ last. last.0.items
            ≡ chunk N.LEN (all_bits N.LEN (seen N.LEN self.now))
            (bit_count N.LEN (seen N.LEN self.now) / (8 * N.LEN))) }
        ensures bits { IfOk result (λ last.
            last.1 ≡ bit_count N.LEN (seen N.LEN self.now) % (8 * N.LEN)) }
    {
        let len = Readable::<N>::len(self);
        let span = N::span();
        let bytes = self.chunk(alloc, (len / span) as usize)?;
        Ok((bytes, len % span))
    }
}

impl<'a, F, N: Chunks> Candidates<F> for BitmapBatch<'a, N> {
    ghost activity = { λ b. all_bits N.LEN (seen N.LEN b) };

    /// It asks for the bit of each location below the bits' number, one after another.
    fn next_candidate(&self, from: u64, tip: u64) -> u64 {
        let mut at = from;
        while at < tip {
            if self.is_candidate(at) {
                return at;
            }
            at += 1;
        }
        at
    }
}

// The bytes of a chunk that is not pruned, after these steps over a bitmap.
fn chunk_over<N: Chunks>(
    alloc: Global,
    base: &Prunable<N>,
    layers: &[Rc<ChunkOverlay<N>>],
    at: usize,
) -> Result<Vec<u8>, AllocError>
    requires stacked { AreStacked N.LEN (map (λ r. r.value) layers.now) base.now }
    requires kept { base.now.pruned ≤ at }
    ensures { IfOk result (λ bytes. bytes.items
        ≡ chunk N.LEN (all_bits N.LEN (layered N.LEN (map (λ r. r.value) layers.now) base.now))
        at) }
{
    let mut left = layers.len();
    while left > 0 {
        left -= 1;
        if let Some(bytes) = layers[left].get(at) {
            return bytes.to_vec(alloc);
        }
    }
    chunk_of(alloc, base, at)
}

// The bit at a place that is not pruned, after these steps over a bitmap.
fn bit_behind<N: Chunks>(base: &Prunable<N>, layers: &[Rc<ChunkOverlay<N>>], at: u64) -> bool
    requires stacked { AreStacked N.LEN (map (λ r. r.value) layers.now) base.now }
    requires kept { start N.LEN base.now ≤ at }
    ensures { result
        ≡ slice_index_or (all_bits N.LEN (layered N.LEN (map (λ r. r.value) layers.now) base.now))
        at false }
{
    let mut left = layers.len();
    while left > 0 {
        left -= 1;
        if let Some(bit) = layers[left].bit(at) {
            return bit;
        }
    }
    if base.len() <= at {
        return false;
    }
    base.get_bit(at)
}
