//! Bits from the first chunk that is kept.

ghost use Rattle.std.specs.Prelude.{◌≡◌, ◌⊎◌, ◌+◌, ◌-◌, ◌*◌, ◌/◌, ◌^◌, ◌<◌, ◌≤◌, ℕ, [], ◌∷◌, ◌++◌, true, false, length, set, max, drop, replicate, slice_index_or, OnOk, OnErr, IfOk};
ghost use Rattle.qm_model.specs.Bits.{chunk};
ghost use Rattle.qm_bits.specs.Bitmaps.{start, bit_count, all_bits};
ghost use Rattle.qm_bits.specs.Candidates.{is_candidate};

use crate::bitmap::BitMap;
use crate::chunks::Chunks;
use std::alloc::{AllocError, Global};
use std::marker::{Model, PhantomData};

/// One bit for each location of a list, in chunks of which the first ones may be pruned: they are no longer kept, and count. Places are counted from the list's first bit.
#[derive(Drop)]
pub struct Prunable<N: Chunks> {
    bits: BitMap,
    pruned: usize,
    chunks: PhantomData<N>,
}

impl<N: Chunks> Model for Prunable<N> {
    ghost use Rattle.std.specs.Prelude.{◌+◌, ◌*◌, ◌^◌, ◌≤◌, length};
    ghost use Rattle.qm_bits.specs.Bitmaps.{Bitmap};

    ghost Value = { Bitmap };

    ghost view = { λ b. record { pruned = b.pruned; kept = b.bits } };

    ghost invariant = { λ b. b.pruned * (8 * N.LEN) + length b.bits ≤ 2 ^ 62 };
}

impl<N: Chunks> Prunable<N> {
    /// No bits. It takes no memory yet.
    pub fn new(alloc: Global) -> Self
        ensures { result ≡ record { pruned = 0; kept = [] } }
    {
        Self::new_with_pruned_chunks(alloc, 0)
    }

    /// So many pruned chunks, and no bit after them. It takes no memory yet.
    pub fn new_with_pruned_chunks(alloc: Global, chunks: usize) -> Self
        requires { chunks * (8 * N.LEN) ≤ 2 ^ 62 }
        ensures { result ≡ record { pruned = chunks; kept = [] } }
    {
        Prunable {
            bits: BitMap::new(alloc),
            pruned: chunks,
            chunks: PhantomData,
        }
    }

    /// How many bits there are, with the pruned ones: at most 2^62.
    pub fn len(&self) -> u64
        ensures value { result ≡ bit_count N.LEN self.now }
        ensures bounded { result ≤ 2 ^ 62 }
    {
        self.start() + self.bits.len()
    }

    /// How many chunks are pruned.
    pub fn pruned_chunks(&self) -> usize
        ensures { result ≡ self.now.pruned }
    {
        self.pruned
    }

    // Where the kept bits begin.
    fn start(&self) -> u64
        ensures value { result ≡ start N.LEN self.now }
        ensures bounded { result ≤ 2 ^ 62 }
    {
        self.pruned as u64 * N::span()
    }

    /// The bit at a place.
    pub fn get_bit(&self, at: u64) -> bool
        requires kept { start N.LEN self.now ≤ at }
        requires within { at < bit_count N.LEN self.now }
        ensures { result ≡ slice_index_or self.now.kept (at - start N.LEN self.now) false }
    {
        self.bits.get_bit(at - self.start())
    }

    /// Sets or clears the bit at a place.
    pub fn set_bit(&mut self, at: u64, value: bool)
        requires kept { start N.LEN self.old ≤ at }
        requires within { at < bit_count N.LEN self.old }
        ensures { self.new
            ≡ record {
              pruned = self.old.pruned;
              kept = set self.old.kept
                  (at - start N.LEN self.old) value;
            } }
    {
        let place = at - self.start();
        self.bits.set_bit(place, value);
    }

    /// Sets the bit at a place that is kept; elsewhere nothing changes.
    pub fn mark(&mut self, at: u64)
        ensures pruned { self.new.pruned ≡ self.old.pruned }
        ensures count { bit_count N.LEN self.new ≡ bit_count N.LEN self.old }
        ensures bits { start N.LEN self.old ≤ at
            → all_bits N.LEN self.new ≡ set (all_bits N.LEN self.old) at true }
    {
        if self.is_kept(at) {
            self.set_bit(at, true);
        }
    }

    /// Clears the bit at a place. If none is kept nothing changes: pruned bits are clear.
    pub fn unmark(&mut self, at: u64)
        ensures pruned { self.new.pruned ≡ self.old.pruned }
        ensures count { bit_count N.LEN self.new ≡ bit_count N.LEN self.old }
        ensures bits { all_bits N.LEN self.new ≡ set (all_bits N.LEN self.old) at false }
    {
        if self.is_kept(at) {
            self.set_bit(at, false);
        }
    }

    // Whether the bit at a place is kept.
    fn is_kept(&self, at: u64) -> bool
        ensures yes { result ≡ true
            → (start N.LEN self.now ≤ at) × (at < bit_count N.LEN self.now) }
        ensures no { result ≡ false
            → (at < start N.LEN self.now) ⊎ (bit_count N.LEN self.now ≤ at) }
    {
        self.start() <= at && at < self.len()
    }

    /// Puts a bit after the others. Want of memory is the only error, and leaves them as they were.
    pub fn push(&mut self, value: bool) -> Result<(), AllocError>
        requires { bit_count N.LEN self.old < 2 ^ 62 }
        ensures ok { OnOk result
            (self.new ≡ record { pruned = self.old.pruned; kept = self.old.kept ++ value ∷ [] }) }
        ensures err { OnErr result (self.new ≡ self.old) }
    {
        self.bits.push(value)
    }

    /// Puts clear bits after the others until there are `len`. Want of memory is the only error, and leaves them as they were.
    pub fn extend_to(&mut self, len: u64) -> Result<(), AllocError>
        requires not_below { bit_count N.LEN self.old ≤ len }
        requires bounded { len ≤ 2 ^ 62 }
        ensures ok { OnOk result (self.new
            ≡ record {
              pruned = self.old.pruned;
              kept = self.old.kept
                  ++ replicate (len - bit_count N.LEN self.old) false;
            }) }
        ensures err { OnErr result (self.new ≡ self.old) }
    {
        let length = len - self.start();
        self.bits.extend_to(length)
    }

    /// Prunes the chunks that end at or before a place; those that are pruned already stay pruned. It takes no memory.
    pub fn prune_to_bit(&mut self, at: u64)
        requires { at ≤ bit_count N.LEN self.old }
        ensures { self.new
            ≡ record {
              pruned = max self.old.pruned (at / (8 * N.LEN));
              kept = drop
                  ((at / (8 * N.LEN) - self.old.pruned) * (8 * N.LEN)) self.old.kept;
            } }
    {
        let span = N::span();
        let chunks = (at / span) as usize;
        if self.pruned < chunks {
            let bits = (chunks - self.pruned) as u64 * span;
            self.bits.drop_words((bits / 64) as usize);
            self.pruned = chunks;
        }
    }

    // The first candidate from a place on, or the tip if there is none before it. Clear bits are passed 64 in a step.
    pub(crate) fn next_candidate(&self, from: u64, tip: u64) -> u64
        requires { from ≤ tip }
        ensures between { (from ≤ result) × (result ≤ tip) }
        ensures clear { (i : ℕ) → from ≤ i → i < result
            → is_candidate (all_bits N.LEN self.now) i ≡ false }
        ensures found { result < tip → is_candidate (all_bits N.LEN self.now) result ≡ true }
    {
        let start = self.start();
        let end = tip.min(self.len());
        let first = from.max(start);
        if end <= first {
            return from.max(end);
        }
        start + self.bits.next_set(first - start, end - start)
    }

    // The bytes of a chunk that is not pruned, zeros after the last bit.
    pub(crate) fn chunk_bytes(&self, alloc: Global, at: usize) -> Result<Vec<u8>, AllocError>
        requires not_pruned { self.now.pruned ≤ at }
        requires begun { at * (8 * N.LEN) ≤ bit_count N.LEN self.now }
        ensures { IfOk result (λ bytes. bytes.items ≡ chunk N.LEN (all_bits N.LEN self.now) at) }
    {
        let span = N::span();
        let first = (at - self.pruned) as u64 * span / 64;
        self.bits.bytes(alloc, first as usize, (span / 64) as usize)
    }
}
