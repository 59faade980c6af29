//! Bits in a row.

ghost use Rattle.std.specs.Prelude.{◌≡◌, ◌+◌, ◌-◌, ◌*◌, ◌^◌, ◌<◌, ◌≤◌, ℕ, [], ◌∷◌, ◌++◌, true, false, length, set, drop, replicate, slice_index_or, OnOk, OnErr, IfOk};
ghost use Rattle.qm_model.specs.Bits.{packed};

use crate::words;
use std::alloc::{AllocError, Global};
use std::marker::Model;

/// A list of bits that grows at its end, at most 2^62 of them, 64 in a word.
#[derive(Drop)]
pub struct BitMap {
    words: Vec<u64>,
    length: u64,
}

impl Model for BitMap {
    ghost use Rattle.std.specs.Prelude.{List, Bool};
    ghost use Rattle.qm_bits.specs.Words.{bits_of, AreHeld};

    ghost Value = { List Bool };

    ghost view = { λ b. bits_of b.length b.words.items };

    ghost invariant = { λ b. AreHeld b.length b.words.items };
}

impl BitMap {
    /// No bits. It takes no memory yet.
    pub fn new(alloc: Global) -> Self
        ensures { result ≡ [] }
    {
        BitMap {
            words: Vec::new(alloc),
            length: 0,
        }
    }

    /// How many bits there are.
    pub fn len(&self) -> u64
        ensures value { result ≡ length self.now }
        ensures bounded { result ≤ 2 ^ 62 }
    {
        self.length
    }

    /// The bit at a place.
    pub fn get_bit(&self, at: u64) -> bool
        requires { at < length self.now }
        ensures { result ≡ slice_index_or self.now at false }
    {
        words::get(&self.words, at as usize)
    }

    /// Sets or clears the bit at a place.
    pub fn set_bit(&mut self, at: u64, value: bool)
        requires { at < length self.old }
        ensures { self.new ≡ set self.old at value }
    {
        words::put(&mut self.words, at as usize, value);
    }

    /// Puts a bit after the others. Want of memory is the only error, and leaves them as they were.
    pub fn push(&mut self, value: bool) -> Result<(), AllocError>
        requires { length self.old < 2 ^ 62 }
        ensures ok { OnOk result (self.new ≡ self.old ++ value ∷ []) }
        ensures err { OnErr result (self.new ≡ self.old) }
    {
        let at = self.len();
        self.extend_to(at + 1)?;
        self.set_bit(at, value);
        Ok(())
    }

    /// Puts clear bits after the others until there are `len`. Want of memory is the only error, and leaves them as they were.
    pub fn extend_to(&mut self, len: u64) -> Result<(), AllocError>
        requires not_below { length self.old ≤ len }
        requires bounded { len ≤ 2 ^ 62 }
        ensures ok { OnOk result (self.new ≡ self.old ++ replicate (len - length self.old) false) }
        ensures err { OnErr result (self.new ≡ self.old) }
    {
        words::hold(&mut self.words, len as usize)?;
        self.length = len;
        Ok(())
    }

    // Drops the bits of so many words at the front. It takes no memory.
    pub(crate) fn drop_words(&mut self, count: usize)
        requires { 64 * count ≤ length self.old }
        ensures { self.new ≡ drop (64 * count) self.old }
    {
        words::drop_first(&mut self.words, count);
        self.length -= count as u64 * 64;
    }

    // The first set bit from a place on, or the end if all are clear.
    pub(crate) fn next_set(&self, from: u64, end: u64) -> u64
        requires order { from ≤ end }
        requires within { end ≤ length self.now }
        ensures between { (from ≤ result) × (result ≤ end) }
        ensures clear { (i : ℕ) → from ≤ i → i < result → slice_index_or self.now i false ≡ false }
        ensures set { result < end → slice_index_or self.now result false ≡ true }
    {
        words::next_set(&self.words, from as usize, end as usize) as u64
    }

    // The bytes of the bits in so many words from one on, zeros after the last bit.
    pub(crate) fn bytes(
        &self,
        alloc: Global,
        first: usize,
        count: usize,
    ) -> Result<Vec<u8>, AllocError>
        requires { first + count ≤ 2 ^ 60 }
        ensures { IfOk result (λ bytes.
            bytes.items ≡ packed (8 * count) (drop (64 * first) self.now)) }
    {
        words::bytes(alloc, &self.words, first, count)
    }
}
