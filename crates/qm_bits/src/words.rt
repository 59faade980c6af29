//! Bits in words.

ghost use Rattle.std.specs.Prelude.{◌≡◌, ◌≢◌, ℕ, ◌*◌, ◌^◌, ◌<◌, ◌≤◌, true, false, if◌then◌else◌, List, Bool, ◌+◌, length, drop, slice_index, slice_index_or, IfOk, OnOk, OnErr};
ghost use Rattle.qm_model.specs.Bits.{packed};
ghost use Rattle.std.specs.Int.{bit_at};
ghost use Rattle.qm_bits.specs.Words.{is_set};

use std::alloc::{AllocError, Global};

// Whether a bit is set.
pub(crate) fn get(words: &[u64], at: usize) -> bool
    requires { at < 64 * length words.now }
    ensures { result ≡ is_set words.now at }
{
    (words[at / 64] >> (at % 64)) & 1 == 1
}

// Sets or clears a bit.
pub(crate) fn put(words: &mut Vec<u64>, at: usize, value: bool)
    requires { at < 64 * length words.old.items }
    ensures len { length words.new.items ≡ length words.old.items }
    ensures here { is_set words.new.items at ≡ value }
    ensures others { (i : ℕ) → i ≢ at → is_set words.new.items i ≡ is_set words.old.items i }
{
    words[at / 64] = with_bit(words[at / 64], at % 64, value);
}

// The word with that bit set or clear.
fn with_bit(word: u64, at: usize, value: bool) -> u64
    requires { at < 64 }
    ensures here { bit_at result at ≡ (if value then 1 else 0) }
    ensures others { (i : ℕ) → i < 64 → i ≢ at → bit_at result i ≡ bit_at word i }
{
    let mask = 1 << at;
    if value { word | mask } else { word & !mask }
}

// The first set bit from a place on, or the end if all are clear; 64 clear ones are passed in one step.
pub(crate) fn next_set(words: &[u64], from: usize, end: usize) -> usize
    requires within { end ≤ 64 * length words.now }
    requires small { end ≤ 2 ^ 62 }
    requires order { from ≤ end }
    ensures between { (from ≤ result) × (result ≤ end) }
    ensures clear { (i : ℕ) → from ≤ i → i < result → is_set words.now i ≡ false }
    ensures set { result < end → is_set words.now result ≡ true }
{
    let mut at = from;
    while at < end {
        let rest = words[at / 64] >> (at % 64);
        if rest != 0 {
            return end.min(at + rest.trailing_zeros() as usize);
        }
        at = (at / 64 + 1) * 64;
    }
    end
}

// Puts words of clear bits after the others until so many bits have room. Want of memory leaves them as they were.
pub(crate) fn hold(words: &mut Vec<u64>, bits: usize) -> Result<(), AllocError>
    ensures ok { OnOk result (bits ≤ 64 * length words.new.items) }
    ensures same { (i : ℕ) → is_set words.new.items i ≡ is_set words.old.items i }
    ensures err { OnErr result (words.new.items ≡ words.old.items) }
{
    let count = bits.div_ceil(64);
    if words.len() < count {
        words.resize(count, 0)?;
    }
    Ok(())
}

// Drops so many words at the front.
pub(crate) fn drop_first(words: &mut Vec<u64>, count: usize)
    requires { count ≤ length words.old.items }
    ensures { words.new.items ≡ drop count words.old.items }
{
    words.rotate_left(count);
    let left = words.len() - count;
    words.truncate(left);
}

// The word at a place, 0 if none is left.
fn word_at(words: &[u64], at: usize) -> u64
    ensures { result ≡ slice_index words.now at }
{
    match words.get(at) {
        Some(word) => *word,
        None => 0,
    }
}

// The bytes of so many words from one on, zeros where no word is left.
pub(crate) fn bytes(
    alloc: Global,
    words: &[u64],
    first: usize,
    count: usize,
) -> Result<Vec<u8>, AllocError>
    requires { first + count ≤ 2 ^ 60 }
    ensures { IfOk result (λ bytes. (bits : List Bool)
        → ((i : ℕ) → i < 64 * count
        → slice_index_or bits i false ≡ is_set words.now (64 * first + i))
        → bytes.items ≡ packed (8 * count) bits) }
{
    let mut bytes = Vec::with_capacity(alloc, count * 8)?;
    for k in 0..count {
        bytes.extend_from_slice(&word_at(words, first + k).to_le_bytes())?;
    }
    Ok(bytes)
}
