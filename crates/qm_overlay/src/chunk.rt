//! One chunk of bits in bytes.

ghost use Rattle.std.specs.Prelude.{◌≡◌, ◌≢◌, ℕ, ◌+◌, ◌-◌, ◌*◌, ◌<◌, ◌≤◌, if◌then◌else◌, set, length, slice_index_or, replicate, false, IfOk};
ghost use Rattle.std.specs.Int.{bit_at};
ghost use Rattle.qm_model.specs.Bits.{packed, chunk, has_bit};
ghost use Rattle.qm_bits.specs.Bitmaps.{all_bits};
ghost use Rattle.qm_overlay.specs.Layers.{bits_in, IsWhole};

use qm_bits::{Chunks, Readable};
use std::alloc::{AllocError, Global};
use std::marker::{Model, PhantomData};

// A chunk's bits, the first bit of a byte its lowest.
#[derive(Drop)]
pub struct Chunk<N: Chunks> {
    bytes: Vec<u8>,
    length: PhantomData<N>,
}

impl<N: Chunks> Model for Chunk<N> {
    ghost use Rattle.std.specs.Prelude.{List, Bool, ◌*◌};
    ghost use Rattle.qm_overlay.specs.Layers.{bits_in, IsWhole};

    ghost Value = { List Bool };

    ghost view = { λ c. bits_in (8 * N.LEN) c.bytes.items };

    ghost invariant = { λ c. IsWhole N.LEN c.bytes.items };
}

impl<N: Chunks> Chunk<N> {
    // The chunk of these bytes.
    fn of(bytes: Vec<u8>) -> Self
        requires { IsWhole N.LEN bytes.items }
        ensures { result ≡ bits_in (8 * N.LEN) bytes.items }
    {
        Chunk {
            bytes,
            length: PhantomData,
        }
    }

    // The bytes.
    pub(crate) fn bytes(&self) -> &[u8]
        ensures { result.now ≡ packed N.LEN self.now }
    {
        &self.bytes
    }

    // Sets or clears the bit at a place.
    pub(crate) fn put(&mut self, at: usize, value: bool)
        requires { at < 8 * N.LEN }
        ensures bits { self.new ≡ set self.old at value }
        ensures long { length self.old ≡ 8 * N.LEN }
    {
        self.bytes[at / 8] = with_bit(self.bytes[at / 8], at % 8, value);
    }

    // The bit at a place.
    pub(crate) fn get(&self, at: usize) -> bool
        requires { at < 8 * N.LEN }
        ensures { result ≡ slice_index_or self.now at false }
    {
        (self.bytes[at / 8] >> (at % 8)) & 1 == 1
    }

    // A chunk of other bits that is not pruned there, of clear ones if they have none. Want of memory is the only error.
    pub(crate) fn read<B: Readable<N>>(
        alloc: Global,
        base: &B,
        at: usize,
    ) -> Result<Self, AllocError>
        requires { (B.bitmap base.now).pruned ≤ at }
        ensures { IfOk result (λ read. (i : ℕ) → i < 8 * N.LEN
            → slice_index_or read i false
            ≡ slice_index_or (all_bits N.LEN (B.bitmap base.now)) (at * (8 * N.LEN) + i) false) }
    {
        Ok(Self::of(chunk_of(alloc, base, at)?))
    }
}

// The byte with that bit set or clear.
fn with_bit(byte: u8, at: usize, value: bool) -> u8
    requires { at < 8 }
    ensures here { bit_at result at ≡ (if value then 1 else 0) }
    ensures others { (i : ℕ) → i < 8 → i ≢ at → bit_at result i ≡ bit_at byte i }
{
    let mask = 1 << at;
    if value { byte | mask } else { byte & !mask }
}

// The bytes of a chunk that is not pruned, zeros where no bit is. Want of memory is the only error.
pub(crate) fn chunk_of<N: Chunks, B: Readable<N>>(
    alloc: Global,
    base: &B,
    at: usize,
) -> Result<Vec<u8>, AllocError>
    requires { (B.bitmap base.now).pruned ≤ at }
    ensures { IfOk result (λ bytes.
        bytes.items ≡ chunk N.LEN (all_bits N.LEN (B.bitmap base.now)) at) }
{
    let complete = base.complete_chunks();
    if at < complete {
        return base.get_chunk(alloc, at);
    }
    if at == complete {
        let (bytes, _) = base.last_chunk(alloc)?;
        return Ok(bytes);
    }
    zeros(alloc, (N::span() / 8) as usize)
}

// So many zeros.
fn zeros(alloc: Global, count: usize) -> Result<Vec<u8>, AllocError>
    ensures { IfOk result (λ bytes. bytes.items ≡ replicate count 0) }
{
    let mut bytes = Vec::new(alloc);
    bytes.resize(count, 0)?;
    Ok(bytes)
}
