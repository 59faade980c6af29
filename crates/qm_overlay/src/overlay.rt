//! The chunks that one step changes.

ghost use Rattle.std.specs.Prelude.{◌≡◌, ◌≢◌, ℕ, map, ◌^◌, ◌+◌, ◌-◌, ◌*◌, ◌/◌, ◌%◌, ◌<◌, ◌≤◌, true, false, [], ◌++◌, Some, set, length, replicate, slice_index_or, IsSome, IfSome, IfOk, OnOk, OnErr};
ghost use Rattle.std.specs.Option.{option_map};
ghost use Rattle.qm_model.specs.Bits.{packed};
ghost use Rattle.qm_bits.specs.Bitmaps.{Bitmap, start, bit_count, all_bits};
ghost use Rattle.qm_overlay.specs.Layers.{Overlay, changed_at, bit_over, laid, longer, IsClearBehind, IsFrom};

use crate::apply::write_chunk;
use crate::chunk::Chunk;
use qm_bits::{Chunks, Prunable, Readable};
use std::alloc::{AllocError, Global};
use std::collections::BTreeMap;
use std::marker::Model;

/// What one step does to bits: each chunk that it changes, whole, and how many bits there are after it. It takes the bytes of a chunk for each changed one, and none for the others.
#[derive(Drop)]
pub struct ChunkOverlay<N: Chunks> {
    changed: BTreeMap<usize, Chunk<N>>,
    len: u64,
}

impl<N: Chunks> Model for ChunkOverlay<N> {
    ghost use Rattle.std.specs.Prelude.{◌^◌, ◌≤◌};
    ghost use Rattle.qm_overlay.specs.Layers.{Overlay, IsClearBehind};

    ghost Value = { Overlay };

    ghost view = { λ o. record { count = o.len; changed = o.changed.entries } };

    ghost invariant = { λ o. IsClearBehind N.LEN (record { count = o.len; changed = o.changed.entries }) × (o.len ≤ 2 ^ 62) };
}

impl<N: Chunks> ChunkOverlay<N> {
    /// No changes but clear bits after those of a bitmap, up to so many. It takes no memory yet.
    pub fn new<B: Readable<N>>(alloc: Global, base: &B, len: u64) -> Self
        requires not_below { bit_count N.LEN (B.bitmap base.now) ≤ len }
        requires bounded { len ≤ 2 ^ 62 }
        ensures value { result ≡ record { count = len; changed = [] } }
        ensures bits { laid N.LEN result (B.bitmap base.now)
            ≡ record {
              pruned = (B.bitmap base.now).pruned;
              kept = (B.bitmap base.now).kept
                  ++ replicate (len - bit_count N.LEN (B.bitmap base.now)) false;
            } }
    {
        ChunkOverlay {
            changed: BTreeMap::new(alloc),
            len,
        }
    }

    /// How many bits there are after the step.
    pub fn len(&self) -> u64
        ensures value { result ≡ self.now.count }
        ensures bounded { result ≤ 2 ^ 62 }
    {
        self.len
    }

    // Puts clear bits after the others until there are `len`.
    pub(crate) fn extend_to(&mut self, len: u64)
        requires not_below { self.old.count ≤ len }
        requires bounded { len ≤ 2 ^ 62 }
        ensures count { self.new.count ≡ len }
        ensures from { (least : ℕ) → IsFrom least self.old → IsFrom least self.new }
        ensures bits { (base : Bitmap) → bit_count N.LEN base ≤ self.old.count
            → laid N.LEN self.new base ≡ longer N.LEN (laid N.LEN self.old base) len }
    {
        self.len = len;
    }

    /// How many chunks have all their bits after the step.
    pub fn complete_chunks(&self) -> usize
        ensures { result ≡ self.now.count / (8 * N.LEN) }
    {
        (self.len / N::span()) as usize
    }

    /// The bytes of a chunk, if the step changes it.
    pub fn get(&self, chunk: usize) -> Option<&[u8]>
        ensures value { option_map (λ bytes. bytes.now) result
            ≡ option_map (packed N.LEN) (changed_at self.now.changed chunk) }
        ensures clear { IsClearBehind N.LEN self.now }
    {
        match self.changed.get(&chunk) {
            Some(bits) => Some(bits.bytes()),
            None => None,
        }
    }

    /// The numbers of the chunks that the step changes, in order. Want of memory is the only error.
    pub fn chunks(&self, alloc: Global) -> Result<Vec<u64>, AllocError>
        ensures items { IfOk result (λ v. v.items ≡ map (λ e. e.0) self.now.changed) }
        ensures clear { IsClearBehind N.LEN self.now }
    {
        let mut found = Vec::with_capacity(alloc, self.changed.len())?;
        for (at, _) in &self.changed {
            found.push(*at as u64)?;
        }
        Ok(found)
    }

    // The bit at a place, if the step changes its chunk.
    pub(crate) fn bit(&self, at: u64) -> Option<bool>
        ensures value { result
            ≡ option_map (λ bits. slice_index_or bits (at % (8 * N.LEN)) false)
            (changed_at self.now.changed (at / (8 * N.LEN))) }
        ensures clear { IsClearBehind N.LEN self.now }
    {
        let span = N::span();
        match self.changed.get(&((at / span) as usize)) {
            Some(chunk) => Some(chunk.get((at % span) as usize)),
            None => None,
        }
    }

    // Puts the changed chunks into a bitmap, as far as it keeps their bits.
    pub(crate) fn write_into(&self, bits: &mut Prunable<N>)
        ensures pruned { bits.new.pruned ≡ bits.old.pruned }
        ensures count { bit_count N.LEN bits.new ≡ bit_count N.LEN bits.old }
        ensures bits { (i : ℕ) → start N.LEN bits.old ≤ i → i < bit_count N.LEN bits.old
            → slice_index_or (all_bits N.LEN bits.new) i false
            ≡ bit_over (changed_at self.now.changed (i / (8 * N.LEN))) (i % (8 * N.LEN))
            (slice_index_or (all_bits N.LEN bits.old) i false) }
        ensures clear { IsClearBehind N.LEN self.now }
    {
        for (at, chunk) in &self.changed {
            write_chunk(bits, *at, chunk);
        }
    }

    // Changes a bit of a chunk that is held.
    fn put(&mut self, at: u64, value: bool)
        requires within { at < self.old.count }
        requires held { IsSome (changed_at self.old.changed (at / (8 * N.LEN))) }
        ensures count { self.new.count ≡ self.old.count }
        ensures from { (least : ℕ) → IsFrom least self.old → IsFrom least self.new }
        ensures bits { (base : Bitmap) → start N.LEN base ≤ at
            → all_bits N.LEN (laid N.LEN self.new base)
            ≡ set (all_bits N.LEN (laid N.LEN self.old base)) at value }
    {
        let span = N::span();
        put_in(
            &mut self.changed,
            (at / span) as usize,
            (at % span) as usize,
            value,
        );
    }

    // Holds a chunk that is not pruned, with the bits that it has already. Want of memory is the only error, and leaves all as it was.
    fn hold<B: Readable<N>>(
        &mut self,
        alloc: Global,
        base: &B,
        chunk: usize,
    ) -> Result<(), AllocError>
        requires not_below { bit_count N.LEN (B.bitmap base.now) ≤ self.old.count }
        requires kept { (B.bitmap base.now).pruned ≤ chunk }
        ensures count { self.new.count ≡ self.old.count }
        ensures held { OnOk result (IsSome (changed_at self.new.changed chunk)) }
        ensures same { laid N.LEN self.new (B.bitmap base.now)
            ≡ laid N.LEN self.old (B.bitmap base.now) }
        ensures from { (least : ℕ) → least ≤ chunk → IsFrom least self.old → IsFrom least self.new }
        ensures err { OnErr result (self.new ≡ self.old) }
    {
        if self.changed.contains_key(&chunk) {
            return Ok(());
        }
        let bits = Chunk::read(alloc, base, chunk)?;
        insert_in(&mut self.changed, chunk, bits)
    }

    // Sets or clears a bit, if its chunk is not pruned. Want of memory is the only error, and leaves all as it was.
    fn change<B: Readable<N>>(
        &mut self,
        alloc: Global,
        base: &B,
        at: u64,
        value: bool,
    ) -> Result<(), AllocError>
        requires not_below { bit_count N.LEN (B.bitmap base.now) ≤ self.old.count }
        requires within { at < self.old.count }
        ensures count { self.new.count ≡ self.old.count }
        ensures kept { start N.LEN (B.bitmap base.now) ≤ at
            → OnOk result (all_bits N.LEN (laid N.LEN self.new (B.bitmap base.now))
            ≡ set (all_bits N.LEN (laid N.LEN self.old (B.bitmap base.now))) at value) }
        ensures pruned { at < start N.LEN (B.bitmap base.now) → self.new ≡ self.old }
        ensures from { IsFrom (B.bitmap base.now).pruned self.old
            → IsFrom (B.bitmap base.now).pruned self.new }
        ensures err { OnErr result (self.new ≡ self.old) }
    {
        let chunk = (at / N::span()) as usize;
        if chunk < base.pruned_chunks() {
            return Ok(());
        }
        self.hold(alloc, base, chunk)?;
        self.put(at, value);
        Ok(())
    }

    /// Sets the bit at a place, over the bitmap that the changes were begun over. If its chunk is pruned nothing is done. Want of memory is the only error, and leaves all as it was.
    pub fn set_bit<B: Readable<N>>(
        &mut self,
        alloc: Global,
        base: &B,
        at: u64,
    ) -> Result<(), AllocError>
        requires not_below { bit_count N.LEN (B.bitmap base.now) ≤ self.old.count }
        requires within { at < self.old.count }
        ensures count { self.new.count ≡ self.old.count }
        ensures bits { start N.LEN (B.bitmap base.now) ≤ at
            → OnOk result (all_bits N.LEN (laid N.LEN self.new (B.bitmap base.now))
            ≡ set (all_bits N.LEN (laid N.LEN self.old (B.bitmap base.now))) at true) }
        ensures pruned { at < start N.LEN (B.bitmap base.now) → self.new ≡ self.old }
        ensures from { IsFrom (B.bitmap base.now).pruned self.old
            → IsFrom (B.bitmap base.now).pruned self.new }
        ensures err { OnErr result (self.new ≡ self.old) }
    {
        self.change(alloc, base, at, true)
    }

    /// Clears the bit at a place, over the bitmap that the changes were begun over. If its chunk is pruned nothing is done: pruned bits are clear. Want of memory is the only error, and leaves all as it was.
    pub fn clear_bit<B: Readable<N>>(
        &mut self,
        alloc: Global,
        base: &B,
        at: u64,
    ) -> Result<(), AllocError>
        requires not_below { bit_count N.LEN (B.bitmap base.now) ≤ self.old.count }
        requires within { at < self.old.count }
        ensures count { self.new.count ≡ self.old.count }
        ensures bits { OnOk result (all_bits N.LEN (laid N.LEN self.new (B.bitmap base.now))
            ≡ set (all_bits N.LEN (laid N.LEN self.old (B.bitmap base.now))) at false) }
        ensures pruned { at < start N.LEN (B.bitmap base.now) → self.new ≡ self.old }
        ensures from { IsFrom (B.bitmap base.now).pruned self.old
            → IsFrom (B.bitmap base.now).pruned self.new }
        ensures err { OnErr result (self.new ≡ self.old) }
    {
        self.change(alloc, base, at, false)
    }
}

// Changes the bit at a place of a chunk that is there.
fn put_in<N: Chunks>(
    changed: &mut BTreeMap<usize, Chunk<N>>,
    chunk: usize,
    place: usize,
    value: bool,
)
    requires within { place < 8 * N.LEN }
    requires held { IsSome (changed_at changed.old.entries chunk) }
    ensures here { IfSome (changed_at changed.old.entries chunk) (λ bits.
        changed_at changed.new.entries chunk ≡ Some (set bits place value)) }
    ensures long { IfSome (changed_at changed.old.entries chunk) (λ bits. length bits ≡ 8 * N.LEN) }
    ensures other { (c : ℕ) → c ≢ chunk
        → changed_at changed.new.entries c ≡ changed_at changed.old.entries c }
{
    if let Some(bits) = changed.get_mut(&chunk) {
        bits.put(place, value);
    }
}

// Puts a chunk there. Want of memory is the only error, and leaves all as it was.
fn insert_in<N: Chunks>(
    changed: &mut BTreeMap<usize, Chunk<N>>,
    chunk: usize,
    bits: Chunk<N>,
) -> Result<(), AllocError>
    ensures here { OnOk result (changed_at changed.new.entries chunk ≡ Some bits) }
    ensures other { OnOk result ((c : ℕ) → c ≢ chunk
        → changed_at changed.new.entries c ≡ changed_at changed.old.entries c) }
    ensures err { OnErr result (changed.new.entries ≡ changed.old.entries) }
{
    changed.insert(chunk, bits)?;
    Ok(())
}
