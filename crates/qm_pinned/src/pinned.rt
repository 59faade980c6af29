//! Metadata as it is read.

ghost use Rattle.std.specs.Prelude.{◌≡◌, ◌*◌, ◌^◌, ◌<◌, ◌≤◌, length, map, not, is_none, Some, None, option_map, IfOk, IfErr, OnOk};
ghost use Rattle.std.specs.List.{list_any};
ghost use Rattle.std.specs.Option.{SomeIff};
ghost use Rattle.qm_model.specs.Forms as model;
ghost use Rattle.qm_model.specs.Grafted as grafted;
ghost use Rattle.qm_model.specs.Opening.{Layout, entry_of, metadata_key, count_bytes, count_in, pins_found, metadata_refusal};
ghost use Rattle.qm_model.specs.Trees as trees;
ghost use Rattle.qm_base.specs.Views.{corrupt_view};
ghost use Rattle.qm_pinned.specs.Metadata.{IsLaidOut, TellsWhy, numbered, digest_in, count_refusal, pins_refusal};

use crate::written::{COUNT, PIN, key_of};
use qm_base::{Corrupt, Digest, Error, Location};
use qm_chunks::pair_absorption_threshold;
use qm_merkle::Family;
use qm_store::MetaEntry;
use std::alloc::Global;

/// What metadata counts: how many chunks are pruned, and the pins of the grafted tree there, from left to right.
#[derive(Drop)]
pub struct Pinned<D> {
    pub chunks: u64,
    pub pins: Vec<D>,
}

impl<D> Pinned<D> {
    /// The number of pruned chunks of 2^height locations, with the least size of a list from which they may go, if that is
    /// more than their own: what `init_with` of `qm_any` takes.
    pub fn pruned<F: Family>(&self, height: u32) -> (u64, Option<u64>)
        requires low { height < 62 }
        requires within { self.now.chunks * 2 ^ height ≤ 2 ^ 62 }
        ensures chunks { result.0 ≡ self.now.chunks }
        ensures threshold { result.1
            ≡ grafted.pair_absorption_threshold F.shape height self.now.chunks }
    {
        (
            self.chunks,
            pair_absorption_threshold::<F>(height, self.chunks),
        )
    }
}

// The value that stands under this prefix and number.
fn value_of(entries: &[MetaEntry], prefix: u8, number: u64) -> Option<&[u8]>
    ensures { option_map (λ value. value.now) result
        ≡ entry_of entries.now (metadata_key prefix number) }
{
    let key = key_of(prefix, number);
    for entry in entries {
        if entry.key == key {
            return Some(&entry.value);
        }
    }
    None
}

// The number of 8 bytes, the highest first.
#[tactic(auto, unfolding(qm_model::specs::Forms::number_of_eight))]
fn number_of_eight(bytes: &[u8; 8]) -> u64
    ensures { result ≡ model.number_of_eight bytes.now }
{
    u64::from_be_bytes(*bytes)
}

// How many chunks are pruned, if that is told by 8 bytes.
fn count_of(entries: &[MetaEntry]) -> Option<u64>
    ensures { SomeIff result (length (count_bytes entries.now) ≡ 8) (count_in entries.now) }
{
    match value_of(entries, COUNT, 0) {
        Some(bytes) => bytes.as_array::<8>().map(number_of_eight),
        None => Some(0),
    }
}

// Whether the first `count` pins are there.
fn has_pins(entries: &[MetaEntry], count: u32) -> bool
    ensures { result ≡ not (list_any is_none (numbered entries.now count)) }
{
    for number in 0..count {
        if value_of(entries, PIN, u64::from(number)).is_none() {
            return false;
        }
    }
    true
}

// The pin of this number, if it is there and has a digest's size.
fn read_pin<D: Digest>(entries: &[MetaEntry], number: u32) -> Option<D>
    ensures { option_map D.bytes result
        ≡ digest_in D.SIZE (entry_of entries.now (metadata_key 0 number)) }
{
    D::from_bytes(value_of(entries, PIN, u64::from(number))?)
}

// The first `count` pins. A lack of one is told before the size of another.
fn read_pins<D: Digest>(alloc: Global, entries: &[MetaEntry], count: u32) -> Result<Vec<D>, Error>
    ensures pins { IfOk result (λ pins.
        numbered entries.now count ≡ map (λ pin. Some pin) (map D.bytes pins.items)) }
    ensures refused { IfErr result (λ e.
        TellsWhy e (pins_refusal D.SIZE (numbered entries.now count))) }
    ensures whole { IfOk result (λ pins. length pins.items ≡ count) }
{
    if !has_pins(entries, count) {
        return Err(Error::DataCorrupted(Corrupt::MissingPin));
    }
    let mut pins = Vec::with_capacity(alloc, count as usize)?;
    for number in 0..count {
        match read_pin(entries, number) {
            Some(pin) => pins.push_reserved(pin),
            None => return Err(Error::DataCorrupted(Corrupt::InvalidPin)),
        }
    }
    Ok(pins)
}

// How many chunks of 2^height locations are pruned.
fn read_count(height: u32, entries: &[MetaEntry]) -> Result<u64, Corrupt>
    requires { height < 64 }
    ensures readable { OnOk result (count_refusal height entries.now ≡ None) }
    ensures refused { IfErr result (λ c.
        count_refusal height entries.now ≡ Some (corrupt_view c)) }
    ensures count { IfOk result (λ chunks. chunks ≡ count_in entries.now) }
    ensures within { IfOk result (λ chunks. chunks * 2 ^ height ≤ 2 ^ 62) }
{
    match count_of(entries) {
        None => Err(Corrupt::CountNotValid),
        Some(chunks) if chunks > (1 << 62) >> height => Err(Corrupt::CountTooLarge),
        Some(chunks) => Ok(chunks),
    }
}

/// Reads what metadata counts of chunks of 2^height locations, grafted onto trees of the family `F`. Metadata without a count
/// has no pruned chunk, and entries under other keys are passed over. It is refused for want of memory, or as damaged.
pub fn read<F: Family, D: Digest>(
    alloc: Global,
    height: u32,
    entries: &[MetaEntry],
) -> Result<Pinned<D>, Error>
    requires { height < 64 }
    ensures readable { (layout : Layout) → IsLaidOut F.shape D.SIZE height layout
        → OnOk result (metadata_refusal layout entries.now ≡ None) }
    ensures refused { (layout : Layout) → IsLaidOut F.shape D.SIZE height layout
        → IfErr result (λ e. TellsWhy e (metadata_refusal layout entries.now)) }
    ensures count { IfOk result (λ pinned. pinned.chunks ≡ count_in entries.now) }
    ensures within { IfOk result (λ pinned. pinned.chunks * 2 ^ height ≤ 2 ^ 62) }
    ensures pins { IfOk result (λ pinned. pins_found F.shape entries.now pinned.chunks
        ≡ map (λ pin. Some pin) (map D.bytes pinned.pins.items)) }
    ensures whole { IfOk result (λ pinned.
        length pinned.pins.items ≡ length (trees.peaks F.shape pinned.chunks)) }
{
    let chunks = read_count(height, entries)?;
    let pins = read_pins(alloc, entries, F::peak_count(Location::new(chunks)))?;
    Ok(Pinned { chunks, pins })
}
