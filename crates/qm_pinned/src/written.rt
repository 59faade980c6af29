//! Metadata as it is written, and its keys.

ghost use Rattle.std.specs.Prelude.{◌≡◌, ℕ, List, map, IfOk};
ghost use Rattle.qm_model.specs.Forms.{Form};
ghost use Rattle.qm_model.specs.Grafted.{grafted_pins, metadata};
ghost use Rattle.qm_model.specs.Opening.{entries_of, metadata_key};
ghost use Rattle.qm_model.specs.Operations.{Bytes, Operation};
ghost use Rattle.qm_model.specs.Trees.{Shape};
ghost use Rattle.qm_pinned.specs.Metadata.{counting};

use qm_base::{Digest, eight_bytes};
use qm_store::MetaEntry;
use std::alloc::{AllocError, Global};

// What the keys of pins begin with.
pub(crate) const PIN: u8 = 0;

// What the key of the count of pruned chunks begins with.
pub(crate) const COUNT: u8 = 1;

// The key of this prefix and number.
#[tactic(auto, unfolding(qm_model::specs::Operations::eight_bytes))]
pub(crate) fn key_of(prefix: u8, number: u64) -> [u8; 9]
    ensures { result ≡ metadata_key prefix number }
{
    let [a, b, c, d, e, f, g, h] = eight_bytes(number);
    [prefix, a, b, c, d, e, f, g, h]
}

// The entry of this prefix and number.
fn entry(alloc: Global, prefix: u8, number: u64, value: &[u8]) -> Result<MetaEntry, AllocError>
    ensures { IfOk result (λ made.
        made ≡ record { key = metadata_key prefix number; value = value.now }) }
{
    Ok(MetaEntry {
        key: key_of(prefix, number),
        value: value.to_vec(alloc)?,
    })
}

/// The metadata of a database without its first `count` chunks, of whose grafted tree these are the pins there, from left to
/// right.
pub fn entries<D: Digest>(
    alloc: Global,
    count: u64,
    pins: &[D],
) -> Result<Vec<MetaEntry>, AllocError>
    ensures written { IfOk result (λ written.
        written.items ≡ entries_of (counting count (map D.bytes pins.now))) }
    ensures list { (hash : Bytes → Bytes) (shape : Shape) (height : ℕ) (form : Form)
        (list : List Operation)
        → map D.bytes pins.now ≡ grafted_pins hash shape height form list count
        → IfOk result (λ written.
        written.items ≡ entries_of (metadata hash shape height form list count)) }
{
    let mut written = Vec::new(alloc);
    written.push(entry(alloc, COUNT, 0, &eight_bytes(count))?)?;
    for (number, pin) in pins.iter().enumerate() {
        written.push(entry(alloc, PIN, number as u64, pin.bytes())?)?;
    }
    Ok(written)
}
