//! Steps over bits that are lent, and put into them.

ghost use Rattle.std.specs.Prelude.{◌≡◌, ◌≤◌, IfOk, IfSome, map};
ghost use Rattle.qm_overlay.specs.Layers.{AreStacked};

use qm_base::{ByteKey, ByteValue, Location};
use qm_bits::{Candidates, Chunk32, Chunks, Prunable, Readable};
use qm_chain::{Diff, DiffEntry};
use qm_overlay::{BitmapBatch, ChunkOverlay, commit, overlay_of};
use std::alloc::{AllocError, Global};
use std::rc::Rc;
use std::slice::from_ref;
use std::test::Fail;

type Bits<'a> = BitmapBatch<'a, Chunk32>;

// The step that moves the update of one key from a location to another.
fn moved(
    alloc: Global,
    from: u64,
    to: u64,
) -> Result<Rc<Diff<(), ByteKey, ByteValue>>, AllocError> {
    let key = ByteKey::new(Vec::new(alloc));
    let entry = DiffEntry::Active {
        value: ByteValue::new(Vec::new(alloc)),
        loc: Location::new(to),
        base_old_loc: Some(Location::new(from)),
    };
    let mut entries = Vec::new(alloc);
    entries.push((key, entry))?;
    Ok(Rc::new(alloc, Diff::new(entries))?)
}

// The bits with such a step over them, to a list of two more operations.
fn pushed<'a>(alloc: Global, bits: Bits<'a>, from: u64) -> Result<Bits<'a>, AllocError>
    requires { from ≤ 2 }
    ensures { IfOk result (λ b. b.base ≡ bits.entry.base) }
{
    let mut bits = bits;
    let size = from + 4;
    if size < Readable::<Chunk32>::len(&bits) {
        return Err(AllocError);
    }
    let step = moved(alloc, from, from + 2)?;
    let overlay = overlay_of(alloc, &bits, size, from_ref(&step))?;
    bits.push(Rc::new(alloc, overlay)?)?;
    Ok(bits)
}

// Whether of six bits the last two are set.
fn end_with_two<B: Candidates<()>>(alloc: Global, bits: &B) -> Result<bool, AllocError> {
    let mut found = Vec::new(alloc);
    bits.fill(Location::new(0), Location::new(6), usize::MAX, &mut found)?;
    Ok(found.as_slice() == [Location::new(4), Location::new(5)].as_slice())
}

// The layers of two steps over the bits of an update and a commit, if those of the last list are seen through them.
fn laid(
    alloc: Global,
    base: &Prunable<Chunk32>,
) -> Result<Option<Vec<Rc<ChunkOverlay<Chunk32>>>>, AllocError>
    ensures { IfOk result (λ laid. IfSome laid (λ layers.
        AreStacked ⟦<Chunk32 as Chunks>⟧.LEN (map (λ r. r.value) layers.items) base.now)) }
{
    let bits = pushed(alloc, BitmapBatch::new(alloc, base), 0)?;
    let bits = pushed(alloc, bits, 2)?;
    let is_seen = end_with_two(alloc, &bits)?;
    Ok(is_seen.then_some(bits.into_layers()))
}

// Whether such steps, and these bits once they are put into them, have those of the last list.
fn are_laid(alloc: Global) -> Result<bool, AllocError> {
    let mut base: Prunable<Chunk32> = Prunable::new(alloc);
    base.push(true)?;
    base.push(true)?;
    let Some(layers) = laid(alloc, &base)? else {
        return Ok(false);
    };
    commit(&layers, &mut base)?;
    end_with_two(alloc, &base)
}

#[test]
fn steps_are_laid_over_bits(rt: HostRuntime) -> Result<(), Fail> {
    assert!(rt; are_laid(rt.alloc())?);
    Ok(())
}
