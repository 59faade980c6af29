//! What steps do to bits.

ghost use Rattle.std.specs.Prelude.{◌≡◌, ◌≤◌, ◌^◌, ◌⊎◌, List, map, length, IfSome, IfOk, OnOk, OnErr};
ghost use Rattle.qm_chain.specs.Ascending.{IsAscending};
ghost use Rattle.qm_model.specs.Bits.{bits};
ghost use Rattle.qm_model.specs.Operations.{Operation, IsCommitEnded};
ghost use Rattle.qm_bits.specs.Bitmaps.{start, all_bits, bit_count};
ghost use Rattle.qm_step.specs.Changes.{AreChanges, LeadTo};
ghost use Rattle.qm_step.specs.Views.{changes_view};
ghost use Rattle.qm_overlay.specs.Layers.{laid, IsFrom};
ghost use Rattle.qm_overlay.specs.Marks.{HasLive, IsAlike, cleared, marked};

use crate::marks::{Laying, Marks};
use crate::overlay::ChunkOverlay;
use qm_base::{ByteString, Location};
use qm_bits::{Chunks, Readable};
use qm_chain::{Diff, DiffEntry};
use std::alloc::{AllocError, Global};
use std::rc::Rc;

/// Brings the bits of a list up to those of the list, of so many operations, that steps lead to, by their diffs, newest
/// first: the bit of each live update that they supersede is cleared, and so is that of the old commit, and those of the
/// new live updates and of the last operation are set. Want of memory is the only error; if a change of one bit wants
/// none it leaves the bits as they were.
pub fn apply_bits<F, K: ByteString, V: ByteString, N: Chunks, M: Marks<N>>(
    activity: &mut M,
    size: u64,
    diffs: &[Rc<Diff<F, K, V>>],
) -> Result<(), AllocError>
    requires not_below { bit_count N.LEN (M.bitmap activity.old) ≤ size }
    requires few { size ≤ 2 ^ 62 }
    ensures count { OnOk result (bit_count N.LEN (M.bitmap activity.new) ≡ size) }
    ensures pruned { OnOk result
        ((M.bitmap activity.new).pruned ≡ (M.bitmap activity.old).pruned) }
    ensures active { (from tip : List Operation)
        → LeadTo (map (λ d. changes_view K.bytes V.bytes d.value) diffs.now) from tip
        → IsCommitEnded from → size ≡ length tip
        → all_bits N.LEN (M.bitmap activity.old) ≡ bits from
        → OnOk result (all_bits N.LEN (M.bitmap activity.new) ≡ bits tip) }
    ensures below { OnOk result (M.below activity.new ≡ M.below activity.old) }
    ensures err { OnErr result ((M.bitmap activity.new ≡ M.bitmap activity.old) ⊎ M.wants) }
{
    let before = activity.len();
    activity.extend_to(size)?;
    // the old list ends with a commit, which is not live
    activity.unmark(before.saturating_sub(1))?;
    move_bits::<F, K, V, N, M>(activity, diffs)?;
    activity.mark(size.saturating_sub(1))
}

/// The step over a bitmap that is lent for a list, whose bits are those of the list, of so many operations, that steps
/// lead to, by their diffs, newest first. It takes no bits away. Want of memory is the only error.
pub fn overlay_of<F, K: ByteString, V: ByteString, N: Chunks, B: Readable<N>>(
    alloc: Global,
    base: &B,
    size: u64,
    diffs: &[Rc<Diff<F, K, V>>],
) -> Result<ChunkOverlay<N>, AllocError>
    requires not_below { bit_count N.LEN (B.bitmap base.now) ≤ size }
    requires few { size ≤ 2 ^ 62 }
    ensures count { IfOk result (λ overlay. overlay.count ≡ size) }
    ensures from { IfOk result (IsFrom (B.bitmap base.now).pruned) }
    ensures active { (from tip : List Operation)
        → LeadTo (map (λ d. changes_view K.bytes V.bytes d.value) diffs.now) from tip
        → IsCommitEnded from → size ≡ length tip → all_bits N.LEN (B.bitmap base.now) ≡ bits from
        → IfOk result (λ overlay.
        all_bits N.LEN (laid N.LEN overlay (B.bitmap base.now)) ≡ bits tip) }
{
    let mut laying = Laying::new(alloc, base);
    apply_bits(&mut laying, size, diffs)?;
    Ok(laying.into_overlay())
}

// Brings the bits of live updates up to those of the list that steps lead to, the oldest step first.
fn move_bits<F, K: ByteString, V: ByteString, N: Chunks, M: Marks<N>>(
    activity: &mut M,
    diffs: &[Rc<Diff<F, K, V>>],
) -> Result<(), AllocError>
    ensures alike { OnOk result (IsAlike N.LEN (M.bitmap activity.old) (M.bitmap activity.new)) }
    ensures live { (from tip : List Operation)
        → LeadTo (map (λ d. changes_view K.bytes V.bytes d.value) diffs.now) from tip
        → length tip ≤ bit_count N.LEN (M.bitmap activity.old)
        → HasLive N.LEN (M.bitmap activity.old) from
        → OnOk result (HasLive N.LEN (M.bitmap activity.new) tip) }
    ensures below { OnOk result (M.below activity.new ≡ M.below activity.old) }
    ensures err { OnErr result M.wants }
{
    for step in (0..diffs.len()).rev() {
        move_entries::<F, K, V, N, M>(activity, diffs[step].entries())?;
    }
    Ok(())
}

// Moves the bits of the keys of one step.
fn move_entries<F, K: ByteString, V: ByteString, N: Chunks, M: Marks<N>>(
    activity: &mut M,
    entries: &[(K, DiffEntry<F, V>)],
) -> Result<(), AllocError>
    requires { IsAscending (map (λ e. K.bytes e.0) entries.now) }
    ensures alike { OnOk result (IsAlike N.LEN (M.bitmap activity.old) (M.bitmap activity.new)) }
    ensures live { (base tip : List Operation)
        → AreChanges (changes_view K.bytes V.bytes entries.now) base tip
        → length tip ≤ bit_count N.LEN (M.bitmap activity.old)
        → HasLive N.LEN (M.bitmap activity.old) base
        → OnOk result (HasLive N.LEN (M.bitmap activity.new) tip) }
    ensures below { OnOk result (M.below activity.new ≡ M.below activity.old) }
    ensures err { OnErr result M.wants }
{
    for entry in entries {
        clear_at::<F, N, M>(activity, entry.1.base_old_loc())?;
        mark_at::<F, N, M>(activity, entry.1.loc())?;
    }
    Ok(())
}

// Clears the bit of a location.
fn clear_at<F, N: Chunks, M: Marks<N>>(
    activity: &mut M,
    at: Option<Location<F>>,
) -> Result<(), AllocError>
    ensures alike { IsAlike N.LEN (M.bitmap activity.old) (M.bitmap activity.new) }
    ensures bits { OnOk result (all_bits N.LEN (M.bitmap activity.new)
        ≡ cleared (all_bits N.LEN (M.bitmap activity.old)) at) }
    ensures below { OnOk result (M.below activity.new ≡ M.below activity.old) }
    ensures err { OnErr result M.wants }
{
    match at {
        Some(at) => activity.unmark(at.get()),
        None => Ok(()),
    }
}

// Sets the bit of a location.
fn mark_at<F, N: Chunks, M: Marks<N>>(
    activity: &mut M,
    at: Option<Location<F>>,
) -> Result<(), AllocError>
    ensures alike { IsAlike N.LEN (M.bitmap activity.old) (M.bitmap activity.new) }
    ensures bits { IfSome at (λ at. start N.LEN (M.bitmap activity.old) ≤ at)
        → OnOk result (all_bits N.LEN (M.bitmap activity.new)
        ≡ marked (all_bits N.LEN (M.bitmap activity.old)) at) }
    ensures below { OnOk result (M.below activity.new ≡ M.below activity.old) }
    ensures err { OnErr result M.wants }
{
    match at {
        Some(at) => activity.mark(at.get()),
        None => Ok(()),
    }
}
