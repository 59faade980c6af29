//! Bits that a step is put into: those of a bitmap, or those that it leaves over one that is lent.

ghost use Rattle.std.specs.Prelude.{◌≡◌, ◌^◌, ◌≤◌, true, false, ⊤, set, OnOk, OnErr};
ghost use Rattle.qm_bits.specs.Bitmaps.{Bitmap, start, bit_count, all_bits};
ghost use Rattle.qm_overlay.specs.Layers.{laid, longer, IsFrom};

use crate::overlay::ChunkOverlay;
use qm_bits::{Chunks, Prunable, Readable};
use std::alloc::{AllocError, Global};
use std::marker::Model;

/// Bits that are set and cleared one by one, of which the first chunks may be pruned.
pub trait Marks<N: Chunks> {
    ghost bitmap: { Self → Bitmap };

    // what lies below the bits, and stays as it is
    ghost Below: { Type 0 };

    ghost below: { Self → Below };

    // whether a change of one bit may want memory
    ghost wants: { Type 0 };

    /// How many bits there are, with the pruned ones.
    fn len(&self) -> u64
        ensures { result ≡ bit_count N.LEN (bitmap self.now) };

    /// Puts clear bits after the others until there are `len`. Want of memory is the only error, and leaves them as they were.
    fn extend_to(&mut self, len: u64) -> Result<(), AllocError>
        requires not_below { bit_count N.LEN (bitmap self.old) ≤ len }
        requires bounded { len ≤ 2 ^ 62 }
        ensures ok { OnOk result (bitmap self.new ≡ longer N.LEN (bitmap self.old) len) }
        ensures below { below self.new ≡ below self.old }
        ensures err { OnErr result (bitmap self.new ≡ bitmap self.old) };

    /// Sets the bit at a place that is kept; elsewhere nothing changes. Want of memory is the only error.
    fn mark(&mut self, at: u64) -> Result<(), AllocError>
        ensures pruned { (bitmap self.new).pruned ≡ (bitmap self.old).pruned }
        ensures count { bit_count N.LEN (bitmap self.new) ≡ bit_count N.LEN (bitmap self.old) }
        ensures bits { start N.LEN (bitmap self.old) ≤ at
            → OnOk result
            (all_bits N.LEN (bitmap self.new) ≡ set (all_bits N.LEN (bitmap self.old)) at true) }
        ensures below { below self.new ≡ below self.old }
        ensures err { OnErr result wants };

    /// Clears the bit at a place. If none is kept nothing changes: pruned bits are clear. Want of memory is the only error.
    fn unmark(&mut self, at: u64) -> Result<(), AllocError>
        ensures pruned { (bitmap self.new).pruned ≡ (bitmap self.old).pruned }
        ensures count { bit_count N.LEN (bitmap self.new) ≡ bit_count N.LEN (bitmap self.old) }
        ensures bits { OnOk result
            (all_bits N.LEN (bitmap self.new) ≡ set (all_bits N.LEN (bitmap self.old)) at false) }
        ensures below { below self.new ≡ below self.old }
        ensures err { OnErr result wants };
}

impl<N: Chunks> Marks<N> for Prunable<N> {
    ghost bitmap = { λ b. b };

    ghost Below = { ⊤ };

    ghost below = { λ b. tt };

    ghost wants = { ⊥ };

    fn len(&self) -> u64 {
        Prunable::len(self)
    }

    fn extend_to(&mut self, len: u64) -> Result<(), AllocError> {
        Prunable::extend_to(self, len)
    }

    fn mark(&mut self, at: u64) -> Result<(), AllocError> {
        Prunable::mark(self, at);
        Ok(())
    }

    fn unmark(&mut self, at: u64) -> Result<(), AllocError> {
        Prunable::unmark(self, at);
        Ok(())
    }
}

// A step that is made over a bitmap that is lent.
#[derive(Drop)]
pub(crate) struct Laying<'a, N: Chunks, B: Readable<N>> {
    alloc: Global,
    base: &'a B,
    overlay: ChunkOverlay<N>,
}

impl<'a, N: Chunks, B: Readable<N>> Model for Laying<'a, N, B> {
    ghost use Rattle.std.specs.Prelude.{◌≤◌};
    ghost use Rattle.qm_bits.specs.Bitmaps.{bit_count};
    ghost use Rattle.qm_overlay.specs.Layers.{Laid, IsFrom};

    ghost Value = { Laid };

    ghost view = { λ l. record { base = B.bitmap l.base.now; overlay = l.overlay } };

    ghost invariant = { λ l. (bit_count N.LEN (B.bitmap l.base.now) ≤ l.overlay.count) × IsFrom (B.bitmap l.base.now).pruned l.overlay };
}

impl<'a, N: Chunks, B: Readable<N>> Laying<'a, N, B> {
    // A step that changes nothing. It takes no memory yet.
    pub(crate) fn new(alloc: Global, base: &'a B) -> Self
        requires { bit_count N.LEN (B.bitmap base.now) ≤ 2 ^ 62 }
        ensures base { result.base ≡ B.bitmap base.now }
        ensures bits { laid N.LEN result.overlay result.base ≡ B.bitmap base.now }
    {
        Laying {
            alloc,
            base,
            overlay: ChunkOverlay::new(alloc, base, base.len()),
        }
    }

    // The step.
    pub(crate) fn into_overlay(self) -> ChunkOverlay<N>
        ensures value { result ≡ self.entry.overlay }
        ensures not_below { bit_count N.LEN self.entry.base ≤ result.count }
        ensures from { IsFrom self.entry.base.pruned result }
    {
        self.overlay
    }
}

impl<'a, N: Chunks, B: Readable<N>> Marks<N> for Laying<'a, N, B> {
    ghost bitmap = { λ l. laid N.LEN l.overlay l.base };

    ghost Below = { Bitmap };

    ghost below = { λ l. l.base };

    ghost wants = { ⊤ };

    fn len(&self) -> u64 {
        self.overlay.len()
    }

    fn extend_to(&mut self, len: u64) -> Result<(), AllocError> {
        self.overlay.extend_to(len);
        Ok(())
    }

    fn mark(&mut self, at: u64) -> Result<(), AllocError> {
        if at < self.overlay.len() {
            self.overlay.set_bit(self.alloc, self.base, at)
        } else {
            Ok(())
        }
    }

    fn unmark(&mut self, at: u64) -> Result<(), AllocError> {
        if at < self.overlay.len() {
            self.overlay.clear_bit(self.alloc, self.base, at)
        } else {
            Ok(())
        }
    }
}
