//! Locations that may hold live updates.

ghost use Rattle.std.specs.Prelude.{◌≡◌, ◌+◌, ◌<◌, ◌≤◌, ◌++◌, ℕ, Bool, List, length, max, true, false, IfOk, OnErr};
ghost use Rattle.qm_bits.specs.Bitmaps.{all_bits};
ghost use Rattle.qm_bits.specs.Candidates.{is_candidate, candidates, IsFilled};

use crate::chunks::Chunks;
use crate::prunable::Prunable;
use qm_base::Location;
use std::alloc::AllocError;

/// What tells a walk which locations may hold live updates.
pub trait Candidates<F> {
    /// The bits of all locations that have one, clear where they are no longer kept.
    ghost activity: { Self → List Bool };

    /// The first location from a place on that may hold a live update, or the tip if there is none before it.
    fn next_candidate(&self, from: u64, tip: u64) -> u64
        requires { from ≤ tip }
        ensures between { (from ≤ result) × (result ≤ tip) }
        ensures clear { (i : ℕ) → from ≤ i → i < result
            → is_candidate (activity self.now) i ≡ false }
        ensures found { result < tip → is_candidate (activity self.now) result ≡ true };

    /// Puts the locations from `floor` on, up to and without `tip`, after the others in order, until these are `limit`: of those that have a bit the set ones, of the later ones each. It answers where to go on: at the tip, or where `limit` was met. Want of memory is the only error; what was put there until then stays.
    final fn fill(
        &self,
        floor: Location<F>,
        tip: Location<F>,
        limit: usize,
        out: &mut Vec<Location<F>>,
    ) -> Result<Location<F>, AllocError>
        ensures ok { IfOk result (λ next.
            IsFilled (activity self.now) floor tip limit out.old.items out.new.items next) }
        ensures rest { IfOk result (λ next. candidates (activity self.now) floor tip
            ≡ candidates (activity self.now) floor next
            ++ candidates (activity self.now) next tip) }
        ensures whole { IfOk result (λ next. length out.new.items < limit → next ≡ max floor tip) }
        ensures err { OnErr result ((next : ℕ)
            × IsFilled (activity self.now) floor tip limit out.old.items out.new.items next) }
    {
        let tip = tip.get();
        let mut at = floor.get();
        while at < tip && out.len() < limit {
            at = self.next_candidate(at, tip);
            if at < tip {
                out.push(Location::new(at))?;
                at += 1;
            }
        }
        Ok(Location::new(at))
    }
}

impl<F, N: Chunks> Candidates<F> for Prunable<N> {
    ghost activity = { all_bits N.LEN };

    fn next_candidate(&self, from: u64, tip: u64) -> u64 {
        Prunable::next_candidate(self, from, tip)
    }
}
