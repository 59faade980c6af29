//! The course of a walk from a floor, without what it decides.

ghost use Rattle.std.specs.Prelude.{◌≡◌, ◌+◌, ◌-◌, ◌^◌, ◌<◌, ◌≤◌, nat_le, min};
ghost use Rattle.qm_chain.specs.Walks.{reachable_from, IsRising};

use qm_base::Location;

/// Where a walk is and what it has left. From its floor on it decides each live update, which spends an entry, and passes
/// each other location, which spends a skip; either way the floor is then one higher. With no entry left it ends where it is,
/// with no skip left at the first location without a live update, and at the latest at its end. Who walks looks for the live
/// updates before that end, reaches and decides one after another while there is an entry, and spends the skips after the
/// last one by `exhaust`. A policy may stop the walk at an update that was reached: it is then left where it is.
///
/// No call takes memory, and each but `reachable` takes the same few steps.
#[derive(Drop)]
pub struct Walk<F> {
    /// Where it is: from where it started up to here each location is passed or decided.
    pub floor: Location<F>,
    /// The tip, or where entries and skips run out if that is before it. It stays the same.
    pub end: Location<F>,
    /// How many live updates it may still decide.
    pub entries: u64,
    /// How many other locations it may still pass.
    pub skips: u64,
}

impl<F> Walk<F> {
    /// A walk from a floor, up to a tip at most, with so many entries and skips. Limits beyond the tip do no harm.
    pub fn new(floor: Location<F>, tip: Location<F>, entries: u64, skips: u64) -> Self
        requires { floor ≤ tip }
        ensures { result
            ≡ record {
              floor = floor;
              end = min tip (floor + entries + skips);
              entries = entries;
              skips = skips;
            } }
    {
        let reach = floor.get().saturating_add(entries).saturating_add(skips);
        let end = Location::new(reach.min(tip.get()));
        Walk {
            floor,
            end,
            entries,
            skips,
        }
    }

    /// Passes the locations up to the next live update, and tells whether it came there. If the skips do not suffice it
    /// spends them, and the walk has ended.
    pub fn reach(&mut self, at: Location<F>) -> bool
        requires { self.old.floor ≤ at }
        ensures reached { result ≡ nat_le (at - self.old.floor) self.old.skips }
        ensures floor { self.new.floor ≡ min at (self.old.floor + self.old.skips) }
        ensures rest { self.new
            ≡ record self.old
            { floor = self.new.floor; skips = self.old.skips - (at - self.old.floor) } }
    {
        let gap = at.get() - self.floor.get();
        if gap > self.skips {
            self.floor = Location::new(self.floor.get() + self.skips);
            self.skips = 0;
            return false;
        }
        self.skips -= gap;
        self.floor = at;
        true
    }

    /// Spends an entry on the live update at the floor.
    pub fn decide(&mut self)
        requires entries { 0 < self.old.entries }
        requires floor { self.old.floor < 2 ^ 64 - 1 }
        ensures { self.new
            ≡ record self.old { floor = self.old.floor + 1; entries = self.old.entries - 1 } }
    {
        self.entries -= 1;
        self.floor = Location::new(self.floor.get() + 1);
    }

    /// How many of these live updates, the first ones, the walk comes to if it decides each. It looks at those and one more.
    pub fn reachable(&self, candidates: &[Location<F>]) -> usize
        requires { IsRising self.now.floor candidates.now }
        ensures { result
            ≡ reachable_from self.now.floor self.now.entries self.now.skips candidates.now }
    {
        let mut floor = self.floor.get();
        let mut skips = self.skips;
        let mut count = 0;
        for at in candidates {
            let at = at.get();
            let gap = at - floor;
            if count as u64 == self.entries || gap > skips {
                return count;
            }
            skips -= gap;
            floor = at.saturating_add(1);
            count += 1;
        }
        count
    }

    /// Passes what is left where no live update is: up to the end, or as far as the skips go. A walk without entries has ended
    /// before.
    pub fn exhaust(&mut self)
        requires { self.old.floor ≤ self.old.end }
        ensures { self.new
            ≡ record self.old {
              floor = min self.old.end (self.old.floor + self.old.skips);
              skips =
                  self.old.skips - (self.old.end - self.old.floor);
            } }
    {
        let gap = (self.end.get() - self.floor.get()).min(self.skips);
        self.floor = Location::new(self.floor.get() + gap);
        self.skips -= gap;
    }
}
