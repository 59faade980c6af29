//! What an index keeps.

ghost use Rattle.std.specs.Prelude.{◌≡◌, [], ◌∷◌};

use qm_base::Location;
use std::array::from_ref;

/// A value that an index can keep alone, with no allocation of its own, and show as a slice.
pub trait IndexValue: Drop + Sized {
    /// The value as a slice of one. A type's own `std::array::from_ref(self)` does it; generic code cannot tell that the type's size allows it.
    fn as_slice(&self) -> &[Self]
        ensures { result.now ≡ self.now ∷ [] };
}

impl IndexValue for u64 {
    fn as_slice(&self) -> &[u64] {
        from_ref(self)
    }
}

impl<F> IndexValue for Location<F> {
    fn as_slice(&self) -> &[Location<F>] {
        from_ref(self)
    }
}
