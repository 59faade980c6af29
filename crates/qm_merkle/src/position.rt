//! Places of nodes.

ghost use Rattle.std.specs.Prelude.{◌≡◌, ℕ};

use std::marker::{Model, PhantomData};

/// The place of a node in a tree of the family `F`, counted from 0 in the order in which nodes are made.
#[derive(Clone, Copy, Drop, Debug, PartialEq, Eq, PartialOrd, Ord)]
pub struct Position<F> {
    value: u64,
    family: PhantomData<F>,
}

impl<F> Model for Position<F> {
    ghost Value = { ℕ };

    ghost view = { λ p. p.value };

    ghost inverse = { λ n. record { value = n; family = record {} } };
}

impl<F> Position<F> {
    /// The position of this number.
    pub fn new(value: u64) -> Self
        ensures { result ≡ value }
    {
        Position {
            value,
            family: PhantomData,
        }
    }

    /// The number.
    pub fn get(&self) -> u64
        ensures { result ≡ self.now }
    {
        self.value
    }
}
