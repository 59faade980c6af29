//! The family of grafted trees.

ghost use Rattle.std.specs.Prelude.{◌≡◌, ℕ, ◌+◌, ◌*◌, ◌≤◌, ◌<◌, ◌^◌, length, slice_get, Some, IfOk};
ghost use Rattle.qm_model.specs.Trees as trees;
ghost use Rattle.qm_model.specs.Families.{Births, StandsAt};
ghost use Rattle.qm_graft.specs.Grafting.{grafting, kept_shape, fits};
ghost use Rattle.qm_graft.specs.Numbers.{kept_family, kept_peaks};

use qm_base::Location;
use qm_bits::Chunks;
use qm_chunks::chunks::raised;
use qm_merkle::{Family, Node, Position};
use std::alloc::{AllocError, Global};
use std::marker::PhantomData;

/// The family of trees that are grafted onto one of the family `F`, with a leaf for each chunk of `N`. Nodes stand where those
/// of a tree of `F` stand, but an inner node's digest is made with the number of the node that it stands for in the tree of
/// operations, if that one ends within 2^62 operations, as it does in every list.
pub struct Grafted<F, N> {
    families: PhantomData<(F, N)>,
}

impl<F, N> Clone for Grafted<F, N> {
    ghost is_clone = { λ x y. y ≡ x };

    ghost is_infallible = { λ _. Unit {0} };

    fn clone(&self) -> Result<Self, AllocError> {
        Ok(*self)
    }
}

impl<F, N> Copy for Grafted<F, N> {}

/// The height of the nodes of a tree of operations that stand over a chunk.
pub fn height<N: Chunks>() -> u32
    ensures exact { result ≡ grafting N.LEN }
    ensures span { 2 ^ result ≡ 8 * N.LEN }
    ensures least { 3 ≤ result }
    ensures most { result < 62 }
{
    N::span().ilog2()
}

// Whether the node that a node of the grafted tree stands for ends within 2^62 operations.
fn fits(height: u32, node: Node) -> bool
    requires low { height < 62 }
    requires within { trees.end_of node ≤ 2 ^ 62 }
    ensures { result ≡ fits height node }
{
    let high = height + node.height();
    high <= 62 && node.index() < 1 << (62 - high)
}

impl<F: Family, N: Chunks> Family for Grafted<F, N> {
    ghost shape = { kept_shape F.shape (grafting N.LEN) };

    ghost births = { F.births };

    fn location_to_position(location: Location<Self>) -> Position<Self>
        requires { location ≤ 2 ^ 62 }
        ensures place { result ≡ trees.Shape.position F.shape (trees.leaf location) }
        ensures size { result ≡ trees.Shape.size F.shape location }
    {
        Position::new(F::location_to_position(Location::new(location.get())).get())
    }

    fn birth_count(location: Location<Self>) -> u32
        requires { location < 2 ^ 62 }
        ensures { result ≡ Births.count F.births location }
    {
        F::birth_count(Location::new(location.get()))
    }

    fn born(location: Location<Self>, number: u32) -> Node
        requires leaf { location < 2 ^ 62 }
        requires number { number < Births.count F.births location }
        ensures { result ≡ Births.born F.births location number }
    {
        F::born(Location::new(location.get()), number)
    }

    fn peaks(alloc: Global, leaves: Location<Self>) -> Result<Vec<Node>, AllocError>
        requires { leaves ≤ 2 ^ 62 }
        ensures { IfOk result (λ v. v.items ≡ trees.peaks F.shape leaves) }
    {
        F::peaks(alloc, Location::new(leaves.get()))
    }

    fn peak_count(leaves: Location<Self>) -> u32
        requires { leaves ≤ 2 ^ 62 }
        ensures { result ≡ length (trees.peaks F.shape leaves) }
    {
        F::peak_count(Location::new(leaves.get()))
    }

    fn peak(leaves: Location<Self>, number: u32) -> Node
        requires leaves { leaves ≤ 2 ^ 62 }
        requires number { number < length (trees.peaks F.shape leaves) }
        ensures { slice_get (trees.peaks F.shape leaves) number ≡ Some result }
    {
        F::peak(Location::new(leaves.get()), number)
    }

    fn nodes_to_pin(
        alloc: Global,
        leaves: Location<Self>,
    ) -> Result<Vec<Position<Self>>, AllocError>
        requires { leaves ≤ 2 ^ 62 }
        ensures { IfOk result (λ v. v.items ≡ trees.peak_positions F.shape leaves) }
    {
        let places = F::nodes_to_pin(alloc, Location::new(leaves.get()))?;
        let mut found = Vec::with_capacity(alloc, places.len())?;
        for place in &places {
            found.push(Position::new(place.get()))?;
        }
        Ok(found)
    }

    fn subtree_root_position(start: Location<Self>, height: u32) -> Position<Self>
        requires whole { (index : ℕ) × (start ≡ index * 2 ^ height) }
        requires within { start + 2 ^ height ≤ 2 ^ 62 }
        ensures { (index : ℕ) → start ≡ index * 2 ^ height
            → result ≡ trees.Shape.position F.shape (record { height = height; index = index }) }
    {
        Position::new(F::subtree_root_position(Location::new(start.get()), height).get())
    }

    fn peak_birth_size(position: Position<Self>, height: u32) -> Location<Self>
        requires { StandsAt (kept_shape F.shape (grafting N.LEN)) height position }
        ensures { (index : ℕ)
            → trees.Shape.position F.shape (record { height = height; index = index }) ≡ position
            → result ≡ trees.Shape.birth F.shape (record { height = height; index = index }) }
    {
        Location::new(F::peak_birth_size(Position::new(position.get()), height).get())
    }

    fn number(node: Node) -> u64
        requires { trees.end_of node ≤ 2 ^ 62 }
        ensures { result ≡ trees.Shape.number (kept_shape F.shape (grafting N.LEN)) node }
    {
        let height = height::<N>();
        if fits(height, node) {
            F::number(raised(height, node))
        } else {
            0
        }
    }

    fn inactive_peaks(leaves: Location<Self>, floor: Location<Self>) -> usize
        requires { leaves ≤ 2 ^ 62 }
        ensures { result ≡ trees.inactive_peaks F.shape leaves floor }
    {
        F::inactive_peaks(Location::new(leaves.get()), Location::new(floor.get()))
    }

    ghost numbered = { kept_family F.shape (grafting N.LEN) F.births F.numbered };

    ghost peaked = { kept_peaks F.shape (grafting N.LEN) F.peaked };
}
