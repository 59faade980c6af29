//! The family of Merkle mountain ranges.

ghost use Rattle.std.specs.Prelude.{◌≡◌, ℕ, ◌+◌, ◌-◌, ◌*◌, ◌/◌, ◌%◌, ◌<◌, ◌≤◌, ◌^◌, ◌↔◌, IsTrue, IfOk, length, slice_get, Some};
ghost use Rattle.qm_model.specs.Trees as trees;
ghost use Rattle.qm_model.specs.Families.{StandsAt};
ghost use Rattle.qm_model.specs.Mmr.{mmr, mmr_births};
ghost use Rattle.qm_model.specs.Mmr as mountains;
ghost use Rattle.qm_model.proofs.MmrFamily.{mmr_is_family};
ghost use Rattle.qm_model.proofs.MmrPeaks.{mmr_has_peaks};

use crate::family::{Node, end_of};
use crate::position::Position;
use qm_base::Location;
use std::alloc::{AllocError, Global};

/// The family of Merkle mountain ranges: over so many leaves it has a peak for each binary digit 1 of their number.
#[derive(Clone, Copy, Debug, PartialEq, Eq, PartialOrd, Ord)]
pub struct Family;

// How many nodes a tree of so many leaves has.
fn size(leaves: u64) -> u64
    requires { leaves ≤ 2 ^ 62 }
    ensures { result ≡ mountains.size leaves }
{
    2 * leaves - u64::from(leaves.count_ones())
}

// Where the node stands that has this height and ends with so many leaves.
fn position(end: u64, height: u32) -> u64
    requires some { 0 < end }
    requires within { end ≤ 2 ^ 62 }
    ensures { result ≡ mountains.size (end - 1) + height }
{
    size(end - 1) + u64::from(height)
}

// The leaf that stands there.
fn location_at(position: u64) -> u64
    requires { (leaf : ℕ) × (leaf < 2 ^ 62) × (mountains.size leaf ≡ position) }
    ensures { (leaf : ℕ) → mountains.size leaf ≡ position → result ≡ leaf }
{
    let mut location = position / 2;
    'leaves: while size(location) < position {
        location += 1;
    }
    location
}

// Whether there is a peak of this height over so many leaves.
fn has_peak(leaves: u64, height: u32) -> bool
    requires { height < 64 }
    ensures { IsTrue result ↔ (leaves / 2 ^ height % 2 ≡ 1) }
{
    (leaves >> height) % 2 == 1
}

// Where the peak of this height ends.
fn peak_end(leaves: u64, height: u32) -> u64
    requires { height < 64 }
    ensures { result ≡ leaves / 2 ^ height * 2 ^ height }
{
    (leaves >> height) << height
}

// Whether there is a peak of this height that ends at or below the floor.
fn has_inactive_peak(leaves: u64, height: u32, floor: u64) -> bool
    requires { height < 64 }
    ensures { IsTrue result
        ↔ ((leaves / 2 ^ height % 2 ≡ 1) × (leaves / 2 ^ height * 2 ^ height ≤ floor)) }
{
    has_peak(leaves, height) && peak_end(leaves, height) <= floor
}

impl crate::family::Family for Family {
    ghost shape = { mmr };

    ghost births = { mmr_births };

    fn location_to_position(location: Location<Self>) -> Position<Self>
        requires { location ≤ 2 ^ 62 }
        ensures place { result ≡ mmr.position (trees.leaf location) }
        ensures size { result ≡ mmr.size location }
    {
        Position::new(size(location.get()))
    }

    fn birth_count(location: Location<Self>) -> u32
        requires { location < 2 ^ 62 }
        ensures { result ≡ mmr_births.count location }
    {
        (location.get() + 1).trailing_zeros() + 1
    }

    fn born(location: Location<Self>, number: u32) -> Node
        requires leaf { location < 2 ^ 62 }
        requires number { number < mmr_births.count location }
        ensures { result ≡ mmr_births.born location number }
    {
        Node::new(number, ((location.get() + 1) >> number) - 1)
    }

    fn peaks(alloc: Global, leaves: Location<Self>) -> Result<Vec<Node>, AllocError>
        requires { leaves ≤ 2 ^ 62 }
        ensures { IfOk result (λ v. v.items ≡ trees.peaks mmr leaves) }
    {
        let count = leaves.get();
        let mut found = Vec::new(alloc);
        let mut height = 63;
        'places: while height > 0 {
            height -= 1;
            if has_peak(count, height) {
                found.push(Node::new(height, (count >> height) - 1))?;
            }
        }
        Ok(found)
    }

    fn peak_count(leaves: Location<Self>) -> u32
        requires { leaves ≤ 2 ^ 62 }
        ensures { result ≡ length (trees.peaks mmr leaves) }
    {
        let leaves = leaves.get();
        let mut count = 0;
        let mut height = 63;
        'places: while height > 0 {
            height -= 1;
            if has_peak(leaves, height) {
                count += 1;
            }
        }
        count
    }

    fn peak(leaves: Location<Self>, number: u32) -> Node
        requires leaves { leaves ≤ 2 ^ 62 }
        requires number { number < length (trees.peaks mmr leaves) }
        ensures { slice_get (trees.peaks mmr leaves) number ≡ Some result }
    {
        let leaves = leaves.get();
        let mut left = number;
        let mut height = 63;
        'places: loop {
            height -= 1;
            if has_peak(leaves, height) {
                if left == 0 {
                    return Node::new(height, (leaves >> height) - 1);
                }
                left -= 1;
            }
        }
    }

    fn nodes_to_pin(
        alloc: Global,
        leaves: Location<Self>,
    ) -> Result<Vec<Position<Self>>, AllocError>
        requires { leaves ≤ 2 ^ 62 }
        ensures { IfOk result (λ v. v.items ≡ trees.peak_positions mmr leaves) }
    {
        let leaves = leaves.get();
        let mut found = Vec::new(alloc);
        let mut height = 63;
        'places: while height > 0 {
            height -= 1;
            if has_peak(leaves, height) {
                found.push(Position::new(position(peak_end(leaves, height), height)))?;
            }
        }
        Ok(found)
    }

    fn subtree_root_position(start: Location<Self>, height: u32) -> Position<Self>
        requires whole { (index : ℕ) × (start ≡ index * 2 ^ height) }
        requires within { start + 2 ^ height ≤ 2 ^ 62 }
        ensures { (index : ℕ) → start ≡ index * 2 ^ height
            → result ≡ mmr.position (record { height = height; index = index }) }
    {
        Position::new(position(start.get() + (1 << height), height))
    }

    fn peak_birth_size(position: Position<Self>, height: u32) -> Location<Self>
        requires { StandsAt mmr height position }
        ensures { (index : ℕ) → mmr.position (record { height = height; index = index }) ≡ position
            → result ≡ mmr.birth (record { height = height; index = index }) }
    {
        Location::new(location_at(position.get() - u64::from(height)) + 1)
    }

    fn number(node: Node) -> u64
        requires { trees.end_of node ≤ 2 ^ 62 }
        ensures { result ≡ mmr.number node }
    {
        position(end_of(node), node.height())
    }

    fn inactive_peaks(leaves: Location<Self>, floor: Location<Self>) -> usize
        requires { leaves ≤ 2 ^ 62 }
        ensures { result ≡ trees.inactive_peaks mmr leaves floor }
    {
        let leaves = leaves.get();
        let floor = floor.get();
        let mut count = 0;
        let mut height = 63;
        'places: while height > 0 {
            height -= 1;
            if has_inactive_peak(leaves, height, floor) {
                count += 1;
            }
        }
        count
    }

    ghost numbered = { mmr_is_family };

    ghost peaked = { mmr_has_peaks };
}
