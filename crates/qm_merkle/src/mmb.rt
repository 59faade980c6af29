//! The family of trees whose merges are delayed.

ghost use Rattle.std.specs.Prelude.{◌≡◌, ℕ, suc, ◌+◌, ◌-◌, ◌*◌, ◌/◌, ◌%◌, ◌<◌, ◌≤◌, ◌^◌, ◌==◌, if◌then◌else◌, IfOk, length, slice_get, Some};
ghost use Rattle.qm_model.specs.Trees as trees;
ghost use Rattle.qm_model.specs.Families.{StandsAt};
ghost use Rattle.qm_model.specs.Mmb.{mmb, mmb_births};
ghost use Rattle.qm_model.specs.Mmb as delayed;
ghost use Rattle.qm_model.proofs.MmbFamily.{mmb_is_family};
ghost use Rattle.qm_model.proofs.MmbPeaks.{mmb_has_peaks};

use crate::family::{Node, end_of};
use crate::position::Position;
use qm_base::Location;
use std::alloc::{AllocError, Global};

/// The family of trees whose merges are delayed: an append brings at most one node besides its leaf. Over n leaves it has a peak for each binary digit of n + 1 but the highest.
#[derive(Clone, Copy, Debug, PartialEq, Eq, PartialOrd, Ord)]
pub struct Family;

// The floor of the number's base-2 logarithm.
fn log(number: u64) -> u32
    requires { 0 < number }
    ensures exact { result ≡ delayed.log number }
    ensures low { result < 64 }
{
    number.ilog2()
}

// How many nodes a tree of so many leaves has.
fn size(leaves: u64) -> u64
    requires { leaves < 2 ^ 63 }
    ensures { result ≡ delayed.size leaves }
{
    2 * leaves - u64::from(log(leaves + 1))
}

// How many leaves a tree has when the node is born that has this height and ends with so many leaves.
fn birth(end: u64, height: u32) -> u64
    requires within { end ≤ 2 ^ 62 }
    requires low { height ≤ 62 }
    ensures exact { result ≡ (if height == 0 then end else end + 2 ^ (height - 1) - 1) }
    ensures within { result < 2 ^ 63 }
{
    if height == 0 {
        end
    } else {
        end + (1 << (height - 1)) - 1
    }
}

// Where the node stands that has this height and ends with so many leaves.
fn position(end: u64, height: u32) -> u64
    requires some { 0 < end }
    requires within { end ≤ 2 ^ 62 }
    requires low { height ≤ 62 }
    ensures { result
        ≡ delayed.size ((if height == 0 then end else end + 2 ^ (height - 1) - 1) - 1) +
        (if height == 0 then 0 else 1) }
{
    let leaf = size(birth(end, height) - 1);
    if height == 0 { leaf } else { leaf + 1 }
}

// The leaf that stands there.
fn location_at(position: u64) -> u64
    requires { (leaf : ℕ) × (leaf < 2 ^ 63) × (delayed.size leaf ≡ position) }
    ensures { (leaf : ℕ) → delayed.size leaf ≡ position → result ≡ leaf }
{
    let mut location = position / 2;
    'leaves: while size(location) < position {
        location += 1;
    }
    location
}

// The peak of this place, where the next number is one more than the leaves.
fn peak_at(next: u64, place: u32) -> Node
    requires low { place < 63 }
    requires some { 0 < next / 2 ^ suc place }
    ensures { result
        ≡ record {
          height = place + next / 2 ^ place % 2;
          index = (next / 2 ^ suc place - 1) *
              (2 - next / 2 ^ place % 2);
        } }
{
    let digit = (next >> place) % 2;
    let before = (next >> (place + 1)) - 1;
    if digit == 0 {
        Node::new(place, before * 2)
    } else {
        Node::new(place + 1, before)
    }
}

// The height of the peak of this place.
fn peak_height(next: u64, place: u32) -> u32
    requires { place < 63 }
    ensures { result ≡ place + next / 2 ^ place % 2 }
{
    if (next >> place) % 2 == 0 {
        place
    } else {
        place + 1
    }
}

// Where the peak of this place ends.
fn peak_end(next: u64, place: u32) -> u64
    requires low { place < 63 }
    requires some { 0 < next / 2 ^ place }
    ensures { result ≡ (next / 2 ^ place - 1) * 2 ^ place }
{
    ((next >> place) - 1) << place
}

impl crate::family::Family for Family {
    ghost shape = { mmb };

    ghost births = { mmb_births };

    fn location_to_position(location: Location<Self>) -> Position<Self>
        requires { location ≤ 2 ^ 62 }
        ensures place { result ≡ mmb.position (trees.leaf location) }
        ensures size { result ≡ mmb.size location }
    {
        Position::new(size(location.get()))
    }

    fn birth_count(location: Location<Self>) -> u32
        requires { location < 2 ^ 62 }
        ensures { result ≡ mmb_births.count location }
    {
        let next = location.get() + 2;
        if next == 1 << log(next) { 1 } else { 2 }
    }

    fn born(location: Location<Self>, number: u32) -> Node
        requires leaf { location < 2 ^ 62 }
        requires number { number < mmb_births.count location }
        ensures { result ≡ mmb_births.born location number }
    {
        if number == 0 {
            return Node::new(0, location.get());
        }
        let next = location.get() + 2;
        let height = next.trailing_zeros() + 1;
        Node::new(height, (next >> height) - 1)
    }

    fn peaks(alloc: Global, leaves: Location<Self>) -> Result<Vec<Node>, AllocError>
        requires { leaves ≤ 2 ^ 62 }
        ensures { IfOk result (λ v. v.items ≡ trees.peaks mmb leaves) }
    {
        let next = leaves.get() + 1;
        let mut found = Vec::new(alloc);
        let mut place = log(next);
        'places: while place > 0 {
            place -= 1;
            found.push(peak_at(next, place))?;
        }
        Ok(found)
    }

    fn peak_count(leaves: Location<Self>) -> u32
        requires { leaves ≤ 2 ^ 62 }
        ensures { result ≡ length (trees.peaks mmb leaves) }
    {
        log(leaves.get() + 1)
    }

    fn peak(leaves: Location<Self>, number: u32) -> Node
        requires leaves { leaves ≤ 2 ^ 62 }
        requires number { number < length (trees.peaks mmb leaves) }
        ensures { slice_get (trees.peaks mmb leaves) number ≡ Some result }
    {
        let next = leaves.get() + 1;
        peak_at(next, log(next) - 1 - number)
    }

    fn nodes_to_pin(
        alloc: Global,
        leaves: Location<Self>,
    ) -> Result<Vec<Position<Self>>, AllocError>
        requires { leaves ≤ 2 ^ 62 }
        ensures { IfOk result (λ v. v.items ≡ trees.peak_positions mmb leaves) }
    {
        let next = leaves.get() + 1;
        let mut found = Vec::new(alloc);
        let mut place = log(next);
        'places: while place > 0 {
            place -= 1;
            let end = peak_end(next, place);
            let height = peak_height(next, place);
            found.push(Position::new(position(end, height)))?;
        }
        Ok(found)
    }

    fn subtree_root_position(start: Location<Self>, height: u32) -> Position<Self>
        requires whole { (index : ℕ) × (start ≡ index * 2 ^ height) }
        requires within { start + 2 ^ height ≤ 2 ^ 62 }
        ensures { (index : ℕ) → start ≡ index * 2 ^ height
            → result ≡ mmb.position (record { height = height; index = index }) }
    {
        Position::new(position(start.get() + (1 << height), height))
    }

    fn peak_birth_size(position: Position<Self>, height: u32) -> Location<Self>
        requires { StandsAt mmb height position }
        ensures { (index : ℕ) → mmb.position (record { height = height; index = index }) ≡ position
            → result ≡ mmb.birth (record { height = height; index = index }) }
    {
        let leaf = if height == 0 {
            position.get()
        } else {
            position.get() - 1
        };
        Location::new(location_at(leaf) + 1)
    }

    fn number(node: Node) -> u64
        requires { trees.end_of node ≤ 2 ^ 62 }
        ensures { result ≡ mmb.number node }
    {
        position(end_of(node), node.height())
    }

    fn inactive_peaks(leaves: Location<Self>, floor: Location<Self>) -> usize
        requires { leaves ≤ 2 ^ 62 }
        ensures { result ≡ trees.inactive_peaks mmb leaves floor }
    {
        let next = leaves.get() + 1;
        let floor = floor.get();
        let mut count = 0;
        let mut place = log(next);
        'places: while place > 0 {
            place -= 1;
            if peak_end(next, place) <= floor {
                count += 1;
            }
        }
        count
    }

    ghost numbered = { mmb_is_family };

    ghost peaked = { mmb_has_peaks };
}
