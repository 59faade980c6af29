//! What a family of trees promises: how the nodes of a tree that grows by leaves are numbered.

ghost use Rattle.std.specs.Prelude.{◌≡◌, ℕ, ◌+◌, ◌*◌, ◌<◌, ◌≤◌, ◌^◌, length, slice_get, Some, IfOk};
ghost use Rattle.qm_model.specs.Trees as trees;
ghost use Rattle.qm_model.specs.Families.{Births, IsFamily, HasPeaks, StandsAt};
ghost use Rattle.qm_merkle.specs.Mems.{left_of, right_of};

use crate::position::Position;
use qm_base::Location;
use std::alloc::{AllocError, Global};
use std::marker::Model;

/// A node: the one of this height over the leaves from `index << height` on.
#[derive(Clone, Copy, Drop, Debug, PartialEq, Eq)]
pub struct Node {
    height: u32,
    index: u64,
}

impl Model for Node {
    ghost Value = { trees.Node };

    ghost view = { λ n. record { height = n.height; index = n.index } };

    ghost inverse = { λ n. record { height = n.height; index = n.index } };
}

impl Node {
    /// The node of this height and index.
    pub fn new(height: u32, index: u64) -> Self
        ensures { result ≡ record { height = height; index = index } }
    {
        Node { height, index }
    }

    /// How many rows of nodes stand below it.
    pub fn height(&self) -> u32
        ensures { result ≡ self.now.height }
    {
        self.height
    }

    /// How many nodes of its height stand to its left.
    pub fn index(&self) -> u64
        ensures { result ≡ self.now.index }
    {
        self.index
    }
}

/// A way to number the nodes of a tree that grows by leaves. Every call is exact up to 2^62 leaves.
pub trait Family: Copy {
    /// Sizes, positions, births and peaks.
    ghost shape: { trees.Shape };

    /// The nodes that an append brings.
    ghost births: { Births };

    /// Where the leaf at this location stands; also how many nodes a tree of so many leaves has.
    fn location_to_position(location: Location<Self>) -> Position<Self>
        requires { location ≤ 2 ^ 62 }
        ensures place { result ≡ trees.Shape.position shape (trees.leaf location) }
        ensures size { result ≡ trees.Shape.size shape location };

    /// How many nodes are born with the leaf at this location, the leaf among them.
    fn birth_count(location: Location<Self>) -> u32
        requires { location < 2 ^ 62 }
        ensures { result ≡ Births.count births location };

    /// The node of this number, from 0, of those that are born with the leaf.
    fn born(location: Location<Self>, number: u32) -> Node
        requires leaf { location < 2 ^ 62 }
        requires number { number < Births.count births location }
        ensures { result ≡ Births.born births location number };

    /// The peaks over so many leaves, from left to right.
    fn peaks(alloc: Global, leaves: Location<Self>) -> Result<Vec<Node>, AllocError>
        requires { leaves ≤ 2 ^ 62 }
        ensures { IfOk result (λ v. v.items ≡ trees.peaks shape leaves) };

    /// How many peaks stand over so many leaves, without memory.
    fn peak_count(leaves: Location<Self>) -> u32
        requires { leaves ≤ 2 ^ 62 }
        ensures { result ≡ length (trees.peaks shape leaves) };

    /// The peak of this number, from 0, of those over so many leaves, from left to right; without memory.
    fn peak(leaves: Location<Self>, number: u32) -> Node
        requires leaves { leaves ≤ 2 ^ 62 }
        requires number { number < length (trees.peaks shape leaves) }
        ensures { slice_get (trees.peaks shape leaves) number ≡ Some result };

    /// Where the peaks over so many leaves stand: the nodes that a tree pruned to there has to keep.
    fn nodes_to_pin(
        alloc: Global,
        leaves: Location<Self>,
    ) -> Result<Vec<Position<Self>>, AllocError>
        requires { leaves ≤ 2 ^ 62 }
        ensures { IfOk result (λ v. v.items ≡ trees.peak_positions shape leaves) };

    /// Where the node of this height stands whose first leaf is at `start`.
    fn subtree_root_position(start: Location<Self>, height: u32) -> Position<Self>
        requires whole { (index : ℕ) × (start ≡ index * 2 ^ height) }
        requires within { start + 2 ^ height ≤ 2 ^ 62 }
        ensures { (index : ℕ) → start ≡ index * 2 ^ height
            → result ≡ trees.Shape.position shape (record { height = height; index = index }) };

    /// How many leaves a tree has when the node is born that has this height and stands there.
    fn peak_birth_size(position: Position<Self>, height: u32) -> Location<Self>
        requires { StandsAt shape height position }
        ensures { (index : ℕ)
            → trees.Shape.position shape (record { height = height; index = index }) ≡ position
            → result ≡ trees.Shape.birth shape (record { height = height; index = index }) };

    /// The number that an inner node's digest is made with: where it stands, unless the tree is grafted onto another.
    fn number(node: Node) -> u64
        requires { trees.end_of node ≤ 2 ^ 62 }
        ensures { result ≡ trees.Shape.number shape node };

    /// How many of the peaks over so many leaves end at or below the floor.
    fn inactive_peaks(leaves: Location<Self>, floor: Location<Self>) -> usize
        requires { leaves ≤ 2 ^ 62 }
        ensures { result ≡ trees.inactive_peaks shape leaves floor };

    ghost numbered: { IsFamily shape births };

    ghost peaked: { HasPeaks shape };
}

/// The two nodes under a node, the left one first.
pub fn halves(node: Node) -> (Node, Node)
    requires high { 0 < node.height }
    requires within { trees.end_of node ≤ 2 ^ 62 }
    ensures left { result.0 ≡ left_of node }
    ensures right { result.1 ≡ right_of node }
    ensures below { (result.0.height < node.height) × (result.1.height < node.height) }
    ensures inside { (trees.end_of result.0 ≤ 2 ^ 62) × (trees.end_of result.1 ≤ 2 ^ 62) }
{
    let height = node.height() - 1;
    let index = 2 * node.index();
    (Node::new(height, index), Node::new(height, index + 1))
}

/// How many leaves stand up to the node's end.
pub fn end_of(node: Node) -> u64
    requires { trees.end_of node ≤ 2 ^ 62 }
    ensures { result ≡ trees.end_of node }
{
    (node.index() + 1) << node.height()
}

/// Where a node stands.
pub fn place<F: Family>(node: Node) -> Position<F>
    requires { trees.end_of node ≤ 2 ^ 62 }
    ensures { result ≡ trees.Shape.position F.shape node }
{
    F::subtree_root_position(Location::new(node.index() << node.height()), node.height())
}
