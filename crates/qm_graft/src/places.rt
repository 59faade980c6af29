//! Positions of a tree of operations and of the grafted tree over it: which node stands where, and where a node of the one stands
//! in the other.

ghost use Rattle.std.specs.Prelude.{◌≡◌, ◌+◌, ◌^◌, ◌≤◌, ◌<◌, if◌then◌else◌, nat_lt, Some, None, IfSome};
ghost use Rattle.qm_model.specs.Trees as trees;
ghost use Rattle.qm_model.specs.Families.{Births};
ghost use Rattle.qm_model.specs.Grafted as grafted;
ghost use Rattle.qm_graft.specs.Grafting.{grafting};

use crate::grafted::{Grafted, height};
use qm_base::Location;
use qm_bits::Chunks;
use qm_chunks::Graftable;
use qm_chunks::chunks::raised;
use qm_merkle::family::place;
use qm_merkle::{Family, Node, Position};

/// The node that stands at a position, if a tree of so many leaves has one there. It looks for the leaf that the node is born
/// with, in as many steps as the number of leaves has digits in base 2.
pub fn node_at<F: Graftable>(leaves: Location<F>, position: Position<F>) -> Option<Node>
    requires { leaves ≤ 2 ^ 62 }
    ensures stands { IfSome result (λ x. trees.Shape.position F.shape x ≡ position) }
    ensures born { IfSome result (λ x. trees.Shape.birth F.shape x ≤ leaves) }
    ensures none { result ≡ None → trees.Shape.size F.shape leaves ≤ position }
{
    if position.get() >= F::location_to_position(leaves).get() {
        return None;
    }
    let with = last_leaf(leaves, position);
    let first = F::location_to_position(with).get();
    Some(born_at(with, position.get() - first))
}

// The last leaf that stands at a position or before it.
fn last_leaf<F: Graftable>(leaves: Location<F>, position: Position<F>) -> Location<F>
    requires few { leaves ≤ 2 ^ 62 }
    requires held { position < trees.Shape.size F.shape leaves }
    ensures within { result < leaves }
    ensures first { trees.Shape.size F.shape result ≤ position }
    ensures next { position < trees.Shape.size F.shape (result + 1) }
{
    let mut low = 0;
    let mut high = leaves.get();
    'halving: while high - low > 1 {
        let middle = low + (high - low) / 2;
        if F::location_to_position(Location::new(middle)).get() <= position.get() {
            low = middle;
        } else {
            high = middle;
        }
    }
    Location::new(low)
}

// The node of this number, from 0, of those that are born with a leaf. It counts from the last one back.
fn born_at<F: Family>(with: Location<F>, number: u64) -> Node
    requires leaf { with < 2 ^ 62 }
    requires number { number < Births.count F.births with }
    ensures { result ≡ Births.born F.births with number }
{
    let last = F::birth_count(with) - 1;
    let back = last as u64 - number;
    F::born(with, last - back as u32)
}

/// The node of the grafted tree that a node stands for which is as high as a chunk's or higher.
pub fn lowered(height: u32, node: Node) -> Node
    requires { height ≤ node.height }
    ensures { result ≡ grafted.lowered height node }
{
    Node::new(node.height() - height, node.index())
}

/// Where in the grafted tree a node stands of the tree of operations, if it is as high as a chunk's or higher.
pub fn grafted_position<F: Graftable, N: Chunks>(node: Node) -> Option<Position<Grafted<F, N>>>
    requires { trees.end_of node ≤ 2 ^ 62 }
    ensures { result
        ≡ (if nat_lt node.height (grafting N.LEN) then None else Some
        (trees.Shape.position F.shape (grafted.lowered (grafting N.LEN) node))) }
{
    let height = height::<N>();
    if node.height() < height {
        return None;
    }
    Some(place::<Grafted<F, N>>(lowered(height, node)))
}

/// Where in the tree of operations the node stands that a node of the grafted tree stands for.
pub fn operations_position<F: Graftable>(height: u32, node: Node) -> Position<F>
    requires { trees.end_of (grafted.raised height node) ≤ 2 ^ 62 }
    ensures { result ≡ trees.Shape.position F.shape (grafted.raised height node) }
{
    place::<F>(raised(height, node))
}
