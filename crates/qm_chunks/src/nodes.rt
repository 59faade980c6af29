//! Nodes over chunks in a tree of operations: where they stand, where they end and when they are born.

ghost use Rattle.std.specs.Prelude.{◌≡◌, ◌^◌, ◌≤◌};
ghost use Rattle.qm_model.specs.Trees as trees;
ghost use Rattle.qm_model.specs.Grafted as grafted;

use qm_base::Location;
use qm_merkle::family::place;
use qm_merkle::{Family, Node};

/// The node over the locations of a chunk.
pub fn chunk_node(height: u32, chunk: u64) -> Node
    ensures { result ≡ grafted.chunk_node height chunk }
{
    Node::new(height, chunk)
}

/// How many leaves a tree has when the node is born.
pub fn birth_of<F: Family>(node: Node) -> u64
    requires { trees.end_of node ≤ 2 ^ 62 }
    ensures { result ≡ trees.Shape.birth F.shape node }
{
    F::peak_birth_size(place::<F>(node), node.height()).get()
}
