//! The digests that a proof lists.

ghost use Rattle.std.specs.Prelude.{◌≡◌, ◌≤◌, ◌^◌, ◌++◌, [], ◌∷◌, Some, IfOk, IfErr, OnOk, map};
ghost use Rattle.qm_model.specs.Trees as trees;
ghost use Rattle.qm_model.specs.Proofs as model;
ghost use Rattle.qm_proofs.specs.Proofs.{needed_positions, Lacks};

use super::Nodes;
use qm_base::{Digest, Location, MerkleError};
use qm_merkle::family::{halves, place};
use qm_merkle::{Family, Node};
use std::alloc::{AllocError, Global};

// The digests of the nodes that a proof of the leaves from a start up to an end lists of a tree.
pub(super) fn list_peaks<F: Family, D: Digest, N: Nodes<F, D>>(
    alloc: Global,
    nodes: &N,
    leaves: Location<F>,
    start: u64,
    end: u64,
) -> Result<Vec<D>, MerkleError>
    requires { leaves ≤ 2 ^ 62 }
    ensures digests { IfOk result (λ v.
        map Some v.items ≡ map (N.node_at nodes.now) (needed_positions F.shape leaves start end)) }
    ensures cause { IfErr result
        (Lacks (N.node_at nodes.now) (needed_positions F.shape leaves start end)) }
{
    let mut digests = Vec::new(alloc);
    let count = F::peak_count(leaves);
    'peaks: for number in 0..count {
        let peak = F::peak(leaves, number);
        list_node(nodes, peak, start, end, &mut digests)?;
    }
    Ok(digests)
}

// Adds the digests that a proof lists of a node.
fn list_node<F: Family, D: Digest, N: Nodes<F, D>>(
    nodes: &N,
    node: Node,
    start: u64,
    end: u64,
    digests: &mut Vec<D>,
) -> Result<(), MerkleError>
    requires { trees.end_of node ≤ 2 ^ 62 }
    ensures digests { OnOk result (map Some digests.new.items
        ≡ map Some digests.old.items
        ++ map (N.node_at nodes.now)
        (map (trees.Shape.position F.shape) (model.needed start end node.height node.index))) }
    ensures cause { IfErr result (Lacks (N.node_at nodes.now)
        (map (trees.Shape.position F.shape) (model.needed start end node.height node.index))) }
{
    if !meets(node, start, end) {
        return list_digest(nodes, node, digests);
    }
    if node.height() == 0 {
        return Ok(());
    }
    let (left, right) = halves(node);
    list_node(nodes, left, start, end, digests)?;
    list_node(nodes, right, start, end, digests)
}

// Adds the digest of a node.
fn list_digest<F: Family, D: Digest, N: Nodes<F, D>>(
    nodes: &N,
    node: Node,
    digests: &mut Vec<D>,
) -> Result<(), MerkleError>
    requires { trees.end_of node ≤ 2 ^ 62 }
    ensures digests { OnOk result (map Some digests.new.items
        ≡ map Some digests.old.items ++ N.node_at nodes.now (trees.Shape.position F.shape node)
        ∷ []) }
    ensures cause { IfErr result
        (Lacks (N.node_at nodes.now) (trees.Shape.position F.shape node ∷ [])) }
{
    let position = place::<F>(node);
    match nodes.get_node(position) {
        Some(digest) => {
            add(digests, digest)?;
            Ok(())
        }
        None => Err(MerkleError::ElementPruned(position.get())),
    }
}

// Adds a digest.
fn add<D: Digest>(digests: &mut Vec<D>, digest: D) -> Result<(), AllocError>
    ensures { OnOk result (digests.new.items ≡ digests.old.items ++ digest ∷ []) }
{
    digests.push(digest)?;
    Ok(())
}

// Whether the node has a leaf of those from a start up to, and without, an end.
pub(super) fn meets(node: Node, start: u64, end: u64) -> bool
    requires { trees.end_of node ≤ 2 ^ 62 }
    ensures { result ≡ model.meets start end node }
{
    let first = node.index() << node.height();
    let past = (node.index() + 1) << node.height();
    start.max(first) < end.min(past)
}
