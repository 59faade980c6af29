//! Nodes of batches, put into a tree.

ghost use Rattle.std.specs.Prelude.{◌≡◌, ℕ, Some, All, Contains, ◌<◌, ◌≤◌, ◌+◌, length, map, take, slice_get};
ghost use Rattle.std.specs.Option.{option_or};
ghost use Rattle.std.specs.Vec.{vec_capacity};
ghost use Rattle.qm_model.specs.Trees as trees;
ghost use Rattle.qm_merkle.specs.Mems.{IsWhole};
ghost use Rattle.qm_merkle.specs.Batches.{found_at, layer_at, layers_at, all_layers, layers_since, stops, AreLinked};

use super::{Layer, MerkleizedBatch};
use crate::family::Family;
use crate::position::Position;
use qm_base::{Digest, Location};
use std::collections::BTreeMap;
use std::rc::Rc;

impl<F: Family, D: Digest> MerkleizedBatch<F, D> {
    // How many nodes the batch's tree has past those of a tree of so many leaves.
    pub(crate) fn room(&self, leaves: Location<F>) -> u64
        requires { Contains (stops self.now.newest.tree.leaves (all_layers self.now)) leaves }
        ensures linked { AreLinked F.shape self.now.newest.tree.leaves (all_layers self.now) }
        ensures nodes { trees.Shape.size F.shape leaves + result
            ≡ trees.Shape.size F.shape self.now.newest.tree.leaves }
    {
        F::location_to_position(self.newest.tree.leaves()).get()
            - F::location_to_position(leaves).get()
    }

    // Puts the batch's nodes, and those of the batches that it stands on, into a tree of so many leaves: `size` nodes were forgotten, but for the pins at these positions.
    pub(crate) fn put(
        &self,
        leaves: Location<F>,
        positions: &[Position<F>],
        pins: &mut [D],
        size: u64,
        nodes: &mut Vec<D>,
    )
        requires reach { Contains (stops self.now.newest.tree.leaves (all_layers self.now)) leaves }
        requires pins { length pins.old ≡ length positions.now }
        requires low { All (λ p. p < size) positions.now }
        requires size { size + length nodes.old.items ≡ trees.Shape.size F.shape leaves }
        requires room { trees.Shape.size F.shape self.now.newest.tree.leaves
            ≤ size + vec_capacity nodes.old }
        ensures length { length pins.new ≡ length pins.old }
        ensures pins { (i p : ℕ) → slice_get positions.now i ≡ Some p
            → slice_get pins.new i
            ≡ option_or (layers_at F.shape (layers_since leaves (all_layers self.now)) p)
            (slice_get pins.old i) }
        ensures size { size + length nodes.new.items
            ≡ trees.Shape.size F.shape self.now.newest.tree.leaves }
        ensures nodes { (i : ℕ)
            → slice_get nodes.new.items i
            ≡ option_or (layers_at F.shape (layers_since leaves (all_layers self.now)) (size + i))
            (slice_get nodes.old.items i) }
    {
        if self.newest.base().get() < leaves.get() {
            return;
        }
        let mut count = count_since(&self.older, leaves);
        while count > 0 {
            count -= 1;
            self.older[count].put(positions, pins, size, nodes);
        }
        self.newest.put(positions, pins, size, nodes);
    }
}

// How many layers, from the newest on, begin at so many leaves or later.
pub(super) fn count_since<F: Family, D: Digest>(
    layers: &[Rc<Layer<F, D>>],
    leaves: Location<F>,
) -> usize
    ensures within { result ≤ length layers.now }
    ensures since { take result (map (λ r. r.value) layers.now)
        ≡ layers_since leaves (map (λ r. r.value) layers.now) }
{
    let mut count = 0;
    for layer in layers {
        if layer.base().get() < leaves.get() {
            return count;
        }
        count += 1;
    }
    count
}

impl<F: Family, D: Digest> Layer<F, D> {
    // Puts the layer's nodes into those of a tree that ends where the layer begins.
    fn put(&self, positions: &[Position<F>], pins: &mut [D], size: u64, nodes: &mut Vec<D>)
        requires whole { IsWhole F.shape self.now.tree }
        requires pins { length pins.old ≡ length positions.now }
        requires low { All (λ p. p < trees.Shape.size F.shape self.now.tree.start) positions.now }
        requires size { size + length nodes.old.items
            ≡ trees.Shape.size F.shape self.now.tree.start }
        requires room { trees.Shape.size F.shape self.now.tree.leaves
            ≤ size + vec_capacity nodes.old }
        ensures length { length pins.new ≡ length pins.old }
        ensures pins { (i p : ℕ) → slice_get positions.now i ≡ Some p
            → slice_get pins.new i
            ≡ option_or (layer_at F.shape self.now p) (slice_get pins.old i) }
        ensures size { size + length nodes.new.items
            ≡ trees.Shape.size F.shape self.now.tree.leaves }
        ensures nodes { (i : ℕ)
            → slice_get nodes.new.items i
            ≡ option_or (layer_at F.shape self.now (size + i)) (slice_get nodes.old.items i) }
        ensures capacity { vec_capacity nodes.new ≡ vec_capacity nodes.old }
    {
        replace_pins(positions, pins, &self.replaced);
        replace_nodes(size, nodes, &self.replaced);
        self.tree.append_to(nodes);
    }
}

// Gives the pins at these positions the digests that replace them.
fn replace_pins<F, D: Copy>(positions: &[Position<F>], pins: &mut [D], replaced: &BTreeMap<u64, D>)
    requires { length pins.old ≡ length positions.now }
    ensures length { length pins.new ≡ length pins.old }
    ensures pins { (i p : ℕ) → slice_get positions.now i ≡ Some p
        → slice_get pins.new i
        ≡ option_or (found_at replaced.now.entries p) (slice_get pins.old i) }
{
    for (i, position) in positions.iter().enumerate() {
        if let Some(digest) = replaced.get(&position.get()) {
            pins[i] = *digest;
        }
    }
}

// Gives nodes that stand from a position on the digests that replace them.
fn replace_nodes<D: Copy>(size: u64, nodes: &mut [D], replaced: &BTreeMap<u64, D>)
    ensures length { length nodes.new ≡ length nodes.old }
    ensures nodes { (i : ℕ) → i < length nodes.old
        → slice_get nodes.new i
        ≡ option_or (found_at replaced.now.entries (size + i)) (slice_get nodes.old i) }
{
    for (position, digest) in replaced {
        if size <= *position {
            let index = (*position - size) as usize;
            if index < nodes.len() {
                nodes[index] = *digest;
            }
        }
    }
}
