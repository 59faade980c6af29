//! Trees in memory.

ghost use Rattle.std.specs.Prelude.{◌≡◌, ℕ, suc, List, [], ◌∷◌, ◌++◌, All, Contains, IsSome, ◌↔◌, Some, IfOk, IfErr, OnOk, OnErr, ◌⊎◌, slice_index, ◌<◌, ◌≤◌, ◌^◌, ◌+◌, ◌-◌, length, slice_get, map, max};
ghost use Rattle.std.specs.Vec.{vec_capacity};
ghost use Rattle.qm_model.specs.Trees as trees;
ghost use Rattle.qm_merkle.specs.Mems.{IsWhole, Stands, Holds, AreBorn, node_at, pin_at, more};
ghost use Rattle.qm_merkle.specs.Batches.{all_layers, stops, IsHistory};
ghost use Rattle.qm_model.specs.Families.{Births, IsHeld, over};

use crate::batch::{MerkleizedBatch, UnmerkleizedBatch};
use crate::family::{Family, Node, halves, place};
use crate::hasher::StandardHasher;
use crate::position::Position;
use qm_base::{Digest, Hasher, Location, MerkleError};
use std::alloc::{AllocError, Global};
use std::marker::Model;

/// A tree over leaves' digests that may have forgotten its first leaves.
#[derive(Drop)]
pub struct Mem<F: Family, D> {
    start: Location<F>,
    leaves: Location<F>,
    positions: Vec<Position<F>>,
    pins: Vec<D>,
    nodes: Vec<D>,
}

impl<F: Family, D> Model for Mem<F, D> {
    ghost use Rattle.std.specs.Prelude.{◌≡◌};
    ghost use Rattle.qm_model.specs.Trees.{peak_positions};
    ghost use Rattle.qm_merkle.specs.Mems.{Kept, IsWhole};

    ghost Value = { Kept D };

    ghost view = { λ m. record { start = m.start; leaves = m.leaves; pins = m.pins.items; nodes = m.nodes.items } };

    ghost invariant = { λ m. (m.positions.items ≡ peak_positions F.shape m.start) × IsWhole F.shape (record { start = m.start; leaves = m.leaves; pins = m.pins.items; nodes = m.nodes.items }) };
}

impl<F: Family, D: Digest> Mem<F, D> {
    /// A tree of no leaves.
    pub fn new(alloc: Global) -> Self
        ensures empty { result ≡ record { start = 0; leaves = 0; pins = []; nodes = [] } }
        ensures stands { (hash : List ℕ → List ℕ) → Stands F.shape D.bytes hash result [] }
    {
        Mem {
            start: Location::new(0),
            leaves: Location::new(0),
            positions: Vec::new(alloc),
            pins: Vec::new(alloc),
            nodes: Vec::new(alloc),
        }
    }

    /// The tree that was pruned to there, of the nodes from there on and the digests of the peaks there.
    pub fn from_components(
        alloc: Global,
        nodes: Vec<D>,
        pruned_to: Location<F>,
        pinned: Vec<D>,
    ) -> Result<Self, MerkleError>
        requires pins { length pinned.items ≤ length (trees.peaks F.shape pruned_to) }
        requires size { (n : ℕ) × (n ≤ 2 ^ 62)
            × (trees.Shape.size F.shape n
            ≡ trees.Shape.size F.shape pruned_to + length nodes.items) }
        ensures ok { (n : ℕ)
            → trees.Shape.size F.shape n ≡ trees.Shape.size F.shape pruned_to + length nodes.items
            → IfOk result (λ mem. mem
            ≡ record { start = pruned_to; leaves = n; pins = pinned.items; nodes = nodes.items }) }
        ensures enough { OnOk result
            (length pinned.items ≡ length (trees.peaks F.shape pruned_to)) }
        ensures missing { IfErr result (λ e. (e ≡ MerkleError.Memory)
            ⊎ ((length pinned.items < length (trees.peaks F.shape pruned_to))
            × (e
            ≡ MerkleError.MissingNode
            (slice_index (trees.peak_positions F.shape pruned_to) (length pinned.items))))) }
    {
        let positions = F::nodes_to_pin(alloc, pruned_to)?;
        if pinned.len() < positions.len() {
            return Err(MerkleError::MissingNode(positions[pinned.len()].get()));
        }
        Ok(Mem::of_parts(positions, nodes, pruned_to, pinned))
    }

    /// The tree that was pruned to there, of the nodes from there on and all the digests of the peaks there.
    pub fn from_pruned_with_retained(
        alloc: Global,
        nodes: Vec<D>,
        pruned_to: Location<F>,
        pinned: Vec<D>,
    ) -> Result<Self, AllocError>
        requires pins { length pinned.items ≡ length (trees.peaks F.shape pruned_to) }
        requires size { (n : ℕ) × (n ≤ 2 ^ 62)
            × (trees.Shape.size F.shape n
            ≡ trees.Shape.size F.shape pruned_to + length nodes.items) }
        ensures { (n : ℕ)
            → trees.Shape.size F.shape n ≡ trees.Shape.size F.shape pruned_to + length nodes.items
            → IfOk result (λ mem. mem
            ≡ record { start = pruned_to; leaves = n; pins = pinned.items; nodes = nodes.items }) }
    {
        let positions = F::nodes_to_pin(alloc, pruned_to)?;
        Ok(Mem::of_parts(positions, nodes, pruned_to, pinned))
    }

    /// How many nodes the tree has, forgotten ones among them.
    pub fn size(&self) -> Position<F>
        ensures { result ≡ trees.Shape.size F.shape self.now.leaves }
    {
        F::location_to_position(self.leaves)
    }

    /// How many leaves the tree has, forgotten ones among them.
    pub fn leaves(&self) -> Location<F>
        ensures { result ≡ self.now.leaves }
    {
        self.leaves
    }

    /// The leaf that the tree is kept from, and how many leaves it has.
    pub fn bounds(&self) -> (Location<F>, Location<F>)
        ensures start { result.0 ≡ self.now.start }
        ensures leaves { result.1 ≡ self.now.leaves }
        ensures whole { IsWhole F.shape self.now }
    {
        (self.start, self.leaves)
    }

    /// The digest of the node at this position, if the tree holds it.
    pub fn get_node(&self, position: Position<F>) -> Option<D>
        ensures value { result ≡ node_at F.shape self.now position }
        ensures held { IsSome result ↔ Holds F.shape self.now position }
    {
        let size = F::location_to_position(self.start).get();
        if position.get() < size {
            return pin(&self.positions, &self.pins, position.get());
        }
        let index = (position.get() - size) as usize;
        if index < self.nodes.len() {
            Some(self.nodes[index])
        } else {
            None
        }
    }

    /// The root over all leaves, the first of whose peaks are inactive.
    pub fn root<H: Hasher<Digest = D>>(
        &self,
        alloc: Global,
        hasher: &mut StandardHasher<H>,
        inactive: usize,
    ) -> Result<D, AllocError>
        requires { inactive ≤ length (trees.peaks F.shape self.now.leaves) }
        ensures root { (leaves : List (List ℕ)) → Stands F.shape D.bytes H.hash self.now leaves
            → IfOk result (λ d. D.bytes d ≡ trees.root H.hash F.shape leaves inactive) }
        ensures made { OnOk result
            (hasher.new ≡ more hasher.old (max 1 (length (trees.peaks F.shape self.now.leaves)))) }
    {
        let positions = F::nodes_to_pin(alloc, self.leaves)?;
        let peaks = self.digests(alloc, &positions)?;
        Ok(hasher.root(self.leaves, inactive, &peaks))
    }

    /// A batch that stands on the tree as it is.
    pub fn new_batch(&self, alloc: Global) -> UnmerkleizedBatch<F, D>
        ensures { result
            ≡ record {
              start = self.now.start;
              base = self.now.leaves;
              layers = [];
              replaced = [];
              added = [];
            } }
    {
        UnmerkleizedBatch::of_tree(alloc, self.start, self.leaves)
    }

    /// Takes over the nodes that a batch adds and replaces, and those of the batches that it stands on and that the tree does not have yet.
    pub fn apply_batch(&mut self, batch: &MerkleizedBatch<F, D>) -> Result<(), AllocError>
        requires reach { Contains (stops batch.now.newest.tree.leaves (all_layers batch.now))
            self.old.leaves }
        ensures bounds { OnOk result
            ((self.new.start ≡ self.old.start) × (self.new.leaves ≡ batch.now.newest.tree.leaves)) }
        ensures stands { (hash : List ℕ → List ℕ) (list new : List (List ℕ))
            (lists : List (List (List ℕ)))
            → IsHistory F.shape D.bytes hash (all_layers batch.now) (new ∷ lists)
            → Contains (new ∷ lists) list → Stands F.shape D.bytes hash self.old list
            → OnOk result (Stands F.shape D.bytes hash self.new new) }
        ensures err { OnErr result (self.new ≡ self.old) }
    {
        let size = F::location_to_position(self.start).get();
        self.nodes.reserve(batch.room(self.leaves) as usize)?;
        batch.put(
            self.leaves,
            &self.positions,
            &mut self.pins,
            size,
            &mut self.nodes,
        );
        self.leaves = batch.leaves();
        Ok(())
    }

    /// Forgets the leaves below a location, but for the digests of the peaks there.
    pub fn prune(&mut self, alloc: Global, to: Location<F>) -> Result<(), AllocError>
        requires start { self.old.start ≤ to }
        requires leaves { to ≤ self.old.leaves }
        ensures bounds { OnOk result ((self.new.start ≡ to) × (self.new.leaves ≡ self.old.leaves)) }
        ensures same { OnOk result ((p : ℕ) → Holds F.shape self.new p
            → node_at F.shape self.new p ≡ node_at F.shape self.old p) }
        ensures stands { (hash : List ℕ → List ℕ) (leaves : List (List ℕ))
            → Stands F.shape D.bytes hash self.old leaves
            → OnOk result (Stands F.shape D.bytes hash self.new leaves) }
        ensures err { OnErr result (self.new ≡ self.old) }
    {
        let start = self.start;
        let positions = F::nodes_to_pin(alloc, to)?;
        let pins = self.digests(alloc, &positions)?;
        let forgotten = F::location_to_position(to).get() - F::location_to_position(start).get();
        let (_, rest) = self.nodes.split_at(forgotten as usize);
        let nodes = Vec::from_slice(alloc, rest)?;
        self.start = to;
        self.positions = positions;
        self.pins = pins;
        self.nodes = nodes;
        Ok(())
    }

    // The digest of a node that the tree holds.
    fn node(&self, position: Position<F>) -> D
        requires { Holds F.shape self.now position }
        ensures { node_at F.shape self.now position ≡ Some result }
    {
        self.get_node(position).unwrap()
    }

    // The digests of nodes that the tree holds.
    fn digests(&self, alloc: Global, positions: &[Position<F>]) -> Result<Vec<D>, AllocError>
        requires { All (Holds F.shape self.now) positions.now }
        ensures { IfOk result (λ v.
            map Some v.items ≡ map (node_at F.shape self.now) positions.now) }
    {
        let mut found = Vec::with_capacity(alloc, positions.len())?;
        for position in positions {
            found.push_reserved(self.node(*position));
        }
        Ok(found)
    }

    // Adds a leaf, with the nodes that are born with it, which are made in the buffer.
    fn add<H: Hasher<Digest = D>>(
        &mut self,
        hasher: &mut StandardHasher<H>,
        leaf: D,
        buffer: &mut Vec<D>,
    ) -> Result<(), AllocError>
        requires { self.old.leaves < 2 ^ 62 }
        ensures bounds { OnOk result
            ((self.new.start ≡ self.old.start) × (self.new.leaves ≡ self.old.leaves + 1)) }
        ensures stands { (leaves : List (List ℕ)) → Stands F.shape D.bytes H.hash self.old leaves
            → OnOk result (Stands F.shape D.bytes H.hash self.new (leaves ++ D.bytes leaf ∷ [])) }
        ensures made { OnOk result (hasher.new
            ≡ more hasher.old (trees.Shape.size F.shape (self.old.leaves + 1) - trees.Shape.size
            F.shape self.old.leaves - 1)) }
        ensures err { OnErr result (self.new ≡ self.old) }
    {
        self.births(hasher, leaf, buffer)?;
        self.nodes.extend_from_slice(buffer)?;
        self.leaves = Location::new(self.leaves.get() + 1);
        Ok(())
    }

    // Adds leaves, with the nodes that are born with them.
    pub(crate) fn add_all<H: Hasher<Digest = D>>(
        &mut self,
        alloc: Global,
        hasher: &mut StandardHasher<H>,
        leaves: &[D],
    ) -> Result<(), AllocError>
        requires { self.old.leaves + length leaves.now ≤ 2 ^ 62 }
        ensures bounds { OnOk result ((self.new.start ≡ self.old.start)
            × (self.new.leaves ≡ self.old.leaves + length leaves.now)) }
        ensures stands { (list : List (List ℕ)) → Stands F.shape D.bytes H.hash self.old list
            → OnOk result
            (Stands F.shape D.bytes H.hash self.new (list ++ map D.bytes leaves.now)) }
        ensures made { OnOk result (hasher.new
            ≡ more hasher.old (trees.Shape.size F.shape self.new.leaves - trees.Shape.size F.shape
            self.old.leaves - length leaves.now)) }
    {
        self.make_room(leaves.len() as u64)?;
        let mut buffer = Vec::new(alloc);
        for leaf in leaves {
            self.add(hasher, *leaf, &mut buffer)?;
        }
        Ok(())
    }

    // Makes the nodes that are born with a leaf in the buffer, in place of what it has.
    fn births<H: Hasher<Digest = D>>(
        &self,
        hasher: &mut StandardHasher<H>,
        leaf: D,
        buffer: &mut Vec<D>,
    ) -> Result<(), AllocError>
        requires { self.now.leaves < 2 ^ 62 }
        ensures count { OnOk result
            (length buffer.new.items ≡ Births.count F.births self.now.leaves) }
        ensures born { (leaves : List (List ℕ)) → Stands F.shape D.bytes H.hash self.now leaves
            → OnOk result (AreBorn F.shape F.births D.bytes H.hash self.now.leaves
            (leaves ++ D.bytes leaf ∷ []) buffer.new.items) }
        ensures made { OnOk result (hasher.new ≡ more hasher.old (length buffer.new.items - 1)) }
    {
        let count = F::birth_count(self.leaves);
        buffer.clear();
        buffer.reserve(count as usize)?;
        buffer.push_reserved(leaf);
        for number in 1..count {
            let digest = self.parent(hasher, buffer, number);
            buffer.push_reserved(digest);
        }
        Ok(())
    }

    // The digest of the next node that is born with a leaf, over two halves that are there.
    fn parent<H: Hasher<Digest = D>>(
        &self,
        hasher: &mut StandardHasher<H>,
        made: &[D],
        number: u32,
    ) -> D
        requires few { self.now.leaves < 2 ^ 62 }
        requires number { length made.now ≡ number }
        requires some { 0 < number }
        requires room { number < Births.count F.births self.now.leaves }
        ensures digest { (leaves : List (List ℕ)) (leaf : D)
            → Stands F.shape D.bytes H.hash self.now leaves
            → AreBorn F.shape F.births D.bytes H.hash self.now.leaves (leaves ++ D.bytes leaf ∷ [])
            made.now
            → D.bytes result
            ≡ trees.digest_of H.hash F.shape (leaves ++ D.bytes leaf ∷ [])
            (Births.born F.births self.now.leaves number) }
        ensures made { hasher.new ≡ more hasher.old 1 }
    {
        let node = F::born(self.leaves, number);
        let (left, right) = halves(node);
        let left = self.half(made, left);
        let right = self.half(made, right);
        hasher.node_digest(F::number(node), &left, &right)
    }

    // The digest of a node that is there when these of a leaf's nodes are made, if the node over it is not.
    fn half(&self, made: &[D], node: Node) -> D
        requires room { length made.now ≤ Births.count F.births self.now.leaves }
        requires held { IsHeld F.shape F.births self.now.leaves (length made.now) node }
        requires bare { self.now.start < trees.Shape.birth F.shape (over node) }
        requires within { trees.end_of node ≤ 2 ^ 62 }
        ensures old { trees.Shape.birth F.shape node ≤ self.now.leaves
            → node_at F.shape self.now (trees.Shape.position F.shape node) ≡ Some result }
        ensures new { self.now.leaves < trees.Shape.birth F.shape node
            → slice_get made.now
            (trees.Shape.position F.shape node - trees.Shape.size F.shape self.now.leaves)
            ≡ Some result }
    {
        let position = place(node);
        let size = F::location_to_position(self.leaves);
        if position.get() < size.get() {
            self.node(position)
        } else {
            made[(position.get() - size.get()) as usize]
        }
    }
}

impl<F: Family, D> Mem<F, D> {
    // The tree of these nodes, positions of pins and pins.
    pub(crate) fn of_parts(
        positions: Vec<Position<F>>,
        nodes: Vec<D>,
        start: Location<F>,
        pins: Vec<D>,
    ) -> Self
        requires positions { positions.items ≡ trees.peak_positions F.shape start }
        requires pins { length pins.items ≡ length (trees.peaks F.shape start) }
        requires size { (n : ℕ) × (n ≤ 2 ^ 62)
            × (trees.Shape.size F.shape n ≡ trees.Shape.size F.shape start + length nodes.items) }
        ensures { (n : ℕ)
            → trees.Shape.size F.shape n ≡ trees.Shape.size F.shape start + length nodes.items
            → result
            ≡ record { start = start; leaves = n; pins = pins.items; nodes = nodes.items } }
    {
        let leaves = leaves_past(start, nodes.len() as u64);
        Mem {
            start,
            leaves,
            positions,
            pins,
            nodes,
        }
    }

    // Takes the room that the nodes of so many more leaves need.
    fn make_room(&mut self, more: u64) -> Result<(), AllocError>
        requires { self.old.leaves + more ≤ 2 ^ 62 }
        ensures { self.new ≡ self.old }
    {
        let leaves = Location::new(self.leaves.get() + more);
        let size = F::location_to_position(leaves).get();
        let room = size - F::location_to_position(self.leaves).get();
        self.nodes.reserve(room as usize)
    }
}

impl<F: Family, D: Copy> Mem<F, D> {
    // Adds the nodes from the kept start on, if there is room.
    pub(crate) fn append_to(&self, nodes: &mut Vec<D>)
        requires { length nodes.old.items + length self.now.nodes ≤ vec_capacity nodes.old }
        ensures items { nodes.new.items ≡ nodes.old.items ++ self.now.nodes }
        ensures capacity { vec_capacity nodes.new ≡ vec_capacity nodes.old }
    {
        for node in &self.nodes {
            nodes.push_reserved(*node);
        }
    }
}

// How many leaves a tree has with so many nodes past the size at a start.
fn leaves_past<F: Family>(start: Location<F>, nodes: u64) -> Location<F>
    requires { (n : ℕ) × (n ≤ 2 ^ 62)
        × (trees.Shape.size F.shape n ≡ trees.Shape.size F.shape start + nodes) }
    ensures { (n : ℕ) → trees.Shape.size F.shape n ≡ trees.Shape.size F.shape start + nodes
        → result ≡ n }
{
    let before = F::location_to_position(start).get();
    let mut low = start.get();
    let mut high = 1 << 62;
    'leaves: while low < high {
        let middle = low + (high - low) / 2;
        if F::location_to_position(Location::new(middle)).get() - before < nodes {
            low = middle + 1;
        } else {
            high = middle;
        }
    }
    Location::new(low)
}

// The digest that goes with a position.
fn pin<F, D: Copy>(positions: &[Position<F>], digests: &[D], position: u64) -> Option<D>
    requires { length digests.now ≡ length positions.now }
    ensures { result ≡ pin_at positions.now digests.now position }
{
    for (i, at) in positions.iter().enumerate() {
        if at.get() == position {
            return Some(digests[i]);
        }
    }
    None
}
