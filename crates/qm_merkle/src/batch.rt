//! Batches of leaves over a tree in memory, which stand on one another.

ghost use Rattle.std.specs.Prelude.{◌≡◌, ◌≢◌, ◌⊎◌, ◌↔◌, Some, ℕ, suc, List, [], ◌∷◌, ◌++◌, All, Contains, IsSome, IfOk, IfErr, OnOk, OnErr, Ok, Err, ◌<◌, ◌≤◌, ◌^◌, ◌+◌, ◌-◌, ◌*◌, ◌/◌, IsTrue, length, map, max, get_or, slice_set};
ghost use Rattle.std.specs.Option.{option_or};
ghost use Rattle.std.specs.Ordering.{nat_cmp};
ghost use Rattle.std.specs.BTreeMap.{insert_entry};
ghost use Rattle.qm_model.specs.Trees as trees;
ghost use Rattle.qm_merkle.specs.Mems.{Kept, IsWhole, Stands, node_at, more};
ghost use Rattle.qm_merkle.specs.Batches.{Layer as Part, Draft, Batch, found_at, layer_at, layers_at, all_layers, stops, layers_since, stops_since, lists_since, Leads, AreLinked, IsHistory, leaves_of, replaced_from, drafted, updated, IsOver, made_at, AreThere, AreRead, AreRight, HaveOver};

use crate::family::Family;
use crate::hasher::StandardHasher;
use crate::mem::Mem;
use crate::position::Position;
use qm_base::{Digest, Hasher, Location, MerkleError};
use std::alloc::{AllocError, Global};
use std::collections::BTreeMap;
use std::marker::Model;
use std::rc::Rc;

mod put;
mod rows;

/// The tree of a batch's list, kept from where the batch's own leaves begin, and the nodes before these that it replaces, by position.
#[derive(Drop)]
pub struct Layer<F: Family, D> {
    tree: Mem<F, D>,
    replaced: BTreeMap<u64, D>,
}

impl<F: Family, D> Model for Layer<F, D> {
    ghost use Rattle.qm_merkle.specs.Batches as batches;

    ghost Value = { batches.Layer D };

    ghost view = { λ l. record { tree = l.tree; replaced = l.replaced.entries } };
}

/// A batch whose nodes are not hashed yet.
#[derive(Drop)]
pub struct UnmerkleizedBatch<F: Family, D> {
    start: Location<F>,
    base: Location<F>,
    layers: Vec<Rc<Layer<F, D>>>,
    replaced: BTreeMap<u64, D>,
    added: Vec<D>,
}

impl<F: Family, D> Model for UnmerkleizedBatch<F, D> {
    ghost use Rattle.std.specs.Prelude.{◌≤◌, ◌<◌, ◌+◌, ◌^◌, length, map, All};
    ghost use Rattle.qm_merkle.specs.Batches as batches;

    ghost Value = { batches.Draft D };

    ghost view = { λ b. record { start = b.start; base = b.base; layers = map (λ r. r.value) b.layers.items; replaced = b.replaced.entries; added = b.added.items } };

    ghost invariant = { λ b. (b.start ≤ b.base) × (b.base + length b.added.items ≤ 2 ^ 62) × All (λ e. e.0 < b.base) b.replaced.entries × batches.AreLinked F.shape b.base (map (λ r. r.value) b.layers.items) };
}

/// A batch whose nodes are hashed. It stands on a tree, or on other batches.
#[derive(Drop)]
pub struct MerkleizedBatch<F: Family, D> {
    start: Location<F>,
    newest: Rc<Layer<F, D>>,
    older: Vec<Rc<Layer<F, D>>>,
}

impl<F: Family, D> Model for MerkleizedBatch<F, D> {
    ghost use Rattle.std.specs.Prelude.{◌≤◌, map, ◌∷◌};
    ghost use Rattle.qm_merkle.specs.Batches as batches;

    ghost Value = { batches.Batch D };

    ghost view = { λ b. record { start = b.start; newest = b.newest.value; older = map (λ r. r.value) b.older.items } };

    ghost invariant = { λ b. (b.start ≤ b.newest.value.tree.start) × batches.AreLinked F.shape b.newest.value.tree.leaves (b.newest.value ∷ map (λ r. r.value) b.older.items) };
}

impl<F: Family, D> UnmerkleizedBatch<F, D> {
    // A batch of a tree of so many leaves, kept from a start.
    pub(crate) fn of_tree(alloc: Global, start: Location<F>, leaves: Location<F>) -> Self
        requires order { start ≤ leaves }
        requires few { leaves ≤ 2 ^ 62 }
        ensures { result
            ≡ record { start = start; base = leaves; layers = []; replaced = []; added = [] } }
    {
        UnmerkleizedBatch {
            start,
            base: leaves,
            layers: Vec::new(alloc),
            replaced: BTreeMap::new(alloc),
            added: Vec::new(alloc),
        }
    }
}

impl<F: Family, D: Digest> UnmerkleizedBatch<F, D> {
    /// How many leaves the batch's list has.
    pub fn leaves(&self) -> Location<F>
        ensures { result ≡ leaves_of self.now }
    {
        Location::new(self.base.get() + self.added.len() as u64)
    }

    /// Adds a leaf with this digest.
    pub fn add_leaf_digest(&mut self, digest: D) -> Result<(), AllocError>
        requires { leaves_of self.old < 2 ^ 62 }
        ensures ok { OnOk result
            (self.new ≡ record self.old { added = self.old.added ++ digest ∷ [] }) }
        ensures err { OnErr result (self.new ≡ self.old) }
    {
        self.added.push(digest)?;
        Ok(())
    }

    /// Adds leaves with these digests.
    pub fn add_leaf_digests(&mut self, digests: &[D]) -> Result<(), AllocError>
        requires { leaves_of self.old + length digests.now ≤ 2 ^ 62 }
        ensures ok { OnOk result
            (self.new ≡ record self.old { added = self.old.added ++ digests.now }) }
        ensures err { OnErr result (self.new ≡ self.old) }
    {
        self.added.extend_from_slice(digests)
    }

    /// Gives a leaf another digest.
    pub fn update_leaf_digest(
        &mut self,
        location: Location<F>,
        digest: D,
    ) -> Result<(), MerkleError>
        ensures ok { OnOk result (self.new ≡ updated self.old location digest) }
        ensures leaf { (leaves : List (List ℕ)) → length leaves ≡ self.old.base
            → OnOk result (drafted D.bytes self.new leaves
            ≡ slice_set (drafted D.bytes self.old leaves) location (D.bytes digest)) }
        ensures range { OnOk result
            ((self.old.start ≤ location) × (location < leaves_of self.old)) }
        ensures cause { IfErr result (λ e. (e ≡ MerkleError.Memory)
            ⊎ (((location < self.old.start)
            × (e ≡ MerkleError.ElementPruned (trees.Shape.position F.shape (trees.leaf location))))
            ⊎ ((leaves_of self.old ≤ location) × (e ≡ MerkleError.RangeOutOfBounds location)))) }
        ensures memory { self.old.start ≤ location → location < leaves_of self.old
            → IfErr result (λ e. e ≡ MerkleError.Memory) }
        ensures err { OnErr result (self.new ≡ self.old) }
    {
        let number = location.get();
        if number < self.start.get() {
            let position = F::location_to_position(location);
            return Err(MerkleError::ElementPruned(position.get()));
        }
        if self.leaves().get() <= number {
            return Err(MerkleError::RangeOutOfBounds(number));
        }
        let base = self.base.get();
        if number < base {
            rows::replace(&mut self.replaced, number, digest)?;
        } else {
            self.added[(number - base) as usize] = digest;
        }
        Ok(())
    }

    /// Hashes the nodes above the leaves that the batch adds or replaces: each inner node that the batch has of its own once, and no other.
    pub fn merkleize<H: Hasher<Digest = D>>(
        self,
        alloc: Global,
        mem: &Mem<F, D>,
        hasher: &mut StandardHasher<H>,
    ) -> Result<MerkleizedBatch<F, D>, AllocError>
        requires reach { Contains (stops self.base self.layers) mem.now.leaves }
        requires replaced { All (λ e. mem.now.start ≤ e.0) self.replaced }
        ensures start { IfOk result (λ b. b.start ≡ self.start) }
        ensures base { IfOk result (λ b. b.newest.tree.start ≡ self.base) }
        ensures leaves { IfOk result (λ b. b.newest.tree.leaves ≡ leaves_of self) }
        ensures older { IfOk result (λ b. b.older ≡ self.layers) }
        ensures own { IfOk result (λ b.
            (x : trees.Node) → trees.Shape.birth F.shape x ≤ leaves_of self
            → (IsSome (layer_at F.shape b.newest (trees.Shape.position F.shape x))
            ↔ ((self.base < trees.Shape.birth F.shape x)
            ⊎ IsOver self.replaced x.height x.index))) }
        ensures history { (list base : List (List ℕ)) (lists : List (List (List ℕ)))
            → IsHistory F.shape D.bytes H.hash self.layers (base ∷ lists)
            → Contains (base ∷ lists) list → Stands F.shape D.bytes H.hash mem.now list
            → IfOk result (λ b. IsHistory F.shape D.bytes H.hash (all_layers b)
            (drafted D.bytes self base ∷ base ∷ lists)) }
        ensures few { (k : ℕ) → self.base < 2 ^ suc k
            → IfOk result (λ b. length b.newest.replaced ≤ length self.replaced * suc k) }
        ensures made { IfOk result (λ b. hasher.new
            ≡ more hasher.old ((length b.newest.tree.nodes - length self.added) +
            (length b.newest.replaced - length self.replaced))) }
    {
        let start = self.start;
        // its clauses say that the tree is whole
        let _bounds = mem.bounds();
        let replaced = self.replaced_nodes(alloc, mem, hasher)?;
        let tree = self.tree(alloc, mem, hasher, &replaced)?;
        let newest = Rc::new(alloc, Layer { tree, replaced })?;
        Ok(MerkleizedBatch {
            start,
            newest,
            older: self.layers,
        })
    }
}

impl<F: Family, D: Digest> UnmerkleizedBatch<F, D> {
    // The digest of a node that is there before the batch's own leaves come, after these nodes were replaced.
    fn digest(&self, mem: &Mem<F, D>, nodes: &BTreeMap<u64, D>, position: Position<F>) -> D
        requires { IsSome (made_at F.shape nodes.now.entries self.now.layers mem.now position) }
        ensures { made_at F.shape nodes.now.entries self.now.layers mem.now position ≡ Some result }
    {
        if let Some(digest) = nodes.get(&position.get()) {
            return *digest;
        }
        if let Some(digest) = layers_digest(&self.layers, position) {
            return digest;
        }
        mem.get_node(position).unwrap()
    }

    // The tree of the batch's list, kept from where its own leaves begin.
    fn tree<H: Hasher<Digest = D>>(
        &self,
        alloc: Global,
        mem: &Mem<F, D>,
        hasher: &mut StandardHasher<H>,
        nodes: &BTreeMap<u64, D>,
    ) -> Result<Mem<F, D>, AllocError>
        requires there { AreThere F.shape self.now.layers mem.now self.now.base }
        requires start { mem.now.start ≤ self.now.base }
        requires own { HaveOver F.shape self.now.replaced self.now.base nodes.now.entries }
        ensures start { IfOk result (λ m. m.start ≡ self.now.base) }
        ensures leaves { IfOk result (λ m. m.leaves ≡ leaves_of self.now) }
        ensures whole { IfOk result (IsWhole F.shape) }
        ensures stands { (list : List (List ℕ)) → length list ≡ self.now.base
            → AreRead F.shape D.bytes H.hash self.now.layers mem.now list
            → AreRight F.shape D.bytes H.hash nodes.now.entries
            (replaced_from D.bytes self.now.replaced 0 list)
            → IfOk result (λ m. Stands F.shape D.bytes H.hash m (drafted D.bytes self.now list)) }
        ensures made { IfOk result (λ m.
            hasher.new ≡ more hasher.old (length m.nodes - length self.now.added)) }
    {
        let positions = F::nodes_to_pin(alloc, self.base)?;
        let pins = self.digests(alloc, mem, nodes, &positions)?;
        let mut tree = Mem::of_parts(positions, Vec::new(alloc), self.base, pins);
        tree.add_all(alloc, hasher, &self.added)?;
        Ok(tree)
    }

    // The digests of nodes that are there before the batch's own leaves come, after these nodes were replaced.
    fn digests(
        &self,
        alloc: Global,
        mem: &Mem<F, D>,
        nodes: &BTreeMap<u64, D>,
        positions: &[Position<F>],
    ) -> Result<Vec<D>, AllocError>
        requires { All (λ p. IsSome (made_at F.shape nodes.now.entries self.now.layers mem.now p))
            positions.now }
        ensures { IfOk result (λ v. map Some v.items
            ≡ map (made_at F.shape nodes.now.entries self.now.layers mem.now) positions.now) }
    {
        let mut found = Vec::with_capacity(alloc, positions.len())?;
        for position in positions {
            found.push_reserved(self.digest(mem, nodes, *position));
        }
        Ok(found)
    }
}

impl<F: Family, D: Digest> MerkleizedBatch<F, D> {
    /// A batch that stands on this one.
    pub fn new_batch(&self, alloc: Global) -> Result<UnmerkleizedBatch<F, D>, AllocError>
        ensures { IfOk result (λ b. b
            ≡ record {
              start = self.now.start;
              base = self.now.newest.tree.leaves;
              layers =
                  all_layers self.now;
              replaced = [];
              added = [];
            }) }
    {
        self.new_batch_since(alloc, Location::new(0))
    }

    /// A batch that stands on this one, but on no layer that begins before so many leaves: what those add and replace is then
    /// looked for in the tree below, which has to stand at this number of leaves or past it.
    pub fn new_batch_since(
        &self,
        alloc: Global,
        leaves: Location<F>,
    ) -> Result<UnmerkleizedBatch<F, D>, AllocError>
        requires { leaves ≤ self.now.newest.tree.leaves }
        ensures draft { IfOk result (λ b. b
            ≡ record {
              start = self.now.start;
              base = self.now.newest.tree.leaves;
              layers =
                  layers_since leaves (all_layers self.now);
              replaced = [];
              added = [];
            }) }
        ensures stops { IfOk result (λ b. stops b.base b.layers
            ≡ stops_since leaves (stops self.now.newest.tree.leaves (all_layers self.now))) }
        ensures history { (hash : List ℕ → List ℕ) (lists : List (List (List ℕ)))
            → IsHistory F.shape D.bytes hash (all_layers self.now) lists
            → IfOk result (λ b.
            IsHistory F.shape D.bytes hash b.layers (lists_since leaves lists)) }
    {
        Ok(UnmerkleizedBatch {
            start: self.start,
            base: self.leaves(),
            layers: self.layers_since(alloc, leaves)?,
            replaced: BTreeMap::new(alloc),
            added: Vec::new(alloc),
        })
    }

    // The layers of the batch that begin at so many leaves or later, the newest first.
    fn layers_since(
        &self,
        alloc: Global,
        leaves: Location<F>,
    ) -> Result<Vec<Rc<Layer<F, D>>>, AllocError>
        ensures { IfOk result (λ v.
            map (λ r. r.value) v.items ≡ layers_since leaves (all_layers self.now)) }
    {
        if self.newest.base().get() < leaves.get() {
            return Ok(Vec::new(alloc));
        }
        let (since, _) = self.older.split_at(put::count_since(&self.older, leaves));
        first_of(alloc, &self.newest, since)
    }

    /// How many leaves the batch's list has.
    pub fn leaves(&self) -> Location<F>
        ensures count { result ≡ self.now.newest.tree.leaves }
        ensures few { result ≤ 2 ^ 62 }
        ensures most { All (λ n. n ≤ result)
            (stops self.now.newest.tree.leaves (all_layers self.now)) }
    {
        self.newest.tree.leaves()
    }

    /// The digest of the node at this position, if this batch adds or replaces it, other than the batches that it stands on.
    pub fn get_node(&self, position: Position<F>) -> Option<D>
        ensures { result ≡ layer_at F.shape self.now.newest position }
    {
        self.newest.digest(position)
    }

    /// The digest of the node at this position, if this batch or one of those that it stands on adds or replaces it.
    pub fn find_node(&self, position: Position<F>) -> Option<D>
        ensures value { result ≡ layers_at F.shape (all_layers self.now) position }
        ensures linked { AreLinked F.shape self.now.newest.tree.leaves (all_layers self.now) }
    {
        if let Some(digest) = self.newest.digest(position) {
            return Some(digest);
        }
        layers_digest(&self.older, position)
    }

    /// The root of the batch's list, the first of whose peaks are inactive.
    pub fn root<H: Hasher<Digest = D>>(
        &self,
        alloc: Global,
        hasher: &mut StandardHasher<H>,
        inactive: usize,
    ) -> Result<D, AllocError>
        requires { inactive ≤ length (trees.peaks F.shape self.now.newest.tree.leaves) }
        ensures root { (list : List (List ℕ)) (lists : List (List (List ℕ)))
            → IsHistory F.shape D.bytes H.hash (all_layers self.now) (list ∷ lists)
            → IfOk result (λ d. D.bytes d ≡ trees.root H.hash F.shape list inactive) }
        ensures made { OnOk result (hasher.new
            ≡ more hasher.old (max 1 (length (trees.peaks F.shape self.now.newest.tree.leaves)))) }
    {
        self.newest.tree.root(alloc, hasher, inactive)
    }
}

impl<F: Family, D: Digest> Layer<F, D> {
    // The digest of a node that the layer adds or replaces.
    fn digest(&self, position: Position<F>) -> Option<D>
        ensures { result ≡ layer_at F.shape self.now position }
    {
        if position.get() < F::location_to_position(self.base()).get() {
            return self.replaced.get(&position.get()).copied();
        }
        self.tree.get_node(position)
    }

    // How many leaves stand before those that the layer adds.
    fn base(&self) -> Location<F>
        ensures start { result ≡ self.now.tree.start }
        ensures few { result ≤ 2 ^ 62 }
    {
        let (start, _) = self.tree.bounds();
        start
    }
}

// The digest of a node that layers add or replace, of which the newest is the first.
fn layers_digest<F: Family, D: Digest>(
    layers: &[Rc<Layer<F, D>>],
    position: Position<F>,
) -> Option<D>
    ensures { result ≡ layers_at F.shape (map (λ r. r.value) layers.now) position }
{
    for layer in layers {
        if let Some(digest) = layer.digest(position) {
            return Some(digest);
        }
    }
    None
}

// One that is shared, before others.
fn first_of<T: Drop>(
    alloc: Global,
    first: &Rc<T>,
    others: &[Rc<T>],
) -> Result<Vec<Rc<T>>, AllocError>
    ensures { IfOk result (λ all.
        map (λ r. r.value) all.items ≡ first.now.value ∷ map (λ r. r.value) others.now) }
{
    let mut all = others.to_vec(alloc)?;
    all.insert(0, first.clone()?)?;
    Ok(all)
}
