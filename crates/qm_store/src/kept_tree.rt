//! Trees that batches keep, so that a batch's root and proof hash its own items and no others.

ghost use Rattle.std.specs.Prelude.{◌≡◌, ◌≤◌, ◌<◌, ◌↔◌, ◌+◌, ◌^◌, ◌++◌, ◌∷◌, ℕ, [], List, None, Contains, All, length, map, IsSome, IfSome, IfOk, IfErr, OnOk, OnErr};
ghost use Rattle.qm_model.specs.Proofs.{proof_of};
ghost use Rattle.qm_model.specs.Trees as trees;
ghost use Rattle.qm_merkle.specs.Batches.{AreLinked, all_layers, layers_at, layers_since, stops, stops_since, lists_since, IsHistory};
ghost use Rattle.qm_merkle.specs.Mems.{Stands};
ghost use Rattle.qm_proofs.specs.Proofs.{proof_view, first_lacked, needed_positions};
ghost use Rattle.qm_store.specs.Log.{digests_from, IsLacked, IsLog};
ghost use Rattle.qm_store.specs.KeptTrees.{IsAdding, IsKeptTree, held_at, leaves_of};

use crate::Store;
use crate::log::{AuthLog, shown};
use qm_base::{Digest, Error, Hasher};
use qm_merkle::mem::Mem;
use qm_merkle::{Family, MerkleizedBatch, Position};
use qm_proofs::Proof;
use std::alloc::{AllocError, Global};
use std::marker::Model;

/// The tree of a batch's list: what the batch, and those before it that it keeps, add to a log's tree. At rest it adds
/// nothing.
///
/// It is used over a log that stands at one of the tree's lists, and has no node of its own from before the oldest of
/// these: the log has those.
#[derive(Drop)]
pub struct KeptTree<F: Family, D> {
    leaves: u64,
    batch: Option<MerkleizedBatch<F, D>>,
}

impl<F: Family, D> Model for KeptTree<F, D> {
    ghost use Rattle.std.specs.Prelude.{◌≡◌, ◌≤◌, ◌^◌, IfSome};
    ghost use Rattle.qm_store.specs.KeptTrees.{KeptTree, layers_of};

    ghost Value = { KeptTree D };

    ghost view = { λ t. record { leaves = t.leaves; layers = layers_of t.batch } };

    ghost invariant = { λ t. (t.leaves ≤ 2 ^ 62) × IfSome t.batch (λ b. b.newest.tree.leaves ≡ t.leaves) };
}

impl<F: Family, D: Digest> KeptTree<F, D> {
    /// The tree of a log at rest, of so many leaves.
    pub fn at_rest(leaves: u64) -> Self
        requires { leaves ≤ 2 ^ 62 }
        ensures { result ≡ record { leaves = leaves; layers = [] } }
    {
        KeptTree {
            leaves,
            batch: None,
        }
    }

    /// How many leaves the tree has.
    pub fn leaves(&self) -> u64
        ensures { result ≡ self.now.leaves }
    {
        self.leaves
    }

    /// The tree with the leaves of these items after this one's, and the root of its list, the first of whose peaks are
    /// inactive. It leads through this tree's lists of as many items as the boundary or more, and keeps nothing of what led
    /// to the others.
    pub fn grown<C: Store, H: Hasher<Digest = D>>(
        &self,
        alloc: Global,
        log: &mut AuthLog<F, C, H>,
        items: &[Vec<u8>],
        inactive: usize,
        boundary: u64,
    ) -> Result<(KeptTree<F, D>, D), AllocError>
        requires room { self.now.leaves + length items.now ≤ 2 ^ 62 }
        requires peaks { inactive
            ≤ length (trees.peaks F.shape (self.now.leaves + length items.now)) }
        requires reach { Contains (stops self.now.leaves self.now.layers) log.old.tree.leaves }
        requires boundary { boundary ≤ log.old.tree.leaves }
        ensures leaves { IfOk result (λ grown.
            grown.0.leaves ≡ self.now.leaves + length items.now) }
        ensures stops { IfOk result (λ grown. stops grown.0.leaves grown.0.layers
            ≡ grown.0.leaves ∷ stops_since boundary (stops self.now.leaves self.now.layers)) }
        ensures tree { (list base : List (List ℕ)) (older : List (List (List ℕ)))
            → IsLog C.Store F.shape D.bytes H.hash log.old list
            → IsKeptTree D.bytes H.hash F.shape self.now base older → Contains (base ∷ older) list
            → IfOk result (λ grown. IsKeptTree D.bytes H.hash F.shape grown.0
            (base ++ map (λ v. v.items) items.now) (lists_since boundary (base ∷ older))) }
        ensures root { (list base : List (List ℕ)) (older : List (List (List ℕ)))
            → IsLog C.Store F.shape D.bytes H.hash log.old list
            → IsKeptTree D.bytes H.hash F.shape self.now base older → Contains (base ∷ older) list
            → IfOk result (λ grown. D.bytes grown.1
            ≡ trees.root H.hash F.shape
            (leaves_of H.hash F.shape (base ++ map (λ v. v.items) items.now)) inactive) }
        ensures same { log.new ≡ log.old }
    {
        let leaves = self.leaves + items.len() as u64;
        let batch = self.batch_behind(alloc, log, items, boundary)?;
        let root = log.speculative_root(alloc, &batch, inactive)?;
        let tree = KeptTree {
            leaves,
            batch: Some(batch),
        };
        Ok((tree, root))
    }

    // The tree batch that adds these items' leaves to this one, over what this one adds at the boundary or past it.
    fn batch_behind<C: Store, H: Hasher<Digest = D>>(
        &self,
        alloc: Global,
        log: &mut AuthLog<F, C, H>,
        items: &[Vec<u8>],
        boundary: u64,
    ) -> Result<MerkleizedBatch<F, D>, AllocError>
        requires room { self.now.leaves + length items.now ≤ 2 ^ 62 }
        requires reach { Contains (stops self.now.leaves self.now.layers) log.old.tree.leaves }
        requires boundary { boundary ≤ log.old.tree.leaves }
        ensures history { (list base : List (List ℕ)) (lists : List (List (List ℕ)))
            → IsLog C.Store F.shape D.bytes H.hash log.old list
            → IsHistory F.shape D.bytes H.hash self.now.layers
            (digests_from H.hash F.shape 0 base ∷ lists)
            → Contains (digests_from H.hash F.shape 0 base ∷ lists)
            (digests_from H.hash F.shape 0 list)
            → IfOk result (λ b. IsHistory F.shape D.bytes H.hash (all_layers b)
            (digests_from H.hash F.shape 0 (base ++ map (λ v. v.items) items.now)
            ∷ lists_since boundary (digests_from H.hash F.shape 0 base ∷ lists))) }
        ensures leaves { IfOk result (λ b.
            b.newest.tree.leaves ≡ self.now.leaves + length items.now) }
        ensures adding { All (IsAdding F.shape) self.now.layers
            → IfOk result (λ b. All (IsAdding F.shape) (all_layers b)) }
        ensures stops { IfOk result (λ b. stops b.newest.tree.leaves (all_layers b)
            ≡ b.newest.tree.leaves ∷ stops_since boundary (stops self.now.leaves self.now.layers)) }
        ensures same { log.new ≡ log.old }
    {
        match &self.batch {
            Some(batch) => log.tree_since(alloc, batch, boundary, items),
            None => log.tree_with(alloc, items),
        }
    }

    /// The proof of the leaves from `start` up to, and without, `end`, in the tree, the first of whose peaks are inactive.
    pub fn proof<C: Store, H: Hasher<Digest = D>>(
        &self,
        alloc: Global,
        log: &AuthLog<F, C, H>,
        inactive: usize,
        start: u64,
        end: u64,
    ) -> Result<Proof<D>, Error>
        requires order { start ≤ end }
        requires within { end ≤ self.now.leaves }
        requires inactive { inactive ≤ length (trees.peaks F.shape self.now.leaves) }
        requires reach { Contains (stops self.now.leaves self.now.layers) log.now.tree.leaves }
        ensures value { (list tip : List (List ℕ)) (older : List (List (List ℕ)))
            → IsLog C.Store F.shape D.bytes H.hash log.now list
            → IsKeptTree D.bytes H.hash F.shape self.now tip older → Contains (tip ∷ older) list
            → IfOk result (λ p. proof_view D.bytes p
            ≡ proof_of H.hash F.shape (leaves_of H.hash F.shape tip) inactive start end) }
        ensures held { OnOk result (first_lacked (held_at F.shape self.now log.now.tree)
            (needed_positions F.shape self.now.leaves start end)
            ≡ None) }
        ensures cause { IfErr result (IsLacked (held_at F.shape self.now log.now.tree)
            (needed_positions F.shape self.now.leaves start end)) }
        ensures whole { log.now.tree.start ≤ start
            → (list tip : List (List ℕ)) (older : List (List (List ℕ)))
            → IsLog C.Store F.shape D.bytes H.hash log.now list
            → IsKeptTree D.bytes H.hash F.shape self.now tip older → Contains (tip ∷ older) list
            → IfErr result (λ e. e ≡ Error.Memory) }
    {
        match &self.batch {
            Some(batch) => log.speculative_proof(alloc, batch, inactive, start, end),
            None => shown::kept_proof(alloc, log.tree(), self.leaves, inactive, start, end),
        }
    }

    /// The digests of the peaks over the first `count` leaves, from left to right, in the tree.
    pub fn pins<C: Store, H: Hasher<Digest = D>>(
        &self,
        alloc: Global,
        log: &AuthLog<F, C, H>,
        count: u64,
    ) -> Result<Vec<D>, Error>
        requires count { count ≤ self.now.leaves }
        requires reach { Contains (stops self.now.leaves self.now.layers) log.now.tree.leaves }
        ensures value { (list tip : List (List ℕ)) (older : List (List (List ℕ)))
            → IsLog C.Store F.shape D.bytes H.hash log.now list
            → IsKeptTree D.bytes H.hash F.shape self.now tip older → Contains (tip ∷ older) list
            → IfOk result (λ pins. map D.bytes pins.items
            ≡ map (trees.digest_of H.hash F.shape (leaves_of H.hash F.shape tip))
            (trees.peaks F.shape count)) }
        ensures held { OnOk result (first_lacked (held_at F.shape self.now log.now.tree)
            (trees.peak_positions F.shape count)
            ≡ None) }
        ensures cause { IfErr result (IsLacked (held_at F.shape self.now log.now.tree)
            (trees.peak_positions F.shape count)) }
        ensures whole { log.now.tree.start ≤ count
            → (list tip : List (List ℕ)) (older : List (List (List ℕ)))
            → IsLog C.Store F.shape D.bytes H.hash log.now list
            → IsKeptTree D.bytes H.hash F.shape self.now tip older → Contains (tip ∷ older) list
            → IfErr result (λ e. e ≡ Error.Memory) }
    {
        match &self.batch {
            Some(batch) => log.speculative_pinned_nodes(alloc, batch, count),
            None => log.pinned_nodes_at(alloc, count),
        }
    }

    /// The digest of the node at this position, if the tree has it of its own: it has the nodes that its lists came to have
    /// after the oldest of them.
    pub fn get_node(&self, position: Position<F>) -> Option<D>
        ensures exact { result ≡ layers_at F.shape self.now.layers position }
        ensures linked { AreLinked F.shape self.now.leaves self.now.layers }
        ensures held { (boundary : ℕ) → All (IsAdding F.shape) self.now.layers
            → Contains (stops self.now.leaves self.now.layers) boundary
            → All (λ n. boundary ≤ n) (stops self.now.leaves self.now.layers)
            → (IsSome result
            ↔ ((trees.Shape.size F.shape boundary ≤ position)
            × (position < trees.Shape.size F.shape self.now.leaves))) }
        ensures value { (hash : List ℕ → List ℕ) (tip : List (List ℕ))
            (older : List (List (List ℕ))) → IsKeptTree D.bytes hash F.shape self.now tip older
            → (x : trees.Node) → trees.Shape.position F.shape x ≡ position
            → IfSome result (λ d.
            D.bytes d ≡ trees.digest_of hash F.shape (leaves_of hash F.shape tip) x) }
    {
        match &self.batch {
            Some(batch) => batch.find_node(position),
            None => None,
        }
    }

    // Puts into a log's tree what it lacks of this one.
    pub(crate) fn put_into(&self, tree: &mut Mem<F, D>) -> Result<(), AllocError>
        requires reach { Contains (stops self.now.leaves self.now.layers) tree.old.leaves }
        ensures start { OnOk result (tree.new.start ≡ tree.old.start) }
        ensures leaves { OnOk result (tree.new.leaves ≡ self.now.leaves) }
        ensures few { OnOk result (tree.new.leaves ≤ 2 ^ 62) }
        ensures stands { (hash : List ℕ → List ℕ) (list new : List (List ℕ))
            (lists : List (List (List ℕ)))
            → IsHistory F.shape D.bytes hash self.now.layers (new ∷ lists)
            → Contains (new ∷ lists) list → Stands F.shape D.bytes hash tree.old list
            → OnOk result (Stands F.shape D.bytes hash tree.new new) }
        ensures err { OnErr result (tree.new ≡ tree.old) }
    {
        match &self.batch {
            Some(batch) => tree.apply_batch(batch),
            None => Ok(()),
        }
    }
}
