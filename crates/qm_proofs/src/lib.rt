//! Proofs that elements stand at locations of a tree: made from its nodes, and checked against its root.
#![tactic(auto)]

ghost use Rattle.std.specs.Prelude.{◌≡◌, ◌⊎◌, ◌≤◌, ◌^◌, ℕ, true, List, Option, Some, None, IfOk, IfErr, OnOk, length, map, take, drop};
ghost use Rattle.qm_model.specs.Trees as trees;
ghost use Rattle.qm_model.specs.Proofs.{proof_of, verdict, item_leaves, checked_inputs, root_inputs, Collides};
ghost use Rattle.qm_proofs.specs.Proofs.{proof_view, needed_positions, first_lacked, Lacks, Tells, over_at};

use qm_base::{Digest, Hasher, Location, MerkleError, Spelled};
use qm_merkle::mem::Mem;
use qm_merkle::{Family, MerkleizedBatch, Position, StandardHasher};
use std::alloc::Global;

mod list;
mod rebuild;

/// A proof that elements stand at locations in a row, in a tree of so many leaves, the first of whose peaks are
/// inactive. The digests are those of the nodes beside the locations, from left to right. Any numbers and digests
/// make a proof; `verify` says no to those that are none.
#[derive(Drop)]
pub struct Proof<D> {
    pub leaves: u64,
    pub inactive_peaks: usize,
    pub digests: Vec<D>,
}

/// What has digests of nodes by their positions.
pub trait Nodes<F, D> {
    ghost node_at: { Self → ℕ → Option D };

    /// The digest of the node at this position, if it is held.
    fn get_node(&self, position: Position<F>) -> Option<D>
        ensures { result ≡ node_at self.now position };
}

impl<F: Family, D: Digest> Nodes<F, D> for Mem<F, D> {
    ghost use Rattle.qm_merkle.specs.Mems.{node_at};

    ghost node_at = { λ mem p. node_at F.shape mem p };

    fn get_node(&self, position: Position<F>) -> Option<D>
        ensures { result ≡ node_at F.shape self.now position }
    {
        Mem::get_node(self, position)
    }
}

/// The nodes of a batch's list: those of the batch and of the batches that it stands on, and those of the tree.
#[derive(Drop)]
pub struct NodesOver<'a, F: Family, D> {
    pub batch: &'a MerkleizedBatch<F, D>,
    pub mem: &'a Mem<F, D>,
}

impl<'a, F: Family, D: Digest> Nodes<F, D> for NodesOver<'a, F, D> {
    ghost node_at = { λ o p. over_at F.shape o.batch.now o.mem.now p };

    fn get_node(&self, position: Position<F>) -> Option<D>
        ensures { result ≡ over_at F.shape self.now.batch.now self.now.mem.now position }
    {
        match self.batch.find_node(position) {
            Some(digest) => Some(digest),
            None => self.mem.get_node(position),
        }
    }
}

impl<D: Digest> Proof<D> {
    /// The proof of the leaves from `start` up to, and without, `end`, in the tree of so many leaves, from the digests of
    /// its nodes. What has nodes of a greater tree has those of each smaller one too.
    pub fn new<F: Family, N: Nodes<F, D>>(
        alloc: Global,
        nodes: &N,
        leaves: Location<F>,
        inactive_peaks: usize,
        start: Location<F>,
        end: Location<F>,
    ) -> Result<Proof<D>, MerkleError>
        requires few { leaves ≤ 2 ^ 62 }
        requires order { start ≤ end }
        requires within { end ≤ leaves }
        requires inactive { inactive_peaks ≤ length (trees.peaks F.shape leaves) }
        ensures leaves { IfOk result (λ p. p.leaves ≡ leaves) }
        ensures inactive { IfOk result (λ p. p.inactive_peaks ≡ inactive_peaks) }
        ensures digests { IfOk result (λ p. map Some p.digests.items
            ≡ map (N.node_at nodes.now) (needed_positions F.shape leaves start end)) }
        ensures tells { (hash : List ℕ → List ℕ) (list : List (List ℕ)) → leaves ≤ length list
            → Tells F.shape D.bytes hash (N.node_at nodes.now) list
            → IfOk result (λ p. proof_view D.bytes p
            ≡ proof_of hash F.shape (take leaves list) inactive_peaks start end) }
        ensures cause { IfErr result
            (Lacks (N.node_at nodes.now) (needed_positions F.shape leaves start end)) }
        ensures held { OnOk result (first_lacked (N.node_at nodes.now)
            (needed_positions F.shape leaves start end)
            ≡ None) }
    {
        let digests = list::list_peaks(alloc, nodes, leaves, start.get(), end.get())?;
        Ok(Proof {
            leaves: leaves.get(),
            inactive_peaks,
            digests,
        })
    }

    /// Whether the proof shows that these elements stand at the locations from `start` on, in the tree of this root. It
    /// takes no memory. Of a root that is no list's a yes says nothing, and of a list's root no more than the hash bears.
    pub fn verify<F: Family, H: Hasher<Digest = D>, E: Spelled>(
        &self,
        hasher: &mut StandardHasher<H>,
        elements: &[E],
        start: Location<F>,
        root: &D,
    ) -> bool
        ensures answer { result
            ≡ verdict H.hash F.shape (map E.spelling elements.now) start
            (proof_view D.bytes self.now) (D.bytes root.now) }
        ensures speaks { (list : List (List ℕ)) (inactive : ℕ) → length list ≤ 2 ^ 62
            → inactive ≤ length (trees.peaks F.shape (length list))
            → D.bytes root.now
            ≡ trees.root H.hash F.shape (item_leaves H.hash F.shape 0 list) inactive → result ≡ true
            → (take (length elements.now) (drop start list) ≡ map E.spelling elements.now)
            ⊎ Collides H.hash (checked_inputs H.hash F.shape (map E.spelling elements.now) start
            (proof_view D.bytes self.now)) (root_inputs H.hash F.shape list inactive) }
    {
        if !self.is_about::<F>(elements.len() as u64, start.get()) {
            return false;
        }
        match self.root(hasher, elements, start) {
            Some(rebuilt) => rebuilt.bytes() == root.bytes(),
            None => false,
        }
    }
}
