//! What a log shows of its items: proofs, peaks, and items in a row.

ghost use Rattle.std.specs.Prelude.{◌≡◌, ℕ, ◌⊎◌, ◌-◌, ◌^◌, ◌<◌, ◌≤◌, List, ◌∷◌, Contains, length, map, take, drop};
ghost use Rattle.std.specs.Prelude.{Some, None, IfSome, IfOk, IfErr, OnOk, IsErrOf};
ghost use Rattle.qm_model.specs.Causes.{IsCause};
ghost use Rattle.qm_model.specs.Trees as trees;
ghost use Rattle.qm_model.specs.Proofs.{proof_of};
ghost use Rattle.qm_merkle.specs.Mems.{Stands, node_at};
ghost use Rattle.qm_merkle.specs.Batches.{all_layers, IsHistory};
ghost use Rattle.qm_proofs.specs.Proofs.{proof_view, needed_positions, first_lacked, over_at, Tells};
ghost use Rattle.qm_store.specs.Log.{IsKept, IsLacked};

use crate::Store;
use qm_base::{Digest, Error, JournalError, Location, TreeRefused};
use qm_merkle::mem::Mem;
use qm_merkle::{Family, MerkleizedBatch, Position};
use qm_proofs::{Nodes, NodesOver, Proof};
use std::alloc::Global;

// The proof of leaves, in the tree of its first leaves.
pub(crate) fn kept_proof<F: Family, D: Digest>(
    alloc: Global,
    tree: &Mem<F, D>,
    size: u64,
    inactive: usize,
    start: u64,
    end: u64,
) -> Result<Proof<D>, Error>
    requires order { start ≤ end }
    requires within { end ≤ size }
    requires size { size ≤ tree.now.leaves }
    requires inactive { inactive ≤ length (trees.peaks F.shape size) }
    ensures value { (hash : List ℕ → List ℕ) (list : List (List ℕ))
        → Stands F.shape D.bytes hash tree.now list
        → IfOk result (λ p.
        proof_view D.bytes p ≡ proof_of hash F.shape (take size list) inactive start end) }
    ensures held { OnOk result
        (first_lacked (node_at F.shape tree.now) (needed_positions F.shape size start end) ≡ None) }
    ensures cause { IfErr result
        (IsLacked (node_at F.shape tree.now) (needed_positions F.shape size start end)) }
    ensures whole { tree.now.start ≤ start → IfErr result (λ e. e ≡ Error.Memory) }
{
    let (_, leaves) = tree.bounds();
    prove!(size <= leaves.get());
    proof_from(alloc, tree, size, inactive, start, end)
}

// The proof of leaves, in a tree as a batch leaves it.
pub(super) fn proof_over<F: Family, D: Digest>(
    alloc: Global,
    batch: &MerkleizedBatch<F, D>,
    tree: &Mem<F, D>,
    inactive: usize,
    start: u64,
    end: u64,
) -> Result<Proof<D>, Error>
    requires order { start ≤ end }
    requires within { end ≤ batch.now.newest.tree.leaves }
    requires inactive { inactive ≤ length (trees.peaks F.shape batch.now.newest.tree.leaves) }
    ensures value { (hash : List ℕ → List ℕ) (list new : List (List ℕ))
        (lists : List (List (List ℕ))) → Stands F.shape D.bytes hash tree.now list
        → IsHistory F.shape D.bytes hash (all_layers batch.now) (new ∷ lists)
        → Contains (new ∷ lists) list
        → IfOk result (λ p. proof_view D.bytes p ≡ proof_of hash F.shape new inactive start end) }
    ensures held { OnOk result (first_lacked (over_at F.shape batch.now tree.now)
        (needed_positions F.shape batch.now.newest.tree.leaves start end)
        ≡ None) }
    ensures cause { IfErr result (IsLacked (over_at F.shape batch.now tree.now)
        (needed_positions F.shape batch.now.newest.tree.leaves start end)) }
    ensures whole { (hash : List ℕ → List ℕ) (list new : List (List ℕ))
        (lists : List (List (List ℕ))) → tree.now.start ≤ start
        → Stands F.shape D.bytes hash tree.now list
        → IsHistory F.shape D.bytes hash (all_layers batch.now) (new ∷ lists)
        → Contains (new ∷ lists) list
        → IfErr result (λ e. e ≡ Error.Memory) }
{
    let (first, past) = tree.bounds();
    prove!(first.get() <= past.get());
    let nodes = NodesOver { batch, mem: tree };
    let leaves = batch.leaves();
    proof_from(alloc, &nodes, leaves.get(), inactive, start, end)
}

// The proof of leaves, from what has digests of nodes.
pub(super) fn proof_from<F: Family, D: Digest, N: Nodes<F, D>>(
    alloc: Global,
    nodes: &N,
    size: u64,
    inactive: usize,
    start: u64,
    end: u64,
) -> Result<Proof<D>, Error>
    requires few { size ≤ 2 ^ 62 }
    requires order { start ≤ end }
    requires within { end ≤ size }
    requires inactive { inactive ≤ length (trees.peaks F.shape size) }
    ensures value { (hash : List ℕ → List ℕ) (list : List (List ℕ)) → size ≤ length list
        → Tells F.shape D.bytes hash (N.node_at nodes.now) list
        → IfOk result (λ p.
        proof_view D.bytes p ≡ proof_of hash F.shape (take size list) inactive start end) }
    ensures cause { IfErr result
        (IsLacked (N.node_at nodes.now) (needed_positions F.shape size start end)) }
    ensures held { OnOk result
        (first_lacked (N.node_at nodes.now) (needed_positions F.shape size start end) ≡ None) }
{
    let size: Location<F> = Location::new(size);
    Ok(Proof::new(
        alloc,
        nodes,
        size,
        inactive,
        Location::new(start),
        Location::new(end),
    )?)
}

// The digests of the peaks over a tree's first leaves.
pub(super) fn kept_peaks<F: Family, D: Digest>(
    alloc: Global,
    tree: &Mem<F, D>,
    count: u64,
) -> Result<Vec<D>, Error>
    requires { count ≤ tree.now.leaves }
    ensures value { (hash : List ℕ → List ℕ) (list : List (List ℕ))
        → Stands F.shape D.bytes hash tree.now list
        → IfOk result (λ v.
        map D.bytes v.items ≡ map (trees.digest_of hash F.shape list) (trees.peaks F.shape count)) }
    ensures held { OnOk result
        (first_lacked (node_at F.shape tree.now) (trees.peak_positions F.shape count) ≡ None) }
    ensures cause { IfErr result
        (IsLacked (node_at F.shape tree.now) (trees.peak_positions F.shape count)) }
    ensures whole { tree.now.start ≤ count → IfErr result (λ e. e ≡ Error.Memory) }
{
    let (_, leaves) = tree.bounds();
    prove!(count <= leaves.get());
    peak_digests(alloc, tree, count)
}

// The digests of the peaks over the first leaves of a tree as a batch leaves it.
pub(super) fn peaks_over<F: Family, D: Digest>(
    alloc: Global,
    batch: &MerkleizedBatch<F, D>,
    tree: &Mem<F, D>,
    count: u64,
) -> Result<Vec<D>, Error>
    requires { count ≤ batch.now.newest.tree.leaves }
    ensures value { (hash : List ℕ → List ℕ) (list new : List (List ℕ))
        (lists : List (List (List ℕ))) → Stands F.shape D.bytes hash tree.now list
        → IsHistory F.shape D.bytes hash (all_layers batch.now) (new ∷ lists)
        → Contains (new ∷ lists) list
        → IfOk result (λ v.
        map D.bytes v.items ≡ map (trees.digest_of hash F.shape new) (trees.peaks F.shape count)) }
    ensures held { OnOk result (first_lacked (over_at F.shape batch.now tree.now)
        (trees.peak_positions F.shape count)
        ≡ None) }
    ensures cause { IfErr result
        (IsLacked (over_at F.shape batch.now tree.now) (trees.peak_positions F.shape count)) }
    ensures whole { (hash : List ℕ → List ℕ) (list new : List (List ℕ))
        (lists : List (List (List ℕ))) → tree.now.start ≤ count
        → Stands F.shape D.bytes hash tree.now list
        → IsHistory F.shape D.bytes hash (all_layers batch.now) (new ∷ lists)
        → Contains (new ∷ lists) list
        → IfErr result (λ e. e ≡ Error.Memory) }
{
    let (first, past) = tree.bounds();
    prove!(first.get() <= past.get());
    let nodes = NodesOver { batch, mem: tree };
    let leaves = batch.leaves();
    prove!(count <= leaves.get());
    peak_digests(alloc, &nodes, count)
}

// The digests of the peaks over the first leaves, from what has digests of nodes.
fn peak_digests<F: Family, D: Digest, N: Nodes<F, D>>(
    alloc: Global,
    nodes: &N,
    count: u64,
) -> Result<Vec<D>, Error>
    requires { count ≤ 2 ^ 62 }
    ensures value { (hash : List ℕ → List ℕ) (list : List (List ℕ)) → count ≤ length list
        → Tells F.shape D.bytes hash (N.node_at nodes.now) list
        → IfOk result (λ v.
        map D.bytes v.items ≡ map (trees.digest_of hash F.shape list) (trees.peaks F.shape count)) }
    ensures held { OnOk result
        (first_lacked (N.node_at nodes.now) (trees.peak_positions F.shape count) ≡ None) }
    ensures cause { IfErr result
        (IsLacked (N.node_at nodes.now) (trees.peak_positions F.shape count)) }
{
    let count: Location<F> = Location::new(count);
    let positions = F::nodes_to_pin(alloc, count)?;
    digests_at(alloc, nodes, &positions)
}

// The digests of the nodes at positions.
fn digests_at<F: Family, D: Digest, N: Nodes<F, D>>(
    alloc: Global,
    nodes: &N,
    positions: &[Position<F>],
) -> Result<Vec<D>, Error>
    ensures digests { IfOk result (λ v.
        map Some v.items ≡ map (N.node_at nodes.now) positions.now) }
    ensures held { OnOk result (first_lacked (N.node_at nodes.now) positions.now ≡ None) }
    ensures cause { IfErr result (IsLacked (N.node_at nodes.now) positions.now) }
{
    let mut digests = Vec::with_capacity(alloc, positions.len())?;
    for position in positions {
        digests.push_reserved(digest_at(nodes, *position)?);
    }
    Ok(digests)
}

// The digest of the node at a position.
fn digest_at<F: Family, D: Digest, N: Nodes<F, D>>(
    nodes: &N,
    position: Position<F>,
) -> Result<D, Error>
    ensures digest { IfOk result (λ d. N.node_at nodes.now position ≡ Some d) }
    ensures cause { IfErr result (λ e. (N.node_at nodes.now position ≡ None)
        × (e ≡ Error.Merkle (TreeRefused.ElementPruned position))) }
{
    match nodes.get_node(position) {
        Some(digest) => Ok(digest),
        None => Err(Error::Merkle(TreeRefused::ElementPruned(position.get()))),
    }
}

// A store's items from a location up to, and without, another.
pub(super) fn read_items<C: Store>(
    alloc: Global,
    store: &mut C,
    start: u64,
    end: u64,
) -> Result<Vec<Vec<u8>>, Error>
    requires start { C.start store.old ≤ start }
    requires order { start ≤ end }
    requires end { end ≤ C.end store.old }
    requires few { end ≤ 2 ^ 62 }
    ensures count { IfOk result (λ v. length v.items ≡ end - start) }
    ensures items { IfOk result (λ v. IfSome (C.told store.old) (λ held. map (λ v. v.items) v.items
        ≡ take (end - start) (drop (start - C.start store.old) held.items))) }
    ensures never { IfErr result (λ e.
        (e ≡ Error.Memory) ⊎ (e ≡ Error.Journal JournalError.Store)) }
    ensures kept { IsKept C.Store store.old store.new }
    ensures cause { IsCause (C.faults store.old) (C.faults store.new)
        (IsErrOf result (Error.Journal JournalError.Store)) }
{
    let mut items = Vec::with_capacity(alloc, (end - start) as usize)?;
    for at in start..end {
        items.push_reserved(store.read(at)?);
    }
    Ok(items)
}
