//! What a current database keeps beside the any one: the grafted tree of its list, and the list's canonical root.

ghost use Rattle.std.specs.Prelude.{◌≡◌, ◌≤◌, ◌<◌, List, [], ◌∷◌, length, get_or, map, All, Contains, Some, IfOk, IfErr, OnOk, OnErr};
ghost use Rattle.qm_model.specs.Operations.{Bytes, Operation};
ghost use Rattle.qm_model.specs.Forms.{Form};
ghost use Rattle.qm_model.specs.Live as live;
ghost use Rattle.qm_model.specs.Bits as activity;
ghost use Rattle.qm_model.specs.Trees as trees;
ghost use Rattle.qm_model.specs.Grafted as grafts;
ghost use Rattle.qm_bits.specs.Bitmaps.{all_bits, bit_count};
ghost use Rattle.qm_merkle.specs.Mems as mems;
ghost use Rattle.qm_graft.specs.Grafting.{grafting};
ghost use Rattle.qm_roots.specs.Canonical.{CanOpen, IsCanonical, IsSized, MayGo};
ghost use Rattle.qm_roots.specs.Kept.{IsKept, sizes_of};

use crate::kept::Kept;
use qm_base::{Digest, Hasher, Location, MerkleError};
use qm_bits::{Chunks, Prunable};
use qm_chunks::Graftable;
use qm_graft::Grafted;
use qm_graft::trees::{build_grafted_tree, canonical_root_of};
use qm_merkle::mem::Mem;
use qm_merkle::{Family, Position, StandardHasher};
use std::alloc::{AllocError, Global};
use std::marker::Model;

/// The grafted tree of a database's list, the list's size, and its canonical root.
#[derive(Drop)]
pub struct Canonical<F: Graftable, N: Chunks, D: Digest> {
    tree: Mem<Grafted<F, N>, D>,
    size: u64,
    root: D,
}

impl<F: Graftable, N: Chunks, D: Digest> Model for Canonical<F, N, D> {
    ghost use Rattle.qm_graft.specs.Grafting.{grafting};
    ghost use Rattle.qm_roots.specs.Canonical as canonicals;

    ghost Value = { canonicals.Canonical D };

    ghost view = { λ c. record { tree = c.tree; size = c.size; root = D.bytes c.root } };

    ghost invariant = { λ c. canonicals.IsSized {D = D} F.shape (grafting N.LEN) (record { tree = c.tree; size = c.size; root = D.bytes c.root }) };
}

/// What is taken up of a list: the root of its operations, their tree, its bits, and its floor.
#[derive(Drop)]
pub struct Found<'a, F: Graftable, N: Chunks, D: Digest> {
    pub ops_root: &'a D,
    pub operations: &'a Mem<F, D>,
    pub bits: &'a Prunable<N>,
    pub floor: Location<F>,
}

impl<F: Graftable, N: Chunks, D: Digest> Canonical<F, N, D> {
    /// Those of a list that is taken up, from the digests of the grafted tree's peaks over its pruned chunks. Want of memory is the
    /// only error.
    pub fn open<H: Hasher<Digest = D>>(
        alloc: Global,
        hasher: &mut StandardHasher<H>,
        found: &Found<'_, F, N, D>,
        pins: Vec<D>,
    ) -> Result<Self, MerkleError>
        requires { CanOpen F.shape N.LEN found.now.operations.now found.now.bits.now pins.items }
        ensures start { IfOk result (λ c. c.tree.start ≡ found.now.bits.now.pruned) }
        ensures size { IfOk result (λ c. c.size ≡ found.now.operations.now.leaves) }
        ensures stands { (form : Form) (list : List Operation)
            → all_bits N.LEN found.now.bits.now ≡ activity.bits list
            → found.now.floor ≡ live.floor list
            → D.bytes found.now.ops_root.now ≡ trees.ops_root H.hash F.shape form list
            → mems.Stands F.shape D.bytes H.hash found.now.operations.now
            (trees.leaves_from H.hash F.shape form 0 list)
            → map D.bytes pins.items
            ≡ grafts.grafted_pins H.hash F.shape (grafting N.LEN) form list
            found.now.bits.now.pruned
            → IfOk result (λ c. IsCanonical D.bytes H.hash F.shape N.LEN form c list) }
        ensures cause { IfErr result (λ e. e ≡ MerkleError.Memory) }
    {
        let tree = build_grafted_tree(alloc, hasher, found.operations, found.bits, pins)?;
        let root = canonical_root_of(
            alloc,
            hasher,
            found.ops_root,
            found.operations,
            &tree,
            found.bits,
            found.floor,
        )?;
        Ok(Canonical {
            tree,
            size: found.bits.len(),
            root,
        })
    }

    /// The canonical root.
    pub fn root(&self) -> D
        ensures { D.bytes result ≡ self.now.root }
    {
        self.root
    }

    /// The grafted tree.
    pub fn tree(&self) -> &Mem<Grafted<F, N>, D>
        ensures tree { result.now ≡ self.now.tree }
        ensures sized { IsSized F.shape (grafting N.LEN) self.now }
    {
        &self.tree
    }

    /// What the database keeps as a batch that does nothing, over its bits. Want of memory is the only error.
    pub fn to_kept(&self, alloc: Global, bits: &Prunable<N>) -> Result<Kept<F, N, D>, AllocError>
        ensures sizes { IfOk result (λ k.
            sizes_of k ≡ bit_count N.LEN bits.now ∷ bit_count N.LEN bits.now ∷ []) }
        ensures kept { (hash : Bytes → Bytes) (form : Form) (list : List Operation)
            → IsCanonical D.bytes hash F.shape N.LEN form self.now list
            → all_bits N.LEN bits.now ≡ activity.bits list
            → IfOk result (λ k. IsKept D.bytes hash F.shape N.LEN form k list (list ∷ [])) }
    {
        let kept = Kept::at_rest(alloc, bits, self.root)?;
        Ok(kept)
    }

    /// Takes a batch, if the list is one that the batch leads through: nothing is hashed. Want of memory is the only error, and
    /// leaves all as it was.
    pub fn apply(&mut self, batch: &Kept<F, N, D>) -> Result<(), AllocError>
        requires { Contains (sizes_of batch.now) self.old.size }
        ensures start { OnOk result (self.new.tree.start ≡ self.old.tree.start) }
        ensures size { OnOk result (self.new.size ≡ get_or (sizes_of batch.now) 0 0) }
        ensures stands { (hash : Bytes → Bytes) (form : Form) (list tip : List Operation)
            (bases : List (List Operation))
            → IsKept D.bytes hash F.shape N.LEN form batch.now tip bases
            → Contains (tip ∷ bases) list
            → IsCanonical D.bytes hash F.shape N.LEN form self.old list
            → OnOk result (IsCanonical D.bytes hash F.shape N.LEN form self.new tip) }
        ensures err { OnErr result (self.new ≡ self.old) }
    {
        let size = batch.size_before(0);
        batch.put_into(&mut self.tree)?;
        let root = batch.root();
        self.size = size;
        self.root = root;
        Ok(())
    }

    /// Forgets the first chunks, but for the digests of the peaks over them. Want of memory is the only error, and leaves all as it was.
    pub fn prune(&mut self, alloc: Global, chunks: u64) -> Result<(), AllocError>
        requires start { self.old.tree.start ≤ chunks }
        requires may_go { MayGo F.shape (grafting N.LEN) chunks self.old.size }
        ensures start { OnOk result (self.new.tree.start ≡ chunks) }
        ensures same { OnOk result
            ((self.new.size ≡ self.old.size) × (self.new.root ≡ self.old.root)) }
        ensures stands { (hash : Bytes → Bytes) (form : Form) (list : List Operation)
            → IsCanonical D.bytes hash F.shape N.LEN form self.old list
            → OnOk result (IsCanonical D.bytes hash F.shape N.LEN form self.new list) }
        ensures err { OnErr result (self.new ≡ self.old) }
    {
        self.tree.prune(alloc, Location::new(chunks))?;
        Ok(())
    }

    /// The digests of the peaks over the first chunks, which a database without these has to keep. Want of memory is the only error.
    pub fn pins(&self, alloc: Global, chunks: u64) -> Result<Vec<D>, AllocError>
        requires start { self.now.tree.start ≤ chunks }
        requires may_go { MayGo F.shape (grafting N.LEN) chunks self.now.size }
        ensures count { IfOk result (λ v. length v.items ≡ length (trees.peaks F.shape chunks)) }
        ensures pins { (hash : Bytes → Bytes) (form : Form) (list : List Operation)
            → IsCanonical D.bytes hash F.shape N.LEN form self.now list
            → IfOk result (λ v. map D.bytes v.items
            ≡ grafts.grafted_pins hash F.shape (grafting N.LEN) form list chunks) }
    {
        // its clauses say that it holds the peaks
        self.tree.bounds();
        let positions = Grafted::<F, N>::nodes_to_pin(alloc, Location::new(chunks))?;
        let pins = digests(alloc, &self.tree, &positions)?;
        Ok(pins)
    }
}

// The digests of nodes that a tree holds.
fn digests<F: Family, D: Digest>(
    alloc: Global,
    tree: &Mem<F, D>,
    positions: &[Position<F>],
) -> Result<Vec<D>, AllocError>
    requires { All (mems.Holds F.shape tree.now) positions.now }
    ensures { IfOk result (λ v.
        map Some v.items ≡ map (mems.node_at F.shape tree.now) positions.now) }
{
    let mut found = Vec::with_capacity(alloc, positions.len())?;
    for position in positions {
        found.push(tree.get_node(*position).unwrap())?;
    }
    Ok(found)
}
