//! What a merkleized batch of a current database keeps beside the any one.

ghost use Rattle.std.specs.Prelude.{◌≡◌, ◌⊎◌, ◌≤◌, ◌<◌, ◌^◌, ◌∷◌, [], ℕ, suc, List, length, map, take, filter, get_or, nat_le, All, Contains, IfOk, IfErr, OnOk, OnErr};
ghost use Rattle.qm_model.specs.Operations.{Bytes, Operation, IsCommitEnded};
ghost use Rattle.qm_model.specs.Forms.{Form};
ghost use Rattle.qm_model.specs.Batches.{Begins};
ghost use Rattle.qm_model.specs.Bits as activity;
ghost use Rattle.qm_model.specs.Grafted as grafts;
ghost use Rattle.qm_bits.specs.Bitmaps.{all_bits, bit_count};
ghost use Rattle.qm_merkle.specs.Batches.{all_layers, stops, stops_since, lists_since, IsHistory};
ghost use Rattle.qm_merkle.specs.Mems.{Stands};
ghost use Rattle.qm_step.specs.Changes.{LeadTo};
ghost use Rattle.qm_step.specs.Views.{changes_view};
ghost use Rattle.qm_overlay.specs.Layers.{IsFrom, seen};
ghost use Rattle.qm_graft.specs.Grafting.{grafting, kept_shape};
ghost use Rattle.qm_roots.specs.Steps.{AreOverlays, AreRising, IsOverlay};
ghost use Rattle.qm_roots.specs.Canonical.{IsCanonical, values_of};
ghost use Rattle.qm_roots.specs.Kept.{AreAgreed, CanFollow, IsGrown, IsKept, IsPlace, IsTip, boundary_of, sizes_of};

use crate::canonical::Canonical;
use crate::steps::{bits_after, changed_since, stepped};
use qm_base::{ByteString, Digest, Hasher, Location, MerkleError};
use qm_bits::{Chunks, Prunable};
use qm_chain::Diff;
use qm_chunks::Graftable;
use qm_chunks::chunks::grafted_chunks;
use qm_graft::Grafted;
use qm_graft::grafted::height;
use qm_graft::step::grown;
use qm_graft::tree::Behind;
use qm_merkle::mem::Mem;
use qm_merkle::{MerkleizedBatch, StandardHasher, UnmerkleizedBatch};
use qm_overlay::{BitmapBatch, ChunkOverlay};
use qm_proofs::Nodes;
use std::alloc::{AllocError, Global};
use std::marker::Model;
use std::rc::Rc;

/// What a merkleized batch keeps beside its operations and their tree: what its own step and those of the ancestors that it
/// keeps do to bits, newest first, what these do to the grafted tree, and the canonical root of its list.
#[derive(Drop)]
pub struct Kept<F: Graftable, N: Chunks, D: Digest> {
    overlays: Vec<Rc<ChunkOverlay<N>>>,
    base: u64,
    start: u64,
    leaves: u64,
    batch: Option<MerkleizedBatch<Grafted<F, N>, D>>,
    root: D,
}

impl<F: Graftable, N: Chunks, D: Digest> Model for Kept<F, N, D> {
    ghost use Rattle.std.specs.Prelude.{◌≡◌, map, IfSome};
    ghost use Rattle.qm_graft.specs.Grafting.{grafting};
    ghost use Rattle.qm_roots.specs.Kept as kepts;

    ghost Value = { kepts.Kept D };

    ghost view = { λ k. record { overlays = map (λ r. r.value) k.overlays.items; base = k.base; start = k.start; leaves = k.leaves; layers = kepts.layers_of k.batch; root = D.bytes k.root } };

    ghost invariant = { λ k. kepts.AreAgreed {D = D} F.shape (grafting N.LEN) (record { overlays = map (λ r. r.value) k.overlays.items; base = k.base; start = k.start; leaves = k.leaves; layers = kepts.layers_of k.batch; root = D.bytes k.root })
        × IfSome k.batch (λ b. (b.newest.tree.leaves ≡ k.leaves) × (b.start ≡ k.start)) };
}

/// The list that a step makes: its size, its floor, the root of its operations, and what has the nodes of their tree.
#[derive(Drop)]
pub struct Tip<'a, D, O> {
    pub size: u64,
    pub floor: u64,
    pub ops_root: &'a D,
    pub operations: &'a O,
}

/// Where a batch is made: the database's grafted tree and bits, how many of its parent's steps the database lacks, and how many
/// the batch keeps.
#[derive(Drop)]
pub struct Place<'a, 'b, F: Graftable, N: Chunks, D: Digest> {
    pub canonical: &'a Canonical<F, N, D>,
    pub bits: &'b Prunable<N>,
    pub lacking: usize,
    pub keep: usize,
}

impl<F: Graftable, N: Chunks, D: Digest> Kept<F, N, D> {
    // What a database at rest keeps as a batch that does nothing: it has these bits and this root.
    pub(crate) fn at_rest(alloc: Global, bits: &Prunable<N>, root: D) -> Result<Self, AllocError>
        ensures { IfOk result (λ k. k
            ≡ record {
              overlays = record { count = bit_count N.LEN bits.now; changed = [] } ∷ [];
              base = bit_count N.LEN bits.now;
              start = 0;
              leaves = grafts.grafted_chunks F.shape (grafting N.LEN) (bit_count N.LEN bits.now);
              layers = [];
              root = D.bytes root;
            }) }
    {
        let size = bits.len();
        let overlay = Rc::new(alloc, ChunkOverlay::new(alloc, bits, size))?;
        let mut overlays = Vec::new(alloc);
        overlays.push(overlay)?;
        Ok(Kept {
            overlays,
            base: size,
            start: 0,
            leaves: grafted_chunks::<F>(height::<N>(), size),
            batch: None,
            root,
        })
    }

    /// The canonical root of the batch's list.
    pub fn root(&self) -> D
        ensures { D.bytes result ≡ self.now.root }
    {
        self.root
    }

    /// How many of the newest steps a database of this size lacks, if one of the lists that they lead through has it: the fewest.
    pub fn lacking(&self, size: u64) -> usize
        ensures { (n : ℕ) → n < length (sizes_of self.now) → get_or (sizes_of self.now) n 0 ≡ size
            → (result ≤ n) × (get_or (sizes_of self.now) result 0 ≡ size) }
    {
        for steps in 0..self.overlays.len() {
            if self.size_before(steps) == size {
                return steps;
            }
        }
        self.overlays.len()
    }

    // The size of the list before the newest steps.
    pub(crate) fn size_before(&self, steps: usize) -> u64
        requires { steps ≤ length self.now.overlays }
        ensures size { result ≡ get_or (sizes_of self.now) steps 0 }
        ensures agreed { AreAgreed F.shape (grafting N.LEN) self.now }
    {
        if steps < self.overlays.len() {
            self.overlays[steps].len()
        } else {
            self.base
        }
    }

    // Makes a grafted tree that stands at one of the batch's lists the one of its last. Nothing is hashed. Want of memory is the
    // only error, and leaves the tree as it was.
    pub(crate) fn put_into(&self, tree: &mut Mem<Grafted<F, N>, D>) -> Result<(), AllocError>
        requires { Contains (stops self.now.leaves self.now.layers) tree.old.leaves }
        ensures bounds { OnOk result
            ((tree.new.start ≡ tree.old.start) × (tree.new.leaves ≡ self.now.leaves)) }
        ensures stands { (hash : Bytes → Bytes) (list new : List Bytes) (lists : List (List Bytes))
            → IsHistory (kept_shape F.shape (grafting N.LEN)) D.bytes hash self.now.layers
            (new ∷ lists) → Contains (new ∷ lists) list
            → Stands (kept_shape F.shape (grafting N.LEN)) D.bytes hash tree.old list
            → OnOk result (Stands (kept_shape F.shape (grafting N.LEN)) D.bytes hash tree.new new) }
        ensures err { OnErr result (tree.new ≡ tree.old) }
    {
        match &self.batch {
            None => Ok(()),
            Some(batch) => tree.apply_batch(batch),
        }
    }

    // The steps of a child: its own, and the newest of these that it keeps.
    fn over(
        &self,
        alloc: Global,
        own: Rc<ChunkOverlay<N>>,
        keep: usize,
    ) -> Result<Vec<Rc<ChunkOverlay<N>>>, AllocError>
        requires { keep ≤ length self.now.overlays }
        ensures { IfOk result (λ v.
            map (λ r. r.value) v.items ≡ own.value ∷ take keep self.now.overlays) }
    {
        let (kept, _) = self.overlays.split_at(keep);
        let mut overlays = kept.to_vec(alloc)?;
        overlays.insert(0, own)?;
        Ok(overlays)
    }

    // A draft over the batch's grafted tree, and over a tree that stands at one of its lists, and the chunk from which on it is kept.
    // It keeps nothing of what led to lists with fewer leaves than the boundary.
    fn draft(
        &self,
        alloc: Global,
        tree: &Mem<Grafted<F, N>, D>,
        boundary: u64,
    ) -> Result<(UnmerkleizedBatch<Grafted<F, N>, D>, u64), AllocError>
        requires reach { Contains (stops self.now.leaves self.now.layers) tree.now.leaves }
        requires boundary { boundary ≤ self.now.leaves }
        ensures fresh { IfOk result (λ d. (d.0.replaced ≡ []) × (d.0.added ≡ [])) }
        ensures base { IfOk result (λ d. d.0.base ≡ self.now.leaves) }
        ensures start { IfOk result (λ d. (d.0.start ≡ d.1)
            × ((d.1 ≡ self.now.start) ⊎ (d.1 ≡ tree.now.start))) }
        ensures stops { IfOk result (λ d. stops d.0.base d.0.layers
            ≡ stops_since boundary (stops self.now.leaves self.now.layers)) }
        ensures history { (hash : Bytes → Bytes) (list values : List Bytes)
            (lists : List (List Bytes))
            → IsHistory (kept_shape F.shape (grafting N.LEN)) D.bytes hash self.now.layers
            (values ∷ lists) → Contains (values ∷ lists) list
            → Stands (kept_shape F.shape (grafting N.LEN)) D.bytes hash tree.now list
            → IfOk result (λ d. IsHistory (kept_shape F.shape (grafting N.LEN)) D.bytes hash
            d.0.layers (lists_since boundary (values ∷ lists))) }
    {
        match &self.batch {
            None => {
                let (start, _) = tree.bounds();
                Ok((tree.new_batch(alloc), start.get()))
            }
            Some(batch) => {
                let draft = batch.new_batch_since(alloc, Location::new(boundary))?;
                Ok((draft, self.start))
            }
        }
    }

    // The bits of a child's list, over a database's, which lack the newest steps, and the child's step by its diffs.
    fn after<'a, K: ByteString, V: ByteString>(
        &self,
        alloc: Global,
        bits: &'a Prunable<N>,
        lacking: usize,
        size: u64,
        diffs: &[Rc<Diff<F, K, V>>],
    ) -> Result<(BitmapBatch<'a, N>, Rc<ChunkOverlay<N>>), AllocError>
        requires lacked { lacking ≤ length self.now.overlays }
        requires at { bit_count N.LEN bits.now ≡ get_or (sizes_of self.now) lacking 0 }
        requires grows { get_or (sizes_of self.now) 0 0 ≤ size }
        requires few { size ≤ 2 ^ 62 }
        ensures total { IfOk result (λ r. bit_count N.LEN (seen N.LEN r.0) ≡ size) }
        ensures pruned { IfOk result (λ r. (seen N.LEN r.0).pruned ≡ bits.now.pruned) }
        ensures count { IfOk result (λ r. r.1.value.count ≡ size) }
        ensures from { IfOk result (λ r. IsFrom bits.now.pruned r.1.value) }
        ensures made { (base ops : List Operation) (bases : List (List Operation))
            → AreOverlays N.LEN self.now.overlays base bases → AreRising base bases
            → all_bits N.LEN bits.now ≡ activity.bits (get_or (base ∷ bases) lacking [])
            → LeadTo (map (λ d. changes_view K.bytes V.bytes d.value) diffs.now) base ops
            → IsCommitEnded base → size ≡ length ops
            → IfOk result (λ r. (all_bits N.LEN (seen N.LEN r.0) ≡ activity.bits ops)
            × IsOverlay N.LEN r.1.value base ops) }
    {
        let (lacked, _) = self.overlays.split_at(lacking);
        let mut laid = bits_after(alloc, bits, lacked)?;
        let overlay = stepped(alloc, &mut laid, size, diffs)?;
        Ok((laid, overlay))
    }

    // What a child's step does to the grafted tree, and the canonical root of the child's list, from the bits of that list.
    fn grafted<H: Hasher<Digest = D>, O: Nodes<F, D>>(
        &self,
        alloc: Global,
        hasher: &mut StandardHasher<H>,
        place: &Place<'_, '_, F, N, D>,
        tip: &Tip<'_, D, O>,
        bits: &BitmapBatch<'_, N>,
        overlay: &ChunkOverlay<N>,
    ) -> Result<Grown<F, N, D>, MerkleError>
        requires can { CanFollow F.shape N.LEN self.now place.now.canonical.now place.now.bits.now
            (O.node_at tip.now.operations.now) place.now.lacking place.now.keep tip.now.size }
        requires total { bit_count N.LEN (seen N.LEN bits.now) ≡ tip.now.size }
        requires pruned { (seen N.LEN bits.now).pruned ≡ place.now.bits.now.pruned }
        requires from { IsFrom place.now.bits.now.pruned overlay.now }
        ensures leaves { IfOk result (λ r. r.batch.newest.tree.leaves
            ≡ grafts.grafted_chunks F.shape (grafting N.LEN) tip.now.size) }
        ensures start { IfOk result (λ r. (r.batch.start ≡ r.start)
            × ((r.start ≡ self.now.start) ⊎ (r.start ≡ place.now.canonical.now.tree.start))) }
        ensures stops { IfOk result (λ r. stops r.batch.newest.tree.leaves (all_layers r.batch)
            ≡ r.batch.newest.tree.leaves
            ∷ stops_since (boundary_of F.shape (grafting N.LEN) self.now place.now.keep)
            (stops self.now.leaves self.now.layers)) }
        ensures made { (form : Form) (ops base : List Operation) (bases : List (List Operation))
            (is : IsKept D.bytes H.hash F.shape N.LEN form self.now base bases)
            → Begins base ops → IsOverlay N.LEN overlay.now base ops
            → all_bits N.LEN (seen N.LEN bits.now) ≡ activity.bits ops
            → IsPlace D.bytes H.hash F.shape N.LEN form place.now.canonical.now place.now.bits.now
            (get_or (base ∷ bases) place.now.lacking [])
            → IsTip D.bytes H.hash F.shape form tip.now.size tip.now.floor
            (D.bytes tip.now.ops_root.now) (O.node_at tip.now.operations.now) ops
            → IfOk result (λ r. IsGrown D.bytes H.hash F.shape N.LEN form
            (boundary_of F.shape (grafting N.LEN) self.now place.now.keep) (all_layers r.batch)
            r.start (D.bytes r.root) ops base is.lists) }
        ensures cause { IfErr result (λ e. e ≡ MerkleError.Memory) }
    {
        let tree = place.canonical.tree();
        let boundary = grafted_chunks::<F>(height::<N>(), self.size_before(place.keep));
        let (draft, start) = self.draft(alloc, tree, boundary)?;
        let changed = changed_since(alloc, overlay, start)?;
        let step = Behind {
            bits,
            operations: tip.operations,
        };
        let floor = Location::new(tip.floor);
        let (batch, root) = grown(
            alloc,
            hasher,
            tree,
            draft,
            &step,
            &changed,
            tip.ops_root,
            floor,
        )?;
        Ok(Grown { batch, start, root })
    }

    /// What a child keeps, whose step on this batch's list the diffs tell: its own step, and the newest of this one's. Of the grafted
    /// tree the chunks change that its own step changes, and those come that are grafted since. Want of memory is the only error.
    pub fn followed<H: Hasher<Digest = D>, K: ByteString, V: ByteString, O: Nodes<F, D>>(
        &self,
        alloc: Global,
        hasher: &mut StandardHasher<H>,
        place: &Place<'_, '_, F, N, D>,
        diffs: &[Rc<Diff<F, K, V>>],
        tip: &Tip<'_, D, O>,
    ) -> Result<Self, MerkleError>
        requires { CanFollow F.shape N.LEN self.now place.now.canonical.now place.now.bits.now
            (O.node_at tip.now.operations.now) place.now.lacking place.now.keep tip.now.size }
        ensures sizes { IfOk result (λ k.
            sizes_of k ≡ tip.now.size ∷ take (suc place.now.keep) (sizes_of self.now)) }
        ensures made { (form : Form) (ops base : List Operation) (bases : List (List Operation))
            → IsKept D.bytes H.hash F.shape N.LEN form self.now base bases
            → IsPlace D.bytes H.hash F.shape N.LEN form place.now.canonical.now place.now.bits.now
            (get_or (base ∷ bases) place.now.lacking [])
            → LeadTo (map (λ d. changes_view K.bytes V.bytes d.value) diffs.now) base ops
            → IsCommitEnded base
            → IsTip D.bytes H.hash F.shape form tip.now.size tip.now.floor
            (D.bytes tip.now.ops_root.now) (O.node_at tip.now.operations.now) ops
            → IfOk result (λ k. IsKept D.bytes H.hash F.shape N.LEN form k ops
            (take (suc place.now.keep) (base ∷ bases))) }
        ensures cause { IfErr result (λ e. e ≡ MerkleError.Memory) }
    {
        let (bits, overlay) = self.after(alloc, place.bits, place.lacking, tip.size, diffs)?;
        let made = self.grafted(alloc, hasher, place, tip, &bits, &overlay)?;
        let overlays = self.over(alloc, overlay, place.keep)?;
        let base = self.size_before(place.keep);
        // its clauses say that its tree has a leaf for each grafted chunk
        place.canonical.tree();
        let Grown { batch, start, root } = made;
        let leaves = batch.leaves().get();
        Ok(Kept {
            overlays,
            base,
            start,
            leaves,
            batch: Some(batch),
            root,
        })
    }
}

// What a step does to the grafted tree: its batch, the chunk from which on that is kept, and the canonical root.
#[derive(Drop)]
struct Grown<F: Graftable, N: Chunks, D: Digest> {
    batch: MerkleizedBatch<Grafted<F, N>, D>,
    start: u64,
    root: D,
}
