//! The grafted root that a range proof and a claim give.

ghost use Rattle.std.specs.Prelude.{◌≡◌, ◌↔◌, ◌≤◌, ◌<◌, ◌^◌, ◌+◌, ◌-◌, ◌∷◌, ◌++◌, IsTrue, IfSome, length, map, take, drop, option_map, Some, None};
ghost use Rattle.qm_model.specs.Trees as trees;
ghost use Rattle.qm_model.specs.Proofs as proofs;
ghost use Rattle.qm_model.specs.RangeProofs.{touched_chunks};
ghost use Rattle.qm_keyproofs.specs.Claims.{own_value, value_of, values_of};

use crate::claim::Claimed;
use crate::range::RangeProof;
use qm_base::{Digest, Hasher, Location};
use qm_chunks::digests::chunk_value;
use qm_merkle::family::{halves, place};
use qm_merkle::{Family, Node, StandardHasher};

// Whether the node has a leaf of those from a start up to, and without, an end.
fn meets(node: Node, start: u64, end: u64) -> bool
    requires { trees.end_of node ≤ 2 ^ 62 }
    ensures { result ≡ proofs.meets start end node }
{
    let first = node.index() << node.height();
    let past = (node.index() + 1) << node.height();
    start.max(first) < end.min(past)
}

// Whether the node has a claimed leaf.
fn is_claimed<C: Claimed>(claim: &C, node: Node) -> bool
    requires end { trees.end_of node ≤ 2 ^ 62 }
    requires within { (C.claim claim.now).start + length (C.claim claim.now).items ≤ 2 ^ 62 }
    ensures { result
        ≡ proofs.meets (C.claim claim.now).start
        ((C.claim claim.now).start + length (C.claim claim.now).items) node }
{
    meets(node, claim.start(), claim.start() + claim.count())
}

// How many chunks have a location of so many ones from a start on.
fn chunks_touched(height: u32, start: u64, count: u64) -> u64
    requires low { height < 64 }
    requires some { 0 < count }
    requires within { start + count ≤ 2 ^ 62 }
    ensures { result ≡ touched_chunks height start (start + count) }
{
    let first = start >> height;
    let last = (start + count - 1) >> height;
    last + 1 - first
}

// What stands for a node that has claimed leaves, from its digest: over a chunk the two are hashed together.
fn own<H: Hasher, C: Claimed>(
    hasher: &mut StandardHasher<H>,
    claim: &C,
    node: Node,
    digest: H::Digest,
) -> H::Digest
    requires { (C.claim claim.now).height < 64 }
    ensures { H.Digest.bytes result
        ≡ own_value H.hash (C.claim claim.now) node (H.Digest.bytes digest) }
{
    if node.height() != claim.height() {
        return digest;
    }
    let first = claim.start() >> claim.height();
    let chunk = claim.chunk(node.index().saturating_sub(first));
    chunk_value(hasher, chunk, &digest)
}

impl<D: Digest> RangeProof<D> {
    // Whether its numbers fit the claim.
    pub(crate) fn is_about<F: Family, C: Claimed>(&self, claim: &C) -> bool
        requires { (C.claim claim.now).height < 64 }
        ensures { IsTrue result
            ↔ ((self.now.proof.leaves ≤ 2 ^ 62) × (0 < length (C.claim claim.now).items)
            × ((C.claim claim.now).start + length (C.claim claim.now).items
            ≤ self.now.proof.leaves)
            × (self.now.proof.inactive_peaks ≤ length (trees.peaks F.shape self.now.proof.leaves))
            × (length (C.claim claim.now).chunks
            ≡ touched_chunks (C.claim claim.now).height (C.claim claim.now).start
            ((C.claim claim.now).start + length (C.claim claim.now).items))) }
    {
        let (leaves, start, count) = (self.proof.leaves, claim.start(), claim.count());
        if leaves > 1 << 62 || count == 0 || leaves < count || leaves - count < start {
            return false;
        }
        let peaks = F::peak_count(Location::new(leaves)) as usize;
        if self.proof.inactive_peaks > peaks {
            return false;
        }
        claim.chunk_count() == chunks_touched(claim.height(), start, count)
    }

    // The root over the values of the peaks, if all digests are used and none is missing.
    pub(crate) fn grafted_root<F: Family, H: Hasher<Digest = D>, C: Claimed>(
        &self,
        hasher: &mut StandardHasher<H>,
        claim: &C,
    ) -> Option<D>
        requires few { self.now.proof.leaves ≤ 2 ^ 62 }
        requires some { 0 < length (C.claim claim.now).items }
        requires within { (C.claim claim.now).start + length (C.claim claim.now).items
            ≤ self.now.proof.leaves }
        requires inactive { self.now.proof.inactive_peaks
            ≤ length (trees.peaks F.shape self.now.proof.leaves) }
        requires high { 0 < (C.claim claim.now).height }
        requires low { (C.claim claim.now).height < 64 }
        ensures { option_map D.bytes result
            ≡ option_map (trees.root_of H.hash self.now.proof.leaves self.now.proof.inactive_peaks)
            (values_of H.hash F.shape (C.claim claim.now)
            (trees.peaks F.shape self.now.proof.leaves)
            (map D.bytes self.now.proof.digests.items)) }
    {
        let folded = self.fold::<F, H, C>(hasher, claim)?;
        let leaves = Location::<F>::new(self.proof.leaves);
        Some(hasher.sealed(leaves, self.proof.inactive_peaks, folded.bytes()))
    }

    // The digest that the values of the peaks fold to.
    fn fold<F: Family, H: Hasher<Digest = D>, C: Claimed>(
        &self,
        hasher: &mut StandardHasher<H>,
        claim: &C,
    ) -> Option<D>
        requires few { self.now.proof.leaves ≤ 2 ^ 62 }
        requires some { 0 < length (C.claim claim.now).items }
        requires within { (C.claim claim.now).start + length (C.claim claim.now).items
            ≤ self.now.proof.leaves }
        requires inactive { self.now.proof.inactive_peaks
            ≤ length (trees.peaks F.shape self.now.proof.leaves) }
        requires high { 0 < (C.claim claim.now).height }
        requires low { (C.claim claim.now).height < 64 }
        ensures { option_map D.bytes result
            ≡ option_map (λ ds.
            trees.fold_right H.hash
            (trees.fold_inactive H.hash (take self.now.proof.inactive_peaks ds)
            ++ drop self.now.proof.inactive_peaks ds)) (values_of H.hash F.shape (C.claim claim.now)
            (trees.peaks F.shape self.now.proof.leaves)
            (map D.bytes self.now.proof.digests.items)) }
    {
        if self.proof.inactive_peaks == 0 {
            return self.fold_right::<F, H, C>(hasher, claim, 0, 0);
        }
        let peak = F::peak(Location::new(self.proof.leaves), 0);
        let (first, used) = self.rebuild::<F, H, C>(hasher, claim, peak, 0)?;
        self.fold_onto::<F, H, C>(hasher, claim, 1, first, used)
    }

    // The digest that the values of the peaks from a number on fold to from the right, if so many digests are used.
    fn fold_right<F: Family, H: Hasher<Digest = D>, C: Claimed>(
        &self,
        hasher: &mut StandardHasher<H>,
        claim: &C,
        number: u32,
        used: usize,
    ) -> Option<D>
        requires few { self.now.proof.leaves ≤ 2 ^ 62 }
        requires within { (C.claim claim.now).start + length (C.claim claim.now).items
            ≤ self.now.proof.leaves }
        requires number { number < length (trees.peaks F.shape self.now.proof.leaves) }
        requires used { used ≤ length self.now.proof.digests.items }
        requires high { 0 < (C.claim claim.now).height }
        requires low { (C.claim claim.now).height < 64 }
        ensures { option_map D.bytes result
            ≡ option_map (trees.fold_right H.hash) (values_of H.hash F.shape (C.claim claim.now)
            (drop number (trees.peaks F.shape self.now.proof.leaves))
            (map D.bytes (drop used self.now.proof.digests.items))) }
    {
        let leaves = Location::new(self.proof.leaves);
        let peak = F::peak(leaves, number);
        let (value, used) = self.rebuild::<F, H, C>(hasher, claim, peak, used)?;
        let count = F::peak_count(leaves);
        if number + 1 == count {
            return self.all_used(value, used);
        }
        let rest = self.fold_right::<F, H, C>(hasher, claim, number + 1, used)?;
        Some(hasher.pair_digest(&value, &rest))
    }

    // The digest that the values of the peaks from a number on fold to onto a digest: the inactive ones from the left, the
    // rest from the right.
    fn fold_onto<F: Family, H: Hasher<Digest = D>, C: Claimed>(
        &self,
        hasher: &mut StandardHasher<H>,
        claim: &C,
        number: u32,
        folded: D,
        used: usize,
    ) -> Option<D>
        requires few { self.now.proof.leaves ≤ 2 ^ 62 }
        requires within { (C.claim claim.now).start + length (C.claim claim.now).items
            ≤ self.now.proof.leaves }
        requires number { number ≤ self.now.proof.inactive_peaks }
        requires inactive { self.now.proof.inactive_peaks
            ≤ length (trees.peaks F.shape self.now.proof.leaves) }
        requires used { used ≤ length self.now.proof.digests.items }
        requires high { 0 < (C.claim claim.now).height }
        requires low { (C.claim claim.now).height < 64 }
        ensures { option_map D.bytes result
            ≡ option_map (λ ds. trees.fold_right H.hash (trees.fold_left H.hash (D.bytes folded)
            (take (self.now.proof.inactive_peaks - number) ds)
            ∷ drop (self.now.proof.inactive_peaks - number) ds))
            (values_of H.hash F.shape (C.claim claim.now)
            (drop number (trees.peaks F.shape self.now.proof.leaves))
            (map D.bytes (drop used self.now.proof.digests.items))) }
    {
        let leaves = Location::new(self.proof.leaves);
        if number == F::peak_count(leaves) {
            return self.all_used(folded, used);
        }
        if number as usize == self.proof.inactive_peaks {
            let rest = self.fold_right::<F, H, C>(hasher, claim, number, used)?;
            return Some(hasher.pair_digest(&folded, &rest));
        }
        let peak = F::peak(leaves, number);
        let (value, used) = self.rebuild::<F, H, C>(hasher, claim, peak, used)?;
        let folded = hasher.pair_digest(&folded, &value);
        self.fold_onto::<F, H, C>(hasher, claim, number + 1, folded, used)
    }

    // A node's value, if so many digests are used, and how many are used with it.
    fn rebuild<F: Family, H: Hasher<Digest = D>, C: Claimed>(
        &self,
        hasher: &mut StandardHasher<H>,
        claim: &C,
        node: Node,
        used: usize,
    ) -> Option<(D, usize)>
        requires end { trees.end_of node ≤ 2 ^ 62 }
        requires within { (C.claim claim.now).start + length (C.claim claim.now).items ≤ 2 ^ 62 }
        requires used { used ≤ length self.now.proof.digests.items }
        requires high { 0 < (C.claim claim.now).height }
        requires low { (C.claim claim.now).height < 64 }
        ensures used { IfSome result (λ r. r.1 ≤ length self.now.proof.digests.items) }
        ensures value { option_map (λ r.
            (D.bytes r.0, map D.bytes (drop r.1 self.now.proof.digests.items))) result
            ≡ value_of H.hash F.shape (C.claim claim.now) node
            (map D.bytes (drop used self.now.proof.digests.items)) }
    {
        if !is_claimed(claim, node) {
            return self.next_digest(used);
        }
        if node.height() == 0 {
            let number = node.index() - claim.start();
            return Some((claim.leaf_digest(hasher, place::<F>(node), number), used));
        }
        let (left, right) = halves(node);
        let (left, used) = self.rebuild::<F, H, C>(hasher, claim, left, used)?;
        let (right, used) = self.rebuild::<F, H, C>(hasher, claim, right, used)?;
        let digest = hasher.node_digest(F::number(node), &left, &right);
        Some((own(hasher, claim, node, digest), used))
    }

    // The first digest that is not used yet, and how many are used with it.
    fn next_digest(&self, used: usize) -> Option<(D, usize)>
        requires { used ≤ length self.now.proof.digests.items }
        ensures used { IfSome result (λ r. r.1 ≤ length self.now.proof.digests.items) }
        ensures digest { option_map (λ r.
            (D.bytes r.0, map D.bytes (drop r.1 self.now.proof.digests.items))) result
            ≡ proofs.taken (map D.bytes (drop used self.now.proof.digests.items)) }
    {
        if used < self.proof.digests.len() {
            Some((self.proof.digests[used], used + 1))
        } else {
            None
        }
    }

    // The digest, if all digests of the proof are used.
    fn all_used(&self, digest: D, used: usize) -> Option<D>
        requires { used ≤ length self.now.proof.digests.items }
        ensures all { used ≡ length self.now.proof.digests.items → result ≡ Some digest }
        ensures part { used < length self.now.proof.digests.items → result ≡ None }
    {
        if used == self.proof.digests.len() {
            Some(digest)
        } else {
            None
        }
    }
}
