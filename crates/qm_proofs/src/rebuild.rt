//! The root that a proof and elements give.

ghost use Rattle.std.specs.Prelude.{◌≡◌, ◌↔◌, ◌≤◌, ◌<◌, ◌^◌, ◌+◌, ◌-◌, ◌∷◌, IsTrue, IfSome, length, map, take, drop, option_map, Some, None, ◌++◌};
ghost use Rattle.qm_model.specs.Trees as trees;
ghost use Rattle.qm_model.specs.Proofs.{rebuilt, rebuilt_peaks, taken};

use super::Proof;
use super::list::meets;
use qm_base::{Digest, Hasher, Location, Spelled};
use qm_merkle::family::{halves, place};
use qm_merkle::{Family, Node, StandardHasher};

impl<D: Digest> Proof<D> {
    // Whether its numbers fit so many elements from a location on.
    pub(super) fn is_about<F: Family>(&self, count: u64, start: u64) -> bool
        ensures { IsTrue result
            ↔ ((self.now.leaves ≤ 2 ^ 62) × (0 < count) × (start + count ≤ self.now.leaves)
            × (self.now.inactive_peaks ≤ length (trees.peaks F.shape self.now.leaves))) }
    {
        if self.leaves > 1 << 62
            || count == 0
            || self.leaves < count
            || self.leaves - count < start
        {
            return false;
        }
        self.inactive_peaks <= F::peak_count(Location::new(self.leaves)) as usize
    }

    // The root over the digests of the peaks, if all digests are used and none is missing.
    pub(super) fn root<F: Family, H: Hasher<Digest = D>, E: Spelled>(
        &self,
        hasher: &mut StandardHasher<H>,
        elements: &[E],
        start: Location<F>,
    ) -> Option<D>
        requires few { self.now.leaves ≤ 2 ^ 62 }
        requires some { 0 < length elements.now }
        requires within { start + length elements.now ≤ self.now.leaves }
        requires inactive { self.now.inactive_peaks ≤ length (trees.peaks F.shape self.now.leaves) }
        ensures { option_map D.bytes result
            ≡ option_map (trees.root_of H.hash self.now.leaves self.now.inactive_peaks)
            (rebuilt_peaks H.hash F.shape (map E.spelling elements.now) start
            (trees.peaks F.shape self.now.leaves) (map D.bytes self.now.digests.items)) }
    {
        let folded = self.fold(hasher, elements, start)?;
        let leaves = Location::<F>::new(self.leaves);
        Some(hasher.sealed(leaves, self.inactive_peaks, folded.bytes()))
    }

    // The digest that the peaks fold to.
    fn fold<F: Family, H: Hasher<Digest = D>, E: Spelled>(
        &self,
        hasher: &mut StandardHasher<H>,
        elements: &[E],
        start: Location<F>,
    ) -> Option<D>
        requires few { self.now.leaves ≤ 2 ^ 62 }
        requires some { 0 < length elements.now }
        requires within { start + length elements.now ≤ self.now.leaves }
        requires inactive { self.now.inactive_peaks ≤ length (trees.peaks F.shape self.now.leaves) }
        ensures { option_map D.bytes result
            ≡ option_map (λ ds.
            trees.fold_right H.hash (trees.fold_inactive H.hash (take self.now.inactive_peaks ds)
            ++ drop self.now.inactive_peaks ds)) (rebuilt_peaks H.hash F.shape
            (map E.spelling elements.now) start (trees.peaks F.shape self.now.leaves)
            (map D.bytes self.now.digests.items)) }
    {
        if self.inactive_peaks == 0 {
            return self.fold_right(hasher, elements, start, 0, 0);
        }
        let peak = F::peak(Location::new(self.leaves), 0);
        let (first, used) = self.rebuild(hasher, elements, start, peak, 0)?;
        self.fold_onto(hasher, elements, start, 1, first, used)
    }

    // The digest that the peaks from a number on fold to from the right, if so many digests are used.
    fn fold_right<F: Family, H: Hasher<Digest = D>, E: Spelled>(
        &self,
        hasher: &mut StandardHasher<H>,
        elements: &[E],
        start: Location<F>,
        number: u32,
        used: usize,
    ) -> Option<D>
        requires few { self.now.leaves ≤ 2 ^ 62 }
        requires within { start + length elements.now ≤ self.now.leaves }
        requires number { number < length (trees.peaks F.shape self.now.leaves) }
        requires used { used ≤ length self.now.digests.items }
        ensures { option_map D.bytes result
            ≡ option_map (trees.fold_right H.hash) (rebuilt_peaks H.hash F.shape
            (map E.spelling elements.now) start (drop number (trees.peaks F.shape self.now.leaves))
            (map D.bytes (drop used self.now.digests.items))) }
    {
        let leaves = Location::new(self.leaves);
        let peak = F::peak(leaves, number);
        let (digest, used) = self.rebuild(hasher, elements, start, peak, used)?;
        let count = F::peak_count(leaves);
        if number + 1 == count {
            return self.all_used(digest, used);
        }
        let rest = self.fold_right(hasher, elements, start, number + 1, used)?;
        Some(hasher.pair_digest(&digest, &rest))
    }

    // The digest that the peaks from a number on fold to onto a digest: the inactive ones from the left, the rest from the right.
    fn fold_onto<F: Family, H: Hasher<Digest = D>, E: Spelled>(
        &self,
        hasher: &mut StandardHasher<H>,
        elements: &[E],
        start: Location<F>,
        number: u32,
        folded: D,
        used: usize,
    ) -> Option<D>
        requires few { self.now.leaves ≤ 2 ^ 62 }
        requires within { start + length elements.now ≤ self.now.leaves }
        requires number { number ≤ self.now.inactive_peaks }
        requires inactive { self.now.inactive_peaks ≤ length (trees.peaks F.shape self.now.leaves) }
        requires used { used ≤ length self.now.digests.items }
        ensures { option_map D.bytes result
            ≡ option_map (λ ds. trees.fold_right H.hash (trees.fold_left H.hash (D.bytes folded)
            (take (self.now.inactive_peaks - number) ds)
            ∷ drop (self.now.inactive_peaks - number) ds)) (rebuilt_peaks H.hash F.shape
            (map E.spelling elements.now) start (drop number (trees.peaks F.shape self.now.leaves))
            (map D.bytes (drop used self.now.digests.items))) }
    {
        let leaves = Location::new(self.leaves);
        if number == F::peak_count(leaves) {
            return self.all_used(folded, used);
        }
        if number as usize == self.inactive_peaks {
            let rest = self.fold_right(hasher, elements, start, number, used)?;
            return Some(hasher.pair_digest(&folded, &rest));
        }
        let peak = F::peak(leaves, number);
        let (digest, used) = self.rebuild(hasher, elements, start, peak, used)?;
        let folded = hasher.pair_digest(&folded, &digest);
        self.fold_onto(hasher, elements, start, number + 1, folded, used)
    }

    // A node's digest, if so many digests are used, and how many are used with it.
    fn rebuild<F: Family, H: Hasher<Digest = D>, E: Spelled>(
        &self,
        hasher: &mut StandardHasher<H>,
        elements: &[E],
        start: Location<F>,
        node: Node,
        used: usize,
    ) -> Option<(D, usize)>
        requires end { trees.end_of node ≤ 2 ^ 62 }
        requires within { start + length elements.now ≤ 2 ^ 62 }
        requires used { used ≤ length self.now.digests.items }
        ensures used { IfSome result (λ r. r.1 ≤ length self.now.digests.items) }
        ensures digest { option_map (λ r.
            (D.bytes r.0, map D.bytes (drop r.1 self.now.digests.items))) result
            ≡ rebuilt H.hash F.shape (map E.spelling elements.now) start node.height node.index
            (map D.bytes (drop used self.now.digests.items)) }
    {
        if !meets(node, start.get(), start.get() + elements.len() as u64) {
            return self.next_digest(used);
        }
        if node.height() == 0 {
            let element = &elements[(node.index() - start.get()) as usize];
            return Some((hasher.leaf_digest_of(place::<F>(node), element), used));
        }
        let (left, right) = halves(node);
        let (left, used) = self.rebuild(hasher, elements, start, left, used)?;
        let (right, used) = self.rebuild(hasher, elements, start, right, used)?;
        Some((hasher.node_digest(F::number(node), &left, &right), used))
    }

    // The first digest that is not used yet, and how many are used with it.
    fn next_digest(&self, used: usize) -> Option<(D, usize)>
        requires { used ≤ length self.now.digests.items }
        ensures used { IfSome result (λ r. r.1 ≤ length self.now.digests.items) }
        ensures digest { option_map (λ r.
            (D.bytes r.0, map D.bytes (drop r.1 self.now.digests.items))) result
            ≡ taken (map D.bytes (drop used self.now.digests.items)) }
    {
        if used < self.digests.len() {
            Some((self.digests[used], used + 1))
        } else {
            None
        }
    }

    // The digest, if all digests of the proof are used.
    fn all_used(&self, digest: D, used: usize) -> Option<D>
        requires { used ≤ length self.now.digests.items }
        ensures all { used ≡ length self.now.digests.items → result ≡ Some digest }
        ensures part { used < length self.now.digests.items → result ≡ None }
    {
        if used == self.digests.len() {
            Some(digest)
        } else {
            None
        }
    }
}
