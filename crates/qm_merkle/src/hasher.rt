//! The digests of leaves and nodes, and the root of a row of peaks.

ghost use Rattle.std.specs.Prelude.{◌≡◌, ℕ, List, ◌<◌, ◌≤◌, ◌-◌, ◌++◌, length, map, max, take, drop};
ghost use Rattle.std.specs.List.{concat};
ghost use Rattle.qm_model.specs.Operations as operations;
ghost use Rattle.qm_model.specs.Trees as trees;
ghost use Rattle.qm_merkle.specs.Mems.{more};

use crate::position::Position;
use qm_base::{Digest, Hasher, Location, Spelled, eight_bytes};
use std::marker::Model;

/// A hasher of trees over a hasher of messages, which counts the digests that it makes. It takes no memory.
#[derive(Drop)]
pub struct StandardHasher<H> {
    hasher: H,
    made: u64,
}

impl<H> Model for StandardHasher<H> {
    ghost use Rattle.std.specs.Prelude.{ℕ};

    ghost Value = { ℕ };

    ghost view = { λ h. h.made };
}

impl<H: Hasher> StandardHasher<H> {
    /// The hasher of trees over this one.
    pub fn new(hasher: H) -> Self
        ensures { result ≡ 0 }
    {
        StandardHasher { hasher, made: 0 }
    }

    /// How many digests it has made; it stands still at 2^64 - 1.
    pub fn made(&self) -> u64
        ensures { result ≡ self.now }
    {
        self.made
    }

    /// The digest of bytes that stand in several parts.
    pub fn digest(&mut self, parts: &[&[u8]]) -> H::Digest
        ensures digest { H.Digest.bytes result
            ≡ H.hash (concat (map (λ part. part.now) parts.now)) }
        ensures made { self.new ≡ more self.old 1 }
    {
        self.hasher.start();
        for part in parts {
            self.hasher.update(part);
        }
        finish(&mut self.hasher, &mut self.made)
    }

    /// The digest of the leaf at this position with these bytes.
    pub fn leaf_digest<F>(&mut self, position: Position<F>, bytes: &[u8]) -> H::Digest
        ensures digest { H.Digest.bytes result ≡ trees.leaf_digest H.hash position bytes.now }
        ensures made { self.new ≡ more self.old 1 }
    {
        begin(&mut self.hasher, position.get());
        self.hasher.update(bytes);
        finish(&mut self.hasher, &mut self.made)
    }

    /// The digest of the leaf at this position with the element's spelling.
    pub fn leaf_digest_of<F, E: Spelled>(&mut self, position: Position<F>, element: &E) -> H::Digest
        ensures digest { H.Digest.bytes result
            ≡ trees.leaf_digest H.hash position (E.spelling element.now) }
        ensures made { self.new ≡ more self.old 1 }
    {
        begin(&mut self.hasher, position.get());
        element.feed(&mut self.hasher);
        finish(&mut self.hasher, &mut self.made)
    }

    /// The digest of the inner node of this number (its position, in a tree that is not grafted) over its two halves.
    pub fn node_digest(&mut self, number: u64, left: &H::Digest, right: &H::Digest) -> H::Digest
        ensures digest { H.Digest.bytes result
            ≡ trees.node_digest H.hash number (H.Digest.bytes left.now) (H.Digest.bytes right.now) }
        ensures made { self.new ≡ more self.old 1 }
    {
        begin(&mut self.hasher, number);
        self.hasher.update(left.bytes());
        self.hasher.update(right.bytes());
        finish(&mut self.hasher, &mut self.made)
    }

    /// The root over so many leaves, of whose peaks the first ones are inactive.
    pub fn root<F>(
        &mut self,
        leaves: Location<F>,
        inactive: usize,
        peaks: &[H::Digest],
    ) -> H::Digest
        requires { inactive ≤ length peaks.now }
        ensures digest { H.Digest.bytes result
            ≡ trees.root_of H.hash leaves inactive (map H.Digest.bytes peaks.now) }
        ensures made { self.new ≡ more self.old (max 1 (length peaks.now)) }
    {
        if peaks.is_empty() {
            return self.sealed(leaves, inactive, &[]);
        }
        let folded = self.folded(inactive, peaks);
        self.sealed(leaves, inactive, folded.bytes())
    }

    // What peaks fold to, of which the first ones are inactive.
    fn folded(&mut self, inactive: usize, peaks: &[H::Digest]) -> H::Digest
        requires some { 0 < length peaks.now }
        requires inactive { inactive ≤ length peaks.now }
        ensures digest { H.Digest.bytes result
            ≡ trees.fold_right H.hash (trees.fold_inactive H.hash
            (take inactive (map H.Digest.bytes peaks.now))
            ++ drop inactive (map H.Digest.bytes peaks.now)) }
        ensures made { self.new ≡ more self.old (length peaks.now - 1) }
    {
        if inactive == 0 {
            return self.fold_right(peaks);
        }
        let first = self.fold_left(peaks[0], &peaks[1..inactive]);
        if inactive == peaks.len() {
            return first;
        }
        let rest = self.fold_right(&peaks[inactive..]);
        self.pair_digest(&first, &rest)
    }

    /// The digest of two digests in a row.
    pub fn pair_digest(&mut self, left: &H::Digest, right: &H::Digest) -> H::Digest
        ensures digest { H.Digest.bytes result
            ≡ H.hash (H.Digest.bytes left.now ++ H.Digest.bytes right.now) }
        ensures made { self.new ≡ more self.old 1 }
    {
        self.hasher.start();
        self.hasher.update(left.bytes());
        self.hasher.update(right.bytes());
        finish(&mut self.hasher, &mut self.made)
    }

    // Digests folded from the left, onto a first one.
    fn fold_left(&mut self, first: H::Digest, rest: &[H::Digest]) -> H::Digest
        ensures digest { H.Digest.bytes result
            ≡ trees.fold_left H.hash (H.Digest.bytes first) (map H.Digest.bytes rest.now) }
        ensures made { self.new ≡ more self.old (length rest.now) }
    {
        let mut folded = first;
        for digest in rest {
            folded = self.pair_digest(&folded, digest);
        }
        folded
    }

    // Digests folded from the right.
    fn fold_right(&mut self, digests: &[H::Digest]) -> H::Digest
        requires { 0 < length digests.now }
        ensures digest { H.Digest.bytes result
            ≡ trees.fold_right H.hash (map H.Digest.bytes digests.now) }
        ensures made { self.new ≡ more self.old (length digests.now - 1) }
    {
        let mut at = digests.len() - 1;
        let mut folded = digests[at];
        'digests: while at > 0 {
            at -= 1;
            folded = self.pair_digest(&digests[at], &folded);
        }
        folded
    }

    /// The digest of two numbers, of leaves and of inactive peaks, and what the peaks fold to: a root.
    pub fn sealed<F>(&mut self, leaves: Location<F>, inactive: usize, folded: &[u8]) -> H::Digest
        ensures digest { H.Digest.bytes result
            ≡ H.hash
            (operations.eight_bytes leaves ++ operations.eight_bytes inactive ++ folded.now) }
        ensures made { self.new ≡ more self.old 1 }
    {
        begin(&mut self.hasher, leaves.get());
        self.hasher.update(&eight_bytes(inactive as u64));
        self.hasher.update(folded);
        finish(&mut self.hasher, &mut self.made)
    }
}

// Begins a message with a number.
fn begin<H: Hasher>(hasher: &mut H, number: u64)
    ensures { H.holds hasher.new (operations.eight_bytes number) }
{
    hasher.start();
    hasher.update(&eight_bytes(number));
}

// The digest of the message that the hasher holds, counted.
fn finish<H: Hasher>(hasher: &mut H, made: &mut u64) -> H::Digest
    ensures digest { (m : List ℕ) → H.holds hasher.old m → H.Digest.bytes result ≡ H.hash m }
    ensures made { made.new ≡ more made.old 1 }
{
    *made = made.saturating_add(1);
    hasher.finish()
}
