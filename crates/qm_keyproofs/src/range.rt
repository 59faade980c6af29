//! Proofs that operations stand in a list, and which of them are active.

ghost use Rattle.std.specs.Prelude.{◌≡◌, ◌⊎◌, ◌≤◌, ◌<◌, ◌^◌, ◌&&◌, ◌++◌, ◌%◌, ◌/◌, ℕ, true, List, Option, map, length, option_map};
ghost use Rattle.qm_model.specs.Operations.{Operation};
ghost use Rattle.qm_model.specs.Forms.{Form};
ghost use Rattle.qm_model.specs.Bits as bits;
ghost use Rattle.qm_model.specs.Grafted as grafted;
ghost use Rattle.qm_model.specs.Proofs.{Collides};
ghost use Rattle.qm_model.specs.RangeProofs.{RangeSays, range_verdict, range_inputs, canonical_inputs};
ghost use Rattle.qm_chunks.specs.Views.{partial_view};
ghost use Rattle.qm_graft.specs.Grafting.{grafting};
ghost use Rattle.qm_keyproofs.specs.Claims.{agrees_with, verdict_on};
ghost use Rattle.qm_keyproofs.specs.Views.{chunk_views, range_view};

use crate::chunk::ChunkBytes;
use crate::claim::{Claimed, Items};
use qm_base::{Digest, Hasher, Location, Spelled};
use qm_bits::Chunks;
use qm_chunks::Graftable;
use qm_chunks::chunks::{partial_bits, partial_chunk, pending_chunk};
use qm_chunks::digests::{canonical_root, chunk_digest};
use qm_graft::grafted::height;
use qm_merkle::StandardHasher;
use qm_proofs::Proof;

/// A proof that operations stand at locations in a row, against a canonical root: digests of nodes beside the locations, grafted
/// ones from the height of chunks on; the digests of the pending and of the partial chunk, if there is one; and the operations
/// root. Any numbers and digests make a proof; `verify` says no to those that are none.
#[derive(Drop)]
pub struct RangeProof<D> {
    pub proof: Proof<D>,
    pub pending_chunk_digest: Option<D>,
    pub partial_chunk_digest: Option<D>,
    pub ops_root: D,
}

impl<D: Digest> RangeProof<D> {
    /// Whether the proof shows that these items stand at the locations from `start` on, in the list of this canonical root, and
    /// that these are the chunks of those locations. It takes no memory. Of a root that is no list's a yes says nothing, and of
    /// a list's root no more than the hash bears.
    pub fn verify<F: Graftable, N: Chunks, H: Hasher<Digest = D>, E: Spelled>(
        &self,
        hasher: &mut StandardHasher<H>,
        items: &[E],
        start: Location<F>,
        chunks: &[ChunkBytes<N>],
        root: &D,
    ) -> bool
        ensures answer { result
            ≡ range_verdict H.hash F.shape (grafting N.LEN) (map E.spelling items.now) start
            (chunk_views chunks.now) (range_view D.bytes self.now) (D.bytes root.now) }
        ensures speaks { (form : Form) (ops : List Operation) → length ops ≤ 2 ^ 62
            → D.bytes root.now ≡ grafted.canonical H.hash F.shape (grafting N.LEN) form ops
            → result ≡ true
            → RangeSays (grafting N.LEN) form ops (map E.spelling items.now) start
            (chunk_views chunks.now)
            ⊎ Collides H.hash (range_inputs H.hash F.shape (grafting N.LEN)
            (map E.spelling items.now) start (chunk_views chunks.now)
            (range_view D.bytes self.now))
            (canonical_inputs H.hash F.shape (grafting N.LEN) form ops) }
    {
        let claim = Items {
            items,
            start: start.get(),
            chunks,
            height: height::<N>(),
        };
        self.shows::<F, H, Items<E, N>>(hasher, &claim, root)
    }

    // Whether the proof shows the claim, in the list of this canonical root.
    pub(crate) fn shows<F: Graftable, H: Hasher<Digest = D>, C: Claimed>(
        &self,
        hasher: &mut StandardHasher<H>,
        claim: &C,
        root: &D,
    ) -> bool
        requires high { 0 < (C.claim claim.now).height }
        requires low { (C.claim claim.now).height < 63 }
        ensures { result
            ≡ verdict_on H.hash F.shape (C.claim claim.now) (range_view D.bytes self.now)
            (D.bytes root.now) }
    {
        if !self.is_about::<F, C>(claim) {
            return false;
        }
        if !self.has_digests::<F, H, C>(hasher, claim) {
            return false;
        }
        match self.grafted_root::<F, H, C>(hasher, claim) {
            Some(grafted) => self.canonical(hasher, claim.height(), &grafted).bytes()
                == root.bytes(),
            None => false,
        }
    }

    // Whether the digests of the pending and of the partial chunk are there if such chunks are, and those of the claimed ones,
    // if these are claimed.
    fn has_digests<F: Graftable, H: Hasher<Digest = D>, C: Claimed>(
        &self,
        hasher: &mut StandardHasher<H>,
        claim: &C,
    ) -> bool
        requires low { (C.claim claim.now).height < 63 }
        requires few { self.now.proof.leaves ≤ 2 ^ 62 }
        ensures { let claim = C.claim claim.now in
            let leaves = self.now.proof.leaves in
            result
            ≡ (agrees_with H.hash F.shape claim (grafted.pending_chunk F.shape claim.height leaves)
            (option_map D.bytes self.now.pending_chunk_digest)
            && agrees_with H.hash F.shape claim (bits.partial_chunk (2 ^ claim.height) leaves)
            (option_map D.bytes self.now.partial_chunk_digest)) }
    {
        let pending = pending_chunk::<F>(claim.height(), self.proof.leaves);
        if !agrees::<F, H, C>(hasher, claim, pending, &self.pending_chunk_digest) {
            return false;
        }
        let partial = partial_chunk(claim.height(), self.proof.leaves);
        agrees::<F, H, C>(hasher, claim, partial, &self.partial_chunk_digest)
    }

    // The canonical root of its parts and the grafted root.
    fn canonical<H: Hasher<Digest = D>>(
        &self,
        hasher: &mut StandardHasher<H>,
        height: u32,
        grafted_root: &D,
    ) -> D
        requires { height < 64 }
        ensures { D.bytes result
            ≡ H.hash (grafted.canonical_input (D.bytes self.now.ops_root) (D.bytes grafted_root.now)
            (option_map D.bytes self.now.pending_chunk_digest)
            (option_map (λ d. (self.now.proof.leaves % 2 ^ height, d))
            (option_map D.bytes self.now.partial_chunk_digest))) }
    {
        let pending = self.pending_chunk_digest;
        let partial = self.partial_part(height);
        canonical_root(hasher, &self.ops_root, grafted_root, pending, partial)
    }

    // The digest of the partial chunk with the number of its bits.
    fn partial_part(&self, height: u32) -> Option<(u64, D)>
        requires { height < 64 }
        ensures { partial_view D.bytes result
            ≡ option_map (λ d. (self.now.proof.leaves % 2 ^ height, d))
            (option_map D.bytes self.now.partial_chunk_digest) }
    {
        match self.partial_chunk_digest {
            Some(digest) => Some((partial_bits(height, self.proof.leaves), digest)),
            None => None,
        }
    }
}

// Whether there is a digest exactly if there is such a chunk, and that of the claimed one, if that is claimed.
fn agrees<F: Graftable, H: Hasher, C: Claimed>(
    hasher: &mut StandardHasher<H>,
    claim: &C,
    chunk: Option<u64>,
    digest: &Option<H::Digest>,
) -> bool
    requires { (C.claim claim.now).height < 64 }
    ensures { result
        ≡ agrees_with H.hash F.shape (C.claim claim.now) chunk
        (option_map H.Digest.bytes digest.now) }
{
    match (chunk, digest) {
        (None, None) => true,
        (Some(chunk), Some(digest)) => agrees_at::<F, H, C>(hasher, claim, chunk, digest),
        _ => false,
    }
}

// Whether the digest is that of the claimed chunk, if that is claimed.
fn agrees_at<F: Graftable, H: Hasher, C: Claimed>(
    hasher: &mut StandardHasher<H>,
    claim: &C,
    chunk: u64,
    digest: &H::Digest,
) -> bool
    requires { (C.claim claim.now).height < 64 }
    ensures { result
        ≡ agrees_with H.hash F.shape (C.claim claim.now) (Some chunk)
        (Some (H.Digest.bytes digest.now)) }
{
    let first = claim.start() >> claim.height();
    if chunk < first || chunk - first >= claim.chunk_count() {
        return true;
    }
    chunk_digest(hasher, claim.chunk(chunk - first)).bytes() == digest.bytes()
}
