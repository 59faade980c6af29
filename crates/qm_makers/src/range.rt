//! Proofs that operations stand in a row, and which of them are active.

ghost use Rattle.std.specs.Prelude.{◌≡◌, ◌≤◌, ◌<◌, ◌*◌, ◌^◌, List, option_map, IfOk, IfErr};
ghost use Rattle.qm_model.specs.Operations.{Operation};
ghost use Rattle.qm_model.specs.Forms.{Form};
ghost use Rattle.qm_model.specs.RangeProofs as range_proofs;
ghost use Rattle.qm_graft.specs.Grafting.{grafting, AreGrafted};
ghost use Rattle.qm_keyproofs.specs.Views.{range_view};
ghost use Rattle.qm_makers.specs.Lists.{AreOf};

use crate::grafted::grafted_proof;
use crate::parts::Parts;
use qm_base::{Digest, Hasher, Location, MerkleError};
use qm_bits::{Chunks, Prunable};
use qm_chunks::Graftable;
use qm_graft::root::{partial_digest, pending_digest};
use qm_keyproofs::RangeProof;
use qm_merkle::StandardHasher;
use std::alloc::Global;

impl<'a, F: Graftable, N: Chunks, D: Digest> Parts<'a, F, N, D> {
    /// The proof of the operations from `start` up to, and without, `end`, wherever the trees have what they need for these: no
    /// operation and no chunk from there on is forgotten. It hashes at most two chunks. Want of memory is the only error.
    pub fn range_proof<H: Hasher<Digest = D>>(
        &self,
        alloc: Global,
        hasher: &mut StandardHasher<H>,
        start: Location<F>,
        end: Location<F>,
    ) -> Result<RangeProof<D>, MerkleError>
        requires grafted { AreGrafted F.shape N.LEN self.now.operations.now self.now.grafted.now
            self.now.bits.now }
        requires order { start < end }
        requires within { end ≤ self.now.operations.now.leaves }
        requires kept { self.now.operations.now.start ≤ start }
        requires chunks { self.now.grafted.now.start * 2 ^ grafting N.LEN ≤ start }
        ensures proof { (form : Form) (list : List Operation)
            → AreOf D.bytes H.hash F.shape N.LEN form self.now.ops_root.now
            self.now.operations.now self.now.grafted.now self.now.bits.now self.now.floor list
            → IfOk result (λ p. range_view D.bytes p
            ≡ range_proofs.range_proof H.hash F.shape (grafting N.LEN) form list start end) }
        ensures cause { IfErr result (λ e. e ≡ MerkleError.Memory) }
    {
        let proof = grafted_proof::<F, N, D>(
            alloc,
            self.operations,
            self.grafted,
            self.floor,
            start,
            end,
        )?;
        let pending = pending_digest::<F, N, H, Prunable<N>>(alloc, hasher, self.bits)?;
        let partial = partial_digest(alloc, hasher, self.bits)?;
        Ok(RangeProof {
            proof,
            pending_chunk_digest: pending,
            partial_chunk_digest: digest_in(partial),
            ops_root: *self.ops_root,
        })
    }
}

// The digest of a partial chunk, without the number of its bits.
fn digest_in<D>(partial: Option<(u64, D)>) -> Option<D>
    ensures { result ≡ option_map (λ p. p.1) partial }
{
    match partial {
        Some((_, digest)) => Some(digest),
        None => None,
    }
}
