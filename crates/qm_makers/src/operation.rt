//! Proofs that one operation stands in a list, with its chunk, and the chunks of operations in a row.

ghost use Rattle.std.specs.Prelude.{◌≡◌, ◌≤◌, ◌<◌, ◌*◌, ◌^◌, List, IfOk, IfErr};
ghost use Rattle.qm_model.specs.Operations.{Operation};
ghost use Rattle.qm_model.specs.Forms.{Form};
ghost use Rattle.qm_model.specs.Bits as activity;
ghost use Rattle.qm_model.specs.RangeProofs as range_proofs;
ghost use Rattle.qm_bits.specs.Bitmaps.{all_bits};
ghost use Rattle.qm_graft.specs.Grafting.{grafting, AreGrafted};
ghost use Rattle.qm_keyproofs.specs.Views.{chunk_views, operation_view};
ghost use Rattle.qm_makers.specs.Lists.{AreOf};

use crate::chunks::{chunk_at, chunks_between};
use crate::parts::Parts;
use qm_base::{Digest, Hasher, Location, MerkleError};
use qm_bits::Chunks;
use qm_chunks::Graftable;
use qm_graft::grafted::height;
use qm_keyproofs::{ChunkBytes, OperationProof};
use qm_merkle::StandardHasher;
use std::alloc::{AllocError, Global};

impl<'a, F: Graftable, N: Chunks, D: Digest> Parts<'a, F, N, D> {
    /// The proof of the operation at a location, wherever a range proof of it can be made and its chunk is not pruned. It hashes at
    /// most two chunks. Want of memory is the only error.
    pub fn operation_proof<H: Hasher<Digest = D>>(
        &self,
        alloc: Global,
        hasher: &mut StandardHasher<H>,
        at: Location<F>,
    ) -> Result<OperationProof<F, N, D>, MerkleError>
        requires grafted { AreGrafted F.shape N.LEN self.now.operations.now self.now.grafted.now
            self.now.bits.now }
        requires within { at < self.now.operations.now.leaves }
        requires kept { self.now.operations.now.start ≤ at }
        requires chunks { self.now.grafted.now.start * 2 ^ grafting N.LEN ≤ at }
        requires bits { self.now.bits.now.pruned * 2 ^ grafting N.LEN ≤ at }
        ensures loc { IfOk result (λ p. p.loc ≡ at) }
        ensures proof { (form : Form) (list : List Operation)
            → AreOf D.bytes H.hash F.shape N.LEN form self.now.ops_root.now
            self.now.operations.now self.now.grafted.now self.now.bits.now self.now.floor list
            → IfOk result (λ p. operation_view D.bytes p
            ≡ range_proofs.operation_proof H.hash F.shape (grafting N.LEN) form list at) }
        ensures cause { IfErr result (λ e. e ≡ MerkleError.Memory) }
    {
        // its clauses say that there are at most 2^62 operations
        self.operations.bounds();
        let end = Location::new(at.get() + 1);
        let range_proof = self.range_proof(alloc, hasher, Location::new(at.get()), end)?;
        let chunk = chunk_at(alloc, self.bits, at.get() >> height::<N>())?;
        Ok(OperationProof {
            loc: at,
            chunk,
            range_proof,
        })
    }

    /// The chunks of the operations from `start` up to, and without, `end`, of which none is pruned. Want of memory is the only
    /// error.
    pub fn chunks(
        &self,
        alloc: Global,
        start: Location<F>,
        end: Location<F>,
    ) -> Result<Vec<ChunkBytes<N>>, AllocError>
        requires grafted { AreGrafted F.shape N.LEN self.now.operations.now self.now.grafted.now
            self.now.bits.now }
        requires order { start < end }
        requires within { end ≤ self.now.operations.now.leaves }
        requires bits { self.now.bits.now.pruned * 2 ^ grafting N.LEN ≤ start }
        ensures { (list : List Operation)
            → all_bits N.LEN self.now.bits.now ≡ activity.bits list
            → IfOk result (λ v. chunk_views v.items
            ≡ range_proofs.chunks_of (grafting N.LEN) list start end) }
    {
        chunks_between(alloc, self.bits, start.get(), end.get())
    }
}
