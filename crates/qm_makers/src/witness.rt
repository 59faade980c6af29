//! Witnesses of operations roots.

ghost use Rattle.std.specs.Prelude.{◌≡◌, List, IfOk};
ghost use Rattle.qm_model.specs.Operations.{Operation};
ghost use Rattle.qm_model.specs.Forms.{Form};
ghost use Rattle.qm_model.specs.RangeProofs as range_proofs;
ghost use Rattle.qm_graft.specs.Grafting.{grafting, AreGrafted};
ghost use Rattle.qm_keyproofs.specs.Views.{witness_view};
ghost use Rattle.qm_makers.specs.Lists.{AreOf};

use crate::parts::Parts;
use qm_base::{Digest, Hasher, Location};
use qm_bits::{Chunks, Prunable};
use qm_chunks::Graftable;
use qm_graft::root::{partial_digest, pending_digest, root_of};
use qm_graft::{Grafted, GraftedView};
use qm_keyproofs::OpsRootWitness;
use qm_merkle::StandardHasher;
use qm_merkle::mem::Mem;
use std::alloc::{AllocError, Global};

type View<'a, F, N, D> = GraftedView<'a, F, N, D, Mem<F, D>, Mem<Grafted<F, N>, D>>;

impl<'a, F: Graftable, N: Chunks, D: Digest> Parts<'a, F, N, D> {
    /// What makes the canonical root of the list with its operations root. It hashes the grafted root and at most two chunks. Want of
    /// memory is the only error.
    pub fn ops_root_witness<H: Hasher<Digest = D>>(
        &self,
        alloc: Global,
        hasher: &mut StandardHasher<H>,
    ) -> Result<OpsRootWitness<D>, AllocError>
        requires { AreGrafted F.shape N.LEN self.now.operations.now self.now.grafted.now
            self.now.bits.now }
        ensures { (form : Form) (list : List Operation)
            → AreOf D.bytes H.hash F.shape N.LEN form self.now.ops_root.now
            self.now.operations.now self.now.grafted.now self.now.bits.now self.now.floor list
            → IfOk result (λ w. witness_view D.bytes w
            ≡ range_proofs.witness H.hash F.shape (grafting N.LEN) form list) }
    {
        let (_, leaves) = self.operations.bounds();
        // it has as many nodes as its leaves need
        self.grafted.bounds();
        let view = GraftedView::new(self.operations, self.grafted, leaves);
        let grafted_root = root_of::<F, N, H, View<F, N, D>>(
            alloc, hasher, &view, leaves, self.floor,
        )?;
        let pending = pending_digest::<F, N, H, Prunable<N>>(alloc, hasher, self.bits)?;
        let partial = partial_digest(alloc, hasher, self.bits)?;
        Ok(OpsRootWitness {
            grafted_root,
            pending_chunk_digest: pending,
            partial_chunk: partial,
        })
    }
}
