//! That an operations root belongs to a canonical root.

ghost use Rattle.std.specs.Prelude.{◌≡◌, ◌⊎◌, ◌≤◌, ◌^◌, ℕ, true, List, ◌∷◌, [], length};
ghost use Rattle.qm_model.specs.Operations.{Operation};
ghost use Rattle.qm_model.specs.Forms.{Form};
ghost use Rattle.qm_model.specs.Trees as trees;
ghost use Rattle.qm_model.specs.Grafted as grafted;
ghost use Rattle.qm_model.specs.Proofs.{Collides};
ghost use Rattle.qm_model.specs.RangeProofs.{witness_verdict, witness_input, canonical_inputs};
ghost use Rattle.qm_graft.specs.Grafting.{grafting};
ghost use Rattle.qm_keyproofs.specs.Views.{witness_view};

use qm_base::{Digest, Hasher};
use qm_bits::Chunks;
use qm_chunks::Graftable;
use qm_chunks::digests::canonical_root;
use qm_merkle::StandardHasher;

/// What makes a canonical root with an operations root: the grafted root, the digest of the pending chunk, if there is one, and
/// of the partial one the number of its bits and its digest.
#[derive(Drop)]
pub struct OpsRootWitness<D> {
    pub grafted_root: D,
    pub pending_chunk_digest: Option<D>,
    pub partial_chunk: Option<(u64, D)>,
}

impl<D: Digest> OpsRootWitness<D> {
    /// Whether the operations root makes this canonical root. It takes no memory.
    pub fn verify<F: Graftable, N: Chunks, H: Hasher<Digest = D>>(
        &self,
        hasher: &mut StandardHasher<H>,
        ops_root: &D,
        root: &D,
    ) -> bool
        ensures answer { result
            ≡ witness_verdict H.hash F.shape (grafting N.LEN) (witness_view D.bytes self.now)
            (D.bytes ops_root.now) (D.bytes root.now) }
        ensures speaks { (form : Form) (ops : List Operation) → length ops ≤ 2 ^ 62
            → D.bytes root.now ≡ grafted.canonical H.hash F.shape (grafting N.LEN) form ops
            → result ≡ true
            → (D.bytes ops_root.now ≡ trees.ops_root H.hash F.shape form ops)
            ⊎ Collides H.hash (witness_input H.hash F.shape (grafting N.LEN)
            (witness_view D.bytes self.now) (D.bytes ops_root.now)
            ∷ []) (canonical_inputs H.hash F.shape (grafting N.LEN) form ops) }
    {
        let pending = self.pending_chunk_digest;
        let partial = self.partial_chunk;
        let made = canonical_root(hasher, ops_root, &self.grafted_root, pending, partial);
        made.bytes() == root.bytes()
    }
}
