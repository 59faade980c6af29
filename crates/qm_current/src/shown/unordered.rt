//! Proofs of keys of unordered databases.

ghost use Rattle.std.specs.Prelude.{◌≡◌, ◌≤◌, None, Some, option_map, IfOk, IfErr};
ghost use Rattle.qm_model.specs.Live.{live, live_of};
ghost use Rattle.qm_model.specs.RangeProofs as range_proofs;
ghost use Rattle.qm_model.specs.Refusals.{lacking_refusal};
ghost use Rattle.qm_graft.specs.Grafting.{grafting};
ghost use Rattle.qm_keyproofs.specs.Views.{operation_view};
ghost use Rattle.qm_store.specs.Refusals.{IsDue};
ghost use Rattle.qm_shown.specs.Refusals.{IsCaused};
ghost use Rattle.qm_current.specs.Making.{IsLeft};
ghost use Rattle.qm_current.specs.Shown.{AtList};

use crate::db::Db;
use qm_any::db as any;
use qm_any::db::LaidOut;
use qm_base::{ByteString, Digest, Error, Hasher, Location};
use qm_bits::Chunks;
use qm_chunks::Graftable;
use qm_keyproofs::unordered;
use qm_keyproofs::unordered::KeyValueProof;
use qm_merkle::{Family, StandardHasher};
use qm_operations::{Unordered, Update, ValueEncoding};
use qm_shown::unordered as makers;
use qm_store::Store;
use std::alloc::Global;

impl<
    F: Graftable,
    C: Store,
    I: qm_index::Unordered<Value = Location<F>>,
    H: Hasher,
    K: ByteString,
    V: ValueEncoding<K>,
    N: Chunks,
> Db<F, C, I, H, Unordered<K, V>, N> {
    /// The proof of a key's value against the canonical root. It is refused for a key that is not live, and for nothing else.
    pub fn key_value_proof(
        &mut self,
        alloc: Global,
        hasher: &mut StandardHasher<H>,
        key: &K,
    ) -> Result<KeyValueProof<F, N, H::Digest>, Error>
        ensures proof { AtList C.Store
            ⟦<any::Db<F, C, I, H, Unordered<K, V>, N> as LaidOut>⟧.layout self.old (λ list.
            IfOk result (λ p.
            option_map (λ e. range_proofs.operation_proof H.hash F.shape (grafting N.LEN)
            ⟦<Unordered<K, V> as Update>⟧.form list e.location)
            (live_of (live list) (K.bytes key.now))
            ≡ Some (operation_view H.Digest.bytes p))) }
        ensures refused { AtList C.Store
            ⟦<any::Db<F, C, I, H, Unordered<K, V>, N> as LaidOut>⟧.layout self.old (λ list.
            IfErr result (λ e. IsDue e (lacking_refusal (live_of (live list) (K.bytes key.now))))) }
        ensures caused { IfErr result (IsCaused C.Store self.old.any self.new.any) }
        ensures left { IsLeft C.Store
            ⟦<any::Db<F, C, I, H, Unordered<K, V>, N> as LaidOut>⟧.layout self.old self.new }
    {
        makers::key_value_proof(alloc, hasher, &mut self.any, &self.canonical, key)
    }

    /// Whether the proof shows that a key has this value, in the list of this canonical root. It takes no memory.
    pub fn verify_key_value_proof(
        hasher: &mut StandardHasher<H>,
        key: &K,
        value: &V::Value,
        proof: &KeyValueProof<F, N, H::Digest>,
        root: &H::Digest,
    ) -> bool
        ensures { result
            ≡ range_proofs.key_verdict H.hash F.shape (grafting N.LEN)
            ⟦<Unordered<K, V> as Update>⟧.form (operation_view H.Digest.bytes proof.now)
            (K.bytes key.now) (V.Value.bytes value.now) None (H.Digest.bytes root.now) }
    {
        unordered::verify_key_value_proof::<F, N, H, K, V>(hasher, key, value, proof, root)
    }
}
