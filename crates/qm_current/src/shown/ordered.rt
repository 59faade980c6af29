//! Proofs of keys of ordered databases, and that keys are absent from them.

ghost use Rattle.std.specs.Prelude.{◌≡◌, ◌≤◌, None, Some, option_map, IfOk, IfErr, OnOk};
ghost use Rattle.qm_model.specs.Checks.{exclusion_proof};
ghost use Rattle.qm_model.specs.Live.{live, live_of};
ghost use Rattle.qm_model.specs.RangeProofs as range_proofs;
ghost use Rattle.qm_model.specs.Refusals.{existing_refusal, lacking_refusal};
ghost use Rattle.qm_graft.specs.Grafting.{grafting};
ghost use Rattle.qm_keyproofs.specs.Exclusions.{exclusion_view};
ghost use Rattle.qm_keyproofs.specs.Views.{operation_view};
ghost use Rattle.qm_store.specs.Refusals.{IsDue};
ghost use Rattle.qm_shown.specs.Refusals.{IsCaused};
ghost use Rattle.qm_current.specs.Making.{IsLeft};
ghost use Rattle.qm_current.specs.Shown.{AtList};

use crate::db::Db;
use qm_any::db as any;
use qm_any::db::LaidOut;
use qm_base::{ByteString, Digest, Error, Hasher, Location};
use qm_bits::Chunks;
use qm_chunks::Graftable;
use qm_keyproofs::ExclusionProof;
use qm_keyproofs::ordered::KeyValueProof;
use qm_merkle::{Family, StandardHasher};
use qm_operations::{Ordered, Update, ValueEncoding};
use qm_shown::ordered as makers;
use qm_store::Store;
use std::alloc::Global;

impl<
    F: Graftable,
    C: Store,
    I: qm_index::Unordered<Value = Location<F>>,
    H: Hasher,
    K: ByteString,
    V: ValueEncoding<K>,
    N: Chunks,
> Db<F, C, I, H, Ordered<K, V>, N> {
    /// The proof of a key's value against the canonical root, with the next key. It is refused for a key that is not live, and for
    /// nothing else.
    pub fn key_value_proof(
        &mut self,
        alloc: Global,
        hasher: &mut StandardHasher<H>,
        key: &K,
    ) -> Result<KeyValueProof<F, N, K, H::Digest>, Error>
        ensures proof { AtList C.Store ⟦<any::Db<F, C, I, H, Ordered<K, V>, N> as LaidOut>⟧.layout
            self.old (λ list. IfOk result (λ p.
            option_map (λ e. range_proofs.operation_proof H.hash F.shape (grafting N.LEN)
            ⟦<Ordered<K, V> as Update>⟧.form list e.location)
            (live_of (live list) (K.bytes key.now))
            ≡ Some (operation_view H.Digest.bytes p.proof))) }
        ensures next { AtList C.Store ⟦<any::Db<F, C, I, H, Ordered<K, V>, N> as LaidOut>⟧.layout
            self.old (λ list. IfOk result (λ p.
            option_map (λ e. e.next) (live_of (live list) (K.bytes key.now))
            ≡ Some (Some (K.bytes p.next_key)))) }
        ensures refused { AtList C.Store ⟦<any::Db<F, C, I, H, Ordered<K, V>, N> as LaidOut>⟧.layout
            self.old (λ list. IfErr result (λ e.
            IsDue e (lacking_refusal (live_of (live list) (K.bytes key.now))))) }
        ensures caused { IfErr result (IsCaused C.Store self.old.any self.new.any) }
        ensures left { IsLeft C.Store ⟦<any::Db<F, C, I, H, Ordered<K, V>, N> as LaidOut>⟧.layout
            self.old self.new }
    {
        makers::key_value_proof(alloc, hasher, &mut self.any, &self.canonical, key)
    }

    /// Whether the proof shows that a key has this value, in the list of this canonical root, and that its next key is the one that the
    /// proof names. It takes no memory.
    pub fn verify_key_value_proof(
        hasher: &mut StandardHasher<H>,
        key: &K,
        value: &V::Value,
        proof: &KeyValueProof<F, N, K, H::Digest>,
        root: &H::Digest,
    ) -> bool
        ensures { result
            ≡ range_proofs.key_verdict H.hash F.shape (grafting N.LEN)
            ⟦<Ordered<K, V> as Update>⟧.form (operation_view H.Digest.bytes proof.now.proof)
            (K.bytes key.now) (V.Value.bytes value.now) (Some (K.bytes proof.now.next_key))
            (H.Digest.bytes root.now) }
    {
        proof.verify::<H, V>(hasher, key, value, root)
    }

    /// Whether the proof shows that a key has no value in the list of this canonical root. It takes no memory.
    pub fn verify_exclusion_proof(
        hasher: &mut StandardHasher<H>,
        key: &K,
        proof: &ExclusionProof<F, N, K, V, H::Digest>,
        root: &H::Digest,
    ) -> bool
        ensures { result
            ≡ range_proofs.exclusion_verdict H.hash F.shape (grafting N.LEN)
            ⟦<Ordered<K, V> as Update>⟧.form
            (exclusion_view H.Digest.bytes K.bytes V.Value.bytes proof.now) (K.bytes key.now)
            (H.Digest.bytes root.now) }
    {
        proof.verify(hasher, key, root)
    }
}

impl<
    F: Graftable,
    C: Store,
    I: qm_index::Ordered<Value = Location<F>>,
    H: Hasher,
    K: ByteString,
    V: ValueEncoding<K>,
    N: Chunks,
> Db<F, C, I, H, Ordered<K, V>, N> {
    /// The proof that a key is absent, against the canonical root. It is refused for a key that is live, and for nothing else.
    pub fn exclusion_proof(
        &mut self,
        alloc: Global,
        hasher: &mut StandardHasher<H>,
        key: &K,
    ) -> Result<ExclusionProof<F, N, K, V, H::Digest>, Error>
        ensures absent { AtList C.Store ⟦<any::Db<F, C, I, H, Ordered<K, V>, N> as LaidOut>⟧.layout
            self.old (λ list. OnOk result (live_of (live list) (K.bytes key.now) ≡ None)) }
        ensures proof { AtList C.Store ⟦<any::Db<F, C, I, H, Ordered<K, V>, N> as LaidOut>⟧.layout
            self.old (λ list. IfOk result (λ p.
            exclusion_view H.Digest.bytes K.bytes V.Value.bytes p
            ≡ exclusion_proof H.hash F.shape (grafting N.LEN) ⟦<Ordered<K, V> as Update>⟧.form list
            (K.bytes key.now))) }
        ensures refused { AtList C.Store ⟦<any::Db<F, C, I, H, Ordered<K, V>, N> as LaidOut>⟧.layout
            self.old (λ list. IfErr result (λ e.
            IsDue e (existing_refusal (live_of (live list) (K.bytes key.now))))) }
        ensures caused { IfErr result (IsCaused C.Store self.old.any self.new.any) }
        ensures left { IsLeft C.Store ⟦<any::Db<F, C, I, H, Ordered<K, V>, N> as LaidOut>⟧.layout
            self.old self.new }
    {
        qm_shown::exclusion_proof(alloc, hasher, &mut self.any, &self.canonical, key)
    }
}
