//! Proofs of keys of ordered databases.

ghost use Rattle.std.specs.Prelude.{◌≡◌, ◌⊎◌, ◌≤◌, ◌^◌, ℕ, true, All, List, Some, length};
ghost use Rattle.qm_model.specs.Operations.{Operation as ModelOperation};
ghost use Rattle.qm_model.specs.Forms.{IsOf};
ghost use Rattle.qm_model.specs.Live.{value_of};
ghost use Rattle.qm_model.specs.Grafted as grafted;
ghost use Rattle.qm_model.specs.Proofs.{Collides};
ghost use Rattle.qm_model.specs.RangeProofs.{KeySays, key_verdict, key_inputs, canonical_inputs};
ghost use Rattle.qm_graft.specs.Grafting.{grafting};
ghost use Rattle.qm_keyproofs.specs.Views.{operation_view};

use crate::lent::{Lent, LentEncoding, lend};
use crate::operation::OperationProof;
use qm_base::{ByteString, Digest, Hasher};
use qm_bits::Chunks;
use qm_chunks::Graftable;
use qm_merkle::StandardHasher;
use qm_operations::{Operation, Ordered, Update, ValueEncoding};

/// A proof that a key has a value in an ordered database: that of its update, and the next key that this names.
#[derive(Drop)]
pub struct KeyValueProof<F, N: Chunks, K, D> {
    pub proof: OperationProof<F, N, D>,
    pub next_key: K,
}

type LentUpdate<'a, K, V> = Ordered<Lent<'a, K>, LentEncoding<V>>;

impl<F: Graftable, N: Chunks, K: ByteString, D: Digest> KeyValueProof<F, N, K, D> {
    /// Whether the proof shows that a key has this value, in the list of this canonical root, and that its next key is the one
    /// that the proof names. It takes no memory. Of a root that is no list's a yes says nothing, and of a list's root no more
    /// than the hash bears.
    pub fn verify<H: Hasher<Digest = D>, V: ValueEncoding<K>>(
        &self,
        hasher: &mut StandardHasher<H>,
        key: &K,
        value: &V::Value,
        root: &D,
    ) -> bool
        ensures answer { result
            ≡ key_verdict H.hash F.shape (grafting N.LEN) ⟦<Ordered<K, V> as Update>⟧.form
            (operation_view D.bytes self.now.proof) (K.bytes key.now) (V.Value.bytes value.now)
            (Some (K.bytes self.now.next_key)) (D.bytes root.now) }
        ensures speaks { let form = ⟦<Ordered<K, V> as Update>⟧.form in
            (ops : List ModelOperation) → length ops ≤ 2 ^ 62 → All (IsOf form) ops
            → D.bytes root.now ≡ grafted.canonical H.hash F.shape (grafting N.LEN) form ops
            → result ≡ true
            → (value_of ops (K.bytes key.now) ≡ Some (V.Value.bytes value.now))
            ⊎ Collides H.hash (key_inputs H.hash F.shape (grafting N.LEN) form
            (operation_view D.bytes self.now.proof) (K.bytes key.now) (V.Value.bytes value.now)
            (Some (K.bytes self.now.next_key)))
            (canonical_inputs H.hash F.shape (grafting N.LEN) form ops) }
    {
        shows_update::<F, N, H, K, V>(hasher, &self.proof, key, value, &self.next_key, root)
    }
}

/// Whether the proof shows that the update of a key to this value and next key is active.
pub(crate) fn shows_update<F: Graftable, N: Chunks, H: Hasher, K: ByteString, V: ValueEncoding<K>>(
    hasher: &mut StandardHasher<H>,
    proof: &OperationProof<F, N, H::Digest>,
    key: &K,
    value: &V::Value,
    next_key: &K,
    root: &H::Digest,
) -> bool
    ensures answer { result
        ≡ key_verdict H.hash F.shape (grafting N.LEN) ⟦<Ordered<K, V> as Update>⟧.form
        (operation_view H.Digest.bytes proof.now) (K.bytes key.now) (V.Value.bytes value.now)
        (Some (K.bytes next_key.now)) (H.Digest.bytes root.now) }
    ensures speaks { let form = ⟦<Ordered<K, V> as Update>⟧.form in
        (ops : List ModelOperation) → length ops ≤ 2 ^ 62 → All (IsOf form) ops
        → H.Digest.bytes root.now ≡ grafted.canonical H.hash F.shape (grafting N.LEN) form ops
        → result ≡ true
        → KeySays ops proof.now.loc (K.bytes key.now) (V.Value.bytes value.now)
        (Some (K.bytes next_key.now))
        ⊎ Collides H.hash (key_inputs H.hash F.shape (grafting N.LEN) form
        (operation_view H.Digest.bytes proof.now) (K.bytes key.now) (V.Value.bytes value.now)
        (Some (K.bytes next_key.now)))
        (canonical_inputs H.hash F.shape (grafting N.LEN) form ops) }
{
    let operation: Operation<F, LentUpdate<K, V>> = Operation::Update(Ordered {
        key: lend(key),
        value: lend(value),
        next_key: lend(next_key),
    });
    proof.verify(hasher, &operation, root)
}
