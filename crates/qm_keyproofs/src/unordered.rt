//! Proofs of keys of unordered databases.

ghost use Rattle.std.specs.Prelude.{◌≡◌, ◌⊎◌, ◌≤◌, ◌^◌, ℕ, true, All, List, Some, None, length};
ghost use Rattle.qm_model.specs.Operations.{Operation as ModelOperation};
ghost use Rattle.qm_model.specs.Forms.{IsOf};
ghost use Rattle.qm_model.specs.Live.{value_of};
ghost use Rattle.qm_model.specs.Grafted as grafted;
ghost use Rattle.qm_model.specs.Proofs.{Collides};
ghost use Rattle.qm_model.specs.RangeProofs.{key_verdict, key_inputs, canonical_inputs};
ghost use Rattle.qm_graft.specs.Grafting.{grafting};
ghost use Rattle.qm_keyproofs.specs.Views.{operation_view};

use crate::lent::{Lent, LentEncoding, lend};
use crate::operation::OperationProof;
use qm_base::{ByteString, Hasher};
use qm_bits::Chunks;
use qm_chunks::Graftable;
use qm_merkle::StandardHasher;
use qm_operations::{Operation, Unordered, Update, ValueEncoding};

/// A proof that a key has a value in an unordered database.
pub type KeyValueProof<F, N, D> = OperationProof<F, N, D>;

type LentUpdate<'a, K, V> = Unordered<Lent<'a, K>, LentEncoding<V>>;

/// Whether the proof shows that a key has this value, in the list of this canonical root. It takes no memory. Of a root that is
/// no list's a yes says nothing, and of a list's root no more than the hash bears.
pub fn verify_key_value_proof<
    F: Graftable,
    N: Chunks,
    H: Hasher,
    K: ByteString,
    V: ValueEncoding<K>,
>(
    hasher: &mut StandardHasher<H>,
    key: &K,
    value: &V::Value,
    proof: &KeyValueProof<F, N, H::Digest>,
    root: &H::Digest,
) -> bool
    ensures answer { result
        ≡ key_verdict H.hash F.shape (grafting N.LEN) ⟦<Unordered<K, V> as Update>⟧.form
        (operation_view H.Digest.bytes proof.now) (K.bytes key.now) (V.Value.bytes value.now) None
        (H.Digest.bytes root.now) }
    ensures speaks { let form = ⟦<Unordered<K, V> as Update>⟧.form in
        (ops : List ModelOperation) → length ops ≤ 2 ^ 62 → All (IsOf form) ops
        → H.Digest.bytes root.now ≡ grafted.canonical H.hash F.shape (grafting N.LEN) form ops
        → result ≡ true
        → (value_of ops (K.bytes key.now) ≡ Some (V.Value.bytes value.now))
        ⊎ Collides H.hash (key_inputs H.hash F.shape (grafting N.LEN) form
        (operation_view H.Digest.bytes proof.now) (K.bytes key.now) (V.Value.bytes value.now) None)
        (canonical_inputs H.hash F.shape (grafting N.LEN) form ops) }
{
    let operation: Operation<F, LentUpdate<K, V>> = Operation::Update(Unordered(
        lend(key),
        lend(value),
    ));
    proof.verify(hasher, &operation, root)
}
