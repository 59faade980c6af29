//! Proofs that keys are absent from ordered databases.

ghost use Rattle.std.specs.Prelude.{◌≡◌, ◌⊎◌, ◌≤◌, ◌^◌, ◌&&◌, not, bytes_eq, ℕ, true, All, List, length, option_map};
ghost use Rattle.qm_model.specs.Operations.{Bytes, Operation as ModelOperation, commit};
ghost use Rattle.qm_model.specs.Forms.{IsOf, spelling};
ghost use Rattle.qm_model.specs.Keys.{key_lt};
ghost use Rattle.qm_model.specs.Ordered.{IsRing};
ghost use Rattle.qm_model.specs.Step.{IsGood};
ghost use Rattle.qm_model.specs.Grafted as grafted;
ghost use Rattle.qm_model.specs.Proofs.{Collides};
ghost use Rattle.qm_model.specs.RangeProofs as range_proofs;
ghost use Rattle.qm_model.specs.RangeProofs.{AbsenceSays, exclusion_verdict, exclusion_inputs, operation_verdict, operation_inputs, canonical_inputs};
ghost use Rattle.qm_graft.specs.Grafting.{grafting};
ghost use Rattle.qm_keyproofs.specs.Views.{operation_view};
ghost use Rattle.qm_keyproofs.specs.Exclusions.{exclusion_view};

use crate::lent::{Lent, LentEncoding, lend_option};
use crate::operation::OperationProof;
use crate::ordered::shows_update;
use qm_base::{ByteString, Digest, Hasher, Location};
use qm_bits::Chunks;
use qm_chunks::Graftable;
use qm_merkle::StandardHasher;
use qm_operations::{Operation, Ordered, Update, ValueEncoding};

/// A proof that a key is absent from an ordered database.
#[derive(Drop)]
pub enum ExclusionProof<F, N: Chunks, K: ByteString, V: ValueEncoding<K>, D> {
    /// By an active update whose span, from its key up to the next one, has the key between its ends.
    KeyValue(OperationProof<F, N, D>, Ordered<K, V>),
    /// By a commit that is active at its own floor, with its metadata: then nothing is live.
    Commit(OperationProof<F, N, D>, Option<V::Value>),
}

type LentUpdate<'a, K, V> = Ordered<Lent<'a, K>, LentEncoding<V>>;

impl<F: Graftable, N: Chunks, K: ByteString, V: ValueEncoding<K>, D: Digest> ExclusionProof<
    F,
    N,
    K,
    V,
    D,
> {
    /// Whether the proof shows that a key has no value in the list of this canonical root. It takes no memory. Of a root that is
    /// no list's a yes says nothing, and of a list's root no more than the hash bears.
    pub fn verify<H: Hasher<Digest = D>>(
        &self,
        hasher: &mut StandardHasher<H>,
        key: &K,
        root: &D,
    ) -> bool
        ensures answer { result
            ≡ exclusion_verdict H.hash F.shape (grafting N.LEN) ⟦<Ordered<K, V> as Update>⟧.form
            (exclusion_view D.bytes K.bytes V.Value.bytes self.now) (K.bytes key.now)
            (D.bytes root.now) }
        ensures speaks { let form = ⟦<Ordered<K, V> as Update>⟧.form in
            (ops : List ModelOperation) → length ops ≤ 2 ^ 62 → All (IsOf form) ops → IsGood ops
            → IsRing ops
            → D.bytes root.now ≡ grafted.canonical H.hash F.shape (grafting N.LEN) form ops
            → result ≡ true
            → AbsenceSays ops (K.bytes key.now)
            ⊎ Collides H.hash (exclusion_inputs H.hash F.shape (grafting N.LEN) form
            (exclusion_view D.bytes K.bytes V.Value.bytes self.now))
            (canonical_inputs H.hash F.shape (grafting N.LEN) form ops) }
    {
        match self {
            ExclusionProof::KeyValue(proof, update) => {
                if !excludes(&update.key, &update.next_key, key) {
                    return false;
                }
                shows_update::<F, N, H, K, V>(
                    hasher,
                    proof,
                    &update.key,
                    &update.value,
                    &update.next_key,
                    root,
                )
            }
            ExclusionProof::Commit(proof, metadata) => {
                shows_commit::<F, N, H, K, V>(hasher, proof, metadata, root)
            }
        }
    }
}

// Whether a key is another one than one whose span has it between its ends.
fn excludes<K: ByteString>(key: &K, next_key: &K, other: &K) -> bool
    ensures { result
        ≡ (not (bytes_eq (K.bytes key.now) (K.bytes other.now))
        && range_proofs.in_span (K.bytes key.now) (K.bytes next_key.now) (K.bytes other.now)) }
{
    let (key, other) = (key.as_bytes(), other.as_bytes());
    key != other && in_span(key, next_key.as_bytes(), other)
}

// Whether the span of a key up to the next one has another key between its ends, the next one of the last being the first.
fn in_span(key: &[u8], next: &[u8], other: &[u8]) -> bool
    ensures { result ≡ range_proofs.in_span key.now next.now other.now }
{
    if is_below(key, next) {
        is_below(key, other) && is_below(other, next)
    } else {
        is_below(key, other) || is_below(other, next)
    }
}

// Whether a key is below another, in byte order.
fn is_below(key: &[u8], other: &[u8]) -> bool
    ensures { result ≡ key_lt key.now other.now }
{
    key < other
}

// Whether the proof shows that the commit with this metadata is active at its own floor.
fn shows_commit<F: Graftable, N: Chunks, H: Hasher, K: ByteString, V: ValueEncoding<K>>(
    hasher: &mut StandardHasher<H>,
    proof: &OperationProof<F, N, H::Digest>,
    metadata: &Option<V::Value>,
    root: &H::Digest,
) -> bool
    ensures answer { result
        ≡ operation_verdict H.hash F.shape (grafting N.LEN)
        (operation_view H.Digest.bytes proof.now) (spelling ⟦<Ordered<K, V> as Update>⟧.form
        (commit (option_map V.Value.bytes metadata.now) proof.now.loc)) (H.Digest.bytes root.now) }
    ensures speaks { let form = ⟦<Ordered<K, V> as Update>⟧.form in
        (ops : List ModelOperation) → length ops ≤ 2 ^ 62 → All (IsOf form) ops → IsGood ops
        → H.Digest.bytes root.now ≡ grafted.canonical H.hash F.shape (grafting N.LEN) form ops
        → result ≡ true → (key : Bytes)
        → AbsenceSays ops key
        ⊎ Collides H.hash (operation_inputs H.hash F.shape (grafting N.LEN)
        (operation_view H.Digest.bytes proof.now)
        (spelling form (commit (option_map V.Value.bytes metadata.now) proof.now.loc)))
        (canonical_inputs H.hash F.shape (grafting N.LEN) form ops) }
{
    let operation: Operation<F, LentUpdate<K, V>> = Operation::CommitFloor(
        lend_option(metadata),
        Location::new(proof.loc.get()),
    );
    proof.verify(hasher, &operation, root)
}
