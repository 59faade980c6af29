//! Proofs of keys, of either kind of database.

use qm_base::{ByteKey, ByteValue, Digest};
use qm_bits::Chunks;
use qm_keyproofs::{ExclusionProof, ordered, unordered};
use qm_operations::VariableEncoding;

/// The most digests of a proof that is spelled.
pub const MOST_DIGESTS: u32 = 4096;

/// A proof of a key: that it has a value, or that it is absent.
#[derive(Drop)]
pub enum AnyProof<F, N: Chunks, D> {
    /// That it has a value, in an unordered database.
    Held(unordered::KeyValueProof<F, N, D>),
    /// That it has a value, in an ordered database, with its next key.
    Linked(ordered::KeyValueProof<F, N, ByteKey, D>),
    /// That it is absent from an ordered database.
    Absent(ExclusionProof<F, N, ByteKey, VariableEncoding<ByteValue>, D>),
}
