//! Proofs of keys from their spelling.

ghost use Rattle.std.specs.Prelude.{◌≡◌, ◌≤◌, ◌<◌, ◌^◌, length, map, option_map, IfOk, IfNone, IfSome};
ghost use Rattle.qm_model.specs.Forms as forms;
ghost use Rattle.qm_model.specs.Forms.{variable};
ghost use Rattle.qm_client.specs.ProofForms as model;
ghost use Rattle.qm_client.specs.ProofForms.{IsProofSpelling};
ghost use Rattle.qm_client.specs.Tags as tags;
ghost use Rattle.qm_client.specs.Views.{proof_view};
ghost use Rattle.qm_keyproofs.specs.Views.{range_view, operation_view};

use crate::proof::{AnyProof, MOST_DIGESTS};
use qm_base::{ByteKey, ByteValue, Digest, Location};
use qm_bits::Chunks;
use qm_keyproofs::{ChunkBytes, ExclusionProof, OperationProof, RangeProof, ordered};
use qm_operations::Ordered;
use qm_proofs::Proof;
use std::alloc::{AllocError, Global};

// The number of these bytes, the highest first.
#[tactic(auto, unfolding(qm_model::specs::Forms::number_of_four))]
fn number_of_four(bytes: [u8; 4]) -> u32
    ensures { result ≡ forms.number_of_four bytes }
{
    u32::from_be_bytes(bytes)
}

// The number of these bytes, the highest first.
#[tactic(auto, unfolding(qm_model::specs::Forms::number_of_eight))]
fn number_of_eight(bytes: [u8; 8]) -> u64
    ensures { result ≡ forms.number_of_eight bytes }
{
    u64::from_be_bytes(bytes)
}

// A number in 8 bytes, and what follows it.
fn read_eight(bytes: &[u8]) -> Option<(u64, &[u8])>
    ensures { option_map (λ p. (p.0, p.1.now)) result ≡ model.read_eight bytes.now }
{
    let (number, rest) = bytes.split_first_chunk::<8>()?;
    Some((number_of_eight(*number), rest))
}

// A count of digests, and what follows it.
fn read_count(bytes: &[u8]) -> Option<(u32, &[u8])>
    ensures { option_map (λ p. (p.0, p.1.now)) result ≡ model.read_count bytes.now }
{
    let (count, rest) = bytes.split_first_chunk::<4>()?;
    let count = number_of_four(*count);
    if count <= MOST_DIGESTS {
        Some((count, rest))
    } else {
        None
    }
}

// A digest, and what follows it.
fn read_one<D: Digest>(bytes: &[u8]) -> Option<(D, &[u8])>
    ensures { option_map (λ p. (D.bytes p.0, p.1.now)) result
        ≡ forms.first_bytes D.SIZE bytes.now }
{
    let (digest, rest) = bytes.split_at_checked(D::SIZE)?;
    Some((D::from_bytes(digest)?, rest))
}

// So many digests, and what follows them.
fn read_each<D: Digest>(
    alloc: Global,
    count: u32,
    bytes: &[u8],
) -> Result<Option<(Vec<D>, &[u8])>, AllocError>
    ensures { IfOk result (λ found.
        option_map (λ p. (map D.bytes p.0.items, p.1.now)) found
        ≡ model.read_each D.SIZE count bytes.now) }
{
    let mut digests = Vec::new(alloc);
    let mut rest = bytes;
    for _ in 0..count {
        let Some(read) = read_one::<D>(rest) else {
            return Ok(None);
        };
        digests.push(read.0)?;
        rest = read.1;
    }
    Ok(Some((digests, rest)))
}

// Digests after their count, and what follows them.
fn read_digests<D: Digest>(
    alloc: Global,
    bytes: &[u8],
) -> Result<Option<(Vec<D>, &[u8])>, AllocError>
    ensures { IfOk result (λ found.
        option_map (λ p. (map D.bytes p.0.items, p.1.now)) found
        ≡ model.read_digests D.SIZE bytes.now) }
{
    match read_count(bytes) {
        Some((count, rest)) => read_each(alloc, count, rest),
        None => Ok(None),
    }
}

// A digest after its mark, if there is one, and what follows it.
fn read_digest<D: Digest>(bytes: &[u8]) -> Option<(Option<D>, &[u8])>
    ensures { option_map (λ p. (option_map D.bytes p.0, p.1.now)) result
        ≡ model.read_digest D.SIZE bytes.now }
{
    match bytes.split_first()? {
        (0, rest) => Some((None, rest)),
        (1, rest) => {
            let (digest, rest) = read_one(rest)?;
            Some((Some(digest), rest))
        }
        _ => None,
    }
}

// A range proof, and what follows it.
fn read_range<D: Digest>(
    alloc: Global,
    bytes: &[u8],
) -> Result<Option<(RangeProof<D>, &[u8])>, AllocError>
    ensures { IfOk result (λ found.
        option_map (λ p. (range_view D.bytes p.0, p.1.now)) found
        ≡ model.read_range D.SIZE bytes.now) }
{
    let Some((leaves, rest)) = read_eight(bytes) else {
        return Ok(None);
    };
    let Some((inactive, rest)) = read_eight(rest) else {
        return Ok(None);
    };
    let Some((digests, rest)) = read_digests(alloc, rest)? else {
        return Ok(None);
    };
    let Some((pending_chunk_digest, rest)) = read_digest(rest) else {
        return Ok(None);
    };
    let Some((partial_chunk_digest, rest)) = read_digest(rest) else {
        return Ok(None);
    };
    let Some((ops_root, rest)) = read_one(rest) else {
        return Ok(None);
    };
    let range = RangeProof {
        proof: Proof {
            leaves,
            inactive_peaks: inactive as usize,
            digests,
        },
        pending_chunk_digest,
        partial_chunk_digest,
        ops_root,
    };
    Ok(Some((range, rest)))
}

// A chunk, and what follows it.
fn read_chunk<N: Chunks>(
    alloc: Global,
    bytes: &[u8],
) -> Result<Option<(ChunkBytes<N>, &[u8])>, AllocError>
    ensures { IfOk result (λ found.
        option_map (λ p. (p.0.bytes.items, p.1.now)) found
        ≡ forms.first_bytes N.LEN bytes.now) }
{
    let Some((chunk, rest)) = bytes.split_at_checked(N::LEN) else {
        return Ok(None);
    };
    match ChunkBytes::new(chunk.to_vec(alloc)?) {
        Some(chunk) => Ok(Some((chunk, rest))),
        None => Ok(None),
    }
}

// The proof of an operation, and what follows it.
fn read_operation<F, N: Chunks, D: Digest>(
    alloc: Global,
    bytes: &[u8],
) -> Result<Option<(OperationProof<F, N, D>, &[u8])>, AllocError>
    ensures { IfOk result (λ found.
        option_map (λ p. (operation_view D.bytes p.0, p.1.now)) found
        ≡ model.read_operation N.LEN D.SIZE bytes.now) }
{
    let Some((location, rest)) = read_eight(bytes) else {
        return Ok(None);
    };
    let Some((chunk, rest)) = read_chunk(alloc, rest)? else {
        return Ok(None);
    };
    let Some((range_proof, rest)) = read_range(alloc, rest)? else {
        return Ok(None);
    };
    let proof = OperationProof {
        loc: Location::new(location),
        chunk,
        range_proof,
    };
    Ok(Some((proof, rest)))
}

// A key or a value after its length, and what follows it.
fn read_field(bytes: &[u8]) -> Option<(&[u8], &[u8])>
    ensures value { option_map (λ p. (p.0.now, p.1.now)) result ≡ forms.read_field None bytes.now }
    ensures short { IfSome result (λ p. length p.0.now < 2 ^ 32) }
{
    let (count, rest) = bytes.split_first_chunk::<4>()?;
    rest.split_at_checked(number_of_four(*count) as usize)
}

// A key after its length, and what follows it.
#[tactic(auto, using(crate::proofs::Reading::untested))]
fn read_key(alloc: Global, bytes: &[u8]) -> Result<Option<(ByteKey, &[u8])>, AllocError>
    ensures { IfOk result (λ found.
        option_map (λ p. (p.0, p.1.now)) found
        ≡ forms.read_key (model.with_lengths variable) bytes.now) }
{
    match read_field(bytes) {
        Some((key, rest)) => Ok(Some((ByteKey::new(key.to_vec(alloc)?), rest))),
        None => Ok(None),
    }
}

// A value after its length, and what follows it.
#[tactic(auto, using(crate::proofs::Reading::untested))]
fn read_value(alloc: Global, bytes: &[u8]) -> Result<Option<(ByteValue, &[u8])>, AllocError>
    ensures { IfOk result (λ found.
        option_map (λ p. (p.0, p.1.now)) found
        ≡ forms.read_value (model.with_lengths variable) bytes.now) }
{
    match read_field(bytes) {
        Some((value, rest)) => Ok(Some((ByteValue::new(value.to_vec(alloc)?), rest))),
        None => Ok(None),
    }
}

// Metadata after its mark, and what follows it.
fn read_metadata(
    alloc: Global,
    bytes: &[u8],
) -> Result<Option<(Option<ByteValue>, &[u8])>, AllocError>
    ensures { IfOk result (λ found.
        option_map (λ p. (p.0, p.1.now)) found
        ≡ forms.read_metadata (model.with_lengths variable) bytes.now) }
{
    match bytes.split_first() {
        Some((0, rest)) => Ok(Some((None, rest))),
        Some((1, rest)) => {
            let Some((value, rest)) = read_value(alloc, rest)? else {
                return Ok(None);
            };
            Ok(Some((Some(value), rest)))
        }
        _ => Ok(None),
    }
}

// What the first tag announces: that a key has a value, with its next key.
fn linked<F, N: Chunks, D: Digest>(
    alloc: Global,
    bytes: &[u8],
) -> Result<Option<AnyProof<F, N, D>>, AllocError>
    ensures { IfOk result (λ found. option_map (proof_view D.bytes) found
        ≡ tags.read_linked variable N.LEN D.SIZE bytes.now) }
{
    let Some((proof, rest)) = read_operation(alloc, bytes)? else {
        return Ok(None);
    };
    let Some((next_key, rest)) = read_key(alloc, rest)? else {
        return Ok(None);
    };
    if !rest.is_empty() {
        return Ok(None);
    }
    Ok(Some(AnyProof::Linked(ordered::KeyValueProof { proof, next_key })))
}

// What the second tag announces: that a key is absent, by an update's span.
fn spanned<F, N: Chunks, D: Digest>(
    alloc: Global,
    bytes: &[u8],
) -> Result<Option<AnyProof<F, N, D>>, AllocError>
    ensures { IfOk result (λ found. option_map (proof_view D.bytes) found
        ≡ tags.read_spanned variable N.LEN D.SIZE bytes.now) }
{
    let Some((proof, rest)) = read_operation(alloc, bytes)? else {
        return Ok(None);
    };
    let Some((key, rest)) = read_key(alloc, rest)? else {
        return Ok(None);
    };
    let Some((value, rest)) = read_value(alloc, rest)? else {
        return Ok(None);
    };
    let Some((next_key, rest)) = read_key(alloc, rest)? else {
        return Ok(None);
    };
    if !rest.is_empty() {
        return Ok(None);
    }
    let update = Ordered {
        key,
        value,
        next_key,
    };
    Ok(Some(AnyProof::Absent(ExclusionProof::KeyValue(proof, update))))
}

// What the third tag announces: that a key is absent, by a commit.
fn emptied<F, N: Chunks, D: Digest>(
    alloc: Global,
    bytes: &[u8],
) -> Result<Option<AnyProof<F, N, D>>, AllocError>
    ensures { IfOk result (λ found. option_map (proof_view D.bytes) found
        ≡ tags.read_emptied variable N.LEN D.SIZE bytes.now) }
{
    let Some((proof, rest)) = read_operation(alloc, bytes)? else {
        return Ok(None);
    };
    let Some((metadata, rest)) = read_metadata(alloc, rest)? else {
        return Ok(None);
    };
    if !rest.is_empty() {
        return Ok(None);
    }
    Ok(Some(AnyProof::Absent(ExclusionProof::Commit(proof, metadata))))
}

// What the fourth tag announces: that a key has a value, with no next key.
fn held<F, N: Chunks, D: Digest>(
    alloc: Global,
    bytes: &[u8],
) -> Result<Option<AnyProof<F, N, D>>, AllocError>
    ensures { IfOk result (λ found. option_map (proof_view D.bytes) found
        ≡ tags.read_held variable N.LEN D.SIZE bytes.now) }
{
    let Some((proof, rest)) = read_operation(alloc, bytes)? else {
        return Ok(None);
    };
    if !rest.is_empty() {
        return Ok(None);
    }
    Ok(Some(AnyProof::Held(proof)))
}

// A proof by its tag.
fn by_tag<F, N: Chunks, D: Digest>(
    alloc: Global,
    bytes: &[u8],
) -> Result<Option<AnyProof<F, N, D>>, AllocError>
    ensures { IfOk result (λ found. option_map (proof_view D.bytes) found
        ≡ model.read_proof variable N.LEN D.SIZE bytes.now) }
{
    match bytes.split_first() {
        Some((1, rest)) => linked(alloc, rest),
        Some((2, rest)) => spanned(alloc, rest),
        Some((3, rest)) => emptied(alloc, rest),
        Some((4, rest)) => held(alloc, rest),
        _ => Ok(None),
    }
}

/// The proof of which these bytes are the spelling, if there is one: `encode_proof` turned round. Want of memory is the only
/// error.
pub fn decode_proof<F, N: Chunks, D: Digest>(
    alloc: Global,
    bytes: &[u8],
) -> Result<Option<AnyProof<F, N, D>>, AllocError>
    ensures decoded { IfOk result (λ found. option_map (proof_view D.bytes) found
        ≡ model.read_proof variable N.LEN D.SIZE bytes.now) }
    ensures some { IfOk result (λ found. IfSome found (λ proof.
        IsProofSpelling variable N.LEN D.SIZE bytes.now (proof_view D.bytes proof))) }
    ensures none { IfOk result (λ found. IfNone found ((proof : _)
        → ¬ IsProofSpelling variable N.LEN D.SIZE bytes.now proof)) }
{
    by_tag(alloc, bytes)
}
