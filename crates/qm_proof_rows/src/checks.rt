// Checks, each of which reads its words and says whether the proof shows what they claim.
use crate::words::Words;
use anyhow::{Result, bail};
use qm_base::{ByteKey, ByteValue, Sha256, Sha256Digest};
use qm_bits::Chunk32;
use qm_keyproofs::unordered::verify_key_value_proof;
use qm_keyproofs::{ExclusionProof, OperationProof, OpsRootWitness, RangeProof, ordered};
use qm_merkle::StandardHasher;
use qm_merkle::mmr::Family;
use qm_operations::{Ordered, VariableEncoding};
use qm_proofs::Proof;
use std::alloc::Global;

// How keys and values are spelled.
type Encoding = VariableEncoding<ByteValue>;

/// Whether the proof of a check shows what that claims.
pub fn is_shown(alloc: Global, check: &str) -> Result<bool> {
    let mut words = Words::new(check);
    let kind = words.next()?;
    let root = words.digest(alloc)?;
    let shown = match kind {
        "held-unordered" => is_held_unordered(alloc, &mut words, &root)?,
        "held-ordered" => is_held_ordered(alloc, &mut words, &root)?,
        "absent-update" => is_absent_by_update(alloc, &mut words, &root)?,
        "absent-commit" => is_absent_by_commit(alloc, &mut words, &root)?,
        "range" => is_range(alloc, &mut words, &root)?,
        "witness" => is_witnessed(alloc, &mut words, &root)?,
        _ => bail!("unknown: {kind}"),
    };
    words.end()?;
    Ok(shown)
}

fn hasher() -> StandardHasher<Sha256> {
    StandardHasher::new(Sha256::new())
}

fn is_held_unordered(alloc: Global, words: &mut Words, root: &Sha256Digest) -> Result<bool> {
    let key = words.byte_string(alloc)?;
    let value = words.byte_string(alloc)?;
    let proof = operation_proof(alloc, words)?;
    Ok(verify_key_value_proof::<Family, Chunk32, Sha256, ByteKey, Encoding>(
        &mut hasher(),
        &key,
        &value,
        &proof,
        root,
    ))
}

fn is_held_ordered(alloc: Global, words: &mut Words, root: &Sha256Digest) -> Result<bool> {
    let key: ByteKey = words.byte_string(alloc)?;
    let value = words.byte_string(alloc)?;
    let next_key = words.byte_string(alloc)?;
    let proof = operation_proof(alloc, words)?;
    let proof = ordered::KeyValueProof { proof, next_key };
    Ok(proof.verify::<Sha256, Encoding>(&mut hasher(), &key, &value, root))
}

fn is_absent_by_update(alloc: Global, words: &mut Words, root: &Sha256Digest) -> Result<bool> {
    let absent = words.byte_string(alloc)?;
    let key = words.byte_string(alloc)?;
    let value = words.byte_string(alloc)?;
    let next_key = words.byte_string(alloc)?;
    let update: Ordered<ByteKey, Encoding> = Ordered {
        key,
        value,
        next_key,
    };
    let proof = ExclusionProof::KeyValue(operation_proof(alloc, words)?, update);
    Ok(proof.verify::<Sha256>(&mut hasher(), &absent, root))
}

fn is_absent_by_commit(alloc: Global, words: &mut Words, root: &Sha256Digest) -> Result<bool> {
    let absent = words.byte_string(alloc)?;
    let metadata = words.byte_string_if_any(alloc)?;
    let proof: ExclusionProof<Family, Chunk32, ByteKey, Encoding, Sha256Digest> =
        ExclusionProof::Commit(operation_proof(alloc, words)?, metadata);
    Ok(proof.verify::<Sha256>(&mut hasher(), &absent, root))
}

fn is_range(alloc: Global, words: &mut Words, root: &Sha256Digest) -> Result<bool> {
    let start = words.location()?;
    let items = words.items(alloc)?;
    let chunks = words.chunks(alloc)?;
    let proof = range_proof(alloc, words)?;
    Ok(proof.verify::<Family, Chunk32, Sha256, Vec<u8>>(
        &mut hasher(),
        &items,
        start,
        &chunks,
        root,
    ))
}

fn is_witnessed(alloc: Global, words: &mut Words, root: &Sha256Digest) -> Result<bool> {
    let ops_root = words.digest(alloc)?;
    let witness = ops_root_witness(alloc, words)?;
    Ok(witness.verify::<Family, Chunk32, Sha256>(&mut hasher(), &ops_root, root))
}

fn operation_proof(
    alloc: Global,
    words: &mut Words,
) -> Result<OperationProof<Family, Chunk32, Sha256Digest>> {
    let loc = words.location()?;
    let chunk = words.chunk(alloc)?;
    let range_proof = range_proof(alloc, words)?;
    Ok(OperationProof {
        loc,
        chunk,
        range_proof,
    })
}

fn range_proof(alloc: Global, words: &mut Words) -> Result<RangeProof<Sha256Digest>> {
    let proof = nodes(alloc, words)?;
    let pending_chunk_digest = words.digest_if_any(alloc)?;
    let partial_chunk_digest = words.digest_if_any(alloc)?;
    let ops_root = words.digest(alloc)?;
    Ok(RangeProof {
        proof,
        pending_chunk_digest,
        partial_chunk_digest,
        ops_root,
    })
}

// The digests of nodes beside locations.
fn nodes(alloc: Global, words: &mut Words) -> Result<Proof<Sha256Digest>> {
    let leaves = words.number()?;
    let inactive_peaks = words.number()? as usize;
    let digests = words.digests(alloc)?;
    Ok(Proof {
        leaves,
        inactive_peaks,
        digests,
    })
}

fn ops_root_witness(alloc: Global, words: &mut Words) -> Result<OpsRootWitness<Sha256Digest>> {
    let grafted_root = words.digest(alloc)?;
    let pending_chunk_digest = words.digest_if_any(alloc)?;
    let bits = words.number()?;
    let partial = words.digest_if_any(alloc)?;
    Ok(OpsRootWitness {
        grafted_root,
        pending_chunk_digest,
        partial_chunk: partial_chunk(bits, partial),
    })
}

// A partial chunk by the number of its bits and its digest, if there is one.
fn partial_chunk(bits: u64, digest: Option<Sha256Digest>) -> Option<(u64, Sha256Digest)> {
    match digest {
        Some(digest) => Some((bits, digest)),
        None => None,
    }
}
