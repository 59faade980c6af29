//! Proofs of keys as bytes.
#![tactic(auto, using(std::proofs::Common::append_assoc))]

ghost use Rattle.std.specs.Prelude.{◌≡◌, ◌≤◌, ◌<◌, ◌^◌, ◌++◌, length, map, option_map, IfOk, OnOk};
ghost use Rattle.std.specs.List.{concat};
ghost use Rattle.qm_model.specs.Forms as forms;
ghost use Rattle.qm_client.specs.ProofForms as model;
ghost use Rattle.qm_client.specs.Views.{proof_view, digests_in};
ghost use Rattle.qm_keyproofs.specs.Views.{range_view, operation_view};

use crate::proof::AnyProof;
use qm_base::{ByteString, Digest, eight_bytes, four_bytes};
use qm_bits::Chunks;
use qm_keyproofs::{ExclusionProof, OperationProof, RangeProof};
use std::alloc::{AllocError, Global};

// Adds a key or a value, after its length.
fn add_field<B: ByteString>(out: &mut Vec<u8>, field: &B) -> Result<(), AllocError>
    ensures { OnOk result (out.new.items ≡ out.old.items ++ forms.field None (B.bytes field.now)) }
{
    let bytes = field.as_bytes();
    out.extend_from_slice(&four_bytes(bytes.len() as u32))?;
    out.extend_from_slice(bytes)
}

// Adds a mark, and the metadata behind it if there is some.
fn add_metadata<B: ByteString>(out: &mut Vec<u8>, metadata: &Option<B>) -> Result<(), AllocError>
    ensures { OnOk result (out.new.items
        ≡ out.old.items ++ forms.metadata_field None (option_map B.bytes metadata.now)) }
{
    match metadata {
        None => {
            out.push(0)?;
            Ok(())
        }
        Some(value) => {
            out.push(1)?;
            add_field(out, value)
        }
    }
}

// Adds a mark, and the digest behind it if there is one.
fn add_digest<D: Digest>(out: &mut Vec<u8>, digest: &Option<D>) -> Result<(), AllocError>
    ensures { OnOk result
        (out.new.items ≡ out.old.items ++ model.digest_field (option_map D.bytes digest.now)) }
{
    match digest {
        None => {
            out.push(0)?;
            Ok(())
        }
        Some(digest) => {
            out.push(1)?;
            out.extend_from_slice(digest.bytes())
        }
    }
}

// Adds digests, one behind the other.
fn add_each<D: Digest>(out: &mut Vec<u8>, digests: &[D]) -> Result<(), AllocError>
    ensures { OnOk result
        (out.new.items ≡ out.old.items ++ concat (map D.bytes digests.now)) }
{
    for digest in digests {
        out.extend_from_slice(digest.bytes())?;
    }
    Ok(())
}

// Adds digests, after their count.
fn add_digests<D: Digest>(out: &mut Vec<u8>, digests: &[D]) -> Result<(), AllocError>
    requires { length digests.now < 2 ^ 32 }
    ensures { OnOk result
        (out.new.items ≡ out.old.items ++ model.digests_spelling (map D.bytes digests.now)) }
{
    out.extend_from_slice(&four_bytes(digests.len() as u32))?;
    add_each(out, digests)
}

// Adds a range proof.
fn add_range<D: Digest>(out: &mut Vec<u8>, range: &RangeProof<D>) -> Result<(), AllocError>
    requires { length range.now.proof.digests.items < 2 ^ 32 }
    ensures { OnOk result
        (out.new.items ≡ out.old.items ++ model.range_spelling (range_view D.bytes range.now)) }
{
    out.extend_from_slice(&eight_bytes(range.proof.leaves))?;
    out.extend_from_slice(&eight_bytes(range.proof.inactive_peaks as u64))?;
    add_digests(out, &range.proof.digests)?;
    add_digest(out, &range.pending_chunk_digest)?;
    add_digest(out, &range.partial_chunk_digest)?;
    out.extend_from_slice(range.ops_root.bytes())
}

// Adds the proof of an operation.
fn add_operation<F, N: Chunks, D: Digest>(
    out: &mut Vec<u8>,
    proof: &OperationProof<F, N, D>,
) -> Result<(), AllocError>
    requires { length proof.now.range_proof.proof.digests.items < 2 ^ 32 }
    ensures { OnOk result (out.new.items
        ≡ out.old.items ++ model.operation_spelling (operation_view D.bytes proof.now)) }
{
    out.extend_from_slice(&eight_bytes(proof.loc.get()))?;
    out.extend_from_slice(&proof.chunk.bytes)?;
    add_range(out, &proof.range_proof)
}

// Adds a proof of a key.
fn add_proof<F, N: Chunks, D: Digest>(
    out: &mut Vec<u8>,
    proof: &AnyProof<F, N, D>,
) -> Result<(), AllocError>
    requires { length (digests_in (proof_view D.bytes proof.now)) ≤ model.most_digests }
    ensures { OnOk result (out.new.items
        ≡ out.old.items ++ model.proof_spelling (proof_view D.bytes proof.now)) }
{
    match proof {
        AnyProof::Linked(proof) => {
            out.push(1)?;
            add_operation(out, &proof.proof)?;
            add_field(out, &proof.next_key)
        }
        AnyProof::Absent(proof) => match proof {
            ExclusionProof::KeyValue(proof, update) => {
                out.push(2)?;
                add_operation(out, proof)?;
                add_field(out, &update.key)?;
                add_field(out, &update.value)?;
                add_field(out, &update.next_key)
            }
            ExclusionProof::Commit(proof, metadata) => {
                out.push(3)?;
                add_operation(out, proof)?;
                add_metadata(out, metadata)
            }
        },
        AnyProof::Held(proof) => {
            out.push(4)?;
            add_operation(out, proof)
        }
    }
}

/// The spelling of a proof of at most 4,096 digests. Want of memory is the only error.
pub fn encode_proof<F, N: Chunks, D: Digest>(
    alloc: Global,
    proof: &AnyProof<F, N, D>,
) -> Result<Vec<u8>, AllocError>
    requires { length (digests_in (proof_view D.bytes proof.now)) ≤ model.most_digests }
    ensures { IfOk result (λ bytes.
        bytes.items ≡ model.proof_spelling (proof_view D.bytes proof.now)) }
{
    let mut out = Vec::new(alloc);
    add_proof(&mut out, proof)?;
    Ok(out)
}
