//! Claims about keys, and what proofs say to them.

ghost use Rattle.std.specs.Prelude.{◌≡◌, ◌⊎◌, Bool, true, List, Some, IfOk, IfSome, false};
ghost use Rattle.qm_model.specs.Operations.{Operation};
ghost use Rattle.qm_model.specs.Forms.{variable};
ghost use Rattle.qm_model.specs.Grafted as grafted;
ghost use Rattle.qm_model.specs.Proofs.{Collides};
ghost use Rattle.qm_model.specs.RangeProofs.{canonical_inputs};
ghost use Rattle.qm_graft.specs.Grafting.{grafting};
ghost use Rattle.qm_client.specs.ProofForms.{KeyProof, IsProofSpelling};
ghost use Rattle.qm_client.specs.Claims.{IsClaim, ClaimSays, claim_verdict, claim_inputs, checked};
ghost use Rattle.qm_client.specs.Claims as claims;
ghost use Rattle.qm_client.specs.Provable.{IsProvable, kind_form, claim_view};
ghost use Rattle.qm_client.specs.Views.{proof_view};

use crate::decode::decode_proof;
use crate::proof::AnyProof;
use qm_base::{ByteKey, ByteString, ByteValue, Hasher};
use qm_bits::Chunks;
use qm_chunks::Graftable;
use qm_keyproofs::unordered::verify_key_value_proof;
use qm_merkle::StandardHasher;
use qm_operations::VariableEncoding;
use std::alloc::{AllocError, Global};

/// What is claimed of a key.
#[derive(Drop)]
pub enum Claim {
    /// That it has this value.
    Has(ByteKey, ByteValue),
    /// That it has none.
    Lacks(ByteKey),
}

// Whether a proof shows that a key has a value.
fn shows_value<F: Graftable, N: Chunks, H: Hasher>(
    hasher: &mut StandardHasher<H>,
    proof: &AnyProof<F, N, H::Digest>,
    key: &ByteKey,
    value: &ByteValue,
    root: &H::Digest,
) -> bool
    ensures { result
        ≡ claim_verdict H.hash F.shape (grafting N.LEN) variable
        (proof_view H.Digest.bytes proof.now) (claims.has key.now value.now)
        (H.Digest.bytes root.now) }
{
    match proof {
        AnyProof::Held(proof) => verify_key_value_proof::<
            F,
            N,
            H,
            ByteKey,
            VariableEncoding<ByteValue>,
        >(hasher, key, value, proof, root),
        AnyProof::Linked(proof) => proof.verify::<H, VariableEncoding<ByteValue>>(
            hasher, key, value, root,
        ),
        AnyProof::Absent(_) => false,
    }
}

// Whether a proof shows that a key has no value.
fn shows_absence<F: Graftable, N: Chunks, H: Hasher>(
    hasher: &mut StandardHasher<H>,
    proof: &AnyProof<F, N, H::Digest>,
    key: &ByteKey,
    root: &H::Digest,
) -> bool
    ensures { result
        ≡ claim_verdict H.hash F.shape (grafting N.LEN) variable
        (proof_view H.Digest.bytes proof.now) (claims.lacks key.now)
        (H.Digest.bytes root.now) }
{
    match proof {
        AnyProof::Absent(proof) => proof.verify::<H>(hasher, key, root),
        AnyProof::Held(_) | AnyProof::Linked(_) => false,
    }
}

/// Whether a proof shows a claim, in the list of this canonical root. A proof of the other kind says no. It takes no memory.
pub fn shows<F: Graftable, N: Chunks, H: Hasher>(
    hasher: &mut StandardHasher<H>,
    proof: &AnyProof<F, N, H::Digest>,
    claim: &Claim,
    root: &H::Digest,
) -> bool
    ensures { result
        ≡ claim_verdict H.hash F.shape (grafting N.LEN) variable
        (proof_view H.Digest.bytes proof.now) (claim_view claim.now)
        (H.Digest.bytes root.now) }
{
    match claim {
        Claim::Has(key, value) => shows_value(hasher, proof, key, value, root),
        Claim::Lacks(key) => shows_absence(hasher, proof, key, root),
    }
}

// Tells a clause that the key and the value of a claim can be spelled. It changes nothing.
fn note_claim(claim: &Claim)
    ensures { IsClaim variable (claim_view claim.now) }
{
    match claim {
        Claim::Has(key, value) => {
            let _key = key.as_bytes();
            let _value = value.as_bytes();
        }
        Claim::Lacks(_) => {}
    }
}

// Whether the proof that these bytes spell shows a claim; nothing if they spell none.
fn verdict_of<F: Graftable, N: Chunks, H: Hasher>(
    alloc: Global,
    hasher: &mut StandardHasher<H>,
    bytes: &[u8],
    claim: &Claim,
    root: &H::Digest,
) -> Result<Option<bool>, AllocError>
    ensures { IfOk result (λ verdict. verdict
        ≡ checked H.hash F.shape (grafting N.LEN) variable H.Digest.SIZE bytes.now
        (claim_view claim.now) (H.Digest.bytes root.now)) }
{
    match decode_proof::<F, N, H::Digest>(alloc, bytes)? {
        Some(proof) => Ok(Some(shows(hasher, &proof, claim, root))),
        None => Ok(None),
    }
}

/// Whether the proof that these bytes spell shows a claim, in the list of this canonical root; nothing if they spell none. Of a
/// root that is no list's a yes says nothing, and of a list's root no more than the hash bears. Want of memory is the only error.
pub fn check_proof<F: Graftable, N: Chunks, H: Hasher>(
    alloc: Global,
    hasher: &mut StandardHasher<H>,
    bytes: &[u8],
    claim: &Claim,
    root: &H::Digest,
) -> Result<Option<bool>, AllocError>
    ensures checked { IfOk result (λ verdict. verdict
        ≡ checked H.hash F.shape (grafting N.LEN) variable H.Digest.SIZE bytes.now
        (claim_view claim.now) (H.Digest.bytes root.now)) }
    ensures says { (ordered : Bool) (ops : List Operation) (proof : KeyProof)
        → IsProvable (kind_form ordered) ops
        → H.Digest.bytes root.now
        ≡ grafted.canonical H.hash F.shape (grafting N.LEN) (kind_form ordered) ops
        → IsProofSpelling variable N.LEN H.Digest.SIZE bytes.now proof
        → IfOk result (λ verdict. verdict ≡ Some true
        → ClaimSays ops (claim_view claim.now)
        ⊎ Collides H.hash
        (claim_inputs H.hash F.shape (grafting N.LEN) variable proof (claim_view claim.now))
        (canonical_inputs H.hash F.shape (grafting N.LEN) (kind_form ordered) ops)) }
{
    note_claim(claim);
    verdict_of::<F, N, H>(alloc, hasher, bytes, claim, root)
}
