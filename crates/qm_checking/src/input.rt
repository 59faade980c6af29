//! What a check answers to an input.

ghost use Rattle.std.specs.Prelude.{◌≡◌, ◌⊎◌, Bool, true, List, Some, IfOk, option_map};
ghost use Rattle.qm_model.specs.Operations.{Operation};
ghost use Rattle.qm_model.specs.Forms.{variable};
ghost use Rattle.qm_machine.specs.Grammar.{without_feed};
ghost use Rattle.qm_graft.specs.Grafting.{grafting};
ghost use Rattle.qm_client.specs.ProofForms.{KeyProof, IsProofSpelling};
ghost use Rattle.qm_checking.specs.Checking.{spelled_in, check_of};
ghost use Rattle.qm_checking.specs.Says.{YesSays};
ghost use Rattle.qm_checking.specs.Views.{asked_view};

use crate::words::{Asked, Trees};
use hex::FromHexError;
use qm_base::Hasher;
use qm_bits::Chunks;
use qm_client::check_proof;
use qm_merkle::{StandardHasher, mmb, mmr};
use std::alloc::{AllocError, Global};

// An input without the line feed at its end, which may lack.
fn without_feed(input: &[u8]) -> &[u8]
    ensures { result.now ≡ without_feed input.now }
{
    if !input.is_empty() && input[input.len() - 1] == b'\n' {
        &input[..input.len() - 1]
    } else {
        input
    }
}

// The bytes that an input is in hexadecimal, if it is any.
fn spelled_in(alloc: Global, input: &[u8]) -> Result<Option<Vec<u8>>, AllocError>
    ensures { IfOk result (λ found.
        option_map (λ bytes. bytes.items) found ≡ spelled_in input.now) }
{
    match hex::decode(alloc, without_feed(input)) {
        Ok(bytes) => Ok(Some(bytes)),
        Err(FromHexError::OutOfMemory) => Err(AllocError),
        Err(_) => Ok(None),
    }
}

/// Whether the proof that an input spells in hexadecimal shows what is asked; nothing if it spells none. Of a root that is no
/// list's a yes says nothing, and of a list's root no more than the hash bears. Want of memory is the only error.
pub fn verdict<N: Chunks, H: Hasher>(
    alloc: Global,
    hasher: &mut StandardHasher<H>,
    asked: &Asked<H::Digest>,
    input: &[u8],
) -> Result<Option<bool>, AllocError>
    ensures checked { IfOk result (λ verdict. verdict
        ≡ check_of H.hash (grafting N.LEN) variable H.Digest.SIZE
        (asked_view H.Digest.bytes asked.now) input.now) }
    ensures says { IfOk result (λ verdict. verdict ≡ Some true
        → YesSays H.hash (grafting N.LEN) N.LEN H.Digest.SIZE
        (asked_view H.Digest.bytes asked.now) input.now) }
{
    let Some(bytes) = spelled_in(alloc, input)? else {
        return Ok(None);
    };
    match asked.trees {
        Trees::Mmr => {
            check_proof::<mmr::Family, N, H>(alloc, hasher, &bytes, &asked.claim, &asked.root)
        }
        Trees::Mmb => {
            check_proof::<mmb::Family, N, H>(alloc, hasher, &bytes, &asked.claim, &asked.root)
        }
    }
}
