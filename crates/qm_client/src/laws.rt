//! What holds of the definitions, each as the contract of a function that does nothing.

ghost use Rattle.std.specs.Prelude.{◌≡◌, ◌<◌, ℕ, All, Some};
ghost use Rattle.qm_model.specs.Operations.{Bytes};
ghost use Rattle.qm_model.specs.Forms.{Form};
ghost use Rattle.qm_client.specs.ProofForms.{KeyProof, IsProofOf, IsProofSpelling, proof_spelling, read_proof};

/// The proof of a key is what its spelling is read as, bytes are read as no proof but the one that they spell, and so two
/// spellings that are equal are of one proof.
pub fn proofs_of_keys_are_read()
    ensures spelled { (form : Form) (chunk size : ℕ) (proof : KeyProof)
        → IsProofOf form chunk size proof
        → read_proof form chunk size (proof_spelling proof) ≡ Some proof }
    ensures read { (form : Form) (chunk size : ℕ) (bytes : Bytes) (proof : KeyProof)
        → All (λ b. b < 256) bytes
        → read_proof form chunk size bytes ≡ Some proof
        → IsProofSpelling form chunk size bytes proof }
    ensures once { (form : Form) (chunk size : ℕ) (a b : KeyProof)
        → IsProofOf form chunk size a → IsProofOf form chunk size b
        → proof_spelling a ≡ proof_spelling b
        → a ≡ b }
{}
