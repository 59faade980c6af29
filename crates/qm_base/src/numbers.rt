//! Numbers as their bytes.

ghost use Rattle.std.specs.Prelude.{◌≡◌};
ghost use Rattle.qm_model.specs.Operations as model;

/// The number as 4 bytes, the highest first.
#[tactic(auto, unfolding(qm_model::specs::Operations::four_bytes))]
pub fn four_bytes(number: u32) -> [u8; 4]
    ensures { result ≡ model.four_bytes number }
{
    number.to_be_bytes()
}

/// The number as 8 bytes, the highest first.
#[tactic(auto, unfolding(qm_model::specs::Operations::eight_bytes))]
pub fn eight_bytes(number: u64) -> [u8; 8]
    ensures { result ≡ model.eight_bytes number }
{
    number.to_be_bytes()
}
