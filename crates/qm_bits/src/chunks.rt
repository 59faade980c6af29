//! How long chunks are.

ghost use Rattle.std.specs.Prelude.{◌≡◌, ℕ, ◌*◌, ◌%◌, ◌^◌, ◌≤◌, refl};
ghost use Rattle.std.proofs.Common.{arith};

/// How many bytes a chunk has: a power of two, at least 32 and at most 65,536.
pub trait Chunks {
    ghost LEN: { ℕ };

    /// How many bytes a chunk has.
    const LEN: usize;

    /// How many bits a chunk has.
    fn span() -> u64
        ensures { result ≡ 8 * LEN };

    ghost power: { (e : ℕ) × (LEN ≡ 2 ^ e) };

    ghost whole_words: { LEN % 8 ≡ 0 };

    ghost least: { 32 ≤ LEN };

    ghost most: { LEN ≤ 65536 };
}

/// Chunks of 64 bytes.
pub struct Chunk64;

/// Chunks of 32 bytes.
pub struct Chunk32;

impl Chunks for Chunk64 {
    ghost LEN = { 64 };

    const LEN: usize = 64;

    fn span() -> u64 {
        512
    }

    ghost power = { (6, refl) };

    ghost whole_words = { refl };

    ghost least = { Prim.omega arith };

    ghost most = { Prim.omega arith };
}

impl Chunks for Chunk32 {
    ghost LEN = { 32 };

    const LEN: usize = 32;

    fn span() -> u64 {
        256
    }

    ghost power = { (5, refl) };

    ghost whole_words = { refl };

    ghost least = { Prim.omega arith };

    ghost most = { Prim.omega arith };
}
