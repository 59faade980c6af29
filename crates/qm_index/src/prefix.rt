//! How many first bytes of a key tell its partition.

ghost use Rattle.std.specs.Prelude.{◌≡◌, ◌⊎◌, ℕ, refl, drop};
ghost use Rattle.std.proofs.Common.{inl, inr};

/// How many first bytes of a key tell its partition: one or two.
pub trait Prefix {
    ghost WIDTH: { ℕ };

    /// How many bytes.
    fn width() -> u32
        ensures { result ≡ WIDTH };

    /// One or two.
    ghost few: { (WIDTH ≡ 1) ⊎ (WIDTH ≡ 2) };
}

/// The first byte tells the partition: 256 of them.
#[derive(Clone, Copy, Debug, Drop)]
pub struct P256;

/// The first two bytes tell the partition, the first one being the higher: 65,536 of them.
#[derive(Clone, Copy, Debug, Drop)]
pub struct P64k;

impl Prefix for P256 {
    ghost WIDTH = { 1 };

    fn width() -> u32 {
        1
    }

    ghost few = { inl refl };
}

impl Prefix for P64k {
    ghost WIDTH = { 2 };

    fn width() -> u32 {
        2
    }

    ghost few = { inr refl };
}

// The bytes after the first ones, so many.
pub(crate) fn rest_of(key: &[u8], width: usize) -> &[u8]
    ensures { result.now ≡ drop width key.now }
{
    match key.get(width..) {
        Some(rest) => rest,
        None => &[],
    }
}
