//! Translators: what makes an index key of a key.

ghost use Rattle.std.specs.Prelude.{◌≡◌, ◌≤◌, ◌<◌, ◌+◌, ◌*◌, ◌^◌, ℕ, suc, List, true};
ghost use Rattle.qm_index.specs.Translated.{capped, IsMonotone};
ghost use Rattle.std.proofs.Common.{arith};
ghost use Rattle.qm_model.specs.Operations.{Bytes, AreBytes};
ghost use Rattle.qm_index.specs.Monotone.{capped-monotone, capped-small};

/// What makes a short index key of a key of any length. Several keys may have the same index key.
pub trait Translator: Send + Sync + Drop {
    ghost index_key: { List ℕ → ℕ };

    /// The index key of these bytes.
    fn index_key(&self, key: &[u8]) -> u64
        ensures { result ≡ index_key key.now };
}

/// A translator that keeps the order of keys, in which a prefix comes before what it begins.
pub trait OrderedTranslator: Translator {
    ghost monotone: { IsMonotone Self.index_key };

    /// An index key is below 2^64.
    ghost small: { (key : Bytes) → AreBytes key → Self.index_key key < 2 ^ 64 };
}

/// The first byte of a key.
#[derive(Clone, Copy, Debug, Drop)]
pub struct OneCap;

/// The first two bytes of a key, big-endian, with zeros after a shorter key.
#[derive(Clone, Copy, Debug, Drop)]
pub struct TwoCap;

/// The first four bytes of a key, big-endian, with zeros after a shorter key.
#[derive(Clone, Copy, Debug, Drop)]
pub struct FourCap;

/// The first eight bytes of a key, big-endian, with zeros after a shorter key.
#[derive(Clone, Copy, Debug, Drop)]
pub struct EightCap;

// The number of the first bytes, so many, with zeros after a shorter key.
#[inline(always)]
pub(crate) fn capped(key: &[u8], width: u32) -> u64
    requires { width ≤ 8 }
    ensures value { result ≡ capped width key.now }
    ensures below { result < 256 ^ width }
{
    let mut number = 0;
    let mut rest = key;
    for _ in 0..width {
        let (byte, behind) = first(rest);
        number = number * 256 + byte as u64;
        rest = behind;
    }
    number
}

// The first byte and those after it; zero if there is none.
#[inline(always)]
fn first(bytes: &[u8]) -> (u8, &[u8])
    ensures byte { result.0 < 256 }
    ensures split { (n : ℕ)
        → capped (suc n) bytes.now ≡ result.0 * 256 ^ n + capped n result.1.now }
{
    match bytes.split_first() {
        Some((byte, behind)) => (*byte, behind),
        None => (0, bytes),
    }
}

impl Translator for OneCap {
    ghost index_key = { capped 1 };

    fn index_key(&self, key: &[u8]) -> u64 {
        capped(key, 1)
    }
}

impl Translator for TwoCap {
    ghost index_key = { capped 2 };

    fn index_key(&self, key: &[u8]) -> u64 {
        capped(key, 2)
    }
}

impl Translator for FourCap {
    ghost index_key = { capped 4 };

    fn index_key(&self, key: &[u8]) -> u64 {
        capped(key, 4)
    }
}

impl Translator for EightCap {
    ghost index_key = { capped 8 };

    fn index_key(&self, key: &[u8]) -> u64 {
        capped(key, 8)
    }
}

impl OrderedTranslator for OneCap {
    ghost monotone = { capped-monotone 1 };

    ghost small = { capped-small 1 (Prim.omega arith) };
}

impl OrderedTranslator for TwoCap {
    ghost monotone = { capped-monotone 2 };

    ghost small = { capped-small 2 (Prim.omega arith) };
}

impl OrderedTranslator for FourCap {
    ghost monotone = { capped-monotone 4 };

    ghost small = { capped-small 4 (Prim.omega arith) };
}

impl OrderedTranslator for EightCap {
    ghost monotone = { capped-monotone 8 };

    ghost small = { capped-small 8 (Prim.omega arith) };
}
