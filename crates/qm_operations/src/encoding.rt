//! How keys and values are spelled.

ghost use Rattle.std.specs.Prelude.{◌≡◌, ◌<◌, ◌^◌, ℕ, List, length, true, Option, Some, None};
ghost use Rattle.qm_model.specs.Forms.{IsSized, key_size, value_size};

use qm_base::{ByteString, FixedValue, Sized32, VariableValue};
use std::marker::PhantomData;

/// How operations over keys of this type are spelled, and their values.
pub trait ValueEncoding<K: ByteString> {
    type Value: ByteString;

    /// The sizes of keys and of values, if these are fixed.
    ghost fixed: { Option (ℕ × ℕ) };

    /// The sizes of keys and of values, if these are fixed.
    fn sizes() -> Option<(u32, u32)>
        ensures { result ≡ fixed };

    ghost key_sized: { (bs : List ℕ) → K.has bs ≡ true → length bs < 2 ^ 32 → IsSized (key_size fixed) bs };

    ghost value_sized: { (bs : List ℕ) → Self.Value.has bs ≡ true → length bs < 2 ^ 32 → IsSized (value_size fixed) bs };
}

/// Keys and values with their lengths.
pub struct VariableEncoding<V>(PhantomData<V>);

/// Keys and values of fixed sizes.
pub struct FixedEncoding<V>(PhantomData<V>);

impl<K: ByteString, V: VariableValue> ValueEncoding<K> for VariableEncoding<V> {
    type Value = V;

    ghost fixed = { None };

    ghost key_sized = { λ bs h short. short };

    ghost value_sized = { λ bs h short. short };

    fn sizes() -> Option<(u32, u32)> {
        None
    }
}

impl<K: Sized32, V: FixedValue> ValueEncoding<K> for FixedEncoding<V> {
    type Value = V;

    ghost fixed = { Some (K.SIZE, V.SIZE) };

    ghost key_sized = { λ bs h short. K.sized bs h };

    ghost value_sized = { λ bs h short. V.sized bs h };

    fn sizes() -> Option<(u32, u32)> {
        Some((K::size(), V::size()))
    }
}
