//! Keys and values that are lent to an operation, so that it is hashed and nothing is copied.

ghost use Rattle.std.specs.Prelude.{◌≡◌, ◌<◌, ◌^◌, true, length, option_map, IfSome};
ghost use Rattle.qm_keyproofs.specs.Lent.{lent_bytes};

use qm_base::ByteString;
use qm_operations::ValueEncoding;
use std::alloc::{AllocError, Global};
use std::marker::PhantomData;

/// A key or a value that is lent, or one of its own.
#[derive(Drop)]
pub enum Lent<'a, B: ByteString> {
    Of(&'a B),
    Own(B),
}

/// The value, lent. It has the bytes of a value of its type, and these are short.
pub fn lend<B: ByteString>(value: &B) -> Lent<'_, B>
    ensures bytes { lent_bytes B.bytes result ≡ B.bytes value.now }
    ensures known { B.has (B.bytes value.now) ≡ true }
    ensures short { length (B.bytes value.now) < 2 ^ 32 }
{
    let _bytes = value.as_bytes();
    Lent::Of(value)
}

/// The value, lent, if there is one.
pub fn lend_option<B: ByteString>(value: &Option<B>) -> Option<Lent<'_, B>>
    ensures bytes { option_map (lent_bytes B.bytes) result ≡ option_map B.bytes value.now }
    ensures known { IfSome (option_map B.bytes value.now) (λ bs.
        (B.has bs ≡ true) × (length bs < 2 ^ 32)) }
{
    match value {
        Some(value) => Some(lend(value)),
        None => None,
    }
}

impl<'a, B: ByteString> ByteString for Lent<'a, B> {
    ghost bytes = { lent_bytes B.bytes };

    ghost has = { B.has };

    ghost are_bytes = { B.are_bytes };

    fn twin(&self, alloc: Global) -> Result<Self, AllocError> {
        match self {
            Lent::Of(value) => Ok(Lent::Of(*value)),
            Lent::Own(value) => {
                let copy = value.twin(alloc)?;
                Ok(Lent::Own(copy))
            }
        }
    }

    fn as_bytes(&self) -> &[u8] {
        match self {
            Lent::Of(value) => value.as_bytes(),
            Lent::Own(value) => value.as_bytes(),
        }
    }

    fn is_of(from: &[u8]) -> bool {
        B::is_of(from)
    }

    fn from_bytes(alloc: Global, from: &[u8]) -> Result<Self, AllocError> {
        let value = B::from_bytes(alloc, from)?;
        Ok(Lent::Own(value))
    }
}

/// How operations over lent keys and values are spelled: as those over the keys and values.
pub struct LentEncoding<V>(PhantomData<V>);

impl<'a, K: ByteString, V: ValueEncoding<K>> ValueEncoding<Lent<'a, K>> for LentEncoding<V>
where
    V::Value: 'a,
{
    type Value = Lent<'a, V::Value>;

    ghost fixed = { V.fixed };

    ghost key_sized = { V.key_sized };

    ghost value_sized = { V.value_sized };

    fn sizes() -> Option<(u32, u32)> {
        V::sizes()
    }
}
