//! What an update says, in each kind of database.

ghost use Rattle.std.specs.Prelude.{◌≡◌, ◌^◌, ◌<◌, ℕ, List, Bool, Some, None, option_map, is_some, refl, true, false, length, IfOk};
ghost use Rattle.qm_operations.specs.Parts.{is_update, key_of, value_of};
ghost use Rattle.qm_model.specs.Forms.{Form, IsOf, IsKey, IsValue};
ghost use Rattle.qm_model.specs.Operations as model;

use crate::encoding::ValueEncoding;
use qm_base::ByteString;
use std::alloc::{AllocError, Global};

/// What an update says: a key, its value and, in an ordered database, the next key.
pub trait Update: Sized + Drop {
    type Key: ByteString;

    type Value: ByteString;

    /// The update over byte strings.
    ghost view: { Self → model.Operation };

    /// How operations are spelled.
    ghost form: { Form };

    /// Copies the update. Want of memory is the only error.
    fn twin(&self, alloc: Global) -> Result<Self, AllocError>
        ensures { IfOk result (λ copy. copy ≡ self.now) };

    /// Whether it names a next key.
    fn is_ordered() -> bool
        ensures { result ≡ form.ordered };

    /// The sizes of keys and of values, if these are fixed.
    fn sizes() -> Option<(u32, u32)>
        ensures { result ≡ form.sizes };

    /// Whether a key has these bytes.
    fn is_key(from: &[u8]) -> bool
        ensures form { result ≡ form.is_key from.now }
        ensures key { result ≡ Self.Key.has from.now };

    /// Whether a value has these bytes.
    fn is_value(from: &[u8]) -> bool
        ensures form { result ≡ form.is_value from.now }
        ensures value { result ≡ Self.Value.has from.now };

    /// The update of these parts. Want of memory is the only error.
    fn from_parts(
        alloc: Global,
        key: &[u8],
        value: &[u8],
        next: Option<&[u8]>,
    ) -> Result<Self, AllocError>
        requires { IsOf form (model.update key.now value.now (option_map (λ n. n.now) next)) }
        ensures { IfOk result (λ made.
            view made ≡ model.update key.now value.now (option_map (λ n. n.now) next.entry)) };

    /// Key, value and next key.
    fn parts(&self) -> (&Self::Key, &Self::Value, Option<&Self::Key>)
        ensures kind { is_some result.2 ≡ form.ordered }
        ensures parts { view self.now
            ≡ model.update (Self.Key.bytes result.0.now) (Self.Value.bytes result.1.now)
            (option_map (λ next. Self.Key.bytes next.now) result.2) };

    /// The key.
    fn key(&self) -> &Self::Key
        ensures { key_of (view self.now) ≡ Some (Self.Key.bytes result.now) };

    /// The value.
    fn value(&self) -> &Self::Value
        ensures { value_of (view self.now) ≡ Some (Self.Value.bytes result.now) };

    /// Key, value and next key, by value.
    fn into_parts(self) -> (Self::Key, Self::Value, Option<Self::Key>)
        ensures kind { is_some result.2 ≡ form.ordered }
        ensures parts { view self
            ≡ model.update (Self.Key.bytes result.0) (Self.Value.bytes result.1)
            (option_map Self.Key.bytes result.2) };

    /// The key, by value.
    fn into_key(self) -> Self::Key
        ensures { key_of (view self) ≡ Some (Self.Key.bytes result) };

    /// The value, by value.
    fn into_value(self) -> Self::Value
        ensures { value_of (view self) ≡ Some (Self.Value.bytes result) };

    ghost updates: { (u : Self) → is_update (view u) ≡ true };

    ghost keys: { (bs : List ℕ) → Self.Key.has bs ≡ true → length bs < 2 ^ 32 → IsKey form bs };

    ghost values: { (bs : List ℕ) → Self.Value.has bs ≡ true → length bs < 2 ^ 32 → IsValue form bs };
}

/// An update of an unordered database: a key and its value.
#[derive(Drop)]
pub struct Unordered<K: ByteString, V: ValueEncoding<K>>(pub K, pub V::Value);

impl<K: ByteString, V: ValueEncoding<K>> Update for Unordered<K, V> {
    type Key = K;

    type Value = V::Value;

    ghost view = { λ u. model.update (K.bytes u.0) (V.Value.bytes u.1) None };

    ghost form = { record { ordered = false; sizes = V.fixed; is_key = K.has; is_value = V.Value.has } };

    ghost updates = { λ _. refl };

    ghost keys = { λ bs h short. record { known = h; sized = V.key_sized bs h short } };

    ghost values = { λ bs h short. record { known = h; sized = V.value_sized bs h short } };

    fn twin(&self, alloc: Global) -> Result<Self, AllocError> {
        let key = self.0.twin(alloc)?;
        let value = self.1.twin(alloc)?;
        Ok(Unordered(key, value))
    }

    fn is_ordered() -> bool {
        false
    }

    fn sizes() -> Option<(u32, u32)> {
        V::sizes()
    }

    fn is_key(from: &[u8]) -> bool {
        K::is_of(from)
    }

    fn is_value(from: &[u8]) -> bool {
        V::Value::is_of(from)
    }

    fn from_parts(
        alloc: Global,
        key: &[u8],
        value: &[u8],
        _next: Option<&[u8]>,
    ) -> Result<Self, AllocError> {
        let key = K::from_bytes(alloc, key)?;
        let value = V::Value::from_bytes(alloc, value)?;
        Ok(Unordered(key, value))
    }

    fn parts(&self) -> (&K, &V::Value, Option<&K>) {
        (&self.0, &self.1, None)
    }

    fn key(&self) -> &K {
        &self.0
    }

    fn value(&self) -> &V::Value {
        &self.1
    }

    fn into_parts(self) -> (K, V::Value, Option<K>) {
        (self.0, self.1, None)
    }

    fn into_key(self) -> K {
        self.0
    }

    fn into_value(self) -> V::Value {
        self.1
    }
}

/// An update of an ordered database: a key, its value and the next key.
#[derive(Drop)]
pub struct Ordered<K: ByteString, V: ValueEncoding<K>> {
    /// The key.
    pub key: K,
    /// Its value.
    pub value: V::Value,
    /// The next key, or the first of all if it is the last.
    pub next_key: K,
}

impl<K: ByteString, V: ValueEncoding<K>> Update for Ordered<K, V> {
    type Key = K;

    type Value = V::Value;

    ghost view = { λ u. model.update (K.bytes u.key) (V.Value.bytes u.value) (Some (K.bytes u.next_key)) };

    ghost form = { record { ordered = true; sizes = V.fixed; is_key = K.has; is_value = V.Value.has } };

    ghost updates = { λ _. refl };

    ghost keys = { λ bs h short. record { known = h; sized = V.key_sized bs h short } };

    ghost values = { λ bs h short. record { known = h; sized = V.value_sized bs h short } };

    fn twin(&self, alloc: Global) -> Result<Self, AllocError> {
        let key = self.key.twin(alloc)?;
        let value = self.value.twin(alloc)?;
        let next_key = self.next_key.twin(alloc)?;
        Ok(Ordered {
            key,
            value,
            next_key,
        })
    }

    fn is_ordered() -> bool {
        true
    }

    fn sizes() -> Option<(u32, u32)> {
        V::sizes()
    }

    fn is_key(from: &[u8]) -> bool {
        K::is_of(from)
    }

    fn is_value(from: &[u8]) -> bool {
        V::Value::is_of(from)
    }

    fn from_parts(
        alloc: Global,
        key: &[u8],
        value: &[u8],
        next: Option<&[u8]>,
    ) -> Result<Self, AllocError> {
        let Some(next) = next else { unreachable!() };
        let key = K::from_bytes(alloc, key)?;
        let value = V::Value::from_bytes(alloc, value)?;
        let next_key = K::from_bytes(alloc, next)?;
        Ok(Ordered {
            key,
            value,
            next_key,
        })
    }

    fn parts(&self) -> (&K, &V::Value, Option<&K>) {
        (&self.key, &self.value, Some(&self.next_key))
    }

    fn key(&self) -> &K {
        &self.key
    }

    fn value(&self) -> &V::Value {
        &self.value
    }

    fn into_parts(self) -> (K, V::Value, Option<K>) {
        (self.key, self.value, Some(self.next_key))
    }

    fn into_key(self) -> K {
        self.key
    }

    fn into_value(self) -> V::Value {
        self.value
    }
}
