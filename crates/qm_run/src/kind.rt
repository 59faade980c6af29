//! The kinds of the program's databases: which the words of a command line name, and what their updates say.

ghost use Rattle.std.specs.Prelude.{◌≡◌, None, refl};

use qm_base::{ByteKey, ByteString, ByteValue, Location, VariableValue};
use qm_index::partitioned::{ordered, unordered};
use qm_index::{FourCap, P256};
use qm_merkle::Family;
use qm_operations::{Ordered, Unordered, VariableEncoding};
use qm_step::kind::Steps;

/// Which databases are named: current ones or any ones, ordered or unordered, over trees whose merges are delayed or over mountain
/// ranges.
#[derive(Clone, Copy)]
pub struct Named {
    pub is_current: bool,
    pub is_ordered: bool,
    pub is_delayed: bool,
}

/// Where the keys of unordered databases are live: in a partition by their first byte, and there by the four bytes behind it.
pub(crate) type Places<F> = unordered::Index<FourCap, Location<F>, P256>;

/// Where the keys of ordered databases are live: in a partition by their first byte, and there by the four bytes behind it.
pub(crate) type OrderedPlaces<F> = ordered::Index<FourCap, Location<F>, P256>;

/// What the updates of a kind of the program's databases say, over this index. They are spelled with their lengths.
pub(crate) trait Kind<F: Family, I: qm_index::Unordered<Value = Location<F>>>: Steps<F, I> {
    ghost lengths: { Self.form.sizes ≡ None };
}

/// What updates of unordered databases say.
pub(crate) type Pair = Unordered<ByteKey, VariableEncoding<ByteValue>>;

/// What updates of ordered databases say.
pub(crate) type Link = Ordered<ByteKey, VariableEncoding<ByteValue>>;

impl<F: Family, I: qm_index::Unordered<Value = Location<F>>, K: ByteString, V: VariableValue> Kind<
    F,
    I,
> for Unordered<K, VariableEncoding<V>> {
    ghost lengths = { refl };
}

impl<F: Family, I: qm_index::Ordered<Value = Location<F>>, K: ByteString, V: VariableValue> Kind<
    F,
    I,
> for Ordered<K, VariableEncoding<V>> {
    ghost lengths = { refl };
}
