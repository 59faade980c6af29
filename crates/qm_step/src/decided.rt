//! What a walk decides.

ghost use Rattle.std.specs.Prelude.{◌≡◌, ◌≤◌, ◌++◌, length, map, count_by, is_none, OnOk};
ghost use Rattle.qm_step.specs.Going.{touch_for};
ghost use Rattle.qm_step.specs.PlanViews.{decided_view, decided_views, unordered_touch, unordered_touches};

use crate::touch::Touch;
use qm_base::ByteString;
use qm_operations::{Operation, Unordered, ValueEncoding};
use std::alloc::AllocError;

/// What a walk decides of a key: a value to write, or none if the key goes; the key that its live update names, in an
/// ordered database; and where the key's live update stands in the base list.
#[derive(Drop)]
pub struct Decided<K, V> {
    /// The key.
    pub key: K,
    /// Its new value.
    pub value: Option<V>,
    /// The key that its live update names.
    pub next: Option<K>,
    /// Where its live update stands.
    pub before: Option<u64>,
}

/// How many of these keys go.
pub fn evicted<K, V>(decided: &[Decided<K, V>]) -> usize
    ensures count { result ≡ count_by (λ d. is_none d.value) decided.now }
    ensures bound { result ≤ length decided.now }
{
    let mut count = 0;
    for one in decided {
        if one.value.is_none() {
            count += 1;
        }
    }
    count
}

// The operation of a decision.
fn touch_of<F, K: ByteString, V: ValueEncoding<K>>(
    decided: Decided<K, V::Value>,
) -> Touch<F, Unordered<K, V>>
    ensures { unordered_touch K.bytes V.Value.bytes result
        ≡ touch_for (decided_view K.bytes V.Value.bytes decided) }
{
    let Decided {
        key,
        value,
        before,
        ..
    } = decided;
    let operation = match value {
        Some(value) => Operation::Update(Unordered(key, value)),
        None => Operation::Delete(key),
    };
    Touch { operation, before }
}

/// Adds the operations of what was decided.
pub fn add_decided<F, K: ByteString, V: ValueEncoding<K>>(
    touches: &mut Vec<Touch<F, Unordered<K, V>>>,
    decided: Vec<Decided<K, V::Value>>,
) -> Result<(), AllocError>
    ensures { OnOk result (unordered_touches K.bytes V.Value.bytes touches.new.items
        ≡ unordered_touches K.bytes V.Value.bytes touches.old.items
        ++ map touch_for (decided_views K.bytes V.Value.bytes decided.items)) }
{
    for one in decided {
        touches.push(touch_of(one))?;
    }
    Ok(())
}
