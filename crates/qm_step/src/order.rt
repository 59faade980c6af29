//! Byte order of keys: limits, and ways up from one key to another, which go round.

ghost use Rattle.std.specs.Prelude.{◌≡◌, option_map};
ghost use Rattle.qm_model.specs.Keys.{key_lt, between};
ghost use Rattle.qm_model.specs.Ranges.{is_before};
ghost use Rattle.qm_step.specs.Nearest.{limit_view, is_within, later_key};

use std::ops::Bound;

/// Whether a key is below another, in byte order.
pub fn is_below(key: &[u8], other: &[u8]) -> bool
    ensures { result ≡ key_lt key.now other.now }
{
    key < other
}

/// Whether a key comes before a limit.
pub fn is_before(limit: Bound<&[u8]>, key: &[u8]) -> bool
    ensures { result ≡ is_before (limit_view limit.entry) key.now }
{
    match limit {
        Bound::Included(last) => !is_below(last, key),
        Bound::Excluded(end) => is_below(key, end),
        Bound::Unbounded => true,
    }
}

/// Whether a key comes after one, if that is given, and before a limit.
pub fn is_within(above: Option<&[u8]>, limit: Bound<&[u8]>, key: &[u8]) -> bool
    ensures { result
        ≡ is_within (option_map (λ k. k.now) above.entry) (limit_view limit.entry) key.now }
{
    match above {
        Some(above) => is_below(above, key) && is_before(limit, key),
        None => is_before(limit, key),
    }
}

/// Whether a key is on the way up from one key to another, and neither of them.
pub fn is_between(key: &[u8], next: &[u8], other: &[u8]) -> bool
    ensures { result ≡ between key.now next.now other.now }
{
    if is_below(key, next) {
        is_below(key, other) && is_below(other, next)
    } else {
        is_below(key, other) || is_below(other, next)
    }
}

/// The greater of two keys, if there are two.
pub fn later<'a>(first: Option<&'a [u8]>, second: Option<&'a [u8]>) -> Option<&'a [u8]>
    ensures { option_map (λ k. k.now) result
        ≡ later_key (option_map (λ k. k.now) first.entry) (option_map (λ k. k.now) second.entry) }
{
    match (first, second) {
        (Some(one), Some(other)) => Some(if is_below(one, other) { other } else { one }),
        (Some(one), None) => Some(one),
        (None, other) => other,
    }
}
