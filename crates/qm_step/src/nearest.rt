//! Neighbours among keys in order, which go round.

ghost use Rattle.std.specs.Prelude.{◌≡◌, [], Some, map, option_map, Contains, MatchOption};
ghost use Rattle.qm_model.specs.Keys.{predecessor, successor};

use std::collections::BTreeMap;
use std::ops::Bound;

/// The key after this one, or else the first of all.
pub(crate) fn key_behind<'a, X>(keys: &BTreeMap<&'a [u8], X>, key: &'a [u8]) -> Option<&'a [u8]>
    ensures { option_map (λ k. k.now) result
        ≡ successor (map (λ e. e.0.now) keys.now.entries) key.now }
{
    match keys.range((Bound::Excluded(key), Bound::Unbounded)).next() {
        Some((behind, _)) => Some(*behind),
        None => match keys.first_key_value() {
            Some((first, _)) => Some(*first),
            None => None,
        },
    }
}

/// The entry of the key before this one, or else of the last of all.
pub(crate) fn entry_before<'m, 'a, X>(
    entries: &'m BTreeMap<&'a [u8], X>,
    key: &'a [u8],
) -> Option<(&'a [u8], &'m X)>
    ensures { MatchOption result (entries.now.entries ≡ []) (λ e.
        Contains entries.now.entries (e.0, e.1.now)
        × (predecessor (map (λ e. e.0.now) entries.now.entries) key.now ≡ Some e.0.now)) }
{
    match entries
        .range((Bound::Unbounded, Bound::Excluded(key)))
        .next_back()
    {
        Some((before, value)) => Some((*before, value)),
        None => match entries.last_key_value() {
            Some((last, value)) => Some((*last, value)),
            None => None,
        },
    }
}
