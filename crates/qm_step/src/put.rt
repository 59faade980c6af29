//! Entries, put into a map.

ghost use Rattle.std.specs.Prelude.{◌≡◌, Some, OnOk};
ghost use Rattle.std.specs.BTreeMap.{Updates, insert_entry};

use std::alloc::AllocError;
use std::collections::BTreeMap;

/// Puts a value under a key, in the place of the one that is there. Want of memory is the only error.
pub(crate) fn put<K: Ord + Drop, V: Drop>(
    map: &mut BTreeMap<K, V>,
    key: K,
    value: V,
) -> Result<(), AllocError>
    ensures entries { OnOk result (map.new.entries ≡ insert_entry K.cmp map.old.entries key value) }
    ensures updates { OnOk result (Updates K.cmp map.old map.new key (Some value)) }
{
    map.insert(key, value)?;
    Ok(())
}
