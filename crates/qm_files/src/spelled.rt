// How the files of a store spell what is in them: numbers with the highest byte first, and strings of bytes after their
// lengths.

ghost use Rattle.std.specs.Prelude.{◌<◌, IfOk, IfSome};

use qm_store::{MetaEntry, StoreError};
use std::alloc::Global;
use std::io::{self, ErrorKind, Read};

// The bytes of a length.
pub(crate) const LENGTH_SIZE: u64 = 4;

// The bytes of an entry's key and of the length of its value.
const ENTRY_SIZE: u64 = 9 + LENGTH_SIZE;

// A length as it is spelled. One that has no spelling is a fault.
pub(crate) fn spelled_length(bytes: &[u8]) -> Result<[u8; 4], StoreError> {
    match u32::try_from(bytes.len()) {
        Ok(length) => Ok(length.to_be_bytes()),
        Err(_) => Err(StoreError::Failed),
    }
}

// Puts a string of bytes after its length.
pub(crate) fn put_field(spelled: &mut Vec<u8>, field: &[u8]) -> Result<(), StoreError> {
    let length = spelled_length(field)?;
    spelled.extend_from_slice(&length)?;
    spelled.extend_from_slice(field)?;
    Ok(())
}

// These items as a log has them.
pub(crate) fn spelled_items(alloc: Global, items: &[Vec<u8>]) -> Result<Vec<u8>, StoreError> {
    let mut spelled = Vec::new(alloc);
    for item in items {
        put_field(&mut spelled, item)?;
    }
    Ok(spelled)
}

// What stands in a log before its items.
pub(crate) fn spelled_head(alloc: Global, start: u64, head: &[u8]) -> Result<Vec<u8>, StoreError> {
    let mut spelled = Vec::new(alloc);
    spelled.extend_from_slice(&start.to_be_bytes())?;
    put_field(&mut spelled, head)?;
    Ok(spelled)
}

// These entries as a file of metadata has them.
pub(crate) fn spelled_entries(alloc: Global, entries: &[MetaEntry]) -> Result<Vec<u8>, StoreError> {
    let mut spelled = Vec::new(alloc);
    for entry in entries {
        spelled.extend_from_slice(&entry.key)?;
        put_field(&mut spelled, &entry.value)?;
    }
    Ok(spelled)
}

// The location that a log begins with.
pub(crate) fn read_location(from: &mut impl Read) -> Result<u64, StoreError> {
    let mut bytes = [0; 8];
    from.read_exact(&mut bytes)?;
    Ok(u64::from_be_bytes(bytes))
}

// A length.
pub(crate) fn read_length(from: &mut impl Read) -> Result<u32, StoreError> {
    let mut bytes = [0; 4];
    from.read_exact(&mut bytes)?;
    Ok(u32::from_be_bytes(bytes))
}

// So many bytes.
pub(crate) fn read_bytes(
    alloc: Global,
    from: &mut impl Read,
    count: u64,
) -> Result<Vec<u8>, StoreError> {
    let mut bytes = vec![in alloc; 0u8; count as usize]?;
    from.read_exact(&mut bytes)?;
    Ok(bytes)
}

// The entries in a file of metadata that has so many bytes. A tail that is no whole entry is dropped.
pub(crate) fn read_entries(
    alloc: Global,
    from: &mut impl Read,
    size: u64,
) -> Result<Vec<MetaEntry>, StoreError> {
    let mut entries = Vec::new(alloc);
    let mut left = size;
    while let Some((entry, behind)) = read_entry(alloc, from, left)? {
        entries.push(entry)?;
        left = behind;
    }
    Ok(entries)
}

// The next entry of those in so many bytes, and how many bytes follow it. There is none if it is not whole.
fn read_entry(
    alloc: Global,
    from: &mut impl Read,
    left: u64,
) -> Result<Option<(MetaEntry, u64)>, StoreError>
    ensures { IfOk result (λ next. IfSome next (λ pair. pair.1 < left)) }
{
    let Some(left) = left.checked_sub(ENTRY_SIZE) else {
        return Ok(None);
    };
    let mut key = [0; 9];
    from.read_exact(&mut key)?;
    let length = u64::from(read_length(from)?);
    let Some(behind) = left.checked_sub(length) else {
        return Ok(None);
    };
    let value = read_bytes(alloc, from, length)?;
    Ok(Some((MetaEntry { key, value }, behind)))
}
