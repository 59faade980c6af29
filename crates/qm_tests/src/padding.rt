//! Spellings of fixed sizes: a delete's, and bytes that are none.

use qm_base::FixedBytes;
use qm_operations::{FixedEncoding, Operation, Unordered, Update};
use std::alloc::{AllocError, Global};
use std::test::Fail;

/// Keys of two bytes, and values of four.
type Pair = Unordered<FixedBytes<2>, FixedEncoding<FixedBytes<4>>>;

// The delete of the key 6162: the longest spelling has 14 bytes, so eleven zeros follow the key.
const DELETE: [u8; 14] = [2, 0x61, 0x62, 0, 0, 0, 0, 0, 0, 0, 0, 0, 0, 0];

// The same, but for a padding byte that is not zero.
const PADDED: [u8; 14] = [2, 0x61, 0x62, 0, 0, 0, 0, 0, 0, 0, 0, 0, 0, 1];

// The spelling of the operation that bytes spell, if there is one.
fn spelled_again<U: Update>(alloc: Global, bytes: &[u8]) -> Result<Option<Vec<u8>>, AllocError> {
    match Operation::<(), U>::decode(alloc, bytes)? {
        Some(operation) => Ok(Some(operation.encode(alloc)?)),
        None => Ok(None),
    }
}

// Whether bytes are spelled again as they are.
fn is_spelling<U: Update>(alloc: Global, bytes: &[u8]) -> Result<bool, AllocError> {
    match spelled_again::<U>(alloc, bytes)? {
        Some(again) => Ok(again.as_slice() == bytes),
        None => Ok(false),
    }
}

#[test]
fn a_padding_has_zeros_alone(rt: HostRuntime) -> Result<(), Fail> {
    let alloc = rt.alloc();
    assert!(rt; is_spelling::<Pair>(alloc, &DELETE)?);
    assert!(rt; spelled_again::<Pair>(alloc, &PADDED)?.is_none());
    Ok(())
}
