//! The longest spelling: an operation of 65,536 bytes is taken, and a longer one is refused with its length.

use crate::bed::{Bed, batch_of, opened};
use qm_base::{ByteKey, ByteValue, Error, JournalError, Location, Sha256};
use qm_index::FourCap;
use qm_index::unordered::Index;
use qm_memory::MemStore;
use qm_merkle::mmr;
use qm_operations::{Unordered, VariableEncoding};
use std::alloc::Global;
use std::test::Fail;

/// Keys and values of any length, in memory.
pub(crate) struct Loose;

impl Bed for Loose {
    type Family = mmr::Family;

    type Store = MemStore;

    type Index = Index<FourCap, Location<mmr::Family>>;

    type Hasher = Sha256;

    type Pair = Unordered<ByteKey, VariableEncoding<ByteValue>>;

    fn store(alloc: Global) -> MemStore {
        MemStore::new(alloc, Vec::new(alloc))
    }

    fn hasher() -> Sha256 {
        Sha256::new()
    }

    fn translator() -> FourCap {
        FourCap
    }
}

// The length with which an update of a key of one byte is refused, whose value has so many bytes, or 0 if it is not.
fn refused<B: Bed>(alloc: Global, length: usize) -> Result<u64, Error> {
    let mut db = opened::<B>(alloc, B::store(alloc))?;
    let value = vec![in alloc; 0; length]?;
    match batch_of::<B>(alloc, &mut db, b"k", &value, 0) {
        Err(Error::Journal(JournalError::ItemTooLarge(length))) => Ok(length),
        Err(error) => Err(error),
        Ok(_) => Ok(0),
    }
}

#[test]
fn a_spelling_that_is_too_long_is_refused_with_its_length(rt: HostRuntime) -> Result<(), Fail> {
    let alloc = rt.alloc();
    assert_eq!(rt; refused::<Loose>(alloc, 65_526)?, 0);
    assert_eq!(rt; refused::<Loose>(alloc, 65_536)?, 65_546);
    Ok(())
}
