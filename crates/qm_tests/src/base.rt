//! Texts of errors.

use qm_base::{Corrupt, Error, JournalError, TreeRefused};
use qm_chain::FloorError;
use qm_store::StoreError;
use std::alloc::{AllocError, Global};
use std::test::Fail;

// What errors print, a line each, then those of a store, and those of a floor.
const TEXTS: &str = "\
out of memory
initialization bound must allow at least one operation
stale batch: current database state does not match the batch
stale read: database is at no state of the batch's chain
prune location 9 beyond minimum required location 4
historical floor pruned for size: 3
data corrupted: no retained commit
data corrupted: item does not decode
data corrupted: inactivity floor exceeds commit location
data corrupted: log pruned past the bits
data corrupted: head does not match the start
data corrupted: links form no ring
data corrupted: pruned chunks value not a valid u64
data corrupted: pruned chunks exceeds MAX_LEAVES
data corrupted: missing pinned node in grafted tree metadata
data corrupted: invalid pinned node digest
merkle error: RangeOutOfBounds 5
journal error: Store
journal error: ItemPruned 7
journal error: ItemTooLarge 65546
key not found
key exists
operation pruned: 12
out of memory, store fault
floor regressed: batch floor 4 < prior floor 5
floor beyond commit location: floor 10 > commit loc 9
";

// The error that prints the line at an index.
fn error_at(index: usize) -> Error {
    match index {
        0 => Error::Memory,
        1 => Error::InvalidInitializationBound,
        2 => Error::StaleBatch,
        3 => Error::StaleRead,
        4 => Error::PruneBeyondMinRequired(9, 4),
        5 => Error::HistoricalFloorPruned(3),
        6 => Error::DataCorrupted(Corrupt::NoRetainedCommit),
        7 => Error::DataCorrupted(Corrupt::ItemDoesNotDecode),
        8 => Error::DataCorrupted(Corrupt::FloorExceedsCommit),
        9 => Error::DataCorrupted(Corrupt::PrunedPastBits),
        10 => Error::DataCorrupted(Corrupt::HeadDoesNotMatch),
        11 => Error::DataCorrupted(Corrupt::LinksFormNoRing),
        12 => Error::DataCorrupted(Corrupt::CountNotValid),
        13 => Error::DataCorrupted(Corrupt::CountTooLarge),
        14 => Error::DataCorrupted(Corrupt::MissingPin),
        15 => Error::from(Corrupt::InvalidPin),
        16 => Error::Merkle(TreeRefused::RangeOutOfBounds(5)),
        17 => Error::Journal(JournalError::Store),
        18 => Error::Journal(JournalError::ItemPruned(7)),
        19 => Error::Journal(JournalError::ItemTooLarge(65_546)),
        20 => Error::KeyNotFound,
        21 => Error::KeyExists,
        _ => Error::OperationPruned(12),
    }
}

// What all of them print.
fn texts(alloc: Global) -> Result<String, AllocError> {
    let mut texts = String::new(alloc);
    for index in 0..23 {
        writeln!(texts, "{}", error_at(index))?;
    }
    writeln!(texts, "{}, {}", StoreError::Memory, StoreError::Failed)?;
    writeln!(texts, "{}", FloorError::FloorRegressed(4, 5))?;
    writeln!(texts, "{}", FloorError::FloorBeyondSize(10, 9))?;
    Ok(texts)
}

#[test]
fn errors_have_text(rt: HostRuntime) -> Result<(), Fail> {
    assert_eq!(rt; texts(rt.alloc())?.as_str(), TEXTS);
    Ok(())
}
