//! A database whose keys and values have one size: its text, and a root that was computed by another program.

use crate::bed::{Bed, Database, again};
use crate::countdown::falls_by_one;
use crate::expiry::is_kept;
use qm_base::{Digest, Error, FixedBytes, Location, Sha256};
use qm_index::FourCap;
use qm_index::unordered::Index;
use qm_memory::MemStore;
use qm_merkle::mmr;
use qm_operations::{FixedEncoding, Unordered};
use std::alloc::Global;
use std::num::NonZeroU64;
use std::test::Fail;

/// Keys of four bytes and values of eight, in memory.
pub(crate) struct Fixed;

impl Bed for Fixed {
    type Family = mmr::Family;

    type Store = MemStore;

    type Index = Index<FourCap, Location<mmr::Family>>;

    type Hasher = Sha256;

    type Pair = Unordered<FixedBytes<4>, FixedEncoding<FixedBytes<8>>>;

    fn store(alloc: Global) -> MemStore {
        MemStore::new(alloc, Vec::new(alloc))
    }

    fn hasher() -> Sha256 {
        Sha256::new()
    }

    fn translator() -> FourCap {
        FourCap
    }
}

// The first bytes of the root of a database with one write and an entry of metadata.
const BEGIN: [u8; 8] = [0x30, 0x7d, 0x67, 0x34, 0x8f, 0x10, 0x75, 0x9f];

// The text of a database, and whether its root is that one, an operation is proved, its key is there in a batch of the last block up
// to which its value is valid, and in none of the next, and policies see the entries that are left.
fn text_of<B: Bed>(alloc: Global, db: &mut Database<B>) -> Result<String, Error> {
    let proved = db.proof(alloc, Location::new(1), NonZeroU64::MIN)?.1.len();
    let is_right = proved == 1
        && db.root().bytes().starts_with(&BEGIN)
        && is_kept::<B>(alloc, db, 10)?
        && !is_kept::<B>(alloc, db, 11)?
        && falls_by_one::<B>(alloc, db)?;
    Ok(format!(in alloc; "{db:?} {is_right}")?)
}

fn told<B: Bed>(alloc: Global) -> Result<String, Error> {
    let mut db = again::<B>(alloc)?;
    text_of::<B>(alloc, &mut db)
}

#[test]
fn a_database_is_told(rt: HostRuntime) -> Result<(), Fail> {
    let text = told::<Fixed>(rt.alloc())?;
    assert_eq!(rt; text.as_str(), "Db { start: 0, size: 4, floor: 2 } true");
    Ok(())
}
