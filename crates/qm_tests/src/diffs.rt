//! That diffs are merged and gone through, the nearest first.
ghost use Rattle.std.specs.Prelude.{◌≡◌, ◌<◌, ◌^◌, length, IfOk};

use qm_base::{ByteKey, ByteString, ByteValue, Location};
use qm_chain::{Diff, DiffCursors, DiffEntry, DiffMerge};
use std::alloc::{AllocError, Global};
use std::rc::Rc;
use std::test::Fail;

// An update of a key at a location, or its deletion.
fn entry(
    alloc: Global,
    name: &[u8],
    loc: Option<u64>,
) -> Result<(ByteKey, DiffEntry<(), ByteValue>), AllocError>
    requires { length name.now < 2 ^ 32 }
    ensures { IfOk result (λ e. e.0 ≡ name.now) }
{
    let key = ByteKey::new(name.to_vec(alloc)?);
    match loc {
        Some(loc) => {
            let active = DiffEntry::Active {
                value: ByteValue::new(name.to_vec(alloc)?),
                loc: Location::new(loc),
                base_old_loc: None,
            };
            Ok((key, active))
        }
        None => Ok((key, DiffEntry::Deleted { base_old_loc: None })),
    }
}

// The place of an entry's update.
fn place(entry: &DiffEntry<(), ByteValue>) -> Option<u64> {
    entry.loc().map(|loc| loc.get())
}

#[test]
fn the_nearest_entry_of_each_key_counts(rt: HostRuntime) -> Result<(), Fail> {
    let alloc = rt.alloc();
    let near = vec![in alloc; entry(alloc, b"a", Some(9))?, entry(alloc, b"c", None)?]?;
    let far = vec![in alloc; entry(alloc, b"a", Some(1))?, entry(alloc, b"b", Some(2))?]?;
    let diffs = vec![in alloc;
        Rc::new(alloc, Diff::new(near))?,
        Rc::new(alloc, Diff::new(far))?,
    ]?;
    let mut merge = DiffMerge::new(alloc, &diffs)?;
    let first = merge.next();
    assert_eq!(rt; first.map(|(key, _)| key.as_bytes()), Some(b"a".as_slice()));
    assert_eq!(rt; first.and_then(|(_, entry)| place(entry)), Some(9));
    let second = merge.next();
    assert_eq!(rt;
        second.map(|(key, _)| key.as_bytes()),
        Some(b"b".as_slice())
    );
    let third = merge.next();
    assert_eq!(rt; third.map(|(key, _)| key.as_bytes()), Some(b"c".as_slice()));
    assert!(rt; third.is_some_and(|(_, entry)| place(entry).is_none()));
    assert!(rt; merge.next().is_none());
    let mut cursors = DiffCursors::new(alloc, &diffs)?;
    let found = cursors.resolve(&ByteKey::from_bytes(alloc, b"b")?);
    assert_eq!(rt; found.and_then(|entry| place(entry)), Some(2));
    let found = cursors.resolve(&ByteKey::from_bytes(alloc, b"c")?);
    assert!(rt; found.is_some_and(|entry| place(entry).is_none()));
    Ok(())
}
