//! That a store over files has in its folder what its format says, reads it again, and fails if the files do.

ghost use Rattle.std.specs.Prelude.{◌≡◌, None};

use qm_files::{FileStore, Hold, Trouble};
use qm_store::{MetaEntry, Store, StoreError};
use std::alloc::{Alloc, AllocError, Global};
use std::fs;
use std::os::unix::fs::FileExt;
use std::random::RandomSource;
use std::rt::Files;
use std::slice::from_ref;
use std::test::Fail;

const FOLDER: &str = "qm_tests_files";

const LOG: &str = "qm_tests_files/log";

// No folder has this name.
const NOWHERE: &str = "qm_tests_no_files";

// What is done to a folder and its store, a step a line: a call that changes the store, what the store is asked and is to answer,
// or what is done to a file or which bytes it is to have. A step that begins with `fails` is to be a fault of the store. An entry of
// metadata is a word: its key of nine letters, then its bytes.
const STEPS: &str = "\
# A missing folder is an empty store.
file clear qm_tests_files
open
ask bounds 0 0
ask head
# Three items, by way of a fourth that is taken away, have their format.
append one
append wrong
rewind 1
append
append three
commit
file has qm_tests_files/log \0\0\0\0\0\0\0\0\0\0\0\0\0\0\0\x03one\0\0\0\0\0\0\0\x05three
# The next store has them.
open
ask bounds 0 3
ask item 0 one
ask item 1
ask item 2 three
# What stands before a location goes, with a new head, in this store and in the next.
open
prune 1 ab
file has qm_tests_files/log \0\0\0\0\0\0\0\x01\0\0\0\x02ab\0\0\0\0\0\0\0\x05three
ask item 1
ask item 2 three
open
ask bounds 1 3
ask head ab
ask item 1
ask item 2 three
# Metadata has its format, and is replaced whole.
open
put grafted kkkkkkkkkold
put grafted aaaaaaaaax bbbbbbbbb
file has qm_tests_files/meta-grafted aaaaaaaaa\0\0\0\x01xbbbbbbbbb\0\0\0\0
# A tail that is no whole entry is dropped, and another name has none.
file clear qm_tests_files/sum-grafted
file write qm_tests_files/meta-grafted aaaaaaaaa\0\0\0\x01xbbbbbbbbb\0\0\0\0ccccccccc\0\0\0\x02y
ask meta grafted aaaaaaaaax bbbbbbbbb
ask meta other
# A tail that is no whole item is dropped where there are no sums, and the next item takes its place.
file clear qm_tests_files/sums
file write qm_tests_files/log \0\0\0\0\0\0\0\x01\0\0\0\x02ab\0\0\0\0\0\0\0\x05three\0\0\0\x09torn
open
ask bounds 1 3
append four
sync
file has qm_tests_files/log \0\0\0\0\0\0\0\x01\0\0\0\x02ab\0\0\0\0\0\0\0\x05three\0\0\0\x04four
ask item 3 four
# A file that is cut fails a read past its end, and after a restart its end is that of the items that are left.
open
file clear qm_tests_files/sums
file write qm_tests_files/log \0\0\0\0\0\0\0\x01\0\0\0\x02ab\0\0\0\0\0\0\0\x05three\0\0\0
fails ask item 3
ask item 1
ask item 2 three
ask bounds 1 4
restart 4
ask item 1
ask item 2 three
ask bounds 1 3
ask faults 1
# A log that has others' bytes when it is read again breaks the store: from another start on,
file write qm_tests_files/log \0\0\0\0\0\0\0\x01\0\0\0\x02ab\0\0\0\0\0\0\0\x05three
open
file write qm_tests_files/log \0\0\0\0\0\0\0\0\0\0\0\0\0\0\0\x03one\0\0\0\0\0\0\0\x05three
fails restart 3
fails ask head
ask faults 2
ask bounds 1 1
# and with more items.
file write qm_tests_files/log \0\0\0\0\0\0\0\x01\0\0\0\x02ab\0\0\0\0\0\0\0\x05three
open
file write qm_tests_files/log \0\0\0\0\0\0\0\x01\0\0\0\x02ab\0\0\0\0\0\0\0\x05three\0\0\0\x04four
fails restart 3
fails ask head
ask faults 2
ask bounds 1 1
# What was committed and is not what was written breaks the store, and so does a log that is shorter or missing.
file write qm_tests_files/log \0\0\0\0\0\0\0\x01\0\0\0\x02ab\0\0\0\0\0\0\0\x05three
open
append four
commit
file write qm_tests_files/log \0\0\0\0\0\0\0\x01\0\0\0\x02ab\0\0\0\0\0\0\0\x05threa\0\0\0\x04four
open
fails ask head
ask bounds 0 0
file write qm_tests_files/log \0\0\0\0\0\0\0\x01\0\0\0\x02ab\0\0\0\0\0\0\0\x05three\0\0\0\x04fou
open
fails ask head
file clear qm_tests_files/log
open
fails ask head
# So does each byte of it that is changed, and nothing is cut or written.
file write qm_tests_files/log \0\0\0\0\0\0\0\x01\0\0\0\x02ab\0\0\0\0\0\0\0\x05three\0\0\0\x04four
changes
# What was not committed is dropped where it is not what was written, and so are zeros.
file write qm_tests_files/log \0\0\0\0\0\0\0\x01\0\0\0\x02ab\0\0\0\0\0\0\0\x05three\0\0\0\x04four
open
ask bounds 1 4
append five
append six
file write qm_tests_files/log \0\0\0\0\0\0\0\x01\0\0\0\x02ab\0\0\0\0\0\0\0\x05three\0\0\0\x04four\0\0\0\x04five\0\0\0\x03siy\0\0\0\0\0\0\0\0
open
ask bounds 1 5
ask item 4 five
commit
file has qm_tests_files/log \0\0\0\0\0\0\0\x01\0\0\0\x02ab\0\0\0\0\0\0\0\x05three\0\0\0\x04four\0\0\0\x04five
# Another store does not get the folder, and one that is opened later does.
held
open
ask bounds 1 5
# New files that took no place are removed.
file write qm_tests_files/log.new torn
file write qm_tests_files/sums.new torn
file write qm_tests_files/meta-grafted.new torn
open
file gone qm_tests_files/log.new
file gone qm_tests_files/sums.new
file gone qm_tests_files/meta-grafted.new
# Where a file can not be put in its place the store is broken.
file folder qm_tests_files/sum-other
fails put other aaaaaaaaax
fails ask head
file remove qm_tests_files/sum-other
open
file gone qm_tests_files/sum-other.new
ask bounds 1 5
# Metadata that is not what was written is a fault.
put grafted aaaaaaaaax
file write qm_tests_files/meta-grafted aaaaaaaaa\0\0\0\x01y
fails ask meta grafted
fails ask head
# A destroy that was cut off is finished.
file write qm_tests_files/destroyed
open
ask bounds 0 0
ask meta grafted
append one
# What is destroyed leaves nothing in the folder.
open
destroy
ask bounds 0 0
ask meta grafted
# A first append that was cut off leaves an empty store.
file write qm_tests_files/log.new torn
open
ask bounds 0 0
file gone qm_tests_files/log.new
file remove qm_tests_files
# Where no folder can be, each call fails and is counted.
file write qm_tests_files no folder
open
ask bounds 0 0
fails ask head
fails ask meta grafted
fails commit
fails sync
fails restart 0
fails append one
fails rewind 0
fails prune 0
fails put grafted
fails destroy
ask faults 10
file clear qm_tests_files
";

// A number. What is none is past all locations.
fn number(text: &str) -> u64 {
    text.parse().unwrap_or(u64::MAX)
}

// The entry that a word is.
fn entry(alloc: Global, word: &str) -> Result<MetaEntry, StoreError> {
    let (key, value) = word
        .as_bytes()
        .split_first_chunk::<9>()
        .ok_or(StoreError::Failed)?;
    let value = value.to_vec(alloc)?;
    Ok(MetaEntry { key: *key, value })
}

// The entries that a text has.
fn entries(alloc: Global, text: &str) -> Result<Vec<MetaEntry>, StoreError> {
    let mut entries = Vec::new(alloc);
    for word in text.split_ascii_whitespace() {
        entries.push(entry(alloc, word)?)?;
    }
    Ok(entries)
}

// Whether a text has these entries.
fn has_entries(text: &str, entries: &[MetaEntry]) -> bool {
    let mut words = text.split_ascii_whitespace();
    for entry in entries {
        let word = words.next().unwrap_or("").as_bytes();
        if word.strip_prefix(entry.key.as_slice()) != Some(entry.value.as_slice()) {
            return false;
        }
    }
    words.next().is_none()
}

// The three parts of a step: a word, another, and the rest.
fn parts(step: &str) -> (&str, &str, &str) {
    let (call, given) = step.split_once(' ').unwrap_or((step, ""));
    let (first, second) = given.split_once(' ').unwrap_or((given, ""));
    (call, first, second)
}

// Whether a store answers what a step says.
fn is_answered<S: Store>(store: &mut S, step: &str) -> Result<bool, StoreError> {
    let (call, first, second) = parts(step);
    let (start, end) = store.bounds();
    let at = number(first);
    Ok(match call {
        "bounds" => (start, end) == (at, number(second)),
        "faults" => store.faults() == at,
        "item" if start <= at && at < end => store.read(at)?.as_slice() == second.as_bytes(),
        "head" => store.head()?.as_slice() == first.as_bytes(),
        "meta" => has_entries(second, &store.meta(first)?),
        _ => false,
    })
}

// Changes a store that tells nothing as a step says, at a location within its bounds.
fn change<S: Store>(store: &mut S, alloc: Global, step: &str) -> Result<(), StoreError>
    requires { S.told store.old ≡ None }
{
    let (call, first, second) = parts(step);
    let (start, end) = store.bounds();
    let to = number(first).clamp(start, end);
    match call {
        "append" if end < 1 << 62 => store.append(from_ref(&first.as_bytes().to_vec(alloc)?)),
        "rewind" => store.rewind(to),
        "prune" => store.prune(to, second.as_bytes()),
        "put" => store.put_meta(first, &entries(alloc, second)?),
        "commit" => store.commit(),
        "sync" => store.sync(),
        "restart" => store.restart(to),
        "destroy" => store.destroy(),
        _ => Err(StoreError::Failed),
    }
}

// Whether a file has these bytes, or what a step says is done to it or to a folder.
fn file<R: Files + Alloc<A = Global>>(rt: &R, step: &str) -> Result<bool, StoreError> {
    let (call, path, bytes) = parts(step);
    match call {
        "has" => return Ok(fs::read(rt, path)?.as_slice() == bytes.as_bytes()),
        "write" => fs::write(rt, path, bytes)?,
        "gone" => return Ok(fs::read(rt, path).is_err()),
        "folder" => fs::create_dir(rt, path)?,
        "remove" => fs::remove_dir(rt, path)?,
        _ => {
            let _ = fs::remove_dir_all(rt, path);
            let _ = fs::remove_file(rt, path);
        }
    }
    Ok(true)
}

// Whether a log with one byte that is changed, each in turn, is told by the store over it, and left as it is.
fn is_each_change_told<R: Files + RandomSource + Alloc<A = Global> + Clone + Drop>(
    rt: &R,
) -> Result<bool, StoreError>
where
    R::File: FileExt + Hold,
{
    let log = fs::read(rt, LOG)?;
    for i in 0..log.len() {
        let mut changed = log.as_slice().to_vec(rt.alloc())?;
        if let Some(byte) = changed.get_mut(i) {
            *byte ^= 1;
        }
        fs::write(rt, LOG, changed.as_slice())?;
        let store = FileStore::open(rt.clone()?, rt.alloc(), FOLDER)?;
        let is_told = match store.trouble() {
            Trouble::LogDiffers(from, to) => from <= i as u64 && (i as u64) < to,
            _ => false,
        };
        if !is_told || fs::read(rt, LOG)?.as_slice() != changed.as_slice() {
            return Ok(false);
        }
    }
    fs::write(rt, LOG, log.as_slice())?;
    Ok(true)
}

// Does what a step says, and answers whether it is so.
fn is_so<R: Files + RandomSource + Alloc<A = Global> + Clone + Drop>(
    rt: &R,
    store: &mut FileStore<R>,
    step: &str,
) -> Result<bool, StoreError>
where
    R::File: FileExt + Hold,
{
    let (kind, given) = step.split_once(' ').unwrap_or((step, ""));
    match kind {
        "#" => {}
        "open" => {
            // The store before lets go of the folder.
            *store = FileStore::open(rt.clone()?, rt.alloc(), NOWHERE)?;
            *store = FileStore::open(rt.clone()?, rt.alloc(), FOLDER)?;
        }
        "changes" => {
            *store = FileStore::open(rt.clone()?, rt.alloc(), NOWHERE)?;
            return is_each_change_told(rt);
        }
        "held" => {
            let other = FileStore::open(rt.clone()?, rt.alloc(), FOLDER)?;
            return Ok(other.trouble() == Trouble::InUse && other.bounds() == (0, 0));
        }
        "file" => return file(rt, given),
        "ask" => return is_answered(store, given),
        _ => change(store, rt.alloc(), step)?,
    }
    Ok(true)
}

// Whether a step was to come out like this.
fn is_due(line: &str, done: Result<bool, StoreError>) -> bool {
    let due = if line.starts_with("fails ") {
        Err(StoreError::Failed)
    } else {
        Ok(true)
    };
    done == due
}

// The first line that is not so of a store, or the empty one.
fn first_wrong<R: Files + RandomSource + Alloc<A = Global> + Clone + Drop>(
    rt: &R,
    store: &mut FileStore<R>,
) -> &'static str
where
    R::File: FileExt + Hold,
{
    for line in STEPS.lines() {
        let step = line.strip_prefix("fails ").unwrap_or(line);
        if !is_due(line, is_so(rt, store, step)) {
            return line;
        }
    }
    ""
}

#[test]
fn a_folder_keeps_a_store(rt: HostRuntime) -> Result<(), Fail> {
    let mut store = FileStore::open(&rt, rt.alloc(), FOLDER)?;
    assert_eq!(rt; first_wrong(&&rt, &mut store), "");
    Ok(())
}
