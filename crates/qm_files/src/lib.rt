//! A store over the files of a folder.
//!
//! # Files
//!
//! Lengths are 4 bytes and locations 8, the highest byte first.
//!
//! | file | has |
//! |---|---|
//! | `log` | the location of the first item, the head after its length, then each item after its length |
//! | `sums` | sums of the log and what of it was committed (the head of `sums.rt` has the form) |
//! | `meta-NAME` | the metadata of a name: each entry as its key of 9 bytes, then its bytes after their length |
//! | `sum-NAME` | sums of the bytes that `meta-NAME` had before it was last written, if it was there, and of those after |
//! | `destroyed` | nothing: it stands while a store is being destroyed |
//! | `FILE.new` | a file that is not finished, or that has not taken its place |
//!
//! A folder that is missing, or a `log` without a byte and without sums, is an empty store. The folder is made when something is
//! first written. A folder without `sums`, as older programs wrote it, is read as far as its items are whole, and its first append,
//! rewind or prune makes sums of it. Metadata without `sum-NAME` is read as it stands.
//!
//! # States
//!
//! `open` takes the folder, which no other store has until this one is dropped, and reads log and sums once. If that succeeds the
//! store is *open*: it keeps handles to the files, and of each item where it ends, and reads items by their places. Else it is
//! *broken*: it starts at 0 and has no items, and each call that may fail does; `trouble` says why. A store is broken from then on,
//! with its start as it was, if a sync of the log or of the folder fails, a file can not be put in its place, a step of a
//! `destroy` fails, metadata is not what was written, another store was faster to make the folder, or a `restart` finds another start
//! than before, an end past the old one, or damage. Nothing leads from broken to open but another `open`.
//!
//! # What an opening makes of the files
//!
//! | found | done |
//! |---|---|
//! | another store has the folder | broken |
//! | `destroyed` | the store's files are removed, then `destroyed`: an empty store |
//! | neither `log` nor `sums` | an empty store |
//! | `sums` and no `log` | broken |
//! | `log` without `sums`, or with those of another beginning; `sums.new` fits it | `sums.new` takes its place |
//! | `sums` whose head, first record or record of a commit is not right | broken |
//! | a `log` that is shorter than what was committed, or differs in it | broken |
//! | a `log` that has what was committed, and more | it ends where the last record of the sums ends that fits; what is after that is cut before the next write or commit |
//! | `FILE.new` beside a store that opens | removed |
//!
//! If a store is broken nothing is cut, written or removed.
//!
//! # What calls do, and what a crash inside of them leaves
//!
//! A kill ends the process; a power cut also takes away what was not synced, in any order.
//!
//! | call | does | a kill leaves | a power cut leaves |
//! |---|---|---|---|
//! | the first `append` | as `prune`, with the items in the new log | no log, or one with all its items | the same |
//! | `append` | one write after the last item, one of a record of the sums | the items from before, or all of them | the committed items and some first part of the later ones that ends with an append |
//! | `commit`, `sync` | syncs the log, writes two records of the sums, syncs their data | the items from before | before Ok: as an append; after it all items |
//! | `rewind` | syncs the log, says in the sums that it ends at the place, syncs them, cuts the log, syncs it | the items from before or those that stay | the items from before, as after a commit or an append, or those that stay |
//! | `prune` | writes `log.new` and `sums.new`, syncs them and the folder, renames `log.new`, syncs the folder, renames `sums.new`, syncs the folder | the old log or the new one | the old log, as far as it was committed at least, or the new one |
//! | `put_meta` | writes, syncs, renames `sum-NAME.new`, syncs the folder; then `meta-NAME.new` likewise | the old entries or the new ones | the same |
//! | `restart` | reads log and sums again, commits | the items from before | as a commit |
//! | `destroy` | makes `destroyed`, syncs the folder; removes the store's files, syncs; removes `destroyed`, syncs | all, or nothing once the next opening has finished it | the same |
//!
//! The folder's own name in the folder above is not synced: who wants it to outlive a power cut makes the folder beforehand.
//!
//! A write that fails may have put bytes after the last item that counts. They count no more: they are cut before the next write, and
//! have no record for a store that opens the log before that. New files are made anew and not through links, with the permissions of
//! the file that they replace; if one can not be finished it is removed, at the latest by the next opening.
//!
//! What files really hold is outside of what is proved.
#![tactic(auto)]

ghost use Rattle.std.specs.Prelude.{◌≡◌, ◌+◌, ◌^◌, ◌≤◌, ◌<◌, length, None, IfOk, OnOk, IsErrOf};
ghost use Rattle.std.proofs.Math.Nat.{le-add_right};
ghost use Rattle.qm_model.specs.Causes.{IsCause, Rose};
ghost use Rattle.qm_files.specs.Files.{end_of};

use folder::{Folder, Held, LOG, SUMS};
use log_file::LogFile;
use qm_store::{MetaEntry, Store, StoreError};
use spelled::{read_entries, spelled_entries, spelled_head, spelled_items};
use std::alloc::{AllocError, Global};
use std::fs::{OpenFile, OpenOptions};
use std::marker::Model;
use std::os::unix::fs::FileExt;
use std::random::RandomSource;
use std::rt::Files;
use sums::{Fit, Key, META_NAME, Sums, matched, number};

mod folder;
mod log_file;
mod pieces;
mod spelled;
mod sums;

pub use folder::Hold;

// Whether the files can be read.
#[derive(Clone, Copy, PartialEq, Eq)]
enum Condition {
    Open,
    Broken,
}

/// Why a store over files is broken, if that is known. Places are numbers of bytes before them.
#[derive(Clone, Copy, Debug, PartialEq, Eq)]
pub enum Trouble {
    /// Nothing is known.
    Unknown,
    /// Another store has the folder.
    InUse,
    /// There are sums of a log, and no log.
    LogIsMissing,
    /// The file of sums is not what was written.
    Sums,
    /// The log is shorter than what was committed, which ends at this place.
    LogIsShort(u64),
    /// Between these places of the log something is not what was written and committed.
    LogDiffers(u64, u64),
    /// A file of metadata is not what was written.
    Metadata,
    /// A sync failed, or a file could not be put in its place.
    NotStable,
}

/// A store over the files of a folder, which tells nothing of what it holds. It takes 8 bytes of memory for each item.
///
/// A call fails if the system refuses what it asks for, if a file is shorter than it was, and if an item, a head or the
/// bytes of an entry are too many for a length of 4 bytes. A name of metadata is that of a file: one that has a slash or ends in
/// `.new` fails. If the system lacks memory for a call, as when the program does, the answer is `Memory`.
#[derive(Drop)]
pub struct FileStore<R: Files> {
    folder: Folder<R>,
    log: LogFile<R::File>,
    // none if there is no log, or one of a time without sums
    sums: Option<Sums<R::File>>,
    condition: Condition,
    trouble: Trouble,
    // the file of metadata that is not what was written
    damaged: Option<String>,
    failed: u64,
    // how often the store was called
    called: u64,
}

impl<R: Files> Model for FileStore<R> {
    ghost use Rattle.qm_files.specs.Files.{Counted};

    ghost Value = { Counted };

    ghost view = { λ s. record { items = s.log; faults = s.failed; calls = s.called } };
}

// The options of a file that is only read.
fn reading() -> OpenOptions {
    let mut how = OpenOptions::new();
    how.read(true);
    how
}

// The options of a file that is read and written.
fn writing() -> OpenOptions {
    let mut how = reading();
    how.write(true);
    how
}

// All bytes of a file.
fn bytes_of<F: FileExt + OpenFile>(alloc: Global, file: &F) -> Result<Vec<u8>, StoreError> {
    let size = file.metadata()?.len();
    let mut bytes = vec![in alloc; 0u8; size as usize]?;
    file.read_exact_at(&mut bytes, 0)?;
    Ok(bytes)
}

// What a file has that says which bytes a file of metadata may have: those before it was written, if there were any, and those after.
fn spelled_sum(
    alloc: Global,
    key: &Key,
    before: Option<&[u8]>,
    after: &[u8],
) -> Result<Vec<u8>, StoreError> {
    let mut spelled = Vec::new(alloc);
    spelled.extend_from_slice(&META_NAME)?;
    spelled.extend_from_slice(key.bytes())?;
    match before {
        Some(bytes) => {
            spelled.extend_from_slice(&1u64.to_be_bytes())?;
            spelled.extend_from_slice(&key.sum(bytes)?.to_be_bytes())?;
        }
        None => {
            spelled.extend_from_slice(&0u64.to_be_bytes())?;
            spelled.extend_from_slice(&0u64.to_be_bytes())?;
        }
    }
    spelled.extend_from_slice(&key.sum(after)?.to_be_bytes())?;
    let check = key.sum(&spelled)?;
    spelled.extend_from_slice(&check.to_be_bytes())?;
    Ok(spelled)
}

// Whether a file of metadata may have these bytes, or may be missing, by what stands beside it.
fn is_summed(sum: &[u8], bytes: Option<&[u8]>) -> Result<bool, StoreError> {
    if sum.len() != 56 || number(sum, 0) != u64::from_be_bytes(META_NAME) {
        return Ok(false);
    }
    let mut key = [0u8; 16];
    for i in 0..16 {
        key[i] = sum[8 + i];
    }
    let key = Key::of(&key);
    let front = sum.get(..48).unwrap_or(&[]);
    if key.sum(front)? != number(sum, 48) {
        return Ok(false);
    }
    let was_there = number(sum, 24) == 1;
    match bytes {
        None => Ok(!was_there),
        Some(bytes) => {
            let own = key.sum(bytes)?;
            Ok(own == number(sum, 40) || was_there && own == number(sum, 32))
        }
    }
}

impl<R: Files + RandomSource + Clone + Drop> FileStore<R>
where
    R::File: FileExt + Hold,
{
    /// The store over a folder, which need not be there. If it is, no other store has it until this one is dropped. Its log and
    /// its sums are read once, through buffers of 64 KiB. If that fails the store is broken; want of memory is the only error.
    pub fn open(rt: R, alloc: Global, folder: &str) -> Result<FileStore<R>, AllocError>
        ensures { IfOk result (λ s. s.faults ≡ 0) }
    {
        let folder = Folder::new(rt, alloc, folder)?;
        let mut store = FileStore {
            folder,
            log: LogFile::none(alloc, 0),
            sums: None,
            condition: Condition::Open,
            trouble: Trouble::Unknown,
            damaged: None,
            failed: 0,
            called: 0,
        };
        match store.load() {
            Ok(()) => Ok(store),
            Err(StoreError::Failed) => {
                store.condition = Condition::Broken;
                Ok(store)
            }
            Err(StoreError::Memory) => Err(AllocError),
        }
    }

    /// Why it is broken, if that is known.
    pub fn trouble(&self) -> Trouble {
        self.trouble
    }

    /// The name of the file of metadata that is not what was written, if one was read.
    pub fn damaged(&self) -> Option<&str> {
        self.damaged.as_deref()
    }

    // Takes the folder and reads what it has. What a crash left unfinished is finished, or taken away.
    fn load(&mut self) -> Result<(), StoreError>
        ensures { self.new.faults ≡ self.old.faults }
    {
        match self.folder.hold()? {
            Held::Missing => return Ok(()),
            Held::InUse => return self.fails(Trouble::InUse),
            Held::Yes => {}
        }
        self.folder.finish_destroyed()?;
        let (log, sums) = self.read_files()?;
        self.folder.remove_left()?;
        self.log = log;
        self.sums = sums;
        Ok(())
    }

    // A fault, and why.
    fn fails<T>(&mut self, trouble: Trouble) -> Result<T, StoreError>
        ensures same { self.new ≡ self.old }
    {
        self.trouble = trouble;
        Err(StoreError::Failed)
    }

    // The log and its sums. If there are none beside it, it counts as far as its items are whole.
    fn read_files(&mut self) -> Result<(LogFile<R::File>, Option<Sums<R::File>>), StoreError>
        ensures { self.new ≡ self.old }
    {
        let alloc = self.folder.alloc();
        let sums = self.folder.open(&writing(), SUMS)?;
        let Some(file) = self.folder.open(&writing(), LOG)? else {
            return match sums {
                Some(_) => self.fails(Trouble::LogIsMissing),
                None => Ok((LogFile::none(alloc, 0), None)),
            };
        };
        let Some(sums) = sums else {
            return match self.new_sums(&file)? {
                Some(sums) => Ok((LogFile::of(alloc, file, Some(sums.end()))?, Some(sums))),
                None => Ok((LogFile::of(alloc, file, None)?, None)),
            };
        };
        match matched(alloc, &file, sums)? {
            Fit::Fits(sums) => Ok((LogFile::of(alloc, file, Some(sums.end()))?, Some(sums))),
            Fit::Other(end) => match self.new_sums(&file)? {
                Some(sums) => Ok((LogFile::of(alloc, file, Some(sums.end()))?, Some(sums))),
                None => self.fails(Trouble::LogDiffers(0, end)),
            },
            Fit::Unread => self.fails(Trouble::Sums),
            Fit::Short(end) => self.fails(Trouble::LogIsShort(end)),
            Fit::Differs(from, to) => self.fails(Trouble::LogDiffers(from, to)),
        }
    }

    // The sums that were made for a log which has taken its place, if they have not taken theirs. They take it.
    fn new_sums(&self, log: &R::File) -> Result<Option<Sums<R::File>>, StoreError> {
        let alloc = self.folder.alloc();
        let Some(file) = self.folder.open_new(&writing(), SUMS)? else {
            return Ok(None);
        };
        match matched(alloc, log, file)? {
            Fit::Fits(sums) => {
                self.folder.put(SUMS)?;
                self.folder.sync()?;
                Ok(Some(sums))
            }
            _ => Ok(None),
        }
    }

    // A broken store fails.
    fn check(&self) -> Result<(), StoreError> {
        match self.condition {
            Condition::Open => Ok(()),
            Condition::Broken => Err(StoreError::Failed),
        }
    }

    // Counts a call, and its answer if it is a fault.
    fn counted<T>(&mut self, answer: Result<T, StoreError>) -> Result<T, StoreError>
        ensures same { result ≡ answer }
        ensures items { self.new.items ≡ self.old.items }
        ensures cause { IsCause self.old.faults self.new.faults (IsErrOf result StoreError.Failed) }
        ensures counted { Rose self.old.calls self.new.calls }
    {
        self.called = self.called.saturating_add(1);
        if let Err(StoreError::Failed) = &answer {
            self.failed = self.failed.saturating_add(1);
        }
        answer
    }

    fn read_item(&mut self, at: u64) -> Result<Vec<u8>, StoreError>
        requires from { self.old.items.start ≤ at }
        requires before { at < end_of self.old.items }
        ensures { self.new ≡ self.old }
    {
        self.check()?;
        let index = (at - self.log.start()) as usize;
        self.log.item(self.folder.alloc(), index)
    }

    fn read_head(&mut self) -> Result<Vec<u8>, StoreError>
        ensures { self.new ≡ self.old }
    {
        self.check()?;
        self.log.head(self.folder.alloc())
    }

    fn read_meta(&mut self, name: &str) -> Result<Vec<MetaEntry>, StoreError>
        ensures { self.new ≡ self.old }
    {
        self.check()?;
        let alloc = self.folder.alloc();
        let file_name = self.folder.meta_name(name)?;
        let sum_name = self.folder.sum_name(name)?;
        let bytes = match self.folder.open(&reading(), &file_name)? {
            Some(file) => Some(bytes_of(alloc, &file)?),
            None => None,
        };
        if let Some(file) = self.folder.open(&reading(), &sum_name)? {
            let sum = bytes_of(alloc, &file)?;
            if !is_summed(&sum, bytes.as_deref())? {
                self.damaged = Some(file_name);
                self.condition = Condition::Broken;
                return self.fails(Trouble::Metadata);
            }
        }
        match bytes {
            Some(bytes) => read_entries(alloc, &mut bytes.as_slice(), bytes.len() as u64),
            None => Ok(Vec::new(alloc)),
        }
    }

    // After this the store is broken if a call failed that was to make something stable.
    fn stable<T>(&mut self, answer: Result<T, StoreError>) -> Result<T, StoreError>
        ensures result { result ≡ answer }
        ensures same { self.new ≡ self.old }
    {
        if answer.is_err() {
            self.condition = Condition::Broken;
            self.trouble = Trouble::NotStable;
        }
        answer
    }

    // Takes the folder, which is made if it was missing.
    fn take_folder(&mut self) -> Result<(), StoreError>
        ensures { self.new ≡ self.old }
    {
        match self.folder.make()? {
            Held::Yes => Ok(()),
            _ => {
                self.condition = Condition::Broken;
                self.fails(Trouble::InUse)
            }
        }
    }

    // Makes sums of a log that has none.
    fn begin_sums(&mut self) -> Result<(), StoreError>
        ensures { self.new ≡ self.old }
    {
        if self.sums.is_some() || !self.log.has_file() {
            return Ok(());
        }
        self.log.cut_tail()?;
        let synced = self.log.sync();
        self.stable(synced)?;
        let made = self.make_sums();
        match made {
            Ok(sums) => self.sums = Some(sums),
            Err(error) => {
                self.folder.drop_new(SUMS);
                return Err(error);
            }
        }
        let put = self.put_file(SUMS);
        self.stable(put)
    }

    // New sums of the log that take no place yet.
    fn make_sums(&self) -> Result<Sums<R::File>, StoreError> {
        match self.log.file() {
            Some(log) => self.sums_of(log, self.log.first(), self.log.end_place()),
            None => Err(StoreError::Failed),
        }
    }

    fn sums_of(&self, log: &R::File, first: u64, end: u64) -> Result<Sums<R::File>, StoreError> {
        let key = Key::drawn(self.folder.rt())?;
        let file = self.folder.create(SUMS, LOG)?;
        Sums::make(self.folder.alloc(), file, key, log, first, end)
    }

    // Puts a new file in its place, for good.
    fn put_file(&self, name: &str) -> Result<(), StoreError> {
        self.folder.put(name)?;
        self.folder.sync()
    }

    fn write_items(&mut self, added: &[Vec<u8>]) -> Result<(), StoreError>
        requires room { end_of self.old.items + length added.now ≤ 2 ^ 62 }
        ensures ok { OnOk result (self.new.items.count ≡ self.old.items.count + length added.now) }
        ensures start { self.new.items.start ≡ self.old.items.start }
        ensures grows { self.old.items.count ≤ self.new.items.count }
        ensures within { self.new.items.count ≤ self.old.items.count + length added.now }
        ensures faults { self.new.faults ≡ self.old.faults }
        ensures calls { self.new.calls ≡ self.old.calls }
    {
        self.check()?;
        if added.is_empty() {
            return Ok(());
        }
        let spelled = spelled_items(self.folder.alloc(), added)?;
        if !self.log.has_file() {
            let start = self.log.start();
            return self.replace_log(start, &[], &spelled, added.len() as u64);
        }
        self.begin_sums()?;
        let count = self.log.len();
        self.log.append(&spelled, added)?;
        let put = match &mut self.sums {
            Some(sums) => sums.put_written(&spelled),
            None => Err(StoreError::Failed),
        };
        if put.is_err() {
            self.log.forget(count);
        }
        put
    }

    fn settle(&mut self) -> Result<(), StoreError>
        ensures { self.new ≡ self.old }
    {
        self.check()?;
        self.log.cut_tail()?;
        let synced = self.log.sync();
        self.stable(synced)?;
        let said = match &mut self.sums {
            Some(sums) => sums.commit(),
            None => Ok(()),
        };
        self.stable(said)
    }

    fn cut(&mut self, to: u64) -> Result<(), StoreError>
        requires from { self.old.items.start ≤ to }
        requires before { to ≤ end_of self.old.items }
        ensures ok { OnOk result (end_of self.new.items ≡ to) }
        ensures start { self.new.items.start ≡ self.old.items.start }
        ensures within { self.new.items.count ≤ self.old.items.count }
        ensures faults { self.new.faults ≡ self.old.faults }
        ensures calls { self.new.calls ≡ self.old.calls }
    {
        self.check()?;
        if to == self.log.end() {
            return self.settle();
        }
        self.begin_sums()?;
        let count = (to - self.log.start()) as usize;
        // What stays may not have been committed: it is stable before the sums say so.
        let synced = self.log.sync();
        self.stable(synced)?;
        let said = self.say_cut(count);
        self.stable(said)?;
        let cut = self.log.cut(count);
        self.stable(cut)?;
        let synced = self.log.sync();
        self.stable(synced)
    }

    // Says in the sums that no more is committed than so many items.
    fn say_cut(&mut self, count: usize) -> Result<(), StoreError>
        requires { count ≤ self.old.items.count }
        ensures { self.new ≡ self.old }
    {
        let place = self.log.place(count);
        match (&mut self.sums, self.log.file()) {
            (Some(sums), Some(log)) => sums.rewind(self.folder.alloc(), log, place),
            _ => Err(StoreError::Failed),
        }
    }

    // A new file with this head, the items from a location on, as it reads, and these after them.
    fn new_log(
        &mut self,
        to: u64,
        head: &[u8],
        added: &[u8],
        more: u64,
    ) -> Result<LogFile<R::File>, StoreError>
        requires from { self.old.items.start ≤ to }
        requires before { to ≤ end_of self.old.items }
        ensures same { self.new ≡ self.old }
        ensures start { IfOk result (λ log. log.start ≡ to) }
        ensures end { IfOk result (λ log. end_of log ≡ end_of self.old.items + more) }
    {
        let alloc = self.folder.alloc();
        let spelled = spelled_head(alloc, to, head)?;
        let file = self.folder.create(LOG, LOG)?;
        file.write_all_at(&spelled, 0)?;
        let first = spelled.len() as u64;
        self.log
            .copy_items(alloc, (to - self.log.start()) as usize, &file, first)?;
        if !added.is_empty() {
            let end = file.metadata()?.len();
            file.write_all_at(added, end)?;
        }
        file.sync_all()?;
        let log = LogFile::of(alloc, file, None)?;
        if log.start() != to || log.has_tail() || log.end() != self.log.end().saturating_add(more) {
            return Err(StoreError::Failed);
        }
        Ok(log)
    }

    // The log and the sums that are to take their places.
    fn new_files(
        &mut self,
        to: u64,
        head: &[u8],
        added: &[u8],
        more: u64,
    ) -> Result<(LogFile<R::File>, Sums<R::File>), StoreError>
        requires from { self.old.items.start ≤ to }
        requires before { to ≤ end_of self.old.items }
        ensures same { self.new ≡ self.old }
        ensures start { IfOk result (λ files. files.0.start ≡ to) }
        ensures end { IfOk result (λ files. end_of files.0 ≡ end_of self.old.items + more) }
    {
        let log = self.new_log(to, head, added, more)?;
        let sums = match log.file() {
            Some(file) => self.sums_of(file, log.first(), log.end_place())?,
            None => return Err(StoreError::Failed),
        };
        self.folder.sync()?;
        Ok((log, sums))
    }

    // Puts a log with this head, the items from a location on and these after them in the place of the log.
    fn replace_log(
        &mut self,
        to: u64,
        head: &[u8],
        added: &[u8],
        more: u64,
    ) -> Result<(), StoreError>
        requires from { self.old.items.start ≤ to }
        requires before { to ≤ end_of self.old.items }
        ensures ok { OnOk result (self.new.items.start ≡ to) }
        ensures ok_end { OnOk result (end_of self.new.items ≡ end_of self.old.items + more) }
        ensures grows { end_of self.old.items ≤ end_of self.new.items }
        ensures within { end_of self.new.items ≤ end_of self.old.items + more }
        ensures start { self.old.items.start ≡ to → self.new.items.start ≡ to }
        ensures faults { self.new.faults ≡ self.old.faults }
        ensures calls { self.new.calls ≡ self.old.calls }
    {
        self.take_folder()?;
        let (log, sums) = match self.new_files(to, head, added, more) {
            Ok(files) => files,
            Err(error) => {
                self.folder.drop_new(LOG);
                self.folder.drop_new(SUMS);
                return Err(error);
            }
        };
        let put = self.folder.put(LOG);
        self.stable(put)?;
        self.log = log;
        self.sums = Some(sums);
        let synced = self.folder.sync();
        self.stable(synced)?;
        let put = self.put_file(SUMS);
        self.stable(put)
    }

    fn prune_log(&mut self, to: u64, head: &[u8]) -> Result<(), StoreError>
        requires from { self.old.items.start ≤ to }
        requires before { to ≤ end_of self.old.items }
        ensures ok { OnOk result (self.new.items.start ≡ to) }
        ensures end { end_of self.new.items ≡ end_of self.old.items }
        ensures faults { self.new.faults ≡ self.old.faults }
        ensures calls { self.new.calls ≡ self.old.calls }
    {
        self.check()?;
        self.replace_log(to, head, &[], 0)
    }

    fn write_meta(&mut self, name: &str, entries: &[MetaEntry]) -> Result<(), StoreError>
        ensures { self.new ≡ self.old }
    {
        self.check()?;
        let alloc = self.folder.alloc();
        let file_name = self.folder.meta_name(name)?;
        let sum_name = self.folder.sum_name(name)?;
        let spelled = spelled_entries(alloc, entries)?;
        self.take_folder()?;
        let before = match self.folder.open(&reading(), &file_name)? {
            Some(file) => Some(bytes_of(alloc, &file)?),
            None => None,
        };
        let key = Key::drawn(self.folder.rt())?;
        let sum = spelled_sum(alloc, &key, before.as_deref(), &spelled)?;
        self.replace_file(&sum_name, &sum)?;
        self.replace_file(&file_name, &spelled)
    }

    // Puts a file with these bytes in the place of the one with this name, for good.
    fn replace_file(&mut self, name: &str, bytes: &[u8]) -> Result<(), StoreError>
        ensures { self.new ≡ self.old }
    {
        let written = self.folder.write_new(name, bytes);
        if written.is_err() {
            self.folder.drop_new(name);
            return written;
        }
        let put = self.put_file(name);
        self.stable(put)
    }

    fn read_again(&mut self) -> Result<(), StoreError>
        ensures start { self.new.items.start ≡ self.old.items.start }
        ensures within { self.new.items.count ≤ self.old.items.count }
        ensures faults { self.new.faults ≡ self.old.faults }
        ensures calls { self.new.calls ≡ self.old.calls }
    {
        self.check()?;
        if !self.folder.is_held() {
            return Ok(());
        }
        let read = self.read_files();
        let (log, sums) = match read {
            Ok(files) => files,
            Err(error) => {
                self.condition = Condition::Broken;
                return Err(error);
            }
        };
        if log.start() != self.log.start() || self.log.end() < log.end() {
            self.log = LogFile::none(self.folder.alloc(), self.log.start());
            self.sums = None;
            self.condition = Condition::Broken;
            return Err(StoreError::Failed);
        }
        self.log = log;
        self.sums = sums;
        self.settle()
    }

    fn remove_all(&mut self) -> Result<(), StoreError>
        ensures ok { OnOk result (self.new.items ≡ record { start = 0; count = 0 }) }
        ensures within { end_of self.new.items ≤ end_of self.old.items }
        ensures faults { self.new.faults ≡ self.old.faults }
        ensures calls { self.new.calls ≡ self.old.calls }
    {
        self.check()?;
        if self.folder.is_held() {
            let marked = self.folder.mark_destroyed();
            self.stable(marked)?;
        }
        self.log = LogFile::none(self.folder.alloc(), 0);
        self.sums = None;
        if self.folder.is_held() {
            let removed = self.folder.finish_destroyed();
            self.stable(removed)?;
        }
        Ok(())
    }
}

impl<R: Files + RandomSource + Clone + Drop> Store for FileStore<R>
where
    R::File: FileExt + Hold,
{
    ghost start = { λ s. s.items.start };

    ghost end = { λ s. end_of s.items };

    ghost told = { λ s. None };

    ghost faults = { λ s. s.faults };

    ghost calls = { λ s. s.calls };

    ghost ordered = { λ s. le-add_right s.items.start s.items.count };

    ghost told_start = { λ s. tt };

    ghost told_end = { λ s. tt };

    fn bounds(&self) -> (u64, u64) {
        (self.log.start(), self.log.end())
    }

    fn faults(&self) -> u64 {
        self.failed
    }

    /// Two calls of the system: it takes the place, and reads the item.
    fn read(&mut self, at: u64) -> Result<Vec<u8>, StoreError> {
        let answer = self.read_item(at);
        self.counted(answer)
    }

    fn head(&mut self) -> Result<Vec<u8>, StoreError> {
        let answer = self.read_head();
        self.counted(answer)
    }

    /// Reads the file of the name.
    fn meta(&mut self, name: &str) -> Result<Vec<MetaEntry>, StoreError> {
        let answer = self.read_meta(name);
        self.counted(answer)
    }

    /// The spelled items are in memory once more until they are written.
    fn append(&mut self, added: &[Vec<u8>]) -> Result<(), StoreError> {
        let answer = self.write_items(added);
        self.counted(answer)
    }

    fn commit(&mut self) -> Result<(), StoreError> {
        let answer = self.settle();
        self.counted(answer)
    }

    fn sync(&mut self) -> Result<(), StoreError> {
        let answer = self.settle();
        self.counted(answer)
    }

    fn rewind(&mut self, to: u64) -> Result<(), StoreError> {
        let answer = self.cut(to);
        self.counted(answer)
    }

    /// Copies the items that stay, through a buffer of fixed size, and reads the copy once.
    fn prune(&mut self, to: u64, head: &[u8]) -> Result<(), StoreError> {
        let answer = self.prune_log(to, head);
        self.counted(answer)
    }

    fn put_meta(&mut self, name: &str, entries: &[MetaEntry]) -> Result<(), StoreError> {
        let answer = self.write_meta(name, entries);
        self.counted(answer)
    }

    /// Reads the log again, as `open` does, and keeps each item that it has, whatever it is asked to keep.
    fn restart(&mut self, _keep: u64) -> Result<(), StoreError> {
        let answer = self.read_again();
        self.counted(answer)
    }

    fn destroy(&mut self) -> Result<(), StoreError> {
        let answer = self.remove_all();
        self.counted(answer)
    }
}
