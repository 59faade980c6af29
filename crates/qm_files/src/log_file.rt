// The file that has a store's items: where each stands in it.

ghost use Rattle.std.specs.Prelude.{◌≡◌, ◌+◌, ◌^◌, ◌<◌, ◌≤◌, IsTrue, length, IfOk, IfSome, OnOk, OnErr};
ghost use Rattle.qm_files.specs.Files.{end_of};

use crate::pieces::{Pieces, after};
use crate::spelled::{LENGTH_SIZE, read_length, read_location};
use qm_store::StoreError;
use std::alloc::Global;
use std::fs::OpenFile;
use std::io::{BufReader, Read, Seek};
use std::marker::Model;
use std::os::unix::fs::FileExt;

// How much of a file is in memory while its items are indexed.
const BUFFER: usize = 64 * 1024;

// The bytes of a log before its head: where it starts, and the length of the head.
const BEFORE_HEAD: u64 = 12;

// No item has a location past this one.
const LAST: u64 = 1 << 62;

// A log's file, if there is one, and where its items stand.
#[derive(Drop)]
pub(crate) struct LogFile<F> {
    file: Option<F>,
    start: u64,
    // where the first item begins
    first: u64,
    // where each item ends
    ends: Vec<u64>,
    // whether the file may go on after the last item
    has_tail: bool,
    // bytes of the file from a place on, for items that are read in a row, and how many of them count
    window: Vec<u8>,
    window_at: u64,
    filled: usize,
    // the number of the item after the one that was read last
    next: usize,
}

impl<F> Model for LogFile<F> {
    ghost use Rattle.std.specs.Prelude.{◌+◌, ◌^◌, ◌≤◌, length};
    ghost use Rattle.qm_files.specs.Files.{Extent};

    ghost Value = { Extent };

    ghost view = { λ l. record { start = l.start; count = length l.ends.items } };

    ghost invariant = { λ l. l.start + length l.ends.items ≤ 2 ^ 62 };
}

impl<F> LogFile<F> {
    // No file, and no item.
    pub(crate) fn none(alloc: Global, start: u64) -> LogFile<F>
        requires { start ≤ 2 ^ 62 }
        ensures { result ≡ record { start = start; count = 0 } }
    {
        LogFile {
            file: None,
            start,
            first: BEFORE_HEAD,
            ends: Vec::new(alloc),
            has_tail: false,
            window: Vec::new(alloc),
            window_at: 0,
            filled: 0,
            next: 0,
        }
    }

    // Whether there is a file.
    pub(crate) fn has_file(&self) -> bool {
        self.file.is_some()
    }

    // The location of the first item.
    pub(crate) fn start(&self) -> u64
        ensures value { result ≡ self.now.start }
        ensures limit { result + self.now.count ≤ 2 ^ 62 }
    {
        self.start
    }

    // How many items there are.
    pub(crate) fn len(&self) -> usize
        ensures { result ≡ self.now.count }
    {
        self.ends.len()
    }

    // The location after the last item.
    pub(crate) fn end(&self) -> u64
        ensures value { result ≡ end_of self.now }
        ensures limit { result ≤ 2 ^ 62 }
    {
        self.start + self.ends.len() as u64
    }

    // Where the item of this number begins in the file, or would begin.
    pub(crate) fn place(&self, index: usize) -> u64
        requires { index ≤ self.now.count }
    {
        match index.checked_sub(1) {
            Some(before) => self.ends[before],
            None => self.first,
        }
    }
}

impl<F: Read + Seek + OpenFile + FileExt + Drop> LogFile<F> {
    // The log in a file, which is none if that has no byte. If it is said how many of its bytes count, it is to end with
    // them. The file is read once, through a buffer of fixed size, and each item takes 8 bytes of memory.
    pub(crate) fn of(alloc: Global, file: F, kept: Option<u64>) -> Result<LogFile<F>, StoreError> {
        let whole = file.metadata()?.len();
        if whole == 0 {
            return Ok(LogFile::none(alloc, 0));
        }
        let size = kept.unwrap_or(whole).min(whole);
        let mut reader = BufReader::with_capacity(alloc, BUFFER, file)?;
        reader.rewind()?;
        let start = read_location(&mut reader)?;
        let first = pass_head(&mut reader, size)?;
        let ends = ends_of_items(alloc, &mut reader, first, size)?;
        if !is_within(start, ends.len()) {
            return Err(StoreError::Failed);
        }
        let end = *ends.last().unwrap_or(&first);
        if kept.is_some() && kept != Some(end) {
            return Err(StoreError::Failed);
        }
        Ok(LogFile {
            file: Some(reader.into_inner()),
            start,
            first,
            ends,
            has_tail: end < whole,
            window: Vec::new(alloc),
            window_at: 0,
            filled: 0,
            next: 0,
        })
    }

    // The file, if there is one.
    pub(crate) fn file(&self) -> Option<&F> {
        self.file.as_ref()
    }

    // Where the first item begins in the file.
    pub(crate) fn first(&self) -> u64 {
        self.first
    }

    // Where the last item ends in the file.
    pub(crate) fn end_place(&self) -> u64 {
        self.place(self.ends.len())
    }

    // Whether the file may go on after the last item.
    pub(crate) fn has_tail(&self) -> bool {
        self.has_tail
    }

    // The head, which is empty if there is no file.
    pub(crate) fn head(&mut self, alloc: Global) -> Result<Vec<u8>, StoreError>
        ensures { self.new ≡ self.old }
    {
        let Some(file) = &self.file else {
            return Ok(Vec::new(alloc));
        };
        let size = between(BEFORE_HEAD, self.first)?;
        let mut bytes = vec![in alloc; 0u8; size as usize]?;
        file.read_exact_at(&mut bytes, BEFORE_HEAD)?;
        Ok(bytes)
    }

    // The item of this number. If it is the one after the last that was read, the file is read 64 KiB at a time.
    pub(crate) fn item(&mut self, alloc: Global, index: usize) -> Result<Vec<u8>, StoreError>
        requires { index < self.old.count }
        ensures { self.new ≡ self.old }
    {
        let from = self.place(index).saturating_add(LENGTH_SIZE);
        let size = between(from, self.ends[index])? as usize;
        let in_row = index == self.next;
        self.next = index.saturating_add(1);
        if in_row && size < BUFFER && self.windowed(from, size).is_none() {
            self.fill(from)?;
        }
        if let Some(bytes) = self.windowed(from, size) {
            return Ok(bytes.to_vec(alloc)?);
        }
        let Some(file) = &self.file else {
            return Err(StoreError::Failed);
        };
        let mut bytes = vec![in alloc; 0u8; size]?;
        file.read_exact_at(&mut bytes, from)?;
        Ok(bytes)
    }

    // The bytes of the window from a place on, if it has that many.
    fn windowed(&self, from: u64, size: usize) -> Option<&[u8]> {
        let at = from.checked_sub(self.window_at)? as usize;
        let end = at.checked_add(size)?;
        if end > self.filled {
            return None;
        }
        self.window.get(at..end)
    }

    // Fills the window from a place on, as far as items go. If that can not be read the window has nothing.
    fn fill(&mut self, from: u64) -> Result<(), StoreError>
        ensures { self.new ≡ self.old }
    {
        self.filled = 0;
        if self.window.len() < BUFFER {
            self.window.resize(BUFFER, 0)?;
        }
        let size = between(from, self.end_place())?.min(BUFFER as u64) as usize;
        let Some(file) = &self.file else {
            return Err(StoreError::Failed);
        };
        let Some(room) = self.window.as_mut_slice().get_mut(..size) else {
            return Err(StoreError::Failed);
        };
        if file.read_exact_at(room, from).is_ok() {
            self.window_at = from;
            self.filled = size;
        }
        Ok(())
    }

    // Writes these after the last item, as they are spelled, by one write. If that fails, none of them counts.
    pub(crate) fn append(&mut self, spelled: &[u8], added: &[Vec<u8>]) -> Result<(), StoreError>
        requires room { end_of self.old + length added.now ≤ 2 ^ 62 }
        ensures ok { OnOk result (self.new.count ≡ self.old.count + length added.now) }
        ensures start { self.new.start ≡ self.old.start }
        ensures grows { self.old.count ≤ self.new.count }
        ensures within { self.new.count ≤ self.old.count + length added.now }
    {
        self.cut_tail()?;
        let count = self.ends.len();
        let end = self.place(count);
        self.note(added)?;
        let written = write_at(&self.file, end, spelled);
        if written.is_err() {
            self.forget(count);
        }
        written
    }

    // Notes where these end after the last item, all of them or none.
    fn note(&mut self, added: &[Vec<u8>]) -> Result<(), StoreError>
        requires room { end_of self.old + length added.now ≤ 2 ^ 62 }
        ensures ok { OnOk result
            (self.new ≡ record self.old { count = self.old.count + length added.now }) }
        ensures err { OnErr result (self.new ≡ self.old) }
    {
        let count = self.ends.len();
        let end = self.place(count);
        let noted = note_ends(&mut self.ends, end, added);
        if noted.is_err() {
            self.ends.truncate(count);
        }
        noted
    }

    // The items from this number on don't count, though the file may have them.
    pub(crate) fn forget(&mut self, count: usize)
        requires { count ≤ self.old.count }
        ensures { self.new ≡ record self.old { count = count } }
    {
        self.ends.truncate(count);
        self.has_tail = true;
    }

    // Takes away what the file has after the last item.
    pub(crate) fn cut_tail(&mut self) -> Result<(), StoreError>
        ensures { self.new ≡ self.old }
    {
        let count = self.ends.len();
        if self.has_tail {
            self.cut(count)?;
        }
        Ok(())
    }

    // Takes the items from this number on away, and whatever else the file has after them.
    pub(crate) fn cut(&mut self, count: usize) -> Result<(), StoreError>
        requires { count ≤ self.old.count }
        ensures ok { OnOk result (self.new ≡ record self.old { count = count }) }
        ensures err { OnErr result (self.new ≡ self.old) }
    {
        let end = self.place(count);
        self.filled = 0;
        if let Some(file) = &self.file {
            file.set_len(end)?;
        }
        self.ends.truncate(count);
        self.has_tail = false;
        Ok(())
    }

    // Makes what was written outlive a crash.
    pub(crate) fn sync(&self) -> Result<(), StoreError> {
        if let Some(file) = &self.file {
            file.sync_all()?;
        }
        Ok(())
    }

    // Copies the items from this number on after what another file has, through a buffer of fixed size.
    pub(crate) fn copy_items(
        &mut self,
        alloc: Global,
        index: usize,
        into: &F,
        at: u64,
    ) -> Result<(), StoreError>
        requires { index ≤ self.old.count }
        ensures { self.new ≡ self.old }
    {
        let Some(file) = &self.file else {
            return Ok(());
        };
        let mut from = self.place(index);
        let end = self.place(self.ends.len());
        let mut to = at;
        let mut pieces = Pieces::new(alloc)?;
        while from < end {
            let piece = pieces.read(file, from, end)?;
            into.write_all_at(piece, to)?;
            to = after(to, piece.len() as u64)?;
            from = after(from, piece.len() as u64)?;
        }
        Ok(())
    }
}

// How many bytes stand between two places of a file. Those of items rise, so that there is no lack of them.
fn between(from: u64, to: u64) -> Result<u64, StoreError> {
    to.checked_sub(from).ok_or(StoreError::Failed)
}

// Whether so many items from this location on end at or before the last one.
fn is_within(start: u64, count: usize) -> bool
    ensures { IsTrue result → start + count ≤ 2 ^ 62 }
{
    match start.checked_add(count as u64) {
        Some(end) => end <= LAST,
        None => false,
    }
}

// Writes bytes at a place.
fn write_at<F: FileExt>(file: &Option<F>, place: u64, bytes: &[u8]) -> Result<(), StoreError> {
    match file {
        Some(file) => {
            file.write_all_at(bytes, place)?;
            Ok(())
        }
        None => Err(StoreError::Failed),
    }
}

// Notes where these items end that begin at a place.
fn note_ends(ends: &mut Vec<u64>, from: u64, added: &[Vec<u8>]) -> Result<(), StoreError>
    ensures ok { OnOk result (length ends.new.items ≡ length ends.old.items + length added.now) }
    ensures err { OnErr result (length ends.old.items ≤ length ends.new.items) }
{
    ends.reserve(added.len())?;
    let mut end = from;
    for item in added {
        end = after(end, LENGTH_SIZE.saturating_add(item.len() as u64))?;
        ends.push(end)?;
    }
    Ok(())
}

// Where the first item begins. The reader stands after the location of the start, and is moved there.
fn pass_head<R: Read + Seek>(reader: &mut R, size: u64) -> Result<u64, StoreError> {
    let length = read_length(reader)?;
    let first = BEFORE_HEAD + u64::from(length);
    if size < first {
        return Err(StoreError::Failed);
    }
    reader.seek_relative(i64::from(length))?;
    Ok(first)
}

// Where each item ends of a file that has so many bytes, from the place of the first one on, where the reader stands. A tail
// that is no whole item is dropped.
fn ends_of_items<R: Read + Seek>(
    alloc: Global,
    reader: &mut R,
    first: u64,
    size: u64,
) -> Result<Vec<u64>, StoreError> {
    let mut ends = Vec::new(alloc);
    let mut place = first;
    while let Some(end) = pass_item(reader, place, size)? {
        ends.push(end)?;
        place = end;
    }
    Ok(ends)
}

// Where the item ends that begins at a place of a file that has so many bytes, if it is whole.
fn pass_item<R: Read + Seek>(
    reader: &mut R,
    place: u64,
    size: u64,
) -> Result<Option<u64>, StoreError>
    ensures { IfOk result (λ found. IfSome found (λ end. (place < end) × (end ≤ size))) }
{
    let bytes = after(place, LENGTH_SIZE)?;
    if size < bytes {
        return Ok(None);
    }
    let length = read_length(reader)?;
    let end = bytes.saturating_add(u64::from(length));
    if size < end {
        return Ok(None);
    }
    reader.seek_relative(i64::from(length))?;
    Ok(Some(end))
}
