// The sums of a log: a file beside it that says which bytes were written to it, and which of them were committed.
//
// Numbers are 8 bytes, the highest first. The file has a head of 32 bytes (a name, a key of 16 bytes, the sum of the name) and then
// records of 32 bytes: a place in the log, the sum of the log's bytes before it, what is said of them, and the sum of the record's
// own place and these three. A sum is SipHash-1-3 under the key, which is drawn at random for each file.
//
// The first record is of what stands before the items. Each append is followed by one that says `WRITTEN`, and each commit by two
// alike that say `COMMITTED`, so that one of them outlives a flipped bit. Only whole records whose sum is right count.
//
// The file ends with zeros, room for further records: a sync of one that is put there waits for its bytes alone, and not for the file
// system's journal, as it would if the file grew.

use crate::pieces::{Pieces, after};
use qm_store::StoreError;
use std::alloc::Global;
use std::fs::OpenFile;
use std::hash::{BuildHasher, DefaultHasher, Hasher, RandomState};
use std::io;
use std::os::unix::fs::FileExt;
use std::random::RandomSource;

const RECORD: u64 = 32;

// How many bytes the file grows by.
const ROOM: usize = 16 * 1024;

const NAME: [u8; 8] = *b"qmdbsum1";

pub(crate) const META_NAME: [u8; 8] = *b"qmdbmet1";

// What a record says of the bytes before its place.
const BEGUN: u64 = 1;

const WRITTEN: u64 = 2;

const COMMITTED: u64 = 3;

// The key of the sums of a file.
#[derive(Clone, Copy)]
pub(crate) struct Key {
    bytes: [u8; 16],
}

impl RandomSource for Key {
    fn fill_bytes(&self, buf: &mut [u8]) -> io::Result<()> {
        for i in 0..buf.len() {
            if i < 16 {
                buf[i] = self.bytes[i];
            }
        }
        Ok(())
    }
}

impl Key {
    // A key that nobody knows who does not read the folder.
    pub(crate) fn drawn(rt: &impl RandomSource) -> Result<Key, StoreError> {
        let mut bytes = [0u8; 16];
        rt.fill_bytes(&mut bytes)?;
        Ok(Key { bytes })
    }

    pub(crate) fn of(bytes: &[u8; 16]) -> Key {
        Key { bytes: *bytes }
    }

    pub(crate) fn bytes(&self) -> &[u8; 16] {
        &self.bytes
    }

    // What sums bytes up.
    pub(crate) fn hasher(&self) -> Result<DefaultHasher, StoreError> {
        Ok(RandomState::new(self)?.build_hasher())
    }

    // The sum of these bytes.
    pub(crate) fn sum(&self, bytes: &[u8]) -> Result<u64, StoreError> {
        let mut hasher = self.hasher()?;
        hasher.write(bytes);
        Ok(hasher.finish())
    }
}

// What a record says.
#[derive(Clone, Copy)]
pub(crate) struct Record {
    // a place in the log
    pub(crate) end: u64,
    // the sum of the bytes before it
    pub(crate) sum: u64,
    says: u64,
}

// Whether a record's place has none yet.
fn is_free(bytes: &[u8]) -> bool {
    number(bytes, 0) | number(bytes, 8) | number(bytes, 16) | number(bytes, 24) == 0
}

// The number that is spelled at a place.
pub(crate) fn number(bytes: &[u8], at: usize) -> u64 {
    let mut number = 0;
    for i in 0..8 {
        number = number << 8 | u64::from(*bytes.get(at.saturating_add(i)).unwrap_or(&0));
    }
    number
}

impl Record {
    // Its spelling at a place of the file of sums.
    fn spelled(&self, key: &Key, place: u64) -> Result<[u8; 32], StoreError> {
        let parts = [self.end, self.sum, self.says, self.check(key, place)?];
        let mut spelled = [0u8; 32];
        for i in 0..4 {
            let bytes = parts[i].to_be_bytes();
            for j in 0..8 {
                spelled[8 * i + j] = bytes[j];
            }
        }
        Ok(spelled)
    }

    fn check(&self, key: &Key, place: u64) -> Result<u64, StoreError> {
        let mut hasher = key.hasher()?;
        hasher.write(&place.to_be_bytes());
        hasher.write(&self.end.to_be_bytes());
        hasher.write(&self.sum.to_be_bytes());
        hasher.write(&self.says.to_be_bytes());
        Ok(hasher.finish())
    }

    // The record that stands at a place, if it is one.
    fn read(key: &Key, place: u64, bytes: &[u8]) -> Result<Option<Record>, StoreError> {
        let record = Record {
            end: number(bytes, 0),
            sum: number(bytes, 8),
            says: number(bytes, 16),
        };
        let is_one = record.check(key, place)? == number(bytes, 24);
        Ok(is_one.then_some(record))
    }
}

// What the file of sums says of its log.
#[derive(Drop)]
struct Told {
    key: Key,
    begun: Record,
    // the last record of a commit, and where the next one goes
    bound: Record,
    bound_at: u64,
    // those after it, each further than the one before, and where the next one goes
    later: Vec<Record>,
    later_at: u64,
    // whether nothing but room stands after the records that count, and nothing else between them
    is_clean: bool,
    // how many bytes the file has
    size: u64,
}

// The last records of a file of sums, as far as it was read.
#[derive(Drop)]
struct Last {
    bound: Option<Record>,
    bound_at: u64,
    later: Vec<Record>,
    later_at: u64,
    // where the log ends by the last record
    end: u64,
    // whether a free place was passed after it
    is_after_room: bool,
    is_clean: bool,
}

impl Last {
    // Goes on by what stands at a place.
    fn note(&mut self, key: &Key, place: u64, bytes: &[u8]) -> Result<(), StoreError> {
        if is_free(bytes) {
            self.is_after_room = true;
            return Ok(());
        }
        let next = after(place, RECORD)?;
        match Record::read(key, place, bytes)? {
            Some(record) if record.says == COMMITTED => {
                self.bound = Some(record);
                self.bound_at = next;
                self.later.truncate(0);
                self.later_at = next;
                self.end = record.end;
                self.is_after_room = false;
                self.is_clean = true;
            }
            Some(record) if record.says == WRITTEN && record.end >= self.end => {
                self.later.push(record)?;
                self.later_at = next;
                self.end = record.end;
                if self.is_after_room {
                    self.is_clean = false;
                }
            }
            _ => self.is_clean = false,
        }
        Ok(())
    }

    // Goes on by each whole place of these bytes.
    fn note_all(&mut self, key: &Key, from: u64, bytes: &[u8]) -> Result<(), StoreError> {
        let mut place = from;
        for bytes in bytes.chunks_exact(32) {
            self.note(key, place, bytes)?;
            place = after(place, RECORD)?;
        }
        Ok(())
    }
}

// What a file of sums says, if it is one.
fn read_told<F: FileExt + OpenFile>(
    alloc: Global,
    pieces: &mut Pieces,
    file: &F,
) -> Result<Option<Told>, StoreError> {
    let size = file.metadata()?.len();
    if size < 3 * RECORD {
        return Ok(None);
    }
    let mut head = [0u8; 32];
    file.read_exact_at(&mut head, 0)?;
    let mut bytes = [0u8; 16];
    for i in 0..16 {
        bytes[i] = head[8 + i];
    }
    let key = Key { bytes };
    if number(&head, 0) != u64::from_be_bytes(NAME) || key.sum(&NAME)? != number(&head, 24) {
        return Ok(None);
    }
    let mut first = [0u8; 32];
    file.read_exact_at(&mut first, RECORD)?;
    let begun = match Record::read(&key, RECORD, &first)? {
        Some(record) if record.says == BEGUN => record,
        _ => return Ok(None),
    };
    let mut last = Last {
        bound: None,
        bound_at: 0,
        later: Vec::new(alloc),
        later_at: 0,
        end: 0,
        is_after_room: false,
        is_clean: true,
    };
    let mut at = 2 * RECORD;
    while at < size {
        let piece = pieces.read(file, at, size)?;
        last.note_all(&key, at, piece)?;
        at = after(at, piece.len() as u64)?;
    }
    let Some(bound) = last.bound else {
        return Ok(None);
    };
    Ok(Some(Told {
        key,
        begun,
        bound,
        bound_at: last.bound_at,
        later: last.later,
        later_at: last.later_at,
        is_clean: last.is_clean && size % RECORD == 0,
        size,
    }))
}

// The file of sums of a log, where the next record goes, and the sum of the bytes that the log has.
#[derive(Drop)]
pub(crate) struct Sums<F> {
    file: F,
    key: Key,
    at: u64,
    hasher: DefaultHasher,
    // how many bytes of the log are summed up, and how many of them are said to be committed
    end: u64,
    committed: u64,
    // whether nothing but room stands after the last record, and all that is summed up has one
    is_clean: bool,
    // where the room ends that was taken
    room: u64,
    // whether the last record outlives a power cut
    is_stable: bool,
}

// How a log and a file of sums go together.
#[derive(Drop)]
pub(crate) enum Fit<F> {
    // they do, up to where the sums end
    Fits(Sums<F>),
    // the sums are of a log that begins otherwise, up to this place
    Other(u64),
    // the sums can not be read
    Unread,
    // the log is shorter than what was committed, which ends at this place
    Short(u64),
    // what was committed, up to the second place, is not what was written, from the first place on
    Differs(u64, u64),
}

// How the log in a file goes together with a file of sums. Both are read once.
pub(crate) fn matched<F: FileExt + OpenFile + Drop>(
    alloc: Global,
    log: &F,
    file: F,
) -> Result<Fit<F>, StoreError> {
    let size = log.metadata()?.len();
    let mut pieces = Pieces::new(alloc)?;
    let Some(told) = read_told(alloc, &mut pieces, &file)? else {
        return Ok(Fit::Unread);
    };
    if size < told.begun.end {
        return Ok(Fit::Other(told.begun.end));
    }
    let mut hasher = told.key.hasher()?;
    pieces.add(&mut hasher, log, 0, told.begun.end)?;
    if hasher.finish() != told.begun.sum {
        return Ok(Fit::Other(told.begun.end));
    }
    if size < told.bound.end {
        return Ok(Fit::Short(told.bound.end));
    }
    pieces.add(&mut hasher, log, told.begun.end, told.bound.end)?;
    if hasher.finish() != told.bound.sum {
        return Ok(Fit::Differs(told.begun.end, told.bound.end));
    }
    let mut kept = told.bound.end;
    let mut at_kept = hasher;
    let mut place = kept;
    let mut is_clean = told.is_clean;
    for record in &told.later {
        if record.end <= size {
            pieces.add(&mut hasher, log, place, record.end)?;
            place = record.end;
        }
        if record.end <= size && hasher.finish() == record.sum {
            kept = record.end;
            at_kept = hasher;
        } else {
            is_clean = false;
        }
    }
    Ok(Fit::Fits(Sums {
        file,
        key: told.key,
        at: if is_clean {
            told.later_at
        } else {
            told.bound_at
        },
        hasher: at_kept,
        end: kept,
        committed: told.bound.end,
        is_clean,
        room: told.size,
        is_stable: false,
    }))
}

impl<F: FileExt + OpenFile + Drop> Sums<F> {
    // Writes the sums of a log into an empty file, and syncs it. The log has these bytes before its items, and ends at a place, up to
    // which all is stable.
    pub(crate) fn make(
        alloc: Global,
        file: F,
        key: Key,
        log: &F,
        first: u64,
        end: u64,
    ) -> Result<Sums<F>, StoreError> {
        let mut pieces = Pieces::new(alloc)?;
        let mut hasher = key.hasher()?;
        let mut head = [0u8; 32];
        let check = key.sum(&NAME)?.to_be_bytes();
        for i in 0..8 {
            head[i] = NAME[i];
            head[24 + i] = check[i];
        }
        for i in 0..16 {
            head[8 + i] = key.bytes[i];
        }
        file.write_all_at(&head, 0)?;
        pieces.add(&mut hasher, log, 0, first)?;
        let begun = Record {
            end: first,
            sum: hasher.finish(),
            says: BEGUN,
        };
        file.write_all_at(&begun.spelled(&key, RECORD)?, RECORD)?;
        pieces.add(&mut hasher, log, first, end)?;
        let mut sums = Sums {
            file,
            key,
            at: 2 * RECORD,
            hasher,
            end,
            committed: 0,
            is_clean: true,
            room: 2 * RECORD,
            is_stable: false,
        };
        sums.commit()?;
        Ok(sums)
    }

    // Where the bytes end that are summed up.
    pub(crate) fn end(&self) -> u64 {
        self.end
    }

    // What can be said of the bytes that are summed up.
    fn record(&self, says: u64) -> Record {
        Record {
            end: self.end,
            sum: self.hasher.finish(),
            says,
        }
    }

    // Cuts what stands after the last record that counts, for good.
    fn clear(&mut self) -> Result<(), StoreError> {
        if !self.is_clean {
            self.file.set_len(self.at)?;
            self.file.sync_all()?;
            self.room = self.at;
            self.is_stable = false;
        }
        Ok(())
    }

    // Puts records after the last one; room for them is taken first. If that fails there may be something after it.
    fn put(&mut self, records: &[u8]) -> Result<(), StoreError> {
        let end = after(self.at, records.len() as u64)?;
        self.is_clean = false;
        self.is_stable = false;
        if self.room < end {
            self.file.write_all_at(&[0u8; ROOM], self.room)?;
            self.room = after(self.room, ROOM as u64)?;
        }
        self.file.write_all_at(records, self.at)?;
        self.at = end;
        self.is_clean = true;
        Ok(())
    }

    // Puts a record of what is summed up, as it was written.
    fn put_end(&mut self) -> Result<(), StoreError> {
        let record = self.record(WRITTEN).spelled(&self.key, self.at)?;
        self.put(&record)
    }

    // Puts a record for bytes that were written after those that are summed up. If that fails they are not.
    pub(crate) fn put_written(&mut self, added: &[u8]) -> Result<(), StoreError> {
        if !self.is_clean {
            self.clear()?;
            if self.committed < self.end {
                self.put_end()?;
            }
        }
        let (hasher, end) = (self.hasher, self.end);
        self.hasher.write(added);
        self.end = after(end, added.len() as u64)?;
        let put = self.put_end();
        if put.is_err() {
            self.hasher = hasher;
            self.end = end;
        }
        put
    }

    // Says that what is summed up is committed, and syncs that, if it was not said and synced before. The log was synced.
    pub(crate) fn commit(&mut self) -> Result<(), StoreError> {
        if !self.is_clean || self.committed != self.end {
            return self.say_committed();
        }
        if !self.is_stable {
            self.file.sync_all()?;
            self.is_stable = true;
        }
        Ok(())
    }

    // Puts the two records of a commit, and syncs them.
    fn say_committed(&mut self) -> Result<(), StoreError> {
        self.clear()?;
        let record = self.record(COMMITTED);
        let one = record.spelled(&self.key, self.at)?;
        let two = record.spelled(&self.key, after(self.at, RECORD)?)?;
        let mut both = [0u8; 64];
        for i in 0..32 {
            both[i] = one[i];
            both[32 + i] = two[i];
        }
        self.put(&both)?;
        self.file.sync_data()?;
        self.committed = self.end;
        self.is_stable = true;
        Ok(())
    }

    // Says that no more is committed than the bytes before a place, which were before, and syncs that.
    pub(crate) fn rewind(&mut self, alloc: Global, log: &F, to: u64) -> Result<(), StoreError> {
        let mut pieces = Pieces::new(alloc)?;
        let mut hasher = self.key.hasher()?;
        pieces.add(&mut hasher, log, 0, to)?;
        self.hasher = hasher;
        self.end = to;
        self.say_committed()
    }
}
