// The folder of a store: its files by their names, and the lock on it.

use qm_store::StoreError;
use std::alloc::{Alloc, AllocError, Global};
use std::fs::{DirEntry, File, OpenFile, OpenOptions, TryLockError};
use std::io::{ErrorKind, Write};
use std::os::unix::fs::{OpenOptionsExt, PermissionsExt};
use std::path::{Path, PathBuf};
use std::rt::Files;
use std::{fs, io};

// The name of the file that has the items.
pub(crate) const LOG: &str = "log";

// The name of the file that has the sums of the log.
pub(crate) const SUMS: &str = "sums";

// The name of a file that stands while a store is being destroyed.
const DESTROYED: &str = "destroyed";

// What the names of files of metadata begin with, and those of their sums.
const META: &str = "meta-";

const META_SUM: &str = "sum-";

// What the name of a new file ends with, until it takes the place of the old one.
const NEW: &str = ".new";

// The permission bits of a mode.
const MODE: u32 = 0o7777;

/// A file or a folder that one handle at a time can hold.
pub trait Hold {
    /// Takes the lock on it until the handle is dropped. It answers false if another one has it.
    fn hold(&self) -> io::Result<bool>;
}

impl Hold for File {
    fn hold(&self) -> io::Result<bool> {
        match self.try_lock() {
            Ok(()) => Ok(true),
            Err(TryLockError::WouldBlock) => Ok(false),
            Err(TryLockError::Error(error)) => Err(error),
        }
    }
}

// What became of an attempt to hold a folder.
#[derive(Clone, Copy, PartialEq, Eq)]
pub(crate) enum Held {
    Yes,
    // there is no folder
    Missing,
    // another store has it
    InUse,
}

// What a call of the system gave.
fn given<T>(answer: io::Result<T>) -> Result<T, StoreError> {
    match answer {
        Ok(value) => Ok(value),
        Err(error) => Err(error.into()),
    }
}

// The same, or none if a name is missing.
fn found<T>(answer: io::Result<T>) -> Result<Option<T>, StoreError> {
    match answer {
        Ok(value) => Ok(Some(value)),
        Err(error) if error.kind() == ErrorKind::NotFound => Ok(None),
        Err(error) => Err(error.into()),
    }
}

// Whether a file of this name is a store's.
fn is_own(name: &str) -> bool {
    let name = name.strip_suffix(NEW).unwrap_or(name);
    name == LOG || name == SUMS || name.starts_with(META) || name.starts_with(META_SUM)
}

// Which files of a store are meant.
#[derive(Clone, Copy, PartialEq, Eq)]
enum Which {
    All,
    // new ones that took no place
    Left,
}

impl Which {
    fn has(self, name: &str) -> bool {
        is_own(name) && (self == Which::All || name.ends_with(NEW))
    }
}

// A name that has two parts.
fn joined(alloc: Global, first: &str, second: &str) -> Result<String, AllocError> {
    let mut name = String::from_str(alloc, first)?;
    name.push_str(second)?;
    Ok(name)
}

// A folder that may not be there yet. While it is held no other store has it.
#[derive(Drop)]
pub(crate) struct Folder<R: Files> {
    rt: R,
    alloc: Global,
    path: String,
    handle: Option<R::File>,
}

impl<R: Files + Clone + Drop> Folder<R>
where
    R::File: Hold,
{
    pub(crate) fn new(rt: R, alloc: Global, path: &str) -> Result<Folder<R>, AllocError> {
        let path = String::from_str(alloc, path)?;
        Ok(Folder {
            rt,
            alloc,
            path,
            handle: None,
        })
    }

    // What allocates.
    pub(crate) fn alloc(&self) -> Global {
        self.alloc
    }

    // What the files are of.
    pub(crate) fn rt(&self) -> &R {
        &self.rt
    }

    // Whether it is there and held.
    pub(crate) fn is_held(&self) -> bool {
        self.handle.is_some()
    }

    // Holds the folder, if it is there and no other store holds it. The lock is on the folder itself, which no rename of a file in
    // it replaces.
    pub(crate) fn hold(&mut self) -> Result<Held, StoreError> {
        if self.handle.is_some() {
            return Ok(Held::Yes);
        }
        let path = self.path_of(".")?;
        let Some(handle) = found(fs::open(&self.rt, path.as_path()))? else {
            return Ok(Held::Missing);
        };
        if !handle.hold()? {
            return Ok(Held::InUse);
        }
        self.handle = Some(handle);
        Ok(Held::Yes)
    }

    // Makes the folder if it was missing, and holds it. It fails if another store was faster.
    pub(crate) fn make(&mut self) -> Result<Held, StoreError> {
        if self.handle.is_some() {
            return Ok(Held::Yes);
        }
        fs::create_dir_all(&self.rt, &self.path)?;
        let held = self.hold()?;
        if held == Held::Yes && (self.has(LOG)? || self.has(DESTROYED)?) {
            self.handle = None;
            return Ok(Held::InUse);
        }
        Ok(held)
    }

    // The name of the file that has the metadata of a name. A name with a slash names no file of the folder, and one that
    // ends as a new file's does is that of a file which is not finished: both are faults.
    pub(crate) fn meta_name(&self, name: &str) -> Result<String, StoreError> {
        if name.contains('/') || name.ends_with(NEW) {
            return Err(StoreError::Failed);
        }
        Ok(joined(self.alloc, META, name)?)
    }

    // The name of the file that has their sum.
    pub(crate) fn sum_name(&self, name: &str) -> Result<String, AllocError> {
        joined(self.alloc, META_SUM, name)
    }

    // Where a file of this name lies.
    fn path_of(&self, name: &str) -> Result<PathBuf, AllocError> {
        Path::new(&self.path).join(self.alloc, name)
    }

    // Where a new file lies that is to take the place of the one with this name.
    fn path_of_new(&self, name: &str) -> Result<PathBuf, AllocError> {
        self.path_of(&joined(self.alloc, name, NEW)?)
    }

    // Whether there is a file of this name.
    fn has(&self, name: &str) -> Result<bool, StoreError> {
        let path = self.path_of(name)?;
        Ok(found(fs::symlink_metadata(&self.rt, path.as_path()))?.is_some())
    }

    // Opens a file, if there is one of this name.
    pub(crate) fn open(
        &self,
        how: &OpenOptions,
        name: &str,
    ) -> Result<Option<R::File>, StoreError> {
        let path = self.path_of(name)?;
        found(how.open(&self.rt, path.as_path()))
    }

    // Opens a new file that is to take the place of the one with this name, if there is one.
    pub(crate) fn open_new(
        &self,
        how: &OpenOptions,
        name: &str,
    ) -> Result<Option<R::File>, StoreError> {
        let path = self.path_of_new(name)?;
        found(how.open(&self.rt, path.as_path()))
    }

    // Makes an empty file that is to take the place of the one with this name, with the permissions of one that is there. Whatever
    // had its name before, which may be a link, is removed.
    pub(crate) fn create(&self, name: &str, like: &str) -> Result<R::File, StoreError> {
        let path = self.path_of_new(name)?;
        found(fs::remove_file(&self.rt, path.as_path()))?;
        let like = self.path_of(like)?;
        let mut how = OpenOptions::new();
        how.read(true).write(true).create_new(true);
        match found(fs::metadata(&self.rt, like.as_path()))? {
            None => given(how.open(&self.rt, path.as_path())),
            Some(old) => {
                let permissions = old.permissions();
                how.mode(permissions.mode() & MODE);
                let file = given(how.open(&self.rt, path.as_path()))?;
                file.set_permissions(permissions)?;
                Ok(file)
            }
        }
    }

    // Removes a new file that took no place, as far as that can be.
    pub(crate) fn drop_new(&self, name: &str) {
        if let Ok(path) = self.path_of_new(name) {
            let _ = fs::remove_file(&self.rt, path.as_path());
        }
    }

    // Puts the new file in the place of the one with this name.
    pub(crate) fn put(&self, name: &str) -> Result<(), StoreError> {
        let new = self.path_of_new(name)?;
        let old = self.path_of(name)?;
        given(fs::rename(&self.rt, new.as_path(), old.as_path()))
    }

    // Makes a new file with these bytes that is to take the place of the one with this name, and syncs it.
    pub(crate) fn write_new(&self, name: &str, bytes: &[u8]) -> Result<(), StoreError> {
        let mut file = self.create(name, name)?;
        file.write_all(bytes)?;
        given(file.sync_all())
    }

    // Notes that the store is destroyed: from then on no opening reads what the folder has.
    pub(crate) fn mark_destroyed(&self) -> Result<(), StoreError> {
        let path = self.path_of(DESTROYED)?;
        let mut how = OpenOptions::new();
        how.write(true).create_new(true);
        match how.open(&self.rt, path.as_path()) {
            Ok(_) => {}
            Err(error) if error.kind() == ErrorKind::AlreadyExists => {}
            Err(error) => return Err(error.into()),
        }
        self.sync()
    }

    // If it was noted that the store is destroyed: removes what it had, and then the note.
    pub(crate) fn finish_destroyed(&self) -> Result<(), StoreError> {
        if !self.has(DESTROYED)? {
            return Ok(());
        }
        self.remove_listed(&(&self.rt, self.alloc), Which::All)?;
        self.sync()?;
        let path = self.path_of(DESTROYED)?;
        found(fs::remove_file(&self.rt, path.as_path()))?;
        self.sync()
    }

    // Removes new files that took no place.
    pub(crate) fn remove_left(&self) -> Result<(), StoreError> {
        self.remove_listed(&(&self.rt, self.alloc), Which::Left)
    }

    // Removes the files that are meant, with what lists a folder. Files that are no store's stay.
    fn remove_listed<L: Files + Alloc<A = Global> + Clone + Drop>(
        &self,
        lister: &L,
        which: Which,
    ) -> Result<(), StoreError> {
        let Some(entries) = found(fs::read_dir(lister, &self.path))? else {
            return Ok(());
        };
        for entry in entries {
            self.remove_chosen(entry, which)?;
        }
        Ok(())
    }

    // Removes a file if it is one of those. A name that is no text is none of them.
    fn remove_chosen<L: Files + Drop>(
        &self,
        entry: io::Result<DirEntry<L, Global>>,
        which: Which,
    ) -> Result<(), StoreError> {
        match entry {
            Ok(entry) if which.has(entry.file_name()) => given(fs::remove_file(
                &self.rt,
                entry.path(),
            )),
            Ok(_) => Ok(()),
            Err(error) if error.kind() == ErrorKind::InvalidFilename => Ok(()),
            Err(error) => Err(error.into()),
        }
    }

    // Makes the folder's names outlive a crash.
    pub(crate) fn sync(&self) -> Result<(), StoreError> {
        match &self.handle {
            Some(handle) => given(handle.sync_all()),
            None => Err(StoreError::Failed),
        }
    }
}
