// A file that is read piece by piece.

ghost use Rattle.std.specs.Prelude.{◌≡◌, ◌+◌, ◌<◌, length, IfOk};

use qm_store::StoreError;
use std::alloc::Global;
use std::hash::{DefaultHasher, Hasher};
use std::os::unix::fs::FileExt;

// How much of a file is in memory while it is read.
const BUFFER: usize = 64 * 1024;

// A place in a file that lies a number of bytes after another one. No file has one that is no number of 64 bits.
pub(crate) fn after(place: u64, size: u64) -> Result<u64, StoreError>
    ensures { IfOk result (λ to. to ≡ place + size) }
{
    place.checked_add(size).ok_or(StoreError::Failed)
}

// What reads a file through a buffer of fixed size.
#[derive(Drop)]
pub(crate) struct Pieces {
    window: Vec<u8>,
}

impl Pieces {
    pub(crate) fn new(alloc: Global) -> Result<Pieces, StoreError> {
        Ok(Pieces {
            window: vec![in alloc; 0u8; BUFFER]?,
        })
    }

    // The bytes from one place of a file on, up to another one, as many as there is room for.
    pub(crate) fn read<F: FileExt>(
        &mut self,
        file: &F,
        from: u64,
        to: u64,
    ) -> Result<&[u8], StoreError>
        requires { from < to }
        ensures { IfOk result (λ piece. 0 < length piece.now) }
    {
        let size = (to - from).min(BUFFER as u64) as usize;
        let Some(piece) = self.window.as_mut_slice().get_mut(..size) else {
            return Err(StoreError::Failed);
        };
        file.read_exact_at(piece, from)?;
        Ok(piece)
    }

    // Adds the bytes between two places of a file to what is summed up.
    pub(crate) fn add<F: FileExt>(
        &mut self,
        hasher: &mut DefaultHasher,
        file: &F,
        from: u64,
        to: u64,
    ) -> Result<(), StoreError> {
        let mut at = from;
        while at < to {
            let piece = self.read(file, at, to)?;
            hasher.write(piece);
            at = after(at, piece.len() as u64)?;
        }
        Ok(())
    }
}
