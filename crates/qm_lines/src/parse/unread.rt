// Why a text is not read.
ghost use Rattle.std.specs.Prelude.{◌≡◌};
ghost use Rattle.qm_lines.specs.declared.parse.unread.Unread.TheVariants.{Memory};

use std::alloc::{AllocError, AllocFailed};

/// Why a text is not read.
#[derive(Clone, Copy)]
pub enum Unread {
    /// It is not of the form that is asked for.
    Malformed,
    Memory,
}

impl From<AllocError> for Unread {
    ghost from_gives = { λ _ e. e ≡ Memory };

    fn from(_: AllocError) -> Unread {
        Unread::Memory
    }
}

impl<T: Drop> From<AllocFailed<T>> for Unread {
    ghost from_gives = { λ _ e. e ≡ Memory };

    fn from(_: AllocFailed<T>) -> Unread {
        Unread::Memory
    }
}
