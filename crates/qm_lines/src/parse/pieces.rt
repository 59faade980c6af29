// Pieces of a text between signs.
ghost use Rattle.std.specs.Prelude.{◌≡◌, ◌==◌, IfOk, bytes_eq};
ghost use Rattle.std.specs.List.{slice_split};
ghost use Rattle.qm_lines.specs.Parsed.{lent};

use std::alloc::{AllocError, Global};

/// Whether a word is this name.
pub fn is(word: &[u8], name: &[u8]) -> bool
    ensures { result ≡ bytes_eq word.now name.now }
{
    word == name
}

/// What stands between the places of a sign. A text without it is one piece.
pub fn pieces(alloc: Global, text: &[u8], sign: u8) -> Result<Vec<&[u8]>, AllocError>
    ensures { IfOk result (λ pieces. lent pieces.items ≡ slice_split (λ c. c == sign) text.now) }
{
    text.split(|c| *c == sign).collect(alloc)
}
