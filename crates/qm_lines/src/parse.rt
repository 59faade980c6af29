//! Lines to commands.

ghost use Rattle.std.specs.Prelude.{◌≡◌, ◌≢◌, ◌==◌, ◌+◌, ◌<◌, ◌≤◌, ℕ, ◌∷◌, [], slice_index, length, IfOk, IfNone, IfSome, option_map};
ghost use Rattle.qm_machine.specs.Grammar as grammar;
ghost use Rattle.qm_lines.specs.Parsed.{byte_line};

mod commands;
mod keys;
mod merkleize;
mod numbers;
mod pieces;
mod policies;
mod ranges;
mod staged;
mod unread;

use crate::command::Command;
use crate::policy::AnyPolicy;
use commands::of_words;
pub use numbers::plain_number;
use pieces::pieces;
use qm_base::{ByteKey, ByteValue};
use std::alloc::{AllocError, Global};
use unread::Unread;

/// A command that a line can ask for.
pub type ByteCommand = Command<ByteKey, ByteValue, AnyPolicy>;

/// The command that a line is, if it is one. Want of memory is the only error.
pub fn parse_line(alloc: Global, line: &[u8]) -> Result<Option<ByteCommand>, AllocError>
    ensures { IfOk result (λ command. option_map byte_line command ≡ grammar.line_of line.now) }
{
    let words = pieces(alloc, line, b' ')?;
    match of_words(alloc, &words) {
        Ok(command) => Ok(Some(command)),
        Err(Unread::Malformed) => Ok(None),
        Err(Unread::Memory) => Err(AllocError),
    }
}

// How many bytes come before the first line feed, or at all.
fn line_length(input: &[u8]) -> usize
    ensures within { result ≤ length input.now }
    ensures before { (k : ℕ) → k < result → slice_index input.now k ≢ 10 }
    ensures found { result < length input.now → slice_index input.now result ≡ 10 }
{
    input
        .iter()
        .position(|byte| *byte == b'\n')
        .unwrap_or(input.len())
}

/// The first line of an input, without its line feed, and what follows it. An empty input has none.
pub fn next_line(input: &[u8]) -> Option<(&[u8], &[u8])>
    ensures none { IfNone result (grammar.lines_of input.now ≡ []) }
    ensures some { IfSome result (λ found.
        grammar.lines_of input.now ≡ found.0.now ∷ grammar.lines_of found.1.now) }
    ensures shorter { IfSome result (λ found. length found.1.now < length input.now) }
{
    if input.is_empty() {
        return None;
    }
    let end = line_length(input);
    if end < input.len() {
        Some((&input[..end], &input[end + 1..]))
    } else {
        Some((input, &input[end..]))
    }
}
