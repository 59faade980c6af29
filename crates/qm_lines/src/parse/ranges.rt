// Ranges of keys: their ends, and the command.
ghost use Rattle.qm_model.specs.Policies.{Policy};
ghost use Rattle.qm_model.specs.Ranges.{Limit};
ghost use Rattle.qm_machine.specs.Grammar as grammar;
ghost use Rattle.qm_machine.specs.Lines.{Line};
ghost use Rattle.qm_lines.specs.Parsed.{Reads, byte_bound, byte_line, lent, range_line};

use super::ByteCommand;
use super::keys::key;
use super::pieces::is;
use super::unread::Unread;
use crate::command::{Command, ReadCommand};
use qm_base::ByteKey;
use std::alloc::Global;
use std::ops::Bound;

// A sign for no end, or a bracket and after it a key: a square one if the key itself is in the range.
fn low(alloc: Global, word: &[u8]) -> Result<Bound<ByteKey>, Unread>
    ensures { Reads byte_bound result (grammar.low_of word.now) }
{
    if is(word, b"*") {
        return Ok(Bound::Unbounded);
    }
    match word.split_first() {
        Some((b'[', word)) => Ok(Bound::Included(key(alloc, word)?)),
        Some((b'(', word)) => Ok(Bound::Excluded(key(alloc, word)?)),
        _ => Err(Unread::Malformed),
    }
}

// A sign for no end, or a key and after it a bracket.
fn high(alloc: Global, word: &[u8]) -> Result<Bound<ByteKey>, Unread>
    ensures { Reads byte_bound result (grammar.high_of word.now) }
{
    if is(word, b"*") {
        return Ok(Bound::Unbounded);
    }
    match word.split_last() {
        Some((b']', word)) => Ok(Bound::Included(key(alloc, word)?)),
        Some((b')', word)) => Ok(Bound::Excluded(key(alloc, word)?)),
        _ => Err(Unread::Malformed),
    }
}

// Where a range begins and ends.
#[derive(Drop)]
struct Ends {
    low: Bound<ByteKey>,
    high: Bound<ByteKey>,
}

// Two ends and no word more, whatever is made of them.
fn parse_ends(alloc: Global, words: &[&[u8]]) -> Result<Ends, Unread>
    ensures { (line : Limit → Limit → Line Policy)
        → Reads (λ ends. line (byte_bound ends.low) (byte_bound ends.high)) result
        (grammar.range_of line (lent words.now)) }
{
    let [low_word, high_word] = words else {
        return Err(Unread::Malformed);
    };
    let low = low(alloc, low_word)?;
    let high = high(alloc, high_word)?;
    Ok(Ends { low, high })
}

/// What is read of a range: keys with their values, or keys alone.
#[derive(Clone, Copy)]
pub enum RangeForm {
    Range,
    Keys,
}

/// A range, from one end to the other.
pub fn range(alloc: Global, form: RangeForm, words: &[&[u8]]) -> Result<ByteCommand, Unread>
    ensures { Reads byte_line result (grammar.range_of (range_line form) (lent words.now)) }
{
    let Ends { low, high } = parse_ends(alloc, words)?;
    match form {
        RangeForm::Range => Ok(Command::Read(ReadCommand::Range(low, high))),
        RangeForm::Keys => Ok(Command::Read(ReadCommand::Keys(low, high))),
    }
}
