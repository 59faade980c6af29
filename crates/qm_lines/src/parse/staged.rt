// Staged reads: slots, other writes, and the commands.
ghost use Rattle.std.specs.Prelude.{◌≡◌, ◌≤◌, IfOk, drop, length, map, option_map};
ghost use Rattle.qm_machine.specs.Grammar as grammar;
ghost use Rattle.qm_lines.specs.Parsed.{Reads, byte_line, byte_slot, byte_write, keyed_line, lent, resolution_view};

use super::ByteCommand;
use super::keys::{key, metadata, some_keys, value};
use super::merkleize::parse_merkleizing;
use super::numbers::number;
use super::pieces::{is, pieces};
use super::unread::Unread;
use crate::command::{Command, StagedCommand};
use qm_base::{ByteKey, ByteValue, Resolution, Slot, Write};
use std::alloc::{AllocError, Global};

// A word for itself, or a value after a name.
fn slot(alloc: Global, word: &[u8]) -> Result<Slot<ByteValue>, Unread>
    ensures { Reads byte_slot result (grammar.slot_of word.now) }
{
    if is(word, b"keep") {
        return Ok(Slot::Keep);
    }
    if is(word, b"del") {
        return Ok(Slot::Delete);
    }
    match word.strip_prefix(b"put:") {
        None => Err(Unread::Malformed),
        Some(word) => Ok(Slot::Put(value(alloc, word)?)),
    }
}

// A key and what it gets, with a sign between them.
fn write(alloc: Global, word: &[u8]) -> Result<Write<ByteKey, ByteValue>, Unread>
    ensures { Reads byte_write result (grammar.write_of word.now) }
{
    let words = pieces(alloc, word, b'=')?;
    let [key_word, value_word] = words.as_slice() else {
        return Err(Unread::Malformed);
    };
    let key = key(alloc, key_word)?;
    let value = metadata(alloc, value_word)?;
    Ok(Write { key, value })
}

// These words as writes, if each is one.
fn writes(alloc: Global, words: &[&[u8]]) -> Result<Vec<Write<ByteKey, ByteValue>>, Unread>
    ensures { Reads (λ writes. map byte_write writes.items) result
        (grammar.each_write (lent words.now)) }
{
    let mut writes = Vec::new(alloc);
    for word in words {
        writes.push(write(alloc, word)?)?;
    }
    Ok(writes)
}

// Slots as far as there are any.
fn slots(alloc: Global, words: &[&[u8]]) -> Result<Vec<Slot<ByteValue>>, AllocError>
    ensures within { IfOk result (λ found. length found.items ≤ length words.now) }
    ensures slots { IfOk result (λ found. option_map (λ others. (map byte_slot found.items, others))
        (grammar.each_write (drop (length found.items) (lent words.now)))
        ≡ grammar.resolution_of (lent words.now)) }
{
    let mut slots = Vec::new(alloc);
    for word in words {
        match slot(alloc, word) {
            Ok(slot) => slots.push(slot)?,
            Err(Unread::Malformed) => break,
            Err(Unread::Memory) => return Err(AllocError),
        }
    }
    Ok(slots)
}

// Slots, and after them other writes.
fn resolution(alloc: Global, words: &[&[u8]]) -> Result<Resolution<ByteKey, ByteValue>, Unread>
    ensures { Reads resolution_view result (grammar.resolution_of (lent words.now)) }
{
    let slots = slots(alloc, words)?;
    let others = writes(alloc, &words[slots.len()..])?;
    Ok(Resolution { slots, others })
}

/// What is done with keys that are read through a batch: it becomes a staged one, or has more of them.
#[derive(Clone, Copy)]
pub enum KeyedForm {
    Stage,
    Expand,
}

/// A batch, and one key or more.
pub fn keyed(alloc: Global, form: KeyedForm, words: &[&[u8]]) -> Result<ByteCommand, Unread>
    ensures { Reads byte_line result (grammar.keyed_of (keyed_line form) (lent words.now)) }
{
    let Some((handle, words)) = words.split_first() else {
        return Err(Unread::Malformed);
    };
    let handle = number(handle)?;
    let keys = some_keys(alloc, words)?;
    match form {
        KeyedForm::Stage => Ok(Command::Staged(StagedCommand::Stage(handle, keys))),
        KeyedForm::Expand => Ok(Command::Staged(StagedCommand::Expand(handle, keys))),
    }
}

/// What becomes of the keys of a staged batch, after what every merkleize says.
pub fn resolve(alloc: Global, words: &[&[u8]]) -> Result<ByteCommand, Unread>
    ensures { Reads byte_line result (grammar.resolve_of (lent words.now)) }
{
    let [handle, policy, metadata, rest @ ..] = words else {
        return Err(Unread::Malformed);
    };
    let resolution = resolution(alloc, rest)?;
    let m = parse_merkleizing(alloc, handle, policy, metadata)?;
    Ok(Command::Staged(StagedCommand::Resolve(m.handle, m.policy, m.metadata, resolution)))
}
