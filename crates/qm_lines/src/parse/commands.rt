// Each command, of the words after its name.
ghost use Rattle.std.specs.Prelude.{◌≡◌, ℕ, Option, option_map};
ghost use Rattle.qm_model.specs.Operations.{Bytes};
ghost use Rattle.qm_model.specs.Policies.{Policy};
ghost use Rattle.qm_machine.specs.Grammar as grammar;
ghost use Rattle.qm_machine.specs.Lines.{Line};
ghost use Rattle.qm_lines.specs.Parsed.{Reads, byte_line, key_line, lent, read_line};

use super::ByteCommand;
use super::keys::{Reading, key, parse_reading, value};
use super::merkleize::merkleize;
use super::numbers::{named_number, number, positive};
use super::pieces::is;
use super::ranges::{RangeForm, range};
use super::staged::{KeyedForm, keyed, resolve};
use super::unread::Unread;
use crate::command::{
    BatchCommand, Command, InfoCommand, MakingCommand, Question, ReadCommand, StoreCommand,
};
use qm_base::ByteKey;
use std::alloc::Global;

// No word more.
fn alone(words: &[&[u8]], command: ByteCommand) -> Result<ByteCommand, Unread>
    ensures { Reads byte_line result (grammar.alone (byte_line command) (lent words.now)) }
{
    words.is_empty().then_some(command).ok_or(Unread::Malformed)
}

// One number more.
fn only_number(words: &[&[u8]]) -> Result<u64, Unread>
    ensures { Reads (λ n. n) result (grammar.only_number (lent words.now)) }
{
    match words {
        [word] => number(word),
        _ => Err(Unread::Malformed),
    }
}

fn info(words: &[&[u8]]) -> Result<ByteCommand, Unread>
    ensures { Reads byte_line result (grammar.info_of (lent words.now)) }
{
    if words.is_empty() {
        return Ok(Command::Info(InfoCommand::Info));
    }
    let handle = only_number(words)?;
    Ok(Command::Info(InfoCommand::BatchInfo(handle)))
}

fn root(words: &[&[u8]]) -> Result<ByteCommand, Unread>
    ensures { Reads byte_line result (grammar.root_of (lent words.now)) }
{
    if words.is_empty() {
        return Ok(Command::Info(InfoCommand::Root));
    }
    let handle = only_number(words)?;
    Ok(Command::Info(InfoCommand::BatchRoot(handle)))
}

// Perhaps up to a size.
fn open(words: &[&[u8]]) -> Result<ByteCommand, Unread>
    ensures { Reads byte_line result (grammar.open_of (lent words.now)) }
{
    match words {
        [] => Ok(Command::Store(StoreCommand::Open(None))),
        [word] => {
            let bound = named_number(b"max=", word).ok_or(Unread::Malformed)?;
            Ok(Command::Store(StoreCommand::Open(Some(bound))))
        }
        _ => Err(Unread::Malformed),
    }
}

// Of a batch, and perhaps of how many ancestors are kept.
fn child(words: &[&[u8]]) -> Result<ByteCommand, Unread>
    ensures { Reads byte_line result (grammar.child_of (lent words.now)) }
{
    match words {
        [handle] => Ok(Command::Batch(BatchCommand::Child(number(handle)?, None))),
        [handle, word] => {
            let kept = named_number(b"keep=", word).ok_or(Unread::Malformed)?;
            Ok(Command::Batch(BatchCommand::Child(number(handle)?, Some(kept))))
        }
        _ => Err(Unread::Malformed),
    }
}

fn put(alloc: Global, words: &[&[u8]]) -> Result<ByteCommand, Unread>
    ensures { Reads byte_line result (grammar.put_of (lent words.now)) }
{
    let [handle, key_word, value_word] = words else {
        return Err(Unread::Malformed);
    };
    let handle = number(handle)?;
    let key = key(alloc, key_word)?;
    let value = value(alloc, value_word)?;
    Ok(Command::Batch(BatchCommand::Put(handle, key, value)))
}

fn del(alloc: Global, words: &[&[u8]]) -> Result<ByteCommand, Unread>
    ensures { Reads byte_line result (grammar.del_of (lent words.now)) }
{
    let [handle, key_word] = words else {
        return Err(Unread::Malformed);
    };
    let handle = number(handle)?;
    let key = key(alloc, key_word)?;
    Ok(Command::Batch(BatchCommand::Del(handle, key)))
}

fn prove(words: &[&[u8]]) -> Result<ByteCommand, Unread>
    ensures { Reads byte_line result (grammar.prove_of (lent words.now)) }
{
    let [size, start, most] = words else {
        return Err(Unread::Malformed);
    };
    let size = number(size)?;
    let start = number(start)?;
    let most = positive(most)?;
    Ok(Command::Info(InfoCommand::Prove(size, start, most)))
}

// A key, and the batch through which it is read.
#[derive(Drop)]
struct OneRead {
    key: ByteKey,
    from: Option<u64>,
}

fn one_read(mut reading: Reading) -> Option<OneRead>
    ensures { (line : Bytes → Option ℕ → Line Policy)
        → option_map (λ read. line read.key read.from) result ≡ grammar.one_read line reading }
{
    let key = reading.keys.pop()?;
    let from = reading.from;
    reading.keys.is_empty().then_some(OneRead { key, from })
}

/// What is read of one key, through the database or a batch.
#[derive(Clone, Copy)]
pub enum ReadForm {
    Get,
    Next,
    Prev,
}

// A key, at whose end a batch may stand.
fn read(alloc: Global, form: ReadForm, words: &[&[u8]]) -> Result<ByteCommand, Unread>
    ensures { Reads byte_line result (grammar.read_of (read_line form) (lent words.now)) }
{
    let reading = parse_reading(alloc, words)?;
    let Some(OneRead { key, from }) = one_read(reading) else {
        return Err(Unread::Malformed);
    };
    match form {
        ReadForm::Get => Ok(Command::Read(ReadCommand::Get(key, from))),
        ReadForm::Next => Ok(Command::Read(ReadCommand::Next(key, from))),
        ReadForm::Prev => Ok(Command::Read(ReadCommand::Prev(key, from))),
    }
}

fn many(alloc: Global, words: &[&[u8]]) -> Result<ByteCommand, Unread>
    ensures { Reads byte_line result (grammar.many_of (lent words.now)) }
{
    let reading = parse_reading(alloc, words)?;
    if reading.keys.is_empty() {
        return Err(Unread::Malformed);
    }
    Ok(Command::Read(ReadCommand::Many(reading.keys, reading.from)))
}

/// What is asked of one key alone.
#[derive(Clone, Copy)]
pub enum KeyForm {
    Span,
    All,
    Held,
    Absent,
}

// One key more.
fn only_key(alloc: Global, form: KeyForm, words: &[&[u8]]) -> Result<ByteCommand, Unread>
    ensures { Reads byte_line result (grammar.only_key (key_line form) (lent words.now)) }
{
    let [word] = words else {
        return Err(Unread::Malformed);
    };
    let key = key(alloc, word)?;
    match form {
        KeyForm::Span => Ok(Command::Read(ReadCommand::Span(key))),
        KeyForm::All => Ok(Command::Read(ReadCommand::All(key))),
        KeyForm::Held => Ok(Command::Info(InfoCommand::Current(Question::Held(key)))),
        KeyForm::Absent => Ok(Command::Info(InfoCommand::Current(Question::Absent(key)))),
    }
}

fn chunks(words: &[&[u8]]) -> Result<ByteCommand, Unread>
    ensures { Reads byte_line result (grammar.chunks_of (lent words.now)) }
{
    let [start, most] = words else {
        return Err(Unread::Malformed);
    };
    let start = number(start)?;
    let most = positive(most)?;
    Ok(Command::Info(InfoCommand::Current(Question::Chunks(start, most))))
}

// What a current database offers.
fn current(alloc: Global, name: &[u8], words: &[&[u8]]) -> Result<ByteCommand, Unread>
    ensures { Reads byte_line result
        (grammar.form_of name.now (lent words.now) grammar.current_forms) }
{
    if is(name, b"held") {
        only_key(alloc, KeyForm::Held, words)
    } else if is(name, b"absent") {
        only_key(alloc, KeyForm::Absent, words)
    } else if is(name, b"chunks") {
        chunks(words)
    } else if is(name, b"witness") {
        alone(
            words,
            Command::Info(InfoCommand::Current(Question::Witness)),
        )
    } else {
        Err(Unread::Malformed)
    }
}

// What makes a store last, or ends a database.
fn lasting(alloc: Global, name: &[u8], words: &[&[u8]]) -> Result<ByteCommand, Unread>
    ensures { Reads byte_line result
        (grammar.form_of name.now (lent words.now) grammar.lasting_forms) }
{
    if is(name, b"prune") {
        Ok(Command::Store(StoreCommand::Prune(only_number(words)?)))
    } else if is(name, b"commit") {
        alone(words, Command::Store(StoreCommand::Commit))
    } else if is(name, b"sync") {
        alone(words, Command::Store(StoreCommand::Sync))
    } else if is(name, b"close") {
        alone(words, Command::Store(StoreCommand::Close))
    } else if is(name, b"destroy") {
        alone(words, Command::Store(StoreCommand::Destroy))
    } else if is(name, b"crash") {
        Ok(Command::Store(StoreCommand::Crash(only_number(words)?)))
    } else {
        current(alloc, name, words)
    }
}

// What tells what a list or a batch is.
fn telling(alloc: Global, name: &[u8], words: &[&[u8]]) -> Result<ByteCommand, Unread>
    ensures { Reads byte_line result
        (grammar.form_of name.now (lent words.now) grammar.telling_forms) }
{
    if is(name, b"info") {
        info(words)
    } else if is(name, b"root") {
        root(words)
    } else if is(name, b"proof") {
        Ok(Command::Info(InfoCommand::BatchProof(only_number(words)?)))
    } else if is(name, b"meta") {
        alone(words, Command::Info(InfoCommand::Meta))
    } else if is(name, b"prove") {
        prove(words)
    } else if is(name, b"pins") {
        Ok(Command::Info(InfoCommand::Pins(only_number(words)?)))
    } else {
        lasting(alloc, name, words)
    }
}

// What reads.
fn reading(alloc: Global, name: &[u8], words: &[&[u8]]) -> Result<ByteCommand, Unread>
    ensures { Reads byte_line result
        (grammar.form_of name.now (lent words.now) grammar.reading_forms) }
{
    if is(name, b"get") {
        read(alloc, ReadForm::Get, words)
    } else if is(name, b"many") {
        many(alloc, words)
    } else if is(name, b"next") {
        read(alloc, ReadForm::Next, words)
    } else if is(name, b"prev") {
        read(alloc, ReadForm::Prev, words)
    } else if is(name, b"span") {
        only_key(alloc, KeyForm::Span, words)
    } else if is(name, b"all") {
        only_key(alloc, KeyForm::All, words)
    } else if is(name, b"range") {
        range(alloc, RangeForm::Range, words)
    } else if is(name, b"keys") {
        range(alloc, RangeForm::Keys, words)
    } else {
        telling(alloc, name, words)
    }
}

// What stages a batch, and what is done with one that is made.
fn staged(alloc: Global, name: &[u8], words: &[&[u8]]) -> Result<ByteCommand, Unread>
    ensures { Reads byte_line result
        (grammar.form_of name.now (lent words.now) grammar.staged_forms) }
{
    if is(name, b"stage") {
        keyed(alloc, KeyedForm::Stage, words)
    } else if is(name, b"expand") {
        keyed(alloc, KeyedForm::Expand, words)
    } else if is(name, b"resolve") {
        resolve(alloc, words)
    } else if is(name, b"apply") {
        Ok(Command::Making(MakingCommand::Apply(only_number(words)?)))
    } else if is(name, b"ops") {
        Ok(Command::Info(InfoCommand::Ops(only_number(words)?)))
    } else if is(name, b"evicted") {
        Ok(Command::Info(InfoCommand::Evicted(only_number(words)?)))
    } else {
        reading(alloc, name, words)
    }
}

/// The command that words are, by the first.
pub fn of_words(alloc: Global, words: &[&[u8]]) -> Result<ByteCommand, Unread>
    ensures { Reads byte_line result (grammar.of_words (lent words.now)) }
{
    let Some((name, words)) = words.split_first() else {
        return Err(Unread::Malformed);
    };
    if is(name, b"open") {
        open(words)
    } else if is(name, b"batch") {
        alone(words, Command::Batch(BatchCommand::Batch))
    } else if is(name, b"child") {
        child(words)
    } else if is(name, b"tip") {
        alone(words, Command::Batch(BatchCommand::Tip))
    } else if is(name, b"put") {
        put(alloc, words)
    } else if is(name, b"del") {
        del(alloc, words)
    } else if is(name, b"merkleize") {
        merkleize(alloc, words)
    } else {
        staged(alloc, name, words)
    }
}
