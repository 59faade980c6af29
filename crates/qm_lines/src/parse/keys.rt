// Keys, values and what stands in their place.
ghost use Rattle.std.specs.Prelude.{option_map};
ghost use Rattle.hex.specs.Hex.{decode_of};
ghost use Rattle.qm_machine.specs.Grammar as grammar;
ghost use Rattle.qm_lines.specs.Parsed.{Reads, lent, with_keys};

use super::numbers::named_number;
use super::pieces::is;
use super::unread::Unread;
use hex::FromHexError;
use qm_base::{ByteKey, ByteValue};
use std::alloc::Global;
use std::marker::Model;

// Between `low` and `high` bytes in hexadecimal.
fn bytes_within(alloc: Global, word: &[u8], low: usize, high: usize) -> Result<Vec<u8>, Unread>
    ensures { Reads (λ bytes. bytes.items) result (grammar.within low high (decode_of word.now)) }
{
    match hex::decode(alloc, word) {
        Ok(bytes) if low <= bytes.len() && bytes.len() <= high => Ok(bytes),
        Ok(_) => Err(Unread::Malformed),
        Err(FromHexError::OutOfMemory) => Err(Unread::Memory),
        Err(_) => Err(Unread::Malformed),
    }
}

/// A key of 1 to 32 bytes.
pub fn key(alloc: Global, word: &[u8]) -> Result<ByteKey, Unread>
    ensures { Reads (λ key. key) result (grammar.key_of word.now) }
{
    Ok(ByteKey::new(bytes_within(alloc, word, 1, 32)?))
}

/// A dash, or a value of 1 to 64 bytes.
pub fn value(alloc: Global, word: &[u8]) -> Result<ByteValue, Unread>
    ensures { Reads (λ value. value) result (grammar.value_of word.now) }
{
    if is(word, b"-") {
        return Ok(ByteValue::new(Vec::new(alloc)));
    }
    Ok(ByteValue::new(bytes_within(alloc, word, 1, 64)?))
}

/// A word for none, or a value.
pub fn metadata(alloc: Global, word: &[u8]) -> Result<Option<ByteValue>, Unread>
    ensures { Reads (λ metadata. metadata) result (grammar.metadata_of word.now) }
{
    if is(word, b"none") {
        return Ok(None);
    }
    Ok(Some(value(alloc, word)?))
}

// These words as keys, if each is one.
fn each_key(alloc: Global, words: &[&[u8]]) -> Result<Vec<ByteKey>, Unread>
    ensures { Reads (λ keys. keys.items) result (grammar.each_key (lent words.now)) }
{
    let mut keys = Vec::new(alloc);
    for word in words {
        keys.push(key(alloc, word)?)?;
    }
    Ok(keys)
}

/// These words as keys, if each is one and there is any.
pub fn some_keys(alloc: Global, words: &[&[u8]]) -> Result<Vec<ByteKey>, Unread>
    ensures { Reads (λ keys. keys.items) result (grammar.some_keys (lent words.now)) }
{
    if words.is_empty() {
        return Err(Unread::Malformed);
    }
    each_key(alloc, words)
}

/// Keys, and the batch through which they are read.
#[derive(Drop)]
pub struct Reading {
    pub keys: Vec<ByteKey>,
    pub from: Option<u64>,
}

impl Model for Reading {
    ghost Value = { grammar.Reading };

    ghost view = { λ r. (r.keys.items, r.from) };
}

// Keys, and after them a last word: the batch, or one more key.
fn end_reading(alloc: Global, mut keys: Vec<ByteKey>, last: &[u8]) -> Result<Reading, Unread>
    ensures { Reads (λ reading. reading) result
        (option_map (with_keys keys.items) (grammar.last_reading last.now)) }
{
    let from = named_number(b"from=", last);
    if from.is_none() {
        keys.push(key(alloc, last)?)?;
    }
    Ok(Reading { keys, from })
}

/// Keys, at whose end a batch may stand.
pub fn parse_reading(alloc: Global, words: &[&[u8]]) -> Result<Reading, Unread>
    ensures { Reads (λ reading. reading) result (grammar.reading_of (lent words.now)) }
{
    let Some((last, before)) = words.split_last() else {
        return Err(Unread::Malformed);
    };
    let keys = each_key(alloc, before)?;
    end_reading(alloc, keys, last)
}
