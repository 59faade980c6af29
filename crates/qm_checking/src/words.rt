//! The words of a check.

ghost use Rattle.std.specs.Prelude.{◌≡◌, ◌≤◌, length, map, ◌∷◌, option_map, option_and_then, is_some, IfOk, IfSome};
ghost use Rattle.std.specs.String.{string_bytes};
ghost use Rattle.hex.specs.Hex.{decode_of};
ghost use Rattle.qm_machine.specs.Grammar.{within, key_of, value_of};
ghost use Rattle.qm_client.specs.Claims.{has, lacks};
ghost use Rattle.qm_client.specs.Provable.{claim_view};
ghost use Rattle.qm_checking.specs.Checking.{shape_of, root_of, claim_of, asked_of, asked_named, asked_of_words};
ghost use Rattle.qm_checking.specs.Views.{trees_view, asked_view};

use hex::FromHexError;
use qm_base::{ByteKey, ByteValue, Digest};
use qm_client::Claim;
use std::alloc::{AllocError, Global};

/// A family of trees.
#[derive(Clone, Copy, Debug, PartialEq, Eq)]
pub enum Trees {
    Mmr,
    Mmb,
}

/// What is asked: over which family of trees, by which root, and what is claimed.
#[derive(Drop)]
pub struct Asked<D> {
    pub trees: Trees,
    pub root: D,
    pub claim: Claim,
}

fn trees_named(word: &str) -> Option<Trees>
    ensures { option_map trees_view result ≡ shape_of word.now }
{
    if word == "mmr" {
        Some(Trees::Mmr)
    } else if word == "mmb" {
        Some(Trees::Mmb)
    } else {
        None
    }
}

// Whether a word is so many bytes in hexadecimal.
fn spells(word: &str, low: usize, high: usize) -> bool
    requires { high ≤ 64 }
    ensures { result ≡ is_some (within low high (decode_of word.now)) }
{
    let count = word.len() / 2;
    if count < low || high < count {
        return false;
    }
    let mut room = [0; 64];
    hex::decode_to_slice(word.as_bytes(), &mut room[..count]).is_ok()
}

// Whether the words claim that a key has a value, or that it has none.
fn is_claim(words: &[String]) -> bool
    ensures { result ≡ is_some (claim_of (map string_bytes words.now)) }
{
    if words.len() == 2 {
        words[0].as_str() == "absent" && spells(words[1].as_str(), 1, 32)
    } else if words.len() == 3 {
        words[0].as_str() == "held"
            && spells(words[1].as_str(), 1, 32)
            && (words[2].as_str() == "-" || spells(words[2].as_str(), 1, 64))
    } else {
        false
    }
}

/// Whether the words after the program's name are those of a check, by a root of this size. It takes no memory.
pub fn are_words<D: Digest>(words: &[String]) -> bool
    requires { D.SIZE ≤ 64 }
    ensures { result ≡ is_some (asked_of_words D.SIZE (map string_bytes words.now)) }
{
    words.len() >= 3
        && words[0].as_str() == "check"
        && trees_named(words[1].as_str()).is_some()
        && spells(words[2].as_str(), D::SIZE, D::SIZE)
        && is_claim(&words[3..])
}

// The bytes that a word is in hexadecimal, if it is so many.
fn bytes_within(
    alloc: Global,
    word: &str,
    low: usize,
    high: usize,
) -> Result<Option<Vec<u8>>, AllocError>
    ensures bytes { IfOk result (λ found.
        option_map (λ bytes. bytes.items) found ≡ within low high (decode_of word.now)) }
    ensures few { IfOk result (λ found. IfSome found (λ bytes. length bytes.items ≤ high)) }
{
    match hex::decode(alloc, word.as_bytes()) {
        Ok(bytes) if low <= bytes.len() && bytes.len() <= high => Ok(Some(bytes)),
        Err(FromHexError::OutOfMemory) => Err(AllocError),
        Ok(_) | Err(_) => Ok(None),
    }
}

// A key of 1 to 32 bytes.
fn key(alloc: Global, word: &str) -> Result<Option<ByteKey>, AllocError>
    ensures { IfOk result (λ key. key ≡ key_of word.now) }
{
    match bytes_within(alloc, word, 1, 32)? {
        Some(bytes) => Ok(Some(ByteKey::new(bytes))),
        None => Ok(None),
    }
}

// A dash, or a value of 1 to 64 bytes.
fn value(alloc: Global, word: &str) -> Result<Option<ByteValue>, AllocError>
    ensures { IfOk result (λ value. value ≡ value_of word.now) }
{
    if word == "-" {
        return Ok(Some(ByteValue::new(Vec::new(alloc))));
    }
    match bytes_within(alloc, word, 1, 64)? {
        Some(bytes) => Ok(Some(ByteValue::new(bytes))),
        None => Ok(None),
    }
}

// A root: so many bytes.
fn root<D: Digest>(alloc: Global, word: &str) -> Result<Option<D>, AllocError>
    ensures { IfOk result (λ root. option_map D.bytes root ≡ root_of D.SIZE word.now) }
{
    match bytes_within(alloc, word, D::SIZE, D::SIZE)? {
        Some(bytes) => Ok(D::from_bytes(&bytes)),
        None => Ok(None),
    }
}

// That a key has a value.
fn held(alloc: Global, key_word: &str, value_word: &str) -> Result<Option<Claim>, AllocError>
    ensures { IfOk result (λ claim. option_map claim_view claim
        ≡ option_and_then (λ key. option_map (has key) (value_of value_word.now))
        (key_of key_word.now)) }
{
    let Some(key) = key(alloc, key_word)? else {
        return Ok(None);
    };
    match value(alloc, value_word)? {
        Some(value) => Ok(Some(Claim::Has(key, value))),
        None => Ok(None),
    }
}

// That a key has none.
fn absent(alloc: Global, word: &str) -> Result<Option<Claim>, AllocError>
    ensures { IfOk result (λ claim. option_map claim_view claim
        ≡ option_map lacks (key_of word.now)) }
{
    match key(alloc, word)? {
        Some(key) => Ok(Some(Claim::Lacks(key))),
        None => Ok(None),
    }
}

// What the words claim.
fn claim(alloc: Global, words: &[String]) -> Result<Option<Claim>, AllocError>
    ensures { IfOk result (λ claim. option_map claim_view claim
        ≡ claim_of (map string_bytes words.now)) }
{
    if words.len() == 2 && words[0].as_str() == "absent" {
        absent(alloc, words[1].as_str())
    } else if words.len() == 3 && words[0].as_str() == "held" {
        held(alloc, words[1].as_str(), words[2].as_str())
    } else {
        Ok(None)
    }
}

// What the words behind the name of a check ask.
fn asked_by<D: Digest>(
    alloc: Global,
    trees: &str,
    root_word: &str,
    words: &[String],
) -> Result<Option<Asked<D>>, AllocError>
    ensures { IfOk result (λ asked. option_map (asked_view D.bytes) asked
        ≡ asked_of D.SIZE (trees.now ∷ root_word.now ∷ map string_bytes words.now)) }
{
    let Some(trees) = trees_named(trees) else {
        return Ok(None);
    };
    let Some(root) = root(alloc, root_word)? else {
        return Ok(None);
    };
    match claim(alloc, words)? {
        Some(claim) => Ok(Some(Asked { trees, root, claim })),
        None => Ok(None),
    }
}

/// What the words after the program's name ask, if they are those of a check: `check`, then `mmr` or `mmb`, a root, and then `held`, a
/// key and its value, or `absent` and a key, each in hexadecimal. Want of memory is the only error.
pub fn parse_words<D: Digest>(
    alloc: Global,
    words: &[String],
) -> Result<Option<Asked<D>>, AllocError>
    ensures { IfOk result (λ asked. option_map (asked_view D.bytes) asked
        ≡ asked_of_words D.SIZE (map string_bytes words.now)) }
{
    if words.len() < 3 || words[0].as_str() != "check" {
        return Ok(None);
    }
    asked_by(alloc, words[1].as_str(), words[2].as_str(), &words[3..])
}
