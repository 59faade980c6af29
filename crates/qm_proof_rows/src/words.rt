// The words of a check, and what they say.
use anyhow::{Context, Result, ensure};
use qm_base::{ByteString, Digest, Location, Sha256Digest};
use qm_bits::Chunk32;
use qm_keyproofs::ChunkBytes;
use qm_merkle::mmr::Family;
use std::alloc::Global;

/// The words that are not read yet.
#[derive(Drop)]
pub struct Words<'a> {
    rest: &'a str,
}

impl<'a> Words<'a> {
    /// The words of a check.
    pub fn new(check: &'a str) -> Words<'a> {
        Words { rest: check }
    }

    /// The next word.
    pub fn next(&mut self) -> Result<&'a str> {
        let (word, rest) = self.rest.split_once(' ').unwrap_or((self.rest, ""));
        ensure!(!word.is_empty(), "too few words");
        self.rest = rest;
        Ok(word)
    }

    /// Says that all are read.
    pub fn end(&self) -> Result<()> {
        ensure!(self.rest.is_empty(), "more words: {}", self.rest);
        Ok(())
    }

    pub fn number(&mut self) -> Result<u64> {
        let word = self.next()?;
        word.parse().context("no number")
    }

    pub fn location(&mut self) -> Result<Location<Family>> {
        Ok(Location::new(self.number()?))
    }

    /// A key or a value.
    pub fn byte_string<B: ByteString>(&mut self, alloc: Global) -> Result<B> {
        byte_string(alloc, self.next()?)
    }

    /// A value, or `none`.
    pub fn byte_string_if_any<B: ByteString>(&mut self, alloc: Global) -> Result<Option<B>> {
        match self.next()? {
            "none" => Ok(None),
            word => Ok(Some(byte_string(alloc, word)?)),
        }
    }

    pub fn digest(&mut self, alloc: Global) -> Result<Sha256Digest> {
        digest(&bytes(alloc, self.next()?)?)
    }

    /// A digest, or `none`.
    pub fn digest_if_any(&mut self, alloc: Global) -> Result<Option<Sha256Digest>> {
        match self.next()? {
            "none" => Ok(None),
            word => Ok(Some(digest(&bytes(alloc, word)?)?)),
        }
    }

    pub fn digests(&mut self, alloc: Global) -> Result<Vec<Sha256Digest>> {
        let mut digests = Vec::new(alloc);
        for bytes in self.items(alloc)? {
            digests.push(digest(&bytes)?)?;
        }
        Ok(digests)
    }

    pub fn chunk(&mut self, alloc: Global) -> Result<ChunkBytes<Chunk32>> {
        chunk(bytes(alloc, self.next()?)?)
    }

    pub fn chunks(&mut self, alloc: Global) -> Result<Vec<ChunkBytes<Chunk32>>> {
        let mut chunks = Vec::new(alloc);
        for bytes in self.items(alloc)? {
            chunks.push(chunk(bytes)?)?;
        }
        Ok(chunks)
    }

    /// A list of byte strings.
    pub fn items(&mut self, alloc: Global) -> Result<Vec<Vec<u8>>> {
        let mut items = Vec::new(alloc);
        let word = self.next()?;
        if word == "-" {
            return Ok(items);
        }
        for item in word.split(',') {
            items.push(bytes(alloc, item)?)?;
        }
        Ok(items)
    }
}

fn bytes(alloc: Global, word: &str) -> Result<Vec<u8>> {
    let digits = if word == "-" { "" } else { word };
    Ok(hex::decode(alloc, digits)?)
}

fn byte_string<B: ByteString>(alloc: Global, word: &str) -> Result<B> {
    let bytes = bytes(alloc, word)?;
    ensure!(B::is_of(&bytes), "too long: {word}");
    Ok(B::from_bytes(alloc, &bytes)?)
}

fn digest(bytes: &[u8]) -> Result<Sha256Digest> {
    Sha256Digest::from_bytes(bytes).context("a digest has 32 bytes")
}

fn chunk(bytes: Vec<u8>) -> Result<ChunkBytes<Chunk32>> {
    ChunkBytes::new(bytes).context("a chunk has 32 bytes")
}
