//! What a proof is claimed to show.

ghost use Rattle.std.specs.Prelude.{◌≡◌, ◌<◌, ℕ, ◌∷◌, [], length, map, slice_index_or};
ghost use Rattle.qm_model.specs.Trees as trees;
ghost use Rattle.qm_keyproofs.specs.Claims.{Claim};
ghost use Rattle.qm_keyproofs.specs.Views.{chunk_views};

use crate::chunk::ChunkBytes;
use qm_base::{Hasher, Spelled};
use qm_bits::Chunks;
use qm_merkle::{Position, StandardHasher};

/// Items that are claimed to stand from a location on, with the chunks of their locations.
pub trait Claimed {
    ghost claim: { Self → Claim };

    /// How many items there are.
    fn count(&self) -> u64
        ensures { result ≡ length (claim self.now).items };

    /// The location of the first of them.
    fn start(&self) -> u64
        ensures { result ≡ (claim self.now).start };

    /// How many chunks there are.
    fn chunk_count(&self) -> u64
        ensures { result ≡ length (claim self.now).chunks };

    /// The height of the nodes over chunks.
    fn height(&self) -> u32
        ensures { result ≡ (claim self.now).height };

    /// The digest of the leaf at this position with the item of this number.
    fn leaf_digest<F, H: Hasher>(
        &self,
        hasher: &mut StandardHasher<H>,
        position: Position<F>,
        number: u64,
    ) -> H::Digest
        requires { number < length (claim self.now).items }
        ensures { H.Digest.bytes result
            ≡ trees.leaf_digest H.hash position (slice_index_or (claim self.now).items number []) };

    /// The chunk of this number, without bytes if there is none.
    fn chunk(&self, number: u64) -> &[u8]
        ensures { result.now ≡ slice_index_or (claim self.now).chunks number [] };
}

/// Items in a row.
#[derive(Drop)]
pub struct Items<'a, E, N: Chunks> {
    pub items: &'a [E],
    pub start: u64,
    pub chunks: &'a [ChunkBytes<N>],
    pub height: u32,
}

impl<'a, E: Spelled, N: Chunks> Claimed for Items<'a, E, N> {
    ghost claim = { λ c. record { items = map E.spelling c.items.now; start = c.start; chunks = chunk_views c.chunks.now; height = c.height } };

    fn count(&self) -> u64 {
        self.items.len() as u64
    }

    fn start(&self) -> u64 {
        self.start
    }

    fn chunk_count(&self) -> u64 {
        self.chunks.len() as u64
    }

    fn height(&self) -> u32 {
        self.height
    }

    fn leaf_digest<F, H: Hasher>(
        &self,
        hasher: &mut StandardHasher<H>,
        position: Position<F>,
        number: u64,
    ) -> H::Digest {
        hasher.leaf_digest_of(position, &self.items[number as usize])
    }

    fn chunk(&self, number: u64) -> &[u8] {
        match self.chunks.get(number as usize) {
            Some(chunk) => &chunk.bytes,
            None => &[],
        }
    }
}

/// One item.
#[derive(Drop)]
pub struct One<'a, E> {
    pub item: &'a E,
    pub start: u64,
    pub chunk: &'a [u8],
    pub height: u32,
}

impl<'a, E: Spelled> Claimed for One<'a, E> {
    ghost claim = { λ c. record { items = E.spelling c.item.now ∷ []; start = c.start; chunks = c.chunk.now ∷ []; height = c.height } };

    fn count(&self) -> u64 {
        1
    }

    fn start(&self) -> u64 {
        self.start
    }

    fn chunk_count(&self) -> u64 {
        1
    }

    fn height(&self) -> u32 {
        self.height
    }

    fn leaf_digest<F, H: Hasher>(
        &self,
        hasher: &mut StandardHasher<H>,
        position: Position<F>,
        _number: u64,
    ) -> H::Digest {
        hasher.leaf_digest_of(position, self.item)
    }

    fn chunk(&self, number: u64) -> &[u8] {
        if number == 0 { self.chunk } else { &[] }
    }
}
