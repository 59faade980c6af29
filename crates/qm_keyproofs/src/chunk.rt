//! The bytes of a chunk of activity bits.

ghost use Rattle.std.specs.Prelude.{◌≡◌, ◌↔◌, IsSome, IfSome, length};

use qm_bits::Chunks;
use std::marker::PhantomData;

/// A chunk of activity bits: as many bytes as chunks of this length have. The first bit of a byte is its lowest.
#[derive(Drop)]
pub struct ChunkBytes<N: Chunks> {
    pub bytes: Vec<u8>,
    chunks: PhantomData<N>,
    ghost whole: { length bytes.items ≡ N.LEN },
}

impl<N: Chunks> ChunkBytes<N> {
    /// The chunk of these bytes, exactly if there are as many as a chunk has.
    pub fn new(bytes: Vec<u8>) -> Option<Self>
        ensures some { IsSome result ↔ (length bytes.items ≡ N.LEN) }
        ensures bytes { IfSome result (λ chunk. chunk.bytes.items ≡ bytes.items) }
    {
        if bytes.len() == N::LEN {
            Some(ChunkBytes {
                bytes,
                chunks: PhantomData,
            })
        } else {
            None
        }
    }
}
