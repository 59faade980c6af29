//! Proofs that an operation stands in a list, and is active.

ghost use Rattle.std.specs.Prelude.{◌≡◌, ◌⊎◌, ◌≤◌, ◌<◌, ◌^◌, ◌%◌, ℕ, true, List, length};
ghost use Rattle.qm_model.specs.Operations.{Operation};
ghost use Rattle.qm_model.specs.Forms.{Form};
ghost use Rattle.qm_model.specs.Bits.{has_bit};
ghost use Rattle.qm_model.specs.Grafted as grafted;
ghost use Rattle.qm_model.specs.Proofs.{Collides};
ghost use Rattle.qm_model.specs.RangeProofs.{OperationSays, operation_verdict, operation_inputs, canonical_inputs};
ghost use Rattle.qm_graft.specs.Grafting.{grafting};
ghost use Rattle.qm_keyproofs.specs.Views.{operation_view};

use crate::chunk::ChunkBytes;
use crate::claim::One;
use crate::range::RangeProof;
use qm_base::{Digest, Hasher, Location, Spelled};
use qm_bits::Chunks;
use qm_chunks::Graftable;
use qm_graft::grafted::height;
use qm_merkle::StandardHasher;

/// A proof that an operation stands at a location and is active: the chunk of the location, and the range proof of it alone.
#[derive(Drop)]
pub struct OperationProof<F, N: Chunks, D> {
    pub loc: Location<F>,
    pub chunk: ChunkBytes<N>,
    pub range_proof: RangeProof<D>,
}

impl<F: Graftable, N: Chunks, D: Digest> OperationProof<F, N, D> {
    /// Whether the proof shows that this item stands at its location and is active, in the list of this canonical root. It takes
    /// no memory. Of a root that is no list's a yes says nothing, and of a list's root no more than the hash bears.
    pub fn verify<H: Hasher<Digest = D>, E: Spelled>(
        &self,
        hasher: &mut StandardHasher<H>,
        item: &E,
        root: &D,
    ) -> bool
        ensures answer { result
            ≡ operation_verdict H.hash F.shape (grafting N.LEN) (operation_view D.bytes self.now)
            (E.spelling item.now) (D.bytes root.now) }
        ensures speaks { (form : Form) (ops : List Operation) → length ops ≤ 2 ^ 62
            → D.bytes root.now ≡ grafted.canonical H.hash F.shape (grafting N.LEN) form ops
            → result ≡ true
            → OperationSays form ops self.now.loc (E.spelling item.now)
            ⊎ Collides H.hash (operation_inputs H.hash F.shape (grafting N.LEN)
            (operation_view D.bytes self.now) (E.spelling item.now))
            (canonical_inputs H.hash F.shape (grafting N.LEN) form ops) }
    {
        let height = height::<N>();
        if !is_set(&self.chunk.bytes, place_in_chunk(height, self.loc.get())) {
            return false;
        }
        let claim = One {
            item,
            start: self.loc.get(),
            chunk: &self.chunk.bytes,
            height,
        };
        self.range_proof.shows::<F, H, One<E>>(hasher, &claim, root)
    }
}

// Where in its chunk the bit of a location stands.
fn place_in_chunk(height: u32, location: u64) -> u64
    requires { height < 64 }
    ensures { result ≡ location % 2 ^ height }
{
    location % (1 << height)
}

// Whether a chunk has this bit, and it is set.
fn is_set(chunk: &[u8], at: u64) -> bool
    ensures { result ≡ has_bit chunk.now at }
{
    let byte = match chunk.get((at / 8) as usize) {
        Some(byte) => *byte,
        None => 0,
    };
    (byte >> (at % 8)) & 1 == 1
}
