//! What a current database offers to a run.

ghost use Rattle.std.specs.Prelude.{◌≡◌, length};
ghost use Rattle.std.proofs.Common.{ap, arith, refl};
ghost use Rattle.qm_merkle.proofs.Standing.{peaks-none};
ghost use Rattle.qm_any.specs.Databases.{staged_keys};
ghost use Rattle.qm_any.specs.Offered.{sha256_hashing, sha256_layout};
ghost use Rattle.qm_current.specs.Databases.{IsBegun, IsMade, IsStaged};
ghost use Rattle.qm_current.specs.Offered.{IsOffered, offered_chunk, offered_name, scheme_of};
ghost use Rattle.qm_pinned.proofs.Bounds.{chunk-bounds};
ghost use Rattle.sha2.proofs.Facts256.{length-sha256};
ghost use Rattle.sha2.specs.Sha256.{sha256};

mod batches;
mod durable;
mod making;
mod ordered;
mod proofs;
mod reads;
mod showing;
mod staged;

use crate::batch::{MerkleizedBatch, UnmerkleizedBatch};
use crate::db::Db;
use crate::staged::Staged;
use qm_base::{Location, Sha256, Sha256Digest};
use qm_bits::Chunk32;
use qm_chunks::Graftable;
use qm_index::{Factory, FourCap};
use qm_offer::{BatchSizes, Common, Engine, Meaning, Numbers};
use qm_operations::Update;
use qm_step::kind::Steps;
use qm_store::Store;
use std::rc::Rc;

impl<
    F: Graftable,
    C: Store + Drop,
    I: qm_index::Unordered<Value = Location<F>> + Drop,
    U: Update,
> Meaning<C> for Db<F, C, I, Sha256, U, Chunk32> {
    type Batch = UnmerkleizedBatch<F, Sha256Digest, U, Chunk32>;

    type Staged = Staged<F, Sha256Digest, U, Chunk32>;

    type Merkleized = Rc<MerkleizedBatch<F, Sha256Digest, U, Chunk32>>;

    ghost inside = { λ db. db.any.log.store };

    ghost stands = { λ db list. IsOffered C.Store (sha256_layout F.shape offered_chunk U.form I.index_key) db list };

    ghost numbered = { λ db n. db.instance ≡ n };

    ghost is_batch = { λ b chain above ws. IsBegun (sha256_hashing F.shape U.form) offered_chunk b chain above × (b.any.writes ≡ ws) };

    ghost is_staged = { λ s chain above ws keys. IsStaged (sha256_hashing F.shape U.form) offered_chunk s chain above × (s.any.batch.writes ≡ ws) × (staged_keys s.any ≡ keys) };

    ghost count = { λ s. length (staged_keys s.any) };

    ghost counted = { λ s chain above ws keys is. ap length is.2 };

    ghost is_merkleized = { λ b chain tip. IsMade (sha256_hashing F.shape U.form) offered_chunk b.value chain tip };

    ghost evictions = { λ b. b.value.any.evicted };

    ghost scheme = { scheme_of 32 (sha256_layout F.shape offered_chunk U.form I.index_key) offered_name };

    ghost formed = { λ x list is. is.at.any.lent.of };

    ghost made_formed = { λ b chain tip is. is.any.of };
}

impl<
    C: Store + Drop,
    I: qm_index::Unordered<Value = Location<F>> + Drop,
    F: Graftable,
    U: Update,
> Common<C> for Db<F, C, I, Sha256, U, Chunk32> {
    type Family = F;

    type Key = U::Key;

    type Value = U::Value;

    type Digest = Sha256Digest;

    fn is_ordered() -> bool {
        U::is_ordered()
    }

    fn is_current() -> bool {
        true
    }

    fn info(&self) -> Numbers {
        let (start, size) = self.any.bounds();
        Numbers {
            start: start.get(),
            size: size.get(),
            floor: self.any.inactivity_floor_loc().get(),
            boundary: self.sync_boundary().get(),
            is_live: !self.any.is_empty(),
        }
    }

    fn sizes(batch: &Self::Merkleized) -> BatchSizes {
        let bounds = batch.any.bounds();
        BatchSizes {
            base: bounds.base.size,
            tip: bounds.tip.size,
            floor: bounds.inactivity_floor.get(),
            boundary: batch.sync_boundary().get(),
        }
    }

    ghost bare = { peaks-none F.shape F.births F.numbered F.peaked };

    ghost bounds = { let b = chunk-bounds F.shape F.births F.numbered F.peaked F.ready sha256 32 length-sha256 offered_chunk U.form offered_name (Prim.omega arith) in record { low = b.low; chunks = b.chunks; prompt = b.prompt; over = b.over } };
}

impl<
    F: Graftable,
    C: Store + Drop,
    I: Factory<Value = Location<F>, Translator = FourCap> + Drop,
    U: Steps<F, I>,
> Engine<C> for Db<F, C, I, Sha256, U, Chunk32> {}
