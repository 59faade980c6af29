//! What a database offers to a run.

ghost use Rattle.std.specs.Prelude.{◌≡◌, ⊤, length};
ghost use Rattle.std.proofs.Common.{ap, le_refl};
ghost use Rattle.qm_model.specs.Live.{floor};
ghost use Rattle.qm_merkle.proofs.Standing.{peaks-none};
ghost use Rattle.qm_any.specs.Databases.{IsDatabase, IsBegun, IsStaged, IsMade, staged_keys};
ghost use Rattle.qm_any.specs.Offered.{sha256_hashing, sha256_layout, scheme_of};

mod batches;
mod durable;
pub(crate) mod listed;
mod making;
mod ordered;
mod proofs;
pub(crate) mod ranges;
mod reads;
mod staged;

use crate::batch::{MerkleizedBatch, UnmerkleizedBatch};
use crate::db::Db;
use crate::staged::Staged;
use qm_base::{Digest, Location, Sha256, Sha256Digest};
use qm_bits::Chunks;
use qm_index::{Factory, FourCap};
use qm_merkle::Family;
use qm_offer::{BatchSizes, Common, Engine, Meaning, Numbers};
use qm_operations::Update;
use qm_step::kind::Steps;
use qm_store::Store;
use std::rc::Rc;

impl<
    F: Family,
    C: Store + Drop,
    I: qm_index::Unordered<Value = Location<F>> + Drop,
    U: Update,
    N: Chunks,
> Meaning<C> for Db<F, C, I, Sha256, U, N> {
    type Batch = UnmerkleizedBatch<F, Sha256Digest, U>;

    type Staged = Staged<F, Sha256Digest, U>;

    type Merkleized = Rc<MerkleizedBatch<F, Sha256Digest, U>>;

    ghost inside = { λ db. db.log.store };

    ghost stands = { λ db list. IsDatabase C.Store (sha256_layout F.shape N.LEN U.form I.index_key) db list };

    ghost numbered = { λ db n. ⊤ };

    ghost is_batch = { λ b chain above ws. IsBegun (sha256_hashing F.shape U.form) b chain above × (b.writes ≡ ws) };

    ghost is_staged = { λ s chain above ws keys. IsStaged (sha256_hashing F.shape U.form) s chain above × (s.batch.writes ≡ ws) × (staged_keys s ≡ keys) };

    ghost count = { λ s. length (staged_keys s) };

    ghost counted = { λ s chain above ws keys is. ap length is.2 };

    ghost is_merkleized = { λ b chain tip. IsMade (sha256_hashing F.shape U.form) b.value chain tip };

    ghost evictions = { λ b. b.value.evicted };

    ghost scheme = { scheme_of 32 (sha256_hashing F.shape U.form) };

    ghost formed = { λ x list is. is.lent.of };

    ghost made_formed = { λ b chain tip is. is.of };
}

impl<
    F: Family,
    C: Store + Drop,
    I: qm_index::Unordered<Value = Location<F>> + Drop,
    U: Update,
    N: Chunks,
> Common<C> for Db<F, C, I, Sha256, U, N> {
    type Family = F;

    type Key = U::Key;

    type Value = U::Value;

    type Digest = Sha256Digest;

    fn is_ordered() -> bool {
        U::is_ordered()
    }

    fn is_current() -> bool {
        false
    }

    fn info(&self) -> Numbers {
        let (start, size) = self.bounds();
        Numbers {
            start: start.get(),
            size: size.get(),
            floor: self.inactivity_floor_loc().get(),
            boundary: self.sync_boundary().get(),
            is_live: !self.is_empty(),
        }
    }

    fn sizes(batch: &Self::Merkleized) -> BatchSizes {
        let bounds = batch.bounds();
        let floor = bounds.inactivity_floor.get();
        BatchSizes {
            base: bounds.base.size,
            tip: bounds.tip.size,
            floor,
            boundary: floor,
        }
    }

    ghost bare = { peaks-none F.shape F.births F.numbered F.peaked };

    ghost bounds = { record { low = λ list. le_refl (floor list); chunks = tt; prompt = tt; over = tt } };
}

impl<
    F: Family,
    C: Store + Drop,
    I: Factory<Value = Location<F>, Translator = FourCap> + Drop,
    U: Steps<F, I>,
    N: Chunks,
> Engine<C> for Db<F, C, I, Sha256, U, N> {}
