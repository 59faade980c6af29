//! The program's any databases, of either order by their updates: each offers what the database inside offers.

ghost use Rattle.std.specs.Prelude.{◌≡◌, ⊤, length};
ghost use Rattle.std.proofs.Common.{ap, le_refl};
ghost use Rattle.qm_model.specs.Live.{floor};
ghost use Rattle.qm_merkle.proofs.Standing.{peaks-none};
ghost use Rattle.qm_any.specs.Databases.{IsDatabase, IsBegun, IsStaged, IsMade, staged_keys};
ghost use Rattle.qm_any.specs.Offered.{sha256_hashing, sha256_layout, scheme_of};

mod batches;
mod durable;
mod making;
mod ordered;
mod proofs;
mod reads;
mod showing;
mod staged;
mod turns;

use crate::kind::Kind;
use qm_any::batch::{MerkleizedBatch, UnmerkleizedBatch};
use qm_any::db::Db;
use qm_any::staged::Staged;
use qm_base::{ByteKey, ByteValue, Location, Sha256, Sha256Digest};
use qm_bits::Chunk64;
use qm_index::{Factory, FourCap};
use qm_merkle::Family;
use qm_offer::{BatchSizes, Common, Engine, Meaning, Numbers};
use qm_operations::Update;
use qm_store::Store;
use std::rc::Rc;

pub(crate) type Inside<F, C, I, U> = Db<F, C, I, Sha256, U, Chunk64>;

/// A database of the program over a store: where its keys are live, and what its updates say.
#[derive(Drop)]
pub(crate) struct Database<
    F: Family,
    C: Store,
    I: qm_index::Unordered<Value = Location<F>>,
    U: Update<Key = ByteKey, Value = ByteValue>,
> {
    db: Inside<F, C, I, U>,
}

impl<
    F: Family,
    C: Store + Drop,
    I: Factory<Value = Location<F>, Translator = FourCap> + Drop,
    U: Kind<F, I, Key = ByteKey, Value = ByteValue>,
> Meaning<C> for Database<F, C, I, U> {
    type Batch = UnmerkleizedBatch<F, Sha256Digest, U>;

    type Staged = Staged<F, Sha256Digest, U>;

    type Merkleized = Rc<MerkleizedBatch<F, Sha256Digest, U>>;

    ghost inside = { λ x. x.db.log.store };

    ghost stands = { λ x list. IsDatabase C.Store (sha256_layout F.shape 64 U.form I.index_key) x.db list };

    ghost numbered = { λ x n. ⊤ };

    ghost is_batch = { λ b chain above ws. IsBegun (sha256_hashing F.shape U.form) b chain above × (b.writes ≡ ws) };

    ghost is_staged = { λ s chain above ws keys. IsStaged (sha256_hashing F.shape U.form) s chain above × (s.batch.writes ≡ ws) × (staged_keys s ≡ keys) };

    ghost count = { λ s. length (staged_keys s) };

    ghost counted = { λ s chain above ws keys is. ap length is.2 };

    ghost is_merkleized = { λ b chain tip. IsMade (sha256_hashing F.shape U.form) b.value chain tip };

    ghost evictions = { λ b. b.value.evicted };

    ghost scheme = { scheme_of 32 (sha256_hashing F.shape U.form) };

    ghost formed = { λ x list is. is.lent.of };

    ghost made_formed = { λ b chain tip is. is.of };
}

impl<
    F: Family,
    C: Store + Drop,
    I: Factory<Value = Location<F>, Translator = FourCap> + Drop,
    U: Kind<F, I, Key = ByteKey, Value = ByteValue>,
> Common<C> for Database<F, C, I, U> {
    type Family = F;

    type Key = ByteKey;

    type Value = ByteValue;

    type Digest = Sha256Digest;

    fn is_ordered() -> bool {
        U::is_ordered()
    }

    fn is_current() -> bool {
        <Inside<F, C, I, U> as Common<C>>::is_current()
    }

    fn info(&self) -> Numbers {
        <Inside<F, C, I, U> as Common<C>>::info(&self.db)
    }

    fn sizes(batch: &Self::Merkleized) -> BatchSizes {
        <Inside<F, C, I, U> as Common<C>>::sizes(batch)
    }

    ghost bare = { peaks-none F.shape F.births F.numbered F.peaked };

    ghost bounds = { record { low = λ list. le_refl (floor list); chunks = tt; prompt = tt; over = tt } };
}

impl<
    F: Family,
    C: Store + Drop,
    I: Factory<Value = Location<F>, Translator = FourCap> + Drop,
    U: Kind<F, I, Key = ByteKey, Value = ByteValue>,
> Engine<C> for Database<F, C, I, U> {}
