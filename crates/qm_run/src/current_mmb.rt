//! The program's current databases over trees whose merges are delayed, of either order by their updates: each offers what the database inside offers.

ghost use Rattle.std.specs.Prelude.{◌≡◌, length};
ghost use Rattle.std.proofs.Common.{ap, arith, refl};
ghost use Rattle.qm_model.specs.Mmb as trees;
ghost use Rattle.qm_model.proofs.MmbFamily.{mmb_is_family};
ghost use Rattle.qm_model.proofs.MmbPeaks.{mmb_has_peaks};
ghost use Rattle.qm_merkle.proofs.Standing.{peaks-none};
ghost use Rattle.qm_any.specs.Databases.{staged_keys};
ghost use Rattle.qm_any.specs.Offered.{sha256_hashing, sha256_layout};
ghost use Rattle.qm_current.specs.Databases.{IsBegun, IsMade, IsStaged};
ghost use Rattle.qm_current.specs.Offered.{IsOffered, offered_chunk, offered_name, scheme_of};
ghost use Rattle.qm_chunks.specs.Rising.{mmb_ready};
ghost use Rattle.qm_pinned.proofs.Bounds.{chunk-bounds};
ghost use Rattle.sha2.proofs.Facts256.{length-sha256};
ghost use Rattle.sha2.specs.Sha256.{sha256};

mod batches;
mod durable;
mod making;
mod ordered;
mod proofs;
mod reads;
mod showing;
mod staged;
mod turns;

use crate::kind::Kind;
use qm_base::{ByteKey, ByteValue, Location, Sha256, Sha256Digest};
use qm_bits::Chunk32;
use qm_current::{Db, MerkleizedBatch, Staged, UnmerkleizedBatch};
use qm_index::{Factory, FourCap};
use qm_merkle::mmb;
use qm_offer::{BatchSizes, Common, Engine, Meaning, Numbers};
use qm_operations::Update;
use qm_store::Store;
use std::rc::Rc;

pub(crate) type Inside<C, I, U> = Db<mmb::Family, C, I, Sha256, U, Chunk32>;

/// A database of the program over a store: where its keys are live, and what its updates say.
#[derive(Drop)]
pub(crate) struct Database<
    C: Store,
    I: qm_index::Unordered<Value = Location<mmb::Family>>,
    U: Update<Key = ByteKey, Value = ByteValue>,
> {
    db: Inside<C, I, U>,
}

/// A merkleized batch of such a database. It is a type of the program, so that what a run asks of batches is shown of this name, and
/// not of all that a batch has.
#[derive(Drop)]
pub(crate) struct Made<U: Update<Key = ByteKey, Value = ByteValue>> {
    batch: Rc<MerkleizedBatch<mmb::Family, Sha256Digest, U, Chunk32>>,
}

impl<
    C: Store + Drop,
    I: Factory<Value = Location<mmb::Family>, Translator = FourCap> + Drop,
    U: Kind<mmb::Family, I, Key = ByteKey, Value = ByteValue>,
> Meaning<C> for Database<C, I, U> {
    type Batch = UnmerkleizedBatch<mmb::Family, Sha256Digest, U, Chunk32>;

    type Staged = Staged<mmb::Family, Sha256Digest, U, Chunk32>;

    type Merkleized = Made<U>;

    ghost inside = { λ x. x.db.any.log.store };

    ghost stands = { λ x list. IsOffered C.Store (sha256_layout trees.mmb offered_chunk U.form I.index_key) x.db list };

    ghost numbered = { λ x n. x.db.instance ≡ n };

    ghost is_batch = { λ b chain above ws. IsBegun (sha256_hashing trees.mmb U.form) offered_chunk b chain above × (b.any.writes ≡ ws) };

    ghost is_staged = { λ s chain above ws keys. IsStaged (sha256_hashing trees.mmb U.form) offered_chunk s chain above × (s.any.batch.writes ≡ ws) × (staged_keys s.any ≡ keys) };

    ghost count = { λ s. length (staged_keys s.any) };

    ghost counted = { λ s chain above ws keys is. ap length is.2 };

    ghost is_merkleized = { λ b chain tip. IsMade (sha256_hashing trees.mmb U.form) offered_chunk b.batch.value chain tip };

    ghost evictions = { λ b. b.batch.value.any.evicted };

    ghost scheme = { scheme_of 32 (sha256_layout trees.mmb offered_chunk U.form I.index_key) offered_name };

    ghost formed = { λ x list is. is.at.any.lent.of };

    ghost made_formed = { λ b chain tip is. is.any.of };
}

impl<
    C: Store + Drop,
    I: Factory<Value = Location<mmb::Family>, Translator = FourCap> + Drop,
    U: Kind<mmb::Family, I, Key = ByteKey, Value = ByteValue>,
> Common<C> for Database<C, I, U> {
    type Family = mmb::Family;

    type Key = ByteKey;

    type Value = ByteValue;

    type Digest = Sha256Digest;

    fn is_ordered() -> bool {
        U::is_ordered()
    }

    fn is_current() -> bool {
        <Inside<C, I, U> as Common<C>>::is_current()
    }

    fn info(&self) -> Numbers {
        <Inside<C, I, U> as Common<C>>::info(&self.db)
    }

    fn sizes(batch: &Self::Merkleized) -> BatchSizes {
        <Inside<C, I, U> as Common<C>>::sizes(&batch.batch)
    }

    ghost bare = { peaks-none trees.mmb trees.mmb_births mmb_is_family mmb_has_peaks };

    ghost bounds = { let b = chunk-bounds trees.mmb trees.mmb_births mmb_is_family mmb_has_peaks mmb_ready sha256 32 length-sha256 offered_chunk U.form offered_name (Prim.omega arith) in record { low = b.low; chunks = b.chunks; prompt = b.prompt; over = b.over } };
}

impl<
    C: Store + Drop,
    I: Factory<Value = Location<mmb::Family>, Translator = FourCap> + Drop,
    U: Kind<mmb::Family, I, Key = ByteKey, Value = ByteValue>,
> Engine<C> for Database<C, I, U> {}
