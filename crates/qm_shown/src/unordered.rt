//! Proofs of keys of unordered databases.

ghost use Rattle.std.specs.Prelude.{◌≡◌, ◌≤◌, Some, option_map, IfOk, IfErr};
ghost use Rattle.qm_model.specs.Live.{live, live_of};
ghost use Rattle.qm_model.specs.RangeProofs as range_proofs;
ghost use Rattle.qm_model.specs.Refusals.{lacking_refusal};
ghost use Rattle.qm_graft.specs.Grafting.{grafting};
ghost use Rattle.qm_keyproofs.specs.Views.{operation_view};
ghost use Rattle.qm_store.specs.Refusals.{IsDue};
ghost use Rattle.qm_any.specs.Databases.{IsLeft};
ghost use Rattle.qm_shown.specs.Beside.{AtBoth, HasEnds};
ghost use Rattle.qm_shown.specs.Refusals.{IsCaused};

use crate::key::update_proof;
use qm_any::db::{Db, LaidOut};
use qm_base::{ByteString, Digest, Error, Hasher, Location};
use qm_bits::Chunks;
use qm_chunks::Graftable;
use qm_keyproofs::unordered::KeyValueProof;
use qm_merkle::{Family, StandardHasher};
use qm_operations::{Unordered, Update, ValueEncoding};
use qm_roots::Canonical;
use qm_store::Store;
use std::alloc::Global;

/// The proof of a key's value. It is refused for a key that is not live, and for nothing else.
pub fn key_value_proof<
    F: Graftable,
    C: Store,
    I: qm_index::Unordered<Value = Location<F>>,
    H: Hasher,
    K: ByteString,
    V: ValueEncoding<K>,
    N: Chunks,
>(
    alloc: Global,
    hasher: &mut StandardHasher<H>,
    db: &mut Db<F, C, I, H, Unordered<K, V>, N>,
    own: &Canonical<F, N, H::Digest>,
    key: &K,
) -> Result<KeyValueProof<F, N, H::Digest>, Error>
    requires { HasEnds {C = C} {D = H.Digest} db.old own.now }
    ensures proof { AtBoth C.Store ⟦<Db<F, C, I, H, Unordered<K, V>, N> as LaidOut>⟧.layout db.old
        own.now (λ list. IfOk result (λ p.
        option_map (λ e. range_proofs.operation_proof H.hash F.shape (grafting N.LEN)
        ⟦<Unordered<K, V> as Update>⟧.form list e.location) (live_of (live list) (K.bytes key.now))
        ≡ Some (operation_view H.Digest.bytes p))) }
    ensures refused { AtBoth C.Store ⟦<Db<F, C, I, H, Unordered<K, V>, N> as LaidOut>⟧.layout db.old
        own.now (λ list. IfErr result (λ e.
        IsDue e (lacking_refusal (live_of (live list) (K.bytes key.now))))) }
    ensures caused { IfErr result (IsCaused C.Store db.old db.new) }
    ensures left { IsLeft C.Store ⟦<Db<F, C, I, H, Unordered<K, V>, N> as LaidOut>⟧.layout.hashing
        db.old db.new }
{
    match update_proof(alloc, hasher, db, own, key) {
        Ok((_, proof)) => Ok(proof),
        Err(error) => Err(error),
    }
}
