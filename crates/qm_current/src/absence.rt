//! Which kinds of databases prove absences.

ghost use Rattle.std.specs.Prelude.{◌≡◌, ◌≤◌, None, true, option_map, IfOk, IfErr};
ghost use Rattle.qm_model.specs.Checks as checks;
ghost use Rattle.qm_model.specs.Live.{live, live_of};
ghost use Rattle.qm_model.specs.Refusals.{existing_refusal};
ghost use Rattle.qm_graft.specs.Grafting.{grafting};
ghost use Rattle.qm_keyproofs.specs.Exclusions.{exclusion_view};
ghost use Rattle.qm_store.specs.Refusals.{IsDue};
ghost use Rattle.qm_shown.specs.Refusals.{IsCaused};
ghost use Rattle.qm_current.specs.Making.{IsLeft};
ghost use Rattle.qm_current.specs.Offered.{absences_of};
ghost use Rattle.qm_current.specs.Shown.{AtList};

use crate::db::Db;
use qm_any::db as any;
use qm_any::db::LaidOut;
use qm_base::{ByteString, Digest, Error, Hasher, Location};
use qm_bits::Chunks;
use qm_chunks::Graftable;
use qm_keyproofs::ExclusionProof;
use qm_merkle::{Family, StandardHasher};
use qm_operations::{Ordered, Unordered, Update, ValueEncoding};
use qm_step::kind::Steps;
use qm_store::Store;
use std::alloc::Global;

/// An update of a kind of databases over this index, where they differ in what they prove: ordered ones alone prove absences.
pub trait Absences<F: Graftable, I: qm_index::Unordered<Value = Location<F>>>: Steps<F, I> {
    /// In an ordered database proves that a key has no value, and checks the proof against the root: where the operation stands that
    /// shows it, and whether the proof is accepted. It is refused for a key that is live, and for nothing else. An unordered one
    /// proves nothing.
    fn absent<C: Store, H: Hasher, N: Chunks>(
        alloc: Global,
        hasher: &mut StandardHasher<H>,
        db: &mut Db<F, C, I, H, Self, N>,
        key: &Self::Key,
    ) -> Result<Option<(u64, bool)>, Error>
        ensures shown { AtList C.Store ⟦<any::Db<F, C, I, H, Self, N> as LaidOut>⟧.layout db.old
            (λ list. IfOk result (λ r.
            r ≡ option_map (λ check. check list (Self.Key.bytes key.now))
            (absences_of H.hash F.shape (grafting N.LEN) Self.form))) }
        ensures absent { Self.form.ordered ≡ true
            → AtList C.Store ⟦<any::Db<F, C, I, H, Self, N> as LaidOut>⟧.layout db.old (λ list.
            IfOk result (λ r. live_of (live list) (Self.Key.bytes key.now) ≡ None)) }
        ensures refused { Self.form.ordered ≡ true
            → AtList C.Store ⟦<any::Db<F, C, I, H, Self, N> as LaidOut>⟧.layout db.old (λ list.
            IfErr result (λ e.
            IsDue e (existing_refusal (live_of (live list) (Self.Key.bytes key.now))))) }
        ensures caused { IfErr result (IsCaused C.Store db.old.any db.new.any) }
        ensures left { IsLeft C.Store ⟦<any::Db<F, C, I, H, Self, N> as LaidOut>⟧.layout db.old
            db.new };
}

impl<
    F: Graftable,
    I: qm_index::Unordered<Value = Location<F>>,
    K: ByteString,
    V: ValueEncoding<K>,
> Absences<F, I> for Unordered<K, V> {
    fn absent<C: Store, H: Hasher, N: Chunks>(
        _alloc: Global,
        _hasher: &mut StandardHasher<H>,
        _db: &mut Db<F, C, I, H, Self, N>,
        _key: &K,
    ) -> Result<Option<(u64, bool)>, Error> {
        Ok(None)
    }
}

impl<
    F: Graftable,
    I: qm_index::Ordered<Value = Location<F>>,
    K: ByteString,
    V: ValueEncoding<K>,
> Absences<F, I> for Ordered<K, V> {
    fn absent<C: Store, H: Hasher, N: Chunks>(
        alloc: Global,
        hasher: &mut StandardHasher<H>,
        db: &mut Db<F, C, I, H, Self, N>,
        key: &K,
    ) -> Result<Option<(u64, bool)>, Error> {
        match db.exclusion_proof(alloc, hasher, key) {
            Ok(proof) => {
                let root = db.root();
                let is_accepted = proof.verify(hasher, key, &root);
                Ok(Some((location_of(&proof), is_accepted)))
            }
            Err(error) => Err(error),
        }
    }
}

// Where the operation of the proof stands.
fn location_of<F: Graftable, N: Chunks, K: ByteString, V: ValueEncoding<K>, D: Digest>(
    proof: &ExclusionProof<F, N, K, V, D>,
) -> u64
    ensures { result ≡ checks.location_of (exclusion_view D.bytes K.bytes V.Value.bytes proof.now) }
{
    match proof {
        ExclusionProof::KeyValue(proof, _) => proof.loc.get(),
        ExclusionProof::Commit(proof, _) => proof.loc.get(),
    }
}
