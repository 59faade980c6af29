//! Proofs that keys are absent from ordered databases.

ghost use Rattle.std.specs.Prelude.{◌≡◌, ◌≤◌, ◌-◌, None, Some, bytes_eq, IfOk, IfErr, OnOk};
ghost use Rattle.qm_model.specs.Checks.{exclusion_by, exclusion_proof};
ghost use Rattle.qm_model.specs.Live.{live, live_of};
ghost use Rattle.qm_graft.specs.Grafting.{grafting};
ghost use Rattle.qm_keyproofs.specs.Exclusions.{exclusion_view};
ghost use Rattle.qm_step.specs.Rings.{holder_of};
ghost use Rattle.qm_step.specs.Views.{read_view};
ghost use Rattle.qm_any.specs.Databases.{IsLeft};
ghost use Rattle.qm_shown.specs.Beside.{AtBoth, HasEnds};
ghost use Rattle.qm_shown.specs.Refusals.{IsCaused, IsUnread};
ghost use Rattle.qm_model.specs.Refusals.{existing_refusal};
ghost use Rattle.qm_store.specs.Refusals.{refusal_of, IsDue};

use crate::key::proof_at;
use qm_any::db::{Db, LaidOut};
use qm_base::{ByteString, Digest, Error, Hasher, Location};
use qm_bits::Chunks;
use qm_chunks::Graftable;
use qm_keyproofs::ExclusionProof;
use qm_merkle::{Family, StandardHasher};
use qm_operations::{Ordered, Update, ValueEncoding};
use qm_roots::Canonical;
use qm_store::Store;
use std::alloc::Global;

/// The proof that a key is absent from an ordered database: by the live update whose span holds the key or, if nothing is live, by
/// the last commit. It is refused for a key that is live, and for nothing else.
pub fn exclusion_proof<
    F: Graftable,
    C: Store,
    I: qm_index::Ordered<Value = Location<F>>,
    H: Hasher,
    K: ByteString,
    V: ValueEncoding<K>,
    N: Chunks,
>(
    alloc: Global,
    hasher: &mut StandardHasher<H>,
    db: &mut Db<F, C, I, H, Ordered<K, V>, N>,
    own: &Canonical<F, N, H::Digest>,
    key: &K,
) -> Result<ExclusionProof<F, N, K, V, H::Digest>, Error>
    requires { HasEnds {C = C} {D = H.Digest} db.old own.now }
    ensures absent { AtBoth C.Store ⟦<Db<F, C, I, H, Ordered<K, V>, N> as LaidOut>⟧.layout db.old
        own.now (λ list. OnOk result (live_of (live list) (K.bytes key.now) ≡ None)) }
    ensures proof { AtBoth C.Store ⟦<Db<F, C, I, H, Ordered<K, V>, N> as LaidOut>⟧.layout db.old
        own.now (λ list. IfOk result (λ p.
        exclusion_view H.Digest.bytes K.bytes V.Value.bytes p
        ≡ exclusion_proof H.hash F.shape (grafting N.LEN) ⟦<Ordered<K, V> as Update>⟧.form list
        (K.bytes key.now))) }
    ensures refused { AtBoth C.Store ⟦<Db<F, C, I, H, Ordered<K, V>, N> as LaidOut>⟧.layout db.old
        own.now (λ list. IfErr result (λ e.
        IsDue e (existing_refusal (live_of (live list) (K.bytes key.now))))) }
    ensures caused { IfErr result (IsCaused C.Store db.old db.new) }
    ensures left { IsLeft C.Store ⟦<Db<F, C, I, H, Ordered<K, V>, N> as LaidOut>⟧.layout.hashing
        db.old db.new }
{
    match db.get_span(alloc, key)? {
        Some(found) => spanned(alloc, hasher, db, own, key, found),
        None => emptied(alloc, hasher, db, own),
    }
}

// The proof by a live update with its location.
fn spanned<
    F: Graftable,
    C: Store,
    I: qm_index::Ordered<Value = Location<F>>,
    H: Hasher,
    K: ByteString,
    V: ValueEncoding<K>,
    N: Chunks,
>(
    alloc: Global,
    hasher: &mut StandardHasher<H>,
    db: &Db<F, C, I, H, Ordered<K, V>, N>,
    own: &Canonical<F, N, H::Digest>,
    key: &K,
    found: (Location<F>, Ordered<K, V>),
) -> Result<ExclusionProof<F, N, K, V, H::Digest>, Error>
    requires { HasEnds {C = C} {D = H.Digest} db.now own.now }
    ensures absent { AtBoth C.Store ⟦<Db<F, C, I, H, Ordered<K, V>, N> as LaidOut>⟧.layout db.now
        own.now (λ list.
        Some (read_view ⟦<Ordered<K, V> as Update>⟧.view found) ≡ holder_of list (K.bytes key.now)
        → OnOk result (live_of (live list) (K.bytes key.now) ≡ None)) }
    ensures proof { AtBoth C.Store ⟦<Db<F, C, I, H, Ordered<K, V>, N> as LaidOut>⟧.layout db.now
        own.now (λ list.
        Some (read_view ⟦<Ordered<K, V> as Update>⟧.view found) ≡ holder_of list (K.bytes key.now)
        → IfOk result (λ p. exclusion_view H.Digest.bytes K.bytes V.Value.bytes p
        ≡ exclusion_proof H.hash F.shape (grafting N.LEN) ⟦<Ordered<K, V> as Update>⟧.form list
        (K.bytes key.now))) }
    ensures refused { AtBoth C.Store ⟦<Db<F, C, I, H, Ordered<K, V>, N> as LaidOut>⟧.layout db.now
        own.now (λ list.
        Some (read_view ⟦<Ordered<K, V> as Update>⟧.view found) ≡ holder_of list (K.bytes key.now)
        → IfErr result (λ e.
        IsDue e (existing_refusal (live_of (live list) (K.bytes key.now))))) }
    ensures unread { IfErr result IsUnread }
{
    let (at, update) = found;
    if is_key(&update.key, key) {
        return Err(Error::KeyExists);
    }
    match proof_at(alloc, hasher, db, own, at) {
        Ok(proof) => Ok(ExclusionProof::KeyValue(proof, update)),
        Err(error) => Err(error),
    }
}

// Whether a key is this one.
fn is_key<K: ByteString>(one: &K, key: &K) -> bool
    ensures { result ≡ bytes_eq (K.bytes key.now) (K.bytes one.now) }
{
    one.as_bytes() == key.as_bytes()
}

// The proof by the last commit.
fn emptied<
    F: Graftable,
    C: Store,
    I: qm_index::Ordered<Value = Location<F>>,
    H: Hasher,
    K: ByteString,
    V: ValueEncoding<K>,
    N: Chunks,
>(
    alloc: Global,
    hasher: &mut StandardHasher<H>,
    db: &Db<F, C, I, H, Ordered<K, V>, N>,
    own: &Canonical<F, N, H::Digest>,
) -> Result<ExclusionProof<F, N, K, V, H::Digest>, Error>
    requires { HasEnds {C = C} {D = H.Digest} db.now own.now }
    ensures proof { AtBoth C.Store ⟦<Db<F, C, I, H, Ordered<K, V>, N> as LaidOut>⟧.layout db.now
        own.now (λ list. IfOk result (λ p.
        exclusion_view H.Digest.bytes K.bytes V.Value.bytes p
        ≡ exclusion_by H.hash F.shape (grafting N.LEN) ⟦<Ordered<K, V> as Update>⟧.form list
        None)) }
    ensures refused { AtBoth C.Store ⟦<Db<F, C, I, H, Ordered<K, V>, N> as LaidOut>⟧.layout db.now
        own.now (λ list. IfErr result (λ e. refusal_of e ≡ None)) }
    ensures unread { IfErr result IsUnread }
{
    let last = last_of(db.size().get());
    match db.get_metadata(alloc) {
        Ok(metadata) => match proof_at(alloc, hasher, db, own, Location::new(last)) {
            Ok(proof) => Ok(ExclusionProof::Commit(proof, metadata)),
            Err(error) => Err(error),
        },
        Err(_) => Err(Error::Memory),
    }
}

// The last location of a list of this size, if it has any.
fn last_of(size: u64) -> u64
    ensures { result ≡ size - 1 }
{
    size.saturating_sub(1)
}
