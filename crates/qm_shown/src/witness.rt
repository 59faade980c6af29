//! Witnesses of operations roots.

ghost use Rattle.std.specs.Prelude.{◌≡◌, IfOk};
ghost use Rattle.qm_model.specs.RangeProofs as range_proofs;
ghost use Rattle.qm_graft.specs.Grafting.{grafting};
ghost use Rattle.qm_keyproofs.specs.Views.{witness_view};
ghost use Rattle.qm_shown.specs.Beside.{AtBoth, HasEnds};

use crate::parts::parts;
use qm_any::db::{Db, LaidOut};
use qm_base::{Digest, Hasher, Location};
use qm_bits::Chunks;
use qm_chunks::Graftable;
use qm_keyproofs::OpsRootWitness;
use qm_merkle::{Family, StandardHasher};
use qm_operations::Update;
use qm_roots::Canonical;
use qm_store::Store;
use std::alloc::{AllocError, Global};

/// The witness that the operations root of a database's list belongs to the list's canonical root. Want of memory is the only error.
pub fn ops_root_witness<
    F: Graftable,
    C: Store,
    I: qm_index::Unordered<Value = Location<F>>,
    H: Hasher,
    U: Update,
    N: Chunks,
>(
    alloc: Global,
    hasher: &mut StandardHasher<H>,
    db: &Db<F, C, I, H, U, N>,
    own: &Canonical<F, N, H::Digest>,
) -> Result<OpsRootWitness<H::Digest>, AllocError>
    requires { HasEnds {C = C} {D = H.Digest} db.now own.now }
    ensures { AtBoth C.Store ⟦<Db<F, C, I, H, U, N> as LaidOut>⟧.layout db.now own.now (λ list.
        IfOk result (λ w. witness_view H.Digest.bytes w
        ≡ range_proofs.witness H.hash F.shape (grafting N.LEN) U.form list)) }
{
    let root = db.root();
    parts(db, own, &root).ops_root_witness(alloc, hasher)
}
