//! What proofs of a database's list are made from.

ghost use Rattle.std.specs.Prelude.{◌≡◌};
ghost use Rattle.qm_graft.specs.Grafting.{AreGrafted};
ghost use Rattle.qm_makers.specs.Lists.{AreOf};
ghost use Rattle.qm_shown.specs.Beside.{AtBoth, HasEnds};

use qm_any::db::{Db, LaidOut};
use qm_base::{Digest, Hasher, Location};
use qm_bits::Chunks;
use qm_chunks::Graftable;
use qm_makers::Parts;
use qm_merkle::Family;
use qm_operations::Update;
use qm_roots::Canonical;
use qm_store::Store;

// What proofs of a database's list are made from, with the root of its operations.
pub(crate) fn parts<
    'a,
    F: Graftable,
    C: Store,
    I: qm_index::Unordered<Value = Location<F>>,
    H: Hasher,
    U: Update,
    N: Chunks,
>(
    db: &'a Db<F, C, I, H, U, N>,
    own: &'a Canonical<F, N, H::Digest>,
    ops_root: &'a H::Digest,
) -> Parts<'a, F, N, H::Digest>
    requires beside { HasEnds {C = C} {D = H.Digest} db.now own.now }
    requires root { H.Digest.bytes ops_root.now ≡ db.now.commitment.root }
    ensures grafted { AreGrafted F.shape N.LEN result.operations.now result.grafted.now
        result.bits.now }
    ensures operations { result.operations.now ≡ db.now.log.tree }
    ensures values { result.grafted.now ≡ own.now.tree }
    ensures bits { result.bits.now ≡ db.now.activity }
    ensures are { AtBoth C.Store ⟦<Db<F, C, I, H, U, N> as LaidOut>⟧.layout db.now own.now (λ list.
        AreOf H.Digest.bytes H.hash F.shape N.LEN U.form result.ops_root.now
        result.operations.now result.grafted.now result.bits.now result.floor list) }
{
    // its clauses say that there is a bit for each operation
    db.bounds();
    let operations = db.tree();
    let grafted = own.tree();
    // it starts no later than it ends
    grafted.bounds();
    Parts {
        ops_root,
        operations,
        grafted,
        bits: db.bitmap(),
        floor: db.inactivity_floor_loc(),
    }
}
