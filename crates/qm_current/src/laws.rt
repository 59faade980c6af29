//! What holds of every current database, each as the contract of a function that does nothing.

ghost use Rattle.std.specs.Prelude.{◌≡◌, ◌≤◌, List};
ghost use Rattle.qm_model.specs.Batches.{Chain};
ghost use Rattle.qm_model.specs.Grafted.{grafted_chunks};
ghost use Rattle.qm_model.specs.Operations.{Operation};
ghost use Rattle.qm_graft.specs.Grafting.{grafting};
ghost use Rattle.qm_roots.specs.Canonical.{MayGo};
ghost use Rattle.qm_any.specs.Layouts.{Layout};
ghost use Rattle.qm_current.specs.Databases.{Database, Made, IsDatabase, IsMade};
ghost use Rattle.qm_current.specs.Lasting.{boundary_from, boundary_of};

use crate::db::Db;
use qm_base::{Hasher, Location};
use qm_bits::Chunks;
use qm_chunks::Graftable;
use qm_operations::Update;
use qm_store::Store;

/// Databases that stand for one list have one root and one boundary. So an apply of a batch in one step, and of it after its ancestors,
/// come to one root, and so do databases that were pruned to different locations, or opened again.
pub fn a_list_has_one_root<C: Store, D>()
    ensures root { (layout : Layout D) (a b : Database C D) (list : List Operation)
        → IsDatabase C.Store layout a list → IsDatabase C.Store layout b list
        → a.canonical.root ≡ b.canonical.root }
    ensures boundary { (layout : Layout D) (a b : Database C D) (list : List Operation)
        → IsDatabase C.Store layout a list → IsDatabase C.Store layout b list
        → boundary_of layout.hashing.shape layout.chunk a
        ≡ boundary_of layout.hashing.shape layout.chunk b }
{}

/// The boundary of a batch is that of the database that stands for the batch's list, as it does once the batch is applied, whatever was
/// pruned of it.
pub fn a_batch_has_the_boundary_of_its_database<C: Store, D>()
    ensures { (layout : Layout D) (batch : Made D) (chain : Chain) (db : Database C D)
        (list : List Operation) → IsMade layout.hashing layout.chunk batch chain list
        → IsDatabase C.Store layout db list
        → boundary_from layout.hashing.shape layout.chunk batch.any.bounds.inactivity_floor
        batch.any.bounds.tip.size ≡ boundary_of layout.hashing.shape layout.chunk db }
{}

/// The pruned chunks of a database may go from its list: those whose nodes merge late have their pair's node. So each of them is grafted,
/// and the pending chunk, if there is one, is none of them.
pub fn pruned_chunks_are_grafted<
    F: Graftable,
    C: Store,
    I: qm_index::Unordered<Value = Location<F>>,
    H: Hasher,
    U: Update,
    N: Chunks,
>(db: &Db<F, C, I, H, U, N>)
    ensures may_go { MayGo F.shape (grafting N.LEN) db.now.any.activity.pruned
        db.now.any.commitment.size }
    ensures grafted { db.now.any.activity.pruned
        ≤ grafted_chunks F.shape (grafting N.LEN) db.now.any.commitment.size }
{
    // its clauses say that the grafted tree forgot none that may not go
    db.canonical.tree();
}
