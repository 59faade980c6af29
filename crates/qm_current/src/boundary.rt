//! Up to where lists may be pruned.

ghost use Rattle.std.specs.Prelude.{◌≡◌, ◌≤◌, ◌^◌, List, min};
ghost use Rattle.qm_model.specs.Batches.{Chain};
ghost use Rattle.qm_model.specs.Grafted.{boundary};
ghost use Rattle.qm_model.specs.Operations.{Operation};
ghost use Rattle.qm_graft.specs.Grafting.{grafting};
ghost use Rattle.qm_any.specs.Layouts.{Hashing};
ghost use Rattle.qm_any.specs.Databases as anys;
ghost use Rattle.qm_current.specs.Databases.{IsDatabase};
ghost use Rattle.qm_current.specs.Lasting.{boundary_from, boundary_of};

use crate::batch::MerkleizedBatch;
use crate::db::Db;
use qm_any::db as any;
use qm_any::db::LaidOut;
use qm_base::{Digest, Hasher, Location};
use qm_bits::Chunks;
use qm_chunks::{Graftable, sync_boundary};
use qm_graft::grafted::height;
use qm_operations::Update;
use qm_store::Store;

// Up to where a list of this floor and size may be pruned.
fn boundary_from<F: Graftable, N: Chunks>(floor: u64, size: u64) -> u64
    requires { size ≤ 2 ^ 62 }
    ensures exact { result ≡ boundary_from F.shape N.LEN floor size }
    ensures below { result ≤ min floor size }
{
    sync_boundary::<F>(height::<N>(), floor.min(size), size)
}

impl<
    F: Graftable,
    C: Store,
    I: qm_index::Unordered<Value = Location<F>>,
    H: Hasher,
    U: Update,
    N: Chunks,
> Db<F, C, I, H, U, N> {
    /// Up to where the list may be pruned: the last place at or below the floor where a chunk begins and the chunks before it wait for
    /// no more operations.
    pub fn sync_boundary(&self) -> Location<F>
        ensures exact { result ≡ boundary_of F.shape N.LEN self.now }
        ensures below { result ≤ min self.now.any.floor self.now.any.commitment.size }
        ensures list { (list : List Operation)
            → IsDatabase C.Store ⟦<any::Db<F, C, I, H, U, N> as LaidOut>⟧.layout self.now list
            → result ≡ boundary F.shape (grafting N.LEN) list }
    {
        // its clauses say that there are at most 2^62 operations
        self.any.bounds();
        let floor = self.any.inactivity_floor_loc();
        let size = self.any.size();
        Location::new(boundary_from::<F, N>(floor.get(), size.get()))
    }
}

impl<F: Graftable, D: Digest, U: Update, N: Chunks> MerkleizedBatch<F, D, U, N> {
    /// Up to where the list that the batch makes may be pruned, as a database says it that takes the batch.
    pub fn sync_boundary(&self) -> Location<F>
        ensures exact { result
            ≡ boundary_from F.shape N.LEN self.now.any.bounds.inactivity_floor
            self.now.any.bounds.tip.size }
        ensures list { (hashing : Hashing D) (chain : Chain) (tip : List Operation)
            → anys.IsMade hashing self.now.any chain tip
            → result ≡ boundary F.shape (grafting N.LEN) tip }
    {
        let bounds = self.any.bounds();
        let floor = bounds.inactivity_floor.get();
        Location::new(boundary_from::<F, N>(floor, bounds.tip.size))
    }
}
