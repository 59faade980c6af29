//! From where on operations are proved.

ghost use Rattle.std.specs.Prelude.{◌≡◌, ◌≤◌, ◌<◌, ◌*◌, ◌^◌, List, length, Some, None, IfErr, OnOk};
ghost use Rattle.qm_model.specs.Operations.{Operation};
ghost use Rattle.qm_graft.specs.Grafting.{grafting};
ghost use Rattle.qm_store.specs.Refusals.{refusal_of};
ghost use Rattle.qm_shown.specs.Refusals.{from_refusal, IsUnread};

use qm_any::db::Db;
use qm_base::{Digest, Error, Hasher, JournalError, Location, TreeRefused};
use qm_bits::Chunks;
use qm_chunks::Graftable;
use qm_graft::grafted::height;
use qm_operations::Update;
use qm_store::Store;

// Whether there is a proof of operations from a location on: it is within the list, its chunk is not pruned, and the store still has
// it.
pub(crate) fn provable_from<
    F: Graftable,
    C: Store,
    I: qm_index::Unordered<Value = Location<F>>,
    H: Hasher,
    U: Update,
    N: Chunks,
>(db: &Db<F, C, I, H, U, N>, start: Location<F>) -> Result<(), Error>
    ensures within { OnOk result (start < db.now.commitment.size) }
    ensures bits { OnOk result (db.now.activity.pruned * 2 ^ grafting N.LEN ≤ start) }
    ensures kept { OnOk result (C.start db.now.log.store ≤ start) }
    ensures offered { (list : List Operation) → length list ≡ db.now.commitment.size
        → OnOk result (from_refusal C.Store N.LEN db.now list start ≡ None) }
    ensures refused { (list : List Operation) → length list ≡ db.now.commitment.size
        → IfErr result (λ e. from_refusal C.Store N.LEN db.now list start ≡ refusal_of e) }
    ensures unread { IfErr result IsUnread }
{
    let at = start.get();
    let (kept, size) = db.bounds();
    if at >= size.get() {
        return Err(Error::Merkle(TreeRefused::RangeOutOfBounds(at)));
    }
    if at >> height::<N>() < db.bitmap().pruned_chunks() as u64 {
        return Err(Error::OperationPruned(at));
    }
    if at < kept.get() {
        return Err(Error::Journal(JournalError::ItemPruned(at)));
    }
    Ok(())
}
