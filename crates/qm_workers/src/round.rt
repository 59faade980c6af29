//! What the coordinator of a crew does between its turns: it answers those who ask.

ghost use Rattle.std.specs.Prelude.{◌≡◌, ◌≢◌, ◌≤◌, ◌<◌, ℕ, List, None, true, false, length, sum_by, All, option_map, IfSome, IfOk, IfErr, OnOk};
ghost use Rattle.qm_model.specs.Operations as model;
ghost use Rattle.qm_operations.specs.Parts.{update_key};
ghost use Rattle.qm_build.specs.Reads.{HasOperations, SpellsAt, Spells, KeepsLog, IsRebuildError, IsUndecoded};
ghost use Rattle.qm_crew.specs.Turned.{AreTurned, Turns};
ghost use Rattle.qm_workers.specs.Working.{work_of, asked, left_of, IsWithin, MayTurn};
ghost use Rattle.qm_workers.specs.Answering.{IsAnswered, HasWorked, IsThrough};

use crate::worker::Worker;
use qm_base::{ByteString, Corrupt, Error, Hasher, Location};
use qm_build::read_operation;
use qm_crew::Runs;
use qm_index::Unordered;
use qm_merkle::Family;
use qm_operations::{Operation, Update};
use qm_store::{AuthLog, Store};
use std::alloc::Global;

/// The key of the update at a location, none if no update stands there.
pub fn key_at<F: Family, C: Store, H: Hasher, U: Update>(
    alloc: Global,
    log: &mut AuthLog<F, C, H>,
    at: u64,
) -> Result<Option<U::Key>, Error>
    requires kept { log.old.tree.start ≤ at }
    requires below { at < log.old.tree.leaves }
    ensures value { (op : model.Operation)
        → IfSome (C.told log.old.store) (λ s. SpellsAt U.form s at op
        → IfOk result (λ key. option_map U.Key.bytes key ≡ update_key op)) }
    ensures decodes { (ops : List model.Operation)
        → HasOperations C.Store F.shape H.Digest.bytes H.hash U.form log.old ops
        → IfSome (C.told log.old.store) (λ _.
        IfErr result (λ e. e ≢ Error.DataCorrupted Corrupt.ItemDoesNotDecode)) }
    ensures corrupt { IfSome (C.told log.old.store) (λ s. IfErr result (λ e.
        e ≡ Error.DataCorrupted Corrupt.ItemDoesNotDecode → IsUndecoded U.form s at)) }
    ensures read { KeepsLog C.Store F.shape H.Digest.bytes H.hash log.old log.new }
    ensures error { IfErr result (IsRebuildError C.Store log.old log.new) }
{
    let operation: Operation<F, U> = read_operation(alloc, log, at)?;
    if operation.is_update() {
        Ok(operation.into_key())
    } else {
        Ok(None)
    }
}

/// Tells a worker that asks what key stands at the location that it asks about. Whether it asked.
pub fn answer<F: Family, I: Unordered<Value = Location<F>> + Drop, C: Store, H: Hasher, U: Update>(
    alloc: Global,
    log: &mut AuthLog<F, C, H>,
    worker: &mut Worker<I, U::Key>,
) -> Result<bool, Error>
    requires { IsWithin log.old.tree.start log.old.tree.leaves
        (work_of I.entries U.Key.bytes worker.old) }
    ensures told { OnOk result (IsAnswered C.Store U.form I.index_key log.old
        (work_of I.entries U.Key.bytes worker.old) (work_of I.entries U.Key.bytes worker.new)) }
    ensures no_more { OnOk result (left_of I.index_key (work_of I.entries U.Key.bytes worker.new)
        ≤ left_of I.index_key (work_of I.entries U.Key.bytes worker.old)) }
    ensures less { IfOk result (λ did. did ≡ true
        → left_of I.index_key (work_of I.entries U.Key.bytes worker.new)
        < left_of I.index_key (work_of I.entries U.Key.bytes worker.old)) }
    ensures quiet { IfOk result (λ did. did ≡ false
        → asked I.index_key (work_of I.entries U.Key.bytes worker.old) ≡ None) }
    ensures decodes { (ops : List model.Operation)
        → HasOperations C.Store F.shape H.Digest.bytes H.hash U.form log.old ops
        → IfSome (C.told log.old.store) (λ _.
        IfErr result (λ e. e ≢ Error.DataCorrupted Corrupt.ItemDoesNotDecode)) }
    ensures corrupt { IfSome (C.told log.old.store) (λ s. IfErr result (λ e.
        e ≡ Error.DataCorrupted Corrupt.ItemDoesNotDecode → (from : ℕ)
        → IsWithin from log.old.tree.leaves (work_of I.entries U.Key.bytes worker.old)
        → (at : ℕ) × (from ≤ at) × (at < log.old.tree.leaves) × IsUndecoded U.form s at)) }
    ensures read { KeepsLog C.Store F.shape H.Digest.bytes H.hash log.old log.new }
    ensures error { IfErr result (IsRebuildError C.Store log.old log.new) }
{
    let Some(location) = worker.asked() else {
        return Ok(false);
    };
    let key = key_at::<F, C, H, U>(alloc, log, location)?;
    worker.tell(location, key)?;
    Ok(true)
}

/// Tells each worker of a crew that asks. Whether anybody did.
pub fn answer_all<
    F: Family,
    I: Unordered<Value = Location<F>> + Drop,
    C: Store,
    H: Hasher,
    U: Update,
>(alloc: Global, log: &mut AuthLog<F, C, H>, crew: &mut [Worker<I, U::Key>]) -> Result<bool, Error>
    requires { All (λ w. IsWithin log.old.tree.start log.old.tree.leaves
        (work_of I.entries U.Key.bytes w)) crew.old }
    ensures told { OnOk result (AreTurned (λ a b. IsAnswered C.Store U.form I.index_key log.old
        (work_of I.entries U.Key.bytes a) (work_of I.entries U.Key.bytes b)) crew.old crew.new) }
    ensures less { IfOk result (λ any. any ≡ true
        → sum_by (λ w. left_of I.index_key (work_of I.entries U.Key.bytes w)) crew.new
        < sum_by (λ w. left_of I.index_key (work_of I.entries U.Key.bytes w)) crew.old) }
    ensures quiet { IfOk result (λ any. any ≡ false
        → All (λ w. asked I.index_key (work_of I.entries U.Key.bytes w) ≡ None) crew.old) }
    ensures decodes { (ops : List model.Operation)
        → HasOperations C.Store F.shape H.Digest.bytes H.hash U.form log.old ops
        → IfSome (C.told log.old.store) (λ _.
        IfErr result (λ e. e ≢ Error.DataCorrupted Corrupt.ItemDoesNotDecode)) }
    ensures corrupt { IfSome (C.told log.old.store) (λ s. IfErr result (λ e.
        e ≡ Error.DataCorrupted Corrupt.ItemDoesNotDecode → (from : ℕ)
        → All (λ w. IsWithin from log.old.tree.leaves (work_of I.entries U.Key.bytes w)) crew.old
        → (at : ℕ) × (from ≤ at) × (at < log.old.tree.leaves) × IsUndecoded U.form s at)) }
    ensures read { KeepsLog C.Store F.shape H.Digest.bytes H.hash log.old log.new }
    ensures error { IfErr result (IsRebuildError C.Store log.old log.new) }
{
    let mut any = false;
    for i in 0..crew.len() {
        if answer::<F, I, C, H, U>(alloc, log, &mut crew[i])? {
            any = true;
        }
    }
    Ok(any)
}

/// Has a crew take turns, and answers those who ask after each, until nobody asks: then all have done their operations. Each turn is one call of `run`. It returns since an answer leaves less to do to whoever asked, and a turn no more. A worker that lacked memory ends it. Of the crew after an error it says nothing.
pub fn round<
    F: Family,
    I: Unordered<Value = Location<F>> + Drop,
    C: Store,
    H: Hasher,
    U: Update,
    T: Runs<Worker<I, U::Key>>,
>(
    alloc: Global,
    run: &mut T,
    log: &mut AuthLog<F, C, H>,
    crew: &mut [Worker<I, U::Key>],
) -> Result<(), Error>
    requires ready { T.ready run.old }
    requires turns { (a b : _) → T.turns a b → Turns
        (λ w. left_of I.index_key (work_of I.entries U.Key.bytes w))
        (λ old new. MayTurn I.index_key (work_of I.entries U.Key.bytes old)
        (work_of I.entries U.Key.bytes new)) a b }
    requires within { All (λ w. IsWithin log.old.tree.start log.old.tree.leaves
        (work_of I.entries U.Key.bytes w)) crew.old }
    ensures ready { T.ready run.new }
    ensures worked { OnOk result (AreTurned (λ a b. HasWorked C.Store U.form I.index_key log.old
        (work_of I.entries U.Key.bytes a) (work_of I.entries U.Key.bytes b)) crew.old crew.new) }
    ensures through { OnOk result
        (All (λ w. IsThrough (work_of I.entries U.Key.bytes w)) crew.new) }
    ensures long { length crew.new ≡ length crew.old }
    ensures decodes { (ops : List model.Operation)
        → HasOperations C.Store F.shape H.Digest.bytes H.hash U.form log.old ops
        → IfSome (C.told log.old.store) (λ _.
        IfErr result (λ e. e ≢ Error.DataCorrupted Corrupt.ItemDoesNotDecode)) }
    ensures corrupt { IfSome (C.told log.old.store) (λ s. IfErr result (λ e.
        e ≡ Error.DataCorrupted Corrupt.ItemDoesNotDecode → (from : ℕ)
        → All (λ w. IsWithin from log.old.tree.leaves (work_of I.entries U.Key.bytes w)) crew.old
        → (at : ℕ) × (from ≤ at) × (at < log.old.tree.leaves) × IsUndecoded U.form s at)) }
    ensures read { KeepsLog C.Store F.shape H.Digest.bytes H.hash log.old log.new }
    ensures error { IfErr result (IsRebuildError C.Store log.old log.new) }
{
    loop {
        run.run(crew);
        if has_failed(crew) {
            return Err(Error::Memory);
        }
        if !answer_all::<F, I, C, H, U>(alloc, log, crew)? {
            return Ok(());
        }
    }
}

// Whether a worker lacked memory.
fn has_failed<F, I: Unordered<Value = Location<F>> + Drop, K: ByteString>(
    crew: &[Worker<I, K>],
) -> bool
    ensures { result ≡ false
        → All (λ w. (work_of I.entries K.bytes w).failed ≡ false) crew.now }
{
    for i in 0..crew.len() {
        if crew[i].is_failed() {
            return true;
        }
    }
    false
}
