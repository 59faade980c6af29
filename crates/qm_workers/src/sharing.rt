//! Which worker of a crew has which partitions, and so which operations.

ghost use Rattle.std.specs.Prelude.{◌≡◌, ◌<◌, ◌≤◌, ◌+◌, ℕ, suc, true, length, All, IfOk, OnOk, vec_len};
ghost use Rattle.qm_operations.specs.Views.{operation_view};
ghost use Rattle.qm_routed.specs.Routed as routed;
ghost use Rattle.qm_workers.specs.Working.{work_of, IsNew};
ghost use Rattle.qm_workers.specs.Sharing.{AreWorkers, IsRouted};

use crate::worker::Worker;
use qm_base::{ByteString, Location};
use qm_index::Ranges;
use qm_operations::{Operation, Update};
use std::alloc::{AllocError, Global};

/// So many workers, each with a range of an index's partitions and a cache of its part of so many keys. Want of memory is the only error.
pub fn hire<F, I: Ranges<Value = Location<F>> + Drop, K: ByteString>(
    alloc: Global,
    index: &I,
    kept_keys: usize,
    workers: u64,
) -> Result<Vec<Worker<I, K>>, AllocError>
    requires { AreWorkers I.PARTITIONS workers }
    ensures long { IfOk result (λ crew. vec_len crew ≡ workers) }
    ensures new { IfOk result (λ crew. All (λ w. IsNew (work_of I.entries K.bytes w)) crew.items) }
{
    let partitions = index.partition_count();
    let mut crew = Vec::new(alloc);
    for worker in 0..workers {
        let (from, count) = range_of(partitions, workers, worker);
        let range = index.new_range(from, count);
        crew.push(Worker::new(alloc, range, kept_keys / workers as usize)?)?;
    }
    Ok(crew)
}

/// Gives an operation to the worker that has its key's partition. Want of memory is the only error.
pub fn route<F, I: Ranges<Value = Location<F>> + Drop, U: Update>(
    index: &I,
    crew: &mut [Worker<I, U::Key>],
    at: u64,
    operation: Operation<F, U>,
) -> Result<(), AllocError>
    requires { AreWorkers I.PARTITIONS (length crew.old) }
    ensures { OnOk result (IsRouted I.index_key I.PARTITIONS (work_of I.entries U.Key.bytes) at
        (operation_view U.view U.Key.bytes U.Value.bytes operation) crew.old crew.new) }
{
    let is_update = operation.is_update();
    let Some(key) = operation.into_key() else {
        return Ok(());
    };
    let partition = index.partition(key.as_bytes());
    let owner = owner_of(index.partition_count(), crew.len() as u64, partition) as usize;
    crew[owner].assign(at, key, is_update)
}

// The range of partitions of a worker: the first one, and how many.
fn range_of(partitions: u64, workers: u64, worker: u64) -> (u64, u64)
    requires workers { AreWorkers partitions workers }
    requires few { partitions ≤ 65536 }
    requires one { worker < workers }
    ensures from { result.0 ≡ routed.begin_of partitions workers worker }
    ensures end { result.0 + result.1 ≡ routed.begin_of partitions workers (suc worker) }
    ensures within { result.0 + result.1 ≤ partitions }
{
    let from = worker * partitions / workers;
    let end = (worker + 1) * partitions / workers;
    (from, end - from)
}

// The worker that has a partition.
fn owner_of(partitions: u64, workers: u64, partition: u64) -> u64
    requires workers { AreWorkers partitions workers }
    requires few { partitions ≤ 65536 }
    requires below { partition < partitions }
    ensures one { result < workers }
    ensures own { routed.has_partition partitions workers result partition ≡ true }
{
    ((partition + 1) * workers - 1) / partitions
}
