//! Proofs of a list's operations.

ghost use Rattle.std.specs.Prelude.{◌≡◌, ◌≢◌, ◌⊎◌, ◌≤◌, ◌<◌, ◌+◌, ◌-◌, List, None, IfSome, All, map, take, drop, IfOk, IfErr, OnOk};
ghost use Rattle.std.specs.NonZero.{non_zero_u64_get};
ghost use Rattle.qm_model.specs.Forms.{IsOf, spelling};
ghost use Rattle.qm_operations.specs.Views.{operation_views};
ghost use Rattle.qm_model.specs.Causes.{Rose};
ghost use Rattle.qm_model.specs.Live as lives;
ghost use Rattle.qm_model.specs.Operations as operations;
ghost use Rattle.qm_model.specs.Proofs.{ops_proof};
ghost use Rattle.qm_model.specs.Refusals.{floor_before, last_refusal, proof_refusal, proof_count};
ghost use Rattle.qm_proofs.specs.Proofs.{proof_view};
ghost use Rattle.qm_store.specs.Reads.{IsRead};
ghost use Rattle.qm_store.specs.Log.{IsLog};
ghost use Rattle.qm_store.specs.Refusals.{IsAmong, IsDue};
ghost use Rattle.qm_build.specs.Reasons.{proof_reasons};
ghost use Rattle.qm_build.specs.Proved.{AtLogged, Proves};

use crate::item::commit_floor_in;
use crate::read::operation_in;
use qm_base::{Corrupt, Error, Hasher, JournalError, Location, TreeRefused};
use qm_merkle::Family;
use qm_operations::{Operation, Update};
use qm_proofs::Proof;
use qm_store::{AuthLog, Store};
use std::alloc::Global;
use std::num::NonZeroU64;

/// Operations of a log's list from `start` on, at most `max`, and their proof in the list of the first `size` of them.
pub fn proved_over<F: Family, C: Store, H: Hasher, U: Update>(
    alloc: Global,
    log: &mut AuthLog<F, C, H>,
    size: u64,
    start: u64,
    max: NonZeroU64,
) -> Result<(Proof<H::Digest>, Vec<Operation<F, U>>), Error>
    ensures { Proves C.Store F.shape H.Digest.bytes H.hash U.form
        (λ shown. proof_view H.Digest.bytes shown.0)
        (λ shown. operation_views U.view U.Key.bytes U.Value.bytes shown.1.items) size start
        (non_zero_u64_get max) log.old log.new result }
{
    // The log has at most 2^62 items, and is kept from where its store is.
    log.bounds();
    let floor = offered::<F, C, H, U>(alloc, log, size, start)?;
    let inactive = F::inactive_peaks(Location::new(size), Location::new(floor));
    let (proof, items) = log.historical_proof(alloc, size, inactive, start, max)?;
    let operations = decoded(alloc, &items)?;
    Ok((proof, operations))
}

// The floor of a log's first `size` operations, or why nothing from `start` on is proved in them.
fn offered<F: Family, C: Store, H: Hasher, U: Update>(
    alloc: Global,
    log: &mut AuthLog<F, C, H>,
    size: u64,
    start: u64,
) -> Result<u64, Error>
    ensures offered { AtLogged C.Store F.shape H.Digest.bytes H.hash U.form log.old (λ list.
        OnOk result (proof_refusal (C.start log.old.store) list size start ≡ None)) }
    ensures kept { OnOk result (C.start log.old.store ≤ start) }
    ensures within { OnOk result ((size ≤ log.old.tree.leaves) × (start < size)) }
    ensures floor { AtLogged C.Store F.shape H.Digest.bytes H.hash U.form log.old (λ list.
        IfOk result (λ f. f ≡ lives.floor (take size list))) }
    ensures refused { AtLogged C.Store F.shape H.Digest.bytes H.hash U.form log.old (λ list.
        IfErr result (λ e. IsDue e (proof_refusal (C.start log.old.store) list size start))) }
    ensures causes { IfErr result (λ e. IsAmong e (proof_reasons size start)) }
    ensures never { IfErr result (λ e. e ≢ Error.StaleBatch) }
    ensures cause { IfErr result (λ e. e ≡ Error.Journal JournalError.Store
        → Rose (C.faults log.old.store) (C.faults log.new.store)) }
    ensures read { IsRead C.Store F.shape H.Digest.bytes H.hash log.old log.new }
{
    let (first, leaves) = log.bounds();
    if leaves < size {
        return Err(Error::Merkle(TreeRefused::RangeOutOfBounds(size)));
    }
    match floor_at_end::<F, C, H, U>(alloc, log, size)? {
        None => Err(Error::HistoricalFloorPruned(size)),
        Some(floor) if floor >= size => Err(Error::DataCorrupted(Corrupt::FloorExceedsCommit)),
        Some(_) if start >= size => Err(Error::Merkle(TreeRefused::RangeOutOfBounds(start))),
        Some(_) if start < first => Err(Error::Journal(JournalError::ItemPruned(start))),
        Some(floor) => Ok(floor),
    }
}

// The floor of the commit at the end of a log's first `size` operations, if one stands there.
fn floor_at_end<F: Family, C: Store, H: Hasher, U: Update>(
    alloc: Global,
    log: &mut AuthLog<F, C, H>,
    size: u64,
) -> Result<Option<u64>, Error>
    requires { size ≤ log.old.tree.leaves }
    ensures floor { AtLogged C.Store F.shape H.Digest.bytes H.hash U.form log.old (λ list.
        IfOk result (λ f. f ≡ floor_before list size)) }
    ensures some { IfOk result (λ f. IfSome f (λ _. 0 < size)) }
    ensures kept { OnOk result (last_refusal (C.start log.old.store) size ≡ None) }
    ensures pruned { IfErr result (λ e. IsDue e (last_refusal (C.start log.old.store) size)) }
    ensures causes { IfErr result (λ e. (e ≡ Error.Memory)
        ⊎ ((e ≡ Error.Journal JournalError.Store)
        ⊎ (e ≡ Error.Journal (JournalError.ItemPruned (size - 1))))) }
    ensures cause { IfErr result (λ e. e ≡ Error.Journal JournalError.Store
        → Rose (C.faults log.old.store) (C.faults log.new.store)) }
    ensures read { IsRead C.Store F.shape H.Digest.bytes H.hash log.old log.new }
{
    // The log is kept from where its store is.
    log.bounds();
    if size == 0 {
        return Ok(None);
    }
    let item = log.read(size - 1)?;
    Ok(commit_floor_in::<F, U>(alloc, &item)?)
}

// The operations that the items spell. That one spells none is told as corruption.
fn decoded<F, U: Update>(alloc: Global, items: &[Vec<u8>]) -> Result<Vec<Operation<F, U>>, Error>
    ensures value { (list : List operations.Operation) → All (IsOf U.form) list
        → map (λ v. v.items) items.now ≡ map (spelling U.form) list
        → IfOk result (λ made. operation_views U.view U.Key.bytes U.Value.bytes made.items ≡ list) }
    ensures whole { (list : List operations.Operation) → All (IsOf U.form) list
        → map (λ v. v.items) items.now ≡ map (spelling U.form) list
        → IfErr result (λ e. e ≡ Error.Memory) }
    ensures never { IfErr result (λ e.
        (e ≡ Error.Memory) ⊎ (e ≡ Error.DataCorrupted Corrupt.ItemDoesNotDecode)) }
{
    let mut made = Vec::new(alloc);
    for item in items {
        let operation = operation_in(alloc, item)?;
        made.push(operation)?;
    }
    Ok(made)
}
