//! How a fresh database begins.

ghost use Rattle.std.specs.Prelude.{◌≡◌, ◌≢◌, ◌⊎◌, ◌≤◌, [], length, map, None, IfSome, IfOk, IfErr};
ghost use Rattle.qm_model.specs.Bits.{bits};
ghost use Rattle.qm_model.specs.Causes.{IsCause};
ghost use Rattle.qm_model.specs.Forms.{spelling};
ghost use Rattle.qm_model.specs.Operations.{fresh};
ghost use Rattle.qm_store.specs.Log.{IsLog};
ghost use Rattle.qm_open.specs.Unopened.{IsUnfinished};
ghost use Rattle.qm_any.specs.Databases.{Database};
ghost use Rattle.qm_any.specs.Opening.{OpensAt};
ghost use Rattle.qm_store.specs.Given.{Appended, AppendedPart, store_given};

use crate::db::{Db, LaidOut};
use crate::operations::spelled;
use qm_base::{Commitment, Digest, Error, Hasher, JournalError, Location};
use qm_bits::{Chunks, Prunable};
use qm_index::Factory;
use qm_merkle::Family;
use qm_open::{empty_log, store_of};
use qm_operations::{Operation, Update};
use qm_store::{AuthLog, Given, Refusal, Store};
use std::alloc::{AllocError, Global};

// The database over an empty store, all of which is stable: a fresh list, one commit without metadata and with floor 0, which
// it appends. The translator makes the index keys. A refusal gives back the store. The head of an empty store is empty: one
// with a byte is refused, and the store comes back as it was.
pub(crate) fn begin<
    F: Family,
    C: Store + Drop,
    I: Factory<Value = Location<F>> + Drop,
    H: Hasher + Drop,
    U: Update,
    N: Chunks,
>(
    alloc: Global,
    store: C,
    hasher: H,
    translator: I::Translator,
) -> Result<Db<F, C, I, H, U, N>, Refusal<Db<F, C, I, H, U, N>, C>>
    requires start { C.start store ≡ 0 }
    requires empty { C.end store ≡ 0 }
    ensures opens { OpensAt C.Store ⟦<Db<F, C, I, H, U, N> as LaidOut>⟧.layout H.Digest.SIZE None 0
        store result }
    ensures causes { IfErr result (λ r. IsUnfinished U.form None r.error) }
{
    match fresh_items::<F, U>(alloc) {
        Err(_) => Err(Refusal {
            given: Given::Store(store),
            error: Error::Memory,
        }),
        Ok(items) => match empty_log(alloc, store, hasher) {
            Err(refusal) => Err(refusal),
            Ok(log) => begun(alloc, log, translator, &items)?.commit(),
        },
    }
}

// The spelling of the commit of a fresh list.
fn fresh_items<F, U: Update>(alloc: Global) -> Result<Vec<Vec<u8>>, AllocError>
    ensures items { IfOk result (λ items.
        map (λ v. v.items) items.items ≡ map (spelling U.form) fresh) }
    ensures count { IfOk result (λ items. length items.items ≡ 1) }
{
    let mut list: Vec<Operation<F, U>> = Vec::new(alloc);
    list.push(Operation::CommitFloor(None, Location::new(0)))?;
    spelled(alloc, &list)
}

// The bits of a fresh list: its commit is active.
fn first_bit<N: Chunks>(alloc: Global) -> Result<Prunable<N>, AllocError>
    ensures { IfOk result (λ activity. activity ≡ record { pruned = 0; kept = bits fresh }) }
{
    let mut activity = Prunable::new(alloc);
    activity.push(true)?;
    Ok(activity)
}

// The database of a fresh list, whose spelling is put into an empty log.
fn begun<
    F: Family,
    C: Store,
    I: Factory<Value = Location<F>>,
    H: Hasher + Drop,
    U: Update,
    N: Chunks,
>(
    alloc: Global,
    log: AuthLog<F, C, H>,
    translator: I::Translator,
    items: &[Vec<u8>],
) -> Result<Db<F, C, I, H, U, N>, Refusal<Db<F, C, I, H, U, N>, C>>
    requires log { IsLog C.Store F.shape H.Digest.bytes H.hash log [] }
    requires start { C.start log.store ≡ 0 }
    requires end { C.end log.store ≡ 0 }
    requires items { map (λ v. v.items) items.now ≡ map (spelling U.form) fresh }
    requires count { length items.now ≡ 1 }
    ensures stands { IfSome (C.told log.store) (λ _.
        IfOk result (λ db. ⟦<Db<F, C, I, H, U, N> as LaidOut>⟧.stands db fresh)) }
    ensures pruned { IfOk result (λ db. db.activity.pruned ≡ 0) }
    ensures grown { IfOk result (λ db.
        Appended C.Store log.store db.log.store (map (spelling U.form) fresh)) }
    ensures later { IfOk result (λ db. C.faults log.store ≤ C.faults db.log.store) }
    ensures part { IfErr result (λ r. AppendedPart C.Store log.store
        (store_given (λ db. db.log.store) r.given) (map (spelling U.form) fresh)) }
    ensures back { IfErr result (λ r. (x : Database C H.Digest) → r.given ≢ Given.Database x) }
    ensures causes { IfErr result (λ r.
        (r.error ≡ Error.Memory) ⊎ (r.error ≡ Error.Journal JournalError.Store)) }
    ensures cause { IfErr result (λ r.
        IsCause (C.faults log.store) (C.faults (store_given (λ db. db.log.store) r.given))
        (r.error ≡ Error.Journal JournalError.Store)) }
{
    let mut log = log;
    let inactive = F::inactive_peaks(Location::new(1), Location::new(0));
    let Ok(root) = log.root_with(alloc, items, inactive) else {
        return Err(Refusal {
            given: Given::Store(log.close()),
            error: Error::Memory,
        });
    };
    let Ok(activity) = first_bit(alloc) else {
        return Err(Refusal {
            given: Given::Store(log.close()),
            error: Error::Memory,
        });
    };
    match log.append_batch(alloc, items) {
        Ok(log) => {
            let index = I::new(alloc, translator);
            let commitment = Commitment { size: 1, root };
            Ok(Db::of_parts(index, activity, log, commitment, Location::new(0), 0, None))
        }
        Err(refusal) => Err(Refusal {
            given: Given::Store(store_of(refusal.given)),
            error: refusal.error,
        }),
    }
}
