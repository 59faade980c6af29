//! A caller that is generic over databases: of both kinds, any and current, ordered and unordered, over any family, store and hasher.

ghost use Rattle.std.specs.Prelude.{◌≡◌, ◌≢◌, ◌++◌, ℕ, List, None, map, IfOk, IfErr};
ghost use Rattle.qm_model.specs.Batches.{Chain, begun_on};
ghost use Rattle.qm_model.specs.Operations.{Operation};
ghost use Rattle.qm_model.specs.Writes.{Write};
ghost use Rattle.qm_databases.specs.Words.{put_of, tip_of};

use qm_base::Error;
use qm_chain::Policy;
use qm_databases::any::traits::{BatchableDb, DbAny, UnmerkleizedBatch};
use qm_merkle::Family;
use qm_store::{Given, Refusal};
use std::alloc::{AllocError, Global};

// A batch with these pairs put after what it has.
fn with_pairs<F: Family, D: DbAny<F>>(
    batch: D::Batch,
    pairs: Vec<(D::Key, D::Value)>,
) -> Result<D::Batch, AllocError>
    ensures { IfOk result (λ b. (chain above : Chain) (ws : List Write)
        → D.Batch.means.is_batch batch chain above ws
        → D.Batch.means.is_batch b chain above
        (ws ++ map (put_of D.Key.bytes D.Value.bytes) pairs.items)) }
{
    let mut batch = batch;
    for (key, value) in pairs {
        batch = batch.write(key, Some(value))?;
    }
    Ok(batch)
}

// The list of a batch of these pairs on the database as it is, which stays what it is.
fn block_of<F: Family, D: DbAny<F>, P: Policy<F, D::Key, D::Value>>(
    alloc: Global,
    db: &mut D,
    pairs: Vec<(D::Key, D::Value)>,
    policy: &mut P,
) -> Result<D::Merkleized, Error>
    ensures makes { (n : ℕ) (list : List Operation) → D.Batch.means.numbered db.old n
        → D.Batch.means.stands db.old list → IfOk result (λ b.
        D.Batch.means.is_merkleized b (begun_on n list) (tip_of D.Batch.means.form P.rules
        (begun_on n list) (map (put_of D.Key.bytes D.Value.bytes) pairs.items) policy.old None)) }
    ensures same { (list : List Operation) → D.Batch.means.stands db.old list
        → D.Batch.means.stands db.new list }
{
    let batch = db.new_batch(alloc)?;
    let batch = with_pairs::<F, D>(batch, pairs)?;
    batch.merkleize(alloc, db, None, policy)
}

/// Puts pairs into a database and makes that last. Whatever database it is, it stands then for the step of the definitions: the list
/// that these writes make of its list, under the policy.
pub fn record<F: Family, D: DbAny<F>, P: Policy<F, D::Key, D::Value>>(
    alloc: Global,
    db: D,
    pairs: Vec<(D::Key, D::Value)>,
    policy: &mut P,
) -> Result<D, Refusal<D, D::Store>>
    ensures { (n : ℕ) (list : List Operation) → D.Batch.means.numbered db n
        → D.Batch.means.stands db list → IfOk result (λ next.
        D.Batch.means.stands next (tip_of D.Batch.means.form P.rules (begun_on n list)
        (map (put_of D.Key.bytes D.Value.bytes) pairs.items) policy.old None)) }
{
    let mut db = db;
    match block_of::<F, D, P>(alloc, &mut db, pairs, policy) {
        Ok(block) => match db.apply_batch(alloc, &block) {
            Ok(db) => db.commit(),
            Err(refusal) => Err(refusal),
        },
        Err(error) => Err(Refusal {
            given: Given::Database(db),
            error,
        }),
    }
}
