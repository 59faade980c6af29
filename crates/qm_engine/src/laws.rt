//! Completeness, each law the contract of a function that does nothing: a call that nothing refuses, and in which no fault is told, answers,
//! or memory is wanted. They follow from what the contracts of the calls say, so they hold of every database that offers them.

ghost use Rattle.std.specs.Prelude.{◌≡◌, ◌≢◌, ◌≤◌, ℕ, Option, Some, None, true, List, Result, IfErr, IfOk};
ghost use Rattle.qm_model.specs.Batches.{Chain, IsKnown, IsOnChain};
ghost use Rattle.qm_model.specs.Held.{pins_lacked, proof_lacked};
ghost use Rattle.qm_model.specs.Opening.{found, opening_refusal};
ghost use Rattle.qm_model.specs.Operations.{Bytes, Operation};
ghost use Rattle.qm_model.specs.Refusals.{proof_refusal, tip_refusal};
ghost use Rattle.qm_model.specs.Schemes.{layout_of, takes};
ghost use Rattle.qm_model.specs.StoreModel.{settled, IsImage, ReadsAs, Stored};
ghost use Rattle.qm_model.specs.Taken.{synced, LeavesSync};
ghost use Rattle.qm_store.specs.Refusals.{refusal_of, IsDue};
ghost use Rattle.qm_store.specs.declared.refusal.Refusal.{Refusal};
ghost use Rattle.qm_base.specs.declared.error.Error.{Error};
ghost use Rattle.qm_base.specs.declared.error.Error.TheVariants.{Journal, Memory, StaleBatch};
ghost use Rattle.qm_base.specs.declared.error.JournalError.TheVariants as journal;
ghost use Rattle.qm_offer.specs.Words.{Applies, IsDestroying, IsProofFailure, IsReadFailure, IsSettling, IsUnpruned, Makes, Opens, ReadsOnly};
ghost use Rattle.qm_engine.specs.Complete.{IsComplete, IsCompleteOf};

use qm_offer::{Durable, Making, Proving, Reading};
use qm_store::Store;

/// The calls that open, settle and end a database: an opening that the definition does not refuse, and a prune up to the boundary.
pub fn lasting_is_complete<C: Store, D: Durable<C>>()
    ensures opening { (old : C) (bound : Option ℕ) (number : ℕ) (result : Result D (Refusal D C)) (s : Stored)
        → C.told old ≡ Some s
        → opening_refusal (layout_of D.scheme) (found (layout_of D.scheme) s) bound ≡ None
        → Opens D.Meaning C.Store old bound number result
        → IsCompleteOf C.Store D.inside old result }
    ensures commit { (old : D) (result : Result D (Refusal D C))
        → IsSettling D.Meaning C.Store (λ list. settled) (λ list s. ReadsAs s.stable (IsImage s)) old result
        → IsCompleteOf C.Store D.inside (D.inside old) result }
    ensures sync { (old : D) (result : Result D (Refusal D C))
        → IsSettling D.Meaning C.Store (synced D.scheme) (LeavesSync D.scheme) old result
        → IsCompleteOf C.Store D.inside (D.inside old) result }
    ensures prune { (old : D) (to : ℕ) (result : Result D (Refusal D C)) (list : List Operation)
        → D.stands old list → to ≤ D.scheme.boundary list
        → IfErr result (IsUnpruned D.Meaning C.Store to old)
        → IsCompleteOf C.Store D.inside (D.inside old) result }
    ensures destroy { (old : D) (result : Result C (Refusal D C))
        → IsDestroying D.Meaning C.Store old result
        → IsCompleteOf C.Store D.inside (D.inside old) result }
{}

/// An apply of a batch whose chain has the database's list.
pub fn applying_is_complete<C: Store, D: Making<C>>()
    ensures { (old : D) (batch : D.Merkleized) (result : Result D (Refusal D C)) (list : List Operation) (chain : Chain) (tip : List Operation)
        → D.stands old list → D.is_merkleized batch chain tip → IsOnChain list chain
        → Applies D.Meaning C.Store old batch result
        → IsCompleteOf C.Store D.inside (D.inside old) result }
{}

/// The calls that make a batch's list, of a plain batch or a staged one: the chain began on this instance and has the database's list, and no
/// own operation is too large, nor the list.
pub fn making_is_complete<C: Store, D: Making<C>>()
    ensures { (old new : D) (result : Result D.Merkleized Error) (n : ℕ) (list : List Operation) (chain : Chain) (tip : List Operation) (evicted : List (Bytes × Bytes))
        → D.numbered old n → takes D.scheme.grafts n chain.instance ≡ true → IsOnChain list chain → tip_refusal D.scheme.form chain tip ≡ None
        → Makes D.Meaning C.Store old list chain tip evicted result
        → ReadsOnly D.Meaning C.Store old new result
        → IsComplete C.Store (D.inside old) (D.inside new) result }
{}

/// The calls that read a database that stands for a list (`get`, and an ordered one's `next`, `prev`, `span`, `all`, `range` and `keys`), and those that
/// read through a batch whose chain and tip the list is known to (`get_through`, `get_from`, `stage`, `expand`, `next_from`, `prev_from`).
pub fn reading_is_complete<C: Store, D: Reading<C>, A>()
    ensures plain { (old new : D) (result : Result A Error) (list : List Operation)
        → D.stands old list
        → IfErr result (λ e. (list : List Operation) → D.stands old list → refusal_of e ≡ None)
        → ReadsOnly D.Meaning C.Store old new result
        → IsComplete C.Store (D.inside old) (D.inside new) result }
    ensures through { (old new : D) (result : Result A Error) (list : List Operation) (chain : Chain) (tip : List Operation)
        → IsKnown list chain tip
        → IfErr result (IsReadFailure D.Meaning list chain tip)
        → ReadsOnly D.Meaning C.Store old new result
        → IsComplete C.Store (D.inside old) (D.inside new) result }
{}

/// The calls that prove: what is due of them is told by the list, the start and what is asked, and here nothing is.
pub fn proving_is_complete<C: Store, D: Proving<C>, A>()
    ensures prove { (old new : D) (result : Result A Error) (size start : ℕ) (list : List Operation)
        → D.stands old list → proof_refusal (C.start (D.inside old)) list size start ≡ None
        → IfErr result (λ e. (list : List Operation) → D.stands old list → IsDue e (proof_refusal (C.start (D.inside old)) list size start))
        → ReadsOnly D.Meaning C.Store old new result
        → IsComplete C.Store (D.inside old) (D.inside new) result }
    ensures pins { (db : D) (result : Result A Error) (at : ℕ) (list : List Operation)
        → D.stands db list → pins_lacked D.scheme.shape (C.start (D.inside db)) list at ≡ None
        → IfErr result (λ e. (list : List Operation) → D.stands db list → IsDue e (pins_lacked D.scheme.shape (C.start (D.inside db)) list at))
        → IfErr result (λ e. (e ≢ StaleBatch) × (e ≢ Journal journal.Store))
        → IfErr result (λ e. e ≡ Memory) }
    ensures proof { (db : D) (result : Result A Error) (list : List Operation) (chain : Chain) (tip : List Operation)
        → IsKnown list chain tip → proof_lacked D.scheme.shape (C.start (D.inside db)) list chain tip ≡ None
        → IfErr result (IsProofFailure D.Meaning (C.start (D.inside db)) list chain tip)
        → IfErr result (λ e. (e ≢ StaleBatch) × (e ≢ Journal journal.Store))
        → IfErr result (λ e. e ≡ Memory) }
{}
