//! What holds of every database, each as the contract of a function that does nothing.

ghost use Rattle.std.specs.Prelude.{◌≡◌, ◌↔◌, ℕ, suc, ◌<◌, false, List, Option, None, Some, Result, IfOk, IfErr, slice_index_or};
ghost use Rattle.qm_model.specs.Opening.{opened_list};
ghost use Rattle.qm_model.specs.Operations.{Operation};
ghost use Rattle.qm_model.specs.Own.{Log, IsOwn};
ghost use Rattle.qm_model.specs.Schemes.{engine_of};
ghost use Rattle.qm_model.specs.StoreModel.{Stored};
ghost use Rattle.qm_model.specs.Taken.{selected_size};
ghost use Rattle.qm_base.specs.declared.error.Error.{Error};
ghost use Rattle.qm_chain.specs.Bounds.{Bounds, knows};
ghost use Rattle.qm_store.specs.declared.refusal.Refusal.{Refusal};
ghost use Rattle.qm_bits.specs.Bitmaps.{all_bits};
ghost use Rattle.qm_any.specs.Layouts.{Layout};
ghost use Rattle.qm_any.specs.Databases.{Database, IsDatabase};
ghost use Rattle.qm_any.specs.Offered.{scheme_of};
ghost use Rattle.qm_any.specs.Opening.{OpensUpTo};
ghost use Rattle.qm_any.specs.Reading.{IsFault, IsFaultThrough, Reads, ReadsThrough};

use qm_model::laws::Ruled;
use qm_store::Store;

/// Of a database that stands for a list: each bit below its floor is clear.
pub fn bits_below_the_floor_are_clear<C: Store, D>()
    ensures { (layout : Layout D) (db : Database C D) (list : List Operation) (i : ℕ)
        → IsDatabase C.Store layout db list → i < db.floor
        → slice_index_or (all_bits layout.chunk db.activity) i false ≡ false }
{}

/// Its floor is a location of the list, and its commit exactly if no key is live.
pub fn an_empty_database_has_its_floor_at_the_commit<C: Store, D>()
    ensures within { (layout : Layout D) (db : Database C D) (list : List Operation)
        → IsDatabase C.Store layout db list
        → db.floor < db.commitment.size }
    ensures empty { (layout : Layout D) (db : Database C D) (list : List Operation)
        → IsDatabase C.Store layout db list → (db.live ≡ 0)
        ↔ (suc db.floor ≡ db.commitment.size) }
{}

/// Of an own store, which databases of its kind left: where it is opened up to a bound, the database stands for the first operations of the
/// store's list, as many as the last commit within the bound selects, or for the fresh list where none is selected.
pub fn an_own_store_is_opened_to_the_beginning_of_its_list<C: Store, D, P: Ruled>()
    ensures { (layout : Layout D) (digest_size : ℕ) (bound : Option ℕ) (old : C)
        (result : Result (Database C D) (Refusal (Database C D) C)) (log : Log) (s : Stored)
        → let m = scheme_of digest_size layout.hashing in
        IsOwn (engine_of m P.rules) log s → C.told old ≡ Some s
        → OpensUpTo C.Store layout digest_size None bound old result
        → IfOk result (λ db.
        IsDatabase C.Store layout db (opened_list (selected_size m bound s) log.list)) }
{}

/// Of a database that stands for a list: a read fails for want of memory, or by the store, whose count of faults rose; one through a batch also
/// because the batch does not know the database's state. Nothing else refuses it.
pub fn a_read_of_a_list_fails_for_memory_or_its_store<C: Store, D, A>()
    ensures alone { (layout : Layout D) (old new : Database C D) (list : List Operation)
        (result : Result A Error) → IsDatabase C.Store layout old list
        → Reads C.Store layout old new result
        → IfErr result (IsFault C.Store old.log new.log) }
    ensures through { (layout : Layout D) (old new : Database C D) (list : List Operation)
        (bounds : Bounds) (result : Result A Error) → IsDatabase C.Store layout old list
        → ReadsThrough C.Store layout old new result bounds
        → IfErr result (IsFaultThrough C.Store (knows bounds old.commitment) old.log new.log) }
{}
