//! Scans of an ordered database: the keys of a range with their values, in key order.

ghost use Rattle.std.specs.Prelude.{◌≡◌, List, true};
ghost use Rattle.std.specs.Option.{option_transpose};
ghost use Rattle.qm_model.specs.Operations.{Operation};
ghost use Rattle.qm_model.specs.Ranges.{keys_in, pairs_in};
ghost use Rattle.qm_base.specs.Views.{limit_of, pair_view};
ghost use Rattle.qm_batch.specs.Scans.{IsStep, left_of};
ghost use Rattle.qm_any.specs.Reading.{AtList, Reads};
ghost use Rattle.qm_current.specs.Reading.{keys_left, lent_to, lent_to_keys, pairs_left};

use crate::db::Db;
use qm_any::db as any;
use qm_any::db::LaidOut;
use qm_base::{ByteString, Error, Hasher, Location};
use qm_batch::Scan;
use qm_bits::Chunks;
use qm_chunks::Graftable;
use qm_merkle::Family;
use qm_operations::{Update, ValueEncoding};
use qm_step::kind::Steps;
use qm_store::Store;
use std::alloc::Global;
use std::ops::Bound;

/// A scan of the keys of a range with their values, in key order. It has the database for itself.
#[derive(Drop)]
pub struct RangeScan<
    'a,
    F: Graftable,
    C: Store,
    I: qm_index::Unordered<Value = Location<F>>,
    H: Hasher,
    U: Update,
    N: Chunks,
> {
    alloc: Global,
    db: &'a mut Db<F, C, I, H, U, N>,
    scan: Scan<U>,
}

/// A scan of the keys of a range, in key order. It has the database for itself.
#[derive(Drop)]
pub struct KeyScan<
    'a,
    F: Graftable,
    C: Store,
    I: qm_index::Unordered<Value = Location<F>>,
    H: Hasher,
    U: Update,
    N: Chunks,
> {
    pairs: RangeScan<'a, F, C, I, H, U, N>,
}

impl<
    F: Graftable,
    C: Store,
    I: qm_index::Unordered<Value = Location<F>>,
    H: Hasher,
    U: Steps<F, I>,
    N: Chunks,
> Db<F, C, I, H, U, N> {
    /// Begins a scan of the live keys in a range with their values, in key order. It reads nothing yet. A range that ends
    /// before it begins has nothing.
    pub fn stream_range(
        &mut self,
        alloc: Global,
        low: Bound<U::Key>,
        high: Bound<U::Key>,
    ) -> RangeScan<'_, F, C, I, H, U, N>
        ensures value { (list : List Operation)
            → pairs_left I.index_key result list
            ≡ pairs_in (limit_of U.Key.bytes low) (limit_of U.Key.bytes high) list }
        ensures lent { (lent_to result).now ≡ self.old }
        ensures same { (lent_to result).ghost_name ≡ self.entry.ghost_name }
    {
        RangeScan {
            alloc,
            db: self,
            scan: Scan::new(alloc, low, high),
        }
    }

    /// Begins a scan of the live keys in a range, in key order. It reads nothing yet. A range that ends before it begins has
    /// nothing.
    pub fn keys(
        &mut self,
        alloc: Global,
        low: Bound<U::Key>,
        high: Bound<U::Key>,
    ) -> KeyScan<'_, F, C, I, H, U, N>
        ensures value { (list : List Operation)
            → keys_left I.index_key result list
            ≡ keys_in (limit_of U.Key.bytes low) (limit_of U.Key.bytes high) list }
        ensures lent { (lent_to_keys result).now ≡ self.old }
        ensures same { (lent_to_keys result).ghost_name ≡ self.entry.ghost_name }
    {
        KeyScan {
            pairs: self.stream_range(alloc, low, high),
        }
    }

    /// The next live key of a scan's range with its value, or nothing after the last, of a scan that has not the database for
    /// itself. A refused read, or want of memory, leaves all that was left. Between two calls the database stays as it is.
    pub fn scan_next(
        &mut self,
        alloc: Global,
        scan: &mut Scan<U>,
    ) -> Option<Result<(U::Key, U::Value), Error>>
        requires { U.form.ordered ≡ true }
        ensures value { AtList C.Store ⟦<any::Db<F, C, I, H, U, N> as LaidOut>⟧.layout self.old.any
            (λ list. IsStep (pair_view U.Key.bytes U.Value.bytes)
            (left_of I.index_key scan.old list) (left_of I.index_key scan.new list) result) }
        ensures reads { Reads C.Store ⟦<any::Db<F, C, I, H, U, N> as LaidOut>⟧.layout self.old.any
            self.new.any (option_transpose result) }
        ensures rest { self.new ≡ record self.old { any = self.new.any } }
    {
        self.any.scan_next(alloc, scan)
    }
}

impl<
    F: Graftable,
    C: Store,
    I: qm_index::Unordered<Value = Location<F>>,
    H: Hasher,
    U: Steps<F, I>,
    N: Chunks,
> RangeScan<'_, F, C, I, H, U, N> {
    /// The next live key of the range with its value, or nothing after the last. A refused read, or want of memory, leaves
    /// all that was left, and the next call reads the same bucket again.
    pub fn next(&mut self) -> Option<Result<(U::Key, U::Value), Error>>
        requires { U.form.ordered ≡ true }
        ensures value { AtList C.Store ⟦<any::Db<F, C, I, H, U, N> as LaidOut>⟧.layout
            (lent_to self.old).now.any (λ list. IsStep (pair_view U.Key.bytes U.Value.bytes)
            (pairs_left I.index_key self.old list) (pairs_left I.index_key self.new list)
            result) }
        ensures reads { Reads C.Store ⟦<any::Db<F, C, I, H, U, N> as LaidOut>⟧.layout
            (lent_to self.old).now.any (lent_to self.new).now.any (option_transpose result) }
        ensures rest { (lent_to self.new).now
            ≡ record (lent_to self.old).now { any = (lent_to self.new).now.any } }
        ensures same { (lent_to self.new).ghost_name ≡ (lent_to self.old).ghost_name }
    {
        self.db.scan_next(self.alloc, &mut self.scan)
    }
}

impl<
    F: Graftable,
    C: Store,
    I: qm_index::Unordered<Value = Location<F>>,
    H: Hasher,
    U: Steps<F, I>,
    N: Chunks,
> KeyScan<'_, F, C, I, H, U, N> {
    /// The next live key of the range, or nothing after the last. It reads as `RangeScan::next` does.
    pub fn next(&mut self) -> Option<Result<U::Key, Error>>
        requires { U.form.ordered ≡ true }
        ensures value { AtList C.Store ⟦<any::Db<F, C, I, H, U, N> as LaidOut>⟧.layout
            (lent_to_keys self.old).now.any (λ list. IsStep U.Key.bytes
            (keys_left I.index_key self.old list) (keys_left I.index_key self.new list) result) }
        ensures reads { Reads C.Store ⟦<any::Db<F, C, I, H, U, N> as LaidOut>⟧.layout
            (lent_to_keys self.old).now.any (lent_to_keys self.new).now.any
            (option_transpose result) }
        ensures rest { (lent_to_keys self.new).now
            ≡ record (lent_to_keys self.old).now { any = (lent_to_keys self.new).now.any } }
        ensures same { (lent_to_keys self.new).ghost_name ≡ (lent_to_keys self.old).ghost_name }
    {
        match self.pairs.next() {
            Some(Ok((key, _))) => Some(Ok(key)),
            Some(Err(error)) => Some(Err(error)),
            None => None,
        }
    }
}
