//! Reads in key order, of an ordered database and through its batches.

ghost use Rattle.std.specs.Prelude.{◌≡◌, Option, Some, true, map, option_map, IfOk};
ghost use Rattle.qm_model.specs.Live.{live, live_keys, live_of};
ghost use Rattle.qm_model.specs.Operations.{Bytes};
ghost use Rattle.qm_model.specs.Ranges.{key_above, key_below, keys_in, pairs_in};
ghost use Rattle.qm_base.specs.Views.{limit_of, pair_view};
ghost use Rattle.qm_step.specs.Rings.{holder_of};
ghost use Rattle.qm_step.specs.Views.{read_view};
ghost use Rattle.qm_any.specs.Reading.{AtList, AtMade, Reads, ReadsThrough};

use crate::batch::MerkleizedBatch;
use crate::db::Db;
use qm_any::db::{Db as AnyDb, LaidOut};
use qm_any::{keys_of, pairs_of};
use qm_base::{ByteString, Digest, Error, Hasher, Location};
use qm_bits::Chunks;
use qm_chunks::Graftable;
use qm_merkle::Family;
use qm_operations::{Update, ValueEncoding};
use qm_step::kind::Steps;
use qm_store::Store;
use std::alloc::Global;
use std::ops::Bound;

impl<
    F: Graftable,
    C: Store,
    I: qm_index::Unordered<Value = Location<F>>,
    H: Hasher,
    U: Steps<F, I>,
    N: Chunks,
> Db<F, C, I, H, U, N> {
    /// The live update whose span holds the key, with its location: the key's own, or else that of the nearest live key
    /// before it, around the ring; none only if no key is live.
    pub fn get_span(
        &mut self,
        alloc: Global,
        key: &U::Key,
    ) -> Result<Option<(Location<F>, U)>, Error>
        requires { U.form.ordered ≡ true }
        ensures value { AtList C.Store ⟦<AnyDb<F, C, I, H, U, N> as LaidOut>⟧.layout self.old.any
            (λ list. IfOk result
            (λ found. option_map (read_view U.view) found ≡ holder_of list (U.Key.bytes key.now))) }
        ensures reads { Reads C.Store ⟦<AnyDb<F, C, I, H, U, N> as LaidOut>⟧.layout self.old.any
            self.new.any result }
        ensures rest { self.new ≡ record self.old { any = self.new.any } }
    {
        self.any.get_span(alloc, key)
    }

    /// The value of a key and the next live key, around the ring, if the key is live.
    pub fn get_all(
        &mut self,
        alloc: Global,
        key: &U::Key,
    ) -> Result<Option<(U::Value, U::Key)>, Error>
        requires { U.form.ordered ≡ true }
        ensures value { AtList C.Store ⟦<AnyDb<F, C, I, H, U, N> as LaidOut>⟧.layout self.old.any
            (λ list. IfOk result (λ found. option_map {U = Bytes × Option Bytes}
            (λ p. (U.Value.bytes p.0, Some (U.Key.bytes p.1))) found
            ≡ option_map {U = Bytes × Option Bytes} (λ e. (e.value, e.next))
            (live_of (live list) (U.Key.bytes key.now)))) }
        ensures reads { Reads C.Store ⟦<AnyDb<F, C, I, H, U, N> as LaidOut>⟧.layout self.old.any
            self.new.any result }
        ensures rest { self.new ≡ record self.old { any = self.new.any } }
    {
        self.any.get_all(alloc, key)
    }

    /// The nearest live key above this one, which does not go round.
    pub fn get_next_key(&mut self, alloc: Global, key: &U::Key) -> Result<Option<U::Key>, Error>
        requires { U.form.ordered ≡ true }
        ensures value { AtList C.Store ⟦<AnyDb<F, C, I, H, U, N> as LaidOut>⟧.layout self.old.any
            (λ list. IfOk result (λ found.
            option_map U.Key.bytes found ≡ key_above (live_keys list) (U.Key.bytes key.now))) }
        ensures reads { Reads C.Store ⟦<AnyDb<F, C, I, H, U, N> as LaidOut>⟧.layout self.old.any
            self.new.any result }
        ensures rest { self.new ≡ record self.old { any = self.new.any } }
    {
        self.any.get_next_key(alloc, key)
    }

    /// The nearest live key below this one, which does not go round.
    pub fn get_prev_key(&mut self, alloc: Global, key: &U::Key) -> Result<Option<U::Key>, Error>
        requires { U.form.ordered ≡ true }
        ensures value { AtList C.Store ⟦<AnyDb<F, C, I, H, U, N> as LaidOut>⟧.layout self.old.any
            (λ list. IfOk result (λ found.
            option_map U.Key.bytes found ≡ key_below (live_keys list) (U.Key.bytes key.now))) }
        ensures reads { Reads C.Store ⟦<AnyDb<F, C, I, H, U, N> as LaidOut>⟧.layout self.old.any
            self.new.any result }
        ensures rest { self.new ≡ record self.old { any = self.new.any } }
    {
        self.any.get_prev_key(alloc, key)
    }

    // The live keys of a range with their values, by key.
    pub(crate) fn get_pairs(
        &mut self,
        alloc: Global,
        low: &Bound<U::Key>,
        high: &Bound<U::Key>,
    ) -> Result<Vec<(U::Key, U::Value)>, Error>
        requires { U.form.ordered ≡ true }
        ensures pairs { AtList C.Store ⟦<AnyDb<F, C, I, H, U, N> as LaidOut>⟧.layout self.old.any
            (λ list. IfOk result (λ pairs. map (pair_view U.Key.bytes U.Value.bytes) pairs.items
            ≡ pairs_in (limit_of U.Key.bytes low.now) (limit_of U.Key.bytes high.now) list)) }
        ensures reads { Reads C.Store ⟦<AnyDb<F, C, I, H, U, N> as LaidOut>⟧.layout self.old.any
            self.new.any result }
        ensures rest { self.new ≡ record self.old { any = self.new.any } }
    {
        pairs_of(alloc, &mut self.any, low, high)
    }

    // The live keys of a range, by key.
    pub(crate) fn get_keys(
        &mut self,
        alloc: Global,
        low: &Bound<U::Key>,
        high: &Bound<U::Key>,
    ) -> Result<Vec<U::Key>, Error>
        requires { U.form.ordered ≡ true }
        ensures keys { AtList C.Store ⟦<AnyDb<F, C, I, H, U, N> as LaidOut>⟧.layout self.old.any
            (λ list. IfOk result (λ keys. map U.Key.bytes keys.items
            ≡ keys_in (limit_of U.Key.bytes low.now) (limit_of U.Key.bytes high.now) list)) }
        ensures reads { Reads C.Store ⟦<AnyDb<F, C, I, H, U, N> as LaidOut>⟧.layout self.old.any
            self.new.any result }
        ensures rest { self.new ≡ record self.old { any = self.new.any } }
    {
        keys_of(alloc, &mut self.any, low, high)
    }
}

impl<F: Graftable, D: Digest, U: Update, N: Chunks> MerkleizedBatch<F, D, U, N> {
    /// The nearest live key above this one on the list that the batch makes, which does not go round. It is read if `get`
    /// can read.
    pub fn get_next_key<
        C: Store,
        I: qm_index::Unordered<Value = Location<F>>,
        H: Hasher<Digest = D>,
    >(
        &self,
        alloc: Global,
        key: &U::Key,
        db: &mut Db<F, C, I, H, U, N>,
    ) -> Result<Option<U::Key>, Error>
    where
        U: Steps<F, I>,
        requires { U.form.ordered ≡ true }
        ensures value { AtMade C.Store ⟦<AnyDb<F, C, I, H, U, N> as LaidOut>⟧.layout db.old.any
            self.now.any (λ chain tip. IfOk result (λ found.
            option_map U.Key.bytes found ≡ key_above (live_keys tip) (U.Key.bytes key.now))) }
        ensures reads { ReadsThrough C.Store ⟦<AnyDb<F, C, I, H, U, N> as LaidOut>⟧.layout
            db.old.any db.new.any result self.now.any.bounds }
        ensures rest { db.new ≡ record db.old { any = db.new.any } }
    {
        self.any.get_next_key(alloc, key, &mut db.any)
    }

    /// The nearest live key below this one on the list that the batch makes, which does not go round. It is read if `get`
    /// can read.
    pub fn get_prev_key<
        C: Store,
        I: qm_index::Unordered<Value = Location<F>>,
        H: Hasher<Digest = D>,
    >(
        &self,
        alloc: Global,
        key: &U::Key,
        db: &mut Db<F, C, I, H, U, N>,
    ) -> Result<Option<U::Key>, Error>
    where
        U: Steps<F, I>,
        requires { U.form.ordered ≡ true }
        ensures value { AtMade C.Store ⟦<AnyDb<F, C, I, H, U, N> as LaidOut>⟧.layout db.old.any
            self.now.any (λ chain tip. IfOk result (λ found.
            option_map U.Key.bytes found ≡ key_below (live_keys tip) (U.Key.bytes key.now))) }
        ensures reads { ReadsThrough C.Store ⟦<AnyDb<F, C, I, H, U, N> as LaidOut>⟧.layout
            db.old.any db.new.any result self.now.any.bounds }
        ensures rest { db.new ≡ record db.old { any = db.new.any } }
    {
        self.any.get_prev_key(alloc, key, &mut db.any)
    }
}
