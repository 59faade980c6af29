//! Reads in key order, of an ordered database and through its batches.

ghost use Rattle.std.specs.Prelude.{◌≡◌, ◌≢◌, ◌⊎◌, ℕ, List, Option, Some, true, map, option_and_then, option_map, IfOk};
ghost use Rattle.qm_model.specs.Live.{live, live_keys, live_of};
ghost use Rattle.qm_model.specs.Operations.{Bytes, Operation};
ghost use Rattle.qm_model.specs.Ordered.{IsRing};
ghost use Rattle.qm_model.specs.Ranges.{key_above, key_below};
ghost use Rattle.qm_operations.specs.Parts.{value_of};
ghost use Rattle.qm_step.specs.Changes.{next_in};
ghost use Rattle.qm_step.specs.Layers.{LeadOver};
ghost use Rattle.qm_step.specs.Rings.{holder_of};
ghost use Rattle.qm_step.specs.Views.{read_view};
ghost use Rattle.qm_any.specs.Reading.{Reads, ReadsThrough, AtList, AtMade};

use crate::batch::MerkleizedBatch;
use crate::db::{Db, LaidOut};
use crate::operations::Step;
use qm_base::{Digest, Error, Hasher, JournalError, Location};
use qm_batch::{holder, next_key, previous_key, read_key};
use qm_bits::Chunks;
use qm_merkle::Family;
use qm_operations::Update;
use qm_step::kind::Steps;
use qm_store::Store;
use std::alloc::Global;

impl<
    F: Family,
    C: Store,
    I: qm_index::Unordered<Value = Location<F>>,
    H: Hasher,
    U: Steps<F, I>,
    N: Chunks,
> Db<F, C, I, H, U, N> {
    /// The live update whose span holds the key, with its location: the key's own, or else that of the nearest live key
    /// before it, around the ring; none only if no key is live. It takes the reads of two buckets at most.
    pub fn get_span(
        &mut self,
        alloc: Global,
        key: &U::Key,
    ) -> Result<Option<(Location<F>, U)>, Error>
        requires { U.form.ordered ≡ true }
        ensures value { AtList C.Store ⟦<Self as LaidOut>⟧.layout self.old (λ list. IfOk result
            (λ found. option_map (read_view U.view) found ≡ holder_of list (U.Key.bytes key.now))) }
        ensures reads { Reads C.Store ⟦<Self as LaidOut>⟧.layout self.old self.new result }
    {
        holder(alloc, &self.index, &mut self.log, &Vec::new(alloc), key)
    }

    /// The value of a key and the next live key, around the ring, if the key is live. It takes one read of the log for each
    /// location in the key's bucket, at most.
    pub fn get_all(
        &mut self,
        alloc: Global,
        key: &U::Key,
    ) -> Result<Option<(U::Value, U::Key)>, Error>
        requires { U.form.ordered ≡ true }
        ensures value { (list : List Operation) → ⟦<Self as LaidOut>⟧.stands self.old list
            → IfOk result (λ found. option_map {U = Bytes × Option Bytes}
            (λ p. (U.Value.bytes p.0, Some (U.Key.bytes p.1))) found
            ≡ option_map {U = Bytes × Option Bytes} (λ e. (e.value, e.next))
            (live_of (live list) (U.Key.bytes key.now))) }
        ensures reads { Reads C.Store ⟦<Self as LaidOut>⟧.layout self.old self.new result }
    {
        let steps: Vec<Step<F, U>> = Vec::new(alloc);
        let found = read_key(alloc, &self.index, &mut self.log, &steps, key)?;
        Ok(value_and_next(found))
    }

    /// The nearest live key above this one, which does not go round. It takes the reads of two buckets at most.
    pub fn get_next_key(&mut self, alloc: Global, key: &U::Key) -> Result<Option<U::Key>, Error>
        requires { U.form.ordered ≡ true }
        ensures value { AtList C.Store ⟦<Self as LaidOut>⟧.layout self.old (λ list.
            IfOk result (λ found.
            option_map U.Key.bytes found ≡ key_above (live_keys list) (U.Key.bytes key.now))) }
        ensures reads { Reads C.Store ⟦<Self as LaidOut>⟧.layout self.old self.new result }
    {
        self.next_over(alloc, &Vec::new(alloc), key)
    }

    /// The nearest live key below this one, which does not go round. It takes the reads of two buckets at most.
    pub fn get_prev_key(&mut self, alloc: Global, key: &U::Key) -> Result<Option<U::Key>, Error>
        requires { U.form.ordered ≡ true }
        ensures value { AtList C.Store ⟦<Self as LaidOut>⟧.layout self.old (λ list.
            IfOk result (λ found.
            option_map U.Key.bytes found ≡ key_below (live_keys list) (U.Key.bytes key.now))) }
        ensures reads { Reads C.Store ⟦<Self as LaidOut>⟧.layout self.old self.new result }
    {
        self.previous_over(alloc, &Vec::new(alloc), key)
    }

    // The nearest live key above this one on the base list of a batch of these steps.
    fn next_over(
        &mut self,
        alloc: Global,
        steps: &[Step<F, U>],
        key: &U::Key,
    ) -> Result<Option<U::Key>, Error>
        requires { U.form.ordered ≡ true }
        ensures value { (list base : List Operation) → ⟦<Self as LaidOut>⟧.stands self.old list
            → LeadOver (map (λ l. l.value) steps.now) list base → IsRing base
            → IfOk result (λ found.
            option_map U.Key.bytes found ≡ key_above (live_keys base) (U.Key.bytes key.now)) }
        ensures reads { Reads C.Store ⟦<Self as LaidOut>⟧.layout self.old self.new result }
    {
        next_key(alloc, &self.index, &mut self.log, steps, key)
    }

    // The nearest live key below this one on the base list of a batch of these steps.
    fn previous_over(
        &mut self,
        alloc: Global,
        steps: &[Step<F, U>],
        key: &U::Key,
    ) -> Result<Option<U::Key>, Error>
        requires { U.form.ordered ≡ true }
        ensures value { (list base : List Operation) → ⟦<Self as LaidOut>⟧.stands self.old list
            → LeadOver (map (λ l. l.value) steps.now) list base → IsRing base
            → IfOk result (λ found.
            option_map U.Key.bytes found ≡ key_below (live_keys base) (U.Key.bytes key.now)) }
        ensures reads { Reads C.Store ⟦<Self as LaidOut>⟧.layout self.old self.new result }
    {
        previous_key(alloc, &self.index, &mut self.log, steps, key)
    }
}

impl<F: Family, D: Digest, U: Update> MerkleizedBatch<F, D, U> {
    /// The nearest live key above this one on the list that the batch makes, which does not go round. It is read if `get`
    /// can read.
    pub fn get_next_key<
        C: Store,
        I: qm_index::Unordered<Value = Location<F>>,
        H: Hasher<Digest = D>,
        N: Chunks,
    >(
        &self,
        alloc: Global,
        key: &U::Key,
        db: &mut Db<F, C, I, H, U, N>,
    ) -> Result<Option<U::Key>, Error>
    where
        U: Steps<F, I>,
        requires { U.form.ordered ≡ true }
        ensures value { AtMade C.Store ⟦<Db<F, C, I, H, U, N> as LaidOut>⟧.layout db.old self.now
            (λ chain tip. IfOk result (λ found.
            option_map U.Key.bytes found ≡ key_above (live_keys tip) (U.Key.bytes key.now))) }
        ensures reads { ReadsThrough C.Store ⟦<Db<F, C, I, H, U, N> as LaidOut>⟧.layout db.old
            db.new result self.now.bounds }
    {
        self.known(db.commitment())?;
        db.next_over(alloc, &self.steps, key)
    }

    /// The nearest live key below this one on the list that the batch makes, which does not go round. It is read if `get`
    /// can read.
    pub fn get_prev_key<
        C: Store,
        I: qm_index::Unordered<Value = Location<F>>,
        H: Hasher<Digest = D>,
        N: Chunks,
    >(
        &self,
        alloc: Global,
        key: &U::Key,
        db: &mut Db<F, C, I, H, U, N>,
    ) -> Result<Option<U::Key>, Error>
    where
        U: Steps<F, I>,
        requires { U.form.ordered ≡ true }
        ensures value { AtMade C.Store ⟦<Db<F, C, I, H, U, N> as LaidOut>⟧.layout db.old self.now
            (λ chain tip. IfOk result (λ found.
            option_map U.Key.bytes found ≡ key_below (live_keys tip) (U.Key.bytes key.now))) }
        ensures reads { ReadsThrough C.Store ⟦<Db<F, C, I, H, U, N> as LaidOut>⟧.layout db.old
            db.new result self.now.bounds }
    {
        self.known(db.commitment())?;
        db.previous_over(alloc, &self.steps, key)
    }
}

// What a live update says of its key: the value and the next key, if it names one.
fn value_and_next<F, U: Update>(found: Option<(Location<F>, U)>) -> Option<(U::Value, U::Key)>
    ensures { U.form.ordered ≡ true
        → option_map {U = Bytes × Option Bytes} (λ p. (U.Value.bytes p.0, Some (U.Key.bytes p.1)))
        result
        ≡ option_and_then (λ p.
        option_map {U = Bytes × Option Bytes} (λ value. (value, next_in p.1)) (value_of p.1))
        (option_map (read_view U.view) found) }
{
    let (_, update) = found?;
    let (_, value, next) = update.into_parts();
    let next = next?;
    Some((value, next))
}
