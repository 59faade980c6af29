//! Scans of ranges of an ordered list in key order, which read a bucket if they have nothing left that is read.

ghost use Rattle.std.specs.Prelude.{◌≡◌, ◌≢◌, ◌≤◌, true, List, [], fold, map, option_map, All, IfSome, IfOk, OnOk};
ghost use Rattle.qm_model.specs.Forms.{IsOf, spelling};
ghost use Rattle.qm_model.specs.Operations.{Operation};
ghost use Rattle.qm_model.specs.Ranges.{Limit, unlimited};
ghost use Rattle.qm_base.specs.Reads.{ReadsItems};
ghost use Rattle.qm_step.specs.Lent.{IsLent, ReadsLent};
ghost use Rattle.qm_step.specs.Nearest.{limit_view};
ghost use Rattle.qm_base.specs.Views.{limit_of, pair_view};
ghost use Rattle.std.specs.Option.{option_transpose};
ghost use Rattle.qm_batch.specs.Gathered.{put_at};
ghost use Rattle.qm_batch.specs.Scans.{AreNext, BeginsAt, IsStep, IsTaken, beginning, behind, nowhere, behind_first, left_of, place_view, unwrapped};

mod gather;

use self::gather::{bytes_of, pairs_at};
use qm_base::{ByteString, Error, Items, Location};
use qm_operations::Update;
use qm_step::kind::Steps;
use std::alloc::{AllocError, Global};
use std::collections::VecDeque;
use std::marker::Model;
use std::ops::Bound;

// Where a scan reads next: where its range begins, after the bucket of a key, or nowhere.
#[derive(Drop)]
pub enum Place<K> {
    Beginning,
    Behind(K),
    Nowhere,
}

// Pairs that were read, by key, and where to read next.
#[derive(Drop)]
struct Found<U: Update> {
    pairs: Vec<(U::Key, U::Value)>,
    place: Place<U::Key>,
}

/// A scan of the keys in a range with their values, in key order, over an index and a log that are lent to each step.
#[derive(Drop)]
pub struct Scan<U: Update> {
    low: Bound<U::Key>,
    high: Bound<U::Key>,
    place: Place<U::Key>,
    ready: VecDeque<(U::Key, U::Value)>,
}

impl<U: Update> Model for Scan<U> {
    ghost use Rattle.std.specs.Prelude.{map};
    ghost use Rattle.qm_base.specs.Views.{limit_of, pair_view};
    ghost use Rattle.qm_batch.specs.Scans.{Scanning, place_view};

    ghost Value = { Scanning };

    ghost view = { λ s. record { low = limit_of U.Key.bytes s.low; high = limit_of U.Key.bytes s.high; place = place_view U.Key.bytes s.place; ready = map (pair_view U.Key.bytes U.Value.bytes) s.ready.items } };
}

impl<U: Update> Scan<U> {
    /// A scan of a range, of which nothing is read yet.
    pub fn new(alloc: Global, low: Bound<U::Key>, high: Bound<U::Key>) -> Self
        ensures { result
            ≡ record {
              low = limit_of U.Key.bytes low;
              high = limit_of U.Key.bytes high;
              place =
                  beginning;
              ready = [];
            } }
    {
        Scan {
            low,
            high,
            place: Place::Beginning,
            ready: VecDeque::new(alloc),
        }
    }

    /// The next key of the range and its value, or nothing if none is left. It reads only if nothing that was read is
    /// left: the next bucket, and after a beginning whose own bucket has no key in the range the one after that too. A
    /// refused read leaves all that was left, and the next call reads that bucket again.
    pub fn next<F, I: qm_index::Unordered<Value = Location<F>>, L: Items>(
        &mut self,
        alloc: Global,
        index: &I,
        log: &mut L,
    ) -> Option<Result<(U::Key, U::Value), Error>>
    where
        U: Steps<F, I>,
        requires { U.form.ordered ≡ true }
        ensures value { (list : List Operation)
            → IsLent L.reads U.form I.index_key (I.entries index.now) log.old list
            → IfSome (L.reads.told log.old) (λ _. IsStep (pair_view U.Key.bytes U.Value.bytes)
            (left_of I.index_key self.old list) (left_of I.index_key self.new list) result) }
        ensures reads { ReadsLent L.reads U.form I.index_key (I.entries index.now) log.old log.new
            (option_transpose result) }
    {
        if let Some(pair) = self.take() {
            return Some(Ok(pair));
        }
        if let Err(error) = self.read_on(alloc, index, log) {
            return Some(Err(error));
        }
        if let Some(pair) = self.take() {
            return Some(Ok(pair));
        }
        self.next_behind(alloc, index, log)
    }

    // The same for a scan that has begun and has nothing left that was read.
    fn next_behind<F, I: qm_index::Unordered<Value = Location<F>>, L: Items>(
        &mut self,
        alloc: Global,
        index: &I,
        log: &mut L,
    ) -> Option<Result<(U::Key, U::Value), Error>>
    where
        U: Steps<F, I>,
        requires ordered { U.form.ordered ≡ true }
        requires begun { self.old.place ≢ beginning }
        requires empty { self.old.ready ≡ [] }
        ensures value { (list : List Operation)
            → IsLent L.reads U.form I.index_key (I.entries index.now) log.old list
            → IfSome (L.reads.told log.old) (λ _. IsStep (pair_view U.Key.bytes U.Value.bytes)
            (left_of I.index_key self.old list) (left_of I.index_key self.new list) result) }
        ensures reads { ReadsLent L.reads U.form I.index_key (I.entries index.now) log.old log.new
            (option_transpose result) }
    {
        match self.read_on(alloc, index, log) {
            Ok(()) => match self.take() {
                Some(pair) => Some(Ok(pair)),
                None => None,
            },
            Err(error) => Some(Err(error)),
        }
    }

    // The first of the pairs that were read.
    fn take(&mut self) -> Option<(U::Key, U::Value)>
        ensures { IsTaken (pair_view U.Key.bytes U.Value.bytes) self.old self.new result }
    {
        self.ready.pop_front()
    }

    // Reads on if nothing that was read is left: the first bucket, or the next one, or none if the range is over.
    fn read_on<F, I: qm_index::Unordered<Value = Location<F>>, L: Items>(
        &mut self,
        alloc: Global,
        index: &I,
        log: &mut L,
    ) -> Result<(), Error>
    where
        U: Steps<F, I>,
        requires ordered { U.form.ordered ≡ true }
        requires empty { self.old.ready ≡ [] }
        ensures value { (list : List Operation)
            → IsLent L.reads U.form I.index_key (I.entries index.now) log.old list
            → IfSome (L.reads.told log.old) (λ _.
            left_of I.index_key self.new list ≡ left_of I.index_key self.old list) }
        ensures over { (list : List Operation)
            → IsLent L.reads U.form I.index_key (I.entries index.now) log.old list
            → IfSome (L.reads.told log.old) (λ _.
            OnOk result (self.old.place ≢ beginning → self.new.ready ≡ []
            → left_of I.index_key self.new list ≡ [])) }
        ensures begun { OnOk result (self.new.place ≢ beginning) }
        ensures reads { ReadsLent L.reads U.form I.index_key (I.entries index.now) log.old log.new
            result }
    {
        let found: Found<U> = read_at(alloc, index, log, &self.place, &self.low, &self.high)?;
        self.ready = VecDeque::from_vec(found.pairs);
        self.place = found.place;
        Ok(())
    }
}

// The next pairs of a range from a place on.
fn read_at<F, I: qm_index::Unordered<Value = Location<F>>, L: Items, U: Steps<F, I>>(
    alloc: Global,
    index: &I,
    log: &mut L,
    place: &Place<U::Key>,
    low: &Bound<U::Key>,
    high: &Bound<U::Key>,
) -> Result<Found<U>, Error>
    requires { U.form.ordered ≡ true }
    ensures value { (list : List Operation)
        → IsLent L.reads U.form I.index_key (I.entries index.now) log.old list
        → IfSome (L.reads.told log.old) (λ _.
        IfOk result (λ found. AreNext I.index_key (limit_of U.Key.bytes low.now)
        (limit_of U.Key.bytes high.now) list (place_view U.Key.bytes place.now)
        (map (pair_view U.Key.bytes U.Value.bytes) found.pairs.items)
        (place_view U.Key.bytes found.place))) }
    ensures over { IfOk result (λ found. place_view U.Key.bytes place.now ≢ beginning
        → map (pair_view U.Key.bytes U.Value.bytes) found.pairs.items ≡ []
        → place_view U.Key.bytes found.place ≡ nowhere) }
    ensures begun { IfOk result (λ found. place_view U.Key.bytes found.place ≢ beginning) }
    ensures reads { ReadsLent L.reads U.form I.index_key (I.entries index.now) log.old log.new
        result }
{
    match place {
        Place::Beginning => read_beginning(alloc, index, log, low, high),
        Place::Behind(key) => read_next(alloc, index, log, key, high),
        Place::Nowhere => Ok(nothing(alloc)),
    }
}

// The first pairs of a range.
fn read_beginning<F, I: qm_index::Unordered<Value = Location<F>>, L: Items, U: Steps<F, I>>(
    alloc: Global,
    index: &I,
    log: &mut L,
    low: &Bound<U::Key>,
    high: &Bound<U::Key>,
) -> Result<Found<U>, Error>
    requires { U.form.ordered ≡ true }
    ensures value { (list : List Operation)
        → IsLent L.reads U.form I.index_key (I.entries index.now) log.old list
        → IfSome (L.reads.told log.old) (λ _. IfOk result (λ found.
        AreNext I.index_key (limit_of U.Key.bytes low.now) (limit_of U.Key.bytes high.now) list
        beginning (map (pair_view U.Key.bytes U.Value.bytes) found.pairs.items)
        (place_view U.Key.bytes found.place))) }
    ensures begun { IfOk result (λ found. place_view U.Key.bytes found.place ≢ beginning) }
    ensures reads { ReadsLent L.reads U.form I.index_key (I.entries index.now) log.old log.new
        result }
{
    match low {
        Bound::Included(key) | Bound::Excluded(key) => {
            read_own(alloc, index, log, key, bytes_of(low), bytes_of(high))
        }
        Bound::Unbounded => read_first(alloc, index, log, bytes_of(high)),
    }
}

// The pairs of a range in the bucket of the key where it begins.
fn read_own<F, I: qm_index::Unordered<Value = Location<F>>, L: Items, U: Steps<F, I>>(
    alloc: Global,
    index: &I,
    log: &mut L,
    key: &U::Key,
    low: Bound<&[u8]>,
    high: Bound<&[u8]>,
) -> Result<Found<U>, Error>
    requires { U.form.ordered ≡ true }
    ensures value { (list : List Operation)
        → IsLent L.reads U.form I.index_key (I.entries index.now) log.old list
        → BeginsAt (U.Key.bytes key.now) (limit_view low.entry)
        → IfSome (L.reads.told log.old) (λ _.
        IfOk result (λ found. AreNext I.index_key (limit_view low.entry) (limit_view high.entry)
        list beginning (map (pair_view U.Key.bytes U.Value.bytes) found.pairs.items)
        (place_view U.Key.bytes found.place))) }
    ensures begun { IfOk result (λ found. place_view U.Key.bytes found.place ≢ beginning) }
    ensures reads { ReadsLent L.reads U.form I.index_key (I.entries index.now) log.old log.new
        result }
{
    let pairs = pairs_at::<F, L, U>(alloc, log, index.bucket(key.as_bytes()), low, high)?;
    let key = key.twin(alloc)?;
    Ok(Found {
        pairs,
        place: Place::Behind(key),
    })
}

// The pairs of a range without a beginning in the first bucket.
fn read_first<F, I: qm_index::Unordered<Value = Location<F>>, L: Items, U: Steps<F, I>>(
    alloc: Global,
    index: &I,
    log: &mut L,
    high: Bound<&[u8]>,
) -> Result<Found<U>, Error>
    requires { U.form.ordered ≡ true }
    ensures value { (list : List Operation)
        → IsLent L.reads U.form I.index_key (I.entries index.now) log.old list
        → IfSome (L.reads.told log.old) (λ _.
        IfOk result (λ found. AreNext I.index_key unlimited (limit_view high.entry) list beginning
        (map (pair_view U.Key.bytes U.Value.bytes) found.pairs.items)
        (place_view U.Key.bytes found.place))) }
    ensures begun { IfOk result (λ found. place_view U.Key.bytes found.place ≢ beginning) }
    ensures reads { ReadsLent L.reads U.form I.index_key (I.entries index.now) log.old log.new
        result }
{
    match U::first_bucket(index) {
        Some(bucket) => read_bucket(alloc, log, bucket, high),
        None => Ok(nothing(alloc)),
    }
}

// The pairs of a range in the bucket after a key's, from which on all keys are after the beginning.
fn read_next<F, I: qm_index::Unordered<Value = Location<F>>, L: Items, U: Steps<F, I>>(
    alloc: Global,
    index: &I,
    log: &mut L,
    key: &U::Key,
    high: &Bound<U::Key>,
) -> Result<Found<U>, Error>
    requires { U.form.ordered ≡ true }
    ensures value { (list : List Operation) (low : Limit)
        → IsLent L.reads U.form I.index_key (I.entries index.now) log.old list
        → IfSome (L.reads.told log.old) (λ _.
        IfOk result (λ found. AreNext I.index_key low (limit_of U.Key.bytes high.now) list
        (behind (U.Key.bytes key.now)) (map (pair_view U.Key.bytes U.Value.bytes) found.pairs.items)
        (place_view U.Key.bytes found.place))) }
    ensures over { IfOk result (λ found.
        map (pair_view U.Key.bytes U.Value.bytes) found.pairs.items ≡ []
        → place_view U.Key.bytes found.place ≡ nowhere) }
    ensures begun { IfOk result (λ found. place_view U.Key.bytes found.place ≢ beginning) }
    ensures reads { ReadsLent L.reads U.form I.index_key (I.entries index.now) log.old log.new
        result }
{
    match unwrapped(U::bucket_behind(index, key.as_bytes())) {
        Some(bucket) => read_bucket(alloc, log, bucket, bytes_of(high)),
        None => Ok(nothing(alloc)),
    }
}

// The bucket after a key's, unless the way there goes round.
fn unwrapped<F>(found: Option<(&[Location<F>], bool)>) -> Option<&[Location<F>]>
    ensures { option_map (λ b. b.now) result
        ≡ unwrapped (option_map (λ b. (b.0.now, b.1)) found.entry) }
{
    match found {
        Some((_, true)) => None,
        Some((bucket, false)) => Some(bucket),
        None => None,
    }
}

// The pairs of a bucket before the end of a range. If it has none the range is over.
fn read_bucket<F, L: Items, U: Update>(
    alloc: Global,
    log: &mut L,
    locations: &[Location<F>],
    high: Bound<&[u8]>,
) -> Result<Found<U>, Error>
    ensures value { (list : List Operation) → L.reads.logged log.old (map (spelling U.form) list)
        → All (IsOf U.form) list
        → IfSome (L.reads.told log.old) (λ _.
        IfOk result (λ found. map (pair_view U.Key.bytes U.Value.bytes) found.pairs.items
        ≡ fold (put_at unlimited (limit_view high.entry) list) [] locations.now)) }
    ensures place { IfOk result (λ found. place_view U.Key.bytes found.place
        ≡ behind_first (map (pair_view U.Key.bytes U.Value.bytes) found.pairs.items)) }
    ensures reads { ReadsItems L.reads log.old log.new result
        (All (λ at. L.reads.start log.old ≤ at) locations.now) }
{
    let pairs = pairs_at::<F, L, U>(alloc, log, locations, Bound::Unbounded, high)?;
    let place = behind(alloc, &pairs)?;
    Ok(Found { pairs, place })
}

// The place after the bucket of the first pair; nowhere if there is none.
fn behind<K: ByteString, V: ByteString>(
    alloc: Global,
    pairs: &[(K, V)],
) -> Result<Place<K>, AllocError>
    ensures { IfOk result (λ place.
        place_view K.bytes place ≡ behind_first (map (pair_view K.bytes V.bytes) pairs.now)) }
{
    match pairs.first() {
        Some((key, _)) => {
            let key = key.twin(alloc)?;
            Ok(Place::Behind(key))
        }
        None => Ok(Place::Nowhere),
    }
}

// No pairs, after all keys.
fn nothing<U: Update>(alloc: Global) -> Found<U>
    ensures pairs { result.pairs.items ≡ [] }
    ensures place { place_view U.Key.bytes result.place ≡ nowhere }
{
    Found {
        pairs: Vec::new(alloc),
        place: Place::Nowhere,
    }
}
