//! The kinds of databases, where they differ: the index that one needs, and what it appends for writes and for what a walk
//! decides.

ghost use Rattle.std.specs.List.{IsDistinct};
ghost use Rattle.std.specs.Map.{keys_of};
ghost use Rattle.std.specs.Prelude.{bytes_eq, ◌≡◌, ◌≤◌, ◌++◌, true, ℕ, List, length, map, filter_map, option_map, All, IfOk};
ghost use Rattle.qm_index.specs.Buckets.{IsIndex, bucket_at};
ghost use Rattle.qm_index.specs.Neighbours.{least_key, neighbour_at, next_key, prev_key};
ghost use Rattle.qm_index.specs.Translated.{IsMonotone};
ghost use Rattle.qm_model.specs.Operations.{AreBytes};
ghost use Rattle.qm_model.specs.Operations as model;
ghost use Rattle.qm_model.specs.Step.{ordered, unordered};
ghost use Rattle.qm_model.specs.Writes as writes;
ghost use Rattle.qm_step.specs.Going.{write_for, IsDecided};
ghost use Rattle.qm_step.specs.Kinds.{kind_of, AreWritten, CountsMoves, HasRing};
ghost use Rattle.qm_step.specs.Moves.{before_evicted};
ghost use Rattle.qm_step.specs.OrderedViews.{neighbour_view};
ghost use Rattle.qm_step.specs.PlanViews.{decided_views, linked_view, touch_views};
ghost use Rattle.qm_step.specs.Rings.{linked_in, neighbour_in, touch_in};
ghost use Rattle.qm_step.specs.Touches.{operations_of};
ghost use Rattle.qm_step.specs.Views.{read_view};

use crate::decided::{Decided, add_decided};
use crate::links::linked_touches;
use crate::moves::moved_behind;
use crate::neighbour::Neighbour;
use crate::site::Site;
use crate::touch::Touch;
use crate::writes::written;
use qm_base::{ByteString, Location};
use qm_operations::{Ordered, Unordered, Update, ValueEncoding};
use std::alloc::{AllocError, Global};

/// An update of a kind of database over this index. Only here do the kinds differ; all else is over any of them.
pub trait Steps<F, I: qm_index::Unordered<Value = Location<F>>>: Update {
    /// In an ordered database the bucket of the greatest index key below the key's, or else, flagged as wrapped, of the
    /// greatest of all; none only if the index is empty.
    fn bucket_before<'a>(index: &'a I, key: &[u8]) -> Option<(&'a [Location<F>], bool)>
        ensures { Self.form.ordered ≡ true
            → option_map (λ b. (b.0.now, b.1)) result
            ≡ neighbour_at (I.entries index.now)
            (prev_key (keys_of (I.entries index.now)) (I.index_key key.now)) };

    /// In an ordered database the bucket of the least index key above the key's, or else, flagged as wrapped, of the least
    /// of all; none only if the index is empty.
    fn bucket_behind<'a>(index: &'a I, key: &[u8]) -> Option<(&'a [Location<F>], bool)>
        ensures value { Self.form.ordered ≡ true
            → option_map (λ b. (b.0.now, b.1)) result
            ≡ neighbour_at (I.entries index.now)
            (next_key (keys_of (I.entries index.now)) (I.index_key key.now)) }
        ensures index { Self.form.ordered ≡ true → IsIndex (I.entries index.now) };

    /// In an ordered database the bucket of the least index key; none only if the index is empty.
    fn first_bucket(index: &I) -> Option<&[Location<F>]>
        ensures value { Self.form.ordered ≡ true
            → option_map (λ b. b.now) result
            ≡ option_map (bucket_at (I.entries index.now))
            (least_key (keys_of (I.entries index.now))) }
        ensures index { Self.form.ordered ≡ true → IsIndex (I.entries index.now) };

    /// The operations of the last writes, of which it is known where their keys stand and, in an ordered database, what
    /// stands before those that are created or deleted.
    fn written(
        alloc: Global,
        sites: &[Site<'_, Self::Key, Self::Value>],
        neighbours: &[Neighbour<'_, F, Self>],
    ) -> Result<Vec<Touch<F, Self>>, AllocError>
        ensures { IfOk result (λ touches.
            (base : List model.Operation) (ws : List writes.Write) → HasRing Self.form base
            → map (linked_view Self.Key.bytes Self.Value.bytes) sites.now
            ≡ map (linked_in base) (writes.last_writes ws)
            → (Self.form.ordered ≡ true
            → map (neighbour_view Self.view Self.Key.bytes) neighbours.now
            ≡ filter_map (neighbour_in base) (writes.last_writes ws))
            → AreWritten (kind_of Self.form) base ws
            (touch_views Self.view Self.Key.bytes Self.Value.bytes touches.items)) };

    /// The operations of writes, and after them those of what was decided of the list with them. In an ordered database
    /// the live updates before the keys that go were found.
    fn moved(
        alloc: Global,
        size: u64,
        made: Vec<Touch<F, Self>>,
        decided: Vec<Decided<Self::Key, Self::Value>>,
        found: &[(Location<F>, Self)],
    ) -> Result<Vec<Touch<F, Self>>, AllocError>
        ensures value { IfOk result (λ touches. (list : List model.Operation)
            (ws : List writes.Write) → size ≡ length list → HasRing Self.form list
            → AreWritten (kind_of Self.form) list ws
            (touch_views Self.view Self.Key.bytes Self.Value.bytes made.items)
            → All (IsDecided list (list
            ++ operations_of (touch_views Self.view Self.Key.bytes Self.Value.bytes made.items)))
            (decided_views Self.Key.bytes Self.Value.bytes decided.items)
            → IsDistinct bytes_eq (map (λ d. d.key)
            (map write_for (decided_views Self.Key.bytes Self.Value.bytes decided.items)))
            → (Self.form.ordered ≡ true
            → map (read_view Self.view) found.now
            ≡ filter_map (before_evicted (list
            ++ operations_of (touch_views Self.view Self.Key.bytes Self.Value.bytes made.items)))
            (decided_views Self.Key.bytes Self.Value.bytes decided.items))
            → touch_views Self.view Self.Key.bytes Self.Value.bytes touches.items
            ≡ touch_views Self.view Self.Key.bytes Self.Value.bytes made.items
            ++ map (touch_in list) ((kind_of Self.form).moves (list
            ++ operations_of (touch_views Self.view Self.Key.bytes Self.Value.bytes made.items))
            (map write_for (decided_views Self.Key.bytes Self.Value.bytes decided.items)))) }
        ensures live { CountsMoves (kind_of Self.form).moves }
        ensures count { IfOk result (λ touches. length made.items ≤ length touches.items) };

    ghost known_bytes: { (bs : List ℕ) → Self.form.is_key bs ≡ true → AreBytes bs };

    ghost monotone: { Self.form.ordered ≡ true → IsMonotone I.index_key };
}

impl<F, I: qm_index::Unordered<Value = Location<F>>, K: ByteString, V: ValueEncoding<K>> Steps<F, I>
    for Unordered<K, V> {
    ghost use Rattle.std.proofs.Common.{sym, true≢false};

    ghost known_bytes = { K.are_bytes };

    ghost monotone = { λ is. absurd (true≢false (sym is)) };

    fn bucket_before<'a>(_index: &'a I, _key: &[u8]) -> Option<(&'a [Location<F>], bool)> {
        None
    }

    fn bucket_behind<'a>(_index: &'a I, _key: &[u8]) -> Option<(&'a [Location<F>], bool)> {
        None
    }

    fn first_bucket(_index: &I) -> Option<&[Location<F>]> {
        None
    }

    fn written(
        alloc: Global,
        sites: &[Site<'_, K, V::Value>],
        _neighbours: &[Neighbour<'_, F, Self>],
    ) -> Result<Vec<Touch<F, Self>>, AllocError> {
        written(alloc, sites)
    }

    fn moved(
        _alloc: Global,
        size: u64,
        made: Vec<Touch<F, Self>>,
        decided: Vec<Decided<K, V::Value>>,
        _found: &[(Location<F>, Self)],
    ) -> Result<Vec<Touch<F, Self>>, AllocError>
        ensures value { IfOk result (λ touches.
            (list : List model.Operation) (ws : List writes.Write) → size ≡ length list
            → AreWritten unordered list ws
            (touch_views ⟦<Unordered<K, V> as Update>⟧.view K.bytes V.Value.bytes made.items)
            → All (IsDecided list (list
            ++ operations_of
            (touch_views ⟦<Unordered<K, V> as Update>⟧.view K.bytes V.Value.bytes made.items)))
            (decided_views K.bytes V.Value.bytes decided.items)
            → IsDistinct bytes_eq
            (map (λ d. d.key) (map write_for (decided_views K.bytes V.Value.bytes decided.items)))
            → touch_views ⟦<Unordered<K, V> as Update>⟧.view K.bytes V.Value.bytes touches.items
            ≡ touch_views ⟦<Unordered<K, V> as Update>⟧.view K.bytes V.Value.bytes made.items
            ++ map (touch_in list) (unordered.moves (list
            ++ operations_of
            (touch_views ⟦<Unordered<K, V> as Update>⟧.view K.bytes V.Value.bytes made.items))
            (map write_for (decided_views K.bytes V.Value.bytes decided.items)))) }
        ensures live { CountsMoves unordered.moves }
        ensures count { IfOk result (λ touches. length made.items ≤ length touches.items) }
    {
        let mut touches = made;
        add_decided(&mut touches, decided)?;
        Ok(touches)
    }
}

impl<F, I: qm_index::Ordered<Value = Location<F>>, K: ByteString, V: ValueEncoding<K>> Steps<F, I>
    for Ordered<K, V> {
    ghost known_bytes = { K.are_bytes };

    ghost monotone = { λ _. I.monotone };

    fn bucket_before<'a>(index: &'a I, key: &[u8]) -> Option<(&'a [Location<F>], bool)> {
        index.prev_bucket(key)
    }

    fn bucket_behind<'a>(index: &'a I, key: &[u8]) -> Option<(&'a [Location<F>], bool)> {
        index.next_bucket(key)
    }

    fn first_bucket(index: &I) -> Option<&[Location<F>]> {
        index.first_bucket()
    }

    fn written(
        alloc: Global,
        sites: &[Site<'_, K, V::Value>],
        neighbours: &[Neighbour<'_, F, Self>],
    ) -> Result<Vec<Touch<F, Self>>, AllocError> {
        linked_touches(alloc, sites, neighbours)
    }

    fn moved(
        alloc: Global,
        size: u64,
        made: Vec<Touch<F, Self>>,
        decided: Vec<Decided<K, V::Value>>,
        found: &[(Location<F>, Self)],
    ) -> Result<Vec<Touch<F, Self>>, AllocError>
        ensures value { IfOk result (λ touches.
            (list : List model.Operation) (ws : List writes.Write) → size ≡ length list
            → HasRing ⟦<Ordered<K, V> as Update>⟧.form list
            → AreWritten ordered list ws
            (touch_views ⟦<Ordered<K, V> as Update>⟧.view K.bytes V.Value.bytes made.items)
            → All (IsDecided list (list
            ++ operations_of
            (touch_views ⟦<Ordered<K, V> as Update>⟧.view K.bytes V.Value.bytes made.items)))
            (decided_views K.bytes V.Value.bytes decided.items)
            → IsDistinct bytes_eq
            (map (λ d. d.key) (map write_for (decided_views K.bytes V.Value.bytes decided.items)))
            → (⟦<Ordered<K, V> as Update>⟧.form.ordered ≡ true
            → map (read_view ⟦<Ordered<K, V> as Update>⟧.view) found.now
            ≡ filter_map (before_evicted (list
            ++ operations_of
            (touch_views ⟦<Ordered<K, V> as Update>⟧.view K.bytes V.Value.bytes made.items)))
            (decided_views K.bytes V.Value.bytes decided.items))
            → touch_views ⟦<Ordered<K, V> as Update>⟧.view K.bytes V.Value.bytes touches.items
            ≡ touch_views ⟦<Ordered<K, V> as Update>⟧.view K.bytes V.Value.bytes made.items
            ++ map (touch_in list) (ordered.moves (list
            ++ operations_of
            (touch_views ⟦<Ordered<K, V> as Update>⟧.view K.bytes V.Value.bytes made.items))
            (map write_for (decided_views K.bytes V.Value.bytes decided.items)))) }
        ensures live { CountsMoves ordered.moves }
        ensures count { IfOk result (λ touches. length made.items ≤ length touches.items) }
    {
        moved_behind(alloc, size, made, decided, found)
    }
}
