//! Reads in key order.

ghost use Rattle.std.specs.Prelude.{true, ◌≡◌, ◌≢◌, List, None, map, option_map, IfOk, IfErr};
ghost use Rattle.qm_model.specs.Operations.{Operation};
ghost use Rattle.qm_model.specs.Live.{live, live_keys, live_of};
ghost use Rattle.qm_model.specs.Ranges.{key_above, key_below, span_of, keys_in, pairs_in};
ghost use Rattle.qm_model.specs.Batches.{IsKnown};
ghost use Rattle.qm_base.specs.Views.{limit_of, pair_view};
ghost use Rattle.qm_base.specs.Listed.{span_view, whole_view};
ghost use Rattle.qm_store.specs.Refusals.{refusal_of};
ghost use Rattle.qm_offer.specs.Words.{AtTip, CanRead, IsReadFailure, ReadsOnly};

use crate::offer::Common;
use qm_base::{Error, Span};
use qm_store::Store;
use std::alloc::Global;
use std::ops::Bound;

/// The calls of ordered databases: reads in key order.
pub trait Neighbours<C: Store>: Common<C> {
    /// In an ordered database reads the nearest live key above this one.
    fn next(&mut self, alloc: Global, key: &Self::Key) -> Result<Option<Self::Key>, Error>
        ensures above { IfOk result (λ k.
            Self.scheme.form.ordered ≡ true → (list : List Operation) → Self.stands self.old list
            → option_map Self.Key.bytes k ≡ key_above (live_keys list) (Self.Key.bytes key.now)) }
        ensures reads { ReadsOnly Self.Meaning C.Store self.old self.new result }
        ensures never { IfErr result (λ e. e ≢ Error.StaleBatch) }
        ensures refused { IfErr result (λ e. (list : List Operation) → Self.stands self.old list
            → refusal_of e ≡ None) };

    /// In an ordered database reads the nearest live key below this one.
    fn prev(&mut self, alloc: Global, key: &Self::Key) -> Result<Option<Self::Key>, Error>
        ensures below { IfOk result (λ k.
            Self.scheme.form.ordered ≡ true → (list : List Operation) → Self.stands self.old list
            → option_map Self.Key.bytes k ≡ key_below (live_keys list) (Self.Key.bytes key.now)) }
        ensures reads { ReadsOnly Self.Meaning C.Store self.old self.new result }
        ensures never { IfErr result (λ e. e ≢ Error.StaleBatch) }
        ensures refused { IfErr result (λ e. (list : List Operation) → Self.stands self.old list
            → refusal_of e ≡ None) };

    /// In an ordered database reads the nearest live key above this one through a merkleized batch, on the list that it makes.
    /// It is refused if `get_from` is.
    fn next_from(
        &mut self,
        alloc: Global,
        batch: &Self::Merkleized,
        key: &Self::Key,
    ) -> Result<Option<Self::Key>, Error>
        ensures readable { IfOk result (λ _. Self.scheme.form.ordered ≡ true
            → AtTip Self.Meaning self.old batch.now (λ list chain tip.
            CanRead Self.Meaning list chain tip)) }
        ensures above { IfOk result (λ k. Self.scheme.form.ordered ≡ true
            → AtTip Self.Meaning self.old batch.now (λ list chain tip. IsKnown list chain tip
            → option_map Self.Key.bytes k ≡ key_above (live_keys tip) (Self.Key.bytes key.now))) }
        ensures failure { IfErr result (λ e.
            AtTip Self.Meaning self.old batch.now (λ list chain tip. IsReadFailure Self.Meaning list chain tip e)) }
        ensures reads { ReadsOnly Self.Meaning C.Store self.old self.new result }
        ensures never { IfErr result (λ e. e ≢ Error.StaleBatch) };

    /// In an ordered database reads the nearest live key below this one through a merkleized batch, on the list that it makes.
    /// It is refused if `get_from` is.
    fn prev_from(
        &mut self,
        alloc: Global,
        batch: &Self::Merkleized,
        key: &Self::Key,
    ) -> Result<Option<Self::Key>, Error>
        ensures readable { IfOk result (λ _. Self.scheme.form.ordered ≡ true
            → AtTip Self.Meaning self.old batch.now (λ list chain tip.
            CanRead Self.Meaning list chain tip)) }
        ensures below { IfOk result (λ k. Self.scheme.form.ordered ≡ true
            → AtTip Self.Meaning self.old batch.now (λ list chain tip. IsKnown list chain tip
            → option_map Self.Key.bytes k ≡ key_below (live_keys tip) (Self.Key.bytes key.now))) }
        ensures failure { IfErr result (λ e.
            AtTip Self.Meaning self.old batch.now (λ list chain tip. IsReadFailure Self.Meaning list chain tip e)) }
        ensures reads { ReadsOnly Self.Meaning C.Store self.old self.new result }
        ensures never { IfErr result (λ e. e ≢ Error.StaleBatch) };

    /// In an ordered database reads the live update whose span holds the key.
    fn span(
        &mut self,
        alloc: Global,
        key: &Self::Key,
    ) -> Result<Option<Span<Self::Key, Self::Value>>, Error>
        ensures span { IfOk result (λ s.
            Self.scheme.form.ordered ≡ true → (list : List Operation) → Self.stands self.old list
            → option_map (span_view Self.Key.bytes Self.Value.bytes) s
            ≡ span_of list (Self.Key.bytes key.now)) }
        ensures reads { ReadsOnly Self.Meaning C.Store self.old self.new result }
        ensures never { IfErr result (λ e. e ≢ Error.StaleBatch) }
        ensures refused { IfErr result (λ e. (list : List Operation) → Self.stands self.old list
            → refusal_of e ≡ None) };

    /// In an ordered database reads the value of a key, and the next key.
    fn all(
        &mut self,
        alloc: Global,
        key: &Self::Key,
    ) -> Result<Option<(Self::Value, Self::Key)>, Error>
        ensures whole { IfOk result (λ p.
            Self.scheme.form.ordered ≡ true → (list : List Operation) → Self.stands self.old list
            → option_map (whole_view Self.Key.bytes Self.Value.bytes) p
            ≡ option_map (λ e. (e.value, e.next)) (live_of (live list) (Self.Key.bytes key.now))) }
        ensures reads { ReadsOnly Self.Meaning C.Store self.old self.new result }
        ensures never { IfErr result (λ e. e ≢ Error.StaleBatch) }
        ensures refused { IfErr result (λ e. (list : List Operation) → Self.stands self.old list
            → refusal_of e ≡ None) };

    /// In an ordered database reads the live keys of a range with their values, by key.
    fn range(
        &mut self,
        alloc: Global,
        low: &Bound<Self::Key>,
        high: &Bound<Self::Key>,
    ) -> Result<Vec<(Self::Key, Self::Value)>, Error>
        ensures pairs { IfOk result (λ pairs.
            Self.scheme.form.ordered ≡ true → (list : List Operation) → Self.stands self.old list
            → map (pair_view Self.Key.bytes Self.Value.bytes) pairs.items
            ≡ pairs_in (limit_of Self.Key.bytes low.now) (limit_of Self.Key.bytes high.now) list) }
        ensures reads { ReadsOnly Self.Meaning C.Store self.old self.new result }
        ensures never { IfErr result (λ e. e ≢ Error.StaleBatch) }
        ensures refused { IfErr result (λ e. (list : List Operation) → Self.stands self.old list
            → refusal_of e ≡ None) };

    /// In an ordered database reads the live keys of a range, by key.
    fn keys(
        &mut self,
        alloc: Global,
        low: &Bound<Self::Key>,
        high: &Bound<Self::Key>,
    ) -> Result<Vec<Self::Key>, Error>
        ensures keys { IfOk result (λ keys.
            Self.scheme.form.ordered ≡ true → (list : List Operation) → Self.stands self.old list
            → map Self.Key.bytes keys.items
            ≡ keys_in (limit_of Self.Key.bytes low.now) (limit_of Self.Key.bytes high.now) list) }
        ensures reads { ReadsOnly Self.Meaning C.Store self.old self.new result }
        ensures never { IfErr result (λ e. e ≢ Error.StaleBatch) }
        ensures refused { IfErr result (λ e. (list : List Operation) → Self.stands self.old list
            → refusal_of e ≡ None) };
}
