//! Reads in key order.

use crate::db::Db;
use crate::offer::listed::span_from;
use crate::offer::ranges::{keys_of, pairs_of};
use qm_base::{Error, Location, Sha256, Span};
use qm_bits::Chunks;
use qm_merkle::Family;
use qm_offer::Neighbours;
use qm_step::kind::Steps;
use qm_store::Store;
use std::alloc::Global;
use std::ops::Bound;

impl<
    F: Family,
    C: Store + Drop,
    I: qm_index::Unordered<Value = Location<F>> + Drop,
    U: Steps<F, I>,
    N: Chunks,
> Neighbours<C> for Db<F, C, I, Sha256, U, N> {
    fn next(&mut self, alloc: Global, key: &U::Key) -> Result<Option<U::Key>, Error> {
        if !U::is_ordered() {
            return Ok(None);
        }
        self.get_next_key(alloc, key)
    }

    fn prev(&mut self, alloc: Global, key: &U::Key) -> Result<Option<U::Key>, Error> {
        if !U::is_ordered() {
            return Ok(None);
        }
        self.get_prev_key(alloc, key)
    }

    fn next_from(
        &mut self,
        alloc: Global,
        batch: &Self::Merkleized,
        key: &U::Key,
    ) -> Result<Option<U::Key>, Error> {
        if !U::is_ordered() {
            return Ok(None);
        }
        batch.get_next_key(alloc, key, self)
    }

    fn prev_from(
        &mut self,
        alloc: Global,
        batch: &Self::Merkleized,
        key: &U::Key,
    ) -> Result<Option<U::Key>, Error> {
        if !U::is_ordered() {
            return Ok(None);
        }
        batch.get_prev_key(alloc, key, self)
    }

    fn span(
        &mut self,
        alloc: Global,
        key: &U::Key,
    ) -> Result<Option<Span<U::Key, U::Value>>, Error> {
        if !U::is_ordered() {
            return Ok(None);
        }
        match self.get_span(alloc, key) {
            Ok(found) => Ok(span_from(found)),
            Err(error) => Err(error),
        }
    }

    fn all(&mut self, alloc: Global, key: &U::Key) -> Result<Option<(U::Value, U::Key)>, Error> {
        if !U::is_ordered() {
            return Ok(None);
        }
        self.get_all(alloc, key)
    }

    fn range(
        &mut self,
        alloc: Global,
        low: &Bound<U::Key>,
        high: &Bound<U::Key>,
    ) -> Result<Vec<(U::Key, U::Value)>, Error> {
        if !U::is_ordered() {
            return Ok(Vec::new(alloc));
        }
        pairs_of(alloc, self, low, high)
    }

    fn keys(
        &mut self,
        alloc: Global,
        low: &Bound<U::Key>,
        high: &Bound<U::Key>,
    ) -> Result<Vec<U::Key>, Error> {
        if !U::is_ordered() {
            return Ok(Vec::new(alloc));
        }
        keys_of(alloc, self, low, high)
    }
}
