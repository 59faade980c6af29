//! Reads in key order.

use crate::current_mmr::{Database, Inside};
use crate::kind::Kind;
use qm_base::{ByteKey, ByteValue, Error, Location, Span};
use qm_index::{Factory, FourCap};
use qm_merkle::mmr;
use qm_offer::Neighbours;
use qm_store::Store;
use std::alloc::Global;
use std::ops::Bound;

impl<
    C: Store + Drop,
    I: Factory<Value = Location<mmr::Family>, Translator = FourCap> + Drop,
    U: Kind<mmr::Family, I, Key = ByteKey, Value = ByteValue>,
> Neighbours<C> for Database<C, I, U> {
    fn next(&mut self, alloc: Global, key: &ByteKey) -> Result<Option<ByteKey>, Error> {
        <Inside<C, I, U> as Neighbours<C>>::next(&mut self.db, alloc, key)
    }

    fn prev(&mut self, alloc: Global, key: &ByteKey) -> Result<Option<ByteKey>, Error> {
        <Inside<C, I, U> as Neighbours<C>>::prev(&mut self.db, alloc, key)
    }

    fn next_from(
        &mut self,
        alloc: Global,
        batch: &Self::Merkleized,
        key: &ByteKey,
    ) -> Result<Option<ByteKey>, Error> {
        <Inside<C, I, U> as Neighbours<C>>::next_from(&mut self.db, alloc, &batch.batch, key)
    }

    fn prev_from(
        &mut self,
        alloc: Global,
        batch: &Self::Merkleized,
        key: &ByteKey,
    ) -> Result<Option<ByteKey>, Error> {
        <Inside<C, I, U> as Neighbours<C>>::prev_from(&mut self.db, alloc, &batch.batch, key)
    }

    fn span(
        &mut self,
        alloc: Global,
        key: &ByteKey,
    ) -> Result<Option<Span<ByteKey, ByteValue>>, Error> {
        <Inside<C, I, U> as Neighbours<C>>::span(&mut self.db, alloc, key)
    }

    fn all(&mut self, alloc: Global, key: &ByteKey) -> Result<Option<(ByteValue, ByteKey)>, Error> {
        <Inside<C, I, U> as Neighbours<C>>::all(&mut self.db, alloc, key)
    }

    fn range(
        &mut self,
        alloc: Global,
        low: &Bound<ByteKey>,
        high: &Bound<ByteKey>,
    ) -> Result<Vec<(ByteKey, ByteValue)>, Error> {
        <Inside<C, I, U> as Neighbours<C>>::range(&mut self.db, alloc, low, high)
    }

    fn keys(
        &mut self,
        alloc: Global,
        low: &Bound<ByteKey>,
        high: &Bound<ByteKey>,
    ) -> Result<Vec<ByteKey>, Error> {
        <Inside<C, I, U> as Neighbours<C>>::keys(&mut self.db, alloc, low, high)
    }
}
