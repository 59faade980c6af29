//! Proofs of keys, of absences, of operations in a row and of the operations root.

ghost use Rattle.std.specs.Prelude.{refl};
ghost use Rattle.qm_current.proofs.ShowingOffered.{is-some-if};

use crate::current_mmr::{Database, Inside};
use crate::kind::Kind;
use qm_base::{ByteKey, ByteValue, Error, Location, Sha256Digest};
use qm_current::Absences;
use qm_engine::{Asking, SessionOf, Turn, shown_turn};
use qm_index::{Factory, FourCap};
use qm_lines::Question;
use qm_merkle::mmr;
use qm_offer::{Showing, ShownRange};
use qm_store::Store;
use std::alloc::Global;
use std::num::NonZeroU64;

impl<
    C: Store + Drop,
    I: Factory<Value = Location<mmr::Family>, Translator = FourCap> + Drop,
    U: Kind<mmr::Family, I, Key = ByteKey, Value = ByteValue> + Absences<mmr::Family, I>,
> Showing<C> for Database<C, I, U> {
    fn held(&mut self, alloc: Global, key: &ByteKey) -> Result<(u64, bool), Error> {
        <Inside<C, I, U> as Showing<C>>::held(&mut self.db, alloc, key)
    }

    fn absent(&mut self, alloc: Global, key: &ByteKey) -> Result<Option<(u64, bool)>, Error> {
        <Inside<C, I, U> as Showing<C>>::absent(&mut self.db, alloc, key)
    }

    fn chunks(&mut self, alloc: Global, start: u64, max: NonZeroU64) -> Result<ShownRange, Error> {
        <Inside<C, I, U> as Showing<C>>::chunks(&mut self.db, alloc, start, max)
    }

    fn witness(&self, alloc: Global) -> Result<bool, Error> {
        <Inside<C, I, U> as Showing<C>>::witness(&self.db, alloc)
    }

    ghost checked = { refl };

    ghost absences = { is-some-if U.form.ordered _ };
}

impl<
    C: Store + Drop,
    I: Factory<Value = Location<mmr::Family>, Translator = FourCap> + Drop,
    U: Kind<mmr::Family, I, Key = ByteKey, Value = ByteValue> + Absences<mmr::Family, I>,
> Asking<C> for Database<C, I, U> {
    fn asked_turn(
        alloc: Global,
        session: &mut SessionOf<Self, C>,
        question: &Question<ByteKey>,
    ) -> Turn<ByteKey, ByteValue, Sha256Digest> {
        shown_turn::<Self, C>(alloc, session, question)
    }
}
