//! What only current databases are asked.

use crate::any::Database;
use crate::kind::Kind;
use qm_base::{ByteKey, ByteValue, Location, Sha256Digest};
use qm_engine::{Asking, SessionOf, Turn, unshown_turn};
use qm_index::{Factory, FourCap};
use qm_lines::Question;
use qm_merkle::Family;
use qm_store::Store;
use std::alloc::Global;

impl<
    F: Family,
    C: Store + Drop,
    I: Factory<Value = Location<F>, Translator = FourCap> + Drop,
    U: Kind<F, I, Key = ByteKey, Value = ByteValue>,
> Asking<C> for Database<F, C, I, U> {
    fn asked_turn(
        _alloc: Global,
        session: &mut SessionOf<Self, C>,
        question: &Question<ByteKey>,
    ) -> Turn<ByteKey, ByteValue, Sha256Digest> {
        unshown_turn::<Self, C>(session, question)
    }
}
