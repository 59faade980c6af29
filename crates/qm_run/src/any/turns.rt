//! The commands of a run, a group of them by each call.

ghost use Rattle.std.specs.Prelude.{◌+◌, ◌^◌, ◌<◌};
ghost use Rattle.qm_machine.specs.Machine as machine;
ghost use Rattle.qm_lines.specs.Views.{making_view, store_view};
ghost use Rattle.qm_engine.specs.Session.{Performs};

use crate::any::Database;
use crate::kind::Kind;
use qm_any::Config;
use qm_base::{ByteKey, ByteString, ByteValue, Digest, Location, Sha256Digest, Twin};
use qm_chain::Policy;
use qm_engine::{
    Answering, SessionOf, Turn, batch_turn, info_turn, making_turn, read_turn, staged_turn,
    store_turn,
};
use qm_index::{Factory, FourCap};
use qm_lines::{
    BatchCommand, InfoCommand, MakingCommand, ReadCommand, StagedCommand, StoreCommand,
};
use qm_merkle::Family;
use qm_offer::{Durable, Meaning};
use qm_store::Store;
use std::alloc::Global;

impl<
    F: Family,
    C: Store + Drop,
    I: Factory<Value = Location<F>, Translator = FourCap> + Drop,
    U: Kind<F, I, Key = ByteKey, Value = ByteValue>,
> Answering<C> for Database<F, C, I, U> {
    type Opening = Config<FourCap, ()>;

    fn into_store(self) -> C {
        <Self as Durable<C>>::close(self)
    }

    fn batch_turn<P: Policy<F, ByteKey, ByteValue> + Twin>(
        alloc: Global,
        session: &mut SessionOf<Self, C>,
        command: &BatchCommand<ByteKey, ByteValue>,
    ) -> Turn<ByteKey, ByteValue, Sha256Digest> {
        batch_turn::<Self, C, P>(alloc, session, command)
    }

    fn making_turn<P: Policy<F, ByteKey, ByteValue> + Twin>(
        alloc: Global,
        session: SessionOf<Self, C>,
        command: &MakingCommand<ByteValue, P>,
    ) -> (SessionOf<Self, C>, Turn<ByteKey, ByteValue, Sha256Digest>)
        ensures { Performs C.Store ⟦<Database<F, C, I, U> as Meaning<C>>⟧
            ⟦<ByteKey as ByteString>⟧.bytes ⟦<ByteValue as ByteString>⟧.bytes
            ⟦<Sha256Digest as Digest>⟧.bytes
            (making_view ⟦<ByteKey as ByteString>⟧.bytes ⟦<ByteValue as ByteString>⟧.bytes (λ p. p)
            command.now) (λ s. machine.turn ⟦<Database<F, C, I, U> as Meaning<C>>⟧.scheme P.rules s
            (making_view ⟦<ByteKey as ByteString>⟧.bytes ⟦<ByteValue as ByteString>⟧.bytes (λ p. p)
            command.now)) session result.0 result.1 }
    {
        making_turn::<Self, C, P>(alloc, session, command)
    }

    fn staged_turn<P: Policy<F, ByteKey, ByteValue> + Twin>(
        alloc: Global,
        session: &mut SessionOf<Self, C>,
        command: &StagedCommand<ByteKey, ByteValue, P>,
    ) -> Turn<ByteKey, ByteValue, Sha256Digest> {
        staged_turn::<Self, C, P>(alloc, session, command)
    }

    fn read_turn<P: Policy<F, ByteKey, ByteValue> + Twin>(
        alloc: Global,
        session: &mut SessionOf<Self, C>,
        command: &ReadCommand<ByteKey>,
    ) -> Turn<ByteKey, ByteValue, Sha256Digest> {
        read_turn::<Self, C, P>(alloc, session, command)
    }

    fn info_turn<P: Policy<F, ByteKey, ByteValue> + Twin>(
        alloc: Global,
        session: &mut SessionOf<Self, C>,
        command: &InfoCommand<ByteKey>,
    ) -> Turn<ByteKey, ByteValue, Sha256Digest> {
        info_turn::<Self, C, P>(alloc, session, command)
    }

    fn store_turn<P: Policy<F, ByteKey, ByteValue> + Twin>(
        alloc: Global,
        opening: &Config<FourCap, ()>,
        session: SessionOf<Self, C>,
        command: &StoreCommand,
    ) -> (SessionOf<Self, C>, Turn<ByteKey, ByteValue, Sha256Digest>)
        requires { session.opened + 1 < 2 ^ 64 }
        ensures { Performs {P = P} C.Store ⟦<Database<F, C, I, U> as Meaning<C>>⟧
            ⟦<ByteKey as ByteString>⟧.bytes ⟦<ByteValue as ByteString>⟧.bytes
            ⟦<Sha256Digest as Digest>⟧.bytes
            (store_view ⟦<ByteKey as ByteString>⟧.bytes ⟦<ByteValue as ByteString>⟧.bytes
            command.now) (λ s. machine.turn ⟦<Database<F, C, I, U> as Meaning<C>>⟧.scheme P.rules s
            (store_view ⟦<ByteKey as ByteString>⟧.bytes ⟦<ByteValue as ByteString>⟧.bytes
            command.now)) session result.0 result.1 }
    {
        store_turn::<Self, C, P>(alloc, opening, session, command)
    }
}
