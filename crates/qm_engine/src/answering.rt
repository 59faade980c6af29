//! What answers the commands of a run, a group of them by each call.

ghost use Rattle.std.specs.Prelude.{◌≡◌, ◌≤◌, ◌+◌, ◌^◌, ◌<◌, IfSome};
ghost use Rattle.qm_model.specs.StoreModel.{end_of};
ghost use Rattle.qm_machine.specs.Machine as machine;
ghost use Rattle.qm_lines.specs.Views.{batch_view, making_view, staged_view, read_view, info_view, question_view, store_view};
ghost use Rattle.qm_store.specs.Given.{store_given, IsUnchanged};
ghost use Rattle.qm_engine.specs.Session.{Obeys, Performs, Uses};

use crate::session::{SessionOf, Turn};
use qm_base::Twin;
use qm_chain::Policy;
use qm_lines::{
    BatchCommand, InfoCommand, MakingCommand, Question, ReadCommand, StagedCommand, StoreCommand,
};
use qm_offer::Common;
use qm_store::{Given, Store};
use std::alloc::Global;

/// What answers the questions that only current databases are asked: one that offers the proofs by `shown_turn`, and one that has
/// no chunks of bits under its root by `unshown_turn`.
pub trait Asking<C: Store>: Common<C> {
    /// A question about what stands under the root.
    fn asked_turn(
        alloc: Global,
        session: &mut SessionOf<Self, C>,
        question: &Question<Self::Key>,
    ) -> Turn<Self::Key, Self::Value, Self::Digest>
        ensures machine { Obeys C.Store Self.Meaning Self.Key.bytes Self.Value.bytes
            Self.Digest.bytes session.old session.new result (λ s.
            machine.current Self.scheme s (question_view Self.Key.bytes question.now)) }
        ensures store { IsUnchanged C.Store (store_given Self.inside session.old.held)
            (store_given Self.inside session.new.held) }
        ensures uses { Uses C.Store (store_given Self.inside session.old.held)
            (store_given Self.inside session.new.held) result }
        ensures opened { session.new.opened ≡ session.old.opened };
}

/// What answers the commands of a run over its database. Whatever offers the calls of a group answers that group's commands, by
/// the function of the same name (`batch_turn` and so on). A run asks for the six answers and not for all calls, since who calls
/// a run shows for each call that is asked for that the database meets it, in one go.
pub trait Answering<C: Store>: Common<C> {
    /// What tells how a database is opened.
    type Opening: Drop;

    /// Gives the store back, as it is.
    fn into_store(self) -> C
        ensures { result ≡ Self.inside self };

    /// A command that begins or writes a batch.
    fn batch_turn<P: Policy<Self::Family, Self::Key, Self::Value> + Twin>(
        alloc: Global,
        session: &mut SessionOf<Self, C>,
        command: &BatchCommand<Self::Key, Self::Value>,
    ) -> Turn<Self::Key, Self::Value, Self::Digest>
        ensures { Performs {P = P} C.Store Self.Meaning Self.Key.bytes Self.Value.bytes
            Self.Digest.bytes (batch_view Self.Key.bytes Self.Value.bytes command.now) (λ s.
            machine.turn Self.scheme P.rules s
            (batch_view Self.Key.bytes Self.Value.bytes command.now))
            session.old session.new result };

    /// A command that makes a batch's list, or applies it.
    fn making_turn<P: Policy<Self::Family, Self::Key, Self::Value> + Twin>(
        alloc: Global,
        session: SessionOf<Self, C>,
        command: &MakingCommand<Self::Value, P>,
    ) -> (
        SessionOf<Self, C>,
        Turn<Self::Key, Self::Value, Self::Digest>,
    )
        ensures { Performs C.Store Self.Meaning Self.Key.bytes Self.Value.bytes Self.Digest.bytes
            (making_view Self.Key.bytes Self.Value.bytes (λ p. p) command.now) (λ s.
            machine.turn Self.scheme P.rules s
            (making_view Self.Key.bytes Self.Value.bytes (λ p. p) command.now))
            session result.0 result.1 };

    /// A command that stages.
    fn staged_turn<P: Policy<Self::Family, Self::Key, Self::Value> + Twin>(
        alloc: Global,
        session: &mut SessionOf<Self, C>,
        command: &StagedCommand<Self::Key, Self::Value, P>,
    ) -> Turn<Self::Key, Self::Value, Self::Digest>
        ensures { Performs C.Store Self.Meaning Self.Key.bytes Self.Value.bytes Self.Digest.bytes
            (staged_view Self.Key.bytes Self.Value.bytes (λ p. p) command.now) (λ s.
            machine.turn Self.scheme P.rules s
            (staged_view Self.Key.bytes Self.Value.bytes (λ p. p) command.now))
            session.old session.new result };

    /// A command that reads keys.
    fn read_turn<P: Policy<Self::Family, Self::Key, Self::Value> + Twin>(
        alloc: Global,
        session: &mut SessionOf<Self, C>,
        command: &ReadCommand<Self::Key>,
    ) -> Turn<Self::Key, Self::Value, Self::Digest>
        ensures { Performs {P = P} C.Store Self.Meaning Self.Key.bytes Self.Value.bytes
            Self.Digest.bytes (read_view Self.Key.bytes Self.Value.bytes command.now) (λ s.
            machine.turn Self.scheme P.rules s
            (read_view Self.Key.bytes Self.Value.bytes command.now))
            session.old session.new result };

    /// A command that tells and proves.
    fn info_turn<P: Policy<Self::Family, Self::Key, Self::Value> + Twin>(
        alloc: Global,
        session: &mut SessionOf<Self, C>,
        command: &InfoCommand<Self::Key>,
    ) -> Turn<Self::Key, Self::Value, Self::Digest>
        ensures { Performs {P = P} C.Store Self.Meaning Self.Key.bytes Self.Value.bytes
            Self.Digest.bytes (info_view Self.Key.bytes Self.Value.bytes command.now) (λ s.
            machine.turn Self.scheme P.rules s
            (info_view Self.Key.bytes Self.Value.bytes command.now))
            session.old session.new result };

    /// A command that opens, settles or ends the database.
    fn store_turn<P: Policy<Self::Family, Self::Key, Self::Value> + Twin>(
        alloc: Global,
        opening: &Self::Opening,
        session: SessionOf<Self, C>,
        command: &StoreCommand,
    ) -> (
        SessionOf<Self, C>,
        Turn<Self::Key, Self::Value, Self::Digest>,
    )
        requires { session.opened + 1 < 2 ^ 64 }
        ensures { Performs {P = P} C.Store Self.Meaning Self.Key.bytes Self.Value.bytes
            Self.Digest.bytes (store_view Self.Key.bytes Self.Value.bytes command.now) (λ s.
            machine.turn Self.scheme P.rules s
            (store_view Self.Key.bytes Self.Value.bytes command.now))
            session result.0 result.1 };
}

/// The store that a run gives back: the one that is held.
pub fn returned<X: Answering<C>, C: Store>(held: Given<X, C>) -> C
    ensures store { result ≡ store_given X.inside held }
    ensures stable { IfSome (C.told result) (λ s. s.stable ≤ end_of s) }
{
    let store = held_store::<X, C>(held);
    // What is stable of it are items that it has.
    store.bounds();
    store
}

// The store that is held, by itself or inside the database.
fn held_store<X: Answering<C>, C: Store>(held: Given<X, C>) -> C
    ensures { result ≡ store_given X.inside held }
{
    match held {
        Given::Database(x) => x.into_store(),
        Given::Store(store) => store,
    }
}
