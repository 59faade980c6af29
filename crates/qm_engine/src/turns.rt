// One command over what a run holds.
ghost use Rattle.std.specs.Prelude.{◌+◌, ◌^◌, ◌<◌};
ghost use Rattle.qm_machine.specs.Lines as lines;
ghost use Rattle.qm_machine.specs.Machine as machine;
ghost use Rattle.qm_lines.specs.Views.{line_view, batch_view, making_view, staged_view, read_view, info_view, store_view};
ghost use Rattle.qm_engine.specs.Session.{Performs, PerformsHeld};

mod batches;
mod lasting;
mod ordered;
mod proofs;
mod reads;
mod showing;
mod staged;

use crate::answering::{Answering, Asking};
use crate::session::{Session, SessionOf, Turn};
use crate::table::Slot;
use batches::{apply, batch, child, merkleize, put, tip};
use lasting::{close, commit, crash, destroy, open, prune, sync};
use ordered::{Question, Side, ask, neighbour};
use proofs::{batch_proof, pins, prove};
use qm_base::Twin;
use qm_chain::Policy;
use qm_lines::{
    BatchCommand, Command, InfoCommand, MakingCommand, ReadCommand, StagedCommand, StoreCommand,
};
use qm_offer::{Batching, Durable, Making, Neighbours, Proving, Reading, Staging, Writing};
use qm_store::{Given, Store};
use reads::{batch_info, batch_root, evicted, info, meta, ops, read, read_key, root};
pub use showing::{shown_turn, unshown_turn};
use staged::{expand, resolve, stage};
use std::alloc::Global;

/// One command: the machine's turn.
pub fn turn<X: Answering<C>, C: Store, P: Policy<X::Family, X::Key, X::Value> + Twin>(
    alloc: Global,
    opening: &X::Opening,
    mut session: SessionOf<X, C>,
    command: &Command<X::Key, X::Value, P>,
) -> (SessionOf<X, C>, Turn<X::Key, X::Value, X::Digest>)
    requires { session.opened + 1 < 2 ^ 64 }
    ensures { Performs C.Store X.Meaning X.Key.bytes X.Value.bytes X.Digest.bytes
        (line_view X.Key.bytes X.Value.bytes (λ p. p) command.now) (λ s.
        machine.turn X.scheme P.rules s (line_view X.Key.bytes X.Value.bytes (λ p. p) command.now))
        session result.0 result.1 }
{
    match command {
        Command::Batch(command) => {
            let turn = X::batch_turn::<P>(alloc, &mut session, command);
            (session, turn)
        }
        Command::Making(command) => X::making_turn::<P>(alloc, session, command),
        Command::Staged(command) => {
            let turn = X::staged_turn::<P>(alloc, &mut session, command);
            (session, turn)
        }
        Command::Read(command) => {
            let turn = X::read_turn::<P>(alloc, &mut session, command);
            (session, turn)
        }
        Command::Info(command) => {
            let turn = X::info_turn::<P>(alloc, &mut session, command);
            (session, turn)
        }
        Command::Store(command) => X::store_turn::<P>(alloc, opening, session, command),
    }
}

/// A command that begins or writes a batch, of whatever offers these calls.
pub fn batch_turn<
    X: Batching<C> + Writing<C>,
    C: Store,
    P: Policy<X::Family, X::Key, X::Value> + Twin,
>(
    alloc: Global,
    session: &mut SessionOf<X, C>,
    command: &BatchCommand<X::Key, X::Value>,
) -> Turn<X::Key, X::Value, X::Digest>
    ensures { Performs {P = P} C.Store X.Meaning X.Key.bytes X.Value.bytes X.Digest.bytes
        (batch_view X.Key.bytes X.Value.bytes command.now) (λ s.
        machine.turn X.scheme P.rules s (batch_view X.Key.bytes X.Value.bytes command.now))
        session.old session.new result }
{
    match command {
        BatchCommand::Batch => batch::<X, C>(alloc, session),
        BatchCommand::Child(number, keep) => child::<X, C>(alloc, session, *number, *keep),
        BatchCommand::Tip => tip::<X, C>(alloc, session),
        BatchCommand::Put(number, key, value) => {
            put::<X, C>(alloc, session, *number, key, Some(value))
        }
        BatchCommand::Del(number, key) => put::<X, C>(alloc, session, *number, key, None),
    }
}

// A batch is applied over what is held.
fn apply_turn<X: Making<C>, C: Store, P: Policy<X::Family, X::Key, X::Value> + Twin>(
    alloc: Global,
    session: SessionOf<X, C>,
    number: u64,
) -> (SessionOf<X, C>, Turn<X::Key, X::Value, X::Digest>)
    ensures { Performs {P = P} C.Store X.Meaning X.Key.bytes X.Value.bytes X.Digest.bytes
        (lines.Apply number) (λ s. machine.turn X.scheme P.rules s (lines.Apply number)) session
        result.0 result.1 }
{
    let Session {
        held,
        table,
        opened,
    } = session;
    let (held, turn) = apply::<X, C>(alloc, held, &table, number);
    let session = Session {
        held,
        table,
        opened,
    };
    (session, turn)
}

/// A command that makes a batch's list, or applies it, of whatever offers these calls.
pub fn making_turn<X: Making<C>, C: Store, P: Policy<X::Family, X::Key, X::Value> + Twin>(
    alloc: Global,
    mut session: SessionOf<X, C>,
    command: &MakingCommand<X::Value, P>,
) -> (SessionOf<X, C>, Turn<X::Key, X::Value, X::Digest>)
    ensures { Performs C.Store X.Meaning X.Key.bytes X.Value.bytes X.Digest.bytes
        (making_view X.Key.bytes X.Value.bytes (λ p. p) command.now) (λ s.
        machine.turn X.scheme P.rules s
        (making_view X.Key.bytes X.Value.bytes (λ p. p) command.now)) session result.0 result.1 }
{
    match command {
        MakingCommand::Merkleize(number, policy, metadata) => {
            let turn = merkleize::<X, C, P>(alloc, &mut session, *number, policy, metadata);
            (session, turn)
        }
        MakingCommand::Apply(number) => apply_turn::<X, C, P>(alloc, session, *number),
    }
}

/// A command that stages, of whatever offers these calls.
pub fn staged_turn<X: Staging<C>, C: Store, P: Policy<X::Family, X::Key, X::Value> + Twin>(
    alloc: Global,
    session: &mut SessionOf<X, C>,
    command: &StagedCommand<X::Key, X::Value, P>,
) -> Turn<X::Key, X::Value, X::Digest>
    ensures { Performs C.Store X.Meaning X.Key.bytes X.Value.bytes X.Digest.bytes
        (staged_view X.Key.bytes X.Value.bytes (λ p. p) command.now) (λ s.
        machine.turn X.scheme P.rules s
        (staged_view X.Key.bytes X.Value.bytes (λ p. p) command.now))
        session.old session.new result }
{
    match command {
        StagedCommand::Stage(number, keys) => stage::<X, C>(alloc, session, *number, keys),
        StagedCommand::Expand(number, keys) => expand::<X, C>(alloc, session, *number, keys),
        StagedCommand::Resolve(number, policy, metadata, resolution) => resolve::<X, C, P>(
            alloc, session, *number, policy, metadata, resolution,
        ),
    }
}

/// A command that reads keys, of whatever offers reads.
pub fn read_turn<
    X: Reading<C> + Neighbours<C>,
    C: Store,
    P: Policy<X::Family, X::Key, X::Value> + Twin,
>(
    alloc: Global,
    session: &mut SessionOf<X, C>,
    command: &ReadCommand<X::Key>,
) -> Turn<X::Key, X::Value, X::Digest>
    ensures { Performs {P = P} C.Store X.Meaning X.Key.bytes X.Value.bytes X.Digest.bytes
        (read_view X.Key.bytes X.Value.bytes command.now) (λ s.
        machine.turn X.scheme P.rules s (read_view X.Key.bytes X.Value.bytes command.now))
        session.old session.new result }
{
    match command {
        ReadCommand::Get(key, from) => read_key::<X, C>(alloc, session, key, *from),
        ReadCommand::Many(keys, from) => read::<X, C>(alloc, session, keys, *from),
        ReadCommand::Next(key, from) => neighbour::<X, C>(alloc, session, Side::Above, key, *from),
        ReadCommand::Prev(key, from) => neighbour::<X, C>(alloc, session, Side::Below, key, *from),
        ReadCommand::Span(key) => ask::<X, C>(alloc, session, Question::Span(key)),
        ReadCommand::All(key) => ask::<X, C>(alloc, session, Question::All(key)),
        ReadCommand::Range(low, high) => ask::<X, C>(alloc, session, Question::Range(low, high)),
        ReadCommand::Keys(low, high) => ask::<X, C>(alloc, session, Question::Keys(low, high)),
    }
}

/// A command that tells and proves, of whatever offers these calls.
pub fn info_turn<
    X: Reading<C> + Proving<C> + Asking<C>,
    C: Store,
    P: Policy<X::Family, X::Key, X::Value> + Twin,
>(
    alloc: Global,
    session: &mut SessionOf<X, C>,
    command: &InfoCommand<X::Key>,
) -> Turn<X::Key, X::Value, X::Digest>
    ensures { Performs {P = P} C.Store X.Meaning X.Key.bytes X.Value.bytes X.Digest.bytes
        (info_view X.Key.bytes X.Value.bytes command.now) (λ s.
        machine.turn X.scheme P.rules s (info_view X.Key.bytes X.Value.bytes command.now))
        session.old session.new result }
{
    match command {
        InfoCommand::Ops(number) => ops::<X, C>(alloc, session, *number),
        InfoCommand::Evicted(number) => evicted::<X, C>(alloc, session, *number),
        InfoCommand::Info => info::<X, C>(session),
        InfoCommand::BatchInfo(number) => batch_info::<X, C>(session, *number),
        InfoCommand::Root => root::<X, C>(session),
        InfoCommand::BatchRoot(number) => batch_root::<X, C>(session, *number),
        InfoCommand::BatchProof(number) => batch_proof::<X, C>(alloc, session, *number),
        InfoCommand::Meta => meta::<X, C>(alloc, session),
        InfoCommand::Prove(size, start, max) => prove::<X, C>(alloc, session, *size, *start, *max),
        InfoCommand::Pins(at) => pins::<X, C>(alloc, session, *at),
        InfoCommand::Current(question) => X::asked_turn(alloc, session, question),
    }
}

// One that opens, settles or ends the database, over what is held.
fn held_turn<X: Durable<C>, C: Store, P: Policy<X::Family, X::Key, X::Value> + Twin>(
    alloc: Global,
    config: &X::Config,
    held: Given<X, C>,
    table: &Vec<Slot<X::Batch, X::Staged, X::Merkleized>>,
    opened: &mut u64,
    command: &StoreCommand,
) -> (Given<X, C>, Turn<X::Key, X::Value, X::Digest>)
    requires { opened.old + 1 < 2 ^ 64 }
    ensures { PerformsHeld {P = P} C.Store X.Meaning X.Key.bytes X.Value.bytes X.Digest.bytes
        (store_view X.Key.bytes X.Value.bytes command.now) (λ s.
        machine.turn X.scheme P.rules s (store_view X.Key.bytes X.Value.bytes command.now))
        table.now.items opened.old held opened.new result.0 result.1 }
{
    match command {
        StoreCommand::Open(max_size) => open::<X, C>(alloc, config, held, opened, *max_size),
        StoreCommand::Prune(to) => prune::<X, C>(alloc, held, *to),
        StoreCommand::Commit => commit::<X, C>(held),
        StoreCommand::Sync => sync::<X, C>(alloc, held),
        StoreCommand::Close => close::<X, C>(held),
        StoreCommand::Destroy => destroy::<X, C>(held),
        StoreCommand::Crash(keep) => crash::<X, C, P>(held, *keep),
    }
}

/// A command that opens, settles or ends the database, of whatever offers these calls.
pub fn store_turn<X: Durable<C>, C: Store, P: Policy<X::Family, X::Key, X::Value> + Twin>(
    alloc: Global,
    config: &X::Config,
    session: SessionOf<X, C>,
    command: &StoreCommand,
) -> (SessionOf<X, C>, Turn<X::Key, X::Value, X::Digest>)
    requires { session.opened + 1 < 2 ^ 64 }
    ensures { Performs {P = P} C.Store X.Meaning X.Key.bytes X.Value.bytes X.Digest.bytes
        (store_view X.Key.bytes X.Value.bytes command.now) (λ s.
        machine.turn X.scheme P.rules s (store_view X.Key.bytes X.Value.bytes command.now)) session
        result.0 result.1 }
{
    let Session {
        held,
        table,
        mut opened,
    } = session;
    let (held, turn) = held_turn::<X, C, P>(alloc, config, held, &table, &mut opened, command);
    let session = Session {
        held,
        table,
        opened,
    };
    (session, turn)
}
