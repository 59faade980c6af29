// The parts of a fill: what comes before its rounds, each round, and what comes after them.

ghost use Rattle.std.specs.Prelude.{◌+◌, ◌≤◌, ◌<◌, ◌^◌, [], length, map};
ghost use Rattle.qm_lines.specs.Parsed.{byte_line};
ghost use Rattle.qm_fill.specs.Commands as fills;
ghost use Rattle.qm_filling.specs.Filled.{Fills};

use qm_base::{ByteKey, ByteValue};
use qm_engine::{Answering, End, Part, SessionOf, run_part};
use qm_fill::{Fill, Rounds, Tally, ending, opening};
use qm_lines::{AnyPolicy, ByteCommand};
use qm_store::Store;
use std::alloc::Global;

// Runs a part, and counts its commands with their replies, which are let go then. An end tells why they are not counted.
fn fill_part<X: Answering<C, Key = ByteKey, Value = ByteValue>, C: Store>(
    alloc: Global,
    how: &X::Opening,
    session: SessionOf<X, C>,
    tally: Tally,
    commands: &[ByteCommand],
) -> (SessionOf<X, C>, Result<Tally, End>)
    requires opened { session.opened + length commands.now < 2 ^ 64 }
    requires counted { tally.commands + length commands.now < 2 ^ 64 }
    ensures { Fills C.Store X.Meaning (map byte_line commands.now) session tally result.0 result.1 }
{
    let Part {
        replies,
        end,
        session,
    } = run_part::<X, C, AnyPolicy>(alloc, how, session, commands);
    match end {
        End::Done => match tally.with(alloc, commands, &replies) {
            Ok(tally) => (session, Ok(tally)),
            Err(_) => (session, Err(End::Memory)),
        },
        End::Memory | End::StoreFault => (session, Err(end)),
    }
}

// Runs the rounds, of which one's commands and replies are held at once.
fn fill_rounds<X: Answering<C, Key = ByteKey, Value = ByteValue>, C: Store>(
    alloc: Global,
    how: &X::Opening,
    session: SessionOf<X, C>,
    tally: Tally,
    fill: Fill,
) -> (SessionOf<X, C>, Result<Tally, End>)
    requires opened { session.opened ≤ 1 }
    requires counted { tally.commands ≤ 1 }
    ensures { Fills C.Store X.Meaning (fills.rounds fill.seed fill.rounds) session tally result.0
        result.1 }
{
    let mut session = session;
    let mut tally = tally;
    let mut rounds = Rounds::new(fill.seed);
    for _round in 0..fill.rounds {
        let Ok(commands) = rounds.next(alloc) else {
            return (session, Err(End::Memory));
        };
        let (next, counted) = fill_part::<X, C>(alloc, how, session, tally, &commands);
        session = next;
        tally = match counted {
            Ok(tally) => tally,
            Err(end) => return (session, Err(end)),
        };
    }
    (session, Ok(tally))
}

// Runs all commands of a fill.
pub(crate) fn fill_all<X: Answering<C, Key = ByteKey, Value = ByteValue>, C: Store>(
    alloc: Global,
    how: &X::Opening,
    session: SessionOf<X, C>,
    fill: Fill,
) -> (SessionOf<X, C>, Result<Tally, End>)
    requires { session.opened ≤ 0 }
    ensures { Fills C.Store X.Meaning (fills.commands fill.seed fill.rounds) session
        (record { commands = 0; refused = 0; shown = [] }) result.0 result.1 }
{
    let tally = Tally::new(alloc);
    let (session, counted) = fill_part::<X, C>(alloc, how, session, tally, &opening());
    let tally = match counted {
        Ok(tally) => tally,
        Err(end) => return (session, Err(end)),
    };
    let (session, counted) = fill_rounds::<X, C>(alloc, how, session, tally, fill);
    let tally = match counted {
        Ok(tally) => tally,
        Err(end) => return (session, Err(end)),
    };
    fill_part::<X, C>(alloc, how, session, tally, &ending())
}
