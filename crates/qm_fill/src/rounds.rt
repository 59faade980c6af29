//! The commands of a fill, a round at a time.

ghost use Rattle.std.specs.Prelude.{◌≡◌, ◌+◌, ◌*◌, ◌^◌, ◌<◌, ◌++◌, ◌∷◌, [], length, map, IfOk, OnOk, OnErr};
ghost use Rattle.qm_lines.specs.Parsed.{byte_line};
ghost use Rattle.qm_fill.specs.Draws.{next_draw, draw, draws};
ghost use Rattle.qm_fill.specs.Commands as fills;
ghost use Rattle.qm_fill.specs.Commands.{Progress};

use qm_base::{ByteKey, ByteString, ByteValue, four_bytes};
use qm_chain::Proportional;
use qm_lines::{
    AnyPolicy, BatchCommand, ByteCommand, Command, InfoCommand, MakingCommand, StoreCommand,
};
use std::alloc::{AllocError, Global};
use std::marker::Model;

fn next_draw(x: u32) -> u32
    ensures { result ≡ next_draw x }
{
    x.wrapping_mul(1_664_525).wrapping_add(1_013_904_223)
}

// Puts the next draws in these places.
fn draw_into(before: u32, places: &mut [u32])
    ensures { places.new ≡ draws before (length places.old) }
{
    let mut last = before;
    for place in places.iter_mut() {
        last = next_draw(last);
        *place = last;
    }
}

// The next eight draws.
fn eight_draws(before: u32) -> [u32; 8]
    ensures { result ≡ draws before 8 }
{
    let mut drawn = [0; 8];
    draw_into(before, &mut drawn);
    drawn
}

fn key_of(draw: u32) -> [u8; 2]
    ensures { result ≡ fills.key_of draw }
{
    let key = ((draw >> 16) % 1024) as u16;
    key.to_be_bytes()
}

// What a draw writes, in the batch of this number.
fn write_of(alloc: Global, number: u64, draw: u32) -> Result<ByteCommand, AllocError>
    ensures { IfOk result (λ command. byte_line command ≡ fills.write_of number draw) }
{
    let key = ByteKey::from_bytes(alloc, &key_of(draw))?;
    if (draw >> 12) % 4 == 0 {
        return Ok(Command::Batch(BatchCommand::Del(number, key)));
    }
    let value = ByteValue::from_bytes(alloc, &four_bytes(draw))?;
    Ok(Command::Batch(BatchCommand::Put(number, key, value)))
}

fn push(commands: &mut Vec<ByteCommand>, command: ByteCommand) -> Result<(), AllocError>
    ensures { OnOk result (map byte_line commands.new.items
        ≡ map byte_line commands.old.items ++ byte_line command ∷ []) }
{
    commands.push(command)?;
    Ok(())
}

// What the draws write, in the batch of this number.
fn push_writes(
    alloc: Global,
    commands: &mut Vec<ByteCommand>,
    number: u64,
    draws: &[u32],
) -> Result<(), AllocError>
    ensures { OnOk result (map byte_line commands.new.items
        ≡ map byte_line commands.old.items ++ map (fills.write_of number) draws.now) }
{
    for draw in draws {
        push(commands, write_of(alloc, number, *draw)?)?;
    }
    Ok(())
}

// A commit, if the round of this number has one.
fn push_settling(commands: &mut Vec<ByteCommand>, number: u64) -> Result<(), AllocError>
    ensures { OnOk result (map byte_line commands.new.items
        ≡ map byte_line commands.old.items ++ fills.settling number) }
{
    if number % 16 == 0 {
        return push(commands, Command::Store(StoreCommand::Commit));
    }
    Ok(())
}

// The commands of the round of this number, with these draws.
fn round_with(alloc: Global, number: u64, draws: &[u32]) -> Result<Vec<ByteCommand>, AllocError>
    ensures { IfOk result (λ commands.
        map byte_line commands.items ≡ fills.round_with draws.now number) }
{
    let mut commands = Vec::new(alloc);
    push(&mut commands, Command::Batch(BatchCommand::Batch))?;
    push_writes(alloc, &mut commands, number, draws)?;
    let policy = AnyPolicy::Proportional(Proportional);
    push(
        &mut commands,
        Command::Making(MakingCommand::Merkleize(number, policy, None)),
    )?;
    push(&mut commands, Command::Making(MakingCommand::Apply(number)))?;
    push_settling(&mut commands, number)?;
    Ok(commands)
}

/// The rounds of a fill, given one after the other.
#[derive(Drop)]
pub struct Rounds {
    seed: u32,
    given: u64,
    // the last draw, or the seed
    last: u32,
}

impl Model for Rounds {
    ghost Value = { Progress };

    ghost view = { λ r. record { seed = r.seed; given = r.given } };

    ghost invariant = { λ r. r.last ≡ draw r.seed (8 * r.given) };
}

impl Rounds {
    /// Those of the fill with this seed.
    pub fn new(seed: u32) -> Rounds
        ensures { result ≡ record { seed = seed; given = 0 } }
    {
        Rounds {
            seed,
            given: 0,
            last: seed,
        }
    }

    /// The commands of the next round. Want of memory is the only error, and leaves that round the next.
    pub fn next(&mut self, alloc: Global) -> Result<Vec<ByteCommand>, AllocError>
        requires { self.old.given + 1 < 2 ^ 64 }
        ensures round { IfOk result (λ commands.
            map byte_line commands.items ≡ fills.round self.old.seed (self.old.given + 1)) }
        ensures moved { OnOk result (self.new ≡ record self.old { given = self.old.given + 1 }) }
        ensures kept { OnErr result (self.new ≡ self.old) }
    {
        let draws = eight_draws(self.last);
        let commands = round_with(alloc, self.given + 1, &draws)?;
        self.given += 1;
        self.last = draws[7];
        Ok(commands)
    }
}

/// What a fill does before its rounds.
pub fn opening() -> [ByteCommand; 1]
    ensures { map byte_line result ≡ fills.opening }
{
    [Command::Store(StoreCommand::Open(None))]
}

/// What a fill does after its rounds: it makes the store last, restarts it, and destroys it once it has told what was kept.
pub fn ending() -> [ByteCommand; 6]
    ensures { map byte_line result ≡ fills.ending }
{
    [
        Command::Store(StoreCommand::Sync),
        Command::Store(StoreCommand::Crash(0)),
        Command::Store(StoreCommand::Open(None)),
        Command::Info(InfoCommand::Info),
        Command::Info(InfoCommand::Root),
        Command::Store(StoreCommand::Destroy),
    ]
}
