//! What a fill tells of its commands and their replies.

ghost use Rattle.std.specs.Prelude.{◌≡◌, ◌+◌, ◌≤◌, ◌<◌, ◌^◌, ◌∷◌, ◌++◌, [], if◌then◌else◌, codes, decimal, length, map, IfOk, OnOk, OnErr};
ghost use Rattle.std.specs.List.{zip};
ghost use Rattle.qm_lines.specs.Parsed.{byte_line};
ghost use Rattle.qm_lines.specs.Views.{answer_view};
ghost use Rattle.qm_fill.specs.Summary.{Counts, both, counts_of, shown_line, summary_text};
ghost use Rattle.qm_fill.specs.Summary as summaries;

use qm_base::{ByteKey, ByteValue, Digest};
use qm_lines::{ByteCommand, Command, InfoCommand, Reply, reply_text};
use std::alloc::{AllocError, Global};
use std::marker::Model;

// Whether what tells of the database tells its numbers or its roots.
fn is_summed_up(command: &InfoCommand<ByteKey>) -> bool
    ensures { result ≡ summaries.is_shown (byte_line (Command.Info command.now)) }
{
    match command {
        InfoCommand::Info | InfoCommand::Root => true,
        InfoCommand::Ops(_)
        | InfoCommand::Evicted(_)
        | InfoCommand::BatchInfo(_)
        | InfoCommand::BatchRoot(_)
        | InfoCommand::BatchProof(_)
        | InfoCommand::Meta
        | InfoCommand::Prove(_, _, _)
        | InfoCommand::Pins(_)
        | InfoCommand::Current(_) => false,
    }
}

// Whether the reply to a command is shown.
fn is_shown(command: &ByteCommand) -> bool
    ensures { result ≡ summaries.is_shown (byte_line command.now) }
{
    match command {
        Command::Info(command) => is_summed_up(command),
        Command::Batch(_)
        | Command::Making(_)
        | Command::Staged(_)
        | Command::Read(_)
        | Command::Store(_) => false,
    }
}

fn is_refusal<D: Digest>(reply: &Reply<ByteKey, ByteValue, D>) -> bool
    ensures { result ≡ summaries.is_refusal (answer_view (λ k. k) (λ v. v) D.bytes reply.now) }
{
    matches!(reply, Reply::Refused(_))
}

// How many refusals a reply is.
fn refusals_in<D: Digest>(reply: &Reply<ByteKey, ByteValue, D>) -> u64
    ensures { result ≡ (if summaries.is_refusal (answer_view (λ k. k) (λ v. v) D.bytes reply.now)
        then 1 else 0) }
{
    if is_refusal(reply) { 1 } else { 0 }
}

// The line of a reply, if it is shown.
fn shown_text<D: Digest>(
    alloc: Global,
    command: &ByteCommand,
    reply: &Reply<ByteKey, ByteValue, D>,
) -> Result<Vec<u8>, AllocError>
    ensures { IfOk result (λ text. text.items
        ≡ shown_line (byte_line command.now, answer_view (λ k. k) (λ v. v) D.bytes reply.now)) }
{
    if !is_shown(command) {
        return Ok(Vec::new(alloc));
    }
    let mut text = reply_text(alloc, reply)?;
    text.push(b'\n')?;
    Ok(text)
}

fn counts_line(alloc: Global, commands: u64, refused: u64) -> Result<Vec<u8>, AllocError>
    ensures { IfOk result (λ line. line.items ≡ codes "commands "
        ++ (decimal commands ++ (codes " refused " ++ (decimal refused ++ 10 ∷ [])))) }
{
    let line = format!(in alloc; "commands {commands} refused {refused}\n")?;
    Ok(line.into_bytes())
}

/// Counts of commands and of refusals, and the lines of the replies that are shown, of any exchanges.
#[derive(Drop)]
pub struct Tally {
    commands: u64,
    refused: u64,
    shown: Vec<u8>,
}

impl Model for Tally {
    ghost Value = { Counts };

    ghost view = { λ t. record {
      commands = t.commands;
      refused = t.refused;
      shown = t.shown.items;
    } };

    ghost invariant = { λ t. t.refused ≤ t.commands };
}

impl Tally {
    /// That of no exchanges.
    pub fn new(alloc: Global) -> Tally
        ensures { result ≡ record { commands = 0; refused = 0; shown = [] } }
    {
        Tally {
            commands: 0,
            refused: 0,
            shown: Vec::new(alloc),
        }
    }

    // One exchange more. Want of memory is the only error.
    fn add<D: Digest>(
        &mut self,
        alloc: Global,
        command: &ByteCommand,
        reply: &Reply<ByteKey, ByteValue, D>,
    ) -> Result<(), AllocError>
        requires { self.old.commands + 1 < 2 ^ 64 }
        ensures ok { OnOk result (self.new ≡ both self.old (counts_of
            ((byte_line command.now, answer_view (λ k. k) (λ v. v) D.bytes reply.now) ∷ []))) }
        ensures err { OnErr result (self.new ≡ self.old) }
    {
        let text = shown_text(alloc, command, reply)?;
        self.shown.extend_from_slice(&text)?;
        self.refused += refusals_in(reply);
        self.commands += 1;
        Ok(())
    }

    /// With these commands, each of which has its reply. Want of memory is the only error.
    pub fn with<D: Digest>(
        self,
        alloc: Global,
        commands: &[ByteCommand],
        replies: &[Reply<ByteKey, ByteValue, D>],
    ) -> Result<Tally, AllocError>
        requires each { length commands.now ≡ length replies.now }
        requires room { self.commands + length commands.now < 2 ^ 64 }
        ensures { IfOk result (λ tally. tally ≡ both self (counts_of (zip
            (map byte_line commands.now)
            (map (answer_view (λ k. k) (λ v. v) D.bytes) replies.now)))) }
    {
        let mut tally = self;
        for (command, reply) in commands.iter().zip(replies) {
            tally.add(alloc, command, reply)?;
        }
        Ok(tally)
    }

    /// The summary's text: a line of the counts, and then the lines that are shown. Want of memory is the only error.
    pub fn summary(&self, alloc: Global) -> Result<Vec<u8>, AllocError>
        ensures { IfOk result (λ text. text.items ≡ summary_text self.now) }
    {
        let mut text = counts_line(alloc, self.commands, self.refused)?;
        text.extend_from_slice(&self.shown)?;
        Ok(text)
    }
}
