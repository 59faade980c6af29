// What every merkleize says.
ghost use Rattle.qm_machine.specs.Grammar as grammar;
ghost use Rattle.qm_lines.specs.Parsed.{Reads, byte_line, lent, merkleizing_of};
ghost use Rattle.qm_lines.specs.Policies.{policy_view};

use super::ByteCommand;
use super::keys::metadata;
use super::numbers::number;
use super::policies::policy;
use super::unread::Unread;
use crate::command::{Command, MakingCommand};
use crate::policy::AnyPolicy;
use qm_base::ByteValue;
use std::alloc::Global;

/// The batch that is merkleized, under which policy, and with which metadata.
#[derive(Drop)]
pub struct Merkleizing {
    pub handle: u64,
    pub policy: AnyPolicy,
    pub metadata: Option<ByteValue>,
}

/// A batch, a policy and metadata, each a word.
pub fn parse_merkleizing(
    alloc: Global,
    handle: &[u8],
    policy_word: &[u8],
    metadata_word: &[u8],
) -> Result<Merkleizing, Unread>
    ensures { Reads (λ m. (m.handle, policy_view m.policy, m.metadata)) result
        (merkleizing_of handle.now policy_word.now metadata_word.now) }
{
    let handle = number(handle)?;
    let metadata = metadata(alloc, metadata_word)?;
    let policy = policy(alloc, policy_word)?;
    Ok(Merkleizing {
        handle,
        policy,
        metadata,
    })
}

/// A batch, a policy and metadata, and no word more.
pub fn merkleize(alloc: Global, words: &[&[u8]]) -> Result<ByteCommand, Unread>
    ensures { Reads byte_line result (grammar.merkleize_of (lent words.now)) }
{
    let [handle, policy, metadata] = words else {
        return Err(Unread::Malformed);
    };
    let m = parse_merkleizing(alloc, handle, policy, metadata)?;
    Ok(Command::Making(MakingCommand::Merkleize(m.handle, m.policy, m.metadata)))
}
