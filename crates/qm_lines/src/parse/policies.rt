// Policies: parts between colons.
ghost use Rattle.std.specs.Prelude.{◌≡◌, option_map};
ghost use Rattle.qm_machine.specs.Grammar as grammar;
ghost use Rattle.qm_lines.specs.Parsed.{Reads, lent, limits_view, first_named};
ghost use Rattle.qm_lines.specs.Policies.{policy_view};

use super::keys::value;
use super::numbers::number;
use super::pieces::{is, pieces};
use super::unread::Unread;
use crate::policy::AnyPolicy;
use qm_base::ByteValue;
use qm_chain::{Bounded, Hold, Limits, Proportional, Rule};
use std::alloc::Global;

// What follows this name in the first part, and the parts after it.
fn first_named<'a>(name: &[u8], parts: &'a [&'a [u8]]) -> Option<(&'a [u8], &'a [&'a [u8]])>
    ensures { option_map (λ found. (found.0.now, lent found.1.now)) result
        ≡ first_named name.now (lent parts.now) }
{
    let (first, rest) = parts.split_first()?;
    let behind = first.strip_prefix(name)?;
    Some((behind, rest))
}

// What a first part says, if it is there, and the parts after it.
#[derive(Drop)]
struct Said<'a, A> {
    said: Option<A>,
    rest: &'a [&'a [u8]],
}

// A value after this name, which may be left out.
fn optional_value<'a>(
    alloc: Global,
    name: &[u8],
    parts: &'a [&'a [u8]],
) -> Result<Said<'a, ByteValue>, Unread>
    ensures { Reads (λ s. (s.said, lent s.rest.now)) result
        (grammar.optional name.now grammar.value_of (lent parts.now)) }
{
    let Some((word, rest)) = first_named(name, parts) else {
        return Ok(Said {
            said: None,
            rest: parts,
        });
    };
    let said = Some(value(alloc, word)?);
    Ok(Said { said, rest })
}

// Two values with a sign between them.
fn swap(alloc: Global, word: &[u8]) -> Result<(ByteValue, ByteValue), Unread>
    ensures { Reads (λ pair. pair) result (grammar.swap_of word.now) }
{
    let words = pieces(alloc, word, b'>')?;
    let [from, to] = words.as_slice() else {
        return Err(Unread::Malformed);
    };
    let from = value(alloc, from)?;
    let to = value(alloc, to)?;
    Ok((from, to))
}

// Two values after this name, which may be left out.
fn optional_swap<'a>(
    alloc: Global,
    name: &[u8],
    parts: &'a [&'a [u8]],
) -> Result<Said<'a, (ByteValue, ByteValue)>, Unread>
    ensures { Reads (λ s. (s.said, lent s.rest.now)) result
        (grammar.optional name.now grammar.swap_of (lent parts.now)) }
{
    let Some((word, rest)) = first_named(name, parts) else {
        return Ok(Said {
            said: None,
            rest: parts,
        });
    };
    let said = Some(swap(alloc, word)?);
    Ok(Said { said, rest })
}

// A number after this name, which may be left out.
fn optional_number<'a>(name: &[u8], parts: &'a [&'a [u8]]) -> Result<Said<'a, u64>, Unread>
    ensures { Reads (λ s. (s.said, lent s.rest.now)) result
        (grammar.optional name.now grammar.number_of (lent parts.now)) }
{
    let Some((word, rest)) = first_named(name, parts) else {
        return Ok(Said {
            said: None,
            rest: parts,
        });
    };
    let said = Some(number(word)?);
    Ok(Said { said, rest })
}

// Entries and skips.
fn limits(entries: &[u8], skips: &[u8]) -> Result<Limits, Unread>
    ensures { Reads limits_view result (grammar.limits_of entries.now skips.now) }
{
    let entries = number(entries)?;
    let skips = number(skips)?;
    Ok(Limits { entries, skips })
}

fn bounded(parts: &[&[u8]]) -> Result<AnyPolicy, Unread>
    ensures { Reads policy_view result (grammar.bounded_of (lent parts.now)) }
{
    let [entries, skips] = parts else {
        return Err(Unread::Malformed);
    };
    let Limits { entries, skips } = limits(entries, skips)?;
    Ok(AnyPolicy::Bounded(Bounded { entries, skips }))
}

// The rule of these numbers and values, if no part is left.
fn rule_of(
    limits: Limits,
    drop: Option<ByteValue>,
    stop: Option<ByteValue>,
    swap: Option<(ByteValue, ByteValue)>,
    spare: Said<'_, u64>,
) -> Result<AnyPolicy, Unread>
    ensures { Reads policy_view result (grammar.rule_of limits.entries limits.skips drop stop swap
        (spare.entry.said, lent spare.entry.rest.now)) }
{
    let policy = AnyPolicy::Rule(Rule {
        entries: limits.entries,
        skips: limits.skips,
        drop,
        stop,
        swap,
        spare: spare.said,
    });
    only(spare.rest, policy)
}

// A rule within these limits, of what is to be dropped, to be stopped at and to be swapped, and of how many entries are spared.
fn rule_with(alloc: Global, limits: Limits, parts: &[&[u8]]) -> Result<AnyPolicy, Unread>
    ensures { Reads policy_view result
        (grammar.rule_with limits.entries limits.skips (lent parts.now)) }
{
    let drop = optional_value(alloc, b"drop=", parts)?;
    let stop = optional_value(alloc, b"stop=", drop.rest)?;
    let swap = optional_swap(alloc, b"swap=", stop.rest)?;
    let spare = optional_number(b"spare=", swap.rest)?;
    rule_of(limits, drop.said, stop.said, swap.said, spare)
}

fn rule(alloc: Global, parts: &[&[u8]]) -> Result<AnyPolicy, Unread>
    ensures { Reads policy_view result (grammar.ruled_of (lent parts.now)) }
{
    let [entries, skips, rest @ ..] = parts else {
        return Err(Unread::Malformed);
    };
    let limits = limits(entries, skips)?;
    rule_with(alloc, limits, rest)
}

// No part more.
fn only(parts: &[&[u8]], policy: AnyPolicy) -> Result<AnyPolicy, Unread>
    ensures { Reads policy_view result (grammar.only_policy (policy_view policy) (lent parts.now)) }
{
    parts.is_empty().then_some(policy).ok_or(Unread::Malformed)
}

// The policy that parts are, by the first.
fn of_parts(alloc: Global, parts: &[&[u8]]) -> Result<AnyPolicy, Unread>
    ensures { Reads policy_view result (grammar.policy_of_words (lent parts.now)) }
{
    let Some((name, parts)) = parts.split_first() else {
        return Err(Unread::Malformed);
    };
    if is(name, b"prop") {
        only(parts, AnyPolicy::Proportional(Proportional))
    } else if is(name, b"hold") {
        only(parts, AnyPolicy::Hold(Hold))
    } else if is(name, b"bounded") {
        bounded(parts)
    } else if is(name, b"rule") {
        rule(alloc, parts)
    } else {
        Err(Unread::Malformed)
    }
}

/// The policy that a word is.
pub fn policy(alloc: Global, word: &[u8]) -> Result<AnyPolicy, Unread>
    ensures { Reads policy_view result (grammar.policy_of word.now) }
{
    let parts = pieces(alloc, word, b':')?;
    of_parts(alloc, &parts)
}
