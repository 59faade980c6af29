//! The policy that goes by values.

ghost use Rattle.std.specs.Prelude.{◌≡◌, bytes_eq, option_map, IfOk};
ghost use Rattle.qm_model.specs.Policies as model;
ghost use Rattle.qm_model.specs.Walk.{write};
ghost use Rattle.qm_chain.specs.Ruled.{rule_action, rule_rules, may_drop, rule_keeps};
ghost use Rattle.qm_chain.specs.Policies.{action_view};

use crate::entry::{Decision, Entry};
use crate::policy::{Limits, Policy};
use qm_base::{ByteString, Twin, twin_option};
use std::alloc::{AllocError, Global};

/// Within these limits, drops a value, unless it spares the last entries, stops at a value, or swaps a value for another. It
/// tests them in this order, and keeps a value that is none of them; values are compared by their bytes. A value that is
/// written by a swap is copied, which may take memory.
#[derive(Drop)]
pub struct Rule<V> {
    /// How many live updates it may decide.
    pub entries: u64,
    /// How many other locations it may pass.
    pub skips: u64,
    /// The value whose key is deleted.
    pub drop: Option<V>,
    /// The value that it ends before.
    pub stop: Option<V>,
    /// The value that is swapped, and the one that is written for it.
    pub swap: Option<(V, V)>,
    /// No value is dropped if no more entries are left than this, the one to be decided included.
    pub spare: Option<u64>,
}

// Whether a value is this one.
fn is_value<V: ByteString>(one: &V, value: &V) -> bool
    ensures { result ≡ bytes_eq (V.bytes value.now) (V.bytes one.now) }
{
    one.as_bytes() == value.as_bytes()
}

// Whether a value is this one, if there is one.
fn is_it<V: ByteString>(one: &Option<V>, value: &V) -> bool
    ensures { result ≡ model.is_it (option_map V.bytes one.now) (V.bytes value.now) }
{
    match one {
        None => false,
        Some(one) => is_value(one, value),
    }
}

// Writes the value, or what it is swapped for.
fn swapped<'a, F, K, V: ByteString>(
    alloc: Global,
    swap: &Option<(V, V)>,
    live: Entry<'a, F, K, V>,
) -> Result<Decision<'a, V>, AllocError>
    ensures { IfOk result (λ d. action_view V.bytes d
        ≡ write (model.swapped (option_map (λ p. (V.bytes p.0, V.bytes p.1)) swap.now)
        (V.bytes live.entry.value))) }
{
    match swap {
        None => Ok(live.keep()),
        Some((from, to)) => {
            if is_value(from, live.value()) {
                let to = to.twin(alloc)?;
                Ok(live.replace(to))
            } else {
                Ok(live.keep())
            }
        }
    }
}

// Whether nothing is spared with so many entries left.
fn is_unspared(spare: Option<u64>, remaining: usize) -> bool
    ensures { result ≡ model.is_unspared spare remaining }
{
    match spare {
        None => true,
        Some(spare) => spare < remaining as u64,
    }
}

// Decides an entry.
fn decided<'a, F, K, V: ByteString>(
    alloc: Global,
    rule: &Rule<V>,
    live: Entry<'a, F, K, V>,
) -> Result<Decision<'a, V>, AllocError>
    ensures { IfOk result (λ d. action_view V.bytes d
        ≡ rule_action V.bytes rule.now live.entry.remaining (V.bytes live.entry.value)) }
{
    let is_dropped = is_it(&rule.drop, live.value());
    let is_unspared = is_unspared(rule.spare, live.remaining());
    if is_dropped && is_unspared {
        let (decision, _value) = live.evict();
        return Ok(decision);
    }
    if is_it(&rule.stop, live.value()) {
        return Ok(live.stop());
    }
    swapped(alloc, &rule.swap, live)
}

impl<F, K: ByteString, V: ByteString> Policy<F, K, V> for Rule<V> {
    ghost rules = { rule_rules V.bytes };

    ghost may_evict = { may_drop };

    ghost keeps = { λ p location remaining key value keeps_all. rule_keeps V.bytes p location remaining key value keeps_all };

    fn evicts(&self) -> bool {
        self.drop.is_some()
    }

    fn limits(&self, _made_inactive: u64) -> Limits {
        Limits {
            entries: self.entries,
            skips: self.skips,
        }
    }

    fn decide<'a>(
        &mut self,
        alloc: Global,
        live: Entry<'a, F, K, V>,
    ) -> Result<Decision<'a, V>, AllocError>
        ensures action { IfOk result (λ d. action_view V.bytes d
            ≡ rule_action V.bytes self.old live.entry.remaining (V.bytes live.entry.value)) }
        ensures next { IfOk result (λ _. self.new ≡ self.old) }
    {
        decided(alloc, self, live)
    }
}

// A copy of a pair that may be none.
fn twin_of_pair<V: ByteString>(
    alloc: Global,
    pair: &Option<(V, V)>,
) -> Result<Option<(V, V)>, AllocError>
    ensures { IfOk result (λ copy. copy ≡ pair.now) }
{
    match pair {
        None => Ok(None),
        Some((from, to)) => {
            let from = from.twin(alloc)?;
            let to = to.twin(alloc)?;
            Ok(Some((from, to)))
        }
    }
}

impl<V: ByteString> Twin for Rule<V> {
    fn twin(&self, alloc: Global) -> Result<Self, AllocError> {
        let drop = twin_option(alloc, &self.drop)?;
        let stop = twin_option(alloc, &self.stop)?;
        let swap = twin_of_pair(alloc, &self.swap)?;
        Ok(Rule {
            entries: self.entries,
            skips: self.skips,
            drop,
            stop,
            swap,
            spare: self.spare,
        })
    }
}
