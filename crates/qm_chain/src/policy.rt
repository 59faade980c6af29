//! Policies.

ghost use Rattle.std.specs.Prelude.{◌≡◌, ℕ, List, Bool, false, IfOk};
ghost use Rattle.qm_model.specs.Walk.{Rules};
ghost use Rattle.qm_chain.specs.Policies.{action_view, Keeps};

use crate::entry::{Decision, Entry};
use qm_base::ByteString;
use std::alloc::{AllocError, Global};

/// How many live updates a walk may decide, and how many other locations it may pass.
#[derive(Clone, Copy, Debug, Drop, PartialEq, Eq)]
pub struct Limits {
    /// How many live updates it may decide.
    pub entries: u64,
    /// How many other locations it may pass.
    pub skips: u64,
}

/// What becomes of live updates when a batch is merkleized. A walk from the floor asks for limits once, and then for a
/// decision on one live update after another, in the order of their locations. What a policy learns it may keep, and decide
/// the next ones by; its rules say how. A policy of one's own states its rules and proves that it follows them.
pub trait Policy<F, K: ByteString, V: ByteString>: Drop {
    /// Its limits, and what it decides and then is.
    ghost rules: { Rules Self };

    /// Whether it may evict a key, now or after more decisions.
    ghost may_evict: { Self → Bool };

    /// Whether it may evict a key, now or after more decisions.
    fn evicts(&self) -> bool
        ensures { result ≡ may_evict self.now };

    /// The limits of a walk after writes that made so many operations inactive.
    fn limits(&self, made_inactive: u64) -> Limits
        ensures entries { result.entries ≡ (rules.limits self.now made_inactive).entries }
        ensures skips { result.skips ≡ (rules.limits self.now made_inactive).skips };

    /// Decides a live update. Want of memory is the only error, and the walk ends with it.
    fn decide<'a>(
        &mut self,
        alloc: Global,
        live: Entry<'a, F, K, V>,
    ) -> Result<Decision<'a, V>, AllocError>
        ensures action { IfOk result (λ d. action_view V.bytes d
            ≡ (rules.decide self.old live.entry.location live.entry.remaining
            (K.bytes live.entry.key) (V.bytes live.entry.value)).0) }
        ensures next { IfOk result (λ _. self.new
            ≡ (rules.decide self.old live.entry.location live.entry.remaining
            (K.bytes live.entry.key) (V.bytes live.entry.value)).1) };

    /// If it may not evict, it does not, and may not after it decided.
    ghost keeps: { (p : Self) (location remaining : ℕ) (key value : List ℕ) → may_evict p ≡ false → Keeps rules may_evict p location remaining key value };
}
