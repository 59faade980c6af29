//! The policies that change no value and evict no key.

ghost use Rattle.std.specs.Prelude.{◌≡◌, ◌+◌, ◌-◌, ◌^◌, min, ℕ, Bool, false, IfOk};
ghost use Rattle.qm_model.specs.Walk.{write, stop};
ghost use Rattle.qm_chain.specs.Policies.{action_view};
ghost use Rattle.qm_chain.specs.Kept.{keeping, stopping};

use crate::entry::{Decision, Entry};
use crate::policy::{Limits, Policy};
use qm_base::{ByteString, Twin};
use std::alloc::{AllocError, Global};

/// Moves one live update more than operations were made inactive, however many other locations it passes: so the floor keeps
/// up with the writes.
#[derive(Clone, Copy, Debug, Default, Drop, PartialEq, Eq)]
pub struct Proportional;

/// Moves nothing: the floor stays where it is.
#[derive(Clone, Copy, Debug, Default, Drop, PartialEq, Eq)]
pub struct Hold;

/// Moves within these limits, however many operations were made inactive.
#[derive(Clone, Copy, Debug, Drop, PartialEq, Eq)]
pub struct Bounded {
    /// How many live updates it may move.
    pub entries: u64,
    /// How many other locations it may pass.
    pub skips: u64,
}

impl<F, K: ByteString, V: ByteString> Policy<F, K, V> for Proportional {
    ghost rules = { record { limits = λ p n. record { entries = min (n + 1) (2 ^ 64 - 1); skips = 2 ^ 64 - 1 }; decide = λ p location remaining key value. (write value, p) } };

    ghost may_evict = { λ _. false };

    ghost keeps = { λ p location remaining key value. keeping _ p location remaining key value };

    fn evicts(&self) -> bool {
        false
    }

    fn limits(&self, made_inactive: u64) -> Limits {
        Limits {
            entries: made_inactive.saturating_add(1),
            skips: u64::MAX,
        }
    }

    fn decide<'a>(
        &mut self,
        _alloc: Global,
        live: Entry<'a, F, K, V>,
    ) -> Result<Decision<'a, V>, AllocError>
        ensures action { IfOk result (λ d.
            action_view V.bytes d ≡ write (V.bytes live.entry.value)) }
        ensures next { IfOk result (λ _. self.new ≡ self.old) }
    {
        Ok(live.keep())
    }
}

impl<F, K: ByteString, V: ByteString> Policy<F, K, V> for Hold {
    ghost rules = { record { limits = λ p n. record { entries = 0; skips = 0 }; decide = λ p location remaining key value. (stop, p) } };

    ghost may_evict = { λ _. false };

    ghost keeps = { λ p location remaining key value. stopping _ p location remaining key value };

    fn evicts(&self) -> bool {
        false
    }

    fn limits(&self, _made_inactive: u64) -> Limits {
        Limits {
            entries: 0,
            skips: 0,
        }
    }

    fn decide<'a>(
        &mut self,
        _alloc: Global,
        live: Entry<'a, F, K, V>,
    ) -> Result<Decision<'a, V>, AllocError>
        ensures action { IfOk result (λ d. action_view V.bytes d ≡ stop) }
        ensures next { IfOk result (λ _. self.new ≡ self.old) }
    {
        Ok(live.stop())
    }
}

impl<F, K: ByteString, V: ByteString> Policy<F, K, V> for Bounded {
    ghost rules = { record { limits = λ p n. record { entries = p.entries; skips = p.skips }; decide = λ p location remaining key value. (write value, p) } };

    ghost may_evict = { λ _. false };

    ghost keeps = { λ p location remaining key value. keeping _ p location remaining key value };

    fn evicts(&self) -> bool {
        false
    }

    fn limits(&self, _made_inactive: u64) -> Limits {
        Limits {
            entries: self.entries,
            skips: self.skips,
        }
    }

    fn decide<'a>(
        &mut self,
        _alloc: Global,
        live: Entry<'a, F, K, V>,
    ) -> Result<Decision<'a, V>, AllocError>
        ensures action { IfOk result (λ d.
            action_view V.bytes d ≡ write (V.bytes live.entry.value)) }
        ensures next { IfOk result (λ _. self.new ≡ self.old) }
    {
        Ok(live.keep())
    }
}

impl Twin for Proportional {
    fn twin(&self, _alloc: Global) -> Result<Self, AllocError> {
        Ok(*self)
    }
}

impl Twin for Hold {
    fn twin(&self, _alloc: Global) -> Result<Self, AllocError> {
        Ok(*self)
    }
}

impl Twin for Bounded {
    fn twin(&self, _alloc: Global) -> Result<Self, AllocError> {
        Ok(*self)
    }
}
