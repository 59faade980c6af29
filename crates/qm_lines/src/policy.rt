//! The policies that a line can name.

ghost use Rattle.std.specs.Prelude.{◌≡◌, IfOk};
ghost use Rattle.qm_model.specs.Policies.{action_of};
ghost use Rattle.qm_chain.specs.Policies.{action_view};
ghost use Rattle.qm_lines.specs.Policies.{policy_view, rules_of, may_drop, stays};

use qm_base::{ByteString, ByteValue, Twin};
use qm_chain::{Bounded, Decision, Entry, Hold, Limits, Policy, Proportional, Rule};
use std::alloc::{AllocError, Global};

/// One of the policies: what becomes of live updates when a batch is merkleized.
#[derive(Drop)]
pub enum AnyPolicy {
    /// Moves one live update more than operations were made inactive.
    Proportional(Proportional),
    /// Moves nothing.
    Hold(Hold),
    /// Moves within limits.
    Bounded(Bounded),
    /// Goes by values, within limits.
    Rule(Rule<ByteValue>),
}

impl<F, K: ByteString> Policy<F, K, ByteValue> for AnyPolicy {
    ghost rules = { rules_of };

    ghost may_evict = { may_drop };

    ghost keeps = { stays };

    fn evicts(&self) -> bool {
        match self {
            AnyPolicy::Rule(rule) => <Rule<ByteValue> as Policy<F, K, ByteValue>>::evicts(rule),
            AnyPolicy::Proportional(_) | AnyPolicy::Hold(_) | AnyPolicy::Bounded(_) => false,
        }
    }

    fn limits(&self, made_inactive: u64) -> Limits {
        match self {
            AnyPolicy::Proportional(policy) => {
                <Proportional as Policy<F, K, ByteValue>>::limits(policy, made_inactive)
            }
            AnyPolicy::Hold(policy) => {
                <Hold as Policy<F, K, ByteValue>>::limits(policy, made_inactive)
            }
            AnyPolicy::Bounded(policy) => {
                <Bounded as Policy<F, K, ByteValue>>::limits(policy, made_inactive)
            }
            AnyPolicy::Rule(policy) => {
                <Rule<ByteValue> as Policy<F, K, ByteValue>>::limits(policy, made_inactive)
            }
        }
    }

    fn decide<'a>(
        &mut self,
        alloc: Global,
        live: Entry<'a, F, K, ByteValue>,
    ) -> Result<Decision<'a, ByteValue>, AllocError>
        ensures action { IfOk result (λ d. action_view (λ v. v) d
            ≡ action_of (policy_view self.old) live.entry.remaining live.entry.value) }
        ensures next { IfOk result (λ _. self.new ≡ self.old) }
    {
        match self {
            AnyPolicy::Proportional(policy) => policy.decide(alloc, live),
            AnyPolicy::Hold(policy) => policy.decide(alloc, live),
            AnyPolicy::Bounded(policy) => policy.decide(alloc, live),
            AnyPolicy::Rule(policy) => policy.decide(alloc, live),
        }
    }
}

impl Twin for AnyPolicy {
    fn twin(&self, alloc: Global) -> Result<AnyPolicy, AllocError> {
        match self {
            AnyPolicy::Proportional(policy) => Ok(AnyPolicy::Proportional(*policy)),
            AnyPolicy::Hold(policy) => Ok(AnyPolicy::Hold(*policy)),
            AnyPolicy::Bounded(policy) => Ok(AnyPolicy::Bounded(*policy)),
            AnyPolicy::Rule(policy) => Ok(AnyPolicy::Rule(policy.twin(alloc)?)),
        }
    }
}
