//! What holds of the policies, each as the contract of a function that does nothing.

ghost use Rattle.qm_model.specs.Step.{unordered, ordered};
ghost use Rattle.qm_chain.specs.Maps.{KeepsTheMap};

use crate::policies::{Bounded, Hold, Proportional};
use crate::policy::Policy;
use qm_base::ByteString;

/// The map after a step under a policy that only moves is the one that its writes make of the map before.
pub fn moves_keep_the_map<F, K: ByteString, V: ByteString>()
    ensures proportional { KeepsTheMap unordered ⟦<Proportional as Policy<F, K, V>>⟧.rules
        × KeepsTheMap ordered ⟦<Proportional as Policy<F, K, V>>⟧.rules }
    ensures hold { KeepsTheMap unordered ⟦<Hold as Policy<F, K, V>>⟧.rules
        × KeepsTheMap ordered ⟦<Hold as Policy<F, K, V>>⟧.rules }
    ensures bounded { KeepsTheMap unordered ⟦<Bounded as Policy<F, K, V>>⟧.rules
        × KeepsTheMap ordered ⟦<Bounded as Policy<F, K, V>>⟧.rules }
{}
