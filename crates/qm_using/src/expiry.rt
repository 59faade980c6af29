//! A policy of one's own: values carry the block up to which they are valid, and a batch drops what has expired.

ghost use Rattle.std.specs.Prelude.{◌≡◌, ◌^◌, ◌-◌, ℕ, Bool, true, nat_lt, if◌then◌else◌, slice_index_or, IfOk};
ghost use Rattle.qm_model.specs.Walk as walk;
ghost use Rattle.qm_chain.specs.Policies.{action_view};

use qm_base::ByteString;
use qm_chain::{Decision, Entry, Limits, Policy};
use std::alloc::{AllocError, Global};

/// Drops each value whose first byte is below that of the block, and keeps the others.
#[derive(Drop)]
pub struct Expiry {
    /// The block.
    pub block: u8,
}

impl<F, K: ByteString, V: ByteString> Policy<F, K, V> for Expiry {
    ghost rules = { record {
      limits = λ p n. record { entries = 2 ^ 64 - 1; skips = 2 ^ 64 - 1 };
      decide = λ p location remaining key value. (if nat_lt (slice_index_or value 0 0) p.block then walk.evict else walk.write value, p);
    } };

    ghost may_evict = { λ _. true };

    ghost keeps = { λ p location remaining key value never. cc };

    fn evicts(&self) -> bool {
        true
    }

    fn limits(&self, _made_inactive: u64) -> Limits {
        Limits {
            entries: u64::MAX,
            skips: u64::MAX,
        }
    }

    fn decide<'a>(
        &mut self,
        _alloc: Global,
        live: Entry<'a, F, K, V>,
    ) -> Result<Decision<'a, V>, AllocError>
        ensures action { IfOk result (λ d. action_view V.bytes d
            ≡ (if nat_lt (slice_index_or (V.bytes live.entry.value) 0 0) self.old.block then
            walk.evict else walk.write (V.bytes live.entry.value))) }
        ensures next { IfOk result (λ _. self.new ≡ self.old) }
    {
        let first = live.value().as_bytes().first().copied().unwrap_or(0);
        if first < self.block {
            let (decision, _) = live.evict();
            Ok(decision)
        } else {
            Ok(live.keep())
        }
    }
}
