//! A policy of one's own that notes how many entries are left at each decision.

ghost use Rattle.std.specs.Prelude.{◌≡◌, ◌^◌, ◌-◌, ◌==◌, ◌&&◌, false, refl, IfOk};
ghost use Rattle.qm_model.specs.Walk as walk;
ghost use Rattle.qm_chain.specs.Policies.{action_view};

use crate::bed::{Bed, Database, Key, Value, of_bytes};
use qm_base::{ByteString, Error};
use qm_chain::{Decision, Entry, Limits, Policy};
use std::alloc::{AllocError, Global};

/// Keeps each value, and notes whether the entries that were left fell by one each time, from those of its limits.
#[derive(Drop)]
struct Countdown {
    left: u64,
    falls: bool,
}

impl<F, K: ByteString, V: ByteString> Policy<F, K, V> for Countdown {
    ghost rules = { record {
      limits = λ p n. record { entries = p.left; skips = 2 ^ 64 - 1 };
      decide = λ p location remaining key value. (walk.write value, record { left = p.left - 1; falls = p.falls && (remaining == p.left) });
    } };

    ghost may_evict = { λ _. false };

    ghost keeps = { λ p location remaining key value calm. record { not_evicted = λ gone. cc; kept = refl } };

    fn evicts(&self) -> bool {
        false
    }

    fn limits(&self, _made_inactive: u64) -> Limits {
        Limits {
            entries: self.left,
            skips: u64::MAX,
        }
    }

    fn decide<'a>(
        &mut self,
        _alloc: Global,
        live: Entry<'a, F, K, V>,
    ) -> Result<Decision<'a, V>, AllocError>
        ensures action { IfOk result (λ d.
            action_view V.bytes d ≡ walk.write (V.bytes live.entry.value)) }
        ensures next { IfOk result (λ _. self.new
            ≡ record {
              left = self.old.left - 1;
              falls = self.old.falls && (live.entry.remaining == self.old.left);
            }) }
    {
        let is_next = live.remaining() as u64 == self.left;
        self.falls = self.falls && is_next;
        self.left = self.left.saturating_sub(1);
        Ok(live.keep())
    }
}

// Whether the entries fall by one over the two live keys of a batch that writes one beside that of a database, from more entries on
// than a walk reads at once.
pub(crate) fn falls_by_one<B: Bed>(alloc: Global, db: &mut Database<B>) -> Result<bool, Error> {
    let key: Key<B> = of_bytes(alloc, &[5, 6, 7, 8])?;
    let value: Value<B> = of_bytes(alloc, &[20; 8])?;
    let mut countdown = Countdown {
        left: 5_000,
        falls: true,
    };
    db.new_batch(alloc)?
        .write(key, Some(value))?
        .merkleize(alloc, db, None, &mut countdown)?;
    Ok(countdown.falls && countdown.left == 4_998)
}
