//! A log, read item by item.

use crate::{AuthLog, Store};
use qm_base::{Error, Hasher, Items};
use qm_merkle::Family;

impl<F: Family, C: Store, H: Hasher> Items for AuthLog<F, C, H> {
    ghost use Rattle.std.proofs.Common.{arith, refl, ◌∙◌};
    ghost use Rattle.qm_store.specs.Reads.{log_reads};

    ghost reads = { log_reads C.Store F.shape H.Digest.bytes H.hash };

    ghost unread = { λ a. record { tree = refl; kept = record { start = refl; end = refl; told = refl }; later = omega arith } };

    ghost read_again = { λ a b c before after.
        let first = before.later in
        let second = after.later in
        record {
          tree = after.tree ∙ before.tree;
          kept = record { start = after.kept.start ∙ before.kept.start; end = after.kept.«end» ∙ before.kept.«end»; told = after.kept.told ∙ before.kept.told };
          later = omega (arith, first, second);
        } };

    ghost failed_later = { λ a b c before rose. let later = before.later in omega (arith, later, rose) };

    fn read_item(&mut self, at: u64) -> Result<Option<Vec<u8>>, Error> {
        if self.size() <= at {
            return Ok(None);
        }
        let item = self.read(at)?;
        Ok(Some(item))
    }
}
