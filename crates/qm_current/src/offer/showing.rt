//! Proofs of keys, of absences, of operations in a row and of the operations root.

ghost use Rattle.std.specs.Prelude.{◌≡◌, Bool, Some, None, true, false, is_some, if◌then◌else◌};
ghost use Rattle.std.proofs.Common.{⊎_elim, refl, subst, sym};
ghost use Rattle.qm_graft.specs.Grafting.{grafting};
ghost use Rattle.qm_model.specs.Checks.{absent_check};
ghost use Rattle.qm_model.proofs.Proving.{true_or_false};
ghost use Rattle.sha2.specs.Sha256.{sha256};
ghost use Rattle.qm_current.specs.Offered.{offered_chunk};

use crate::absence::Absences;
use crate::db::Db;
use qm_base::{Error, Location, Sha256};
use qm_bits::Chunk32;
use qm_chunks::Graftable;
use qm_merkle::StandardHasher;
use qm_offer::{Showing, ShownRange};
use qm_operations::Operation;
use qm_store::Store;
use std::alloc::Global;
use std::num::NonZeroU64;

impl<
    F: Graftable,
    C: Store + Drop,
    I: qm_index::Unordered<Value = Location<F>> + Drop,
    U: Absences<F, I>,
> Showing<C> for Db<F, C, I, Sha256, U, Chunk32> {
    fn held(&mut self, alloc: Global, key: &U::Key) -> Result<(u64, bool), Error> {
        let mut hasher = StandardHasher::new(Sha256::new());
        match self.update_proof(alloc, &mut hasher, key) {
            Ok((update, proof)) => {
                let root = self.root();
                let operation: Operation<F, U> = Operation::Update(update);
                let is_accepted = proof.verify(&mut hasher, &operation, &root);
                Ok((proof.loc.get(), is_accepted))
            }
            Err(error) => Err(error),
        }
    }

    fn absent(&mut self, alloc: Global, key: &U::Key) -> Result<Option<(u64, bool)>, Error> {
        let mut hasher = StandardHasher::new(Sha256::new());
        U::absent(alloc, &mut hasher, self, key)
    }

    fn chunks(&mut self, alloc: Global, start: u64, max: NonZeroU64) -> Result<ShownRange, Error> {
        let mut hasher = StandardHasher::new(Sha256::new());
        let from = Location::new(start);
        match self.range_proof(alloc, &mut hasher, from, max) {
            Ok((proof, operations, chunks)) => {
                let root = self.root();
                let at = Location::new(start);
                let is_accepted = Self::verify_range_proof(
                    &mut hasher,
                    &proof,
                    at,
                    &operations,
                    &chunks,
                    &root,
                );
                Ok(ShownRange {
                    operations: operations.len() as u64,
                    chunks: chunks.len() as u64,
                    is_accepted,
                })
            }
            Err(error) => Err(error),
        }
    }

    fn witness(&self, alloc: Global) -> Result<bool, Error> {
        let mut hasher = StandardHasher::new(Sha256::new());
        let witness = self.ops_root_witness(alloc, &mut hasher)?;
        let operations = self.ops_root();
        let root = self.root();
        Ok(witness.verify::<F, Chunk32, Sha256>(&mut hasher, &operations, &root))
    }

    ghost checked = { refl };

    ghost absences = { let told : Bool → Type 0 = λ b. is_some (if b then Some (absent_check sha256 F.shape (grafting offered_chunk) U.form) else None) ≡ b in
        ⊎_elim (λ (yes : U.form.ordered ≡ true). subst told (sym yes) refl) (λ (no : U.form.ordered ≡ false). subst told (sym no) refl) (true_or_false U.form.ordered) };
}
