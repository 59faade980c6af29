//! What proofs of a list are made from.

use qm_base::Location;
use qm_bits::{Chunks, Prunable};
use qm_chunks::Graftable;
use qm_graft::Grafted;
use qm_merkle::mem::Mem;

/// What proofs of a list are made from: the root of its operations, their tree and the grafted tree over it, its bits, of which
/// there is one for each operation, and its floor. All but the floor are lent.
#[derive(Drop)]
pub struct Parts<'a, F: Graftable, N: Chunks, D> {
    pub ops_root: &'a D,
    pub operations: &'a Mem<F, D>,
    pub grafted: &'a Mem<Grafted<F, N>, D>,
    pub bits: &'a Prunable<N>,
    pub floor: Location<F>,
}
