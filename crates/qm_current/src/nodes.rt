//! The nodes of the tree that a batch makes.

ghost use Rattle.std.specs.Prelude.{◌≡◌, IsSome};
ghost use Rattle.qm_store.specs.KeptTrees.{held_at};

use qm_any::batch::MerkleizedBatch;
use qm_base::Digest;
use qm_merkle::mem::Mem;
use qm_merkle::{Family, Position};
use qm_operations::Update;
use qm_proofs::Nodes;

/// What a batch adds to a database's tree, and what that has below.
#[derive(Drop)]
pub(crate) struct NodesOver<'a, 'b, F: Family, D: Digest, U: Update> {
    pub(crate) batch: &'a MerkleizedBatch<F, D, U>,
    pub(crate) tree: &'b Mem<F, D>,
}

impl<'a, 'b, F: Family, D: Digest, U: Update> Nodes<F, D> for NodesOver<'a, 'b, F, D, U> {
    ghost node_at = { λ o p. held_at F.shape o.batch.now.tree o.tree.now p };

    fn get_node(&self, position: Position<F>) -> Option<D>
        ensures { result ≡ held_at F.shape self.now.batch.now.tree self.now.tree.now position }
    {
        match self.batch.get_node(position) {
            Some(digest) => Some(digest),
            None => self.tree.get_node(position),
        }
    }
}
