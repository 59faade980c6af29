//! A tree of operations and the grafted tree over it, as one tree.

ghost use Rattle.std.specs.Prelude.{◌≡◌, ◌<◌, ◌≤◌, ◌^◌, ℕ, List, length, None, IfSome};
ghost use Rattle.qm_model.specs.Operations.{Bytes};
ghost use Rattle.qm_model.specs.Trees as trees;
ghost use Rattle.qm_model.specs.Grafted as grafts;
ghost use Rattle.qm_proofs.specs.Proofs.{Tells};
ghost use Rattle.qm_graft.specs.Grafting.{grafting, kept_shape};
ghost use Rattle.qm_graft.specs.Trees.{Both, Stands, held_at};

use crate::grafted::Grafted;
use crate::places;
use qm_base::{Digest, Location};
use qm_bits::Chunks;
use qm_chunks::Graftable;
use qm_merkle::{Family, Position};
use qm_proofs::Nodes;
use std::marker::{Model, PhantomData};

/// A tree of operations, whose nodes from the height of chunks on have the values of the grafted tree over it. Both are lent.
#[derive(Drop)]
pub struct GraftedView<'a, F: Graftable, N: Chunks, D, O, G> {
    operations: &'a O,
    grafted: &'a G,
    leaves: Location<F>,
    values: PhantomData<(N, D)>,
}

impl<'a, F: Graftable, N: Chunks, D, O, G> Model for GraftedView<'a, F, N, D, O, G> {
    ghost use Rattle.std.specs.Prelude.{◌≤◌, ◌^◌};
    ghost use Rattle.qm_graft.specs.Trees.{Both};

    ghost Value = { Both O G };

    ghost view = { λ v. record { operations = v.operations.now; grafted = v.grafted.now; leaves = v.leaves } };

    ghost invariant = { λ v. v.leaves ≤ 2 ^ 62 };
}

impl<
    'a,
    F: Graftable,
    N: Chunks,
    D: Digest,
    O: Nodes<F, D>,
    G: Nodes<Grafted<F, N>, D>,
> GraftedView<'a, F, N, D, O, G> {
    /// The view of a tree of so many operations and of the grafted tree over it.
    pub fn new(operations: &'a O, grafted: &'a G, leaves: Location<F>) -> Self
        requires { leaves ≤ 2 ^ 62 }
        ensures { result
            ≡ record { operations = operations.now; grafted = grafted.now; leaves = leaves } }
    {
        GraftedView {
            operations,
            grafted,
            leaves,
            values: PhantomData,
        }
    }

    /// How many nodes it has, with those that are not held: as many as the tree of operations.
    pub fn size(&self) -> Position<F>
        ensures { result ≡ trees.Shape.size F.shape self.now.leaves }
    {
        F::location_to_position(self.leaves)
    }

    /// The value of the node at a position, if it is held: below the height of chunks its digest in the tree of operations, and
    /// else what the grafted tree has.
    pub fn get_node(&self, position: Position<F>) -> Option<D>
        ensures low { (x : trees.Node) → Stands F.shape self.now.leaves position x
            → x.height < grafting N.LEN
            → result ≡ O.node_at self.now.operations position }
        ensures high { (x : trees.Node) → Stands F.shape self.now.leaves position x
            → grafting N.LEN ≤ x.height
            → result
            ≡ G.node_at self.now.grafted
            (trees.Shape.position F.shape (grafts.lowered (grafting N.LEN) x)) }
        ensures none { trees.Shape.size F.shape self.now.leaves ≤ position → result ≡ None }
        ensures value { (hash : Bytes → Bytes) (digests : List Bytes) (chunks : ℕ → Bytes)
            → self.now.leaves ≡ length digests → length digests ≤ 2 ^ 62
            → Tells F.shape D.bytes hash (O.node_at self.now.operations) digests
            → Tells (kept_shape F.shape (grafting N.LEN)) D.bytes hash (G.node_at self.now.grafted)
            (grafts.chunk_values hash F.shape (grafting N.LEN) digests chunks 0
            (grafts.grafted_chunks F.shape (grafting N.LEN) self.now.leaves)) → (x : trees.Node)
            → Stands F.shape self.now.leaves position x
            → IfSome result (λ d.
            D.bytes d ≡ grafts.grafted_value hash F.shape (grafting N.LEN) digests chunks x) }
    {
        Nodes::get_node(self, position)
    }
}

impl<'a, F: Graftable, N: Chunks, D: Digest, O: Nodes<F, D>, G: Nodes<Grafted<F, N>, D>> Nodes<F, D>
    for GraftedView<'a, F, N, D, O, G> {
    ghost node_at = { λ v p. held_at F.shape F.births (O.node_at v.operations) (G.node_at v.grafted) v.leaves (grafting N.LEN) p };

    fn get_node(&self, position: Position<F>) -> Option<D>
        ensures { result
            ≡ held_at F.shape F.births (O.node_at self.now.operations) (G.node_at self.now.grafted)
            self.now.leaves (grafting N.LEN) position }
    {
        node_in(self.operations, self.grafted, self.leaves, position)
    }
}

// The value of the node at a position of a tree of so many operations, if it is held.
fn node_in<F: Graftable, N: Chunks, D: Digest, O: Nodes<F, D>, G: Nodes<Grafted<F, N>, D>>(
    operations: &O,
    grafted: &G,
    leaves: Location<F>,
    position: Position<F>,
) -> Option<D>
    requires { leaves ≤ 2 ^ 62 }
    ensures { result
        ≡ held_at F.shape F.births (O.node_at operations.now) (G.node_at grafted.now) leaves
        (grafting N.LEN) position }
{
    let node = places::node_at(leaves, position)?;
    match places::grafted_position::<F, N>(node) {
        Some(position) => grafted.get_node(position),
        None => operations.get_node(position),
    }
}
