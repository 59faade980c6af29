//! Families whose trees chunks are grafted onto.

ghost use Rattle.std.specs.Prelude.{◌≡◌, ℕ, suc, None, ◌*◌, ◌^◌, ◌<◌, ◌≤◌};
ghost use Rattle.qm_model.specs.Trees as trees;
ghost use Rattle.qm_model.specs.Mmr.{mmr};
ghost use Rattle.qm_model.specs.Mmb.{mmb};
ghost use Rattle.qm_model.specs.Grafted as grafted;
ghost use Rattle.qm_model.proofs.GraftedLemmas.{mmr_prompt, mmb_prompt, mmb_lowered_born, mmb_absorbed};
ghost use Rattle.qm_chunks.specs.Bare.{mmr_bare, mmb_bare};
ghost use Rattle.qm_chunks.specs.Lowered.{mmr_lowered_born, mmr_absorbed};
ghost use Rattle.qm_chunks.specs.Rising.{mmr_rising, mmr_ready, mmb_rising, mmb_ready};

use crate::nodes::chunk_node;
use qm_merkle::family::{end_of, place};
use qm_merkle::{Family, Node, Position, mmb, mmr};

/// A family that chunks can be grafted onto. Six laws hold of it:
///
/// 1. A node is born by the time the leaves of the next one of its height are there.
/// 2. A tree of no leaves has no nodes.
/// 3. Once a node over chunks is born, the one that stands for it in the grafted tree is born too.
/// 4. For the nodes over chunks that may be pruned it is also the other way round.
/// 5. More chunks need no smaller list to be pruned.
/// 6. The node over the last of chunks that have no threshold does not wait for more than its own leaves.
pub trait Graftable: Family {
    /// How many leaves a tree has when the node is born.
    fn birth(node: Node) -> u64
        requires { trees.end_of node ≤ 2 ^ 62 }
        ensures { result ≡ trees.Shape.birth Self.shape node };

    /// Where the node over a chunk stands.
    fn chunk_position(height: u32, chunk: u64) -> Position<Self>
        requires { suc chunk * 2 ^ height ≤ 2 ^ 62 }
        ensures { result ≡ trees.Shape.position Self.shape (grafted.chunk_node height chunk) }
    {
        place::<Self>(chunk_node(height, chunk))
    }

    /// How many leaves a tree has when the node over a chunk is born.
    fn chunk_birth(height: u32, chunk: u64) -> u64
        requires { suc chunk * 2 ^ height ≤ 2 ^ 62 }
        ensures { result ≡ trees.Shape.birth Self.shape (grafted.chunk_node height chunk) }
    {
        Self::birth(chunk_node(height, chunk))
    }

    ghost prompt: { (height index : ℕ) → trees.Shape.birth Self.shape (record { height = height; index = index }) ≤ suc (suc index) * 2 ^ height };

    ghost bare: { trees.Shape.size Self.shape 0 ≡ 0 };

    ghost lowered: { (height leaves : ℕ) (node : trees.Node) → 0 < height → trees.Shape.birth Self.shape (grafted.raised height node) ≤ leaves → trees.Shape.birth Self.shape node ≤ grafted.grafted_chunks Self.shape height leaves };

    ghost absorbed: { (height leaves chunks : ℕ) (node : trees.Node) → 0 < height → 0 < chunks → grafted.needed_size Self.shape height chunks ≤ leaves → trees.Shape.birth Self.shape node ≤ chunks
        → trees.Shape.birth Self.shape (grafted.raised height node) ≤ leaves };

    ghost rising: { (height few more : ℕ) → 0 < height → few ≤ more → grafted.needed_size Self.shape height (suc few) ≤ grafted.needed_size Self.shape height (suc more) };

    ghost ready: { (height chunk : ℕ) → 0 < height → grafted.pair_absorption_threshold Self.shape height (suc chunk) ≡ None
        → trees.Shape.birth Self.shape (grafted.chunk_node height chunk) ≤ suc chunk * 2 ^ height };
}

impl Graftable for mmr::Family {
    fn birth(node: Node) -> u64
        requires { trees.end_of node ≤ 2 ^ 62 }
        ensures { result ≡ mmr.birth node }
    {
        end_of(node)
    }

    ghost prompt = { mmr_prompt };

    ghost bare = { mmr_bare };

    ghost lowered = { mmr_lowered_born };

    ghost absorbed = { mmr_absorbed };

    ghost rising = { mmr_rising };

    ghost ready = { mmr_ready };
}

impl Graftable for mmb::Family {
    fn birth(node: Node) -> u64
        requires { trees.end_of node ≤ 2 ^ 62 }
        ensures { result ≡ mmb.birth node }
    {
        let end = end_of(node);
        if node.height() == 0 {
            end
        } else {
            end + (1 << (node.height() - 1)) - 1
        }
    }

    ghost prompt = { mmb_prompt };

    ghost bare = { mmb_bare };

    ghost lowered = { λ height leaves node. mmb_lowered_born height leaves node.height node.index };

    ghost absorbed = { λ height leaves chunks node. mmb_absorbed height leaves chunks node.height node.index };

    ghost rising = { mmb_rising };

    ghost ready = { mmb_ready };
}
