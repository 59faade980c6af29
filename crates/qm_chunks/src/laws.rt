//! What holds of chunks and boundaries, each as the contract of a function that does nothing.

ghost use Rattle.std.specs.Prelude.{◌≡◌, ◌↔◌, ℕ, suc, ◌+◌, ◌*◌, ◌/◌, ◌^◌, ◌<◌, ◌≤◌, Some, None};
ghost use Rattle.qm_model.specs.Trees.{Shape};
ghost use Rattle.qm_model.specs.Mmr.{mmr};
ghost use Rattle.qm_model.specs.Mmb.{mmb};
ghost use Rattle.qm_model.specs.Grafted.{chunk_node, pending_chunk, grafted_chunks, chunk_start, prunable_chunks, sync_boundary};

use crate::graftable::Graftable;

/// Of a list's complete chunks at most one is pending: the one whose node is not born yet, and it is the last.
pub fn at_most_one_chunk_is_pending<F: Graftable>()
    ensures unborn { (g n c : ℕ) → (pending_chunk F.shape g n ≡ Some c)
        ↔ ((suc c * 2 ^ g ≤ n) × (n < Shape.birth F.shape (chunk_node g c))) }
    ensures last { (g n c : ℕ) → pending_chunk F.shape g n ≡ Some c → suc c ≡ n / 2 ^ g }
{}

/// The grafted chunks are those whose nodes are born.
pub fn chunks_are_grafted_when_born<F: Graftable>()
    ensures { (g n c : ℕ) → (c < grafted_chunks F.shape g n)
        ↔ (Shape.birth F.shape (chunk_node g c) ≤ n) }
{}

/// In Merkle mountain ranges no chunk is pending: each complete chunk is grafted.
pub fn no_chunk_is_pending_in_mountain_ranges()
    ensures pending { (g n : ℕ) → pending_chunk mmr g n ≡ None }
    ensures grafted { (g n : ℕ) → grafted_chunks mmr g n ≡ n / 2 ^ g }
{}

/// Of the chunks below the floor few wait, whatever the list's size: at most three, of trees with delayed merges two, and
/// of mountain ranges none.
pub fn few_chunks_wait<F: Graftable>()
    ensures every { (g floor n : ℕ) → floor ≤ n
        → floor / 2 ^ g ≤ prunable_chunks F.shape g n (floor / 2 ^ g) + 3 }
    ensures delayed { (g floor n : ℕ) → floor ≤ n
        → floor / 2 ^ g ≤ prunable_chunks mmb g n (floor / 2 ^ g) + 2 }
    ensures mountains { (g floor n : ℕ) → floor ≤ n
        → sync_boundary mmr g floor n ≡ chunk_start g floor }
{}

/// Chunks that may go are grafted.
pub fn prunable_chunks_are_grafted()
    ensures delayed { (g n c : ℕ) → 0 < g → prunable_chunks mmb g n c ≤ grafted_chunks mmb g n }
    ensures mountains { (g n c : ℕ) → prunable_chunks mmr g n c ≤ grafted_chunks mmr g n }
{}
