//! Up to where a list may be pruned. A chunk has a bit for each of 2^height locations.

ghost use Rattle.std.specs.Prelude.{◌≡◌, ◌*◌, ◌^◌, ◌≤◌, ◌<◌};
ghost use Rattle.qm_model.specs.Trees as trees;
ghost use Rattle.qm_model.specs.Grafted as grafted;

use crate::nodes::{birth_of, chunk_node};
use qm_merkle::family::end_of;
use qm_merkle::{Family, Node};

/// The least list size at which `chunks` chunks may be pruned, if the node over the last of them and its neighbour waits for
/// more than its own leaves.
pub fn pair_absorption_threshold<F: Family>(height: u32, chunks: u64) -> Option<u64>
    requires low { height < 62 }
    requires within { chunks * 2 ^ height ≤ 2 ^ 62 }
    ensures { result ≡ grafted.pair_absorption_threshold F.shape height chunks }
{
    if chunks == 0 {
        return None;
    }
    pair_threshold::<F>(Node::new(height + 1, (chunks - 1) / 2))
}

// The least list size by the node over two chunks, if that waits for more than its own leaves.
fn pair_threshold<F: Family>(node: Node) -> Option<u64>
    requires { trees.end_of node ≤ 2 ^ 62 }
    ensures { result ≡ grafted.pair_threshold F.shape node }
{
    let birth = birth_of::<F>(node);
    if birth == end_of(node) {
        None
    } else {
        Some(birth)
    }
}

/// The least list size at which `chunks` chunks may be pruned.
pub fn needed_size<F: Family>(height: u32, chunks: u64) -> u64
    requires some { 0 < chunks }
    requires low { height < 62 }
    requires within { chunks * 2 ^ height ≤ 2 ^ 62 }
    ensures { result ≡ grafted.needed_size F.shape height chunks }
{
    match pair_absorption_threshold::<F>(height, chunks) {
        Some(size) => size,
        None => birth_of::<F>(chunk_node(height, chunks - 1)),
    }
}

// The most chunks, at most so many, that may go from a list of this size. It counts down, since few chunks wait.
fn prunable_chunks<F: Family>(height: u32, size: u64, chunks: u64) -> u64
    requires low { height < 62 }
    requires within { chunks * 2 ^ height ≤ 2 ^ 62 }
    ensures { result ≡ grafted.prunable_chunks F.shape height size chunks }
{
    let mut left = chunks;
    'chunks: while left > 0 {
        if needed_size::<F>(height, left) <= size {
            return left;
        }
        left -= 1;
    }
    0
}

/// Up to where a list of this floor and size may be pruned: to where a chunk begins, at or below the floor.
pub fn sync_boundary<F: Family>(height: u32, floor: u64, size: u64) -> u64
    requires low { height < 62 }
    requires within { floor ≤ 2 ^ 62 }
    ensures exact { result ≡ grafted.sync_boundary F.shape height floor size }
    ensures below { result ≤ floor }
{
    prunable_chunks::<F>(height, size, floor >> height) << height
}
