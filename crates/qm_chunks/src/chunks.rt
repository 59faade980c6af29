//! Chunks of bits, each for 2^height locations: how high they are grafted, and which of a list's are.

ghost use Rattle.std.specs.Prelude.{◌≡◌, ℕ, ◌+◌, ◌*◌, ◌%◌, ◌^◌, ◌≤◌, ◌<◌, List, length};
ghost use Rattle.qm_model.specs.Operations.{Operation};
ghost use Rattle.qm_model.specs.Live as live;
ghost use Rattle.qm_model.specs.Bits as bits;
ghost use Rattle.qm_model.specs.Trees as trees;
ghost use Rattle.qm_model.specs.Grafted as grafted;

use crate::graftable::Graftable;
use qm_base::Location;
use qm_merkle::{Family, Node};

/// The height of the nodes that have as many leaves as a chunk of so many bytes has bits.
pub fn grafting_height(chunk_len: usize) -> u32
    requires power { (e : ℕ) × (chunk_len ≡ 2 ^ e) }
    requires few { chunk_len ≤ 2 ^ 58 }
    ensures span { 2 ^ result ≡ 8 * chunk_len }
    ensures size { grafted.chunk_size result ≡ chunk_len }
    ensures least { 3 ≤ result }
    ensures most { result < 62 }
{
    chunk_len.ilog2() + 3
}

/// Of so many locations the pending chunk: the last complete one, if it cannot be grafted yet.
pub fn pending_chunk<F: Graftable>(height: u32, leaves: u64) -> Option<u64>
    requires low { height < 63 }
    requires few { leaves ≤ 2 ^ 62 }
    ensures { result ≡ grafted.pending_chunk F.shape height leaves }
{
    let complete = leaves >> height;
    if complete == 0 {
        return None;
    }
    if leaves < F::chunk_birth(height, complete - 1) {
        Some(complete - 1)
    } else {
        None
    }
}

/// How many chunks are grafted in a tree of so many leaves.
pub fn grafted_chunks<F: Graftable>(height: u32, leaves: u64) -> u64
    requires low { height < 63 }
    requires few { leaves ≤ 2 ^ 62 }
    ensures { result ≡ grafted.grafted_chunks F.shape height leaves }
{
    match pending_chunk::<F>(height, leaves) {
        Some(chunk) => chunk,
        None => leaves >> height,
    }
}

/// The chunk that so many locations end within, if they do not end with a chunk.
pub fn partial_chunk(height: u32, leaves: u64) -> Option<u64>
    requires { height < 64 }
    ensures { result ≡ bits.partial_chunk (2 ^ height) leaves }
{
    if partial_bits(height, leaves) == 0 {
        None
    } else {
        Some(leaves >> height)
    }
}

/// How many bits the partial chunk has, 0 if there is none.
pub fn partial_bits(height: u32, leaves: u64) -> u64
    requires { height < 64 }
    ensures { result ≡ leaves % 2 ^ height }
{
    leaves % (1 << height)
}

/// The location where the chunk of a location begins.
pub fn chunk_start(height: u32, location: u64) -> u64
    requires { height < 64 }
    ensures exact { result ≡ grafted.chunk_start height location }
    ensures below { result ≤ location }
{
    (location >> height) << height
}

/// How many of the peaks over so many leaves end at or below the chunk of the floor.
pub fn grafted_inactive<F: Family>(height: u32, leaves: Location<F>, floor: Location<F>) -> usize
    requires low { height < 64 }
    requires few { leaves ≤ 2 ^ 62 }
    ensures exact { result
        ≡ trees.inactive_peaks F.shape leaves (grafted.chunk_start height floor) }
    ensures list { (ops : List Operation) → leaves ≡ length ops → floor ≡ live.floor ops
        → result ≡ grafted.grafted_inactive F.shape height ops }
    ensures most { result ≤ length (trees.peaks F.shape leaves) }
{
    let start = chunk_start(height, floor.get());
    F::inactive_peaks(leaves, Location::new(start))
}

/// The node of the tree of operations that a node of the grafted tree stands for.
pub fn raised(height: u32, node: Node) -> Node
    requires { node.height + height < 2 ^ 32 }
    ensures { result ≡ grafted.raised height node }
{
    Node::new(node.height() + height, node.index())
}
