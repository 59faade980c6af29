//! Digests over chunks of bits: values of nodes from the height of chunks on, the grafted root, the digests of chunks that
//! are not grafted, and the canonical root.

ghost use Rattle.std.specs.Prelude.{◌≡◌, ℕ, suc, ◌+◌, ◌*◌, ◌^◌, ◌≤◌, ◌++◌, List, length, map, max, Option, Some, option_map};
ghost use Rattle.qm_model.specs.Operations.{Bytes, Operation};
ghost use Rattle.qm_model.specs.Forms.{Form};
ghost use Rattle.qm_model.specs.Trees as trees;
ghost use Rattle.qm_model.specs.Bits as bits;
ghost use Rattle.qm_model.specs.Grafted as grafted;
ghost use Rattle.qm_merkle.specs.Mems.{more};
ghost use Rattle.qm_chunks.specs.Views.{partial_view};

use qm_base::{Digest, Hasher, Location, eight_bytes};
use qm_merkle::{Family, Node, StandardHasher};

/// The value of a chunk's node, from the chunk and the node's digest.
pub fn chunk_value<H: Hasher>(
    hasher: &mut StandardHasher<H>,
    chunk: &[u8],
    node: &H::Digest,
) -> H::Digest
    ensures digest { H.Digest.bytes result ≡ H.hash (chunk.now ++ H.Digest.bytes node.now) }
    ensures value { (shape : trees.Shape) (g index : ℕ) (leaves : List Bytes) (chunks : ℕ → Bytes)
        → chunk.now ≡ chunks index
        → H.Digest.bytes node.now ≡ trees.digest H.hash shape leaves g index
        → H.Digest.bytes result ≡ grafted.value_over H.hash shape g leaves chunks 0 index }
    ensures made { hasher.new ≡ more hasher.old 1 }
{
    joined(hasher, chunk, node.bytes())
}

// The digest of two parts.
fn joined<H: Hasher>(hasher: &mut StandardHasher<H>, first: &[u8], second: &[u8]) -> H::Digest
    ensures digest { H.Digest.bytes result ≡ H.hash (first.now ++ second.now) }
    ensures made { hasher.new ≡ more hasher.old 1 }
{
    hasher.digest(&[first, second])
}

/// The value of a node above those of chunks, from the values of its halves. The node is the one of the tree of operations.
pub fn node_value<F: Family, H: Hasher>(
    hasher: &mut StandardHasher<H>,
    node: Node,
    left: &H::Digest,
    right: &H::Digest,
) -> H::Digest
    requires { trees.end_of node ≤ 2 ^ 62 }
    ensures digest { H.Digest.bytes result
        ≡ trees.node_digest H.hash (trees.Shape.number F.shape node) (H.Digest.bytes left.now)
        (H.Digest.bytes right.now) }
    ensures value { (g k index : ℕ) (leaves : List Bytes) (chunks : ℕ → Bytes)
        → node ≡ record { height = suc k + g; index = index }
        → H.Digest.bytes left.now ≡ grafted.value_over H.hash F.shape g leaves chunks k (2 * index)
        → H.Digest.bytes right.now
        ≡ grafted.value_over H.hash F.shape g leaves chunks k (2 * index + 1)
        → H.Digest.bytes result ≡ grafted.value_over H.hash F.shape g leaves chunks (suc k) index }
    ensures made { hasher.new ≡ more hasher.old 1 }
{
    hasher.node_digest(F::number(node), left, right)
}

/// The digest of a chunk that is not grafted: of the pending one, or of the partial one.
pub fn chunk_digest<H: Hasher>(hasher: &mut StandardHasher<H>, chunk: &[u8]) -> H::Digest
    ensures digest { H.Digest.bytes result ≡ H.hash chunk.now }
    ensures pending { (shape : trees.Shape) (g c : ℕ) (ops : List Operation)
        → grafted.pending_chunk shape g (length ops) ≡ Some c → chunk.now ≡ grafted.chunk_of g ops c
        → grafted.pending_digest H.hash shape g ops ≡ Some (H.Digest.bytes result) }
    ensures partial { (shape : trees.Shape) (g c : ℕ) (ops : List Operation)
        → bits.partial_chunk (2 ^ g) (length ops) ≡ Some c → chunk.now ≡ grafted.chunk_of g ops c
        → grafted.partial_digest H.hash shape g ops ≡ Some (H.Digest.bytes result) }
    ensures made { hasher.new ≡ more hasher.old 1 }
{
    hasher.digest(&[chunk])
}

/// The root over so many leaves and the values of their peaks, of which the first ones are inactive. The value of a peak
/// below the height of chunks is its digest.
pub fn grafted_root<F: Family, H: Hasher>(
    hasher: &mut StandardHasher<H>,
    leaves: Location<F>,
    inactive: usize,
    values: &[H::Digest],
) -> H::Digest
    requires { inactive ≤ length values.now }
    ensures digest { H.Digest.bytes result
        ≡ trees.root_of H.hash leaves inactive (map H.Digest.bytes values.now) }
    ensures root { (g : ℕ) (list : List Bytes) (chunks : ℕ → Bytes) → leaves ≡ length list
        → map H.Digest.bytes values.now
        ≡ map (grafted.grafted_value H.hash F.shape g list chunks)
        (trees.peaks F.shape (length list))
        → H.Digest.bytes result ≡ grafted.grafted_root_of H.hash F.shape g list chunks inactive }
    ensures made { hasher.new ≡ more hasher.old (max 1 (length values.now)) }
{
    hasher.root(leaves, inactive, values)
}

/// The canonical root, over the root of the operations, the grafted root, the digest of the pending chunk, if there is one,
/// and the digest of the partial chunk, if there is one, with the number of its bits.
pub fn canonical_root<H: Hasher>(
    hasher: &mut StandardHasher<H>,
    ops_root: &H::Digest,
    grafted_root: &H::Digest,
    pending: Option<H::Digest>,
    partial: Option<(u64, H::Digest)>,
) -> H::Digest
    ensures digest { H.Digest.bytes result
        ≡ H.hash (grafted.canonical_input (H.Digest.bytes ops_root.now)
        (H.Digest.bytes grafted_root.now) (option_map H.Digest.bytes pending)
        (partial_view H.Digest.bytes partial)) }
    ensures canonical { (shape : trees.Shape) (g : ℕ) (form : Form) (ops : List Operation)
        → H.Digest.bytes ops_root.now ≡ trees.ops_root H.hash shape form ops
        → H.Digest.bytes grafted_root.now ≡ grafted.grafted_root H.hash shape g form ops
        → option_map H.Digest.bytes pending ≡ grafted.pending_digest H.hash shape g ops
        → partial_view H.Digest.bytes partial
        ≡ grafted.partial_of H.hash shape g (length ops) (grafted.partial_digest H.hash shape g ops)
        → H.Digest.bytes result ≡ grafted.canonical H.hash shape g form ops }
    ensures made { hasher.new ≡ more hasher.old 1 }
{
    let roots = (ops_root.bytes(), grafted_root.bytes());
    match pending {
        None => with_partial(hasher, roots, &[], partial),
        Some(digest) => with_partial(hasher, roots, digest.bytes(), partial),
    }
}

// The digest of two roots, the bytes of a pending chunk's digest, and a partial chunk's with the number of its bits.
fn with_partial<H: Hasher>(
    hasher: &mut StandardHasher<H>,
    roots: (&[u8], &[u8]),
    pending: &[u8],
    partial: Option<(u64, H::Digest)>,
) -> H::Digest
    ensures digest { H.Digest.bytes result
        ≡ H.hash (roots.entry.0.now ++ roots.entry.1.now ++ pending.now
        ++ grafted.partial_part (partial_view H.Digest.bytes partial)) }
    ensures made { hasher.new ≡ more hasher.old 1 }
{
    match partial {
        None => hasher.digest(&[roots.0, roots.1, pending]),
        Some((count, digest)) => counted(
            hasher,
            roots,
            pending,
            &eight_bytes(count),
            digest.bytes(),
        ),
    }
}

// The same, if the partial chunk has a number of bits and a digest.
fn counted<H: Hasher>(
    hasher: &mut StandardHasher<H>,
    roots: (&[u8], &[u8]),
    pending: &[u8],
    count: &[u8],
    digest: &[u8],
) -> H::Digest
    ensures digest { H.Digest.bytes result
        ≡ H.hash
        (roots.entry.0.now ++ roots.entry.1.now ++ pending.now ++ count.now ++ digest.now) }
    ensures made { hasher.new ≡ more hasher.old 1 }
{
    hasher.digest(&[roots.0, roots.1, pending, count, digest])
}
