//! Canonical roots of lists, which were computed by another program.

ghost use Rattle.std.specs.Prelude.{◌<◌, ◌≤◌};

use qm_base::{Digest, Location, MerkleError, Sha256, Sha256Digest};
use qm_bits::{Chunk32, Prunable};
use qm_chunks::Graftable;
use qm_chunks::boundary::{needed_size, sync_boundary};
use qm_chunks::chunks::grafted_chunks;
use qm_graft::Grafted;
use qm_graft::grafted::height;
use qm_graft::trees::{build_grafted_tree, canonical_root_of};
use qm_merkle::mem::Mem;
use qm_merkle::{Family, StandardHasher, mmb, mmr};
use std::alloc::{AllocError, Global};
use std::test::Fail;

type Tree<F> = Mem<F, Sha256Digest>;

type GraftedTree<F> = Mem<Grafted<F, Chunk32>, Sha256Digest>;

type TreeHasher = StandardHasher<Sha256>;

// How many operations a list has, how many of its first ones write one key, while the others write a key each, and its canonical
// root, in mountain ranges and where merges are delayed. Its last operation is a commit whose floor is the last write of that key.
// Made by `python3 docs/canonical_roots.py`.
const ROOTS: &str = "\
4 3 0039536046d7757e2c64f861a01ab5a5311fb97e03f88637087b670dbc9f876e 3cb098545be7dc0efe0075561b21ba59fdb58fcafe880194e2492d7492996a5e
255 3 7dcc91185947d8a2926364dc2923863191710af86a13d10147b6137a7dbebd01 644e42ebf0de7a9e7d862c4cf0e3e33229e6c1f3598e28279ba578a0586a990a
256 200 7f5586a1f1b3d7f38cca85af6f6d2f046e7dbcc478f02f9fee308b7e219b959c 41ce91c84afc5113420ee84ccd68f51dabe79a5b258f4dd6b2f4fffd0587817e
257 200 6ff508098c99b2454bd648a0fc6b83c2c1ac716cc198596cdabb88e7f27b7eac 2d3c31b31c68071b0c156b5d02189847f811ad590ae342e5d89749d9c9a3fb4d
300 250 91c3f4551b84191cf02129e1a3b395be31044c796227949e3f078d41241fbb9e 82c65a1ac16ba785e860baf638c3ac47e935cde27282530998cb54bd727d5504
511 280 7092ea2c634060a9f5f75fcf1101e04335c914675528c3c57b375de0d30dab3e 00ccfc15e3a84ca924987a3f2210fa601360b5bc8d641a12a23cf91ef4b7ffee
512 280 a69c3c1a14afa7e3f6df107b0f597b2314bde747aaacb62ba0e3cff62759bd32 6289d7dcc91b6edafd5fe04c4d677f6ccedb8e2df8be0db6ff28cdbdd4a3eb65
513 280 906a43134bf4c03875f25904a34afd9c99eb9a7e0440fbbf5e4fe9a1ed8afd2d b7f63992884f213e711ef1211d4556f8ba57d7905ee045065d3b967ce539bc09
799 600 22dae2f357c1fa2d4a74558330fbeb410fba9ca72df5c981422d07799319b73e 22e2d40bc2bcb28897acdb8777be884c71f02351e9627c50c04e54a4aec57da1
";

// The bytes of the operation at a location.
fn spelled(alloc: Global, count: u64, first: u64, at: u64) -> Result<Vec<u8>, AllocError>
    requires { at < count }
{
    let (high, low) = ((at / 256 % 256) as u8, (at % 256) as u8);
    if at == 0 {
        Vec::from_slice(alloc, &[3, 0, 0, 0, 0, 0, 0, 0, 0, 0])
    } else if at + 1 == count {
        let mut bytes = Vec::from_slice(alloc, &[3, 0])?;
        bytes.extend_from_slice(&first.saturating_sub(1).to_be_bytes())?;
        Ok(bytes)
    } else if at < first {
        Vec::from_slice(alloc, &[1, 0, 0, 0, 1, b'k', 0, 0, 0, 1, b'v'])
    } else {
        Vec::from_slice(alloc, &[1, 0, 0, 0, 3, b'k', high, low, 0, 0, 0, 1, b'v'])
    }
}

// The tree of so many operations.
fn tree_of<F: Family>(
    alloc: Global,
    hasher: &mut TreeHasher,
    count: u64,
    first: u64,
) -> Result<Tree<F>, AllocError>
    requires { count ≤ 1000 }
{
    let mut leaves = Vec::new(alloc);
    for at in 0..count {
        let bytes = spelled(alloc, count, first, at)?;
        leaves.push(hasher.leaf_digest(F::location_to_position(Location::new(at)), &bytes))?;
    }
    let mut tree = Mem::new(alloc);
    add_leaves(alloc, hasher, &mut tree, &leaves)?;
    Ok(tree)
}

// Their bits.
fn bits_of(alloc: Global, count: u64, first: u64) -> Result<Prunable<Chunk32>, AllocError>
    requires { count ≤ 1000 }
{
    let mut bits = Prunable::new(alloc);
    bits.extend_to(count)?;
    for at in first.saturating_sub(1).max(1)..count {
        bits.mark(at);
    }
    Ok(bits)
}

// Puts leaves after those of a tree.
pub(crate) fn add_leaves<F: Family>(
    alloc: Global,
    hasher: &mut TreeHasher,
    tree: &mut Tree<F>,
    leaves: &[Sha256Digest],
) -> Result<(), AllocError> {
    let mut draft = tree.new_batch(alloc);
    if 1000 < draft.leaves().get() || 1001 < leaves.len() {
        return Err(AllocError);
    }
    draft.add_leaf_digests(leaves)?;
    let batch = draft.merkleize(alloc, tree, hasher)?;
    tree.apply_batch(&batch)
}

// The text of the canonical root of a list with this grafted tree.
fn root_text<F: Graftable>(
    alloc: Global,
    hasher: &mut TreeHasher,
    tree: &Tree<F>,
    grafted: &GraftedTree<F>,
    bits: &Prunable<Chunk32>,
    floor: u64,
) -> Result<String, AllocError> {
    let floor = Location::new(floor);
    let (_, leaves) = tree.bounds();
    let (start, chunks) = grafted.bounds();
    let inactive = F::inactive_peaks(leaves, floor);
    if inactive > F::peak_count(leaves) as usize
        || bits.len() != leaves.get()
        || chunks.get() != grafted_chunks::<F>(height::<Chunk32>(), leaves.get())
        || chunks.get() < bits.pruned_chunks() as u64
        || start.get() != 0 && leaves.get() < needed_size::<F>(height::<Chunk32>(), start.get())
    {
        return Err(AllocError);
    }
    let root = tree.root(alloc, hasher, inactive)?;
    let canonical = canonical_root_of(alloc, hasher, &root, tree, grafted, bits, floor)?;
    hex::encode(alloc, canonical.bytes())
}

// The grafted tree over a list, from the values over the chunks that are pruned.
fn built<F: Graftable>(
    alloc: Global,
    hasher: &mut TreeHasher,
    tree: &Tree<F>,
    bits: &Prunable<Chunk32>,
    pins: Vec<Sha256Digest>,
) -> Result<GraftedTree<F>, MerkleError> {
    let (start, leaves) = tree.bounds();
    let pruned = bits.pruned_chunks() as u64;
    let chunks = grafted_chunks::<F>(height::<Chunk32>(), leaves.get());
    if start.get() != 0
        || bits.len() != leaves.get()
        || chunks < pruned
        || 1000 < chunks
        || pins.len() != F::peak_count(Location::new(pruned)) as usize
    {
        return Err(MerkleError::Memory);
    }
    build_grafted_tree(alloc, hasher, tree, bits, pins)
}

// Prunes as many chunks of a list's bits as may go, and answers the values of the peaks over them in its grafted tree.
fn prune<F: Graftable>(
    alloc: Global,
    grafted: &GraftedTree<F>,
    bits: &mut Prunable<Chunk32>,
    floor: u64,
) -> Result<Vec<Sha256Digest>, AllocError>
    requires { floor ≤ 1000 }
{
    let count = bits.len();
    bits.prune_to_bit(sync_boundary::<F>(height::<Chunk32>(), floor, count).min(count));
    let pruned = Location::new(1000.min(bits.pruned_chunks() as u64));
    let mut pins = Vec::new(alloc);
    for position in &Grafted::<F, Chunk32>::nodes_to_pin(alloc, pruned)? {
        pins.push(grafted.get_node(*position).ok_or(AllocError)?)?;
    }
    Ok(pins)
}

// The text of the canonical root of a list, by a grafted tree that is built from another's pins if chunks may be pruned.
fn pruned_root<F: Graftable>(
    alloc: Global,
    hasher: &mut TreeHasher,
    tree: &Tree<F>,
    bits: &mut Prunable<Chunk32>,
    floor: u64,
) -> Result<String, MerkleError>
    requires { floor ≤ 1000 }
{
    let whole = built(alloc, hasher, tree, bits, Vec::new(alloc))?;
    let pins = prune(alloc, &whole, bits, floor)?;
    let grafted = built(alloc, hasher, tree, bits, pins)?;
    Ok(root_text(alloc, hasher, tree, &grafted, bits, floor)?)
}

// The text of the canonical root of the list of so many operations.
fn root_of<F: Graftable>(alloc: Global, count: u64, first: u64) -> Result<String, MerkleError>
    requires count { count ≤ 1000 }
    requires first { first ≤ 1000 }
{
    let mut hasher = StandardHasher::new(Sha256::new());
    let mut bits = bits_of(alloc, count, first)?;
    let tree = tree_of::<F>(alloc, &mut hasher, count, first)?;
    pruned_root(
        alloc,
        &mut hasher,
        &tree,
        &mut bits,
        first.saturating_sub(1),
    )
}

// The next number of a text.
pub(crate) fn number(word: Option<&str>) -> u64
    ensures { result ≤ 1000 }
{
    word.unwrap_or("").parse().unwrap_or(0).min(1000)
}

// Whether the lists have these roots in a family, which stand after those of so many others.
fn are_rooted<F: Graftable>(alloc: Global, others: usize) -> Result<bool, MerkleError> {
    for row in ROOTS.lines() {
        let mut words = row.split_ascii_whitespace();
        let count = number(words.next());
        let first = number(words.next());
        let root = root_of::<F>(alloc, count, first)?;
        if words.nth(others) != Some(root.as_str()) {
            return Ok(false);
        }
    }
    Ok(true)
}

#[test]
fn lists_have_canonical_roots(rt: HostRuntime) -> Result<(), Fail> {
    let alloc = rt.alloc();
    let are_right = are_rooted::<mmr::Family>(alloc, 0)? && are_rooted::<mmb::Family>(alloc, 1)?;
    assert!(rt; are_right);
    Ok(())
}
