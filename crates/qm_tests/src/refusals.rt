//! What trees refuse, and what they take, in both families.

ghost use Rattle.std.specs.Prelude.{◌≤◌};

use crate::grafts::{add_leaves, number};
use qm_base::{Location, MerkleError, Sha256, Sha256Digest};
use qm_merkle::mem::Mem;
use qm_merkle::{Family, StandardHasher, mmb, mmr};
use std::alloc::{AllocError, Global};
use std::test::Fail;

type Tree<F> = Mem<F, Sha256Digest>;

// What is asked of a tree, and what it says in mountain ranges and where merges are delayed: `parts` makes a tree of so many leaves
// that is pruned to its end, of the digests of so many of its peaks, and `leaf` gives a leaf of a tree of so many leaves, which
// is pruned to a start, another digest. The positions are those of an independent model.
const ROWS: &str = "\
parts 0 0|taken|taken
parts 3 0|MissingNode 2|MissingNode 2
parts 3 1|MissingNode 3|MissingNode 3
parts 3 2|taken|taken
parts 5 0|MissingNode 6|MissingNode 7
parts 5 1|MissingNode 7|MissingNode 6
parts 5 2|taken|taken
leaf 5 0 4|taken|taken
leaf 5 0 5|RangeOutOfBounds 5|RangeOutOfBounds 5
leaf 5 0 1000|RangeOutOfBounds 1000|RangeOutOfBounds 1000
leaf 5 4 1|ElementPruned 1|ElementPruned 1
leaf 5 4 3|ElementPruned 4|ElementPruned 4
leaf 5 4 4|taken|taken
leaf 5 5 4|ElementPruned 7|ElementPruned 6
leaf 5 5 5|RangeOutOfBounds 5|RangeOutOfBounds 5
";

// A digest.
fn digest() -> Sha256Digest {
    let mut hasher = StandardHasher::new(Sha256::new());
    hasher.digest(&[b"leaf"])
}

// Makes a tree of so many leaves, pruned to its end, of so many digests.
fn made<F: Family>(alloc: Global, leaves: u64, pins: u64) -> Result<(), MerkleError>
    requires { leaves ≤ 1000 }
{
    let end: Location<F> = Location::new(leaves);
    let pinned = vec![in alloc; digest(); pins as usize]?;
    if pinned.len() > F::peak_count(end) as usize {
        return Err(MerkleError::Memory);
    }
    let _tree: Tree<F> = Mem::from_components(alloc, Vec::new(alloc), end, pinned)?;
    Ok(())
}

// A tree of so many leaves, pruned to a start.
fn pruned<F: Family>(alloc: Global, leaves: u64, start: u64) -> Result<Tree<F>, AllocError>
    requires { leaves ≤ 1000 }
{
    let mut hasher = StandardHasher::new(Sha256::new());
    let added = vec![in alloc; digest(); leaves as usize]?;
    let mut tree = Mem::new(alloc);
    add_leaves(alloc, &mut hasher, &mut tree, &added)?;
    let (first, last) = tree.bounds();
    if start < first.get() || last.get() < start {
        return Err(AllocError);
    }
    tree.prune(alloc, Location::new(start))?;
    Ok(tree)
}

// Does what a row's words say.
fn done<F: Family>(alloc: Global, asked: &str) -> Result<(), MerkleError> {
    let mut words = asked.split_ascii_whitespace();
    let is_parts = words.next() == Some("parts");
    let leaves = number(words.next());
    let second = number(words.next());
    if is_parts {
        return made::<F>(alloc, leaves, second);
    }
    let tree = pruned::<F>(alloc, leaves, second)?;
    let location = Location::new(number(words.next()));
    tree.new_batch(alloc).update_leaf_digest(location, digest())
}

// What is said to it.
fn said<F: Family>(alloc: Global, asked: &str) -> Result<String, AllocError> {
    match done::<F>(alloc, asked) {
        Ok(()) => String::from_str(alloc, "taken"),
        Err(refused) => format!(in alloc; "{refused}"),
    }
}

#[test]
fn trees_say_which_node_is_not_there(rt: HostRuntime) -> Result<(), Fail> {
    let alloc = rt.alloc();
    for row in ROWS.lines() {
        let mut parts = row.split('|');
        let asked = parts.next().unwrap_or("");
        let says = said::<mmr::Family>(alloc, asked)?;
        assert_eq!(rt; Some(says.as_str()), parts.next(), "{asked}");
        let says = said::<mmb::Family>(alloc, asked)?;
        assert_eq!(rt;
            Some(says.as_str()),
            parts.next(),
            "{asked}, merges delayed"
        );
    }
    Ok(())
}
