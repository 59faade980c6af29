//! Roots of trees that grow leaf by leaf, which were computed by another program.

use crate::grafts::add_leaves;
use qm_base::{Digest, Hasher, Location, MerkleError, Sha256, Sha256Digest};
use qm_merkle::mem::Mem;
use qm_merkle::{Family, StandardHasher, mmb, mmr};
use qm_proofs::Proof;
use std::alloc::{AllocError, Global};
use std::slice::from_ref;
use std::test::Fail;

type Tree<F> = Mem<F, Sha256Digest>;

type TreeHasher = StandardHasher<Sha256>;

// Of a tree of 1, 2, .. leaves, the digest of its roots in a row, with 0, 1, .. inactive peaks up to all of them; leaf k has the byte k + 1. Made by `python3 docs/roots.py`.
const ROOTS: &str = "
    35cb85eadc748cc351ecef181772a776c6c7506b4e043d5ee7e9ad48fd16a6b9
    4fef60595f155c2c8d684c40dc2709fc238ef21f90f1aac39e474dbaaa08f922
    fac5606f248e93690a5f0fa935219a81470d0506f0215ec5aaefe3d778ca0f31
    88ebb839c60137bd23e7fdb78eb81c374cf3bc791ff9aeb18b89d659ce8c4e43
    79c3d1d411b141cf9a24bc12f0b8d72d5778d5bba4ab679d16dfecc712e0e37e
    1f5b3fb5184d2c4d6903d8a21f231ca2fd5a8ef45388b0d5797f9a3bf39bf85c
    92dacc123f424aa3a5759d91542ad4a495eba07d655a9665a29280c905e17a33
    c763197332da2a2b35532c749b2e974592682ca1f3ce7992467a790a35368761
    55e3b9a751d2dc86e693944c52114f91997afb0e9524b92c495b41e2a6034e54
    b52123327c23aaf0c3bf569f3bc39b0bc4ecfe70859ee33662dcbcc0c916b574
    cbba1be5585588c561eb4cbb43d8e5cbfca33170b6e9c659c362e41ffc7f47de
    d536c1eb202773fbdec918b0cb8175078f23e2aecf115db48363c8376e49cb9f
    afd5269566a92b4a43d971be98814828ac146e532efe0e9aa0b2dad29da19e50
    7e284c5a3ff3695f683660f5ad630407823e5555df0f5a175691a6b2af06dc3e
    c53a0585ac26944dd4e18c01e2129dfdbbb2b90e6533309aac6d9df3ac0bf104
    7e1278247aa36e24d5100b06648ddad9e74ce8ff8d14cde3eacd523bbf691ba6
    afb650d4adf24d4732bd89a8cf3c3a24517bbb271ca4860e5fffe30888923f1a
    f7370e31241075a0fdfc4cfffacad68499f969a0dd209a357d58aca51d4c89f6
    de55ef13598d3e075a70881790025aa6bc5ccbef0ac9d27330dbb6efcc68ce42
    0c2aec55ade1c3ee613ef82a95126a7d75cbc1d60dedc1e28cfa6190314db29b
    ab838a2f39769d200e8ac24700a7ca9998b5550cb615b3b0537eab6b08c65325
    e77b63fa6f7d9fc509df623d6da287a600d199c3ac96a0cf25ff4e47ff5bce3b
    65c369133755c3cd8c8b5b658b8c5bd7f64b972acb57d5db943cb88b3a9e1636
    5f419d8637b982d5f5fe6ab9626bd0b04ad43fd8566f9696833432ae3ad896e5
    e6435de21a4d73559361c352291ecbd5f304bd5a9fc885625be76e757f854593
    513f0b624d22c6250f6267eff01f5caa7a3bf6a6c51c2df3f361e0f6f950c3a3
    72be4ea6bf9b83e7efa5f0d7424b54b16712fc878412346e1941505ef4d2053d
    0ab65beeb2cff6e07a2af1f2e46af2a242b4dae5d096ea3d4e559b81ee5abeae
    8e1d43b9a7533ec4c72b6c9b9bdbed04059b62eeec2a4c87479d445d82e9b50e
    fa124cb97c29f881934d6d6bc7ad8c80da1fa6b18f573903a38ae995408ea11b
    cfd2fac8bb6ea772d5e826e07dd2c31d92a4145a542ab0ae9e791f41dbba83bf
    6e873e1ca86c17893cf810c65cb77579536f479774cf7f99495fa5ec02de5bf9
    0f0f9a47cef8c7ab0bcb08482ad0dd30b53706af71fb908cf6d1f426617ba91c
    6e10b06a1223aa6f0adf04cb936dd83138a1ec6ef2471d167ee1ff2aa7b7ec2f
    764efe8a592820fe480cd28a1f59225a9b4b96c2671193671ca7961fb846d2a0
    d05d8275c3c92a6079d0f902c30229f7b7e3aea5e411cd3f15bc3ec258cc2f47
    dad6841fb9421eceba094f4c5759a00027023d1fbb3a3fe8f8aaacbd40fee8aa
    88c131512c7c7af4e1dbd9f7c006565d12bf7ff7912b72f665fc737483286421
    35984e4075deea65142cd52090aeadd6cc06cf08bc11839687df2d7a4ac10c2c
    3b45bebb011edcff406b5b8c1a13559a22bbf495ad109c08ba85f4350f6c5e1d
";

// The same if merges are delayed, computed by an independent model.
const DELAYED_ROOTS: &str = "
    35cb85eadc748cc351ecef181772a776c6c7506b4e043d5ee7e9ad48fd16a6b9
    4fef60595f155c2c8d684c40dc2709fc238ef21f90f1aac39e474dbaaa08f922
    fac5606f248e93690a5f0fa935219a81470d0506f0215ec5aaefe3d778ca0f31
    95d642f2e48d22076348e11dc218030dc1ce8e836badb11218c16c9761922af0
    62658a9d4eabfc052dd699a2db5286b6067c29ae5d739d41883b323c201ef6db
    21a48d2d6d11f108e0da1b9a78d2aceb1940f8d30f1d9dcd006765a6b376e03e
    344d4295323720a6d533ee37917cf31fe64f5667701f30385bd94e70957eb488
    38ced5ef138ba7327e5901a77925c6ededf81280308d37deea9bdcc7d9b5b3fb
    ec40dbcc502a10ce504f0af92fab9569721557f0ffb77744db99e6444c295fd9
    089169000fa28c7e5cc8aeeb20cf546651d6fab93f4a78a1d7ca0e44eb12e991
    e2f96fdf8e0d7222742a122c0da48f38c6138da7357a6f4bdce53fcf01b922d6
    098dff26d91095b6d67fff7dc4ff54c02c9b6869dda7dbb956c708e092cc6b69
    5d3ca91f292d950150d0f56c505cd8c3dfe05edd93c88bc6e36913977ff90b84
    46ac1db2019dde18b9d291359c99e8ac5710c86f32bc4752587a9c6c51686296
    593f916c358efbde4e530203f14d68673eaf52a6278f03476777682d99b4f937
    0ff43d7663d782cdca727bb74c0c80a7ccc4aa40b11d2b9f1471b512d8ce71ad
";

// The root over the digests of "first" and "second" as the peaks of three leaves.
const REPLACED: &str = "c7c0a9870d3b8895eaa160724b08e36a5ad9bfd5c277bb033fce81c9617dc741";

// Puts one more leaf after those of a tree, and answers whether the digest of the tree's roots in a row has this text.
fn has_row<F: Family>(
    alloc: Global,
    hasher: &mut TreeHasher,
    tree: &mut Tree<F>,
    want: &str,
) -> Result<bool, AllocError> {
    let (_, last) = tree.bounds();
    let byte = (last.get() % 256) as u8;
    let leaf = hasher.leaf_digest(F::location_to_position(last), &[byte.wrapping_add(1)]);
    add_leaves(alloc, hasher, tree, &[leaf])?;
    let (_, leaves) = tree.bounds();
    let mut all = Sha256::new();
    all.start();
    for inactive in 0..=F::peak_count(leaves) as usize {
        all.update(tree.root(alloc, hasher, inactive)?.bytes());
    }
    Ok(hex::encode(alloc, all.finish().bytes())?.as_str() == want)
}

// Whether trees, each of one leaf more, have these roots.
fn are_rooted<F: Family>(alloc: Global, rows: &str) -> Result<bool, AllocError> {
    let mut hasher = StandardHasher::new(Sha256::new());
    let mut tree: Tree<F> = Mem::new(alloc);
    for want in rows.split_ascii_whitespace() {
        if !has_row(alloc, &mut hasher, &mut tree, want)? {
            return Ok(false);
        }
    }
    is_checked::<F>(alloc, &mut hasher)
}

// Whether a proof of the last of three leaves, over a peak with the digest of "first", is accepted against the root and not against
// another digest.
fn is_checked<F: Family>(alloc: Global, hasher: &mut TreeHasher) -> Result<bool, AllocError> {
    let first = hasher.digest(&[b"first"]);
    let last: Location<F> = Location::new(2);
    let leaf = hasher.leaf_digest(F::location_to_position(last), b"third");
    let three: Location<F> = Location::new(3);
    let root = hasher.root(three, 0, &[first, leaf]);
    let digests = Vec::from_slice(alloc, &[first])?;
    let proof = Proof {
        leaves: 3,
        inactive_peaks: 0,
        digests,
    };
    let shown = Vec::from_slice(alloc, b"third")?;
    let is_right = proof.verify(hasher, from_ref(&shown), last, &root);
    Ok(is_right && !proof.verify(hasher, from_ref(&shown), last, &first))
}

// The tree of three leaves pruned to two, of its last leaf and the peak over the others.
fn of_components(
    alloc: Global,
    leaf: Sha256Digest,
    peak: Sha256Digest,
) -> Result<Tree<mmr::Family>, MerkleError> {
    let nodes = Vec::from_slice(alloc, &[leaf])?;
    let pins = Vec::from_slice(alloc, &[peak])?;
    Tree::from_components(alloc, nodes, Location::new(2), pins)
}

// The root of a tree of three leaves, after its last one gets another digest.
fn root_with<F: Family>(
    alloc: Global,
    hasher: &mut TreeHasher,
    tree: &Tree<F>,
    leaf: Sha256Digest,
) -> Result<Sha256Digest, MerkleError> {
    let mut draft = tree.new_batch(alloc);
    draft.update_leaf_digest(Location::new(2), leaf)?;
    let batch = draft.merkleize(alloc, tree, hasher)?;
    Ok(batch.root(alloc, hasher, 0)?)
}

// Whether the root of such a tree is that one, after its last leaf gets the digest of "second": its peak has that of "first".
fn is_replaced(alloc: Global) -> Result<bool, MerkleError> {
    let mut hasher = StandardHasher::new(Sha256::new());
    let first = hasher.digest(&[b"first"]);
    let second = hasher.digest(&[b"second"]);
    let tree = of_components(alloc, first, first)?;
    let root = root_with(alloc, &mut hasher, &tree, second)?;
    Ok(hex::encode(alloc, root.bytes())?.as_str() == REPLACED)
}

#[test]
fn trees_have_roots(rt: HostRuntime) -> Result<(), Fail> {
    let alloc = rt.alloc();
    let are_right = are_rooted::<mmr::Family>(alloc, ROOTS)?
        && are_rooted::<mmb::Family>(alloc, DELAYED_ROOTS)?
        && is_replaced(alloc)?;
    assert!(rt; are_right);
    Ok(())
}
