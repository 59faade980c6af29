//! How the grafted tree follows a step: the leaves of chunks that the step changes get their new values, and the chunks that are
//! grafted since get leaves.

ghost use Rattle.std.specs.Prelude.{◌≡◌, ◌≤◌, ◌<◌, ◌+◌, ◌-◌, ◌*◌, ◌^◌, ◌++◌, ◌∷◌, ℕ, suc, List, [], All, Contains, slice_set, length, map, IfOk, IfErr, OnOk};
ghost use Rattle.qm_model.specs.Operations.{Bytes};
ghost use Rattle.qm_model.specs.Bits.{chunk};
ghost use Rattle.qm_model.specs.Grafted.{chunk_values};
ghost use Rattle.qm_bits.specs.Bitmaps.{all_bits};
ghost use Rattle.qm_merkle.specs.Batches.{leaves_of, drafted, stops, all_layers, IsHistory};
ghost use Rattle.qm_merkle.specs.Mems.{more, Stands};
ghost use Rattle.qm_graft.specs.Grafting.{grafting, kept_shape, CanGraft, made_value, made_values, TellsNodes, IsStep, IsRedrafted, AreMade};

use crate::grafted::{Grafted, height};
use qm_base::{Digest, Hasher, Location, MerkleError};
use qm_bits::{Chunks, Readable};
use qm_chunks::Graftable;
use qm_chunks::digests::chunk_value;
use qm_merkle::mem::Mem;
use qm_merkle::{MerkleizedBatch, StandardHasher, UnmerkleizedBatch};
use qm_proofs::Nodes;
use std::alloc::{AllocError, Global};

/// What there is after a step: the bits of its list, and the tree of its operations.
#[derive(Drop)]
pub struct Behind<'a, B, O> {
    pub bits: &'a B,
    pub operations: &'a O,
}

// The value of the node over a chunk.
fn value_of<F: Graftable, N: Chunks, H: Hasher, B: Readable<N>, O: Nodes<F, H::Digest>>(
    alloc: Global,
    hasher: &mut StandardHasher<H>,
    behind: &Behind<'_, B, O>,
    at: u64,
) -> Result<H::Digest, AllocError>
    requires { CanGraft (O.node_at behind.now.operations.now) F.shape N.LEN
        (B.bitmap behind.now.bits.now) at }
    ensures value { IfOk result (λ d. H.Digest.bytes d
        ≡ made_value H.Digest.bytes H.hash (O.node_at behind.now.operations.now) F.shape N.LEN
        (all_bits N.LEN (B.bitmap behind.now.bits.now)) at) }
    ensures made { OnOk result (hasher.new ≡ more hasher.old 1) }
{
    let position = F::chunk_position(height::<N>(), at);
    let node = behind.operations.get_node(position).unwrap();
    let bits = behind.bits.get_chunk(alloc, at as usize)?;
    Ok(chunk_value(hasher, &bits, &node))
}

// Gives the leaf of a chunk its value after a step, if the chunk is among those that are grafted already.
fn update_one<F: Graftable, N: Chunks, H: Hasher, B: Readable<N>, O: Nodes<F, H::Digest>>(
    alloc: Global,
    hasher: &mut StandardHasher<H>,
    draft: &mut UnmerkleizedBatch<Grafted<F, N>, H::Digest>,
    behind: &Behind<'_, B, O>,
    at: u64,
) -> Result<(), MerkleError>
    requires fresh { draft.old.added ≡ [] }
    requires kept { draft.old.start ≤ at }
    requires can { at < draft.old.base
        → CanGraft (O.node_at behind.now.operations.now) F.shape N.LEN
        (B.bitmap behind.now.bits.now) at }
    ensures same { OnOk result (IsRedrafted draft.old draft.new) }
    ensures few { OnOk result (length draft.new.replaced ≤ length draft.old.replaced + 1) }
    ensures put { at < draft.old.base → (values : List Bytes) → length values ≡ draft.old.base
        → OnOk result (drafted H.Digest.bytes draft.new values
        ≡ slice_set (drafted H.Digest.bytes draft.old values) at (made_value H.Digest.bytes H.hash
        (O.node_at behind.now.operations.now) F.shape N.LEN
        (all_bits N.LEN (B.bitmap behind.now.bits.now)) at)) }
    ensures past { draft.old.base ≤ at → draft.new ≡ draft.old }
    ensures above { (least : ℕ) → All (λ e. least ≤ e.0) draft.old.replaced → least ≤ at
        → OnOk result (All (λ e. least ≤ e.0) draft.new.replaced) }
    ensures made { OnOk result ((n : ℕ) × (n ≤ 1) × (hasher.new ≡ more hasher.old n)) }
    ensures cause { IfErr result (λ e. e ≡ MerkleError.Memory) }
{
    if draft.leaves().get() <= at {
        return Ok(());
    }
    let value = value_of(alloc, hasher, behind, at)?;
    draft.update_leaf_digest(Location::new(at), value)
}

// The same for several chunks.
fn update_all<F: Graftable, N: Chunks, H: Hasher, B: Readable<N>, O: Nodes<F, H::Digest>>(
    alloc: Global,
    hasher: &mut StandardHasher<H>,
    draft: &mut UnmerkleizedBatch<Grafted<F, N>, H::Digest>,
    behind: &Behind<'_, B, O>,
    changed: &[u64],
) -> Result<(), MerkleError>
    requires fresh { draft.old.added ≡ [] }
    requires kept { All (λ c. draft.old.start ≤ c) changed.now }
    requires can { All (λ c. c < draft.old.base
        → CanGraft (O.node_at behind.now.operations.now) F.shape N.LEN
        (B.bitmap behind.now.bits.now) c) changed.now }
    ensures same { OnOk result (IsRedrafted draft.old draft.new) }
    ensures few { OnOk result
        (length draft.new.replaced ≤ length draft.old.replaced + length changed.now) }
    ensures above { (least : ℕ) → All (λ e. least ≤ e.0) draft.old.replaced
        → All (λ c. least ≤ c) changed.now
        → OnOk result (All (λ e. least ≤ e.0) draft.new.replaced) }
    ensures values { (values : List Bytes) → length values ≡ draft.old.base
        → OnOk result (AreMade (made_value H.Digest.bytes H.hash
        (O.node_at behind.now.operations.now) F.shape N.LEN
        (all_bits N.LEN (B.bitmap behind.now.bits.now))) changed.now
        (drafted H.Digest.bytes draft.old values) (drafted H.Digest.bytes draft.new values)) }
    ensures made { OnOk result
        ((n : ℕ) × (n ≤ length changed.now) × (hasher.new ≡ more hasher.old n)) }
    ensures cause { IfErr result (λ e. e ≡ MerkleError.Memory) }
{
    for at in changed {
        update_one(alloc, hasher, draft, behind, *at)?;
    }
    Ok(())
}

// Adds a leaf for each chunk from one on, up to so many.
fn add_all<F: Graftable, N: Chunks, H: Hasher, B: Readable<N>, O: Nodes<F, H::Digest>>(
    alloc: Global,
    hasher: &mut StandardHasher<H>,
    draft: &mut UnmerkleizedBatch<Grafted<F, N>, H::Digest>,
    behind: &Behind<'_, B, O>,
    count: u64,
) -> Result<(), MerkleError>
    requires order { leaves_of draft.old ≤ count }
    requires can { (c : ℕ) → leaves_of draft.old ≤ c → c < count
        → CanGraft (O.node_at behind.now.operations.now) F.shape N.LEN
        (B.bitmap behind.now.bits.now) c }
    ensures same { OnOk result ((draft.new.start ≡ draft.old.start)
        × (draft.new.base ≡ draft.old.base) × (draft.new.layers ≡ draft.old.layers)
        × (draft.new.replaced ≡ draft.old.replaced)) }
    ensures added { OnOk result (map H.Digest.bytes draft.new.added
        ≡ map H.Digest.bytes draft.old.added
        ++ made_values H.Digest.bytes H.hash (O.node_at behind.now.operations.now) F.shape N.LEN
        (all_bits N.LEN (B.bitmap behind.now.bits.now)) (leaves_of draft.old)
        (count - leaves_of draft.old)) }
    ensures made { OnOk result (hasher.new ≡ more hasher.old (count - leaves_of draft.old)) }
    ensures cause { IfErr result (λ e. e ≡ MerkleError.Memory) }
{
    for at in draft.leaves().get()..count {
        let value = value_of(alloc, hasher, behind, at)?;
        draft.add_leaf_digest(value)?;
    }
    Ok(())
}

/// Makes a draft, which has no leaf of its own yet, the one of the list after a step: the leaves of those of the chunks that
/// are grafted already get their values after the step, and leaves are added until so many chunks are grafted. Each value takes
/// one digest. What changed may have any order, and name chunks that are not grafted. Want of memory is the only error.
pub fn graft<F: Graftable, N: Chunks, H: Hasher, B: Readable<N>, O: Nodes<F, H::Digest>>(
    alloc: Global,
    hasher: &mut StandardHasher<H>,
    draft: &mut UnmerkleizedBatch<Grafted<F, N>, H::Digest>,
    behind: &Behind<'_, B, O>,
    changed: &[u64],
    count: u64,
) -> Result<(), MerkleError>
    requires fresh { (draft.old.replaced ≡ []) × (draft.old.added ≡ []) }
    requires kept { All (λ c. draft.old.start ≤ c) changed.now }
    requires order { draft.old.base ≤ count }
    requires changed { All (λ c. c < draft.old.base
        → CanGraft (O.node_at behind.now.operations.now) F.shape N.LEN
        (B.bitmap behind.now.bits.now) c) changed.now }
    requires added { (c : ℕ) → draft.old.base ≤ c → c < count
        → CanGraft (O.node_at behind.now.operations.now) F.shape N.LEN
        (B.bitmap behind.now.bits.now) c }
    ensures same { OnOk result ((draft.new.start ≡ draft.old.start)
        × (draft.new.base ≡ draft.old.base)
        × (draft.new.layers ≡ draft.old.layers)) }
    ensures leaves { OnOk result (leaves_of draft.new ≡ count) }
    ensures replaced { OnOk result (length draft.new.replaced ≤ length changed.now) }
    ensures above { (least : ℕ) → All (λ c. least ≤ c) changed.now
        → OnOk result (All (λ e. least ≤ e.0) draft.new.replaced) }
    ensures added { OnOk result (length draft.new.added ≡ count - draft.old.base) }
    ensures values { (old new : List Bytes) (before : ℕ → Bytes)
        → IsStep (grafting N.LEN) draft.old.base changed.now old new before
        (chunk N.LEN (all_bits N.LEN (B.bitmap behind.now.bits.now)))
        → TellsNodes H.Digest.bytes H.hash (O.node_at behind.now.operations.now) F.shape
        (grafting N.LEN) new count
        → OnOk result (drafted H.Digest.bytes draft.new
        (chunk_values H.hash F.shape (grafting N.LEN) old before 0 draft.old.base)
        ≡ chunk_values H.hash F.shape (grafting N.LEN) new
        (chunk N.LEN (all_bits N.LEN (B.bitmap behind.now.bits.now))) 0 count) }
    ensures made { OnOk result ((n : ℕ) × (n ≤ length changed.now)
        × (hasher.new ≡ more hasher.old (n + (count - draft.old.base)))) }
    ensures cause { IfErr result (λ e. e ≡ MerkleError.Memory) }
{
    update_all(alloc, hasher, draft, behind, changed)?;
    add_all(alloc, hasher, draft, behind, count)
}

/// The batch of the grafted tree after a step, from a draft over the one before it, which has no leaf of its own yet. Each chunk
/// that changed takes a digest for its value and one for each node over it, each chunk that is grafted since one for its value and
/// those of the nodes that are born with it, and nothing else is hashed, whatever the length of the list. Want of memory is the
/// only error.
pub fn follow<F: Graftable, N: Chunks, H: Hasher, B: Readable<N>, O: Nodes<F, H::Digest>>(
    alloc: Global,
    hasher: &mut StandardHasher<H>,
    mem: &Mem<Grafted<F, N>, H::Digest>,
    draft: UnmerkleizedBatch<Grafted<F, N>, H::Digest>,
    behind: &Behind<'_, B, O>,
    changed: &[u64],
    count: u64,
) -> Result<MerkleizedBatch<Grafted<F, N>, H::Digest>, MerkleError>
    requires fresh { (draft.replaced ≡ []) × (draft.added ≡ []) }
    requires reach { Contains (stops draft.base draft.layers) mem.now.leaves }
    requires kept { All (λ c. draft.start ≤ c) changed.now }
    requires held { All (λ c. mem.now.start ≤ c) changed.now }
    requires order { draft.base ≤ count }
    requires changed { All (λ c. c < draft.base
        → CanGraft (O.node_at behind.now.operations.now) F.shape N.LEN
        (B.bitmap behind.now.bits.now) c) changed.now }
    requires added { (c : ℕ) → draft.base ≤ c → c < count
        → CanGraft (O.node_at behind.now.operations.now) F.shape N.LEN
        (B.bitmap behind.now.bits.now) c }
    ensures start { IfOk result (λ b. b.start ≡ draft.start) }
    ensures base { IfOk result (λ b. b.newest.tree.start ≡ draft.base) }
    ensures leaves { IfOk result (λ b. b.newest.tree.leaves ≡ count) }
    ensures older { IfOk result (λ b. b.older ≡ draft.layers) }
    ensures history { (old new list : List Bytes) (before : ℕ → Bytes) (lists : List (List Bytes))
        → IsStep (grafting N.LEN) draft.base changed.now old new before
        (chunk N.LEN (all_bits N.LEN (B.bitmap behind.now.bits.now)))
        → TellsNodes H.Digest.bytes H.hash (O.node_at behind.now.operations.now) F.shape
        (grafting N.LEN) new count
        → IsHistory (kept_shape F.shape (grafting N.LEN)) H.Digest.bytes H.hash draft.layers
        (chunk_values H.hash F.shape (grafting N.LEN) old before 0 draft.base ∷ lists)
        → Contains (chunk_values H.hash F.shape (grafting N.LEN) old before 0 draft.base ∷ lists)
        list → Stands (kept_shape F.shape (grafting N.LEN)) H.Digest.bytes H.hash mem.now list
        → IfOk result (λ b. IsHistory (kept_shape F.shape (grafting N.LEN)) H.Digest.bytes H.hash
        (all_layers b) (chunk_values H.hash F.shape (grafting N.LEN) new
        (chunk N.LEN (all_bits N.LEN (B.bitmap behind.now.bits.now))) 0 count
        ∷ chunk_values H.hash F.shape (grafting N.LEN) old before 0 draft.base
        ∷ lists)) }
    ensures cost { (k : ℕ) → draft.base < 2 ^ suc k
        → IfOk result (λ b. hasher.new
        ≤ hasher.old + (length changed.now * suc k + (count - draft.base) +
        (length b.newest.tree.nodes - (count - draft.base)))) }
    ensures cause { IfErr result (λ e. e ≡ MerkleError.Memory) }
{
    let mut draft = draft;
    graft(alloc, hasher, &mut draft, behind, changed, count)?;
    Ok(draft.merkleize(alloc, mem, hasher)?)
}
