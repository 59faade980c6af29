//! What a database means to a run, with no call.

ghost use Rattle.std.specs.Prelude.{◌≡◌, ℕ, List, length, All};
ghost use Rattle.qm_model.specs.Forms.{IsOf};
ghost use Rattle.qm_model.specs.Operations.{Bytes, Operation};
ghost use Rattle.qm_model.specs.Writes.{Write};
ghost use Rattle.qm_model.specs.Batches.{Chain};
ghost use Rattle.qm_model.specs.Schemes.{Scheme};

use qm_store::Store;

/// The words that an engine's clauses are said by.
pub trait Meaning<C: Store> {
    type Batch: Drop;

    type Staged: Drop;

    type Merkleized: Drop;

    /// The store that it holds.
    ghost inside: { Self → C };

    /// It stands for this operation list.
    ghost stands: { Self → List Operation → Type 0 };

    /// It is the instance of this number. What makes lists of batches of its own instance alone has one number; what makes lists
    /// of any may be of each.
    ghost numbered: { Self → ℕ → Type 0 };

    /// A batch of this chain, whose parent is of that one and made its base, with these writes. The parent of a batch that
    /// was begun on a database is that as a merkleized batch.
    ghost is_batch: { Self.Batch → Chain → Chain → List Write → Type 0 };

    /// A staged batch: the same with these keys, in order.
    ghost is_staged: { Self.Staged → Chain → Chain → List Write → List Bytes → Type 0 };

    /// How many keys it has.
    ghost count: { Self.Staged → ℕ };

    /// They are as many as its keys.
    ghost counted: { (batch : Self.Staged) (chain above : Chain) (ws : List Write) (keys : List Bytes) → is_staged batch chain above ws keys → count batch ≡ length keys };

    /// A merkleized batch of this chain with this tip list.
    ghost is_merkleized: { Self.Merkleized → Chain → List Operation → Type 0 };

    /// The keys that its step evicted, in the order of the walk, each with the value that it had.
    ghost evictions: { Self.Merkleized → List (Bytes × Bytes) };

    /// What its machine stands on: how operations are spelled and hashed, the operations root of a list, which tells a batch
    /// whether it fits, and its root, up to where a list may be pruned, its proofs and pins, and what is grafted onto its trees.
    ghost scheme: { Scheme };

    /// Its list is of operations of that form.
    ghost formed: { (x : Self) (list : List Operation) → stands x list → All (IsOf scheme.form) list };

    /// So is a batch's tip list.
    ghost made_formed: { (batch : Self.Merkleized) (chain : Chain) (tip : List Operation) → is_merkleized batch chain tip → All (IsOf scheme.form) tip };
}
