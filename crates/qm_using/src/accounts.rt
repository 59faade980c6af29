//! Accounts that outlive the program: a current database over any store, as one over the files of a folder.

use crate::expiry::Expiry;
use qm_base::{ByteKey, ByteValue, Digest, Error, Hasher, Sha256, Sha256Digest};
use qm_bits::Chunk32;
use qm_chain::Proportional;
use qm_current::MerkleizedBatch;
use qm_databases::any::unordered::variable::Update;
use qm_databases::current::VariableConfig;
use qm_databases::current::unordered::variable::{Db, init};
use qm_index::FourCap;
use qm_keyproofs::OperationProof;
use qm_keyproofs::unordered::verify_key_value_proof;
use qm_merkle::{StandardHasher, mmr};
use qm_operations::VariableEncoding;
use qm_store::{Refusal, Store};
use std::alloc::{AllocError, Global};
use std::num::NonZeroUsize;
use std::rc::Rc;

/// The database: over mountain ranges and SHA-256, with keys and values of any length, and chunks of 32 bytes under its root.
pub type Accounts<C> = Db<mmr::Family, C, ByteKey, ByteValue, Sha256, FourCap, Chunk32>;

/// A batch whose list is made, and whose root is known.
pub type Block = MerkleizedBatch<mmr::Family, Sha256Digest, Update<ByteKey, ByteValue>, Chunk32>;

/// What a light client is given of a key.
pub type Proof = OperationProof<mmr::Family, Chunk32, Sha256Digest>;

/// What a call answers, or why it was refused. The database, or the store, that a refusal gives back is let go here.
pub fn kept<T: Drop, X: Drop, C: Drop>(done: Result<T, Refusal<X, C>>) -> Result<T, Error> {
    match done {
        Ok(answer) => Ok(answer),
        Err(refusal) => Err(refusal.error),
    }
}

/// The key of a name. Others choose names, so they are hashed first.
pub fn key_of(alloc: Global, name: &str) -> Result<ByteKey, AllocError> {
    let mut hasher = Sha256::new();
    hasher.start();
    hasher.update(name.as_bytes());
    let digest = hasher.finish();
    Ok(ByteKey::new(Vec::from_slice(alloc, digest.bytes())?))
}

/// The value of an account: the block up to which it is valid, and what it has.
pub fn value_of(alloc: Global, until: u8, amount: u8) -> Result<ByteValue, AllocError> {
    Ok(ByteValue::new(vec![in alloc; until, amount]?))
}

/// Opens the accounts that a store keeps; an empty store becomes a fresh database. Give each database that you open a number of its own.
pub fn open<C: Store + Drop>(alloc: Global, store: C, number: u64) -> Result<Accounts<C>, Error> {
    let config = VariableConfig {
        translator: FourCap,
        init_cache: NonZeroUsize::MIN,
        init_concurrency: (),
        metadata: "grafted",
        instance: number,
    };
    kept(init(alloc, store, Sha256::new(), config, None))
}

/// The block that gives a name an amount, on the accounts as they are. They have not changed yet.
pub fn block_of<C: Store + Drop>(
    alloc: Global,
    accounts: &mut Accounts<C>,
    name: &str,
    amount: u8,
) -> Result<Rc<Block>, Error> {
    let (key, value) = (key_of(alloc, name)?, value_of(alloc, 9, amount)?);
    let batch = accounts.new_batch(alloc)?.write(key, Some(value))?;
    batch.merkleize(alloc, accounts, None, &mut Proportional)
}

/// Two blocks on the same accounts, of which the first is applied: the other is stale then.
pub fn fork<C: Store + Drop>(
    alloc: Global,
    accounts: Accounts<C>,
    name: &str,
) -> Result<(Accounts<C>, bool), Error> {
    let mut accounts = accounts;
    let first = block_of(alloc, &mut accounts, name, 1)?;
    let other = block_of(alloc, &mut accounts, name, 2)?;
    let accounts = kept(accounts.apply_batch(alloc, &first))?;
    let is_stale = accounts.validate_batch(&other).is_err();
    Ok((accounts, is_stale))
}

/// The proof of what a name has now.
pub fn proof_of<C: Store + Drop>(
    alloc: Global,
    accounts: &mut Accounts<C>,
    name: &str,
) -> Result<Proof, Error> {
    let key = key_of(alloc, name)?;
    accounts.key_value_proof(alloc, &mut StandardHasher::new(Sha256::new()), &key)
}

/// What a light client does, which has the root alone: whether the proof shows that the name has this amount.
pub fn is_shown(
    alloc: Global,
    proof: &Proof,
    name: &str,
    amount: u8,
    root: &Sha256Digest,
) -> Result<bool, Error> {
    let (key, value) = (key_of(alloc, name)?, value_of(alloc, 9, amount)?);
    let mut hasher = StandardHasher::new(Sha256::new());
    Ok(verify_key_value_proof::<mmr::Family, Chunk32, Sha256, ByteKey, VariableEncoding<ByteValue>>(
        &mut hasher,
        &key,
        &value,
        proof,
        root,
    ))
}

/// A block that drops the accounts whose last block is before this one, and how many it dropped.
pub fn expire<C: Store + Drop>(
    alloc: Global,
    accounts: Accounts<C>,
    block: u8,
) -> Result<(Accounts<C>, usize), Error> {
    let mut accounts = accounts;
    let batch = accounts.new_batch(alloc)?;
    let made = batch.merkleize(alloc, &mut accounts, None, &mut Expiry { block })?;
    let accounts = kept(accounts.apply_batch(alloc, &made))?;
    Ok((accounts, made.evicted().len()))
}

/// Takes away what no later block needs, and makes the rest last, with the count of chunks that went.
pub fn settle<C: Store + Drop>(alloc: Global, accounts: Accounts<C>) -> Result<Accounts<C>, Error> {
    let boundary = accounts.sync_boundary();
    let accounts = kept(accounts.prune(alloc, boundary))?;
    kept(accounts.sync(alloc))
}
