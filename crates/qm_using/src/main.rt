//! What a user of the library copies first.
#![tactic(auto)]

mod accounts;
mod expiry;
mod generic;

use accounts::{Accounts, expire, fork, is_shown, kept, open, proof_of, settle};
use anyhow::Result;
use qm_base::Digest;
use qm_files::FileStore;
use qm_store::Store;
use std::alloc::Global;

/// Where the accounts are, in the folder that the program is run in.
const FOLDER: &str = "accounts";

// Gives a name an amount, on accounts as they are, and tells what comes of it.
fn told<C: Store + Drop>(alloc: Global, accounts: Accounts<C>) -> Result<(Accounts<C>, String)> {
    let (accounts, is_stale) = fork(alloc, accounts, "alice")?;
    let mut accounts = kept(accounts.commit())?;
    let root = accounts.root();
    let proof = proof_of(alloc, &mut accounts, "alice")?;
    let is_right = is_shown(alloc, &proof, "alice", 1, &root)?;
    let is_wrong = is_shown(alloc, &proof, "alice", 2, &root)?;
    let (accounts, dropped) = expire(alloc, accounts, 10)?;
    let accounts = settle(alloc, accounts)?;
    let text = format!(in alloc;
        "stale {is_stale}, shown {is_right} {is_wrong}, dropped {dropped}"
    )?;
    Ok((accounts, text))
}

fn main(rt: HostRuntime) -> Result<()> {
    let alloc = rt.alloc();
    let accounts = open(alloc, FileStore::open(&rt, alloc, FOLDER)?, 1)?;
    let (accounts, text) = told(alloc, accounts)?;
    println!(rt; "{text}")?;
    let (root, size) = (accounts.root(), accounts.size().get());
    drop(accounts.close());
    let accounts = open(alloc, FileStore::open(&rt, alloc, FOLDER)?, 2)?;
    let is_same = accounts.root().bytes() == root.bytes();
    println!(rt;
        "reopened {size} {}, same root {is_same}",
        accounts.size().get()
    )?;
    Ok(())
}
