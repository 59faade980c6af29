//! Whether the live updates of a log form a ring.

ghost use Rattle.std.specs.Prelude.{◌≡◌, ◌≤◌, ◌++◌, ◌∷◌, [], ℕ, List, true, false, is_none, map, filter_map, option_map, IfSome, IfOk, IfErr, OnOk};
ghost use Rattle.std.specs.List.{list_any};
ghost use Rattle.std.specs.Option.{option_map_or};
ghost use Rattle.qm_model.specs.Keys.{successor};
ghost use Rattle.qm_model.specs.Opening.{same_key, is_ring};
ghost use Rattle.qm_model.specs.Operations as model;
ghost use Rattle.qm_operations.specs.Views.{operation_view};
ghost use Rattle.qm_build.specs.Linked.{AreLinks};
ghost use Rattle.qm_build.specs.Reads.{items_within, KeepsLog, IsRebuildError};

use crate::read::read_operation;
use qm_base::{ByteString, Corrupt, Error, Hasher};
use qm_merkle::Family;
use qm_operations::{Operation, Update};
use qm_store::{AuthLog, Store};
use std::alloc::{AllocError, Global};
use std::collections::BTreeMap;
use std::ops::Bound;

/// The live keys, each with the key that its update names, by their bytes.
type Links = BTreeMap<Vec<u8>, Option<Vec<u8>>>;

// A copy of a key's bytes.
fn bytes_of<K: ByteString>(alloc: Global, key: &K) -> Result<Vec<u8>, AllocError>
    ensures { IfOk result (λ bytes. bytes.items ≡ K.bytes key.now) }
{
    key.as_bytes().to_vec(alloc)
}

// The same, if there is a key.
fn bytes_of_some<K: ByteString>(
    alloc: Global,
    key: Option<&K>,
) -> Result<Option<Vec<u8>>, AllocError>
    ensures { IfOk result (λ bytes.
        option_map (λ b. b.items) bytes ≡ option_map (λ k. K.bytes k.now) key.entry) }
{
    match key {
        Some(key) => Ok(Some(bytes_of(alloc, key)?)),
        None => Ok(None),
    }
}

// Puts in what an update names, after the operations that these are the links of.
fn put_link<U: Update>(alloc: Global, links: &mut Links, update: &U) -> Result<(), AllocError>
    ensures { OnOk result ((ops : List model.Operation)
        → AreLinks (λ b. b.items) links.old.entries ops
        → AreLinks (λ b. b.items) links.new.entries (ops ++ U.view update.now ∷ [])) }
{
    let (key, _, next) = update.parts();
    let key = bytes_of(alloc, key)?;
    let next = bytes_of_some(alloc, next)?;
    links.insert(key, next)?;
    Ok(())
}

// Puts in an operation, after those that these are the links of.
fn put<F, U: Update>(
    alloc: Global,
    links: &mut Links,
    operation: Operation<F, U>,
) -> Result<(), AllocError>
    ensures { OnOk result ((ops : List model.Operation)
        → AreLinks (λ b. b.items) links.old.entries ops
        → AreLinks (λ b. b.items) links.new.entries
        (ops ++ operation_view U.view U.Key.bytes U.Value.bytes operation ∷ [])) }
{
    match operation {
        Operation::Update(update) => put_link(alloc, links, &update),
        Operation::Delete(key) => {
            links.remove(key.as_bytes());
            Ok(())
        }
        Operation::CommitFloor(_, _) => Ok(()),
    }
}

// The key after this one, or else the first of all.
fn key_behind<'a>(links: &'a Links, key: &Vec<u8>) -> Option<&'a Vec<u8>>
    ensures { option_map (λ k. k.now.items) result
        ≡ successor (map (λ e. e.0.items) links.now.entries) key.now.items }
{
    match links.range((Bound::Excluded(key), Bound::Unbounded)).next() {
        Some((behind, _)) => Some(behind),
        None => match links.first_key_value() {
            Some((first, _)) => Some(first),
            None => None,
        },
    }
}

// Whether the key that is named is the one that comes next.
fn names(next: &Option<Vec<u8>>, behind: Option<&Vec<u8>>) -> bool
    ensures { result
        ≡ option_map_or (same_key (option_map (λ b. b.items) next.now))
        (option_map (λ k. k.now.items) behind.entry) false }
{
    match (next, behind) {
        (Some(next), Some(behind)) => next == behind,
        _ => false,
    }
}

// Whether each key's update names the key after it.
fn is_closed(links: &Links) -> bool
    ensures { (ops : List model.Operation) → AreLinks (λ b. b.items) links.now.entries ops
        → result ≡ is_ring ops }
{
    for (key, next) in links {
        if !names(next, key_behind(links, key)) {
            return false;
        }
    }
    true
}

/// Whether the live updates among a log's items from a location on form a ring: each names the next live key, and the
/// last one the first. Each of these items is read once, in order. It takes memory for each key that is live so far: its
/// bytes, and those of the key that its update names.
pub fn forms_ring<F: Family, C: Store, H: Hasher, U: Update>(
    alloc: Global,
    log: &mut AuthLog<F, C, H>,
    from: u64,
) -> Result<bool, Error>
    requires kept { log.old.tree.start ≤ from }
    requires below { from ≤ log.old.tree.leaves }
    ensures ring { IfOk result (λ b. IfSome (C.told log.old.store) (λ s.
        b ≡ is_ring (filter_map (λ item. item) (items_within U.form s from log.old.tree.leaves)))) }
    ensures corrupt { IfSome (C.told log.old.store) (λ s.
        IfErr result (λ e. e ≡ Error.DataCorrupted Corrupt.ItemDoesNotDecode
        → list_any is_none (items_within U.form s from log.old.tree.leaves) ≡ true)) }
    ensures read { KeepsLog C.Store F.shape H.Digest.bytes H.hash log.old log.new }
    ensures error { IfErr result (IsRebuildError C.Store log.old log.new) }
{
    let (_, size) = log.bounds();
    let mut links = BTreeMap::new(alloc);
    for at in from..size {
        let operation: Operation<F, U> = read_operation(alloc, log, at)?;
        put(alloc, &mut links, operation)?;
    }
    Ok(is_closed(&links))
}
