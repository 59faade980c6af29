//! Metadata by name, in memory.

ghost use Rattle.std.specs.Prelude.{◌≡◌, ◌≤◌, [], ◌∷◌, bytes_eq, filter, map, not};
ghost use Rattle.std.specs.Prelude.{IfOk, OnOk, OnErr, vec_len, vec_capacity};
ghost use Rattle.qm_model.specs.StoreModel.{metadata_in};
ghost use Rattle.qm_memory.specs.ChangeViews.{named_of};
ghost use Rattle.qm_memory.specs.Changes.{AreNamedOnce, place_of as place_among, put_over_older, put_in_turn, putting};

use crate::change::{Change, Kind};
use qm_store::MetaEntry;
use std::alloc::{AllocError, Global};
use std::marker::Model;

/// Metadata under a name.
#[derive(Drop)]
pub(crate) struct Metadata {
    name: String,
    entries: Vec<MetaEntry>,
}

impl Model for Metadata {
    ghost use Rattle.std.specs.String.{string_bytes};
    ghost use Rattle.qm_model.specs.StoreModel.{Named};

    ghost Value = { Named };

    ghost view = { λ m. record { name = string_bytes m.name; entries = m.entries.items } };
}

impl Metadata {
    // Copies of a name and its entries.
    pub(crate) fn of(
        alloc: Global,
        name: &str,
        entries: &[MetaEntry],
    ) -> Result<Metadata, AllocError>
        ensures { IfOk result (λ m. m ≡ record { name = name.now; entries = entries.now }) }
    {
        Ok(Metadata {
            name: String::from_str(alloc, name)?,
            entries: copied(alloc, entries)?,
        })
    }

    // Those of the empty name, of which there are none.
    fn none(alloc: Global) -> Metadata {
        Metadata {
            name: String::new(alloc),
            entries: Vec::new(alloc),
        }
    }

    // Whether it is that of a name.
    fn is_of(&self, name: &str) -> bool
        ensures { result ≡ bytes_eq name.now self.now.name }
    {
        name == self.name.as_str()
    }
}

// A copy of entries.
fn copied(alloc: Global, entries: &[MetaEntry]) -> Result<Vec<MetaEntry>, AllocError>
    ensures { IfOk result (λ v. v.items ≡ entries.now) }
{
    let mut copy = Vec::with_capacity(alloc, entries.len())?;
    for entry in entries {
        copy.push(MetaEntry {
            key: entry.key,
            value: entry.value.as_slice().to_vec(alloc)?,
        })?;
    }
    Ok(copy)
}

// A copy of the metadata of a name.
pub(crate) fn entries_of(
    alloc: Global,
    metadata: &[Metadata],
    name: &str,
) -> Result<Vec<MetaEntry>, AllocError>
    ensures { IfOk result (λ v. v.items ≡ metadata_in metadata.now name.now) }
{
    for named in metadata {
        if named.is_of(name) {
            return copied(alloc, &named.entries);
        }
    }
    Ok(Vec::new(alloc))
}

// The place of the metadata of a name, or how many there are.
fn place_of(metadata: &[Metadata], name: &str) -> usize
    ensures { result ≡ place_among name.now metadata.now }
{
    for (place, named) in metadata.iter().enumerate() {
        if named.is_of(name) {
            return place;
        }
    }
    metadata.len()
}

// Takes the metadata of a name away, if there are any, and notes them. After an error nothing has changed.
pub(crate) fn take_out(
    alloc: Global,
    metadata: &mut Vec<Metadata>,
    name: &str,
) -> Result<Change, AllocError>
    requires { AreNamedOnce metadata.old.items }
    ensures change { IfOk result (λ change. change ≡ putting name.now metadata.old.items) }
    ensures rest { OnOk result
        (metadata.new.items ≡ filter (λ m. not (bytes_eq name.now m.name)) metadata.old.items) }
    ensures err { OnErr result (metadata.new.items ≡ metadata.old.items) }
    ensures capacity { vec_capacity metadata.new ≡ vec_capacity metadata.old }
    ensures count { vec_len metadata.new ≤ vec_len metadata.old }
{
    let place = place_of(metadata, name);
    if place == metadata.len() {
        return Ok(Change { kind: Kind::PutNew });
    }
    let mut replaced = Box::new(alloc, Metadata::none(alloc))?;
    *replaced = metadata.remove(place);
    Ok(Change {
        kind: Kind::PutOver(place as u64, replaced),
    })
}

// Puts metadata in place of those of their name.
fn put(metadata: &mut Vec<Metadata>, named: Metadata) -> Result<(), AllocError>
    ensures { OnOk result (metadata.new.items ≡ put_over_older named metadata.old.items) }
{
    metadata.retain(|older| !older.is_of(named.name.as_str()));
    metadata.insert(0, named)?;
    Ok(())
}

// Metadata, each of which was put after those before it.
pub(crate) fn put_all(
    alloc: Global,
    metadata: Vec<(String, Vec<MetaEntry>)>,
) -> Result<Vec<Metadata>, AllocError>
    ensures value { IfOk result (λ v. v.items ≡ put_in_turn (map named_of metadata.items) []) }
    ensures once { IfOk result (λ v. AreNamedOnce v.items) }
{
    let mut kept = Vec::new(alloc);
    for (name, entries) in metadata {
        put(&mut kept, Metadata { name, entries })?;
    }
    Ok(kept)
}
