//! What a store in memory notes of its calls.

use crate::items::Items;
use crate::metadata::Metadata;
use std::alloc::Global;
use std::marker::Model;

// What a call changed.
#[derive(Drop)]
pub(crate) struct Change {
    pub(crate) kind: Kind,
}

// How it is held. What is seldom stands in boxes.
#[derive(Drop)]
pub(crate) enum Kind {
    Grew(u64),
    SettledFrom(u64),
    RewoundFrom(Box<Cut>),
    PrunedFrom(Box<Pruned>),
    PutNew,
    PutOver(u64, Box<Metadata>),
    RestartedFrom(Box<Cut>),
    Emptied(Box<Dropped>),
}

// The items that were cut off, and the stable length before.
#[derive(Drop)]
pub(crate) struct Cut {
    pub(crate) items: Items,
    pub(crate) stable: u64,
}

// The start and the head before, and the items that were taken away.
#[derive(Drop)]
pub(crate) struct Pruned {
    pub(crate) start: u64,
    pub(crate) head: Vec<u8>,
    pub(crate) items: Items,
}

// All that a store held, but for the ends that its restarts chose.
#[derive(Drop)]
pub(crate) struct Dropped {
    pub(crate) start: u64,
    pub(crate) items: Items,
    pub(crate) head: Vec<u8>,
    pub(crate) metadata: Vec<Metadata>,
    pub(crate) stable: u64,
}

impl Dropped {
    // What a store without anything held.
    pub(crate) fn none(alloc: Global) -> Dropped {
        Dropped {
            start: 0,
            items: Items::new(alloc),
            head: Vec::new(alloc),
            metadata: Vec::new(alloc),
            stable: 0,
        }
    }
}

impl Model for Change {
    ghost use Rattle.qm_memory.specs.Changes as changes;
    ghost use Rattle.qm_memory.specs.ChangeViews.{change_of};

    ghost Value = { changes.Change };

    ghost view = { λ c. change_of c.kind };
}
