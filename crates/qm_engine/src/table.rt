// The table of batches, by number.
ghost use Rattle.std.specs.Prelude.{◌≡◌, ◌++◌, ◌∷◌, [], OnOk, OnErr, is_some, if◌then◌else◌, slice_index_or, slice_set, option_copied};
ghost use Rattle.std.specs.Option.{unwrap_or};
ghost use Rattle.qm_engine.specs.Table.{writing_of, staged_of, merkleized_of};

use std::alloc::AllocError;
use std::mem;

/// What a batch number names: nothing any more, a batch, a staged batch, or a merkleized batch. The number 0 never names
/// one.
#[derive(Drop)]
pub enum Slot<B, S, M> {
    Gone,
    Writing(B),
    Staged(S),
    Merkleized(M),
}

fn merkleized_in<B, S, M>(slot: &Slot<B, S, M>) -> Option<&M>
    ensures { option_copied result ≡ merkleized_of slot.now }
{
    match slot {
        Slot::Merkleized(batch) => Some(batch),
        _ => None,
    }
}

// Takes what a number names out of the table.
fn take_slot<B: Drop, S: Drop, M: Drop>(
    table: &mut Vec<Slot<B, S, M>>,
    number: u64,
) -> Slot<B, S, M>
    ensures slot { result ≡ slice_index_or table.old.items number Slot.Gone }
    ensures table { table.new.items ≡ slice_set table.old.items number Slot.Gone }
{
    let at = number as usize;
    if at < table.len() {
        mem::replace(&mut table[at], Slot::Gone)
    } else {
        Slot::Gone
    }
}

/// Takes a batch that is neither staged nor merkleized out of the table: its number is used up.
pub fn take_writing<B: Drop, S: Drop, M: Drop>(
    table: &mut Vec<Slot<B, S, M>>,
    number: u64,
) -> Option<B>
    ensures value { result ≡ writing_of (slice_index_or table.old.items number Slot.Gone) }
    ensures table { table.new.items
        ≡ (if is_some result then slice_set table.old.items number Slot.Gone else table.old.items) }
{
    match take_slot(table, number) {
        Slot::Writing(batch) => Some(batch),
        slot => {
            put_slot(table, number, slot);
            None
        }
    }
}

/// Takes a staged batch out of the table: its number is used up.
pub fn take_staged<B: Drop, S: Drop, M: Drop>(
    table: &mut Vec<Slot<B, S, M>>,
    number: u64,
) -> Option<S>
    ensures value { result ≡ staged_of (slice_index_or table.old.items number Slot.Gone) }
    ensures table { table.new.items
        ≡ (if is_some result then slice_set table.old.items number Slot.Gone else table.old.items) }
{
    match take_slot(table, number) {
        Slot::Staged(batch) => Some(batch),
        slot => {
            put_slot(table, number, slot);
            None
        }
    }
}

/// Lends what a number names. Past the table it names nothing.
pub fn slot_at<B, S, M>(table: &Vec<Slot<B, S, M>>, number: u64) -> Option<&Slot<B, S, M>>
    ensures { unwrap_or (option_copied result) Slot.Gone
        ≡ slice_index_or table.now.items number Slot.Gone }
{
    let at = number as usize;
    if at < table.len() {
        Some(&table[at])
    } else {
        None
    }
}

/// Lends a merkleized batch.
pub fn merkleized_at<B, S, M>(table: &Vec<Slot<B, S, M>>, number: u64) -> Option<&M>
    ensures { option_copied result
        ≡ merkleized_of (slice_index_or table.now.items number Slot.Gone) }
{
    let at = number as usize;
    if at < table.len() {
        merkleized_in(&table[at])
    } else {
        None
    }
}

/// Sets a place of the table, if there is one.
pub fn put_slot<B: Drop, S: Drop, M: Drop>(
    table: &mut Vec<Slot<B, S, M>>,
    number: u64,
    slot: Slot<B, S, M>,
)
    ensures { table.new.items ≡ slice_set table.old.items number slot }
{
    let at = number as usize;
    if at < table.len() {
        table[at] = slot;
    }
}

/// Gives a batch the next number.
pub fn push_slot<B: Drop, S: Drop, M: Drop>(
    table: &mut Vec<Slot<B, S, M>>,
    slot: Slot<B, S, M>,
) -> Result<(), AllocError>
    ensures ok { OnOk result (table.new.items ≡ table.old.items ++ slot ∷ []) }
    ensures err { OnErr result (table.new.items ≡ table.old.items) }
{
    table.push(slot)?;
    Ok(())
}
