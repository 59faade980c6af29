//! Operations and their spelling.

ghost use Rattle.std.specs.Prelude.{ℕ, ◌≤◌, true, IfSome, ◌≡◌, ◌++◌, ◌<◌, ◌^◌, length, IfOk, OnOk, Option, option_map};
ghost use Rattle.qm_model.specs.Forms as forms;
ghost use Rattle.qm_operations.specs.Parts as parts;
ghost use Rattle.qm_operations.specs.Views.{operation_view};
ghost use Rattle.qm_operations.specs.Parts.{key_of, floor_of};
ghost use Rattle.qm_model.specs.Operations as model;

use crate::update::Update;
use qm_base::{ByteString, Location, eight_bytes, four_bytes};
use std::alloc::{AllocError, Global};

/// An entry of an operation list: an update, a delete of a key, or a commit with its metadata and floor.
#[derive(Drop)]
pub enum Operation<F, U: Update> {
    Update(U),
    Delete(U::Key),
    CommitFloor(Option<U::Value>, Location<F>),
}

/// The size of keys, if it is fixed.
pub(crate) fn key_size(sizes: Option<(u32, u32)>) -> Option<u32>
    ensures { result ≡ forms.key_size sizes }
{
    match sizes {
        Some((key, _)) => Some(key),
        None => None,
    }
}

/// The size of values, if it is fixed.
pub(crate) fn value_size(sizes: Option<(u32, u32)>) -> Option<u32>
    ensures { result ≡ forms.value_size sizes }
{
    match sizes {
        Some((_, value)) => Some(value),
        None => None,
    }
}

/// The length of the longest spelling, of keys and values of these sizes.
pub(crate) fn longest(ordered: bool, sizes: (u32, u32)) -> u64
    ensures { result ≡ forms.longest ordered sizes }
{
    let key = sizes.0 as u64;
    let value = sizes.1 as u64;
    let next = if ordered { key } else { 0 };
    (1 + key + value + next).max(10 + value)
}

// Adds a key or a value, whose bytes are short and those of a value of its type.
fn add_field<B: ByteString>(
    out: &mut Vec<u8>,
    size: Option<u32>,
    field: &B,
) -> Result<(), AllocError>
    ensures spelled { OnOk result
        (out.new.items ≡ out.old.items ++ forms.field size (B.bytes field.now)) }
    ensures has { B.has (B.bytes field.now) ≡ true }
    ensures short { length (B.bytes field.now) < 2 ^ 32 }
{
    let bytes = field.as_bytes();
    match size {
        None => {
            let count = four_bytes(bytes.len() as u32);
            out.extend_from_slice(&count)?;
            out.extend_from_slice(bytes)
        }
        Some(_) => out.extend_from_slice(bytes),
    }
}

// Adds the mark of metadata, and the value if there is one.
fn add_metadata<B: ByteString>(
    out: &mut Vec<u8>,
    size: Option<u32>,
    metadata: &Option<B>,
) -> Result<(), AllocError>
    ensures spelled { OnOk result (out.new.items
        ≡ out.old.items ++ forms.metadata_field size (option_map B.bytes metadata.now)) }
    ensures has { OnOk result (IfSome (option_map B.bytes metadata.now) (λ bs.
        (B.has bs ≡ true) × (length bs < 2 ^ 32))) }
{
    match metadata {
        None => {
            out.push(0)?;
            Ok(())
        }
        Some(value) => {
            out.push(1)?;
            add_field(out, size, value)
        }
    }
}

// Adds the fields of an update.
fn add_update<U: Update>(out: &mut Vec<u8>, update: &U) -> Result<(), AllocError>
    ensures spelled { OnOk result
        (out.new.items ≡ out.old.items ++ forms.plain U.form.sizes (U.view update.now)) }
    ensures of { OnOk result (forms.IsOf U.form (U.view update.now)) }
{
    let (key, value, next) = update.parts();
    let sizes = U::sizes();
    out.push(1)?;
    add_field(out, key_size(sizes), key)?;
    add_field(out, value_size(sizes), value)?;
    match next {
        None => Ok(()),
        Some(next) => add_field(out, key_size(sizes), next),
    }
}

// Adds the padding.
fn pad(mut out: Vec<u8>, ordered: bool, sizes: Option<(u32, u32)>) -> Result<Vec<u8>, AllocError>
    ensures { IfOk result (λ bytes. bytes.items ≡ forms.padded ordered sizes out.items) }
{
    match sizes {
        None => Ok(out),
        Some(sizes) => {
            let end = (longest(ordered, sizes) as usize).max(out.len());
            out.resize(end, 0)?;
            Ok(out)
        }
    }
}

// Adds the operation without padding.
fn add_plain<F, U: Update>(out: &mut Vec<u8>, operation: &Operation<F, U>) -> Result<(), AllocError>
    ensures spelled { OnOk result (out.new.items
        ≡ out.old.items
        ++ forms.plain U.form.sizes
        (operation_view U.view U.Key.bytes U.Value.bytes operation.now)) }
    ensures of { OnOk result (IfSome
        (floor_of (operation_view U.view U.Key.bytes U.Value.bytes operation.now))
        (λ floor. floor ≤ 2 ^ 62)
        → forms.IsOf U.form (operation_view U.view U.Key.bytes U.Value.bytes operation.now)) }
{
    let sizes = U::sizes();
    match operation {
        Operation::Update(update) => add_update(out, update),
        Operation::Delete(key) => {
            out.push(2)?;
            add_field(out, key_size(sizes), key)
        }
        Operation::CommitFloor(metadata, floor) => {
            out.push(3)?;
            add_metadata(out, value_size(sizes), metadata)?;
            out.extend_from_slice(&eight_bytes(floor.get()))
        }
    }
}

// How many bytes the spelling of an update has at most, without padding.
fn update_room<U: Update>(update: &U) -> usize {
    let (key, value, next) = update.parts();
    let next = match next {
        None => 0,
        Some(next) => 4 + next.as_bytes().len(),
    };
    9 + key.as_bytes().len() + value.as_bytes().len() + next
}

// How many bytes the spelling of an operation has at most.
fn room<F, U: Update>(operation: &Operation<F, U>) -> usize {
    let plain = match operation {
        Operation::Update(update) => update_room(update),
        Operation::Delete(key) => 5 + key.as_bytes().len(),
        Operation::CommitFloor(None, _) => 10,
        Operation::CommitFloor(Some(value), _) => 14 + value.as_bytes().len(),
    };
    match U::sizes() {
        None => plain,
        Some(sizes) => plain.max(longest(U::is_ordered(), sizes) as usize),
    }
}

impl<F, U: Update> Operation<F, U> {
    /// The spelling of the operation, with which a list is stored and hashed. Want of memory is the only error.
    pub fn encode(&self, alloc: Global) -> Result<Vec<u8>, AllocError>
        ensures of { IfOk result (λ _.
            IfSome (floor_of (operation_view U.view U.Key.bytes U.Value.bytes self.now))
            (λ floor. floor ≤ 2 ^ 62)
            → forms.IsOf U.form (operation_view U.view U.Key.bytes U.Value.bytes self.now)) }
        ensures spelled { IfOk result (λ bytes. bytes.items
            ≡ forms.spelling U.form (operation_view U.view U.Key.bytes U.Value.bytes self.now)) }
    {
        let mut out = Vec::with_capacity(alloc, room(self))?;
        add_plain(&mut out, self)?;
        pad(out, U::is_ordered(), U::sizes())
    }

    /// The key of an update or a delete.
    pub fn key(&self) -> Option<&U::Key>
        ensures { option_map (λ key. U.Key.bytes key.now) result
            ≡ key_of (operation_view U.view U.Key.bytes U.Value.bytes self.now) }
    {
        match self {
            Operation::Update(update) => Some(update.key()),
            Operation::Delete(key) => Some(key),
            Operation::CommitFloor(_, _) => None,
        }
    }

    /// The key of an update or a delete, by value.
    pub fn into_key(self) -> Option<U::Key>
        ensures { option_map U.Key.bytes result
            ≡ key_of (operation_view U.view U.Key.bytes U.Value.bytes self) }
    {
        match self {
            Operation::Update(update) => Some(update.into_key()),
            Operation::Delete(key) => Some(key),
            Operation::CommitFloor(_, _) => None,
        }
    }

    /// Whether it is an update.
    pub fn is_update(&self) -> bool
        ensures { result
            ≡ parts.is_update (operation_view U.view U.Key.bytes U.Value.bytes self.now) }
    {
        matches!(self, Operation::Update(_))
    }

    /// Whether it is a delete.
    #[tactic(auto, using(crate::proofs::Parts::is_delete_update))]
    pub fn is_delete(&self) -> bool
        ensures { result
            ≡ parts.is_delete (operation_view U.view U.Key.bytes U.Value.bytes self.now) }
    {
        match self {
            Operation::Delete(_) => true,
            Operation::Update(_) | Operation::CommitFloor(_, _) => false,
        }
    }

    /// The floor of a commit.
    #[tactic(auto, using(crate::proofs::Parts::floor_of_update))]
    pub fn has_floor(&self) -> Option<Location<F>>
        ensures { result ≡ floor_of (operation_view U.view U.Key.bytes U.Value.bytes self.now) }
    {
        match self {
            Operation::CommitFloor(_, floor) => Some(Location::new(floor.get())),
            Operation::Update(_) | Operation::Delete(_) => None,
        }
    }
}
