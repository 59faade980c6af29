//! Operations from their spelling.

ghost use Rattle.std.specs.Prelude.{◌≡◌, ◌<◌, ◌≤◌, ◌^◌, true, length, is_some, IfOk, IfNone, IfSome, option_map};
ghost use Rattle.qm_model.specs.Forms as model;
ghost use Rattle.qm_model.specs.Forms.{IsKey, IsValue, IsSpelling};
ghost use Rattle.qm_operations.specs.Parts as parts;
ghost use Rattle.qm_operations.specs.Parts.{update_key};
ghost use Rattle.qm_operations.specs.Views.{operation_view};

use crate::operation::{Operation, key_size, longest, value_size};
use crate::update::Update;
use qm_base::{ByteString, Location};
use std::alloc::{AllocError, Global};

impl<F, U: Update> Operation<F, U> {
    /// The operation of which these bytes are the spelling, if there is one: `encode` turned round.
    /// Want of memory is the only error.
    pub fn decode(alloc: Global, bytes: &[u8]) -> Result<Option<Self>, AllocError>
        ensures decoded { IfOk result (λ found.
            option_map (operation_view U.view U.Key.bytes U.Value.bytes) found
            ≡ model.decoded U.form bytes.now) }
        ensures some { IfOk result (λ found. IfSome found (λ op.
            IsSpelling U.form bytes.now (operation_view U.view U.Key.bytes U.Value.bytes op))) }
        ensures none { IfOk result (λ found.
            IfNone found ((op : _) → ¬ IsSpelling U.form bytes.now op)) }
    {
        decoded(alloc, bytes)
    }

    /// The key of an update, lent from its spelling. It copies nothing and takes no memory. Of bytes that are no
    /// operation's spelling it says nothing.
    pub fn update_key(bytes: &[u8]) -> Option<&[u8]>
        ensures { (op : _) → IsSpelling U.form bytes.now op
            → option_map (λ key. key.now) result ≡ update_key op }
    {
        read_update_key::<U>(bytes)
    }
}

// The number of these bytes, the highest first.
#[tactic(auto, unfolding(qm_model::specs::Forms::number_of_four))]
fn number_of_four(bytes: [u8; 4]) -> u32
    ensures { result ≡ model.number_of_four bytes }
{
    u32::from_be_bytes(bytes)
}

// The number of these bytes, the highest first.
#[tactic(auto, unfolding(qm_model::specs::Forms::number_of_eight))]
fn number_of_eight(bytes: [u8; 8]) -> u64
    ensures { result ≡ model.number_of_eight bytes }
{
    u64::from_be_bytes(bytes)
}

// A key or a value, and what follows it.
fn read_field(size: Option<u32>, bytes: &[u8]) -> Option<(&[u8], &[u8])>
    ensures value { option_map (λ p. (p.0.now, p.1.now)) result ≡ model.read_field size bytes.now }
    ensures sized { IfSome result (λ p. model.IsSized size p.0.now) }
{
    match size {
        None => {
            let (count, rest) = bytes.split_first_chunk::<4>()?;
            rest.split_at_checked(number_of_four(*count) as usize)
        }
        Some(size) => bytes.split_at_checked(size as usize),
    }
}

// A key, and what follows it.
fn read_key<U: Update>(bytes: &[u8]) -> Option<(&[u8], &[u8])>
    ensures value { option_map (λ p. (p.0.now, p.1.now)) result ≡ model.read_key U.form bytes.now }
    ensures known { IfSome result (λ p. U.form.is_key p.0.now ≡ true) }
    ensures sized { IfSome result (λ p. model.IsSized (model.key_size U.form.sizes) p.0.now) }
    ensures has { IfSome result (λ p. U.Key.has p.0.now ≡ true) }
{
    let (key, rest) = read_field(key_size(U::sizes()), bytes)?;
    if U::is_key(key) {
        Some((key, rest))
    } else {
        None
    }
}

// A value, and what follows it.
fn read_value<U: Update>(bytes: &[u8]) -> Option<(&[u8], &[u8])>
    ensures value { option_map (λ p. (p.0.now, p.1.now)) result
        ≡ model.read_value U.form bytes.now }
    ensures known { IfSome result (λ p. U.form.is_value p.0.now ≡ true) }
    ensures sized { IfSome result (λ p. model.IsSized (model.value_size U.form.sizes) p.0.now) }
    ensures has { IfSome result (λ p. U.Value.has p.0.now ≡ true) }
{
    let (value, rest) = read_field(value_size(U::sizes()), bytes)?;
    if U::is_value(value) {
        Some((value, rest))
    } else {
        None
    }
}

// The key after the tag of updates.
fn read_update_key<U: Update>(bytes: &[u8]) -> Option<&[u8]>
    ensures { option_map (λ key. key.now) result ≡ parts.read_update_key U.form bytes.now }
{
    match bytes.split_first()? {
        (1, rest) => {
            let (key, _) = read_key::<U>(rest)?;
            Some(key)
        }
        _ => None,
    }
}

// The next key, in an ordered database, and what follows it.
fn read_next<U: Update>(bytes: &[u8]) -> Option<(Option<&[u8]>, &[u8])>
    ensures value { option_map (λ p. (option_map (λ next. next.now) p.0, p.1.now)) result
        ≡ model.read_next U.form bytes.now }
    ensures kind { IfSome result (λ p. is_some p.0 ≡ U.form.ordered) }
    ensures known { IfSome result (λ p. IfSome p.0 (λ next. U.form.is_key next.now ≡ true)) }
    ensures sized { IfSome result (λ p.
        IfSome p.0 (λ next. model.IsSized (model.key_size U.form.sizes) next.now)) }
{
    if U::is_ordered() {
        let (key, rest) = read_key::<U>(bytes)?;
        Some((Some(key), rest))
    } else {
        Some((None, bytes))
    }
}

// The metadata after its mark, and what follows it.
fn read_metadata<U: Update>(bytes: &[u8]) -> Option<(Option<&[u8]>, &[u8])>
    ensures value { option_map (λ p. (option_map (λ value. value.now) p.0, p.1.now)) result
        ≡ model.read_metadata U.form bytes.now }
    ensures has { IfSome result (λ p. IfSome p.0 (λ value. U.Value.has value.now ≡ true)) }
{
    match bytes.split_first()? {
        (0, rest) => Some((None, rest)),
        (1, rest) => {
            let (value, rest) = read_value::<U>(rest)?;
            Some((Some(value), rest))
        }
        _ => None,
    }
}

// A floor of at most 2^62, and what follows it.
fn read_floor(bytes: &[u8]) -> Option<(u64, &[u8])>
    ensures { option_map (λ p. (p.0, p.1.now)) result ≡ model.read_floor bytes.now }
{
    let (number, rest) = bytes.split_first_chunk::<8>()?;
    let number = number_of_eight(*number);
    if number <= 1 << 62 {
        Some((number, rest))
    } else {
        None
    }
}

// Whether only zeros are left.
fn are_zeros(bytes: &[u8]) -> bool
    ensures { result ≡ model.are_zeros bytes.now }
{
    for byte in bytes {
        if *byte != 0 {
            return false;
        }
    }
    true
}

// Whether nothing but padding is left.
fn is_end(sizes: Option<(u32, u32)>, bytes: &[u8]) -> bool
    ensures { result ≡ model.is_end sizes bytes.now }
{
    match sizes {
        None => bytes.is_empty(),
        Some(_) => are_zeros(bytes),
    }
}

// Whether there are as many bytes as spellings have.
fn is_long(ordered: bool, sizes: Option<(u32, u32)>, bytes: &[u8]) -> bool
    ensures { result ≡ model.is_long ordered sizes bytes.now }
{
    match sizes {
        None => true,
        Some(sizes) => bytes.len() as u64 == longest(ordered, sizes),
    }
}

// An update from the bytes after its tag.
fn update<F, U: Update>(alloc: Global, bytes: &[u8]) -> Result<Option<Operation<F, U>>, AllocError>
    ensures { IfOk result (λ found.
        option_map (operation_view U.view U.Key.bytes U.Value.bytes) found
        ≡ model.decoded_update U.form bytes.now) }
{
    let Some((key, rest)) = read_key::<U>(bytes) else {
        return Ok(None);
    };
    let Some((value, rest)) = read_value::<U>(rest) else {
        return Ok(None);
    };
    let Some((next, rest)) = read_next::<U>(rest) else {
        return Ok(None);
    };
    if !is_end(U::sizes(), rest) {
        return Ok(None);
    }
    let update = U::from_parts(alloc, key, value, next)?;
    Ok(Some(Operation::Update(update)))
}

// A delete from the bytes after its tag.
fn delete<F, U: Update>(alloc: Global, bytes: &[u8]) -> Result<Option<Operation<F, U>>, AllocError>
    ensures { IfOk result (λ found.
        option_map (operation_view U.view U.Key.bytes U.Value.bytes) found
        ≡ model.decoded_delete U.form bytes.now) }
{
    let Some((key, rest)) = read_key::<U>(bytes) else {
        return Ok(None);
    };
    if !is_end(U::sizes(), rest) {
        return Ok(None);
    }
    let key = U::Key::from_bytes(alloc, key)?;
    Ok(Some(Operation::Delete(key)))
}

// The value of metadata.
fn metadata<V: ByteString>(alloc: Global, bytes: Option<&[u8]>) -> Result<Option<V>, AllocError>
    requires { IfSome bytes (λ value. V.has value.now ≡ true) }
    ensures { IfOk result (λ made.
        option_map V.bytes made ≡ option_map (λ value. value.now) bytes.entry) }
{
    match bytes {
        None => Ok(None),
        Some(value) => Ok(Some(V::from_bytes(alloc, value)?)),
    }
}

// A commit from the bytes after its tag.
fn commit<F, U: Update>(alloc: Global, bytes: &[u8]) -> Result<Option<Operation<F, U>>, AllocError>
    ensures { IfOk result (λ found.
        option_map (operation_view U.view U.Key.bytes U.Value.bytes) found
        ≡ model.decoded_commit U.form bytes.now) }
{
    let Some((value, rest)) = read_metadata::<U>(bytes) else {
        return Ok(None);
    };
    let Some((floor, rest)) = read_floor(rest) else {
        return Ok(None);
    };
    if !is_end(U::sizes(), rest) {
        return Ok(None);
    }
    let metadata = metadata(alloc, value)?;
    Ok(Some(Operation::CommitFloor(metadata, Location::new(floor))))
}

// An operation by its tag.
fn by_tag<F, U: Update>(alloc: Global, bytes: &[u8]) -> Result<Option<Operation<F, U>>, AllocError>
    ensures { IfOk result (λ found.
        option_map (operation_view U.view U.Key.bytes U.Value.bytes) found
        ≡ model.by_tag U.form bytes.now) }
{
    match bytes.split_first() {
        Some((1, rest)) => update(alloc, rest),
        Some((2, rest)) => delete(alloc, rest),
        Some((3, rest)) => commit(alloc, rest),
        _ => Ok(None),
    }
}

// An operation as the model decodes it.
fn decoded<F, U: Update>(alloc: Global, bytes: &[u8]) -> Result<Option<Operation<F, U>>, AllocError>
    ensures { IfOk result (λ found.
        option_map (operation_view U.view U.Key.bytes U.Value.bytes) found
        ≡ model.decoded U.form bytes.now) }
{
    if is_long(U::is_ordered(), U::sizes(), bytes) {
        by_tag(alloc, bytes)
    } else {
        Ok(None)
    }
}
