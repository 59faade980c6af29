//! Operations to a hasher.
#![tactic(auto, using(std::proofs::Common::append_assoc))]

ghost use Rattle.std.specs.Prelude.{◌≡◌, ◌<◌, ◌^◌, List, ℕ, ◌-◌, ◌++◌, length, replicate, option_map};
ghost use Rattle.qm_model.specs.Forms as forms;
ghost use Rattle.qm_model.specs.Operations as model;

use crate::operation::{Operation, key_size, longest, value_size};
use crate::update::Update;
use qm_base::{ByteString, Hasher, Spelled, eight_bytes, four_bytes};

impl<F, U: Update> Spelled for Operation<F, U> {
    ghost use Rattle.qm_model.specs.Forms.{spelling};
    ghost use Rattle.qm_operations.specs.Views.{operation_view};

    ghost spelling = { λ o. spelling U.form (operation_view U.view U.Key.bytes U.Value.bytes o) };

    fn feed<H: Hasher>(&self, hasher: &mut H) {
        let ordered = U::is_ordered();
        let sizes = U::sizes();
        match self {
            Operation::Update(update) => {
                let (key, value, next) = update.parts();
                feed_update(hasher, ordered, sizes, key, value, next);
            }
            Operation::Delete(key) => feed_delete(hasher, ordered, sizes, key),
            Operation::CommitFloor(metadata, floor) => {
                feed_commit(hasher, ordered, sizes, metadata, floor.get());
            }
        }
    }
}

// Adds a key or a value, and tells how many bytes that are.
fn feed_field<H: Hasher, B: ByteString>(hasher: &mut H, size: Option<u32>, field: &B) -> u64
    ensures holds { (m : List ℕ) → H.holds hasher.old m
        → H.holds hasher.new (m ++ forms.field size (B.bytes field.now)) }
    ensures count { result ≡ length (forms.field size (B.bytes field.now)) }
    ensures bound { result < 2 ^ 33 }
{
    let bytes = field.as_bytes();
    match size {
        None => {
            hasher.update(&four_bytes(bytes.len() as u32));
            hasher.update(bytes);
            4 + bytes.len() as u64
        }
        Some(_) => {
            hasher.update(bytes);
            bytes.len() as u64
        }
    }
}

// Adds the mark of metadata, and the value if there is one.
fn feed_metadata<H: Hasher, B: ByteString>(
    hasher: &mut H,
    size: Option<u32>,
    metadata: &Option<B>,
) -> u64
    ensures holds { (m : List ℕ) → H.holds hasher.old m
        → H.holds hasher.new (m ++ forms.metadata_field size (option_map B.bytes metadata.now)) }
    ensures count { result ≡ length (forms.metadata_field size (option_map B.bytes metadata.now)) }
    ensures bound { result < 2 ^ 34 }
{
    match metadata {
        None => {
            hasher.update(&[0]);
            1
        }
        Some(value) => {
            hasher.update(&[1]);
            1 + feed_field(hasher, size, value)
        }
    }
}

// Adds the next key, if there is one.
fn feed_next<H: Hasher, B: ByteString>(hasher: &mut H, size: Option<u32>, next: Option<&B>) -> u64
    ensures holds { (m : List ℕ) → H.holds hasher.old m
        → H.holds hasher.new
        (m ++ forms.optional_field size (option_map (λ k. B.bytes k.now) next.entry)) }
    ensures count { result
        ≡ length (forms.optional_field size (option_map (λ k. B.bytes k.now) next.entry)) }
    ensures bound { result < 2 ^ 33 }
{
    match next {
        None => 0,
        Some(next) => feed_field(hasher, size, next),
    }
}

// Adds zeros.
fn feed_zeros<H: Hasher>(hasher: &mut H, count: u64)
    ensures { (m : List ℕ) → H.holds hasher.old m → H.holds hasher.new (m ++ replicate count 0) }
{
    for _ in 0..count {
        hasher.update(&[0]);
    }
}

// Adds what pads an operation of so many bytes.
fn feed_padding<H: Hasher>(hasher: &mut H, ordered: bool, sizes: Option<(u32, u32)>, count: u64)
    ensures { (m front : List ℕ) → length front ≡ count → H.holds hasher.old (m ++ front)
        → H.holds hasher.new (m ++ forms.padded ordered sizes front) }
{
    if let Some(sizes) = sizes {
        feed_zeros(hasher, longest(ordered, sizes).saturating_sub(count));
    }
}

// Adds an update.
fn feed_update<H: Hasher, K: ByteString, V: ByteString>(
    hasher: &mut H,
    ordered: bool,
    sizes: Option<(u32, u32)>,
    key: &K,
    value: &V,
    next: Option<&K>,
)
    ensures { (m : List ℕ) → H.holds hasher.old m
        → H.holds hasher.new (m
        ++ forms.padded ordered sizes (forms.plain sizes (model.update (K.bytes key.now)
        (V.bytes value.now) (option_map (λ k. K.bytes k.now) next.entry)))) }
{
    let count = feed_plain_update(hasher, sizes, key, value, next);
    feed_padding(hasher, ordered, sizes, count);
}

// Adds an update without padding.
fn feed_plain_update<H: Hasher, K: ByteString, V: ByteString>(
    hasher: &mut H,
    sizes: Option<(u32, u32)>,
    key: &K,
    value: &V,
    next: Option<&K>,
) -> u64
    ensures holds { (m : List ℕ) → H.holds hasher.old m
        → H.holds hasher.new (m
        ++ forms.plain sizes (model.update (K.bytes key.now) (V.bytes value.now)
        (option_map (λ k. K.bytes k.now) next.entry))) }
    ensures count { result
        ≡ length (forms.plain sizes (model.update (K.bytes key.now) (V.bytes value.now)
        (option_map (λ k. K.bytes k.now) next.entry))) }
{
    hasher.update(&[1]);
    let key = feed_field(hasher, key_size(sizes), key);
    let value = feed_field(hasher, value_size(sizes), value);
    let next = feed_next(hasher, key_size(sizes), next);
    1 + key + value + next
}

// Adds a delete.
fn feed_delete<H: Hasher, K: ByteString>(
    hasher: &mut H,
    ordered: bool,
    sizes: Option<(u32, u32)>,
    key: &K,
)
    ensures { (m : List ℕ) → H.holds hasher.old m
        → H.holds hasher.new
        (m ++ forms.padded ordered sizes (forms.plain sizes (model.delete (K.bytes key.now)))) }
{
    let count = feed_plain_delete(hasher, sizes, key);
    feed_padding(hasher, ordered, sizes, count);
}

// Adds a delete without padding.
fn feed_plain_delete<H: Hasher, K: ByteString>(
    hasher: &mut H,
    sizes: Option<(u32, u32)>,
    key: &K,
) -> u64
    ensures holds { (m : List ℕ) → H.holds hasher.old m
        → H.holds hasher.new (m ++ forms.plain sizes (model.delete (K.bytes key.now))) }
    ensures count { result ≡ length (forms.plain sizes (model.delete (K.bytes key.now))) }
{
    hasher.update(&[2]);
    1 + feed_field(hasher, key_size(sizes), key)
}

// Adds a commit.
fn feed_commit<H: Hasher, V: ByteString>(
    hasher: &mut H,
    ordered: bool,
    sizes: Option<(u32, u32)>,
    metadata: &Option<V>,
    floor: u64,
)
    ensures { (m : List ℕ) → H.holds hasher.old m
        → H.holds hasher.new (m
        ++ forms.padded ordered sizes
        (forms.plain sizes (model.commit (option_map V.bytes metadata.now) floor))) }
{
    let count = feed_plain_commit(hasher, sizes, metadata, floor);
    feed_padding(hasher, ordered, sizes, count);
}

// Adds a commit without padding.
fn feed_plain_commit<H: Hasher, V: ByteString>(
    hasher: &mut H,
    sizes: Option<(u32, u32)>,
    metadata: &Option<V>,
    floor: u64,
) -> u64
    ensures holds { (m : List ℕ) → H.holds hasher.old m
        → H.holds hasher.new
        (m ++ forms.plain sizes (model.commit (option_map V.bytes metadata.now) floor)) }
    ensures count { result
        ≡ length (forms.plain sizes (model.commit (option_map V.bytes metadata.now) floor)) }
{
    hasher.update(&[3]);
    let metadata = feed_metadata(hasher, value_size(sizes), metadata);
    hasher.update(&eight_bytes(floor));
    9 + metadata
}
