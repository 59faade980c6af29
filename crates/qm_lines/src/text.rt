//! Replies as text.

ghost use Rattle.std.specs.Prelude.{◌≡◌, ◌++◌, codes, decimal, flat_map, map, IfOk, option_map};
ghost use Rattle.hex.specs.Hex.{encode_lower};
ghost use Rattle.qm_model.specs.Operations.{update};
ghost use Rattle.qm_model.specs.Refused as refusals;
ghost use Rattle.qm_base.specs.Views.{corrupt_view, tree_view, pair_view};
ghost use Rattle.qm_machine.specs.Lines as lines;
ghost use Rattle.qm_machine.specs.Text as texts;
ghost use Rattle.qm_lines.specs.Written.{Adds};
ghost use Rattle.qm_lines.specs.Views.{log_view, refused_view, answer_view};
ghost use Rattle.qm_base.specs.Listed.{listed_view, span_view, whole_view};

use crate::reply::{LogRefused, Refused, Reply};
use qm_base::{ByteString, Corrupt, Digest, Listed, Span, TreeRefused};
use std::alloc::{AllocError, Global};
use std::fmt::Write;

// A mark, and bytes in hexadecimal.
fn write_hex(out: &mut String, mark: &str, bytes: &[u8]) -> Result<(), AllocError>
    ensures { Adds out.old out.new result (mark.now ++ encode_lower bytes.now) }
{
    out.push_str(mark)?;
    let text = hex::encode(*out.allocator(), bytes)?;
    out.push_str(&text)
}

// The same, with the empty bytes as a dash.
fn write_bytes(out: &mut String, mark: &str, bytes: &[u8]) -> Result<(), AllocError>
    ensures { Adds out.old out.new result (mark.now ++ texts.hex_text bytes.now) }
{
    if bytes.is_empty() {
        out.push_str(mark)?;
        return out.push_str("-");
    }
    write_hex(out, mark, bytes)
}

// A mark, and bytes or a word for none.
fn write_optional<B: ByteString>(
    out: &mut String,
    mark: &str,
    value: &Option<B>,
) -> Result<(), AllocError>
    ensures { Adds out.old out.new result
        (mark.now ++ texts.optional_text (option_map B.bytes value.now)) }
{
    let Some(value) = value else {
        out.push_str(mark)?;
        return out.push_str("none");
    };
    write_bytes(out, mark, value.as_bytes())
}

// A mark, a key, and its value after a sign.
fn write_pair(out: &mut String, mark: &str, key: &[u8], value: &[u8]) -> Result<(), AllocError>
    ensures { Adds out.old out.new result
        (mark.now ++ (texts.hex_text key.now ++ (codes "=" ++ texts.hex_text value.now))) }
{
    write_bytes(out, mark, key)?;
    write_bytes(out, "=", value)
}

// A mark, and a number.
fn write_number(out: &mut String, mark: &str, number: u64) -> Result<(), AllocError>
    ensures { Adds out.old out.new result (mark.now ++ decimal number) }
{
    write!(out, "{mark}{number}")
}

// A name, and the numbers, each after a space.
fn write_numbers(out: &mut String, name: &str, numbers: &[u64]) -> Result<(), AllocError>
    ensures { Adds out.old out.new result
        (name.now ++ flat_map (λ n. codes " " ++ decimal n) numbers.now) }
{
    out.push_str(name)?;
    for number in numbers {
        write_number(out, " ", *number)?;
    }
    Ok(())
}

fn write_next<B: ByteString>(out: &mut String, next: &Option<B>) -> Result<(), AllocError>
    ensures { Adds out.old out.new result (texts.next_text (option_map B.bytes next.now)) }
{
    let Some(key) = next else {
        return Ok(());
    };
    write_bytes(out, ">", key.as_bytes())
}

fn write_operation<K: ByteString, V: ByteString>(
    out: &mut String,
    op: &Listed<K, V>,
) -> Result<(), AllocError>
    ensures { Adds out.old out.new result
        (texts.operation_text (listed_view K.bytes V.bytes op.now)) }
{
    match op {
        Listed::Update(key, value, next) => {
            write_pair(out, "U:", key.as_bytes(), value.as_bytes())?;
            write_next(out, next)
        }
        Listed::Delete(key) => write_bytes(out, "D:", key.as_bytes()),
        Listed::Commit(metadata, floor) => {
            write_optional(out, "C:", metadata)?;
            write_number(out, "@", *floor)
        }
    }
}

// The operations, each after a space.
fn write_operations<K: ByteString, V: ByteString>(
    out: &mut String,
    ops: &[Listed<K, V>],
) -> Result<(), AllocError>
    ensures { Adds out.old out.new result
        (texts.operations_text (map (listed_view K.bytes V.bytes) ops.now)) }
{
    for op in ops {
        out.push_str(" ")?;
        write_operation(out, op)?;
    }
    Ok(())
}

// The digests, each after a space.
fn write_digests<D: Digest>(out: &mut String, digests: &[D]) -> Result<(), AllocError>
    ensures { Adds out.old out.new result (texts.digests_text (map D.bytes digests.now)) }
{
    for digest in digests {
        write_hex(out, " ", digest.bytes())?;
    }
    Ok(())
}

fn write_tree(out: &mut String, refused: TreeRefused) -> Result<(), AllocError>
    ensures { Adds out.old out.new result
        (texts.reply_line (lines.Refuses (refusals.Merkle (tree_view refused)))) }
{
    match refused {
        TreeRefused::RangeOutOfBounds(at) => {
            write_number(out, "refused Merkle RangeOutOfBounds ", at)
        }
        TreeRefused::ElementPruned(position) => {
            write_number(out, "refused Merkle ElementPruned ", position)
        }
        TreeRefused::MissingNode(position) => {
            write_number(out, "refused Merkle MissingNode ", position)
        }
        TreeRefused::LocationOverflow(count) => {
            write_number(out, "refused Merkle LocationOverflow ", count)
        }
    }
}

fn write_log(out: &mut String, refused: LogRefused) -> Result<(), AllocError>
    ensures { Adds out.old out.new result
        (texts.reply_line (lines.Refuses (refusals.Journal (log_view refused)))) }
{
    match refused {
        LogRefused::ItemPruned(location) => {
            write_number(out, "refused Journal ItemPruned ", location)
        }
        LogRefused::ItemTooLarge(length) => {
            write_number(out, "refused Journal ItemTooLarge ", length)
        }
    }
}

fn write_corrupt(out: &mut String, corrupt: Corrupt) -> Result<(), AllocError>
    ensures { Adds out.old out.new result
        (texts.reply_line (lines.Refuses (refusals.DataCorrupted (corrupt_view corrupt)))) }
{
    out.push_str("refused DataCorrupted ")?;
    out.push_str(corrupt.text())
}

fn write_refused(out: &mut String, refused: Refused) -> Result<(), AllocError>
    ensures { Adds out.old out.new result
        (texts.reply_line (lines.Refuses (refused_view refused))) }
{
    match refused {
        Refused::NotOffered => out.push_str("refused NotOffered"),
        Refused::NoDatabase => out.push_str("refused NoDatabase"),
        Refused::NoSuchHandle(handle) => write_number(out, "refused NoSuchHandle ", handle),
        Refused::SlotCount(staged, given) => {
            write_numbers(out, "refused SlotCount", &[staged, given])
        }
        Refused::InvalidInitializationBound => out.push_str("refused InvalidInitializationBound"),
        Refused::StaleBatch => out.push_str("refused StaleBatch"),
        Refused::StaleRead => out.push_str("refused StaleRead"),
        Refused::KeyNotFound => out.push_str("refused KeyNotFound"),
        Refused::KeyExists => out.push_str("refused KeyExists"),
        Refused::OperationPruned(location) => {
            write_number(out, "refused OperationPruned ", location)
        }
        Refused::PruneBeyondMinRequired(location, boundary) => write_numbers(
            out,
            "refused PruneBeyondMinRequired",
            &[location, boundary],
        ),
        Refused::HistoricalFloorPruned(size) => {
            write_number(out, "refused HistoricalFloorPruned ", size)
        }
        Refused::DataCorrupted(corrupt) => write_corrupt(out, corrupt),
        Refused::Merkle(refused) => write_tree(out, refused),
        Refused::Journal(refused) => write_log(out, refused),
    }
}

fn write_info(out: &mut String, numbers: &[u64; 4], is_live: bool) -> Result<(), AllocError>
    ensures { Adds out.old out.new result (codes "info"
        ++ (flat_map (λ n. codes " " ++ decimal n) numbers.now
        ++ (codes " " ++ texts.live_text is_live))) }
{
    write_numbers(out, "info", numbers)?;
    out.push_str(if is_live { " live" } else { " empty" })
}

// A name, numbers, each after a space, and the verdict on a proof.
fn write_verdict(
    out: &mut String,
    name: &str,
    numbers: &[u64],
    is_accepted: bool,
) -> Result<(), AllocError>
    ensures { Adds out.old out.new result (name.now
        ++ (flat_map (λ n. codes " " ++ decimal n) numbers.now
        ++ (codes " " ++ texts.verdict_text is_accepted))) }
{
    write_numbers(out, name, numbers)?;
    out.push_str(if is_accepted { " yes" } else { " no" })
}

fn write_roots<D: Digest>(out: &mut String, root: &D, operations: &D) -> Result<(), AllocError>
    ensures { Adds out.old out.new result (codes "root "
        ++ (encode_lower (D.bytes root.now)
        ++ (codes " " ++ encode_lower (D.bytes operations.now)))) }
{
    write_hex(out, "root ", root.bytes())?;
    write_hex(out, " ", operations.bytes())
}

// A proof, and a slash before what follows it.
fn write_proof<D: Digest>(
    out: &mut String,
    leaves: u64,
    inactive: u64,
    digests: &[D],
) -> Result<(), AllocError>
    ensures { Adds out.old out.new result (codes "proof "
        ++ (decimal leaves
        ++ (codes " "
        ++ (decimal inactive ++ (texts.digests_text (map D.bytes digests.now) ++ codes " /"))))) }
{
    write_numbers(out, "proof", &[leaves, inactive])?;
    write_digests(out, digests)?;
    out.push_str(" /")
}

fn write_proved<K: ByteString, V: ByteString, D: Digest>(
    out: &mut String,
    leaves: u64,
    inactive: u64,
    digests: &[D],
    ops: &[Listed<K, V>],
) -> Result<(), AllocError>
    ensures { Adds out.old out.new result (texts.reply_line (lines.Proved
        (record { leaves = leaves; inactive = inactive; digests = map D.bytes digests.now })
        (map (listed_view K.bytes V.bytes) ops.now))) }
{
    write_proof(out, leaves, inactive, digests)?;
    write_operations(out, ops)
}

fn write_batch_proof<D: Digest>(
    out: &mut String,
    leaves: u64,
    inactive: u64,
    digests: &[D],
    pins: &[D],
) -> Result<(), AllocError>
    ensures { Adds out.old out.new result (texts.reply_line (lines.BatchProved
        (record { leaves = leaves; inactive = inactive; digests = map D.bytes digests.now })
        (map D.bytes pins.now))) }
{
    write_proof(out, leaves, inactive, digests)?;
    write_digests(out, pins)
}

fn write_listed<K: ByteString, V: ByteString>(
    out: &mut String,
    base: u64,
    ops: &[Listed<K, V>],
) -> Result<(), AllocError>
    ensures { Adds out.old out.new result
        (texts.reply_line (lines.Listed base (map (listed_view K.bytes V.bytes) ops.now))) }
{
    write_number(out, "ops ", base)?;
    write_operations(out, ops)
}

// What was read, each after a space.
fn write_values<V: ByteString>(out: &mut String, values: &[Option<V>]) -> Result<(), AllocError>
    ensures { Adds out.old out.new result
        (texts.values_text (map (option_map V.bytes) values.now)) }
{
    for value in values {
        write_optional(out, " ", value)?;
    }
    Ok(())
}

fn write_read<V: ByteString>(out: &mut String, values: &[Option<V>]) -> Result<(), AllocError>
    ensures { Adds out.old out.new result
        (texts.reply_line (lines.Read (map (option_map V.bytes) values.now))) }
{
    out.push_str("read")?;
    write_values(out, values)
}

fn write_expanded<V: ByteString>(
    out: &mut String,
    first: u64,
    end: u64,
    values: &[Option<V>],
) -> Result<(), AllocError>
    ensures { Adds out.old out.new result
        (texts.reply_line (lines.Expanded first end (map (option_map V.bytes) values.now))) }
{
    write_numbers(out, "read", &[first, end])?;
    write_values(out, values)
}

// The neighbour of a key, if there is one.
fn write_neighbour<K: ByteString>(out: &mut String, key: &Option<K>) -> Result<(), AllocError>
    ensures { Adds out.old out.new result (texts.neighbour_text (option_map K.bytes key.now)) }
{
    let Some(key) = key else {
        return out.push_str("none");
    };
    write_bytes(out, "key ", key.as_bytes())
}

// The live update whose span holds a key, if there is one: its location, key, value and next key.
fn write_span<K: ByteString, V: ByteString>(
    out: &mut String,
    span: &Option<Span<K, V>>,
) -> Result<(), AllocError>
    ensures { Adds out.old out.new result
        (texts.spanning_text (option_map (span_view K.bytes V.bytes) span.now)) }
{
    let Some(span) = span else {
        return out.push_str("none");
    };
    write_number(out, "span ", span.location)?;
    write_bytes(out, " ", span.key.as_bytes())?;
    write_bytes(out, " ", span.value.as_bytes())?;
    write_bytes(out, " ", span.next.as_bytes())
}

// A value and the next key, if the key is live.
fn write_whole<K: ByteString, V: ByteString>(
    out: &mut String,
    whole: &Option<(V, K)>,
) -> Result<(), AllocError>
    ensures { Adds out.old out.new result
        (texts.whole_text (option_map (whole_view K.bytes V.bytes) whole.now)) }
{
    let Some((value, next)) = whole else {
        return out.push_str("none");
    };
    write_bytes(out, "all ", value.as_bytes())?;
    write_bytes(out, " ", next.as_bytes())
}

// A name, and keys with their values, each after a space.
fn write_pairs<K: ByteString, V: ByteString>(
    out: &mut String,
    name: &str,
    pairs: &[(K, V)],
) -> Result<(), AllocError>
    ensures { Adds out.old out.new result
        (name.now ++ texts.pairs_text (map (pair_view K.bytes V.bytes) pairs.now)) }
{
    out.push_str(name)?;
    for (key, value) in pairs {
        write_pair(out, " ", key.as_bytes(), value.as_bytes())?;
    }
    Ok(())
}

// Keys, each after a space.
fn write_keys<K: ByteString>(out: &mut String, keys: &[K]) -> Result<(), AllocError>
    ensures { Adds out.old out.new result (texts.reply_line (lines.Keyed (map K.bytes keys.now))) }
{
    out.push_str("keys")?;
    for key in keys {
        write_bytes(out, " ", key.as_bytes())?;
    }
    Ok(())
}

fn write_pins<D: Digest>(out: &mut String, digests: &[D]) -> Result<(), AllocError>
    ensures { Adds out.old out.new result
        (texts.reply_line (lines.Pinned (map D.bytes digests.now))) }
{
    out.push_str("pins")?;
    write_digests(out, digests)
}

fn write_line<K: ByteString, V: ByteString, D: Digest>(
    out: &mut String,
    reply: &Reply<K, V, D>,
) -> Result<(), AllocError>
    ensures { Adds out.old out.new result
        (texts.reply_line (answer_view K.bytes V.bytes D.bytes reply.now)) }
{
    match reply {
        Reply::Opened(opening, start, size) => write_numbers(
            out,
            "open",
            &[*opening, *start, *size],
        ),
        Reply::Batch(handle) => write_number(out, "batch ", *handle),
        Reply::Done => out.push_str("ok"),
        Reply::Merkleized(handle, base, size, floor) => {
            write_numbers(out, "merkleized", &[*handle, *base, *size, *floor])
        }
        Reply::Applied(size) => write_number(out, "applied ", *size),
        Reply::Ops(base, ops) => write_listed(out, *base, ops),
        Reply::Evicted(pairs) => write_pairs(out, "evicted", pairs),
        Reply::Read(values) => write_read(out, values),
        Reply::Expanded(first, end, values) => write_expanded(out, *first, *end, values),
        Reply::Neighbour(key) => write_neighbour(out, key),
        Reply::Span(span) => write_span(out, span),
        Reply::All(whole) => write_whole(out, whole),
        Reply::Range(pairs) => write_pairs(out, "range", pairs),
        Reply::Keys(keys) => write_keys(out, keys),
        Reply::Info(start, size, floor, boundary, is_live) => {
            write_info(out, &[*start, *size, *floor, *boundary], *is_live)
        }
        Reply::BatchInfo(base, size, floor, boundary) => {
            write_numbers(out, "info", &[*base, *size, *floor, *boundary])
        }
        Reply::Root(root, operations) => write_roots(out, root, operations),
        Reply::Meta(metadata) => write_optional(out, "meta ", metadata),
        Reply::Proof(leaves, inactive, digests, ops) => {
            write_proved(out, *leaves, *inactive, digests, ops)
        }
        Reply::BatchProof(leaves, inactive, digests, pins) => {
            write_batch_proof(out, *leaves, *inactive, digests, pins)
        }
        Reply::Pins(digests) => write_pins(out, digests),
        Reply::Held(location, is_accepted) => {
            write_verdict(out, "held", &[*location], *is_accepted)
        }
        Reply::Absent(location, is_accepted) => {
            write_verdict(out, "absent", &[*location], *is_accepted)
        }
        Reply::Chunks(operations, chunks, is_accepted) => {
            write_verdict(out, "chunks", &[*operations, *chunks], *is_accepted)
        }
        Reply::Witness(is_accepted) => write_verdict(out, "witness", &[], *is_accepted),
        Reply::Refused(refused) => write_refused(out, *refused),
    }
}

/// The text of a reply, without a line feed. Want of memory is the only error.
pub fn reply_text<K: ByteString, V: ByteString, D: Digest>(
    alloc: Global,
    reply: &Reply<K, V, D>,
) -> Result<Vec<u8>, AllocError>
    ensures { IfOk result (λ text.
        text.items ≡ texts.reply_line (answer_view K.bytes V.bytes D.bytes reply.now)) }
{
    let mut out = String::new(alloc);
    write_line(&mut out, reply)?;
    Ok(out.into_bytes())
}
