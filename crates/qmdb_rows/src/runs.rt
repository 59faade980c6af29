// Runs of cases.
use crate::cases::{Case, END, NewStore, StoreOf};
use anyhow::{Context, Result, bail};
use qm_base::{ByteKey, ByteValue, OpenGate};
use qm_lines::{AnyPolicy, Command, MemSink, MemSource, next_line, parse_line, reply_text};
use qm_memory::MemStore;
use qm_run::{End, Replies, qmdb_main, run_commands};
use qm_store::Store;
use std::alloc::Global;
use std::io::Write;

// What came of a case.
#[derive(Drop)]
struct Outcome {
    name: String,
    status: u8,
    text: Vec<u8>,
    store: MemStore,
    tells_items: bool,
}

/// Runs a case, tells what came of it, and gives back the store. `kept` is that of the case before.
pub fn run<W: Write>(alloc: Global, case: Case, kept: MemStore, out: &mut W) -> Result<MemStore> {
    let ran = ran(alloc, case, kept)?;
    tell(&ran, out)?;
    Ok(ran.store)
}

fn ran(alloc: Global, case: Case, kept: MemStore) -> Result<Outcome> {
    let Case {
        name,
        words,
        input,
        source_fails,
        sink_fails,
        store,
        is_list,
        tells_items,
    } = case;
    let store = match store {
        StoreOf::Kept => kept,
        StoreOf::New(store) => new_store(alloc, store)?,
    };
    let (status, text, store) = if is_list {
        of_list(alloc, &input, store)?
    } else {
        let mut source = MemSource::new(input, source_fails);
        let mut sink = MemSink::new(alloc, sink_fails);
        let (status, store) = qmdb_main(alloc, &words, store, &mut source, &mut sink, &OpenGate);
        let mut text = Vec::new(alloc);
        text.extend_from_slice(sink.bytes())?;
        (status, text, store)
    };
    Ok(Outcome {
        name,
        status,
        text,
        store,
        tells_items,
    })
}

// A run of a list of commands: its status is that of the program which ends so.
fn of_list(alloc: Global, input: &[u8], store: MemStore) -> Result<(u8, Vec<u8>, MemStore)> {
    let commands = listed(alloc, input)?;
    let Replies {
        replies,
        end,
        store,
    } = run_commands(alloc, store, &commands, &OpenGate);
    let mut text = Vec::new(alloc);
    for reply in &replies {
        text.extend_from_slice(&reply_text(alloc, reply)?)?;
        text.push(b'\n')?;
    }
    let status = match end {
        End::Done => 0,
        End::Memory => 5,
        End::StoreFault => 6,
    };
    Ok((status, text, store))
}

// The commands of an input's lines.
fn listed(alloc: Global, input: &[u8]) -> Result<Vec<Command<ByteKey, ByteValue, AnyPolicy>>> {
    let mut commands = Vec::new(alloc);
    let mut rest = input;
    // Each line but the last has a byte that ends it.
    for _ in 0..input.len() {
        let Some((line, after)) = next_line(rest) else {
            break;
        };
        let command = parse_line(alloc, line)?.context("no command")?;
        commands.push(command)?;
        rest = after;
    }
    Ok(commands)
}

fn new_store(alloc: Global, store: NewStore) -> Result<MemStore> {
    let NewStore {
        start,
        head,
        items,
        metadata,
        fails,
    } = store;
    match start.checked_add(items.len() as u64) {
        Some(end) if end <= END => Ok(MemStore::of(alloc, start, head, &items, metadata, fails)?),
        _ => bail!("items past {END}"),
    }
}

fn tell<W: Write>(ran: &Outcome, out: &mut W) -> Result<()> {
    writeln!(out, "case {}", ran.name)?;
    out.write_all(&ran.text)?;
    writeln!(out, "status {}", ran.status)?;
    tell_store(&ran.store, ran.tells_items, out)
}

fn tell_store<W: Write>(store: &MemStore, tells_items: bool, out: &mut W) -> Result<()> {
    let (start, _) = store.bounds();
    writeln!(out, "store {start} {}", store.len())?;
    if tells_items {
        for at in 0..store.len() {
            tell_item(store.item(at), out)?;
        }
    }
    Ok(())
}

fn tell_item<W: Write>(item: &[u8], out: &mut W) -> Result<()> {
    write!(out, "item ")?;
    for byte in item {
        write!(out, "{byte:02x}")?;
    }
    writeln!(out)?;
    Ok(())
}
