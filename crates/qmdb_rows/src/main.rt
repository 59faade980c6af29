//! Runs of the program as data: reads cases from standard input, runs the program over ports in memory in each, and
//! tells what came of it on standard output.
//!
//! A line says one thing of a case:
//!
//! | line | |
//! |---|---|
//! | `case NAME` | A case begins. Its words are `run any unordered mmr`, its input is empty, its store is empty and starts at 0, and no call fails. |
//! | `again NAME` | A case begins, with the words and the input of the last case without `keep`. |
//! | `words WORD..` | Its words are these. |
//! | `\| LINE` | Its input goes on with this line. |
//! | `hex HEX` | Its input goes on with these bytes. |
//! | `fill COUNT HEX` | Its input goes on with these bytes, so many times. |
//! | `start N` | Its store starts at N. |
//! | `head HEX` | Its store's head has these bytes. |
//! | `item HEX` | Its store has this item, after those before. All are stable. |
//! | `meta NAME` | Its store has metadata of this name. |
//! | `entry KEY VALUE` | They have an entry with this key of nine bytes and this value, both in hexadecimal digits. |
//! | `fail PORT N..` | The calls of these numbers fail, counted from 0. A port is `source`, `sink` or `store`. |
//! | `keep` | Its store is the one that the case before gave back, whose calls are counted on. |
//! | `list` | Its lines are read as a list of commands first, and the databases are unordered any ones, whatever its words are. Each line is a command, and no call of source or sink fails. |
//! | `items` | The store's items are told, too. |
//!
//! Empty lines and lines that begin with `#` say nothing.
//!
//! What is told of a case is `case NAME`, the bytes that the sink took, `status N`, then `store START COUNT` for the
//! store that the program gave back, and if they are asked for its items, each as `item HEX`.
#![tactic(auto)]

mod cases;
mod runs;

use anyhow::{Context, Result};
use qm_memory::MemStore;
use std::io::{self, BufWriter, Write};

fn main(rt: HostRuntime) -> Result<()> {
    let alloc = rt.alloc();
    let text = io::read_to_string(alloc, rt.reader())?;
    let cases = cases::parse(alloc, &text)?;
    let mut out = BufWriter::new(alloc, io::writer(&rt))?;
    let mut store = MemStore::new(alloc, Vec::new(alloc));
    for case in cases {
        store = runs::run(alloc, case, store, &mut out)?;
    }
    out.flush().context("writing the last case")
}
