//! Checks of proofs as data: reads rows from standard input, checks the proof of each against the root that it names, as whoever
//! has that root alone would, and tells on standard output whether the proof shows what the row claims.
//!
//! A line is a row: its name, `: `, and a check, whose words stand after one space each:
//!
//! | check | claims of the list of that root |
//! |---|---|
//! | `held-unordered ROOT KEY VALUE PROOF` | The key has the value, in an unordered database. |
//! | `held-ordered ROOT KEY VALUE NEXT PROOF` | The key has the value and this next key, in an ordered one. |
//! | `absent-update ROOT KEY BEFORE VALUE NEXT PROOF` | The key has no value, since it lies between a key and its next one. |
//! | `absent-commit ROOT KEY METADATA PROOF` | The key has no value, since a commit at its own floor is active. |
//! | `range ROOT START ITEMS CHUNKS RANGE` | These operations, spelled, stand from START on, and the chunks of their locations are these. |
//! | `witness ROOT OPS GRAFTED PENDING BITS PARTIAL` | The operations root is this one. |
//!
//! PROOF is `LOCATION CHUNK RANGE`, and RANGE is `LEAVES INACTIVE DIGESTS PENDING PARTIAL OPS`. Numbers are decimal, all else is
//! hexadecimal. ITEMS, CHUNKS and DIGESTS are lists with commas between. A list of none and no bytes at all are `-`. PENDING,
//! PARTIAL and METADATA are `none` where there is none; of a witness without a partial chunk BITS says nothing.
//!
//! Empty lines and lines that begin with `#` say nothing. What is told of a row is its name, `: `, and `yes` or `no`. A line that
//! is no row ends the program with an error.
//!
//! Trees are mountain ranges over SHA-256, chunks have 32 bytes, and keys and values have their lengths before them, as in the
//! program's databases.
#![tactic(auto)]

mod checks;
mod words;

use anyhow::{Context, Result};
use std::alloc::Global;
use std::io::{self, BufWriter, Write};

fn main(rt: HostRuntime) -> Result<()> {
    let alloc = rt.alloc();
    let text = io::read_to_string(alloc, rt.reader())?;
    let mut out = BufWriter::new(alloc, io::writer(&rt))?;
    for (at, line) in text.lines().enumerate() {
        tell(alloc, line, &mut out).context(format_args!("line {}", at + 1))?;
    }
    out.flush().context("writing the last row")
}

// Tells what comes of the row of a line, if that has one.
fn tell<W: Write>(alloc: Global, line: &str, out: &mut W) -> Result<()> {
    if line.is_empty() || line.starts_with('#') {
        return Ok(());
    }
    let (name, check) = line.split_once(": ").context("no name")?;
    let answer = if checks::is_shown(alloc, check)? {
        "yes"
    } else {
        "no"
    };
    writeln!(out, "{name}: {answer}")?;
    Ok(())
}
