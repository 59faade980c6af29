//! `qmdb run (any|current) (unordered|ordered) (mmr|mmb)`: the lines of standard input over the files of a folder, the replies on standard
//! output. `qmdb fill seed n` and then the words that follow `run`: a large run that is computed from a number, and its summary.
//! `qmdb check (mmr|mmb) root (held key value|absent key)`: whether the proof on standard input shows that.
#![tactic(auto)]

ghost use Rattle.std.specs.Prelude.{◌≡◌, ◌⊎◌, IfErr};

use qm_base::OpenGate;
use qm_files::{FileStore, Trouble};
use qm_lines::{StdSink, StdSource};
use qm_run::{are_words, qmdb_main};
use std::fs::File;
use std::io::ErrorKind;
use std::os::fd::AsRawFd;
use std::process::ExitCode;
use std::rt::{Env, Files};
use std::{env, fs, io};

const HELP: &str = "usage: qmdb run (any|current) (unordered|ordered) (mmr|mmb)
       qmdb fill seed n (any|current) (unordered|ordered) (mmr|mmb)
       qmdb check (mmr|mmb) root (held key value|absent key)
       qmdb --help | --version

Run reads the commands of standard input, one a line, runs them over the store in the folder qmdb-data, and writes a reply line for each.

Fill reads no input. It runs n rounds over that store, each a batch of eight puts and dels that are computed from the seed, then
makes the store last, opens it again and destroys it. It writes how many commands there were and how many were refused, and then the
replies to info and to root. seed is a number up to 4294967295, n one from 1 to 10000.

Check reads a proof in hexadecimal digits from standard input, and writes whether it shows that key has value, or that it has none, in
a current database with this root, over trees mmr or mmb: yes, no, or no proof. It needs no store.

line, reply, and an example: a line and what it was answered
  open [max=n]                         open i start size                      open => open 1 0 1
  batch                                batch h                                batch => batch 1
  child h [keep=n]                     batch h                                child 1 keep=0 => batch 2
  tip                                  batch h                                tip => batch 3
  put h key value                      ok                                     put 1 61 01 => ok
  del h key                            ok                                     del 1 62 => ok
  merkleize h policy meta              merkleized h base size floor           merkleize 1 hold aa => merkleized 1 1 4 0
  stage h key ..                       read value ..                          stage 4 61 => read 01
  expand h key ..                      read a b value ..                      expand 4 63 61 => read 1 3 03 01
  resolve h policy meta [slot ..] [write ..]
                                       merkleized h base size floor           resolve 4 prop none put:05 keep keep 62=02 => merkleized 4 4 9 5
  apply h                              applied size                           apply 1 => applied 4
  ops h                                ops base op ..                         ops 1 => ops 1 U:61=01>63 U:63=03>61 C:aa@0
  evicted h                            evicted key=value ..                   evicted 1 => evicted
  get key [from=h]                     read value                             get 61 => read 01
  many key .. [from=h]                 read value ..                          many 61 62 from=1 => read 01 none
  next key [from=h]                    key k, or none                         next 61 => key 63
  prev key [from=h]                    key k, or none                         prev 63 => key 61
  span key                             span location key value next, or none  span 62 => span 1 61 01 63
  all key                              all value next, or none                all 63 => all 03 61
  range lo hi                          range key=value ..                     range [61 63) => range 61=01
  keys lo hi                           keys key ..                            keys * * => keys 61 63
  info                                 info start size floor boundary live    info => info 0 4 0 0 live
  info h                               info base size floor boundary          info 1 => info 1 4 0 0
  root [h]                             root r o                               root => root bd789207.. bd789207..
  proof h                              proof leaves inactive d .. / d ..      proof 1 => proof 4 0 6e290ec1.. / 6e290ec1..
  meta                                 meta value                             meta => meta aa
  prove size start max                 proof leaves inactive d .. / op ..     prove 4 3 1 => proof 4 0 8ec48d34.. 040ae6f3.. / C:aa@0
  pins n                               pins d ..                              pins 0 => pins
  held key                             held location verdict                  held 61 => held 1 yes
  absent key                           absent location verdict                absent 62 => absent 1 yes
  chunks start max                     chunks count chunks verdict            chunks 0 9 => chunks 4 1 yes
  witness                              witness verdict                        witness => witness yes
  prune n                              ok                                     prune 0 => ok
  commit, sync                         ok                                     commit => ok
  crash n                              ok                                     crash 0 => ok
  close, destroy                       ok                                     close => ok

h is the number of a batch; sizes, locations and n are decimal numbers; key is 2 to 64 hexadecimal digits, value 2 to 128 of them or -
for the empty one, meta none or a value. lo is *, [key or (key, hi is *, key] or key). A slot is keep, del or put:value, a write key=value
or key=none. policy is prop, hold, bounded:entries:skips, or rule:entries:skips with any of :drop=value, :stop=value, :swap=value>value, :spare=n.
next, prev, span, all, range and keys are lines of ordered databases, proof h of any ones, held, chunks and witness of current ones, absent of
those that are ordered too: each makes a proof and checks it against the root, and a verdict is yes or no.
A refused command is answered with refused and why.
Statuses: 0 all answered, 1 other words, 2 a bad line (of a run) or no proof (for a check), 3 and 4 the input or the output failed, 5 no memory, 6 the store failed, 7 too long.";

const VERSION: &str = "qmdb 0.1.0";

/// Where the store's files are, in the folder that the program is run in.
const FOLDER: &str = "qmdb-data";

const OTHER_WORDS: u8 = 1;

const NOT_READ: u8 = 3;

const NOT_WRITTEN: u8 = 4;

const NO_MEMORY: u8 = 5;

const STORE_FAILED: u8 = 6;

// The words after the program's name, or the status to end with. Words that are no UTF-8 are other words.
fn words<R: Env + AllocGlobal>(rt: &R) -> Result<Vec<String>, u8>
    ensures { IfErr result (λ status. (status ≡ OTHER_WORDS) ⊎ (status ≡ NO_MEMORY)) }
{
    let all = env::args(rt).map_err(|error| match error.kind() {
        ErrorKind::OutOfMemory => NO_MEMORY,
        _ => OTHER_WORDS,
    })?;
    all.skip(1).collect(rt.alloc()).map_err(|_| NO_MEMORY)
}

// What a question about the program itself is answered.
fn answer(words: &[String]) -> Option<&'static str> {
    match words {
        [word] if word.as_str() == "--help" => Some(HELP),
        [word] if word.as_str() == "--version" => Some(VERSION),
        _ => None,
    }
}

// What a status other than 0 says.
fn reason(status: u8) -> &'static str {
    match status {
        OTHER_WORDS => "unknown arguments; qmdb --help tells which there are",
        2 => "bad line, whose number the last line of the output has, or no proof",
        NOT_READ => "the input cannot be read",
        NOT_WRITTEN => "the output cannot be written",
        NO_MEMORY => "out of memory",
        STORE_FAILED => "the store failed; the output has the replies before it",
        _ => "the input is longer than 16,777,216 bytes",
    }
}

// Whether such words are those of a run or of a check, which read standard input.
fn reads_input(words: &[String]) -> bool {
    !words.is_empty() && (words[0].as_str() == "run" || words[0].as_str() == "check")
}

// What stands in the place of a standard stream that is closed, so that no file of the store does, and the status to end with where
// that is the input or the output. A folder can be neither read nor written as a stream.
fn closed_stream<R: Files<File = File>>(rt: &R) -> (Option<File>, Option<u8>) {
    let Ok(first) = fs::open(rt, "/") else {
        return (None, Some(STORE_FAILED));
    };
    match first.as_raw_fd() {
        0 => (Some(first), Some(NOT_READ)),
        1 => (Some(first), Some(NOT_WRITTEN)),
        2 => (Some(first), None),
        _ => (None, None),
    }
}

// Says what is known of a store that is broken, and of which file of metadata.
fn tell<R: Eprint>(rt: &R, trouble: Trouble, damaged: &str) {
    let _ = match trouble {
        Trouble::Unknown => Ok(()),
        Trouble::InUse => eprintln!(rt; "qmdb: {FOLDER} is in use"),
        Trouble::LogIsMissing => eprintln!(rt; "qmdb: {FOLDER}/log is missing"),
        Trouble::Sums => eprintln!(rt; "qmdb: {FOLDER}/sums is not what was written"),
        Trouble::LogIsShort(end) => eprintln!(rt;
            "qmdb: {FOLDER}/log ends before byte {end}, up to which it was committed"
        ),
        Trouble::LogDiffers(from, to) => eprintln!(rt;
            "qmdb: {FOLDER}/log: from byte {from} to {to} something is not what was written"
        ),
        Trouble::Metadata => eprintln!(rt;
            "qmdb: {FOLDER}/{damaged}: from byte 0 to its end something is not what was written"
        ),
        Trouble::NotStable => eprintln!(rt;
            "qmdb: {FOLDER}: a sync failed, or a file could not be put in its place"
        ),
    };
}

// Says on standard error why a status is not 0. If that can not be said the status is the same.
fn ended<R: Eprint>(rt: &R, status: u8) -> ExitCode {
    if status != 0 {
        let _ = eprintln!(rt; "qmdb: {}", reason(status));
    }
    ExitCode::from(status)
}

fn main(rt: HostRuntime) -> ExitCode {
    let alloc = rt.alloc();
    let words = match words(&rt) {
        Ok(words) => words,
        Err(status) => return ended(&rt, status),
    };
    if let Some(text) = answer(&words) {
        let status = rt.println(text).map_or(NOT_WRITTEN, |()| 0);
        return ended(&rt, status);
    }
    if !are_words(&words) {
        return ended(&rt, OTHER_WORDS);
    }
    let (kept, status) = closed_stream(&rt);
    // A fill runs with its input closed, if its output is not.
    let (kept_too, status) = match status {
        Some(code) if code == NOT_READ && !reads_input(&words) => closed_stream(&rt),
        _ => (None, status),
    };
    if let Some(status) = status {
        return ended(&rt, status);
    }
    let mut source = StdSource::new(rt.reader());
    let mut sink = StdSink::new(io::writer(&rt));
    let Ok(store) = FileStore::open(&rt, alloc, FOLDER) else {
        return ended(&rt, NO_MEMORY);
    };
    let (status, store) = qmdb_main(alloc, &words, store, &mut source, &mut sink, &OpenGate);
    if status == STORE_FAILED {
        tell(&rt, store.trouble(), store.damaged().unwrap_or(""));
    }
    drop(kept_too);
    drop(kept);
    ended(&rt, status)
}
