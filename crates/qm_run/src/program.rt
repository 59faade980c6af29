//! The program's top call.

ghost use Rattle.std.specs.Prelude.{List, ◌≡◌, ◌≢◌, ◌↔◌, ◌≤◌, ◌<◌, ◌+◌, ◌++◌, ◌^◌, ◌⊎◌, ℕ, false, true, Some, None, IfOk, IfSome, IsSome, ◌&&◌, if◌then◌else◌, codes, length, map, bytes_eq, Contains};
ghost use Rattle.std.specs.Io.KnownBytes.{IsAtEnd};
ghost use Rattle.std.specs.String.{string_bytes};
ghost use Rattle.qm_model.specs.Causes.{Rose};
ghost use Rattle.qm_model.specs.Operations.{Bytes};
ghost use Rattle.qm_machine.specs.Grammar.{bad_in, commands_in};
ghost use Rattle.qm_machine.specs.Lines.{Destroy};
ghost use Rattle.qm_model.specs.StoreModel.{Turns};
ghost use Rattle.qm_engine.specs.Stores.{HasEnds};
ghost use Rattle.qm_model.specs.Schemes.{chunks_of};
ghost use Rattle.qm_model.specs.Mmb as delayed;
ghost use Rattle.qm_model.specs.Mmr as ranges;
ghost use Rattle.qm_run.specs.Schemes.{current, scheme};
ghost use Rattle.qm_run.specs.Program.{runs_or_fills, is_run, is_fill, family_word, order_word, tree_word, kind_named, kind_of_four, kind_of_words, kind_of_databases, fill_words, machine_of, machine_over, scheme_of, chunks_named, MayDestroy, Says, bad_text};
ghost use Rattle.qm_filling.specs.Says as filled;
ghost use Rattle.qm_run.specs.Endings.{tail_text, tail_status};

use crate::fills::fill_by;
use crate::kind::{Kind, Link, Named, OrderedPlaces, Pair, Places};
use crate::{any, current_mmb, current_mmr};
use qm_any::Config;
use qm_base::{ByteKey, ByteValue, Gate, Location};
use qm_current::Absences;
use qm_engine::{Answered, Answering, Ending, answer_lines};
use qm_fill::{Fill, parse_words};
use qm_index::{Factory, FourCap};
use qm_lines::{InputError, LIMIT, Sink, SinkError, Source, read_all, write_all};
use qm_merkle::{Family, mmb, mmr};
use qm_store::Store;
use std::alloc::{AllocError, Global};
use std::num::NonZeroUsize;

// Whether the word names current databases.
fn family_named(word: &str) -> Option<bool>
    ensures { result ≡ family_word word.now }
{
    if word == "any" {
        Some(false)
    } else if word == "current" {
        Some(true)
    } else {
        None
    }
}

// Whether the word names ordered databases.
fn order_named(word: &str) -> Option<bool>
    ensures { result ≡ order_word word.now }
{
    if word == "unordered" {
        Some(false)
    } else if word == "ordered" {
        Some(true)
    } else {
        None
    }
}

// Whether the word names trees whose merges are delayed.
fn trees_named(word: &str) -> Option<bool>
    ensures { result ≡ tree_word word.now }
{
    if word == "mmr" {
        Some(false)
    } else if word == "mmb" {
        Some(true)
    } else {
        None
    }
}

// Which databases the words name.
fn named_by(family: &str, order: &str, trees: &str) -> Option<Named>
    ensures { result ≡ kind_named family.now order.now trees.now }
{
    Some(Named {
        is_current: family_named(family)?,
        is_ordered: order_named(order)?,
        is_delayed: trees_named(trees)?,
    })
}

fn kind_of_four(a: &str, b: &str, c: &str, d: &str) -> Option<Named>
    ensures { result ≡ kind_of_four a.now b.now c.now d.now }
{
    if a == "run" { named_by(b, c, d) } else { None }
}

// Which databases the words of a command line are for.
fn kind_from(words: &[String]) -> Option<Named>
    ensures { result ≡ kind_of_words (map string_bytes words.now) }
{
    if words.len() == 4 {
        kind_of_four(
            words[0].as_str(),
            words[1].as_str(),
            words[2].as_str(),
            words[3].as_str(),
        )
    } else {
        None
    }
}

// Which databases the words are for that follow those of a fill.
fn databases_from(words: &[String]) -> Option<Named>
    ensures { result ≡ kind_of_databases (map string_bytes words.now) }
{
    if words.len() == 3 {
        named_by(words[0].as_str(), words[1].as_str(), words[2].as_str())
    } else {
        None
    }
}

// Which fill the words of a command line are for, and by which databases.
fn fill_from(words: &[String]) -> Option<(Fill, Named)>
    ensures { result ≡ fill_words (map string_bytes words.now) }
{
    let (fill, databases) = parse_words(words)?;
    let named = databases_from(databases)?;
    Some((fill, named))
}

fn bad_line_text(alloc: Global, number: u64) -> Result<String, AllocError>
    ensures { IfOk result (λ text. string_bytes text ≡ bad_text number) }
{
    format!(in alloc; "bad line {number}\n")
}

// What follows the answers, of which there are so many.
fn tail(alloc: Global, ending: Ending, answered: u64) -> Result<String, AllocError>
    requires { answered + 1 < 2 ^ 64 }
    ensures { IfOk result (λ text. string_bytes text ≡ tail_text ending answered) }
{
    match ending {
        Ending::Done | Ending::Memory => Ok(String::new(alloc)),
        Ending::BadLine => bad_line_text(alloc, answered + 1),
        Ending::StoreFault => String::from_str(alloc, "store fault\n"),
    }
}

fn status_of(ending: Ending) -> u8
    ensures { result ≡ tail_status ending }
{
    match ending {
        Ending::Done => 0,
        Ending::BadLine => 2,
        Ending::Memory => 5,
        Ending::StoreFault => 6,
    }
}

// The answers and what follows them.
fn with_tail(
    alloc: Global,
    mut text: Vec<u8>,
    ending: Ending,
    answered: u64,
) -> Result<Vec<u8>, AllocError>
    requires { answered + 1 < 2 ^ 64 }
    ensures { IfOk result (λ whole. whole.items ≡ text.items ++ tail_text ending answered) }
{
    let tail = tail(alloc, ending, answered)?;
    text.extend_from_slice(tail.as_bytes())?;
    Ok(text)
}

// How the program opens its databases. An opening keeps 4,096 keys at most, to tell those with the same index key apart.
pub(crate) fn opening() -> Config<FourCap, ()> {
    let kept = match NonZeroUsize::new(4096) {
        Some(count) => count,
        None => NonZeroUsize::MIN,
    };
    Config {
        translator: FourCap,
        init_cache: kept,
        init_concurrency: (),
    }
}

// Answers the lines of an input by databases of this kind, and writes the text.
fn serve<
    X: Answering<C, Key = ByteKey, Value = ByteValue, Opening = Config<FourCap, ()>>,
    C: Store,
    K: Sink,
    G: Gate,
>(alloc: Global, input: &[u8], store: C, sink: &mut K, gate: &G) -> (u8, C)
    ensures headline { IfSome (C.told store) (λ stored. IfSome (K.text sink.old)
        (λ before. (written : Bytes) × (K.text sink.new ≡ Some (before ++ written))
        × Says X.scheme stored input.now result.0
        (Rose (C.faults store) (C.faults result.1)) written (C.told result.1))) }
    ensures ends { (choices : List ℕ)
        × Turns (C.told store) (C.told result.1)
        (HasEnds (chunks_of X.scheme) (Contains (commands_in input.now) Destroy) choices) }
    ensures write { result.0 ≡ 4 → Rose (K.faults sink.old) (K.faults sink.new) }
    ensures store { result.0 ≡ 6 → Rose (C.faults store) (C.faults result.1) }
    ensures codes { (result.0 ≡ 0)
        ⊎ ((result.0 ≡ 2) ⊎ ((result.0 ≡ 4) ⊎ ((result.0 ≡ 5) ⊎ (result.0 ≡ 6)))) }
    ensures bad { result.0 ≡ 2 → IsSome (bad_in input.now) }
    ensures good { result.0 ≡ 0 → bad_in input.now ≡ None }
    ensures later { (K.faults sink.old ≤ K.faults sink.new) × (C.faults store ≤ C.faults result.1) }
{
    let Answered {
        text,
        answered,
        ending,
        store,
    } = answer_lines::<X, C, G>(alloc, store, opening(), input, gate);
    let text = match with_tail(alloc, text, ending, answered) {
        Ok(text) => text,
        Err(_) => return (5, store),
    };
    match write_all(sink, &text) {
        Ok(()) => (status_of(ending), store),
        Err(SinkError::Failed) => (4, store),
        Err(SinkError::Memory) => (5, store),
    }
}

// The same by any databases over this index and these updates.
fn serve_any<
    F: Family,
    C: Store + Drop,
    I: Factory<Value = Location<F>, Translator = FourCap> + Drop,
    U: Kind<F, I, Key = ByteKey, Value = ByteValue>,
    K: Sink,
    G: Gate,
>(alloc: Global, input: &[u8], store: C, sink: &mut K, gate: &G) -> (u8, C)
    ensures headline { IfSome (C.told store) (λ stored. IfSome (K.text sink.old)
        (λ before. (written : Bytes) × (K.text sink.new ≡ Some (before ++ written))
        × Says (scheme F.shape U.form) stored input.now result.0
        (Rose (C.faults store) (C.faults result.1)) written (C.told result.1))) }
    ensures ends { (choices : List ℕ)
        × Turns (C.told store) (C.told result.1)
        (HasEnds (chunks_of (scheme F.shape U.form)) (Contains (commands_in input.now) Destroy)
        choices) }
    ensures write { result.0 ≡ 4 → Rose (K.faults sink.old) (K.faults sink.new) }
    ensures store { result.0 ≡ 6 → Rose (C.faults store) (C.faults result.1) }
    ensures codes { (result.0 ≡ 0)
        ⊎ ((result.0 ≡ 2) ⊎ ((result.0 ≡ 4) ⊎ ((result.0 ≡ 5) ⊎ (result.0 ≡ 6)))) }
    ensures bad { result.0 ≡ 2 → IsSome (bad_in input.now) }
    ensures good { result.0 ≡ 0 → bad_in input.now ≡ None }
    ensures later { (K.faults sink.old ≤ K.faults sink.new) × (C.faults store ≤ C.faults result.1) }
{
    serve::<any::Database<F, C, I, U>, C, K, G>(alloc, input, store, sink, gate)
}

// The same by current databases of mountain ranges over this index and these updates.
fn serve_current_mmr<
    C: Store + Drop,
    I: Factory<Value = Location<mmr::Family>, Translator = FourCap> + Drop,
    U: Kind<mmr::Family, I, Key = ByteKey, Value = ByteValue> + Absences<mmr::Family, I>,
    K: Sink,
    G: Gate,
>(alloc: Global, input: &[u8], store: C, sink: &mut K, gate: &G) -> (u8, C)
    ensures headline { IfSome (C.told store) (λ stored. IfSome (K.text sink.old)
        (λ before. (written : Bytes) × (K.text sink.new ≡ Some (before ++ written))
        × Says (current ranges.mmr U.form) stored input.now result.0
        (Rose (C.faults store) (C.faults result.1)) written (C.told result.1))) }
    ensures ends { (choices : List ℕ)
        × Turns (C.told store) (C.told result.1)
        (HasEnds (chunks_of (current ranges.mmr U.form)) (Contains (commands_in input.now) Destroy)
        choices) }
    ensures write { result.0 ≡ 4 → Rose (K.faults sink.old) (K.faults sink.new) }
    ensures store { result.0 ≡ 6 → Rose (C.faults store) (C.faults result.1) }
    ensures codes { (result.0 ≡ 0)
        ⊎ ((result.0 ≡ 2) ⊎ ((result.0 ≡ 4) ⊎ ((result.0 ≡ 5) ⊎ (result.0 ≡ 6)))) }
    ensures bad { result.0 ≡ 2 → IsSome (bad_in input.now) }
    ensures good { result.0 ≡ 0 → bad_in input.now ≡ None }
    ensures later { (K.faults sink.old ≤ K.faults sink.new) × (C.faults store ≤ C.faults result.1) }
{
    serve::<current_mmr::Database<C, I, U>, C, K, G>(alloc, input, store, sink, gate)
}

// The same by current databases of delayed merges over this index and these updates.
fn serve_current_mmb<
    C: Store + Drop,
    I: Factory<Value = Location<mmb::Family>, Translator = FourCap> + Drop,
    U: Kind<mmb::Family, I, Key = ByteKey, Value = ByteValue> + Absences<mmb::Family, I>,
    K: Sink,
    G: Gate,
>(alloc: Global, input: &[u8], store: C, sink: &mut K, gate: &G) -> (u8, C)
    ensures headline { IfSome (C.told store) (λ stored. IfSome (K.text sink.old)
        (λ before. (written : Bytes) × (K.text sink.new ≡ Some (before ++ written))
        × Says (current delayed.mmb U.form) stored input.now result.0
        (Rose (C.faults store) (C.faults result.1)) written (C.told result.1))) }
    ensures ends { (choices : List ℕ)
        × Turns (C.told store) (C.told result.1)
        (HasEnds (chunks_of (current delayed.mmb U.form)) (Contains (commands_in input.now) Destroy)
        choices) }
    ensures write { result.0 ≡ 4 → Rose (K.faults sink.old) (K.faults sink.new) }
    ensures store { result.0 ≡ 6 → Rose (C.faults store) (C.faults result.1) }
    ensures codes { (result.0 ≡ 0)
        ⊎ ((result.0 ≡ 2) ⊎ ((result.0 ≡ 4) ⊎ ((result.0 ≡ 5) ⊎ (result.0 ≡ 6)))) }
    ensures bad { result.0 ≡ 2 → IsSome (bad_in input.now) }
    ensures good { result.0 ≡ 0 → bad_in input.now ≡ None }
    ensures later { (K.faults sink.old ≤ K.faults sink.new) × (C.faults store ≤ C.faults result.1) }
{
    serve::<current_mmb::Database<C, I, U>, C, K, G>(alloc, input, store, sink, gate)
}

// The same by databases over mountain ranges, current ones or any ones, ordered or unordered.
fn serve_mmr<C: Store + Drop, K: Sink, G: Gate>(
    is_current: bool,
    is_ordered: bool,
    alloc: Global,
    input: &[u8],
    store: C,
    sink: &mut K,
    gate: &G,
) -> (u8, C)
    ensures headline { IfSome (C.told store) (λ stored. IfSome (K.text sink.old)
        (λ before. (written : Bytes) × (K.text sink.new ≡ Some (before ++ written))
        × Says (machine_over ranges.mmr is_current is_ordered) stored input.now result.0
        (Rose (C.faults store) (C.faults result.1)) written (C.told result.1))) }
    ensures ends { (choices : List ℕ)
        × Turns (C.told store) (C.told result.1)
        (HasEnds (chunks_of (machine_over ranges.mmr is_current is_ordered)) (Contains (commands_in input.now) Destroy)
        choices) }
    ensures write { result.0 ≡ 4 → Rose (K.faults sink.old) (K.faults sink.new) }
    ensures store { result.0 ≡ 6 → Rose (C.faults store) (C.faults result.1) }
    ensures codes { (result.0 ≡ 0)
        ⊎ ((result.0 ≡ 2) ⊎ ((result.0 ≡ 4) ⊎ ((result.0 ≡ 5) ⊎ (result.0 ≡ 6)))) }
    ensures bad { result.0 ≡ 2 → IsSome (bad_in input.now) }
    ensures good { result.0 ≡ 0 → bad_in input.now ≡ None }
    ensures later { (K.faults sink.old ≤ K.faults sink.new) × (C.faults store ≤ C.faults result.1) }
{
    match (is_current, is_ordered) {
        (false, false) => serve_any::<mmr::Family, C, Places<mmr::Family>, Pair, K, G>(
            alloc, input, store, sink, gate,
        ),
        (false, true) => serve_any::<mmr::Family, C, OrderedPlaces<mmr::Family>, Link, K, G>(
            alloc, input, store, sink, gate,
        ),
        (true, false) => serve_current_mmr::<C, Places<mmr::Family>, Pair, K, G>(
            alloc, input, store, sink, gate,
        ),
        (true, true) => {
            serve_current_mmr::<C, OrderedPlaces<mmr::Family>, Link, K, G>(
                alloc, input, store, sink, gate,
            )
        }
    }
}

// The same by databases over trees whose merges are delayed, current ones or any ones, ordered or unordered.
fn serve_mmb<C: Store + Drop, K: Sink, G: Gate>(
    is_current: bool,
    is_ordered: bool,
    alloc: Global,
    input: &[u8],
    store: C,
    sink: &mut K,
    gate: &G,
) -> (u8, C)
    ensures headline { IfSome (C.told store) (λ stored. IfSome (K.text sink.old)
        (λ before. (written : Bytes) × (K.text sink.new ≡ Some (before ++ written))
        × Says (machine_over delayed.mmb is_current is_ordered) stored input.now result.0
        (Rose (C.faults store) (C.faults result.1)) written (C.told result.1))) }
    ensures ends { (choices : List ℕ)
        × Turns (C.told store) (C.told result.1)
        (HasEnds (chunks_of (machine_over delayed.mmb is_current is_ordered)) (Contains (commands_in input.now) Destroy)
        choices) }
    ensures write { result.0 ≡ 4 → Rose (K.faults sink.old) (K.faults sink.new) }
    ensures store { result.0 ≡ 6 → Rose (C.faults store) (C.faults result.1) }
    ensures codes { (result.0 ≡ 0)
        ⊎ ((result.0 ≡ 2) ⊎ ((result.0 ≡ 4) ⊎ ((result.0 ≡ 5) ⊎ (result.0 ≡ 6)))) }
    ensures bad { result.0 ≡ 2 → IsSome (bad_in input.now) }
    ensures good { result.0 ≡ 0 → bad_in input.now ≡ None }
    ensures later { (K.faults sink.old ≤ K.faults sink.new) × (C.faults store ≤ C.faults result.1) }
{
    match (is_current, is_ordered) {
        (false, false) => serve_any::<mmb::Family, C, Places<mmb::Family>, Pair, K, G>(
            alloc, input, store, sink, gate,
        ),
        (false, true) => serve_any::<mmb::Family, C, OrderedPlaces<mmb::Family>, Link, K, G>(
            alloc, input, store, sink, gate,
        ),
        (true, false) => serve_current_mmb::<C, Places<mmb::Family>, Pair, K, G>(
            alloc, input, store, sink, gate,
        ),
        (true, true) => {
            serve_current_mmb::<C, OrderedPlaces<mmb::Family>, Link, K, G>(
                alloc, input, store, sink, gate,
            )
        }
    }
}

// Answers the lines of an input by the databases that are named, and writes the text.
fn run<C: Store + Drop, K: Sink, G: Gate>(
    named: Named,
    alloc: Global,
    input: &[u8],
    store: C,
    sink: &mut K,
    gate: &G,
) -> (u8, C)
    ensures headline { IfSome (C.told store) (λ stored. IfSome (K.text sink.old)
        (λ before. (written : Bytes) × (K.text sink.new ≡ Some (before ++ written))
        × Says (machine_of named) stored input.now result.0
        (Rose (C.faults store) (C.faults result.1)) written (C.told result.1))) }
    ensures ends { (choices : List ℕ)
        × Turns (C.told store) (C.told result.1)
        (HasEnds (chunks_of (machine_of named)) (Contains (commands_in input.now) Destroy)
        choices) }
    ensures write { result.0 ≡ 4 → Rose (K.faults sink.old) (K.faults sink.new) }
    ensures store { result.0 ≡ 6 → Rose (C.faults store) (C.faults result.1) }
    ensures codes { (result.0 ≡ 0)
        ⊎ ((result.0 ≡ 2) ⊎ ((result.0 ≡ 4) ⊎ ((result.0 ≡ 5) ⊎ (result.0 ≡ 6)))) }
    ensures bad { result.0 ≡ 2 → IsSome (bad_in input.now) }
    ensures good { result.0 ≡ 0 → bad_in input.now ≡ None }
    ensures later { (K.faults sink.old ≤ K.faults sink.new) × (C.faults store ≤ C.faults result.1) }
{
    let (is_current, is_ordered) = (named.is_current, named.is_ordered);
    match named.is_delayed {
        false => serve_mmr::<C, K, G>(is_current, is_ordered, alloc, input, store, sink, gate),
        true => serve_mmb::<C, K, G>(is_current, is_ordered, alloc, input, store, sink, gate),
    }
}

/// Whether the words after the program's name are those of a run or of a fill.
pub(crate) fn runs_or_fills(words: &[String]) -> bool
    ensures { result ≡ runs_or_fills (map string_bytes words.now) }
{
    kind_from(words).is_some() || fill_from(words).is_some()
}

/// Runs or fills: what the program does whose words are not those of a check. Its contract is `qmdb_main`'s.
pub(crate) fn run_or_fill<C: Store + Drop, S: Source, K: Sink, G: Gate>(
    alloc: Global,
    words: &[String],
    store: C,
    source: &mut S,
    sink: &mut K,
    gate: &G,
) -> (u8, C)
    // From a store that the program left, or the empty one, that tells what it holds, the source and the sink telling their
    // bytes.
    ensures headline { IfSome (scheme_of (map string_bytes words.now)) (λ m. IfSome (C.told store)
        (λ stored. IfSome (S.left source.old) (λ input. IfSome (K.text sink.old)
        (λ before. (written : Bytes) × (K.text sink.new ≡ Some (before ++ written))
        × Says m stored input result.0 (Rose (C.faults store) (C.faults result.1)) written
        (C.told result.1))))) }

    // The same of a fill: the summary of the machine's answers to its commands.
    ensures fill { IfSome (fill_words (map string_bytes words.now)) (λ asked. IfSome (C.told store)
        (λ stored. IfSome (K.text sink.old) (λ before. (written : Bytes)
        × (K.text sink.new ≡ Some (before ++ written))
        × filled.Says (machine_of asked.1) asked.0 stored result.0
        (Rose (C.faults store) (C.faults result.1)) written (C.told result.1)))) }

    // What stays as it was.
    ensures untouched { (result.0 ≡ 1) ⊎ ((result.0 ≡ 3) ⊎ (result.0 ≡ 7))
        → (result.1 ≡ store) × (sink.new ≡ sink.old) }
    ensures unread { result.0 ≡ 1 → source.new ≡ source.old }
    ensures fill_unread { is_fill (map string_bytes words.now) ≡ true → source.new ≡ source.old }
    ensures ends { (choices : List ℕ)
        × Turns (C.told store) (C.told result.1)
        (HasEnds (chunks_named (map string_bytes words.now))
        (MayDestroy (map string_bytes words.now) (S.left source.old)) choices) }

    // When each status comes.
    ensures usage { (result.0 ≡ 1) ↔ (runs_or_fills (map string_bytes words.now) ≡ false) }
    ensures read { result.0 ≡ 3 → Rose (S.faults source.old) (S.faults source.new) }
    ensures steady { result.0 ≢ 3 → S.faults source.new ≡ S.faults source.old }
    ensures write { result.0 ≡ 4 → Rose (K.faults sink.old) (K.faults sink.new) }
    ensures store { result.0 ≡ 6 → Rose (C.faults store) (C.faults result.1) }
    ensures ended { is_run (map string_bytes words.now) ≡ true → (result.0 ≡ 0) ⊎ ((result.0 ≡ 2) ⊎ ((result.0 ≡ 4) ⊎ (result.0 ≡ 6)))
        → IsAtEnd (S.left source.new) }
    ensures good { is_run (map string_bytes words.now) ≡ true → IfSome (S.left source.old) (λ input. result.0 ≡ 0 → bad_in input ≡ None) }
    ensures bad_line { IfSome (S.left source.old) (λ input. result.0 ≡ 2 → IsSome (bad_in input)) }
    ensures long { result.0 ≡ 7 → IfSome (S.left source.old) (λ input. LIMIT < length input) }
    ensures long_only { is_run (map string_bytes words.now) ≡ true → IfSome (S.left source.old) (λ input. LIMIT < length input
        → (result.0 ≡ 1) ⊎ ((result.0 ≡ 3) ⊎ ((result.0 ≡ 5) ⊎ (result.0 ≡ 7)))) }
    ensures codes { result.0 ≤ 7 }
    ensures fill_codes { is_fill (map string_bytes words.now) ≡ true
        → (result.0 ≡ 0) ⊎ ((result.0 ≡ 4) ⊎ ((result.0 ≡ 5) ⊎ (result.0 ≡ 6))) }

    // If nothing failed, an input has all its replies, unless memory ran out.
    ensures complete { is_run (map string_bytes words.now) ≡ true
        → IfSome (S.left source.old) (λ input. length input ≤ LIMIT → bad_in input ≡ None
        → ¬ Rose (S.faults source.old) (S.faults source.new)
        → ¬ Rose (K.faults sink.old) (K.faults sink.new)
        → ¬ Rose (C.faults store) (C.faults result.1)
        → (result.0 ≡ 0) ⊎ (result.0 ≡ 5)) }
    ensures complete_bad { is_run (map string_bytes words.now) ≡ true
        → IfSome (S.left source.old) (λ input. length input ≤ LIMIT → (n : ℕ)
        → bad_in input ≡ Some n → ¬ Rose (S.faults source.old) (S.faults source.new)
        → ¬ Rose (K.faults sink.old) (K.faults sink.new)
        → ¬ Rose (C.faults store) (C.faults result.1)
        → (result.0 ≡ 2) ⊎ (result.0 ≡ 5)) }
    ensures complete_fill { is_fill (map string_bytes words.now) ≡ true
        → ¬ Rose (K.faults sink.old) (K.faults sink.new)
        → ¬ Rose (C.faults store) (C.faults result.1)
        → (result.0 ≡ 0) ⊎ (result.0 ≡ 5) }
{
    if let Some(asked) = fill_from(words) {
        let (fill, named) = asked;
        return fill_by(named, alloc, store, fill, sink);
    }
    let Some(named) = kind_from(words) else {
        return (1, store);
    };
    match read_all(alloc, source) {
        Err(InputError::Memory) => (5, store),
        Err(InputError::Failed) => (3, store),
        Err(InputError::TooLong) => (7, store),
        Ok(input) => run(named, alloc, &input, store, sink, gate),
    }
}
