//! The program's top call, and its checks.

ghost use Rattle.std.specs.Prelude.{List, ◌≡◌, ◌≢◌, ◌↔◌, ◌≤◌, ◌<◌, ◌++◌, ◌⊎◌, ℕ, false, true, Some, None, IfSome, IsSome, length, map};
ghost use Rattle.std.specs.Io.KnownBytes.{IsAtEnd};
ghost use Rattle.std.specs.String.{string_bytes};
ghost use Rattle.sha2.specs.Sha256.{sha256};
ghost use Rattle.qm_model.specs.Causes.{Rose};
ghost use Rattle.qm_model.specs.Operations.{Bytes};
ghost use Rattle.qm_model.specs.StoreModel.{Turns};
ghost use Rattle.qm_machine.specs.Grammar.{bad_in};
ghost use Rattle.qm_engine.specs.Stores.{HasEnds};
ghost use Rattle.qm_filling.specs.Says as filled;
ghost use Rattle.qm_graft.specs.Grafting.{grafting};
ghost use Rattle.qm_checking.specs.Says.{IsChecked};
ghost use Rattle.qm_run.specs.Program.{runs_or_fills, check_words, is_check, are_words, is_run, is_fill, fill_words, machine_of, scheme_of, chunks_named, MayDestroy, Says};

use crate::program::{run_or_fill, runs_or_fills};
use qm_base::{Gate, Sha256, Sha256Digest};
use qm_bits::Chunk32;
use qm_lines::{LIMIT, Sink, Source};
use qm_store::Store;
use std::alloc::Global;

fn is_check(words: &[String]) -> bool
    ensures { result ≡ is_check (map string_bytes words.now) }
{
    qm_checking::are_words::<Sha256Digest>(words)
}

/// Whether the words after the program's name are those of a run, of a fill or of a check.
pub fn are_words(words: &[String]) -> bool
    ensures { result ≡ are_words (map string_bytes words.now) }
{
    runs_or_fills(words) || is_check(words)
}

// Checks what the words of a check ask. It answers a status.
fn check<S: Source, K: Sink>(alloc: Global, words: &[String], source: &mut S, sink: &mut K) -> u8
    ensures checked { IfSome (check_words (map string_bytes words.now)) (λ asked.
        IsChecked sha256 (grafting 32) 32 32 asked result (S.left source.old) (S.left source.new)
        (S.faults source.old) (S.faults source.new) (K.text sink.old) (K.text sink.new)
        (K.faults sink.old) (K.faults sink.new)) }
    ensures untouched { (result ≡ 3) ⊎ (result ≡ 7) → sink.new ≡ sink.old }
    ensures steady { result ≢ 3 → S.faults source.new ≡ S.faults source.old }
{
    qm_checking::check::<Chunk32, Sha256, S, K>(alloc, Sha256::new(), words, source, sink)
}

/// The program. The words are those after its name: `run`, then `any` or `current`, then `unordered` or `ordered`, then `mmr` or `mmb`. It reads
/// the source to its end, runs the commands of its lines over the store, up to the first line that is not a command, and writes
/// the replies, one line each. Or they are `fill`, a seed and a count of rounds, and then those that follow `run`: it runs the commands
/// of that fill, and writes its summary; it does not read the source. Or they are `check`, `mmr` or `mmb`, a root, and then `held`, a key
/// and its value, or `absent` and a key: it reads the source, and writes whether the proof that it spells shows that; it calls no
/// store. It answers a status and the store.
///
/// The statuses: 0, every line or command has its reply, or a check is answered; 1, the words are no such ones; 2, a line is not a command,
/// and after the replies before it `bad line` and its number were written, or a check's input spells no proof; 3, the source failed; 4, the
/// sink failed; 5, want of memory; 6, the store failed, and after the replies so far `store fault` was written, alone by a fill; 7, more
/// than 16,777,216 bytes of input.
pub fn qmdb_main<C: Store + Drop, S: Source, K: Sink, G: Gate>(
    alloc: Global,
    words: &[String],
    store: C,
    source: &mut S,
    sink: &mut K,
    gate: &G,
) -> (u8, C)
    // From a store that the program left, or the empty one, that tells what it holds, the source and the sink telling their
    // bytes.
    ensures headline { IfSome (scheme_of (map string_bytes words.now)) (λ m. IfSome (C.told store)
        (λ stored. IfSome (S.left source.old) (λ input. IfSome (K.text sink.old)
        (λ before. (written : Bytes) × (K.text sink.new ≡ Some (before ++ written))
        × Says m stored input result.0 (Rose (C.faults store) (C.faults result.1)) written
        (C.told result.1))))) }

    // The same of a fill: the summary of the machine's answers to its commands.
    ensures fill { IfSome (fill_words (map string_bytes words.now)) (λ asked. IfSome (C.told store)
        (λ stored. IfSome (K.text sink.old) (λ before. (written : Bytes)
        × (K.text sink.new ≡ Some (before ++ written))
        × filled.Says (machine_of asked.1) asked.0 stored result.0
        (Rose (C.faults store) (C.faults result.1)) written (C.told result.1)))) }

    // The same of a check: the text of its answer. It calls no store.
    ensures check { IfSome (check_words (map string_bytes words.now)) (λ asked.
        IsChecked sha256 (grafting 32) 32 32 asked result.0 (S.left source.old) (S.left source.new)
        (S.faults source.old) (S.faults source.new) (K.text sink.old) (K.text sink.new)
        (K.faults sink.old) (K.faults sink.new)) }
    ensures check_store { is_check (map string_bytes words.now) ≡ true → result.1 ≡ store }

    // What stays as it was.
    ensures untouched { (result.0 ≡ 1) ⊎ ((result.0 ≡ 3) ⊎ (result.0 ≡ 7))
        → (result.1 ≡ store) × (sink.new ≡ sink.old) }
    ensures unread { result.0 ≡ 1 → source.new ≡ source.old }
    ensures fill_unread { is_fill (map string_bytes words.now) ≡ true → source.new ≡ source.old }
    ensures ends { (choices : List ℕ)
        × Turns (C.told store) (C.told result.1)
        (HasEnds (chunks_named (map string_bytes words.now))
        (MayDestroy (map string_bytes words.now) (S.left source.old)) choices) }

    // When each status comes.
    ensures usage { (result.0 ≡ 1) ↔ (are_words (map string_bytes words.now) ≡ false) }
    ensures read { result.0 ≡ 3 → Rose (S.faults source.old) (S.faults source.new) }
    ensures steady { result.0 ≢ 3 → S.faults source.new ≡ S.faults source.old }
    ensures write { result.0 ≡ 4 → Rose (K.faults sink.old) (K.faults sink.new) }
    ensures store { result.0 ≡ 6 → Rose (C.faults store) (C.faults result.1) }
    ensures ended { is_run (map string_bytes words.now) ≡ true → (result.0 ≡ 0) ⊎ ((result.0 ≡ 2) ⊎ ((result.0 ≡ 4) ⊎ (result.0 ≡ 6)))
        → IsAtEnd (S.left source.new) }
    ensures good { is_run (map string_bytes words.now) ≡ true → IfSome (S.left source.old) (λ input. result.0 ≡ 0 → bad_in input ≡ None) }
    ensures bad_line { is_check (map string_bytes words.now) ≡ false → IfSome (S.left source.old) (λ input. result.0 ≡ 2 → IsSome (bad_in input)) }
    ensures long { result.0 ≡ 7 → IfSome (S.left source.old) (λ input. LIMIT < length input) }
    ensures long_only { is_run (map string_bytes words.now) ≡ true → IfSome (S.left source.old) (λ input. LIMIT < length input
        → (result.0 ≡ 1) ⊎ ((result.0 ≡ 3) ⊎ ((result.0 ≡ 5) ⊎ (result.0 ≡ 7)))) }
    ensures codes { result.0 ≤ 7 }
    ensures fill_codes { is_fill (map string_bytes words.now) ≡ true
        → (result.0 ≡ 0) ⊎ ((result.0 ≡ 4) ⊎ ((result.0 ≡ 5) ⊎ (result.0 ≡ 6))) }

    // If nothing failed, an input has all its replies, unless memory ran out.
    ensures complete { is_run (map string_bytes words.now) ≡ true
        → IfSome (S.left source.old) (λ input. length input ≤ LIMIT → bad_in input ≡ None
        → ¬ Rose (S.faults source.old) (S.faults source.new)
        → ¬ Rose (K.faults sink.old) (K.faults sink.new)
        → ¬ Rose (C.faults store) (C.faults result.1)
        → (result.0 ≡ 0) ⊎ (result.0 ≡ 5)) }
    ensures complete_bad { is_run (map string_bytes words.now) ≡ true
        → IfSome (S.left source.old) (λ input. length input ≤ LIMIT → (n : ℕ)
        → bad_in input ≡ Some n → ¬ Rose (S.faults source.old) (S.faults source.new)
        → ¬ Rose (K.faults sink.old) (K.faults sink.new)
        → ¬ Rose (C.faults store) (C.faults result.1)
        → (result.0 ≡ 2) ⊎ (result.0 ≡ 5)) }
    ensures complete_fill { is_fill (map string_bytes words.now) ≡ true
        → ¬ Rose (K.faults sink.old) (K.faults sink.new)
        → ¬ Rose (C.faults store) (C.faults result.1)
        → (result.0 ≡ 0) ⊎ (result.0 ≡ 5) }
{
    if is_check(words) {
        return (check(alloc, words, source, sink), store);
    }
    run_or_fill(alloc, words, store, source, sink, gate)
}
