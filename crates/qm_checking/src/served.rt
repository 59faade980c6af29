//! The text of a check, and its status.

ghost use Rattle.std.specs.Prelude.{◌≡◌, ◌≢◌, ◌⊎◌, map, IfSome};
ghost use Rattle.std.specs.String.{string_bytes};
ghost use Rattle.qm_graft.specs.Grafting.{grafting};
ghost use Rattle.qm_checking.specs.Checking.{asked_of_words, check_text, check_status};
ghost use Rattle.qm_checking.specs.Says.{IsChecked};
ghost use Rattle.qm_checking.specs.Views.{asked_view};

use crate::input::verdict;
use crate::words::{Asked, parse_words};
use qm_base::Hasher;
use qm_bits::Chunks;
use qm_lines::{InputError, Sink, SinkError, Source, read_all, write_all};
use qm_merkle::StandardHasher;
use std::alloc::Global;

fn text_of(verdict: Option<bool>) -> &'static str
    ensures { result.now ≡ check_text verdict }
{
    match verdict {
        Some(true) => "yes\n",
        Some(false) => "no\n",
        None => "no proof\n",
    }
}

fn status_of(verdict: Option<bool>) -> u8
    ensures { result ≡ check_status verdict }
{
    match verdict {
        Some(_) => 0,
        None => 2,
    }
}

/// Reads the source to its end, and writes whether the proof that it spells in hexadecimal shows what is asked: `yes`, `no`, or `no
/// proof` if it spells none. It answers a status: 0, yes or no; 2, no proof; 3, the source failed; 4, the sink failed; 5, want of memory; 7,
/// more than 16,777,216 bytes of input.
pub fn serve_check<N: Chunks, H: Hasher + Drop, S: Source, K: Sink>(
    alloc: Global,
    hasher: H,
    asked: &Asked<H::Digest>,
    source: &mut S,
    sink: &mut K,
) -> u8
    ensures checked { IsChecked H.hash (grafting N.LEN) N.LEN H.Digest.SIZE
        (asked_view H.Digest.bytes asked.now) result (S.left source.old) (S.left source.new)
        (S.faults source.old) (S.faults source.new) (K.text sink.old) (K.text sink.new)
        (K.faults sink.old) (K.faults sink.new) }
    ensures untouched { (result ≡ 3) ⊎ (result ≡ 7) → sink.new ≡ sink.old }
    ensures steady { result ≢ 3 → S.faults source.new ≡ S.faults source.old }
{
    let mut hasher = StandardHasher::new(hasher);
    let input = match read_all(alloc, source) {
        Ok(input) => input,
        Err(InputError::Memory) => return 5,
        Err(InputError::Failed) => return 3,
        Err(InputError::TooLong) => return 7,
    };
    let Ok(verdict) = verdict::<N, H>(alloc, &mut hasher, asked, &input) else {
        return 5;
    };
    match write_all(sink, text_of(verdict).as_bytes()) {
        Ok(()) => status_of(verdict),
        Err(SinkError::Failed) => 4,
        Err(SinkError::Memory) => 5,
    }
}

/// The check that words ask for: `serve_check` of what they ask. Where they are no words of a check it does nothing and answers 1.
pub fn check<N: Chunks, H: Hasher + Drop, S: Source, K: Sink>(
    alloc: Global,
    hasher: H,
    words: &[String],
    source: &mut S,
    sink: &mut K,
) -> u8
    ensures checked { IfSome (asked_of_words H.Digest.SIZE (map string_bytes words.now)) (λ asked.
        IsChecked H.hash (grafting N.LEN) N.LEN H.Digest.SIZE asked result (S.left source.old)
        (S.left source.new) (S.faults source.old) (S.faults source.new) (K.text sink.old)
        (K.text sink.new) (K.faults sink.old) (K.faults sink.new)) }
    ensures untouched { (result ≡ 3) ⊎ (result ≡ 7) → sink.new ≡ sink.old }
    ensures steady { result ≢ 3 → S.faults source.new ≡ S.faults source.old }
{
    match parse_words::<H::Digest>(alloc, words) {
        Ok(Some(asked)) => serve_check::<N, H, S, K>(alloc, hasher, &asked, source, sink),
        Ok(None) => 1,
        Err(_) => 5,
    }
}
