// Decimal numbers.
ghost use Rattle.std.specs.Prelude.{◌≡◌};
ghost use Rattle.std.specs.Int.NonZero.{non_zero_u64_get};
ghost use Rattle.qm_machine.specs.Grammar as grammar;
ghost use Rattle.qm_lines.specs.Parsed.{Reads};

use super::unread::Unread;
use std::num::NonZeroU64;

// The number with one decimal digit more.
fn next_digit(number: u64, digit: u8) -> Option<u64>
    ensures { result ≡ grammar.next_digit number digit }
{
    if !digit.is_ascii_digit() {
        return None;
    }
    number.checked_mul(10)?.checked_add(u64::from(digit - b'0'))
}

fn digits(word: &[u8]) -> Option<u64>
    ensures { result ≡ grammar.digits_from 0 word.now }
{
    let mut number = 0;
    for digit in word {
        number = next_digit(number, *digit)?;
    }
    Some(number)
}

/// The number that a word of decimal digits is, without leading zeros and below 2^64; of any other word, none.
pub fn plain_number(word: &[u8]) -> Option<u64>
    ensures { result ≡ grammar.number_of word.now }
{
    if word.is_empty() || (word.len() > 1 && word[0] == b'0') {
        return None;
    }
    digits(word)
}

/// A number without leading zeros.
pub fn number(word: &[u8]) -> Result<u64, Unread>
    ensures { Reads (λ n. n) result (grammar.number_of word.now) }
{
    plain_number(word).ok_or(Unread::Malformed)
}

/// The number after this name.
pub fn named_number(name: &[u8], word: &[u8]) -> Option<u64>
    ensures { result ≡ grammar.named_number name.now word.now }
{
    plain_number(word.strip_prefix(name)?)
}

/// A number that is at least 1.
pub fn positive(word: &[u8]) -> Result<NonZeroU64, Unread>
    ensures { Reads non_zero_u64_get result (grammar.positive_of word.now) }
{
    NonZeroU64::new(number(word)?).ok_or(Unread::Malformed)
}
