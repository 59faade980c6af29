//! The words of a fill.

ghost use Rattle.std.specs.Prelude.{◌≡◌, map, option_map};
ghost use Rattle.std.specs.String.{string_bytes};
ghost use Rattle.qm_fill.specs.Words.{number_within, fill_of, fill_named, fill_of_words};

use qm_lines::plain_number;

/// A large run: the seed of its draws, and how many rounds it has.
#[derive(Clone, Copy, Debug, PartialEq, Eq)]
pub struct Fill {
    pub seed: u32,
    pub rounds: u32,
}

// A number within these bounds.
fn number_within(low: u32, high: u32, word: &[u8]) -> Option<u32>
    ensures { result ≡ number_within low high word.now }
{
    let number = plain_number(word)?;
    if u64::from(low) <= number && number <= u64::from(high) {
        Some(number as u32)
    } else {
        None
    }
}

fn fill_of(seed: &str, rounds: &str) -> Option<Fill>
    ensures { result ≡ fill_of seed.now rounds.now }
{
    Some(Fill {
        seed: number_within(0, 4_294_967_295, seed.as_bytes())?,
        rounds: number_within(1, 10_000, rounds.as_bytes())?,
    })
}

fn fill_named(name: &str, seed: &str, rounds: &str) -> Option<Fill>
    ensures { result ≡ fill_named name.now seed.now rounds.now }
{
    if name == "fill" {
        fill_of(seed, rounds)
    } else {
        None
    }
}

/// The fill that the words after the program's name ask for, and the words behind it, which name databases; none if they are
/// no words of a fill: `fill`, then a seed from 0 to 4,294,967,295, and from 1 to 10,000 rounds.
pub fn parse_words(words: &[String]) -> Option<(Fill, &[String])>
    ensures { option_map (λ found. (found.0, map string_bytes found.1.now)) result
        ≡ fill_of_words (map string_bytes words.now) }
{
    if words.len() < 3 {
        return None;
    }
    let fill = fill_named(words[0].as_str(), words[1].as_str(), words[2].as_str())?;
    Some((fill, &words[3..]))
}
