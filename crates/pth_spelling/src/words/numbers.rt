//! Words that are numbers.

ghost use Rattle.std.specs.Prelude.{◌≡◌, option_and_then};
ghost use Rattle.pth_text.specs.Number.{numeral_value};
ghost use Rattle.pth_spelling.specs.WordMeanings.{below, descriptor_of, natural_of, number_from};

use pth_text::number::read_number;

/// A number that is not negative.
#[tactic(auto, unfolding(crate::specs::WordMeanings::natural_of))]
pub fn natural(word: &[u8]) -> Option<i64>
    ensures { result ≡ natural_of word.now }
{
    let n = read_number(word)?;
    if 0 <= n { Some(n) } else { None }
}

/// A number that is not negative and below a limit.
pub fn number_below(limit: u8, word: &[u8]) -> Option<u8>
    ensures { result ≡ option_and_then (below limit) (numeral_value word.now) }
{
    let n = read_number(word)?;
    if 0 <= n && n < i64::from(limit) {
        Some(n as u8)
    } else {
        None
    }
}

/// The number of a descriptor, from 0 to 63.
#[tactic(auto, unfolding(crate::specs::WordMeanings::descriptor_of))]
pub fn descriptor(word: &[u8]) -> Option<u8>
    ensures { result ≡ descriptor_of word.now }
{
    number_below(64, word)
}

/// A number from `low` to `high`.
pub fn number_within(low: u64, high: u64, word: &[u8]) -> Option<u64>
    ensures { result ≡ option_and_then (number_from low high) (numeral_value word.now) }
{
    let n = read_number(word)?;
    if n < 0 {
        return None;
    }
    let n = n as u64;
    if low <= n && n <= high { Some(n) } else { None }
}
