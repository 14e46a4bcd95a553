//! Bytes in hexadecimal digits as words.

ghost use Rattle.std.specs.Prelude.{◌≡◌, ◌<◌, ◌≤◌, ◌++◌, ℕ, true, List, length, All, Some, IfOk, OnOk};
ghost use Rattle.std.specs.Char.{digit_value};
ghost use Rattle.std.specs.List.{list_all};
ghost use Rattle.pth_text.specs.Hex.{hex_of, is_hex_digit, is_hex, pair_bytes, hex_bytes};

use pth_base::bytes::Bytes;
use pth_base::memory::OutOfMemory;
use std::alloc::Global;

fn is_hex_digit(b: u8) -> bool
    ensures { result ≡ is_hex_digit b }
{
    matches!(b, b'0'..=b'9' | b'a'..=b'f')
}

fn are_hex_digits(bytes: &[u8]) -> bool
    ensures { result ≡ list_all (λ c. is_hex_digit c) bytes.now }
{
    bytes.iter().all(|b| is_hex_digit(*b))
}

/// Whether a word is 1 to 2048 pairs of lower-case digits.
pub fn is_hex(word: &[u8]) -> bool
    ensures { result ≡ is_hex word.now }
{
    word.len() % 2 == 0 && 2 <= word.len() && word.len() <= 4096 && are_hex_digits(word)
}

fn digit_value(b: u8) -> u8
    requires { is_hex_digit b ≡ true }
    ensures value { result ≡ digit_value b }
    ensures small { result < 16 }
{
    if b <= b'9' { b - b'0' } else { b - b'a' + 10 }
}

/// Adds the byte of each pair of digits.
fn push_pairs(digits: &[u8], bytes: &mut Vec<u8>) -> Result<(), OutOfMemory>
    requires { list_all (λ c. is_hex_digit c) digits.now ≡ true }
    ensures { OnOk result (bytes.new.items ≡ bytes.old.items ++ pair_bytes digits.now) }
{
    let mut rest = digits;
    while let [high, low, more @ ..] = rest {
        bytes.push(16 * digit_value(*high) + digit_value(*low))?;
        rest = more;
    }
    Ok(())
}

/// The bytes that a word of 1 to 2048 pairs of lower-case digits spells.
pub fn read_hex(alloc: Global, word: &[u8]) -> Result<Option<Bytes>, OutOfMemory>
    ensures { IfOk result (λ found. found ≡ hex_bytes word.now) }
{
    if !is_hex(word) {
        return Ok(None);
    }
    let mut bytes = Vec::new(alloc);
    push_pairs(word, &mut bytes)?;
    Ok(Some(Bytes::from_slice(alloc, bytes.as_slice())?))
}

/// 1 to 2048 bytes are read from the word that `Text::hex` adds for them.
pub fn written_bytes_are_read()
    ensures { (bytes : List ℕ) → All (λ b. b < 256) bytes → 0 < length bytes → length bytes ≤ 2048 → hex_bytes (hex_of bytes) ≡ Some bytes }
{}
