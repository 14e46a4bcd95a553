//! Numbers as words.

ghost use Rattle.std.specs.Prelude.{◌≡◌, ◌≤◌, ℤ, Some, None, FitsSigned, length, if◌then◌else◌};
ghost use Rattle.std.specs.Char.{is_ascii_digit, digit_value};
ghost use Rattle.std.specs.Fmt.{signed_decimal};
ghost use Rattle.std.specs.Int.{w64};
ghost use Rattle.std.specs.Str.{all_ascii_digits};
ghost use Rattle.std.specs.Str.Parse.{digits_value};
ghost use Rattle.pth_text.specs.Number.{has_leading_zero, is_plain, is_positive, without_minus, is_numeral, numeral_value};

fn are_digits(bytes: &[u8]) -> bool
    ensures { result ≡ all_ascii_digits bytes.now }
{
    bytes.iter().all(|b| b.is_ascii_digit())
}

fn is_positive(word: &[u8]) -> bool
    ensures { result ≡ is_positive word.now }
{
    match word {
        [] => false,
        [first, ..] => *first != b'0' && are_digits(word),
    }
}

fn without_minus(word: &[u8]) -> &[u8]
    ensures { result.now ≡ without_minus word.now }
{
    match word {
        [b'-', digits @ ..] => digits,
        _ => word,
    }
}

fn is_numeral(word: &[u8]) -> bool
    ensures { result ≡ is_numeral word.now }
{
    word == b"0".as_slice() || is_positive(without_minus(word))
}

// The number that any word spells.
fn any_number(word: &[u8]) -> Option<i64>
    ensures { result ≡ numeral_value word.now }
{
    // `parse` also takes a sign `+` and leading zeros.
    if !is_numeral(word) {
        return None;
    }
    match str::from_utf8(word) {
        Ok(text) => text.parse::<i64>().ok(),
        Err(_) => None,
    }
}

fn has_leading_zero(word: &[u8]) -> bool
    ensures { result ≡ has_leading_zero word.now }
{
    1 < word.len() && word[0] == b'0'
}

fn is_plain(word: &[u8]) -> bool
    ensures { result ≡ is_plain word.now }
{
    1 <= word.len() && word.len() <= 18 && word[0] != b'-' && !has_leading_zero(word)
}

fn digit(b: u8) -> Option<u64>
    ensures { result ≡ (if is_ascii_digit b then Some (digit_value b) else None) }
{
    if !b.is_ascii_digit() {
        return None;
    }
    Some((b - b'0') as u64)
}

// The number of digits that are too few to overflow.
fn digits_number(digits: &[u8]) -> Option<u64>
    requires { length digits.now ≤ 18 }
    ensures { result ≡ (if all_ascii_digits digits.now then Some (digits_value 10 digits.now) else None) }
{
    let mut n = 0u64;
    for b in digits {
        let d = digit(*b)?;
        n = n * 10 + d;
    }
    Some(n)
}

/// The number that a word spells: `0`, or an optional `-`, a digit from 1 to 9 and further digits, within 64 bits.
pub fn read_number(word: &[u8]) -> Option<i64>
    ensures { result ≡ numeral_value word.now }
{
    if !is_plain(word) {
        return any_number(word);
    }
    let n = digits_number(word)?;
    Some(n as i64)
}

/// Each number is read from the word that `Text::number` adds for it.
pub fn written_numbers_are_read()
    ensures { (n : ℤ) → FitsSigned w64 n → numeral_value (signed_decimal n) ≡ Some n }
{}
