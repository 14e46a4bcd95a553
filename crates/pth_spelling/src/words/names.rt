//! Words that are names.

ghost use Rattle.std.specs.Prelude.{◌≡◌};
ghost use Rattle.std.specs.List.{list_all};
ghost use Rattle.pth_spelling.specs.WordMeanings.{is_name_byte, is_name, name_of, maybe};

use pth_base::name::Name;

fn is_name_byte(b: u8) -> bool
    ensures { result ≡ is_name_byte b }
{
    matches!(b, b'a'..=b'z' | b'0'..=b'9' | b'_' | b'.')
}

fn are_name_bytes(bytes: &[u8]) -> bool
    ensures { result ≡ list_all (λ b. is_name_byte b) bytes.now }
{
    bytes.iter().all(|b| is_name_byte(*b))
}

fn is_name(word: &[u8]) -> bool
    ensures { result ≡ is_name word.now }
{
    1 <= word.len() && word.len() <= 80 && are_name_bytes(word)
}

/// A name, which is cut at 40 bytes.
#[tactic(auto, unfolding(crate::specs::WordMeanings::name_of))]
pub fn name(word: &[u8]) -> Option<Name>
    ensures { result ≡ name_of word.now }
{
    if !is_name(word) {
        return None;
    }
    match str::from_utf8(word) {
        Ok(text) => Some(Name::cut(text)),
        Err(_) => None,
    }
}

/// The same, or `-` for none.
pub fn maybe_name(word: &[u8]) -> Option<Option<Name>>
    ensures { result ≡ maybe name_of word.now }
{
    if word == b"-".as_slice() {
        return Some(None);
    }
    Some(Some(name(word)?))
}
