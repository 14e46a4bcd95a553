//! Numbers without a sign, and what they name.
//!
//! A `+` or leading zeros are read too. They are not printed again, so no line with them is taken.

ghost use Rattle.std.specs.Prelude.{◌≡◌};
ghost use Rattle.pth_transcript.specs.Naturals.{natural_value, index_value, object_value, thread_value, cell_value};

use pth_base::ids::Tid;

/// A number from 0 to 2^64 - 1.
pub fn natural(word: &[u8]) -> Option<u64>
    ensures { result ≡ natural_value word.now }
{
    match str::from_utf8(word) {
        Ok(text) => text.parse::<u64>().ok(),
        Err(_) => None,
    }
}

/// A number below 2^32.
#[tactic(auto, unfolding(crate::specs::Naturals::index_value))]
pub fn index(word: &[u8]) -> Option<u32>
    ensures { result ≡ index_value word.now }
{
    let n = natural(word)?;
    if n < 4_294_967_296 {
        Some(n as u32)
    } else {
        None
    }
}

/// The number of a mutex, a lock, a barrier or a key.
#[tactic(auto, unfolding(crate::specs::Naturals::object_value))]
pub fn object(word: &[u8]) -> Option<u8>
    ensures { result ≡ object_value word.now }
{
    let n = natural(word)?;
    if n < 256 { Some(n as u8) } else { None }
}

/// A thread: `t` and its number.
#[tactic(auto, unfolding(crate::specs::Naturals::thread_value))]
pub fn thread(word: &[u8]) -> Option<Tid>
    ensures { result ≡ thread_value word.now }
{
    match word {
        [b't', digits @ ..] => Some(Tid(index(digits)?)),
        _ => None,
    }
}

/// The number of a shared value: `v` and its number.
#[tactic(auto, unfolding(crate::specs::Naturals::cell_value))]
pub fn cell(word: &[u8]) -> Option<u32>
    ensures { result ≡ cell_value word.now }
{
    match word {
        [b'v', digits @ ..] => index(digits),
        _ => None,
    }
}
