//! Words that are sets of descriptors.

ghost use Rattle.std.specs.Prelude.{◌≡◌, ◌==◌};
ghost use Rattle.std.specs.List.{slice_split};
ghost use Rattle.pth_spelling.specs.WordMeanings.{members_of, set_of};

use crate::words::numbers::number_below;
use pth_base::ids::FdSet;

/// The bits of rising numbers of descriptors that are joined by commas.
fn members(word: &[u8]) -> Option<u64>
    ensures { result ≡ members_of 0 (slice_split (λ b. b == 44) word.now) }
{
    let mut set = 0;
    let mut least = 0;
    for part in word.split(|b| *b == b',') {
        let k = number_below(64, part)?;
        if k < least {
            return None;
        }
        set |= 1 << k;
        least = k + 1;
    }
    Some(set)
}

/// `-` for none, or rising numbers of descriptors joined by commas.
#[tactic(auto, unfolding(crate::specs::WordMeanings::set_of))]
pub fn set(word: &[u8]) -> Option<FdSet>
    ensures { result ≡ set_of word.now }
{
    if word == b"-".as_slice() {
        return Some(FdSet(0));
    }
    Some(FdSet(members(word)?))
}
