//! Numbers of a kernel's lines.

ghost use Rattle.std.specs.Prelude.{◌≡◌};
ghost use Rattle.pth_grammar.specs.KernelNumbers.{ticks_of, time_of, room_of};

use pth_base::ids::Micros;
use pth_kernel::trace::{LATEST_TIME, MOST_CLOCK, MOST_ROOM};
use pth_spelling::words::number_within;

/// How many microseconds a turn takes.
#[tactic(auto, unfolding(crate::specs::KernelNumbers::ticks_of))]
pub fn clock(word: &[u8]) -> Option<Micros>
    ensures { result ≡ ticks_of word.now }
{
    number_within(0, MOST_CLOCK, word)
}

/// The time of a stamp, in microseconds.
#[tactic(auto, unfolding(crate::specs::KernelNumbers::time_of))]
pub fn time(word: &[u8]) -> Option<Micros>
    ensures { result ≡ time_of word.now }
{
    number_within(0, LATEST_TIME, word)
}

/// For how many bytes more there is room.
#[tactic(auto, unfolding(crate::specs::KernelNumbers::room_of))]
pub fn room(word: &[u8]) -> Option<u64>
    ensures { result ≡ room_of word.now }
{
    number_within(1, MOST_ROOM, word)
}
