//! The turn and the moment that marks have come to.

ghost use Rattle.std.specs.Prelude.{◌≡◌};
ghost use Rattle.pth_explaining.specs.Clocks.{clock_after, clock_of, start};

use pth_base::mark::Mark;

/// A turn, and a moment in it.
#[derive(Clone, Copy)]
pub(crate) struct Clock {
    pub(crate) turn: u64,
    pub(crate) at: u64,
}

impl Clock {
    /// Before the first turn.
    pub(crate) fn start() -> Clock
        ensures { result ≡ start }
    {
        Clock { turn: 0, at: 0 }
    }

    /// After a mark.
    pub(crate) fn after(self, mark: &Mark) -> Clock
        ensures { result ≡ clock_after self mark.now }
    {
        match mark {
            Mark::Dispatch { turn, at, .. } => Clock {
                turn: *turn,
                at: *at,
            },
            Mark::Moved { at } => Clock {
                turn: self.turn,
                at: *at,
            },
            _ => self,
        }
    }
}

/// The last turn and the last moment of marks.
pub(crate) fn clock_of(marks: &[Mark]) -> Clock
    ensures { result ≡ clock_of marks.now }
{
    let mut clock = Clock::start();
    for mark in marks {
        clock = clock.after(mark);
    }
    clock
}
