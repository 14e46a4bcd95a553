//! The rounds of a barrier: a law of what threads are told. It has no code.

ghost use Rattle.pth_cond.specs.Rounds.{FirstIsToldOnce};

/// After a thread was told that it came first in its round (`PTH_BARRIER_HEADLIGHT`), no other of the round is told so, whatever
/// arrives, is answered or is taken back.
pub fn first_of_a_round_is_told_once()
    ensures { FirstIsToldOnce }
{}
