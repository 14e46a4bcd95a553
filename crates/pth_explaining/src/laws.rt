//! Laws of explanations.

ghost use Rattle.std.specs.Prelude.{◌≡◌, ◌==◌, ℕ, List};
ghost use Rattle.std.specs.List.{list_any};
ghost use Rattle.pth_audit.specs.Blocking.{IsCircle};
ghost use Rattle.pth_base.specs.declared.mark.Mark.{Mark};
ghost use Rattle.pth_explaining.specs.Threads.{places_of};
ghost use Rattle.pth_explaining.specs.Circles.{circles_in, on_whom};
ghost use Rattle.pth_explaining.specs.Told.{BeginsWithLeast, IsAmong, last_about, says_wait};
ghost use Rattle.pth_explaining.specs.declared.circles.Block.{Block};
ghost use Rattle.pth_explaining.specs.Waits.{waits_in};

/// A thread is listed exactly if the last mark about it says that it waits: of the marks of the thread and the mark that spawns it.
pub fn waits_are_listed()
    ensures { (marks : List Mark) (t : ℕ) → list_any (λ w. w.thread == t) (waits_in marks (places_of marks))
        ≡ says_wait (last_about t marks) }
{}

/// What is printed as a circle is one: distinct threads, each of which blocks on the next, and the last on the first. And each circle is
/// printed, from its least thread on.
pub fn circles_are_told()
    ensures each { (blocks : List Block) (ts : List ℕ) → IsAmong ts (circles_in blocks) → IsCircle (on_whom blocks) ts }
    ensures all { (blocks : List Block) (ts : List ℕ) → IsCircle (on_whom blocks) ts → BeginsWithLeast ts → IsAmong ts (circles_in blocks) }
{}
