//! What is said of every plan, and of every program that is written against POSIX.

ghost use Rattle.std.specs.Prelude.{◌≡◌, ◌↔◌, true, false, List, [], ◌∷◌, ◌++◌};
ghost use Rattle.pth_base.specs.declared.answer.Answer.{Answer};
ghost use Rattle.pth_base.specs.declared.call.Call.{Call};
ghost use Rattle.pth_posix.specs.Laws.{is_answered, is_exit, is_timed_out};
ghost use Rattle.pth_posix.specs.Plan.{plan};
ghost use Rattle.pth_posix.specs.Posix.{PosixThreadOf, begins, heard, posix_step};
ghost use Rattle.pth_posix.specs.PosixProgram.{PosixFunctions};
ghost use Rattle.pth_posix.specs.declared.panswer.PAnswer.{PAnswer};
ghost use Rattle.pth_posix.specs.declared.panswer.PAnswer.TheVariants.{TimedOut};
ghost use Rattle.pth_posix.specs.declared.pcall.PCall.{PCall};
ghost use Rattle.pth_posix.specs.declared.plan.Planned.TheVariants.{Calls, Answers};

use crate::posix_program::PosixProgram;

/// With three answers or more a plan has no call left, but that of an exit. A plan that has an answer keeps it, whatever is answered
/// behind.
pub fn plans_end()
    ensures ends { (c : PCall) (a b d : Answer) (more : List Answer) → is_exit c ≡ false
        → is_answered (plan c (a ∷ b ∷ d ∷ more)) ≡ true }
    ensures kept { (c : PCall) (x : PAnswer) (got more : List Answer) → plan c got ≡ Answers x → plan c (got ++ more) ≡ Answers x }
    ensures at_once { (c : PCall) (x : PAnswer) (got : List Answer) → plan c [] ≡ Answers x → plan c got ≡ Answers x }
{}

/// A plan answers that the time is over exactly if the call is a timed wait, its `ev_time` gave an event, its `cond_await` was answered
/// EINTR, and its `ev_free` was answered.
pub fn timed_out_is_eintr()
    ensures { (c : PCall) (got : List Answer) → (plan c got ≡ Answers TimedOut) ↔ (is_timed_out c got ≡ true) }
{}

/// If the plan has a call, a step of the thread gives it, and changes neither the program's state nor what is shared. If it has an
/// answer, the program's own step gets this one.
pub fn plans_are_not_interrupted<Q: PosixProgram>()
    ensures goes_on { (q : PosixFunctions Q.State Q.Shared) (p : PosixThreadOf Q.State) (h : Q.Shared) (a : Answer) (c : Call)
        → plan p.call (p.got ++ a ∷ []) ≡ Calls c → posix_step q p h a ≡ record { call = c; state = heard a p; shared = h } }
    ensures answered { (q : PosixFunctions Q.State Q.Shared) (p : PosixThreadOf Q.State) (h : Q.Shared) (a : Answer) (x : PAnswer)
        → plan p.call (p.got ++ a ∷ []) ≡ Answers x → posix_step q p h a ≡ begins (q.step p.state h x) }
{}
