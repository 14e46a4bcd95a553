//! Library control: `pth_ctrl`.

ghost use Rattle.std.specs.Prelude.{◌≡◌, ◌≤ℤ◌, ◌&&◌, int_le, pos, true, false, Some, None, IfSome, if◌then◌else◌};
ghost use Rattle.pth_base.specs.Facilities.{facility_of};
ghost use Rattle.pth_base.specs.declared.facility.Facility.TheVariants as facility;
ghost use Rattle.pth_base.specs.declared.mark.Mark.TheVariants.{Answered};
ghost use Rattle.pth_calls.specs.Plain.{is_plain, asks_for_more};
ghost use Rattle.pth_model.specs.LibraryControl.{ctrl as ctrl_row};
ghost use Rattle.pth_numbered.specs.Operands.{◌is_from◌to◌};
ghost use Rattle.pth_model.specs.Row.{◌changing◌};
ghost use Rattle.pth_model.specs.Rows.{row_of};
ghost use Rattle.pth_model.specs.State.{State};
ghost use Rattle.pth_model.specs.Transition.{nothing};
ghost use Rattle.pth_model.specs.Verdict.{says};
ghost use Rattle.pth_world.specs.Frame.{Frame};
ghost use Rattle.pth_world.specs.Leading.{IsAnswered, IsQuiet};
ghost use Rattle.pth_world.specs.Numbering.{no_numbers};
ghost use Rattle.pth_world.specs.Shows.{StandsFor};
ghost use Rattle.pth_world.specs.WellFormed.{WellFormed};

use pth_base::answer::Answer;
use pth_base::call::Call;
use pth_base::errno::Errno;
use pth_base::ids::Tid;
use pth_base::program::Program;
use pth_base::query::Query;
use pth_queue::queue::Queue;
use pth_world::world::World;

// How many threads a question asks for; none where it asks for something else.
fn count<P: Program>(w: &World<P>, q: &Query) -> Option<u32>
    requires { WellFormed w.now }
    ensures count { IfSome result (λ n. (s : State P P.State P.Shared) → StandsFor w.now s → ctrl_row s q.now ≡ (says n changing nothing)) }
    ensures others { result ≡ None → asks_for_more q.now ≡ true }
{
    match q {
        Query::Threads => Some(w.present()),
        Query::New => Some(w.count_in(Queue::New)),
        Query::Ready => Some(w.count_in(Queue::Ready)),
        Query::Running => Some(u32::from(w.running().is_some())),
        Query::Waiting => Some(w.count_in(Queue::Waiting)),
        Query::Suspended => Some(w.count_in(Queue::Suspended)),
        Query::Dead => Some(w.count_in(Queue::Dead)),
        _ => None,
    }
}

// Whether new threads are favoured from now on, and the old setting (`PTH_CTRL_FAVOURNEW`).
fn favour_new<P: Program>(w: &mut World<P>, n: i64) -> Answer
    requires { WellFormed w.old }
    ensures answered { IsAnswered w.old w.new result (λ (s : State P P.State P.Shared). (ctrl_row s (Query.Favournew n)).begin) }
    ensures frame { Frame w.old w.new no_numbers w.old.scheduler.running false }
{
    if n < 0 || n > 1 {
        return Answer::Fail(Errno::EINVAL);
    }
    let old = w.favour();
    w.set_favour(n == 1);
    Answer::Int(i64::from(old))
}

// The base priority of a thread (`PTH_CTRL_GETPRIO`).
fn prio<P: Program>(w: &World<P>, n: i64) -> Answer
    requires { WellFormed w.now }
    ensures { IsAnswered w.now w.now result (λ (s : State P P.State P.Shared). (ctrl_row s (Query.Prio n)).begin) }
{
    match w.known(n) {
        Some(it) => Answer::Int(it.prio),
        None => Answer::Fail(Errno::ESRCH),
    }
}

// The name of a thread (`PTH_CTRL_GETNAME`).
fn name<P: Program>(w: &World<P>, n: i64) -> Answer
    requires { WellFormed w.now }
    ensures { IsAnswered w.now w.now result (λ (s : State P P.State P.Shared). (ctrl_row s (Query.Name n)).begin) }
{
    match w.known(n) {
        Some(it) => Answer::Text(it.name.copy()),
        None => Answer::Fail(Errno::ESRCH),
    }
}

// pth_ctrl: how many threads there are, in each state, the setting that favours new ones, and what is known of a thread.
fn ctrl<P: Program>(w: &mut World<P>, t: Tid, q: &Query) -> Answer
    requires whole { WellFormed w.old }
    requires runs { w.old.scheduler.running ≡ Some t.0 }
    ensures answered { IsAnswered w.old w.new result (λ (s : State P P.State P.Shared). (ctrl_row s q.now).begin) }
    ensures frame { Frame w.old w.new no_numbers (Some t.0) false }
{
    if let Some(n) = count(w, q) {
        return Answer::Int(i64::from(n));
    }
    match q {
        Query::Favournew(n) => favour_new(w, *n),
        Query::Prio(n) => prio(w, *n),
        Query::Name(n) => name(w, *n),
        _ => unreachable!(),
    }
}

/// The answer of a call of library control that does not end the run.
pub(crate) fn answer_library<P: Program>(w: &mut World<P>, t: Tid, call: &Call) -> Answer
    requires whole { WellFormed w.old }
    requires runs { w.old.scheduler.running ≡ Some t.0 }
    requires plain { is_plain call.now ≡ true }
    requires library { facility_of call.now ≡ Some facility.Library }
    ensures answered { IsAnswered w.old w.new result (λ (s : State P P.State P.Shared). (row_of P.functions s t.0 call.now).begin) }
    ensures quiet { IsQuiet (Answered t call.now result) }
    ensures frame { Frame w.old w.new no_numbers (Some t.0) false }
{
    match call {
        Call::Ctrl(q) => ctrl(w, t, q),
        _ => unreachable!(),
    }
}
