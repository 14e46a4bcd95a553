//! Thread control: `pth_spawn`, `pth_self`, `pth_suspend`, `pth_resume`, `pth_yield`.

ghost use Rattle.std.specs.Prelude.{◌≡◌, ◌==◌, ◌||◌, not, pos, true, false, Some, None, IfOk, OnOk, option_map, if◌then◌else◌};
ghost use Rattle.pth_base.specs.Facilities.{facility_of};
ghost use Rattle.pth_base.specs.declared.call.Call.TheVariants.{Yield};
ghost use Rattle.pth_base.specs.declared.facility.Facility.TheVariants as facility;
ghost use Rattle.pth_base.specs.declared.mark.Mark.TheVariants.{Answered};
ghost use Rattle.pth_calls.specs.Plain.{is_plain};
ghost use Rattle.pth_model.specs.Calls.{begun};
ghost use Rattle.pth_model.specs.Living.{is_dead as is_dead_state};
ghost use Rattle.pth_numbered.specs.Operands.{number as operand, is_below};
ghost use Rattle.pth_model.specs.Rows.{row_of};
ghost use Rattle.pth_model.specs.State.{State};
ghost use Rattle.pth_model.specs.ThreadControl.{child_of as child_by_entry, values_for as values_given, may_run as may_run_in, spawn as spawn_row, suspend as suspend_row, resume as resume_row, yield as yield_row};
ghost use Rattle.pth_base.specs.declared.answer.Answer.TheVariants.{Int};
ghost use Rattle.pth_base.specs.declared.errno.Errno.TheVariants.{EINVAL};
ghost use Rattle.pth_model.specs.Row.{effect_of};
ghost use Rattle.pth_model.specs.declared.verdict.Verdict.TheVariants.{Yields};
ghost use Rattle.pth_model.specs.Verdict.{refused};
ghost use Rattle.pth_world.specs.Frame.{Frame, runs_after, yields_after};
ghost use Rattle.pth_world.specs.Leading.{Goes, Changed, IsAnswered, IsQuiet};
ghost use Rattle.pth_world.specs.Numbering.{HasNumbers, no_numbers, Thread, one_of};
ghost use Rattle.pth_world.specs.Shows.{StandsFor};
ghost use Rattle.pth_world.specs.Sound.{IsPrio};
ghost use Rattle.pth_world.specs.WellFormed.{WellFormed};

use pth_base::answer::Answer;
use pth_base::call::Call;
use pth_base::errno::Errno;
use pth_base::ids::{BodyId, Tid};
use pth_base::mark::Mark;
use pth_base::marks::Marks;
use pth_base::memory::OutOfMemory;
use pth_base::program::Program;
use pth_base::thread::ThreadState;
use pth_end::answering::done;
use pth_model::living::is_dead;
use pth_model::next::Next;
use pth_threads::entry::{AddErr, Entry, NewThread};
use pth_world::world::World;

// The body that a number names, of a program with so many bodies.
fn body_of(bodies: u32, number: i64) -> Option<BodyId>
    ensures { option_map (λ b. b.0) result ≡ (if is_below number bodies then Some (operand number) else None) }
{
    if number < 0 || number >= bodies as i64 {
        return None;
    }
    Some(BodyId(number as u32))
}

// What a child has of the thread that makes it.
fn child_of(entry: &Entry) -> NewThread
    ensures { result ≡ child_by_entry entry.now }
{
    NewThread {
        prio: entry.prio,
        name: entry.name.with_suffix(".child"),
        joinable: entry.joinable,
        cancel: entry.cancel,
    }
}

// What thread t gives a new one: its own values for 0, else those of an attribute object.
fn values_for<P: Program>(w: &World<P>, t: Tid, attr: i64) -> Result<NewThread, Errno>
    requires whole { WellFormed w.now }
    requires runs { w.now.scheduler.running ≡ Some t.0 }
    ensures values { (s : State P P.State P.Shared) → StandsFor w.now s → result ≡ values_given s.control t.0 attr }
    ensures prio { IfOk result (λ of. IsPrio of.prio) }
{
    if attr != 0 {
        return w.attrs().values(attr, w.threads());
    }
    match w.entry(t) {
        Some(entry) => Ok(child_of(entry)),
        None => unreachable!(),
    }
}

// pth_spawn: makes a thread that runs a body with an argument.
fn spawn<P: Program>(
    w: &mut World<P>,
    t: Tid,
    number: i64,
    arg: i64,
    attr: i64,
) -> Result<Answer, OutOfMemory>
    requires whole { WellFormed w.old }
    requires runs { w.old.scheduler.running ≡ Some t.0 }
    requires few { HasNumbers w.old }
    ensures answered { IfOk result (λ a. IsAnswered w.old w.new a (λ (s : State P P.State P.Shared). (spawn_row P.functions s t.0 number arg attr).begin)) }
    ensures frame { OnOk result (Frame w.old w.new (one_of Thread) (Some t.0) false) }
{
    let Some(body) = body_of(w.bodies(), number) else {
        return Ok(Answer::Fail(Errno::EINVAL));
    };
    let of = match values_for(w, t, attr) {
        Ok(of) => of,
        Err(e) => return Ok(Answer::Fail(e)),
    };
    if !w.has_room() {
        return Ok(Answer::Fail(Errno::EAGAIN));
    }
    match w.spawn(body, arg, of) {
        Ok(child) => Ok(Answer::Int(child.0 as i64)),
        Err(AddErr::TooMany) => unreachable!(),
        Err(AddErr::OutOfMemory) => Err(OutOfMemory),
    }
}

fn may_run(state: ThreadState) -> bool
    ensures { result ≡ may_run_in state }
{
    match state {
        ThreadState::New => true,
        ThreadState::Ready => true,
        _ => false,
    }
}

// Whether thread t may not suspend a thread: itself, a dead one, or one that is suspended.
fn is_not_to_suspend(it: &Entry, t: Tid) -> bool
    ensures { result ≡ (it.now.tid.0 == t.0 || is_dead_state it.now.state || it.now.suspended) }
{
    it.tid.0 == t.0 || is_dead(it.state) || it.suspended
}

// pth_suspend: a thread that is new, ready or waiting stands among the suspended ones.
fn suspend<P: Program>(w: &mut World<P>, t: Tid, n: i64) -> Answer
    requires whole { WellFormed w.old }
    requires runs { w.old.scheduler.running ≡ Some t.0 }
    ensures answered { IsAnswered w.old w.new result (λ (s : State P P.State P.Shared). (suspend_row s t.0 n).begin) }
    ensures frame { Frame w.old w.new no_numbers (Some t.0) false }
{
    let it = match w.known(n) {
        Some(it) => it,
        None => return Answer::Fail(Errno::ESRCH),
    };
    if is_not_to_suspend(it, t) {
        return Answer::Fail(Errno::EPERM);
    }
    let other = it.tid;
    w.suspend(other);
    Answer::Int(1)
}

// Whether thread t may not resume a thread: itself, or one that is not suspended.
fn is_not_to_resume(it: &Entry, t: Tid) -> bool
    ensures { result ≡ (it.now.tid.0 == t.0 || not it.now.suspended) }
{
    it.tid.0 == t.0 || !it.suspended
}

// pth_resume: a suspended thread stands in the queue of its state again. If this is the new queue, one thread more is new.
fn resume<P: Program>(w: &mut World<P>, t: Tid, n: i64) -> Answer
    requires whole { WellFormed w.old }
    requires runs { w.old.scheduler.running ≡ Some t.0 }
    ensures answered { IsAnswered w.old w.new result (λ (s : State P P.State P.Shared). (resume_row s t.0 n).begin) }
    ensures frame { Frame w.old w.new (one_of Thread) (Some t.0) false }
{
    let it = match w.known(n) {
        Some(it) => it,
        None => return Answer::Fail(Errno::ESRCH),
    };
    if is_not_to_resume(it, t) {
        return Answer::Fail(Errno::EPERM);
    }
    let other = it.tid;
    w.resume(other);
    Answer::Int(1)
}

/// The answer of a call of thread control that neither blocks its thread nor gives up control, and that ends nothing.
pub(crate) fn answer_threads<P: Program>(
    w: &mut World<P>,
    t: Tid,
    call: &Call,
) -> Result<Answer, OutOfMemory>
    requires whole { WellFormed w.old }
    requires runs { w.old.scheduler.running ≡ Some t.0 }
    requires few { HasNumbers w.old }
    requires plain { is_plain call.now ≡ true }
    requires threads { facility_of call.now ≡ Some facility.Threads }
    ensures answered { IfOk result (λ a. IsAnswered w.old w.new a (λ (s : State P P.State P.Shared). (row_of P.functions s t.0 call.now).begin)) }
    ensures quiet { IfOk result (λ a. IsQuiet (Answered t call.now a)) }
    ensures frame { OnOk result (Frame w.old w.new (one_of Thread) (Some t.0) false) }
{
    match call {
        Call::Spawn { b, v, a } => spawn(w, t, *b, *v, *a),
        Call::SelfTid => Ok(Answer::Int(t.0 as i64)),
        Call::Suspend(n) => Ok(suspend(w, t, *n)),
        Call::Resume(n) => Ok(resume(w, t, *n)),
        _ => unreachable!(),
    }
}

// Whether a yield may not give control to a thread: one that is suspended, or neither new nor ready.
fn is_not_to_run(it: &Entry) -> bool
    ensures { result ≡ (it.now.suspended || not (may_run_in it.now.state)) }
{
    it.suspended || !may_run(it.state)
}

// Names the thread that is taken next, for 0 nobody. False, and nothing changes, where that thread does not wait to run.
fn name_next<P: Program>(w: &mut World<P>, t: Tid, to: i64) -> bool
    requires whole { WellFormed w.old }
    requires runs { w.old.scheduler.running ≡ Some t.0 }
    ensures verdict { (s : State P P.State P.Shared) → StandsFor w.old s → (yield_row s t.0 to).begin.verdict ≡ (if result then Yields (Int (pos 1)) else refused EINVAL) }
    ensures effect { (s : State P P.State P.Shared) → StandsFor w.old s → Changed w.new (effect_of (yield_row s t.0 to).begin s) }
    ensures frame { Frame w.old w.new no_numbers (Some t.0) result }
{
    if to == 0 {
        return true;
    }
    let it = match w.known(to) {
        Some(it) => it,
        None => return false,
    };
    if is_not_to_run(it) {
        return false;
    }
    let other = it.tid;
    w.name_next(Some(other));
    true
}

/// `pth_yield`: gives up control, to a thread that is new or ready, or for 0 to nobody in particular. After an error the world
/// may only be dropped.
#[inline(always)]
pub fn yield_to<P: Program>(
    w: &mut World<P>,
    t: Tid,
    call: &Call,
    to: i64,
    marks: &mut Marks,
) -> Result<Next, OutOfMemory>
    requires whole { WellFormed w.old }
    requires runs { w.old.scheduler.running ≡ Some t.0 }
    requires call { call.now ≡ Yield to }
    ensures goes { Goes (StandsFor w.old) (begun P.functions t.0 call.now) w.new marks.old marks.new result }
    ensures frame { IfOk result (λ n. Frame w.old w.new no_numbers (runs_after t.0 n) (yields_after n)) }
{
    if !name_next(w, t, to) {
        return done(t, call, Answer::Fail(Errno::EINVAL), marks);
    }
    marks.push(Mark::Answered {
        tid: t,
        call: Call::Yield(to),
        answer: Answer::Int(1),
    })?;
    Ok(Next::Yields(Answer::Int(1)))
}
