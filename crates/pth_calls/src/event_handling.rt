//! Event handling: `pth_event`, `pth_event_concat`, `pth_event_isolate`, `pth_event_walk`, `pth_event_status`,
//! `pth_event_typeof`, `pth_event_free`.

ghost use Rattle.std.specs.Prelude.{◌≡◌, Some, IfOk, OnOk, false};
ghost use Rattle.pth_base.specs.Facilities.{facility_of};
ghost use Rattle.pth_base.specs.declared.event.EvLine.TheVariants as line;
ghost use Rattle.pth_base.specs.declared.facility.Facility.TheVariants as facility;
ghost use Rattle.pth_base.specs.declared.mark.Mark.TheVariants.{Answered};
ghost use Rattle.pth_calls.specs.Lines.{unchained_event_line};
ghost use Rattle.pth_model.specs.EventHandling.{are_goals as are_goals_of, spec_of as spec_for, make_event as make_row, chain as chain_row, ev_concat as concat_row, ev_isolate as isolate_row, ev_walk as walk_row, ev_status as status_row, ev_kind as kind_row, ev_free as free_row};
ghost use Rattle.pth_model.specs.Rows.{row_of};
ghost use Rattle.pth_model.specs.State.{State};
ghost use Rattle.pth_world.specs.Frame.{Frame};
ghost use Rattle.pth_world.specs.Leading.{IsAnswered, IsQuiet};
ghost use Rattle.pth_world.specs.Numbering.{HasNumbers, no_numbers, Event, one_of};
ghost use Rattle.pth_world.specs.WellFormed.{WellFormed};

use pth_base::answer::Answer;
use pth_base::call::Call;
use pth_base::errno::Errno;
use pth_base::event::{EvLine, EventSpec};
use pth_base::ids::Tid;
use pth_base::memory::OutOfMemory;
use pth_base::program::Program;
use pth_end::saying::{answer_of, refused};
use pth_model::times::{micros, moment_of};
use pth_ring::event::Status;
use pth_world::world::World;

// An event of a moment. None for a negative one.
fn moment_spec(at: i64) -> Option<EventSpec>
    ensures { result ≡ spec_for (line.Time at) }
{
    if at < 0 {
        return None;
    }
    Some(EventSpec::Time(moment_of(at)))
}

// Goals are a sum of some of 1, 2 and 4.
fn are_goals(goals: u8) -> bool
    ensures { result ≡ are_goals_of goals }
{
    0 < goals && goals < 8
}

// An event of a descriptor. None for goals or a descriptor that there can't be.
fn descriptor_spec(goals: u8, fd: i64) -> Option<EventSpec>
    ensures { result ≡ spec_for (line.Fd goals fd) }
{
    if !are_goals(goals) || fd < 0 || fd >= 64 {
        return None;
    }
    Some(EventSpec::Fd { goals, fd })
}

// An event of a function. None for a negative interval.
fn function_spec(check: i64, arg: i64, interval: i64) -> Option<EventSpec>
    ensures { result ≡ spec_for (line.Func check arg interval) }
{
    if interval < 0 {
        return None;
    }
    Some(EventSpec::Func {
        check,
        arg,
        interval: micros(interval),
    })
}

// What an event is of that a line asks for. None where its operands are refused.
fn spec_of(line: &EvLine) -> Option<EventSpec>
    ensures { result ≡ spec_for line.now }
{
    match line {
        EvLine::Time(at) => moment_spec(*at),
        EvLine::Fd { goals, fd } => descriptor_spec(*goals, *fd),
        EvLine::Select { r, w, x } => Some(EventSpec::Select {
            r: *r,
            w: *w,
            x: *x,
        }),
        EvLine::Msg(p) => Some(EventSpec::Msg(*p)),
        EvLine::Cond(c) => Some(EventSpec::Cond(*c)),
        EvLine::Tid { state, tid } => Some(EventSpec::Tid {
            state: *state,
            tid: *tid,
        }),
        EvLine::Func {
            check,
            arg,
            interval,
        } => function_spec(*check, *arg, *interval),
    }
}

// pth_event: a new event, alone in its ring.
fn make_event<P: Program>(w: &mut World<P>, line: &EvLine) -> Result<Answer, OutOfMemory>
    requires whole { WellFormed w.old }
    requires few { HasNumbers w.old }
    ensures answered { IfOk result (λ a. IsAnswered w.old w.new a (λ (s : State P P.State P.Shared). (make_row s line.now).begin)) }
    ensures frame { OnOk result (Frame w.old w.new (one_of Event) w.old.scheduler.running false) }
{
    let Some(spec) = spec_of(line) else {
        return Ok(Answer::Fail(Errno::EINVAL));
    };
    match w.rings_mut().make(spec) {
        Ok(event) => Ok(Answer::Int(i64::from(event.0))),
        Err(refusal) => refused(refusal),
    }
}

// The same with PTH_MODE_CHAIN: just before another event in its ring.
fn chain<P: Program>(w: &mut World<P>, e: i64, line: &EvLine) -> Result<Answer, OutOfMemory>
    requires whole { WellFormed w.old }
    requires few { HasNumbers w.old }
    ensures answered { IfOk result (λ a. IsAnswered w.old w.new a (λ (s : State P P.State P.Shared). (chain_row s e line.now).begin)) }
    ensures frame { OnOk result (Frame w.old w.new (one_of Event) w.old.scheduler.running false) }
{
    let Some(spec) = spec_of(line) else {
        return Ok(Answer::Fail(Errno::EINVAL));
    };
    match w.rings_mut().chain(spec, e) {
        Ok(event) => Ok(Answer::Int(i64::from(event.0))),
        Err(refusal) => refused(refusal),
    }
}

// pth_event_concat: two rings are one, and the first event is the answer.
fn ev_concat<P: Program>(w: &mut World<P>, e: i64, f: i64) -> Answer
    requires whole { WellFormed w.old }
    ensures answered { IsAnswered w.old w.new result (λ (s : State P P.State P.Shared). (concat_row s e f).begin) }
    ensures frame { Frame w.old w.new no_numbers w.old.scheduler.running false }
{
    match w.rings_mut().concat(e, f) {
        Ok(()) => Answer::Int(e),
        Err(errno) => Answer::Fail(errno),
    }
}

// pth_event_isolate: an event stands alone, and the next one of the rest is the answer.
fn ev_isolate<P: Program>(w: &mut World<P>, e: i64) -> Answer
    requires whole { WellFormed w.old }
    ensures answered { IsAnswered w.old w.new result (λ (s : State P P.State P.Shared). (isolate_row s e).begin) }
    ensures frame { Frame w.old w.new no_numbers w.old.scheduler.running false }
{
    match w.rings_mut().isolate(e) {
        Ok(Some(next)) => Answer::Int(i64::from(next.0)),
        Ok(None) => Answer::Int(0),
        Err(errno) => Answer::Fail(errno),
    }
}

// pth_event_walk: the neighbour of an event, or the next one that has occurred.
fn ev_walk<P: Program>(w: &World<P>, e: i64, forward: bool, until_occurred: bool) -> Answer
    requires whole { WellFormed w.now }
    ensures { IsAnswered w.now w.now result (λ (s : State P P.State P.Shared). (walk_row s e forward until_occurred).begin) }
{
    match w.rings().walk(e, forward, until_occurred) {
        Ok(found) => Answer::Int(i64::from(found.0)),
        Err(errno) => Answer::Fail(errno),
    }
}

// pth_event_status: what was found when an event was last looked at.
fn ev_status<P: Program>(w: &World<P>, e: i64) -> Answer
    requires whole { WellFormed w.now }
    ensures { IsAnswered w.now w.now result (λ (s : State P P.State P.Shared). (status_row s e).begin) }
{
    match w.rings().status(e) {
        Ok(Status::Pending) => Answer::Int(0),
        Ok(Status::Occurred) => Answer::Int(1),
        Ok(Status::Failed) => Answer::Int(2),
        Err(errno) => Answer::Fail(errno),
    }
}

// pth_event_typeof: what an event is of.
fn ev_kind<P: Program>(w: &World<P>, e: i64) -> Answer
    requires whole { WellFormed w.now }
    ensures { IsAnswered w.now w.now result (λ (s : State P P.State P.Shared). (kind_row s e).begin) }
{
    match w.rings().kind(e) {
        Ok(kind) => Answer::Int(i64::from(kind)),
        Err(errno) => Answer::Fail(errno),
    }
}

// pth_event_free: an event is gone, or its whole ring.
fn ev_free<P: Program>(w: &mut World<P>, e: i64, all: bool) -> Answer
    requires whole { WellFormed w.old }
    ensures answered { IsAnswered w.old w.new result (λ (s : State P P.State P.Shared). (free_row s e all).begin) }
    ensures frame { Frame w.old w.new no_numbers w.old.scheduler.running false }
{
    answer_of(w.rings_mut().free(e, all))
}

// The line of a call that makes an event. None for other calls.
fn line_of(call: &Call) -> Option<EvLine>
    ensures { result ≡ unchained_event_line call.now }
{
    match call {
        Call::EvFd { goals, fd } => Some(EvLine::Fd {
            goals: *goals,
            fd: *fd,
        }),
        Call::EvSelect { r, w, x } => Some(EvLine::Select {
            r: *r,
            w: *w,
            x: *x,
        }),
        Call::EvTime(at) => Some(EvLine::Time(*at)),
        Call::EvMsg(p) => Some(EvLine::Msg(*p)),
        Call::EvCond(c) => Some(EvLine::Cond(*c)),
        Call::EvTid { state, tid } => Some(EvLine::Tid {
            state: *state,
            tid: *tid,
        }),
        Call::EvFunc {
            check,
            arg,
            interval,
        } => Some(EvLine::Func {
            check: *check,
            arg: *arg,
            interval: *interval,
        }),
        _ => None,
    }
}

/// The answer of a call on events, whatever an event is of.
pub(crate) fn answer_events<P: Program>(
    w: &mut World<P>,
    t: Tid,
    call: &Call,
) -> Result<Answer, OutOfMemory>
    requires whole { WellFormed w.old }
    requires runs { w.old.scheduler.running ≡ Some t.0 }
    requires few { HasNumbers w.old }
    requires events { facility_of call.now ≡ Some facility.Events }
    ensures answered { IfOk result (λ a. IsAnswered w.old w.new a (λ (s : State P P.State P.Shared). (row_of P.functions s t.0 call.now).begin)) }
    ensures quiet { IfOk result (λ a. IsQuiet (Answered t call.now a)) }
    ensures frame { OnOk result (Frame w.old w.new (one_of Event) (Some t.0) false) }
{
    if let Some(line) = line_of(call) {
        return make_event(w, &line);
    }
    match call {
        Call::Chain { e, line } => chain(w, *e, line),
        Call::EvConcat { e, f } => Ok(ev_concat(w, *e, *f)),
        Call::EvIsolate(e) => Ok(ev_isolate(w, *e)),
        Call::EvWalk {
            e,
            forward,
            until_occurred,
        } => Ok(ev_walk(w, *e, *forward, *until_occurred)),
        Call::EvStatus(e) => Ok(ev_status(w, *e)),
        Call::EvKind(e) => Ok(ev_kind(w, *e)),
        Call::EvFree { e, all } => Ok(ev_free(w, *e, *all)),
        _ => unreachable!(),
    }
}
