//! Plans.

ghost use Rattle.std.specs.Prelude.{◌≡◌, ℤ, List, [], ◌∷◌};
ghost use Rattle.pth_base.specs.declared.answer.Answer.{Answer};
ghost use Rattle.pth_posix.specs.Plan.{plan};
ghost use Rattle.pth_posix.specs.declared.pcall.PCall.TheVariants as pcall;
ghost use Rattle.pth_posix.specs.declared.plan.Planned.TheVariants.{Calls, Answers};

use crate::cancel_state::{
    cancel_state, is_cancel_state, is_flag, old_state, old_type, state_in, type_in,
};
use crate::panswer::PAnswer;
use crate::pcall::PCall;
use crate::reading::{as_einval, as_eperm, as_timed_out, as_value_0, barrier_answer, value, zero};
use pth_base::answer::Answer;
use pth_base::call::Call;
use pth_base::errno::Errno;

/// What comes next in a POSIX call.
#[derive(Drop)]
pub enum Planned {
    /// A call of Pth is made.
    Calls(Call),
    /// The POSIX call is answered.
    Answers(PAnswer),
}

// A join begins with its call. No thread has the number 0.
fn join(t: i64) -> Planned
    ensures { result ≡ plan (pcall.Join t) [] }
{
    if t == 0 {
        Planned::Answers(PAnswer::Fail(Errno::ESRCH))
    } else {
        Planned::Calls(Call::Join(t))
    }
}

// A state or a type is set after the cancel state was asked for.
fn ask_state(flag: i64) -> Planned
    ensures state { result ≡ plan (pcall.SetState flag) [] }
    ensures kind { result ≡ plan (pcall.SetType flag) [] }
{
    if is_flag(flag) {
        Planned::Calls(Call::CancelState(0))
    } else {
        Planned::Answers(PAnswer::Fail(Errno::EINVAL))
    }
}

// The first call of a plan, or an answer without one.
#[inline(always)]
fn first_call(call: &PCall) -> Planned
    ensures { result ≡ plan call.now [] }
{
    Planned::Calls(match *call {
        PCall::Nothing => return Planned::Answers(PAnswer::None),
        PCall::Create { body, arg } => Call::Spawn {
            b: body,
            v: arg,
            a: 0,
        },
        PCall::SelfId => Call::SelfTid,
        PCall::Yield => Call::Yield(0),
        PCall::TestCancel => Call::CancelPoint,
        PCall::Exit(v) => Call::Exit(v),
        PCall::Join(t) => return join(t),
        PCall::Cancel(t) => Call::Cancel(t),
        PCall::SetState(s) => return ask_state(s),
        PCall::SetType(y) => return ask_state(y),
        PCall::Push { h, arg } => Call::CleanupPush { h, v: arg },
        PCall::Pop(e) => Call::CleanupPop(e),
        PCall::KeyCreate(h) => Call::KeyCreate(h),
        PCall::KeyDelete(k) => Call::KeyDelete(k),
        PCall::SetSpecific { k, v } => Call::KeySet { k, v },
        PCall::GetSpecific(k) => Call::KeyGet(k),
        PCall::Once { o, h, arg } => Call::Once { o, h, v: arg },
        PCall::MutexInit(m) => Call::MutexInit(m),
        PCall::Lock(m) => Call::MutexAcquire { m, v: 0, e: 0 },
        PCall::TryLock(m) => Call::MutexAcquire { m, v: 1, e: 0 },
        PCall::Unlock(m) => Call::MutexRelease(m),
        PCall::CondInit(c) => Call::CondInit(c),
        PCall::Signal(c) => Call::CondNotify { c, v: 0 },
        PCall::Broadcast(c) => Call::CondNotify { c, v: 1 },
        PCall::CondWait { c, m } => Call::CondAwait { c, m, e: 0 },
        PCall::TimedWait { at, .. } => Call::EvTime(at),
        PCall::RwInit(l) => Call::RwInit(l),
        PCall::RdLock(l) => Call::RwAcquire {
            l,
            write: false,
            v: 0,
            e: 0,
        },
        PCall::WrLock(l) => Call::RwAcquire {
            l,
            write: true,
            v: 0,
            e: 0,
        },
        PCall::RwUnlock(l) => Call::RwRelease(l),
        PCall::BarrierInit { b, n } => Call::BarrierInit { b, n },
        PCall::BarrierWait(b) => Call::BarrierReach(b),
    })
}

// The state is set as soon as the old cancel state was answered.
fn set_state(state: i64, first: &Answer, more: &[Answer]) -> Planned
    ensures { result ≡ plan (pcall.SetState state) (first.now ∷ more.now) }
{
    match (first, more) {
        _ if !is_flag(state) => Planned::Answers(PAnswer::Fail(Errno::EINVAL)),
        (Answer::Int(n), _) if !is_cancel_state(*n) => Planned::Answers(PAnswer::None),
        (Answer::Int(n), []) => Planned::Calls(Call::CancelState(cancel_state(state, type_in(*n)))),
        (Answer::Int(_), [set, ..]) => Planned::Answers(old_state(set)),
        _ => Planned::Answers(value(first)),
    }
}

// The type is set as soon as the old cancel state was answered.
fn set_type(kind: i64, first: &Answer, more: &[Answer]) -> Planned
    ensures { result ≡ plan (pcall.SetType kind) (first.now ∷ more.now) }
{
    match (first, more) {
        _ if !is_flag(kind) => Planned::Answers(PAnswer::Fail(Errno::EINVAL)),
        (Answer::Int(n), _) if !is_cancel_state(*n) => Planned::Answers(PAnswer::None),
        (Answer::Int(n), []) => Planned::Calls(Call::CancelState(cancel_state(state_in(*n), kind))),
        (Answer::Int(_), [set, ..]) => Planned::Answers(old_type(set)),
        _ => Planned::Answers(value(first)),
    }
}

// A timed wait goes on once its event was made, and is answered once `ev_free` was.
fn wait_timed(c: i64, m: i64, first: &Answer, more: &[Answer]) -> Planned
    ensures { (at : ℤ) → result ≡ plan (pcall.TimedWait c m at) (first.now ∷ more.now) }
{
    match (first, more) {
        (Answer::Int(e), []) => Planned::Calls(Call::CondAwait { c, m, e: *e }),
        (Answer::Int(e), [_]) => Planned::Calls(Call::EvFree { e: *e, all: true }),
        (Answer::Int(_), [waited, ..]) => Planned::Answers(as_timed_out(as_eperm(zero(waited)))),
        _ => Planned::Answers(value(first)),
    }
}

// A join is answered once its call was.
fn joined(t: i64, first: &Answer) -> PAnswer
    ensures { (more : List Answer) → Answers result ≡ plan (pcall.Join t) (first.now ∷ more) }
{
    if t == 0 {
        PAnswer::Fail(Errno::ESRCH)
    } else {
        value(first)
    }
}

// What follows the first answer.
#[inline(always)]
fn after_first(call: &PCall, first: &Answer, more: &[Answer]) -> Planned
    ensures { result ≡ plan call.now (first.now ∷ more.now) }
{
    match call {
        PCall::Nothing => Planned::Answers(PAnswer::None),
        PCall::Exit(v) => Planned::Calls(Call::Exit(*v)),
        PCall::SetState(s) => set_state(*s, first, more),
        PCall::SetType(y) => set_type(*y, first, more),
        PCall::TimedWait { c, m, .. } => wait_timed(*c, *m, first, more),
        PCall::Join(t) => Planned::Answers(joined(*t, first)),
        PCall::Create { .. } | PCall::SelfId | PCall::KeyCreate(_) => Planned::Answers(value(
            first,
        )),
        PCall::GetSpecific(_) => Planned::Answers(as_value_0(value(first))),
        PCall::KeyDelete(_) | PCall::SetSpecific { .. } => Planned::Answers(as_einval(zero(first))),
        PCall::Unlock(_) | PCall::CondWait { .. } | PCall::RwUnlock(_) => {
            Planned::Answers(as_eperm(zero(first)))
        }
        PCall::BarrierWait(_) => Planned::Answers(barrier_answer(first)),
        PCall::Yield
        | PCall::TestCancel
        | PCall::Cancel(_)
        | PCall::Push { .. }
        | PCall::Pop(_)
        | PCall::Once { .. }
        | PCall::MutexInit(_)
        | PCall::Lock(_)
        | PCall::TryLock(_)
        | PCall::CondInit(_)
        | PCall::Signal(_)
        | PCall::Broadcast(_)
        | PCall::RwInit(_)
        | PCall::RdLock(_)
        | PCall::WrLock(_)
        | PCall::BarrierInit { .. } => Planned::Answers(zero(first)),
    }
}

/// What comes next in a POSIX call: a call of Pth, or the answer. `got` has what its calls of Pth were answered so far, the earliest
/// first.
#[inline(always)]
pub fn plan(call: &PCall, got: &[Answer]) -> Planned
    ensures { result ≡ plan call.now got.now }
{
    match got {
        [] => first_call(call),
        [first, more @ ..] => after_first(call, first, more),
    }
}
