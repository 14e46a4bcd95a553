//! Plans of POSIX calls, each with what is answered so far.

use crate::comparison::same_text;
use crate::lines::lines_of;
use pth_base::answer::Answer;
use pth_base::bytes::Bytes;
use pth_base::call::Call;
use pth_base::errno::Errno;
use pth_base::ids::{FdSet, MsgId, Tid};
use pth_base::mark::Mark;
use pth_base::memory::OutOfMemory;
use pth_base::name::Name;
use pth_posix::panswer::PAnswer;
use pth_posix::pcall::PCall;
use pth_posix::plan::{Planned, plan};
use std::alloc::{AllocError, Global};
use std::process::Abort;
use std::str;
use std::test::Fail;

/// Each call with what its plan says first, a call of Pth in parentheses, and then with one answer: the numbers 3, 1, -1, -2 and 9; none,
/// bytes, a name, sets and a message; and the errors ENOENT, EDEADLK, EACCES, EINTR and EBUSY.
const PLANS: [(PCall, &str, &str); 43] = [
    (
        PCall::Nothing,
        "none",
        "none none none none none none none none none none none none none none none",
    ),
    (
        PCall::Create {
            body: i64::MIN,
            arg: i64::MAX,
        },
        "(spawn -9223372036854775808 9223372036854775807 0)",
        "3 1 -1 -2 9 none none none none none ENOENT EDEADLK EACCES EINTR EBUSY",
    ),
    (
        PCall::SelfId,
        "(self)",
        "3 1 -1 -2 9 none none none none none ENOENT EDEADLK EACCES EINTR EBUSY",
    ),
    (
        PCall::Yield,
        "(yield 0)",
        "0 0 0 0 0 none none none none none ENOENT EDEADLK EACCES EINTR EBUSY",
    ),
    (
        PCall::TestCancel,
        "(cancel_point)",
        "0 0 0 0 0 none none none none none ENOENT EDEADLK EACCES EINTR EBUSY",
    ),
    (
        PCall::Exit(-5),
        "(exit -5)",
        "(exit -5) (exit -5) (exit -5) (exit -5) (exit -5) (exit -5) (exit -5) (exit -5) (exit -5) (exit -5) (exit -5) (exit -5) (exit -5) (exit -5) (exit -5)",
    ),
    (
        PCall::Join(i64::MIN),
        "(join -9223372036854775808)",
        "3 1 -1 -2 9 none none none none none ENOENT EDEADLK EACCES EINTR EBUSY",
    ),
    (
        PCall::Join(0),
        "ESRCH",
        "ESRCH ESRCH ESRCH ESRCH ESRCH ESRCH ESRCH ESRCH ESRCH ESRCH ESRCH ESRCH ESRCH ESRCH ESRCH",
    ),
    (
        PCall::Join(1),
        "(join 1)",
        "3 1 -1 -2 9 none none none none none ENOENT EDEADLK EACCES EINTR EBUSY",
    ),
    (
        PCall::Cancel(i64::MAX),
        "(cancel 9223372036854775807)",
        "0 0 0 0 0 none none none none none ENOENT EDEADLK EACCES EINTR EBUSY",
    ),
    (
        PCall::SetState(0),
        "(cancel_state 0)",
        "(cancel_state 3) (cancel_state 1) none none none none none none none none ENOENT EDEADLK EACCES EINTR EBUSY",
    ),
    (
        PCall::SetState(1),
        "(cancel_state 0)",
        "(cancel_state 4) (cancel_state 2) none none none none none none none none ENOENT EDEADLK EACCES EINTR EBUSY",
    ),
    (
        PCall::SetState(2),
        "EINVAL",
        "EINVAL EINVAL EINVAL EINVAL EINVAL EINVAL EINVAL EINVAL EINVAL EINVAL EINVAL EINVAL EINVAL EINVAL EINVAL",
    ),
    (
        PCall::SetState(-1),
        "EINVAL",
        "EINVAL EINVAL EINVAL EINVAL EINVAL EINVAL EINVAL EINVAL EINVAL EINVAL EINVAL EINVAL EINVAL EINVAL EINVAL",
    ),
    (
        PCall::SetState(i64::MIN),
        "EINVAL",
        "EINVAL EINVAL EINVAL EINVAL EINVAL EINVAL EINVAL EINVAL EINVAL EINVAL EINVAL EINVAL EINVAL EINVAL EINVAL",
    ),
    (
        PCall::SetType(0),
        "(cancel_state 0)",
        "(cancel_state 1) (cancel_state 1) none none none none none none none none ENOENT EDEADLK EACCES EINTR EBUSY",
    ),
    (
        PCall::SetType(1),
        "(cancel_state 0)",
        "(cancel_state 3) (cancel_state 3) none none none none none none none none ENOENT EDEADLK EACCES EINTR EBUSY",
    ),
    (
        PCall::SetType(2),
        "EINVAL",
        "EINVAL EINVAL EINVAL EINVAL EINVAL EINVAL EINVAL EINVAL EINVAL EINVAL EINVAL EINVAL EINVAL EINVAL EINVAL",
    ),
    (
        PCall::SetType(-1),
        "EINVAL",
        "EINVAL EINVAL EINVAL EINVAL EINVAL EINVAL EINVAL EINVAL EINVAL EINVAL EINVAL EINVAL EINVAL EINVAL EINVAL",
    ),
    (
        PCall::SetType(i64::MAX),
        "EINVAL",
        "EINVAL EINVAL EINVAL EINVAL EINVAL EINVAL EINVAL EINVAL EINVAL EINVAL EINVAL EINVAL EINVAL EINVAL EINVAL",
    ),
    (
        PCall::Push {
            h: i64::MAX,
            arg: i64::MIN,
        },
        "(cleanup_push 9223372036854775807 -9223372036854775808)",
        "0 0 0 0 0 none none none none none ENOENT EDEADLK EACCES EINTR EBUSY",
    ),
    (
        PCall::Pop(i64::MIN),
        "(cleanup_pop -9223372036854775808)",
        "0 0 0 0 0 none none none none none ENOENT EDEADLK EACCES EINTR EBUSY",
    ),
    (
        PCall::KeyCreate(None),
        "(key_create -)",
        "3 1 -1 -2 9 none none none none none ENOENT EDEADLK EACCES EINTR EBUSY",
    ),
    (
        PCall::KeyCreate(Some(i64::MAX)),
        "(key_create 9223372036854775807)",
        "3 1 -1 -2 9 none none none none none ENOENT EDEADLK EACCES EINTR EBUSY",
    ),
    (
        PCall::KeyDelete(i64::MIN),
        "(key_delete -9223372036854775808)",
        "0 0 0 0 0 none none none none none EINVAL EDEADLK EACCES EINTR EBUSY",
    ),
    (
        PCall::SetSpecific {
            k: i64::MAX,
            v: i64::MIN,
        },
        "(key_set 9223372036854775807 -9223372036854775808)",
        "0 0 0 0 0 none none none none none EINVAL EDEADLK EACCES EINTR EBUSY",
    ),
    (
        PCall::GetSpecific(i64::MAX),
        "(key_get 9223372036854775807)",
        "3 1 -1 -2 9 none none none none none 0 EDEADLK EACCES EINTR EBUSY",
    ),
    (
        PCall::Once {
            o: 1,
            h: i64::MIN,
            arg: i64::MAX,
        },
        "(once 1 -9223372036854775808 9223372036854775807)",
        "0 0 0 0 0 none none none none none ENOENT EDEADLK EACCES EINTR EBUSY",
    ),
    (
        PCall::MutexInit(i64::MAX),
        "(mutex_init 9223372036854775807)",
        "0 0 0 0 0 none none none none none ENOENT EDEADLK EACCES EINTR EBUSY",
    ),
    (
        PCall::Lock(i64::MIN),
        "(mutex_acquire -9223372036854775808 0 0)",
        "0 0 0 0 0 none none none none none ENOENT EDEADLK EACCES EINTR EBUSY",
    ),
    (
        PCall::TryLock(i64::MAX),
        "(mutex_acquire 9223372036854775807 1 0)",
        "0 0 0 0 0 none none none none none ENOENT EDEADLK EACCES EINTR EBUSY",
    ),
    (
        PCall::Unlock(i64::MIN),
        "(mutex_release -9223372036854775808)",
        "0 0 0 0 0 none none none none none ENOENT EPERM EPERM EINTR EBUSY",
    ),
    (
        PCall::CondInit(i64::MAX),
        "(cond_init 9223372036854775807)",
        "0 0 0 0 0 none none none none none ENOENT EDEADLK EACCES EINTR EBUSY",
    ),
    (
        PCall::Signal(i64::MIN),
        "(cond_notify -9223372036854775808 0)",
        "0 0 0 0 0 none none none none none ENOENT EDEADLK EACCES EINTR EBUSY",
    ),
    (
        PCall::Broadcast(i64::MAX),
        "(cond_notify 9223372036854775807 1)",
        "0 0 0 0 0 none none none none none ENOENT EDEADLK EACCES EINTR EBUSY",
    ),
    (
        PCall::CondWait {
            c: i64::MIN,
            m: i64::MAX,
        },
        "(cond_await -9223372036854775808 9223372036854775807 0)",
        "0 0 0 0 0 none none none none none ENOENT EPERM EPERM EINTR EBUSY",
    ),
    (
        PCall::TimedWait {
            c: i64::MAX,
            m: i64::MIN,
            at: -7,
        },
        "(ev_time -7)",
        "(cond_await 9223372036854775807 -9223372036854775808 3) (cond_await 9223372036854775807 -9223372036854775808 1) (cond_await 9223372036854775807 -9223372036854775808 -1) (cond_await 9223372036854775807 -9223372036854775808 -2) (cond_await 9223372036854775807 -9223372036854775808 9) none none none none none ENOENT EDEADLK EACCES EINTR EBUSY",
    ),
    (
        PCall::RwInit(i64::MIN),
        "(rw_init -9223372036854775808)",
        "0 0 0 0 0 none none none none none ENOENT EDEADLK EACCES EINTR EBUSY",
    ),
    (
        PCall::RdLock(i64::MAX),
        "(rw_acquire 9223372036854775807 rd 0 0)",
        "0 0 0 0 0 none none none none none ENOENT EDEADLK EACCES EINTR EBUSY",
    ),
    (
        PCall::WrLock(i64::MIN),
        "(rw_acquire -9223372036854775808 rw 0 0)",
        "0 0 0 0 0 none none none none none ENOENT EDEADLK EACCES EINTR EBUSY",
    ),
    (
        PCall::RwUnlock(i64::MAX),
        "(rw_release 9223372036854775807)",
        "0 0 0 0 0 none none none none none ENOENT EPERM EPERM EINTR EBUSY",
    ),
    (
        PCall::BarrierInit {
            b: i64::MIN,
            n: i64::MAX,
        },
        "(barrier_init -9223372036854775808 9223372036854775807)",
        "0 0 0 0 0 none none none none none ENOENT EDEADLK EACCES EINTR EBUSY",
    ),
    (
        PCall::BarrierWait(i64::MAX),
        "(barrier_reach 9223372036854775807)",
        "0 0 0 -1 0 none none none none none ENOENT EDEADLK EACCES EINTR EBUSY",
    ),
];

/// A timed wait.
const WAIT: PCall = PCall::TimedWait { c: 1, m: 2, at: 3 };

/// An answer as it stands in a table.
#[derive(Clone, Copy)]
enum Got {
    None,
    Int(i64),
    Fail(Errno),
}

/// What plans say with several answers.
const LISTS: [(PCall, &[Got], &str); 45] = [
    (PCall::SetState(0), &[Got::Int(2), Got::Int(2)], "1"),
    (PCall::SetState(1), &[Got::Int(3), Got::Int(3)], "0"),
    (PCall::SetState(1), &[Got::Int(4), Got::Int(4)], "1"),
    (
        PCall::SetState(1),
        &[Got::Int(1), Got::Int(1), Got::Int(4)],
        "0",
    ),
    (
        PCall::SetState(1),
        &[Got::Int(1), Got::Fail(Errno::EBUSY)],
        "EBUSY",
    ),
    (PCall::SetState(1), &[Got::Int(1), Got::Int(0)], "none"),
    (PCall::SetState(1), &[Got::Int(1), Got::None], "none"),
    (PCall::SetState(5), &[Got::Int(1), Got::Int(1)], "EINVAL"),
    (
        PCall::SetState(1),
        &[Got::Fail(Errno::EBUSY), Got::Int(1)],
        "EBUSY",
    ),
    (PCall::SetState(1), &[Got::Int(9), Got::Int(1)], "none"),
    (
        PCall::SetType(1),
        &[Got::Int(0), Got::Int(1), Got::Int(1)],
        "none",
    ),
    (PCall::SetType(0), &[Got::None, Got::Int(1)], "none"),
    (PCall::SetState(0), &[Got::Int(1)], "(cancel_state 1)"),
    (PCall::SetState(0), &[Got::Int(2)], "(cancel_state 1)"),
    (PCall::SetState(0), &[Got::Int(4)], "(cancel_state 3)"),
    (PCall::SetState(1), &[Got::Int(1)], "(cancel_state 2)"),
    (PCall::SetState(1), &[Got::Int(2)], "(cancel_state 2)"),
    (PCall::SetState(1), &[Got::Int(0)], "none"),
    (PCall::SetState(1), &[Got::Int(5)], "none"),
    (PCall::SetType(0), &[Got::Int(2)], "(cancel_state 2)"),
    (PCall::SetType(0), &[Got::Int(4)], "(cancel_state 2)"),
    (PCall::SetType(1), &[Got::Int(2)], "(cancel_state 4)"),
    (PCall::SetType(1), &[Got::Int(1)], "(cancel_state 3)"),
    (PCall::SetType(0), &[Got::Int(2), Got::Int(2)], "0"),
    (PCall::SetType(0), &[Got::Int(1), Got::Int(1)], "0"),
    (PCall::SetType(1), &[Got::Int(3), Got::Int(3)], "1"),
    (
        PCall::SetType(1),
        &[Got::Int(4), Got::Int(4), Got::None],
        "1",
    ),
    (PCall::SetType(1), &[Got::Int(4), Got::Int(9)], "none"),
    (PCall::SetType(3), &[Got::Int(4), Got::Int(4)], "EINVAL"),
    (WAIT, &[Got::Int(8), Got::Int(1)], "(ev_free 8 all)"),
    (
        WAIT,
        &[Got::Int(8), Got::Fail(Errno::EINVAL)],
        "(ev_free 8 all)",
    ),
    (WAIT, &[Got::Int(8), Got::None], "(ev_free 8 all)"),
    (WAIT, &[Got::Int(8), Got::Int(1), Got::Int(1)], "0"),
    (
        WAIT,
        &[Got::Int(8), Got::Fail(Errno::EINTR), Got::Int(1)],
        "timed out",
    ),
    (
        WAIT,
        &[
            Got::Int(8),
            Got::Fail(Errno::EINTR),
            Got::Fail(Errno::EINVAL),
        ],
        "timed out",
    ),
    (
        WAIT,
        &[Got::Int(8), Got::Fail(Errno::EINTR), Got::None, Got::Int(1)],
        "timed out",
    ),
    (
        WAIT,
        &[Got::Int(8), Got::Fail(Errno::EDEADLK), Got::Int(1)],
        "EPERM",
    ),
    (
        WAIT,
        &[Got::Int(8), Got::Fail(Errno::EACCES), Got::Int(1)],
        "EPERM",
    ),
    (
        WAIT,
        &[Got::Int(8), Got::Fail(Errno::EBUSY), Got::Int(1)],
        "EBUSY",
    ),
    (WAIT, &[Got::Int(8), Got::None, Got::Int(1)], "none"),
    (
        WAIT,
        &[Got::Fail(Errno::EINTR), Got::Int(1), Got::Int(1)],
        "EINTR",
    ),
    (
        WAIT,
        &[Got::None, Got::Fail(Errno::EINTR), Got::Int(1)],
        "none",
    ),
    (PCall::Lock(0), &[Got::Int(1), Got::Fail(Errno::EBUSY)], "0"),
    (
        PCall::Nothing,
        &[Got::Int(1), Got::Int(1), Got::Int(1)],
        "none",
    ),
    (
        PCall::Exit(4),
        &[Got::Int(1), Got::Int(1), Got::Int(1)],
        "(exit 4)",
    ),
];

/// Adds the answers of the table that are no numbers and no errors.
fn add_others(alloc: Global, answers: &mut Vec<Answer>) -> Result<(), OutOfMemory> {
    answers.push(Answer::None)?;
    answers.push(Answer::Bytes(Bytes::from_slice(alloc, b"8")?))?;
    answers.push(Answer::Text(Name::cut("8")))?;
    answers.push(Answer::Sets {
        count: 1,
        r: FdSet(1),
        w: FdSet(0),
        x: FdSet(0),
    })?;
    answers.push(Answer::Msg {
        id: MsgId(1),
        value: 3,
    })?;
    Ok(())
}

/// The numbers and the errors of the table.
const NUMBERS: [i64; 5] = [3, 1, -1, -2, 9];

const ERRORS: [Errno; 5] = [
    Errno::ENOENT,
    Errno::EDEADLK,
    Errno::EACCES,
    Errno::EINTR,
    Errno::EBUSY,
];

/// The answers of the table of plans.
fn answers(alloc: Global) -> Result<Vec<Answer>, OutOfMemory> {
    let mut answers = Vec::new(alloc);
    for n in NUMBERS {
        answers.push(Answer::Int(n))?;
    }
    add_others(alloc, &mut answers)?;
    for e in ERRORS {
        answers.push(Answer::Fail(e))?;
    }
    Ok(answers)
}

/// Adds a call in parentheses, as a line of a run tells it.
fn add_call(alloc: Global, call: Call, text: &mut String) -> Result<(), AllocError> {
    let marks = [Mark::Waits { tid: Tid(1), call }];
    let line = lines_of(alloc, &marks).map_err(|_| AllocError)?;
    let line = str::from_utf8(line.as_slice()).unwrap_or("");
    let line = line.strip_prefix("t1 ").unwrap_or("");
    write!(text, "({})", line.strip_suffix(" waits\n").unwrap_or(""))
}

fn add_answer(answer: PAnswer, text: &mut String) -> Result<(), AllocError> {
    match answer {
        PAnswer::None => text.push_str("none"),
        PAnswer::Value(n) => write!(text, "{n}"),
        PAnswer::Fail(e) => write!(text, "{e:?}"),
        PAnswer::TimedOut => text.push_str("timed out"),
    }
}

/// Adds what a plan says.
fn add_planned(
    alloc: Global,
    call: &PCall,
    got: &[Answer],
    text: &mut String,
) -> Result<(), AllocError> {
    match plan(call, got) {
        Planned::Calls(call) => add_call(alloc, call, text),
        Planned::Answers(answer) => add_answer(answer, text),
    }
}

/// What a plan says with one answer, for each of the table.
fn with_one_answer(alloc: Global, call: &PCall, answers: &[Answer]) -> Result<String, AllocError> {
    let mut text = String::new(alloc);
    for answer in answers.chunks(1) {
        add_planned(alloc, call, answer, &mut text)?;
        text.push(' ')?;
    }
    Ok(text)
}

/// What a plan says with these answers.
fn with_answers(alloc: Global, call: &PCall, got: &[Answer]) -> Result<String, AllocError> {
    let mut text = String::new(alloc);
    add_planned(alloc, call, got, &mut text)?;
    Ok(text)
}

fn answers_of(alloc: Global, got: &[Got]) -> Result<Vec<Answer>, AllocError> {
    let mut answers = Vec::new(alloc);
    for answer in got {
        answers.push(match answer {
            Got::None => Answer::None,
            Got::Int(n) => Answer::Int(*n),
            Got::Fail(e) => Answer::Fail(*e),
        })?;
    }
    Ok(answers)
}

fn plans_are(
    rt: &impl Abort,
    alloc: Global,
    plans: &[(PCall, &str, &str)],
) -> Result<(), AllocError> {
    let answers = answers(alloc).map_err(|_| AllocError)?;
    for (call, first, next) in plans {
        same_text(rt, with_answers(alloc, call, &[])?.as_str(), first);
        let told = with_one_answer(alloc, call, answers.as_slice())?;
        same_text(rt, told.trim_end(), next);
    }
    Ok(())
}

fn lists_are(
    rt: &impl Abort,
    alloc: Global,
    lists: &[(PCall, &[Got], &str)],
) -> Result<(), AllocError> {
    for (call, got, wanted) in lists {
        let answers = answers_of(alloc, got)?;
        let told = with_answers(alloc, call, answers.as_slice())?;
        same_text(rt, told.as_str(), wanted);
    }
    Ok(())
}

#[test]
fn a_plan_says_what_is_next(rt: HostRuntime) -> Result<(), Fail> {
    plans_are(&rt, rt.alloc(), &PLANS)?;
    lists_are(&rt, rt.alloc(), &LISTS)?;
    Ok(())
}
