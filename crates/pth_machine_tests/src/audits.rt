//! Lists of marks with their verdicts, and runs that are judged.

use crate::comparison::{same, tells};
use crate::driven::machine_of;
use crate::places::steps;
use crate::saved_runs::{RUNS, Run};
use pth_audit::auditor::{Auditor, audit};
use pth_audit::verdict::{AuditRule, Verdict};
use pth_base::act::Act;
use pth_base::answer::Answer;
use pth_base::call::Call;
use pth_base::errno::Errno;
use pth_base::ids::{HandlerId, MsgId, Tid};
use pth_base::mark::Mark;
use pth_base::marks::Marks;
use pth_base::memory::OutOfMemory;
use pth_base::outcome::Outcome;
use std::alloc::Global;
use std::process::Abort;
use std::test::Fail;

/// A mark of a list. The first number is a thread's. Calls are answered 1 if no other answer stands there.
#[derive(Clone, Copy)]
enum M {
    Dispatch(u32, u64, u64),
    Acquire(u32),
    Release(u32),
    Await(u32),
    Awaited(u32),
    Retakes(u32),
    Canceled(u32),
    GaveMutex(u32),
    Read(u32),
    Write(u32),
    Push(u32, i64),
    Pop(u32),
    Handler(u32, i64),
    Create(u32),
    Set(u32, i64),
    Destructor(u32, i64),
    SetAct(u32, i64),
    Port(u32, i64),
    Put(u32, i64, i64, i64),
    Get(u32, i64, u64, i64),
    GetNone(u32, i64),
    Pending(u32, i64, i64),
    Reply(u32, i64, i64),
    Destroy(u32, i64),
    Ends(u32, i64),
}

fn answered(t: u32, call: Call, answer: i64) -> Mark {
    Mark::Answered {
        tid: Tid(t),
        call,
        answer: Answer::Int(answer),
    }
}

/// The mark of a mutex, a lock or a condition, 0 each.
fn mark_of_lock(m: M) -> Option<Mark> {
    Some(match m {
        M::Acquire(t) => answered(t, Call::MutexAcquire { m: 0, v: 0, e: 0 }, 1),
        M::Release(t) => answered(t, Call::MutexRelease(0), 1),
        M::Awaited(t) => answered(t, Call::CondAwait { c: 0, m: 0, e: 0 }, 1),
        M::Await(t) => Mark::Waits {
            tid: Tid(t),
            call: Call::CondAwait { c: 0, m: 0, e: 0 },
        },
        M::Retakes(t) => Mark::Retakes {
            tid: Tid(t),
            call: Call::CondAwait { c: 0, m: 0, e: 0 },
        },
        M::GaveMutex(t) => Mark::GaveMutex {
            tid: Tid(t),
            mutex: 0,
        },
        M::Read(t) => answered(
            t,
            Call::RwAcquire {
                l: 0,
                write: false,
                v: 0,
                e: 0,
            },
            1,
        ),
        M::Write(t) => answered(
            t,
            Call::RwAcquire {
                l: 0,
                write: true,
                v: 0,
                e: 0,
            },
            1,
        ),
        _ => return None,
    })
}

/// The mark of a message.
fn mark_of_message(m: M) -> Option<Mark> {
    Some(match m {
        M::Port(t, p) => answered(t, Call::PortCreate(None), p),
        M::Put(t, p, v, r) => answered(t, Call::PortPut { p, v, r }, 1),
        M::Get(t, p, id, value) => Mark::Answered {
            tid: Tid(t),
            call: Call::PortGet(p),
            answer: Answer::Msg {
                id: MsgId(id),
                value,
            },
        },
        M::GetNone(t, p) => Mark::Answered {
            tid: Tid(t),
            call: Call::PortGet(p),
            answer: Answer::Fail(Errno::ENOENT),
        },
        M::Pending(t, p, n) => answered(t, Call::PortPending(p), n),
        M::Reply(t, m, v) => answered(t, Call::Reply { m, v }, 1),
        M::Destroy(t, p) => answered(t, Call::PortDestroy(p), 1),
        _ => return None,
    })
}

/// The mark of a handler, of key 0, or of an end.
fn mark_of_end(m: M) -> Option<Mark> {
    Some(match m {
        M::Push(t, v) => answered(t, Call::CleanupPush { h: 0, v }, 1),
        M::Pop(t) => answered(t, Call::CleanupPop(1), 1),
        M::Handler(t, arg) => Mark::Handler {
            tid: Tid(t),
            handler: HandlerId(0),
            arg,
        },
        M::Create(t) => answered(t, Call::KeyCreate(Some(0)), 0),
        M::Set(t, v) => answered(t, Call::KeySet { k: 0, v }, 1),
        M::Destructor(t, arg) => Mark::Destructor {
            tid: Tid(t),
            key: 0,
            arg,
        },
        M::SetAct(t, v) => Mark::Acted {
            tid: Tid(t),
            act: Act::SetKey(0, v),
            answer: Answer::Int(1),
        },
        M::Ends(t, value) => Mark::Ended { tid: Tid(t), value },
        _ => return None,
    })
}

fn mark_of(m: M) -> Mark {
    if let Some(mark) = mark_of_lock(m) {
        return mark;
    }
    if let Some(mark) = mark_of_message(m) {
        return mark;
    }
    if let Some(mark) = mark_of_end(m) {
        return mark;
    }
    match m {
        M::Dispatch(t, waited, allowed) => Mark::Dispatch {
            turn: 1,
            at: 0,
            tid: Tid(t),
            rank: 0,
            waited,
            allowed,
        },
        M::Canceled(t) => Mark::Canceled {
            tid: Tid(t),
            call: None,
        },
        _ => Mark::Moved { at: 0 },
    }
}

/// A list, and how many marks it takes to break a law, 0 if it meets all four.
struct Row {
    marks: &'static [M],
    at: u64,
    rule: AuditRule,
}

const LAWFUL: AuditRule = AuditRule::InTime;

static ROWS: [Row; 32] = [
    Row {
        marks: &[],
        at: 0,
        rule: LAWFUL,
    },
    Row {
        marks: &[M::Acquire(1), M::Acquire(2)],
        at: 2,
        rule: AuditRule::Exclusive,
    },
    Row {
        marks: &[M::Acquire(1), M::Acquire(1)],
        at: 0,
        rule: LAWFUL,
    },
    Row {
        marks: &[M::Release(1)],
        at: 1,
        rule: AuditRule::Exclusive,
    },
    Row {
        marks: &[M::Acquire(1), M::Acquire(1), M::Release(1), M::Acquire(2)],
        at: 4,
        rule: AuditRule::Exclusive,
    },
    Row {
        marks: &[M::Read(1), M::Read(1)],
        at: 0,
        rule: LAWFUL,
    },
    Row {
        marks: &[M::Write(1), M::Read(1)],
        at: 2,
        rule: AuditRule::Exclusive,
    },
    Row {
        marks: &[M::Read(1), M::Read(2), M::Write(1)],
        at: 3,
        rule: AuditRule::Exclusive,
    },
    Row {
        marks: &[M::GaveMutex(1)],
        at: 1,
        rule: AuditRule::Exclusive,
    },
    Row {
        marks: &[
            M::Acquire(2),
            M::Await(2),
            M::Acquire(1),
            M::Release(1),
            M::Awaited(2),
        ],
        at: 0,
        rule: LAWFUL,
    },
    Row {
        marks: &[M::Acquire(2), M::Await(2), M::Acquire(1), M::Awaited(2)],
        at: 4,
        rule: AuditRule::Exclusive,
    },
    Row {
        marks: &[M::Canceled(2), M::Retakes(2)],
        at: 0,
        rule: LAWFUL,
    },
    Row {
        marks: &[M::Canceled(2), M::Await(2)],
        at: 2,
        rule: AuditRule::Orderly,
    },
    Row {
        marks: &[M::Canceled(2), M::Ends(2, 0)],
        at: 2,
        rule: AuditRule::Orderly,
    },
    Row {
        marks: &[M::Canceled(2), M::Ends(2, -1)],
        at: 0,
        rule: LAWFUL,
    },
    Row {
        marks: &[M::Push(2, 7), M::Pop(2)],
        at: 2,
        rule: AuditRule::Orderly,
    },
    Row {
        marks: &[M::Push(2, 7), M::Handler(2, 7), M::Pop(2), M::Ends(2, 0)],
        at: 0,
        rule: LAWFUL,
    },
    Row {
        marks: &[
            M::Push(2, 7),
            M::Push(2, 8),
            M::Handler(2, 7),
            M::Handler(2, 8),
            M::Ends(2, 0),
        ],
        at: 5,
        rule: AuditRule::Orderly,
    },
    Row {
        marks: &[
            M::Create(2),
            M::Set(2, 5),
            M::Destructor(2, 6),
            M::Ends(2, 0),
        ],
        at: 4,
        rule: AuditRule::Orderly,
    },
    Row {
        marks: &[
            M::Create(2),
            M::Set(2, 5),
            M::Destructor(2, 5),
            M::SetAct(2, 5),
            M::Destructor(2, 5),
            M::SetAct(2, 5),
            M::Destructor(2, 5),
            M::SetAct(2, 5),
            M::Destructor(2, 5),
            M::SetAct(2, 5),
            M::Ends(2, 0),
        ],
        at: 0,
        rule: LAWFUL,
    },
    Row {
        marks: &[
            M::Create(2),
            M::Set(2, 5),
            M::Destructor(2, 5),
            M::SetAct(2, 5),
            M::Destructor(2, 5),
            M::SetAct(2, 5),
            M::Destructor(2, 5),
            M::SetAct(2, 5),
            M::Destructor(2, 5),
            M::SetAct(2, 5),
            M::Destructor(2, 5),
            M::SetAct(2, 5),
            M::Ends(2, 0),
        ],
        at: 13,
        rule: AuditRule::Orderly,
    },
    Row {
        marks: &[
            M::Port(1, 1),
            M::Put(1, 1, 7, 0),
            M::Get(1, 1, 1, 7),
            M::Get(1, 1, 1, 7),
        ],
        at: 4,
        rule: AuditRule::InOrder,
    },
    Row {
        marks: &[M::Port(1, 1), M::Put(1, 1, 7, 0), M::Get(1, 1, 1, 8)],
        at: 3,
        rule: AuditRule::InOrder,
    },
    Row {
        marks: &[M::Port(1, 1), M::Put(1, 1, 7, 0), M::GetNone(1, 1)],
        at: 3,
        rule: AuditRule::InOrder,
    },
    Row {
        marks: &[M::Port(1, 1), M::Put(1, 1, 7, 0), M::Pending(1, 1, 2)],
        at: 3,
        rule: AuditRule::InOrder,
    },
    Row {
        marks: &[
            M::Port(1, 1),
            M::Port(1, 2),
            M::Put(1, 1, 7, 2),
            M::Get(1, 1, 1, 7),
            M::Reply(1, 1, 8),
            M::Get(1, 2, 1, 8),
        ],
        at: 0,
        rule: LAWFUL,
    },
    Row {
        marks: &[
            M::Port(1, 1),
            M::Port(1, 2),
            M::Put(1, 1, 7, 2),
            M::Destroy(1, 1),
            M::Pending(1, 2, 0),
        ],
        at: 5,
        rule: AuditRule::InOrder,
    },
    Row {
        marks: &[M::Dispatch(1, 7, 6)],
        at: 1,
        rule: AuditRule::InTime,
    },
    Row {
        marks: &[M::Dispatch(1, 6, 6)],
        at: 0,
        rule: LAWFUL,
    },
    Row {
        marks: &[M::Ends(2, 0), M::Dispatch(2, 7, 6)],
        at: 2,
        rule: AuditRule::InTime,
    },
    Row {
        marks: &[M::Push(2, 7), M::Acquire(2), M::Ends(2, 0)],
        at: 3,
        rule: AuditRule::Orderly,
    },
    // a port of any number
    Row {
        marks: &[
            M::Port(1, i64::MIN),
            M::Put(1, i64::MIN, 7, 0),
            M::Get(1, i64::MIN, 1, 8),
        ],
        at: 3,
        rule: AuditRule::InOrder,
    },
];

/// The verdict is that of the row with this index.
fn is_verdict(rt: &impl Abort, k: usize, verdict: Verdict, row: &Row) {
    match verdict {
        Verdict::Yes => tells(rt, k, row.at == 0),
        Verdict::No { at, rule } => tells(rt, k, at == row.at && rule == row.rule),
    }
}

fn is_judged(rt: &impl Abort, alloc: Global, k: usize, row: &Row) -> Result<(), OutOfMemory> {
    let mut marks = Marks::new(alloc);
    for m in row.marks {
        marks.push(mark_of(*m))?;
    }
    is_verdict(rt, k, audit(alloc, marks.as_slice())?, row);
    Ok(())
}

fn are_judged(rt: &impl Abort, alloc: Global, rows: &[Row]) -> Result<(), Fail> {
    for (k, row) in rows.iter().enumerate() {
        is_judged(rt, alloc, k, row)?;
    }
    Ok(())
}

#[test]
fn lists_of_marks_are_judged(rt: HostRuntime) -> Result<(), Fail> {
    are_judged(&rt, rt.alloc(), &ROWS)
}

/// The marks of a run are lawful.
fn is_lawful(rt: &impl Abort, alloc: Global, run: &Run) -> Result<(), Fail> {
    let mut machine = machine_of(alloc, run.script.as_bytes())?;
    let mut marks = Marks::new(alloc);
    let _outcome = steps(&mut machine, 2000, &mut marks);
    match audit(alloc, marks.as_slice())? {
        Verdict::Yes => {}
        Verdict::No { at, .. } => same(rt, at, 0),
    }
    Ok(())
}

fn are_lawful(rt: &impl Abort, alloc: Global, runs: &[Run]) -> Result<(), Fail> {
    for run in runs {
        is_lawful(rt, alloc, run)?;
    }
    Ok(())
}

#[test]
fn runs_are_lawful(rt: HostRuntime) -> Result<(), Fail> {
    are_lawful(&rt, rt.alloc(), &RUNS)
}

/// Marks that no run has, and how many of them it takes to break a law.
struct Wrong {
    marks: &'static [M],
    at: u64,
    rule: AuditRule,
}

static WRONG: [Wrong; 4] = [
    Wrong {
        marks: &[M::Dispatch(9999, 7, 6)],
        at: 1,
        rule: AuditRule::InTime,
    },
    Wrong {
        marks: &[M::Ends(9999, 0), M::Ends(9999, 0)],
        at: 2,
        rule: AuditRule::Orderly,
    },
    Wrong {
        marks: &[M::Release(9999)],
        at: 1,
        rule: AuditRule::Exclusive,
    },
    Wrong {
        marks: &[M::Get(9999, 99, 1, 0)],
        at: 1,
        rule: AuditRule::InOrder,
    },
];

/// Wrong marks are found that stand behind the fifth step of a run.
fn is_found(rt: &impl Abort, alloc: Global, run: &Run, wrong: &Wrong) -> Result<(), Fail> {
    let mut machine = machine_of(alloc, run.script.as_bytes())?;
    let mut marks = Marks::new(alloc);
    let outcome = steps(&mut machine, 5, &mut marks);
    let before = marks.as_slice().len() as u64;
    for m in wrong.marks {
        marks.push(mark_of(*m))?;
    }
    match outcome {
        Outcome::Running => {
            let _outcome = steps(&mut machine, 2000, &mut marks);
        }
        _ => {}
    }
    match audit(alloc, marks.as_slice())? {
        Verdict::Yes => same(rt, 0, wrong.at),
        Verdict::No { at, rule } => {
            same(rt, at.saturating_sub(before), wrong.at);
            tells(rt, 0, rule == wrong.rule);
        }
    }
    Ok(())
}

fn are_found(rt: &impl Abort, alloc: Global, run: &Run) -> Result<(), Fail> {
    for wrong in &WRONG {
        is_found(rt, alloc, run, wrong)?;
    }
    Ok(())
}

#[test]
fn wrong_marks_are_found(rt: HostRuntime) -> Result<(), Fail> {
    for run in &RUNS {
        are_found(&rt, rt.alloc(), run)?;
    }
    Ok(())
}

/// Two handlers run as a thread is canceled.
const CANCELED: &str =
    "pth 1\nhandler 0\nnote arg\nend\nthread 0\na1 = spawn 1 0 0\nyield 0\ncancel a1\njoin a1\nend\nthread 1\ncleanup_push 0 1\ncleanup_push 0 2\na1 = ev_time 3\nwait a1\nnote 99\nend\n";

/// How the marks of a run are changed: two are exchanged, or one is a late dispatch. Places are from 0.
#[derive(Clone, Copy)]
enum Change {
    Exchanged(usize, usize),
    Late(usize),
}

/// The mark at a place after a change.
fn changed<'a>(marks: &'a [Mark], late: &'a Mark, change: Change, i: usize) -> Option<&'a Mark> {
    match change {
        Change::Exchanged(a, b) if i == a => marks.get(b),
        Change::Exchanged(a, b) if i == b => marks.get(a),
        Change::Late(a) if i == a => Some(late),
        _ => marks.get(i),
    }
}

fn verdict_of(alloc: Global, marks: &[Mark], change: Change) -> Result<Verdict, OutOfMemory> {
    let late = mark_of(M::Dispatch(1, 1000, 6));
    let mut auditor = Auditor::new(alloc);
    for i in 0..marks.len() {
        if let Some(mark) = changed(marks, &late, change, i) {
            if let Some(rule) = auditor.add(mark)? {
                return Ok(Verdict::No {
                    at: i as u64 + 1,
                    rule,
                });
            }
        }
    }
    Ok(Verdict::Yes)
}

#[test]
fn changed_marks_are_found(rt: HostRuntime) -> Result<(), Fail> {
    let alloc = rt.alloc();
    let mut machine = machine_of(alloc, CANCELED.as_bytes())?;
    let mut marks = Marks::new(alloc);
    let _outcome = steps(&mut machine, 2000, &mut marks);
    let marks = marks.as_slice();
    tells(&rt, 0, audit(alloc, marks)? == Verdict::Yes);
    let rule = AuditRule::Orderly;
    tells(
        &rt,
        1,
        verdict_of(alloc, marks, Change::Exchanged(14, 16))? == Verdict::No { at: 19, rule },
    );
    let rule = AuditRule::InTime;
    tells(
        &rt,
        2,
        verdict_of(alloc, marks, Change::Late(20))? == Verdict::No { at: 21, rule },
    );
    Ok(())
}
