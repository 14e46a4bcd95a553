//! Programs of POSIX calls, with the lines of their runs, and what their steps are answered.

ghost use Rattle.std.specs.Prelude.{◌≡◌, IfOk};

use crate::comparison::{has_ended, same_lines, tells};
use crate::driven::started;
use crate::places::add_lines;
use pth_base::marks::Marks;
use pth_base::memory::OutOfMemory;
use pth_posix::listed::Listed;
use pth_posix::pcall::PCall;
use pth_posix::posix::Posix;
use pth_sched::machine::Machine;
use pth_text::text::Text;
use std::alloc::Global;
use std::process::Abort;
use std::test::Fail;

/// A program of a list of calls for each body, with what its run comes to.
struct Row {
    bodies: &'static [&'static [PCall]],
    lines: &'static str,
    /// The answers of all steps in order, as numbers, where errors are below 0. The last of a thread comes before its exit.
    answers: &'static [Option<i64>],
}

const EPERM: Option<i64> = Some(-1);

const ESRCH: Option<i64> = Some(-3);

const EINVAL: Option<i64> = Some(-22);

const ETIMEDOUT: Option<i64> = Some(-1000);

static ROWS: [Row; 13] = [
    // a timed wait that its moment ends
    Row {
        bodies: &[&[
            PCall::MutexInit(0),
            PCall::CondInit(0),
            PCall::Lock(0),
            PCall::TimedWait { c: 0, m: 0, at: 5 },
            PCall::Unlock(0),
        ]],
        lines: "turn 1 at 0 t1 rank 0\nt1 mutex_init 0 = 1\nt1 cond_init 0 = 1\nt1 mutex_acquire 0 0 0 = 1\nt1 ev_time 5 = 1\nt1 cond_await 0 0 1 waits\nidle to 5\nwake t1 rank 1\nturn 2 at 5 t1 rank 1\nt1 cond_await 0 0 1 = EINTR\nt1 ev_free 1 all = 1\nt1 mutex_release 0 = 1\nt1 ends 0\n",
        answers: &[None, Some(0), Some(0), Some(0), ETIMEDOUT, Some(0)],
    },
    // states and types, and errors
    Row {
        bodies: &[&[
            PCall::SetType(1),
            PCall::SetState(2),
            PCall::Unlock(70),
            PCall::Join(0),
        ]],
        lines: "turn 1 at 0 t1 rank 0\nt1 cancel_state 0 = 1\nt1 cancel_state 3 = 1\nt1 mutex_release 70 = EINVAL\nt1 ends 0\n",
        answers: &[None, Some(0), EINVAL, EINVAL, ESRCH],
    },
    // a signal before the moment
    Row {
        bodies: &[
            &[
                PCall::MutexInit(0),
                PCall::CondInit(0),
                PCall::Create { body: 1, arg: 0 },
                PCall::Lock(0),
                PCall::TimedWait { c: 0, m: 0, at: 50 },
                PCall::Unlock(0),
            ],
            &[PCall::Lock(0), PCall::Signal(0), PCall::Unlock(0)],
        ],
        lines: "turn 1 at 0 t1 rank 0\nt1 mutex_init 0 = 1\nt1 cond_init 0 = 1\nt1 spawn 1 0 0 = 2\nt1 mutex_acquire 0 0 0 = 1\nt1 ev_time 50 = 1\nt1 cond_await 0 0 1 waits\nturn 2 at 1 t2 rank 5\nt2 mutex_acquire 0 0 0 = 1\nt2 cond_notify 0 0 = 1\nt2 mutex_release 0 = 1\nt2 ends 0\nwake t1 rank 1\nturn 3 at 2 t1 rank 1\nt1 cond_await 0 0 1 = 1\nt1 ev_free 1 all = 1\nt1 mutex_release 0 = 1\nt1 ends 0\n",
        answers: &[
            None,
            Some(0),
            Some(0),
            Some(2),
            Some(0),
            None,
            Some(0),
            Some(0),
            Some(0),
            Some(0),
            Some(0),
        ],
    },
    // a barrier of two, whose last arrival is told apart
    Row {
        bodies: &[
            &[
                PCall::BarrierInit { b: 0, n: 2 },
                PCall::Create { body: 1, arg: 0 },
                PCall::BarrierWait(0),
                PCall::Join(2),
            ],
            &[PCall::BarrierWait(0)],
        ],
        lines: "turn 1 at 0 t1 rank 0\nt1 barrier_init 0 2 = 1\nt1 spawn 1 0 0 = 2\nt1 barrier_reach 0 waits\nturn 2 at 1 t2 rank 5\nt2 barrier_reach 0 = -2\nt2 ends 0\nwake t1 rank 1\nturn 3 at 2 t1 rank 1\nt1 barrier_reach 0 = -1\nt1 join 2 = 0\nt1 ends 0\n",
        answers: &[None, Some(0), Some(2), None, Some(-1), Some(0), Some(0)],
    },
    // keys that are live, and one that is not
    Row {
        bodies: &[&[
            PCall::KeyCreate(None),
            PCall::GetSpecific(0),
            PCall::SetSpecific { k: 0, v: 7 },
            PCall::GetSpecific(0),
            PCall::GetSpecific(9),
            PCall::SetSpecific { k: 9, v: 1 },
            PCall::KeyDelete(9),
        ]],
        lines: "turn 1 at 0 t1 rank 0\nt1 key_create - = 0\nt1 key_get 0 = 0\nt1 key_set 0 7 = 1\nt1 key_get 0 = 7\nt1 key_get 9 = ENOENT\nt1 key_set 9 1 = ENOENT\nt1 key_delete 9 = ENOENT\nt1 ends 0\n",
        answers: &[
            None,
            Some(0),
            Some(0),
            Some(0),
            Some(7),
            Some(0),
            EINVAL,
            EINVAL,
        ],
    },
    // timed waits that are refused: no condition, no moment, and a mutex that nobody has
    Row {
        bodies: &[&[
            PCall::TimedWait { c: 70, m: 0, at: 5 },
            PCall::TimedWait { c: 0, m: 0, at: -1 },
            PCall::MutexInit(0),
            PCall::CondInit(0),
            PCall::TimedWait { c: 0, m: 0, at: 5 },
        ]],
        lines: "turn 1 at 0 t1 rank 0\nt1 ev_time 5 = 1\nt1 cond_await 70 0 1 = EINVAL\nt1 ev_free 1 all = 1\nt1 ev_time -1 = EINVAL\nt1 mutex_init 0 = 1\nt1 cond_init 0 = 1\nt1 ev_time 5 = 2\nt1 cond_await 0 0 2 = EDEADLK\nt1 ev_free 2 all = 1\nt1 ends 0\n",
        answers: &[None, EINVAL, EINVAL, Some(0), Some(0), EPERM],
    },
    // a thread whose body is not there, and an unlock of what another thread has
    Row {
        bodies: &[
            &[
                PCall::Create { body: 2, arg: 0 },
                PCall::MutexInit(0),
                PCall::Lock(0),
                PCall::Create { body: 1, arg: 0 },
                PCall::Yield,
                PCall::Unlock(0),
                PCall::SelfId,
            ],
            &[PCall::TryLock(0), PCall::Unlock(0), PCall::SelfId],
        ],
        lines: "turn 1 at 0 t1 rank 0\nt1 spawn 2 0 0 = EINVAL\nt1 mutex_init 0 = 1\nt1 mutex_acquire 0 0 0 = 1\nt1 spawn 1 0 0 = 2\nt1 yield 0 = 1\nturn 2 at 1 t2 rank 1\nt2 mutex_acquire 0 1 0 = EBUSY\nt2 mutex_release 0 = EACCES\nt2 self = 2\nt2 ends 0\nturn 3 at 2 t1 rank 1\nt1 mutex_release 0 = 1\nt1 self = 1\nt1 ends 0\n",
        answers: &[
            None,
            EINVAL,
            Some(0),
            Some(0),
            Some(2),
            None,
            Some(-16),
            EPERM,
            Some(2),
            Some(0),
            Some(0),
            Some(1),
        ],
    },
    // a barrier of three: the last arrival is told apart, the first is not
    Row {
        bodies: &[
            &[
                PCall::BarrierInit { b: 0, n: 3 },
                PCall::Create { body: 1, arg: 0 },
                PCall::Create { body: 1, arg: 0 },
                PCall::BarrierWait(0),
            ],
            &[PCall::BarrierWait(0)],
        ],
        lines: "turn 1 at 0 t1 rank 0\nt1 barrier_init 0 3 = 1\nt1 spawn 1 0 0 = 2\nt1 spawn 1 0 0 = 3\nt1 barrier_reach 0 waits\nturn 2 at 1 t2 rank 6\nt2 barrier_reach 0 waits\nturn 3 at 2 t3 rank 6\nt3 barrier_reach 0 = -2\nt3 ends 0\nwake t1 rank 1\nwake t2 rank 1\nturn 4 at 3 t1 rank 1\nt1 barrier_reach 0 = -1\nt1 exit 0 waits\nturn 5 at 4 t2 rank 2\nt2 barrier_reach 0 = 1\nt2 ends 0\nwake t1 rank 1\nturn 6 at 5 t1 rank 1\nt1 ends 0\n",
        answers: &[
            None,
            Some(0),
            Some(2),
            Some(3),
            None,
            None,
            Some(-1),
            Some(0),
            Some(0),
        ],
    },
    // a thread exits with a value, which is handed to who joins it
    Row {
        bodies: &[
            &[PCall::Create { body: 1, arg: 0 }, PCall::Join(2)],
            &[PCall::Exit(7)],
        ],
        lines: "turn 1 at 0 t1 rank 0\nt1 spawn 1 0 0 = 2\nt1 join 2 waits\nturn 2 at 1 t2 rank 5\nt2 ends 7\nwake t1 rank 1\nturn 3 at 2 t1 rank 1\nt1 join 2 = 7\nt1 ends 0\n",
        answers: &[None, Some(2), None, Some(7)],
    },
    // a mutex is recursive; a lock, states and types, handlers, a once control, and calls on threads
    Row {
        bodies: &[&[
            PCall::MutexInit(0),
            PCall::Lock(0),
            PCall::Lock(0),
            PCall::Unlock(0),
            PCall::Unlock(0),
            PCall::Unlock(0),
            PCall::RwInit(0),
            PCall::RdLock(0),
            PCall::RdLock(0),
            PCall::RwUnlock(0),
            PCall::WrLock(0),
            PCall::RwUnlock(0),
            PCall::RwUnlock(0),
            PCall::SetState(1),
            PCall::SetState(0),
            PCall::SetType(1),
            PCall::SetType(0),
            PCall::TestCancel,
            PCall::Push { h: 0, arg: 5 },
            PCall::Pop(1),
            PCall::Pop(0),
            PCall::Once { o: 0, h: 3, arg: 4 },
            PCall::Once { o: 0, h: 3, arg: 4 },
            PCall::Cancel(1),
            PCall::Cancel(9),
            PCall::Yield,
            PCall::SelfId,
        ]],
        lines: "turn 1 at 0 t1 rank 0\nt1 mutex_init 0 = 1\nt1 mutex_acquire 0 0 0 = 1\nt1 mutex_acquire 0 0 0 = 1\nt1 mutex_release 0 = 1\nt1 mutex_release 0 = 1\nt1 mutex_release 0 = EDEADLK\nt1 rw_init 0 = 1\nt1 rw_acquire 0 rd 0 0 = 1\nt1 rw_acquire 0 rd 0 0 = EDEADLK\nt1 rw_release 0 = 1\nt1 rw_acquire 0 rw 0 0 = 1\nt1 rw_release 0 = 1\nt1 rw_release 0 = EDEADLK\nt1 cancel_state 0 = 1\nt1 cancel_state 2 = 1\nt1 cancel_state 0 = 2\nt1 cancel_state 1 = 2\nt1 cancel_state 0 = 1\nt1 cancel_state 3 = 1\nt1 cancel_state 0 = 3\nt1 cancel_state 1 = 3\nt1 cancel_point = 1\nt1 cleanup_push 0 5 = 1\nt1 handler 0 arg 5\nt1 cleanup_pop 1 = 1\nt1 cleanup_pop 0 = EINVAL\nt1 handler 3 arg 4\nt1 once 0 3 4 = 1\nt1 once 0 3 4 = 1\nt1 cancel 1 = EINVAL\nt1 cancel 9 = ESRCH\nt1 yield 0 = 1\nturn 2 at 1 t1 rank 0\nt1 self = 1\nt1 ends 0\n",
        answers: &[
            None,
            Some(0),
            Some(0),
            Some(0),
            Some(0),
            Some(0),
            EPERM,
            Some(0),
            Some(0),
            Some(-35),
            Some(0),
            Some(0),
            Some(0),
            EPERM,
            Some(0),
            Some(1),
            Some(0),
            Some(1),
            Some(0),
            Some(0),
            Some(0),
            EINVAL,
            Some(0),
            Some(0),
            EINVAL,
            ESRCH,
            Some(0),
            Some(1),
        ],
    },
    // two threads wait at a condition, and both are woken
    Row {
        bodies: &[
            &[
                PCall::MutexInit(0),
                PCall::CondInit(0),
                PCall::Create { body: 1, arg: 0 },
                PCall::Create { body: 1, arg: 0 },
                PCall::Yield,
                PCall::Lock(0),
                PCall::Broadcast(0),
                PCall::Unlock(0),
            ],
            &[
                PCall::Lock(0),
                PCall::CondWait { c: 0, m: 0 },
                PCall::Unlock(0),
            ],
        ],
        lines: "turn 1 at 0 t1 rank 0\nt1 mutex_init 0 = 1\nt1 cond_init 0 = 1\nt1 spawn 1 0 0 = 2\nt1 spawn 1 0 0 = 3\nt1 yield 0 = 1\nturn 2 at 1 t2 rank 2\nt2 mutex_acquire 0 0 0 = 1\nt2 cond_await 0 0 0 waits\nturn 3 at 2 t3 rank 2\nt3 mutex_acquire 0 0 0 = 1\nt3 cond_await 0 0 0 waits\nturn 4 at 3 t1 rank 2\nt1 mutex_acquire 0 0 0 = 1\nt1 cond_notify 0 1 = 1\nt1 mutex_release 0 = 1\nt1 exit 0 waits\nwake t2 rank 1\nwake t3 rank 1\nturn 5 at 4 t2 rank 1\nt2 cond_await 0 0 0 = 1\nt2 mutex_release 0 = 1\nt2 ends 0\nturn 6 at 5 t3 rank 2\nt3 cond_await 0 0 0 = 1\nt3 mutex_release 0 = 1\nt3 ends 0\nwake t1 rank 1\nturn 7 at 6 t1 rank 1\nt1 ends 0\n",
        answers: &[
            None,
            Some(0),
            Some(0),
            Some(2),
            Some(3),
            None,
            Some(0),
            None,
            Some(0),
            Some(0),
            Some(0),
            Some(0),
            Some(0),
            Some(0),
            Some(0),
            Some(0),
            Some(0),
        ],
    },
    // a thread is canceled in its timed wait, and a join is answered -1
    Row {
        bodies: &[
            &[
                PCall::MutexInit(0),
                PCall::CondInit(0),
                PCall::Create { body: 1, arg: 0 },
                PCall::Yield,
                PCall::Cancel(2),
                PCall::Join(2),
            ],
            &[
                PCall::Lock(0),
                PCall::TimedWait {
                    c: 0,
                    m: 0,
                    at: 1000,
                },
            ],
        ],
        lines: "turn 1 at 0 t1 rank 0\nt1 mutex_init 0 = 1\nt1 cond_init 0 = 1\nt1 spawn 1 0 0 = 2\nt1 yield 0 = 1\nturn 2 at 1 t2 rank 1\nt2 mutex_acquire 0 0 0 = 1\nt2 ev_time 1000 = 1\nt2 cond_await 0 0 1 waits\nturn 3 at 2 t1 rank 1\nt1 cancel 2 = 1\nt1 join 2 waits\nwake t2 rank 1\nturn 4 at 3 t2 rank 1\nt2 cond_await 0 0 1 canceled\nt2 takes mutex 0\nt2 gives mutex 0\nt2 ends -1\nwake t1 rank 1\nturn 5 at 4 t1 rank 1\nt1 join 2 = -1\nt1 ends 0\n",
        answers: &[
            None,
            Some(0),
            Some(0),
            Some(2),
            None,
            Some(0),
            Some(0),
            Some(0),
            Some(-1),
        ],
    },
    // no list is one empty list
    Row {
        bodies: &[],
        lines: "turn 1 at 0 t1 rank 0\nt1 ends 0\n",
        answers: &[None],
    },
];

/// Adds a body with these calls.
fn add_body(listed: &mut Listed, calls: &[PCall]) -> Result<(), OutOfMemory> {
    let body = listed.body()?;
    for call in calls {
        listed.push(body, *call)?;
    }
    Ok(())
}

/// The machine of a program.
fn machine_of(
    rt: &impl Abort,
    alloc: Global,
    bodies: &[&[PCall]],
) -> Result<Machine<Posix<Listed>>, OutOfMemory>
    ensures { IfOk result (λ machine. machine.turn.steps ≡ 0) }
{
    let mut listed = Listed::new(alloc);
    for calls in bodies {
        add_body(&mut listed, calls)?;
    }
    started(rt, alloc, Posix::new(listed))
}

/// Whether the answer at k is this number; none is no number.
fn is_answer(machine: &Machine<Posix<Listed>>, k: i64, answer: Option<i64>) -> bool {
    match answer {
        Some(n) => machine.world().check(k, n) && !machine.world().check(k, !n),
        None => !machine.world().check(k, 0),
    }
}

/// Whether the steps were answered so, and no more steps were.
fn has_answers(rt: &impl Abort, machine: &Machine<Posix<Listed>>, answers: &[Option<i64>]) {
    for (k, answer) in answers.iter().enumerate() {
        tells(rt, k, is_answer(machine, k as i64, *answer));
    }
    tells(
        rt,
        answers.len(),
        is_answer(machine, answers.len() as i64, None),
    );
}

/// Runs a program to its end, and compares what it comes to.
fn comes_to(rt: &impl Abort, alloc: Global, row: &Row) -> Result<(), OutOfMemory> {
    let mut machine = machine_of(rt, alloc, row.bodies)?;
    let mut marks = Marks::new(alloc);
    let outcome = machine.advance(1000, &mut marks);
    let mut lines = Text::new(alloc);
    add_lines(&marks, &mut lines)?;
    same_lines(rt, lines.as_slice(), row.lines);
    has_ended(rt, outcome);
    has_answers(rt, &machine, row.answers);
    Ok(())
}

fn all_come_to(rt: &impl Abort, alloc: Global, rows: &[Row]) -> Result<(), Fail> {
    for row in rows {
        comes_to(rt, alloc, row)?;
    }
    Ok(())
}

#[test]
fn programs_of_posix_calls_run(rt: HostRuntime) -> Result<(), Fail> {
    all_come_to(&rt, rt.alloc(), &ROWS)
}
