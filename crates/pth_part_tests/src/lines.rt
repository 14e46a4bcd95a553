//! Lines that no run prints.

use crate::comparison::same_bytes;
use pth_base::answer::Answer;
use pth_base::call::Call;
use pth_base::errno::Errno;
use pth_base::event::EvLine;
use pth_base::ids::{MsgId, Tid};
use pth_base::mark::Mark;
use pth_base::memory::OutOfMemory;
use pth_base::thread::ThreadState;
use pth_print::fault_line::{Fault, fault_line};
use pth_print::mark_line::mark_line;
use pth_text::text::Text;
use std::alloc::Global;
use std::process::Abort;
use std::test::Fail;

/// The lines of marks.
pub fn lines_of(alloc: Global, marks: &[Mark]) -> Result<Text, OutOfMemory> {
    let mut text = Text::new(alloc);
    for mark in marks {
        mark_line(mark, false, &mut text)?;
    }
    Ok(text)
}

const MARKS: [(Mark, &str); 12] = [
    // marks of waits
    (
        Mark::Retakes {
            tid: Tid(5),
            call: Call::CondAwait { c: 0, m: 1, e: 2 },
        },
        "t5 cond_await 0 1 2 retakes\n",
    ),
    (
        Mark::Took {
            tid: Tid(8),
            mutex: 63,
        },
        "t8 takes mutex 63\n",
    ),
    (
        Mark::Withdrew {
            tid: Tid(4294967295),
            barrier: 4,
        },
        "t4294967295 withdraws 4\n",
    ),
    // answers
    (
        Mark::Answered {
            tid: Tid(1),
            call: Call::SelfTid,
            answer: Answer::None,
        },
        "t1 self = none\n",
    ),
    (
        Mark::Answered {
            tid: Tid(1),
            call: Call::SelfTid,
            answer: Answer::Msg {
                id: MsgId(18446744073709551615),
                value: -4,
            },
        },
        "t1 self = msg 18446744073709551615 value -4\n",
    ),
    (
        Mark::Answered {
            tid: Tid(1),
            call: Call::SelfTid,
            answer: Answer::Fail(Errno::EEXIST),
        },
        "t1 self = EEXIST\n",
    ),
    // calls that no script spells
    (
        Mark::Waits {
            tid: Tid(1),
            call: Call::Plain,
        },
        "t1 plain waits\n",
    ),
    (
        Mark::Waits {
            tid: Tid(1),
            call: Call::EvTid {
                state: ThreadState::Running,
                tid: 3,
            },
        },
        "t1 ev_tid running 3 waits\n",
    ),
    (
        Mark::Waits {
            tid: Tid(1),
            call: Call::Chain {
                e: 6,
                line: EvLine::Tid {
                    state: ThreadState::Running,
                    tid: 3,
                },
            },
        },
        "t1 chain 6 ev_tid running 3 waits\n",
    ),
    (
        Mark::Waits {
            tid: Tid(1),
            call: Call::EvFd { goals: 248, fd: -1 },
        },
        "t1 ev_fd  -1 waits\n",
    ),
    (
        Mark::Waits {
            tid: Tid(1),
            call: Call::EvFd { goals: 255, fd: 6 },
        },
        "t1 ev_fd rwx 6 waits\n",
    ),
    (
        Mark::Waits {
            tid: Tid(1),
            call: Call::Chain {
                e: 4,
                line: EvLine::Fd { goals: 10, fd: 7 },
            },
        },
        "t1 chain 4 ev_fd w 7 waits\n",
    ),
];

/// A dispatch, with how long was waited for it and how long could be.
const DISPATCH: Mark = Mark::Dispatch {
    turn: 8,
    at: 91,
    tid: Tid(1),
    rank: 5,
    waited: 1,
    allowed: 18446744073709551615,
};

/// Adds the lines of an audit and of want of memory.
fn add_others(text: &mut Text) -> Result<(), OutOfMemory> {
    mark_line(&DISPATCH, true, text)?;
    fault_line("pth_play", Fault::OutOfMemory, text)
}

const OTHERS: &str =
    "turn 8 at 91 t1 rank 5 waited 1 allowed 18446744073709551615\npth_play: out of memory\n";

fn have_lines(rt: &impl Abort, alloc: Global, rows: &[(Mark, &str)]) -> Result<(), OutOfMemory> {
    for (mark, line) in rows {
        let mut text = Text::new(alloc);
        mark_line(mark, false, &mut text)?;
        same_bytes(rt, text.as_slice(), line);
    }
    Ok(())
}

#[test]
fn marks_and_faults_are_lines(rt: HostRuntime) -> Result<(), Fail> {
    have_lines(&rt, rt.alloc(), &MARKS)?;
    let mut text = Text::new(rt.alloc());
    add_others(&mut text)?;
    same_bytes(&rt, text.as_slice(), OTHERS);
    Ok(())
}
