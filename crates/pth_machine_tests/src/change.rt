//! What a mark says of the ready queue.

use pth_base::answer::Answer;
use pth_base::call::Call;
use pth_base::ids::Tid;
use pth_base::mark::Mark;

/// How a thread comes to stand to the ready queue.
#[derive(Clone, Copy)]
pub enum Move {
    /// It was made, and becomes ready for the next dispatch.
    Made,
    /// It enters at this rank.
    Enters(i64),
    /// It yielded, and enters at its base priority.
    ComesBack,
    /// It stands there no longer.
    Leaves,
}

/// What a mark changes.
#[derive(Clone, Copy)]
pub enum Change {
    /// A thread is taken, and the mark has these numbers of its wait.
    Taken { tid: Tid, waited: u64, allowed: u64 },
    /// A thread comes to stand otherwise.
    Moved(Tid, Move),
    /// A thread comes back, and named the one that is taken next.
    Named(Tid),
    Nothing,
}

/// The thread with this number. Number 0 is no thread's.
fn thread(number: i64) -> Tid {
    Tid(u32::try_from(number).unwrap_or(0))
}

/// What a call changes that was answered a number. If it suspends or resumes a thread, that one is taken to be ready.
fn change_of_call(tid: Tid, call: &Call, answer: i64) -> Change {
    match call {
        Call::Spawn { .. } => Change::Moved(thread(answer), Move::Made),
        Call::Yield(0) => Change::Moved(tid, Move::ComesBack),
        Call::Yield(_) => Change::Named(tid),
        Call::Suspend(other) => Change::Moved(thread(*other), Move::Leaves),
        Call::Resume(other) => Change::Moved(thread(*other), Move::Enters(0)),
        _ => Change::Nothing,
    }
}

/// What a mark changes.
pub fn change_of(mark: &Mark) -> Change {
    match mark {
        Mark::Dispatch {
            tid,
            waited,
            allowed,
            ..
        } => Change::Taken {
            tid: *tid,
            waited: *waited,
            allowed: *allowed,
        },
        Mark::Answered {
            tid,
            call,
            answer: Answer::Int(answer),
        } => change_of_call(*tid, call, *answer),
        Mark::Woke { tid, rank } => Change::Moved(*tid, Move::Enters(*rank)),
        Mark::Ended { tid, .. } => Change::Moved(*tid, Move::Leaves),
        _ => Change::Nothing,
    }
}
