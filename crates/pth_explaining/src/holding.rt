//! What a thread has of a mutex or a lock, by the folds of the laws.

ghost use Rattle.std.specs.Prelude.{◌≡◌, ◌<◌, ◌+◌, ◌≤◌, ◌^◌, false, fold};
ghost use Rattle.pth_laws.specs.Exclusive.{awaits_after, awaits_no_more, begins_to_await, enters, gives, gives_up, held_after, is_of, leaves, levels, levels_after, takes_level};

use pth_base::act::Act;
use pth_base::answer::Answer;
use pth_base::call::Call;
use pth_base::ids::Tid;
use pth_base::mark::Mark;

// A mark of a thread and an object is one of these.
fn is_of(t: u64, i: i64, tid: Tid, object: i64) -> bool
    ensures { result ≡ is_of t i tid.0 object }
{
    i == object && u64::from(tid.0) == t
}

// ---- conditions

fn begins_to_await(t: u64, mark: &Mark) -> bool
    ensures { result ≡ begins_to_await t mark.now }
{
    match mark {
        Mark::Waits {
            tid,
            call: Call::CondAwait { .. },
        } => u64::from(tid.0) == t,
        _ => false,
    }
}

fn awaits_no_more(t: u64, mark: &Mark) -> bool
    ensures { result ≡ awaits_no_more t mark.now }
{
    match mark {
        Mark::Answered {
            tid,
            call: Call::CondAwait { .. },
            ..
        } => u64::from(tid.0) == t,
        Mark::Took { tid, .. } => u64::from(tid.0) == t,
        Mark::Ended { tid, .. } => u64::from(tid.0) == t,
        _ => false,
    }
}

fn awaits_after(t: u64, awaiting: bool, mark: &Mark) -> bool
    ensures { result ≡ awaits_after t awaiting mark.now }
{
    if begins_to_await(t, mark) {
        true
    } else if awaits_no_more(t, mark) {
        false
    } else {
        awaiting
    }
}

// ---- levels of a mutex

fn takes_level(t: u64, i: i64, awaiting: bool, mark: &Mark) -> bool
    ensures { result ≡ takes_level t i awaiting mark.now }
{
    match mark {
        Mark::Answered {
            tid,
            call: Call::MutexAcquire { m, .. },
            answer: Answer::Int(1),
        } => is_of(t, i, *tid, *m),
        Mark::Answered {
            tid,
            call: Call::CondAwait { m, .. },
            ..
        } => awaiting && is_of(t, i, *tid, *m),
        Mark::Took { tid, mutex } => is_of(t, i, *tid, i64::from(*mutex)),
        _ => false,
    }
}

fn gives(t: u64, i: i64, awaiting: bool, mark: &Mark) -> bool
    ensures { result ≡ gives t i awaiting mark.now }
{
    match mark {
        Mark::Answered {
            tid,
            call: Call::MutexRelease(m),
            answer: Answer::Int(1),
        } => is_of(t, i, *tid, *m),
        Mark::Acted {
            tid,
            act: Act::Release(m),
            answer: Answer::Int(1),
        } => is_of(t, i, *tid, *m),
        Mark::Waits {
            tid,
            call: Call::CondAwait { m, .. },
        } => !awaiting && is_of(t, i, *tid, *m),
        _ => false,
    }
}

fn gives_up(t: u64, i: i64, mark: &Mark) -> bool
    ensures { result ≡ gives_up t i mark.now }
{
    match mark {
        Mark::GaveMutex { tid, mutex } => is_of(t, i, *tid, i64::from(*mutex)),
        _ => false,
    }
}

// How many levels of a mutex a thread has after a mark.
fn levels_after(t: u64, i: i64, had: u64, awaiting: bool, mark: &Mark) -> u64
    requires { had + 1 < 2 ^ 64 }
    ensures is { result ≡ levels_after t i (record { had = had; awaiting = awaiting }) mark.now }
    ensures most { result ≤ had + 1 }
{
    if gives_up(t, i, mark) {
        0
    } else if takes_level(t, i, awaiting, mark) {
        had + 1
    } else if gives(t, i, awaiting, mark) {
        had.saturating_sub(1)
    } else {
        had
    }
}

/// How many levels of a mutex a thread has.
pub(crate) fn levels(t: u64, i: i64, marks: &[Mark]) -> u64
    ensures { result ≡ levels t i marks.now }
{
    let mut had = 0;
    let mut awaiting = false;
    for mark in marks {
        had = levels_after(t, i, had, awaiting, mark);
        awaiting = awaits_after(t, awaiting, mark);
    }
    had
}

// ---- locks

fn enters(t: u64, l: i64, write: bool, mark: &Mark) -> bool
    ensures { result ≡ enters t l write mark.now }
{
    match mark {
        Mark::Answered {
            tid,
            call: Call::RwAcquire {
                l: k,
                write: writes,
                ..
            },
            answer: Answer::Int(1),
        } => write == *writes && is_of(t, l, *tid, *k),
        _ => false,
    }
}

fn leaves(t: u64, l: i64, mark: &Mark) -> bool
    ensures { result ≡ leaves t l mark.now }
{
    match mark {
        Mark::Answered {
            tid,
            call: Call::RwRelease(k),
            answer: Answer::Int(1),
        } => is_of(t, l, *tid, *k),
        Mark::GaveLock { tid, lock } => is_of(t, l, *tid, i64::from(*lock)),
        _ => false,
    }
}

fn held_after(t: u64, l: i64, write: bool, held: bool, mark: &Mark) -> bool
    ensures { result ≡ held_after t l write held mark.now }
{
    if enters(t, l, write, mark) {
        true
    } else if leaves(t, l, mark) {
        false
    } else {
        held
    }
}

/// Whether a thread holds a lock, to write or to read.
pub(crate) fn is_held(t: u64, l: i64, write: bool, marks: &[Mark]) -> bool
    ensures { result ≡ fold (held_after t l write) false marks.now }
{
    let mut held = false;
    for mark in marks {
        held = held_after(t, l, write, held, mark);
    }
    held
}
