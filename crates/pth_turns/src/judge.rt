//! Judges marks one by one by the law of turns.

ghost use Rattle.std.specs.Prelude.{◌≡◌, ◌↔◌, ◌==◌, ◌&&◌, ◌||◌, [], ℕ, IfOk, IsTrue, List, OnOk, Some, false, not, true};
ghost use Rattle.pth_base.specs.declared.mark.Mark.{Mark as MarkOf};
ghost use Rattle.pth_model.specs.Living.{is_made};
ghost use Rattle.pth_turns.specs.Judging.{Follows, IsJudged, account_in, has};
ghost use Rattle.pth_turns.specs.Turns as turns;
ghost use Rattle.pth_turns.specs.Turns.{InTurns};

use pth_base::answer::Answer;
use pth_base::call::Call;
use pth_base::ids::{MAIN, Tid};
use pth_base::mark::Mark;
use pth_base::memory::OutOfMemory;
use std::alloc::Global;
use std::collections::BTreeSet;

/// Follows marks in turns, in the memory of the threads that have ended or wait.
#[derive(Drop)]
pub struct TurnJudge {
    turn: u64,
    moment: u64,
    running: Option<u32>,
    canceled: Option<u32>,
    made: u64,
    ended: BTreeSet<u64>,
    is_killed: bool,
    waiting: BTreeSet<u64>,
}

// Whether of so many threads that were made one has this number.
fn is_one_made(made: u64, t: u32) -> bool
    ensures { result ≡ is_made made t }
{
    t != 0 && u64::from(t) <= made
}

// Whether it is this thread.
fn is_thread(thread: Option<u32>, t: u32) -> bool
    ensures { result ≡ turns.is_thread thread t }
{
    match thread {
        Some(u) => u == t,
        None => false,
    }
}

// Whether a spawn is answered the next number.
fn is_next_made(made: u64, call: &Call, answer: &Answer) -> bool
    ensures { result ≡ turns.is_next_made made call.now answer.now }
{
    match (call, answer) {
        (Call::Spawn { .. }, Answer::Int(n)) => *n > 0 && (*n - 1) as u64 == made,
        _ => true,
    }
}

// A thread is one of a set.
fn insert(set: &mut BTreeSet<u64>, t: u32) -> Result<(), OutOfMemory>
    ensures { OnOk result ((u : ℕ) → has set.new u ≡ (has set.old u || (t == u))) }
{
    let _new = set.insert(u64::from(t))?;
    Ok(())
}

// A thread is none of a set.
fn remove(set: &mut BTreeSet<u64>, t: u32)
    ensures { (u : ℕ) → has set.new u ≡ (has set.old u && not (t == u)) }
{
    let _was = set.remove(&u64::from(t));
}

impl TurnJudge {
    /// Follows no mark yet.
    pub fn new(alloc: Global) -> TurnJudge
        ensures { Follows result [] }
    {
        TurnJudge {
            turn: 0,
            moment: 0,
            running: None,
            canceled: None,
            made: u64::from(MAIN),
            ended: BTreeSet::new(alloc),
            is_killed: false,
            waiting: BTreeSet::new(alloc),
        }
    }

    // Whether a thread was made and has not ended.
    fn is_up(&self, t: u32) -> bool
        ensures { result ≡ turns.is_up (account_in self.now) t }
    {
        is_one_made(self.made, t) && !(self.is_killed || self.ended.contains(&u64::from(t)))
    }

    // Whether it is a thread's turn.
    fn has_turn(&self, t: Tid) -> bool
        ensures { result ≡ turns.has_turn (account_in self.now) t.0 }
    {
        self.canceled.is_none() && is_thread(self.running, t.0) && self.is_up(t.0)
    }

    // Whether a thread may end, or do what it does as it ends.
    fn may_end(&self, t: Tid) -> bool
        ensures { result ≡ turns.may_end (account_in self.now) t.0 }
    {
        let speaker = match self.canceled {
            Some(u) => Some(u),
            None => self.running,
        };
        is_thread(speaker, t.0) && self.is_up(t.0)
    }

    // Whether a thread may be dispatched in a turn of this number, at a moment.
    fn may_dispatch(&self, turn: u64, at: u64, t: Tid) -> bool
        ensures { result ≡ turns.may_dispatch (account_in self.now) turn at t.0 }
    {
        self.running.is_none()
            && turn > 0
            && turn - 1 == self.turn
            && self.moment <= at
            && self.is_up(t.0)
            && !self.waiting.contains(&u64::from(t.0))
    }

    // Whether a thread may be woken.
    fn may_wake(&self, t: Tid) -> bool
        ensures { result ≡ turns.may_wake (account_in self.now) t.0 }
    {
        self.running.is_none() && self.waiting.contains(&u64::from(t.0)) && self.is_up(t.0)
    }

    // Whether another thread may be canceled in a thread's turn.
    fn may_be_canceled(&self, t: Tid) -> bool
        ensures { result ≡ turns.may_be_canceled (account_in self.now) t.0 }
    {
        self.running.is_some()
            && self.canceled.is_none()
            && !is_thread(self.running, t.0)
            && self.is_up(t.0)
    }

    // Whether a mark is allowed.
    fn is_allowed(&self, mark: &Mark) -> bool
        ensures { result ≡ turns.is_allowed (account_in self.now) mark.now }
    {
        match mark {
            Mark::Dispatch { turn, at, tid, .. } => self.may_dispatch(*turn, *at, *tid),
            Mark::Moved { at } => self.running.is_none() && self.moment < *at,
            Mark::Woke { tid, .. } => self.may_wake(*tid),
            Mark::Answered { tid, call, answer } => {
                self.has_turn(*tid) && is_next_made(self.made, call, answer)
            }
            Mark::Canceled { tid, call: None } => self.may_be_canceled(*tid),
            Mark::Waits { tid, .. }
            | Mark::Retakes { tid, .. }
            | Mark::Took { tid, .. }
            | Mark::Noted { tid, .. }
            | Mark::Canceled { tid, call: Some(_) } => self.has_turn(*tid),
            Mark::Withdrew { tid, .. }
            | Mark::Handler { tid, .. }
            | Mark::Destructor { tid, .. }
            | Mark::Acted { tid, .. }
            | Mark::GaveMutex { tid, .. }
            | Mark::GaveLock { tid, .. }
            | Mark::Ended { tid, .. } => self.may_end(*tid),
        }
    }

    // A thread is dispatched.
    fn dispatch(&mut self, turn: u64, at: u64, t: Tid)
        ensures { account_in self.new ≡ record (account_in self.old) { turn = turn; moment = at; running = Some t.0 } }
    {
        self.turn = turn;
        self.moment = at;
        self.running = Some(t.0);
    }

    // A thread waits, and gives up control.
    fn wait(&mut self, t: Tid) -> Result<(), OutOfMemory>
        ensures { OnOk result (account_in self.new ≡ turns.waits (account_in self.old) t.0) }
    {
        self.running = None;
        insert(&mut self.waiting, t.0)
    }

    // A thread is woken.
    fn wake(&mut self, t: Tid)
        ensures { account_in self.new ≡ turns.wakes (account_in self.old) t.0 }
    {
        remove(&mut self.waiting, t.0);
    }

    // Who ends, in its own turn or canceled in another's, has no more lines.
    fn stop(&mut self)
        ensures account { account_in self.new ≡ turns.stops (account_in self.old) (account_in self.old).canceled }
        ensures ended { (account_in self.new).ended ≡ (account_in self.old).ended }
    {
        match self.canceled {
            Some(_) => self.canceled = None,
            None => self.running = None,
        }
    }

    // A thread ends.
    fn end(&mut self, t: Tid) -> Result<(), OutOfMemory>
        ensures { OnOk result (account_in self.new ≡ turns.ends (account_in self.old) (account_in self.old).canceled t.0) }
    {
        self.stop();
        insert(&mut self.ended, t.0)
    }

    // A call is answered.
    fn answer(&mut self, call: &Call, answer: &Answer)
        requires { turns.is_next_made self.old.made call.now answer.now ≡ true }
        ensures { account_in self.new ≡ turns.answered (account_in self.old) call.now answer.now }
    {
        match (call, answer) {
            (Call::Spawn { .. }, Answer::Int(n)) => self.made = *n as u64,
            (Call::Yield(_), Answer::Int(_)) => self.running = None,
            (Call::Kill, Answer::Int(_)) => {
                self.running = None;
                self.is_killed = true;
            }
            _ => {}
        }
    }

    // An allowed mark comes.
    fn take(&mut self, mark: &Mark) -> Result<(), OutOfMemory>
        requires { turns.is_allowed (account_in self.old) mark.now ≡ true }
        ensures { OnOk result (account_in self.new ≡ turns.account_after (account_in self.old) mark.now) }
    {
        match mark {
            Mark::Dispatch { turn, at, tid, .. } => self.dispatch(*turn, *at, *tid),
            Mark::Moved { at } => self.moment = *at,
            Mark::Woke { tid, .. } => self.wake(*tid),
            Mark::Answered { call, answer, .. } => self.answer(call, answer),
            Mark::Canceled { tid, call: None } => self.canceled = Some(tid.0),
            Mark::Waits { tid, .. } | Mark::Retakes { tid, .. } => return self.wait(*tid),
            Mark::Ended { tid, .. } => return self.end(*tid),
            _ => {}
        }
        Ok(())
    }

    /// Follows one mark more and answers `true`, if the marks are in turns with it. Otherwise it answers `false`, and nothing changes.
    /// After an error it may only be dropped.
    pub fn add(&mut self, mark: &Mark) -> Result<bool, OutOfMemory>
        ensures judged { IfOk result (λ yes. (marks : List MarkOf) → Follows self.old marks → IsJudged yes self.new marks mark.now) }
        ensures refused { IfOk result (λ yes. yes ≡ false → self.new ≡ self.old) }
    {
        if !self.is_allowed(mark) {
            return Ok(false);
        }
        self.take(mark)?;
        Ok(true)
    }
}

/// Whether marks are in turns.
pub fn are_in_turns(alloc: Global, marks: &[Mark]) -> Result<bool, OutOfMemory>
    ensures { IfOk result (λ yes. IsTrue yes ↔ InTurns marks.now) }
{
    let mut judge = TurnJudge::new(alloc);
    for mark in marks {
        if !judge.add(mark)? {
            return Ok(false);
        }
    }
    Ok(true)
}
