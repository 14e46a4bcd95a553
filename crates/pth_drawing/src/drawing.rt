//! Draws a run mark by mark.
//!
//! A track changes only when something happens to its thread. A column for each thread and dispatch takes 8,000,000 steps for
//! 2,000 columns and 4,000 threads.

ghost use Rattle.std.specs.Prelude.{◌≡◌, ◌≤◌, [], false, IfOk, OnOk};
ghost use Rattle.pth_base.specs.declared.mark.Mark.{Mark as MarkOf};
ghost use Rattle.pth_drawing.specs.Bounds.{most_turns};
ghost use Rattle.pth_drawing.specs.Follow.{Draws, GoesOn, IsOther, Shows};
ghost use Rattle.pth_drawing.specs.States.{dispatched};

use crate::chart::{Chart, End};
use crate::sheet::Sheet;
use crate::thread_event::thread_event_of;
use pth_base::ids::Micros;
use pth_base::mark::Mark;
use pth_base::memory::OutOfMemory;
use std::alloc::Global;

/// What is drawn of a run by the marks so far: so many of its turns, from one of them on. Once a turn begins after the last of these, no
/// mark changes it.
pub struct Drawing {
    ahead: u64,
    turns: u64,
    is_over: bool,
    moved: Option<Micros>,
    sheet: Sheet,
}

// By hand, so that letting one go is one call in each proof.
impl Drop for Drawing {
    fn drop(self) {
        let Drawing {
            ahead: _,
            turns: _,
            is_over: _,
            moved: _,
            sheet: _,
        } = self;
    }
}

impl Drawing {
    /// There is no mark. `from` is the first turn that is drawn, counted from 1 (0 stands for 1), and `turns` is how many are drawn at most.
    pub fn new(alloc: Global, from: u64, turns: u64) -> Drawing
        ensures { Draws result from turns [] }
    {
        Drawing {
            ahead: from.saturating_sub(1),
            turns,
            is_over: false,
            moved: None,
            sheet: Sheet::new(alloc),
        }
    }

    /// There is a mark more. If there is no memory for it, the drawing is of no use any more.
    pub fn add(&mut self, mark: &Mark) -> Result<(), OutOfMemory>
        ensures { OnOk result (GoesOn self.old mark.now self.new) }
    {
        if self.is_over {
            return Ok(());
        }
        match mark {
            Mark::Dispatch { tid, .. } => self.begin(u64::from(tid.0)),
            Mark::Moved { at } => {
                self.moved = Some(*at);
                Ok(())
            }
            _ => self.hear(mark),
        }
    }

    // A thread is dispatched.
    fn begin(&mut self, thread: u64) -> Result<(), OutOfMemory>
        requires { self.old.is_over ≡ false }
        ensures { OnOk result ((m : MarkOf) → dispatched m ≡ Some thread → GoesOn self.old m self.new) }
    {
        let moved = self.moved;
        self.moved = None;
        if self.ahead > 0 {
            self.ahead -= 1;
        } else if self.sheet.count() < self.turns {
            self.sheet.add(thread, moved)?;
        } else {
            self.is_over = true;
        }
        Ok(())
    }

    // There is a mark more that begins no turn and moves no time.
    fn hear(&mut self, mark: &Mark) -> Result<(), OutOfMemory>
        requires going { self.old.is_over ≡ false }
        requires other { IsOther mark.now }
        ensures { OnOk result (GoesOn self.old mark.now self.new) }
    {
        match thread_event_of(mark) {
            Some(thread_event) => self.sheet.hear(thread_event),
            None => Ok(()),
        }
    }

    /// The chart of the marks so far, from the first turn that is drawn on, after which the run ended like this. There is none if there is
    /// no memory for it.
    pub fn chart(self, from: u64, end: End) -> Result<Chart, OutOfMemory>
        requires { self.sheet.count ≤ most_turns }
        ensures { IfOk result (Shows self from end) }
    {
        let Drawing {
            ahead: _,
            turns: _,
            is_over,
            moved: _,
            sheet,
        } = self;
        sheet.into_chart(from, is_over, end)
    }
}
