//! The waits of all threads by the marks of a run, beside what the machine tells of them.

use crate::change::{Change, Move, change_of};
use crate::row::{Point, Row};
use pth_base::ids::{MAIN, Tid};
use pth_base::mark::Mark;
use pth_base::memory::OutOfMemory;
use pth_sched::machine::Machine;
use pth_script::Script;
use std::alloc::Global;
use std::process::Abort;

/// What is known of each thread, by its number.
#[derive(Drop)]
pub struct Watch {
    rows: Vec<Row>,
    /// Whether a yield named the thread that is taken next.
    is_named: bool,
    /// The longest wait that the machine told.
    longest: u64,
}

/// A row for each number below `room`.
fn rows(alloc: Global, room: u32) -> Result<Vec<Row>, OutOfMemory> {
    let mut rows = Vec::new(alloc);
    for number in 0..room {
        rows.push(Row::new(Tid(number)))?;
    }
    Ok(rows)
}

impl Watch {
    /// Main alone is ready, at rank 0. The threads with numbers below `room` are watched.
    pub fn new(alloc: Global, room: u32) -> Result<Watch, OutOfMemory> {
        let mut watch = Watch {
            rows: rows(alloc, room)?,
            is_named: false,
            longest: 0,
        };
        watch.go(Tid(MAIN), Move::Enters(0));
        Ok(watch)
    }

    /// The longest wait that the machine told so far.
    pub fn longest(&self) -> u64 {
        self.longest
    }

    fn go(&mut self, tid: Tid, to: Move) {
        if let Some(row) = self.rows.get_mut(tid.0 as usize) {
            row.go(to);
        }
    }

    /// New threads become ready. The answer is how many.
    fn admit(&mut self) -> u64 {
        let mut newcomers: u64 = 0;
        for row in self.rows.iter_mut() {
            if row.admit() {
                newcomers = newcomers.saturating_add(1);
            }
        }
        newcomers
    }

    fn count_ready(&self) -> u64 {
        let mut ready: u64 = 0;
        for row in &self.rows {
            if row.is_ready() {
                ready = ready.saturating_add(1);
            }
        }
        ready
    }

    /// The next dispatch.
    fn point(&mut self) -> Point {
        let newcomers = self.admit();
        Point {
            others: self.count_ready().saturating_sub(1),
            newcomers,
            is_named: self.is_named,
        }
    }

    /// A thread is taken, and its mark has these numbers.
    fn take(&mut self, rt: &impl Abort, tid: Tid, waited: u64, allowed: u64) {
        let point = self.point();
        for row in self.rows.iter_mut() {
            if row.tid.0 == tid.0 {
                row.take(rt, point, waited, allowed);
            } else {
                row.pass(point);
            }
        }
        self.is_named = false;
    }

    fn change(&mut self, rt: &impl Abort, change: Change) {
        match change {
            Change::Taken {
                tid,
                waited,
                allowed,
            } => self.take(rt, tid, waited, allowed),
            Change::Moved(tid, to) => self.go(tid, to),
            Change::Named(tid) => {
                self.go(tid, Move::ComesBack);
                self.is_named = true;
            }
            Change::Nothing => {}
        }
    }

    /// Goes over marks that were told, and compares those of dispatches.
    pub fn follow(&mut self, rt: &impl Abort, marks: &[Mark]) {
        for mark in marks {
            self.change(rt, change_of(mark));
        }
    }

    /// Compares what the machine tells of the wait of each thread.
    pub fn ask(&mut self, rt: &impl Abort, machine: &Machine<Script>) {
        for row in self.rows.iter_mut() {
            let waited = machine.waited(row.tid);
            row.hear(rt, waited, machine.allowed(row.tid));
            self.longest = self.longest.max(waited.unwrap_or(0));
        }
    }
}
