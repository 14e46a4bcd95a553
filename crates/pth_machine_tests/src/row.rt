//! The wait of one thread for its dispatch: how long it is, by the marks, and how long it may be.
//!
//! A wait begins as the thread enters the ready queue. The dispatches from then on, up to the thread's own, are the points of the wait,
//! and it has waited as often as another thread was taken at one. It is allowed its grace, which is 6 less the rank at which it entered,
//! and at least 0; where it entered at an unknown rank, the machine tells the grace before the first point. If there are more points
//! than that, it is allowed beside it
//!
//! - how many threads stand before it at the first point after the grace: at most all others that are ready, and none if it is taken
//!   there and was not named, since it is the first then;
//! - each thread that is new at a later point, as new threads are favoured;
//! - each of all these points at which another thread is taken that a yield named.

use crate::change::Move;
use crate::comparison::{holds_of, same};
use pth_base::ids::Tid;
use std::process::Abort;

/// The greatest base priority and 1, for scripts of version 1.
const ABOVE_TOP: i64 = 6;

/// The greatest grace: that of a thread that enters at the least base priority.
const MOST_GRACE: u64 = 11;

/// How a thread stands to the ready queue.
#[derive(Clone, Copy)]
enum Place {
    /// It runs, waits, is suspended or dead, or was not made yet.
    Away,
    /// It becomes ready for the next dispatch.
    New,
    /// It is ready, and has waited so often.
    Ready(u64),
}

/// A dispatch.
#[derive(Clone, Copy)]
pub struct Point {
    /// How many threads are ready beside the one that is taken.
    pub others: u64,
    /// How many of all that are ready are new.
    pub newcomers: u64,
    /// Whether a yield named the one that is taken.
    pub is_named: bool,
}

/// What is known of a thread.
#[derive(Clone, Copy)]
pub struct Row {
    pub tid: Tid,
    place: Place,
    /// The grace of its wait, if it is known.
    grace: Option<u64>,
    /// How often it may wait: at least and at most.
    least: u64,
    most: u64,
}

impl Row {
    /// A thread that was not made yet.
    pub fn new(tid: Tid) -> Row {
        Row {
            tid,
            place: Place::Away,
            grace: None,
            least: 0,
            most: 0,
        }
    }

    pub fn is_ready(&self) -> bool {
        matches!(self.place, Place::Ready(_))
    }

    /// It becomes ready if it is new. The answer is whether it was.
    pub fn admit(&mut self) -> bool {
        let is_new = matches!(self.place, Place::New);
        if is_new {
            self.enter();
        }
        is_new
    }

    pub fn go(&mut self, to: Move) {
        match to {
            Move::Made => self.place = Place::New,
            Move::Enters(rank) => self.enter_at(rank),
            Move::ComesBack => self.enter(),
            Move::Leaves => self.place = Place::Away,
        }
    }

    /// Its wait begins, at this rank.
    fn enter_at(&mut self, rank: i64) {
        let grace = u64::try_from(ABOVE_TOP.saturating_sub(rank)).unwrap_or(0);
        self.place = Place::Ready(0);
        self.grace = Some(grace);
        self.least = grace;
        self.most = grace;
    }

    /// Its wait begins, at a rank that no mark tells.
    fn enter(&mut self) {
        self.place = Place::Ready(0);
        self.grace = None;
        self.least = 0;
        self.most = MOST_GRACE;
    }

    /// It may wait so much longer, at least and at most.
    fn add(&mut self, least: u64, most: u64) {
        self.least = self.least.saturating_add(least);
        self.most = self.most.saturating_add(most);
    }

    /// Another thread is taken. At the first point after the grace that one stands before it or is named.
    pub fn pass(&mut self, point: Point) {
        let Place::Ready(waited) = self.place else {
            return;
        };
        let named = u64::from(point.is_named);
        let before = point.others.saturating_add(named);
        let newcomers = point.newcomers.saturating_add(named);
        match self.grace {
            Some(grace) if waited < grace => {}
            Some(grace) if waited == grace => self.add(1, before),
            Some(_) => self.add(newcomers, newcomers),
            None => self.add(0, before),
        }
        self.place = Place::Ready(waited.saturating_add(1));
    }

    /// It is taken, and its mark has these numbers.
    pub fn take(&mut self, rt: &impl Abort, point: Point, waited: u64, allowed: u64) {
        let Place::Ready(so_far) = self.place else {
            holds_of(rt, self.tid, false);
            return;
        };
        match self.grace {
            Some(grace) if so_far < grace => {}
            Some(grace) if so_far == grace && !point.is_named => {}
            Some(grace) if so_far > grace => self.add(point.newcomers, point.newcomers),
            _ => self.add(0, point.others),
        }
        self.compare(rt, so_far, waited, allowed);
        self.place = Place::Away;
    }

    /// Compares the numbers that are told of its wait.
    fn compare(&self, rt: &impl Abort, so_far: u64, waited: u64, allowed: u64) {
        same(rt, waited, so_far);
        holds_of(rt, self.tid, waited <= allowed);
        holds_of(rt, self.tid, self.least <= allowed && allowed <= self.most);
    }

    /// Compares what the machine tells, from which it is known how often the thread may wait.
    pub fn hear(&mut self, rt: &impl Abort, waited: Option<u64>, allowed: Option<u64>) {
        match (self.place, waited, allowed) {
            (Place::Ready(so_far), Some(waited), Some(allowed)) => {
                self.compare(rt, so_far, waited, allowed);
                self.learn(so_far, allowed);
            }
            (Place::Away | Place::New, None, None) => {}
            _ => holds_of(rt, self.tid, false),
        }
    }

    fn learn(&mut self, so_far: u64, allowed: u64) {
        self.least = allowed;
        self.most = allowed;
        if so_far == 0 {
            self.grace = Some(allowed);
        }
    }
}
