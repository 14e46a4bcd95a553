//! What is drawn of a run.

use pth_base::ids::Micros;

/// As what a thread is drawn in a column.
#[derive(Clone, Copy, Debug, PartialEq, Eq)]
pub enum Shown {
    Running,
    Waiting,
    Ready,
}

/// Columns side by side, counted from 0 at the left, in which a thread is drawn as the same.
#[derive(Clone, Copy, Debug, PartialEq, Eq)]
pub struct Stretch {
    pub shown: Shown,
    pub first: u64,
    pub columns: u64,
}

/// A thread: its stretches, the columns in which it is canceled, and the column in which it ends, if it does so in one that is drawn.
#[derive(Drop)]
pub struct Lane {
    pub thread: u64,
    pub stretches: Vec<Stretch>,
    pub canceled: Vec<u64>,
    pub ended: Option<u64>,
}

/// A moment to which time moved before the turn of a column, while nothing was ready.
#[derive(Clone, Copy, Debug, PartialEq, Eq)]
pub struct Moment {
    pub column: u64,
    pub at: Micros,
}

/// How a run ended.
#[derive(Clone, Copy, Debug, PartialEq, Eq)]
pub enum End {
    /// Main ended with this value.
    Ended(i64),
    /// `pth_kill` ended it.
    Killed,
    /// Nothing can ever be ready again.
    Stalled,
    /// It was stopped after so many steps.
    StepLimit(u64),
}

/// A run as it is drawn: the turn of the first column, how many columns there are, whether turns follow the last one (if none do, it is that
/// of the end), the lanes in the order of the threads' numbers, the moments, and how the run ended.
#[derive(Drop)]
pub struct Chart {
    pub from: u64,
    pub columns: u64,
    pub is_cut: bool,
    pub lanes: Vec<Lane>,
    pub moments: Vec<Moment>,
    pub end: End,
}
