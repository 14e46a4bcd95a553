//! What is told beside what is wanted, compared here alone: an assertion is proved anew in each function that has one.

use pth_base::ids::Tid;
use pth_base::outcome::Outcome;
use std::process::Abort;

pub fn same(rt: &impl Abort, told: u64, wanted: u64) {
    assert_eq!(rt; told, wanted);
}

/// Main ended with 0.
pub fn has_ended(rt: &impl Abort, outcome: Outcome) {
    assert!(rt; matches!(outcome, Outcome::Ended(0)));
}

/// Something that has to hold of a thread.
pub fn holds_of(rt: &impl Abort, tid: Tid, is_so: bool) {
    assert!(rt; is_so, "thread {}", tid.0);
}

/// The lines of a run.
pub fn same_lines(rt: &impl Abort, told: &[u8], wanted: &str) {
    assert_eq!(rt; told, wanted.as_bytes(), "{wanted}");
}

/// An answer of a run, counted from 0.
pub fn tells(rt: &impl Abort, k: usize, is_so: bool) {
    assert!(rt; is_so, "answer {k}");
}

/// The first lines of a run.
pub fn starts(rt: &impl Abort, told: &[u8], wanted: &[u8]) {
    assert!(rt; told.starts_with(wanted));
}
