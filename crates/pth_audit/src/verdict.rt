//! What is said of a list of marks.

/// One of the laws that marks of every run meet.
#[derive(Clone, Copy, Debug, PartialEq, Eq)]
pub enum AuditRule {
    /// No thread waited longer for its dispatch than its mark allows.
    InTime,
    /// A thread that ends ran its handlers and its destructors, and makes no mark more.
    Orderly,
    /// No two threads have a mutex, and no writer meets another thread in a lock.
    Exclusive,
    /// A message that is got is the oldest of its port.
    InOrder,
}

/// Whether marks meet the four laws: if not, how many marks it takes to break one, and which one they break, the first of the four.
#[derive(Clone, Copy, Debug, PartialEq, Eq)]
pub enum Verdict {
    Yes,
    No { at: u64, rule: AuditRule },
}
