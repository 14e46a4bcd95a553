//! What POSIX answers.

use pth_base::errno::Errno;

/// What a POSIX thread call answers. A call that has nothing else to tell answers the value 0.
#[derive(Clone, Copy)]
pub enum PAnswer {
    /// No call was made, or a call of Pth had an answer that it never has in a run.
    None,
    /// A number: 0, a thread, a key, a value, an old state or type, or -1 for the one thread of a barrier's round
    /// (`PTHREAD_BARRIER_SERIAL_THREAD`). A join of a thread that was canceled is answered -1 (`PTHREAD_CANCELED`).
    Value(i64),
    /// The error that the call returns.
    Fail(Errno),
    /// `ETIMEDOUT`: the moment of a timed wait has come.
    TimedOut,
}
