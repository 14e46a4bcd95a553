//! The rules of a trace, for one stamp after the other.
//!
//! Two sets of 64 descriptors, the last moment and a count are kept, so a line costs the same however long the trace is.

ghost use Rattle.std.specs.Prelude.{◌≡◌, ℕ, ◌<◌, ◌==◌, ◌||◌, []};
ghost use Rattle.pth_base.specs.Descriptors.{contains};
ghost use Rattle.pth_kernel.specs.Rules.{KnowsTrace, AnswersOn, KnowsNext};
ghost use Rattle.pth_kernel.specs.Trace.{is_fd_known, has_input_ended, brings_known, is_before_last, breaks_fd, is_full_of_stamps, faults};

use crate::trace::{Entry, MOST_STAMPS, Stamp};
use pth_base::ids::{Fd, FdSet, Micros};

/// What the rules need of the stamps above the next one.
#[derive(Clone, Copy)]
pub struct Rules {
    last: Micros,
    known: FdSet,
    ended: FdSet,
    count: usize,
}

impl Rules {
    /// Those of the first stamp, where some descriptors are open from the start.
    pub fn new(live: FdSet) -> Rules
        ensures { KnowsTrace result live.0 [] }
    {
        Rules {
            last: 0,
            known: live,
            ended: FdSet(0),
            count: 0,
        }
    }

    /// Whether a time is before that of the stamp above.
    pub fn is_before_last(&self, at: Micros) -> bool
        ensures { AnswersOn self.now result (λ live above. is_before_last above at) }
    {
        at < self.last
    }

    /// Whether there are as many stamps above as there may be.
    pub fn is_full(&self) -> bool
        ensures { AnswersOn self.now result (λ live above. is_full_of_stamps above) }
    {
        MOST_STAMPS <= self.count
    }

    /// Whether a stamp's descriptor is not known, or it brings one that is, or input after its end.
    pub fn breaks_fd(&self, stamp: &Stamp) -> bool
        ensures { AnswersOn self.now result (λ live above. breaks_fd live above stamp.now) }
    {
        !self.is_known(stamp.fd)
            || self.brings_known(&stamp.what)
            || (stamp.what.is_input() && self.has_ended(stamp.fd))
    }

    /// Whether a stamp breaks a rule.
    pub fn faults(&self, stamp: &Stamp) -> bool
        ensures { AnswersOn self.now result (λ live above. faults live above stamp.now) }
    {
        stamp.is_out_of_range()
            || self.is_before_last(stamp.at)
            || self.breaks_fd(stamp)
            || self.is_full()
    }

    /// Goes on below a stamp that breaks no rule.
    pub fn go_on(&mut self, stamp: &Stamp)
        ensures { KnowsNext self.old stamp.now self.new }
    {
        self.last = stamp.at;
        self.count = self.count.saturating_add(1);
        match stamp.what {
            Entry::Conn(g) => self.known = with(self.known, g),
            Entry::Eof => self.ended = with(self.ended, stamp.fd),
            _ => {}
        }
    }

    /// Whether a descriptor is open from the start, or came by a connection.
    fn is_known(&self, fd: Fd) -> bool
        ensures { AnswersOn self.now result (λ live above. is_fd_known live above fd.0) }
    {
        has(self.known, fd)
    }

    /// Whether the input of a descriptor has ended.
    fn has_ended(&self, fd: Fd) -> bool
        ensures { AnswersOn self.now result (λ live above. has_input_ended above fd.0) }
    {
        has(self.ended, fd)
    }

    /// Whether an entry brings the connection of a descriptor that is known.
    fn brings_known(&self, what: &Entry) -> bool
        ensures { AnswersOn self.now result (λ live above. brings_known live above what.now) }
    {
        match what {
            Entry::Conn(g) => self.is_known(*g),
            _ => false,
        }
    }
}

/// Whether a set has a descriptor, which may be past the last one.
fn has(set: FdSet, fd: Fd) -> bool
    ensures { result ≡ contains set.0 fd.0 }
{
    fd.0 < 64 && set.contains(fd.0)
}

/// The set with one more descriptor, if it is not past the last one.
fn with(set: FdSet, fd: Fd) -> FdSet
    ensures { fd.0 < 64 → (f : ℕ) → contains result.0 f ≡ (contains set.0 f || (fd.0 == f)) }
{
    if fd.0 < 64 { set.with(fd.0) } else { set }
}
