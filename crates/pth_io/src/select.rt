//! Attempts at `pth_select`.

ghost use Rattle.std.specs.Prelude.{◌≡◌, ◌+◌, pos, is_some};
ghost use Rattle.pth_io.specs.Answered.{answered};
ghost use Rattle.pth_io.specs.Attempts.{are_live, are_all_live, is_any_ready, is_past, select_answer, those};
ghost use Rattle.pth_io.specs.Ready.{AreFound};
ghost use Rattle.pth_kernel.specs.Kernel.{kernel_of, is_readable, is_writeable, is_exceptional};

use crate::attempt::{Attempt, fails};
use crate::readiness::{Found, Readiness};
use pth_base::answer::Answer;
use pth_base::errno::Errno;
use pth_base::ids::{FdSet, Micros};
use pth_kernel::kernel::Kernel;

// Those members of three sets that are ready.
#[derive(Clone, Copy)]
struct Ready {
    r: Found,
    w: Found,
    x: Found,
}

impl Ready {
    const NONE: Ready = Ready {
        r: Found::NONE,
        w: Found::NONE,
        x: Found::NONE,
    };

    fn of(k: &Kernel, r: FdSet, w: FdSet, x: FdSet) -> Ready
        ensures { AreFound result (those (kernel_of k.now) (is_readable (kernel_of k.now)) r.0) (those (kernel_of k.now) (is_writeable (kernel_of k.now)) w.0) (those (kernel_of k.now) (is_exceptional (kernel_of k.now)) x.0) }
    {
        Ready {
            r: Readiness::Readable.of(k, r),
            w: Readiness::Writeable.of(k, w),
            x: Readiness::Exceptional.of(k, x),
        }
    }

    fn count(self) -> u16
        ensures { result ≡ self.r.count + self.w.count + self.x.count }
    {
        u16::from(self.r.count) + u16::from(self.w.count) + u16::from(self.x.count)
    }

    fn attempt(self) -> Attempt
        ensures { answered result ≡ Some (Answer.Sets (pos (self.r.count + self.w.count + self.x.count)) self.r.set self.w.set self.x.set) }
    {
        Attempt::Done(Answer::Sets {
            count: i64::from(self.count()),
            r: self.r.set,
            w: self.w.set,
            x: self.x.set,
        })
    }
}

/// Whether all members of three sets are open.
pub fn are_all_live(k: &Kernel, r: FdSet, w: FdSet, x: FdSet) -> bool
    ensures { result ≡ are_all_live (kernel_of k.now) r.0 w.0 x.0 }
{
    are_live(k, r) && are_live(k, w) && are_live(k, x)
}

fn are_live(k: &Kernel, set: FdSet) -> bool
    ensures { result ≡ are_live (kernel_of k.now) set.0 }
{
    for f in 0..set.end() {
        if set.contains(f) && !k.is_live(i64::from(f)) {
            return false;
        }
    }
    true
}

/// Whether a member of a set is as the set asks: of `r` to read, of `w` to write, of `x` an exceptional condition.
pub fn is_any_ready(k: &Kernel, r: FdSet, w: FdSet, x: FdSet) -> bool
    ensures { result ≡ is_any_ready (kernel_of k.now) r.0 w.0 x.0 }
{
    Ready::of(k, r, w, x).count() > 0
}

// Whether a deadline has come.
fn is_past(k: &Kernel, deadline: Option<Micros>) -> bool
    ensures { result ≡ is_past (kernel_of k.now) deadline }
{
    match deadline {
        Some(moment) => moment <= k.now(),
        None => false,
    }
}

/// Asks which members of three sets are ready (`pth_select`), and how many they are in all. At or past a deadline in microseconds
/// it answers that none is. EBADF where a member is not open.
#[tactic(auto, unfolding(crate::specs::Attempts::select_answer))]
pub fn try_select(k: &Kernel, r: FdSet, w: FdSet, x: FdSet, deadline: Option<Micros>) -> Attempt
    ensures { answered result ≡ select_answer (kernel_of k.now) r.0 w.0 x.0 deadline }
{
    if !are_all_live(k, r, w, x) {
        return fails(Errno::EBADF);
    }
    let ready = Ready::of(k, r, w, x);
    if ready.count() > 0 {
        ready.attempt()
    } else if is_past(k, deadline) {
        Ready::NONE.attempt()
    } else {
        Attempt::NotYet
    }
}

/// Whether a select is answered as things are.
#[tactic(auto, unfolding(crate::specs::Attempts::select_answer))]
pub fn is_select_answered(
    k: &Kernel,
    r: FdSet,
    w: FdSet,
    x: FdSet,
    deadline: Option<Micros>,
) -> bool
    ensures { result ≡ is_some (select_answer (kernel_of k.now) r.0 w.0 x.0 deadline) }
{
    !are_all_live(k, r, w, x) || is_past(k, deadline) || is_any_ready(k, r, w, x)
}
