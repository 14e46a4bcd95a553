//! The calls that change nothing that another thread waits for.

ghost use Rattle.std.specs.Prelude.{◌≡◌, ◌&&◌, true, if◌then◌else◌};
ghost use Rattle.pth_kernel.specs.Kernel.{kernel_of};
ghost use Rattle.pth_sched.specs.NonWaking.{is_non_waking as is_non_waking_call, is_waiting as waits_on, waits_without_waking as waits};

use crate::quiescence::Quiescence;
use pth_base::call::Call;
use pth_kernel::kernel::Kernel;
use pth_model::next::Next;

/// Whether a call is non-waking whatever its answer is.
#[inline(always)]
pub fn is_non_waking(call: &Call) -> bool
    ensures { result ≡ is_non_waking_call call.now }
{
    match call {
        Call::Plain | Call::Note(_) | Call::SelfTid | Call::Yield(_) => true,
        Call::Ctrl(_) | Call::AttrGet { .. } | Call::Timeout(_) | Call::KeyGet(_) => true,
        Call::EvWalk { .. } | Call::EvStatus(_) | Call::EvKind(_) => true,
        _ => false,
    }
}

/// Whether a call is non-waking if it begins to wait, or waits on when it is tried again: it takes nothing, and a write finds no room.
#[inline(always)]
pub fn waits_without_waking(kernel: &Kernel, call: &Call) -> bool
    ensures { result ≡ waits (kernel_of kernel.now) call.now }
{
    match call {
        Call::Exit(_) | Call::Join(_) | Call::Wait(_) => true,
        Call::Nap(_) | Call::Usleep(_) | Call::Sleep(_) => true,
        Call::MutexAcquire { .. } | Call::RwAcquire { .. } => true,
        Call::BarrierReach(_) => true,
        Call::Read { .. } | Call::ReadEv { .. } => true,
        Call::Accept(_) | Call::AcceptEv { .. } => true,
        Call::Connect(_) | Call::ConnectEv { .. } => true,
        Call::Select { .. } | Call::SelectEv { .. } => true,
        Call::Write { f, .. } | Call::WriteEv { f, .. } => kernel.room(*f) == 0,
        _ => false,
    }
}

#[inline(always)]
fn is_waiting(next: &Next) -> bool
    ensures { result ≡ waits_on next.now }
{
    match next {
        Next::Blocks => true,
        _ => false,
    }
}

/// What is known after a call. `non_waking` says whether the call is non-waking if it waits.
#[inline(always)]
pub fn quiescence_after(was: Quiescence, non_waking: bool, next: &Next) -> Quiescence
    ensures until { result.until ≡ (if non_waking && waits_on next.now then was.until else 0) }
    ensures dirty { result.dirty ≡ (if non_waking && waits_on next.now then was.dirty else true) }
{
    if non_waking && is_waiting(next) {
        was
    } else {
        Quiescence {
            until: 0,
            dirty: true,
        }
    }
}
