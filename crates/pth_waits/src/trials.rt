//! Attempts at what calls on descriptors wait for.

ghost use Rattle.std.specs.Prelude.{◌≡◌, ◌<◌, ◌≤◌, ◌^◌, IfOk, OnOk};
ghost use Rattle.pth_kernel.specs.Kernel.{kernel_of};
ghost use Rattle.pth_model.specs.Io.{answered_or_waits, trial_for, write_trial};
ghost use Rattle.pth_numbered.specs.Clauses.{count_or};
ghost use Rattle.pth_io.specs.Answered.{answered};
ghost use Rattle.pth_model.specs.Coming.{descriptors_bring};
ghost use Rattle.pth_world.specs.WellFormed.{MayAwait};

use pth_base::answer::Answer;
use pth_base::errno::Errno;
use pth_base::memory::OutOfMemory;
use pth_io::attempt::Attempt;
use pth_io::connections::{is_accept_answered, is_connect_answered, try_accept, try_connect};
use pth_io::select::{is_select_answered, try_select};
use pth_io::transfers::{is_read_answered, is_write_answered, try_read, try_write_of};
use pth_kernel::kernel::Kernel;
use pth_model::awaits::Awaits;
use pth_model::verdict::Verdict;

// What an attempt comes to: its answer, or that this is waited for.
fn verdict_of(attempt: Attempt, awaits: Awaits) -> Verdict
    ensures { result ≡ answered_or_waits (answered attempt) awaits }
{
    match attempt.answer() {
        Some(answer) => Verdict::Says(answer),
        None => Verdict::Blocks(awaits),
    }
}

// An attempt at a write of `total` bytes, of which so many were written before.
fn try_writing(k: &mut Kernel, f: i64, total: usize, written: usize) -> Verdict
    requires few { total < 2 ^ 63 }
    requires part { written ≤ total }
    ensures verdict { result ≡ (write_trial (kernel_of k.old) f total written).verdict }
    ensures after { kernel_of k.new ≡ (write_trial (kernel_of k.old) f total written).after (kernel_of k.old) }
{
    let (written, attempt) = try_write_of(k, f, total, written);
    verdict_of(attempt, Awaits::Writing { f, total, written })
}

/// An attempt at what a call on descriptors waits for.
pub(crate) fn try_awaited(k: &mut Kernel, awaits: Awaits) -> Result<Verdict, OutOfMemory>
    requires may { MayAwait awaits }
    ensures verdict { IfOk result (λ x. x ≡ (trial_for (kernel_of k.old) awaits).verdict) }
    ensures after { OnOk result (kernel_of k.new ≡ (trial_for (kernel_of k.old) awaits).after (kernel_of k.old)) }
{
    let attempt = match awaits {
        Awaits::Reading { f, n } => try_read(k, f, n)?,
        Awaits::Writing { f, total, written } => return Ok(try_writing(k, f, total, written)),
        Awaits::Connection(f) => try_accept(k, f),
        Awaits::ConnectAnswer(f) => try_connect(k, f),
        Awaits::Selection { r, w, x, deadline } => try_select(k, r, w, x, deadline),
        _ => Attempt::NotYet,
    };
    Ok(verdict_of(attempt, awaits))
}

/// Whether what is awaited of descriptors has come: the call would be answered, or a part of it can be written.
#[inline(always)]
pub(crate) fn descriptors_bring(k: &Kernel, awaits: Awaits) -> bool
    requires may { MayAwait awaits }
    ensures { result ≡ descriptors_bring (kernel_of k.now) awaits }
{
    match awaits {
        Awaits::Reading { f, n } => is_read_answered(k, f, n),
        Awaits::Writing { f, total, written } => {
            is_write_answered(k, f, total, written) || k.room(f) > 0
        }
        Awaits::Connection(f) => is_accept_answered(k, f),
        Awaits::ConnectAnswer(f) => is_connect_answered(k, f),
        Awaits::Selection { r, w, x, deadline } => is_select_answered(k, r, w, x, deadline),
        _ => false,
    }
}

/// The count if a part was written, else an error.
pub(crate) fn count_or(written: usize, errno: Errno) -> Answer
    requires { written < 2 ^ 63 }
    ensures { result ≡ count_or written errno }
{
    if written > 0 {
        Answer::Int(written as i64)
    } else {
        Answer::Fail(errno)
    }
}
