//! Attempts to accept and to connect.

ghost use Rattle.std.specs.Prelude.{◌≡◌, is_some};
ghost use Rattle.pth_io.specs.Answered.{answered};
ghost use Rattle.pth_io.specs.Attempts.{accept_answer, accept_after, connect_answer};
ghost use Rattle.pth_kernel.specs.Kernel.{kernel_of, fd_named};

use crate::attempt::{Attempt, counts, fails};
use pth_base::errno::Errno;
use pth_kernel::kernel::Kernel;

/// Accepts the oldest connection that waits at descriptor `f` (`pth_accept`), and answers its descriptor: EBADF where `f` is not
/// open, and EIO where it has failed and no connection waits.
#[tactic(auto, unfolding(crate::specs::Attempts::accept_answer, crate::specs::Attempts::accept_after))]
pub fn try_accept(k: &mut Kernel, f: i64) -> Attempt
    ensures answer { answered result ≡ accept_answer (kernel_of k.old) (fd_named f) }
    ensures after { kernel_of k.new ≡ accept_after (fd_named f) (kernel_of k.old) }
{
    if !k.is_live(f) {
        return fails(Errno::EBADF);
    }
    let failed = k.faulty(f);
    match k.accept(f) {
        Some(fd) => counts(usize::from(fd.0)),
        None if failed => fails(Errno::EIO),
        None => Attempt::NotYet,
    }
}

/// Whether an accept is answered as things are.
#[tactic(auto, unfolding(crate::specs::Attempts::accept_answer))]
pub fn is_accept_answered(k: &Kernel, f: i64) -> bool
    ensures { result ≡ is_some (accept_answer (kernel_of k.now) (fd_named f)) }
{
    !k.is_live(f) || k.has_conn(f) || k.faulty(f)
}

/// Waits for the connection of descriptor `f` (`pth_connect`): 0 where it stands, ECONNREFUSED where it was refused, EBADF where `f`
/// is not open, and EIO where it has failed.
#[tactic(auto, unfolding(crate::specs::Attempts::connect_answer))]
pub fn try_connect(k: &Kernel, f: i64) -> Attempt
    ensures { answered result ≡ connect_answer (kernel_of k.now) (fd_named f) }
{
    if !k.is_live(f) {
        return fails(Errno::EBADF);
    }
    if k.faulty(f) {
        return fails(Errno::EIO);
    }
    match k.connected(f) {
        Some(true) => counts(0),
        Some(false) => fails(Errno::ECONNREFUSED),
        None => Attempt::NotYet,
    }
}

/// Whether a connect is answered as things are.
#[tactic(auto, unfolding(crate::specs::Attempts::connect_answer))]
pub fn is_connect_answered(k: &Kernel, f: i64) -> bool
    ensures { result ≡ is_some (connect_answer (kernel_of k.now) (fd_named f)) }
{
    !k.is_live(f) || k.settled(f)
}
