//! Utilities of pth(3): `pth_fdmode`, `pth_timeout`.

ghost use Rattle.std.specs.Prelude.{ℕ, ℤ, not};
ghost use Rattle.pth_base.specs.declared.call.Call.TheVariants as call;
ghost use Rattle.pth_base.specs.declared.errno.Errno.TheVariants.{EBADF, EINVAL};
ghost use Rattle.pth_kernel.specs.Kernel.{is_fd_live, fd_named};
ghost use Rattle.pth_kernel.specs.Modes.{is_mode, sets_mode};
ghost use Rattle.pth_model.specs.State.{State, now_of};
ghost use Rattle.pth_model.specs.Times.{is_negative, moment_after, length_of};
ghost use Rattle.pth_sheet.specs.Outcomes.{Begins, refused, ◌then◌, returns};
ghost use Rattle.pth_numbered.specs.Clauses.{◌when◌otherwise◌};
ghost use Rattle.pth_sheet.specs.States.{kernel_becomes};

use pth_base::program::Program;

/// This switches the non-blocking mode flag on file descriptor `f`. `m` can be `PTH_FDMODE_BLOCK` (1), `PTH_FDMODE_NONBLOCK` (2), or
/// `PTH_FDMODE_POLL` (0) for just polling the current mode. The current mode is returned: that before the call.
pub fn pth_fdmode<P: Program>()
    ensures { (s : State P P.State P.Shared) (t : ℕ) (f m : ℤ) →
        Begins P.functions s t (call.Fdmode f m) (
        refused EBADF when not (is_fd_live s.control.kernel (fd_named f)) otherwise
        refused EINVAL when not (is_mode m) otherwise
        kernel_becomes (sets_mode (fd_named f) m) then
        returns (s.control.kernel.descriptors (fd_named f)).mode) }
{}

/// It returns the absolute time value calculated by adding `l` to the current time. Here times are in microseconds.
pub fn pth_timeout<P: Program>()
    ensures { (s : State P P.State P.Shared) (t : ℕ) (l : ℤ) →
        Begins P.functions s t (call.Timeout l) (
        refused EINVAL when is_negative l otherwise
        returns (moment_after (now_of s.control) (length_of 1 l))) }
{}
