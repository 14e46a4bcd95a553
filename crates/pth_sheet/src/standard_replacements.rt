//! Standard POSIX Replacement API of pth(3): sleeps, and calls on descriptors. And close(2).
//!
//! "When you now switch a file descriptor explicitly into non-blocking mode", by pth_fdmode(3), "pth_read(3) or pth_write(3) will never
//! block the current thread." Here they are refused (EAGAIN), as are pth_accept(3) and pth_connect(3); what was written in part is counted.
//!
//! The statements `refused`, `answered` and `waits` are of the first attempt at a call, and `refused_later`, `answered_later` and
//! `waits_longer` of an attempt after a wait. `X_answer` is the answer of an attempt, or None if there is none yet (`pth_io`).

ghost use Rattle.std.specs.Prelude.{ℕ, ℤ, nat_le, ◌≡◌, Some, List, length, None, ◌&&◌, nat_lt, Option, not};
ghost use Rattle.pth_base.specs.declared.answer.Answer.TheVariants.{Fail, Bytes, Int, Sets};
ghost use Rattle.pth_base.specs.declared.call.Call.TheVariants as call;
ghost use Rattle.pth_base.specs.declared.errno.Errno.{Errno};
ghost use Rattle.pth_base.specs.declared.errno.Errno.TheVariants.{EINVAL, EAGAIN, EBADF};
ghost use Rattle.pth_base.specs.declared.ids.FdSet.{FdSet};
ghost use Rattle.pth_numbered.specs.Operands.{is_zero};
ghost use Rattle.pth_kernel.specs.Kernel.{fd_named, bytes_taken, is_nonblocking, is_fd_live, fd_closed};
ghost use Rattle.pth_io.specs.Attempts.{read_answer, write_answer, write_after, written, accept_answer, accept_after, connect_answer, select_answer};
ghost use Rattle.pth_model.specs.Cancellation.{may_be_canceled};
ghost use Rattle.pth_model.specs.Io.{select_deadline, is_refused_length};
ghost use Rattle.pth_model.specs.State.{State, now_of};
ghost use Rattle.pth_model.specs.Times.{is_negative, moment_after, length_of};
ghost use Rattle.pth_model.specs.declared.awaits.Awaits.TheVariants as awaits;
ghost use Rattle.pth_sheet.specs.Outcomes.{Begins, refused, returns, waits_for, GoesOn, canceled, ◌then◌, answers};
ghost use Rattle.pth_numbered.specs.Clauses.{◌when◌otherwise◌};
ghost use Rattle.pth_sheet.specs.States.{unblocks, kernel_becomes};

use pth_base::program::Program;

/// This is a variant of the 4.3BSD usleep(3) function. It suspends the current thread's execution until `l` microseconds elapsed. The
/// thread is guaranteed to not wake up before this time.
pub fn pth_usleep<P: Program>()
    ensures begins { (s : State P P.State P.Shared) (t : ℕ) (l : ℤ) →
        Begins P.functions s t (call.Usleep l) (
        refused EINVAL when is_negative l otherwise
        returns 0 when is_zero l otherwise
        waits_for (awaits.Moment (moment_after (now_of s.control) (length_of 1 l)))) }
    ensures goes_on { (s : State P P.State P.Shared) (t : ℕ) (l : ℤ) (at : ℕ) →
        GoesOn P.functions s t (call.Usleep l) (awaits.Moment at) (
        canceled P.functions when may_be_canceled s.control t otherwise
        unblocks t then returns 0 when nat_le at (now_of s.control) otherwise
        waits_for (awaits.Moment at)) }
{}

/// This is a variant of the POSIX sleep(3) function. It suspends the current thread's execution until `l` seconds elapsed. The thread is
/// guaranteed to not wake up before this time.
pub fn pth_sleep<P: Program>()
    ensures begins { (s : State P P.State P.Shared) (t : ℕ) (l : ℤ) →
        Begins P.functions s t (call.Sleep l) (
        refused EINVAL when is_negative l otherwise
        returns 0 when is_zero l otherwise
        waits_for (awaits.Moment (moment_after (now_of s.control) (length_of 1000000 l)))) }
    ensures goes_on { (s : State P P.State P.Shared) (t : ℕ) (l : ℤ) (at : ℕ) →
        GoesOn P.functions s t (call.Sleep l) (awaits.Moment at) (
        canceled P.functions when may_be_canceled s.control t otherwise
        unblocks t then returns 0 when nat_le at (now_of s.control) otherwise
        waits_for (awaits.Moment at)) }
{}

/// This is a variant of the 4.2BSD connect(2) function. It establishes a connection on a socket `f`. It suspends only the execution of the
/// current thread. Here whether the connection is taken or refused is in the record of what arrives.
pub fn pth_connect<P: Program>()
    ensures refused { (s : State P P.State P.Shared) (t : ℕ) (f : ℤ) (z : Errno) →
        connect_answer s.control.kernel (fd_named f) ≡ Some (Fail z) →
        Begins P.functions s t (call.Connect f) (refused z) }
    ensures answered { (s : State P P.State P.Shared) (t : ℕ) (f n : ℤ) →
        connect_answer s.control.kernel (fd_named f) ≡ Some (Int n) →
        Begins P.functions s t (call.Connect f) (answers (Int n)) }
    ensures waits { (s : State P P.State P.Shared) (t : ℕ) (f : ℤ) →
        connect_answer s.control.kernel (fd_named f) ≡ None →
        Begins P.functions s t (call.Connect f) (
        refused EAGAIN when is_nonblocking s.control.kernel (fd_named f) otherwise
        waits_for (awaits.ConnectAnswer f)) }
    ensures refused_later { (s : State P P.State P.Shared) (t : ℕ) (f : ℤ) (z : Errno) →
        connect_answer s.control.kernel (fd_named f) ≡ Some (Fail z) →
        GoesOn P.functions s t (call.Connect f) (awaits.ConnectAnswer f) (
        canceled P.functions when may_be_canceled s.control t otherwise
        unblocks t then refused z) }
    ensures answered_later { (s : State P P.State P.Shared) (t : ℕ) (f n : ℤ) →
        connect_answer s.control.kernel (fd_named f) ≡ Some (Int n) →
        GoesOn P.functions s t (call.Connect f) (awaits.ConnectAnswer f) (
        canceled P.functions when may_be_canceled s.control t otherwise
        unblocks t then answers (Int n)) }
    ensures waits_longer { (s : State P P.State P.Shared) (t : ℕ) (f : ℤ) →
        connect_answer s.control.kernel (fd_named f) ≡ None →
        GoesOn P.functions s t (call.Connect f) (awaits.ConnectAnswer f) (
        canceled P.functions when may_be_canceled s.control t otherwise
        waits_for (awaits.ConnectAnswer f)) }
{}

/// This is a variant of the 4.2BSD accept(2) function. It accepts a connection on a socket `f` by extracting the first connection request
/// on the queue of pending connections, and allocates a new file descriptor for the socket (which is returned). It suspends only the
/// execution of the current thread.
pub fn pth_accept<P: Program>()
    ensures refused { (s : State P P.State P.Shared) (t : ℕ) (f : ℤ) (z : Errno) →
        accept_answer s.control.kernel (fd_named f) ≡ Some (Fail z) →
        Begins P.functions s t (call.Accept f) (refused z) }
    ensures answered { (s : State P P.State P.Shared) (t : ℕ) (f n : ℤ) →
        accept_answer s.control.kernel (fd_named f) ≡ Some (Int n) →
        Begins P.functions s t (call.Accept f) (
        kernel_becomes (accept_after (fd_named f)) then answers (Int n)) }
    ensures waits { (s : State P P.State P.Shared) (t : ℕ) (f : ℤ) →
        accept_answer s.control.kernel (fd_named f) ≡ None →
        Begins P.functions s t (call.Accept f) (
        refused EAGAIN when is_nonblocking s.control.kernel (fd_named f) otherwise
        waits_for (awaits.Connection f)) }
    ensures refused_later { (s : State P P.State P.Shared) (t : ℕ) (f : ℤ) (z : Errno) →
        accept_answer s.control.kernel (fd_named f) ≡ Some (Fail z) →
        GoesOn P.functions s t (call.Accept f) (awaits.Connection f) (
        canceled P.functions when may_be_canceled s.control t otherwise
        unblocks t then refused z) }
    ensures answered_later { (s : State P P.State P.Shared) (t : ℕ) (f n : ℤ) →
        accept_answer s.control.kernel (fd_named f) ≡ Some (Int n) →
        GoesOn P.functions s t (call.Accept f) (awaits.Connection f) (
        canceled P.functions when may_be_canceled s.control t otherwise
        kernel_becomes (accept_after (fd_named f)) then unblocks t then answers (Int n)) }
    ensures waits_longer { (s : State P P.State P.Shared) (t : ℕ) (f : ℤ) →
        accept_answer s.control.kernel (fd_named f) ≡ None →
        GoesOn P.functions s t (call.Accept f) (awaits.Connection f) (
        canceled P.functions when may_be_canceled s.control t otherwise
        waits_for (awaits.Connection f)) }
{}

/// This is a variant of the 4.2BSD select(2) function. It examines the I/O descriptor sets `r`, `w` and `x` to see if some of their
/// descriptors are ready for reading, are ready for writing, or have an exceptional condition pending, respectively. Here `l` is the
/// timeout in microseconds, or -1 for none.
pub fn pth_select<P: Program>()
    ensures refused { (s : State P P.State P.Shared) (t : ℕ) (r w x : FdSet) (l : ℤ) (z : Errno) →
        select_answer s.control.kernel r.0 w.0 x.0 (select_deadline s l) ≡ Some (Fail z) →
        Begins P.functions s t (call.Select r w x l) (
        refused EINVAL when is_refused_length s r w x l otherwise
        refused z) }
    ensures answered { (s : State P P.State P.Shared) (t : ℕ) (r w x : FdSet) (l n : ℤ)
        (a b d : FdSet) →
        select_answer s.control.kernel r.0 w.0 x.0 (select_deadline s l) ≡ Some (Sets n a b d) →
        Begins P.functions s t (call.Select r w x l) (
        refused EINVAL when is_refused_length s r w x l otherwise
        answers (Sets n a b d)) }
    ensures waits { (s : State P P.State P.Shared) (t : ℕ) (r w x : FdSet) (l : ℤ) →
        select_answer s.control.kernel r.0 w.0 x.0 (select_deadline s l) ≡ None →
        Begins P.functions s t (call.Select r w x l) (
        refused EINVAL when is_refused_length s r w x l otherwise
        waits_for (awaits.Selection r w x (select_deadline s l))) }
    ensures refused_later { (s : State P P.State P.Shared) (t : ℕ) (r w x : FdSet) (l : ℤ)
        (end : Option ℕ) (z : Errno) →
        select_answer s.control.kernel r.0 w.0 x.0 end ≡ Some (Fail z) →
        GoesOn P.functions s t (call.Select r w x l) (awaits.Selection r w x end) (
        canceled P.functions when may_be_canceled s.control t otherwise
        unblocks t then refused z) }
    ensures answered_later { (s : State P P.State P.Shared) (t : ℕ) (r w x : FdSet) (l : ℤ)
        (end : Option ℕ) (n : ℤ) (a b d : FdSet) →
        select_answer s.control.kernel r.0 w.0 x.0 end ≡ Some (Sets n a b d) →
        GoesOn P.functions s t (call.Select r w x l) (awaits.Selection r w x end) (
        canceled P.functions when may_be_canceled s.control t otherwise
        unblocks t then answers (Sets n a b d)) }
    ensures waits_longer { (s : State P P.State P.Shared) (t : ℕ) (r w x : FdSet) (l : ℤ)
        (end : Option ℕ) →
        select_answer s.control.kernel r.0 w.0 x.0 end ≡ None →
        GoesOn P.functions s t (call.Select r w x l) (awaits.Selection r w x end) (
        canceled P.functions when may_be_canceled s.control t otherwise
        waits_for (awaits.Selection r w x end)) }
{}

/// This is a variant of the POSIX read(2) function. It reads up to `n` bytes from file descriptor `f`. It suspends execution of the current
/// thread until the file descriptor is ready for reading.
pub fn pth_read<P: Program>()
    ensures refused { (s : State P P.State P.Shared) (t : ℕ) (f n : ℤ) (z : Errno) →
        read_answer s.control.kernel (fd_named f) n ≡ Some (Fail z) →
        Begins P.functions s t (call.Read f n) (refused z) }
    ensures answered { (s : State P P.State P.Shared) (t : ℕ) (f n : ℤ) (bs : List ℕ) →
        read_answer s.control.kernel (fd_named f) n ≡ Some (Bytes bs) →
        Begins P.functions s t (call.Read f n) (
        kernel_becomes (bytes_taken (fd_named f) (length bs)) then answers (Bytes bs)) }
    ensures waits { (s : State P P.State P.Shared) (t : ℕ) (f n : ℤ) →
        read_answer s.control.kernel (fd_named f) n ≡ None →
        Begins P.functions s t (call.Read f n) (
        refused EAGAIN when is_nonblocking s.control.kernel (fd_named f) otherwise
        waits_for (awaits.Reading f n)) }
    ensures refused_later { (s : State P P.State P.Shared) (t : ℕ) (f n : ℤ) (z : Errno) →
        read_answer s.control.kernel (fd_named f) n ≡ Some (Fail z) →
        GoesOn P.functions s t (call.Read f n) (awaits.Reading f n) (
        canceled P.functions when may_be_canceled s.control t otherwise
        unblocks t then refused z) }
    ensures answered_later { (s : State P P.State P.Shared) (t : ℕ) (f n : ℤ) (bs : List ℕ) →
        read_answer s.control.kernel (fd_named f) n ≡ Some (Bytes bs) →
        GoesOn P.functions s t (call.Read f n) (awaits.Reading f n) (
        canceled P.functions when may_be_canceled s.control t otherwise
        kernel_becomes (bytes_taken (fd_named f) (length bs)) then unblocks t then
        answers (Bytes bs)) }
    ensures waits_longer { (s : State P P.State P.Shared) (t : ℕ) (f n : ℤ) →
        read_answer s.control.kernel (fd_named f) n ≡ None →
        GoesOn P.functions s t (call.Read f n) (awaits.Reading f n) (
        canceled P.functions when may_be_canceled s.control t otherwise
        waits_for (awaits.Reading f n)) }
{}

/// This is a variant of the POSIX write(2) function. It writes `bytes` to file descriptor `f`. It suspends execution of the current thread
/// until the file descriptor is ready for writing. Here it waits until all bytes are written.
pub fn pth_write<P: Program>()
    ensures refused { (s : State P P.State P.Shared) (t : ℕ) (f : ℤ) (bytes : List ℕ) (z : Errno) →
        write_answer s.control.kernel (fd_named f) (length bytes) 0 ≡ Some (Fail z) →
        Begins P.functions s t (call.Write f bytes) (refused z) }
    ensures answered { (s : State P P.State P.Shared) (t : ℕ) (f : ℤ) (bytes : List ℕ) (n : ℤ) →
        write_answer s.control.kernel (fd_named f) (length bytes) 0 ≡ Some (Int n) →
        Begins P.functions s t (call.Write f bytes) (
        kernel_becomes (write_after (fd_named f) (length bytes) 0) then answers (Int n)) }
    ensures waits { (s : State P P.State P.Shared) (t : ℕ) (f : ℤ) (bytes : List ℕ) →
        let w = written s.control.kernel (fd_named f) (length bytes) 0 in
        write_answer s.control.kernel (fd_named f) (length bytes) 0 ≡ None →
        Begins P.functions s t (call.Write f bytes) (
        kernel_becomes (write_after (fd_named f) (length bytes) 0) then returns w
        when is_nonblocking s.control.kernel (fd_named f) && nat_lt 0 w otherwise
        refused EAGAIN when is_nonblocking s.control.kernel (fd_named f) otherwise
        kernel_becomes (write_after (fd_named f) (length bytes) 0) then
        waits_for (awaits.Writing f (length bytes) w)) }
    ensures refused_later { (s : State P P.State P.Shared) (t : ℕ) (f : ℤ) (bytes : List ℕ)
        (total sofar : ℕ) (z : Errno) →
        write_answer s.control.kernel (fd_named f) total sofar ≡ Some (Fail z) →
        GoesOn P.functions s t (call.Write f bytes) (awaits.Writing f total sofar) (
        canceled P.functions when may_be_canceled s.control t otherwise
        unblocks t then refused z) }
    ensures answered_later { (s : State P P.State P.Shared) (t : ℕ) (f : ℤ) (bytes : List ℕ)
        (total sofar : ℕ) (n : ℤ) →
        write_answer s.control.kernel (fd_named f) total sofar ≡ Some (Int n) →
        GoesOn P.functions s t (call.Write f bytes) (awaits.Writing f total sofar) (
        canceled P.functions when may_be_canceled s.control t otherwise
        kernel_becomes (write_after (fd_named f) total sofar) then unblocks t then
        answers (Int n)) }
    ensures waits_longer { (s : State P P.State P.Shared) (t : ℕ) (f : ℤ) (bytes : List ℕ)
        (total sofar : ℕ) →
        let w = written s.control.kernel (fd_named f) total sofar in
        write_answer s.control.kernel (fd_named f) total sofar ≡ None →
        GoesOn P.functions s t (call.Write f bytes) (awaits.Writing f total sofar) (
        canceled P.functions when may_be_canceled s.control t otherwise
        kernel_becomes (write_after (fd_named f) total sofar) then
        waits_for (awaits.Writing f total w)) }
{}

/// This is close(2), of which pth(3) says nothing: it closes a descriptor `f`. Here the descriptor is never open again.
pub fn close<P: Program>()
    ensures { (s : State P P.State P.Shared) (t : ℕ) (f : ℤ) →
        Begins P.functions s t (call.Close f) (
        refused EBADF when not (is_fd_live s.control.kernel (fd_named f)) otherwise
        kernel_becomes (fd_closed (fd_named f)) then returns 1) }
{}
