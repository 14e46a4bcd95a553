//! Generalized POSIX Replacement API of pth(3): calls on descriptors with an additional event argument.
//!
//! "When you now switch a file descriptor explicitly into non-blocking mode", by pth_fdmode(3), "pth_read(3) or pth_write(3) will never
//! block the current thread." Here they are refused (EAGAIN), as are pth_accept(3) and pth_connect(3); what was written in part is counted.
//!
//! The statements `refused`, `answered` and `waits` are of the first attempt at a call, and `refused_later`, `answered_later` and
//! `waits_longer` of an attempt after a wait. `X_answer` is the answer of an attempt, or None if there is none yet (`pth_io`).

ghost use Rattle.std.specs.Prelude.{ℕ, ℤ, ◌≡◌, Some, List, length, None, ◌&&◌, nat_lt, Option};
ghost use Rattle.pth_base.specs.declared.answer.Answer.TheVariants.{Fail, Bytes, Int, Sets};
ghost use Rattle.pth_base.specs.declared.call.Call.TheVariants as call;
ghost use Rattle.pth_base.specs.declared.errno.Errno.{Errno};
ghost use Rattle.pth_base.specs.declared.errno.Errno.TheVariants.{EINVAL, EAGAIN, EBUSY, EINTR};
ghost use Rattle.pth_base.specs.declared.ids.FdSet.{FdSet};
ghost use Rattle.pth_kernel.specs.Kernel.{fd_named, bytes_taken, is_nonblocking};
ghost use Rattle.pth_io.specs.Attempts.{read_answer, write_answer, write_after, written, accept_answer, accept_after, connect_answer, select_answer};
ghost use Rattle.pth_model.specs.Cancellation.{may_be_canceled};
ghost use Rattle.pth_model.specs.Io.{select_deadline, is_refused_length};
ghost use Rattle.pth_model.specs.State.{State};
ghost use Rattle.pth_model.specs.declared.awaits.Awaits.TheVariants as awaits;
ghost use Rattle.pth_sheet.specs.Outcomes.{Begins, refused, returns, waits_for, GoesOn, canceled, ◌then◌, answers};
ghost use Rattle.pth_numbered.specs.Clauses.{◌when◌otherwise◌};
ghost use Rattle.pth_sheet.specs.States.{unblocks, kernel_becomes, is_no_ring_of, ring_is_in_use, claims_ring, has_event_settled};

use pth_base::program::Program;

/// This is equal to pth_connect(3) (see `standard_replacements.rt`), but has an additional event argument `e`. With this function any
/// number of extra events can be used to awake the current thread (`e` actually is an event ring). Here an event that comes first is
/// answered EINTR.
pub fn pth_connect_ev<P: Program>()
    ensures refused { (s : State P P.State P.Shared) (t : ℕ) (f e : ℤ) (z : Errno) →
        connect_answer s.control.kernel (fd_named f) ≡ Some (Fail z) →
        Begins P.functions s t (call.ConnectEv f e) (
        refused EINVAL when is_no_ring_of s e otherwise
        refused z) }
    ensures answered { (s : State P P.State P.Shared) (t : ℕ) (f e n : ℤ) →
        connect_answer s.control.kernel (fd_named f) ≡ Some (Int n) →
        Begins P.functions s t (call.ConnectEv f e) (
        refused EINVAL when is_no_ring_of s e otherwise
        answers (Int n)) }
    ensures waits { (s : State P P.State P.Shared) (t : ℕ) (f e : ℤ) →
        connect_answer s.control.kernel (fd_named f) ≡ None →
        Begins P.functions s t (call.ConnectEv f e) (
        refused EINVAL when is_no_ring_of s e otherwise
        refused EAGAIN when is_nonblocking s.control.kernel (fd_named f) otherwise
        refused EBUSY when ring_is_in_use s e otherwise
        claims_ring t e then waits_for (awaits.ConnectAnswer f)) }
    ensures refused_later { (s : State P P.State P.Shared) (t : ℕ) (f e : ℤ) (z : Errno) →
        connect_answer s.control.kernel (fd_named f) ≡ Some (Fail z) →
        GoesOn P.functions s t (call.ConnectEv f e) (awaits.ConnectAnswer f) (
        canceled P.functions when may_be_canceled s.control t otherwise
        unblocks t then refused z) }
    ensures answered_later { (s : State P P.State P.Shared) (t : ℕ) (f e n : ℤ) →
        connect_answer s.control.kernel (fd_named f) ≡ Some (Int n) →
        GoesOn P.functions s t (call.ConnectEv f e) (awaits.ConnectAnswer f) (
        canceled P.functions when may_be_canceled s.control t otherwise
        unblocks t then answers (Int n)) }
    ensures waits_longer { (s : State P P.State P.Shared) (t : ℕ) (f e : ℤ) →
        connect_answer s.control.kernel (fd_named f) ≡ None →
        GoesOn P.functions s t (call.ConnectEv f e) (awaits.ConnectAnswer f) (
        canceled P.functions when may_be_canceled s.control t otherwise
        unblocks t then refused EINTR when has_event_settled s e otherwise
        waits_for (awaits.ConnectAnswer f)) }
{}

/// This is equal to pth_accept(3) (see `standard_replacements.rt`), but has an additional event argument `e`. With this function any number
/// of extra events can be used to awake the current thread (`e` actually is an event ring). Here an event that comes first is answered
/// EINTR.
pub fn pth_accept_ev<P: Program>()
    ensures refused { (s : State P P.State P.Shared) (t : ℕ) (f e : ℤ) (z : Errno) →
        accept_answer s.control.kernel (fd_named f) ≡ Some (Fail z) →
        Begins P.functions s t (call.AcceptEv f e) (
        refused EINVAL when is_no_ring_of s e otherwise
        refused z) }
    ensures answered { (s : State P P.State P.Shared) (t : ℕ) (f e n : ℤ) →
        accept_answer s.control.kernel (fd_named f) ≡ Some (Int n) →
        Begins P.functions s t (call.AcceptEv f e) (
        refused EINVAL when is_no_ring_of s e otherwise
        kernel_becomes (accept_after (fd_named f)) then answers (Int n)) }
    ensures waits { (s : State P P.State P.Shared) (t : ℕ) (f e : ℤ) →
        accept_answer s.control.kernel (fd_named f) ≡ None →
        Begins P.functions s t (call.AcceptEv f e) (
        refused EINVAL when is_no_ring_of s e otherwise
        refused EAGAIN when is_nonblocking s.control.kernel (fd_named f) otherwise
        refused EBUSY when ring_is_in_use s e otherwise
        claims_ring t e then waits_for (awaits.Connection f)) }
    ensures refused_later { (s : State P P.State P.Shared) (t : ℕ) (f e : ℤ) (z : Errno) →
        accept_answer s.control.kernel (fd_named f) ≡ Some (Fail z) →
        GoesOn P.functions s t (call.AcceptEv f e) (awaits.Connection f) (
        canceled P.functions when may_be_canceled s.control t otherwise
        unblocks t then refused z) }
    ensures answered_later { (s : State P P.State P.Shared) (t : ℕ) (f e n : ℤ) →
        accept_answer s.control.kernel (fd_named f) ≡ Some (Int n) →
        GoesOn P.functions s t (call.AcceptEv f e) (awaits.Connection f) (
        canceled P.functions when may_be_canceled s.control t otherwise
        kernel_becomes (accept_after (fd_named f)) then unblocks t then answers (Int n)) }
    ensures waits_longer { (s : State P P.State P.Shared) (t : ℕ) (f e : ℤ) →
        accept_answer s.control.kernel (fd_named f) ≡ None →
        GoesOn P.functions s t (call.AcceptEv f e) (awaits.Connection f) (
        canceled P.functions when may_be_canceled s.control t otherwise
        unblocks t then refused EINTR when has_event_settled s e otherwise
        waits_for (awaits.Connection f)) }
{}

/// This is equal to pth_select(3) (see `standard_replacements.rt`), but has an additional event argument `e`. With this function any number
/// of extra events can be used to awake the current thread (`e` actually is an event ring). Here an event that comes first is answered
/// EINTR.
pub fn pth_select_ev<P: Program>()
    ensures refused { (s : State P P.State P.Shared) (t : ℕ) (r w x : FdSet) (l e : ℤ) (z : Errno) →
        select_answer s.control.kernel r.0 w.0 x.0 (select_deadline s l) ≡ Some (Fail z) →
        Begins P.functions s t (call.SelectEv r w x l e) (
        refused EINVAL when is_no_ring_of s e otherwise
        refused EINVAL when is_refused_length s r w x l otherwise
        refused z) }
    ensures answered { (s : State P P.State P.Shared) (t : ℕ) (r w x : FdSet) (l e n : ℤ)
        (a b d : FdSet) →
        select_answer s.control.kernel r.0 w.0 x.0 (select_deadline s l) ≡ Some (Sets n a b d) →
        Begins P.functions s t (call.SelectEv r w x l e) (
        refused EINVAL when is_no_ring_of s e otherwise
        refused EINVAL when is_refused_length s r w x l otherwise
        answers (Sets n a b d)) }
    ensures waits { (s : State P P.State P.Shared) (t : ℕ) (r w x : FdSet) (l e : ℤ) →
        select_answer s.control.kernel r.0 w.0 x.0 (select_deadline s l) ≡ None →
        Begins P.functions s t (call.SelectEv r w x l e) (
        refused EINVAL when is_no_ring_of s e otherwise
        refused EINVAL when is_refused_length s r w x l otherwise
        refused EBUSY when ring_is_in_use s e otherwise
        claims_ring t e then waits_for (awaits.Selection r w x (select_deadline s l))) }
    ensures refused_later { (s : State P P.State P.Shared) (t : ℕ) (r w x : FdSet) (l e : ℤ)
        (end : Option ℕ) (z : Errno) →
        select_answer s.control.kernel r.0 w.0 x.0 end ≡ Some (Fail z) →
        GoesOn P.functions s t (call.SelectEv r w x l e) (awaits.Selection r w x end) (
        canceled P.functions when may_be_canceled s.control t otherwise
        unblocks t then refused z) }
    ensures answered_later { (s : State P P.State P.Shared) (t : ℕ) (r w x : FdSet) (l e : ℤ)
        (end : Option ℕ) (n : ℤ) (a b d : FdSet) →
        select_answer s.control.kernel r.0 w.0 x.0 end ≡ Some (Sets n a b d) →
        GoesOn P.functions s t (call.SelectEv r w x l e) (awaits.Selection r w x end) (
        canceled P.functions when may_be_canceled s.control t otherwise
        unblocks t then answers (Sets n a b d)) }
    ensures waits_longer { (s : State P P.State P.Shared) (t : ℕ) (r w x : FdSet) (l e : ℤ)
        (end : Option ℕ) →
        select_answer s.control.kernel r.0 w.0 x.0 end ≡ None →
        GoesOn P.functions s t (call.SelectEv r w x l e) (awaits.Selection r w x end) (
        canceled P.functions when may_be_canceled s.control t otherwise
        unblocks t then refused EINTR when has_event_settled s e otherwise
        waits_for (awaits.Selection r w x end)) }
{}

/// This is equal to pth_read(3) (see `standard_replacements.rt`), but has an additional event argument `e`. With this function any number
/// of extra events can be used to awake the current thread (`e` actually is an event ring). Here an event that comes first is answered
/// EINTR.
pub fn pth_read_ev<P: Program>()
    ensures refused { (s : State P P.State P.Shared) (t : ℕ) (f n e : ℤ) (z : Errno) →
        read_answer s.control.kernel (fd_named f) n ≡ Some (Fail z) →
        Begins P.functions s t (call.ReadEv f n e) (
        refused EINVAL when is_no_ring_of s e otherwise
        refused z) }
    ensures answered { (s : State P P.State P.Shared) (t : ℕ) (f n e : ℤ) (bs : List ℕ) →
        read_answer s.control.kernel (fd_named f) n ≡ Some (Bytes bs) →
        Begins P.functions s t (call.ReadEv f n e) (
        refused EINVAL when is_no_ring_of s e otherwise
        kernel_becomes (bytes_taken (fd_named f) (length bs)) then answers (Bytes bs)) }
    ensures waits { (s : State P P.State P.Shared) (t : ℕ) (f n e : ℤ) →
        read_answer s.control.kernel (fd_named f) n ≡ None →
        Begins P.functions s t (call.ReadEv f n e) (
        refused EINVAL when is_no_ring_of s e otherwise
        refused EAGAIN when is_nonblocking s.control.kernel (fd_named f) otherwise
        refused EBUSY when ring_is_in_use s e otherwise
        claims_ring t e then waits_for (awaits.Reading f n)) }
    ensures refused_later { (s : State P P.State P.Shared) (t : ℕ) (f n e : ℤ) (z : Errno) →
        read_answer s.control.kernel (fd_named f) n ≡ Some (Fail z) →
        GoesOn P.functions s t (call.ReadEv f n e) (awaits.Reading f n) (
        canceled P.functions when may_be_canceled s.control t otherwise
        unblocks t then refused z) }
    ensures answered_later { (s : State P P.State P.Shared) (t : ℕ) (f n e : ℤ) (bs : List ℕ) →
        read_answer s.control.kernel (fd_named f) n ≡ Some (Bytes bs) →
        GoesOn P.functions s t (call.ReadEv f n e) (awaits.Reading f n) (
        canceled P.functions when may_be_canceled s.control t otherwise
        kernel_becomes (bytes_taken (fd_named f) (length bs)) then unblocks t then
        answers (Bytes bs)) }
    ensures waits_longer { (s : State P P.State P.Shared) (t : ℕ) (f n e : ℤ) →
        read_answer s.control.kernel (fd_named f) n ≡ None →
        GoesOn P.functions s t (call.ReadEv f n e) (awaits.Reading f n) (
        canceled P.functions when may_be_canceled s.control t otherwise
        unblocks t then refused EINTR when has_event_settled s e otherwise
        waits_for (awaits.Reading f n)) }
{}

/// This is equal to pth_write(3) (see `standard_replacements.rt`), but has an additional event argument `e`. With this function any number
/// of extra events can be used to awake the current thread (`e` actually is an event ring). Here an event that comes first is answered
/// EINTR, or with what was written in part.
pub fn pth_write_ev<P: Program>()
    ensures refused { (s : State P P.State P.Shared) (t : ℕ) (f : ℤ) (bytes : List ℕ) (e : ℤ)
        (z : Errno) →
        write_answer s.control.kernel (fd_named f) (length bytes) 0 ≡ Some (Fail z) →
        Begins P.functions s t (call.WriteEv f bytes e) (
        refused EINVAL when is_no_ring_of s e otherwise
        refused z) }
    ensures answered { (s : State P P.State P.Shared) (t : ℕ) (f : ℤ) (bytes : List ℕ) (e n : ℤ) →
        write_answer s.control.kernel (fd_named f) (length bytes) 0 ≡ Some (Int n) →
        Begins P.functions s t (call.WriteEv f bytes e) (
        refused EINVAL when is_no_ring_of s e otherwise
        kernel_becomes (write_after (fd_named f) (length bytes) 0) then answers (Int n)) }
    ensures waits { (s : State P P.State P.Shared) (t : ℕ) (f : ℤ) (bytes : List ℕ) (e : ℤ) →
        let w = written s.control.kernel (fd_named f) (length bytes) 0 in
        write_answer s.control.kernel (fd_named f) (length bytes) 0 ≡ None →
        Begins P.functions s t (call.WriteEv f bytes e) (
        refused EINVAL when is_no_ring_of s e otherwise
        kernel_becomes (write_after (fd_named f) (length bytes) 0) then returns w
        when is_nonblocking s.control.kernel (fd_named f) && nat_lt 0 w otherwise
        refused EAGAIN when is_nonblocking s.control.kernel (fd_named f) otherwise
        kernel_becomes (write_after (fd_named f) (length bytes) 0) then returns w
        when ring_is_in_use s e && nat_lt 0 w otherwise
        refused EBUSY when ring_is_in_use s e otherwise
        kernel_becomes (write_after (fd_named f) (length bytes) 0) then claims_ring t e then
        waits_for (awaits.Writing f (length bytes) w)) }
    ensures refused_later { (s : State P P.State P.Shared) (t : ℕ) (f : ℤ) (bytes : List ℕ)
        (e : ℤ) (total sofar : ℕ) (z : Errno) →
        write_answer s.control.kernel (fd_named f) total sofar ≡ Some (Fail z) →
        GoesOn P.functions s t (call.WriteEv f bytes e) (awaits.Writing f total sofar) (
        canceled P.functions when may_be_canceled s.control t otherwise
        unblocks t then refused z) }
    ensures answered_later { (s : State P P.State P.Shared) (t : ℕ) (f : ℤ) (bytes : List ℕ)
        (e : ℤ) (total sofar : ℕ) (n : ℤ) →
        write_answer s.control.kernel (fd_named f) total sofar ≡ Some (Int n) →
        GoesOn P.functions s t (call.WriteEv f bytes e) (awaits.Writing f total sofar) (
        canceled P.functions when may_be_canceled s.control t otherwise
        kernel_becomes (write_after (fd_named f) total sofar) then unblocks t then
        answers (Int n)) }
    ensures waits_longer { (s : State P P.State P.Shared) (t : ℕ) (f : ℤ) (bytes : List ℕ) (e : ℤ)
        (total sofar : ℕ) →
        let w = written s.control.kernel (fd_named f) total sofar in
        write_answer s.control.kernel (fd_named f) total sofar ≡ None →
        GoesOn P.functions s t (call.WriteEv f bytes e) (awaits.Writing f total sofar) (
        canceled P.functions when may_be_canceled s.control t otherwise
        kernel_becomes (write_after (fd_named f) total sofar) then unblocks t then returns w
        when has_event_settled s e && nat_lt 0 w otherwise
        unblocks t then refused EINTR when has_event_settled s e otherwise
        kernel_becomes (write_after (fd_named f) total sofar) then
        waits_for (awaits.Writing f total w)) }
{}
