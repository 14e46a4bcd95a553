//! Thread Control of pth(3): `pth_spawn` to `pth_exit`.

ghost use Rattle.std.specs.Prelude.{ℕ, ℤ, ◌≡◌, Err, not, Ok, ◌+◌, false, ◌||◌, true, pos, Some, None, nat_le, nat_lt};
ghost use Rattle.pth_base.specs.declared.answer.Answer.TheVariants.{Int};
ghost use Rattle.pth_base.specs.declared.call.Call.TheVariants as call;
ghost use Rattle.pth_base.specs.declared.errno.Errno.{Errno};
ghost use Rattle.pth_base.specs.declared.errno.Errno.TheVariants.{EINVAL, EAGAIN, ESRCH, EPERM, EBUSY, EDEADLK};
ghost use Rattle.pth_queue.specs.declared.queue.Queue.{Queue};
ghost use Rattle.pth_queue.specs.declared.queue.Queue.TheVariants as ranked;
ghost use Rattle.pth_numbered.specs.Operands.{is_below, number, ◌is◌, is_zero};
ghost use Rattle.pth_threads.specs.declared.entry.Change.TheVariants as change;
ghost use Rattle.pth_threads.specs.declared.entry.NewThread.{NewThread};
ghost use Rattle.pth_ring.specs.Rings.{is_event, is_claimed, settled_in};
ghost use Rattle.pth_model.specs.Acts.{runs_handler};
ghost use Rattle.pth_model.specs.Awaits.{death_of};
ghost use Rattle.pth_model.specs.Cancellation.{may_be_canceled, is_asynchronous};
ghost use Rattle.pth_model.specs.Changes.{makes, enters, uses, leaves_queue, sets, queue_for, prefers, removes};
ghost use Rattle.pth_model.specs.Living.{is_dead};
ghost use Rattle.pth_model.specs.Resources.{handler};
ghost use Rattle.pth_model.specs.RingWaits.{claims};
ghost use Rattle.pth_model.specs.State.{State, once_limit, now_of, main};
ghost use Rattle.pth_model.specs.ThreadControl.{values_for, has_room, is_known, may_run, to_join};
ghost use Rattle.pth_model.specs.ThreadEnds.{must_wait};
ghost use Rattle.pth_model.specs.Times.{is_negative, moment_after, length_of};
ghost use Rattle.pth_model.specs.Transition.{◌and◌};
ghost use Rattle.pth_model.specs.declared.awaits.Awaits.TheVariants as awaits;
ghost use Rattle.pth_sheet.specs.Outcomes.{refused, Begins, ◌then◌, returns, ◌before◌, yields, waits_for, GoesOn, canceled, cancels, answers, ends};
ghost use Rattle.pth_numbered.specs.Clauses.{◌when◌otherwise◌};
ghost use Rattle.pth_sheet.specs.States.{control_becomes, thread_of, entry_of, unblocks, has_none_to_join, joins_unknown, joins_detached};

use pth_base::program::Program;

/// This spawns a new thread with the attributes given in `a` (or `PTH_ATTR_DEFAULT`, 0, for default attributes, which means that thread
/// priority, joinability and cancel state are inherited from the current thread) with the starting point at routine `b`, which is called
/// with `v`. The new thread is moved into the new queue of the scheduler. The function returns NULL on error. Here a routine is a body of
/// the program, and at most 4096 threads are in the system.
pub fn pth_spawn<P: Program>()
    ensures attributes_refused { (s : State P P.State P.Shared) (t : ℕ) (b v a : ℤ) (e : Errno) →
        values_for s.control t a ≡ Err e →
        Begins P.functions s t (call.Spawn b v a) (
        refused EINVAL when not (is_below b (P.functions s.control.program).bodies) otherwise
        refused e) }
    ensures made { (s : State P P.State P.Shared) (t : ℕ) (b v a : ℤ) (x : NewThread) →
        values_for s.control t a ≡ Ok x →
        Begins P.functions s t (call.Spawn b v a) (
        refused EINVAL when not (is_below b (P.functions s.control.program).bodies) otherwise
        refused EAGAIN when not (has_room s.control) otherwise
        control_becomes (makes P.functions (number b) v x) then
        control_becomes (enters (s.control.threads.made + 1) ranked.New x.prio false) then
        returns (s.control.threads.made + 1)) }
{}

/// This makes sure that a constructor function `h` is called only once as `h(v)` in the system, by the control variable `o`. Only the first
/// call by any thread in the system succeeds. Here a later call also returns 1, and calls nothing.
pub fn pth_once<P: Program>()
    ensures { (s : State P P.State P.Shared) (t : ℕ) (o h v : ℤ) →
        Begins P.functions s t (call.Once o h v) (
        refused EINVAL when not (is_below o once_limit) otherwise
        returns 1 when s.control.used (number o) otherwise
        control_becomes (uses (number o)) then runs_handler P.functions t (handler h) v before
        returns 1) }
{}

/// This just returns the unique thread handle of the currently running thread.
pub fn pth_self<P: Program>()
    ensures { (s : State P P.State P.Shared) (t : ℕ) →
        Begins P.functions s t call.SelfTid (returns t) }
{}

/// This suspends a thread `n` until it is manually resumed again via pth_resume(3). For this, the thread is moved to the suspended queue,
/// and this way is completely out of the scheduler's event handling and thread dispatching scope. Suspending the current thread is not
/// allowed.
pub fn pth_suspend<P: Program>()
    ensures { (s : State P P.State P.Shared) (t : ℕ) (n : ℤ) →
        Begins P.functions s t (call.Suspend n) (
        refused ESRCH when not (is_known s.control n) otherwise
        refused EPERM when n is t || is_dead (thread_of s n).state
        || (thread_of s n).suspended otherwise
        control_becomes (leaves_queue (number n)
        and sets (number n) (change.Suspended true)
        and enters (number n) ranked.Suspended (pos 0) false) then returns 1) }
{}

/// This function resumes a previously suspended thread `n`, i.e., `n` has to stay on the suspended queue. The thread is moved to the new,
/// ready or waiting queue `q` (dependent on what its state was when the pth_suspend(3) call was made).
///
/// A running thread has no queue, and is never suspended: the statement `running` is there so that every state is covered.
pub fn pth_resume<P: Program>()
    ensures suspended { (s : State P P.State P.Shared) (t : ℕ) (n : ℤ) (q : Queue) →
        queue_for (entry_of s (number n)).state ≡ Some q →
        Begins P.functions s t (call.Resume n) (
        refused ESRCH when not (is_known s.control n) otherwise
        refused EPERM when n is t || not (thread_of s n).suspended otherwise
        control_becomes (leaves_queue (number n)
        and sets (number n) (change.Suspended false)
        and enters (number n) q (pos 0) false) then returns 1) }
    ensures running { (s : State P P.State P.Shared) (t : ℕ) (n : ℤ) →
        queue_for (entry_of s (number n)).state ≡ None →
        Begins P.functions s t (call.Resume n) (
        refused ESRCH when not (is_known s.control n) otherwise
        refused EPERM when n is t || not (thread_of s n).suspended otherwise
        returns 1) }
{}

/// This explicitly yields back the execution control to the scheduler. Usually one specifies `n` as NULL (0) to indicate to the scheduler
/// that it can freely decide which thread to dispatch next. If `n` is not NULL and points to a new or ready thread, it is guaranteed that
/// this thread receives execution control on the next dispatching step. If `n` is in a different state, an error is reported (EINVAL).
pub fn pth_yield<P: Program>()
    ensures { (s : State P P.State P.Shared) (t : ℕ) (n : ℤ) →
        Begins P.functions s t (call.Yield n) (
        yields 1 when is_zero n otherwise
        refused EINVAL when (thread_of s n).suspended
        || not (may_run (thread_of s n).state) otherwise
        control_becomes (prefers (Some (number n))) then yields 1) }
{}

/// This function suspends the execution of the current thread until `l` is elapsed. It is only guaranteed that the thread will sleep at
/// least `l`. Here `l` is in microseconds.
pub fn pth_nap<P: Program>()
    ensures begins { (s : State P P.State P.Shared) (t : ℕ) (l : ℤ) →
        Begins P.functions s t (call.Nap l) (
        refused EINVAL when is_negative l otherwise
        returns 1 when is_zero l otherwise
        waits_for (awaits.Moment (moment_after (now_of s.control) (length_of 1 l)))) }
    ensures goes_on { (s : State P P.State P.Shared) (t : ℕ) (l : ℤ) (at : ℕ) →
        GoesOn P.functions s t (call.Nap l) (awaits.Moment at) (
        canceled P.functions when may_be_canceled s.control t otherwise
        unblocks t then returns 1 when nat_le at (now_of s.control) otherwise
        waits_for (awaits.Moment at)) }
{}

/// One gives this function one or more events (in the event ring specified by `e`) on which the current thread wants to wait. The scheduler
/// awakes the thread when one or more of them occurred or failed, after tagging them as such. It returns the number of occurred or failed
/// events.
pub fn pth_wait<P: Program>()
    ensures begins { (s : State P P.State P.Shared) (t : ℕ) (e : ℤ) →
        Begins P.functions s t (call.Wait e) (
        refused EINVAL when not (is_event s.control.events (number e)) otherwise
        refused EBUSY when is_claimed s.control.events (number e) otherwise
        control_becomes (claims t (Some e)) then waits_for (awaits.Ring e)) }
    ensures goes_on { (s : State P P.State P.Shared) (t : ℕ) (e : ℤ) →
        GoesOn P.functions s t (call.Wait e) (awaits.Ring e) (
        canceled P.functions when may_be_canceled s.control t otherwise
        unblocks t then returns (settled_in s.control.events (number e))
        when nat_lt 0 (settled_in s.control.events (number e)) otherwise
        waits_for (awaits.Ring e)) }
{}

/// This cancels a thread `n`. How the cancellation is done depends on the cancellation state of `n`. When its state is
/// `PTH_CANCEL_DISABLE`, a cancellation request is just made pending. When it is `PTH_CANCEL_ENABLE` and `PTH_CANCEL_DEFERRED`, again the
/// cancellation request is just made pending. But when it is `PTH_CANCEL_ASYNCHRONOUS`, the thread is immediately canceled before
/// pth_cancel(3) returns. `is_asynchronous` is true of enabled states alone. The effect of a thread cancellation is equal to implicitly
/// forcing the thread to call `pth_exit(PTH_CANCELED)` at one of its cancellation points. Here the current thread is refused (EINVAL), as
/// are the main thread and a dead thread (EPERM).
pub fn pth_cancel<P: Program>()
    ensures { (s : State P P.State P.Shared) (t : ℕ) (n : ℤ) →
        Begins P.functions s t (call.Cancel n) (
        refused EINVAL when n is t otherwise
        refused ESRCH when not (is_known s.control n) otherwise
        refused EPERM when n is main || is_dead (thread_of s n).state otherwise
        cancels P.functions (number n) before returns 1
        when is_asynchronous (thread_of s n).cancel otherwise
        control_becomes (sets (number n) (change.Request true)) then returns 1) }
{}

/// This is the cruel way to cancel a thread `n`. When it is already dead and waits to be joined, it just joins it and this way kicks it out
/// of the system. Else it forces the thread to be not joinable and to allow asynchronous cancellation (cancel state 3), and then cancels it
/// via pth_cancel(3). Here the current thread is refused (EINVAL), as is the main thread (EPERM).
pub fn pth_abort<P: Program>()
    ensures { (s : State P P.State P.Shared) (t : ℕ) (n : ℤ) →
        Begins P.functions s t (call.Abort n) (
        refused EINVAL when n is t otherwise
        refused ESRCH when not (is_known s.control n) otherwise
        refused EPERM when n is main otherwise
        control_becomes (removes (number n)) then returns 1
        when is_dead (thread_of s n).state otherwise
        control_becomes (sets (number n) (change.Joinable false)
        and sets (number n) (change.Cancel 3)) then
        cancels P.functions (number n) before returns 1) }
{}

/// This joins the current thread with the thread `n`. It first suspends the current thread until thread `n` has terminated. Then it is
/// awakened, and returns the value of that thread's pth_exit(3) call. A thread can be joined only when it has the attribute
/// `PTH_ATTR_JOINABLE` set to TRUE. A thread can only be joined once, i.e., after the pth_join(3) call it is completely removed from the
/// system. Here 0 stands for any thread that can be joined, and `u` is the thread that is joined.
pub fn pth_join<P: Program>()
    ensures waits { (s : State P P.State P.Shared) (t : ℕ) (n : ℤ) →
        to_join s.control n ≡ None →
        Begins P.functions s t (call.Join n) (
        refused EDEADLK when has_none_to_join s t n otherwise
        refused ESRCH when joins_unknown s n otherwise
        refused EINVAL when joins_detached s n otherwise
        waits_for (death_of n)) }
    ensures joins { (s : State P P.State P.Shared) (t : ℕ) (n : ℤ) (u : ℕ) →
        to_join s.control n ≡ Some u →
        Begins P.functions s t (call.Join n) (
        refused EDEADLK when has_none_to_join s t n otherwise
        refused ESRCH when joins_unknown s n otherwise
        refused EINVAL when joins_detached s n otherwise
        control_becomes (removes u) then answers (Int (entry_of s u).value)) }
    ensures waits_longer { (s : State P P.State P.Shared) (t : ℕ) (n : ℤ) →
        to_join s.control n ≡ None →
        GoesOn P.functions s t (call.Join n) (death_of n) (
        canceled P.functions when may_be_canceled s.control t otherwise
        unblocks t then refused EDEADLK when has_none_to_join s t n otherwise
        unblocks t then refused ESRCH when joins_unknown s n otherwise
        unblocks t then refused EINVAL when joins_detached s n otherwise
        waits_for (death_of n)) }
    ensures joins_later { (s : State P P.State P.Shared) (t : ℕ) (n : ℤ) (u : ℕ) →
        to_join s.control n ≡ Some u →
        GoesOn P.functions s t (call.Join n) (death_of n) (
        canceled P.functions when may_be_canceled s.control t otherwise
        unblocks t then refused EDEADLK when has_none_to_join s t n otherwise
        unblocks t then refused ESRCH when joins_unknown s n otherwise
        unblocks t then refused EINVAL when joins_detached s n otherwise
        control_becomes (removes u) then unblocks t then answers (Int (entry_of s u).value)) }
{}

/// This terminates the current thread. If it has the attribute `PTH_ATTR_JOINABLE` set to FALSE, it is immediately removed from the system
/// and `v` is ignored. Else the thread is inserted into the dead queue and `v` is remembered for a subsequent pth_join(3) call by another
/// thread. In the main thread this waits for all other threads to terminate. Here that wait is no cancellation point.
pub fn pth_exit<P: Program>()
    ensures begins { (s : State P P.State P.Shared) (t : ℕ) (v : ℤ) →
        Begins P.functions s t (call.Exit v) (
        waits_for awaits.Alone when must_wait s.control t otherwise
        ends P.functions v) }
    ensures goes_on { (s : State P P.State P.Shared) (t : ℕ) (v : ℤ) →
        GoesOn P.functions s t (call.Exit v) awaits.Alone (
        waits_for awaits.Alone when must_wait s.control t otherwise
        ends P.functions v) }
{}
