//! Laws of the states of every run of every program.

ghost use Rattle.std.specs.Prelude.{◌≡◌, ℕ, ℤ, None};
ghost use Rattle.pth_base.specs.declared.call.Call.{Call};
ghost use Rattle.pth_base.specs.declared.ids.HandlerId.{HandlerId};
ghost use Rattle.pth_model.specs.Acts.{handled};
ghost use Rattle.pth_model.specs.Calls.{begun, gone_on};
ghost use Rattle.pth_model.specs.Changes.{blocked_of};
ghost use Rattle.pth_model.specs.Ending.{ending};
ghost use Rattle.pth_model.specs.Part.{moves};
ghost use Rattle.pth_model.specs.Pass.{pass};
ghost use Rattle.pth_model.specs.Run.{run};
ghost use Rattle.pth_model.specs.State.{Given, State, Turn, start};
ghost use Rattle.pth_laws.specs.Arrivals.{AllArrivedAtOne, AllHaveArrived, NoneArrivedTwice};
ghost use Rattle.pth_laws.specs.Consistent.{AreWaitsConsistent, IsCaller};
ghost use Rattle.pth_laws.specs.Holders.{AreHoldersApart};
ghost use Rattle.pth_laws.specs.Kept.{IsWaitKept};
ghost use Rattle.pth_laws.specs.Priorities.{HasBasePriorities};
ghost use Rattle.pth_laws.specs.Rings.{AreRingsCircles, AreRingsHeld};
ghost use Rattle.pth_laws.specs.Seats.{AllHaveSeats, NoneSeatedTwice};
ghost use Rattle.pth_laws.specs.Waits.{AllAskNoMore, AllWaitRightly};

use pth_base::program::Program;

/// In each state of a run every base priority is from -N to N, with the N that the run is given: that of each thread in the system, and
/// that of each attribute object, as the first ones are, and as `pth_attr_set`, `pth_attr_init` and `pth_spawn` leave them.
pub fn every_run_keeps_base_priorities<P: Program>()
    ensures { (g : Given P) (i : ℕ) → HasBasePriorities g.top (run P.functions g i).state }
{}

/// Who is blocked by a call that was given an event has the claim on its ring, until the call is answered, takes its mutex back after
/// a wait at a condition, or the thread ends. No ring has two claims, so no two threads wait for one ring. And each event of a ring has
/// the same ring, read from it on.
pub fn every_run_holds_rings<P: Program>()
    ensures held { (g : Given P) (i : ℕ) → AreRingsHeld (run P.functions g i).state }
    ensures circles { (g : Given P) (i : ℕ) → AreRingsCircles (run P.functions g i).state }
{}

/// No thread has two holds of one read-write lock, and if one writes under it, its hold is the only one. Who holds a lock was made, and
/// the count of a lock's readers is how many of the threads that were made read under it.
pub fn every_run_keeps_holders_apart<P: Program>()
    ensures { (g : Given P) (i : ℕ) → AreHoldersApart (run P.functions g i).state }
{}

/// Who is blocked by a `mutex_acquire` or an `rw_acquire` waits for the mutex or the lock that the call named. It is initialised, and
/// the thread holds no lock for which it waits. This is asked too as such a call is tried again, and as a pass looks whether what is
/// awaited has come: so in every run no more is asked of the mutex than that nobody has it, and no more of the lock than that it lets
/// the thread in. Who is blocked by a `cond_await` waits for the notice of the condition that the call named, or for the mutex, which is
/// initialised. It has fewer levels of the mutex than it may have, so it can take the mutex back as soon as no other thread has it.
/// Who is blocked by a `barrier_reach` waits for a round of the barrier that the call named.
pub fn every_run_waits_rightly<P: Program>()
    ensures rightly { (g : Given P) (i : ℕ) → AllWaitRightly (run P.functions g i).state }
    ensures rows { (g : Given P) (i : ℕ) → AllAskNoMore P.functions (run P.functions g i).state }
{}

/// Who is blocked at a barrier has its arrival there, of the round for which it waits; and no thread has two arrivals at a barrier,
/// or arrivals at two (`pth_barrier_reach`). So while a thread waits there it counts in its round, and it counts once.
pub fn every_run_keeps_arrivals<P: Program>()
    ensures kept { (g : Given P) (i : ℕ) → AllHaveArrived (run P.functions g i).state }
    ensures once { (g : Given P) (i : ℕ) → NoneArrivedTwice (run P.functions g i).state }
    ensures one_barrier { (g : Given P) (i : ℕ) → AllArrivedAtOne (run P.functions g i).state }
{}

/// Who is blocked by a call that waits for the notice of a condition has its seat there; and no seat is taken twice at a condition,
/// neither a thread's nor an event's (`pth_cond_await`, `PTH_EVENT_COND`). So while a thread waits there it can be notified, and it
/// counts once.
pub fn every_run_keeps_seats<P: Program>()
    ensures kept { (g : Given P) (i : ℕ) → AllHaveSeats (run P.functions g i).state }
    ensures once { (g : Given P) (i : ℕ) → NoneSeatedTwice (run P.functions g i).state }
{}

/// What a wait has, it has until it is over: who is blocked by a call that was given an event has the claim on its ring, who is blocked
/// at a barrier its arrival there, and who waits for the notice of a condition its seat. And each event of the ring of a thread that
/// waits is pending, also while the thread is suspended: a pass that finds that one is not wakes the thread, and looks at no ring of a
/// suspended one.
pub fn every_wait_is_kept<P: Program>()
    ensures { (g : Given P) (i : ℕ) → IsWaitKept (run P.functions g i).state }
{}

/// What is consistent of waits stays so, whoever makes the calls and in whatever order: from each state that is, with a call that the
/// thread that runs begins, among them `pth_cancel`, `pth_abort` and `pth_cancel_point`, and with the one that blocks it as it goes on;
/// with the end of any thread, and the acts of a handler; and with a pass, and a move of idle time. Every run begins so, and so each of
/// its states is consistent.
pub fn waits_stay_consistent<P: Program>()
    ensures started { (g : Given P) → AreWaitsConsistent (start P.functions g) }
    ensures begun { (t : ℕ) (c : Call) (s : State P P.State P.Shared) → IsCaller s t → blocked_of s.control t ≡ None → AreWaitsConsistent s → AreWaitsConsistent (begun P.functions t c s).told.state }
    ensures gone_on { (t : ℕ) (s : State P P.State P.Shared) → IsCaller s t → AreWaitsConsistent s → AreWaitsConsistent (gone_on P.functions t s).told.state }
    ensures ended { (t : ℕ) (v : ℤ) (s : State P P.State P.Shared) → AreWaitsConsistent s → AreWaitsConsistent (ending P.functions t v s).state }
    ensures handled { (t : ℕ) (h : HandlerId) (v : ℤ) (s : State P P.State P.Shared) → AreWaitsConsistent s → AreWaitsConsistent (handled P.functions t h v s).state }
    ensures passed { (s : State P P.State P.Shared) → AreWaitsConsistent s → AreWaitsConsistent (pass P.functions s).state }
    ensures moved { (x : Turn) (s : State P P.State P.Shared) → AreWaitsConsistent s → AreWaitsConsistent (moves P.functions x s).state }
    ensures runs { (g : Given P) (i : ℕ) → AreWaitsConsistent (run P.functions g i).state }
{}

/// A call that is tried again asks no more than that a mutex is free, that a lock lets its thread in, or that no other thread has the
/// mutex that is to be taken back: in every state whose waits are consistent, and not only in those of runs.
pub fn consistent_waits_ask_no_more<P: Program>()
    ensures { (s : State P P.State P.Shared) → AreWaitsConsistent s → AllAskNoMore P.functions s }
{}
