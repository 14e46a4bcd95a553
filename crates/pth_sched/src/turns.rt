//! What the parts of a turn do to the world.

ghost use Rattle.std.specs.Prelude.{◌≡◌, ◌≢◌, false, ◌≤◌, ◌+◌, ◌^◌, ◌<◌, ◌&&◌, if◌then◌else◌, ℕ, pos, neg_ℤ, ◌≤ℤ◌, [], Some, None, IfSome, IsSome, IfOk, OnOk, OnErr, length, reverse};
ghost use Rattle.pth_queue.specs.Queues.{CanRise};
ghost use Rattle.pth_queue.specs.declared.queue.Queue.TheVariants as queue;
ghost use Rattle.pth_base.specs.Limits.{last_moment};
ghost use Rattle.pth_kernel.specs.Kernel.{kernel_of};
ghost use Rattle.pth_model.specs.Calls.{begun, gone_on};
ghost use Rattle.pth_model.specs.Changes.{blocked_of, raises_ready};
ghost use Rattle.pth_model.specs.declared.progress.Progress.{Progress};
ghost use Rattle.pth_model.specs.Part.{chosen, is_placed, new_rank, readies_new, steps_from, steps_on, time_passes, turn_ends};
ghost use Rattle.pth_model.specs.State.{Control, State, queue as rows};
ghost use Rattle.pth_world.specs.Frame.{Frame, runs_after, yields_after};
ghost use Rattle.pth_world.specs.Leading.{Goes, StandsRightly, StandsWhere};
ghost use Rattle.pth_world.specs.Numbering.{HasNumbers, GivesNone, no_numbers, one_of_each};
ghost use Rattle.pth_world.specs.Ranks.{IsUnder, KeepsRanks, greatest_return};
ghost use Rattle.pth_world.specs.Shows.{Shows, StandsFor};
ghost use Rattle.pth_world.specs.Sound.{IsSound, IsKnown};
ghost use Rattle.pth_world.specs.Touches.{KeepsRest};
ghost use Rattle.pth_world.specs.WellFormed.{WellFormed, IsIn, WaitsToRun};
ghost use Rattle.pth_sched.specs.Quiescence.{IsKnownQuiescent};
ghost use Rattle.pth_sched.specs.NonWaking.{waits_on_without_waking as waits_on_without_waking_in, is_waiting as waits_on, waits_without_waking as waits_without_waking_in};
ghost use Rattle.pth_sched.specs.Passing.{HasRoom, IsReady};

use crate::begin::{begin, begin_at_once};
use crate::non_waking::{is_non_waking, quiescence_after, waits_without_waking};
use crate::quiescence::Quiescence;
use pth_base::call::Call;
use pth_base::ids::Tid;
use pth_base::limits::LAST_MOMENT;
use pth_base::marks::Marks;
use pth_base::memory::OutOfMemory;
use pth_base::program::Program;
use pth_model::next::Next;
use pth_queue::queue::Queue;
use pth_waits::resume::resume;
use pth_world::world::World;

// The rank at which a new thread becomes ready: in front of all others where new threads are favoured
// (`PTH_CTRL_FAVOURNEW`), and else 0.
fn new_rank<P: Program>(w: &World<P>) -> i64
    requires { IsSound w.now.threads }
    ensures rank { (k : Control P P.State P.Shared) → Shows w.now k → result ≡ new_rank k }
    ensures under { (bound : ℕ) → greatest_return ≤ bound → IsUnder bound w.now.threads.queues.ready → result ≤ℤ pos (bound + 1) }
    ensures low { neg_ℤ (pos 20) ≤ℤ result }
{
    if w.favour() { w.top() } else { 0 }
}

/// The new threads become ready, the last of them first.
pub fn ready_new<P: Program>(w: &mut World<P>)
    requires whole { WellFormed w.old }
    requires room { HasRoom w.old.threads.queues }
    ensures shows { (k : Control P P.State P.Shared) → Shows w.old k → Shows w.new (readies_new k) }
    ensures whole { WellFormed w.new }
    ensures scheduler { KeepsRest w.old w.new }
    ensures made { w.new.threads.records.made ≡ w.old.threads.records.made }
    ensures none { w.new.threads.queues.new ≡ [] }
    ensures ranks { (bound : ℕ) → greatest_return ≤ bound → IsUnder bound w.old.threads.queues.ready → IsUnder (bound + length w.old.threads.queues.new) w.new.threads.queues.ready }
    ensures some { 0 < length w.old.threads.queues.ready + length w.old.threads.queues.new → 0 < length w.new.threads.queues.ready }
    ensures stays { (u : ℕ) → WaitsToRun w.old.threads u → WaitsToRun w.new.threads u }
{
    while let Some(t) = w.last(Queue::New) {
        let rank = new_rank(w);
        w.make_ready(t, rank, w.favour());
    }
}

/// The thread that the last yield named, else the head of the ready queue.
pub fn next<P: Program>(w: &World<P>) -> Tid
    requires whole { WellFormed w.now }
    requires named { IfSome w.now.scheduler.preferred (λ u. IsReady w.now u) }
    requires some { 0 < length w.now.threads.queues.ready }
    ensures next { (k : Control P P.State P.Shared) → Shows w.now k → Some result.0 ≡ chosen k.scheduler.preferred (rows k queue.Ready) }
    ensures known { IsKnown w.now.threads result.0 }
    ensures ready { IsIn queue.Ready w.now.threads result.0 }
{
    match w.named().or(w.first(Queue::Ready)) {
        Some(t) => t,
        None => unreachable!(),
    }
}

// Begins a call that may wake another thread, or is non-waking only if it waits. After an error the world may only be dropped.
fn begin_waking<P: Program>(
    w: &mut World<P>,
    quiescence: &mut Quiescence,
    t: Tid,
    call: Call,
    marks: &mut Marks,
) -> Result<Next, OutOfMemory>
    requires whole { WellFormed w.old }
    requires runs { w.old.scheduler.running ≡ Some t.0 }
    requires few { HasNumbers w.old }
    ensures goes { Goes (StandsWhere w.old t.0 false) (begun P.functions t.0 call) w.new marks.old marks.new result }
    ensures frame { IfOk result (λ n. Frame w.old w.new one_of_each (runs_after t.0 n) (yields_after n)) }
    ensures kept { IfOk result (λ n. quiescence.new.until ≡ (if waits_without_waking_in (kernel_of w.old.kernel) call && waits_on n then quiescence.old.until else 0)) }
{
    let non_waking = waits_without_waking(w.kernel(), &call);
    let next = begin(w, t, call, marks)?;
    *quiescence = quiescence_after(*quiescence, non_waking, &next);
    Ok(next)
}

// The thread that runs begins the program's next call. After an error the world may only be dropped.
fn begin_next<P: Program>(
    w: &mut World<P>,
    quiescence: &mut Quiescence,
    t: Tid,
    marks: &mut Marks,
) -> Result<Next, OutOfMemory>
    requires whole { WellFormed w.old }
    requires runs { w.old.scheduler.running ≡ Some t.0 }
    requires few { HasNumbers w.old }
    requires free { (k : Control P P.State P.Shared) → Shows w.old k → blocked_of k t.0 ≡ None }
    ensures goes { (p : Progress P.State) → Goes (λ (s : State P P.State P.Shared). StandsWhere w.old t.0 false s × (s.control.threads.progress t.0 ≡ Some p)) (steps_from P.functions t.0 p) w.new marks.old marks.new result }
    ensures some { (s : State P P.State P.Shared) → StandsFor w.old s → IsSome (s.control.threads.progress t.0) }
    ensures frame { IfOk result (λ n. Frame w.old w.new one_of_each (runs_after t.0 n) (yields_after n)) }
    ensures quiescence { OnOk result (IsKnownQuiescent w.old quiescence.old.until → IsKnownQuiescent w.new quiescence.new.until) }
{
    let call = w.next_call(t)?;
    if is_non_waking(&call) {
        return begin_at_once(w, t, &call, marks);
    }
    begin_waking(w, quiescence, t, call, marks)
}

// The thread that runs tries the call that blocks it again. After an error the world may only be dropped.
fn resume_blocked<P: Program>(
    w: &mut World<P>,
    quiescence: &mut Quiescence,
    t: Tid,
    marks: &mut Marks,
) -> Result<Next, OutOfMemory>
    requires whole { WellFormed w.old }
    requires runs { w.old.scheduler.running ≡ Some t.0 }
    ensures goes { Goes (StandsRightly w.old t.0) (gone_on P.functions t.0) w.new marks.old marks.new result }
    ensures frame { IfOk result (λ n. Frame w.old w.new no_numbers (runs_after t.0 n) (yields_after n)) }
    ensures quiescence { OnOk result (IsKnownQuiescent w.old quiescence.old.until → IsKnownQuiescent w.new quiescence.new.until) }
{
    let non_waking = waits_on_without_waking(w, t);
    let next = resume(w, t, marks)?;
    *quiescence = quiescence_after(*quiescence, non_waking, &next);
    Ok(next)
}

// Whether the call that blocks a thread is non-waking if it waits on.
fn waits_on_without_waking<P: Program>(w: &World<P>, t: Tid) -> bool
    requires { WellFormed w.now }
    ensures { (k : Control P P.State P.Shared) → Shows w.now k → result ≡ waits_on_without_waking_in (kernel_of w.now.kernel) (blocked_of k t.0) }
{
    match w.blocked(t) {
        Some(blocked) => waits_without_waking(w.kernel(), &blocked.call),
        None => false,
    }
}

/// The thread that runs tries the call that blocks it again, or begins the program's next call. After an error the world may
/// only be dropped.
pub fn go_on<P: Program>(
    w: &mut World<P>,
    quiescence: &mut Quiescence,
    t: Tid,
    marks: &mut Marks,
) -> Result<Next, OutOfMemory>
    requires whole { WellFormed w.old }
    requires runs { w.old.scheduler.running ≡ Some t.0 }
    requires few { HasNumbers w.old }
    ensures goes { Goes (StandsRightly w.old t.0) (steps_on P.functions t.0) w.new marks.old marks.new result }
    ensures frame { IfOk result (λ n. Frame w.old w.new one_of_each (runs_after t.0 n) (yields_after n)) }
    ensures quiescence { OnOk result (IsKnownQuiescent w.old quiescence.old.until → IsKnownQuiescent w.new quiescence.new.until) }
{
    if w.blocked(t).is_some() {
        return resume_blocked(w, quiescence, t, marks);
    }
    begin_next(w, quiescence, t, marks)
}

// The thread that gave up control is put back, unless it has ended.
fn place<P: Program>(w: &mut World<P>, t: Tid)
    requires whole { WellFormed w.old }
    requires own { IfSome w.old.scheduler.running (λ r. r ≡ t.0) }
    ensures shows { (k : Control P P.State P.Shared) → Shows w.old k → Shows w.new (is_placed t.0 k) }
    ensures whole { WellFormed w.new }
    ensures running { w.new.scheduler.running ≡ None }
    ensures preferred { w.new.scheduler.preferred ≡ w.old.scheduler.preferred }
    ensures gives { GivesNone w.old w.new }
    ensures store { w.new.store ≡ w.old.store }
    ensures ranks { KeepsRanks 0 w.old.threads w.new.threads }
    ensures stays { (u : ℕ) → WaitsToRun w.old.threads u → WaitsToRun w.new.threads u }
{
    if w.running().is_none() {
        return;
    }
    if w.blocked(t).is_some() {
        w.make_waiting(t);
    } else {
        w.put_back(t);
    }
}

// Time goes on by what a turn takes.
fn tick<P: Program>(w: &mut World<P>)
    ensures shows { (k : Control P P.State P.Shared) → Shows w.old k → Shows w.new (time_passes k) }
    ensures whole { WellFormed w.old → WellFormed w.new }
    ensures stays { (u : ℕ) → WaitsToRun w.old.threads u → WaitsToRun w.new.threads u }
    ensures same { w.new ≡ record w.old { kernel = record w.old.kernel { now = w.new.kernel.now } } }
{
    let time = w.time().saturating_add(w.clock());
    w.set_time(time.min(LAST_MOMENT));
}

/// The turn of thread t is over: the ready threads rise, t is put back unless it has ended, and time goes on.
pub fn end_turn<P: Program>(w: &mut World<P>, t: Tid)
    requires whole { WellFormed w.old }
    requires own { IfSome w.old.scheduler.running (λ r. r ≡ t.0) }
    requires rise { CanRise w.old.threads.queues.ready }
    ensures shows { (k : Control P P.State P.Shared) → Shows w.old k → Shows w.new (turn_ends t.0 k) }
    ensures whole { WellFormed w.new }
    ensures running { w.new.scheduler.running ≡ None }
    ensures preferred { w.new.scheduler.preferred ≡ w.old.scheduler.preferred }
    ensures gives { GivesNone w.old w.new }
    ensures store { w.new.store ≡ w.old.store }
    ensures ranks { (bound : ℕ) → greatest_return ≤ bound → IsUnder bound w.old.threads.queues.ready → IsUnder (bound + 1) w.new.threads.queues.ready }
    ensures fresh { length w.new.threads.queues.new ≤ length w.old.threads.queues.new }
    ensures stays { (u : ℕ) → WaitsToRun w.old.threads u → WaitsToRun w.new.threads u }
    ensures within { w.old.kernel.now ≤ last_moment }
{
    let _ = w.time();
    w.raise_ready();
    place(w, t);
    tick(w);
}
