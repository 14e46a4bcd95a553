//! Waiting at a condition: `pth_cond_await`.

ghost use Rattle.std.specs.Prelude.{◌≡◌, ◌<◌, true, false, Some, Ok, IfOk, OnOk, OnErr, [], ◌∷◌, ◌++◌};
ghost use Rattle.pth_base.specs.declared.call.Call.TheVariants.{CondAwait};
ghost use Rattle.pth_base.specs.declared.mark.Mark.TheVariants.{Retakes, Took, Waits as Waited};
ghost use Rattle.pth_cond.specs.Conditions.{seat_entered};
ghost use Rattle.pth_lock.specs.Mutexes.{mutex_release_answer, mutex_released};
ghost use Rattle.pth_lock.specs.Objects.{object_limit, object_named};
ghost use Rattle.pth_model.specs.Calls.{awaits_on, awaits_on_where, blocks, ends_await, retaken_as, retakes};
ghost use Rattle.pth_model.specs.Cancellation.{canceled_value};
ghost use Rattle.pth_model.specs.Changes.{with_conditions};
ghost use Rattle.pth_model.specs.Conditions.{cond_await, is_noticed, leaves_seat, seat_of};
ghost use Rattle.pth_model.specs.RingWaits.{claims};
ghost use Rattle.pth_model.specs.Ending.{ending};
ghost use Rattle.pth_model.specs.Store.{with_mutexes};
ghost use Rattle.pth_model.specs.State.{Control, State};
ghost use Rattle.pth_model.specs.Transition.{changes, nothing, tells, ◌and_then◌, ◌and_next◌};
ghost use Rattle.pth_model.specs.declared.awaits.Awaits.TheVariants.{Notice, Retaking};
ghost use Rattle.pth_model.specs.declared.next.Next.TheVariants.{Ended};
ghost use Rattle.pth_model.specs.declared.next.Next.TheVariants as next;
ghost use Rattle.pth_waits.specs.Verdicts.{Begins};
ghost use Rattle.pth_world.specs.Frame.{Frame, runs_after, yields_after};
ghost use Rattle.pth_world.specs.Leading.{Goes, StandsOnce, StandsWhere};
ghost use Rattle.pth_world.specs.Numbering.{no_numbers};
ghost use Rattle.pth_world.specs.Shows.{Shows, StandsFor};
ghost use Rattle.pth_world.specs.Store.{store_of};
ghost use Rattle.pth_world.specs.WellFormed.{WellFormed};

use crate::cancellation::may_be_canceled;
use crate::ring_waits::{claim_given, has_settled, is_claimed_ring, is_no_ring};
use pth_base::answer::Answer;
use pth_base::call::Call;
use pth_base::errno::Errno;
use pth_base::ids::Tid;
use pth_base::mark::Mark;
use pth_base::marks::Marks;
use pth_base::memory::OutOfMemory;
use pth_base::program::Program;
use pth_cond::seats::Seat;
use pth_end::answering::done;
use pth_end::cancellation::{CANCELED, take_request};
use pth_end::ending::end_thread;
use pth_end::undoing::hand_on_seats;
use pth_lock::objects::place_of;
use pth_model::awaits::{Awaited, Awaits, Retake, extra_ring};
use pth_model::blocked::Blocked;
use pth_model::next::Next;
use pth_model::verdict::Verdict;
use pth_world::world::World;

/// Whether the seat of a thread at a condition was notified.
pub(crate) fn is_noticed<P: Program>(w: &World<P>, t: Tid, c: i64) -> bool
    ensures { (s : State P P.State P.Shared) → StandsFor w.now s → result ≡ is_noticed s t.0 c }
{
    w.conditions().is_marked(c, Seat::Await(t))
}

// ---- a wait begins

// A thread has a seat at a condition, and one level less of its mutex.
fn take_seat<P: Program>(w: &mut World<P>, t: Tid, c: i64, m: i64) -> Result<(), OutOfMemory>
    requires whole { WellFormed w.old }
    requires runs { w.old.scheduler.running ≡ Some t.0 }
    requires has { mutex_release_answer (store_of w.old.store).mutexes t.0 m ≡ Ok tt }
    ensures shows { OnOk result ((k : Control P P.State P.Shared) → Shows w.old k → Shows w.new (with_conditions (seat_entered c (seat_of t.0)) k)) }
    ensures store { OnOk result (store_of w.new.store ≡ with_mutexes (mutex_released t.0 (object_named m)) (store_of w.old.store)) }
    ensures frame { OnOk result (Frame w.old w.new no_numbers w.old.scheduler.running false) }
{
    // The condition is initialised, so only memory may be wanting.
    if w.conditions_mut().enter(c, Seat::Await(t)).is_err() {
        return Err(OutOfMemory);
    }
    match w.release_mutex(t, m) {
        Ok(()) => Ok(()),
        Err(_) => unreachable!(),
    }
}

// Claims the ring that the call was given, if any. It is there and not claimed, so only memory may be wanting.
fn claim_free<P: Program>(w: &mut World<P>, t: Tid, ring: Option<i64>) -> Result<(), OutOfMemory>
    requires { WellFormed w.old }
    ensures shows { OnOk result ((k : Control P P.State P.Shared) → Shows w.old k → Shows w.new (claims t.0 ring k)) }
    ensures store { w.new.store ≡ w.old.store }
    ensures frame { Frame w.old w.new no_numbers w.old.scheduler.running false }
{
    match claim_given(w, t, ring) {
        Ok(()) => Ok(()),
        Err(_) => Err(OutOfMemory),
    }
}

/// `pth_cond_await` of condition `c` with mutex `m`: the thread takes a seat at the condition, gives one level of its mutex back, and
/// waits, beside the ring of event `e` (0 for none). EINVAL if the condition is not initialised, or if there is no such ring or
/// mutex; EDEADLK if nobody has the mutex, and EACCES if another has it; EBUSY if the ring is claimed.
pub(crate) fn await_condition<P: Program>(
    w: &mut World<P>,
    t: Tid,
    c: i64,
    m: i64,
    e: i64,
) -> Result<Verdict, OutOfMemory>
    requires whole { WellFormed w.old }
    requires runs { w.old.scheduler.running ≡ Some t.0 }
    ensures attempts { IfOk result (λ x. Begins w.old w.new t.0 (CondAwait c m e) (λ s. cond_await s t.0 c m e) x) }
    ensures frame { OnOk result (Frame w.old w.new no_numbers w.old.scheduler.running false) }
{
    let ring = extra_ring(e);
    if !w.conditions().is_live(c) || is_no_ring(w, ring) {
        return Ok(Verdict::Says(Answer::Fail(Errno::EINVAL)));
    }
    if let Err(errno) = w.mutex_release_answer(t, m) {
        return Ok(Verdict::Says(Answer::Fail(errno)));
    }
    if is_claimed_ring(w, ring) {
        return Ok(Verdict::Says(Answer::Fail(Errno::EBUSY)));
    }
    take_seat(w, t, c, m)?;
    claim_free(w, t, ring)?;
    Ok(Verdict::Blocks(Awaits::Notice(c)))
}

// ---- it is over

// The seat of a thread at a condition is left.
fn leave_seat<P: Program>(w: &mut World<P>, t: Tid, c: i64)
    ensures shows { (k : Control P P.State P.Shared) → Shows w.old k → Shows w.new (leaves_seat t.0 (Notice c) k) }
    ensures same { w.new ≡ record w.old { conditions = w.new.conditions } }
{
    w.conditions_mut().leave(c, Seat::Await(t));
}

// A thread that was canceled in its wait has its mutex again, which is told, and ends.
fn end_canceled<P: Program>(
    w: &mut World<P>,
    t: Tid,
    m: i64,
    marks: &mut Marks,
) -> Result<Next, OutOfMemory>
    requires whole { WellFormed w.old }
    requires runs { w.old.scheduler.running ≡ Some t.0 }
    requires object { object_named m < object_limit }
    ensures goes { Goes (StandsOnce w.old (Took t (object_named m))) (tells (Took t (object_named m)) and_then ending P.functions t.0 canceled_value and_next Ended canceled_value) w.new marks.old marks.new result }
    ensures frame { IfOk result (λ n. Frame w.old w.new no_numbers (runs_after t.0 n) (yields_after n)) }
{
    let Some(place) = place_of(m) else {
        unreachable!();
    };
    marks.push(Mark::Took {
        tid: t,
        mutex: place as u8,
    })?;
    end_thread(w, t, CANCELED, marks)?;
    Ok(Next::Ended(CANCELED))
}

// A thread has its mutex again after its wait: the call is answered, or the thread ends if it was canceled.
fn answer_await<P: Program>(
    w: &mut World<P>,
    t: Tid,
    c: i64,
    m: i64,
    e: i64,
    outcome: Retake,
    marks: &mut Marks,
) -> Result<Next, OutOfMemory>
    requires whole { WellFormed w.old }
    requires runs { w.old.scheduler.running ≡ Some t.0 }
    requires object { object_named m < object_limit }
    ensures goes { Goes (λ (s : State P P.State P.Shared). StandsOnce w.old (Took t (object_named m)) s × (s.resources.awaits t.0 ≡ true)) (retaken_as P.functions t.0 (CondAwait c m e) m outcome) w.new marks.old marks.new result }
    ensures frame { IfOk result (λ n. Frame w.old w.new no_numbers (runs_after t.0 n) (yields_after n)) }
{
    let call = Call::CondAwait { c, m, e };
    match outcome {
        Retake::Notified => done(t, &call, Answer::Int(1), marks),
        Retake::Interrupted => done(t, &call, Answer::Fail(Errno::EINTR), marks),
        Retake::Canceled => end_canceled(w, t, m, marks),
    }
}

// The call blocks its thread until it can take its mutex back.
fn wait_for_mutex<P: Program>(
    w: &mut World<P>,
    t: Tid,
    c: i64,
    m: i64,
    e: i64,
    outcome: Retake,
    marks: &mut Marks,
) -> Result<Next, OutOfMemory>
    requires whole { WellFormed w.old }
    requires runs { w.old.scheduler.running ≡ Some t.0 }
    ensures goes { Goes (StandsFor w.old) (λ (s : State P P.State P.Shared). (changes (blocks t.0 (CondAwait c m e) (Retaking m outcome)) and_then tells (Retakes t (CondAwait c m e)) and_next next.Blocks) s) w.new marks.old marks.new result }
    ensures frame { IfOk result (λ n. Frame w.old w.new no_numbers (runs_after t.0 n) (yields_after n)) }
{
    w.block(
        t,
        Blocked {
            call: Call::CondAwait { c, m, e },
            awaits: Awaits::Retaking { m, outcome },
        },
    );
    marks.push(Mark::Retakes {
        tid: t,
        call: Call::CondAwait { c, m, e },
    })?;
    Ok(Next::Blocks)
}

// The mutex is taken back if it can be, and else the thread waits for it.
fn take_back<P: Program>(
    w: &mut World<P>,
    t: Tid,
    c: i64,
    m: i64,
    e: i64,
    outcome: Retake,
    marks: &mut Marks,
) -> Result<Next, OutOfMemory>
    requires whole { WellFormed w.old }
    requires runs { w.old.scheduler.running ≡ Some t.0 }
    ensures goes { Goes (StandsWhere w.old t.0 true) (retakes P.functions t.0 (CondAwait c m e) m outcome) w.new marks.old marks.new result }
    ensures frame { IfOk result (λ n. Frame w.old w.new no_numbers (runs_after t.0 n) (yields_after n)) }
{
    match w.take_mutex(t, m) {
        Ok(()) => answer_await(w, t, c, m, e, outcome, marks),
        Err(_) => wait_for_mutex(w, t, c, m, e, outcome, marks),
    }
}

// The wait is over: its claim is given back, and the mutex is taken back.
fn end_await<P: Program>(
    w: &mut World<P>,
    t: Tid,
    c: i64,
    m: i64,
    e: i64,
    outcome: Retake,
    marks: &mut Marks,
) -> Result<Next, OutOfMemory>
    requires whole { WellFormed w.old }
    requires runs { w.old.scheduler.running ≡ Some t.0 }
    ensures goes { Goes (StandsWhere w.old t.0 true) (ends_await P.functions t.0 nothing (CondAwait c m e) m outcome) w.new marks.old marks.new result }
    ensures frame { IfOk result (λ n. Frame w.old w.new no_numbers (runs_after t.0 n) (yields_after n)) }
{
    w.unblock(t);
    take_back(w, t, c, m, e, outcome, marks)
}

// ---- it goes on

// A thread is canceled in its wait: its request is taken up, its seats are handed on, and its mutex is taken back first.
fn cancel_await<P: Program>(
    w: &mut World<P>,
    t: Tid,
    c: i64,
    m: i64,
    e: i64,
    marks: &mut Marks,
) -> Result<Next, OutOfMemory>
    requires whole { WellFormed w.old }
    requires runs { w.old.scheduler.running ≡ Some t.0 }
    ensures goes { Goes (StandsWhere w.old t.0 true) (awaits_on_where P.functions t.0 true false false (CondAwait c m e) c m) w.new marks.old marks.new result }
    ensures frame { IfOk result (λ n. Frame w.old w.new no_numbers (runs_after t.0 n) (yields_after n)) }
{
    take_request(w, t, Call::CondAwait { c, m, e }, marks)?;
    hand_on_seats(
        w,
        t,
        Awaited {
            what: Awaits::Notice(c),
            ring: extra_ring(e),
        },
    );
    end_await(w, t, c, m, e, Retake::Canceled, marks)
}

// The wait is over for this reason: the seat is left.
fn leave_await<P: Program>(
    w: &mut World<P>,
    t: Tid,
    c: i64,
    m: i64,
    e: i64,
    outcome: Retake,
    marks: &mut Marks,
) -> Result<Next, OutOfMemory>
    requires whole { WellFormed w.old }
    requires runs { w.old.scheduler.running ≡ Some t.0 }
    ensures goes { Goes (StandsWhere w.old t.0 true) (ends_await P.functions t.0 (leaves_seat t.0 (Notice c)) (CondAwait c m e) m outcome) w.new marks.old marks.new result }
    ensures frame { IfOk result (λ n. Frame w.old w.new no_numbers (runs_after t.0 n) (yields_after n)) }
{
    leave_seat(w, t, c);
    end_await(w, t, c, m, e, outcome, marks)
}

// A wait that goes on is told.
fn tell_wait(t: Tid, c: i64, m: i64, e: i64, marks: &mut Marks) -> Result<Next, OutOfMemory>
    ensures next { IfOk result (λ n. n ≡ next.Blocks) }
    ensures ok { OnOk result (marks.new ≡ marks.old ++ Waited t (CondAwait c m e) ∷ []) }
    ensures err { OnErr result (marks.new ≡ marks.old) }
{
    marks.push(Mark::Waits {
        tid: t,
        call: Call::CondAwait { c, m, e },
    })?;
    Ok(Next::Blocks)
}

/// Goes on with a wait at a condition, which blocks the thread that runs. It is over if the thread may be canceled, if its seat was
/// notified, or if an event of its ring is not pending. Then the thread takes its mutex back: in the same step if it can, and else its
/// call blocks it until then. After an error the world may only be dropped.
pub(crate) fn resume_await<P: Program>(
    w: &mut World<P>,
    t: Tid,
    c: i64,
    m: i64,
    e: i64,
    awaits: Awaits,
    marks: &mut Marks,
) -> Result<Next, OutOfMemory>
    requires whole { WellFormed w.old }
    requires runs { w.old.scheduler.running ≡ Some t.0 }
    ensures goes { Goes (StandsWhere w.old t.0 true) (awaits_on P.functions t.0 c m e awaits) w.new marks.old marks.new result }
    ensures frame { IfOk result (λ n. Frame w.old w.new no_numbers (runs_after t.0 n) (yields_after n)) }
{
    if let Awaits::Retaking { outcome, .. } = awaits {
        return end_await(w, t, c, m, e, outcome, marks);
    }
    if may_be_canceled(w, t) {
        return cancel_await(w, t, c, m, e, marks);
    }
    if is_noticed(w, t, c) {
        return leave_await(w, t, c, m, e, Retake::Notified, marks);
    }
    if has_settled(w.rings(), extra_ring(e)) {
        return leave_await(w, t, c, m, e, Retake::Interrupted, marks);
    }
    tell_wait(t, c, m, e, marks)
}
