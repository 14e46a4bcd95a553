//! Cancellation: `pth_cancel_state`, `pth_cancel_point`, `pth_cancel`, `pth_abort`.

ghost use Rattle.std.specs.Prelude.{◌≡◌, ◌≢◌, true, false, pos, Some, None, IfOk, IfErr, OnOk, if◌then◌else◌};
ghost use Rattle.pth_base.specs.Facilities.{facility_of};
ghost use Rattle.pth_base.specs.declared.call.Call.TheVariants.{Abort, Cancel};
ghost use Rattle.pth_base.specs.declared.facility.Facility.TheVariants as facility;
ghost use Rattle.pth_base.specs.declared.mark.Mark.TheVariants.{Answered};
ghost use Rattle.pth_calls.specs.Plain.{is_plain};
ghost use Rattle.pth_end.specs.Whole.{Whole, IsUnblocked};
ghost use Rattle.pth_model.specs.Calls.{begun};
ghost use Rattle.pth_model.specs.Cancellation.{abort as abort_row, aborts, cancel as cancel_row, cancel_state as cancel_state_row, ends_or_asks, is_asynchronous as is_asynchronous_state};
ghost use Rattle.pth_model.specs.Ending.{other_than};
ghost use Rattle.pth_model.specs.Row.{◌trying◌};
ghost use Rattle.pth_model.specs.Rows.{row_of};
ghost use Rattle.pth_model.specs.State.{State};
ghost use Rattle.pth_model.specs.Verdict.{refused, says};
ghost use Rattle.pth_numbered.specs.Operands.{number as operand, ◌is_from◌to◌};
ghost use Rattle.pth_queue.specs.declared.queue.Queue.TheVariants as queue;
ghost use Rattle.pth_world.specs.Frame.{Frame, runs_after, yields_after};
ghost use Rattle.pth_world.specs.Leading.{Goes, LedTo, IsAnswered, IsQuiet};
ghost use Rattle.pth_world.specs.Numbering.{no_numbers};
ghost use Rattle.pth_world.specs.Shows.{StandsFor};
ghost use Rattle.pth_world.specs.Sound.{IsAlive, IsKnown};
ghost use Rattle.pth_world.specs.WellFormed.{WellFormed, IsIn};

use pth_base::answer::Answer;
use pth_base::call::Call;
use pth_base::errno::Errno;
use pth_base::ids::{MAIN, Tid};
use pth_base::marks::Marks;
use pth_base::memory::OutOfMemory;
use pth_base::program::Program;
use pth_end::answering::done;
use pth_end::cancellation::{abort_thread, cancel_from_outside};
use pth_model::cancel_states::is_asynchronous;
use pth_model::living::is_dead;
use pth_model::next::Next;
use pth_threads::entry::Change;
use pth_world::world::World;

// The cancel state that a number names, or 0.
fn cancel_state_of(n: i64) -> Option<u8>
    ensures { result ≡ (if n is_from pos 0 to pos 4 then Some (operand n) else None) }
{
    if n < 0 || n > 4 {
        return None;
    }
    Some(n as u8)
}

// pth_cancel_state: the state until now. Another one is set, but for 0.
fn set_cancel_state<P: Program>(w: &mut World<P>, t: Tid, n: i64) -> Answer
    requires whole { WellFormed w.old }
    requires runs { w.old.scheduler.running ≡ Some t.0 }
    ensures answered { IsAnswered w.old w.new result (λ (s : State P P.State P.Shared). (cancel_state_row s t.0 n).begin) }
    ensures frame { Frame w.old w.new no_numbers (Some t.0) false }
{
    let Some(state) = cancel_state_of(n) else {
        return Answer::Fail(Errno::EINVAL);
    };
    let Some(it) = w.entry(t) else { unreachable!() };
    let before = i64::from(it.cancel);
    if state != 0 {
        w.set_field(t, Change::Cancel(state));
        return Answer::Int(before);
    }
    Answer::Int(before)
}

/// The answer of a call of cancellation that neither blocks its thread nor gives up control, and that ends nothing.
pub(crate) fn answer_cancellation<P: Program>(w: &mut World<P>, t: Tid, call: &Call) -> Answer
    requires whole { WellFormed w.old }
    requires runs { w.old.scheduler.running ≡ Some t.0 }
    requires plain { is_plain call.now ≡ true }
    requires cancellation { facility_of call.now ≡ Some facility.Cancellation }
    ensures answered { IsAnswered w.old w.new result (λ (s : State P P.State P.Shared). (row_of P.functions s t.0 call.now).begin) }
    ensures quiet { IsQuiet (Answered t call.now result) }
    ensures frame { Frame w.old w.new no_numbers (Some t.0) false }
{
    match call {
        Call::CancelState(n) => set_cancel_state(w, t, *n),
        _ => unreachable!(),
    }
}

// What becomes of a thread that another one cancels: where it lets itself be canceled at any moment it ends now, and else it is
// asked to end.
fn end_or_ask<P: Program>(
    w: &mut World<P>,
    t: Tid,
    cancel: u8,
    marks: &mut Marks,
) -> Result<(), OutOfMemory>
    requires whole { WellFormed w.old }
    requires alive { IsAlive w.old.threads t.0 }
    ensures goes { LedTo (StandsFor w.old) (ends_or_asks P.functions t.0 cancel) w.new marks.old marks.new result }
    ensures frame { OnOk result (Frame w.old w.new no_numbers (if is_asynchronous_state cancel then other_than t.0 w.old.scheduler.running else w.old.scheduler.running) false) }
{
    if is_asynchronous(cancel) {
        return cancel_from_outside(w, t, marks);
    }
    w.set_field(t, Change::Request(true));
    Ok(())
}

// Whom pth_cancel names, with its cancel state; or why it is refused: the caller itself, nobody, main, or a dead thread.
fn to_cancel<P: Program>(w: &World<P>, t: Tid, n: i64) -> Result<(Tid, u8), Errno>
    requires whole { WellFormed w.now }
    requires runs { w.now.scheduler.running ≡ Some t.0 }
    ensures refused { IfErr result (λ e. (s : State P P.State P.Shared) → StandsFor w.now s → (cancel_row P.functions s t.0 n).begin.verdict ≡ refused e) }
    ensures names { IfOk result (λ it. (s : State P P.State P.Shared) → StandsFor w.now s → (cancel_row P.functions s t.0 n).begin ≡ (says 1 trying ends_or_asks P.functions it.0.0 it.1)) }
    ensures alive { IfOk result (λ it. IsAlive w.now.threads it.0.0) }
    ensures other { IfOk result (λ it. it.0.0 ≢ t.0) }
{
    if n == i64::from(t.0) {
        return Err(Errno::EINVAL);
    }
    let Some(it) = w.known(n) else {
        return Err(Errno::ESRCH);
    };
    if it.tid == Tid(MAIN) || is_dead(it.state) {
        return Err(Errno::EPERM);
    }
    Ok((it.tid, it.cancel))
}

// Whom pth_abort names, and whether that thread is dead; or why it is refused: the caller itself, nobody, or main.
fn to_abort<P: Program>(w: &World<P>, t: Tid, n: i64) -> Result<(Tid, bool), Errno>
    requires whole { WellFormed w.now }
    requires runs { w.now.scheduler.running ≡ Some t.0 }
    ensures refused { IfErr result (λ e. (s : State P P.State P.Shared) → StandsFor w.now s → (abort_row P.functions s t.0 n).begin.verdict ≡ refused e) }
    ensures names { IfOk result (λ it. (s : State P P.State P.Shared) → StandsFor w.now s → (abort_row P.functions s t.0 n).begin ≡ (says 1 trying aborts P.functions it.0.0 it.1)) }
    ensures alive { IfOk result (λ it. it.1 ≡ false → IsAlive w.now.threads it.0.0) }
    ensures dead { IfOk result (λ it. it.1 ≡ true → IsIn queue.Dead w.now.threads it.0.0) }
    ensures known { IfOk result (λ it. IsKnown w.now.threads it.0.0) }
    ensures other { IfOk result (λ it. it.0.0 ≢ t.0) }
{
    if n == i64::from(t.0) {
        return Err(Errno::EINVAL);
    }
    let Some(it) = w.known(n) else {
        return Err(Errno::ESRCH);
    };
    if it.tid == Tid(MAIN) {
        return Err(Errno::EPERM);
    }
    Ok((it.tid, is_dead(it.state)))
}

// What becomes of a thread that another one aborts: a dead one is in the system no longer, and another ends now.
fn drop_or_abort<P: Program>(
    w: &mut World<P>,
    t: Tid,
    dead: bool,
    marks: &mut Marks,
) -> Result<(), OutOfMemory>
    requires whole { WellFormed w.old }
    requires known { IsKnown w.old.threads t.0 }
    requires alive { dead ≡ false → IsAlive w.old.threads t.0 }
    requires dead { dead ≡ true → IsIn queue.Dead w.old.threads t.0 }
    ensures goes { LedTo (StandsFor w.old) (aborts P.functions t.0 dead) w.new marks.old marks.new result }
    ensures frame { OnOk result (Frame w.old w.new no_numbers (if dead then w.old.scheduler.running else other_than t.0 w.old.scheduler.running) false) }
{
    if dead {
        w.remove(t);
        return Ok(());
    }
    abort_thread(w, t, marks)
}

/// `pth_cancel`: a thread that lets itself be canceled at any moment ends now, and another is asked to end. EINVAL where the caller
/// names itself, ESRCH where it names no thread, EPERM for main and for a dead thread. After an error the world may only be dropped.
pub fn cancel<P: Program>(
    w: &mut World<P>,
    t: Tid,
    call: &Call,
    n: i64,
    marks: &mut Marks,
) -> Result<Next, OutOfMemory>
    requires whole { WellFormed w.old }
    requires runs { w.old.scheduler.running ≡ Some t.0 }
    requires call { call.now ≡ Cancel n }
    ensures goes { Goes (StandsFor w.old) (begun P.functions t.0 call.now) w.new marks.old marks.new result }
    ensures frame { IfOk result (λ n. Frame w.old w.new no_numbers (runs_after t.0 n) (yields_after n)) }
    ensures keeps { OnOk result (IsUnblocked w.old t.0 → Whole w.old → Whole w.new) }
{
    let (other, state) = match to_cancel(w, t, n) {
        Ok(it) => it,
        Err(e) => {
            return done(t, call, Answer::Fail(e), marks);
        }
    };
    end_or_ask(w, other, state, marks)?;
    done(t, call, Answer::Int(1), marks)
}

/// `pth_abort`: a dead thread is in the system no longer, and another ends now, whatever its cancel state is, and is gone. EINVAL
/// where the caller names itself, ESRCH where it names no thread, EPERM for main. After an error the world may only be dropped.
pub fn abort<P: Program>(
    w: &mut World<P>,
    t: Tid,
    call: &Call,
    n: i64,
    marks: &mut Marks,
) -> Result<Next, OutOfMemory>
    requires whole { WellFormed w.old }
    requires runs { w.old.scheduler.running ≡ Some t.0 }
    requires call { call.now ≡ Abort n }
    ensures goes { Goes (StandsFor w.old) (begun P.functions t.0 call.now) w.new marks.old marks.new result }
    ensures frame { IfOk result (λ n. Frame w.old w.new no_numbers (runs_after t.0 n) (yields_after n)) }
    ensures keeps { OnOk result (IsUnblocked w.old t.0 → Whole w.old → Whole w.new) }
{
    let (other, dead) = match to_abort(w, t, n) {
        Ok(it) => it,
        Err(e) => {
            return done(t, call, Answer::Fail(e), marks);
        }
    };
    drop_or_abort(w, other, dead, marks)?;
    done(t, call, Answer::Int(1), marks)
}
