//! How a call begins.

ghost use Rattle.std.specs.Prelude.{◌≡◌, ◌≢◌, ℤ, false, Some, IfOk, OnOk};
ghost use Rattle.pth_base.specs.declared.call.Call.TheVariants.{Plain, Yield};
ghost use Rattle.pth_model.specs.Calls.{begun};
ghost use Rattle.pth_end.specs.Whole.{Whole, IsUnblocked};
ghost use Rattle.pth_waits.specs.Verdicts.{NeverBlocks};
ghost use Rattle.pth_world.specs.Frame.{Frame, runs_after, yields_after};
ghost use Rattle.pth_world.specs.Leading.{Goes, StandsWhere};
ghost use Rattle.pth_world.specs.Numbering.{HasNumbers, one_of_each};
ghost use Rattle.pth_world.specs.Shows.{StandsFor};
ghost use Rattle.pth_world.specs.WellFormed.{WellFormed};

use pth_base::answer::Answer;
use pth_base::call::Call;
use pth_base::ids::Tid;
use pth_base::marks::Marks;
use pth_base::memory::OutOfMemory;
use pth_base::program::Program;
use pth_calls::cancellation::{abort, cancel};
use pth_calls::cleanups::pop_cleanup;
use pth_calls::once::once;
use pth_calls::plain::begin_plain;
use pth_calls::script_lines::note;
use pth_calls::thread_control::yield_to;
use pth_model::next::Next;
use pth_waits::attempts::attempt;
use pth_waits::cancellation::cancel_point;
use pth_waits::library_ends::kill;
use pth_waits::verdicts::carry_out;
use pth_world::world::World;

// Begins a call that never blocks its thread, and is none of a line's own and no yield. After an error the world may only be
// dropped.
#[inline(always)]
fn begin_told<P: Program>(
    w: &mut World<P>,
    t: Tid,
    call: &Call,
    marks: &mut Marks,
) -> Result<Next, OutOfMemory>
    requires whole { WellFormed w.old }
    requires runs { w.old.scheduler.running ≡ Some t.0 }
    requires few { HasNumbers w.old }
    requires never { NeverBlocks P P.State P.Shared call.now }
    requires not_plain { call.now ≢ Plain }
    requires no_yield { (n : ℤ) → call.now ≢ Yield n }
    ensures goes { Goes (StandsFor w.old) (begun P.functions t.0 call.now) w.new marks.old marks.new result }
    ensures frame { IfOk result (λ n. Frame w.old w.new one_of_each (runs_after t.0 n) (yields_after n)) }
{
    match call {
        Call::Kill => kill(w, t, call, marks),
        Call::Cancel(n) => cancel(w, t, call, *n, marks),
        Call::Abort(n) => abort(w, t, call, *n, marks),
        Call::CancelPoint => cancel_point(w, t, call, marks),
        Call::CleanupPop(v) => pop_cleanup(w, t, call, *v, marks),
        Call::Once { o, h, v } => once(w, t, call, *o, *h, *v, marks),
        Call::Note(value) => {
            note(t, *value, marks)?;
            Ok(Next::Done(Answer::Int(0)))
        }
        _ => {
            let answer = begin_plain(w, t, call, marks)?;
            Ok(Next::Done(answer))
        }
    }
}

/// Begins a call that never blocks its thread, and tells of it. After an error the world may only be dropped.
#[inline(always)]
pub(crate) fn begin_at_once<P: Program>(
    w: &mut World<P>,
    t: Tid,
    call: &Call,
    marks: &mut Marks,
) -> Result<Next, OutOfMemory>
    requires whole { WellFormed w.old }
    requires runs { w.old.scheduler.running ≡ Some t.0 }
    requires few { HasNumbers w.old }
    requires never { NeverBlocks P P.State P.Shared call.now }
    ensures goes { Goes (StandsFor w.old) (begun P.functions t.0 call.now) w.new marks.old marks.new result }
    ensures frame { IfOk result (λ n. Frame w.old w.new one_of_each (runs_after t.0 n) (yields_after n)) }
{
    match call {
        Call::Plain => Ok(Next::Done(Answer::None)),
        Call::Yield(to) => yield_to(w, t, call, *to, marks),
        _ => begin_told(w, t, call, marks),
    }
}

/// Begins a call of the thread that runs, and tells of it: one that may block the thread comes to a verdict, which is carried out.
/// After an error the world may only be dropped.
#[inline(always)]
pub fn begin<P: Program>(
    w: &mut World<P>,
    t: Tid,
    call: Call,
    marks: &mut Marks,
) -> Result<Next, OutOfMemory>
    requires whole { WellFormed w.old }
    requires runs { w.old.scheduler.running ≡ Some t.0 }
    requires few { HasNumbers w.old }
    ensures goes { Goes (StandsWhere w.old t.0 false) (begun P.functions t.0 call) w.new marks.old marks.new result }
    ensures frame { IfOk result (λ n. Frame w.old w.new one_of_each (runs_after t.0 n) (yields_after n)) }
    ensures keeps { OnOk result (IsUnblocked w.old t.0 → Whole w.old → Whole w.new) }
{
    match attempt(w, t, &call)? {
        Some(verdict) => carry_out(w, t, call, verdict, marks),
        None => begin_at_once(w, t, &call, marks),
    }
}
