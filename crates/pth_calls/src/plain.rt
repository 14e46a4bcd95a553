//! The calls that neither block their thread nor give up control, and that end nothing.

ghost use Rattle.std.specs.Prelude.{◌≡◌, true, false, Some, IfOk, OnOk};
ghost use Rattle.pth_base.specs.declared.mark.Mark.TheVariants.{Answered};
ghost use Rattle.pth_calls.specs.Plain.{is_plain};
ghost use Rattle.pth_end.specs.Whole.{Whole, IsUnblocked};
ghost use Rattle.pth_model.specs.Calls.{begun};
ghost use Rattle.pth_model.specs.Rows.{row_of};
ghost use Rattle.pth_model.specs.State.{State};
ghost use Rattle.pth_model.specs.declared.next.Next.TheVariants as next;
ghost use Rattle.pth_world.specs.Frame.{Frame};
ghost use Rattle.pth_world.specs.Leading.{LedTo, IsTold};
ghost use Rattle.pth_world.specs.Numbering.{HasNumbers, one_of_each};
ghost use Rattle.pth_world.specs.Shows.{StandsFor};
ghost use Rattle.pth_world.specs.WellFormed.{WellFormed};

use crate::attribute_handling::answer_attributes;
use crate::barriers::answer_barriers;
use crate::cancellation::answer_cancellation;
use crate::cleanups::answer_cleanups;
use crate::conditions::answer_conditions;
use crate::descriptors::answer_descriptors;
use crate::event_handling::answer_events;
use crate::key_storage::answer_keys;
use crate::library_control::answer_library;
use crate::mutexes::answer_mutexes;
use crate::ports::answer_ports;
use crate::rwlocks::answer_rwlocks;
use crate::thread_control::answer_threads;
use crate::utilities::answer_utilities;
use pth_base::answer::Answer;
use pth_base::call::Call;
use pth_base::facility::Facility;
use pth_base::ids::Tid;
use pth_base::marks::Marks;
use pth_base::memory::OutOfMemory;
use pth_base::program::Program;
use pth_end::answering::answer_call;
use pth_world::world::World;

// The answer of a call, which does what its row says.
fn answer<P: Program>(w: &mut World<P>, t: Tid, call: &Call) -> Result<Answer, OutOfMemory>
    requires whole { WellFormed w.old }
    requires runs { w.old.scheduler.running ≡ Some t.0 }
    requires few { HasNumbers w.old }
    requires plain { is_plain call.now ≡ true }
    ensures told { IfOk result (λ a. IsTold w.old w.new (Answered t call.now a) a (λ (s : State P P.State P.Shared). (row_of P.functions s t.0 call.now).begin)) }
    ensures frame { OnOk result (Frame w.old w.new one_of_each (Some t.0) false) }
{
    let Some(facility) = call.facility() else {
        unreachable!()
    };
    match facility {
        Facility::Library => Ok(answer_library(w, t, call)),
        Facility::Attributes => answer_attributes(w, t, call),
        Facility::Threads => answer_threads(w, t, call),
        Facility::Cancellation => Ok(answer_cancellation(w, t, call)),
        Facility::Utilities => Ok(answer_utilities(w, call)),
        Facility::Events => answer_events(w, t, call),
        Facility::Keys => answer_keys(w, t, call),
        Facility::Cleanups => answer_cleanups(w, t, call),
        Facility::Mutexes => Ok(answer_mutexes(w, t, call)),
        Facility::Rwlocks => Ok(answer_rwlocks(w, t, call)),
        Facility::Conditions => Ok(answer_conditions(w, t, call)),
        Facility::Barriers => answer_barriers(w, t, call),
        Facility::Io => Ok(answer_descriptors(w, call)),
        Facility::Ports => answer_ports(w, t, call),
    }
}

/// Begins a call of the thread that runs, and tells of it: one that neither blocks the thread nor gives up control, and that
/// ends nothing. After an error the world may only be dropped.
pub fn begin_plain<P: Program>(
    w: &mut World<P>,
    t: Tid,
    call: &Call,
    marks: &mut Marks,
) -> Result<Answer, OutOfMemory>
    requires whole { WellFormed w.old }
    requires runs { w.old.scheduler.running ≡ Some t.0 }
    requires few { HasNumbers w.old }
    requires plain { is_plain call.now ≡ true }
    ensures next { IfOk result (λ a. (s : State P P.State P.Shared) → StandsFor w.old s → next.Done a ≡ (begun P.functions t.0 call.now s).next) }
    ensures goes { LedTo (StandsFor w.old) (λ (s : State P P.State P.Shared). (begun P.functions t.0 call.now s).told) w.new marks.old marks.new result }
    ensures frame { OnOk result (Frame w.old w.new one_of_each (Some t.0) false) }
    ensures keeps { OnOk result (IsUnblocked w.old t.0 → Whole w.old → Whole w.new) }
{
    let answer = answer(w, t, call)?;
    answer_call(t, call, answer, marks)
}
