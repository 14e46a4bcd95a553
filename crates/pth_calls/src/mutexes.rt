//! Mutexes: `pth_mutex_init`, `pth_mutex_release`. `pth_mutex_acquire` may block its thread, and stands with the calls that do.

ghost use Rattle.std.specs.Prelude.{◌≡◌, true, false, Some};
ghost use Rattle.pth_base.specs.Facilities.{facility_of};
ghost use Rattle.pth_base.specs.declared.call.Call.TheVariants.{MutexInit};
ghost use Rattle.pth_base.specs.declared.facility.Facility.TheVariants as facility;
ghost use Rattle.pth_base.specs.declared.mark.Mark.TheVariants.{Answered};
ghost use Rattle.pth_calls.specs.Plain.{is_plain};
ghost use Rattle.pth_model.specs.Mutexes.{mutex_init as init_row};
ghost use Rattle.pth_model.specs.Rows.{row_of};
ghost use Rattle.pth_model.specs.State.{State};
ghost use Rattle.pth_world.specs.Frame.{Frame};
ghost use Rattle.pth_world.specs.Leading.{IsTold};
ghost use Rattle.pth_world.specs.Numbering.{no_numbers};
ghost use Rattle.pth_world.specs.WellFormed.{WellFormed};

use pth_base::answer::Answer;
use pth_base::call::Call;
use pth_base::ids::Tid;
use pth_base::program::Program;
use pth_end::acts::release_mutex;
use pth_end::saying::answer_of;
use pth_world::world::World;

// pth_mutex_init: a mutex can be taken from now on.
fn init_mutex<P: Program>(w: &mut World<P>, t: Tid, m: i64) -> Answer
    requires whole { WellFormed w.old }
    requires runs { w.old.scheduler.running ≡ Some t.0 }
    ensures told { IsTold w.old w.new (Answered t (MutexInit m) result) result (λ (s : State P P.State P.Shared). (init_row s m).begin) }
    ensures frame { Frame w.old w.new no_numbers (Some t.0) false }
{
    answer_of(w.init_mutex(m))
}

/// The answer of a call on mutexes that does not block its thread.
pub(crate) fn answer_mutexes<P: Program>(w: &mut World<P>, t: Tid, call: &Call) -> Answer
    requires whole { WellFormed w.old }
    requires runs { w.old.scheduler.running ≡ Some t.0 }
    requires plain { is_plain call.now ≡ true }
    requires mutexes { facility_of call.now ≡ Some facility.Mutexes }
    ensures told { IsTold w.old w.new (Answered t call.now result) result (λ (s : State P P.State P.Shared). (row_of P.functions s t.0 call.now).begin) }
    ensures frame { Frame w.old w.new no_numbers (Some t.0) false }
{
    match call {
        Call::MutexInit(m) => init_mutex(w, t, *m),
        Call::MutexRelease(m) => release_mutex(w, t, *m),
        _ => unreachable!(),
    }
}
