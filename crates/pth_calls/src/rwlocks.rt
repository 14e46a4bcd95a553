//! Read-write locks: `pth_rwlock_init`, `pth_rwlock_release`. `pth_rwlock_acquire` may block its thread, and stands with the calls that
//! do.

ghost use Rattle.std.specs.Prelude.{◌≡◌, true, false, Some};
ghost use Rattle.pth_base.specs.Facilities.{facility_of};
ghost use Rattle.pth_base.specs.declared.call.Call.TheVariants.{RwInit, RwRelease};
ghost use Rattle.pth_base.specs.declared.facility.Facility.TheVariants as facility;
ghost use Rattle.pth_base.specs.declared.mark.Mark.TheVariants.{Answered};
ghost use Rattle.pth_calls.specs.Plain.{is_plain};
ghost use Rattle.pth_model.specs.Rows.{row_of};
ghost use Rattle.pth_model.specs.Rwlocks.{rw_init as init_row, rw_release as release_row};
ghost use Rattle.pth_model.specs.State.{State};
ghost use Rattle.pth_world.specs.Frame.{Frame};
ghost use Rattle.pth_world.specs.Leading.{IsTold};
ghost use Rattle.pth_world.specs.Numbering.{no_numbers};
ghost use Rattle.pth_world.specs.WellFormed.{WellFormed};

use pth_base::answer::Answer;
use pth_base::call::Call;
use pth_base::ids::Tid;
use pth_base::program::Program;
use pth_end::saying::answer_of;
use pth_world::world::World;

// pth_rwlock_init: a lock can be taken from now on.
fn init_lock<P: Program>(w: &mut World<P>, t: Tid, l: i64) -> Answer
    requires whole { WellFormed w.old }
    requires runs { w.old.scheduler.running ≡ Some t.0 }
    ensures told { IsTold w.old w.new (Answered t (RwInit l) result) result (λ (s : State P P.State P.Shared). (init_row s l).begin) }
    ensures frame { Frame w.old w.new no_numbers (Some t.0) false }
{
    answer_of(w.init_lock(l))
}

// pth_rwlock_release: the thread holds the lock no longer.
fn release_lock<P: Program>(w: &mut World<P>, t: Tid, l: i64) -> Answer
    requires whole { WellFormed w.old }
    requires runs { w.old.scheduler.running ≡ Some t.0 }
    ensures told { IsTold w.old w.new (Answered t (RwRelease l) result) result (λ (s : State P P.State P.Shared). (release_row s t.0 l).begin) }
    ensures frame { Frame w.old w.new no_numbers (Some t.0) false }
{
    answer_of(w.release_lock(t, l))
}

/// The answer of a call on read-write locks that does not block its thread.
pub(crate) fn answer_rwlocks<P: Program>(w: &mut World<P>, t: Tid, call: &Call) -> Answer
    requires whole { WellFormed w.old }
    requires runs { w.old.scheduler.running ≡ Some t.0 }
    requires plain { is_plain call.now ≡ true }
    requires rwlocks { facility_of call.now ≡ Some facility.Rwlocks }
    ensures told { IsTold w.old w.new (Answered t call.now result) result (λ (s : State P P.State P.Shared). (row_of P.functions s t.0 call.now).begin) }
    ensures frame { Frame w.old w.new no_numbers (Some t.0) false }
{
    match call {
        Call::RwInit(l) => init_lock(w, t, *l),
        Call::RwRelease(l) => release_lock(w, t, *l),
        _ => unreachable!(),
    }
}
