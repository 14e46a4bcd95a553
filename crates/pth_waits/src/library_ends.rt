//! The call of library control that ends the run: `pth_kill`.

ghost use Rattle.std.specs.Prelude.{◌≡◌, Some, IfOk};
ghost use Rattle.pth_base.specs.declared.call.Call.TheVariants.{Kill};
ghost use Rattle.pth_model.specs.Calls.{begun};
ghost use Rattle.pth_world.specs.Frame.{Frame, runs_after, yields_after};
ghost use Rattle.pth_world.specs.Leading.{Goes};
ghost use Rattle.pth_world.specs.Numbering.{no_numbers};
ghost use Rattle.pth_world.specs.Shows.{StandsFor};
ghost use Rattle.pth_world.specs.WellFormed.{WellFormed};

use pth_base::answer::Answer;
use pth_base::call::Call;
use pth_base::errno::Errno;
use pth_base::ids::{MAIN, Tid};
use pth_base::marks::Marks;
use pth_base::memory::OutOfMemory;
use pth_base::program::Program;
use pth_end::answering::{answer_call, done};
use pth_model::next::Next;
use pth_world::world::World;

/// `pth_kill`: main ends the run, and all other threads are in the system no longer. After an error the world may only be
/// dropped.
pub fn kill<P: Program>(
    w: &mut World<P>,
    t: Tid,
    call: &Call,
    marks: &mut Marks,
) -> Result<Next, OutOfMemory>
    requires whole { WellFormed w.old }
    requires runs { w.old.scheduler.running ≡ Some t.0 }
    requires call { call.now ≡ Kill }
    ensures goes { Goes (StandsFor w.old) (begun P.functions t.0 call.now) w.new marks.old marks.new result }
    ensures frame { IfOk result (λ n. Frame w.old w.new no_numbers (runs_after t.0 n) (yields_after n)) }
{
    if t.0 != MAIN {
        return done(t, call, Answer::Fail(Errno::EPERM), marks);
    }
    w.vanish_all_but(t);
    answer_call(t, call, Answer::Int(1), marks)?;
    Ok(Next::Killed)
}
