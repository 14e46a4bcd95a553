//! The kernel of a world, which keeps its time.

ghost use Rattle.std.specs.Prelude.{◌≡◌, ◌≤◌};
ghost use Rattle.std.specs.Borrow.{Lends, sem};
ghost use Rattle.pth_base.specs.Limits.{last_moment};
ghost use Rattle.pth_kernel.specs.Trace.{most_clock};
ghost use Rattle.pth_kernel.specs.contracts.kernel.Kernel.{the_row as kernel_row};
ghost use Rattle.pth_model.specs.Changes.{moves_to};
ghost use Rattle.pth_model.specs.State.{Control};
ghost use Rattle.pth_world.specs.Shows.{Shows};
ghost use Rattle.pth_world.specs.WellFormed.{WellFormed};
ghost use Rattle.pth_world.specs.contracts.world.World.{the_row};

use crate::world::World;
use pth_base::ids::Micros;
use pth_base::program::Program;
use pth_kernel::kernel::Kernel;

impl<P: Program> World<P> {
    /// The kernel.
    pub fn kernel(&self) -> &Kernel
        ensures { result.now ≡ self.now.kernel }
    {
        &self.kernel
    }

    /// The kernel, for changes that touch no thread.
    pub fn kernel_mut(&mut self) -> &mut Kernel
        ensures* writes_back { sem 𝓛 (Lends (the_row P.row P.State.row P.Shared.row P.Program) kernel_row self.entry result (λ x. record self.old { kernel = x })) }
        ensures value { result.now ≡ self.old.kernel }
    {
        &mut self.kernel
    }

    /// The moment, in microseconds.
    pub fn time(&self) -> Micros
        ensures now { result ≡ self.now.kernel.now }
        ensures within { result ≤ last_moment }
    {
        self.kernel.now()
    }

    /// How many microseconds a turn takes.
    pub fn clock(&self) -> Micros
        ensures clock { result ≡ self.now.kernel.clock }
        ensures within { result ≤ most_clock }
    {
        self.kernel.clock()
    }

    /// Moves time to a moment.
    pub fn set_time(&mut self, time: Micros)
        requires onward { self.old.kernel.now ≤ time }
        requires within { time ≤ last_moment }
        ensures same { self.new ≡ record self.old { kernel = record self.old.kernel { now = time } } }
        ensures shows { (k : Control P P.State P.Shared) → Shows self.old k → Shows self.new (moves_to time k) }
        ensures whole { WellFormed self.old → WellFormed self.new }
    {
        self.kernel_mut().advance(time);
    }
}
