//! The barriers of a world.

ghost use Rattle.std.specs.Prelude.{◌≡◌};
ghost use Rattle.std.specs.Borrow.{Lends, sem};
ghost use Rattle.pth_cond.specs.contracts.barriers.Barriers.{the_row as barriers_row};
ghost use Rattle.pth_world.specs.contracts.world.World.{the_row};

use crate::world::World;
use pth_base::program::Program;
use pth_cond::barriers::Barriers;

impl<P: Program> World<P> {
    /// The barriers (`pth_barrier_t`).
    pub fn barriers(&self) -> &Barriers
        ensures { result.now ≡ self.now.barriers }
    {
        &self.barriers
    }

    /// The barriers, for changes that touch no thread.
    pub fn barriers_mut(&mut self) -> &mut Barriers
        ensures* writes_back { sem 𝓛 (Lends (the_row P.row P.State.row P.Shared.row P.Program) barriers_row self.entry result (λ x. record self.old { barriers = x })) }
        ensures value { result.now ≡ self.old.barriers }
    {
        &mut self.barriers
    }
}
