//! The conditions of a world.

ghost use Rattle.std.specs.Prelude.{◌≡◌};
ghost use Rattle.std.specs.Borrow.{Lends, sem};
ghost use Rattle.pth_cond.specs.contracts.conditions.Conds.{the_row as conditions_row};
ghost use Rattle.pth_world.specs.contracts.world.World.{the_row};

use crate::world::World;
use pth_base::program::Program;
use pth_cond::conditions::Conds;

impl<P: Program> World<P> {
    /// The conditions (`pth_cond_t`).
    pub fn conditions(&self) -> &Conds
        ensures { result.now ≡ self.now.conditions }
    {
        &self.conditions
    }

    /// The conditions, for changes that touch no thread.
    pub fn conditions_mut(&mut self) -> &mut Conds
        ensures* writes_back { sem 𝓛 (Lends (the_row P.row P.State.row P.Shared.row P.Program) conditions_row self.entry result (λ x. record self.old { conditions = x })) }
        ensures value { result.now ≡ self.old.conditions }
    {
        &mut self.conditions
    }
}
