//! A law of worlds.

ghost use Rattle.pth_world.specs.Shows.{StandsFor};
ghost use Rattle.pth_world.specs.Sound.{IsSound};
ghost use Rattle.pth_world.specs.StateOf.{state_of};
ghost use Rattle.pth_world.specs.World.{WorldOf};

use pth_base::program::Program;

/// Every sound world stands for a state. So what a clause says of each state for which a world stands it says of one at least, and
/// what it says of a result holds.
pub fn sound_worlds_stand_for_a_state<P: Program>()
    ensures { (w : WorldOf P P.State P.Shared) → IsSound w.threads → StandsFor w (state_of w) }
{}
