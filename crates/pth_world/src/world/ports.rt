//! The message ports of a world.

ghost use Rattle.std.specs.Prelude.{◌≡◌};
ghost use Rattle.std.specs.Borrow.{Lends, sem};
ghost use Rattle.pth_port.specs.contracts.ports.Ports.{the_row as ports_row};
ghost use Rattle.pth_world.specs.contracts.world.World.{the_row};

use crate::world::World;
use pth_base::program::Program;
use pth_port::ports::Ports;

impl<P: Program> World<P> {
    /// The message ports (`pth_msgport_t`).
    pub fn ports(&self) -> &Ports
        ensures { result.now ≡ self.now.store.ports }
    {
        &self.ports
    }

    /// The message ports, for changes: they touch no thread, and nothing else that is stored.
    pub fn ports_mut(&mut self) -> &mut Ports
        ensures* writes_back { sem 𝓛 (Lends (the_row P.row P.State.row P.Shared.row P.Program) ports_row self.entry result (λ x. record self.old { store = record self.old.store { ports = x } })) }
        ensures value { result.now ≡ self.old.store.ports }
    {
        &mut self.ports
    }
}
