//! A world that is changed by hand.

ghost use Rattle.std.specs.Prelude.{IfOk};
ghost use Rattle.pth_world.specs.Sound.{IsSound};
ghost use Rattle.pth_world.specs.WellFormed.{WellFormed};

use crate::comparison::holds_of;
use pth_base::ids::Tid;
use pth_queue::queue::Queue;
use pth_script::Script;
use pth_script::read::{ReadErr, read};
use pth_world::world::World;
use std::alloc::Global;
use std::test::Fail;

/// The world of a script, where main is ready at rank 0.
fn world_of(alloc: Global, text: &[u8]) -> Result<World<Script>, ReadErr>
    ensures { IfOk result (λ world. WellFormed world) }
{
    let (script, kernel, top) = read(alloc, text)?;
    Ok(World::new(alloc, script, kernel, top)?)
}

/// A thread leaves its queue, and is ready at rank 7; nothing if it is not in the system.
fn put_at_seven(world: &mut World<Script>, t: Tid)
    requires { WellFormed world.old }
    ensures { IsSound world.new.threads }
{
    if world.entry(t).is_none() {
        return;
    }
    world.take_out(t);
    world.put_ready(t, 7);
}

#[test]
fn a_thread_is_put_at_a_rank(rt: HostRuntime) -> Result<(), Fail> {
    let mut world = world_of(rt.alloc(), b"pth 1\nthread 0\nend\n")?;
    put_at_seven(&mut world, Tid(1));
    let place = world.place(Tid(1));
    holds_of(&rt, Tid(1), matches!(place, Some((Queue::Ready, 7, 0))));
    Ok(())
}
