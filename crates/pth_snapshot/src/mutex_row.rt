//! The lines of mutexes.

ghost use Rattle.std.specs.Prelude.{◌≡◌, ◌++◌, ◌<◌, IfOk};
ghost use Rattle.pth_lock.specs.Mutexes.{owner_of};
ghost use Rattle.pth_world.specs.Store.{store_of};
ghost use Rattle.pth_world.specs.WellFormed.{WellFormed};
ghost use Rattle.pth_snapshot.specs.Dump.{mutex_row, mutex_rows};

use crate::number::{Number, add_numbers};
use pth_base::memory::OutOfMemory;
use pth_base::program::Program;
use pth_text::text::Text;
use pth_world::world::World;

/// How many mutexes there are.
const MUTEXES: u32 = 64;

// Adds the line of a mutex, if a thread has it.
fn add_mutex<P: Program>(w: &World<P>, m: u32, out: &mut Text) -> Result<(), OutOfMemory>
    requires whole { WellFormed w.now }
    ensures { IfOk result (λ _. out.new ≡ out.old ++ mutex_row m (owner_of ((store_of w.now.store).mutexes m))) }
{
    match w.mutex_owner(i64::from(m)) {
        Ok(Some(t)) => {
            out.push(b"mutex")?;
            add_numbers(
                &[
                    Number::Natural(u64::from(m)),
                    Number::Natural(u64::from(t.0)),
                ],
                out,
            )?;
            out.push(b"\n")
        }
        _ => Ok(()),
    }
}

/// Adds the lines of the mutexes that threads have.
pub fn add_mutexes<P: Program>(w: &World<P>, out: &mut Text) -> Result<(), OutOfMemory>
    requires { WellFormed w.now }
    ensures { IfOk result (λ _. out.new ≡ out.old ++ mutex_rows (store_of w.now.store).mutexes) }
{
    for m in 0..MUTEXES {
        add_mutex(w, m, out)?;
    }
    Ok(())
}
