//! The lines of what is there once.

ghost use Rattle.std.specs.Prelude.{◌≡◌, ◌++◌, [], ◌∷◌, IfOk, option_map};
ghost use Rattle.pth_threads.specs.Threads.{number_of};
ghost use Rattle.pth_snapshot.specs.Dump.{row, place_row, place_rows, single_rows, named_tid};
ghost use Rattle.pth_snapshot.specs.Numbers.{number_of as number_in};

use crate::number::{Number, add_numbers};
use pth_base::ids::Tid;
use pth_base::memory::OutOfMemory;
use pth_base::program::Program;
use pth_sched::machine::Machine;
use pth_text::text::Text;

// Adds a line of a word and a number.
fn add_line(word: &[u8], n: Number, out: &mut Text) -> Result<(), OutOfMemory>
    ensures { IfOk result (λ _. out.new ≡ out.old ++ row word.now (number_in n ∷ [])) }
{
    out.push(word)?;
    add_numbers(&[n], out)?;
    out.push(b"\n")
}

// Whether a step comes next, or no turn is open.
fn place_row(running: Option<Tid>) -> &'static [u8]
    ensures { result.now ≡ place_row (option_map number_of running) }
{
    match running {
        Some(_) => b"place step\n",
        None => b"place open\n",
    }
}

fn named_tid(named: Option<Tid>) -> u64
    ensures { result ≡ named_tid (option_map number_of named) }
{
    match named {
        Some(t) => u64::from(t.0),
        None => 0,
    }
}

/// Adds the lines of the place.
pub fn add_place<P: Program>(m: &Machine<P>, out: &mut Text) -> Result<(), OutOfMemory>
    ensures { IfOk result (λ _. out.new ≡ out.old ++ place_rows m.now.turn.steps m.now.world.scheduler.running) }
{
    out.push(b"pthsnap 1\n")?;
    add_line(b"steps", Number::Natural(m.steps()), out)?;
    out.push(place_row(m.world().running()))
}

/// Adds the lines of what is there once.
pub fn add_single<P: Program>(m: &Machine<P>, out: &mut Text) -> Result<(), OutOfMemory>
    ensures { IfOk result (λ _. out.new ≡ out.old
        ++ single_rows m.now.world.kernel.now m.now.turn.turns m.now.world.scheduler.favour_new m.now.world.scheduler.preferred) }
{
    add_line(b"now", Number::Natural(m.now()), out)?;
    add_line(b"turn", Number::Natural(m.turns()), out)?;
    add_line(b"favour", Number::flag(m.world().favour()), out)?;
    add_line(b"named", Number::Natural(named_tid(m.world().named())), out)
}
