//! A run as a text.

ghost use Rattle.std.specs.Prelude.{◌≡◌, ◌+◌, ◌<◌, ◌^◌, ◌++◌, length, IfOk};
ghost use Rattle.pth_line.specs.Script.{Sections};
ghost use Rattle.pth_operand.specs.declared.cells.Cells.{Cells};
ghost use Rattle.pth_operand.specs.declared.frame.Frame.{Frame};
ghost use Rattle.pth_model.specs.Course.{Course};
ghost use Rattle.pth_sched.specs.Running.{Stands};
ghost use Rattle.pth_snapshot.specs.Dump.{dump};

use crate::descriptor_row::add_descriptors;
use crate::heading::{add_place, add_single};
use crate::mutex_row::add_mutexes;
use crate::thread_row::add_threads;
use pth_base::bytes::Bytes;
use pth_base::memory::OutOfMemory;
use pth_base::outcome::Outcome;
use pth_base::program::Program;
use pth_line::script::Script;
use pth_sched::machine::Machine;
use pth_text::text::Text;
use std::alloc::Global;

// Adds the whole text.
fn add_dump<P: Program>(m: &Machine<P>, alloc: Global, out: &mut Text) -> Result<(), OutOfMemory>
    requires { m.now.turn.outcome ≡ Outcome.Running }
    ensures dumped { IfOk result (λ _. (c : Course P P.State P.Shared) → Stands m.now c → out.new ≡ out.old ++ dump c) }
    ensures few { IfOk result (λ _. length out.new < length out.old + 2 ^ 22) }
{
    add_place(m, out)?;
    add_single(m, out)?;
    let w = m.world();
    add_threads(w, alloc, out)?;
    add_mutexes(w, out)?;
    add_descriptors(w.kernel(), out)?;
    out.push(b"end\n")
}

/// The text of where a machine stands, with what stands there. It has fewer than 2^22 bytes.
pub fn saved<P: Program>(alloc: Global, m: &Machine<P>) -> Result<Text, OutOfMemory>
    requires { m.now.turn.outcome ≡ Outcome.Running }
    ensures dumped { IfOk result (λ text. (c : Course P P.State P.Shared) → Stands m.now c → text ≡ dump c) }
    ensures few { IfOk result (λ text. length text < 2 ^ 22) }
{
    let mut text = Text::new(alloc);
    match add_dump(m, alloc, &mut text) {
        Ok(()) => Ok(text),
        Err(e) => Err(e),
    }
}

/// The text of where the run of a script stands, between two parts of it, with what stands there: a line a thread, a mutex that a
/// thread has, and a live descriptor. The run goes on: it has no outcome yet. `load` takes the text up beside the script's input.
pub fn save(alloc: Global, m: &Machine<Script>) -> Result<Bytes, OutOfMemory>
    requires { m.now.turn.outcome ≡ Outcome.Running }
    ensures { IfOk result (λ text. (c : Course Sections Frame Cells) → Stands m.now c → text ≡ dump c) }
{
    let text = saved(alloc, m)?;
    Bytes::from_slice(alloc, text.as_slice())
}
