//! A run taken up again.

ghost use Rattle.std.specs.Prelude.{◌≡◌, ◌≢◌, ◌≤◌, IfOk, OnErr, MatchOption, is_some, None, false, IsTrue};
ghost use Rattle.pth_base.specs.Limits.{most_steps};
ghost use Rattle.pth_model.specs.State.{Given};
ghost use Rattle.pth_sched.specs.Running.{StandsAt, IsBetweenTurns};
ghost use Rattle.pth_snapshot.specs.Leading.{IsPlaced, IsBrokenOff};
ghost use Rattle.pth_snapshot.specs.Loading.{IsLoaded, IsTakenUp, IsRefusedSnapshot, read_error};
ghost use Rattle.pth_snapshot.specs.Place.{is_step};

use crate::difference::first_difference;
use crate::lead::lead;
use crate::place::{Kind, Place, named_place};
use crate::save::saved;
use pth_base::marks::Marks;
use pth_base::memory::OutOfMemory;
use pth_base::outcome::Outcome;
use pth_base::program::Program;
use pth_line::script::Script;
use pth_sched::machine::Machine;
use pth_script::read::{ReadErr, read};
use pth_text::rule::Rule;
use std::alloc::Global;
use thiserror::Error;

/// Why no machine was loaded. Lines are numbered from 1.
#[derive(Clone, Copy, Debug, PartialEq, Eq, Error)]
pub enum LoadErr {
    /// The input is refused at a line, for a rule; none stands for a limit.
    #[error("Input")]
    Input { line: u32, rule: Option<Rule> },
    /// The snapshot is not one of the input's run: this line of it is the first that is not.
    #[error("Refused")]
    Refused { line: u32 },
    #[error("OutOfMemory")]
    OutOfMemory,
}

// Why the input is refused.
fn read_error(e: ReadErr) -> LoadErr
    ensures { result ≡ read_error e }
{
    match e {
        ReadErr::Refused { line, rule } => LoadErr::Input {
            line,
            rule: Some(rule),
        },
        ReadErr::TooLarge { line } => LoadErr::Input { line, rule: None },
        ReadErr::OutOfMemory => LoadErr::OutOfMemory,
    }
}

// Whether a thread runs if a step is to come next, and none if no turn is to be open.
fn is_as_named<P: Program>(machine: &Machine<P>, kind: Kind) -> bool
    ensures is { IsTrue result → is_some machine.now.world.scheduler.running ≡ is_step kind }
    ensures not { result ≡ false → is_some machine.now.world.scheduler.running ≢ is_step kind }
{
    machine.world().running().is_some() == kind.is_step()
}

// Brings a machine to a place. The answer is the line of a refusal: the run ends before it, or no Close follows its step.
fn arrive<P: Program>(
    alloc: Global,
    machine: &mut Machine<P>,
    place: Place,
) -> Result<Option<u32>, OutOfMemory>
    requires start { machine.old.turn.steps ≡ 0 }
    requires between { IsBetweenTurns machine.old }
    requires few { place.steps ≤ most_steps }
    ensures placed { IfOk result (λ line. (g : Given P) → StandsAt P.functions g 0 machine.old
        → IsPlaced P.functions g place line machine.new) }
    ensures goes { IfOk result (λ line. line ≡ None → machine.new.turn.outcome ≡ Outcome.Running) }
    ensures memory { OnErr result (machine.new.turn.outcome ≡ Outcome.OutOfMemory) }
{
    let mut marks = Marks::new(alloc);
    match lead(machine, place, &mut marks) {
        Outcome::Running => {
            if is_as_named(machine, place.kind) {
                Ok(None)
            } else {
                Ok(Some(3))
            }
        }
        Outcome::OutOfMemory => Err(OutOfMemory),
        _ => Ok(Some(2)),
    }
}

// Brings a machine to the place that a snapshot names, and compares what stands there. The answer is the line of a refusal.
fn bring<P: Program>(
    alloc: Global,
    machine: &mut Machine<P>,
    snap: &[u8],
) -> Result<Option<u32>, OutOfMemory>
    requires start { machine.old.turn.steps ≡ 0 }
    requires between { IsBetweenTurns machine.old }
    ensures goes { IfOk result (λ line. line ≡ None → machine.new.turn.outcome ≡ Outcome.Running) }
    ensures found { IfOk result (λ line. (g : Given P) → StandsAt P.functions g 0 machine.old
        → MatchOption line (IsTakenUp P.functions g snap.now machine.new) (λ n. IsRefusedSnapshot P.functions g snap.now n)) }
    ensures memory { OnErr result ((g : Given P) → StandsAt P.functions g 0 machine.old → IsBrokenOff P.functions g snap.now machine.new) }
{
    let place = match named_place(snap) {
        Ok(place) => place,
        Err(line) => return Ok(Some(line)),
    };
    let line = arrive(alloc, machine, place)?;
    if line.is_some() {
        return Ok(line);
    }
    let text = saved(alloc, machine)?;
    Ok(first_difference(snap, text.as_slice()))
}

/// Takes up the run of an input, a script with its kernel as `read` takes it, where a snapshot says that it stands.
///
/// The run is made again from its start up to the place that the snapshot names, and the text of what stands there is compared with the
/// snapshot. So a machine comes of it only if the snapshot is the text of this run at this place. The marks that are told on the way are
/// dropped, a thousand steps at a time.
pub fn load(alloc: Global, input: &[u8], snap: &[u8]) -> Result<Machine<Script>, LoadErr>
    ensures loaded { IsLoaded input.now snap.now result }
    ensures goes { IfOk result (λ m. m.turn.outcome ≡ Outcome.Running) }
{
    let (script, kernel, top) = match read(alloc, input) {
        Ok(read) => read,
        Err(e) => return Err(read_error(e)),
    };
    let mut machine = match Machine::new(alloc, script, kernel, top) {
        Ok(machine) => machine,
        Err(_) => return Err(LoadErr::OutOfMemory),
    };
    match bring(alloc, &mut machine, snap) {
        Ok(None) => Ok(machine),
        Ok(Some(line)) => Err(LoadErr::Refused { line }),
        Err(_) => Err(LoadErr::OutOfMemory),
    }
}
