//! The script that the words ask for, with its kernel, or its text in version 2. It is read from the input or from a file, or made.
//!
//! A workload is an object in place of the input, so every clause about an input holds of it.

ghost use Rattle.std.specs.Prelude.{◌≡◌, IfOk, IfSome, Some, option_map};
ghost use Rattle.pth_base.specs.Limits.{IsGreatestPriority};
ghost use Rattle.pth_command.specs.CommandLine.{IsWorkload, asked_of};
ghost use Rattle.pth_streams.specs.Inputs.{inputs};
ghost use Rattle.pth_filter.specs.Objects.{OthersUntouched, named};
ghost use Rattle.pth_player.specs.Objects.{asked_object, ObjectCounts};
ghost use Rattle.pth_streams.specs.Faults.{CountsRead};
ghost use Rattle.pth_player.specs.Streams.{TakesUpTo};
ghost use Rattle.pth_player.specs.Play.{IsRead, ReadsBytes, ReadsText};
ghost use Rattle.pth_script.specs.Generated.{generated};
ghost use Rattle.pth_script.specs.Upgrade.{IsUpgrade};

use crate::faults::fault_of_script;
use crate::streams::{read_started, read_up_to};
use pth_base::bytes::Bytes;
use pth_base::memory::OutOfMemory;
use pth_command::choice::Choice;
use pth_filter::faults::fault_of_read;
use pth_kernel::kernel::Kernel;
use pth_line::script::Script;
use pth_print::fault_line::Fault;
use pth_script::generate::generate;
use pth_script::limits::TEXT_LIMIT;
use pth_script::read::read;
use pth_script::upgrade::upgrade;
use pth_streams::files::Files;
use pth_streams::source::{ReadFault, Source};
use std::alloc::Global;

/// The bytes of a file.
fn read_file<F: Files>(alloc: Global, name: &str, files: &mut F) -> Result<Vec<u8>, ReadFault>
    ensures bytes { IfOk result (λ v. TakesUpTo 16777217 (F.held files.old name.now) (F.left files.new) v.items) }
    ensures counts { CountsRead (F.faults files.old) (F.faults files.new) result }
{
    let Ok(()) = files.start(name) else {
        return Err(ReadFault::Failed);
    };
    read_started(alloc, files, TEXT_LIMIT + 1)
}

/// The bytes that stand under a name, to their end or to the byte after the limit. Those of the input stand under no name
/// and under `-`.
fn read_named<S: Source, F: Files>(
    alloc: Global,
    name: Option<&str>,
    input: &mut S,
    files: &mut F,
) -> Result<Vec<u8>, ReadFault>
    ensures bytes { IfOk result (λ v. ReadsBytes (named (option_map (λ n. n.now) name.entry))
        (inputs (S.left input.old) (S.faults input.old) (F.left files.old) (F.held files.old) (F.faults files.old))
        (inputs (S.left input.new) (S.faults input.new) (F.left files.new) (F.held files.new) (F.faults files.new)) v.items) }
    ensures counts { ObjectCounts (named (option_map (λ n. n.now) name.entry))
        (inputs (S.left input.old) (S.faults input.old) (F.left files.old) (F.held files.old) (F.faults files.old))
        (inputs (S.left input.new) (S.faults input.new) (F.left files.new) (F.held files.new) (F.faults files.new)) result }
    ensures others { OthersUntouched (named (option_map (λ n. n.now) name.entry)) input.old input.new files.old files.new }
{
    match name {
        Some(name) if name != "-" => read_file(alloc, name, files),
        _ => read_up_to(alloc, input, TEXT_LIMIT + 1),
    }
}

/// The script of a workload with so many threads.
fn workload(alloc: Global, threads: u64) -> Result<Vec<u8>, OutOfMemory>
    requires { IsWorkload threads }
    ensures { IfOk result (λ v. v.items ≡ generated threads) }
{
    let text = generate(alloc, threads as u32)?;
    Ok(Vec::from_slice(alloc, text.as_slice())?)
}

/// The bytes that the words ask for: the script of a workload, which is made, or what is read of the file or the input.
fn read_bytes<S: Source, F: Files>(
    alloc: Global,
    choice: &Choice<'_>,
    input: &mut S,
    files: &mut F,
) -> Result<Vec<u8>, ReadFault>
    requires { IfSome choice.now.generate IsWorkload }
    ensures bytes { IfOk result (λ v. ReadsBytes (asked_object (Some (asked_of choice.now)))
        (inputs (S.left input.old) (S.faults input.old) (F.left files.old) (F.held files.old) (F.faults files.old))
        (inputs (S.left input.new) (S.faults input.new) (F.left files.new) (F.held files.new) (F.faults files.new)) v.items) }
    ensures counts { ObjectCounts (asked_object (Some (asked_of choice.now)))
        (inputs (S.left input.old) (S.faults input.old) (F.left files.old) (F.held files.old) (F.faults files.old))
        (inputs (S.left input.new) (S.faults input.new) (F.left files.new) (F.held files.new) (F.faults files.new)) result }
    ensures others { OthersUntouched (asked_object (Some (asked_of choice.now))) input.old input.new files.old files.new }
{
    let Some(threads) = choice.generate else {
        return read_named(alloc, choice.file, input, files);
    };
    match workload(alloc, threads) {
        Ok(bytes) => Ok(bytes),
        Err(OutOfMemory) => Err(ReadFault::OutOfMemory),
    }
}

/// The script, the kernel and the greatest base priority that the words ask for.
pub fn read_script<S: Source, F: Files>(
    alloc: Global,
    choice: &Choice<'_>,
    input: &mut S,
    files: &mut F,
) -> Result<(Script, Kernel, u8), Fault>
    requires { IfSome choice.now.generate IsWorkload }
    ensures script { ReadsText IsRead (asked_object (Some (asked_of choice.now)))
        (inputs (S.left input.old) (S.faults input.old) (F.left files.old) (F.held files.old) (F.faults files.old))
        (inputs (S.left input.new) (S.faults input.new) (F.left files.new) (F.held files.new) (F.faults files.new)) result }
    ensures range { IfOk result (λ read. IsGreatestPriority read.2) }
    ensures others { OthersUntouched (asked_object (Some (asked_of choice.now))) input.old input.new files.old files.new }
{
    let bytes = read_bytes(alloc, choice, input, files).map_err(fault_of_read)?;
    read(alloc, &bytes).map_err(fault_of_script)
}

/// The text that the words ask for, in version 2.
pub fn read_upgrade<S: Source, F: Files>(
    alloc: Global,
    choice: &Choice<'_>,
    input: &mut S,
    files: &mut F,
) -> Result<Bytes, Fault>
    requires { IfSome choice.now.generate IsWorkload }
    ensures upgrade { ReadsText IsUpgrade (asked_object (Some (asked_of choice.now)))
        (inputs (S.left input.old) (S.faults input.old) (F.left files.old) (F.held files.old) (F.faults files.old))
        (inputs (S.left input.new) (S.faults input.new) (F.left files.new) (F.held files.new) (F.faults files.new)) result }
    ensures others { OthersUntouched (asked_object (Some (asked_of choice.now))) input.old input.new files.old files.new }
{
    let bytes = read_bytes(alloc, choice, input, files).map_err(fault_of_read)?;
    upgrade(alloc, &bytes).map_err(fault_of_script)
}
