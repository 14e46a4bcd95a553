//! Help, for who asks a program for it.

ghost use Rattle.std.specs.Prelude.{◌≡◌, map, string_bytes};
ghost use Rattle.pth_streams.specs.Pieces.{received};
ghost use Rattle.pth_filter.specs.Help.{Helps, asks_help, is_help};

use crate::finish::report_fault;
use pth_print::fault_line::Fault;
use pth_streams::sink::{Sink, SinkErr};
use pth_streams::write_all::write_all;
use std::alloc::Global;

// Whether a word asks for help.
fn is_help(word: &str) -> bool
    ensures { result ≡ is_help word.now }
{
    word == "--help" || word == "-h"
}

/// Whether one of the words before `--` is `--help` or `-h`.
pub fn asks_help(words: &[String]) -> bool
    ensures { result ≡ asks_help (map string_bytes words.now) }
{
    for word in words {
        if word.as_str() == "--" {
            return false;
        }
        if is_help(word.as_str()) {
            return true;
        }
    }
    false
}

/// Writes the help of the program with this name to `out`, and answers the status: 0, or that of a fault, whose line is written to `err`.
pub fn write_help<O: Sink, E: Sink>(
    alloc: Global,
    program: &str,
    help: &str,
    out: &mut O,
    err: &mut E,
) -> u8
    ensures { Helps program.now help.now result
        (received (O.written out.old) (O.faults out.old)) (received (O.written out.new) (O.faults out.new))
        (received (E.written err.old) (E.faults err.old)) (received (E.written err.new) (E.faults err.new)) }
{
    match write_all(out, help.as_bytes()) {
        Ok(()) => 0,
        Err(SinkErr::Failed) => report_fault(alloc, program, Fault::WriteFault, err),
        Err(SinkErr::OutOfMemory) => report_fault(alloc, program, Fault::OutOfMemory, err),
    }
}
