//! How a call of a program ends.

ghost use Rattle.pth_filter.specs.Answers.{Ends};
ghost use Rattle.pth_filter.specs.Faults.{Reports};
ghost use Rattle.pth_streams.specs.Pieces.{received};

use pth_print::fault_line::{Fault, fault_line};
use pth_streams::sink::{Sink, SinkErr};
use pth_streams::write_all::write_all;
use pth_text::text::Text;
use std::alloc::Global;

/// Writes the line of a fault of the program with this name, and answers its status. A sink that fails changes nothing of the status. If memory
/// runs out for the line it is 7.
pub fn report_fault<E: Sink>(alloc: Global, program: &str, fault: Fault, err: &mut E) -> u8
    ensures { Reports program.now fault result
        (received (E.written err.old) (E.faults err.old))
        (received (E.written err.new) (E.faults err.new)) }
{
    let mut text = Text::new(alloc);
    if fault_line(program, fault, &mut text).is_err() {
        return Fault::OutOfMemory.status();
    }
    match write_all(err, text.as_slice()) {
        Ok(()) | Err(SinkErr::Failed) => fault.status(),
        Err(SinkErr::OutOfMemory) => Fault::OutOfMemory.status(),
    }
}

/// The status of a call: that of the text that was written, or that of a fault, whose line is written to `err`.
pub fn finish<E: Sink>(alloc: Global, program: &str, ran: Result<u8, Fault>, err: &mut E) -> u8
    ensures { Ends program.now ran result
        (received (E.written err.old) (E.faults err.old))
        (received (E.written err.new) (E.faults err.new)) }
{
    match ran {
        Ok(status) => status,
        Err(fault) => report_fault(alloc, program, fault, err),
    }
}
