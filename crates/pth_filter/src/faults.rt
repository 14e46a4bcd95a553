//! The fault that an error of a part is.

ghost use Rattle.std.specs.Prelude.{◌≡◌};
ghost use Rattle.pth_filter.specs.Faults.{fault_of_read, fault_of_arguments, fault_of_write};

use pth_print::fault_line::Fault;
use pth_streams::arguments::ArgumentsErr;
use pth_streams::sink::SinkErr;
use pth_streams::source::ReadFault;

/// The fault of a program whose words were not read.
pub fn fault_of_arguments(e: ArgumentsErr) -> Fault
    ensures { result ≡ fault_of_arguments e }
{
    match e {
        ArgumentsErr::NotUtf8 => Fault::Words,
        ArgumentsErr::OutOfMemory => Fault::OutOfMemory,
    }
}

/// The fault of a read.
pub fn fault_of_read(e: ReadFault) -> Fault
    ensures { result ≡ fault_of_read e }
{
    match e {
        ReadFault::Failed => Fault::ReadFault,
        ReadFault::OutOfMemory => Fault::OutOfMemory,
    }
}

/// The fault of a write.
pub fn fault_of_write(e: SinkErr) -> Fault
    ensures { result ≡ fault_of_write e }
{
    match e {
        SinkErr::Failed => Fault::WriteFault,
        SinkErr::OutOfMemory => Fault::OutOfMemory,
    }
}
