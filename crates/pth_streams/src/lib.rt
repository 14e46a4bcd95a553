//! What is read from and written to: streams and files as traits, with objects in memory, and with those of std.
//!
//! Reading takes the next bytes of what is told to be left, never more than the buffer holds, and none only at the
//! end. Writing appends the beginning of the piece that it reports, at least one byte if the piece has one. The
//! count of faults rises by one exactly if a call fails, up to the last value of a `u64`; in a sink want of memory
//! is no fault. A file that was started has its whole content left (`Source`, `Files`, `Sink`). `write_all` writes a
//! piece whole, and if the sink fails a beginning of it. The objects in
//! memory fail exactly as they are told to, and tell all bytes. `Reading` and `Writing` tell those that the reader
//! or writer of std tells, and `OpenFiles` tells none.
#![tactic(auto)]

pub mod arguments;
pub mod files;
pub mod open_files;
pub mod reading;
pub mod sink;
pub mod source;
pub mod write_all;
pub mod writing;
