//! The words that a program is called with.

use std::env;
use std::io::ErrorKind;

/// Why the words after a program's name were not read: one of them is not UTF-8, or memory ran out.
#[derive(Clone, Copy, Debug, PartialEq, Eq)]
pub enum ArgumentsErr {
    NotUtf8,
    OutOfMemory,
}

/// The words after a program's name.
pub fn arguments<R: env::Env + AllocGlobal>(rt: &R) -> Result<Vec<String>, ArgumentsErr> {
    match env::args(rt) {
        Ok(args) => args
            .skip(1)
            .collect(rt.alloc())
            .map_err(|_| ArgumentsErr::OutOfMemory),
        Err(e) if e.kind() == ErrorKind::OutOfMemory => Err(ArgumentsErr::OutOfMemory),
        Err(_) => Err(ArgumentsErr::NotUtf8),
    }
}
