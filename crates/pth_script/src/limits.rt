//! The limits of a script's text. `pth_kernel` has that of the `at` lines.

/// How many bytes an input may have. What stands after one byte more need not be read.
pub const TEXT_LIMIT: usize = 16_777_216;

/// How many bytes a line may have, without its LF.
pub const LINE_LIMIT: usize = 8192;

/// How many handlers a script may have.
pub const MOST_HANDLERS: usize = 256;

/// How many checks a script may have.
pub const MOST_CHECKS: usize = 256;

/// How many bodies a script may have.
pub const MOST_BODIES: usize = 256;

/// How many lines a handler may have, without its `end`.
pub const MOST_ACTS: usize = 64;

/// How many lines a body may have, without its `end`.
pub const MOST_LINES: usize = 4096;
