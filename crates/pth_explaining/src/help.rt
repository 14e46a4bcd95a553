//! The help of the program.

/// What `pth_why --help` prints.
pub const HELP: &str = "Usage: pth_why [FILE]

Explains how a run ended, by its transcript: which threads wait for what, who holds that, and which calls were refused.

  FILE        the transcript; - or no FILE is standard input
  -h, --help  prints this

Status
  0  the explanation was written
  2  the words are refused
  3  the text is no transcript: standard error has the line
  4  a read failed, or FILE does not exist
  5  a write failed
  7  out of memory
";
