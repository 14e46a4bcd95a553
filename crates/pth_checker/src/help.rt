//! The help of the program.

/// What `pth_check --help` prints.
pub const HELP: &str = "Usage: pth_check [FILE]

Judges a transcript: prints `lawful N`, or the first wrong line and the law that it breaks.

  FILE        the transcript; - or no FILE is standard input
  -h, --help  prints this

Status
  0  the transcript is lawful
  1  a line breaks a law
  2  the words are refused
  3  the text is no transcript: standard error has the line
  4  a read failed, or FILE does not exist
  5  a write failed
  7  out of memory
";
