//! The help of the program.

/// What `pth_picture --help` prints.
pub const HELP: &str = "Usage: pth_picture [--from TURN] [--turns N] [FILE]

Draws a transcript as an SVG image, which it writes to standard output.

  --from TURN  the first turn that is drawn; 1 by default
  --turns N    draws at most N turns, 1 to 2,000; 400 by default
  FILE         the transcript; - or no FILE is standard input
  -h, --help   prints this

Status
  0  the image was written
  2  the words are refused
  3  the text is no transcript: standard error has the line
  4  a read failed, or FILE does not exist
  5  a write failed
  7  out of memory
";
