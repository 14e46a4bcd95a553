//! Lines that are printed again.

ghost use Rattle.std.specs.Prelude.{◌≡◌, ◌++◌, IsTrue, codes};

/// Whether a text is a line and its LF.
pub fn is_line(text: &[u8], line: &[u8]) -> bool
    ensures spelled { IsTrue result → line.now ++ codes "\n" ≡ text.now }
    ensures printed { line.now ++ codes "\n" ≡ text.now → IsTrue result }
{
    match text.split_last() {
        Some((last, rest)) => *last == b'\n' && rest == line,
        None => false,
    }
}
