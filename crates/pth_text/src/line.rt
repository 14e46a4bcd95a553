//! Where lines end.

ghost use Rattle.std.specs.Prelude.{◌≡◌};
ghost use Rattle.pth_text.specs.LineEnd.{line_end_of};

/// The place of the first LF at a place or later.
pub fn line_end(bytes: &[u8], from: usize) -> Option<usize>
    ensures { result ≡ line_end_of bytes.now from }
{
    let rest = bytes.get(from..)?;
    let at = rest.iter().position(|b| *b == b'\n')?;
    Some(from + at)
}
