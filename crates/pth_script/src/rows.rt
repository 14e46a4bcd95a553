//! Lines of a text.

ghost use Rattle.std.specs.Prelude.{◌≡◌, ◌<◌, ◌∷◌, length};
ghost use Rattle.pth_script.specs.TextRows.{text_rows, is_comment};

use pth_text::line::line_end;

/// The first line of a text without its LF, whether an LF ends it, and the text after it.
pub fn first_row(bytes: &[u8]) -> (&[u8], bool, &[u8])
    requires { 0 < length bytes.now }
    ensures row { text_rows bytes.now ≡ record { bytes = result.0.now; ended = result.1 } ∷ text_rows result.2.now }
    ensures shorter { length result.2.now < length bytes.now }
{
    match line_end(bytes, 0) {
        Some(end) => {
            let (row, _) = bytes.split_at(end);
            let (_, rest) = bytes.split_at(end + 1);
            (row, true, rest)
        }
        None => (bytes, false, &[]),
    }
}

/// Whether a line is a comment.
pub fn is_comment(bytes: &[u8]) -> bool
    ensures { result ≡ is_comment bytes.now }
{
    matches!(bytes, [b'#', ..])
}
