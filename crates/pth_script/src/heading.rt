//! The heading of a text: the line `pth 1`, or the lines `pth 2` and `range K`.

ghost use Rattle.std.specs.Prelude.{◌≡◌};
ghost use Rattle.pth_script.specs.TextRows.{range_said};

use pth_spelling::named::named;

/// The K of a text that begins with `pth 1`.
pub const VERSION_1_RANGE: u8 = 5;

/// How far the heading of a text was read.
#[derive(Clone, Copy)]
pub enum Heading {
    /// No line of it was.
    Unread,
    /// The line `pth 2` was.
    Version2,
    /// All of it was, and base priorities go from -K to K with this K.
    Whole(u8),
}

static RANGES: [(&str, u8); 16] = [
    ("range 5", 5),
    ("range 6", 6),
    ("range 7", 7),
    ("range 8", 8),
    ("range 9", 9),
    ("range 10", 10),
    ("range 11", 11),
    ("range 12", 12),
    ("range 13", 13),
    ("range 14", 14),
    ("range 15", 15),
    ("range 16", 16),
    ("range 17", 17),
    ("range 18", 18),
    ("range 19", 19),
    ("range 20", 20),
];

/// The K of a line `range K`.
#[tactic(auto, unfolding(crate::specs::TextRows::range_said))]
pub fn range_said(line: &[u8]) -> Option<u8>
    ensures { result ≡ range_said line.now }
{
    named(&RANGES, line)
}
