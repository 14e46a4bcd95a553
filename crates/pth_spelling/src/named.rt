//! Words and what they name, in tables.

ghost use Rattle.std.specs.Prelude.{◌≡◌};
ghost use Rattle.pth_spelling.specs.Named.{named_in, table_of};

/// What a word names by a table.
pub fn named<T: Copy>(table: &[(&str, T)], word: &[u8]) -> Option<T>
    ensures { result ≡ named_in (table_of table.now) word.now }
{
    for row in table {
        if word == row.0.as_bytes() {
            return Some(row.1);
        }
    }
    None
}
