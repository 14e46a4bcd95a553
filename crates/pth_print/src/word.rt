//! Words of lines.

ghost use Rattle.std.specs.Prelude.{◌++◌, codes};
ghost use Rattle.pth_print.specs.Adding.{AddsText};
ghost use Rattle.pth_print.specs.WordTexts.{word_text, phrase_of};

use crate::set::add_set;
use pth_base::ids::{FdSet, Tid};
use pth_base::memory::OutOfMemory;
use pth_text::text::Text;

/// One word of a line.
#[derive(Clone, Copy)]
pub enum Word<'a> {
    /// A word as it is.
    Plain(&'a [u8]),
    /// A number behind a reference, as calls are matched.
    Number(&'a i64),
    Natural(u64),
    Thread(Tid),
    /// A shared value.
    Cell(u32),
    Set(FdSet),
    /// Bytes in hexadecimal digits.
    Hex(&'a [u8]),
}

/// Adds a word.
pub fn add_word(word: &Word<'_>, out: &mut Text) -> Result<(), OutOfMemory>
    ensures { AddsText out.old out.new result (word_text word.now) }
{
    match word {
        Word::Plain(text) => out.push(text),
        Word::Number(n) => out.number(**n),
        Word::Natural(n) => out.natural(*n),
        Word::Thread(tid) => {
            out.push(b"t")?;
            out.natural(u64::from(tid.0))
        }
        Word::Cell(v) => {
            out.push(b"v")?;
            out.natural(u64::from(*v))
        }
        Word::Set(set) => add_set(*set, out),
        Word::Hex(bytes) => {
            out.push(b"hex:")?;
            out.hex(bytes)
        }
    }
}

/// Adds a word as it is after a space.
pub fn add_text(text: &str, out: &mut Text) -> Result<(), OutOfMemory>
    ensures { AddsText out.old out.new result (codes " " ++ text.now) }
{
    out.push(b" ")?;
    out.push(text.as_bytes())
}

/// Adds words, each after a space.
pub fn add_words(words: &[Word<'_>], out: &mut Text) -> Result<(), OutOfMemory>
    ensures { AddsText out.old out.new result (phrase_of words.now) }
{
    for word in words {
        out.push(b" ")?;
        add_word(word, out)?;
    }
    Ok(())
}

/// Adds a word, and others each after a space.
pub fn add_line(first: &Word<'_>, others: &[Word<'_>], out: &mut Text) -> Result<(), OutOfMemory>
    ensures { AddsText out.old out.new result (word_text first.now ++ phrase_of others.now) }
{
    add_word(first, out)?;
    add_words(others, out)
}
