//! Words of a line.

ghost use Rattle.std.specs.Prelude.{◌≡◌, IfOk, map};
ghost use Rattle.pth_text.specs.LineWords.{words_of};

use pth_base::memory::OutOfMemory;
use std::alloc::Global;

// As many words as a line of a script has that is not refused.
const MOST_WORDS: usize = 8;

/// The words of a line, which is cut at each space: two spaces side by side have an empty word between them.
pub fn words(alloc: Global, line: &[u8]) -> Result<Vec<&[u8]>, OutOfMemory>
    ensures { IfOk result (λ words. map (λ w. w.now) words.items ≡ words_of line.now) }
{
    let mut words = Vec::with_capacity(alloc, MOST_WORDS)?;
    for word in line.split(|b| *b == b' ') {
        words.push(word)?;
    }
    Ok(words)
}
