//! Call lines, read.

ghost use Rattle.std.specs.Prelude.{◌≡◌, IfOk};
ghost use Rattle.pth_grammar.specs.CallLines.{call_line};
ghost use Rattle.pth_spelling.specs.Texts.{texts};

use crate::arguments::arguments;
use crate::forms::call_forms;
use pth_base::memory::OutOfMemory;
use pth_line::call_line::CallLine;
use pth_spelling::keyword::CallWord;
use std::alloc::Global;

/// The call that words stand for.
#[tactic(auto, unfolding(crate::specs::CallLines::call_line))]
pub fn call_line(
    alloc: Global,
    word: CallWord,
    words: &[&[u8]],
) -> Result<Option<CallLine>, OutOfMemory>
    ensures { IfOk result (λ l. l ≡ call_line word (texts words.now)) }
{
    match arguments(alloc, call_forms(word, words), words)? {
        Some(operands) => Ok(Some(CallLine { word, operands })),
        None => Ok(None),
    }
}
