//! Acts of handlers as words.

ghost use Rattle.std.specs.Prelude.{◌∷◌, codes};
ghost use Rattle.pth_print.specs.Adding.{AddsText};
ghost use Rattle.pth_print.specs.AnswerWords.{answer_words};
ghost use Rattle.pth_print.specs.MarkLines.{acted_words};
ghost use Rattle.pth_print.specs.WordTexts.{number_word};
ghost use Rattle.pth_print.specs.SpacedWords.{spaced};

use crate::answer::add_answer_after;
use crate::word::Word::{Cell, Number, Plain};
use crate::word::add_words;
use pth_base::act::Act;
use pth_base::answer::Answer;
use pth_base::memory::OutOfMemory;
use pth_text::text::Text;

/// Adds an act that makes a call with two numbers, and the answer.
fn add_act_of_two<'a>(
    name: &'a [u8],
    a: &'a i64,
    b: &'a i64,
    answer: &Answer,
    out: &mut Text,
) -> Result<(), OutOfMemory>
    ensures { AddsText out.old out.new result (spaced (name.now ∷ number_word a.now ∷ number_word b.now ∷ codes "=" ∷ answer_words answer.now)) }
{
    add_answer_after(
        &[Plain(name), Number(a), Number(b), Plain(b"=")],
        answer,
        out,
    )
}

/// Adds a handler's act and its answer.
pub fn add_act(act: &Act, answer: &Answer, out: &mut Text) -> Result<(), OutOfMemory>
    ensures { AddsText out.old out.new result (spaced (acted_words act.now answer.now)) }
{
    match act {
        Act::Note(v) => add_words(&[Plain(b"note"), Number(v)], out),
        Act::Set(cell, v) => add_words(&[Plain(b"set"), Cell(*cell), Number(v)], out),
        Act::Release(m) => {
            add_answer_after(&[Plain(b"release"), Number(m), Plain(b"=")], answer, out)
        }
        Act::Notify(c, v) => add_act_of_two(b"notify", c, v, answer, out),
        Act::Put(p, v) => add_act_of_two(b"put", p, v, answer, out),
        Act::SetKey(k, v) => add_act_of_two(b"setkey", k, v, answer, out),
    }
}
