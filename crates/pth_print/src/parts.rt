//! Calls in parts.

ghost use Rattle.std.specs.Prelude.{◌≡◌, [], ◌∷◌, take};
ghost use Rattle.pth_spelling.specs.Syntax.{syntax_of};
ghost use Rattle.pth_print.specs.Adding.{AddsText};
ghost use Rattle.pth_print.specs.SpacedWords.{spaced};
ghost use Rattle.pth_print.specs.WordTexts.{spelled, word_text};

use crate::word::Word::Natural;
use crate::word::{Word, add_text, add_words};
use pth_base::memory::OutOfMemory;
use pth_spelling::keyword::CallWord;
use pth_text::text::Text;

/// Which call it is, and its operands in order: the first `count` words of five.
#[derive(Clone, Copy)]
pub struct Parts<'a> {
    pub word: &'static str,
    pub operands: [Word<'a>; 5],
    pub count: usize,
}

/// A call without operands.
#[inline(always)]
pub fn alone(word: CallWord) -> Parts<'static>
    ensures { spelled result ≡ (syntax_of word).text ∷ [] }
{
    Parts {
        word: word.text(),
        operands: [Natural(0), Natural(0), Natural(0), Natural(0), Natural(0)],
        count: 0,
    }
}

/// A call with one operand.
#[inline(always)]
pub fn one<'a>(word: CallWord, a: Word<'a>) -> Parts<'a>
    ensures { spelled result ≡ (syntax_of word).text ∷ word_text a.entry ∷ [] }
{
    Parts {
        word: word.text(),
        operands: [a, Natural(0), Natural(0), Natural(0), Natural(0)],
        count: 1,
    }
}

/// A call with two operands.
#[inline(always)]
pub fn two<'a>(word: CallWord, a: Word<'a>, b: Word<'a>) -> Parts<'a>
    ensures { spelled result ≡ (syntax_of word).text ∷ word_text a.entry ∷ word_text b.entry ∷ [] }
{
    Parts {
        word: word.text(),
        operands: [a, b, Natural(0), Natural(0), Natural(0)],
        count: 2,
    }
}

/// A call with three operands.
#[inline(always)]
pub fn three<'a>(word: CallWord, a: Word<'a>, b: Word<'a>, c: Word<'a>) -> Parts<'a>
    ensures { spelled result ≡ (syntax_of word).text ∷ word_text a.entry ∷ word_text b.entry ∷ word_text c.entry ∷ [] }
{
    Parts {
        word: word.text(),
        operands: [a, b, c, Natural(0), Natural(0)],
        count: 3,
    }
}

/// A call with four operands.
#[inline(always)]
pub fn four<'a>(word: CallWord, a: Word<'a>, b: Word<'a>, c: Word<'a>, d: Word<'a>) -> Parts<'a>
    ensures { spelled result ≡ (syntax_of word).text ∷ word_text a.entry ∷ word_text b.entry ∷ word_text c.entry ∷ word_text d.entry ∷ [] }
{
    Parts {
        word: word.text(),
        operands: [a, b, c, d, Natural(0)],
        count: 4,
    }
}

/// A call with five operands.
#[inline(always)]
pub fn five<'a>(
    word: CallWord,
    a: Word<'a>,
    b: Word<'a>,
    c: Word<'a>,
    d: Word<'a>,
    e: Word<'a>,
) -> Parts<'a>
    ensures { spelled result ≡ (syntax_of word).text ∷ word_text a.entry ∷ word_text b.entry ∷ word_text c.entry ∷ word_text d.entry ∷ word_text e.entry ∷ [] }
{
    Parts {
        word: word.text(),
        operands: [a, b, c, d, e],
        count: 5,
    }
}

/// The operands.
fn operands_of<'a>(parts: &'a Parts<'a>) -> &'a [Word<'a>]
    ensures { result.now ≡ take parts.now.count parts.now.operands }
{
    if parts.count < 5 {
        &parts.operands[..parts.count]
    } else {
        &parts.operands
    }
}

/// Adds the word of a call and its operands, each after a space.
pub fn add_parts(parts: &Parts<'_>, out: &mut Text) -> Result<(), OutOfMemory>
    ensures { AddsText out.old out.new result (spaced (spelled parts.now)) }
{
    add_text(parts.word, out)?;
    add_words(operands_of(parts), out)
}
