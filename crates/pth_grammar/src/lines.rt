//! What the words of a line stand for.

ghost use Rattle.std.specs.Prelude.{◌≡◌, IfOk, Some, option_map};
ghost use Rattle.pth_grammar.specs.CallLines.{call_line};
ghost use Rattle.pth_line.specs.declared.line.Line.TheVariants as bodies;
ghost use Rattle.pth_grammar.specs.LineMeanings.{plain_line, line_by, line_begun, line_of, act_begun, act_of, check_of, numbered};
ghost use Rattle.pth_spelling.specs.Starts.{start_of};
ghost use Rattle.pth_spelling.specs.Texts.{texts};
ghost use Rattle.pth_spelling.specs.declared.keyword.Keyword.TheVariants as key;
ghost use Rattle.pth_spelling.specs.declared.start.Start.TheVariants as starts;

use crate::acts::act_by;
use crate::call_line::call_line;
use pth_base::memory::OutOfMemory;
use pth_line::act_line::ActLine;
use pth_line::check::Check;
use pth_line::line::Line;
use pth_operand::operand::{Operand, Register};
use pth_spelling::keyword::{CallWord, Keyword};
use pth_spelling::start::Start;
use pth_spelling::words::{natural, operand, register, relation, value};
use std::alloc::Global;

/// The number that is not negative and follows the first word.
#[tactic(auto, unfolding(crate::specs::LineMeanings::numbered))]
pub fn numbered(words: &[&[u8]]) -> Option<i64>
    ensures { result ≡ numbered (texts words.now) }
{
    match words {
        [_, number, ..] => natural(number),
        _ => None,
    }
}

/// The register and the number of a `set` or an `add`.
fn register_and_operand(words: &[&[u8]]) -> Option<(Register, Operand)>
    ensures set { option_map (λ read. bodies.Set read.0 read.1) result ≡ plain_line key.Set (texts words.now) }
    ensures add { option_map (λ read. bodies.Add read.0 read.1) result ≡ plain_line key.Add (texts words.now) }
{
    let [r, x] = words else {
        return None;
    };
    match (register(r), operand(x)) {
        (Some(register), Some(value)) => Some((register, value)),
        _ => None,
    }
}

fn note_line(words: &[&[u8]]) -> Option<Line>
    ensures { result ≡ plain_line key.Note (texts words.now) }
{
    match words {
        [x] => Some(Line::Note(operand(x)?)),
        _ => None,
    }
}

fn label_line(words: &[&[u8]]) -> Option<Line>
    ensures { result ≡ plain_line key.Label (texts words.now) }
{
    match words {
        [k] => Some(Line::Label(natural(k)?)),
        _ => None,
    }
}

fn goto_line(words: &[&[u8]]) -> Option<Line>
    ensures { result ≡ plain_line key.Goto (texts words.now) }
{
    let [k, x, r, y] = words else {
        return None;
    };
    match (natural(k), operand(x), relation(r), operand(y)) {
        (Some(label), Some(left), Some(relation), Some(right)) => Some(Line::Goto {
            label,
            to: 0,
            left,
            relation,
            right,
        }),
        _ => None,
    }
}

/// A line that makes no call.
fn plain_line(keyword: Keyword, words: &[&[u8]]) -> Option<Line>
    ensures { result ≡ plain_line keyword (texts words.now) }
{
    match keyword {
        Keyword::Set => {
            let (register, value) = register_and_operand(words)?;
            Some(Line::Set { register, value })
        }
        Keyword::Add => {
            let (register, value) = register_and_operand(words)?;
            Some(Line::Add { register, value })
        }
        Keyword::Note => note_line(words),
        Keyword::Label => label_line(words),
        Keyword::Goto => goto_line(words),
        _ => None,
    }
}

fn line_by(
    alloc: Global,
    keyword: Option<Keyword>,
    words: &[&[u8]],
) -> Result<Option<Line>, OutOfMemory>
    ensures { IfOk result (λ found. found ≡ line_by keyword (texts words.now)) }
{
    match keyword {
        Some(Keyword::Call(word)) => {
            let Some(call) = call_line(alloc, word, words)? else {
                return Ok(None);
            };
            Ok(Some(Line::Call { answer: None, call }))
        }
        Some(keyword) => Ok(plain_line(keyword, words)),
        None => Ok(None),
    }
}

/// `=` and a call line after a register.
fn answered_line(
    alloc: Global,
    answer: Register,
    word: Option<CallWord>,
    words: &[&[u8]],
) -> Result<Option<Line>, OutOfMemory>
    ensures { IfOk result (λ found. found ≡ line_begun (starts.Answer answer word) (texts words.now)) }
{
    let (Some(word), [_, _, operands @ ..]) = (word, words) else {
        return Ok(None);
    };
    let Some(call) = call_line(alloc, word, operands)? else {
        return Ok(None);
    };
    Ok(Some(Line::Call {
        answer: Some(answer),
        call,
    }))
}

/// A line of a body, by how it begins and the words after its first.
fn line_begun(alloc: Global, start: Start, words: &[&[u8]]) -> Result<Option<Line>, OutOfMemory>
    ensures { IfOk result (λ found. found ≡ line_begun start (texts words.now)) }
{
    match start {
        Start::Word(keyword) => line_by(alloc, keyword, words),
        Start::Answer(answer, word) => answered_line(alloc, answer, word, words),
    }
}

/// A line of a body, by how it begins. The place to which a `goto` goes is not known from the line alone, and 0 stands for it.
#[tactic(auto, unfolding(crate::specs::LineMeanings::line_of))]
pub fn line(alloc: Global, start: Start, words: &[&[u8]]) -> Result<Option<Line>, OutOfMemory>
    requires { start ≡ start_of (texts words.now) }
    ensures { IfOk result (λ found. found ≡ line_of (texts words.now)) }
{
    match words {
        [] => line_begun(alloc, start, words),
        [_, words @ ..] => line_begun(alloc, start, words),
    }
}

/// An act of a handler, by how its line begins and the words after its first.
fn act_begun(start: Start, words: &[&[u8]]) -> Option<ActLine>
    ensures { result ≡ act_begun start (texts words.now) }
{
    match start {
        Start::Word(keyword) => act_by(keyword, words),
        Start::Answer(_, _) => None,
    }
}

/// An act of a handler, by how its line begins.
#[tactic(auto, unfolding(crate::specs::LineMeanings::act_of))]
pub fn act_line(start: Start, words: &[&[u8]]) -> Option<ActLine>
    requires { start ≡ start_of (texts words.now) }
    ensures { result ≡ act_of (texts words.now) }
{
    match words {
        [] => act_begun(start, words),
        [_, words @ ..] => act_begun(start, words),
    }
}

/// What a line that begins with `check` stands for, without its number.
#[tactic(auto, unfolding(crate::specs::LineMeanings::check_of))]
pub fn check_line(words: &[&[u8]]) -> Option<Check>
    ensures { result ≡ check_of (texts words.now) }
{
    let [_, _, x, r, y] = words else {
        return None;
    };
    match (value(x), relation(r), value(y)) {
        (Some(left), Some(relation), Some(right)) => Some(Check {
            left,
            relation,
            right,
        }),
        _ => None,
    }
}
