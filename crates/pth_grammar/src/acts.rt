//! Acts of handlers, read.

ghost use Rattle.std.specs.Prelude.{◌≡◌, Some};
ghost use Rattle.pth_grammar.specs.LineMeanings.{act_with, act_by};
ghost use Rattle.pth_grammar.specs.Reading.{act_values};
ghost use Rattle.pth_spelling.specs.Texts.{texts};
ghost use Rattle.pth_spelling.specs.declared.keyword.Keyword.TheVariants as key;

use pth_line::act_line::ActLine;
use pth_operand::operand::Value;
use pth_spelling::keyword::Keyword;
use pth_spelling::words::{shared, value};

/// The values of an act.
#[derive(Clone, Copy)]
enum Values {
    One(Value),
    Two(Value, Value),
}

/// The values that words stand for, where they are one or two and each is a value.
#[tactic(auto, unfolding(crate::specs::Reading::act_values))]
fn read_values(words: &[&[u8]]) -> Option<Values>
    ensures { result ≡ act_values (texts words.now) }
{
    match words {
        [x] => Some(Values::One(value(x)?)),
        [x, y] => match (value(x), value(y)) {
            (Some(x), Some(y)) => Some(Values::Two(x, y)),
            _ => None,
        },
        _ => None,
    }
}

/// The act that a keyword stands for with its values.
fn act_with(keyword: Keyword, values: Values) -> Option<ActLine>
    ensures { result ≡ act_with keyword values }
{
    match (keyword, values) {
        (Keyword::Note, Values::One(x)) => Some(ActLine::Note(x)),
        (Keyword::Release, Values::One(x)) => Some(ActLine::Release(x)),
        (Keyword::Notify, Values::Two(x, y)) => Some(ActLine::Notify(x, y)),
        (Keyword::Put, Values::Two(x, y)) => Some(ActLine::Put(x, y)),
        (Keyword::SetKey, Values::Two(x, y)) => Some(ActLine::SetKey(x, y)),
        _ => None,
    }
}

fn set_act(words: &[&[u8]]) -> Option<ActLine>
    ensures { result ≡ act_by (Some key.Set) (texts words.now) }
{
    let [k, x] = words else {
        return None;
    };
    match (shared(k), value(x)) {
        (Some(cell), Some(value)) => Some(ActLine::Set { cell, value }),
        _ => None,
    }
}

/// The act that a keyword begins, by the words after it.
pub(crate) fn act_by(keyword: Option<Keyword>, words: &[&[u8]]) -> Option<ActLine>
    ensures { result ≡ act_by keyword (texts words.now) }
{
    match keyword? {
        Keyword::Set => set_act(words),
        keyword => act_with(keyword, read_values(words)?),
    }
}
