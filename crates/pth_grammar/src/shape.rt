//! What a line asks of its words.

ghost use Rattle.std.specs.Prelude.{◌≡◌, option_map, option_and_then};
ghost use Rattle.pth_grammar.specs.Asked.{asked};
ghost use Rattle.pth_grammar.specs.Forms.{call_forms};
ghost use Rattle.pth_grammar.specs.Shapes.{shape_by_forms, after_register, shape_begun, shape_of};
ghost use Rattle.pth_spelling.specs.Starts.{start_of};
ghost use Rattle.pth_spelling.specs.Texts.{texts};

use crate::forms::{call_forms, forms_of};
use crate::section::Section;
use pth_spelling::form::Form;
use pth_spelling::keyword::CallWord;
use pth_spelling::start::Start;

/// What a line asks of its words.
#[derive(Clone, Copy)]
pub(crate) enum Shape<'a> {
    /// A word may not stand where it does.
    Unknown,
    /// A register is followed by less than a call.
    Short,
    /// A register is not followed by `=`.
    Unequal,
    /// Forms, and the words that must have them.
    Asks {
        forms: &'static [Form],
        words: &'a [&'a [u8]],
    },
}

fn shape_by_forms<'a>(forms: Option<&'static [Form]>, words: &'a [&'a [u8]]) -> Shape<'a>
    ensures { asked result ≡ shape_by_forms (texts words.now) (option_map (λ f. f.now) forms.entry) }
{
    match forms {
        Some(forms) => Shape::Asks { forms, words },
        None => Shape::Unknown,
    }
}

/// What is asked of the words after a register. The call is the one that they name, if they name one.
fn after_register<'a>(call: Option<CallWord>, words: &'a [&'a [u8]]) -> Shape<'a>
    ensures { asked result ≡ after_register call (texts words.now) }
{
    match words {
        [equals, _, words @ ..] => {
            if *equals != b"=".as_slice() {
                return Shape::Unequal;
            }
            match call {
                Some(word) => shape_by_forms(Some(call_forms(word, words)), words),
                None => Shape::Unknown,
            }
        }
        _ => Shape::Short,
    }
}

/// What is asked of the words after the first, by how the line begins.
fn shape_begun<'a>(start: Start, section: Section, words: &'a [&'a [u8]]) -> Shape<'a>
    ensures { asked result ≡ shape_begun start section (texts words.now) }
{
    match (start, section) {
        (Start::Word(None), _) => Shape::Unknown,
        (Start::Word(Some(keyword)), _) => {
            shape_by_forms(forms_of(section, keyword, words), words)
        }
        (Start::Answer(_, call), Section::Body) => after_register(call, words),
        (Start::Answer(_, _), _) => Shape::Unknown,
    }
}

/// What a line asks where it stands, by how it begins.
#[tactic(auto, unfolding(crate::specs::Shapes::shape_of))]
pub(crate) fn shape_of<'a>(start: Start, section: Section, words: &'a [&'a [u8]]) -> Shape<'a>
    requires { start ≡ start_of (texts words.now) }
    ensures { asked result ≡ shape_of section (texts words.now) }
{
    match words {
        [] => shape_begun(start, section, words),
        [_, words @ ..] => shape_begun(start, section, words),
    }
}
