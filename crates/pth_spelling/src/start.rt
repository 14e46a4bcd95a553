//! How lines begin.

ghost use Rattle.std.specs.Prelude.{◌≡◌, ℕ, List, Some};
ghost use Rattle.pth_spelling.specs.Starts.{begins, called, start_of};
ghost use Rattle.pth_spelling.specs.Texts.{texts};

use crate::first_word::{call_word, keyword};
use crate::keyword::{CallWord, Keyword};
use crate::words::register;
use pth_operand::operand::Register;

/// How a line begins.
#[derive(Clone, Copy)]
pub enum Start {
    /// With a keyword, or with none where its first word is not known.
    Word(Option<Keyword>),
    /// With a register. The call is the one that is named after `=`, if one is.
    Answer(Register, Option<CallWord>),
}

impl Start {
    /// How a line of words begins.
    #[tactic(auto, unfolding(crate::specs::Starts::start_of))]
    pub fn of(words: &[&[u8]]) -> Start
        ensures { result ≡ start_of (texts words.now) }
    {
        let [word, operands @ ..] = words else {
            return Start::Word(None);
        };
        match register(word) {
            Some(register) => Start::Answer(register, called(operands)),
            None => Start::Word(keyword(word)),
        }
    }

    /// The keyword that begins the line. A line that begins with a register has none.
    pub fn keyword(self) -> Option<Keyword>
        ensures { (ws : List (List ℕ)) → self ≡ start_of ws → result ≡ begins ws }
    {
        match self {
            Start::Word(keyword) => keyword,
            Start::Answer(_, _) => None,
        }
    }
}

/// The call that words after a register name.
fn called(words: &[&[u8]]) -> Option<CallWord>
    ensures { result ≡ called (texts words.now) }
{
    match words {
        [_, word, ..] => call_word(word),
        _ => None,
    }
}
