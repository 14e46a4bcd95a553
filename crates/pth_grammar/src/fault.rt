//! The rules that the words of a line break.

ghost use Rattle.std.specs.Prelude.{◌≡◌};
ghost use Rattle.std.specs.List.{find};
ghost use Rattle.pth_grammar.specs.Shapes.{Asks, words_break, word_rules, words_fault};
ghost use Rattle.pth_spelling.specs.Starts.{start_of};
ghost use Rattle.pth_spelling.specs.Texts.{texts};

use crate::section::Section;
use crate::shape::{Shape, shape_of};
use pth_spelling::form::Form;
use pth_spelling::rules::{are_fine, wrong};
use pth_spelling::start::Start;
use pth_text::rule::Rule;

/// The first rule that words break whose forms are known, asked rule by rule.
#[tactic(auto, unfolding(crate::specs::Shapes::words_break))]
fn first_fault(forms: &[Form], words: &[&[u8]]) -> Option<Rule>
    ensures { result ≡ find (λ r. words_break r (Asks forms.now (texts words.now))) word_rules }
{
    if wrong(Rule::Word, forms, words) {
        Some(Rule::Word)
    } else if forms.len() != words.len() {
        Some(Rule::Count)
    } else if wrong(Rule::Operand, forms, words) {
        Some(Rule::Operand)
    } else if wrong(Rule::Hex, forms, words) {
        Some(Rule::Hex)
    } else {
        None
    }
}

/// The first rule that words break whose forms are known.
fn forms_fault(forms: &[Form], words: &[&[u8]]) -> Option<Rule>
    ensures { result ≡ find (λ r. words_break r (Asks forms.now (texts words.now))) word_rules }
{
    if forms.len() != words.len() {
        return first_fault(forms, words);
    }
    if are_fine(forms, words) {
        return None;
    }
    first_fault(forms, words)
}

/// The first of the rules on words that the words of a line break, by how it begins.
#[tactic(auto, unfolding(crate::specs::Shapes::words_break, crate::specs::Shapes::words_fault))]
pub fn words_fault(section: Section, start: Start, words: &[&[u8]]) -> Option<Rule>
    requires { start ≡ start_of (texts words.now) }
    ensures { result ≡ words_fault section (texts words.now) }
{
    match shape_of(start, section, words) {
        Shape::Unknown => Some(Rule::Word),
        Shape::Short => Some(Rule::Count),
        Shape::Unequal => Some(Rule::Operand),
        Shape::Asks { forms, words } => forms_fault(forms, words),
    }
}
