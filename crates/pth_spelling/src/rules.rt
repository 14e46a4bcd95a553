//! The rules that words break by their forms.

ghost use Rattle.std.specs.Prelude.{◌≡◌};
ghost use Rattle.pth_spelling.specs.FormRules.{are_fine, has_form, has_pairs, is_fine, is_listed, misses, wrong};
ghost use Rattle.pth_spelling.specs.declared.form.Form.TheVariants as form;
ghost use Rattle.pth_spelling.specs.Texts.{texts};

use crate::first_word::{entry_word, new_event_word};
use crate::form::Form;
use crate::words::{
    descriptor, direction, field, goals, maybe_name, maybe_operand, mode, name, natural,
    number_within, operand, query, register, relation, set, shared, state, value, which,
};
use pth_text::hex::is_hex;
use pth_text::rule::Rule;

/// Whether a word of a list is one that is allowed there.
fn is_listed(form: Form, word: &[u8]) -> bool
    ensures { result ≡ is_listed form word.now }
{
    match form {
        Form::Relation => relation(word).is_some(),
        Form::Field => field(word).is_some(),
        Form::State => state(word).is_some(),
        Form::Mode => mode(word).is_some(),
        Form::Direction => direction(word).is_some(),
        Form::Query => query(word).is_some(),
        Form::Event => new_event_word(word).is_some(),
        Form::Entry => entry_word(word).is_some(),
        _ => true,
    }
}

/// Whether another word has its form and range.
fn has_form(form: Form, word: &[u8]) -> bool
    ensures { result ≡ has_form form word.now }
{
    match form {
        Form::Natural => natural(word).is_some(),
        Form::Operand => operand(word).is_some(),
        Form::MaybeOperand => maybe_operand(word).is_some(),
        Form::Register => register(word).is_some(),
        Form::Value => value(word).is_some(),
        Form::Shared => shared(word).is_some(),
        Form::Name => name(word).is_some(),
        Form::MaybeName => maybe_name(word).is_some(),
        Form::Set => set(word).is_some(),
        Form::Bytes => word == b"buf".as_slice() || word.starts_with(b"hex:"),
        Form::Goals => goals(word).is_some(),
        Form::Which => which(word).is_some(),
        Form::Within { least, most } => number_within(least, most, word).is_some(),
        Form::Descriptor => descriptor(word).is_some(),
        _ => true,
    }
}

/// Whether what follows `hex:` is nothing or pairs of digits.
fn has_given_pairs(word: &[u8]) -> bool
    ensures { result ≡ has_pairs form.Bytes word.now }
{
    match word.strip_prefix(b"hex:") {
        Some(digits) => digits.is_empty() || is_hex(digits),
        None => true,
    }
}

/// Whether the digits of a word are pairs.
fn has_pairs(form: Form, word: &[u8]) -> bool
    ensures { result ≡ has_pairs form word.now }
{
    match form {
        Form::Bytes => has_given_pairs(word),
        Form::Pairs => is_hex(word),
        _ => true,
    }
}

/// Whether a word breaks a rule by its form.
#[tactic(auto, unfolding(crate::specs::FormRules::misses))]
fn misses(rule: Rule, form: Form, word: &[u8]) -> bool
    ensures { result ≡ misses rule form word.now }
{
    match rule {
        Rule::Word => !is_listed(form, word),
        Rule::Operand => !has_form(form, word),
        Rule::Hex => !has_pairs(form, word),
        _ => false,
    }
}

/// Whether some word breaks a rule by its form. Each word is held to the form at its place, as far as there are both.
pub fn wrong(rule: Rule, forms: &[Form], words: &[&[u8]]) -> bool
    ensures { result ≡ wrong rule forms.now (texts words.now) }
{
    forms
        .iter()
        .zip(words.iter())
        .any(|(form, word)| misses(rule, *form, word))
}

/// Whether a word breaks no rule by its form.
#[tactic(auto, unfolding(crate::specs::FormRules::is_fine))]
fn is_fine(form: Form, word: &[u8]) -> bool
    ensures { result ≡ is_fine form word.now }
{
    match form {
        Form::Operand => operand(word).is_some(),
        _ => is_listed(form, word) && has_pairs(form, word) && has_form(form, word),
    }
}

/// Whether no word breaks a rule by its form. This is asked once in place of `wrong` for each rule.
pub fn are_fine(forms: &[Form], words: &[&[u8]]) -> bool
    ensures { result ≡ are_fine forms.now (texts words.now) }
{
    forms
        .iter()
        .zip(words.iter())
        .all(|(form, word)| is_fine(*form, *word))
}
