//! The operands of call lines, read.

ghost use Rattle.std.specs.Prelude.{◌≡◌, IfOk};
ghost use Rattle.pth_grammar.specs.CallLines.{argument_of, arguments_of, choice_of};
ghost use Rattle.pth_spelling.specs.Texts.{texts};
ghost use Rattle.pth_spelling.specs.declared.form.Form.TheVariants as form;

use pth_base::memory::OutOfMemory;
use pth_line::argument::{Argument, Arguments, NameArgument};
use pth_spelling::first_word::new_event_word;
use pth_spelling::form::Form;
use pth_spelling::words::{
    bytes, direction, field, goals, maybe_name, maybe_operand, mode, name, operand, query, set,
    state, which,
};
use std::alloc::Global;

/// The operand that a word of a list names.
fn choice(form: Form, word: &[u8]) -> Option<Argument>
    ensures { result ≡ choice_of form word.now }
{
    match form {
        Form::Goals => goals(word).map(Argument::Goals),
        Form::Which => which(word).map(Argument::Which),
        Form::Mode => mode(word).map(Argument::Mode),
        Form::Direction => direction(word).map(Argument::Walk),
        Form::Field => field(word).map(Argument::Field),
        Form::State => state(word).map(Argument::State),
        Form::Query => query(word).map(Argument::Query),
        Form::Event => new_event_word(word).map(Argument::Event),
        _ => None,
    }
}

fn name_argument(alloc: Global, word: &[u8]) -> Result<Option<Argument>, OutOfMemory>
    ensures { IfOk result (λ found. found ≡ argument_of form.Name word.now) }
{
    match name(word) {
        Some(name) => Ok(Some(Argument::Name(NameArgument::new(alloc, name)?))),
        None => Ok(None),
    }
}

fn maybe_name_argument(alloc: Global, word: &[u8]) -> Result<Option<Argument>, OutOfMemory>
    ensures { IfOk result (λ found. found ≡ argument_of form.MaybeName word.now) }
{
    match maybe_name(word) {
        Some(Some(name)) => {
            let name = NameArgument::new(alloc, name)?;
            Ok(Some(Argument::MaybeName(Some(name))))
        }
        Some(None) => Ok(Some(Argument::MaybeName(None))),
        None => Ok(None),
    }
}

/// The operand of a form that a word spells.
fn argument(alloc: Global, form: Form, word: &[u8]) -> Result<Option<Argument>, OutOfMemory>
    ensures { IfOk result (λ found. found ≡ argument_of form word.now) }
{
    match form {
        Form::Operand => Ok(operand(word).map(Argument::Number)),
        Form::MaybeOperand => Ok(maybe_operand(word).map(Argument::MaybeNumber)),
        Form::Name => name_argument(alloc, word),
        Form::MaybeName => maybe_name_argument(alloc, word),
        Form::Set => Ok(set(word).map(Argument::Set)),
        Form::Bytes => Ok(bytes(alloc, word)?.map(Argument::Bytes)),
        _ => Ok(choice(form, word)),
    }
}

/// The operands that words spell, one for each form.
#[tactic(auto, using(crate::proofs::ArgumentLemmas::other_count, crate::proofs::ArgumentLemmas::all_left, crate::proofs::ArgumentLemmas::none_left))]
pub(crate) fn arguments(
    alloc: Global,
    forms: &[Form],
    words: &[&[u8]],
) -> Result<Option<Arguments>, OutOfMemory>
    ensures { IfOk result (λ found. found ≡ arguments_of forms.now (texts words.now)) }
{
    if forms.len() != words.len() {
        return Ok(None);
    }
    let mut arguments = Arguments::with_room(alloc, forms.len())?;
    for i in 0..forms.len() {
        let Some(argument) = argument(alloc, forms[i], words[i])? else {
            return Ok(None);
        };
        arguments.push(argument)?;
    }
    Ok(Some(arguments))
}
