//! Operands of calls as words.

ghost use Rattle.std.specs.Prelude.{◌≡◌};
ghost use Rattle.pth_spelling.specs.Syntax.{new_event_syntax};
ghost use Rattle.pth_spelling.specs.Args as arg;
ghost use Rattle.pth_print.specs.ArgWords.{arg_word, field_word, goals_word, mode_word, query_word, state_word, walk_word, which_word};
ghost use Rattle.pth_print.specs.Parts.{asked};
ghost use Rattle.pth_print.specs.WordTexts.{word_text};

use crate::word::Word;
use crate::word::Word::{Number, Plain};
use pth_base::attr::AttrField;
use pth_base::name::Name;
use pth_base::query::Query;
use pth_base::thread::ThreadState;
use pth_spelling::keyword::{CallWord, EventWord, NewEventWord};

/// A number, or `-` for none.
pub fn maybe_number(number: &Option<i64>) -> Word<'_>
    ensures { word_text result ≡ arg_word (arg.MaybeNumber number.now) }
{
    match number {
        Some(n) => Number(n),
        None => Plain(b"-"),
    }
}

/// A name.
pub fn name_word(name: &Name) -> Word<'_>
    ensures { word_text result ≡ name.now }
{
    Plain(name.as_str().as_bytes())
}

/// A name, or `-` for none.
pub fn maybe_name(name: &Option<Name>) -> Word<'_>
    ensures { word_text result ≡ arg_word (arg.MaybeName name.now) }
{
    match name {
        Some(name) => name_word(name),
        None => Plain(b"-"),
    }
}

/// The kind of a new event.
pub fn event_word(kind: NewEventWord) -> Word<'static>
    ensures { word_text result ≡ (new_event_syntax kind).text }
{
    Plain(CallWord::Events(EventWord::New(kind)).text().as_bytes())
}

/// The letters of goals: `r`, `w` and `x`.
pub fn goals_word(goals: u8) -> &'static [u8]
    ensures { result.now ≡ goals_word goals }
{
    match (goals % 2 == 1, goals / 2 % 2 == 1, goals / 4 % 2 == 1) {
        (false, false, false) => b"",
        (true, false, false) => b"r",
        (false, true, false) => b"w",
        (true, true, false) => b"rw",
        (false, false, true) => b"x",
        (true, false, true) => b"rx",
        (false, true, true) => b"wx",
        (true, true, true) => b"rwx",
    }
}

/// The name of a thread's state.
pub fn state_word(state: ThreadState) -> &'static [u8]
    ensures { result.now ≡ state_word state }
{
    match state {
        ThreadState::New => b"new",
        ThreadState::Ready => b"ready",
        ThreadState::Running => b"running",
        ThreadState::Waiting => b"waiting",
        ThreadState::Dead => b"dead",
    }
}

/// The direction of a walk round a ring.
pub fn walk_word(forward: bool, until_occurred: bool) -> &'static [u8]
    ensures { result.now ≡ walk_word forward until_occurred }
{
    match (forward, until_occurred) {
        (true, false) => b"next",
        (false, false) => b"prev",
        (true, true) => b"next_occurred",
        (false, true) => b"prev_occurred",
    }
}

/// Which events are freed.
pub fn which_word(all: bool) -> &'static [u8]
    ensures { result.now ≡ which_word all }
{
    if all { b"all" } else { b"this" }
}

/// The name of a field.
pub fn field_word(field: AttrField) -> &'static [u8]
    ensures { result.now ≡ field_word field }
{
    match field {
        AttrField::Prio => b"prio",
        AttrField::Name => b"name",
        AttrField::Joinable => b"joinable",
        AttrField::Cancel => b"cancel",
        AttrField::Dispatches => b"dispatches",
        AttrField::State => b"state",
        AttrField::Bound => b"bound",
    }
}

/// How a read-write lock is taken.
pub fn mode_word(write: bool) -> &'static [u8]
    ensures { result.now ≡ mode_word write }
{
    if write { b"rw" } else { b"rd" }
}

/// What is asked, as a word.
pub fn query_word(query: &Query) -> &'static [u8]
    ensures { result.now ≡ query_word (asked query.now) }
{
    match query {
        Query::Threads => b"threads",
        Query::New => b"new",
        Query::Ready => b"ready",
        Query::Running => b"running",
        Query::Waiting => b"waiting",
        Query::Suspended => b"suspended",
        Query::Dead => b"dead",
        Query::Favournew(_) => b"favournew",
        Query::Prio(_) => b"prio",
        Query::Name(_) => b"name",
    }
}
