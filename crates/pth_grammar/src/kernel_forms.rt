//! The words that must follow the first word of a line of a kernel.

ghost use Rattle.std.specs.Prelude.{◌≡◌, option_map};
ghost use Rattle.pth_grammar.specs.KernelForms.{entry_forms, at_forms, kernel_forms};
ghost use Rattle.pth_spelling.specs.Texts.{texts};

use crate::kernel_part::KernelPart;
use pth_kernel::trace::{LATEST_TIME, MOST_CLOCK, MOST_ROOM};
use pth_spelling::first_word::entry_word;
use pth_spelling::form::Form;
use pth_spelling::keyword::{EntryWord, Keyword};

/// How many microseconds a turn takes.
const CLOCK: Form = Form::Within {
    least: 0,
    most: MOST_CLOCK,
};

/// The time of a stamp, in microseconds.
const TIME: Form = Form::Within {
    least: 0,
    most: LATEST_TIME,
};

/// For how many bytes more there is room.
const ROOM: Form = Form::Within {
    least: 1,
    most: MOST_ROOM,
};

fn entry_forms(entry: Option<EntryWord>) -> &'static [Form]
    ensures { result.now ≡ entry_forms entry }
{
    match entry {
        Some(EntryWord::In) => &[TIME, Form::Descriptor, Form::Entry, Form::Pairs],
        Some(EntryWord::Room) => &[TIME, Form::Descriptor, Form::Entry, ROOM],
        Some(EntryWord::Conn) => &[TIME, Form::Descriptor, Form::Entry, Form::Descriptor],
        _ => &[TIME, Form::Descriptor, Form::Entry],
    }
}

fn at_forms(words: &[&[u8]]) -> &'static [Form]
    ensures { result.now ≡ at_forms (texts words.now) }
{
    match words {
        [_, _, entry, ..] => entry_forms(entry_word(entry)),
        _ => &[TIME, Form::Descriptor, Form::Entry],
    }
}

/// The forms of the words after a keyword, or none if it may not begin a line of the part.
pub fn kernel_forms(part: KernelPart, keyword: Keyword, words: &[&[u8]]) -> Option<&'static [Form]>
    ensures { option_map (λ f. f.now) result ≡ kernel_forms part keyword (texts words.now) }
{
    match (part, keyword) {
        (KernelPart::Head, Keyword::Clock) => Some(&[CLOCK]),
        (KernelPart::Head | KernelPart::Opens, Keyword::Open) => Some(&[Form::Descriptor]),
        (_, Keyword::At) => Some(at_forms(words)),
        _ => None,
    }
}
