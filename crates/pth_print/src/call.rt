//! Calls as words.

ghost use Rattle.std.specs.Prelude.{◌≡◌, None};
ghost use Rattle.pth_base.specs.Facilities.{facility_of};
ghost use Rattle.pth_print.specs.Adding.{AddsText};
ghost use Rattle.pth_print.specs.SpacedWords.{spaced};
ghost use Rattle.pth_print.specs.CallWords.{call_words};

use crate::call_parts::parts_of;
use crate::parts::add_parts;
use crate::word::Word::{Number, Plain};
use crate::word::add_words;
use pth_base::call::Call;
use pth_base::memory::OutOfMemory;
use pth_text::text::Text;

/// Adds the words of a line of a body that calls nothing, each after a space.
fn add_plain_line(call: &Call, out: &mut Text) -> Result<(), OutOfMemory>
    requires { facility_of call.now ≡ None }
    ensures { AddsText out.old out.new result (spaced (call_words call.now)) }
{
    match call {
        Call::Plain => add_words(&[Plain(b"plain")], out),
        Call::Note(v) => add_words(&[Plain(b"note"), Number(v)], out),
        _ => unreachable!(),
    }
}

/// Adds the words of a call, each after a space.
pub fn add_call(call: &Call, out: &mut Text) -> Result<(), OutOfMemory>
    ensures { AddsText out.old out.new result (spaced (call_words call.now)) }
{
    match call.facility() {
        Some(facility) => add_parts(&parts_of(call, facility), out),
        None => add_plain_line(call, out),
    }
}
