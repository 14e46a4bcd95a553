//! Calls, read.

ghost use Rattle.std.specs.Prelude.{◌≡◌, pos, [], ◌∷◌, Some, IfOk, IfSome, codes};
ghost use Rattle.pth_base.specs.declared.call.Call.{Call};
ghost use Rattle.pth_line.specs.CallLines.{call_in};
ghost use Rattle.pth_line.specs.Script.{first_cells, first_frame};
ghost use Rattle.pth_operand.specs.Values.{scope};
ghost use Rattle.pth_spelling.specs.Texts.{texts};
ghost use Rattle.pth_transcript.specs.ReadBack.{IsScripted, IsReadBack};
ghost use Rattle.pth_transcript.specs.Readable.{IsReadable};

use crate::answer::bytes;
use pth_base::bytes::Bytes;
use pth_base::call::Call;
use pth_base::memory::OutOfMemory;
use pth_grammar::lines::line;
use pth_line::call_line::CallLine;
use pth_line::line::Line;
use pth_operand::cells::Cells;
use pth_operand::frame::{Frame, Owed};
use pth_spelling::start::Start;
use pth_text::number::read_number;
use std::alloc::Global;

/// A thread that has no answer yet: each register that a line names reads as 0.
fn unanswered(alloc: Global) -> Result<Frame, OutOfMemory>
    ensures { IfOk result (λ frame. frame ≡ first_frame 0 (pos 0)) }
{
    Ok(Frame {
        body: 0,
        line: 0,
        registers: [0; 16],
        error: 0,
        buffer: Bytes::from_slice(alloc, &[])?,
        message: 0,
        owed: Owed::Nothing,
    })
}

/// The call that a line of a script makes, in such a thread.
fn made(alloc: Global, line: &CallLine) -> Result<Call, OutOfMemory>
    ensures { IfOk result
        (λ made. made ≡ call_in (scope (first_frame 0 (pos 0)) first_cells) line.now) }
{
    let frame = unanswered(alloc)?;
    line.call(alloc, &frame, &Cells { cells: [0; 64] })
}

/// A call as a script has it.
fn script_call(alloc: Global, words: &[&[u8]]) -> Result<Option<Call>, OutOfMemory>
    ensures back { IfOk result
        (λ found. (c : Call) → IsScripted (texts words.now) c → found ≡ Some c) }
    ensures readable { IfOk result (λ found. IfSome found IsReadable) }
{
    match line(alloc, Start::of(words), words)? {
        Some(Line::Call { answer: None, call }) => Ok(Some(made(alloc, &call)?)),
        _ => Ok(None),
    }
}

/// A reply to a message, which a script does not name.
fn reply(m: &[u8], v: &[u8]) -> Option<Call>
    ensures back { IsReadBack (codes "reply" ∷ m.now ∷ v.now ∷ []) result }
    ensures readable { IfSome result IsReadable }
{
    Some(Call::Reply {
        m: read_number(m)?,
        v: read_number(v)?,
    })
}

/// A write of bytes.
fn write(alloc: Global, f: &[u8], word: &[u8]) -> Result<Option<Call>, OutOfMemory>
    ensures back { IfOk result
        (λ found. IsReadBack (codes "write" ∷ f.now ∷ word.now ∷ []) found) }
    ensures readable { IfOk result (λ found. IfSome found IsReadable) }
{
    let Some(f) = read_number(f) else {
        return Ok(None);
    };
    Ok(bytes(alloc, word)?.map(|bytes| Call::Write { f, bytes }))
}

/// A write of bytes that an event may end.
fn write_ev(alloc: Global, f: &[u8], word: &[u8], e: &[u8]) -> Result<Option<Call>, OutOfMemory>
    ensures back { IfOk result
        (λ found. IsReadBack (codes "write_ev" ∷ f.now ∷ word.now ∷ e.now ∷ []) found) }
    ensures readable { IfOk result (λ found. IfSome found IsReadable) }
{
    let (Some(f), Some(e)) = (read_number(f), read_number(e)) else {
        return Ok(None);
    };
    Ok(bytes(alloc, word)?.map(|bytes| Call::WriteEv { f, bytes, e }))
}

/// A call with its operands: the words that are printed of a call are read back as this call, and words can spell each call that is
/// read. A write may have more bytes than a script may give it.
pub fn call(alloc: Global, words: &[&[u8]]) -> Result<Option<Call>, OutOfMemory>
    ensures back { IfOk result (λ found. IsReadBack (texts words.now) found) }
    ensures readable { IfOk result (λ found. IfSome found IsReadable) }
{
    match words {
        [word, m, v] if *word == b"reply".as_slice() => Ok(reply(m, v)),
        [word, f, bytes] if *word == b"write".as_slice() => write(alloc, f, bytes),
        [word, f, bytes, e] if *word == b"write_ev".as_slice() => write_ev(alloc, f, bytes, e),
        _ => script_call(alloc, words),
    }
}
