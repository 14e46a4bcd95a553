//! What the lines of a kernel stand for.

ghost use Rattle.std.specs.Prelude.{◌≡◌, IfOk};
ghost use Rattle.pth_grammar.specs.KernelLines.{clock_line, open_line, entry_alone, entry_with, entry_by, stamp_of, stamp_line};
ghost use Rattle.pth_spelling.specs.Starts.{begins};
ghost use Rattle.pth_spelling.specs.Texts.{texts};

use crate::kernel_numbers::{clock, room, time};
use pth_base::ids::{Fd, Micros};
use pth_base::memory::OutOfMemory;
use pth_kernel::trace::{Entry, Stamp};
use pth_spelling::first_word::entry_word;
use pth_spelling::keyword::{EntryWord, Keyword};
use pth_spelling::words::descriptor;
use pth_text::hex::read_hex;
use std::alloc::Global;

/// How many microseconds a turn takes, by a line that begins with `clock`. The keyword is the one that begins the line.
#[tactic(auto, unfolding(crate::specs::KernelLines::clock_line))]
pub fn clock_line(keyword: Option<Keyword>, words: &[&[u8]]) -> Option<Micros>
    requires { keyword ≡ begins (texts words.now) }
    ensures { result ≡ clock_line (texts words.now) }
{
    match (keyword, words) {
        (Some(Keyword::Clock), [_, word]) => clock(word),
        _ => None,
    }
}

/// The number of the descriptor that a line names which begins with `open`, from 0 to 63. The keyword is the one that begins the line.
#[tactic(auto, unfolding(crate::specs::KernelLines::open_line))]
pub fn open_line(keyword: Option<Keyword>, words: &[&[u8]]) -> Option<u8>
    requires { keyword ≡ begins (texts words.now) }
    ensures { result ≡ open_line (texts words.now) }
{
    match (keyword, words) {
        (Some(Keyword::Open), [_, word]) => descriptor(word),
        _ => None,
    }
}

/// An entry of one word.
fn entry_alone(word: EntryWord) -> Option<Entry>
    ensures { result ≡ entry_alone word }
{
    match word {
        EntryWord::Eof => Some(Entry::Eof),
        EntryWord::Up => Some(Entry::Up),
        EntryWord::Refuse => Some(Entry::Refuse),
        EntryWord::Exc => Some(Entry::Exc),
        EntryWord::Err => Some(Entry::Fault),
        _ => None,
    }
}

/// An entry with a word more.
fn entry_with(alloc: Global, word: EntryWord, operand: &[u8]) -> Result<Option<Entry>, OutOfMemory>
    ensures { IfOk result (λ found. found ≡ entry_with word operand.now) }
{
    match word {
        EntryWord::In => Ok(read_hex(alloc, operand)?.map(|bytes| Entry::Arrive(bytes))),
        EntryWord::Room => Ok(room(operand).map(|n| Entry::Room(n))),
        EntryWord::Conn => Ok(descriptor(operand).map(|g| Entry::Conn(Fd(g)))),
        _ => Ok(None),
    }
}

/// The entry that a word stands for with those after it.
fn entry_by(
    alloc: Global,
    word: Option<EntryWord>,
    operands: &[&[u8]],
) -> Result<Option<Entry>, OutOfMemory>
    ensures { IfOk result (λ found. found ≡ entry_by word (texts operands.now)) }
{
    match (word, operands) {
        (Some(word), []) => Ok(entry_alone(word)),
        (Some(word), [operand]) => entry_with(alloc, word, operand),
        _ => Ok(None),
    }
}

/// A time, a descriptor and an entry.
fn stamp(alloc: Global, words: &[&[u8]]) -> Result<Option<Stamp>, OutOfMemory>
    ensures { IfOk result (λ found. found ≡ stamp_of (texts words.now)) }
{
    let [t, f, entry, operands @ ..] = words else {
        return Ok(None);
    };
    let (Some(at), Some(fd)) = (time(t), descriptor(f)) else {
        return Ok(None);
    };
    let Some(what) = entry_by(alloc, entry_word(entry), operands)? else {
        return Ok(None);
    };
    Ok(Some(Stamp {
        at,
        fd: Fd(fd),
        what,
    }))
}

/// What comes by a line that begins with `at`. The keyword is the one that begins the line.
#[tactic(auto, unfolding(crate::specs::KernelLines::stamp_line))]
pub fn stamp_line(
    alloc: Global,
    keyword: Option<Keyword>,
    words: &[&[u8]],
) -> Result<Option<Stamp>, OutOfMemory>
    requires { keyword ≡ begins (texts words.now) }
    ensures { IfOk result (λ found. found ≡ stamp_line (texts words.now)) }
{
    match (keyword, words) {
        (Some(Keyword::At), [_, words @ ..]) => stamp(alloc, words),
        _ => Ok(None),
    }
}
