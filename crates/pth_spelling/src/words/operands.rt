//! Words that are registers, operands and values.

ghost use Rattle.std.specs.Prelude.{◌≡◌, IfOk};
ghost use Rattle.pth_spelling.specs.WordMeanings.{shared_of, own_of, register_of, operand_of, value_of, maybe, has_hex, given_of, bytes_of};

use crate::words::numbers::number_below;
use pth_base::bytes::Bytes;
use pth_base::memory::OutOfMemory;
use pth_operand::operand::{ByteOperand, Operand, Register, Value};
use pth_text::hex::read_hex;
use pth_text::number::read_number;
use std::alloc::Global;

/// The number of a shared register, `v0` to `v63`.
#[tactic(auto, unfolding(crate::specs::WordMeanings::shared_of))]
pub fn shared(word: &[u8]) -> Option<u8>
    ensures { result ≡ shared_of word.now }
{
    match word {
        [b'v', digits @ ..] => number_below(64, digits),
        _ => None,
    }
}

/// The number of a thread's own register, `a0` to `a15`.
#[tactic(auto, unfolding(crate::specs::WordMeanings::own_of))]
pub fn own(word: &[u8]) -> Option<u8>
    ensures { result ≡ own_of word.now }
{
    match word {
        [b'a', digits @ ..] => number_below(16, digits),
        _ => None,
    }
}

/// A register.
#[tactic(auto, unfolding(crate::specs::WordMeanings::register_of))]
pub fn register(word: &[u8]) -> Option<Register>
    ensures { result ≡ register_of word.now }
{
    if let Some(k) = own(word) {
        return Some(Register::Own(k));
    }
    Some(Register::Shared(shared(word)?))
}

/// A number of a body's line.
#[tactic(auto, unfolding(crate::specs::WordMeanings::operand_of))]
pub fn operand(word: &[u8]) -> Option<Operand>
    ensures { result ≡ operand_of word.now }
{
    if let Some(n) = read_number(word) {
        return Some(Operand::Number(n));
    }
    if word == b"err".as_slice() {
        return Some(Operand::Error);
    }
    Some(Operand::Register(register(word)?))
}

/// The same, or `-` for none.
pub fn maybe_operand(word: &[u8]) -> Option<Option<Operand>>
    ensures { result ≡ maybe operand_of word.now }
{
    if word == b"-".as_slice() {
        return Some(None);
    }
    Some(Some(operand(word)?))
}

/// A number of an act or a check.
#[tactic(auto, unfolding(crate::specs::WordMeanings::value_of))]
pub fn value(word: &[u8]) -> Option<Value>
    ensures { result ≡ value_of word.now }
{
    if let Some(n) = read_number(word) {
        return Some(Value::Number(n));
    }
    if word == b"arg".as_slice() {
        return Some(Value::Argument);
    }
    Some(Value::Shared(shared(word)?))
}

/// The bytes that follow `hex:`.
fn given(alloc: Global, digits: &[u8]) -> Result<Option<Bytes>, OutOfMemory>
    ensures { IfOk result (λ found. found ≡ given_of digits.now) }
{
    if digits.is_empty() {
        return Ok(Some(Bytes::from_slice(alloc, digits)?));
    }
    read_hex(alloc, digits)
}

/// Bytes to write.
#[tactic(auto, unfolding(crate::specs::WordMeanings::bytes_of))]
pub fn bytes(alloc: Global, word: &[u8]) -> Result<Option<ByteOperand>, OutOfMemory>
    ensures { IfOk result (λ found. found ≡ bytes_of word.now) }
{
    if word == b"buf".as_slice() {
        return Ok(Some(ByteOperand::Buffer));
    }
    let Some(digits) = word.strip_prefix(b"hex:") else {
        return Ok(None);
    };
    let found = given(alloc, digits)?;
    Ok(found.map(|b| ByteOperand::Given(b)))
}
