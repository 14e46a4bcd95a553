//! A text that grows.

ghost use Rattle.std.specs.Prelude.{◌≡◌, ◌<◌, ◌++◌, [], OnOk, OnErr, decimal};
ghost use Rattle.std.specs.Fmt.{signed_decimal};
ghost use Rattle.pth_text.specs.Hex.{hex_of, digit_of};

use itoa::Buffer;
use pth_base::memory::OutOfMemory;
use std::alloc::Global;
use std::marker::Model;

/// A text that grows at its end, seen as its bytes. A call that is refused memory leaves it as it was.
pub struct Text {
    bytes: Vec<u8>,
}

impl Model for Text {
    ghost use Rattle.std.specs.Prelude.{ℕ, List};

    ghost Value = { List ℕ };

    ghost view = { λ t. t.bytes.items };
}

// By hand, so that letting one go is one call in each proof.
impl Drop for Text {
    fn drop(self) {
        let Text { bytes: _ } = self;
    }
}

/// The lower-case digit of a number below 16.
fn hex_digit(n: u8) -> u8
    requires { n < 16 }
    ensures { result ≡ digit_of n }
{
    if n < 10 { b'0' + n } else { b'a' + (n - 10) }
}

impl Text {
    /// No text yet, which takes no memory.
    pub fn new(alloc: Global) -> Text
        ensures { result ≡ [] }
    {
        Text {
            bytes: Vec::new(alloc),
        }
    }

    /// Adds bytes as they are.
    pub fn push(&mut self, b: &[u8]) -> Result<(), OutOfMemory>
        ensures ok { OnOk result (self.new ≡ self.old ++ b.now) }
        ensures err { OnErr result (self.new ≡ self.old) }
    {
        self.bytes.extend_from_slice(b)?;
        Ok(())
    }

    /// Adds a number in decimal digits, with `-` before a negative one.
    pub fn number(&mut self, n: i64) -> Result<(), OutOfMemory>
        ensures ok { OnOk result (self.new ≡ self.old ++ signed_decimal n) }
        ensures err { OnErr result (self.new ≡ self.old) }
    {
        let mut buffer = Buffer::new();
        self.push(buffer.format(n).as_bytes())
    }

    /// Adds a number that has no sign in decimal digits.
    pub fn natural(&mut self, n: u64) -> Result<(), OutOfMemory>
        ensures ok { OnOk result (self.new ≡ self.old ++ decimal n) }
        ensures err { OnErr result (self.new ≡ self.old) }
    {
        let mut buffer = Buffer::new();
        self.push(buffer.format(n).as_bytes())
    }

    /// Adds two lower-case hexadecimal digits for each byte.
    pub fn hex(&mut self, b: &[u8]) -> Result<(), OutOfMemory>
        ensures ok { OnOk result (self.new ≡ self.old ++ hex_of b.now) }
        ensures err { OnErr result (self.new ≡ self.old) }
    {
        let len = self.bytes.len();
        for x in b {
            let pair = [hex_digit(*x / 16), hex_digit(*x % 16)];
            if self.bytes.extend_from_slice(&pair).is_err() {
                self.bytes.truncate(len);
                return Err(OutOfMemory);
            }
        }
        Ok(())
    }

    /// The bytes so far.
    pub fn as_slice(&self) -> &[u8]
        ensures { result.now ≡ self.now }
    {
        self.bytes.as_slice()
    }

    /// Takes all bytes out. Their room is kept for the next ones, which no clause says.
    pub fn clear(&mut self)
        ensures { self.new ≡ [] }
    {
        self.bytes.clear();
    }
}
