//! A reader of std as a source.

ghost use Rattle.std.specs.Prelude.{◌≡◌};

use crate::source::{Failed, Source};
use std::io::Read;
use std::marker::Model;

/// A reader that counts its errors. It tells the bytes that are left where the reader does.
#[derive(Drop)]
pub struct Reading<R> {
    inner: R,
    faults: u64,
}

impl<R> Model for Reading<R> {
    ghost use Rattle.pth_streams.specs.Counted.{Counted};

    ghost Value = { Counted R };

    ghost view = { λ s. record { inner = s.inner; faults = s.faults } };
}

impl<R: Read> Reading<R> {
    /// Over this reader, with no error so far.
    pub fn new(inner: R) -> Reading<R>
        ensures { result ≡ record { inner = inner; faults = 0 } }
    {
        Reading { inner, faults: 0 }
    }
}

impl<R: Read> Source for Reading<R> {
    ghost left = { λ s. R.remaining s.inner };

    ghost faults = { λ s. s.faults };

    fn read(&mut self, buf: &mut [u8]) -> Result<usize, Failed> {
        match self.inner.read(buf) {
            Ok(n) => Ok(n),
            Err(_) => {
                self.faults = self.faults.saturating_add(1);
                Err(Failed)
            }
        }
    }
}
