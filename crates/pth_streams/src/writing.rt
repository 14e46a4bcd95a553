//! A writer of std as a sink.

ghost use Rattle.std.specs.Prelude.{◌≡◌, ◌<◌, IfOk, IsErrOf, length};
ghost use Rattle.std.specs.Io.{WritesAtMost};
ghost use Rattle.std.specs.Io.KnownBytes.{WriteAppends};
ghost use Rattle.pth_streams.specs.Faults.{CountsSink};

use crate::sink::{Sink, SinkErr};
use std::io::Write;
use std::marker::Model;

/// A writer that counts its errors. A write that takes nothing of a piece that is not empty is one. It tells the bytes that
/// were written where the writer does.
///
/// Nothing is flushed: a writer that keeps bytes back, as a buffer does, is flushed by whoever made it.
#[derive(Drop)]
pub struct Writing<W> {
    inner: W,
    faults: u64,
}

impl<W> Model for Writing<W> {
    ghost use Rattle.pth_streams.specs.Counted.{Counted};

    ghost Value = { Counted W };

    ghost view = { λ s. record { inner = s.inner; faults = s.faults } };
}

impl<W: Write> Writing<W> {
    /// Over this writer, with no error so far.
    pub fn new(inner: W) -> Writing<W>
        ensures { result ≡ record { inner = inner; faults = 0 } }
    {
        Writing { inner, faults: 0 }
    }
}

impl<W: Write> Sink for Writing<W> {
    ghost written = { λ s. W.contents s.inner };

    ghost faults = { λ s. s.faults };

    fn write(&mut self, bytes: &[u8]) -> Result<usize, SinkErr>
        ensures bound { WritesAtMost result bytes.now }
        ensures progress { IfOk result (λ n. 0 < length bytes.now → 0 < n) }
        ensures bytes { WriteAppends (W.contents self.old.inner) (W.contents self.new.inner) result bytes.now }
        ensures counts { CountsSink self.old.faults self.new.faults result }
        ensures no_memory { IsErrOf result SinkErr.OutOfMemory → ⊥ }
    {
        match self.inner.write(bytes) {
            Ok(n) if n > 0 || bytes.is_empty() => Ok(n),
            _ => {
                self.faults = self.faults.saturating_add(1);
                Err(SinkErr::Failed)
            }
        }
    }
}
