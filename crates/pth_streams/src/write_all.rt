//! A piece written whole.

ghost use Rattle.std.specs.Prelude.{◌≡◌, [], OnOk, OnErr};
ghost use Rattle.std.specs.Io.KnownBytes.{Appends};
ghost use Rattle.pth_streams.specs.Faults.{CountsSink};
ghost use Rattle.pth_streams.specs.Pieces.{AppendsPart};

use crate::sink::{Sink, SinkErr};

/// Writes a piece whole, a part at a time. Nothing is written of an empty piece.
pub fn write_all<O: Sink>(out: &mut O, bytes: &[u8]) -> Result<(), SinkErr>
    ensures whole { OnOk result (Appends (O.written out.old) (O.written out.new) bytes.now) }
    ensures part { OnErr result (AppendsPart (O.written out.old) (O.written out.new) bytes.now) }
    ensures counts { CountsSink (O.faults out.old) (O.faults out.new) result }
    ensures empty { bytes.now ≡ [] → out.new ≡ out.old }
{
    let mut at = 0;
    while at < bytes.len() {
        at += out.write(&bytes[at..])?;
    }
    Ok(())
}
