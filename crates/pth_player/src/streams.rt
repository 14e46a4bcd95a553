//! A source or a file read to its end.

ghost use Rattle.std.specs.Prelude.{◌≡◌, IfOk, true};
ghost use Rattle.pth_streams.specs.Faults.{CountsRead};
ghost use Rattle.pth_player.specs.Streams.{TakesUpTo};

use pth_streams::files::Files;
use pth_streams::source::{ReadFault, Source};
use std::alloc::Global;

// How many bytes one read asks for.
const BUFFER: usize = 4096;

/// The bytes of a source, as many as `cap` or all there are.
pub fn read_up_to<S: Source>(
    alloc: Global,
    source: &mut S,
    cap: usize,
) -> Result<Vec<u8>, ReadFault>
    ensures bytes { IfOk result (λ v. TakesUpTo cap (S.left source.old) (S.left source.new) v.items) }
    ensures counts { CountsRead (S.faults source.old) (S.faults source.new) result }
{
    let mut bytes = Vec::new(alloc);
    let mut buffer = [0u8; BUFFER];
    while bytes.len() < cap {
        let room = buffer.len().min(cap - bytes.len());
        let piece = &mut buffer[..room];
        let Ok(n) = source.read(piece) else {
            return Err(ReadFault::Failed);
        };
        if n == 0 {
            break;
        }
        bytes.extend_from_slice(&piece[..n])?;
    }
    Ok(bytes)
}

/// The bytes of the started file, as many as `cap` or all there are.
pub fn read_started<F: Files>(
    alloc: Global,
    files: &mut F,
    cap: usize,
) -> Result<Vec<u8>, ReadFault>
    requires { F.started files.old ≡ true }
    ensures bytes { IfOk result (λ v. TakesUpTo cap (F.left files.old) (F.left files.new) v.items) }
    ensures counts { CountsRead (F.faults files.old) (F.faults files.new) result }
{
    let mut bytes = Vec::new(alloc);
    let mut buffer = [0u8; BUFFER];
    while bytes.len() < cap {
        let room = buffer.len().min(cap - bytes.len());
        let piece = &mut buffer[..room];
        let Ok(n) = files.read(piece) else {
            return Err(ReadFault::Failed);
        };
        if n == 0 {
            break;
        }
        bytes.extend_from_slice(&piece[..n])?;
    }
    Ok(bytes)
}
