//! Pieces of lines.

ghost use Rattle.std.specs.Prelude.{◌≡◌, ◌++◌, OnOk};
ghost use Rattle.pth_explaining.specs.Pieces.{piece_text, text_of};

use pth_base::memory::OutOfMemory;
use pth_text::text::Text;

/// A piece of a line.
#[derive(Clone, Copy)]
pub enum Piece<'a> {
    /// A text as it is.
    Plain(&'a [u8]),
    Natural(u64),
    Number(i64),
}

// Adds a piece.
fn add_piece(piece: &Piece<'_>, out: &mut Text) -> Result<(), OutOfMemory>
    ensures { OnOk result (out.new ≡ out.old ++ piece_text piece.now) }
{
    match piece {
        Piece::Plain(text) => out.push(text),
        Piece::Natural(n) => out.natural(*n),
        Piece::Number(n) => out.number(*n),
    }
}

/// Adds pieces one after another.
pub fn add_pieces(pieces: &[Piece<'_>], out: &mut Text) -> Result<(), OutOfMemory>
    ensures { OnOk result (out.new ≡ out.old ++ text_of pieces.now) }
{
    for piece in pieces {
        add_piece(piece, out)?;
    }
    Ok(())
}
