//! Pieces of lines in SVG.

ghost use Rattle.std.specs.Prelude.{◌≡◌, ◌++◌, OnOk};
ghost use Rattle.pth_drawing.specs.Svg.{piece_text, text_of};

use pth_base::memory::OutOfMemory;
use pth_text::text::Text;

/// A piece of a line.
#[derive(Clone, Copy)]
pub enum Piece<'a> {
    /// A text as it is.
    Plain(&'a [u8]),
    Number(u64),
    /// An attribute that is a number.
    Attribute(&'a [u8], u64),
}

// Adds a piece.
fn add_piece(piece: &Piece<'_>, out: &mut Text) -> Result<(), OutOfMemory>
    ensures { OnOk result (out.new ≡ out.old ++ piece_text piece.now) }
{
    match piece {
        Piece::Plain(text) => out.push(text),
        Piece::Number(n) => out.natural(*n),
        Piece::Attribute(name, n) => {
            out.push(b" ")?;
            out.push(name)?;
            out.push(b"=\"")?;
            out.natural(*n)?;
            out.push(b"\"")
        }
    }
}

/// Adds pieces one after another.
pub fn add_pieces(pieces: &[Piece<'_>], out: &mut Text) -> Result<(), OutOfMemory>
    ensures { OnOk result (out.new ≡ out.old ++ text_of pieces.now) }
{
    for piece in pieces {
        add_piece(piece, out)?;
    }
    Ok(())
}
