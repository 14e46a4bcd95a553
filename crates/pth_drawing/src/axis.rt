//! The axis of turns.

ghost use Rattle.std.specs.Prelude.{◌≡◌, ◌+◌, ◌<◌, ◌≤◌, ◌^◌, ◌++◌, OnOk};
ghost use Rattle.pth_drawing.specs.Bounds.{most_columns};
ghost use Rattle.pth_drawing.specs.Charts.{chart_seen, turns_in};
ghost use Rattle.pth_drawing.specs.Picture.{axis_lines, tick_line};

use crate::chart::Chart;
use crate::piece::Piece::{Attribute, Number, Plain};
use crate::piece::add_pieces;
use pth_base::memory::OutOfMemory;
use pth_text::text::Text;

/// How many columns are turns.
pub(crate) fn turns_in(chart: &Chart) -> u64
    ensures { result ≡ turns_in (chart_seen chart.now) }
{
    if chart.is_cut {
        chart.columns
    } else {
        chart.columns.saturating_sub(1)
    }
}

// Adds the tick of a turn.
#[tactic(auto, unfolding(crate::specs::Picture::tick_line))]
fn add_tick(
    top: u64,
    bottom: u64,
    column: u64,
    turn: u64,
    out: &mut Text,
) -> Result<(), OutOfMemory>
    requires bottom { bottom < 2 ^ 63 }
    requires within { column < most_columns }
    ensures { OnOk result (out.new ≡ out.old ++ tick_line top bottom column turn) }
{
    let x = 60 + 12 * column;
    add_pieces(
        &[
            Plain(b"<path class=\"turn\" d=\"M"),
            Number(x),
            Plain(b" "),
            Number(top),
            Plain(b"V"),
            Number(bottom + 4),
            Plain(b"\"/>\n<text"),
            Attribute(b"x", x),
            Attribute(b"y", bottom + 14),
            Plain(b">"),
            Number(turn),
            Plain(b"</text>\n"),
        ],
        out,
    )
}

/// Adds the ticks of so many turns, from one of them on.
pub(crate) fn add_axis(
    top: u64,
    bottom: u64,
    from: u64,
    turns: u64,
    out: &mut Text,
) -> Result<(), OutOfMemory>
    requires bottom { bottom < 2 ^ 63 }
    requires few { turns ≤ most_columns }
    requires numbered { 0 < turns → from + turns ≤ 2 ^ 64 }
    ensures { OnOk result (out.new ≡ out.old ++ axis_lines top bottom from turns) }
{
    for k in 0..(turns + 9) / 10 {
        add_tick(top, bottom, 10 * k, from + 10 * k, out)?;
    }
    Ok(())
}
