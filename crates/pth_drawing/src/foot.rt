//! The foot of a picture: its caption and its legend.

ghost use Rattle.std.specs.Prelude.{◌≡◌, ◌<◌, ◌^◌, ◌++◌, OnOk};
ghost use Rattle.pth_drawing.specs.Charts.{chart_seen};
ghost use Rattle.pth_drawing.specs.Picture.{caption_line, caption_words, cut_words, ending_words, foot_lines, from_words, legend_lines};

use crate::chart::{Chart, End};
use crate::piece::Piece::{Number, Plain};
use crate::piece::add_pieces;
use pth_base::memory::OutOfMemory;
use pth_text::text::Text;

// Adds the words for the turn of the first column, if it is not the first turn.
fn add_from(from: u64, out: &mut Text) -> Result<(), OutOfMemory>
    ensures { OnOk result (out.new ≡ out.old ++ from_words from) }
{
    if from == 1 {
        return Ok(());
    }
    add_pieces(&[Plain(b"From turn "), Number(from), Plain(b". ")], out)
}

// Adds the words that say where the picture is cut, if turns follow.
fn add_cut(chart: &Chart, out: &mut Text) -> Result<(), OutOfMemory>
    ensures { OnOk result (out.new ≡ out.old ++ cut_words (chart_seen chart.now)) }
{
    if !chart.is_cut {
        return Ok(());
    }
    add_pieces(
        &[
            Plain(b"Cut after "),
            Number(chart.columns),
            Plain(b" turns. "),
        ],
        out,
    )
}

// Adds the words that say how the run ended.
fn add_end(end: End, out: &mut Text) -> Result<(), OutOfMemory>
    ensures { OnOk result (out.new ≡ out.old ++ ending_words end) }
{
    match end {
        End::Ended(v) => {
            out.push(b"ended ")?;
            out.number(v)
        }
        End::Killed => out.push(b"killed"),
        End::Stalled => out.push(b"stalled"),
        End::StepLimit(n) => {
            out.push(b"step limit ")?;
            out.natural(n)
        }
    }
}

// Adds the words of the caption.
fn add_words(chart: &Chart, out: &mut Text) -> Result<(), OutOfMemory>
    ensures { OnOk result (out.new ≡ out.old ++ caption_words (chart_seen chart.now)) }
{
    add_from(chart.from, out)?;
    add_cut(chart, out)?;
    out.push(b"End of the run: ")?;
    add_end(chart.end, out)
}

// Adds the caption below the last lane, whose lower edge is at `bottom`.
#[tactic(auto, unfolding(crate::specs::Picture::caption_line))]
fn add_caption(bottom: u64, chart: &Chart, out: &mut Text) -> Result<(), OutOfMemory>
    requires { bottom < 2 ^ 63 }
    ensures { OnOk result (out.new ≡ out.old ++ caption_line bottom (chart_seen chart.now)) }
{
    out.push(b"<text x=\"4\" y=\"")?;
    out.natural(bottom + 30)?;
    out.push(b"\">")?;
    add_words(chart, out)?;
    out.push(b"</text>\n")
}

// Adds the legend below the caption.
#[tactic(auto, unfolding(crate::specs::Picture::legend_lines))]
fn add_legend(bottom: u64, out: &mut Text) -> Result<(), OutOfMemory>
    requires { bottom < 2 ^ 63 }
    ensures { OnOk result (out.new ≡ out.old ++ legend_lines bottom) }
{
    add_pieces(
        &[
            Plain(b"<g transform=\"translate(0 "),
            Number(bottom + 38),
            Plain(b")\">\n"),
            Plain(
                b"<rect class=\"running\" x=\"4\" y=\"3\" width=\"12\" height=\"14\"/><text x=\"20\" y=\"14\">runs</text>\n",
            ),
            Plain(
                b"<rect class=\"waiting\" x=\"60\" y=\"3\" width=\"12\" height=\"14\"/><text x=\"76\" y=\"14\">waits</text>\n",
            ),
            Plain(
                b"<rect class=\"ready\" x=\"122\" y=\"9\" width=\"12\" height=\"2\"/><text x=\"138\" y=\"14\">ready or suspended</text>\n",
            ),
            Plain(
                b"<path class=\"canceled\" d=\"M262 6l8 8m0 -8l-8 8\"/><text x=\"276\" y=\"14\">canceled</text>\n",
            ),
            Plain(
                b"<line class=\"ended\" x1=\"341\" y1=\"3\" x2=\"341\" y2=\"17\"/><text x=\"348\" y=\"14\">ends</text>\n",
            ),
            Plain(b"<text x=\"388\" y=\"14\">upright: microseconds</text>\n</g>\n"),
        ],
        out,
    )
}

/// Adds the caption and the legend, below the axis of turns.
pub(crate) fn add_foot(bottom: u64, chart: &Chart, out: &mut Text) -> Result<(), OutOfMemory>
    requires { bottom < 2 ^ 63 }
    ensures { OnOk result (out.new ≡ out.old ++ foot_lines bottom (chart_seen chart.now)) }
{
    add_caption(bottom, chart, out)?;
    add_legend(bottom, out)
}
