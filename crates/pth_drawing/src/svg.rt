//! The picture of a chart, as a text in SVG.

ghost use Rattle.std.specs.Prelude.{◌≡◌, ◌+◌, ◌*◌, ◌<◌, ◌≤◌, ◌^◌, ◌++◌, All, IfSome, OnOk, decimal, flat_map, length, map};
ghost use Rattle.pth_drawing.specs.Bounds.{IsLaneWithin, IsStretchWithin, IsWithinColumns, most_columns};
ghost use Rattle.pth_drawing.specs.Charts.{chart_seen, lane_seen};
ghost use Rattle.pth_drawing.specs.Picture.{bar_line, cross_line, depth_of, end_lines, left_of, opening_line, thickness_of, width_of};
ghost use Rattle.pth_drawing.specs.Picture.{greatest_moment, moment_line, name_line, shown_word, stretch_line, style_line, top_of};
ghost use Rattle.pth_drawing.specs.Picture.{lane_lines, lanes_from, picture_between, picture_of};

use crate::axis::{add_axis, turns_in};
use crate::chart::{Chart, Lane, Moment, Shown, Stretch};
use crate::foot::add_foot;
use crate::piece::Piece::{Attribute, Number, Plain};
use crate::piece::add_pieces;
use itoa::Buffer;
use pth_base::memory::OutOfMemory;
use pth_text::text::Text;

// The left edge of a column.
fn left_of(column: u64) -> u64
    requires { column < most_columns }
    ensures { result ≡ left_of column }
{
    60 + 12 * column
}

// How wide a picture of so many columns is.
fn width_of(columns: u64) -> u64
    requires { columns ≤ most_columns }
    ensures { result ≡ width_of columns }
{
    let width = 72 + 12 * columns;
    if width < 520 { 520 } else { width }
}

// Adds the lines that open a picture.
#[tactic(auto, unfolding(crate::specs::Picture::opening_line))]
fn add_opening(width: u64, height: u64, out: &mut Text) -> Result<(), OutOfMemory>
    ensures { OnOk result (out.new ≡ out.old ++ opening_line width height) }
{
    add_pieces(
        &[
            Plain(b"<svg xmlns=\"http://www.w3.org/2000/svg\""),
            Attribute(b"width", width),
            Attribute(b"height", height),
            Plain(b" viewBox=\"0 0 "),
            Number(width),
            Plain(b" "),
            Number(height),
            Plain(b"\">\n<rect width=\"100%\" height=\"100%\" fill=\"white\"/>\n"),
        ],
        out,
    )
}

// Adds the line of the style.
#[tactic(auto, unfolding(crate::specs::Picture::style_line))]
fn add_style(out: &mut Text) -> Result<(), OutOfMemory>
    ensures { OnOk result (out.new ≡ out.old ++ style_line) }
{
    add_pieces(
        &[
            Plain(b"<style>text{font:10px monospace;fill:#111827}.turn{stroke:#d1d5db}"),
            Plain(b".running{fill:#2563eb}.waiting{fill:#f59e0b}.ready{fill:#9ca3af}"),
            Plain(
                b".canceled{stroke:#dc2626;stroke-width:2}.ended{stroke:#111827;stroke-width:3}</style>\n",
            ),
        ],
        out,
    )
}

// The greatest moment.
fn greatest_moment(moments: &[Moment]) -> u64
    ensures { result ≡ greatest_moment moments.now }
{
    let mut greatest = 0;
    for moment in moments {
        greatest = greatest.max(moment.at);
    }
    greatest
}

// How many decimal digits a number has.
fn digits_of(n: u64) -> u64
    ensures value { result ≡ length (decimal n) }
    ensures small { result ≤ 20 }
{
    let mut buffer = Buffer::new();
    buffer.format(n).len() as u64
}

// The upper edge of the first lane.
fn top_of(moments: &[Moment]) -> u64
    ensures value { result ≡ top_of moments.now }
    ensures small { result ≤ 134 }
{
    14 + 6 * digits_of(greatest_moment(moments))
}

// The lower edge of the last lane.
fn bottom_of(top: u64, lanes: &[Lane]) -> u64
    requires { top ≤ 134 }
    ensures value { result ≡ top + 20 * length lanes.now }
    ensures small { result < 2 ^ 63 }
{
    top + 20 * lanes.len() as u64
}

// Adds the line of a moment.
#[tactic(auto, unfolding(crate::specs::Picture::moment_line))]
fn add_moment(top: u64, moment: &Moment, out: &mut Text) -> Result<(), OutOfMemory>
    requires { moment.now.column < most_columns }
    ensures { OnOk result (out.new ≡ out.old ++ moment_line top moment.now) }
{
    add_pieces(
        &[
            Plain(b"<text x=\"4\" transform=\"translate("),
            Number(left_of(moment.column) + 10),
            Plain(b" "),
            Number(top),
            Plain(b")rotate(-90)\">"),
            Number(moment.at),
            Plain(b"</text>\n"),
        ],
        out,
    )
}

// Adds the line of a lane's name.
#[tactic(auto, unfolding(crate::specs::Picture::name_line))]
fn add_name(top: u64, thread: u64, out: &mut Text) -> Result<(), OutOfMemory>
    requires { top < 2 ^ 63 }
    ensures { OnOk result (out.new ≡ out.old ++ name_line top thread) }
{
    add_pieces(
        &[
            Plain(b"<text x=\"4\""),
            Attribute(b"y", top + 14),
            Plain(b">t"),
            Number(thread),
            Plain(b"</text>\n"),
        ],
        out,
    )
}

// What a thread is drawn as, in a word.
fn shown_word<'a>(shown: Shown) -> &'a [u8]
    ensures { result.now ≡ shown_word shown }
{
    match shown {
        Shown::Running => b"running",
        Shown::Waiting => b"waiting",
        Shown::Ready => b"ready",
    }
}

// How far below the upper edge of its lane a stretch begins.
fn depth_of(shown: Shown) -> u64
    ensures value { result ≡ depth_of shown }
    ensures small { result < 20 }
{
    match shown {
        Shown::Running | Shown::Waiting => 3,
        Shown::Ready => 9,
    }
}

// How high a stretch is.
fn thickness_of(shown: Shown) -> u64
    ensures { result ≡ thickness_of shown }
{
    match shown {
        Shown::Running | Shown::Waiting => 14,
        Shown::Ready => 2,
    }
}

// Adds the line of a stretch.
#[tactic(auto, unfolding(crate::specs::Picture::stretch_line))]
fn add_stretch(top: u64, stretch: &Stretch, out: &mut Text) -> Result<(), OutOfMemory>
    requires top { top < 2 ^ 63 }
    requires within { IsStretchWithin most_columns stretch.now }
    ensures { OnOk result (out.new ≡ out.old ++ stretch_line top stretch.now) }
{
    out.push(b"<rect class=\"")?;
    out.push(shown_word(stretch.shown))?;
    add_pieces(
        &[
            Plain(b"\""),
            Attribute(b"x", 60 + 12 * stretch.first),
            Attribute(b"y", top + depth_of(stretch.shown)),
            Attribute(b"width", 12 * stretch.columns),
            Attribute(b"height", thickness_of(stretch.shown)),
            Plain(b"/>\n"),
        ],
        out,
    )
}

// Adds the line of a cross.
#[tactic(auto, unfolding(crate::specs::Picture::cross_line))]
fn add_cross(top: u64, column: u64, out: &mut Text) -> Result<(), OutOfMemory>
    requires top { top < 2 ^ 63 }
    requires within { column < most_columns }
    ensures { OnOk result (out.new ≡ out.old ++ cross_line top column) }
{
    add_pieces(
        &[
            Plain(b"<path class=\"canceled\" d=\"M"),
            Number(left_of(column) + 2),
            Plain(b" "),
            Number(top + 6),
            Plain(b"l8 8m0 -8l-8 8\"/>\n"),
        ],
        out,
    )
}

// Adds the line of a bar.
#[tactic(auto, unfolding(crate::specs::Picture::bar_line))]
fn add_bar(top: u64, column: u64, out: &mut Text) -> Result<(), OutOfMemory>
    requires top { top < 2 ^ 63 }
    requires within { column < most_columns }
    ensures { OnOk result (out.new ≡ out.old ++ bar_line top column) }
{
    let x = left_of(column) + 11;
    add_pieces(
        &[
            Plain(b"<line class=\"ended\""),
            Attribute(b"x1", x),
            Attribute(b"y1", top + 3),
            Attribute(b"x2", x),
            Attribute(b"y2", top + 17),
            Plain(b"/>\n"),
        ],
        out,
    )
}

// Adds the lines of stretches.
fn add_stretches(top: u64, stretches: &[Stretch], out: &mut Text) -> Result<(), OutOfMemory>
    requires top { top < 2 ^ 63 }
    requires within { All (IsStretchWithin most_columns) stretches.now }
    ensures { OnOk result (out.new ≡ out.old ++ flat_map (stretch_line top) stretches.now) }
{
    for stretch in stretches {
        add_stretch(top, stretch, out)?;
    }
    Ok(())
}

// Adds the lines of crosses.
fn add_crosses(top: u64, columns: &[u64], out: &mut Text) -> Result<(), OutOfMemory>
    requires top { top < 2 ^ 63 }
    requires within { All (λ column. column < most_columns) columns.now }
    ensures { OnOk result (out.new ≡ out.old ++ flat_map (cross_line top) columns.now) }
{
    for column in columns {
        add_cross(top, *column, out)?;
    }
    Ok(())
}

// Adds the line of the bar, if there is one.
fn add_end(top: u64, ended: Option<u64>, out: &mut Text) -> Result<(), OutOfMemory>
    requires top { top < 2 ^ 63 }
    requires within { IfSome ended (λ column. column < most_columns) }
    ensures { OnOk result (out.new ≡ out.old ++ end_lines top ended) }
{
    match ended {
        Some(column) => add_bar(top, column, out),
        None => Ok(()),
    }
}

// Adds the lines of a lane.
#[tactic(auto, unfolding(crate::specs::Picture::lane_lines))]
fn add_lane(top: u64, lane: &Lane, out: &mut Text) -> Result<(), OutOfMemory>
    requires top { top < 2 ^ 63 }
    requires within { IsLaneWithin most_columns (lane_seen lane.now) }
    ensures { OnOk result (out.new ≡ out.old ++ lane_lines top (lane_seen lane.now)) }
{
    add_name(top, lane.thread, out)?;
    add_stretches(top, &lane.stretches, out)?;
    add_crosses(top, &lane.canceled, out)?;
    add_end(top, lane.ended, out)
}

// Adds the lines of lanes, each below the one before it.
fn add_lanes(top: u64, lanes: &[Lane], out: &mut Text) -> Result<(), OutOfMemory>
    requires top { top ≤ 134 }
    requires within { All (λ lane. IsLaneWithin most_columns (lane_seen lane)) lanes.now }
    ensures { OnOk result (out.new ≡ out.old ++ lanes_from top (map lane_seen lanes.now)) }
{
    let mut edge = top;
    for lane in lanes {
        add_lane(edge, lane, out)?;
        edge += 20;
    }
    Ok(())
}

// Adds the lines of moments.
fn add_moments(top: u64, moments: &[Moment], out: &mut Text) -> Result<(), OutOfMemory>
    requires { All (λ m. m.column < most_columns) moments.now }
    ensures { OnOk result (out.new ≡ out.old ++ flat_map (moment_line top) moments.now) }
{
    for moment in moments {
        add_moment(top, moment, out)?;
    }
    Ok(())
}

// Adds the picture of a chart whose first lane is at `top`, and whose last one ends at `bottom`.
fn add_between(top: u64, bottom: u64, chart: &Chart, out: &mut Text) -> Result<(), OutOfMemory>
    requires small { top ≤ 134 }
    requires bottom { bottom < 2 ^ 63 }
    requires within { IsWithinColumns (chart_seen chart.now) }
    ensures { OnOk result (out.new ≡ out.old ++ picture_between top bottom (chart_seen chart.now)) }
{
    add_opening(width_of(chart.columns), bottom + 62, out)?;
    add_style(out)?;
    add_axis(top, bottom, chart.from, turns_in(chart), out)?;
    add_moments(top, &chart.moments, out)?;
    add_lanes(top, &chart.lanes, out)?;
    add_foot(bottom, chart, out)?;
    out.push(b"</svg>\n")
}

/// Adds the picture of a chart.
#[tactic(auto, unfolding(crate::specs::Picture::picture_of))]
pub fn add_picture(chart: &Chart, out: &mut Text) -> Result<(), OutOfMemory>
    requires { IsWithinColumns (chart_seen chart.now) }
    ensures { OnOk result (out.new ≡ out.old ++ picture_of (chart_seen chart.now)) }
{
    let top = top_of(&chart.moments);
    let bottom = bottom_of(top, &chart.lanes);
    add_between(top, bottom, chart, out)
}
