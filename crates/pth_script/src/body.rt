//! A body that is being read.

ghost use Rattle.std.specs.Prelude.{◌≡◌, [], ◌∷◌, ◌++◌, List, Some, OnOk, OnErr, IfOk, IfSome, length, false};
ghost use Rattle.std.specs.BTreeMap.{IsUnchanged};
ghost use Rattle.std.specs.List.{list_all};
ghost use Rattle.pth_script.specs.Labels.{somes, label_in, goto_in, one_or_none, labels_in, gotos_in, has, with_places, placed_in};
ghost use Rattle.pth_script.specs.Bodies.{IsIndexed, Marks};
ghost use Rattle.pth_line.specs.declared.line.Line.{Line};

use pth_base::memory::OutOfMemory;
use pth_line::block::Block;
use pth_line::line::Line;
use std::alloc::Global;
use std::collections::BTreeMap;
use std::marker::Model;
use std::mem;

/// The lines of a body so far, with the place of the line after each label.
#[derive(Drop)]
pub struct Body {
    lines: Vec<Line>,
    places: BTreeMap<i64, usize>,
}

impl Model for Body {
    ghost use Rattle.std.specs.Prelude.{List};
    ghost use Rattle.pth_line.specs.declared.line.Line.{Line};
    ghost use Rattle.pth_script.specs.Bodies.{IsIndexed};

    ghost Value = { List Line };

    ghost view = { λ b. b.lines.items };

    ghost invariant = { λ b. IsIndexed b.lines.items b.places };
}

impl Body {
    /// No lines, which takes no memory.
    pub fn new(alloc: Global) -> Body
        ensures { result ≡ [] }
    {
        Body {
            lines: Vec::new(alloc),
            places: BTreeMap::new(alloc),
        }
    }

    /// How many lines there are.
    pub fn len(&self) -> usize
        ensures { result ≡ length self.now }
    {
        self.lines.len()
    }

    /// Whether a line is this label.
    pub fn has_label(&self, label: i64) -> bool
        ensures { result ≡ has (labels_in self.now) label }
    {
        self.places.get(&label).is_some()
    }

    /// Whether each `goto` names a label that is there.
    pub fn finds_labels(&self) -> bool
        ensures { result ≡ list_all (λ n. has (labels_in self.now) n) (gotos_in self.now) }
    {
        self.lines.iter().all(|line| self.finds(line))
    }

    /// Whether the label that a line goes to, if it goes to one, is there.
    fn finds(&self, line: &Line) -> bool
        ensures { result ≡ list_all (λ n. has (labels_in self.now) n) (one_or_none (goto_in line.now)) }
    {
        match line {
            Line::Goto { label, .. } => self.has_label(*label),
            _ => true,
        }
    }

    /// Adds a line at the end, which is no label that is there.
    pub fn push(&mut self, line: Line) -> Result<(), OutOfMemory>
        requires { IfSome (label_in line) (λ n. has (labels_in self.old) n ≡ false) }
        ensures ok { OnOk result (self.new ≡ self.old ++ line ∷ []) }
        ensures err { OnErr result (self.new ≡ self.old) }
    {
        self.lines.reserve(1)?;
        mark(&mut self.places, &line, self.lines.len() + 1)?;
        self.lines.push(line).unwrap();
        Ok(())
    }

    /// Takes the lines out. Each `goto` then goes to the line after its label.
    pub fn close(&mut self, alloc: Global) -> Result<Block<Line>, OutOfMemory>
        ensures ok { IfOk result (λ lines. somes lines ≡ with_places (somes self.old)) }
        ensures empty { OnOk result (self.new ≡ []) }
    {
        let body = mem::replace(self, Body::new(alloc));
        all_placed(body.lines, &body.places, alloc)
    }
}

/// Keeps the place after a line, if the line is a label.
fn mark(places: &mut BTreeMap<i64, usize>, line: &Line, after: usize) -> Result<(), OutOfMemory>
    ensures ok { OnOk result (Marks line.now after places.old places.new) }
    ensures err { OnErr result (IsUnchanged places.old places.new) }
{
    if let Line::Label(label) = line {
        let _none = places.insert(*label, after)?;
    }
    Ok(())
}

/// The lines as they stand in a body with these labels.
fn all_placed(
    lines: Vec<Line>,
    places: &BTreeMap<i64, usize>,
    alloc: Global,
) -> Result<Block<Line>, OutOfMemory>
    requires { IsIndexed lines.items places.now }
    ensures { IfOk result (λ closed. somes closed ≡ with_places (somes lines.items)) }
{
    let mut closed = Block::new(alloc);
    for line in lines {
        closed.push(with_places(line, places))?;
    }
    Ok(closed)
}

/// The line as it stands in a body with these labels.
fn with_places(line: Line, places: &BTreeMap<i64, usize>) -> Line
    ensures { (lines : List Line) → IsIndexed lines places.now → Some result ≡ placed_in (somes lines) (Some line) }
{
    match line {
        Line::Goto {
            label,
            left,
            relation,
            right,
            ..
        } => Line::Goto {
            label,
            to: places.get(&label).copied().unwrap_or(0),
            left,
            relation,
            right,
        },
        other => other,
    }
}
