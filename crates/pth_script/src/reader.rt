//! A reader of lines.

ghost use Rattle.std.specs.Prelude.{◌≡◌, ◌≤◌, ℕ, List, [], drop, length, IfOk, MatchResult, Some, None, false};
ghost use Rattle.pth_script.specs.Broken.{end_breaks};
ghost use Rattle.pth_script.specs.Drafts.{draft_parts, IsClosable, IsDraftInOrder, ComesTo};
ghost use Rattle.pth_script.specs.Follows.{Follows, Goes, left_of};
ghost use Rattle.pth_script.specs.Limits.{line_limit};
ghost use Rattle.pth_script.specs.Meaning.{said, parts_of};
ghost use Rattle.pth_script.specs.TextRows.{TextRow, heading_length, is_comment, range_of};
ghost use Rattle.pth_script.specs.RuleOrder.{first_broken};
ghost use Rattle.pth_text.specs.declared.rule.Breach.TheVariants.{Of};

use crate::draft::Draft;
use crate::heading::{Heading, VERSION_1_RANGE, range_said};
use crate::limits::LINE_LIMIT;
use crate::rows::is_comment;
use pth_base::memory::OutOfMemory;
use pth_grammar::kernel_lines::stamp_line;
use pth_grammar::section::Section;
use pth_spelling::start::Start;
use pth_text::rule::{Breach, Rule};
use pth_text::words::words;
use std::alloc::Global;

/// Why a line was not taken.
#[derive(Clone, Copy, Debug, PartialEq, Eq)]
pub enum Fault {
    Broken(Breach),
    Memory,
}

impl From<OutOfMemory> for Fault {
    ghost use Rattle.pth_script.specs.declared.reader.Fault.TheVariants as fault;

    ghost from_gives = { λ _ e. e ≡ fault.Memory };

    fn from(_e: OutOfMemory) -> Fault {
        Fault::Memory
    }
}

/// What was read so far: the heading, and a draft of the rest.
#[derive(Drop)]
pub struct Reader {
    alloc: Global,
    pub heading: Heading,
    pub draft: Draft,
}

impl Reader {
    /// A reader of no lines yet.
    pub fn new(alloc: Global) -> Reader
        ensures follows { Follows result [] }
        ensures makes { (rows : List TextRow) → ComesTo (draft_parts result.draft) (left_of result rows)
            (parts_of (range_of rows) (said (drop (heading_length rows) rows))) }
    {
        Reader {
            alloc,
            heading: Heading::Unread,
            draft: Draft::new(alloc),
        }
    }

    /// Takes the text's first line.
    fn first(&mut self, bytes: &[u8], ended: bool) -> Result<(), Fault>
        requires unread { self.old.heading ≡ Heading.Unread }
        requires short { length bytes.now ≤ line_limit }
        ensures { Goes self.old self.new (record { bytes = bytes.now; ended = ended }) result }
    {
        if !ended {
            return Err(Fault::Broken(Breach::Of(Rule::Cut)));
        }
        if bytes == b"pth 1".as_slice() {
            self.heading = Heading::Whole(VERSION_1_RANGE);
            return Ok(());
        }
        if bytes == b"pth 2".as_slice() {
            self.heading = Heading::Version2;
            return Ok(());
        }
        Err(Fault::Broken(Breach::Of(Rule::Header)))
    }

    /// Takes the second line of a text in version 2.
    fn second(&mut self, bytes: &[u8], ended: bool) -> Result<(), Fault>
        requires begun { self.old.heading ≡ Heading.Version2 }
        requires short { length bytes.now ≤ line_limit }
        ensures { Goes self.old self.new (record { bytes = bytes.now; ended = ended }) result }
    {
        if !ended {
            return Err(Fault::Broken(Breach::Of(Rule::Cut)));
        }
        match range_said(bytes) {
            Some(range) => {
                self.heading = Heading::Whole(range);
                Ok(())
            }
            None => Err(Fault::Broken(Breach::Of(Rule::Header))),
        }
    }

    /// Takes a line of words.
    fn said(&mut self, bytes: &[u8], ended: bool) -> Result<(), Fault>
        requires below { (top : ℕ) × (self.old.heading ≡ Heading.Whole top) }
        requires short { length bytes.now ≤ line_limit }
        requires said { is_comment bytes.now ≡ false }
        requires kept { IsDraftInOrder (draft_parts self.old.draft) }
        ensures { Goes self.old self.new (record { bytes = bytes.now; ended = ended }) result }
    {
        let words = words(self.alloc, bytes)?;
        let words = words.as_slice();
        let start = Start::of(words);
        let stamp = stamp_line(self.alloc, start.keyword(), words)?;
        if let Some(breach) = self.draft.fault(start, words, &stamp, ended) {
            return Err(Fault::Broken(breach));
        }
        self.draft.take(start, words, stamp)?;
        Ok(())
    }

    /// Takes a line below the heading.
    fn below(&mut self, bytes: &[u8], ended: bool) -> Result<(), Fault>
        requires below { (top : ℕ) × (self.old.heading ≡ Heading.Whole top) }
        requires short { length bytes.now ≤ line_limit }
        requires kept { IsDraftInOrder (draft_parts self.old.draft) }
        ensures { Goes self.old self.new (record { bytes = bytes.now; ended = ended }) result }
    {
        if !is_comment(bytes) {
            return self.said(bytes, ended);
        }
        if !ended {
            return Err(Fault::Broken(Breach::Of(Rule::Cut)));
        }
        Ok(())
    }

    /// Takes the next line of a text, without its LF.
    pub fn row(&mut self, bytes: &[u8], ended: bool) -> Result<(), Fault>
        requires { IsDraftInOrder (draft_parts self.old.draft) }
        ensures { Goes self.old self.new (record { bytes = bytes.now; ended = ended }) result }
    {
        if bytes.len() > LINE_LIMIT {
            return Err(Fault::Broken(Breach::Limit));
        }
        match self.heading {
            Heading::Unread => self.first(bytes, ended),
            Heading::Version2 => self.second(bytes, ended),
            Heading::Whole(_) => self.below(bytes, ended),
        }
    }

    /// The K of the heading, if the place after the last line breaks no rule, and else the first that it breaks.
    pub fn end(&self) -> Result<u8, Rule>
        ensures closed { IfOk result (λ range. IsClosable (draft_parts self.now.draft) × (self.now.heading ≡ Heading.Whole range)) }
        ensures first { (before : List TextRow) → Follows self.now before → MatchResult result
            (λ range. first_broken (λ b. end_breaks b before) ≡ None)
            (λ rule. first_broken (λ b. end_breaks b before) ≡ Some (Of rule)) }
    {
        let Heading::Whole(range) = self.heading else {
            return Err(Rule::Header);
        };
        if self.draft.bodies_opened() == 0 {
            return Err(Rule::Main);
        }
        match self.draft.section {
            Section::Handler => Err(Rule::End),
            Section::Body => Err(Rule::End),
            _ => Ok(range),
        }
    }
}
