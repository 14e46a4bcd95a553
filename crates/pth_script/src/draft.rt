//! A script that is being read.

ghost use Rattle.std.specs.Prelude.{◌≡◌, ℕ, List, [], IfOk, OnOk, unwrap_or, Some, None, true, false, if◌then◌else◌};
ghost use Rattle.pth_spelling.specs.Texts.{texts};
ghost use Rattle.pth_spelling.specs.Starts.{begins, start_of};
ghost use Rattle.pth_spelling.specs.declared.keyword.Keyword.TheVariants as key;
ghost use Rattle.pth_grammar.specs.declared.section.Section.TheVariants as section;
ghost use Rattle.pth_kernel.specs.Kernel.{kernel_of, started};
ghost use Rattle.pth_grammar.specs.KernelLines.{stamp_line};
ghost use Rattle.pth_script.specs.Broken.{said_breaks};
ghost use Rattle.pth_script.specs.Drafts.{draft_parts, seen_of_draft, in_handler, in_body, in_kernel, handler_closed, IsClosable, IsClosed, IsFine, IsDraftInOrder, ComesTo, Takes};
ghost use Rattle.pth_script.specs.Meaning.{parts_of};
ghost use Rattle.pth_script.specs.RuleOrder.{first_broken};
ghost use Rattle.pth_script.specs.Seen.{seen_of, passes_limit, misnumbered, leaves_goto, lacks_body, is_early, misuses_fd, is_check, is_end, is_handler, is_kernel};
ghost use Rattle.pth_text.specs.declared.rule.Rule.TheVariants as rule;

use crate::body::Body;
use crate::kernel_draft::KernelDraft;
use crate::limits::{MOST_ACTS, MOST_BODIES, MOST_CHECKS, MOST_HANDLERS, MOST_LINES};
use pth_base::memory::OutOfMemory;
use pth_grammar::fault::words_fault;
use pth_grammar::kernel_lines::{clock_line, open_line};
use pth_grammar::kernel_part::KernelPart;
use pth_grammar::lines::{act_line, check_line, line, numbered};
use pth_grammar::section::Section;
use pth_kernel::kernel::Kernel;
use pth_kernel::trace::Stamp;
use pth_line::act_line::ActLine;
use pth_line::block::Block;
use pth_line::check::Check;
use pth_line::line::Line;
use pth_line::script::Script;
use pth_spelling::keyword::Keyword;
use pth_spelling::start::Start;
use pth_text::rule::{Breach, Rule};
use std::alloc::Global;
use std::mem;

/// The handlers, checks and bodies that are closed, the lines of the one that is open, and the kernel.
#[derive(Drop)]
pub struct Draft {
    alloc: Global,
    pub section: Section,
    pub handlers: Vec<Block<ActLine>>,
    pub checks: Vec<Check>,
    pub bodies: Vec<Block<Line>>,
    pub acts: Block<ActLine>,
    pub body: Body,
    pub kernel: KernelDraft,
}

impl Draft {
    /// Nothing read yet.
    pub fn new(alloc: Global) -> Draft
        ensures seen { seen_of_draft (draft_parts result) ≡ seen_of [] }
        ensures kept { IsDraftInOrder (draft_parts result) }
        ensures makes { (range : ℕ) (ls : List (List (List ℕ))) → ComesTo (draft_parts result) ls (parts_of range ls) }
    {
        Draft {
            alloc,
            section: Section::Handlers,
            handlers: Vec::new(alloc),
            checks: Vec::new(alloc),
            bodies: Vec::new(alloc),
            acts: Block::new(alloc),
            body: Body::new(alloc),
            kernel: KernelDraft::new(alloc),
        }
    }

    /// How many handlers were opened.
    fn handlers_opened(&self) -> usize
        ensures { result ≡ (seen_of_draft (draft_parts self.now)).handlers }
    {
        match self.section {
            Section::Handler => self.handlers.len() + 1,
            _ => self.handlers.len(),
        }
    }

    /// How many bodies were opened.
    pub fn bodies_opened(&self) -> usize
        ensures { result ≡ (seen_of_draft (draft_parts self.now)).bodies }
    {
        match self.section {
            Section::Body => self.bodies.len() + 1,
            _ => self.bodies.len(),
        }
    }

    /// Whether the open section, or the text, has no room for a line that begins so. In a kernel only an `at` line counts.
    fn passes_limit(&self, keyword: Option<Keyword>) -> bool
        requires { IsDraftInOrder (draft_parts self.now) }
        ensures { result ≡ passes_limit self.now.section keyword (seen_of_draft (draft_parts self.now)) }
    {
        match (self.section, keyword) {
            (Section::Handler, Some(Keyword::End)) => false,
            (Section::Handler, _) => self.acts.len() >= MOST_ACTS,
            (Section::Body, Some(Keyword::End)) => false,
            (Section::Body, _) => self.body.len() >= MOST_LINES,
            (Section::Kernel(_), Some(Keyword::At)) => self.kernel.is_full(),
            (Section::Kernel(_), _) => false,
            (_, Some(Keyword::Handler)) => self.handlers_opened() >= MOST_HANDLERS,
            (_, Some(Keyword::Check)) => self.checks.len() >= MOST_CHECKS,
            (_, Some(Keyword::Thread)) => self.bodies_opened() >= MOST_BODIES,
            _ => false,
        }
    }

    fn misnumbered(&self, keyword: Option<Keyword>, number: Option<i64>) -> bool
        requires { IsDraftInOrder (draft_parts self.now) }
        ensures { result ≡ misnumbered keyword number (seen_of_draft (draft_parts self.now)) }
    {
        match (keyword, number) {
            (Some(Keyword::Handler), Some(n)) => n != self.handlers_opened() as i64,
            (Some(Keyword::Check), Some(n)) => n != self.checks.len() as i64,
            (Some(Keyword::Thread), Some(n)) => n != self.bodies_opened() as i64,
            (Some(Keyword::Label), Some(n)) => self.body.has_label(n),
            (Some(Keyword::Open), Some(n)) => n < self.kernel.next_open as i64,
            _ => false,
        }
    }

    fn leaves_goto(&self, keyword: Option<Keyword>) -> bool
        ensures { result ≡ leaves_goto self.now.section keyword (seen_of_draft (draft_parts self.now)) }
    {
        match (self.section, keyword) {
            (Section::Body, Some(Keyword::End)) => !self.body.finds_labels(),
            _ => false,
        }
    }

    fn lacks_body(&self, keyword: Option<Keyword>) -> bool
        ensures { result ≡ lacks_body keyword (seen_of_draft (draft_parts self.now)) }
    {
        match keyword {
            Some(Keyword::Kernel) => self.bodies_opened() == 0,
            _ => false,
        }
    }

    fn is_early(&self, stamp: &Option<Stamp>) -> bool
        requires { IsDraftInOrder (draft_parts self.now) }
        ensures { result ≡ is_early stamp.now (seen_of_draft (draft_parts self.now)) }
    {
        match stamp {
            Some(stamp) => self.kernel.rules.is_before_last(stamp.at),
            None => false,
        }
    }

    fn misuses_fd(&self, stamp: &Option<Stamp>) -> bool
        requires { IsDraftInOrder (draft_parts self.now) }
        ensures { result ≡ misuses_fd stamp.now (seen_of_draft (draft_parts self.now)) }
    {
        match stamp {
            Some(stamp) => self.kernel.rules.breaks_fd(stamp),
            None => false,
        }
    }

    /// The first of the rules that a line breaks by its number, by what its body names, or by what stands above a kernel.
    fn place_fault(&self, keyword: Option<Keyword>, number: Option<i64>) -> Option<Rule>
        requires { IsDraftInOrder (draft_parts self.now) }
        ensures { result ≡ (if misnumbered keyword number (seen_of_draft (draft_parts self.now)) then Some rule.Number else if leaves_goto self.now.section keyword (seen_of_draft (draft_parts self.now)) then Some rule.Label else if lacks_body keyword (seen_of_draft (draft_parts self.now)) then Some rule.Main else None) }
    {
        if self.misnumbered(keyword, number) {
            Some(Rule::Number)
        } else if self.leaves_goto(keyword) {
            Some(Rule::Label)
        } else if self.lacks_body(keyword) {
            Some(Rule::Main)
        } else {
            None
        }
    }

    /// The first of the rules that a line breaks by what comes.
    fn stamp_fault(&self, stamp: &Option<Stamp>) -> Option<Rule>
        requires { IsDraftInOrder (draft_parts self.now) }
        ensures { result ≡ (if is_early stamp.now (seen_of_draft (draft_parts self.now)) then Some rule.Time else if misuses_fd stamp.now (seen_of_draft (draft_parts self.now)) then Some rule.Fd else None) }
    {
        if self.is_early(stamp) {
            Some(Rule::Time)
        } else if self.misuses_fd(stamp) {
            Some(Rule::Fd)
        } else {
            None
        }
    }

    /// The first that a line of words breaks, by how it begins. The stamp is the one that the line stands for.
    pub fn fault(
        &self,
        start: Start,
        words: &[&[u8]],
        stamp: &Option<Stamp>,
        ended: bool,
    ) -> Option<Breach>
        requires start { start ≡ start_of (texts words.now) }
        requires stamp { stamp.now ≡ stamp_line (texts words.now) }
        requires kept { IsDraftInOrder (draft_parts self.now) }
        ensures { result ≡ first_broken (said_breaks ended (seen_of_draft (draft_parts self.now)) (texts words.now)) }
    {
        let keyword = start.keyword();
        if self.passes_limit(keyword) {
            return Some(Breach::Limit);
        }
        if !ended {
            return Some(Breach::Of(Rule::Cut));
        }
        if let Some(rule) = words_fault(self.section, start, words) {
            return Some(Breach::Of(rule));
        }
        if let Some(rule) = self.place_fault(keyword, numbered(words)) {
            return Some(Breach::Of(rule));
        }
        if let Some(rule) = self.stamp_fault(stamp) {
            return Some(Breach::Of(rule));
        }
        None
    }

    /// Closes the handler that is open.
    fn close_handler(&mut self) -> Result<(), OutOfMemory>
        ensures { OnOk result (draft_parts self.new ≡ handler_closed (draft_parts self.old)) }
    {
        let acts = mem::replace(&mut self.acts, Block::new(self.alloc));
        self.handlers.push(acts)?;
        self.section = Section::Handlers;
        Ok(())
    }

    /// Takes a line of a handler.
    fn take_act(&mut self, start: Start, words: &[&[u8]]) -> Result<(), OutOfMemory>
        requires start { start ≡ start_of (texts words.now) }
        requires section { self.old.section ≡ section.Handler }
        requires fine { IsFine (draft_parts self.old) (texts words.now) }
        requires kept { IsDraftInOrder (draft_parts self.old) }
        ensures { OnOk result (Takes (draft_parts self.old) (draft_parts self.new) (texts words.now)) }
    {
        if is_end(start.keyword()) {
            return self.close_handler();
        }
        if let Some(act) = act_line(start, words) {
            self.acts.push(act)?;
        }
        Ok(())
    }

    /// Closes the body that is open.
    fn close_body(&mut self) -> Result<(), OutOfMemory>
        ensures { OnOk result (IsClosed (draft_parts self.old) (draft_parts self.new)) }
    {
        let body = self.body.close(self.alloc)?;
        self.bodies.push(body)?;
        self.section = Section::Bodies;
        Ok(())
    }

    /// Takes a line of a body.
    fn take_line(&mut self, start: Start, words: &[&[u8]]) -> Result<(), OutOfMemory>
        requires start { start ≡ start_of (texts words.now) }
        requires section { self.old.section ≡ section.Body }
        requires fine { IsFine (draft_parts self.old) (texts words.now) }
        requires kept { IsDraftInOrder (draft_parts self.old) }
        ensures { OnOk result (Takes (draft_parts self.old) (draft_parts self.new) (texts words.now)) }
    {
        if is_end(start.keyword()) {
            return self.close_body();
        }
        if let Some(line) = line(self.alloc, start, words)? {
            self.body.push(line)?;
        }
        Ok(())
    }

    /// Takes a check.
    fn take_check(&mut self, words: &[&[u8]]) -> Result<(), OutOfMemory>
        requires handler { in_handler self.old.section ≡ false }
        requires body { in_body self.old.section ≡ false }
        requires kernel { in_kernel self.old.section ≡ false }
        requires begins { begins (texts words.now) ≡ Some key.Check }
        requires fine { IsFine (draft_parts self.old) (texts words.now) }
        requires kept { IsDraftInOrder (draft_parts self.old) }
        ensures { OnOk result (Takes (draft_parts self.old) (draft_parts self.new) (texts words.now)) }
    {
        if let Some(check) = check_line(words) {
            self.checks.push(check)?;
            self.section = Section::Checks;
        }
        Ok(())
    }

    /// Takes a line outside of handlers, bodies and the kernel.
    fn take_opening(&mut self, keyword: Option<Keyword>, words: &[&[u8]]) -> Result<(), OutOfMemory>
        requires keyword { keyword ≡ begins (texts words.now) }
        requires handler { in_handler self.old.section ≡ false }
        requires body { in_body self.old.section ≡ false }
        requires kernel { in_kernel self.old.section ≡ false }
        requires fine { IsFine (draft_parts self.old) (texts words.now) }
        requires kept { IsDraftInOrder (draft_parts self.old) }
        ensures { OnOk result (Takes (draft_parts self.old) (draft_parts self.new) (texts words.now)) }
    {
        if is_check(keyword) {
            return self.take_check(words);
        }
        if is_handler(keyword) {
            self.section = Section::Handler;
        } else if is_kernel(keyword) {
            self.section = Section::Kernel(KernelPart::Head);
        } else {
            self.section = Section::Body;
        }
        Ok(())
    }

    /// Takes a line of the kernel.
    fn take_part(
        &mut self,
        keyword: Option<Keyword>,
        words: &[&[u8]],
        stamp: Option<Stamp>,
    ) -> Result<(), OutOfMemory>
        requires keyword { keyword ≡ begins (texts words.now) }
        requires section { in_kernel self.old.section ≡ true }
        requires stamp { stamp ≡ stamp_line (texts words.now) }
        requires fine { IsFine (draft_parts self.old) (texts words.now) }
        requires kept { IsDraftInOrder (draft_parts self.old) }
        ensures { OnOk result (Takes (draft_parts self.old) (draft_parts self.new) (texts words.now)) }
    {
        if let Some(stamp) = stamp {
            self.kernel.take_stamp(stamp)?;
            self.section = Section::Kernel(KernelPart::Entries);
            return Ok(());
        }
        self.section = Section::Kernel(KernelPart::Opens);
        if let Some(f) = open_line(keyword, words) {
            self.kernel.open(f);
            return Ok(());
        }
        self.kernel.clock = clock_line(keyword, words);
        Ok(())
    }

    /// The script and the kernel that were read, if nothing is open and there is a body.
    pub fn close(self) -> Result<(Script, Kernel), OutOfMemory>
        requires closable { IsClosable (draft_parts self) }
        requires kept { IsDraftInOrder (draft_parts self) }
        ensures { IfOk result (λ read. (read.0 ≡ record { handlers = self.handlers.items; checks = self.checks.items; bodies = self.bodies.items }) × (kernel_of read.1 ≡ started (unwrap_or self.kernel.clock 1) self.kernel.live.0 self.kernel.trace)) }
    {
        let kernel = self.kernel.close(self.alloc)?;
        Ok((Script::new(self.handlers, self.checks, self.bodies), kernel))
    }

    /// Takes a line of words that breaks no rule, by how it begins. The stamp is the one that the line stands for.
    pub fn take(
        &mut self,
        start: Start,
        words: &[&[u8]],
        stamp: Option<Stamp>,
    ) -> Result<(), OutOfMemory>
        requires start { start ≡ start_of (texts words.now) }
        requires stamp { stamp ≡ stamp_line (texts words.now) }
        requires fine { IsFine (draft_parts self.old) (texts words.now) }
        requires kept { IsDraftInOrder (draft_parts self.old) }
        ensures { OnOk result (Takes (draft_parts self.old) (draft_parts self.new) (texts words.now)) }
    {
        match self.section {
            Section::Handler => self.take_act(start, words),
            Section::Body => self.take_line(start, words),
            Section::Kernel(_) => self.take_part(start.keyword(), words, stamp),
            _ => self.take_opening(start.keyword(), words),
        }
    }
}

/// Whether a line opens a handler.
fn is_handler(keyword: Option<Keyword>) -> bool
    ensures { result ≡ is_handler keyword }
{
    matches!(keyword, Some(Keyword::Handler))
}

/// Whether a line is a check.
fn is_check(keyword: Option<Keyword>) -> bool
    ensures { result ≡ is_check keyword }
{
    matches!(keyword, Some(Keyword::Check))
}

/// Whether a kernel begins below a line.
fn is_kernel(keyword: Option<Keyword>) -> bool
    ensures { result ≡ is_kernel keyword }
{
    matches!(keyword, Some(Keyword::Kernel))
}

/// Whether a line closes a handler or a body.
fn is_end(keyword: Option<Keyword>) -> bool
    ensures { result ≡ is_end keyword }
{
    matches!(keyword, Some(Keyword::End))
}
