//! Marks judged one by one.
//!
//! Each judge keeps ordered maps for all numbers, since a law speaks of every list of marks.

ghost use Rattle.std.specs.Prelude.{◌≡◌, ◌+◌, ◌≤◌, ◌^◌, [], ◌∷◌, ◌++◌, length, List, IfOk, OnOk, OnErr, IsErrOf, IsSome, IsTrue, false};
ghost use Rattle.pth_audit.specs.Auditing.{Follows, IsBrokenBy, IsAdded};
ghost use Rattle.pth_audit.specs.Verdicts.{IsLawful, IsVerdict, BeginsLawfully};
ghost use Rattle.pth_base.specs.declared.mark.Mark.{Mark as MarkOf};
ghost use Rattle.pth_laws.specs.InTime.{IsInTime};

use crate::endings::Endings;
use crate::error::AuditErr;
use crate::holds::Holds;
use crate::mailboxes::Mailboxes;
use crate::verdict::{AuditRule, Verdict};
use pth_base::mark::Mark;
use pth_base::memory::OutOfMemory;
use std::alloc::Global;

/// Follows a list of marks that meet the four laws, in the memory of what its threads have.
#[derive(Drop)]
pub struct Auditor {
    endings: Endings,
    holds: Holds,
    mail: Mailboxes,
}

// Whether a thread was dispatched as early as it may be.
fn is_in_time(mark: &Mark) -> bool
    ensures in_time { IsTrue result → IsInTime mark.now }
    ensures late { result ≡ false → IsInTime mark.now → ⊥ }
{
    match mark {
        Mark::Dispatch {
            waited,
            allowed,
            ..
        } => waited <= allowed,
        _ => true,
    }
}

impl Auditor {
    /// Follows no mark yet.
    pub fn new(alloc: Global) -> Auditor
        ensures { Follows result [] }
    {
        Auditor {
            endings: Endings::new(alloc),
            holds: Holds::new(alloc),
            mail: Mailboxes::new(alloc),
        }
    }

    // The first of the four laws that the marks break with this one.
    fn broken(&self, mark: &Mark) -> Option<AuditRule>
        ensures { (marks : List MarkOf) → Follows self.now marks → IsBrokenBy result marks mark.now }
    {
        if !is_in_time(mark) {
            Some(AuditRule::InTime)
        } else if !self.endings.is_lawful(mark) {
            Some(AuditRule::Orderly)
        } else if !self.holds.is_lawful(mark) {
            Some(AuditRule::Exclusive)
        } else if !self.mail.is_lawful(mark) {
            Some(AuditRule::InOrder)
        } else {
            None
        }
    }

    // Follows one mark more, with which the marks are lawful.
    fn follow(&mut self, mark: &Mark) -> Result<(), AuditErr>
        ensures follows { OnOk result ((marks : List MarkOf) → Follows self.old marks → IsLawful (marks ++ mark.now ∷ [])
            → Follows self.new (marks ++ mark.now ∷ [])) }
        ensures overflow { IsErrOf result AuditErr.Overflow → (marks : List MarkOf) → Follows self.old marks
            → 2 ^ 64 ≤ length marks + 1 }
    {
        self.endings.add(mark)?;
        self.holds.add(mark)?;
        self.mail.add(mark)
    }

    /// Follows one mark more, if the marks meet the four laws with it. Otherwise it returns the first of the four that they break, and
    /// stays as it was. An error comes only at a mark with which they meet the laws, and the auditor may then only be dropped. The counts
    /// overflow after 2^64 - 1 marks at the earliest.
    pub fn add(&mut self, mark: &Mark) -> Result<Option<AuditRule>, AuditErr>
        ensures added { IfOk result (λ rule. (marks : List MarkOf) → Follows self.old marks
            → IsAdded rule self.new marks mark.now) }
        ensures same { IfOk result (λ rule. IsSome rule → self.new ≡ self.old) }
        ensures memory { OnErr result ((marks : List MarkOf) → Follows self.old marks
            → IsLawful (marks ++ mark.now ∷ [])) }
        ensures overflow { IsErrOf result AuditErr.Overflow → (marks : List MarkOf) → Follows self.old marks
            → 2 ^ 64 ≤ length marks + 1 }
    {
        let broken = self.broken(mark);
        if broken.is_none() {
            self.follow(mark)?;
        }
        Ok(broken)
    }
}

/// The verdict on a list of marks by the four laws, from the marks alone. Memory runs out only at a mark with which the marks up to it
/// meet the four laws.
pub fn audit(alloc: Global, marks: &[Mark]) -> Result<Verdict, OutOfMemory>
    ensures verdict { IfOk result (λ v. IsVerdict marks.now v) }
    ensures memory { OnErr result (BeginsLawfully marks.now) }
{
    let mut auditor = Auditor::new(alloc);
    for (i, mark) in marks.iter().enumerate() {
        match auditor.add(mark) {
            Ok(None) => {}
            Ok(Some(rule)) => {
                return Ok(Verdict::No {
                    at: i as u64 + 1,
                    rule,
                });
            }
            Err(AuditErr::OutOfMemory) => return Err(OutOfMemory),
            // A slice has fewer marks than it takes.
            Err(AuditErr::Overflow) => unreachable!(),
        }
    }
    Ok(Verdict::Yes)
}
