//! Judges marks one by one, and the ending behind them.

ghost use Rattle.std.specs.Prelude.{◌↔◌, [], IfOk, IsTrue, List};
ghost use Rattle.pth_base.specs.declared.mark.Mark.{Mark as MarkOf};
ghost use Rattle.pth_checker.specs.Fitting.{FitsEnding};
ghost use Rattle.pth_checker.specs.Judging.{HasRoom, IsJudged, Judges};

use crate::living::Living;
use pth_audit::auditor::Auditor;
use pth_audit::error::AuditErr;
use pth_audit::verdict::AuditRule;
use pth_base::mark::Mark;
use pth_base::memory::OutOfMemory;
use pth_transcript::ending::Ending;
use std::alloc::Global;

/// Follows a list of lawful marks, in the memory of what its threads have.
#[derive(Drop)]
pub(crate) struct Judge {
    auditor: Auditor,
    living: Living,
}

impl Judge {
    /// Follows no mark yet.
    pub(crate) fn new(alloc: Global) -> Result<Judge, OutOfMemory>
        ensures { IfOk result (λ j. Judges j []) }
    {
        let living = Living::new(alloc)?;
        Ok(Judge {
            auditor: Auditor::new(alloc),
            living,
        })
    }

    /// Follows one mark more, if the marks are lawful with it. Otherwise it returns the first of the laws that they break. After that, and
    /// after an error, it may only be dropped.
    pub(crate) fn add(&mut self, mark: Mark) -> Result<Option<AuditRule>, OutOfMemory>
        requires { HasRoom self.old }
        ensures { IfOk result (λ rule. (marks : List MarkOf) → Judges self.old marks → IsJudged rule self.new marks mark) }
    {
        match self.auditor.add(&mark) {
            Ok(Some(rule)) => Ok(Some(rule)),
            Ok(None) => {
                self.living.add(mark)?;
                Ok(None)
            }
            Err(AuditErr::OutOfMemory) => Err(OutOfMemory),
            Err(AuditErr::Overflow) => unreachable!(),
        }
    }

    /// Whether an ending fits the marks so far.
    pub(crate) fn fits(&self, ending: &Ending) -> bool
        ensures { (marks : List MarkOf) → Judges self.now marks → IsTrue result ↔ FitsEnding marks ending.now }
    {
        self.living.fits(ending)
    }
}
