//! Checks of scripts.

use crate::comparison::same_text;
use pth_base::ids::CheckId;
use pth_base::program::Program;
use pth_line::script::Script;
use pth_operand::cells::Cells;
use pth_script::read::read;
use std::alloc::{AllocError, Global};
use std::test::Fail;

const CHECKS: &str =
    "pth 1\ncheck 0 arg eq v0\ncheck 1 arg ne v0\ncheck 2 arg lt v0\ncheck 3 arg le v0\ncheck 4 arg gt v0\ncheck 5 arg ge v0\nthread 0\nend\n";

/// Adds the arguments 6, 7 and 8 for which a check holds where v0 is 7.
fn add_holding(script: &Script, check: u32, text: &mut String) -> Result<(), AllocError> {
    let mut cells = Cells { cells: [0; 64] };
    cells.cells[0] = 7;
    for arg in 6..9 {
        if script.check(CheckId(check), arg, &cells) {
            write!(text, "{check} {arg}, ")?;
        }
    }
    Ok(())
}

fn holding(alloc: Global, script: &Script) -> Result<String, AllocError> {
    let mut text = String::new(alloc);
    for check in 0..7 {
        add_holding(script, check, &mut text)?;
    }
    Ok(text)
}

#[test]
fn a_check_holds_by_its_relation(rt: HostRuntime) -> Result<(), Fail> {
    let (script, _, _) = read(rt.alloc(), CHECKS.as_bytes())?;
    let text = holding(rt.alloc(), &script)?;
    same_text(
        &rt,
        text.as_str(),
        "0 7, 1 6, 1 8, 2 6, 3 6, 3 7, 4 8, 5 7, 5 8, ",
    );
    Ok(())
}
