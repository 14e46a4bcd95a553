//! Sets of descriptors as words.

ghost use Rattle.std.specs.Prelude.{◌≡◌, ◌≤◌, ◌++◌, take, flat_map, codes, decimal};
ghost use Rattle.pth_print.specs.Adding.{AddsText};
ghost use Rattle.pth_base.specs.Descriptors.{members_below};
ghost use Rattle.pth_print.specs.Sets.{members_word, set_word};

use pth_base::ids::FdSet;
use pth_base::memory::OutOfMemory;
use pth_text::text::Text;

/// Writes the members of a set to the front of a list, and gives their number.
fn list_members(set: FdSet, members: &mut [u8; 64]) -> usize
    ensures within { result ≤ 64 }
    ensures members { take result members.new ≡ members_below set.0 64 }
{
    let mut count = 0;
    for f in 0..64u8 {
        if set.0 >> f & 1 == 1 {
            members[count] = f;
            count += 1;
        }
    }
    count
}

/// Adds members, each after a comma.
fn add_others(members: &[u8], out: &mut Text) -> Result<(), OutOfMemory>
    ensures { AddsText out.old out.new result (flat_map (λ f. codes "," ++ decimal f) members.now) }
{
    for f in members {
        out.push(b",")?;
        out.natural(u64::from(*f))?;
    }
    Ok(())
}

/// Adds members with commas between them, or `-` where there is none.
fn add_members(members: &[u8], out: &mut Text) -> Result<(), OutOfMemory>
    ensures { AddsText out.old out.new result (members_word members.now) }
{
    match members {
        [] => out.push(b"-"),
        [first, others @ ..] => {
            out.natural(u64::from(*first))?;
            add_others(others, out)
        }
    }
}

/// Adds a set.
pub fn add_set(set: FdSet, out: &mut Text) -> Result<(), OutOfMemory>
    ensures { AddsText out.old out.new result (set_word set.0) }
{
    let mut members = [0; 64];
    let count = list_members(set, &mut members);
    add_members(&members[..count], out)
}
