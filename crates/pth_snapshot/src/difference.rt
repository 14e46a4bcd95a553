//! Where two texts differ.

ghost use Rattle.std.specs.Prelude.{◌≡◌, ◌≢◌, ◌≤◌, ◌<◌, ◌+◌, ◌^◌, length, MatchOption};
ghost use Rattle.pth_snapshot.specs.Loading.{DifferFirstAt};

// How many whole lines two texts that differ begin with that are the same.
fn same_lines(a: &[u8], b: &[u8]) -> u32
    requires differ { a.now ≢ b.now }
    requires short { length b.now + 1 < 2 ^ 32 }
    ensures differ { DifferFirstAt a.now b.now (result + 1) }
    ensures few { result ≤ length b.now }
{
    let mut lines: u32 = 0;
    for i in 0..a.len().min(b.len()) {
        if a[i] != b[i] {
            return lines;
        }
        if a[i] == b'\n' {
            lines += 1;
        }
    }
    lines
}

/// The number of the first line in which two texts differ, none if they are the same. The second text has few enough bytes that the number
/// fits into 32 bits.
pub fn first_difference(a: &[u8], b: &[u8]) -> Option<u32>
    requires { length b.now + 1 < 2 ^ 32 }
    ensures { MatchOption result (a.now ≡ b.now) (λ n. DifferFirstAt a.now b.now n) }
{
    if a == b {
        return None;
    }
    Some(same_lines(a, b) + 1)
}
