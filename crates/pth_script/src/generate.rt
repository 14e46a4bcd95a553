//! A workload by which a machine is measured.

ghost use Rattle.std.specs.Prelude.{◌≡◌, ◌≤◌, ◌<◌, ◌++◌, IfOk, OnOk};
ghost use Rattle.pth_script.specs.Generated.{generated, priority_of, spawned_text};

use pth_base::bytes::Bytes;
use pth_base::memory::OutOfMemory;
use pth_text::text::Text;
use std::alloc::Global;

/// What main does before it spawns the threads, and what each of them does.
const HEAD: &[u8] = b"pth 1\nthread 0\nmutex_init 0\na1 = attr_new\n";

const TAIL: &[u8] =
    b"end\nthread 1\nmutex_acquire 0 0 0\nyield 0\nmutex_release 0\nnap a0\nadd v0 1\nend\n";

/// The priority that a number stands for, from -5 to 5.
fn priority(number: u64) -> i64
    ensures { result ≡ priority_of number }
{
    (number / 65_536 % 11) as i64 - 5
}

/// Adds the lines that spawn the thread with this argument.
fn add_spawn(text: &mut Text, number: u64, argument: u64) -> Result<(), OutOfMemory>
    ensures { OnOk result (text.new ≡ text.old ++ spawned_text number argument) }
{
    text.push(b"attr_set a1 prio ")?;
    text.number(priority(number))?;
    text.push(b"\nspawn 1 ")?;
    text.natural(argument)?;
    text.push(b" a1\n")
}

/// A script in which main spawns `n` threads, from 1 to 1,000, with priorities from -5 to 5. Each of them takes one mutex, yields, gives
/// the mutex back, and naps as many microseconds as it has a number, from 1 to `n`.
pub fn generate(alloc: Global, n: u32) -> Result<Bytes, OutOfMemory>
    requires { (1 ≤ n) × (n ≤ 1000) }
    ensures { IfOk result (λ text. text ≡ generated n) }
{
    let mut text = Text::new(alloc);
    text.push(HEAD)?;
    let mut number = u64::from(n);
    'threads: for i in 0..u64::from(n) {
        number = (number * 1_103_515_245 + 12_345) % 2_147_483_648;
        add_spawn(&mut text, number, i + 1)?;
    }
    text.push(TAIL)?;
    Bytes::from_slice(alloc, text.as_slice())
}
