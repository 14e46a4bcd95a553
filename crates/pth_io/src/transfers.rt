//! Attempts to read and to write.

ghost use Rattle.std.specs.Prelude.{◌≡◌, ◌≤◌, ◌<◌, ◌^◌, ◌+◌, length, OnOk, OnErr, IfOk, is_some};
ghost use Rattle.pth_io.specs.Answered.{answered};
ghost use Rattle.pth_io.specs.Attempts.{read_answer, read_after, fits, written, write_answer, write_after};
ghost use Rattle.pth_io.specs.Reading.{reads, taken, HandsOut};
ghost use Rattle.pth_io.specs.Writing.{AnswersWrite};
ghost use Rattle.pth_kernel.specs.Kernel.{kernel_of, fd_named, unread, room};

use crate::attempt::{Attempt, counts, counts_or, fails};
use pth_base::answer::Answer;
use pth_base::bytes::Bytes;
use pth_base::errno::Errno;
use pth_base::memory::OutOfMemory;
use pth_kernel::kernel::Kernel;

// A call reads at most so many bytes.
const MOST_READ: i64 = 65_536;

// What a read does as things are.
#[derive(Clone, Copy)]
enum Reading {
    Fails(Errno),
    Takes(usize),
    Waits,
}

impl Reading {
    #[tactic(auto, using(std::proofs::lemmas::List::take_min), unfolding(crate::specs::Attempts::read_answer))]
    fn of(k: &Kernel, f: i64, n: i64) -> Reading
        ensures answer { reads result (unread (kernel_of k.now) (fd_named f)) ≡ read_answer (kernel_of k.now) (fd_named f) n }
        ensures within { taken result ≤ length (unread (kernel_of k.now) (fd_named f)) }
    {
        if !k.is_live(f) {
            return Reading::Fails(Errno::EBADF);
        }
        if n < 0 || n > MOST_READ {
            return Reading::Fails(Errno::EINVAL);
        }
        let left = k.left(f);
        if n == 0 || left > 0 {
            Reading::Takes((n as usize).min(left))
        } else if k.faulty(f) {
            Reading::Fails(Errno::EIO)
        } else if k.at_end(f) {
            Reading::Takes(0)
        } else {
            Reading::Waits
        }
    }
}

/// Reads up to `n` bytes of descriptor `f` (`pth_read`): EBADF where it is not open, EINVAL where `n` is not 0 to 65,536, the bytes
/// that are there, EIO where it has failed, and no bytes at their end or where `n` is 0. Want of memory comes only in place of bytes:
/// a refusal is certain, and so is that the call is not yet answered.
#[tactic(auto, unfolding(crate::specs::Attempts::read_after))]
pub fn try_read(k: &mut Kernel, f: i64, n: i64) -> Result<Attempt, OutOfMemory>
    ensures answer { IfOk result (λ a. answered a ≡ read_answer (kernel_of k.old) (fd_named f) n) }
    ensures after { OnOk result (kernel_of k.new ≡ read_after (fd_named f) n (kernel_of k.old)) }
    ensures refused { OnErr result (k.new ≡ k.old) }
    ensures memory { OnErr result (HandsOut (read_answer (kernel_of k.old) (fd_named f) n)) }
{
    match Reading::of(k, f, n) {
        Reading::Fails(e) => Ok(fails(e)),
        Reading::Takes(count) => {
            let bytes = k.take(f, count)?;
            Ok(Attempt::Done(Answer::Bytes(bytes)))
        }
        Reading::Waits => Ok(Attempt::NotYet),
    }
}

/// Whether a read is answered as things are.
pub fn is_read_answered(k: &Kernel, f: i64, n: i64) -> bool
    ensures { result ≡ is_some (read_answer (kernel_of k.now) (fd_named f) n) }
{
    !matches!(Reading::of(k, f, n), Reading::Waits)
}

// How many bytes fit of those that are not yet written.
fn fits(k: &Kernel, f: i64, total: usize, done: usize) -> usize
    requires { done ≤ total }
    ensures fits { result ≡ fits (kernel_of k.now) (fd_named f) total done }
    ensures within { result + done ≤ total }
    ensures room { result ≤ room (kernel_of k.now) (fd_named f) }
{
    if !k.is_live(f) || k.faulty(f) {
        return 0;
    }
    k.room(f).min((total - done) as u64) as usize
}

// The answer of a write of so many bytes, of which these were written before, and these are written now.
#[tactic(auto, unfolding(crate::specs::Attempts::write_answer, crate::specs::Attempts::written))]
fn write_attempt(live: bool, faulty: bool, total: usize, done: usize, now: usize) -> Attempt
    requires few { total < 2 ^ 63 }
    requires part { done ≤ total }
    ensures { AnswersWrite (answered result) live faulty total done now }
{
    if !live {
        counts_or(done, Errno::EBADF)
    } else if done == total {
        counts(done)
    } else if faulty {
        counts_or(done, Errno::EIO)
    } else if now == total {
        counts(now)
    } else {
        Attempt::NotYet
    }
}

/// Writes to descriptor `f` what fits of the bytes from place `done` on (`pth_write`), and says how many are written then. Answered
/// with their number once all are written. Where `f` is not open (EBADF) or has failed (EIO), with what was done before, or the error
/// where nothing was.
pub fn try_write(k: &mut Kernel, f: i64, bytes: &Bytes, done: usize) -> (usize, Attempt)
    requires { done ≤ length bytes.now }
    ensures written { result.0 ≡ written (kernel_of k.old) (fd_named f) (length bytes.now) done }
    ensures within { result.0 ≤ length bytes.now }
    ensures answer { answered result.1 ≡ write_answer (kernel_of k.old) (fd_named f) (length bytes.now) done }
    ensures after { kernel_of k.new ≡ write_after (fd_named f) (length bytes.now) done (kernel_of k.old) }
{
    try_write_of(k, f, bytes.as_slice().len(), done)
}

/// The same of `total` bytes, wherever they are kept: the kernel counts them alone.
#[tactic(auto, unfolding(crate::specs::Attempts::write_after, crate::specs::Attempts::written))]
pub fn try_write_of(k: &mut Kernel, f: i64, total: usize, done: usize) -> (usize, Attempt)
    requires few { total < 2 ^ 63 }
    requires part { done ≤ total }
    ensures written { result.0 ≡ written (kernel_of k.old) (fd_named f) total done }
    ensures within { result.0 ≤ total }
    ensures answer { answered result.1 ≡ write_answer (kernel_of k.old) (fd_named f) total done }
    ensures after { kernel_of k.new ≡ write_after (fd_named f) total done (kernel_of k.old) }
{
    let more = fits(k, f, total, done);
    let attempt = write_attempt(k.is_live(f), k.faulty(f), total, done, done + more);
    k.give(f, more as u64);
    (done + more, attempt)
}

/// Whether a write of `total` bytes, of which `done` are written, is answered as things are.
#[tactic(auto, unfolding(crate::specs::Attempts::write_answer))]
pub fn is_write_answered(k: &Kernel, f: i64, total: usize, done: usize) -> bool
    requires { done ≤ total }
    ensures { result ≡ is_some (write_answer (kernel_of k.now) (fd_named f) total done) }
{
    !k.is_live(f) || k.faulty(f) || done + fits(k, f, total, done) == total
}
