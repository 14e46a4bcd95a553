//! Writes to a descriptor that has room for some bytes.

use crate::comparison::same_text;
use crate::memory::kernel_with;
use pth_base::answer::Answer;
use pth_base::bytes::Bytes;
use pth_base::errno::Errno;
use pth_io::attempt::Attempt;
use pth_io::transfers::try_write;
use pth_kernel::kernel::Kernel;
use pth_kernel::trace::Entry;
use std::alloc::{AllocError, Global};
use std::process::Abort;
use std::test::Fail;

/// A write of bytes to a descriptor, of which so many were written before.
#[derive(Clone, Copy)]
struct Write {
    f: i64,
    bytes: &'static str,
    done: usize,
}

/// Writes, one after the other, with how many bytes are written then and what the write comes to. Descriptor 3 has room for five
/// bytes, and descriptor 4 is not open.
static ROWS: [(Write, &str); 6] = [
    (
        Write {
            f: 4,
            bytes: "abc",
            done: 0,
        },
        "0 EBADF",
    ),
    (
        Write {
            f: 4,
            bytes: "abc",
            done: 2,
        },
        "2 answered 2",
    ),
    (
        Write {
            f: 3,
            bytes: "abc",
            done: 0,
        },
        "3 answered 3",
    ),
    (
        Write {
            f: 3,
            bytes: "defg",
            done: 0,
        },
        "2 not yet",
    ),
    (
        Write {
            f: 3,
            bytes: "defg",
            done: 2,
        },
        "2 not yet",
    ),
    (
        Write {
            f: 3,
            bytes: "hi",
            done: 2,
        },
        "2 answered 2",
    ),
];

fn tell_attempt(text: &mut String, attempt: &Attempt) -> Result<(), AllocError> {
    match attempt {
        Attempt::Done(Answer::Int(n)) => write!(text, "answered {n}"),
        Attempt::Done(Answer::Fail(Errno::EBADF)) => text.push_str("EBADF"),
        Attempt::Done(_) => text.push_str("answered otherwise"),
        Attempt::NotYet => text.push_str("not yet"),
    }
}

/// Makes a write, and tells what it comes to.
fn told(alloc: Global, kernel: &mut Kernel, write: Write) -> Result<String, Fail> {
    let bytes = Bytes::from_slice(alloc, write.bytes.as_bytes())?;
    let done = write.done.min(bytes.as_slice().len());
    let (written, attempt) = try_write(kernel, write.f, &bytes, done);
    let mut text = format!(in alloc; "{written} ")?;
    tell_attempt(&mut text, &attempt)?;
    Ok(text)
}

fn have_answers(rt: &impl Abort, alloc: Global, rows: &[(Write, &str)]) -> Result<(), Fail> {
    let mut kernel = kernel_with(rt, alloc, Entry::Room(5))?;
    for (write, wanted) in rows {
        let told = told(alloc, &mut kernel, *write)?;
        same_text(rt, told.as_str(), wanted);
    }
    Ok(())
}

#[test]
fn what_fits_is_written(rt: HostRuntime) -> Result<(), Fail> {
    have_answers(&rt, rt.alloc(), &ROWS)
}
