//! Calls of parts that take memory, each once while there is some: no clause says that one succeeds.

ghost use Rattle.std.specs.Prelude.{◌≡◌, ◌≤◌, OnOk};

use pth_base::answer::Answer;
use pth_base::bytes::Bytes;
use pth_base::call::Call;
use pth_base::errno::Errno;
use pth_base::event::EventSpec;
use pth_base::ids::{Fd, FdSet, HandlerId, Slot, Tid};
use pth_base::memory::OutOfMemory;
use pth_base::name::Name;
use pth_base::refusal::Refusal;
use pth_cond::barriers::Barriers;
use pth_io::transfers::try_read;
use pth_kernel::kernel::Kernel;
use pth_kernel::trace::{Entry, Stamp, Trace};
use pth_lock::mutexes::Mutexes;
use pth_lock::rwlocks::RwLocks;
use pth_port::ports::Ports;
use pth_ring::rings::Rings;
use pth_script::read::ReadErr;
use pth_script::upgrade::upgrade;
use pth_store::cleanups::Cleanups;
use pth_store::keys::Keys;
use pth_text::hex::read_hex;
use pth_text::text::Text;
use pth_text::words::words;
use pth_threads::attrs::Attrs;
use pth_threads::entry::{AddErr, NewThread};
use pth_threads::threads::Threads;
use std::alloc::Global;
use std::process::Abort;
use std::test::Fail;

fn copy(alloc: Global) -> Result<(), OutOfMemory> {
    let bytes = Bytes::from_slice(alloc, b"abc")?;
    let call = Call::Write { f: 4, bytes };
    let _call = call.copy()?;
    let answer = Answer::Bytes(Bytes::from_slice(alloc, b"abc")?);
    let _answer = answer.copy()?;
    Ok(())
}

fn add_to_text(alloc: Global) -> Result<(), OutOfMemory> {
    let mut text = Text::new(alloc);
    text.push(b"t")?;
    text.natural(u64::MAX)?;
    text.number(i64::MIN)?;
    text.hex(&[10, 255])
}

fn read_text(alloc: Global) -> Result<(), OutOfMemory> {
    let _words = words(alloc, b"a b")?;
    let _bytes = read_hex(alloc, b"00ff")?;
    Ok(())
}

/// A script's text in version 2.
fn upgrade_text(alloc: Global) -> Result<Bytes, ReadErr> {
    upgrade(alloc, b"pth 1\nthread 0\nend\n")
}

fn make_events(alloc: Global) -> Result<(), Refusal> {
    let mut rings = Rings::new(alloc);
    rings.make(EventSpec::Msg(7))?;
    rings.chain(EventSpec::Msg(8), 1)?;
    Ok(())
}

/// A value under key 0, which there must be, and a cleanup handler.
fn store(alloc: Global) -> Result<(), Refusal> {
    let mut keys = Keys::new(alloc);
    if keys.create(None).is_err() {
        return Err(Refusal::Fail(Errno::EAGAIN));
    }
    keys.set(Slot(4095), 0, 7)?;
    let mut cleanups = Cleanups::new(alloc);
    cleanups.push(Slot(4095), HandlerId(1), 5)
}

fn make_locks(alloc: Global) -> Result<(), OutOfMemory> {
    let _mutexes = Mutexes::new(alloc)?;
    let _locks = RwLocks::new(alloc)?;
    Ok(())
}

/// A message goes to port 1, is got there, and goes back to port 2, which is destroyed then.
fn send_message(rt: &impl Abort, alloc: Global) -> Result<(), Refusal> {
    let mut ports = Ports::new(alloc);
    let first = ports.create(None)?;
    let second = ports.create(Some(&name_of(rt, "replies")))?;
    assert!(rt; first.0 == 1 && second.0 == 2 && ports.sent() == 0);
    let put = ports.put(1, 7, 2)?;
    let Ok((got, value)) = ports.get(1) else {
        return Err(Refusal::Fail(Errno::ENOENT));
    };
    assert!(rt; put.0 == 1 && got.0 == 1 && value == 7);
    ports.reply(1, 8)?;
    assert!(rt; matches!(ports.pending(2), Ok(1)));
    ports.destroy(2)?;
    assert!(rt; ports.is_live(1) && !ports.is_live(2));
    Ok(())
}

fn make_barrier(alloc: Global) -> Result<(), Refusal> {
    let mut barriers = Barriers::new(alloc);
    barriers.init(63, 4096)
}

/// A name, of ASCII bytes.
fn name_of(rt: &impl Abort, text: &str) -> Name {
    assert!(rt; text.is_ascii());
    Name::cut(text)
}

fn add_thread(rt: &impl Abort, threads: &mut Threads) -> Result<(), AddErr> {
    assert!(rt; threads.made() < u32::MAX);
    let (_tid, _slot) = threads.add(NewThread {
        prio: 0,
        name: name_of(rt, "worker"),
        joinable: true,
        cancel: 1,
    })?;
    Ok(())
}

fn make_object(alloc: Global, threads: &Threads) -> Result<(), Refusal> {
    let mut attrs = Attrs::new(alloc, 20);
    attrs.of(Tid(1), threads)?;
    Ok(())
}

/// A thread, and an object that is bound to it.
fn make_threads(rt: &impl Abort, alloc: Global) -> Result<(), Fail> {
    let mut threads = Threads::new(alloc);
    add_thread(rt, &mut threads)?;
    let _tids = threads.tids(alloc)?;
    assert!(rt; make_object(alloc, &threads).is_ok());
    Ok(())
}

/// A kernel with descriptor 3, to which this comes at moment 0.
pub fn kernel_with(rt: &impl Abort, alloc: Global, what: Entry) -> Result<Kernel, OutOfMemory> {
    let mut trace = Trace::new(alloc);
    trace.push(Stamp {
        at: 0,
        fd: Fd(3),
        what,
    })?;
    assert!(rt; trace.first_fault(FdSet(8)).is_none());
    Kernel::new(alloc, 1, FdSet(8), trace)
}

/// Bytes that have come, and are read.
fn read_bytes(rt: &impl Abort, alloc: Global) -> Result<(), OutOfMemory> {
    let what = Entry::Arrive(Bytes::from_slice(alloc, b"abc")?);
    let mut kernel = kernel_with(rt, alloc, what)?;
    let _attempt = try_read(&mut kernel, 3, 2)?;
    Ok(())
}

fn take_memory(rt: &impl Abort, alloc: Global) -> Result<(), Fail> {
    copy(alloc)?;
    add_to_text(alloc)?;
    read_text(alloc)?;
    make_locks(alloc)?;
    make_threads(rt, alloc)?;
    read_bytes(rt, alloc)?;
    Ok(())
}

#[test]
fn memory_is_taken(rt: HostRuntime) -> Result<(), Fail> {
    take_memory(&rt, rt.alloc())?;
    assert!(rt; make_events(rt.alloc()).is_ok() && store(rt.alloc()).is_ok());
    assert!(rt; make_barrier(rt.alloc()).is_ok() && upgrade_text(rt.alloc()).is_ok());
    assert!(rt; send_message(&rt, rt.alloc()).is_ok());
    Ok(())
}
