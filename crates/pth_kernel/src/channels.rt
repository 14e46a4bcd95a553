//! The descriptors together.

ghost use Rattle.std.specs.Prelude.{◌≡◌, ◌<◌, ◌≤◌, ℕ, IfOk, OnOk, All, length, map, slice_index_or};
ghost use Rattle.pth_base.specs.Descriptors.{descriptor_limit, contains};
ghost use Rattle.pth_kernel.specs.declared.trace.Stamp.{Stamp};
ghost use Rattle.pth_kernel.specs.Trace.{stamp_limit};
ghost use Rattle.pth_kernel.specs.Channels.{ChannelOf, unfed};
ghost use Rattle.pth_kernel.specs.Kept.{IsSoundTrace, IsSoundStamp, IsDivided, AreFed, AreOpen};

use crate::channel::Channel;
use crate::trace::Stamp;
use pth_base::ids::{FdSet, Micros};
use pth_base::memory::OutOfMemory;
use std::alloc::Global;

// How many descriptors there are.
const CHANNELS: u8 = 64;

// All descriptors, with what these stamps bring to each. None of it has come. Those are open whose bit of `live` is 1.
pub(crate) fn gathered(
    alloc: Global,
    live: u64,
    stamps: &[Stamp],
) -> Result<Vec<Channel>, OutOfMemory>
    requires { IsSoundTrace stamps.now }
    ensures many { IfOk result (λ v. length v.items ≡ descriptor_limit) }
    ensures fed { IfOk result (λ v. AreFed stamps.now (length stamps.now) 0 v.items) }
    ensures open { IfOk result (λ v. AreOpen live v.items) }
{
    let mut channels = unfed(alloc, FdSet(live))?;
    gather(&mut channels, stamps)?;
    Ok(channels)
}

// All descriptors, with nothing for any.
fn unfed(alloc: Global, live: FdSet) -> Result<Vec<Channel>, OutOfMemory>
    ensures many { IfOk result (λ v. length v.items ≡ descriptor_limit) }
    ensures unfed { IfOk result (λ v. (f : ℕ) (d : ChannelOf) → f < descriptor_limit → slice_index_or v.items f d ≡ unfed (contains live.0 f)) }
{
    let mut channels = Vec::with_capacity(alloc, CHANNELS as usize)?;
    for f in 0..CHANNELS {
        channels.push(Channel::new(alloc, live.contains(f)))?;
    }
    Ok(channels)
}

// Each stamp goes to its descriptor.
fn gather(channels: &mut [Channel], stamps: &[Stamp]) -> Result<(), OutOfMemory>
    requires sound { All IsSoundStamp stamps.now }
    requires many { length channels.old ≡ descriptor_limit }
    requires fed { AreFed stamps.now 0 0 channels.old }
    ensures fed { OnOk result (AreFed stamps.now (length stamps.now) 0 channels.new) }
    ensures used { OnOk result (map (λ (x : ChannelOf). x.used) channels.new ≡ map (λ (x : ChannelOf). x.used) channels.old) }
{
    for stamp in stamps {
        channels[stamp.fd.0 as usize].gather(&stamp.what)?;
    }
    Ok(())
}

// Counts the stamps from a place on that have come by a moment, and says at which place those begin that have not.
pub(crate) fn count(channels: &mut [Channel], stamps: &[Stamp], place: usize, to: Micros) -> usize
    requires sound { IsSoundTrace stamps.now }
    requires within { place ≤ length stamps.now }
    requires past { (k : ℕ) (d : Stamp) → k < place → (slice_index_or stamps.now k d).at ≤ to }
    requires many { length channels.old ≡ descriptor_limit }
    requires fed { AreFed stamps.now (length stamps.now) place channels.old }
    ensures divided { IsDivided stamps.now to result }
    ensures fed { AreFed stamps.now (length stamps.now) result channels.new }
    ensures used { map (λ (x : ChannelOf). x.used) channels.new ≡ map (λ (x : ChannelOf). x.used) channels.old }
{
    let mut next = place;
    while next < stamps.len() && stamps[next].at <= to {
        let stamp = &stamps[next];
        channels[stamp.fd.0 as usize].count(&stamp.what);
        next += 1;
    }
    next
}
