//! The tracks of all threads, which become lanes.

ghost use Rattle.std.specs.Prelude.{◌≡◌, ◌+◌, ◌<◌, ◌^◌, ◌++◌, ℕ, IfOk, IsSome, OnOk};
ghost use Rattle.std.specs.Ordering.{nat_cmp};
ghost use Rattle.std.specs.BTreeMap.{get, IsOrdered};
ghost use Rattle.pth_drawing.specs.Follow.{AreLanesOf};
ghost use Rattle.pth_drawing.specs.Tracks.{new_track, track_in, AreSame, ChangesAt, run, after, lanes_in, lane_in, seen_in};

use crate::chart::Lane;
use crate::thread_event::ThreadEvent;
use crate::track::Track;
use pth_base::ids::MAIN;
use pth_base::memory::OutOfMemory;
use std::alloc::Global;
use std::collections::BTreeMap;

/// A track for each thread of which marks tell.
#[derive(Drop)]
pub(crate) struct Tracks {
    alloc: Global,
    by_thread: BTreeMap<u64, Track>,
}

impl Tracks {
    /// No mark tells of a thread.
    pub(crate) fn new(alloc: Global) -> Tracks
        ensures { (t : ℕ) → track_in result.by_thread t ≡ new_track t }
    {
        Tracks {
            alloc,
            by_thread: BTreeMap::new(alloc),
        }
    }

    /// A thread has a track.
    pub(crate) fn open(&mut self, t: u64) -> Result<(), OutOfMemory>
        ensures there { OnOk result (IsSome (get nat_cmp self.new.by_thread t)) }
        ensures same { OnOk result (AreSame self.old.by_thread self.new.by_thread) }
    {
        if self.by_thread.get(&t).is_none() {
            let _none = self.by_thread.insert(t, Track::new(self.alloc, t))?;
        }
        Ok(())
    }

    /// A thread runs in the column after so many.
    pub(crate) fn run(&mut self, t: u64, columns: u64) -> Result<(), OutOfMemory>
        requires { columns + 1 < 2 ^ 64 }
        ensures { OnOk result (ChangesAt t (run columns) self.old.by_thread self.new.by_thread) }
    {
        self.open(t)?;
        run_at(&mut self.by_thread, t, columns)
    }

    /// Something happens to a thread, while there are so many columns.
    pub(crate) fn hear(
        &mut self,
        thread_event: ThreadEvent,
        columns: u64,
    ) -> Result<(), OutOfMemory>
        ensures { OnOk result (ChangesAt thread_event.thread (after thread_event.event columns) self.old.by_thread self.new.by_thread) }
    {
        self.open(thread_event.thread)?;
        hear_at(&mut self.by_thread, thread_event, columns)
    }

    /// The lanes of those that are drawn, by rising number.
    pub(crate) fn into_lanes(mut self, columns: u64) -> Result<Vec<Lane>, OutOfMemory>
        ensures { IfOk result (AreLanesOf (track_in self.by_thread) columns) }
    {
        self.open(u64::from(MAIN))?;
        let Tracks { alloc, by_thread } = self;
        lanes_of(alloc, by_thread, columns)
    }
}

// The lanes of tracks.
fn lanes_of(
    alloc: Global,
    tracks: BTreeMap<u64, Track>,
    columns: u64,
) -> Result<Vec<Lane>, OutOfMemory>
    ensures lanes { IfOk result (λ lanes. seen_in lanes ≡ lanes_in columns tracks.entries) }
    ensures ordered { IsOrdered nat_cmp tracks }
{
    let mut lanes = Vec::new(alloc);
    for (t, track) in tracks {
        add_lane(&mut lanes, t, track, columns)?;
    }
    Ok(lanes)
}

fn run_at(tracks: &mut BTreeMap<u64, Track>, t: u64, columns: u64) -> Result<(), OutOfMemory>
    requires room { columns + 1 < 2 ^ 64 }
    requires there { IsSome (get nat_cmp tracks.old t) }
    ensures { OnOk result (ChangesAt t (run columns) tracks.old tracks.new) }
{
    match tracks.get_mut(&t) {
        Some(track) => track.run(columns),
        None => Ok(()),
    }
}

fn hear_at(
    tracks: &mut BTreeMap<u64, Track>,
    thread_event: ThreadEvent,
    columns: u64,
) -> Result<(), OutOfMemory>
    requires { IsSome (get nat_cmp tracks.old thread_event.thread) }
    ensures { OnOk result (ChangesAt thread_event.thread (after thread_event.event columns) tracks.old tracks.new) }
{
    match tracks.get_mut(&thread_event.thread) {
        Some(track) => track.hear(thread_event.event, columns),
        None => Ok(()),
    }
}

// The lane of a track that has a stretch.
fn add_lane(lanes: &mut Vec<Lane>, t: u64, track: Track, columns: u64) -> Result<(), OutOfMemory>
    ensures { OnOk result (seen_in lanes.new ≡ seen_in lanes.old ++ lane_in columns (t, track)) }
{
    if let Some(lane) = track.into_lane(t, columns)? {
        lanes.push(lane)?;
    }
    Ok(())
}
