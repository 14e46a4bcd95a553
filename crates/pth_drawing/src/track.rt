//! What is known of a thread, and what is drawn of it.

ghost use Rattle.std.specs.Prelude.{◌≡◌, ◌+◌, ◌<◌, ◌^◌, IfOk, OnOk};
ghost use Rattle.pth_drawing.specs.Charts.{lane_seen};
ghost use Rattle.pth_drawing.specs.Tracks.{track_seen, new_track, shown_idle, settle, run, with_place, changed, after, whole_lane, lane_in, lanes_seen};

use crate::chart::{Lane, Shown, Stretch};
use crate::stretches::add_columns;
use crate::thread_event::Event;
use pth_base::ids::MAIN;
use pth_base::memory::OutOfMemory;
use std::alloc::Global;

/// What the marks so far tell of a thread: how it stands, and what is drawn of it. The stretches have the columns before `since`; in those
/// from there on it is drawn as it stands now.
pub(crate) struct Track {
    is_there: bool,
    has_ended: bool,
    is_waiting: bool,
    since: u64,
    stretches: Vec<Stretch>,
    canceled: Vec<u64>,
    ended: Option<u64>,
}

// By hand, so that letting one go is one call in each proof.
impl Drop for Track {
    fn drop(self) {
        let Track {
            is_there: _,
            has_ended: _,
            is_waiting: _,
            since: _,
            stretches: _,
            canceled: _,
            ended: _,
        } = self;
    }
}

impl Track {
    /// A thread of which no mark tells.
    pub(crate) fn new(alloc: Global, thread: u64) -> Track
        ensures { track_seen result ≡ new_track thread }
    {
        Track {
            is_there: thread == u64::from(MAIN),
            has_ended: false,
            is_waiting: false,
            since: 0,
            stretches: Vec::new(alloc),
            canceled: Vec::new(alloc),
            ended: None,
        }
    }

    // As what it is drawn while it does not run.
    fn shown_idle(&self) -> Option<Shown>
        ensures { result ≡ shown_idle self.now.is_there self.now.has_ended self.now.is_waiting }
    {
        if self.has_ended || !self.is_there {
            None
        } else if self.is_waiting {
            Some(Shown::Waiting)
        } else {
            Some(Shown::Ready)
        }
    }

    /// Its stretches get all columns so far.
    pub(crate) fn settle(&mut self, columns: u64) -> Result<(), OutOfMemory>
        ensures { OnOk result (track_seen self.new ≡ settle columns (track_seen self.old)) }
    {
        if let Some(shown) = self.shown_idle()
            && self.since < columns
        {
            add_columns(&mut self.stretches, shown, self.since, columns - self.since)?;
        }
        self.since = columns;
        Ok(())
    }

    /// It runs in the column after so many.
    pub(crate) fn run(&mut self, columns: u64) -> Result<(), OutOfMemory>
        requires { columns + 1 < 2 ^ 64 }
        ensures { OnOk result (track_seen self.new ≡ run columns (track_seen self.old)) }
    {
        self.settle(columns)?;
        self.since = columns + 1;
        add_columns(&mut self.stretches, Shown::Running, columns, 1)
    }

    /// Something happens to it, while there are so many columns.
    pub(crate) fn hear(&mut self, event: Event, columns: u64) -> Result<(), OutOfMemory>
        ensures { OnOk result (track_seen self.new ≡ after event columns (track_seen self.old)) }
    {
        match event {
            Event::Canceled => add_place(&mut self.canceled, columns.checked_sub(1)),
            _ => {
                self.settle(columns)?;
                self.change(event, columns);
                Ok(())
            }
        }
    }

    /// Its lane, if it is drawn in one of so many columns.
    pub(crate) fn into_lane(
        mut self,
        thread: u64,
        columns: u64,
    ) -> Result<Option<Lane>, OutOfMemory>
        ensures { IfOk result (λ lane. lanes_seen lane ≡ lane_in columns (thread, self)) }
    {
        self.settle(columns)?;
        if self.stretches.is_empty() {
            return Ok(None);
        }
        Ok(Some(self.into_whole_lane(thread)))
    }

    // Its lane, if it is settled.
    fn into_whole_lane(self, thread: u64) -> Lane
        ensures { lane_seen result ≡ whole_lane thread (track_seen self) }
    {
        let Track {
            is_there: _,
            has_ended: _,
            is_waiting: _,
            since: _,
            stretches,
            canceled,
            ended,
        } = self;
        Lane {
            thread,
            stretches,
            canceled,
            ended,
        }
    }

    // From now on it stands as this makes it.
    fn change(&mut self, event: Event, columns: u64)
        ensures { track_seen self.new ≡ changed event columns (track_seen self.old) }
    {
        match event {
            Event::Spawned => self.is_there = true,
            Event::Waits => self.is_waiting = true,
            Event::Woke => self.is_waiting = false,
            Event::Canceled => {}
            Event::Ended => {
                self.has_ended = true;
                self.ended = self.ended.or(columns.checked_sub(1));
            }
        }
    }
}

// Columns with one more, unless it is their last.
fn add_place(places: &mut Vec<u64>, place: Option<u64>) -> Result<(), OutOfMemory>
    ensures { OnOk result (places.new.items ≡ with_place place places.old.items) }
{
    if let Some(i) = place
        && places.last().copied() != place
    {
        places.push(i)?;
    }
    Ok(())
}
