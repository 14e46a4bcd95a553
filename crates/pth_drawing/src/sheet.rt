//! What is drawn, column by column.

ghost use Rattle.std.specs.Prelude.{◌≡◌, ◌+◌, ◌<◌, ◌^◌, ◌++◌, [], ℕ, IfOk, OnOk};
ghost use Rattle.pth_drawing.specs.Drawing.{moment_at};
ghost use Rattle.pth_drawing.specs.Follow.{IsColumnMore, IsChartOf};
ghost use Rattle.pth_drawing.specs.Tracks.{new_track, track_in, ChangesAt, after};

use crate::chart::{Chart, End, Moment};
use crate::lanes::Tracks;
use crate::thread_event::ThreadEvent;
use pth_base::ids::Micros;
use pth_base::memory::OutOfMemory;
use std::alloc::Global;

/// How many columns there are, the moments above them, and what is known and drawn of each thread.
pub(crate) struct Sheet {
    count: u64,
    moments: Vec<Moment>,
    tracks: Tracks,
}

// By hand, so that letting one go is one call in each proof.
impl Drop for Sheet {
    fn drop(self) {
        let Sheet {
            count: _,
            moments: _,
            tracks: _,
        } = self;
    }
}

impl Sheet {
    /// There is no column.
    pub(crate) fn new(alloc: Global) -> Sheet
        ensures count { result.count ≡ 0 }
        ensures moments { result.moments.items ≡ [] }
        ensures tracks { (t : ℕ) → track_in result.tracks.by_thread t ≡ new_track t }
    {
        Sheet {
            count: 0,
            moments: Vec::new(alloc),
            tracks: Tracks::new(alloc),
        }
    }

    /// How many columns there are.
    pub(crate) fn count(&self) -> u64
        ensures { result ≡ self.now.count }
    {
        self.count
    }

    /// A column more, in which a thread runs, under a moment if time moved before it.
    pub(crate) fn add(&mut self, thread: u64, moved: Option<Micros>) -> Result<(), OutOfMemory>
        requires { self.old.count + 1 < 2 ^ 64 }
        ensures { OnOk result (IsColumnMore self.old thread moved self.new) }
    {
        self.add_moment(moved)?;
        self.tracks.run(thread, self.count)?;
        self.count += 1;
        Ok(())
    }

    // The moment of the next column.
    fn add_moment(&mut self, moved: Option<Micros>) -> Result<(), OutOfMemory>
        ensures moments { OnOk result (self.new.moments.items
            ≡ self.old.moments.items ++ moment_at self.old.count moved) }
        ensures count { self.new.count ≡ self.old.count }
        ensures tracks { self.new.tracks ≡ self.old.tracks }
    {
        if let Some(at) = moved {
            self.moments.push(Moment {
                column: self.count,
                at,
            })?;
        }
        Ok(())
    }

    /// Something happens to a thread, in the last column if there is one.
    pub(crate) fn hear(&mut self, thread_event: ThreadEvent) -> Result<(), OutOfMemory>
        ensures tracks { OnOk result (ChangesAt thread_event.thread (after thread_event.event self.old.count)
            self.old.tracks.by_thread self.new.tracks.by_thread) }
        ensures count { self.new.count ≡ self.old.count }
        ensures moments { self.new.moments ≡ self.old.moments }
    {
        self.tracks.hear(thread_event, self.count)
    }

    /// The chart from a turn on, with the lanes of the threads that are drawn, and how the run ended.
    pub(crate) fn into_chart(self, from: u64, is_cut: bool, end: End) -> Result<Chart, OutOfMemory>
        requires { self.count + 1 < 2 ^ 64 }
        ensures { IfOk result (IsChartOf from is_cut end self) }
    {
        let Sheet {
            count,
            moments,
            tracks,
        } = self;
        let columns = if is_cut { count } else { count + 1 };
        let lanes = tracks.into_lanes(columns)?;
        Ok(Chart {
            from,
            columns,
            is_cut,
            lanes,
            moments,
            end,
        })
    }
}
