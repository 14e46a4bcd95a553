//! Files of the system as files that are read.

ghost use Rattle.std.specs.Prelude.{◌≡◌, None, is_some};

use crate::files::Files;
use crate::source::Failed;
use std::io::Read;
use std::marker::Model;
use std::{fs, rt};

/// Files of the system, one open at a time.
#[derive(Drop)]
pub struct OpenFiles<'a, R: rt::Files>
where
    R::File: Drop,
{
    rt: &'a R,
    file: Option<R::File>,
    faults: u64,
}

impl<'a, R: rt::Files> Model for OpenFiles<'a, R>
where
    R::File: Drop,
{
    ghost use Rattle.std.specs.Prelude.{Option};
    ghost use Rattle.pth_streams.specs.Counted.{Counted};

    ghost Value = { Counted (Option R.File) };

    ghost view = { λ s. record { inner = s.file; faults = s.faults } };
}

impl<'a, R: rt::Files> OpenFiles<'a, R>
where
    R::File: Drop,
{
    /// No file is open at first.
    pub fn new(rt: &'a R) -> OpenFiles<'a, R>
        ensures { result ≡ record { inner = None; faults = 0 } }
    {
        OpenFiles {
            rt,
            file: None,
            faults: 0,
        }
    }
}

impl<'a, R: rt::Files> Files for OpenFiles<'a, R>
where
    R::File: Read + Drop,
{
    ghost started = { λ s. is_some s.inner };

    ghost left = { λ _. None };

    ghost held = { λ _ _. None };

    ghost faults = { λ s. s.faults };

    fn start(&mut self, name: &str) -> Result<(), Failed> {
        self.file = None;
        match fs::open(self.rt, name) {
            Ok(file) => {
                self.file = Some(file);
                Ok(())
            }
            Err(_) => {
                self.faults = self.faults.saturating_add(1);
                Err(Failed)
            }
        }
    }

    fn read(&mut self, buf: &mut [u8]) -> Result<usize, Failed> {
        match &mut self.file {
            Some(file) => match file.read(buf) {
                Ok(n) => Ok(n),
                Err(_) => {
                    self.faults = self.faults.saturating_add(1);
                    Err(Failed)
                }
            },
            None => unreachable!(),
        }
    }
}
