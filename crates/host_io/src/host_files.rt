//! The files of the machine.
ghost use Rattle.std.specs.Prelude.{◌≡◌, [], false, is_some};

use crate::host_sink::write_some;
use node_io::{Failed, Files, raise};
use std::fs;
use std::io::Read;
use std::rt::Files as System;

/// The files of the system. Each push writes and flushes, so that no fault comes later. It reports
/// nothing of what the files hold.
#[derive(Drop)]
pub struct HostFiles<'a, R: System> {
    system: &'a R,
    source: Option<R::File>,
    target: Option<R::File>,
    read_faults: u64,
    write_faults: u64,
}

impl<'a, R: System> HostFiles<'a, R> {
    /// The files of this system: no fault is counted, and nothing is begun.
    pub fn new(system: &'a R) -> HostFiles<'a, R>
        ensures { (result.read_faults ≡ 0) × (result.write_faults ≡ 0)
            × (is_some result.source ≡ false) × (is_some result.target ≡ false) }
    {
        HostFiles {
            system,
            source: None,
            target: None,
            read_faults: 0,
            write_faults: 0,
        }
    }
}

impl<R: System> Files for HostFiles<'_, R> {
    ghost state = { λ f. record {
      observable = false;
      held = [];
      asked = [];
      made = [];
      left = [];
      target = [];
      reading = is_some f.source;
      writing = is_some f.target;
      read_faults = f.read_faults;
      write_faults = f.write_faults;
    } };

    fn read_from(&mut self, name: &str) -> Result<(), Failed> {
        self.source = fs::open(self.system, name).ok();
        if self.source.is_none() {
            raise(&mut self.read_faults);
            return Err(Failed);
        }
        Ok(())
    }

    fn pull(&mut self, buf: &mut [u8]) -> Result<usize, Failed> {
        match &mut self.source {
            None => unreachable!(),
            Some(file) => match file.read(buf) {
                Ok(count) => Ok(count),
                Err(_) => {
                    raise(&mut self.read_faults);
                    Err(Failed)
                }
            },
        }
    }

    fn write_to(&mut self, name: &str) -> Result<(), Failed> {
        self.target = fs::create(self.system, name).ok();
        if self.target.is_none() {
            raise(&mut self.write_faults);
            return Err(Failed);
        }
        Ok(())
    }

    fn push(&mut self, piece: &[u8]) -> Result<usize, Failed> {
        match &mut self.target {
            None => unreachable!(),
            Some(file) => match write_some(file, piece) {
                Some(count) => Ok(count),
                None => {
                    raise(&mut self.write_faults);
                    Err(Failed)
                }
            },
        }
    }
}
