//! What the lines read so far have said.
ghost use Rattle.std.specs.Prelude.{◌≡◌};
ghost use Rattle.schedule_text.specs.Schedules.{schedule_of_reading};

use checked_chunks::Checked;
use containers::Items;
use line_reader::OpenProgram;
use network_config::{HostSpecs, Links, Schedule, Topology, WorldEvents};
use plan_base::{Name, Version};

/// A typed program of a file, with the name that the file gives it.
#[derive(Drop)]
pub struct NamedProgram {
    /// Its name.
    pub name: Name,
    /// The program.
    pub program: Checked,
}

/// A list of named programs.
pub type NamedPrograms = Items<NamedProgram>;

/// What the lines read so far have said.
pub struct Reading {
    /// The version, 1 until the header is read.
    pub version: Version,
    /// Whether the trace shows frames.
    pub frames: bool,
    /// The hosts.
    pub hosts: HostSpecs,
    /// The links.
    pub links: Links,
    /// The programs.
    pub programs: NamedPrograms,
    /// The events.
    pub events: WorldEvents,
    /// The weights of all injected chunks in sum, at most 16,777,216.
    pub weight: u64,
}

impl Drop for Reading {
    fn drop(self) {
        let Reading {
            version: _version,
            frames: _frames,
            hosts: _hosts,
            links: _links,
            programs: _programs,
            events: _events,
            weight: _weight,
        } = self;
    }
}

impl Reading {
    /// The schedule that was read.
    pub fn into_schedule(self) -> Schedule
        ensures { result ≡ schedule_of_reading self }
    {
        let Reading {
            version,
            frames,
            hosts,
            links,
            programs,
            events,
            weight: _weight,
        } = self;
        drop(programs);
        Schedule {
            frames,
            topology: Topology {
                hosts,
                links,
                version,
            },
            events,
        }
    }
}

/// A program whose lines are being read.
#[derive(Drop)]
pub struct BegunProgram {
    /// Its name.
    pub name: Name,
    /// Its first line and its text so far.
    pub source: OpenProgram,
}

/// Which lines may come next.
#[derive(Drop)]
pub enum Stage {
    /// The header.
    Header,
    /// The network's lines.
    Network,
    /// The text of a program.
    Inside(BegunProgram),
    /// The events.
    Events,
}

/// A schedule that is being read.
#[derive(Drop)]
pub struct ScheduleFile {
    /// Which lines may come next.
    pub stage: Stage,
    /// What was read.
    pub reading: Reading,
}
