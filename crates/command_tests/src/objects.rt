// The objects in memory over which the top call works.

use hex::decode;
use node_io::{
    Arrival, Arrivals, Calls, FileList, MemClock, MemFiles, MemLink, MemSink, MemSpawner, Moments,
    Statuses,
};
use plan_base::{Bytes, Dev, NoMemory, Text, Texts};
use planet_cli::planet;
use std::alloc::Global;

/// A call: its words, its one file with what that holds, the frames that arrive, each with its device and in hex, with
/// nothing for a turn without a frame, and the statuses of its children.
#[derive(Clone, Copy)]
pub struct Task {
    pub words: &'static [&'static str],
    pub file: &'static str,
    pub bytes: &'static [u8],
    pub arrivals: &'static [(u32, &'static str)],
    pub statuses: &'static [u8],
}

/// The numbers of the calls that fail, of each object, and how many bytes the output takes where it stops.
#[derive(Clone, Copy)]
pub struct Failing {
    pub files: &'static [u64],
    pub children: &'static [u64],
    pub link: &'static [u64],
    pub out: &'static [u64],
    pub notes: &'static [u64],
    pub room: Option<u64>,
}

/// No call fails.
pub const NONE: Failing = Failing {
    files: &[],
    children: &[],
    link: &[],
    out: &[],
    notes: &[],
    room: None,
};

/// The numbers of the calls of one object that fail.
#[derive(Clone, Copy)]
pub enum At {
    Files(&'static [u64]),
    Children(&'static [u64]),
    Link(&'static [u64]),
    Out(&'static [u64]),
}

/// These calls fail, and no other one.
pub fn fails_at(at: At) -> Failing {
    match at {
        At::Files(files) => Failing { files, ..NONE },
        At::Children(children) => Failing { children, ..NONE },
        At::Link(link) => Failing { link, ..NONE },
        At::Out(out) => Failing { out, ..NONE },
    }
}

/// The objects that stay from one call to the next.
#[derive(Drop)]
pub struct Machine {
    pub files: MemFiles,
    clock: MemClock,
    children: MemSpawner,
}

/// The objects of one call.
#[derive(Drop)]
pub struct Streams {
    pub link: MemLink,
    pub out: MemSink,
    pub notes: MemSink,
}

fn text(alloc: Global, of: &str) -> Result<Text, NoMemory> {
    Ok(Text::of(Vec::from_slice(alloc, of.as_bytes())?))
}

/// The bytes that are written so. What isn't hex ends a test as `NoMemory` does.
pub fn bytes(alloc: Global, hex: &str) -> Result<Bytes, NoMemory> {
    match decode(alloc, hex) {
        Ok(bytes) => Ok(Bytes::of(bytes)),
        Err(_) => Err(NoMemory),
    }
}

fn arrival(alloc: Global, dev: u32, frame: &str) -> Result<Arrival, NoMemory> {
    if frame.is_empty() {
        return Ok(Arrival::Quiet);
    }
    Ok(Arrival::On(Dev(dev), bytes(alloc, frame)?))
}

fn arrivals(alloc: Global, frames: &[(u32, &str)]) -> Result<Arrivals, NoMemory> {
    let mut script = Arrivals::new(alloc);
    for frame in frames {
        script.add(arrival(alloc, frame.0, frame.1)?)?;
    }
    Ok(script)
}

fn words_of(alloc: Global, all: &[&str]) -> Result<Texts, NoMemory> {
    let mut words = Texts::new(alloc);
    for word in all {
        words.add(text(alloc, word)?)?;
    }
    Ok(words)
}

fn entry(alloc: Global, name: &str, bytes: &[u8]) -> Result<(Text, Bytes), NoMemory> {
    let name = text(alloc, name)?;
    Ok((name, Bytes::of(Vec::from_slice(alloc, bytes)?)))
}

/// One file, and the calls of it that fail.
pub fn one_file(
    alloc: Global,
    name: &str,
    bytes: &[u8],
    fails: &[u64],
) -> Result<MemFiles, NoMemory> {
    let mut files = FileList::new(alloc);
    files.add(entry(alloc, name, bytes)?)?;
    MemFiles::new(alloc, files, Calls::from_slice(alloc, fails)?)
}

/// Children with these statuses, and the calls of them that fail.
pub fn children(alloc: Global, statuses: &[u8], fails: &[u64]) -> Result<MemSpawner, NoMemory> {
    let statuses = Statuses::from_slice(alloc, statuses)?;
    MemSpawner::new(alloc, statuses, Calls::from_slice(alloc, fails)?)
}

/// A link with these arrivals, and the calls of it that fail.
pub fn link(alloc: Global, frames: &[(u32, &str)], fails: &[u64]) -> Result<MemLink, NoMemory> {
    let script = arrivals(alloc, frames)?;
    MemLink::new(alloc, script, Calls::from_slice(alloc, fails)?)
}

/// A sink without a byte, and the pushes of it that fail.
pub fn sink(alloc: Global, fails: &[u64]) -> Result<MemSink, NoMemory> {
    MemSink::new(alloc, Calls::from_slice(alloc, fails)?)
}

/// The file and the children of a task, and a clock that always says 0.
pub fn machine_of(alloc: Global, task: &Task, fails: &Failing) -> Result<Machine, NoMemory> {
    let clock = MemClock::new(alloc, Moments::new(alloc))?;
    let children = children(alloc, task.statuses, fails.children)?;
    let files = one_file(alloc, task.file, task.bytes, fails.files)?;
    Ok(Machine {
        files,
        clock,
        children,
    })
}

fn output(alloc: Global, fails: &Failing) -> Result<MemSink, NoMemory> {
    match fails.room {
        None => sink(alloc, fails.out),
        Some(count) => MemSink::stopping(alloc, count),
    }
}

/// A link with the arrivals of a task, and an output and notes without a byte.
pub fn streams_of(alloc: Global, task: &Task, fails: &Failing) -> Result<Streams, NoMemory> {
    let out = output(alloc, fails)?;
    let notes = sink(alloc, fails.notes)?;
    let link = link(alloc, task.arrivals, fails.link)?;
    Ok(Streams { link, out, notes })
}

fn planet_code(alloc: Global, words: &Texts, machine: &mut Machine, streams: &mut Streams) -> u8 {
    planet(
        alloc,
        words,
        &mut machine.files,
        &mut streams.out,
        &mut streams.notes,
        &mut streams.link,
        &mut machine.clock,
        &mut machine.children,
    )
    .code
}

/// The code of the top call.
pub fn code(
    alloc: Global,
    words: &[&str],
    machine: &mut Machine,
    streams: &mut Streams,
) -> Result<u8, NoMemory> {
    let words = words_of(alloc, words)?;
    Ok(planet_code(alloc, &words, machine, streams))
}
