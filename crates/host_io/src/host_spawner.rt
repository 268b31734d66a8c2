//! The children of the process.
ghost use Rattle.std.specs.Prelude.{◌≡◌, ◌+◌, ◌≤◌, ◌++◌, ◌∷◌, [], false, filter, vec_len, vec_capacity, IfSome, OnSome, MatchOption};
ghost use Rattle.node_io.specs.Spawners.{is_other, IsFresh};

use node_io::{Child, Failed, Spawner, raise};
use plan_base::{Text, Texts};
use std::alloc::Global;
use std::process::{Child as Process, Command, OpenProcess, Processes, Stdio};
use std::{io, str};

/// Child processes of one program, which are given their words. Their standard input is empty, what they write to
/// standard output is dropped, and their notes pass to standard error.
///
/// A child that ended without a status is a fault, and so is a word that isn't UTF-8.
#[derive(Drop)]
pub struct HostSpawner<'a, R: Processes> {
    alloc: Global,
    system: &'a R,
    program: Text,
    // the number of the next child, and those not yet waited for
    next: u32,
    children: Vec<Child>,
    processes: Vec<(Child, Process<R::Started>)>,
    faults: u64,
}

impl<'a, R: Processes> HostSpawner<'a, R> {
    /// A spawner of the program with this path: no fault is counted, and no child is open.
    pub fn new(alloc: Global, system: &'a R, program: Text) -> HostSpawner<'a, R>
        ensures faults { result.faults ≡ 0 }
        ensures children { result.children.items ≡ [] }
    {
        HostSpawner {
            alloc,
            system,
            program,
            next: 0,
            children: Vec::new(alloc),
            processes: Vec::new(alloc),
            faults: 0,
        }
    }
}

// A text as words of a command have it.
fn utf8_text(text: &Text) -> io::Result<&str> {
    match str::from_utf8(text.as_slice()) {
        Ok(text) => Ok(text),
        Err(_) => Err(io::Error::from(io::ErrorKind::InvalidInput)),
    }
}

// A command, which is dropped by a call.
struct CommandLine {
    command: Command,
}

impl Drop for CommandLine {
    fn drop(self) {
        let CommandLine { command: _command } = self;
    }
}

impl CommandLine {
    // A command of the program, without words.
    fn of(alloc: Global, program: &Text) -> io::Result<CommandLine> {
        let command = Command::new(alloc, utf8_text(program)?)?;
        Ok(CommandLine { command })
    }

    // Adds words.
    fn add(&mut self, words: &[Text]) -> io::Result<()> {
        for word in words {
            self.command.arg(utf8_text(word)?)?;
        }
        Ok(())
    }

    // Starts it.
    fn start<R: Processes>(&mut self, system: &R) -> io::Result<Process<R::Started>> {
        self.command.stdin(Stdio::null());
        self.command.stdout(Stdio::null());
        self.command.spawn(system)
    }
}

// Starts the program with these words.
fn run<R: Processes>(
    alloc: Global,
    system: &R,
    program: &Text,
    words: &Texts,
) -> io::Result<Process<R::Started>> {
    let mut line = CommandLine::of(alloc, program)?;
    line.add(words.as_slice())?;
    line.start(system)
}

// The exit status of a process once it has ended, where it has one.
fn exit_status<P: OpenProcess>(process: &mut Process<P>) -> Option<u8> {
    let status = process.wait().ok()?;
    u8::try_from(status.code()?).ok()
}

// Takes the process of this child off the list, and answers its exit status once it has ended, where it has one.
fn status_of<R: Processes>(
    processes: &mut Vec<(Child, Process<R::Started>)>,
    child: Child,
) -> Option<u8> {
    let at = processes.iter().position(|entry| entry.0.0 == child.0)?;
    let (_, mut process) = processes.swap_remove(at);
    exit_status(&mut process)
}

// Whether a child is open.
fn is_open(children: &[Child], child: Child) -> bool
    ensures { result ≡ false → IsFresh children.now child }
{
    children.contains(&child)
}

// Takes a child off the open ones.
fn forget(children: &mut Vec<Child>, child: Child)
    ensures { children.new.items ≡ filter (is_other child) children.old.items }
{
    children.retain(|other| other.0 != child.0);
}

impl<R: Processes> HostSpawner<'_, R> {
    // Starts a process, where there is room for one more child and the system starts it.
    fn start_process(&mut self, words: &Texts) -> Option<Process<R::Started>>
        ensures children { self.new.children.items ≡ self.old.children.items }
        ensures faults { self.new.faults ≡ self.old.faults }
        ensures room { OnSome result
            ((vec_len self.new.children + 1 ≤ vec_capacity self.new.children)
            × (vec_len self.new.processes + 1 ≤ vec_capacity self.new.processes)) }
    {
        self.children.reserve(1).ok()?;
        self.processes.reserve(1).ok()?;
        run(self.alloc, self.system, &self.program, words).ok()
    }

    // Starts the next child, where its number is free, there is room for it, and the system starts it.
    fn start_next(&mut self, words: &Texts) -> Option<Child>
        ensures children { MatchOption result
            (self.new.children.items ≡ self.old.children.items)
            (λ child. self.new.children.items ≡ self.old.children.items ++ child ∷ []) }
        ensures fresh { IfSome result (IsFresh self.old.children.items) }
        ensures faults { self.new.faults ≡ self.old.faults }
    {
        let child = Child(self.next);
        if is_open(self.children.as_slice(), child) {
            return None;
        }
        let process = self.start_process(words)?;
        self.children.push_reserved(child);
        self.processes.push_reserved((child, process));
        self.next = self.next.wrapping_add(1);
        Some(child)
    }
}

impl<R: Processes> Spawner for HostSpawner<'_, R> {
    ghost state = { λ s. record {
      observable = false;
      statuses = [];
      started = 0;
      starts = [];
      children = s.children.items;
      faults = s.faults;
    } };

    fn start(&mut self, words: &Texts) -> Result<Child, Failed> {
        match self.start_next(words) {
            Some(child) => Ok(child),
            None => {
                raise(&mut self.faults);
                Err(Failed)
            }
        }
    }

    fn wait(&mut self, child: Child) -> Result<u8, Failed> {
        forget(&mut self.children, child);
        match status_of::<R>(&mut self.processes, child) {
            Some(status) => Ok(status),
            None => {
                raise(&mut self.faults);
                Err(Failed)
            }
        }
    }
}
