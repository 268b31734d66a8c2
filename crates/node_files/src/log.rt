//! Reads the log of a node.
ghost use Rattle.std.specs.Prelude.{◌≡◌, ◌≤◌, ◌⊎◌, length, Ok, Err, IfOk, IfErr, MatchResult};
ghost use Rattle.line_reader.specs.Reads.{Leaves, Gives, FileLeaves};
ghost use Rattle.network_config.specs.NodeRules.{KeepsLog};
ghost use Rattle.network_config.specs.declared.node.Log.{Log as Logged};
ghost use Rattle.node_files.specs.Logs as spec;
ghost use Rattle.node_files.specs.Logs.{node_word, may_come, node_rest, entry_word, entry_rest, log_step_at, nothing_logged, log_of};

use crate::chunk_words::chunk;
use crate::nodes::{host_line, hosts_line, neighbour, put_neighbour};
use crate::parts::{expect, last_number, last_wide_number};
use containers::Items;
use line_reader::{
    LineError, LineFault, LineFile, LineReason, Words, allow, handler, hex_bytes, is, number,
    package, read_file, says_nothing, stopped_at, version_of,
};
use network_config::{Event, Hosts, Log, LogEvent, LogEvents, NodeConfig, first_link};
use plan_base::{Dev, Host, Version};
use service_api::{Neighbours, Packages};
use std::alloc::Global;

/// The first word of a line between the hosts and the entries.
#[derive(Clone, Copy, PartialEq, Eq)]
pub enum NodeWord {
    /// `dev`
    Dev,
    /// `without`
    Without,
    /// `events`
    Events,
}

impl NodeWord {
    /// The first word that a word is, or none.
    fn of(word: &[u8]) -> Option<NodeWord>
        ensures { result ≡ node_word word.now }
    {
        if is(word, b"dev") {
            Some(NodeWord::Dev)
        } else if is(word, b"without") {
            Some(NodeWord::Without)
        } else if is(word, b"events") {
            Some(NodeWord::Events)
        } else {
            None
        }
    }

    /// Whether such a line may still come, where it is known whether a missing package was named.
    fn may_come(self, lacks: bool) -> bool
        ensures { result ≡ may_come lacks self }
    {
        match (lacks, self) {
            (true, NodeWord::Dev) => false,
            _ => true,
        }
    }
}

/// The first word of an entry.
#[derive(Clone, Copy, PartialEq, Eq)]
pub enum EntryWord {
    /// `inject`
    Inject,
    /// `frame`
    Frame,
    /// `control`
    Control,
    /// `tick`
    Tick,
    /// `take`
    Take,
    /// `lost`
    Lost,
}

impl EntryWord {
    /// The first word that a word is, or none.
    fn of(word: &[u8]) -> Option<EntryWord>
        ensures { result ≡ entry_word word.now }
    {
        if is(word, b"inject") {
            Some(EntryWord::Inject)
        } else if is(word, b"frame") {
            Some(EntryWord::Frame)
        } else if is(word, b"control") {
            Some(EntryWord::Control)
        } else if is(word, b"tick") {
            Some(EntryWord::Tick)
        } else if is(word, b"take") {
            Some(EntryWord::Take)
        } else if is(word, b"lost") {
            Some(EntryWord::Lost)
        } else {
            None
        }
    }
}

/// Which line of a log comes next.
#[derive(Clone, Copy, PartialEq, Eq)]
pub enum LogStage {
    /// The header.
    Header,
    /// The node's own host.
    Host,
    /// The moment at which it began, under version 2.
    Boot,
    /// The hosts of its network.
    Hosts,
    /// A line between the hosts and the entries, and whether a missing package was named.
    Node(bool),
    /// An entry.
    Events,
}

/// What the lines of a log have said so far.
#[derive(Drop)]
pub struct LogReading {
    /// Which line comes next.
    pub stage: LogStage,
    /// The version, 1 until the header is read.
    pub version: Version,
    /// The moment at which the node began, 0 under version 1.
    pub boot: u64,
    /// The node's own host.
    pub here: Host,
    /// The hosts of the network.
    pub hosts: Hosts,
    /// Its neighbours, by device.
    pub neighbours: Neighbours,
    /// The packages that it lacks.
    pub missing: Packages,
    /// The entries.
    pub events: LogEvents,
}

/// `inject BOUND HEX` behind its first word, under version 2 with `handler NAME` at its end or without. Reasons:
/// `BadWord`, `BadNumber`, `BadArgument`.
#[tactic(auto, unfolding(crate::specs::Logs::inject_entry))]
fn inject_entry(
    alloc: Global,
    version: Version,
    words: &mut Words<'_>,
) -> Result<LogEvent, LineError>
    ensures { Gives (λ e. e) result (spec.inject_entry version words.old) }
{
    let bound = number(words, 0, 65_535)?;
    let chunk = chunk(alloc, words)?;
    let handler = handler(alloc, version, chunk.chunk().code.get(), words)?;
    match words.end() {
        Ok(()) => Ok(LogEvent::Step(Event::Inject(chunk, bound, handler))),
        Err(reason) => {
            drop(chunk);
            drop(handler);
            Err(LineError::Reason(reason))
        }
    }
}

/// `frame D HEX` behind its first word. Reasons: `BadWord`, `BadNumber`, `BadArgument`.
#[tactic(auto, unfolding(crate::specs::Logs::frame_entry))]
fn frame_entry(alloc: Global, words: &mut Words<'_>) -> Result<LogEvent, LineError>
    ensures { Gives (λ e. e) result (spec.frame_entry words.old) }
{
    let d = number(words, 0, 8)?;
    let bytes = hex_bytes(alloc, words, 1, 16_513)?;
    words.end()?;
    Ok(LogEvent::Step(Event::Frame(Dev(d), bytes)))
}

/// `control HEX` behind its first word. Reasons: `BadWord`, `BadArgument`.
#[tactic(auto, unfolding(crate::specs::Logs::control_entry))]
fn control_entry(alloc: Global, words: &mut Words<'_>) -> Result<LogEvent, LineError>
    ensures { Gives (λ e. e) result (spec.control_entry words.old) }
{
    let bytes = hex_bytes(alloc, words, 1, 16_513)?;
    words.end()?;
    Ok(LogEvent::Step(Event::Control(bytes)))
}

/// `take D` behind its first word. Reasons: `BadWord`, `BadNumber`.
#[tactic(auto, unfolding(crate::specs::Logs::take_entry))]
fn take_entry(words: &mut Words<'_>) -> Result<LogEvent, LineError>
    ensures { Gives (λ e. e) result (spec.take_entry words.old) }
{
    let d = last_number(words, 0, 8)?;
    Ok(LogEvent::Step(Event::Take(Dev(d))))
}

/// An entry behind its first word. Reasons: `BadWord`, `BadNumber`, `BadArgument`.
#[tactic(auto, unfolding(crate::specs::Logs::entry_rest))]
fn entry(
    alloc: Global,
    version: Version,
    word: EntryWord,
    words: &mut Words<'_>,
) -> Result<LogEvent, LineError>
    ensures { Gives (λ e. e) result (entry_rest version word words.old) }
{
    match word {
        EntryWord::Inject => inject_entry(alloc, version, words),
        EntryWord::Frame => frame_entry(alloc, words),
        EntryWord::Control => control_entry(alloc, words),
        EntryWord::Tick => {
            words.end()?;
            Ok(LogEvent::Step(Event::Tick))
        }
        EntryWord::Take => take_entry(words),
        EntryWord::Lost => {
            words.end()?;
            Ok(LogEvent::Lost)
        }
    }
}

/// What comes behind the node's own host.
fn behind_host(version: Version) -> LogStage
    ensures { result ≡ spec.behind_host version }
{
    match version {
        Version::One => LogStage::Hosts,
        Version::Two => LogStage::Boot,
    }
}

impl LogReading {
    /// Nothing read yet. Takes no memory.
    fn nothing(alloc: Global) -> LogReading
        ensures { result ≡ nothing_logged }
    {
        LogReading {
            stage: LogStage::Header,
            version: Version::One,
            boot: 0,
            here: Host(0),
            hosts: Items::new(alloc),
            neighbours: Items::new(alloc),
            missing: Items::new(alloc),
            events: Items::new(alloc),
        }
    }

    /// The node's own host. Reasons: `BadWord`, `BadNumber`.
    #[tactic(auto, unfolding(crate::specs::Logs::own_line))]
    fn own(&mut self, words: &mut Words<'_>) -> Result<(), LineError>
        ensures { Leaves result self.new (spec.own_line words.old self.old) }
    {
        self.here = host_line(words)?;
        self.stage = behind_host(self.version);
        Ok(())
    }

    /// The moment at which it began. Reasons: `BadWord`, `BadNumber`.
    #[tactic(auto, unfolding(crate::specs::Logs::boot_line))]
    fn boot(&mut self, words: &mut Words<'_>) -> Result<(), LineError>
        ensures { Leaves result self.new (spec.boot_line words.old self.old) }
    {
        expect(words, b"boot")?;
        self.boot = last_wide_number(words)?;
        self.stage = LogStage::Hosts;
        Ok(())
    }

    /// The hosts of its network. Reasons: `BadWord`, `BadNumber`, `TooMany`, `BadArgument`.
    #[tactic(auto, unfolding(crate::specs::Logs::network_line))]
    fn network(&mut self, alloc: Global, words: &mut Words<'_>) -> Result<(), LineError>
        ensures { Leaves result self.new (spec.network_line words.old self.old) }
    {
        self.hosts = hosts_line(alloc, self.here, words)?;
        self.stage = LogStage::Node(false);
        Ok(())
    }

    /// `dev D HOST` behind its first word. Reasons: `BadWord`, `BadNumber`, `TwiceNamed`, `UnknownHost`, `BadArgument`.
    #[tactic(auto, unfolding(crate::specs::Logs::device_line))]
    fn device(&mut self, alloc: Global, words: &mut Words<'_>) -> Result<(), LineError>
        ensures { Leaves result self.new (spec.device_line words.old self.old) }
    {
        let n = neighbour(
            self.here,
            self.hosts.as_slice(),
            self.neighbours.as_slice(),
            words,
        )?;
        words.end()?;
        put_neighbour(alloc, &mut self.neighbours, n)?;
        Ok(())
    }

    /// `without PACKAGE` behind its first word. Reasons: `BadWord`, `TwiceNamed`.
    #[tactic(auto, unfolding(crate::specs::Logs::missing_line))]
    fn without(&mut self, words: &mut Words<'_>) -> Result<(), LineError>
        ensures { Leaves result self.new (spec.missing_line words.old self.old) }
    {
        package(&mut self.missing, words)?;
        words.end()?;
        self.stage = LogStage::Node(true);
        Ok(())
    }

    /// `events` behind its first word. Reason: `BadWord`.
    #[tactic(auto, unfolding(crate::specs::Logs::events_line))]
    fn begin(&mut self, words: &mut Words<'_>) -> Result<(), LineError>
        ensures { Leaves result self.new (spec.events_line words.old self.old) }
    {
        words.end()?;
        self.stage = LogStage::Events;
        Ok(())
    }

    /// A line between the hosts and the entries, behind its first word.
    #[tactic(auto, unfolding(crate::specs::Logs::node_rest))]
    fn node_rest(
        &mut self,
        alloc: Global,
        word: NodeWord,
        words: &mut Words<'_>,
    ) -> Result<(), LineError>
        ensures { Leaves result self.new (node_rest word words.old self.old) }
    {
        match word {
            NodeWord::Dev => self.device(alloc, words),
            NodeWord::Without => self.without(words),
            NodeWord::Events => self.begin(words),
        }
    }

    /// A line between the hosts and the entries.
    #[tactic(auto, unfolding(crate::specs::Logs::node_line))]
    fn node(&mut self, alloc: Global, lacks: bool, words: &mut Words<'_>) -> Result<(), LineError>
        ensures { Leaves result self.new (spec.node_line lacks words.old self.old) }
    {
        let word = words.next()?;
        let word = NodeWord::of(word).ok_or(LineReason::BadWord)?;
        allow(word.may_come(lacks), LineReason::BadWord)?;
        self.node_rest(alloc, word, words)
    }

    /// An entry more. Reasons: `BadWord`, `TooMany` where there are 50,000, `BadNumber`, `BadArgument`.
    #[tactic(auto, unfolding(crate::specs::Logs::entry_line))]
    fn entry(&mut self, alloc: Global, words: &mut Words<'_>) -> Result<(), LineError>
        ensures { Leaves result self.new (spec.entry_line words.old self.old) }
    {
        let word = words.next()?;
        let word = EntryWord::of(word).ok_or(LineReason::BadWord)?;
        allow(self.events.len() < 50_000, LineReason::TooMany)?;
        let event = entry(alloc, self.version, word, words)?;
        self.events.add(event)?;
        Ok(())
    }

    /// The header, which gives the version.
    #[tactic(auto, unfolding(crate::specs::Logs::log_step_at))]
    fn header(&mut self, number: u32, line: &[u8]) -> Result<(), LineFault>
        ensures { FileLeaves result self.new (log_step_at LogStage.Header number
            line.now self.old) }
    {
        match version_of(line, b"planet log 1", b"planet log 2") {
            None => Err(LineFault::Line(number, LineReason::BadHeader)),
            Some(version) => {
                self.version = version;
                self.stage = LogStage::Host;
                Ok(())
            }
        }
    }

    /// The line of the node's own host.
    #[tactic(auto, unfolding(crate::specs::Logs::log_step_at))]
    fn host_step(&mut self, number: u32, line: &[u8]) -> Result<(), LineFault>
        ensures { FileLeaves result self.new (log_step_at LogStage.Host number line.now self.old) }
    {
        if says_nothing(line) {
            return Ok(());
        }
        let mut words = Words::of(line);
        match self.own(&mut words) {
            Ok(()) => Ok(()),
            Err(stop) => Err(stopped_at(number, stop)),
        }
    }

    /// The line of the moment at which it began.
    #[tactic(auto, unfolding(crate::specs::Logs::log_step_at))]
    fn boot_step(&mut self, number: u32, line: &[u8]) -> Result<(), LineFault>
        ensures { FileLeaves result self.new (log_step_at LogStage.Boot number line.now self.old) }
    {
        if says_nothing(line) {
            return Ok(());
        }
        let mut words = Words::of(line);
        match self.boot(&mut words) {
            Ok(()) => Ok(()),
            Err(stop) => Err(stopped_at(number, stop)),
        }
    }

    /// The line of the network's hosts.
    #[tactic(auto, unfolding(crate::specs::Logs::log_step_at))]
    fn hosts_step(&mut self, alloc: Global, number: u32, line: &[u8]) -> Result<(), LineFault>
        ensures { FileLeaves result self.new (log_step_at LogStage.Hosts number line.now self.old) }
    {
        if says_nothing(line) {
            return Ok(());
        }
        let mut words = Words::of(line);
        match self.network(alloc, &mut words) {
            Ok(()) => Ok(()),
            Err(stop) => Err(stopped_at(number, stop)),
        }
    }

    /// A line between the hosts and the entries.
    #[tactic(auto, unfolding(crate::specs::Logs::log_step_at))]
    fn node_step(
        &mut self,
        alloc: Global,
        lacks: bool,
        number: u32,
        line: &[u8],
    ) -> Result<(), LineFault>
        ensures { FileLeaves result self.new (log_step_at (LogStage.Node lacks) number
            line.now self.old) }
    {
        if says_nothing(line) {
            return Ok(());
        }
        let mut words = Words::of(line);
        match self.node(alloc, lacks, &mut words) {
            Ok(()) => Ok(()),
            Err(stop) => Err(stopped_at(number, stop)),
        }
    }

    /// The line of an entry.
    #[tactic(auto, unfolding(crate::specs::Logs::log_step_at))]
    fn entry_step(&mut self, alloc: Global, number: u32, line: &[u8]) -> Result<(), LineFault>
        ensures { FileLeaves result self.new (log_step_at LogStage.Events number
            line.now self.old) }
    {
        if says_nothing(line) {
            return Ok(());
        }
        let mut words = Words::of(line);
        match self.entry(alloc, &mut words) {
            Ok(()) => Ok(()),
            Err(stop) => Err(stopped_at(number, stop)),
        }
    }

    /// The log.
    fn into_log(self) -> Log
        ensures { result ≡ spec.log_said self }
    {
        Log {
            node: NodeConfig {
                here: self.here,
                hosts: self.hosts,
                neighbours: self.neighbours,
                serial: 1,
                version: self.version,
                boot: self.boot,
                link: first_link(self.version),
            },
            missing: self.missing,
            events: self.events,
        }
    }
}

impl LineFile for LogReading {
    ghost use Rattle.node_files.specs.Logs.{log_format};

    type Said = Log;

    ghost format = { log_format };

    fn line(&mut self, alloc: Global, number: u32, line: &[u8]) -> Result<(), LineFault> {
        match self.stage {
            LogStage::Header => self.header(number, line),
            LogStage::Host => self.host_step(number, line),
            LogStage::Boot => self.boot_step(number, line),
            LogStage::Hosts => self.hosts_step(alloc, number, line),
            LogStage::Node(lacks) => self.node_step(alloc, lacks, number, line),
            LogStage::Events => self.entry_step(alloc, number, line),
        }
    }

    fn end(self, alloc: Global, number: u32) -> Result<Log, LineFault> {
        let _unused = alloc;
        match self.stage {
            LogStage::Header => {
                drop(self);
                Err(LineFault::Line(number, LineReason::BadHeader))
            }
            LogStage::Events => Ok(self.into_log()),
            LogStage::Host | LogStage::Boot | LogStage::Hosts | LogStage::Node(_) => {
                drop(self);
                Err(LineFault::Line(number, LineReason::BadWord))
            }
        }
    }
}

#[tactic(auto, using(line_reader::proofs::FileLaws::is_found, line_reader::proofs::FileLaws::is_only, line_reader::proofs::FileLaws::is_fault))]
/// The log that a file is. Condition: at most 4,194,304 bytes.
///
/// The fault is the first line outside the format with its reason, or `NoMemory`.
pub fn read_log(alloc: Global, bytes: &[u8]) -> Result<Log, LineFault>
    requires { length bytes.now ≤ 4194304 }
    // What is answered is what the file says.
    ensures found { IfOk result (λ l. log_of bytes.now ≡ Ok l) }
    // A file that says a log is answered so, unless an allocation fails.
    ensures only { (l : Logged) → log_of bytes.now ≡ Ok l → MatchResult result (λ k. k ≡ l)
        (λ e. e ≡ LineFault.NoMemory) }
    // A refusal is the file's first one, unless an allocation fails.
    ensures fault { IfErr result (λ e. (e ≡ LineFault.NoMemory) ⊎ (log_of bytes.now ≡ Err e)) }
    // A log keeps the rules.
    ensures rules { IfOk result KeepsLog }
{
    read_file(alloc, LogReading::nothing(alloc), bytes)
}
