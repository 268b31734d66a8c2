//! Reads the configuration of a serving node.
ghost use Rattle.std.specs.Prelude.{◌≡◌, ◌≤◌, ◌⊎◌, length, Ok, Err, IfOk, IfErr, OnOk, MatchResult};
ghost use Rattle.line_reader.specs.Reads.{Leaves, FileLeaves, Reads, GivesWith};
ghost use Rattle.network_config.specs.NodeRules.{KeepsServe};
ghost use Rattle.network_config.specs.declared.serve.ServeConfig.{ServeConfig as Serving};
ghost use Rattle.node_files.specs.Configs as spec;
ghost use Rattle.node_files.specs.Configs.{tail_word, may_come, with_device, tail_rest, config_step_at, nothing_read, config_of};

use crate::nodes::{host_line, hosts_line, neighbour, put_neighbour, put_port};
use crate::parts::{expect, last_number};
use checked_chunks::Checked;
use containers::Items;
use line_reader::{
    LineError, LineFault, LineFile, LineReason, OpenProgram, Words, add_weight, allow, file_name,
    injection, is, number, package, program, read_file, says_nothing, stopped_at, version_of,
};
use network_config::{DevPorts, Hosts, Inject, Injects, NodeConfig, ServeConfig, first_link};
use plan_base::{Dev, Host, NoMemory, Text, Version};
use service_api::{Neighbours, Packages};
use std::alloc::Global;

/// The first word of a line in front of the devices.
#[derive(Clone, Copy, PartialEq, Eq)]
pub enum HeadWord {
    /// `host`
    Host,
    /// `hosts`
    Hosts,
    /// `port`
    Port,
    /// `control`
    Control,
    /// `period`
    Period,
    /// `log`
    Log,
}

/// The first word of a line behind them.
#[derive(Clone, Copy, PartialEq, Eq)]
pub enum TailWord {
    /// `dev`
    Dev,
    /// `without`
    Without,
    /// `program`
    Program,
    /// `at`
    At,
}

impl TailWord {
    /// The first word that a word is, or none.
    fn of(word: &[u8]) -> Option<TailWord>
        ensures { result ≡ tail_word word.now }
    {
        if is(word, b"dev") {
            Some(TailWord::Dev)
        } else if is(word, b"without") {
            Some(TailWord::Without)
        } else if is(word, b"program") {
            Some(TailWord::Program)
        } else if is(word, b"at") {
            Some(TailWord::At)
        } else {
            None
        }
    }
}

/// How far the lines behind the name of the log are.
#[derive(Clone, Copy, PartialEq, Eq)]
pub enum TailPart {
    /// At the devices.
    Devices,
    /// At the missing packages.
    Missing,
    /// Behind the program.
    Behind,
}

impl TailPart {
    /// Whether a line with this first word may still come.
    fn may_come(self, word: TailWord) -> bool
        ensures { result ≡ may_come self word }
    {
        match (self, word) {
            (TailPart::Devices, _) => true,
            (TailPart::Missing, TailWord::Dev) => false,
            (TailPart::Missing, _) => true,
            (TailPart::Behind, TailWord::At) => true,
            (TailPart::Behind, _) => false,
        }
    }
}

/// Which line of a configuration comes next.
#[derive(Clone, Copy, PartialEq, Eq)]
pub enum ConfigStage {
    /// The header.
    Header,
    /// The line with this word.
    Wants(HeadWord),
    /// A line behind the name of the log.
    Tail(TailPart),
    /// A line of the program.
    Inside,
}

/// What the lines of a configuration have said so far.
#[derive(Drop)]
pub struct ConfigReading {
    /// Which line comes next.
    pub stage: ConfigStage,
    /// The version, 1 until the header is read.
    pub version: Version,
    /// The node's own host.
    pub here: Host,
    /// The hosts of the network.
    pub hosts: Hosts,
    /// The port at which the node listens, 0 until its line is read.
    pub port: u16,
    /// The port of its owner, 0 until its line is read.
    pub control: u16,
    /// The milliseconds from one tick to the next.
    pub period: u32,
    /// The name of its log.
    pub log: Text,
    /// Its neighbours, by device.
    pub neighbours: Neighbours,
    /// The ports of its neighbours, by device.
    pub devs: DevPorts,
    /// The packages that it lacks.
    pub missing: Packages,
    /// The program while its lines are read.
    pub program: OpenProgram,
    /// The program once they are read.
    pub checked: Option<Checked>,
    /// What is injected.
    pub at: Injects,
    /// The weights of what is injected in sum, at most 16,777,216.
    pub weight: u64,
}

fn has_port(devs: &[(Dev, u16)], port: u16) -> bool
    ensures { result ≡ spec.has_port port devs.now }
{
    devs.iter().any(|d| d.1 == port)
}

impl ConfigReading {
    /// Nothing read yet. Takes no memory.
    fn nothing(alloc: Global) -> ConfigReading
        ensures { result ≡ nothing_read }
    {
        ConfigReading {
            stage: ConfigStage::Header,
            version: Version::One,
            here: Host(0),
            hosts: Items::new(alloc),
            port: 0,
            control: 0,
            period: 0,
            log: Text::new(alloc),
            neighbours: Items::new(alloc),
            devs: Items::new(alloc),
            missing: Items::new(alloc),
            program: OpenProgram::begin_at(alloc, 1),
            checked: None,
            at: Items::new(alloc),
            weight: 0,
        }
    }

    /// `port P`. Reasons: `BadWord`, `BadNumber`.
    #[tactic(auto, unfolding(crate::specs::Configs::port_line))]
    fn port(&mut self, words: &mut Words<'_>) -> Result<(), LineError>
        ensures { Leaves result self.new (spec.port_line words.old self.old) }
    {
        expect(words, b"port")?;
        let port = last_number(words, 1, 65_535)?;
        self.port = port as u16;
        self.stage = ConfigStage::Wants(HeadWord::Control);
        Ok(())
    }

    /// Whether a port is the node's own or its owner's.
    fn is_own(&self, port: u16) -> bool
        ensures { result ≡ spec.is_own self.now port }
    {
        self.port == port || self.control == port
    }

    /// Whether a port is used.
    fn is_used(&self, port: u16) -> bool
        ensures { result ≡ spec.is_used self.now port }
    {
        self.is_own(port) || has_port(self.devs.as_slice(), port)
    }

    /// The next word as a port that isn't used yet. Reasons: `BadWord`, `BadNumber`, `TwiceNamed`.
    #[tactic(auto, unfolding(crate::specs::Configs::free_port))]
    fn free_port(&self, words: &mut Words<'_>) -> Result<u16, LineReason>
        ensures { Reads (λ p. p) result words.new (spec.free_port self.now words.old) }
    {
        let port = number(words, 1, 65_535)? as u16;
        allow(!self.is_used(port), LineReason::TwiceNamed)?;
        Ok(port)
    }

    /// `control P`. Reasons: `BadWord`, `BadNumber`, `TwiceNamed`.
    #[tactic(auto, unfolding(crate::specs::Configs::control_line))]
    fn control(&mut self, words: &mut Words<'_>) -> Result<(), LineError>
        ensures { Leaves result self.new (spec.control_line words.old self.old) }
    {
        expect(words, b"control")?;
        let port = self.free_port(words)?;
        words.end()?;
        self.control = port;
        self.stage = ConfigStage::Wants(HeadWord::Period);
        Ok(())
    }

    /// `period MS`. Reasons: `BadWord`, `BadNumber`.
    #[tactic(auto, unfolding(crate::specs::Configs::period_line))]
    fn period(&mut self, words: &mut Words<'_>) -> Result<(), LineError>
        ensures { Leaves result self.new (spec.period_line words.old self.old) }
    {
        expect(words, b"period")?;
        self.period = last_number(words, 1, 60_000)?;
        self.stage = ConfigStage::Wants(HeadWord::Log);
        Ok(())
    }

    /// `log FILE`. Reason: `BadWord`.
    #[tactic(auto, unfolding(crate::specs::Configs::log_line))]
    fn log(&mut self, alloc: Global, words: &mut Words<'_>) -> Result<(), LineError>
        ensures { Leaves result self.new (spec.log_line words.old self.old) }
    {
        expect(words, b"log")?;
        let file = file_name(alloc, words)?;
        words.end()?;
        self.log = file;
        self.stage = ConfigStage::Tail(TailPart::Devices);
        Ok(())
    }

    /// The line with a word. Reasons: `BadWord`, `BadNumber`, `TooMany`, `BadArgument`, `TwiceNamed`.
    #[tactic(auto, unfolding(crate::specs::Configs::wanted_line))]
    fn line_of_word(
        &mut self,
        alloc: Global,
        word: HeadWord,
        words: &mut Words<'_>,
    ) -> Result<(), LineError>
        ensures { Leaves result self.new (spec.wanted_line word words.old self.old) }
    {
        match word {
            HeadWord::Host => {
                self.here = host_line(words)?;
                self.stage = ConfigStage::Wants(HeadWord::Hosts);
                Ok(())
            }
            HeadWord::Hosts => {
                self.hosts = hosts_line(alloc, self.here, words)?;
                self.stage = ConfigStage::Wants(HeadWord::Port);
                Ok(())
            }
            HeadWord::Port => self.port(words),
            HeadWord::Control => self.control(words),
            HeadWord::Period => self.period(words),
            HeadWord::Log => self.log(alloc, words),
        }
    }

    /// Adds a neighbour with its port.
    fn add_device(&mut self, alloc: Global, n: (Host, Dev), port: u16) -> Result<(), NoMemory>
        ensures { OnOk result (self.new ≡ with_device self.old n port) }
    {
        put_neighbour(alloc, &mut self.neighbours, n)?;
        put_port(alloc, &mut self.devs, (n.1, port))
    }

    /// `dev D HOST PORT` behind its first word. Reasons: `BadWord`, `BadNumber`, `TwiceNamed`, `UnknownHost`,
    /// `BadArgument`.
    #[tactic(auto, unfolding(crate::specs::Configs::device_line))]
    fn device(&mut self, alloc: Global, words: &mut Words<'_>) -> Result<(), LineError>
        ensures { Leaves result self.new (spec.device_line words.old self.old) }
    {
        let n = neighbour(
            self.here,
            self.hosts.as_slice(),
            self.neighbours.as_slice(),
            words,
        )?;
        let port = self.free_port(words)?;
        words.end()?;
        self.add_device(alloc, n, port)?;
        Ok(())
    }

    /// `without PACKAGE` behind its first word. Reasons: `BadWord`, `TwiceNamed`.
    #[tactic(auto, unfolding(crate::specs::Configs::missing_line))]
    fn without(&mut self, words: &mut Words<'_>) -> Result<(), LineError>
        ensures { Leaves result self.new (spec.missing_line words.old self.old) }
    {
        package(&mut self.missing, words)?;
        words.end()?;
        self.stage = ConfigStage::Tail(TailPart::Missing);
        Ok(())
    }

    /// `program` behind its first word. Reason: `BadWord`.
    #[tactic(auto, unfolding(crate::specs::Configs::program_line))]
    fn program(
        &mut self,
        alloc: Global,
        number: u32,
        words: &mut Words<'_>,
    ) -> Result<(), LineError>
        ensures { Leaves result self.new (spec.program_line number words.old self.old) }
    {
        words.end()?;
        self.program = OpenProgram::begin_at(alloc, number);
        self.stage = ConfigStage::Inside;
        Ok(())
    }

    /// `at TURN inject ENTRY BOUND ARGS` behind its first word, under version 2 with `handler NAME` in front of ARGS or
    /// without. Reasons: `UnknownProgram`, `BadWord`, `BadNumber`, `BadArgument`, `TooMany`.
    #[tactic(auto, unfolding(crate::specs::Configs::inject_line))]
    fn inject(&mut self, alloc: Global, words: &mut Words<'_>) -> Result<(), LineError>
        ensures { Leaves result self.new (spec.inject_line words.old self.old) }
    {
        let Some(program) = &self.checked else {
            return Err(LineError::Reason(LineReason::UnknownProgram));
        };
        let turn = number(words, 1, 1_000_000)?;
        expect(words, b"inject")?;
        let (chunk, bound, handler) = injection(alloc, self.version, program, words)?;
        match add_weight(self.weight, &chunk) {
            Ok(weight) => {
                self.at.add(Inject {
                    turn,
                    bound,
                    chunk,
                    handler,
                })?;
                self.weight = weight;
                Ok(())
            }
            Err(reason) => {
                drop(chunk);
                drop(handler);
                Err(LineError::Reason(reason))
            }
        }
    }

    /// A line behind its first word.
    #[tactic(auto, unfolding(crate::specs::Configs::tail_rest))]
    fn rest(
        &mut self,
        alloc: Global,
        word: TailWord,
        number: u32,
        words: &mut Words<'_>,
    ) -> Result<(), LineError>
        ensures { Leaves result self.new (tail_rest word number words.old self.old) }
    {
        match word {
            TailWord::Dev => self.device(alloc, words),
            TailWord::Without => self.without(words),
            TailWord::Program => self.program(alloc, number, words),
            TailWord::At => self.inject(alloc, words),
        }
    }

    /// A line behind the name of the log.
    #[tactic(auto, unfolding(crate::specs::Configs::tail_line))]
    fn tail(
        &mut self,
        alloc: Global,
        part: TailPart,
        number: u32,
        words: &mut Words<'_>,
    ) -> Result<(), LineError>
        ensures { Leaves result self.new (spec.tail_line part number words.old self.old) }
    {
        let word = words.next()?;
        let word = TailWord::of(word).ok_or(LineReason::BadWord)?;
        allow(part.may_come(word), LineReason::BadWord)?;
        self.rest(alloc, word, number, words)
    }

    /// The header, which gives the version.
    #[tactic(auto, unfolding(crate::specs::Configs::config_step_at))]
    fn header(&mut self, number: u32, line: &[u8]) -> Result<(), LineFault>
        ensures { FileLeaves result self.new (config_step_at ConfigStage.Header number
            line.now self.old) }
    {
        match version_of(line, b"planet node 1", b"planet node 2") {
            None => Err(LineFault::Line(number, LineReason::BadHeader)),
            Some(version) => {
                self.version = version;
                self.stage = ConfigStage::Wants(HeadWord::Host);
                Ok(())
            }
        }
    }

    /// A line up to the name of the log.
    #[tactic(auto, unfolding(crate::specs::Configs::config_step_at))]
    fn usual(
        &mut self,
        alloc: Global,
        word: HeadWord,
        number: u32,
        line: &[u8],
    ) -> Result<(), LineFault>
        ensures { FileLeaves result self.new (config_step_at (ConfigStage.Wants word) number
            line.now self.old) }
    {
        if says_nothing(line) {
            return Ok(());
        }
        let mut words = Words::of(line);
        match self.line_of_word(alloc, word, &mut words) {
            Ok(()) => Ok(()),
            Err(stop) => Err(stopped_at(number, stop)),
        }
    }

    /// A line behind it.
    #[tactic(auto, unfolding(crate::specs::Configs::config_step_at))]
    fn later(
        &mut self,
        alloc: Global,
        part: TailPart,
        number: u32,
        line: &[u8],
    ) -> Result<(), LineFault>
        ensures { FileLeaves result self.new (config_step_at (ConfigStage.Tail part) number
            line.now self.old) }
    {
        if says_nothing(line) {
            return Ok(());
        }
        let mut words = Words::of(line);
        match self.tail(alloc, part, number, &mut words) {
            Ok(()) => Ok(()),
            Err(stop) => Err(stopped_at(number, stop)),
        }
    }

    /// The end of the program's text. Reasons: `TooMany`, `ProgramRefused`.
    #[tactic(auto, unfolding(crate::specs::Configs::close_program))]
    fn close(&mut self, alloc: Global) -> Result<(), LineError>
        ensures { Leaves result self.new (spec.close_program self.old) }
    {
        let checked = program(alloc, self.program.text.as_slice())?;
        self.checked = Some(checked);
        self.stage = ConfigStage::Tail(TailPart::Behind);
        Ok(())
    }

    /// A line of the program, or the line that ends it.
    fn inside(&mut self, alloc: Global, line: &[u8]) -> Result<(), LineFault>
        ensures { FileLeaves result self.new (spec.inside_line line.now self.old) }
    {
        if !is(line, b"end program") {
            self.program.add_line(line)?;
            return Ok(());
        }
        let number = self.program.line;
        match self.close(alloc) {
            Ok(()) => Ok(()),
            Err(stop) => Err(stopped_at(number, stop)),
        }
    }

    /// How the node serves.
    fn into_config(self) -> ServeConfig
        ensures { result ≡ spec.config_said self }
    {
        drop(self.program);
        drop(self.checked);
        ServeConfig {
            node: NodeConfig {
                here: self.here,
                hosts: self.hosts,
                neighbours: self.neighbours,
                serial: 1,
                version: self.version,
                boot: 0,
                link: first_link(self.version),
            },
            missing: self.missing,
            port: self.port,
            control: self.control,
            period: self.period,
            log: self.log,
            devs: self.devs,
            at: self.at,
        }
    }
}

impl LineFile for ConfigReading {
    ghost use Rattle.node_files.specs.Configs.{config_format};

    type Said = ServeConfig;

    ghost format = { config_format };

    #[tactic(auto, unfolding(crate::specs::Configs::config_step_at))]
    fn line(&mut self, alloc: Global, number: u32, line: &[u8]) -> Result<(), LineFault> {
        match self.stage {
            ConfigStage::Header => self.header(number, line),
            ConfigStage::Wants(word) => self.usual(alloc, word, number, line),
            ConfigStage::Tail(part) => self.later(alloc, part, number, line),
            ConfigStage::Inside => self.inside(alloc, line),
        }
    }

    fn end(self, alloc: Global, number: u32) -> Result<ServeConfig, LineFault> {
        let _unused = alloc;
        match self.stage {
            ConfigStage::Header => {
                drop(self);
                Err(LineFault::Line(number, LineReason::BadHeader))
            }
            ConfigStage::Tail(_) => Ok(self.into_config()),
            ConfigStage::Wants(_) | ConfigStage::Inside => {
                drop(self);
                Err(LineFault::Line(number, LineReason::BadWord))
            }
        }
    }
}

#[tactic(auto, using(line_reader::proofs::FileLaws::is_found, line_reader::proofs::FileLaws::is_only, line_reader::proofs::FileLaws::is_fault))]
/// The configuration that a file is. Condition: at most 4,194,304 bytes.
///
/// The fault is the first line outside the format with its reason, or `NoMemory`.
pub fn read_config(alloc: Global, bytes: &[u8]) -> Result<ServeConfig, LineFault>
    requires { length bytes.now ≤ 4194304 }
    // What is answered is what the file says.
    ensures found { IfOk result (λ c. config_of bytes.now ≡ Ok c) }
    // A file that says a configuration is answered so, unless an allocation fails.
    ensures only { (c : Serving) → config_of bytes.now ≡ Ok c → MatchResult result (λ d. d ≡ c)
        (λ e. e ≡ LineFault.NoMemory) }
    // A refusal is the file's first one, unless an allocation fails.
    ensures fault { IfErr result (λ e. (e ≡ LineFault.NoMemory) ⊎ (config_of bytes.now ≡ Err e)) }
    // A configuration keeps the rules.
    ensures rules { IfOk result KeepsServe }
{
    read_file(alloc, ConfigReading::nothing(alloc), bytes)
}
