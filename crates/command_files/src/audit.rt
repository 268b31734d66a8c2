//! Reads the file of an audit: the logs of a fleet and the links between its nodes.
ghost use Rattle.std.specs.Prelude.{◌≡◌, ◌≤◌, ◌⊎◌, true, false, length, Ok, Err, IfOk, IfErr, MatchResult};
ghost use Rattle.line_reader.specs.Reads.{Reads, Leaves, FileLeaves};
ghost use Rattle.command_files.specs.declared.audit.AuditFile.{AuditFile as Said};
ghost use Rattle.command_files.specs.AuditRules as rules;
ghost use Rattle.command_files.specs.AuditRules.{KeepsAudit};
ghost use Rattle.command_files.specs.AuditFiles as spec;
ghost use Rattle.command_files.specs.AuditFiles.{audit_word, audit_rest, audit_line, audit_step_at, nothing_read, audit_of};

use containers::Items;
use line_reader::{
    LineError, LineFault, LineFile, LineReason, Words, allow, file_name, is, number, read_file,
    says_nothing, stopped_at,
};
use network_config::{Link, Links, has_link};
use plan_base::{Dev, Host, Text};
use std::alloc::Global;

/// The names of logs.
pub type LogNames = Items<Text>;

/// The logs of a fleet and the links between its nodes.
pub struct AuditFile {
    /// The names of the logs in the order of their lines, 1 to 16, each once.
    pub logs: LogNames,
    /// The links in the order of their lines, whose devices are 1 to 8 and each has one link at most.
    pub links: Links,
}

impl Drop for AuditFile {
    fn drop(self) {
        let AuditFile {
            logs: _logs,
            links: _links,
        } = self;
    }
}

/// The first word of a line of an audit.
#[derive(Clone, Copy, PartialEq, Eq)]
pub enum AuditWord {
    /// `log`
    Log,
    /// `link`
    Link,
}

impl AuditWord {
    /// The first word that a word is, or none.
    fn of(word: &[u8]) -> Option<AuditWord>
        ensures { result ≡ audit_word word.now }
    {
        if is(word, b"log") {
            Some(AuditWord::Log)
        } else if is(word, b"link") {
            Some(AuditWord::Link)
        } else {
            None
        }
    }
}

/// Whether a file was named.
fn is_named(names: &[Text], file: &[u8]) -> bool
    ensures { result ≡ rules.is_named file.now names.now }
{
    names.iter().any(|n| is(n.as_slice(), file))
}

/// The next word as a host. Reasons: `BadWord`, `BadNumber`.
#[tactic(auto, unfolding(crate::specs::AuditFiles::host_end))]
fn host_end(words: &mut Words<'_>) -> Result<Host, LineReason>
    ensures { Reads (λ h. h) result words.new (spec.host_end words.old) }
{
    let n = number(words, 0, u32::MAX)?;
    Ok(Host(n))
}

/// The next word as a device, from 1 to 8, of a host that has no link yet. Reasons: `BadWord`, `BadNumber`, `TwiceNamed`.
#[tactic(auto, unfolding(crate::specs::AuditFiles::device_end))]
fn device_end(links: &[Link], host: Host, words: &mut Words<'_>) -> Result<Dev, LineReason>
    ensures { Reads (λ d. d) result words.new (spec.device_end links.now host words.old) }
{
    let d = number(words, 1, 8)?;
    allow(!has_link(links, host, Dev(d)), LineReason::TwiceNamed)?;
    Ok(Dev(d))
}

/// What the lines of an audit have said so far.
#[derive(Drop)]
pub struct AuditReading {
    /// Whether the header was read.
    pub begun: bool,
    /// The names of the logs.
    pub logs: LogNames,
    /// The links.
    pub links: Links,
}

impl AuditReading {
    /// Nothing read yet. Takes no memory.
    fn nothing(alloc: Global) -> AuditReading
        ensures { result ≡ nothing_read }
    {
        AuditReading {
            begun: false,
            logs: Items::new(alloc),
            links: Items::new(alloc),
        }
    }

    /// `log FILE` behind its first word. Reasons: `TooMany` where there are 16, `BadWord`, `TwiceNamed`.
    #[tactic(auto, unfolding(crate::specs::AuditFiles::log_line))]
    fn log(&mut self, alloc: Global, words: &mut Words<'_>) -> Result<(), LineError>
        ensures { Leaves result self.new (spec.log_line words.old self.old) }
    {
        allow(self.logs.len() < 16, LineReason::TooMany)?;
        let file = file_name(alloc, words)?;
        let named = is_named(self.logs.as_slice(), file.as_slice());
        allow(!named, LineReason::TwiceNamed)?;
        words.end()?;
        self.logs.add(file)?;
        Ok(())
    }

    /// `link N D M E` behind its first word. Reasons: `BadWord`, `BadNumber`, `TwiceNamed`, `BadArgument`.
    #[tactic(auto, unfolding(crate::specs::AuditFiles::link_line))]
    fn link(&mut self, words: &mut Words<'_>) -> Result<(), LineError>
        ensures { Leaves result self.new (spec.link_line words.old self.old) }
    {
        let n = host_end(words)?;
        let d = device_end(self.links.as_slice(), n, words)?;
        let m = host_end(words)?;
        allow(m.0 != n.0, LineReason::BadArgument)?;
        let e = device_end(self.links.as_slice(), m, words)?;
        words.end()?;
        self.links.add(Link {
            from: n,
            from_dev: d,
            to: m,
            to_dev: e,
        })?;
        Ok(())
    }

    /// A line behind its first word.
    #[tactic(auto, unfolding(crate::specs::AuditFiles::audit_rest))]
    fn rest(
        &mut self,
        alloc: Global,
        word: AuditWord,
        words: &mut Words<'_>,
    ) -> Result<(), LineError>
        ensures { Leaves result self.new (audit_rest word words.old self.old) }
    {
        match word {
            AuditWord::Log => self.log(alloc, words),
            AuditWord::Link => self.link(words),
        }
    }

    /// A line by its words.
    #[tactic(auto, unfolding(crate::specs::AuditFiles::audit_line))]
    fn line_by_words(&mut self, alloc: Global, words: &mut Words<'_>) -> Result<(), LineError>
        ensures { Leaves result self.new (audit_line words.old self.old) }
    {
        let word = words.next()?;
        let word = AuditWord::of(word).ok_or(LineReason::BadWord)?;
        self.rest(alloc, word, words)
    }

    /// The header.
    #[tactic(auto, unfolding(crate::specs::AuditFiles::audit_step_at))]
    fn header(&mut self, number: u32, line: &[u8]) -> Result<(), LineFault>
        ensures { FileLeaves result self.new (audit_step_at false number line.now self.old) }
    {
        if !is(line, b"planet audit 1") {
            return Err(LineFault::Line(number, LineReason::BadHeader));
        }
        self.begun = true;
        Ok(())
    }

    /// A line behind the header.
    #[tactic(auto, unfolding(crate::specs::AuditFiles::audit_step_at))]
    fn usual(&mut self, alloc: Global, number: u32, line: &[u8]) -> Result<(), LineFault>
        ensures { FileLeaves result self.new (audit_step_at true number line.now self.old) }
    {
        if says_nothing(line) {
            return Ok(());
        }
        let mut words = Words::of(line);
        match self.line_by_words(alloc, &mut words) {
            Ok(()) => Ok(()),
            Err(stop) => Err(stopped_at(number, stop)),
        }
    }
}

impl LineFile for AuditReading {
    ghost use Rattle.command_files.specs.AuditFiles.{audit_format};

    type Said = AuditFile;

    ghost format = { audit_format };

    fn line(&mut self, alloc: Global, number: u32, line: &[u8]) -> Result<(), LineFault> {
        if self.begun {
            self.usual(alloc, number, line)
        } else {
            self.header(number, line)
        }
    }

    fn end(self, alloc: Global, number: u32) -> Result<AuditFile, LineFault> {
        let _unused = alloc;
        let AuditReading { begun, logs, links } = self;
        if !begun {
            return Err(LineFault::Line(number, LineReason::BadHeader));
        }
        if 0 < logs.len() {
            Ok(AuditFile { logs, links })
        } else {
            Err(LineFault::Line(number, LineReason::BadWord))
        }
    }
}

/// The logs and links that a file names. Condition: at most 4,194,304 bytes.
///
/// The fault is the first line outside the format with its reason, or `NoMemory`; see `docs/use/audit.md`.
#[tactic(auto, using(line_reader::proofs::FileLaws::is_found, line_reader::proofs::FileLaws::is_only, line_reader::proofs::FileLaws::is_fault))]
pub fn read_audit(alloc: Global, bytes: &[u8]) -> Result<AuditFile, LineFault>
    requires { length bytes.now ≤ 4194304 }
    // What is answered is what the file says.
    ensures found { IfOk result (λ a. audit_of bytes.now ≡ Ok a) }
    // A file that names logs and links is answered so, unless an allocation fails.
    ensures only { (a : Said) → audit_of bytes.now ≡ Ok a → MatchResult result (λ b. b ≡ a)
        (λ e. e ≡ LineFault.NoMemory) }
    // A refusal is the file's first one, unless an allocation fails.
    ensures fault { IfErr result (λ e. (e ≡ LineFault.NoMemory) ⊎ (audit_of bytes.now ≡ Err e)) }
    // What is answered keeps the rules.
    ensures rules { IfOk result KeepsAudit }
{
    read_file(alloc, AuditReading::nothing(alloc), bytes)
}
