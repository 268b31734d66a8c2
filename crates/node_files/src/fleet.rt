//! Reads the file of a fleet.
ghost use Rattle.std.specs.Prelude.{◌≡◌, ◌≤◌, ◌⊎◌, true, false, length, Ok, Err, IfOk, IfErr, MatchResult};
ghost use Rattle.line_reader.specs.Reads.{Leaves, Gives, FileLeaves};
ghost use Rattle.network_config.specs.NodeRules.{KeepsFleet};
ghost use Rattle.network_config.specs.declared.fleet.Fleet.{Fleet as Children};
ghost use Rattle.node_files.specs.Fleets as spec;
ghost use Rattle.node_files.specs.Fleets.{kid_word, kid_rest, fleet_step_at, no_children, fleet_of};

use crate::parts::last_number;
use containers::Items;
use line_reader::{
    LineError, LineFault, LineFile, LineReason, Words, allow, file_name, is, number, read_file,
    says_nothing, stopped_at,
};
use network_config::{Fleet, Kid, Kids};
use plan_base::Host;
use std::alloc::Global;

/// The first word of a child's line.
#[derive(Clone, Copy, PartialEq, Eq)]
pub enum KidWord {
    /// `node`
    Node,
    /// `ask`
    Ask,
}

impl KidWord {
    /// The first word that a word is, or none.
    fn of(word: &[u8]) -> Option<KidWord>
        ensures { result ≡ kid_word word.now }
    {
        if is(word, b"node") {
            Some(KidWord::Node)
        } else if is(word, b"ask") {
            Some(KidWord::Ask)
        } else {
            None
        }
    }
}

/// `node HOST FILE TURNS` behind its first word. Reasons: `BadWord`, `BadNumber`.
#[tactic(auto, unfolding(crate::specs::Fleets::node_kid))]
fn node_kid(alloc: Global, words: &mut Words<'_>) -> Result<Kid, LineError>
    ensures { Gives (λ k. k) result (spec.node_kid words.old) }
{
    let host = number(words, 0, u32::MAX)?;
    let file = file_name(alloc, words)?;
    let turns = last_number(words, 1, 1_000_000)?;
    Ok(Kid::Node(Host(host), file, turns))
}

/// `ask HOST FILE` behind its first word. Reasons: `BadWord`, `BadNumber`.
#[tactic(auto, unfolding(crate::specs::Fleets::ask_kid))]
fn ask_kid(alloc: Global, words: &mut Words<'_>) -> Result<Kid, LineError>
    ensures { Gives (λ k. k) result (spec.ask_kid words.old) }
{
    let host = number(words, 0, u32::MAX)?;
    let file = file_name(alloc, words)?;
    words.end()?;
    Ok(Kid::Ask(Host(host), file))
}

/// A child behind its first word. Reasons: `BadWord`, `BadNumber`.
#[tactic(auto, unfolding(crate::specs::Fleets::kid_rest))]
fn kid(alloc: Global, word: KidWord, words: &mut Words<'_>) -> Result<Kid, LineError>
    ensures { Gives (λ k. k) result (kid_rest word words.old) }
{
    match word {
        KidWord::Node => node_kid(alloc, words),
        KidWord::Ask => ask_kid(alloc, words),
    }
}

/// What the lines of a fleet have said so far.
#[derive(Drop)]
pub struct FleetReading {
    /// Whether the header was read.
    pub begun: bool,
    /// The children.
    pub children: Kids,
}

impl FleetReading {
    /// Nothing read yet. Takes no memory.
    fn nothing(alloc: Global) -> FleetReading
        ensures { result ≡ no_children }
    {
        FleetReading {
            begun: false,
            children: Items::new(alloc),
        }
    }

    /// A child more. Reasons: `BadWord`, `TooMany` where there are 64, `BadNumber`.
    #[tactic(auto, unfolding(crate::specs::Fleets::kid_line))]
    fn child(&mut self, alloc: Global, words: &mut Words<'_>) -> Result<(), LineError>
        ensures { Leaves result self.new (spec.kid_line words.old self.old) }
    {
        let word = words.next()?;
        let word = KidWord::of(word).ok_or(LineReason::BadWord)?;
        allow(self.children.len() < 64, LineReason::TooMany)?;
        let kid = kid(alloc, word, words)?;
        self.children.add(kid)?;
        Ok(())
    }

    /// The header.
    #[tactic(auto, unfolding(crate::specs::Fleets::fleet_step_at))]
    fn header(&mut self, number: u32, line: &[u8]) -> Result<(), LineFault>
        ensures { FileLeaves result self.new (fleet_step_at false number line.now self.old) }
    {
        if !is(line, b"planet fleet 1") {
            return Err(LineFault::Line(number, LineReason::BadHeader));
        }
        self.begun = true;
        Ok(())
    }

    /// A line behind the header.
    #[tactic(auto, unfolding(crate::specs::Fleets::fleet_step_at))]
    fn usual(&mut self, alloc: Global, number: u32, line: &[u8]) -> Result<(), LineFault>
        ensures { FileLeaves result self.new (fleet_step_at true number line.now self.old) }
    {
        if says_nothing(line) {
            return Ok(());
        }
        let mut words = Words::of(line);
        match self.child(alloc, &mut words) {
            Ok(()) => Ok(()),
            Err(stop) => Err(stopped_at(number, stop)),
        }
    }
}

impl LineFile for FleetReading {
    ghost use Rattle.node_files.specs.Fleets.{fleet_format};

    type Said = Fleet;

    ghost format = { fleet_format };

    fn line(&mut self, alloc: Global, number: u32, line: &[u8]) -> Result<(), LineFault> {
        if self.begun {
            self.usual(alloc, number, line)
        } else {
            self.header(number, line)
        }
    }

    fn end(self, alloc: Global, number: u32) -> Result<Fleet, LineFault> {
        let _unused = alloc;
        let FleetReading { begun, children } = self;
        if !begun {
            return Err(LineFault::Line(number, LineReason::BadHeader));
        }
        if 0 < children.len() {
            Ok(Fleet { children })
        } else {
            Err(LineFault::Line(number, LineReason::BadWord))
        }
    }
}

#[tactic(auto, using(line_reader::proofs::FileLaws::is_found, line_reader::proofs::FileLaws::is_only, line_reader::proofs::FileLaws::is_fault))]
/// The fleet that a file is. Condition: at most 4,194,304 bytes.
///
/// The fault is the first line outside the format with its reason, or `NoMemory`.
pub fn read_fleet(alloc: Global, bytes: &[u8]) -> Result<Fleet, LineFault>
    requires { length bytes.now ≤ 4194304 }
    // What is answered is what the file says.
    ensures found { IfOk result (λ f. fleet_of bytes.now ≡ Ok f) }
    // A file that says a fleet is answered so, unless an allocation fails.
    ensures only { (f : Children) → fleet_of bytes.now ≡ Ok f → MatchResult result (λ g. g ≡ f)
        (λ e. e ≡ LineFault.NoMemory) }
    // A refusal is the file's first one, unless an allocation fails.
    ensures fault { IfErr result (λ e. (e ≡ LineFault.NoMemory) ⊎ (fleet_of bytes.now ≡ Err e)) }
    // A fleet keeps the rules.
    ensures rules { IfOk result KeepsFleet }
{
    read_file(alloc, FleetReading::nothing(alloc), bytes)
}
