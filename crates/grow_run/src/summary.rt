//! What happened in a network, counted line by line.
ghost use Rattle.std.specs.Prelude.{◌≡◌, ◌≤◌, ◌+◌, ◌++◌, ℕ, List, [], length, map};
ghost use Rattle.net_world_spec.specs.declared.lines.Entry.{Entry};
ghost use Rattle.net_world_spec.specs.World.{entry_at};
ghost use Rattle.net_world_spec.specs.Visits.{line_ends};
ghost use Rattle.grow_run.specs.Summaries as spec;

use net_world_spec::Line;
use node_core_spec::Act;

/// What happened in a network so far.
#[derive(Clone, Copy, PartialEq, Eq)]
pub struct Summary {
    /// The lines of its trace, without the first.
    pub lines: u128,
    /// Its visits.
    pub visits: u128,
    /// The packets and adverts that nodes dropped.
    pub drops: u128,
    /// The frames that were lost.
    pub lost: u128,
}

fn visits(line: &Line) -> u128
    ensures visits { result ≡ line_ends line.now }
    ensures few { result ≤ 1 }
{
    match line {
        Line::At(_, Act::Ended(_, _, _, _)) => 1,
        _ => 0,
    }
}

fn drops(line: &Line) -> u128
    ensures drops { result ≡ spec.line_drops line.now }
    ensures few { result ≤ 1 }
{
    match line {
        Line::At(_, Act::Dropped(_, _, _)) => 1,
        Line::At(_, Act::AdvertDropped(_)) => 1,
        _ => 0,
    }
}

fn losses(line: &Line) -> u128
    ensures lost { result ≡ spec.line_lost line.now }
    ensures few { result ≤ 1 }
{
    match line {
        Line::Lost(_) => 1,
        _ => 0,
    }
}

impl Summary {
    /// The counts before the first event.
    pub fn before_events() -> Summary
        ensures { result ≡ spec.summary_of [] }
    {
        Summary {
            lines: 0,
            visits: 0,
            drops: 0,
            lost: 0,
        }
    }

    /// The counts with those of one more line. Condition: each has room for it.
    fn with_line(self, line: &Line) -> Summary
        requires { spec.HasRoom 1 self }
        ensures counted { result ≡ spec.with_line line.now self }
        ensures room { (n : ℕ) → spec.HasRoom (n + 1) self → spec.HasRoom n result }
    {
        Summary {
            lines: self.lines + 1,
            visits: self.visits + visits(line),
            drops: self.drops + drops(line),
            lost: self.lost + losses(line),
        }
    }

    /// Counts the lines of an event. Condition: each count has room for them.
    pub fn count(&mut self, lines: &[Line])
        requires { spec.HasRoom (length lines.now) self.old }
        ensures counted { (h : List Entry) (n : ℕ) → self.old ≡ spec.summary_of h
            → self.new ≡ spec.summary_of (h ++ map (entry_at n) lines.now) }
        ensures room { (n : ℕ) → spec.HasRoom (n + length lines.now) self.old
            → spec.HasRoom n self.new }
    {
        for line in lines {
            *self = self.with_line(line);
        }
    }
}
