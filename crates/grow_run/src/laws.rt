//! Laws: the summary is that of the history, the ring keeps the rules of a network, and the text of the ping is its program.
ghost use Rattle.std.specs.Prelude.{◌≡◌, ℕ, List, Ok};
ghost use Rattle.plan_base.specs.declared.ids.Family.{Family};
ghost use Rattle.bound_ledger.specs.Rows.{FamilyRow, OneEach};
ghost use Rattle.net_world_spec.specs.declared.lines.Entry.{Entry};
ghost use Rattle.net_world_spec.specs.World.{WorldState};
ghost use Rattle.net_world_spec.specs.Counts.{Balanced};
ghost use Rattle.bound_ledger.specs.Stands.{Stands};
ghost use Rattle.network_config.specs.Rules.{KeepsNetwork};
ghost use Rattle.program_text.specs.Texts.{program_of};
ghost use Rattle.grow_run.specs.Grow.{ring};
ghost use Rattle.grow_run.specs.Pings.{ping_text};
ghost use Rattle.grow_run.specs.Programs.{ping_program};
ghost use Rattle.grow_run.specs.Summaries.{summary_of, row_sums, summary_text, grown_text};

/// The summary with the sums of rows that stand for a history is that of the history.
pub fn summaries_are_counts()
    ensures { (seed n : ℕ) (h : List Entry) (w : WorldState) (rows : List FamilyRow) → OneEach rows
        → Stands h rows → ((f : Family) → Balanced f h w)
        → summary_text seed n (summary_of h) (row_sums rows) ≡ grown_text seed n h w }
{}

/// The ring keeps the rules of a network.
pub fn ring_keeps()
    ensures { KeepsNetwork ring }
{}

/// The text of a ping's program is that program.
#[tactic(auto, using(crate::proofs::PingText::ping_says))]
pub fn ping_is_read()
    ensures { program_of ping_text ≡ Ok ping_program }
{}
