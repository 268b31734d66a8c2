//! Laws: the rows of a ledger are the counts of its history.
ghost use Rattle.std.specs.Prelude.{◌≡◌, ◌<◌, List, [], length, map};
ghost use Rattle.bound_ledger.specs.Rows.{FamilyRow, OneEach, counts_of};
ghost use Rattle.network_config.specs.Rules.{KeepsNetwork};
ghost use Rattle.network_config.specs.declared.schedule.Topology.{Topology};
ghost use Rattle.network_config.specs.declared.event.WorldEvent.{WorldEvent};
ghost use Rattle.net_world_spec.specs.declared.lines.Entry.{Entry};
ghost use Rattle.net_world_spec.specs.World.{happens, opening, world_after, history_of};
ghost use Rattle.net_world_spec.specs.Counts.{is_late};
ghost use Rattle.net_world_spec.specs.Sound.{event_fits, EventsFit};
ghost use Rattle.net_world_spec.specs.Texts.{families};
ghost use Rattle.bound_ledger.specs.Stands.{Stands};
ghost use Rattle.bound_ledger.specs.Counting.{LinesFit};

/// A ledger without rows stands for the history in which nothing happened.
pub fn ledgers_begin()
    ensures { Stands [] [] }
{}

/// From the beginning on, the lines of each event of a run can be counted.
pub fn runs_can_be_counted()
    ensures { (t : Topology) (es : List WorldEvent) (e : WorldEvent) (rows : List FamilyRow) →
        KeepsNetwork t → EventsFit t.version es → event_fits t.version e → length es < 50000 →
        Stands (history_of es (opening t)) rows → LinesFit (is_late (world_after es (opening t)) e)
        rows (happens (world_after es (opening t)) e).lines }
{}

/// The rows that stand for a history are its families in the order of their first grants, each with its counts.
pub fn rows_are_counts()
    ensures { (h : List Entry) (rows : List FamilyRow) → OneEach rows → Stands h rows → rows ≡ map
        (λ f. (f, counts_of f rows)) (families h) }
{}
