//! Files of nodes, fleets, messages, ports and audits only count their lines, and lines that say nothing only move those
//! behind them.
//!
//! Each law stands on a function without code, so that contracts of other crates can name it.

ghost use Rattle.line_reader.specs.Counting.{CountsOnly};
ghost use Rattle.node_files.specs.Configs as config;
ghost use Rattle.node_files.specs.Asks as ask;
ghost use Rattle.node_files.specs.Logs as log;
ghost use Rattle.node_files.specs.Fleets as fleet;
ghost use Rattle.command_files.specs.Cuts as cut;
ghost use Rattle.command_files.specs.PortFiles as port;
ghost use Rattle.command_files.specs.AuditFiles as audit;
ghost use Rattle.top_laws.specs.Outside.{ConfigOutside, AskOutside, LogOutside, FleetOutside};
ghost use Rattle.top_laws.specs.Outside.{CutOutside, PortOutside, AuditOutside};
ghost use Rattle.top_laws.specs.Later.{later_config, later_ask, unmoved_reading};
ghost use Rattle.top_laws.specs.Skipping.{SkipsLines};

/// These files only count their lines: with one more, those behind it get the next numbers, and say the same.
pub fn files_only_count()
    ensures configurations { CountsOnly config.config_format later_config }
    ensures requests { CountsOnly ask.ask_format later_ask }
    ensures logs { CountsOnly log.log_format unmoved_reading }
    ensures fleets { CountsOnly fleet.fleet_format unmoved_reading }
    ensures messages { CountsOnly cut.cut_format unmoved_reading }
    ensures ports { CountsOnly port.port_format unmoved_reading }
    ensures audits { CountsOnly audit.audit_format unmoved_reading }
{}

/// An empty line or a comment, put behind the header and outside of programs, changes nothing but the numbers of the
/// lines behind it.
pub fn skipped_lines_only_move()
    ensures configurations { SkipsLines config.config_format config.nothing_read ConfigOutside }
    ensures requests { SkipsLines ask.ask_format ask.nothing_asked AskOutside }
    ensures logs { SkipsLines log.log_format log.nothing_logged LogOutside }
    ensures fleets { SkipsLines fleet.fleet_format fleet.no_children FleetOutside }
    ensures messages { SkipsLines cut.cut_format cut.nothing_read CutOutside }
    ensures ports { SkipsLines port.port_format port.nothing_read PortOutside }
    ensures audits { SkipsLines audit.audit_format audit.nothing_read AuditOutside }
{}
