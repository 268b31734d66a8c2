//! What follows from a call of one command: what it writes, sends and starts, and what holds of what it ran.
ghost use Rattle.std.specs.Prelude.{◌≡◌, ◌⊎◌, IsTrue, List, ℕ, Some, Ok, ◌<◌, ℤ, length, false, drop, ◌≢◌, [], ◌∷◌, ◌++◌, ◌≤◌, ◌^◌};
ghost use Rattle.plan_base.specs.declared.tree.Program.{Program};
ghost use Rattle.network_config.specs.declared.schedule.Schedule.{Schedule};
ghost use Rattle.network_config.specs.declared.event.LogEvent.{LogEvent};
ghost use Rattle.network_config.specs.declared.node.Log.{Log};
ghost use Rattle.packet_frame.specs.declared.frame.PlainStamped.{PlainStamped};
ghost use Rattle.packet_frame_text.specs.Frames.{frame_text};
ghost use Rattle.program_text.specs.Texts.{program_of};
ghost use Rattle.node_io.specs.Causes.{HasRisen};
ghost use Rattle.node_io.specs.FileMaps.{FileMap, file_at};
ghost use Rattle.node_io.specs.FileStates.{FilesState};
ghost use Rattle.node_io.specs.Outsides.{Outside};
ghost use Rattle.node_io.specs.Sinks.{SinkState, Writes};
ghost use Rattle.node_core_spec.specs.State.{NodeState};
ghost use Rattle.net_world_spec.specs.World.{opening};
ghost use Rattle.net_world_spec.specs.Texts.{run_text};
ghost use Rattle.grow_run.specs.Pings.{OfGrown};
ghost use Rattle.planet_commands.specs.declared.status.Cause.{Cause as Why};
ghost use Rattle.planet_commands.specs.Said.{says, IsSaid};
ghost use Rattle.planet_commands.specs.Checks.{sizes_text};
ghost use Rattle.planet_commands.specs.Shows.{show_said, HoldsFrame};
ghost use Rattle.planet_commands_run.specs.Keeping.{KeepsNodeRun};
ghost use Rattle.planet_commands_run.specs.Schedules.{log_trace};
ghost use Rattle.planet_cli.specs.Requests.{request_of, on_file, inject, fleet, audit, node, grow};
ghost use Rattle.planet_cli.specs.Calls.{Calls};
ghost use Rattle.planet_cli.specs.Replays.{Replays, ReplaysLog};
ghost use Rattle.frag_chunks.specs.Parts.{parts_in};
ghost use Rattle.frag_chunks.specs.Messages.{OfMessage, IsKept, AllCame, was_given, missing_of};
ghost use Rattle.command_files.specs.declared.cut.CutFile.{CutFile};
ghost use Rattle.command_files.specs.Texts.{cut_output};
ghost use Rattle.frag_chunks_log.specs.Texts.{whole_line, held_line};
ghost use Rattle.frag_chunks_log.specs.Notes.{HasLine};
ghost use Rattle.planet_commands_fleet.specs.Messages.{messages_text, notes_of};
ghost use Rattle.planet_cli.specs.Gathers.{Cuts, Gathers};
ghost use Rattle.command_files.specs.declared.port.PortFile.{PortFile};
ghost use Rattle.command_files.specs.PortFiles.{port_of};
ghost use Rattle.command_files.specs.PortRules.{KeepsPort};
ghost use Rattle.reliable_ports_world.specs.Keeping as ports;
ghost use Rattle.reliable_ports_world.specs.Texts.{port_output};
ghost use Rattle.planet_cli.specs.PortCalls.{RunsPorts};
ghost use Rattle.command_files.specs.declared.audit.AuditFile.{AuditFile};
ghost use Rattle.planet_commands_fleet.specs.Audits.{fit_text, AsksAlong};
ghost use Rattle.planet_cli.specs.Audited.{Audits, Fit, AllAddUp, AcceptOnce};
ghost use Rattle.network_config.specs.declared.fleet.AskFile.{AskFile as Ask};
ghost use Rattle.network_config.specs.declared.fleet.Fleet.{Fleet};
ghost use Rattle.network_config.specs.declared.serve.ServeConfig.{ServeConfig as Config};
ghost use Rattle.fleet_run.specs.Asks.{ask_line, Bound, Sent};
ghost use Rattle.fleet_run.specs.Fleets.{fleet_starts, fleet_end};
ghost use Rattle.fleet_run.specs.Runs.{Started, RunsFleet};
ghost use Rattle.node_serve.specs.Desks.{IsSeen, desk_of};
ghost use Rattle.node_serve.specs.Served.{Served};
ghost use Rattle.planet_commands_fleet.specs.Asks.{ask_said};
ghost use Rattle.planet_commands_fleet.specs.Fleets.{fleet_said};
ghost use Rattle.planet_commands_fleet.specs.Nodes.{config_said, own_node, begun_config, begun_with, moment};
ghost use Rattle.planet_cli.specs.Does.{serving_in};
ghost use Rattle.planet_cli.specs.Laws.{IfEnded, IsEnded, AsksAtMost, RunsAtMost, ServesAtMost};
ghost use Rattle.node_files.specs.Logs.{log_of};
ghost use Rattle.node_log.specs.Nodes.{log_node};
ghost use Rattle.planet_cli.specs.Runs.{first_node, made_run, KeepsOrder, KeepsServing, AgreesServing, KeepsUpTo, ReplaysSo};

use crate::kinds::Kind;
use frag_chunks::messages_are_gathered;
use planet_commands::Cause;

/// A replay that is done wrote the run of its schedule.
pub fn replayed()
    ensures { (words : List (List ℕ)) (cause : Why) (old new : Outside) (n m : SinkState)
        → Calls (request_of words) cause old new n m
        → (s : Schedule)
        → Replays words old.files s
        → cause ≡ Cause.Done
        → Writes old.out new.out (run_text s.frames s.events (opening s.topology)) }
{}

/// Of whatever bytes say a log: the node whose steps it has keeps its limits, and each step is in balance.
pub fn log_keeps()
    ensures { (bytes : List ℕ) (l : Log) → log_of bytes ≡ Ok l
        → KeepsNodeRun (log_node l) l.events }
{}

/// A replay of the log of a node that is done wrote the trace of its steps.
pub fn logged()
    ensures { (words : List (List ℕ)) (cause : Why) (old new : Outside) (n m : SinkState)
        → Calls (request_of words) cause old new n m
        → (l : Log)
        → ReplaysLog words old.files l
        → cause ≡ Cause.Done
        → Writes old.out new.out (log_trace l) }
{}

/// A check that is done wrote the sizes of its typed program.
pub fn checked()
    ensures { (file bytes : List ℕ) (p : Program) (cause : Why) (old new : Outside)
        (n m : SinkState)
        → Calls (Some (on_file Kind.Check file)) cause old new n m
        → IsTrue old.files.observable
        → file_at old.files.held file ≡ Some bytes
        → program_of bytes ≡ Ok p
        → cause ≡ Cause.Done
        → Writes old.out new.out (sizes_text p) }
{}

/// The hex of a frame whose chunk is typed is shown whole: what the frame says.
pub fn shown_whole()
    ensures { (files : FileMap) (file : List ℕ) (x : PlainStamped)
        → HoldsFrame files file x
        → show_said file files ≡ says (frame_text x) }
{}

/// Nothing else is shown.
pub fn shown_only()
    ensures { (file : List ℕ) (cause : Why) (old new : Outside) (n m : SinkState)
        → Calls (Some (on_file Kind.Show file)) cause old new n m
        → IsTrue old.files.observable
        → cause ≡ Cause.Done
        → (x : PlainStamped) × HoldsFrame old.files.held file x }
{}

/// And a show that is done wrote it.
pub fn shown()
    ensures { (file : List ℕ) (cause : Why) (old new : Outside) (n m : SinkState)
        → Calls (Some (on_file Kind.Show file)) cause old new n m
        → IsTrue old.files.observable
        → (x : PlainStamped)
        → HoldsFrame old.files.held file x
        → cause ≡ Cause.Done
        → Writes old.out new.out (frame_text x) }
{}

/// A network that grows is never refused: it is done where no fault of writing came, or an allocation failed.
pub fn grown_whole()
    ensures { (seed k : ℕ) (cause : Why) (old new : Outside) (n m : SinkState)
        → Calls (Some (grow seed k)) cause old new n m
        → ¬ (HasRisen old.out.faults new.out.faults)
        → ¬ (HasRisen n.faults m.faults)
        → (cause ≡ Cause.Done) ⊎ (cause ≡ Cause.NoMemory) }
{}

/// Where it is done it wrote the summary of the network of its seed.
pub fn grown()
    ensures { (seed k : ℕ) (cause : Why) (old new : Outside) (n m : SinkState)
        → Calls (Some (grow seed k)) cause old new n m
        → cause ≡ Cause.Done
        → OfGrown seed k (Writes old.out new.out) }
{}

/// A cut that is done wrote the asks of the parts of its message.
pub fn parted()
    ensures { (words : List (List ℕ)) (cause : Why) (old new : Outside) (n m : SinkState)
        → Calls (request_of words) cause old new n m
        → (c : CutFile)
        → Cuts words old.files c
        → cause ≡ Cause.Done
        → Writes old.out new.out (cut_output c) }
{}

/// A gathering that is done wrote what is held of the messages of its log.
pub fn gathered()
    ensures { (words : List (List ℕ)) (cause : Why) (old new : Outside) (n m : SinkState)
        → Calls (request_of words) cause old new n m
        → (port : ℕ) (l : Log)
        → Gathers words old.files port l
        → cause ≡ Cause.Done
        → Writes old.out new.out (messages_text port l) }
{}

/// And a key whose notes are parts of one message has a line there: it is whole, with exactly that message, once each
/// part came, and missing some until then, whatever the order, losses and repeats.
pub fn messages()
    ensures whole { (port : ℕ) (l : Log) (k : ℤ) (bytes : List ℕ)
        → OfMessage port k bytes (notes_of l) → IsKept port k (notes_of l)
        → AllCame port k bytes (notes_of l)
        → HasLine (messages_text port l) (whole_line k bytes) }
    ensures missing { (port : ℕ) (l : Log) (k : ℤ) (bytes : List ℕ)
        → OfMessage port k bytes (notes_of l) → IsKept port k (notes_of l)
        → (i : ℕ) → i < parts_in (length bytes) → was_given port k (notes_of l) i ≡ false
        → HasLine (messages_text port l) (held_line (missing_of port k bytes (notes_of l))) }
{
    messages_are_gathered();
}

/// A run of two ends that is done wrote how they stand in the end, and what was met at each event.
pub fn ported()
    ensures { (words : List (List ℕ)) (cause : Why) (old new : Outside) (n m : SinkState)
        → Calls (request_of words) cause old new n m
        → (p : PortFile)
        → RunsPorts words old.files p
        → cause ≡ Cause.Done
        → Writes old.out new.out (port_output p) }
{}

/// After every number of events, what was delivered is a prefix of what was offered, and no more is acknowledged than was
/// delivered.
#[tactic(auto, using(reliable_ports_world::proofs::Promises::keeps_order))]
pub fn in_order()
    ensures { (p : PortFile) → ports.KeepsOrder p }
{}

/// And the hops and evals of any families together are at most what both purses paid: for whatever bytes say of two ends,
/// and for whatever keeps the rules of a file.
pub fn paid()
    ensures file { (bytes : List ℕ) (p : PortFile) → port_of bytes ≡ Ok p → ports.KeepsPurses p }
    ensures rules { (p : PortFile) → KeepsPort p → ports.KeepsPurses p }
{}

/// An audit that is done wrote whether its logs fit together, and if so the ledger of the whole fleet.
pub fn audited()
    ensures { (words : List (List ℕ)) (cause : Why) (old new : Outside) (n m : SinkState)
        → Calls (request_of words) cause old new n m
        → (a : AuditFile) (logs : List Log)
        → Audits words old.files a logs
        → cause ≡ Cause.Done
        → Writes old.out new.out (fit_text a logs) }
{}

/// Where the logs of an audit that is done fit together, each family was granted what it paid, what is live and what
/// was left, over all of them.
pub fn fleet_adds_up()
    ensures { (words : List (List ℕ)) (cause : Why) (old new : Outside) (n m : SinkState)
        → Calls (request_of words) cause old new n m
        → (a : AuditFile) (logs : List Log)
        → Audits words old.files a logs
        → cause ≡ Cause.Done
        → Fit a.links logs
        → AllAddUp a.links logs }
{}

/// And no frame of a node of version 2 was accepted twice, whatever version the others are of.
pub fn fleet_accepts_once()
    ensures { (words : List (List ℕ)) (cause : Why) (old new : Outside) (n m : SinkState)
        → Calls (request_of words) cause old new n m
        → (a : AuditFile) (logs : List Log)
        → Audits words old.files a logs
        → cause ≡ Cause.Done
        → Fit a.links logs
        → AcceptOnce a.links logs }
{}

/// It asks at most for its file and for the logs that this names, in order, each once, and for a log only where those before it
/// say logs: an audit whose first log is refused never looks at the others.
pub fn audit_asked()
    ensures { (file : List ℕ) (cause : Why) (old new : Outside) (n m : SinkState)
        → Calls (Some (audit file)) cause old new n m
        → AsksAlong file old.files new.files }
{}

/// An `inject` that is done bound the link once, at the request's port with the node as its one peer, and sent the one frame.
pub fn injected()
    ensures { (file : List ℕ) (cause : Why) (old new : Outside) (n m : SinkState)
        → Calls (Some (inject file)) cause old new n m
        → IsTrue old.files.observable
        → (a : Ask)
        → ask_said file old.files.held ≡ says a
        → cause ≡ Cause.Done
        → Bound a old.link new.link × Sent a old.link new.link }
{}

/// And it wrote its line.
pub fn injected_line()
    ensures { (file : List ℕ) (cause : Why) (old new : Outside) (n m : SinkState)
        → Calls (Some (inject file)) cause old new n m
        → IsTrue old.files.observable
        → (a : Ask)
        → ask_said file old.files.held ≡ says a
        → cause ≡ Cause.Done
        → Writes old.out new.out (ask_line a) }
{}

/// After every answer there is no other bind and no other frame.
pub fn injects()
    ensures { (file : List ℕ) (cause : Why) (old new : Outside) (n m : SinkState)
        → Calls (Some (inject file)) cause old new n m
        → IsTrue old.files.observable
        → AsksAtMost (ask_said file old.files.held) old.link new.link }
{}

/// A fleet that is done, or whose nodes failed, ran as its file says: each child was started, waited for and reported.
pub fn fleet()
    ensures { (file : List ℕ) (cause : Why) (old new : Outside) (n m : SinkState)
        → Calls (Some (fleet file)) cause old new n m
        → IsTrue old.files.observable
        → (f : Fleet)
        → fleet_said file old.files.held ≡ says f
        → IfEnded cause
        (λ end. RunsFleet f.children old.children new.children old.out new.out (Ok end)) }
{}

/// The starts of its file were asked in order, and the first status that isn't 0 decides.
pub fn fleet_starts()
    ensures { (file : List ℕ) (cause : Why) (old new : Outside) (n m : SinkState)
        → Calls (Some (fleet file)) cause old new n m
        → IsTrue old.files.observable
        → (f : Fleet)
        → fleet_said file old.files.held ≡ says f
        → IfEnded cause (λ end. Started (fleet_starts f.children) old.children new.children
        × (IsTrue old.children.observable
        → end ≡ fleet_end f.children (drop old.children.started old.children.statuses))) }
{}

/// A fleet ends so only where its file says one.
pub fn fleet_only()
    ensures { (file : List ℕ) (cause : Why) (old new : Outside) (n m : SinkState)
        → Calls (Some (fleet file)) cause old new n m
        → IsTrue old.files.observable
        → IfEnded cause (λ end. IsSaid (fleet_said file old.files.held)) }
{}

/// And each child that was started was waited for.
pub fn waited()
    ensures { (file : List ℕ) (cause : Why) (old new : Outside) (n m : SinkState)
        → Calls (Some (fleet file)) cause old new n m
        → IfEnded cause (λ end. new.children.children ≡ old.children.children) }
{}

/// After every answer the starts and the lines are prefixes of those.
pub fn fleet_front()
    ensures { (file : List ℕ) (cause : Why) (old new : Outside) (n m : SinkState)
        → Calls (Some (fleet file)) cause old new n m
        → IsTrue old.files.observable
        → IsTrue old.children.observable
        → RunsAtMost (fleet_said file old.files.held) old new }
{}

/// A fleet that no fault met ended, or an allocation failed.
pub fn fleet_complete()
    ensures { (file : List ℕ) (cause : Why) (old new : Outside) (n m : SinkState)
        → Calls (Some (fleet file)) cause old new n m
        → IsTrue old.files.observable
        → (f : Fleet)
        → fleet_said file old.files.held ≡ says f
        → ¬ (HasRisen old.files.read_faults new.files.read_faults)
        → ¬ (HasRisen old.children.faults new.children.faults)
        → ¬ (HasRisen old.out.faults new.out.faults)
        → ¬ (HasRisen n.faults m.faults)
        → IsEnded cause ⊎ (cause ≡ Cause.NoMemory) }
{}

/// A node that is done made the run of so many turns from the moment at which it began, with the steps refused that its log
/// says.
pub fn served()
    ensures { (file : List ℕ) (turns : ℕ) (cause : Why) (old new : Outside) (n m : SinkState)
        → Calls (Some (node file turns)) cause old new n m
        → IsSeen (desk_of (serving_in old))
        → IsTrue old.clock.observable
        → (cfg : Config)
        → config_said file old.files.held ≡ says cfg
        → cause ≡ Cause.Done
        → Served (begun_config cfg (serving_in old))
        (own_node (begun_config cfg (serving_in old))) turns
        (begun_with cfg (serving_in old)) (serving_in new) }
{}

/// After every answer what stands are prefixes of such a run, and nothing where the file says no configuration.
pub fn serves()
    ensures { (file : List ℕ) (turns : ℕ) (cause : Why) (old new : Outside) (n m : SinkState)
        → Calls (Some (node file turns)) cause old new n m
        → IsSeen (desk_of (serving_in old))
        → IsTrue old.clock.observable
        → ServesAtMost (config_said file old.files.held) turns (serving_in old) (serving_in new) }
{}

/// A node that no fault met is done, or an allocation failed.
pub fn node_complete()
    ensures { (file : List ℕ) (turns : ℕ) (cause : Why) (old new : Outside) (n m : SinkState)
        → Calls (Some (node file turns)) cause old new n m
        → IsTrue old.files.observable
        → (cfg : Config)
        → config_said file old.files.held ≡ says cfg
        → ¬ (HasRisen old.files.read_faults new.files.read_faults)
        → ¬ (HasRisen old.files.write_faults new.files.write_faults)
        → ¬ (HasRisen old.link.faults new.link.faults)
        → ¬ (HasRisen old.out.faults new.out.faults)
        → ¬ (HasRisen n.faults m.faults)
        → (cause ≡ Cause.Done) ⊎ (cause ≡ Cause.NoMemory) }
{}

/// No file but its log is changed, whatever the link, the clock and the output report.
pub fn node_keeps_files()
    ensures { (file : List ℕ) (turns : ℕ) (cause : Why) (old new : Outside) (n m : SinkState)
        → Calls (Some (node file turns)) cause old new n m
        → IsTrue old.files.observable
        → (cfg : Config)
        → config_said file old.files.held ≡ says cfg
        → (other : List ℕ)
        → other ≢ cfg.log
        → file_at new.files.held other ≡ file_at old.files.held other }
{}

/// A node that is done made its log, once, and no other file.
pub fn node_makes_its_log()
    ensures { (file : List ℕ) (turns : ℕ) (cause : Why) (old new : Outside) (n m : SinkState)
        → Calls (Some (node file turns)) cause old new n m
        → IsTrue old.files.observable
        → (cfg : Config)
        → config_said file old.files.held ≡ says cfg
        → cause ≡ Cause.Done
        → new.files.made ≡ old.files.made ++ cfg.log ∷ [] }
{}

/// Where the link couldn't be bound, so that it has no peers, nothing was made or written.
pub fn unbound()
    ensures { (file : List ℕ) (turns : ℕ) (cause : Why) (old new : Outside) (n m : SinkState)
        → Calls (Some (node file turns)) cause old new n m
        → new.link.bound ≡ []
        → (new.files.held ≡ old.files.held) × (new.files.made ≡ old.files.made)
        × (new.out ≡ old.out) }
{}

/// A node that is done made the run of its configuration, which keeps its limits after every step.
pub fn served_keeps()
    ensures { (file : List ℕ) (turns : ℕ) (cause : Why) (old new : Outside) (n m : SinkState)
        → Calls (Some (node file turns)) cause old new n m
        → IsSeen (desk_of (serving_in old))
        → IsTrue old.clock.observable
        → (cfg : Config)
        → config_said file old.files.held ≡ says cfg
        → cause ≡ Cause.Done
        → KeepsServing cfg turns (serving_in old) (serving_in new) }
{}

/// After every answer the steps made up to it keep their limits: those of the whole run, or those of a prefix
/// of it where it failed, among them one that could not be written whole.
pub fn failed_keeps()
    ensures { (file : List ℕ) (turns : ℕ) (cause : Why) (old new : Outside) (n m : SinkState)
        → Calls (Some (node file turns)) cause old new n m
        → IsSeen (desk_of (serving_in old))
        → IsTrue old.clock.observable
        → (cfg : Config)
        → config_said file old.files.held ≡ says cfg
        → KeepsUpTo cfg turns (serving_in old) (serving_in new) }
{}

/// After every answer log, output and frames sent know of each other: what was written and sent belongs to steps that the log
/// has, and the frames sent are those that its entries send, but perhaps the last one's.
pub fn served_agrees()
    ensures { (file : List ℕ) (turns : ℕ) (cause : Why) (old new : Outside) (n m : SinkState)
        → Calls (Some (node file turns)) cause old new n m
        → IsSeen (desk_of (serving_in old))
        → IsTrue old.clock.observable
        → (cfg : Config)
        → config_said file old.files.held ≡ says cfg
        → AgreesServing cfg turns (serving_in old) (serving_in new) }
{}

/// After every number of the entries of a run that keeps its limits, the context of each visit is in order.
pub fn runs_are_ordered()
    ensures { (first : NodeState) (events : List LogEvent)
        → KeepsNodeRun first events
        → KeepsOrder first events }
{}

/// In the replay of a log, the context of each visit is in order.
pub fn logs_are_ordered()
    ensures { (words : List (List ℕ)) (files : FilesState) (l : Log)
        → ReplaysLog words files l
        → KeepsOrder (log_node l) l.events }
{}

/// The log that a node leaves replays to the lines of its run: where its run has at most 50,000 entries and its clock is
/// observable, or told a moment below 2^64, the log reads, and what it says to a replay is the trace that the node wrote.
pub fn logs_replay()
    ensures told { (file : List ℕ) (turns : ℕ) (cause : Why) (old new : Outside) (n m : SinkState)
        → Calls (Some (node file turns)) cause old new n m
        → IsTrue old.files.observable
        → IsTrue old.clock.observable
        → (cfg : Config)
        → config_said file old.files.held ≡ says cfg
        → (s : Served (begun_config cfg (serving_in old)) (first_node cfg (serving_in old)) turns
        (begun_with cfg (serving_in old)) (serving_in new))
        → length (made_run cfg turns (serving_in old) s.refused).events ≤ 50000
        → ReplaysSo cfg.log old new }
    ensures small { (file : List ℕ) (turns : ℕ) (cause : Why) (old new : Outside) (n m : SinkState)
        → Calls (Some (node file turns)) cause old new n m
        → IsTrue old.files.observable
        → (cfg : Config)
        → config_said file old.files.held ≡ says cfg
        → moment cfg.node.version old.clock < 2 ^ 64
        → (s : Served (begun_config cfg (serving_in old)) (first_node cfg (serving_in old)) turns
        (begun_with cfg (serving_in old)) (serving_in new))
        → length (made_run cfg turns (serving_in old) s.refused).events ≤ 50000
        → ReplaysSo cfg.log old new }
{}

/// Such a replay, of a file of at most 4,194,304 bytes, that is done wrote that trace; and where no fault came it is done, or
/// an allocation failed.
pub fn replays_are_whole()
    ensures written { (log : List ℕ) (old new : Outside) (s : ReplaysSo log old new)
        → length s.bytes ≤ 4194304
        → (cause : Why) (before after : Outside) (n m : SinkState)
        → Calls (Some (on_file Kind.Replay log)) cause before after n m
        → IsTrue before.files.observable
        → before.files.held ≡ new.files.held
        → cause ≡ Cause.Done
        → Writes before.out after.out s.trace }
    ensures done { (log : List ℕ) (old new : Outside) (s : ReplaysSo log old new)
        → length s.bytes ≤ 4194304
        → (cause : Why) (before after : Outside) (n m : SinkState)
        → Calls (Some (on_file Kind.Replay log)) cause before after n m
        → IsTrue before.files.observable
        → before.files.held ≡ new.files.held
        → ¬ (HasRisen before.files.read_faults after.files.read_faults)
        → ¬ (HasRisen before.out.faults after.out.faults)
        → ¬ (HasRisen n.faults m.faults)
        → (cause ≡ Cause.Done) ⊎ (cause ≡ Cause.NoMemory) }
{}
