//! What follows from a call of any words: how it ends, for which fault, and what it leaves as it was.
ghost use Rattle.std.specs.Prelude.{◌≡◌, ◌⊎◌, IsTrue, Option, None, ◌≢◌, ℕ, List, Some};
ghost use Rattle.node_io.specs.Causes.{HasRisen};
ghost use Rattle.node_io.specs.Outsides.{Outside};
ghost use Rattle.node_io.specs.Sinks.{SinkState, Writes, FailsIn};
ghost use Rattle.planet_commands.specs.Causes.{IfRefused, Gives, WriteRose, Explains};
ghost use Rattle.planet_commands.specs.Own.{IsOwn};
ghost use Rattle.planet_commands.specs.Notes.{note_text};
ghost use Rattle.planet_commands.specs.declared.status.Cause.{Cause as Why};
ghost use Rattle.planet_commands.specs.declared.status.Refusal.{Refusal as Reason};
ghost use Rattle.planet_cli.specs.Requests.{Request, grow, fleet};
ghost use Rattle.planet_cli.specs.Calls.{Calls};
ghost use Rattle.planet_cli.specs.Outcomes.{refused, outcome_of, IsWhole, IsAccepted, WritesOut, BeginsOut};
ghost use Rattle.planet_cli.specs.Laws.{WhereInjected, UnlessLinked, UnlessFleet, IfNodesFailed, UnlessNode, AsksFor, MakesAtMost};
ghost use Rattle.network_config.specs.declared.fleet.Fleet.{Fleet};
ghost use Rattle.planet_commands.specs.Said.{says};
ghost use Rattle.planet_commands_fleet.specs.Fleets.{fleet_said};
ghost use Rattle.planet_cli.specs.Fleets.{Unstarted, Unwaited, WritesLines};

use planet_commands::Cause;

/// A fault comes only where its count rose in this call.
pub fn explained()
    ensures { (q : Option Request) (cause : Why) (old new : Outside) (n m : SinkState)
        → Calls q cause old new n m
        → Explains cause old new n m }
{}

/// Usage comes only where the words are none of the commands.
pub fn usage()
    ensures { (q : Option Request) (cause : Why) (old new : Outside) (n m : SinkState)
        → Calls q cause old new n m
        → cause ≡ Cause.Usage
        → q ≡ None }
{}

/// And there it does, unless an allocation fails or its note isn't written.
pub fn usage_always()
    ensures { (cause : Why) (old new : Outside) (n m : SinkState)
        → Calls None cause old new n m
        → Gives Cause.Usage cause (HasRisen n.faults m.faults) }
{}

/// A refusal is what the file says.
pub fn refused()
    ensures { (q : Option Request) (cause : Why) (old new : Outside) (n m : SinkState)
        → Calls q cause old new n m
        → IsTrue old.files.observable
        → IfRefused cause (λ r. outcome_of q old.files.held ≡ refused r) }
{}

/// And where the file is refused, that is the answer, unless it wasn't read, an allocation fails, or the note isn't written.
pub fn refused_always()
    ensures { (q : Option Request) (cause : Why) (old new : Outside) (n m : SinkState)
        → Calls q cause old new n m
        → IsTrue old.files.observable
        → (r : Reason)
        → outcome_of q old.files.held ≡ refused r
        → ¬ (HasRisen old.files.read_faults new.files.read_faults)
        → Gives (Cause.Refused r) cause (HasRisen n.faults m.faults) }
{}

/// No refusal is, or holds, `NoMemory`.
pub fn own()
    ensures { (q : Option Request) (cause : Why) (old new : Outside) (n m : SinkState)
        → Calls q cause old new n m
        → IfRefused cause IsOwn }
{}

/// A refusal leaves the output as it was, its faults too.
pub fn silent()
    ensures { (q : Option Request) (cause : Why) (old new : Outside) (n m : SinkState)
        → Calls q cause old new n m
        → IfRefused cause (λ r. new.out ≡ old.out) }
{}

/// What is done does its work: the file is taken.
pub fn accepted()
    ensures { (q : Option Request) (cause : Why) (old new : Outside) (n m : SinkState)
        → Calls q cause old new n m
        → IsTrue old.files.observable
        → cause ≡ Cause.Done
        → IsAccepted (outcome_of q old.files.held) }
{}

/// And then its output was written, where it is defined whole.
pub fn whole()
    ensures { (q : Option Request) (cause : Why) (old new : Outside) (n m : SinkState)
        → Calls q cause old new n m
        → IsTrue old.files.observable
        → cause ≡ Cause.Done
        → WritesOut (outcome_of q old.files.held) old.out new.out }
{}

/// After every answer a prefix of it was.
pub fn front()
    ensures { (q : Option Request) (cause : Why) (old new : Outside) (n m : SinkState)
        → Calls q cause old new n m
        → IsTrue old.files.observable
        → BeginsOut (outcome_of q old.files.held) old.out new.out }
{}

/// Where the output is defined whole and no fault came, the call is done, or an allocation failed.
pub fn complete()
    ensures { (q : Option Request) (cause : Why) (old new : Outside) (n m : SinkState)
        → Calls q cause old new n m
        → IsTrue old.files.observable
        → IsWhole (outcome_of q old.files.held)
        → ¬ (HasRisen old.files.read_faults new.files.read_faults)
        → ¬ (HasRisen old.out.faults new.out.faults)
        → ¬ (HasRisen n.faults m.faults)
        → WhereInjected q (¬ (HasRisen old.link.faults new.link.faults))
        → (cause ≡ Cause.Done) ⊎ (cause ≡ Cause.NoMemory) }
{}

/// The note of the cause was written, or the notes failed in a note.
pub fn note()
    ensures { (q : Option Request) (cause : Why) (old new : Outside) (n m : SinkState)
        → Calls q cause old new n m
        → Writes n m (note_text cause)
        ⊎ ((cause ≡ Cause.WriteFault) × ((found : Why) × FailsIn n m (note_text found))) }
{}

/// A fault of reading comes only where the count of the files rose.
pub fn read_fault()
    ensures { (q : Option Request) (old new : Outside) (n m : SinkState)
        → Calls q Cause.ReadFault old new n m
        → HasRisen old.files.read_faults new.files.read_faults }
{}

/// A fault of writing comes only where the count of the output, of the files or of the notes rose.
pub fn write_fault()
    ensures { (q : Option Request) (old new : Outside) (n m : SinkState)
        → Calls q Cause.WriteFault old new n m
        → WriteRose old new n m }
{}

/// A fault of the link comes only where its count rose.
pub fn link_fault()
    ensures { (q : Option Request) (old new : Outside) (n m : SinkState)
        → Calls q Cause.LinkFault old new n m
        → HasRisen old.link.faults new.link.faults }
{}

/// A fault of children comes only where their count rose.
pub fn spawn_fault()
    ensures { (q : Option Request) (old new : Outside) (n m : SinkState)
        → Calls q Cause.SpawnFault old new n m
        → HasRisen old.children.faults new.children.faults }
{}

/// Only the commands with a link end so.
pub fn no_link_fault()
    ensures { (q : Option Request) (cause : Why) (old new : Outside) (n m : SinkState)
        → Calls q cause old new n m
        → UnlessLinked q (cause ≢ Cause.LinkFault) }
{}

/// Only `fleet` ends for a fault of children.
pub fn no_spawn_fault()
    ensures { (q : Option Request) (cause : Why) (old new : Outside) (n m : SinkState)
        → Calls q cause old new n m
        → UnlessFleet q (cause ≢ Cause.SpawnFault) }
{}

/// And only it ends for nodes that failed.
pub fn no_nodes_failed()
    ensures { (q : Option Request) (cause : Why) (old new : Outside) (n m : SinkState)
        → Calls q cause old new n m
        → UnlessFleet q (IfNodesFailed cause (λ h s. ⊥)) }
{}

/// The names asked of the files grew at most by the file of the request.
pub fn asked()
    ensures { (q : Option Request) (cause : Why) (old new : Outside) (n m : SinkState)
        → Calls q cause old new n m
        → AsksFor q old.files.asked new.files.asked }
{}

/// No command but `node` makes a file, and that at most its log.
pub fn made()
    ensures { (q : Option Request) (cause : Why) (old new : Outside) (n m : SinkState)
        → Calls q cause old new n m
        → MakesAtMost q old new }
{}

/// No command but `node` changes what files hold.
pub fn files()
    ensures { (q : Option Request) (cause : Why) (old new : Outside) (n m : SinkState)
        → Calls q cause old new n m
        → UnlessNode q (new.files.held ≡ old.files.held) }
{}

/// No command but `inject` and `node` uses the link.
pub fn no_frames()
    ensures { (q : Option Request) (cause : Why) (old new : Outside) (n m : SinkState)
        → Calls q cause old new n m
        → UnlessLinked q (new.link ≡ old.link) }
{}

/// No command but `node` takes what arrives.
pub fn no_arrivals()
    ensures { (q : Option Request) (cause : Why) (old new : Outside) (n m : SinkState)
        → Calls q cause old new n m
        → UnlessNode q (new.link.script ≡ old.link.script) }
{}

/// A file that isn't taken leaves the link, the clock and the files as they were.
pub fn unserved()
    ensures { (q : Option Request) (cause : Why) (old new : Outside) (n m : SinkState)
        → Calls q cause old new n m
        → IsTrue old.files.observable
        → ¬ (IsAccepted (outcome_of q old.files.held))
        → (new.link ≡ old.link) × (new.clock ≡ old.clock) × (new.files.held ≡ old.files.held) }
{}

/// No command but `node` uses the clock.
pub fn no_moments()
    ensures { (q : Option Request) (cause : Why) (old new : Outside) (n m : SinkState)
        → Calls q cause old new n m
        → UnlessNode q (new.clock ≡ old.clock) }
{}

/// No command but `fleet` uses children.
pub fn no_starts()
    ensures { (q : Option Request) (cause : Why) (old new : Outside) (n m : SinkState)
        → Calls q cause old new n m
        → UnlessFleet q (new.children ≡ old.children) }
{}

/// The statuses that children end with stay.
pub fn statuses()
    ensures { (q : Option Request) (cause : Why) (old new : Outside) (n m : SinkState)
        → Calls q cause old new n m
        → new.children.statuses ≡ old.children.statuses }
{}

/// A network that grows ends done, for a failed allocation, or where the output or the notes failed, whatever the files hold: it
/// is never refused.
pub fn grow_ends()
    ensures { (seed k : ℕ) (cause : Why) (old new : Outside) (n m : SinkState)
        → Calls (Some (grow seed k)) cause old new n m
        → (cause ≡ Cause.Done)
        ⊎ ((cause ≡ Cause.NoMemory)
        ⊎ ((cause ≡ Cause.WriteFault)
        × (HasRisen old.out.faults new.out.faults ⊎ HasRisen n.faults m.faults))) }
{}

/// A fleet that a fault of children ended failed in a start or in a waiting. After a failed start those that run were waited
/// for, up to a further fault, and no line was written.
pub fn fleet_stops()
    ensures { (file : List ℕ) (cause : Why) (old new : Outside) (n m : SinkState)
        (call : Calls (Some (fleet file)) cause old new n m)
        → IsTrue old.files.observable
        → (f : Fleet)
        → fleet_said file old.files.held ≡ says f
        → call.found ≡ Cause.SpawnFault
        → Unstarted f old new ⊎ Unwaited f old new }
{}

/// After every answer a fleet's output has a prefix of the lines of some statuses, whatever the spawner reports.
pub fn fleet_lines()
    ensures { (file : List ℕ) (cause : Why) (old new : Outside) (n m : SinkState)
        → Calls (Some (fleet file)) cause old new n m
        → IsTrue old.files.observable
        → (f : Fleet)
        → fleet_said file old.files.held ≡ says f
        → WritesLines f old.out new.out }
{}

/// A note that was cut is a prefix of the note of what the call found, or of that of `NoMemory`, where there was no memory for
/// the other.
pub fn cut_notes()
    ensures { (q : Option Request) (cause : Why) (old new : Outside) (n m : SinkState)
        (call : Calls q cause old new n m)
        → Writes n m (note_text cause)
        ⊎ ((cause ≡ Cause.WriteFault)
        × (FailsIn n m (note_text call.found) ⊎ FailsIn n m (note_text Cause.NoMemory))) }
{}
