//! A step of a serving node with its texts.
ghost use Rattle.plan_base.specs.declared.stamp.Version.{Version};
ghost use Rattle.std.specs.Prelude.{◌≡◌, ◌∷◌, [], IfOk, IfSome, OnOk};
ghost use Rattle.network_config.specs.declared.event.Event.{Event as EventOf};
ghost use Rattle.network_config.specs.NodeRules.{KeepsNodeEvent};
ghost use Rattle.node_core_spec.specs.State.{NodeState};
ghost use Rattle.node_core_spec.specs.declared.acts.Act.TheVariants as act;
ghost use Rattle.node_core.specs.Stands.{version_of, NodeStands};
ghost use Rattle.node_core_spec.specs.Fits.{comes_within};
ghost use Rattle.network_config.specs.declared.event.LogEvent.TheVariants as entry;
ghost use Rattle.node_files.specs.LogTexts.{entry_text};
ghost use Rattle.node_log.specs.Runs.{entries_at};
ghost use Rattle.node_log.specs.Texts.{lines_text};
ghost use Rattle.node_serve.specs.Shown.{IsReadable};
ghost use Rattle.node_serve.specs.Steps.{TookTexts, Written};
ghost use Rattle.node_serve.specs.declared.steps.StepOutcome.TheVariants as stepped;

use crate::taken::{TakenFrame, taken_frame};
use network_config::{Event, NodeConfig};
use node_core::Node;
use node_core_spec::{Act, Acts};
use node_files::{put_log_line, put_lost_line};
use node_log::{lost_lines, step_lines};
use plan_base::{Bytes, Host, NoMemory};
use service_api::Services;
use std::alloc::Global;

/// What became of a step.
#[derive(Drop)]
pub(crate) enum StepOutcome {
    /// It found no memory, and nothing changed.
    Lost,
    /// It was made, and took this frame.
    Took(Option<TakenFrame>),
}

/// A step with its texts: its line of the log, its lines of the trace, and the bytes of the frame that it took.
pub(crate) struct StepTexts {
    pub(crate) line: Bytes,
    pub(crate) lines: Bytes,
    pub(crate) made: StepOutcome,
}

impl Drop for StepTexts {
    fn drop(self) {
        let StepTexts {
            line: _line,
            lines: _lines,
            made: _made,
        } = self;
    }
}

impl StepTexts {
    /// What became of the step.
    pub(crate) fn into_made(self) -> StepOutcome
        ensures { result ≡ self.made }
    {
        let StepTexts {
            line: _line,
            lines: _lines,
            made,
        } = self;
        made
    }
}

/// The line of the log of an event.
fn event_text(alloc: Global, event: &Event) -> Result<Bytes, NoMemory>
    ensures text { IfOk result (λ text. text ≡ entry_text (entry.Step event.now)) }
    ensures readable { (v : Version) → KeepsNodeEvent v event.now
        → OnOk result (IsReadable v (entry.Step event.now)) }
{
    let mut text = Bytes::new(alloc);
    put_log_line(alloc, event, &mut text)?;
    Ok(text)
}

/// The line of the log of a step that found no memory.
fn lost_line(alloc: Global) -> Result<Bytes, NoMemory>
    ensures { IfOk result (λ text. text ≡ entry_text entry.Lost) }
{
    let mut text = Bytes::new(alloc);
    put_lost_line(&mut text)?;
    Ok(text)
}

/// The texts of a step that found no memory.
fn lost_texts(alloc: Global, number: u64, here: Host) -> Result<StepTexts, NoMemory>
    ensures line { IfOk result (λ texts. texts.line ≡ entry_text entry.Lost) }
    ensures lines { IfOk result
        (λ texts. texts.lines ≡ lines_text here (entries_at number (act.NoMemory ∷ []))) }
    ensures made { IfOk result (λ texts. texts.made ≡ stepped.Lost) }
{
    let line = lost_line(alloc)?;
    let lines = lost_lines(alloc, number, here)?;
    Ok(StepTexts {
        line,
        lines,
        made: StepOutcome::Lost,
    })
}

/// The line of the log of an event, and the lines of the trace of its acts.
fn made_texts(
    alloc: Global,
    number: u64,
    config: &NodeConfig,
    event: &Event,
    acts: &[Act],
) -> Result<(Bytes, Bytes), NoMemory>
    ensures line { IfOk result (λ texts. texts.0 ≡ entry_text (entry.Step event.now)) }
    ensures readable { (v : Version) → KeepsNodeEvent v event.now
        → OnOk result (IsReadable v (entry.Step event.now)) }
    ensures lines { IfOk result
        (λ texts. texts.1 ≡ lines_text config.now.here (entries_at number acts.now)) }
{
    let line = event_text(alloc, event)?;
    let lines = step_lines(alloc, number, config.here, acts)?;
    Ok((line, lines))
}

/// The texts of a step that was made.
fn took_texts(
    alloc: Global,
    number: u64,
    config: &NodeConfig,
    event: &Event,
    acts: Acts,
) -> Result<StepTexts, NoMemory>
    requires { KeepsNodeEvent config.now.version event.now }
    ensures { IfOk result (λ texts. TookTexts config.now number event.now acts texts) }
{
    let (line, lines) = made_texts(alloc, number, config, event, acts.list.as_slice())?;
    let Acts { list: _list, frame } = acts;
    let frame = taken_frame(alloc, frame)?;
    Ok(StepTexts {
        line,
        lines,
        made: StepOutcome::Took(frame),
    })
}

/// Makes a step with this number, where the event found memory, and gives its texts.
pub(crate) fn try_step<S: Services>(
    alloc: Global,
    node: &mut Node<S>,
    number: u64,
    config: &NodeConfig,
    event: &Option<Event>,
) -> Result<StepTexts, NoMemory>
    requires event { IfSome event.now (KeepsNodeEvent config.now.version) }
    requires within { IfSome event.now (comes_within (version_of node.old)) }
    ensures { (s : NodeState) (e : EventOf) → NodeStands S.stands node.old s
        → IfSome event.now (λ x. x ≡ e)
        → IfOk result (λ texts. Written S.stands config.now number s e texts node.new) }
{
    let Some(event) = event else {
        return lost_texts(alloc, number, config.here);
    };
    match node.step(alloc, event) {
        Ok(acts) => took_texts(alloc, number, config, event, acts),
        Err(NoMemory) => lost_texts(alloc, number, config.here),
    }
}
