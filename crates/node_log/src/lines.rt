//! Writes the lines of a node's steps.
ghost use Rattle.std.specs.Prelude.{◌≡◌, ◌++◌, ◌∷◌, [], IfOk, OnOk};
ghost use Rattle.node_core_spec.specs.declared.acts.Act.TheVariants as act;
ghost use Rattle.node_log.specs.Runs.{entries_at};
ghost use Rattle.node_log.specs.Texts.{lines_text};

use node_core_spec::Act;
use plan_base::{Bytes, Host, NoMemory};
use std::alloc::Global;
use trace_text::put_act;

/// Appends the lines of acts.
fn put_acts(
    alloc: Global,
    number: u64,
    here: Host,
    acts: &[Act],
    out: &mut Bytes,
) -> Result<(), NoMemory>
    ensures { OnOk result (out.new ≡ out.old ++ lines_text here (entries_at number acts.now)) }
{
    for act in acts {
        put_act(alloc, number, here, act, out)?;
    }
    Ok(())
}

/// The lines of the acts of a step with this number.
pub fn step_lines(alloc: Global, number: u64, here: Host, acts: &[Act]) -> Result<Bytes, NoMemory>
    ensures { IfOk result (λ text. text ≡ lines_text here (entries_at number acts.now)) }
{
    let mut text = Bytes::new(alloc);
    put_acts(alloc, number, here, acts, &mut text)?;
    Ok(text)
}

/// The line of a step with this number that found no memory.
#[tactic(auto, using(crate::proofs::LineLaws::lines_one))]
pub fn lost_lines(alloc: Global, number: u64, here: Host) -> Result<Bytes, NoMemory>
    ensures { IfOk result (λ text. text ≡ lines_text here (entries_at number (act.NoMemory ∷ []))) }
{
    let mut text = Bytes::new(alloc);
    let lost = Act::NoMemory;
    let put = put_act(alloc, number, here, &lost, &mut text);
    drop(lost);
    put?;
    Ok(text)
}
