//! The event that a network makes next.
ghost use Rattle.std.specs.Prelude.{◌≡◌, ◌≤◌, IfOk};
ghost use Rattle.net_world_spec.specs.World.{WorldState};
ghost use Rattle.net_world_spec.specs.Sound.{event_fits};
ghost use Rattle.plan_base.specs.declared.stamp.Version.TheVariants.{One};
ghost use Rattle.grow_run.specs.Grow as grow;
ghost use Rattle.net_world.specs.Stands.{WorldStands};
ghost use Rattle.grow_run.specs.Pings as spec;
ghost use Rattle.grow_run.specs.Programs.{ping_program};
ghost use Rattle.grow_run.specs.Events.{choice_fits, drawn_event};

use crate::choice::RandomEvent;
use crate::draws::choose;
use crate::pings::ping;
use checked_chunks::Checked;
use net_world::World;
use network_config::WorldEvent;
use plan_base::{Host, NoMemory};
use rand_pcg::Lcg64Xsh32;
use service_api::Services;
use std::alloc::Global;

/// The bound of an injection.
const PING_BOUND: u32 = 20;

/// The hosts of the network. Each of them ticks once before anything is drawn.
const HOSTS: u32 = 8;

/// The event that was drawn. Condition: the code is a ping's.
fn event_of(alloc: Global, code: &Checked, choice: RandomEvent) -> Result<WorldEvent, NoMemory>
    requires code { code.now ≡ ping_program }
    requires choice { choice_fits choice }
    ensures event { IfOk result (λ e. e ≡ grow.event_of (spec.ping code.now) choice) }
    ensures fits { IfOk result (event_fits One) }
{
    match choice {
        RandomEvent::Inject(from, to) => {
            let chunk = ping(alloc, code, from, to)?;
            Ok(WorldEvent::Inject(from, chunk, PING_BOUND, None))
        }
        RandomEvent::Send(host, dev) => Ok(WorldEvent::Send(host, dev)),
        RandomEvent::Deliver(number) => Ok(WorldEvent::Deliver(number)),
        RandomEvent::Lose(number) => Ok(WorldEvent::Lose(number)),
        RandomEvent::Tick(host) => Ok(WorldEvent::Tick(host)),
    }
}

/// The event that is drawn next. Condition: the code is a ping's.
fn drawn_event<S: Services>(
    alloc: Global,
    code: &Checked,
    world: &World<S>,
    words: &mut Lcg64Xsh32,
) -> Result<WorldEvent, NoMemory>
    requires { code.now ≡ ping_program }
    ensures event { (w : WorldState) → WorldStands S.stands world.now w
        → IfOk result (λ e. (e, words.new) ≡ drawn_event (spec.ping code.now) words.old w) }
    ensures fits { IfOk result (event_fits One) }
{
    let choice = choose(words, world.lowest(), world.highest());
    event_of(alloc, code, choice)
}

/// The next event of a network: first each host ticks once, in order, and then what is drawn happens.
/// Condition: the code is a ping's.
pub fn next_event<S: Services>(
    alloc: Global,
    code: &Checked,
    world: &World<S>,
    words: &mut Lcg64Xsh32,
) -> Result<WorldEvent, NoMemory>
    requires { code.now ≡ ping_program }
    ensures event { (w : WorldState) → WorldStands S.stands world.now w
        → IfOk result (λ e. (e, words.new) ≡ grow.next_event (spec.ping code.now) words.old w) }
    ensures fits { IfOk result (event_fits One) }
{
    let made = world.event_count();
    if made < HOSTS {
        return Ok(WorldEvent::Tick(Host(made + 1)));
    }
    drawn_event(alloc, code, world, words)
}
