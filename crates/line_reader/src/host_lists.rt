//! Reads the hosts of a network.
ghost use Rattle.std.specs.Prelude.{◌≡◌, []};
ghost use Rattle.line_reader.specs.HostLists as spec;
ghost use Rattle.line_reader.specs.HostLists.{host_more, hosts_from, hosts_with};
ghost use Rattle.line_reader.specs.Reads.{LeavesBoth, Gives};

use crate::fault::{LineError, LineReason};
use crate::numbers::number;
use crate::words::{Words, allow};
use containers::Items;
use network_config::{Hosts, is_listed};
use plan_base::Host;
use std::alloc::Global;

fn is_above(seen: &[Host], n: u32) -> bool
    ensures { result ≡ spec.is_above seen.now n }
{
    seen.iter().all(|h| h.0 < n)
}

/// One host more. Reasons: `BadWord`, `BadNumber`, `TooMany` where there are 32, `BadArgument` where it isn't above
/// those in `seen`.
#[tactic(auto, unfolding(crate::specs::HostLists::host_more))]
fn one_host(words: &mut Words<'_>, seen: &mut Hosts) -> Result<(), LineError>
    ensures { LeavesBoth result seen.new words.new (host_more seen.old words.old) }
{
    let n = number(words, 0, u32::MAX)?;
    allow(seen.len() < 32, LineReason::TooMany)?;
    allow(is_above(seen.as_slice(), n), LineReason::BadArgument)?;
    seen.add(Host(n))?;
    Ok(())
}

#[tactic(auto, using(crate::proofs::HostRows::hosts_next, crate::proofs::HostRows::hosts_shorter, crate::proofs::HostRows::hosts_stop, crate::proofs::HostRows::hosts_done))]
/// Hosts until the line ends. Reasons: those of one host.
fn all_hosts(alloc: Global, words: &mut Words<'_>) -> Result<Hosts, LineError>
    ensures { Gives (λ hs. hs) result (hosts_from [] words.old) }
{
    let mut seen = Items::new(alloc);
    while words.goes_on() {
        one_host(words, &mut seen)?;
    }
    Ok(seen)
}

/// The hosts of a network until the line ends: at most 32, ascending, with `here` among them. Reasons: `BadNumber`,
/// `TooMany`, `BadArgument`.
#[tactic(auto, unfolding(crate::specs::HostLists::hosts_with))]
pub fn hosts(alloc: Global, here: Host, words: &mut Words<'_>) -> Result<Hosts, LineError>
    ensures { Gives (λ hs. hs) result (hosts_with here words.old) }
{
    let hosts = all_hosts(alloc, words)?;
    allow(is_listed(hosts.as_slice(), here), LineReason::BadArgument)?;
    Ok(hosts)
}
