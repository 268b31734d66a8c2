//! Reads hosts, devices and programs that were named.
ghost use Rattle.std.specs.Prelude.{◌≡◌};
ghost use Rattle.std.specs.List.{find, list_any};
ghost use Rattle.std.specs.Option.{option_copied};
ghost use Rattle.line_reader.specs.Reads.{Reads};
ghost use Rattle.schedule_text.specs.Parts.{host_at, device_at, free_device_at, is_called, program_at};

use crate::reading::NamedProgram;
use line_reader::{LineReason, Words, allow, is, number};
use network_config::{HostSpec, Link, has_host, has_link};
use plan_base::{Dev, Host};

/// The next word as a host that was named. Reasons: `BadWord`, `BadNumber`, `UnknownHost`.
#[tactic(auto, unfolding(crate::specs::Parts::host_at))]
pub fn known_host(hosts: &[HostSpec], words: &mut Words<'_>) -> Result<Host, LineReason>
    ensures { Reads (λ h. h) result words.new (host_at hosts.now words.old) }
{
    let n = number(words, 0, u32::MAX)?;
    allow(has_host(hosts, Host(n)), LineReason::UnknownHost)?;
    Ok(Host(n))
}

/// The next word as a device, from 0 to 8. Reasons: `BadWord`, `BadNumber`.
#[tactic(auto, unfolding(crate::specs::Parts::device_at))]
pub fn device(words: &mut Words<'_>) -> Result<Dev, LineReason>
    ensures { Reads (λ d. d) result words.new (device_at words.old) }
{
    let d = number(words, 0, 8)?;
    Ok(Dev(d))
}

/// The next word as a device, from 1 to 8, of a host that has no link yet. Reasons: `BadWord`,
/// `BadNumber`, `TwiceNamed`.
#[tactic(auto, unfolding(crate::specs::Parts::free_device_at))]
pub fn free_device(links: &[Link], host: Host, words: &mut Words<'_>) -> Result<Dev, LineReason>
    ensures { Reads (λ d. d) result words.new (free_device_at links.now host words.old) }
{
    let d = number(words, 1, 8)?;
    allow(!has_link(links, host, Dev(d)), LineReason::TwiceNamed)?;
    Ok(Dev(d))
}

fn find_program<'a>(programs: &'a [NamedProgram], name: &[u8]) -> Option<&'a NamedProgram>
    ensures { option_copied result ≡ find (is_called name.now) programs.now }
{
    programs.iter().find(|p| is(p.name.as_slice(), name))
}

/// The next word as a program that was named. Reasons: `BadWord`, `UnknownProgram`.
#[tactic(auto, unfolding(crate::specs::Parts::program_at))]
pub fn known_program<'a>(
    programs: &'a [NamedProgram],
    words: &mut Words<'_>,
) -> Result<&'a NamedProgram, LineReason>
    ensures { Reads (λ p. p.now) result words.new (program_at programs.now words.old) }
{
    let name = words.next()?;
    match find_program(programs, name) {
        Some(program) => Ok(program),
        None => Err(LineReason::UnknownProgram),
    }
}

/// Whether a program has a name.
pub fn is_known_program(programs: &[NamedProgram], name: &[u8]) -> bool
    ensures { result ≡ list_any (is_called name.now) programs.now }
{
    programs.iter().any(|p| is(p.name.as_slice(), name))
}
