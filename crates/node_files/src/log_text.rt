//! Writes the lines of a node's log.
ghost use Rattle.std.specs.Prelude.{◌≡◌, ◌++◌, ◌≤◌, length, codes, IfOk, OnOk, OnErr, Ok, Some};
ghost use Rattle.std.specs.List.{All, flat_map};
ghost use Rattle.std.specs.Fmt.{decimal};
ghost use Rattle.hex.specs.Hex.{encode_lower};
ghost use Rattle.wire_bytes.specs.Fields.{IsBytes};
ghost use Rattle.chunk_codec_spec.specs.Values.{chunk_bytes as bytes_of};
ghost use Rattle.chunk_codec_spec.specs.Spelling.{a_whole_chunk};
ghost use Rattle.network_config.specs.NodeRules.{KeepsLog};
ghost use Rattle.network_config.specs.declared.node.Log.{Log as Logged};
ghost use Rattle.network_config.specs.declared.event.LogEvent.{LogEvent as Entry};
ghost use Rattle.schedule_text.specs.Written.{package_word, handler_words, IsNamed};
ghost use Rattle.node_files.specs.Logs.{log_of};
ghost use Rattle.node_files.specs.LogTexts as spec;
ghost use Rattle.node_files.specs.LogTexts.{closing, line_text, event_words, entry_text, hosts_words, device_words, missing_words, CanSpell, IsSpellable, log_text};

use checked_chunks::CheckedChunk;
use chunk_codec::{may_be_spelled, put_chunk};
use hex::encode;
use network_config::{Event, NodeConfig};
use plan_base::{Bytes, Chunk, Dev, Host, Name, NoMemory, Version};
use plan_base_size::chunk_weight;
use service_api::PackageName;
use std::alloc::Global;
use wire_bytes::{Cursor, Out};

/// A number in decimal.
fn put_number(alloc: Global, n: u64, out: &mut Bytes) -> Result<(), NoMemory>
    ensures { OnOk result (out.new ≡ out.old ++ decimal n) }
{
    let digits = format!(in alloc; "{n}")?;
    out.add_all(digits.as_bytes())?;
    Ok(())
}

/// Bytes in hex, in lower case.
fn put_hex(alloc: Global, bytes: &[u8], out: &mut Bytes) -> Result<(), NoMemory>
    ensures { OnOk result (out.new ≡ out.old ++ encode_lower bytes.now) }
{
    out.add_all(encode(alloc, bytes)?.as_bytes())?;
    Ok(())
}

/// A chunk that keeps the limits of its spelling, as its bytes.
#[tactic(auto, using(packet_frame::proofs::Sizes::chunk_small, packet_frame::proofs::Sizes::chunk_can, chunk_codec_spec::proofs::LengthLaws::chunk_length))]
fn bytes_of_chunk(alloc: Global, chunk: &Chunk) -> Result<Bytes, NoMemory>
    requires { a_whole_chunk.Fits chunk.now }
    ensures value { IfOk result (λ b. b ≡ bytes_of chunk.now) }
    ensures few { IfOk result (λ b. length b ≤ 16383) }
{
    let mut out = Out::with_room(alloc, chunk_weight(chunk) as u32)?;
    put_chunk(chunk, &mut out);
    Ok(Bytes::of(out.into_vec()))
}

/// Shows that bytes are below 256, and changes nothing. Condition: at most 4,194,304 bytes. Takes no memory.
fn are_bytes(bytes: &[u8])
    requires { length bytes.now ≤ 4194304 }
    ensures { IsBytes bytes.now }
{
    let _begin = Cursor::over(bytes).at();
}

/// The end of the line of an injection that has a handler.
fn put_name(name: &Name, out: &mut Bytes) -> Result<(), NoMemory>
    ensures line { OnOk result (out.new ≡ out.old ++ closing (handler_words (Some name.now))) }
    ensures again { IsNamed (Some name.now) }
{
    let bytes = name.as_slice();
    out.add_all(b" handler ")?;
    out.add_all(bytes)?;
    out.add_all(b"\n")?;
    Ok(())
}

/// The end of the line of an injection.
fn put_handler(handler: &Option<Name>, out: &mut Bytes) -> Result<(), NoMemory>
    ensures line { OnOk result (out.new ≡ out.old ++ closing (handler_words handler.now)) }
    ensures again { IsNamed handler.now }
{
    match handler {
        None => {
            out.add_all(b"\n")?;
            Ok(())
        }
        Some(name) => put_name(name, out),
    }
}

/// The line of an injection.
fn put_inject(
    alloc: Global,
    chunk: &CheckedChunk,
    bound: u32,
    handler: &Option<Name>,
    out: &mut Bytes,
) -> Result<(), NoMemory>
    ensures line { OnOk result (out.new ≡ out.old ++ line_text
        (event_words (Event.Inject chunk.now bound handler.now))) }
    ensures again { OnOk result (CanSpell chunk.now × IsNamed handler.now) }
{
    let chunk = chunk.chunk();
    may_be_spelled(chunk);
    let bytes = bytes_of_chunk(alloc, chunk)?;
    are_bytes(bytes.as_slice());
    out.add_all(b"inject ")?;
    put_number(alloc, u64::from(bound), out)?;
    out.add_all(b" ")?;
    put_hex(alloc, bytes.as_slice(), out)?;
    put_handler(handler, out)
}

/// The line of a frame.
fn put_frame(alloc: Global, dev: Dev, bytes: &[u8], out: &mut Bytes) -> Result<(), NoMemory>
    ensures { OnOk result (out.new ≡ out.old ++ line_text
        (event_words (Event.Frame dev bytes.now))) }
{
    out.add_all(b"frame ")?;
    put_number(alloc, u64::from(dev.0), out)?;
    out.add_all(b" ")?;
    put_hex(alloc, bytes, out)?;
    out.add_all(b"\n")?;
    Ok(())
}

/// The line of bytes from the owner.
fn put_control(alloc: Global, bytes: &[u8], out: &mut Bytes) -> Result<(), NoMemory>
    ensures { OnOk result (out.new ≡ out.old ++ line_text (event_words (Event.Control bytes.now))) }
{
    out.add_all(b"control ")?;
    put_hex(alloc, bytes, out)?;
    out.add_all(b"\n")?;
    Ok(())
}

/// The line of a taking.
fn put_take(alloc: Global, dev: Dev, out: &mut Bytes) -> Result<(), NoMemory>
    ensures { OnOk result (out.new ≡ out.old ++ line_text (event_words (Event.Take dev))) }
{
    out.add_all(b"take ")?;
    put_number(alloc, u64::from(dev.0), out)?;
    out.add_all(b"\n")?;
    Ok(())
}

/// The line of an event.
fn put_event(alloc: Global, event: &Event, out: &mut Bytes) -> Result<(), NoMemory>
    ensures line { OnOk result (out.new ≡ out.old ++ entry_text (Entry.Step event.now)) }
    ensures again { OnOk result (IsSpellable (Entry.Step event.now)) }
{
    match event {
        Event::Inject(chunk, bound, handler) => put_inject(alloc, chunk, *bound, handler, out),
        Event::Frame(dev, bytes) => put_frame(alloc, *dev, bytes.as_slice(), out),
        Event::Control(bytes) => put_control(alloc, bytes.as_slice(), out),
        Event::Tick => {
            out.add_all(b"tick\n")?;
            Ok(())
        }
        Event::Take(dev) => put_take(alloc, *dev, out),
    }
}

/// Appends the line of an event of a log.
pub fn put_log_line(alloc: Global, event: &Event, out: &mut Bytes) -> Result<(), NoMemory>
    // The line of the event is appended.
    ensures line { OnOk result (out.new ≡ out.old ++ entry_text (Entry.Step event.now)) }
    // What the line says can be read again.
    ensures again { OnOk result (IsSpellable (Entry.Step event.now)) }
    // Where an allocation fails, nothing is appended.
    ensures stays { OnErr result (out.new ≡ out.old) }
{
    let mut line = Bytes::new(alloc);
    put_event(alloc, event, &mut line)?;
    out.add_all(line.as_slice())?;
    Ok(())
}

/// Appends the line of an event for which an allocation failed.
pub fn put_lost_line(out: &mut Bytes) -> Result<(), NoMemory>
    ensures line { OnOk result (out.new ≡ out.old ++ entry_text Entry.Lost) }
    // Where an allocation fails, nothing is appended.
    ensures stays { OnErr result (out.new ≡ out.old) }
{
    out.add_all(b"lost\n")?;
    Ok(())
}

/// A number behind a space.
fn put_behind(alloc: Global, host: Host, out: &mut Bytes) -> Result<(), NoMemory>
    ensures { OnOk result (out.new ≡ out.old ++ spec.spaced_host host) }
{
    out.add_all(b" ")?;
    put_number(alloc, u64::from(host.0), out)
}

/// Numbers, each behind a space.
fn put_all_behind(alloc: Global, hosts: &[Host], out: &mut Bytes) -> Result<(), NoMemory>
    ensures { OnOk result (out.new ≡ out.old ++ flat_map spec.spaced_host hosts.now) }
{
    for h in hosts {
        put_behind(alloc, *h, out)?;
    }
    Ok(())
}

/// The line of the network's hosts.
fn put_hosts(alloc: Global, hosts: &[Host], out: &mut Bytes) -> Result<(), NoMemory>
    ensures { OnOk result (out.new ≡ out.old ++ line_text (hosts_words hosts.now)) }
{
    out.add_all(b"hosts")?;
    put_all_behind(alloc, hosts, out)?;
    out.add_all(b"\n")?;
    Ok(())
}

/// The line of the node's own host.
fn put_host(alloc: Global, host: Host, out: &mut Bytes) -> Result<(), NoMemory>
    ensures { OnOk result (out.new ≡ out.old ++ line_text (spec.host_words host)) }
{
    out.add_all(b"host ")?;
    put_number(alloc, u64::from(host.0), out)?;
    out.add_all(b"\n")?;
    Ok(())
}

/// The line of a neighbour.
fn put_device(alloc: Global, n: (Host, Dev), out: &mut Bytes) -> Result<(), NoMemory>
    ensures { OnOk result (out.new ≡ out.old ++ line_text (device_words n)) }
{
    out.add_all(b"dev ")?;
    put_number(alloc, u64::from(n.1.0), out)?;
    out.add_all(b" ")?;
    put_number(alloc, u64::from(n.0.0), out)?;
    out.add_all(b"\n")?;
    Ok(())
}

/// The lines of neighbours.
fn put_devices(alloc: Global, neighbours: &[(Host, Dev)], out: &mut Bytes) -> Result<(), NoMemory>
    ensures { OnOk result (out.new ≡ out.old ++ flat_map spec.device_line neighbours.now) }
{
    for n in neighbours {
        put_device(alloc, *n, out)?;
    }
    Ok(())
}

/// The name of a package.
fn name_of(missing: PackageName) -> &'static [u8]
    ensures { result.now ≡ package_word missing }
{
    match missing {
        PackageName::Net => b"net",
        PackageName::Resident => b"resident",
        PackageName::Host => b"host",
    }
}

/// The line of a missing package.
fn put_missing(missing: PackageName, out: &mut Bytes) -> Result<(), NoMemory>
    ensures { OnOk result (out.new ≡ out.old ++ line_text (missing_words missing)) }
{
    out.add_all(b"without ")?;
    out.add_all(name_of(missing))?;
    out.add_all(b"\n")?;
    Ok(())
}

/// The lines of missing packages.
fn put_all_missing(missing: &[PackageName], out: &mut Bytes) -> Result<(), NoMemory>
    ensures { OnOk result (out.new ≡ out.old ++ flat_map spec.missing_line missing.now) }
{
    for p in missing {
        put_missing(*p, out)?;
    }
    Ok(())
}

/// The first line of a log.
fn header_of(version: Version) -> &'static [u8]
    ensures { result.now ≡ spec.header_text version }
{
    match version {
        Version::One => b"planet log 1\n",
        Version::Two => b"planet log 2\n",
    }
}

/// The line of the moment at which a node of version 2 began; of version 1 there is none.
fn put_boot(alloc: Global, version: Version, boot: u64, out: &mut Bytes) -> Result<(), NoMemory>
    ensures { OnOk result (out.new ≡ out.old ++ spec.boot_text version boot) }
{
    match version {
        Version::One => Ok(()),
        Version::Two => {
            out.add_all(b"boot ")?;
            put_number(alloc, boot, out)?;
            out.add_all(b"\n")?;
            Ok(())
        }
    }
}

/// The lines of a log up to `events`.
#[tactic(auto, unfolding(crate::specs::LogTexts::head_text))]
fn put_head(
    alloc: Global,
    node: &NodeConfig,
    missing: &[PackageName],
    out: &mut Bytes,
) -> Result<(), NoMemory>
    ensures { OnOk result (out.new ≡ out.old ++ spec.head_text node.now missing.now) }
{
    out.add_all(header_of(node.version))?;
    put_host(alloc, node.here, out)?;
    put_boot(alloc, node.version, node.boot, out)?;
    put_hosts(alloc, node.hosts.as_slice(), out)?;
    put_devices(alloc, node.neighbours.as_slice(), out)?;
    put_all_missing(missing, out)?;
    out.add_all(b"events\n")?;
    Ok(())
}

/// Appends the lines of a log up to `events`: how the node begins, and what it lacks.
pub fn put_log_head(
    alloc: Global,
    node: &NodeConfig,
    missing: &[PackageName],
    out: &mut Bytes,
) -> Result<(), NoMemory>
    ensures lines { OnOk result (out.new ≡ out.old ++ spec.head_text node.now missing.now) }
    // Where an allocation fails, nothing is appended.
    ensures stays { OnErr result (out.new ≡ out.old) }
{
    let mut lines = Bytes::new(alloc);
    put_head(alloc, node, missing, &mut lines)?;
    out.add_all(lines.as_slice())?;
    Ok(())
}

/// The law of logs: what is written of a log that keeps the rules, whose chunks can be spelled, reads as that log.
#[tactic(auto, using(crate::proofs::LogTextLaws::log_again))]
pub fn log_reads_again()
    ensures { (l : Logged) → KeepsLog l → All IsSpellable l.events → log_of (log_text l) ≡ Ok l }
{}
