//! The words with which a child is started.
ghost use Rattle.std.specs.Prelude.{◌≡◌, ◌++◌, ◌∷◌, [], IfOk, OnOk, codes};
ghost use Rattle.std.specs.Fmt.{decimal};
ghost use Rattle.std.specs.String.{string_bytes};
ghost use Rattle.fleet_run.specs.Fleets as spec;
ghost use Rattle.fleet_run.specs.Fleets.{fleet_starts};

use containers::Items;
use network_config::Kid;
use plan_base::{Host, NoMemory, Text, Texts};
use std::alloc::{AllocError, Global};

fn add_word(alloc: Global, words: &mut Texts, word: &[u8]) -> Result<(), AllocError>
    ensures { OnOk result (words.new ≡ words.old ++ word.now ∷ []) }
{
    let text = Text::of(Vec::from_slice(alloc, word)?);
    words.add(text)
}

// `node FILE TURNS`
fn node_words(alloc: Global, file: &Text, turns: u32) -> Result<Texts, AllocError>
    ensures { IfOk result (λ words. words ≡ codes "node" ∷ file.now ∷ decimal turns ∷ []) }
{
    let mut words = Texts::new(alloc);
    let turns = format!(in alloc; "{turns}")?;
    add_word(alloc, &mut words, b"node")?;
    add_word(alloc, &mut words, file.as_slice())?;
    add_word(alloc, &mut words, turns.as_bytes())?;
    Ok(words)
}

// `inject FILE`
fn ask_words(alloc: Global, file: &Text) -> Result<Texts, AllocError>
    ensures { IfOk result (λ words. words ≡ codes "inject" ∷ file.now ∷ []) }
{
    let mut words = Texts::new(alloc);
    add_word(alloc, &mut words, b"inject")?;
    add_word(alloc, &mut words, file.as_slice())?;
    Ok(words)
}

// The words with which a child is started.
fn kid_words(alloc: Global, kid: &Kid) -> Result<Texts, AllocError>
    ensures { IfOk result (λ words. words ≡ spec.kid_words kid.now) }
{
    match kid {
        Kid::Node(_, file, turns) => node_words(alloc, file, *turns),
        Kid::Ask(_, file) => ask_words(alloc, file),
    }
}

/// The words of the starts of these children.
pub fn starts_of(alloc: Global, kids: &[Kid]) -> Result<Items<Texts>, NoMemory>
    ensures { IfOk result (λ starts. starts ≡ fleet_starts kids.now) }
{
    let mut starts = Items::new(alloc);
    for kid in kids {
        starts.add(kid_words(alloc, kid)?)?;
    }
    Ok(starts)
}

/// The host of a child.
pub fn kid_host(kid: &Kid) -> Host
    ensures { result ≡ spec.kid_host kid.now }
{
    match kid {
        Kid::Node(host, _, _) => *host,
        Kid::Ask(host, _) => *host,
    }
}

/// The line of a child that ended with this status.
pub fn kid_line(alloc: Global, kid: &Kid, status: u8) -> Result<String, AllocError>
    ensures { IfOk result (λ line. string_bytes line ≡ spec.kid_line kid.now status) }
{
    match kid {
        Kid::Node(host, _, _) => format!(in alloc; "node @{} status {status}\n", host.0),
        Kid::Ask(host, _) => format!(in alloc; "ask @{} status {status}\n", host.0),
    }
}
