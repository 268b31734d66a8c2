//! Reads names of packages.
ghost use Rattle.std.specs.Prelude.{◌≡◌, [], length};
ghost use Rattle.std.specs.List.{list_any};
ghost use Rattle.line_reader.specs.Packages.{package_of, same_package, package_at, packages_at, one_package};
ghost use Rattle.line_reader.specs.Reads.{Leaves, LeavesBoth, Gives};

use crate::fault::{LineError, LineReason};
use crate::words::{Words, allow, is};
use containers::Items;
use service_api::{PackageName, Packages};
use std::alloc::Global;

/// The package that a word names.
fn package_named(word: &[u8]) -> Option<PackageName>
    ensures { result ≡ package_of word.now }
{
    if is(word, b"net") {
        Some(PackageName::Net)
    } else if is(word, b"resident") {
        Some(PackageName::Resident)
    } else if is(word, b"host") {
        Some(PackageName::Host)
    } else {
        None
    }
}

fn is_same(a: PackageName, b: PackageName) -> bool
    ensures { result ≡ same_package a b }
{
    match (a, b) {
        (PackageName::Net, PackageName::Net) => true,
        (PackageName::Resident, PackageName::Resident) => true,
        (PackageName::Host, PackageName::Host) => true,
        _ => false,
    }
}

fn is_seen(seen: &[PackageName], k: PackageName) -> bool
    ensures { result ≡ list_any (same_package k) seen.now }
{
    seen.iter().any(|p| is_same(k, *p))
}

/// The next word as a package, behind those in `seen`. Reasons: `BadWord`, `TwiceNamed`.
#[tactic(auto, unfolding(crate::specs::Packages::package_at))]
pub fn package(seen: &mut Packages, words: &mut Words<'_>) -> Result<(), LineError>
    ensures { LeavesBoth result seen.new words.new (package_at seen.old words.old) }
{
    let word = words.next()?;
    let package = package_named(word).ok_or(LineReason::BadWord)?;
    allow(!is_seen(seen.as_slice(), package), LineReason::TwiceNamed)?;
    seen.add(package)?;
    Ok(())
}

/// One `without PACKAGE`, behind those in `seen`. Reasons: `BadWord`, `TwiceNamed`.
#[tactic(auto, unfolding(crate::specs::Packages::one_package))]
fn without_package(words: &mut Words<'_>, seen: &mut Packages) -> Result<(), LineError>
    ensures { LeavesBoth result seen.new words.new (one_package seen.old words.old) }
{
    let word = words.next()?;
    allow(is(word, b"without"), LineReason::BadWord)?;
    package(seen, words)
}

#[tactic(auto, using(crate::proofs::PackageLists::packages_next, crate::proofs::PackageLists::packages_shorter, crate::proofs::PackageLists::packages_stop, crate::proofs::PackageLists::packages_done))]
/// `without PACKAGE` until the line ends. Reasons: `BadWord`, `TwiceNamed`.
pub fn packages(alloc: Global, words: &mut Words<'_>) -> Result<Packages, LineError>
    ensures { Gives (λ ps. ps) result (packages_at [] words.old) }
{
    let mut seen = Items::new(alloc);
    while words.goes_on() {
        without_package(words, &mut seen)?;
    }
    Ok(seen)
}
