//! What the words of a call ask for.
ghost use Rattle.std.specs.Prelude.{◌≡◌, IfSome, MatchOption};
ghost use Rattle.planet_cli.specs.Requests.{with_own, with_file, with_two, request_of};
ghost use Rattle.planet_cli.specs.Commands.{request_for, command_fits};

use crate::kinds::{Kind, kind_named};
use line_reader::{as_file_name, decimal, is, number_of};
use plan_base::Texts;

/// What words ask for.
#[derive(Clone, Copy)]
pub enum Command<'a> {
    /// One that reads one file and writes one text
    OnFile(Kind, &'a str),
    /// `inject FILE`
    Inject(&'a str),
    /// `fleet FILE`
    Fleet(&'a str),
    /// `audit FILE`
    Audit(&'a str),
    /// `node FILE TURNS`, with TURNS from 1 to 1,000,000
    Node(&'a str, u32),
    /// `grow SEED N`, with N from 1 to 50,000
    Grow(u64, u32),
}

// The command of that name on a file that does more than to write a text of it, or `None` where there is none.
fn own_command<'a>(name: &[u8], file: &'a str) -> Option<Command<'a>>
    ensures { MatchOption result (with_own name.now file.now ≡ None)
        (λ c. with_own name.now file.now ≡ Some (request_for c)) }
{
    if is(name, b"inject") {
        Some(Command::Inject(file))
    } else if is(name, b"fleet") {
        Some(Command::Fleet(file))
    } else if is(name, b"audit") {
        Some(Command::Audit(file))
    } else {
        None
    }
}

// The command of that name on a file, or `None` where there is none.
fn command_on<'a>(name: &[u8], file: &'a str) -> Option<Command<'a>>
    ensures { MatchOption result (with_file name.now file.now ≡ None)
        (λ c. with_file name.now file.now ≡ Some (request_for c)) }
{
    match kind_named(name) {
        Some(kind) => Some(Command::OnFile(kind, file)),
        None => own_command(name, file),
    }
}

// The command of that name with two words, or `None` where there is none that takes them.
fn command_with<'a>(name: &[u8], first: &'a [u8], second: &'a [u8]) -> Option<Command<'a>>
    ensures named { MatchOption result (with_two name.now first.now second.now ≡ None)
        (λ c. with_two name.now first.now second.now ≡ Some (request_for c)) }
    ensures fits { IfSome result command_fits }
{
    if is(name, b"grow") {
        return Some(Command::Grow(decimal(first)?, number_of(second, 1, 50_000)?));
    }
    if is(name, b"node") {
        return Some(Command::Node(as_file_name(first)?, number_of(second, 1, 1_000_000)?));
    }
    if is(name, b"gather") {
        let kind = Kind::Gather(number_of(first, 0, 65_535)? as u16);
        return Some(Command::OnFile(kind, as_file_name(second)?));
    }
    None
}

/// What the words ask for, or `None` where they are none of the commands.
pub fn read_words(words: &Texts) -> Option<Command<'_>>
    ensures named { MatchOption result (request_of words.now ≡ None)
        (λ c. request_of words.now ≡ Some (request_for c)) }
    ensures fits { IfSome result command_fits }
{
    match words.as_slice() {
        [name, file] => command_on(name.as_slice(), as_file_name(file.as_slice())?),
        [name, first, second] => command_with(name.as_slice(), first.as_slice(), second.as_slice()),
        _ => None,
    }
}
