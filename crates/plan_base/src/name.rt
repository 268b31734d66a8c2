//! Names: words of letters, digits and `_`.
ghost use Rattle.std.specs.Prelude.{◌≡◌, ◌↔◌, false, IfOk, IsTrue, OnOk};
ghost use Rattle.std.specs.List.{list_all, list_any};
ghost use Rattle.std.specs.Str.{bytes_eq};
ghost use Rattle.plan_base.specs.Words.{is_word_byte, is_word, is_reserved, is_name, IsName};

use crate::letters::InlineBytes;
use crate::memory::NoMemory;
use containers::{Items, Shared};
use std::alloc::{AllocError, Global};
use std::marker::Model;
use thiserror::Error;

/// A name: a word of 1 to 32 bytes that isn't reserved, which contracts see as the list of its bytes.
///
/// A word begins with a letter; letters, digits and `_` may follow, all of them ASCII. A copy of a name is one more owner of
/// its bytes.
pub struct Name {
    bytes: Shared<InlineBytes<32>>,
}

// (with its own `Drop`, so that what drops a name need not prove again how its bytes are dropped)
impl Drop for Name {
    fn drop(self) {
        let Name { bytes: _bytes } = self;
    }
}

impl Model for Name {
    ghost use Rattle.std.specs.Prelude.{List, ℕ};
    ghost use Rattle.std.specs.Coded.{coded_list, coded_ℕ};
    ghost use Rattle.plan_base.specs.Words.{IsName};

    ghost Value = { List ℕ };

    ghost coded = { coded_list coded_ℕ };

    ghost view = { λ n. n.bytes };

    ghost invariant = { λ n. IsName n.bytes };
}

/// A list of names.
pub type Names = Items<Name>;

/// Why bytes were not taken as a name.
#[derive(Debug, Drop, Error)]
pub enum NameFault {
    /// They are no word of 1 to 32 bytes, or a reserved one.
    #[error("not a name")]
    BadName,
    /// Memory was refused.
    #[error("no memory")]
    NoMemory,
}

impl From<AllocError> for NameFault {
    ghost use Rattle.std.specs.Prelude.{◌≡◌};
    ghost use Rattle.plan_base.specs.declared.name.NameFault.TheVariants.{NoMemory};

    ghost from_gives = { λ _ e. e ≡ NoMemory };

    fn from(_refused: AllocError) -> NameFault {
        NameFault::NoMemory
    }
}

impl Name {
    /// The bytes as a name. `BadName` comes exactly where they are none.
    #[tactic(auto, using(crate::proofs::WordLaws::is_name_within))]
    pub fn read(alloc: Global, bytes: &[u8]) -> Result<Name, NameFault>
        ensures found { IfOk result (λ n. n ≡ bytes.now) }
        ensures only { OnOk result (IsName bytes.now) }
        ensures fault { (result ≡ Err NameFault.BadName) ↔ (is_name bytes.now ≡ false) }
    {
        if !is_name(bytes) {
            return Err(NameFault::BadName);
        }
        let bytes = Shared::new(alloc, InlineBytes::of(bytes))?;
        Ok(Name { bytes })
    }

    /// A name that the language itself needs, as `Overflow` or `defaultRoute`. Condition: `word` is a name.
    #[tactic(auto, using(crate::proofs::WordLaws::is_name_within))]
    pub fn of(alloc: Global, word: &[u8]) -> Result<Name, NoMemory>
        requires { IsName word.now }
        ensures { IfOk result (λ n. n ≡ word.now) }
    {
        let bytes = Shared::new(alloc, InlineBytes::of(word))?;
        Ok(Name { bytes })
    }

    /// The bytes of the name, lent.
    pub fn as_slice(&self) -> &[u8]
        ensures value { result.now ≡ self.now }
        ensures name { IsName self.now }
    {
        self.bytes.get().as_slice()
    }

    /// The same name, with one more owner. Takes no memory, and fails only where the count of owners is full.
    pub fn copy(&self, _alloc: Global) -> Result<Name, NoMemory>
        ensures { IfOk result (λ n. n ≡ self.now) }
    {
        let bytes = self.bytes.share()?;
        Ok(Name { bytes })
    }

    /// Whether the two names are the same. Takes no memory.
    pub fn is(&self, other: &Name) -> bool
        ensures same { IsTrue result ↔ (self.now ≡ other.now) }
        ensures tested { result ≡ bytes_eq self.now other.now }
    {
        same_bytes(self.as_slice(), other.as_slice())
    }
}

/// Whether two slices have the same bytes, one by one: names are short.
pub fn same_bytes(a: &[u8], b: &[u8]) -> bool
    ensures { result ≡ bytes_eq a.now b.now }
{
    let mut left = a;
    let mut right = b;
    while let [x, xs @ ..] = left {
        let [y, ys @ ..] = right else {
            return false;
        };
        if *x != *y {
            return false;
        }
        left = xs;
        right = ys;
    }
    right.is_empty()
}

/// Whether the bytes are a name.
#[tactic(auto, unfolding(crate::specs::Words::is_name))]
pub fn is_name(bytes: &[u8]) -> bool
    ensures { result ≡ is_name bytes.now }
{
    is_word(bytes) && bytes.len() <= 32 && !is_reserved(bytes)
}

#[tactic(auto, using(crate::proofs::WordLaws::is_word_is))]
fn is_word(bytes: &[u8]) -> bool
    ensures { result ≡ is_word bytes.now }
{
    match bytes {
        [first, rest @ ..] => first.is_ascii_alphabetic() && are_word_bytes(rest),
        [] => false,
    }
}

fn are_word_bytes(bytes: &[u8]) -> bool
    ensures { result ≡ list_all is_word_byte bytes.now }
{
    bytes
        .iter()
        .all(|b| b.is_ascii_alphanumeric() || *b == b'_')
}

// The reserved words of each number of bytes that they have.
static TWO: [&[u8]; 3] = [b"if", b"in", b"or"];

static THREE: [&[u8]; 11] = [
    b"and", b"dev", b"end", b"fun", b"int", b"let", b"mod", b"not", b"svc", b"try", b"val",
];

static FOUR: [&[u8]; 10] = [
    b"blob", b"bool", b"char", b"else", b"eval", b"host", b"list", b"then", b"true", b"unit",
];

static FIVE: [&[u8]; 5] = [b"chunk", b"false", b"foldl", b"foldr", b"raise"];

static SIX: [&[u8]; 2] = [b"handle", b"string"];

static EIGHT: [&[u8]; 1] = [b"OnRemote"];

static NINE: [&[u8]; 1] = [b"exception"];

static TEN: [&[u8]; 1] = [b"OnNeighbor"];

/// Whether the word is one that the language keeps for itself. It is compared with those of its length alone.
#[tactic(auto)]
pub fn is_reserved(word: &[u8]) -> bool
    ensures { result ≡ is_reserved word.now }
{
    let size = word.len();
    if size == 2 {
        return is_among(word, &TWO);
    }
    if size == 3 {
        return is_among(word, &THREE);
    }
    if size == 4 {
        return is_among(word, &FOUR);
    }
    if size == 5 {
        return is_among(word, &FIVE);
    }
    if size == 6 {
        return is_among(word, &SIX);
    }
    if size == 8 {
        return is_among(word, &EIGHT);
    }
    if size == 9 {
        return is_among(word, &NINE);
    }
    if size == 10 {
        return is_among(word, &TEN);
    }
    false
}

fn is_among(word: &[u8], words: &[&[u8]]) -> bool
    ensures { result ≡ list_any (λ r. bytes_eq r.now word.now) words.now }
{
    words.iter().any(|r| same_bytes(r, word))
}
