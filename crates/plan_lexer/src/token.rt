//! Tokens, with what they stand for and their places.
use containers::Items;
use plan_base::{Bytes, Name, Text};

/// A reserved word.
#[derive(Clone, Copy, PartialEq, Eq)]
pub enum Key {
    /// `and`
    And,
    /// `blob`
    Blob,
    /// `bool`
    Bool,
    /// `char`
    Char,
    /// `chunk`
    Chunk,
    /// `dev`
    Dev,
    /// `else`
    Else,
    /// `end`
    End,
    /// `eval`
    Eval,
    /// `exception`
    Exception,
    /// `false`
    False,
    /// `foldl`
    Foldl,
    /// `foldr`
    Foldr,
    /// `fun`
    Fun,
    /// `handle`
    Handle,
    /// `host`
    Host,
    /// `if`
    If,
    /// `in`
    In,
    /// `int`
    Int,
    /// `let`
    Let,
    /// `list`
    List,
    /// `mod`
    Mod,
    /// `not`
    Not,
    /// `OnNeighbor`
    OnNeighbor,
    /// `OnRemote`
    OnRemote,
    /// `or`
    Or,
    /// `raise`
    Raise,
    /// `string`
    Str,
    /// `svc`
    Svc,
    /// `then`
    Then,
    /// `true`
    True,
    /// `try`
    Try,
    /// `unit`
    Unit,
    /// `val`
    Val,
}

/// A token that is no word, number, string, char or blob.
#[derive(Clone, Copy, PartialEq, Eq)]
pub enum Symbol {
    /// `(`
    ParenOpen,
    /// `)`
    ParenClose,
    /// `[`
    BracketOpen,
    /// `]`
    BracketClose,
    /// `,`
    Comma,
    /// `;`
    Semicolon,
    /// `:`
    Colon,
    /// `::`
    DoubleColon,
    /// `=`
    Equal,
    /// `<>`
    NotEqual,
    /// `<`
    Less,
    /// `<=`
    LessEqual,
    /// `>`
    Greater,
    /// `>=`
    GreaterEqual,
    /// `+`
    Plus,
    /// `-`
    Minus,
    /// `*`
    Star,
    /// `/`
    Slash,
    /// `^`
    Caret,
    /// `->`
    Arrow,
    /// `=>`
    FatArrow,
    /// `|`
    Bar,
    /// `_`
    Underscore,
}

/// What a token is, with what it stands for.
#[derive(Drop)]
pub enum TokenKind {
    /// A word that isn't reserved.
    Word(Name),
    /// A reserved word.
    Key(Key),
    /// A number with its sign.
    Int(i64),
    /// `@N`
    Host(u32),
    /// `%N`
    Dev(u32),
    /// `#N`, from 1 to 8.
    Part(u8),
    /// A char, by its scalar value.
    Char(u32),
    /// A string, with its escapes read.
    Str(Text),
    /// A blob, with its digits read.
    Blob(Bytes),
    /// A symbol.
    Symbol(Symbol),
}

/// A token with its place in the text.
#[derive(Drop)]
pub struct Token {
    /// What it is.
    pub kind: TokenKind,
    /// The byte number at which it begins.
    pub start: u32,
    /// The byte number behind its last byte.
    pub stop: u32,
}

/// The tokens of a text, in its order.
pub type Tokens = Items<Token>;
