//! The tokens that are left to read.
ghost use Rattle.std.specs.Prelude.{◌≡◌, ◌≤◌, ◌<◌, length};
ghost use Rattle.std.specs.Option.{option_copied};
ghost use Rattle.plan_parser_exprs.specs.Ahead.{Gives, need_symbol, need_key, name_at, place, behind, next_kind, is_word, is_symbol, is_key};

use crate::codes::{code_of_key, code_of_symbol};
use crate::fault::{ParseFault, Wanted};
use plan_base::Name;
use plan_lexer::{Key, Symbol, Token, TokenKind};
use std::alloc::Global;
use std::marker::Model;

/// The tokens that are left, with the length of the text, at which the end stands.
#[derive(Drop)]
pub struct Ahead<'a> {
    tokens: &'a [Token],
    end: u32,
}

impl<'a> Model for Ahead<'a> {
    ghost use Rattle.plan_parser_exprs.specs.Ahead.{Front};

    ghost Value = { Front };

    ghost view = { λ a. record { tokens = a.tokens.now; end = a.end } };
}

impl<'a> Ahead<'a> {
    pub fn over(tokens: &'a [Token], end: u32) -> Ahead<'a>
        ensures { result ≡ record { tokens = tokens.now; end = end } }
    {
        Ahead { tokens, end }
    }

    #[tactic(auto, unfolding(crate::specs::Ahead::place))]
    pub fn place(&self) -> u32
        ensures { result ≡ place self.now }
    {
        match self.tokens {
            [token, ..] => token.start,
            [] => self.end,
        }
    }

    /// The kind of the next token.
    #[tactic(auto, unfolding(crate::specs::Ahead::next_kind))]
    pub fn next(&self) -> Option<&TokenKind>
        ensures { option_copied result ≡ next_kind self.now }
    {
        match self.tokens {
            [token, ..] => Some(&token.kind),
            [] => None,
        }
    }

    /// The tokens that are left.
    pub fn tokens(&self) -> &'a [Token]
        ensures { result.now ≡ self.now.tokens }
    {
        self.tokens
    }

    /// The length of the text.
    pub fn end(&self) -> u32
        ensures { result ≡ self.now.end }
    {
        self.end
    }

    pub fn tokens_left(&self) -> usize
        ensures { result ≡ length self.now.tokens }
    {
        self.tokens.len()
    }

    #[tactic(auto, unfolding(crate::specs::Ahead::is_symbol, crate::specs::Ahead::next_kind))]
    pub fn is_symbol(&self, wanted: Symbol) -> bool
        ensures { result ≡ is_symbol wanted self.now }
    {
        match self.tokens {
            [token, ..] => match &token.kind {
                TokenKind::Symbol(symbol) => code_of_symbol(*symbol) == code_of_symbol(wanted),
                _ => false,
            },
            [] => false,
        }
    }

    #[tactic(auto, unfolding(crate::specs::Ahead::is_key, crate::specs::Ahead::next_kind))]
    pub fn is_key(&self, wanted: Key) -> bool
        ensures { result ≡ is_key wanted self.now }
    {
        match self.tokens {
            [token, ..] => match &token.kind {
                TokenKind::Key(key) => code_of_key(*key) == code_of_key(wanted),
                _ => false,
            },
            [] => false,
        }
    }

    /// Whether a name stands next.
    #[tactic(auto, unfolding(crate::specs::Ahead::next_kind))]
    pub fn is_name(&self) -> bool
        ensures { result ≡ is_word (next_kind self.now) }
    {
        match self.next() {
            Some(TokenKind::Word(_)) => true,
            _ => false,
        }
    }

    #[tactic(auto, unfolding(crate::specs::Ahead::behind))]
    pub fn skip(&mut self)
        ensures { self.new ≡ behind self.old }
    {
        if let [_, rest @ ..] = self.tokens {
            self.tokens = rest;
        }
    }

    #[tactic(auto, unfolding(crate::specs::Ahead::need_symbol))]
    pub fn need_symbol(&mut self, wanted: Symbol) -> Result<(), ParseFault>
        ensures { Gives (need_symbol wanted self.old) result self.new }
    {
        if !self.is_symbol(wanted) {
            return Err(ParseFault::Expected(Wanted::Symbol(wanted), self.place()));
        }
        self.skip();
        Ok(())
    }

    #[tactic(auto, unfolding(crate::specs::Ahead::need_key))]
    pub fn need_key(&mut self, wanted: Key) -> Result<(), ParseFault>
        ensures { Gives (need_key wanted self.old) result self.new }
    {
        if !self.is_key(wanted) {
            return Err(ParseFault::Expected(Wanted::Key(wanted), self.place()));
        }
        self.skip();
        Ok(())
    }
}
