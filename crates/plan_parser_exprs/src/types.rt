//! Reading types.
ghost use Rattle.std.specs.Prelude.{ℕ, List, ◌≡◌, ◌+◌, ◌≤◌, [], ◌∷◌, ◌-◌, length, is_some, nat_lt, if◌then◌else◌, MatchResult, Result, Ok, Err};
ghost use Rattle.plan_parser_exprs.specs.Ahead.{Gives, Answers, next_kind};
ghost use Rattle.plan_parser_exprs.specs.Begins as begins;
ghost use Rattle.plan_parser_exprs.specs.Begins.{begins_type};
ghost use Rattle.plan_parser_exprs.specs.Types.{opens, past, more, type_or_fault, list_words, behind_lists, lists_of, judged_type, type_to};
ghost use Rattle.plan_parser_exprs.specs.Types as spec;
ghost use Rattle.plan_parser_exprs.specs.Inside.{ReadsTypes};
ghost use Rattle.plan_parser_exprs.specs.declared.fault.ParseFault.TheVariants.{TooDeep, NoMemory};

use crate::ahead::Ahead;
use crate::codes::code_of_key;
use crate::fault::{ParseFault, Wanted};
use containers::{Boxed, Items};
use plan_base::{Limit, Ty, Tys};
use plan_base_size::HasDepth;
use plan_lexer::{Key, Symbol, Token, TokenKind};
use std::alloc::Global;

/// The deepest type.
const MOST_TYPE_DEPTH: usize = 8;
/// The parts that a tuple may have.
pub const MOST_PARTS: usize = 8;

fn simple_type(key: Key) -> Option<Ty>
    ensures { result ≡ begins.simple_type key }
{
    match key {
        Key::Unit => Some(Ty::Unit),
        Key::Bool => Some(Ty::Bool),
        Key::Int => Some(Ty::Int),
        Key::Char => Some(Ty::Char),
        Key::Str => Some(Ty::Str),
        Key::Blob => Some(Ty::Blob),
        Key::Host => Some(Ty::Host),
        Key::Dev => Some(Ty::Dev),
        Key::Chunk => Some(Ty::Chunk),
        _ => None,
    }
}

fn next_type(ahead: &Ahead<'_>) -> Option<Ty>
    ensures { result ≡ begins.kind_type (next_kind ahead.now) }
{
    match ahead.next() {
        Some(TokenKind::Key(key)) => simple_type(*key),
        _ => None,
    }
}

#[tactic(auto, unfolding(crate::specs::Begins::begins_type))]
pub fn begins_type(ahead: &Ahead<'_>) -> bool
    ensures { result ≡ begins_type ahead.now }
{
    next_type(ahead).is_some() || ahead.is_symbol(Symbol::ParenOpen)
}

/// Refuses where no further construct may open.
#[tactic(auto, unfolding(crate::specs::Types::opens))]
pub fn opens(room: u32, ahead: &Ahead<'_>) -> Result<(), ParseFault>
    ensures { Gives (opens room ahead.now) result ahead.now }
{
    if room == 0 {
        return Err(ParseFault::TooDeep(ahead.place()));
    }
    Ok(())
}

/// The fault at an item past a limit, which the separator before it announces.
#[tactic(auto, unfolding(crate::specs::Types::past))]
pub fn past_type(ahead: &Ahead<'_>, limit: Limit) -> ParseFault
    ensures { result ≡ past begins_type limit Wanted.AType ahead.now }
{
    if begins_type(ahead) {
        return ParseFault::TooMany(limit, ahead.place());
    }
    ParseFault::Expected(Wanted::AType, ahead.place())
}

fn is_list_word(token: &Token) -> bool
    ensures { result ≡ spec.is_list_word token.now }
{
    match &token.kind {
        TokenKind::Key(key) => code_of_key(*key) == code_of_key(Key::List),
        _ => false,
    }
}

/// How many words `list` stand first, and what stands behind them.
fn after_lists(tokens: &[Token]) -> (usize, &[Token])
    ensures { (result.0, result.1.now) ≡ spec.after_lists 0 tokens.now }
{
    let mut count = 0;
    let mut rest = tokens;
    while let [token, more @ ..] = rest {
        if !is_list_word(token) {
            return (count, rest);
        }
        count += 1;
        rest = more;
    }
    (count, rest)
}

/// Takes the words `list` that stand next, and says how many.
#[tactic(auto, unfolding(crate::specs::Types::list_words, crate::specs::Types::behind_lists))]
fn take_lists(ahead: &mut Ahead<'_>) -> usize
    ensures count { result ≡ list_words ahead.old }
    ensures behind { ahead.new ≡ behind_lists ahead.old }
{
    let (count, rest) = after_lists(ahead.tokens());
    let end = ahead.end();
    *ahead = Ahead::over(rest, end);
    count
}

/// A list of lists of `t`, with so many levels.
#[tactic(auto, using(crate::proofs::Mores::lists_step))]
fn lists_of(alloc: Global, count: u32, t: Ty) -> Result<Ty, ParseFault>
    ensures { Answers (Ok (lists_of count t)) result }
{
    let mut t = t;
    for _ in 0..count {
        t = Ty::List(Boxed::new(alloc, t)?);
    }
    Ok(t)
}

/// A list of lists of `base`, with `words` levels, which began at `start` and must not be too deep.
#[tactic(auto, unfolding(crate::specs::Types::judged_type))]
fn judge_type(alloc: Global, start: u32, words: usize, base: Ty) -> Result<Ty, ParseFault>
    ensures { Answers (judged_type start words base) result }
{
    let depth = base.depth() as usize;
    if words > MOST_TYPE_DEPTH || depth + words > MOST_TYPE_DEPTH {
        drop(base);
        return Err(ParseFault::TooDeep(start));
    }
    lists_of(alloc, words as u32, base)
}

/// One type, as a list.
pub fn one_type(alloc: Global, ty: Ty) -> Result<Tys, ParseFault>
    ensures { Answers (Ok (ty ∷ [])) result }
{
    let mut types = Items::new(alloc);
    types.add(ty)?;
    Ok(types)
}

/// What reads types, with the function that reads those inside one more open construct.
#[derive(Drop)]
pub struct TypeReader<F> {
    pub alloc: Global,
    pub room: u32,
    pub read: F,
}

impl<F: Fn(Global, u32, &mut Ahead<'_>) -> Result<Ty, ParseFault>> TypeReader<F> {
    fn inner(&self, ahead: &mut Ahead<'_>) -> Result<Ty, ParseFault>
        requires { ReadsTypes self.now.room (F.pre self.now.read) (F.post self.now.read) }
        ensures { Gives (type_to self.now.room ahead.old) result ahead.new }
    {
        (self.read)(self.alloc, self.room, ahead)
    }

    /// Further types behind separators, until there are `most` of them.
    #[tactic(auto, using(crate::proofs::Mores::more_ends, crate::proofs::Mores::more_past, crate::proofs::Mores::more_stops, crate::proofs::Mores::more_steps))]
    fn more(
        &self,
        ahead: &mut Ahead<'_>,
        separator: Symbol,
        limit: Limit,
        most: usize,
        types: Tys,
    ) -> Result<Tys, ParseFault>
        requires reads { ReadsTypes self.now.room (F.pre self.now.read) (F.post self.now.read) }
        requires within { length types ≤ most }
        ensures { Gives (more (type_to self.now.room) begins_type separator limit Wanted.AType
            (most - length types) types ahead.old) result ahead.new }
    {
        let mut types = types;
        while ahead.is_symbol(separator) {
            ahead.skip();
            if types.len() >= most {
                return Err(past_type(ahead, limit));
            }
            types.add(self.inner(ahead)?)?;
        }
        Ok(types)
    }

    #[tactic(auto, unfolding(crate::specs::Types::tuple_type))]
    fn tuple_type(&self, ahead: &mut Ahead<'_>, first: Ty) -> Result<Ty, ParseFault>
        requires { ReadsTypes self.now.room (F.pre self.now.read) (F.post self.now.read) }
        ensures { Gives (spec.tuple_type (type_to self.now.room) self.now.room first ahead.old)
            result ahead.new }
    {
        let types = one_type(self.alloc, first)?;
        match self.more(ahead, Symbol::Star, Limit::Parts, MOST_PARTS, types) {
            Ok(types) => match ahead.need_symbol(Symbol::ParenClose) {
                Ok(()) => Ok(Ty::Tuple(types)),
                Err(fault) => Err(fault),
            },
            Err(fault) => Err(fault),
        }
    }

    #[tactic(auto, unfolding(crate::specs::Types::single_type))]
    fn single_type(&self, ahead: &mut Ahead<'_>, first: Ty) -> Result<Ty, ParseFault>
        ensures { Gives (spec.single_type (type_to self.now.room) self.now.room first ahead.old)
            result ahead.new }
    {
        match ahead.need_symbol(Symbol::ParenClose) {
            Ok(()) => Ok(first),
            Err(fault) => {
                drop(first);
                Err(fault)
            }
        }
    }

    #[tactic(auto, unfolding(crate::specs::Types::group_type))]
    fn group_type(&self, ahead: &mut Ahead<'_>) -> Result<Ty, ParseFault>
        requires { ReadsTypes self.now.room (F.pre self.now.read) (F.post self.now.read) }
        ensures { Gives (spec.group_type (type_to self.now.room) self.now.room ahead.old)
            result ahead.new }
    {
        opens(self.room, ahead)?;
        ahead.skip();
        let first = self.inner(ahead)?;
        if ahead.is_symbol(Symbol::Star) {
            self.tuple_type(ahead, first)
        } else {
            self.single_type(ahead, first)
        }
    }

    #[tactic(auto, unfolding(crate::specs::Types::base_type))]
    fn base_type(&self, ahead: &mut Ahead<'_>) -> Result<Ty, ParseFault>
        requires { ReadsTypes self.now.room (F.pre self.now.read) (F.post self.now.read) }
        ensures { Gives (spec.base_type (type_to self.now.room) self.now.room ahead.old)
            result ahead.new }
    {
        if ahead.is_symbol(Symbol::ParenOpen) {
            return self.group_type(ahead);
        }
        named_type(ahead)
    }

    #[tactic(auto, unfolding(crate::specs::Types::whole_type))]
    fn whole_type(&self, ahead: &mut Ahead<'_>) -> Result<Ty, ParseFault>
        requires { ReadsTypes self.now.room (F.pre self.now.read) (F.post self.now.read) }
        ensures { Gives (spec.whole_type (type_to self.now.room) self.now.room ahead.old)
            result ahead.new }
    {
        let start = ahead.place();
        let base = self.base_type(ahead)?;
        let words = take_lists(ahead);
        judge_type(self.alloc, start, words, base)
    }
}

/// A type that one token names.
fn named_type(ahead: &mut Ahead<'_>) -> Result<Ty, ParseFault>
    ensures { Gives (type_or_fault ahead.old (begins.kind_type (next_kind ahead.old)))
        result ahead.new }
{
    let Some(t) = next_type(ahead) else {
        return Err(ParseFault::Expected(Wanted::AType, ahead.place()));
    };
    ahead.skip();
    Ok(t)
}

/// A type, with room for so many open constructs less one.
pub fn type_to(alloc: Global, room: u32, ahead: &mut Ahead<'_>) -> Result<Ty, ParseFault>
    ensures { Gives (type_to room ahead.old) result ahead.new }
{
    if room == 0 {
        return Err(ParseFault::TooDeep(ahead.place()));
    }
    TypeReader {
        alloc,
        room: room - 1,
        read: type_to,
    }
    .whole_type(ahead)
}
