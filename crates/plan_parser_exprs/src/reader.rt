//! What reads expressions, with the function that reads those inside one more open construct.
ghost use Rattle.std.specs.Prelude.{◌≡◌, ◌+◌, ◌-◌, ◌≤◌, ◌<◌, [], ◌∷◌, ◌++◌, length, Result, Ok, Err, Some, None};
ghost use Rattle.plan_parser_exprs.specs.Ahead.{Gives, Answers, ◌>>=◌ as and_then, next_kind, name_at, need_symbol};
ghost use Rattle.plan_parser_exprs.specs.Exprs as spec;
ghost use Rattle.plan_parser_exprs.specs.Exprs.{expr_to};
ghost use Rattle.plan_parser_exprs.specs.Inside.{ReadsExprs};
ghost use Rattle.plan_parser_exprs.specs.Types.{past, opens, more};
ghost use Rattle.plan_parser_exprs.specs.Begins as begins;

use crate::ahead::Ahead;
use crate::begins::{begins_expr, begins_operand};
use crate::builder::keep_node;
use crate::fault::{ParseFault, Wanted};
use crate::level::Level;
use crate::node::{Node, one_node};
use crate::types::opens;
use containers::{Boxed, Items};
use plan_base::{Limit, Name};
use plan_lexer::{Symbol, TokenKind};
use std::alloc::Global;

/// What reads expressions, where so many further constructs may open.
#[derive(Drop)]
pub struct ExprReader<F> {
    pub alloc: Global,
    pub room: u32,
    pub read: F,
}

/// The fault at an expression past a limit, which the comma before it announces.
#[tactic(auto, unfolding(crate::specs::Types::past))]
fn past_expr(ahead: &Ahead<'_>, limit: Limit) -> ParseFault
    ensures { result ≡ past begins.begins_expr limit Wanted.AnExpr ahead.now }
{
    if begins_expr(ahead) {
        return ParseFault::TooMany(limit, ahead.place());
    }
    ParseFault::Expected(Wanted::AnExpr, ahead.place())
}

/// Takes the name that must stand next.
#[tactic(auto, unfolding(crate::specs::Ahead::name_at))]
pub fn name_at(alloc: Global, ahead: &mut Ahead<'_>) -> Result<Name, ParseFault>
    ensures { Gives (name_at ahead.old) result ahead.new }
{
    let Some(TokenKind::Word(name)) = ahead.next() else {
        return Err(ParseFault::Expected(Wanted::AName, ahead.place()));
    };
    match name.copy(alloc) {
        Ok(name) => {
            ahead.skip();
            Ok(name)
        }
        Err(_refused) => Err(ParseFault::NoMemory),
    }
}

/// Refuses where no expression begins, or where no further construct may open.
#[tactic(auto, unfolding(crate::specs::Exprs::opens_at))]
pub fn opens_expr(room: u32, ahead: &Ahead<'_>) -> Result<(), ParseFault>
    ensures { Gives (spec.opens_at begins.begins_expr room ahead.now) result ahead.now }
{
    if !begins_expr(ahead) {
        return Err(ParseFault::Expected(Wanted::AnExpr, ahead.place()));
    }
    opens(room, ahead)
}

/// Refuses where no operand begins, or where no further construct may open.
#[tactic(auto, unfolding(crate::specs::Exprs::opens_at))]
pub fn opens_operand(room: u32, ahead: &Ahead<'_>) -> Result<(), ParseFault>
    ensures { Gives (spec.opens_at begins.begins_operand room ahead.now) result ahead.now }
{
    if !begins_operand(ahead) {
        return Err(ParseFault::Expected(Wanted::AnExpr, ahead.place()));
    }
    opens(room, ahead)
}

/// Takes the symbol that must stand behind an expression.
pub fn closed(ahead: &mut Ahead<'_>, wanted: Symbol, node: Node) -> Result<Node, ParseFault>
    ensures { Gives (and_then (need_symbol wanted ahead.old) (λ shut. Ok (node, shut.1))) result
        ahead.new }
{
    match ahead.need_symbol(wanted) {
        Ok(()) => Ok(node),
        Err(fault) => {
            drop(node);
            Err(fault)
        }
    }
}

/// Takes the opening bracket that must stand next.
#[tactic(auto, unfolding(crate::specs::Exprs::need_open))]
pub fn need_open(room: u32, ahead: &mut Ahead<'_>) -> Result<(), ParseFault>
    ensures { Gives (spec.need_open room ahead.old) result ahead.new }
{
    if !ahead.is_symbol(Symbol::ParenOpen) {
        return Err(ParseFault::Expected(Wanted::Symbol(Symbol::ParenOpen), ahead.place()));
    }
    opens(room, ahead)?;
    ahead.skip();
    Ok(())
}

impl<F: Fn(Global, u32, Level, &mut Ahead<'_>) -> Result<Node, ParseFault>> ExprReader<F> {
    /// An expression at a level, inside one more open construct.
    pub fn inner(&self, ahead: &mut Ahead<'_>, level: Level) -> Result<Node, ParseFault>
        requires { ReadsExprs self.now.room (F.pre self.now.read) (F.post self.now.read) }
        ensures { Gives (expr_to self.now.room level ahead.old) result ahead.new }
    {
        (self.read)(self.alloc, self.room, level, ahead)
    }

    /// The same on the heap, while more is read.
    pub fn inner_kept(&self, ahead: &mut Ahead<'_>, level: Level) -> Result<Boxed<Node>, ParseFault>
        requires { ReadsExprs self.now.room (F.pre self.now.read) (F.post self.now.read) }
        ensures { Gives (expr_to self.now.room level ahead.old) result ahead.new }
    {
        match self.inner(ahead, level) {
            Ok(node) => keep_node(self.alloc, node),
            Err(fault) => Err(fault),
        }
    }

    /// Further expressions behind commas, until there are `most` of them.
    #[tactic(auto, using(crate::proofs::Mores::more_ends, crate::proofs::Mores::more_past, crate::proofs::Mores::more_stops, crate::proofs::Mores::more_steps))]
    pub fn more(
        &self,
        ahead: &mut Ahead<'_>,
        limit: Limit,
        most: usize,
        nodes: Items<Node>,
    ) -> Result<Items<Node>, ParseFault>
        requires reads { ReadsExprs self.now.room (F.pre self.now.read) (F.post self.now.read) }
        requires within { length nodes ≤ most }
        ensures { Gives (more (expr_to self.now.room Level.Whole) begins.begins_expr Symbol.Comma
            limit Wanted.AnExpr (most - length nodes) nodes ahead.old) result ahead.new }
    {
        let mut nodes = nodes;
        while ahead.is_symbol(Symbol::Comma) {
            ahead.skip();
            if nodes.len() >= most {
                return Err(past_expr(ahead, limit));
            }
            nodes.add(self.inner(ahead, Level::Whole)?)?;
        }
        Ok(nodes)
    }

    /// Expressions behind commas up to the closing bracket, at most `most` behind the first.
    #[tactic(auto, unfolding(crate::specs::Exprs::items_from))]
    pub fn items_from(
        &self,
        ahead: &mut Ahead<'_>,
        close: Symbol,
        limit: Limit,
        most: usize,
    ) -> Result<Items<Node>, ParseFault>
        requires reads { ReadsExprs self.now.room (F.pre self.now.read) (F.post self.now.read) }
        requires few { most < 100 }
        ensures { Gives (spec.items_from (expr_to self.now.room) self.now.room close limit most
            ahead.old) result ahead.new }
    {
        let first = self.inner(ahead, Level::Whole)?;
        let nodes = one_node(self.alloc, first)?;
        match self.more(ahead, limit, most + 1, nodes) {
            Ok(nodes) => match ahead.need_symbol(close) {
                Ok(()) => Ok(nodes),
                Err(fault) => Err(fault),
            },
            Err(fault) => Err(fault),
        }
    }

    /// An expression and the comma behind it.
    #[tactic(auto, unfolding(crate::specs::Exprs::before_comma))]
    pub fn before_comma(&self, ahead: &mut Ahead<'_>) -> Result<Boxed<Node>, ParseFault>
        requires { ReadsExprs self.now.room (F.pre self.now.read) (F.post self.now.read) }
        ensures { Gives (spec.before_comma (expr_to self.now.room) self.now.room ahead.old)
            result ahead.new }
    {
        match self.inner_kept(ahead, Level::Whole) {
            Ok(node) => match ahead.need_symbol(Symbol::Comma) {
                Ok(()) => Ok(node),
                Err(fault) => Err(fault),
            },
            Err(fault) => Err(fault),
        }
    }

    /// An expression and the bracket behind it.
    #[tactic(auto, unfolding(crate::specs::Exprs::before_close))]
    pub fn before_close(&self, ahead: &mut Ahead<'_>) -> Result<Boxed<Node>, ParseFault>
        requires { ReadsExprs self.now.room (F.pre self.now.read) (F.post self.now.read) }
        ensures { Gives (spec.before_close (expr_to self.now.room) self.now.room ahead.old)
            result ahead.new }
    {
        match self.inner_kept(ahead, Level::Whole) {
            Ok(node) => match ahead.need_symbol(Symbol::ParenClose) {
                Ok(()) => Ok(node),
                Err(fault) => Err(fault),
            },
            Err(fault) => Err(fault),
        }
    }
}
