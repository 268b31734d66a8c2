//! Reading the forms that a reserved word begins.
ghost use Rattle.std.specs.Prelude.{◌≡◌, ◌≤◌, ◌-◌, ◌∷◌, [], length, Result, Ok, Err, Some, None};
ghost use Rattle.plan_parser_exprs.specs.Ahead.{Gives, Answers, ◌>>=◌ as and_then, next_kind, need_key, need_symbol};
ghost use Rattle.plan_parser_exprs.specs.Exprs as spec;
ghost use Rattle.plan_parser_exprs.specs.Exprs.{expr_to};
ghost use Rattle.plan_parser_exprs.specs.Inside.{ReadsExprs};
ghost use Rattle.plan_parser_exprs.specs.Nodes as nodes;
ghost use Rattle.plan_parser_exprs.specs.Types.{past, type_to as read_type};

use crate::ahead::Ahead;
use crate::builder::{let_of, neighbor_of, remote_of, try_of};
use crate::fault::{ParseFault, Wanted};
use crate::level::Level;
use crate::node::{Bound, Caught, FoldParts, Node, SendParts, boxed_one, boxed_two, leaf, over};
use crate::reader::{ExprReader, name_at, need_open};
use crate::types::{opens, type_to};
use containers::Items;
use plan_base::{Expr, Limit, Name};
use plan_lexer::{Key, Symbol};
use std::alloc::Global;

/// The clauses that a `try` may have.
const MOST_CLAUSES: usize = 8;

/// One `val`, as a list.
fn one_bound(alloc: Global, bound: Bound) -> Result<Items<Bound>, ParseFault>
    ensures { Answers (Ok (bound ∷ [])) result }
{
    let mut bounds = Items::new(alloc);
    bounds.add(bound)?;
    Ok(bounds)
}

/// Whether a clause may begin here.
#[tactic(auto, unfolding(crate::specs::Exprs::begins_clause))]
fn begins_clause(ahead: &Ahead<'_>) -> bool
    ensures { result ≡ spec.begins_clause ahead.now }
{
    ahead.is_name() || ahead.is_symbol(Symbol::Underscore)
}

/// The fault at the ninth clause, which the bar before it announces.
#[tactic(auto, unfolding(crate::specs::Types::past))]
fn past_clause(ahead: &Ahead<'_>) -> ParseFault
    ensures { result ≡ past spec.begins_clause Limit.Clauses Wanted.AName ahead.now }
{
    if begins_clause(ahead) {
        return ParseFault::TooMany(Limit::Clauses, ahead.place());
    }
    ParseFault::Expected(Wanted::AName, ahead.place())
}

/// Takes what a clause catches: a name, or `_` for every exception.
#[tactic(auto, unfolding(crate::specs::Exprs::catch_at))]
fn catch_at(alloc: Global, ahead: &mut Ahead<'_>) -> Result<Option<Name>, ParseFault>
    ensures { Gives (spec.catch_at ahead.old) result ahead.new }
{
    if ahead.is_symbol(Symbol::Underscore) {
        ahead.skip();
        return Ok(None);
    }
    Ok(Some(name_at(alloc, ahead)?))
}

/// Whether another clause follows, which only one with a name allows.
#[tactic(auto, unfolding(crate::specs::Exprs::clause_follows))]
fn clause_follows(name: &Option<Name>, ahead: &Ahead<'_>) -> bool
    ensures { result ≡ spec.clause_follows name.now ahead.now }
{
    name.is_some() && ahead.is_symbol(Symbol::Bar)
}

/// Takes the type of a `raise`, in brackets, and the name behind it.
#[tactic(auto, unfolding(crate::specs::Exprs::raise_typed))]
fn raise_typed(alloc: Global, room: u32, ahead: &mut Ahead<'_>, at: u32) -> Result<Node, ParseFault>
    ensures { Gives (spec.raise_typed (expr_to room) room at ahead.old) result ahead.new }
{
    opens(room, ahead)?;
    ahead.skip();
    ahead.need_symbol(Symbol::Colon)?;
    match type_to(alloc, room, ahead) {
        Ok(t) => match ahead.need_symbol(Symbol::BracketClose) {
            Ok(()) => match name_at(alloc, ahead) {
                Ok(name) => Ok(leaf(alloc, Expr::Raise(name, Some(t)), at)),
                Err(fault) => {
                    drop(t);
                    Err(fault)
                }
            },
            Err(fault) => {
                drop(t);
                Err(fault)
            }
        },
        Err(fault) => Err(fault),
    }
}

#[tactic(auto, unfolding(crate::specs::Exprs::raise_plain))]
fn raise_plain(alloc: Global, room: u32, ahead: &mut Ahead<'_>, at: u32) -> Result<Node, ParseFault>
    ensures { Gives (spec.raise_plain (expr_to room) room at ahead.old) result ahead.new }
{
    let name = name_at(alloc, ahead)?;
    Ok(leaf(alloc, Expr::Raise(name, None), at))
}

#[tactic(auto, unfolding(crate::specs::Exprs::raise_form))]
pub fn raise_form(alloc: Global, room: u32, ahead: &mut Ahead<'_>) -> Result<Node, ParseFault>
    ensures { Gives (spec.raise_form (expr_to room) room ahead.old) result ahead.new }
{
    let at = ahead.place();
    ahead.skip();
    if ahead.is_symbol(Symbol::BracketOpen) {
        return raise_typed(alloc, room, ahead, at);
    }
    raise_plain(alloc, room, ahead, at)
}

impl<F: Fn(Global, u32, Level, &mut Ahead<'_>) -> Result<Node, ParseFault>> ExprReader<F> {
    /// One `val`.
    #[tactic(auto, unfolding(crate::specs::Exprs::binding))]
    fn binding(&self, ahead: &mut Ahead<'_>, at: u32) -> Result<Bound, ParseFault>
        requires { ReadsExprs self.now.room (F.pre self.now.read) (F.post self.now.read) }
        ensures { Gives (spec.binding (expr_to self.now.room) self.now.room at ahead.old)
            result ahead.new }
    {
        ahead.need_key(Key::Val)?;
        let name = name_at(self.alloc, ahead)?;
        match ahead.need_symbol(Symbol::Colon) {
            Ok(()) => self.named_binding(ahead, at, name),
            Err(fault) => Err(fault),
        }
    }

    /// What stands of a `val` behind its colon.
    fn named_binding(&self, ahead: &mut Ahead<'_>, at: u32, name: Name) -> Result<Bound, ParseFault>
        requires { ReadsExprs self.now.room (F.pre self.now.read) (F.post self.now.read) }
        ensures { Gives (and_then (read_type self.now.room ahead.old)
            (λ t. and_then (need_symbol Symbol.Equal t.1)
            (λ equal. and_then (expr_to self.now.room Level.Whole equal.1)
            (λ e. Ok (record { at = at; name = name; ty = t.0; value = e.0 }, e.1))))) result
            ahead.new }
    {
        match type_to(self.alloc, self.room, ahead) {
            Ok(ty) => match ahead.need_symbol(Symbol::Equal) {
                Ok(()) => match self.inner(ahead, Level::Whole) {
                    Ok(value) => Ok(Bound {
                        at,
                        name,
                        ty,
                        value,
                    }),
                    Err(fault) => {
                        drop(ty);
                        Err(fault)
                    }
                },
                Err(fault) => {
                    drop(ty);
                    Err(fault)
                }
            },
            Err(fault) => Err(fault),
        }
    }

    /// Further `val`, of which there are no more than tokens.
    #[tactic(auto, using(crate::proofs::Chains::bindings_done, crate::proofs::Chains::bindings_end, crate::proofs::Chains::bindings_stop, crate::proofs::Chains::bindings_step))]
    fn bindings_from(
        &self,
        ahead: &mut Ahead<'_>,
        bounds: Items<Bound>,
    ) -> Result<Items<Bound>, ParseFault>
        requires { ReadsExprs self.now.room (F.pre self.now.read) (F.post self.now.read) }
        ensures { Gives (spec.bindings_from (expr_to self.now.room) self.now.room
            (length ahead.old.tokens) bounds ahead.old) result ahead.new }
    {
        let mut bounds = bounds;
        for _ in 0..ahead.tokens_left() {
            if !ahead.is_key(Key::Val) {
                return Ok(bounds);
            }
            let at = ahead.place();
            bounds.add(self.binding(ahead, at)?)?;
        }
        Ok(bounds)
    }

    #[tactic(auto, unfolding(crate::specs::Exprs::let_form))]
    pub fn let_form(&self, ahead: &mut Ahead<'_>) -> Result<Node, ParseFault>
        requires { ReadsExprs self.now.room (F.pre self.now.read) (F.post self.now.read) }
        ensures { Gives (spec.let_form (expr_to self.now.room) self.now.room ahead.old)
            result ahead.new }
    {
        opens(self.room, ahead)?;
        let at = ahead.place();
        ahead.skip();
        let first = self.binding(ahead, at)?;
        let bounds = one_bound(self.alloc, first)?;
        match self.bindings_from(ahead, bounds) {
            Ok(bounds) => self.let_body(ahead, bounds),
            Err(fault) => Err(fault),
        }
    }

    /// What stands of a `let` behind its bindings.
    fn let_body(&self, ahead: &mut Ahead<'_>, bounds: Items<Bound>) -> Result<Node, ParseFault>
        requires { ReadsExprs self.now.room (F.pre self.now.read) (F.post self.now.read) }
        ensures { Gives (and_then (need_key Key.In ahead.old)
            (λ inside. and_then (expr_to self.now.room Level.Whole inside.1)
            (λ body. and_then (need_key Key.End body.1)
            (λ end. Ok (nodes.let_of bounds body.0, end.1))))) result ahead.new }
    {
        match ahead.need_key(Key::In) {
            Ok(()) => match self.inner_kept(ahead, Level::Whole) {
                Ok(body) => match ahead.need_key(Key::End) {
                    Ok(()) => let_of(self.alloc, bounds, body.into_inner()),
                    Err(fault) => Err(fault),
                },
                Err(fault) => Err(fault),
            },
            Err(fault) => Err(fault),
        }
    }

    /// One clause.
    #[tactic(auto, unfolding(crate::specs::Exprs::clause))]
    fn clause(&self, ahead: &mut Ahead<'_>) -> Result<Caught, ParseFault>
        requires { ReadsExprs self.now.room (F.pre self.now.read) (F.post self.now.read) }
        ensures { Gives (spec.clause (expr_to self.now.room) self.now.room ahead.old)
            result ahead.new }
    {
        let name = catch_at(self.alloc, ahead)?;
        match ahead.need_symbol(Symbol::FatArrow) {
            Ok(()) => match self.inner(ahead, Level::Whole) {
                Ok(body) => Ok(Caught { name, body }),
                Err(fault) => Err(fault),
            },
            Err(fault) => Err(fault),
        }
    }

    /// The clauses of a `try`, of which `_` is the last.
    #[tactic(auto, using(crate::proofs::Chains::clauses_done, crate::proofs::Chains::clauses_end, crate::proofs::Chains::clauses_stop, crate::proofs::Chains::clauses_step))]
    fn clauses(&self, ahead: &mut Ahead<'_>) -> Result<Items<Caught>, ParseFault>
        requires { ReadsExprs self.now.room (F.pre self.now.read) (F.post self.now.read) }
        ensures { Gives (spec.clauses_from (expr_to self.now.room) self.now.room 8 [] ahead.old)
            result ahead.new }
    {
        let mut clauses = Items::new(self.alloc);
        for _ in 0..MOST_CLAUSES {
            let clause = self.clause(ahead)?;
            let follows = clause_follows(&clause.name, ahead);
            clauses.add(clause)?;
            if !follows {
                return Ok(clauses);
            }
            ahead.skip();
        }
        Err(past_clause(ahead))
    }

    #[tactic(auto, unfolding(crate::specs::Exprs::try_form))]
    pub fn try_form(&self, ahead: &mut Ahead<'_>) -> Result<Node, ParseFault>
        requires { ReadsExprs self.now.room (F.pre self.now.read) (F.post self.now.read) }
        ensures { Gives (spec.try_form (expr_to self.now.room) self.now.room ahead.old)
            result ahead.new }
    {
        opens(self.room, ahead)?;
        let at = ahead.place();
        ahead.skip();
        let body = self.inner_kept(ahead, Level::Whole)?;
        match ahead.need_key(Key::Handle) {
            Ok(()) => match self.clauses(ahead) {
                Ok(clauses) => match ahead.need_key(Key::End) {
                    Ok(()) => try_of(self.alloc, at, body.into_inner(), clauses),
                    Err(fault) => Err(fault),
                },
                Err(fault) => Err(fault),
            },
            Err(fault) => Err(fault),
        }
    }

    #[tactic(auto, unfolding(crate::specs::Exprs::fold_parts))]
    fn fold_parts(&self, ahead: &mut Ahead<'_>) -> Result<FoldParts, ParseFault>
        requires { ReadsExprs self.now.room (F.pre self.now.read) (F.post self.now.read) }
        ensures { Gives (spec.fold_parts (expr_to self.now.room) self.now.room ahead.old)
            result ahead.new }
    {
        ahead.skip();
        need_open(self.room, ahead)?;
        let name = name_at(self.alloc, ahead)?;
        match ahead.need_symbol(Symbol::Comma) {
            Ok(()) => match self.before_comma(ahead) {
                Ok(start) => match self.before_close(ahead) {
                    Ok(list) => Ok(FoldParts { name, start, list }),
                    Err(fault) => Err(fault),
                },
                Err(fault) => Err(fault),
            },
            Err(fault) => Err(fault),
        }
    }

    #[tactic(auto, unfolding(crate::specs::Exprs::foldl_form))]
    pub fn foldl_form(&self, ahead: &mut Ahead<'_>) -> Result<Node, ParseFault>
        requires { ReadsExprs self.now.room (F.pre self.now.read) (F.post self.now.read) }
        ensures { Gives (spec.foldl_form (expr_to self.now.room) self.now.room ahead.old)
            result ahead.new }
    {
        let at = ahead.place();
        let FoldParts { name, start, list } = self.fold_parts(ahead)?;
        match boxed_two(self.alloc, start.into_inner(), list.into_inner()) {
            Ok((start, list, below)) => Ok(over(
                self.alloc,
                Expr::Foldl(name, start, list),
                at,
                below,
            )),
            Err(fault) => Err(fault),
        }
    }

    #[tactic(auto, unfolding(crate::specs::Exprs::foldr_form))]
    pub fn foldr_form(&self, ahead: &mut Ahead<'_>) -> Result<Node, ParseFault>
        requires { ReadsExprs self.now.room (F.pre self.now.read) (F.post self.now.read) }
        ensures { Gives (spec.foldr_form (expr_to self.now.room) self.now.room ahead.old)
            result ahead.new }
    {
        let at = ahead.place();
        let FoldParts { name, start, list } = self.fold_parts(ahead)?;
        match boxed_two(self.alloc, start.into_inner(), list.into_inner()) {
            Ok((start, list, below)) => Ok(over(
                self.alloc,
                Expr::Foldr(name, start, list),
                at,
                below,
            )),
            Err(fault) => Err(fault),
        }
    }

    #[tactic(auto, unfolding(crate::specs::Exprs::eval_form))]
    pub fn eval_form(&self, ahead: &mut Ahead<'_>) -> Result<Node, ParseFault>
        requires { ReadsExprs self.now.room (F.pre self.now.read) (F.post self.now.read) }
        ensures { Gives (spec.eval_form (expr_to self.now.room) self.now.room ahead.old)
            result ahead.new }
    {
        let at = ahead.place();
        ahead.skip();
        need_open(self.room, ahead)?;
        let chunk = self.before_close(ahead)?;
        let (chunk, below) = boxed_one(self.alloc, chunk.into_inner())?;
        Ok(over(self.alloc, Expr::Eval(chunk), at, below))
    }

    #[tactic(auto, unfolding(crate::specs::Exprs::send_parts))]
    fn send_parts(&self, ahead: &mut Ahead<'_>) -> Result<SendParts, ParseFault>
        requires { ReadsExprs self.now.room (F.pre self.now.read) (F.post self.now.read) }
        ensures { Gives (spec.send_parts (expr_to self.now.room) self.now.room ahead.old)
            result ahead.new }
    {
        ahead.skip();
        need_open(self.room, ahead)?;
        let chunk = self.before_comma(ahead)?;
        match self.before_comma(ahead) {
            Ok(host) => match self.before_comma(ahead) {
                Ok(bound) => Ok(SendParts { chunk, host, bound }),
                Err(fault) => Err(fault),
            },
            Err(fault) => Err(fault),
        }
    }

    #[tactic(auto, unfolding(crate::specs::Exprs::remote_form))]
    pub fn remote_form(&self, ahead: &mut Ahead<'_>) -> Result<Node, ParseFault>
        requires { ReadsExprs self.now.room (F.pre self.now.read) (F.post self.now.read) }
        ensures { Gives (spec.remote_form (expr_to self.now.room) self.now.room ahead.old)
            result ahead.new }
    {
        let at = ahead.place();
        let parts = self.send_parts(ahead)?;
        match name_at(self.alloc, ahead) {
            Ok(route) => match ahead.need_symbol(Symbol::ParenClose) {
                Ok(()) => remote_of(self.alloc, at, parts, route),
                Err(fault) => Err(fault),
            },
            Err(fault) => Err(fault),
        }
    }

    #[tactic(auto, unfolding(crate::specs::Exprs::neighbor_form))]
    pub fn neighbor_form(&self, ahead: &mut Ahead<'_>) -> Result<Node, ParseFault>
        requires { ReadsExprs self.now.room (F.pre self.now.read) (F.post self.now.read) }
        ensures { Gives (spec.neighbor_form (expr_to self.now.room) self.now.room ahead.old)
            result ahead.new }
    {
        let at = ahead.place();
        let parts = self.send_parts(ahead)?;
        match self.before_close(ahead) {
            Ok(dev) => neighbor_of(self.alloc, at, parts, dev),
            Err(fault) => Err(fault),
        }
    }
}
