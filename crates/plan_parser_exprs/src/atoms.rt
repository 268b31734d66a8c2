//! Reading literals, names, calls, chunks and what stands in brackets.
ghost use Rattle.std.specs.Prelude.{◌≡◌, ◌∷◌, [], length, Result, Ok, Err, Some, None};
ghost use Rattle.plan_parser_exprs.specs.Ahead.{Gives, Answers, next_kind};
ghost use Rattle.plan_parser_exprs.specs.Exprs as spec;
ghost use Rattle.plan_parser_exprs.specs.Exprs.{expr_to};
ghost use Rattle.plan_parser_exprs.specs.Inside.{ReadsExprs};

use crate::ahead::Ahead;
use crate::begins::begins_expr;
use crate::builder::{bracketed_items, call_of, chunk_of, tuple_of};
use crate::fault::{ParseFault, Wanted};
use crate::level::Level;
use crate::node::{Node, leaf, one_node};
use crate::reader::{ExprReader, closed, name_at, need_open};
use crate::types::{MOST_PARTS, opens, type_to};
use containers::Items;
use plan_base::{Dev, Expr, Host, Limit, Name};
use plan_lexer::{Key, Symbol, TokenKind};
use std::alloc::Global;

/// The arguments that a call may have.
pub const MOST_ARGUMENTS: usize = 8;
/// The items that brackets may have.
pub const MOST_ITEMS: usize = 63;

fn literal_key(key: Key) -> Option<Expr>
    ensures { result ≡ spec.literal_key key }
{
    match key {
        Key::True => Some(Expr::Bool(true)),
        Key::False => Some(Expr::Bool(false)),
        _ => None,
    }
}

/// The expression that the next token is by itself.
fn literal(alloc: Global, ahead: &Ahead<'_>) -> Result<Option<Expr>, ParseFault>
    ensures { Answers (Ok (spec.literal (next_kind ahead.now))) result }
{
    match ahead.next() {
        Some(TokenKind::Int(number)) => Ok(Some(Expr::Int(*number))),
        Some(TokenKind::Host(number)) => Ok(Some(Expr::Host(Host(*number)))),
        Some(TokenKind::Dev(number)) => Ok(Some(Expr::Dev(Dev(*number)))),
        Some(TokenKind::Char(scalar)) => Ok(Some(Expr::Char(*scalar))),
        Some(TokenKind::Str(text)) => Ok(Some(Expr::Str(text.copy(alloc)?))),
        Some(TokenKind::Blob(bytes)) => Ok(Some(Expr::Blob(bytes.copy(alloc)?))),
        Some(TokenKind::Key(key)) => Ok(literal_key(*key)),
        _ => Ok(None),
    }
}

/// Takes the literal that must stand next.
pub fn literal_at(alloc: Global, ahead: &mut Ahead<'_>) -> Result<Node, ParseFault>
    ensures { Gives (spec.literal_from ahead.old (spec.literal (next_kind ahead.old)))
        result ahead.new }
{
    let at = ahead.place();
    let Some(tree) = literal(alloc, ahead)? else {
        return Err(ParseFault::Expected(Wanted::AnExpr, at));
    };
    ahead.skip();
    Ok(leaf(alloc, tree, at))
}

impl<F: Fn(Global, u32, Level, &mut Ahead<'_>) -> Result<Node, ParseFault>> ExprReader<F> {
    #[tactic(auto, unfolding(crate::specs::Exprs::arguments_behind))]
    fn arguments_behind(&self, ahead: &mut Ahead<'_>) -> Result<Items<Node>, ParseFault>
        requires { ReadsExprs self.now.room (F.pre self.now.read) (F.post self.now.read) }
        ensures { Gives (spec.arguments_behind (expr_to self.now.room) self.now.room ahead.old)
            result ahead.new }
    {
        if ahead.is_symbol(Symbol::ParenClose) {
            ahead.skip();
            return Ok(Items::new(self.alloc));
        }
        if begins_expr(ahead) {
            return self.items_from(
                ahead,
                Symbol::ParenClose,
                Limit::Arguments,
                MOST_ARGUMENTS - 1,
            );
        }
        Err(ParseFault::Expected(Wanted::Symbol(Symbol::ParenClose), ahead.place()))
    }

    /// Arguments in brackets.
    #[tactic(auto, unfolding(crate::specs::Exprs::arguments))]
    fn arguments(&self, ahead: &mut Ahead<'_>) -> Result<Items<Node>, ParseFault>
        requires { ReadsExprs self.now.room (F.pre self.now.read) (F.post self.now.read) }
        ensures { Gives (spec.arguments (expr_to self.now.room) self.now.room ahead.old)
            result ahead.new }
    {
        need_open(self.room, ahead)?;
        self.arguments_behind(ahead)
    }

    #[tactic(auto, unfolding(crate::specs::Exprs::call))]
    fn call(&self, ahead: &mut Ahead<'_>, name: Name, at: u32) -> Result<Node, ParseFault>
        requires { ReadsExprs self.now.room (F.pre self.now.read) (F.post self.now.read) }
        ensures { Gives (spec.call (expr_to self.now.room) self.now.room name at ahead.old)
            result ahead.new }
    {
        match self.arguments(ahead) {
            Ok(args) => call_of(self.alloc, at, name, args),
            Err(fault) => Err(fault),
        }
    }

    /// A name: a call where a bracket stands behind it, else a variable.
    #[tactic(auto, unfolding(crate::specs::Exprs::name_operand))]
    pub fn name_operand(&self, ahead: &mut Ahead<'_>) -> Result<Node, ParseFault>
        requires { ReadsExprs self.now.room (F.pre self.now.read) (F.post self.now.read) }
        ensures { Gives (spec.name_operand (expr_to self.now.room) self.now.room ahead.old)
            result ahead.new }
    {
        let at = ahead.place();
        let name = name_at(self.alloc, ahead)?;
        if ahead.is_symbol(Symbol::ParenOpen) {
            return self.call(ahead, name, at);
        }
        Ok(leaf(self.alloc, Expr::Var(name), at))
    }

    /// A chunk of this program.
    #[tactic(auto, unfolding(crate::specs::Exprs::chunk))]
    pub fn chunk(&self, ahead: &mut Ahead<'_>) -> Result<Node, ParseFault>
        requires { ReadsExprs self.now.room (F.pre self.now.read) (F.post self.now.read) }
        ensures { Gives (spec.chunk (expr_to self.now.room) self.now.room ahead.old)
            result ahead.new }
    {
        let at = ahead.place();
        ahead.skip();
        let name = name_at(self.alloc, ahead)?;
        match ahead.need_symbol(Symbol::Bar) {
            Ok(()) => match self.arguments(ahead) {
                Ok(args) => chunk_of(self.alloc, at, name, args),
                Err(fault) => Err(fault),
            },
            Err(fault) => Err(fault),
        }
    }

    /// The further parts of a tuple.
    #[tactic(auto, unfolding(crate::specs::Exprs::tuple))]
    fn tuple(&self, ahead: &mut Ahead<'_>, at: u32, first: Node) -> Result<Node, ParseFault>
        requires { ReadsExprs self.now.room (F.pre self.now.read) (F.post self.now.read) }
        ensures { Gives (spec.tuple (expr_to self.now.room) self.now.room at first ahead.old)
            result ahead.new }
    {
        let parts = one_node(self.alloc, first)?;
        match self.more(ahead, Limit::Parts, MOST_PARTS, parts) {
            Ok(parts) => match ahead.need_symbol(Symbol::ParenClose) {
                Ok(()) => tuple_of(self.alloc, at, parts),
                Err(fault) => Err(fault),
            },
            Err(fault) => Err(fault),
        }
    }

    #[tactic(auto, unfolding(crate::specs::Exprs::single))]
    fn single(&self, ahead: &mut Ahead<'_>, first: Node) -> Result<Node, ParseFault>
        ensures { Gives (spec.single (expr_to self.now.room) self.now.room first ahead.old)
            result ahead.new }
    {
        closed(ahead, Symbol::ParenClose, first)
    }

    /// An expression in brackets, or a tuple.
    #[tactic(auto, unfolding(crate::specs::Exprs::grouped_expression))]
    fn group_or_tuple(&self, ahead: &mut Ahead<'_>, at: u32) -> Result<Node, ParseFault>
        requires { ReadsExprs self.now.room (F.pre self.now.read) (F.post self.now.read) }
        ensures { Gives (spec.grouped_expression (expr_to self.now.room) self.now.room at ahead.old)
            result ahead.new }
    {
        let first = self.inner(ahead, Level::Whole)?;
        if ahead.is_symbol(Symbol::Comma) {
            return self.tuple(ahead, at, first);
        }
        self.single(ahead, first)
    }

    #[tactic(auto, unfolding(crate::specs::Exprs::parens_behind))]
    fn parens_behind(&self, ahead: &mut Ahead<'_>, at: u32) -> Result<Node, ParseFault>
        requires { ReadsExprs self.now.room (F.pre self.now.read) (F.post self.now.read) }
        ensures { Gives (spec.parens_behind (expr_to self.now.room) self.now.room at ahead.old)
            result ahead.new }
    {
        if ahead.is_symbol(Symbol::ParenClose) {
            ahead.skip();
            return Ok(leaf(self.alloc, Expr::Unit, at));
        }
        if begins_expr(ahead) {
            return self.group_or_tuple(ahead, at);
        }
        Err(ParseFault::Expected(Wanted::Symbol(Symbol::ParenClose), ahead.place()))
    }

    /// What a round bracket begins.
    #[tactic(auto, unfolding(crate::specs::Exprs::parens))]
    pub fn parens(&self, ahead: &mut Ahead<'_>) -> Result<Node, ParseFault>
        requires { ReadsExprs self.now.room (F.pre self.now.read) (F.post self.now.read) }
        ensures { Gives (spec.parens (expr_to self.now.room) self.now.room ahead.old)
            result ahead.new }
    {
        opens(self.room, ahead)?;
        let at = ahead.place();
        ahead.skip();
        self.parens_behind(ahead, at)
    }

    /// An empty list with its element type.
    #[tactic(auto, unfolding(crate::specs::Exprs::typed_nil))]
    fn typed_nil(&self, ahead: &mut Ahead<'_>, at: u32) -> Result<Node, ParseFault>
        ensures { Gives (spec.typed_nil (expr_to self.now.room) self.now.room at ahead.old)
            result ahead.new }
    {
        ahead.skip();
        match type_to(self.alloc, self.room, ahead) {
            Ok(t) => closed(
                ahead,
                Symbol::BracketClose,
                leaf(self.alloc, Expr::Nil(Some(t)), at),
            ),
            Err(fault) => Err(fault),
        }
    }

    /// Items in brackets; their empty list has the place of the closing bracket.
    #[tactic(auto, unfolding(crate::specs::Exprs::listing))]
    fn listing(&self, ahead: &mut Ahead<'_>) -> Result<Node, ParseFault>
        requires { ReadsExprs self.now.room (F.pre self.now.read) (F.post self.now.read) }
        ensures { Gives (spec.listing (expr_to self.now.room) self.now.room ahead.old)
            result ahead.new }
    {
        let first = self.inner(ahead, Level::Whole)?;
        let items = one_node(self.alloc, first)?;
        match self.more(ahead, Limit::Items, MOST_ITEMS, items) {
            Ok(items) => {
                let at = ahead.place();
                match ahead.need_symbol(Symbol::BracketClose) {
                    Ok(()) => {
                        let end = leaf(self.alloc, Expr::Nil(None), at);
                        bracketed_items(self.alloc, items, end)
                    }
                    Err(fault) => Err(fault),
                }
            }
            Err(fault) => Err(fault),
        }
    }

    #[tactic(auto, unfolding(crate::specs::Exprs::brackets_behind))]
    fn brackets_behind(&self, ahead: &mut Ahead<'_>, at: u32) -> Result<Node, ParseFault>
        requires { ReadsExprs self.now.room (F.pre self.now.read) (F.post self.now.read) }
        ensures { Gives (spec.brackets_behind (expr_to self.now.room) self.now.room at ahead.old)
            result ahead.new }
    {
        if ahead.is_symbol(Symbol::BracketClose) {
            ahead.skip();
            return Ok(leaf(self.alloc, Expr::Nil(None), at));
        }
        if ahead.is_symbol(Symbol::Colon) {
            return self.typed_nil(ahead, at);
        }
        if begins_expr(ahead) {
            return self.listing(ahead);
        }
        Err(ParseFault::Expected(Wanted::Symbol(Symbol::BracketClose), ahead.place()))
    }

    /// What a square bracket begins.
    #[tactic(auto, unfolding(crate::specs::Exprs::brackets))]
    pub fn brackets(&self, ahead: &mut Ahead<'_>) -> Result<Node, ParseFault>
        requires { ReadsExprs self.now.room (F.pre self.now.read) (F.post self.now.read) }
        ensures { Gives (spec.brackets (expr_to self.now.room) self.now.room ahead.old)
            result ahead.new }
    {
        opens(self.room, ahead)?;
        let at = ahead.place();
        ahead.skip();
        self.brackets_behind(ahead, at)
    }
}
