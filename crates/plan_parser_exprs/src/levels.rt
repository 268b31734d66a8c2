//! Reading operands and what joins them, level by level.
ghost use Rattle.std.specs.Prelude.{◌≡◌, ◌-◌, length, Result, Ok, Err, Some, None};
ghost use Rattle.plan_parser_exprs.specs.Ahead.{Gives, Answers, ◌>>=◌ as and_then, next_kind, need_key};
ghost use Rattle.plan_parser_exprs.specs.Nodes.{over_three};
ghost use Rattle.plan_base.specs.declared.tree.Expr.TheVariants as x;
ghost use Rattle.plan_parser_exprs.specs.Exprs as spec;
ghost use Rattle.plan_parser_exprs.specs.Exprs.{expr_to};
ghost use Rattle.plan_parser_exprs.specs.Inside.{ReadsExprs};
ghost use Rattle.plan_parser_exprs.specs.Joints.{joint_of};
ghost use Rattle.plan_parser_exprs.specs.Starts.{start_at};

use crate::ahead::Ahead;
use crate::atoms::literal_at;
use crate::builder::{if_of, join_nodes, joined_kept, keep_node, put_before};
use crate::fault::ParseFault;
use crate::forms::raise_form;
use crate::joint::{Chain, Joint, next_joint};
use crate::level::Level;
use crate::node::{Node, boxed_one, over};
use crate::reader::{ExprReader, opens_expr, opens_operand};
use crate::start::{Start, next_start};
use crate::types::opens;
use containers::Boxed;
use plan_base::{Expr, Op};
use plan_lexer::{Key, Symbol};
use std::alloc::Global;

impl<F: Fn(Global, u32, Level, &mut Ahead<'_>) -> Result<Node, ParseFault>> ExprReader<F> {
    /// A part of a tuple.
    #[tactic(auto, unfolding(crate::specs::Exprs::picked_part))]
    fn pick_part(&self, ahead: &mut Ahead<'_>, number: u8) -> Result<Node, ParseFault>
        requires { ReadsExprs self.now.room (F.pre self.now.read) (F.post self.now.read) }
        ensures { Gives (spec.picked_part (expr_to self.now.room) self.now.room number ahead.old)
            result ahead.new }
    {
        opens(self.room, ahead)?;
        let at = ahead.place();
        ahead.skip();
        let tuple = self.inner(ahead, Level::Operand)?;
        let (tuple, below) = boxed_one(self.alloc, tuple)?;
        Ok(over(self.alloc, Expr::Part(number, tuple), at, below))
    }

    /// An operand that begins so.
    fn start_operand(&self, ahead: &mut Ahead<'_>, start: Start) -> Result<Node, ParseFault>
        requires { ReadsExprs self.now.room (F.pre self.now.read) (F.post self.now.read) }
        ensures { Gives (start_at (expr_to self.now.room) self.now.room start ahead.old)
            result ahead.new }
    {
        match start {
            Start::AName => self.name_operand(ahead),
            Start::Let => self.let_form(ahead),
            Start::Try => self.try_form(ahead),
            Start::Raise => raise_form(self.alloc, self.room, ahead),
            Start::Foldl => self.foldl_form(ahead),
            Start::Foldr => self.foldr_form(ahead),
            Start::Eval => self.eval_form(ahead),
            Start::OnRemote => self.remote_form(ahead),
            Start::OnNeighbor => self.neighbor_form(ahead),
            Start::Paren => self.parens(ahead),
            Start::Bracket => self.brackets(ahead),
            Start::Bar => self.chunk(ahead),
            Start::Part(number) => self.pick_part(ahead, number),
            Start::Literal => literal_at(self.alloc, ahead),
        }
    }

    /// What the next token begins.
    fn operand(&self, ahead: &mut Ahead<'_>) -> Result<Node, ParseFault>
        requires { ReadsExprs self.now.room (F.pre self.now.read) (F.post self.now.read) }
        ensures { Gives (spec.operand (expr_to self.now.room) self.now.room ahead.old)
            result ahead.new }
    {
        let start = next_start(ahead);
        self.start_operand(ahead, start)
    }

    /// Further factors, of which there are no more than tokens.
    #[tactic(auto, using(crate::proofs::Chains::chain_done, crate::proofs::Chains::chain_end, crate::proofs::Chains::chain_stop, crate::proofs::Chains::chain_step))]
    fn product_from(&self, ahead: &mut Ahead<'_>, left: Node) -> Result<Node, ParseFault>
        requires { ReadsExprs self.now.room (F.pre self.now.read) (F.post self.now.read) }
        ensures { Gives (spec.chain_from (spec.operand (expr_to self.now.room) self.now.room)
            Chain.Product (length ahead.old.tokens) left ahead.old) result ahead.new }
    {
        let mut left = keep_node(self.alloc, left)?;
        for _ in 0..ahead.tokens_left() {
            let Some(joint) = next_joint(Chain::Product, ahead) else {
                return Ok(left.into_inner());
            };
            ahead.skip();
            let right = self.operand(ahead)?;
            left = joined_kept(self.alloc, joint, left, right)?;
        }
        Ok(left.into_inner())
    }

    #[tactic(auto, unfolding(crate::specs::Exprs::product, crate::specs::Exprs::chained_operands))]
    fn product(&self, ahead: &mut Ahead<'_>) -> Result<Node, ParseFault>
        requires { ReadsExprs self.now.room (F.pre self.now.read) (F.post self.now.read) }
        ensures { Gives (spec.product (expr_to self.now.room) self.now.room ahead.old)
            result ahead.new }
    {
        let first = self.operand(ahead)?;
        self.product_from(ahead, first)
    }

    /// Further terms, of which there are no more than tokens.
    #[tactic(auto, using(crate::proofs::Chains::chain_done, crate::proofs::Chains::chain_end, crate::proofs::Chains::chain_stop, crate::proofs::Chains::chain_step))]
    fn addition_from(&self, ahead: &mut Ahead<'_>, left: Node) -> Result<Node, ParseFault>
        requires { ReadsExprs self.now.room (F.pre self.now.read) (F.post self.now.read) }
        ensures { Gives (spec.chain_from (spec.product (expr_to self.now.room) self.now.room)
            Chain.Sum (length ahead.old.tokens) left ahead.old) result ahead.new }
    {
        let mut left = keep_node(self.alloc, left)?;
        for _ in 0..ahead.tokens_left() {
            let Some(joint) = next_joint(Chain::Sum, ahead) else {
                return Ok(left.into_inner());
            };
            ahead.skip();
            let right = self.product(ahead)?;
            left = joined_kept(self.alloc, joint, left, right)?;
        }
        Ok(left.into_inner())
    }

    #[tactic(auto, unfolding(crate::specs::Exprs::addition, crate::specs::Exprs::chained_operands))]
    fn addition(&self, ahead: &mut Ahead<'_>) -> Result<Node, ParseFault>
        requires { ReadsExprs self.now.room (F.pre self.now.read) (F.post self.now.read) }
        ensures { Gives (spec.addition (expr_to self.now.room) self.now.room ahead.old)
            result ahead.new }
    {
        let first = self.product(ahead)?;
        self.addition_from(ahead, first)
    }

    /// An item before the rest of a list.
    #[tactic(auto, unfolding(crate::specs::Exprs::before_list))]
    fn before_list(&self, ahead: &mut Ahead<'_>, item: Node) -> Result<Node, ParseFault>
        requires { ReadsExprs self.now.room (F.pre self.now.read) (F.post self.now.read) }
        ensures { Gives (spec.before_list (expr_to self.now.room) self.now.room item ahead.old)
            result ahead.new }
    {
        let item = keep_node(self.alloc, item)?;
        match opens_operand(self.room, ahead) {
            Ok(()) => match self.inner(ahead, Level::Listed) {
                Ok(rest) => join_nodes(
                    self.alloc,
                    Joint::Operator(Op::Cons),
                    item.into_inner(),
                    rest,
                ),
                Err(fault) => Err(fault),
            },
            Err(fault) => Err(fault),
        }
    }

    #[tactic(auto, unfolding(crate::specs::Exprs::listed_operands))]
    fn listed_level(&self, ahead: &mut Ahead<'_>) -> Result<Node, ParseFault>
        requires { ReadsExprs self.now.room (F.pre self.now.read) (F.post self.now.read) }
        ensures { Gives (spec.listed_operands (expr_to self.now.room) self.now.room ahead.old)
            result ahead.new }
    {
        let item = self.addition(ahead)?;
        if ahead.is_symbol(Symbol::DoubleColon) {
            ahead.skip();
            return self.before_list(ahead, item);
        }
        Ok(item)
    }

    /// At most one comparison behind its left side.
    fn comparison_behind(&self, ahead: &mut Ahead<'_>, left: Node) -> Result<Node, ParseFault>
        requires { ReadsExprs self.now.room (F.pre self.now.read) (F.post self.now.read) }
        ensures { Gives (spec.compared_operands (expr_to self.now.room) self.now.room left ahead.old
            (joint_of Chain.Comparison (next_kind ahead.old))) result ahead.new }
    {
        let Some(joint) = next_joint(Chain::Comparison, ahead) else {
            return Ok(left);
        };
        ahead.skip();
        let left = keep_node(self.alloc, left)?;
        match self.listed_level(ahead) {
            Ok(right) => join_nodes(self.alloc, joint, left.into_inner(), right),
            Err(fault) => Err(fault),
        }
    }

    #[tactic(auto, unfolding(crate::specs::Exprs::comparison))]
    fn comparison(&self, ahead: &mut Ahead<'_>) -> Result<Node, ParseFault>
        requires { ReadsExprs self.now.room (F.pre self.now.read) (F.post self.now.read) }
        ensures { Gives (spec.comparison (expr_to self.now.room) self.now.room ahead.old)
            result ahead.new }
    {
        let left = self.listed_level(ahead)?;
        self.comparison_behind(ahead, left)
    }

    #[tactic(auto, unfolding(crate::specs::Exprs::negation))]
    fn negation(&self, ahead: &mut Ahead<'_>) -> Result<Node, ParseFault>
        requires { ReadsExprs self.now.room (F.pre self.now.read) (F.post self.now.read) }
        ensures { Gives (spec.negation (expr_to self.now.room) self.now.room ahead.old)
            result ahead.new }
    {
        opens(self.room, ahead)?;
        let at = ahead.place();
        ahead.skip();
        let negated = self.inner(ahead, Level::Negated)?;
        let (negated, below) = boxed_one(self.alloc, negated)?;
        Ok(over(self.alloc, Expr::Not(negated), at, below))
    }

    #[tactic(auto, unfolding(crate::specs::Exprs::negated_operand))]
    fn negated_level(&self, ahead: &mut Ahead<'_>) -> Result<Node, ParseFault>
        requires { ReadsExprs self.now.room (F.pre self.now.read) (F.post self.now.read) }
        ensures { Gives (spec.negated_operand (expr_to self.now.room) self.now.room ahead.old)
            result ahead.new }
    {
        if ahead.is_key(Key::Not) {
            return self.negation(ahead);
        }
        self.comparison(ahead)
    }

    /// Further sides, of which there are no more than tokens.
    #[tactic(auto, using(crate::proofs::Chains::chain_done, crate::proofs::Chains::chain_end, crate::proofs::Chains::chain_stop, crate::proofs::Chains::chain_step))]
    fn conjunction_from(&self, ahead: &mut Ahead<'_>, left: Node) -> Result<Node, ParseFault>
        requires { ReadsExprs self.now.room (F.pre self.now.read) (F.post self.now.read) }
        ensures { Gives (spec.chain_from (spec.negated_operand (expr_to self.now.room)
            self.now.room) Chain.And (length ahead.old.tokens) left ahead.old) result ahead.new }
    {
        let mut left = keep_node(self.alloc, left)?;
        for _ in 0..ahead.tokens_left() {
            let Some(joint) = next_joint(Chain::And, ahead) else {
                return Ok(left.into_inner());
            };
            ahead.skip();
            let right = self.negated_level(ahead)?;
            left = joined_kept(self.alloc, joint, left, right)?;
        }
        Ok(left.into_inner())
    }

    #[tactic(auto, unfolding(crate::specs::Exprs::conjunction, crate::specs::Exprs::chained_operands))]
    fn conjunction(&self, ahead: &mut Ahead<'_>) -> Result<Node, ParseFault>
        requires { ReadsExprs self.now.room (F.pre self.now.read) (F.post self.now.read) }
        ensures { Gives (spec.conjunction (expr_to self.now.room) self.now.room ahead.old)
            result ahead.new }
    {
        let first = self.negated_level(ahead)?;
        self.conjunction_from(ahead, first)
    }

    /// Further sides, of which there are no more than tokens.
    #[tactic(auto, using(crate::proofs::Chains::chain_done, crate::proofs::Chains::chain_end, crate::proofs::Chains::chain_stop, crate::proofs::Chains::chain_step))]
    fn disjunction_from(&self, ahead: &mut Ahead<'_>, left: Node) -> Result<Node, ParseFault>
        requires { ReadsExprs self.now.room (F.pre self.now.read) (F.post self.now.read) }
        ensures { Gives (spec.chain_from (spec.conjunction (expr_to self.now.room) self.now.room)
            Chain.Or (length ahead.old.tokens) left ahead.old) result ahead.new }
    {
        let mut left = keep_node(self.alloc, left)?;
        for _ in 0..ahead.tokens_left() {
            let Some(joint) = next_joint(Chain::Or, ahead) else {
                return Ok(left.into_inner());
            };
            ahead.skip();
            let right = self.conjunction(ahead)?;
            left = joined_kept(self.alloc, joint, left, right)?;
        }
        Ok(left.into_inner())
    }

    #[tactic(auto, unfolding(crate::specs::Exprs::disjunction, crate::specs::Exprs::chained_operands))]
    fn disjunction(&self, ahead: &mut Ahead<'_>) -> Result<Node, ParseFault>
        requires { ReadsExprs self.now.room (F.pre self.now.read) (F.post self.now.read) }
        ensures { Gives (spec.disjunction (expr_to self.now.room) self.now.room ahead.old)
            result ahead.new }
    {
        let first = self.conjunction(ahead)?;
        self.disjunction_from(ahead, first)
    }

    #[tactic(auto, unfolding(crate::specs::Exprs::condition))]
    fn condition(&self, ahead: &mut Ahead<'_>) -> Result<Node, ParseFault>
        requires { ReadsExprs self.now.room (F.pre self.now.read) (F.post self.now.read) }
        ensures { Gives (spec.condition (expr_to self.now.room) self.now.room ahead.old)
            result ahead.new }
    {
        opens(self.room, ahead)?;
        let at = ahead.place();
        ahead.skip();
        let test = self.inner_kept(ahead, Level::Whole)?;
        match ahead.need_key(Key::Then) {
            Ok(()) => self.branches(ahead, at, test),
            Err(fault) => Err(fault),
        }
    }

    /// What stands of an `if` behind `then`.
    fn branches(
        &self,
        ahead: &mut Ahead<'_>,
        at: u32,
        test: Boxed<Node>,
    ) -> Result<Node, ParseFault>
        requires { ReadsExprs self.now.room (F.pre self.now.read) (F.post self.now.read) }
        ensures { Gives (and_then (expr_to self.now.room Level.Low ahead.old)
            (λ a. and_then (need_key Key.Else a.1)
            (λ other. and_then (expr_to self.now.room Level.Low other.1)
            (λ b. Ok (over_three (x.If test.tree a.0.tree b.0.tree) at test a.0 b.0, b.1)))))
            result ahead.new }
    {
        match self.inner_kept(ahead, Level::Low) {
            Ok(first) => match ahead.need_key(Key::Else) {
                Ok(()) => match self.inner(ahead, Level::Low) {
                    Ok(second) => if_of(self.alloc, at, test, first, second),
                    Err(fault) => Err(fault),
                },
                Err(fault) => Err(fault),
            },
            Err(fault) => Err(fault),
        }
    }

    #[tactic(auto, unfolding(crate::specs::Exprs::low))]
    fn low(&self, ahead: &mut Ahead<'_>) -> Result<Node, ParseFault>
        requires { ReadsExprs self.now.room (F.pre self.now.read) (F.post self.now.read) }
        ensures { Gives (spec.low (expr_to self.now.room) self.now.room ahead.old)
            result ahead.new }
    {
        if ahead.is_key(Key::If) {
            return self.condition(ahead);
        }
        self.disjunction(ahead)
    }

    /// An expression before another.
    #[tactic(auto, unfolding(crate::specs::Exprs::before_next))]
    fn before_next(&self, ahead: &mut Ahead<'_>, first: Node) -> Result<Node, ParseFault>
        requires { ReadsExprs self.now.room (F.pre self.now.read) (F.post self.now.read) }
        ensures { Gives (spec.before_next (expr_to self.now.room) self.now.room first ahead.old)
            result ahead.new }
    {
        let first = keep_node(self.alloc, first)?;
        match opens_expr(self.room, ahead) {
            Ok(()) => match self.inner(ahead, Level::Whole) {
                Ok(second) => put_before(self.alloc, first.into_inner(), second),
                Err(fault) => Err(fault),
            },
            Err(fault) => Err(fault),
        }
    }

    #[tactic(auto, unfolding(crate::specs::Exprs::whole))]
    fn whole(&self, ahead: &mut Ahead<'_>) -> Result<Node, ParseFault>
        requires { ReadsExprs self.now.room (F.pre self.now.read) (F.post self.now.read) }
        ensures { Gives (spec.whole (expr_to self.now.room) self.now.room ahead.old)
            result ahead.new }
    {
        let first = self.low(ahead)?;
        if ahead.is_symbol(Symbol::Semicolon) {
            ahead.skip();
            return self.before_next(ahead, first);
        }
        Ok(first)
    }

    /// An expression at a level.
    #[tactic(auto, unfolding(crate::specs::Exprs::at_level))]
    pub fn at_level(&self, ahead: &mut Ahead<'_>, level: Level) -> Result<Node, ParseFault>
        requires { ReadsExprs self.now.room (F.pre self.now.read) (F.post self.now.read) }
        ensures { Gives (spec.at_level (expr_to self.now.room) self.now.room level ahead.old)
            result ahead.new }
    {
        match level {
            Level::Whole => self.whole(ahead),
            Level::Low => self.low(ahead),
            Level::Negated => self.negated_level(ahead),
            Level::Listed => self.listed_level(ahead),
            Level::Operand => self.operand(ahead),
        }
    }
}

/// An expression at a level, with room for so many open constructs less one.
pub fn expr_to(
    alloc: Global,
    room: u32,
    level: Level,
    ahead: &mut Ahead<'_>,
) -> Result<Node, ParseFault>
    ensures { Gives (expr_to room level ahead.old) result ahead.new }
{
    if room == 0 {
        return Err(ParseFault::TooDeep(ahead.place()));
    }
    ExprReader {
        alloc,
        room: room - 1,
        read: expr_to,
    }
    .at_level(ahead, level)
}
