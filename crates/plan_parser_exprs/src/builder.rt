//! Expressions made of those that were read.
ghost use Rattle.std.specs.Prelude.{◌≡◌, ◌∷◌, ◌++◌, [], Result, Ok, Err, MatchResult};
ghost use Rattle.plan_parser_exprs.specs.Ahead.{Answers};
ghost use Rattle.plan_parser_exprs.specs.Nodes as spec;
ghost use Rattle.plan_base.specs.declared.tree.Expr.TheVariants as x;

use crate::fault::ParseFault;
use crate::joint::{Joint, joined_tree};
use crate::node::{Below, Bound, Caught, Node, SendParts, boxed_before, boxed_two, over};
use containers::{Boxed, Items};
use plan_base::{Clause, Clauses, Expr, Exprs, Name, Op, Places};
use std::alloc::Global;

/// Two operands with what joins them.
pub fn join_nodes(alloc: Global, joint: Joint, a: Node, b: Node) -> Result<Node, ParseFault>
    ensures { Answers (Ok (spec.joined_nodes joint a b)) result }
{
    let at = a.at;
    let (a, b, below) = boxed_two(alloc, a, b)?;
    Ok(over(alloc, joined_tree(joint, a, b), at, below))
}

/// The same on the heap, while more is read.
pub fn joined_kept(
    alloc: Global,
    joint: Joint,
    a: Boxed<Node>,
    b: Node,
) -> Result<Boxed<Node>, ParseFault>
    ensures { Answers (Ok (spec.joined_nodes joint a b)) result }
{
    let node = join_nodes(alloc, joint, a.into_inner(), b)?;
    keep_node(alloc, node)
}

/// `if`, at a place.
pub fn if_of(
    alloc: Global,
    at: u32,
    test: Boxed<Node>,
    first: Boxed<Node>,
    second: Node,
) -> Result<Node, ParseFault>
    ensures { Answers (Ok (spec.over_three (x.If test.tree first.tree second.tree) at test first
        second)) result }
{
    match boxed_two(alloc, first.into_inner(), second) {
        Ok((first, second, below)) => match boxed_before(alloc, test.into_inner(), below) {
            Ok((test, below)) => Ok(over(alloc, Expr::If(test, first, second), at, below)),
            Err(fault) => Err(fault),
        },
        Err(fault) => Err(fault),
    }
}

/// A tuple, at a place.
pub fn tuple_of(alloc: Global, at: u32, parts: Items<Node>) -> Result<Node, ParseFault>
    ensures { Answers (Ok (spec.over_list (x.Tuple (spec.trees parts)) at parts)) result }
{
    let (parts, below) = together(alloc, parts)?;
    Ok(over(alloc, Expr::Tuple(parts), at, below))
}

/// A call, at a place.
pub fn call_of(alloc: Global, at: u32, name: Name, args: Items<Node>) -> Result<Node, ParseFault>
    ensures { Answers (Ok (spec.over_list (x.Call name (spec.trees args)) at args)) result }
{
    match together(alloc, args) {
        Ok((args, below)) => Ok(over(alloc, Expr::Call(name, args), at, below)),
        Err(fault) => Err(fault),
    }
}

/// A chunk of this program, at a place.
pub fn chunk_of(alloc: Global, at: u32, name: Name, args: Items<Node>) -> Result<Node, ParseFault>
    ensures { Answers (Ok (spec.over_list (x.ChunkOf name (spec.trees args)) at args)) result }
{
    match together(alloc, args) {
        Ok((args, below)) => Ok(over(alloc, Expr::ChunkOf(name, args), at, below)),
        Err(fault) => Err(fault),
    }
}

/// `OnRemote`, at a place.
pub fn remote_of(alloc: Global, at: u32, parts: SendParts, route: Name) -> Result<Node, ParseFault>
    ensures { Answers (Ok (spec.over_three (x.OnRemote parts.chunk.tree parts.host.tree
        parts.bound.tree route) at parts.chunk parts.host parts.bound)) result }
{
    let SendParts { chunk, host, bound } = parts;
    match boxed_two(alloc, host.into_inner(), bound.into_inner()) {
        Ok((host, bound, below)) => match boxed_before(alloc, chunk.into_inner(), below) {
            Ok((chunk, below)) => Ok(over(
                alloc,
                Expr::OnRemote(chunk, host, bound, route),
                at,
                below,
            )),
            Err(fault) => Err(fault),
        },
        Err(fault) => Err(fault),
    }
}

/// `OnNeighbor`, at a place.
pub fn neighbor_of(
    alloc: Global,
    at: u32,
    parts: SendParts,
    dev: Boxed<Node>,
) -> Result<Node, ParseFault>
    ensures { Answers (Ok (spec.over_four (x.OnNeighbor parts.chunk.tree parts.host.tree
        parts.bound.tree dev.tree) at parts.chunk parts.host parts.bound dev)) result }
{
    let SendParts { chunk, host, bound } = parts;
    match boxed_two(alloc, bound.into_inner(), dev.into_inner()) {
        Ok((bound, dev, below)) => match boxed_before(alloc, host.into_inner(), below) {
            Ok((host, below)) => match boxed_before(alloc, chunk.into_inner(), below) {
                Ok((chunk, below)) => Ok(over(
                    alloc,
                    Expr::OnNeighbor(chunk, host, bound, dev),
                    at,
                    below,
                )),
                Err(fault) => Err(fault),
            },
            Err(fault) => Err(fault),
        },
        Err(fault) => Err(fault),
    }
}

/// An expression before another, at the place of the first.
pub fn put_before(alloc: Global, a: Node, b: Node) -> Result<Node, ParseFault>
    ensures { Answers (Ok (spec.over_two (x.Then a.tree b.tree) a.at a b)) result }
{
    let at = a.at;
    let (a, b, below) = boxed_two(alloc, a, b)?;
    Ok(over(alloc, Expr::Then(a, b), at, below))
}

/// An expression on the heap, while more is read.
pub fn keep_node(alloc: Global, node: Node) -> Result<Boxed<Node>, ParseFault>
    ensures { Answers (Ok node) result }
{
    Ok(Boxed::new(alloc, node)?)
}

/// Items in brackets, before the empty list that the closing bracket stands for.
#[tactic(auto, using(crate::proofs::Builds::bracketed_last))]
pub fn bracketed_items(alloc: Global, items: Items<Node>, end: Node) -> Result<Node, ParseFault>
    ensures { Answers (Ok (spec.bracketed_nodes items end)) result }
{
    let mut items = items;
    let mut list = end;
    while let Some(item) = items.pop() {
        list = join_nodes(alloc, Joint::Operator(Op::Cons), item, list)?;
    }
    Ok(list)
}

/// One `val` around what follows it.
fn around(alloc: Global, bound: Bound, body: Node) -> Result<Node, ParseFault>
    ensures { Answers (Ok (spec.bound bound body)) result }
{
    let Bound {
        at,
        name,
        ty,
        value,
    } = bound;
    match boxed_two(alloc, value, body) {
        Ok((value, body, below)) => Ok(over(alloc, Expr::Let(name, ty, value, body), at, below)),
        Err(fault) => {
            drop(ty);
            Err(fault)
        }
    }
}

/// Several `val` around their body.
#[tactic(auto, using(crate::proofs::Builds::let_of_last))]
pub fn let_of(alloc: Global, bounds: Items<Bound>, body: Node) -> Result<Node, ParseFault>
    ensures { Answers (Ok (spec.let_of bounds body)) result }
{
    let mut bounds = bounds;
    let mut whole = body;
    while let Some(bound) = bounds.pop() {
        whole = around(alloc, bound, whole)?;
    }
    Ok(whole)
}

/// Adds an expression, its place and the places below it; its depth.
fn add_tree(trees: &mut Exprs, places: &mut Places, node: Node) -> Result<u32, ParseFault>
    ensures { MatchResult result (λ depth. (trees.new ≡ trees.old ++ node.tree ∷ []) × (places.new ≡
        (places.old ++ node.at ∷ []) ++ node.below) × (depth ≡ node.depth))
        (λ e. e ≡ ParseFault.NoMemory) }
{
    let Node {
        tree,
        at,
        below,
        depth,
    } = node;
    trees.add(tree)?;
    match places.add(at) {
        Ok(()) => {
            places.append(below)?;
            Ok(depth)
        }
        Err(_refused) => Err(ParseFault::NoMemory),
    }
}

/// Several expressions together, and what they add.
#[tactic(auto, using(crate::proofs::Builds::trees_last, crate::proofs::Builds::places_last, crate::proofs::Builds::depth_last))]
pub fn together(alloc: Global, nodes: Items<Node>) -> Result<(Exprs, Below), ParseFault>
    ensures { Answers (Ok (spec.trees nodes, spec.below_all nodes)) result }
{
    let mut trees = Items::new(alloc);
    let mut places = Items::new(alloc);
    let mut depth = 0u32;
    for node in nodes.into_vec() {
        let deep = add_tree(&mut trees, &mut places, node)?;
        depth = depth.max(deep);
    }
    Ok((trees, Below { places, depth }))
}

/// Adds a clause, the place of its body and the places below it; the depth of its body.
fn add_clause(clauses: &mut Clauses, places: &mut Places, caught: Caught) -> Result<u32, ParseFault>
    ensures { MatchResult result (λ depth. (clauses.new ≡ clauses.old ++ record {
      name = caught.name;
      body = caught.body.tree;
    } ∷ []) × (places.new ≡ (places.old ++ caught.body.at ∷ []) ++
        caught.body.below) × (depth ≡ caught.body.depth)) (λ e. e ≡ ParseFault.NoMemory) }
{
    let Caught { name, body } = caught;
    let Node {
        tree,
        at,
        below,
        depth,
    } = body;
    clauses.add(Clause { name, body: tree })?;
    match places.add(at) {
        Ok(()) => {
            places.append(below)?;
            Ok(depth)
        }
        Err(_refused) => Err(ParseFault::NoMemory),
    }
}

/// The clauses of a `try`, and what they add.
#[tactic(auto, using(crate::proofs::Builds::clauses_last, crate::proofs::Builds::body_places_last, crate::proofs::Builds::body_depth_last))]
fn clauses(alloc: Global, caught: Items<Caught>) -> Result<(Clauses, Below), ParseFault>
    ensures { Answers (Ok (spec.clauses_of caught, spec.below_all (spec.bodies caught))) result }
{
    let mut clauses = Items::new(alloc);
    let mut places = Items::new(alloc);
    let mut depth = 0u32;
    for clause in caught.into_vec() {
        let deep = add_clause(&mut clauses, &mut places, clause)?;
        depth = depth.max(deep);
    }
    Ok((clauses, Below { places, depth }))
}

/// A `try` at a place.
pub fn try_of(alloc: Global, at: u32, body: Node, caught: Items<Caught>) -> Result<Node, ParseFault>
    ensures { Answers (Ok (spec.try_of at body caught)) result }
{
    match clauses(alloc, caught) {
        Ok((clauses, behind)) => match boxed_before(alloc, body, behind) {
            Ok((body, below)) => Ok(over(alloc, Expr::Try(body, clauses), at, below)),
            Err(fault) => Err(fault),
        },
        Err(fault) => {
            drop(body);
            Err(fault)
        }
    }
}
