//! An expression as it was read.
ghost use Rattle.std.specs.Prelude.{◌≡◌, ◌++◌, ◌∷◌, [], ◌≤◌, max, Result, Ok, Err};
ghost use Rattle.plan_parser_exprs.specs.Ahead.{Answers};
ghost use Rattle.plan_parser_exprs.specs.Nodes as spec;
ghost use Rattle.plan_parser_exprs.specs.Nodes.{leaf, over};

use crate::fault::ParseFault;
use containers::{Boxed, Items};
use plan_base::{Expr, Name, Places, Ty};
use std::alloc::Global;

/// The deepest expression of a function.
pub const MOST_DEPTH: u32 = 64;

/// An expression with its place, the places below it in preorder, and its depth, of which 65 stands for every depth over 64.
#[derive(Drop)]
pub struct Node {
    /// The expression, or `()` where it is too deep.
    pub tree: Expr,
    /// Its place.
    pub at: u32,
    /// The places of the expressions below it, or none where it is too deep.
    pub below: Places,
    /// Its depth, at most 65.
    pub depth: u32,
}

/// What stands below an expression: the places, and the depth of the deepest.
#[derive(Drop)]
pub struct Below {
    pub places: Places,
    pub depth: u32,
}

/// One `val` of a `let`.
#[derive(Drop)]
pub struct Bound {
    pub at: u32,
    pub name: Name,
    pub ty: Ty,
    pub value: Node,
}

/// One clause of a `try`.
#[derive(Drop)]
pub struct Caught {
    pub name: Option<Name>,
    pub body: Node,
}

/// The parts of a fold.
#[derive(Drop)]
pub struct FoldParts {
    pub name: Name,
    pub start: Boxed<Node>,
    pub list: Boxed<Node>,
}

/// What a chunk is sent with.
#[derive(Drop)]
pub struct SendParts {
    pub chunk: Boxed<Node>,
    pub host: Boxed<Node>,
    pub bound: Boxed<Node>,
}

/// An expression without parts.
pub fn leaf(alloc: Global, tree: Expr, at: u32) -> Node
    ensures { result ≡ leaf tree at }
{
    Node {
        tree,
        at,
        below: Items::new(alloc),
        depth: 1,
    }
}

/// An expression over others.
#[tactic(auto, unfolding(crate::specs::Nodes::over))]
pub fn over(alloc: Global, tree: Expr, at: u32, below: Below) -> Node
    ensures { result ≡ over tree at below }
{
    if below.depth >= MOST_DEPTH {
        drop(tree);
        return Node {
            tree: Expr::Unit,
            at,
            below: Items::new(alloc),
            depth: MOST_DEPTH + 1,
        };
    }
    Node {
        tree,
        at,
        below: below.places,
        depth: below.depth + 1,
    }
}

/// An expression on the heap, and what it adds to what stands below another.
pub fn boxed_one(alloc: Global, node: Node) -> Result<(Boxed<Expr>, Below), ParseFault>
    ensures { Answers (Ok (node.tree, spec.below_of node)) result }
{
    let Node {
        tree,
        at,
        below,
        depth,
    } = node;
    match Boxed::new(alloc, tree) {
        Ok(tree) => match all_at(alloc, at, below) {
            Ok(places) => Ok((tree, Below { places, depth })),
            Err(fault) => Err(fault),
        },
        Err(_refused) => Err(ParseFault::NoMemory),
    }
}

/// The place of an expression and those below it.
fn all_at(alloc: Global, at: u32, below: Places) -> Result<Places, ParseFault>
    ensures { Answers (Ok (at ∷ below)) result }
{
    let mut places = Items::new(alloc);
    places.add(at)?;
    places.append(below)?;
    Ok(places)
}

/// Two expressions on the heap, and what they add together.
pub fn boxed_two(
    alloc: Global,
    a: Node,
    b: Node,
) -> Result<(Boxed<Expr>, Boxed<Expr>, Below), ParseFault>
    ensures { Answers (Ok (a.tree, b.tree, spec.both (spec.below_of a) (spec.below_of b))) result }
{
    match boxed_one(alloc, b) {
        Ok((b, behind)) => match boxed_before(alloc, a, behind) {
            Ok((a, below)) => Ok((a, b, below)),
            Err(fault) => Err(fault),
        },
        Err(fault) => {
            drop(a);
            Err(fault)
        }
    }
}

/// An expression on the heap, and what it and those behind it add.
pub fn boxed_before(
    alloc: Global,
    node: Node,
    behind: Below,
) -> Result<(Boxed<Expr>, Below), ParseFault>
    ensures { Answers (Ok (node.tree, spec.both (spec.below_of node) behind)) result }
{
    match boxed_one(alloc, node) {
        Ok((tree, below)) => match both(below, behind) {
            Ok(below) => Ok((tree, below)),
            Err(fault) => Err(fault),
        },
        Err(fault) => Err(fault),
    }
}

/// One expression, as a list.
pub fn one_node(alloc: Global, node: Node) -> Result<Items<Node>, ParseFault>
    ensures { Answers (Ok (node ∷ [])) result }
{
    let mut nodes = Items::new(alloc);
    nodes.add(node)?;
    Ok(nodes)
}

/// What two parts add.
pub fn both(a: Below, b: Below) -> Result<Below, ParseFault>
    ensures { Answers (Ok (spec.both a b)) result }
{
    let Below { mut places, depth } = a;
    places.append(b.places)?;
    Ok(Below {
        places,
        depth: depth.max(b.depth),
    })
}
