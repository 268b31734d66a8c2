//! Reading declarations.
ghost use Rattle.std.specs.Prelude.{◌≡◌, ◌≤◌, ◌<◌, ◌-◌, ◌∷◌, ◌++◌, [], length, Result, Ok, Err, IfErr, OnOk};
ghost use Rattle.plan_parser_exprs.specs.Ahead.{Gives, Answers};
ghost use Rattle.plan_parser_exprs.specs.Nodes.{all_at};
ghost use Rattle.plan_parser.specs.Programs as spec;

use crate::program::Gathered;
use crate::signature::{Head, MOST_OPEN, head_at, service_at};
use containers::Items;
use plan_base::{Draft, Expr, Fun, Limit, Name, Places, Svc};
use plan_lexer::{Key, Token};
use plan_parser_exprs::{Ahead, Level, MOST_DEPTH, Node, ParseFault, Wanted, expr_to, name_at};
use std::alloc::Global;

/// The services, exceptions or functions that a program may have.
const MOST_DECLARATIONS: usize = 64;
/// The expressions that a program may have.
const MOST_NODES: usize = 4096;

/// Refuses the declaration past the limit.
#[tactic(auto, unfolding(crate::specs::Programs::one_more))]
fn one_more(count: usize, limit: Limit, ahead: &Ahead<'_>) -> Result<(), ParseFault>
    ensures { Gives (spec.one_more count limit ahead.now) result ahead.now }
{
    if count >= MOST_DECLARATIONS {
        return Err(ParseFault::TooMany(limit, ahead.place()));
    }
    Ok(())
}

#[tactic(auto, unfolding(crate::specs::Programs::with_service))]
fn with_service(
    alloc: Global,
    ahead: &mut Ahead<'_>,
    gathered: Gathered,
) -> Result<Gathered, ParseFault>
    ensures { Gives (spec.with_service gathered ahead.old) result ahead.new }
{
    let mut gathered = gathered;
    one_more(gathered.svcs.len(), Limit::Services, ahead)?;
    let at = ahead.place();
    ahead.skip();
    match service_at(alloc, ahead) {
        Ok(svc) => match add_service(&mut gathered, at, svc) {
            Ok(()) => Ok(gathered),
            Err(fault) => Err(fault),
        },
        Err(fault) => Err(fault),
    }
}

/// Adds a service that was read, whose word stands at `at`.
fn add_service(gathered: &mut Gathered, at: u32, svc: Svc) -> Result<(), ParseFault>
    ensures whole { OnOk result (gathered.new ≡ record gathered.old {
      svcs = gathered.old.svcs ++ svc ∷ [];
      svc_at = gathered.old.svc_at ++ at ∷ [];
    }) }
    ensures fault { IfErr result (λ e. e ≡ ParseFault.NoMemory) }
{
    gathered.svcs.add(svc)?;
    gathered.svc_at.add(at)?;
    Ok(())
}

#[tactic(auto, unfolding(crate::specs::Programs::with_exception))]
fn with_exception(
    alloc: Global,
    ahead: &mut Ahead<'_>,
    gathered: Gathered,
) -> Result<Gathered, ParseFault>
    ensures { Gives (spec.with_exception gathered ahead.old) result ahead.new }
{
    let mut gathered = gathered;
    one_more(gathered.exns.len(), Limit::Exceptions, ahead)?;
    let at = ahead.place();
    ahead.skip();
    match name_at(alloc, ahead) {
        Ok(name) => match add_exception(&mut gathered, at, name) {
            Ok(()) => Ok(gathered),
            Err(fault) => Err(fault),
        },
        Err(fault) => Err(fault),
    }
}

/// Adds an exception that was read, whose word stands at `at`.
fn add_exception(gathered: &mut Gathered, at: u32, name: Name) -> Result<(), ParseFault>
    ensures whole { OnOk result (gathered.new ≡ record gathered.old {
      exns = gathered.old.exns ++ name ∷ [];
      exn_at = gathered.old.exn_at ++ at ∷ [];
    }) }
    ensures fault { IfErr result (λ e. e ≡ ParseFault.NoMemory) }
{
    gathered.exns.add(name)?;
    gathered.exn_at.add(at)?;
    Ok(())
}

/// Judges a function that was read: its depth, and then the number of all expressions.
#[tactic(auto, unfolding(crate::specs::Programs::judged_function))]
fn judge_function(at: u32, depth: u32, nodes: usize, ahead: &Ahead<'_>) -> Result<(), ParseFault>
    ensures { Gives (spec.judged_function at depth nodes ahead.now) result ahead.now }
{
    if depth > MOST_DEPTH {
        return Err(ParseFault::TooDeep(at));
    }
    if nodes > MOST_NODES {
        return Err(ParseFault::TooMany(Limit::Nodes, at));
    }
    Ok(())
}

/// Adds the places of an expression behind others.
fn add_places(places: &mut Places, at: u32, below: Places) -> Result<(), ParseFault>
    ensures whole { OnOk result (places.new ≡ places.old ++ at ∷ below) }
    ensures fault { IfErr result (λ e. e ≡ ParseFault.NoMemory) }
{
    places.add(at)?;
    places.append(below)?;
    Ok(())
}

/// The function of a head and a body.
fn function_of(head: Head, tree: Expr) -> Fun
    ensures { result ≡ record {
      name = head.name;
      params = head.params;
      result = head.result;
      body = tree;
    } }
{
    let Head {
        name,
        params,
        result,
    } = head;
    Fun {
        name,
        params,
        result,
        body: tree,
    }
}

/// Adds a function that was read, whose word stands at `start`.
fn add_function(gathered: &mut Gathered, start: u32, fun: Fun) -> Result<(), ParseFault>
    ensures whole { OnOk result (gathered.new ≡ record gathered.old {
      funs = gathered.old.funs ++ fun ∷ [];
      fun_at = gathered.old.fun_at ++ start ∷ [];
    }) }
    ensures fault { IfErr result (λ e. e ≡ ParseFault.NoMemory) }
{
    gathered.funs.add(fun)?;
    gathered.fun_at.add(start)?;
    Ok(())
}

/// Adds a function that was read, whose word stands at `start`, where it isn't too large.
#[tactic(auto, unfolding(crate::specs::Programs::with_body))]
fn with_body(
    gathered: Gathered,
    start: u32,
    head: Head,
    body: Node,
    ahead: &Ahead<'_>,
) -> Result<Gathered, ParseFault>
    ensures { Gives (spec.with_body start gathered head body ahead.now) result ahead.now }
{
    let Node {
        tree,
        at,
        below,
        depth,
    } = body;
    let mut gathered = gathered;
    add_function(&mut gathered, start, function_of(head, tree))?;
    add_places(&mut gathered.node_at, at, below)?;
    judge_function(start, depth, gathered.node_at.len(), ahead)?;
    Ok(gathered)
}

#[tactic(auto, unfolding(crate::specs::Programs::with_function))]
fn with_function(
    alloc: Global,
    ahead: &mut Ahead<'_>,
    gathered: Gathered,
) -> Result<Gathered, ParseFault>
    ensures { Gives (spec.with_function gathered ahead.old) result ahead.new }
{
    one_more(gathered.funs.len(), Limit::Functions, ahead)?;
    let start = ahead.place();
    ahead.skip();
    let head = head_at(alloc, ahead)?;
    match expr_to(alloc, MOST_OPEN + 1, Level::Whole, ahead) {
        Ok(body) => with_body(gathered, start, head, body, ahead),
        Err(fault) => {
            drop(head);
            Err(fault)
        }
    }
}

/// One more declaration.
#[tactic(auto, unfolding(crate::specs::Programs::with_declaration))]
fn with_declaration(
    alloc: Global,
    ahead: &mut Ahead<'_>,
    gathered: Gathered,
) -> Result<Gathered, ParseFault>
    ensures { Gives (spec.with_declaration gathered ahead.old) result ahead.new }
{
    if ahead.is_key(Key::Svc) {
        return with_service(alloc, ahead, gathered);
    }
    if ahead.is_key(Key::Exception) {
        return with_exception(alloc, ahead, gathered);
    }
    if ahead.is_key(Key::Fun) {
        return with_function(alloc, ahead, gathered);
    }
    Err(ParseFault::Expected(Wanted::ADecl, ahead.place()))
}

fn nothing(alloc: Global) -> Gathered
    ensures { result ≡ spec.nothing }
{
    Gathered {
        svcs: Items::new(alloc),
        exns: Items::new(alloc),
        funs: Items::new(alloc),
        svc_at: Items::new(alloc),
        exn_at: Items::new(alloc),
        fun_at: Items::new(alloc),
        node_at: Items::new(alloc),
    }
}

/// The declarations up to the end, of which there are no more than tokens.
#[tactic(auto, using(crate::proofs::DeclarationSteps::declarations_done, crate::proofs::DeclarationSteps::declarations_end, crate::proofs::DeclarationSteps::declarations_stop, crate::proofs::DeclarationSteps::declarations_step))]
pub fn declarations(alloc: Global, tokens: &[Token], end: u32) -> Result<Gathered, ParseFault>
    ensures { Answers (spec.declarations (length tokens.now) spec.nothing
        (record { tokens = tokens.now; end = end })) result }
{
    let mut ahead = Ahead::over(tokens, end);
    let mut gathered = nothing(alloc);
    for _ in 0..tokens.len() {
        if ahead.tokens_left() == 0 {
            return Ok(gathered);
        }
        gathered = with_declaration(alloc, &mut ahead, gathered)?;
    }
    Ok(gathered)
}

/// The whole draft; at the end there must be a function.
#[tactic(auto, unfolding(crate::specs::Programs::finished_draft))]
pub fn finish_draft(end: u32, gathered: Gathered) -> Result<Draft, ParseFault>
    ensures { Answers (spec.finished_draft end gathered) result }
{
    if gathered.funs.is_empty() {
        return Err(ParseFault::Expected(Wanted::Key(Key::Fun), end));
    }
    gathered.into_draft()
}
