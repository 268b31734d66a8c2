//! The checking of a whole program: its declarations, its bodies, and its size.

ghost use Rattle.std.specs.Prelude.{◌≡◌, ◌++◌, ◌∷◌, [], Some, map, IfOk, OnOk};
ghost use Rattle.plan_types_spec.specs.Typing.{param_names};
ghost use Rattle.plan_types_spec.specs.TypingNames as names;
ghost use Rattle.plan_types_spec.specs.TypingOrder as spec;
ghost use Rattle.plan_types.specs.Checks.{Gives};

use crate::body::check_expr;
use crate::names::{has_name, is_built_in};
use crate::state::{Scope, TypingState};
use containers::Items;
use plan_base::{Expr, Fun, Funs, Name, Names, NoMemory, Param, Params, Place, Program, Svc, Ty};
use plan_base_copy::{TryClone, copy_names, copy_params, copy_svcs};
use plan_base_size::code_size;
use plan_types_spec::{TypeFault, prim_of};
use std::alloc::Global;

/// The depth of expressions that a well-formed program keeps.
const MOST_DEPTH: usize = 64;

/// The greatest size of marshalled code, in bytes.
const MOST_CODE: u64 = 16000;

/// Adds a copy of a name.
fn add_name(alloc: Global, names: &mut Names, name: &Name) -> Result<(), NoMemory>
    ensures { OnOk result (names.new ≡ names.old ++ name.now ∷ []) }
{
    let name = name.copy(alloc)?;
    Ok(names.add(name)?)
}

/// Whether a primitive has that name.
fn is_prim(name: &Name) -> bool
    ensures { result ≡ names.is_prim name.now }
{
    prim_of(name).is_some()
}

/// Services, each with a new name that no primitive has; the number of the declaration after them.
#[tactic(auto, unfolding(plan_types_spec::specs::TypingOrder::services_from))]
fn services(alloc: Global, mut all: &[Svc], at: u32) -> Result<u32, TypeFault>
    ensures { Gives (spec.services_from [] all.entry.now at) result }
{
    let mut taken = Items::new(alloc);
    let mut number = at;
    while let [d, rest @ ..] = all {
        if is_prim(&d.name) || has_name(taken.as_slice(), &d.name) {
            return Err(TypeFault::TwiceNamed(Place::Decl(number)));
        }
        add_name(alloc, &mut taken, &d.name)?;
        number = number.saturating_add(1);
        all = rest;
    }
    Ok(number)
}

/// Whether an exception has a built-in name or one that was taken.
fn is_taken(taken: &[Name], name: &Name) -> bool
    ensures { result ≡ names.has_name (names.built_in ++ taken.now) name.now }
{
    if is_built_in(name) {
        return true;
    }
    has_name(taken, name)
}

/// Exceptions, each with a new name that no built-in one has.
#[tactic(auto, unfolding(plan_types_spec::specs::TypingOrder::exceptions_from))]
fn exceptions(alloc: Global, mut all: &[Name], at: u32) -> Result<u32, TypeFault>
    ensures { Gives (spec.exceptions_from names.built_in all.entry.now at) result }
{
    let mut taken = Items::new(alloc);
    let mut number = at;
    while let [name, rest @ ..] = all {
        if is_taken(taken.as_slice(), name) {
            return Err(TypeFault::TwiceNamed(Place::Decl(number)));
        }
        add_name(alloc, &mut taken, name)?;
        number = number.saturating_add(1);
        all = rest;
    }
    Ok(number)
}

/// Whether the parameters have different names.
fn differ(alloc: Global, mut all: &[Param]) -> Result<bool, NoMemory>
    ensures { IfOk result (λ b. b ≡ names.are_new [] (param_names all.entry.now)) }
{
    let mut taken = Items::new(alloc);
    while let [param, rest @ ..] = all {
        if has_name(taken.as_slice(), &param.name) {
            return Ok(false);
        }
        add_name(alloc, &mut taken, &param.name)?;
        all = rest;
    }
    Ok(true)
}

/// The names of services.
fn svc_names(alloc: Global, svcs: &[Svc]) -> Result<Names, NoMemory>
    ensures { IfOk result (λ all. all ≡ map (λ d. d.name) svcs.now) }
{
    let mut all = Items::new(alloc);
    for svc in svcs {
        add_name(alloc, &mut all, &svc.name)?;
    }
    Ok(all)
}

/// Functions, each with a new name that no primitive and no service has, and with parameters of
/// different names.
#[tactic(auto, unfolding(plan_types_spec::specs::TypingOrder::functions_from))]
fn functions(alloc: Global, before: Names, mut all: &[Fun], at: u32) -> Result<u32, TypeFault>
    ensures { Gives (spec.functions_from before all.entry.now at) result }
{
    let mut taken = before;
    let mut number = at;
    while let [d, rest @ ..] = all {
        if is_prim(&d.name)
            || has_name(taken.as_slice(), &d.name)
            || !differ(alloc, d.params.as_slice())?
        {
            return Err(TypeFault::TwiceNamed(Place::Decl(number)));
        }
        add_name(alloc, &mut taken, &d.name)?;
        number = number.saturating_add(1);
        all = rest;
    }
    Ok(number)
}

/// All declarations, in the order of the tree; their number.
#[tactic(auto, unfolding(plan_types_spec::specs::TypingOrder::declarations))]
fn declarations(alloc: Global, code: &Program) -> Result<u32, TypeFault>
    ensures { Gives (spec.declarations code.now) result }
{
    let svcs = services(alloc, code.svcs.as_slice(), 0)?;
    let exns = exceptions(alloc, code.exns.as_slice(), svcs)?;
    let taken = svc_names(alloc, code.svcs.as_slice())?;
    functions(alloc, taken, code.funs.as_slice(), exns)
}

/// The body of a function below the first `seen`, and the number of the next expression.
fn body(
    alloc: Global,
    code: &Program,
    seen: usize,
    node: u32,
    d: &Fun,
) -> Result<((Expr, Ty), u32), TypeFault>
    ensures { Gives (spec.checked_expression code.now 64 seen d.now.params (Some d.now.result)
        d.now.body node) result }
{
    let scope = Scope { code, seen };
    let mut state = TypingState {
        ctx: copy_params(alloc, d.params.as_slice())?,
        node,
    };
    let want = Some(&d.result);
    let found = check_expr(alloc, MOST_DEPTH, &scope, &mut state, want, &d.body);
    let next = state.node;
    drop(state);
    match found {
        Ok(found) => Ok((found, next)),
        Err(fault) => Err(fault),
    }
}

/// What a function has beside its body.
fn head_of(alloc: Global, d: &Fun) -> Result<(Name, Params, Ty), NoMemory>
    ensures { IfOk result (λ h. h ≡ (d.now.name, d.now.params, d.now.result)) }
{
    let name = d.name.copy(alloc)?;
    match copy_params(alloc, d.params.as_slice()) {
        Ok(params) => match d.result.copy(alloc) {
            Ok(gives) => Ok((name, params, gives)),
            Err(NoMemory) => {
                drop(name);
                drop(params);
                Err(NoMemory)
            }
        },
        Err(NoMemory) => {
            drop(name);
            Err(NoMemory)
        }
    }
}

/// The same function with another body.
fn with_body(alloc: Global, d: &Fun, body: Expr) -> Result<Fun, NoMemory>
    ensures { IfOk result (λ f. f ≡ record d.now { body = body }) }
{
    match head_of(alloc, d) {
        Ok((name, params, gives)) => Ok(Fun {
            name,
            params,
            result: gives,
            body,
        }),
        Err(NoMemory) => {
            drop(body);
            Err(NoMemory)
        }
    }
}

/// Adds the same function with another body.
fn add_fun(alloc: Global, funs: &mut Funs, d: &Fun, body: Expr) -> Result<(), NoMemory>
    ensures { OnOk result (funs.new ≡ funs.old ++ record d.now { body = body } ∷ []) }
{
    let fun = with_body(alloc, d, body)?;
    Ok(funs.add(fun)?)
}

/// The functions with the types of their bodies filled in, and the number of expressions.
#[tactic(auto, unfolding(plan_types_spec::specs::TypingOrder::bodies_from))]
fn bodies(alloc: Global, code: &Program, mut all: &[Fun]) -> Result<(Funs, u32), TypeFault>
    ensures { Gives (spec.bodies_from code.now [] all.entry.now 0) result }
{
    let mut done = Items::new(alloc);
    let mut node = 0u32;
    while let [d, rest @ ..] = all {
        let ((whole, ty), next) = body(alloc, code, done.len(), node, d)?;
        drop(ty);
        add_fun(alloc, &mut done, d, whole)?;
        node = next;
        all = rest;
    }
    Ok((done, node))
}

/// The same program with other functions.
fn with_funs(alloc: Global, code: &Program, funs: Funs) -> Result<Program, NoMemory>
    ensures { IfOk result (λ p. p ≡ record code.now { funs = funs }) }
{
    match copy_svcs(alloc, code.svcs.as_slice()) {
        Ok(svcs) => match copy_names(alloc, code.exns.as_slice()) {
            Ok(exns) => Ok(Program { svcs, exns, funs }),
            Err(NoMemory) => {
                drop(svcs);
                drop(funs);
                Err(NoMemory)
            }
        },
        Err(NoMemory) => {
            drop(funs);
            Err(NoMemory)
        }
    }
}

/// The program, unless its code is too large.
#[tactic(auto, unfolding(plan_types_spec::specs::TypingOrder::sized_program))]
fn check_size(code: Program) -> Result<Program, TypeFault>
    ensures { result ≡ spec.sized_program code }
{
    if code_size(&code) <= MOST_CODE {
        Ok(code)
    } else {
        Err(TypeFault::CodeTooLarge)
    }
}

/// The program with its types filled in, or the first refusal in the order of checking.
#[tactic(auto, unfolding(plan_types_spec::specs::TypingOrder::annotated_program))]
pub fn annotate_program(alloc: Global, code: &Program) -> Result<Program, TypeFault>
    ensures { Gives (spec.annotated_program code.now) result }
{
    let _count = declarations(alloc, code)?;
    let (funs, _nodes) = bodies(alloc, code, code.funs.as_slice())?;
    check_size(with_funs(alloc, code, funs)?)
}
