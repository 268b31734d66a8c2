//! Looks up bindings.
ghost use Rattle.std.specs.Prelude.{◌≡◌, IfOk, option_copied};
ghost use Rattle.plan_meaning.specs.Meaning as spec;

use containers::Items;
use plan_base::{Name, NoMemory, Param, Value};
use plan_base_copy::TryClone;
use plan_meaning::{Binding, Env};
use std::alloc::Global;

/// The parameters with the arguments, or `None` where their numbers differ.
#[tactic(auto, unfolding(plan_meaning::specs::Meaning::bound))]
pub fn bound(alloc: Global, params: &[Param], args: &[Value]) -> Result<Option<Env>, NoMemory>
    ensures { IfOk result (λ env. env ≡ spec.bound params.now args.now) }
{
    let mut done = Items::new(alloc);
    let mut names = params;
    let mut values = args;
    while let [p, ps @ ..] = names {
        let [v, vs @ ..] = values else {
            return Ok(None);
        };
        let name = p.name.copy(alloc)?;
        let value = v.copy(alloc)?;
        done.add(Binding { name, value })?;
        names = ps;
        values = vs;
    }
    if values.is_empty() {
        Ok(Some(done))
    } else {
        Ok(None)
    }
}

/// The value of the innermost binding of `x`, which is the last.
#[tactic(auto, using(crate::proofs::Options::or_some, crate::proofs::Options::or_none, crate::proofs::Options::or_nothing))]
pub fn value_of<'a>(x: &Name, env: &'a [Binding]) -> Option<&'a Value>
    ensures { option_copied result ≡ spec.value_of x.now env.now }
{
    let mut found = None;
    let mut rest = env;
    while let [b, more @ ..] = rest {
        if b.name.is(x) {
            found = Some(&b.value);
        }
        rest = more;
    }
    found
}
