//! A law of visits over those of the meaning: what a greater allowance of work gives.

ghost use Rattle.std.specs.Prelude.{◌≢◌, ◌≤◌, ℕ};
ghost use Rattle.plan_base.specs.declared.ids.Family.{Family};
ghost use Rattle.plan_base.specs.declared.tree.Chunk.{Chunk};
ghost use Rattle.service_api.specs.declared.ctx.Ctx.{Ctx};
ghost use Rattle.service_api.specs.Services.{ServiceState};
ghost use Rattle.plan_meaning.specs.declared.outcome.Outcome.TheVariants as outcome;
ghost use Rattle.plan_meaning.specs.declared.outcome.Visit.{Visit};
ghost use Rattle.plan_meaning.specs.Visit.{IsVisit};

/// Where an allowance of work suffices for a visit, every greater one gives the same: outcome, effects, work and services.
pub fn greater_allowances()
    ensures { (k : Chunk) (ctx : Ctx) (family : Family) (n : ServiceState) (v w : ℕ) (r : Visit)
        (new : ServiceState)
        → v ≤ w → IsVisit v k ctx family n r new → r.outcome ≢ outcome.WorkSpent
        → IsVisit w k ctx family n r new }
{}
