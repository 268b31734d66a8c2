//! What services are, with their laws.
ghost use Rattle.std.specs.Prelude.{◌≡◌, ◌≤◌, length, IfOk, OnOk, OnErr, IsSome, IsTrue, None};
ghost use Rattle.service_api.specs.Services.{ServiceState, Answers, AreGoodRows, AreGoodValues, begun_now, made_ready, kept_services, abandoned_services, unexpired_services, IsGoodServe, RefusesOthers};

use crate::answer::Answer;
use crate::ctx::Ctx;
use crate::scheme::Scheme;
use plan_base::{Name, NoMemory, Svc, Values};
use std::alloc::Global;

/// The services of a node.
///
/// A value stands for an offer (the types of the services and what calls answer), the rows of the node's
/// table with the next key, the rows at the open `begin`, and whether `ready` was answered since the last `call`.
///
/// Laws: from good rows, good arguments and at most 8 neighbours each call answers well and leaves good rows (`good`); a
/// declaration of a name that isn't offered, or that is no instance of the type of its name, means `NoService` and
/// leaves the rows (`refuses`).
pub trait Services {
    ghost stands: { Self → ServiceState };

    /// The type of the service of that name, and `None` where there is none.
    fn scheme(&self, alloc: Global, name: &Name) -> Result<Option<Scheme>, NoMemory>
        ensures { IfOk result (λ s. s ≡ (stands self.now).offer.scheme name.now) };

    /// Calls the service. Conditions: a `begin` is open; the arguments have the declared types and keep the
    /// limits; the context has at most 8 neighbours.
    ///
    /// Whatever it answers, the offer and the rows at `begin` stay, and the `begin` is still open. After
    /// `NoMemory` the rows are as before.
    fn call(
        &mut self,
        alloc: Global,
        svc: &Svc,
        args: &Values,
        ctx: &Ctx,
    ) -> Result<Answer, NoMemory>
        requires open { IsSome (stands self.old).begun }
        requires good { AreGoodValues svc.now.params args.now }
        requires near { length ctx.now.neighbours ≤ 8 }
        ensures ok { IfOk result (λ a. Answers (stands self.old) svc.now args.now ctx.entry.now a
            (stands self.new)) }
        ensures offer { (stands self.new).offer ≡ (stands self.old).offer }
        ensures begun { (stands self.new).begun ≡ (stands self.old).begun }
        ensures still { IsSome (stands self.new).begun }
        ensures stays { OnErr result ((stands self.new).rows ≡ (stands self.old).rows) };

    /// Opens a `begin`. Condition: none is open. The rows are those of a table within its limits, each of the
    /// type at which it was kept, whatever it answers.
    fn begin(&mut self, alloc: Global) -> Result<(), NoMemory>
        requires { (stands self.old).begun ≡ None }
        ensures ok { OnOk result (stands self.new ≡ begun_now (stands self.old)) }
        ensures rows { AreGoodRows (stands self.old).rows }
        ensures err { OnErr result (stands self.new ≡ stands self.old) };

    /// Takes the room that `keep` needs. Condition: a `begin` is open.
    fn ready(&mut self, alloc: Global) -> Result<(), NoMemory>
        requires { IsSome (stands self.old).begun }
        ensures ok { OnOk result (stands self.new ≡ made_ready (stands self.old)) }
        ensures err { OnErr result (stands self.new ≡ stands self.old) };

    /// Makes the changes since `begin` stand and closes it. Conditions: one is open, and `ready` was
    /// answered after the last `call`. Takes no memory.
    fn keep(&mut self)
        requires open { IsSome (stands self.old).begun }
        requires ready { IsTrue (stands self.old).ready }
        ensures { stands self.new ≡ kept_services (stands self.old) };

    /// Undoes the changes since `begin` and closes it. Condition: one is open. Takes no memory.
    fn abandon(&mut self)
        requires { IsSome (stands self.old).begun }
        ensures { stands self.new ≡ abandoned_services (stands self.old) };

    /// Takes the rows away that have expired at `now`. Condition: no `begin` is open. Takes no memory.
    fn expire(&mut self, now: u64)
        requires { (stands self.old).begun ≡ None }
        ensures { stands self.new ≡ unexpired_services now (stands self.old) };

    ghost good: { (s : Self) → IsGoodServe (stands s).offer.serve };

    ghost refuses: { (s : Self) → RefusesOthers (stands s).offer };
}
