//! The state of a visit beside its services: bound, work, sends and notes.
ghost use Rattle.std.specs.Prelude.{◌≡◌, ◌+◌, ◌≤◌, length, min, [], IfOk, OnOk, IsTrue, IsFalse};
ghost use Rattle.plan_meaning.specs.declared.stop.EvalStop.TheVariants.{WorkSpent};
ghost use Rattle.plan_meaning.specs.Run.{gave, stopped};
ghost use Rattle.plan_base.specs.Sizes.{weight, nesting};
ghost use Rattle.plan_base.specs.declared.name.Name.{Name as SentName};
ghost use Rattle.plan_base.specs.declared.tree.Value.{Value};
ghost use Rattle.service_api.specs.Services.{ServiceState, IsGoodChunk};
ghost use Rattle.plan_meaning.specs.Safe.{IsSafe};
ghost use Rattle.plan_meaning.specs.State.{Own, joined_state};
ghost use Rattle.plan_meaning.specs.Run as run;
ghost use Rattle.plan_meaning.specs.Visit.{allowance, ended_visit};
ghost use Rattle.plan_meaning.specs.Meaning as spec;
ghost use Rattle.visit_state.specs.Meets.{Meets, StopsBy, Weighs};

use crate::raised::{no_bound, no_route, no_service, not_neighbour, too_large};
use crate::weighing::{Weighing, plain_weight};
use checked_chunks::{CheckedChunk, CheckedPacket};
use containers::Items;
use plan_base::{Chunk, Dev, Family, Host, Name, NoMemory, Value};
use plan_base_size::{nesting, weight};
use plan_meaning::{EvalStop, Outbox, Outcome, Visit};
use remote_calls::{
    NoBound, Purse, SendFault, SendWay, default_route, neighbour_way, remote_way, send,
};
use service_api::{Ctx, Note, Notes};
use std::alloc::Global;
use std::marker::Model;

/// The work that a visit may spend.
pub const ALLOWANCE: u64 = 4_000_000;

/// The state of an evaluation without the services.
#[derive(Drop)]
pub struct EvalState {
    ctx: Ctx,
    family: Family,
    work: u64,
    evals: u32,
    outbox: Outbox,
    notes: Notes,
}

impl Model for EvalState {
    ghost use Rattle.std.specs.Prelude.{◌+◌, ◌≤◌, length};
    ghost use Rattle.plan_meaning.specs.State.{Own};
    ghost use Rattle.visit_state.specs.Stored.{own_code};

    ghost Value = { Own };

    ghost coded = { own_code };

    ghost view = { λ s. record {
      ctx = s.ctx;
      family = s.family;
      work = s.work;
      evals = s.evals;
      outbox = s.outbox;
      notes = s.notes;
    } };

    ghost invariant = { λ s. (s.ctx.purse + s.evals ≤ 65535) × (length s.ctx.neighbours ≤ 8) };
}

/// Whether a value of that weight and nesting passes the limits: weight 16,384 and nesting 4.
#[tactic(auto, unfolding(plan_meaning::specs::Run::is_too_large))]
fn is_too_large(size: u64, deep: u32) -> bool
    ensures { (v : Value) → size ≡ min (weight v) 18446744073709551615 → deep ≡ min (nesting v)
        4294967295 → result ≡ run.is_too_large v }
{
    size > 16384 || deep > 4
}

/// How an evaluation stops where a send is refused.
fn unsent(alloc: Global, fault: SendFault) -> EvalStop
    ensures { StopsBy fault result }
{
    match fault {
        SendFault::NoBound => no_bound(alloc),
        SendFault::NoService => no_service(alloc),
        SendFault::NoRoute => no_route(alloc),
        SendFault::NotNeighbor => not_neighbour(alloc),
        SendFault::NoMemory => EvalStop::NoMemory,
    }
}

impl EvalState {
    /// The state in which a visit begins, with so much work to spend.
    pub fn new(alloc: Global, ctx: Ctx, family: Family, work: u64) -> EvalState
        requires purse { ctx.purse ≤ 65535 }
        requires near { length ctx.neighbours ≤ 8 }
        ensures { result ≡ record {
          ctx = ctx;
          family = family;
          work = work;
          evals = 0;
          outbox = [];
          notes = [];
        } }
    {
        EvalState {
            ctx,
            family,
            work,
            evals: 0,
            outbox: Items::new(alloc),
            notes: Items::new(alloc),
        }
    }

    /// The visit that ended in this state.
    pub fn into_visit(self, outcome: Outcome) -> Visit
        ensures { (s : ServiceState) → result ≡ ended_visit allowance outcome
            (joined_state self s) }
    {
        let EvalState {
            ctx,
            family: _family,
            work,
            evals,
            outbox,
            notes,
        } = self;
        Visit {
            outcome,
            evals,
            left: ctx.purse,
            outbox,
            notes,
            work: ALLOWANCE.saturating_sub(work),
        }
    }

    /// The surroundings, with the purse as it is.
    pub fn ctx(&self) -> &Ctx
        ensures same { result.now ≡ self.now.ctx }
        ensures near { length self.now.ctx.neighbours ≤ 8 }
    {
        &self.ctx
    }

    /// Spends work where there is as much, or says no.
    #[tactic(auto, unfolding(plan_meaning::specs::Run::spend))]
    pub fn pays(&mut self, n: u64) -> bool
        ensures paid { IsTrue result → (s : ServiceState) →
            (run.spend n (joined_state self.old s)).after ≡ gave tt (joined_state self.new s) }
        ensures unpaid { IsFalse result → (s : ServiceState) →
            (run.spend n (joined_state self.old s)).after ≡ stopped WorkSpent
            (joined_state self.new s) }
        ensures spends { IsTrue result → self.new.work + n ≡ self.old.work }
        ensures falls { self.new.work ≤ self.old.work }
    {
        if self.work < n {
            return false;
        }
        self.work -= n;
        true
    }

    /// Spends the weight of a value with that nesting, unless it passes the limits.
    #[tactic(auto, unfolding(plan_meaning::specs::Run::weighed_value, plan_meaning::specs::Run::is_too_large))]
    pub fn weighs_as(&mut self, size: u64, deep: u32) -> Weighing
        ensures weighs { (v : Value) (s : ServiceState) → size ≡ min (weight v) 18446744073709551615
            → deep ≡ min (nesting v) 4294967295
            → Weighs (run.weighed_value v (joined_state self.old s)) v
            result (joined_state self.new s) }
        ensures falls { self.new.work ≤ self.old.work }
    {
        if is_too_large(size, deep) {
            return Weighing::TooLarge;
        }
        if self.pays(size) {
            Weighing::Paid
        } else {
            Weighing::Spent
        }
    }

    /// Spends the weight of a value, unless it passes the limits.
    pub fn weighs(&mut self, v: &Value) -> Weighing
        ensures weighs { (s : ServiceState) → Weighs (run.weighed_value v.now
            (joined_state self.old s)) v.now result (joined_state self.new s) }
        ensures falls { self.new.work ≤ self.old.work }
    {
        match plain_weight(v) {
            Some(size) => self.weighs_as(size, 0),
            None => self.weighs_as(weight(v), nesting(v)),
        }
    }

    /// Refuses a value over the limits, and spends the weight of another.
    pub fn weigh_value(&mut self, alloc: Global, v: Value) -> Result<Value, EvalStop>
        ensures meets { (s : ServiceState) → Meets (run.weighed_value v (joined_state self.old s))
            result (joined_state self.new s) }
        ensures falls { self.new.work ≤ self.old.work }
    {
        match self.weighs(&v) {
            Weighing::Paid => Ok(v),
            Weighing::Spent => {
                drop(v);
                Err(EvalStop::WorkSpent)
            }
            Weighing::TooLarge => {
                drop(v);
                Err(too_large(alloc))
            }
        }
    }

    /// Pays for an eval.
    #[tactic(auto, unfolding(plan_meaning::specs::Meaning::pay_eval), using(crate::proofs::Paying::eval_is_paid, crate::proofs::Paying::eval_is_unpaid))]
    pub fn pay_eval(&mut self, alloc: Global) -> Result<(), EvalStop>
        ensures meets { (s : ServiceState) → Meets (spec.pay_eval (joined_state self.old s)) result
            (joined_state self.new s) }
        ensures falls { self.new.work ≤ self.old.work }
    {
        let mut purse = Purse::of(self.ctx.purse);
        match purse.pay(1) {
            Ok(()) => {
                self.ctx.purse = purse.left();
                self.evals += 1;
                Ok(())
            }
            Err(NoBound) => Err(no_bound(alloc)),
        }
    }

    /// Sends a typed chunk on a way that is there.
    #[tactic(auto, using(crate::proofs::Sending::good_is_checked))]
    fn send_on_way(
        &mut self,
        way: SendWay,
        chunk: Chunk,
        host: Host,
        route: Name,
    ) -> Result<(), EvalStop>
        requires good { IsGoodChunk chunk }
        requires paid { way.bound ≤ self.old.ctx.purse }
        ensures meets { (s : ServiceState) → Meets (spec.sent_packet way.dev chunk host way.bound
            route (joined_state self.old s)) result (joined_state self.new s) }
        ensures falls { self.new.work ≤ self.old.work }
    {
        let chunk = CheckedChunk::of(chunk);
        let mut purse = Purse::of(self.ctx.purse);
        let packet = CheckedPacket::of(self.family, host, way.bound, route, chunk);
        send(&mut purse, &mut self.outbox, way.dev, packet)?;
        self.ctx.purse = purse.left();
        Ok(())
    }

    /// The same, once there is memory for the name of the routing function.
    fn send_named(
        &mut self,
        way: SendWay,
        chunk: Chunk,
        host: Host,
        route: Result<Name, NoMemory>,
    ) -> Result<(), EvalStop>
        requires good { IsGoodChunk chunk }
        requires paid { way.bound ≤ self.old.ctx.purse }
        ensures meets { (name : SentName) (s : ServiceState) → IfOk route (λ r. r ≡ name)
            → Meets (spec.sent_packet way.dev chunk host way.bound
            name (joined_state self.old s)) result (joined_state self.new s) }
        ensures falls { self.new.work ≤ self.old.work }
    {
        match route {
            Ok(name) => self.send_on_way(way, chunk, host, name),
            Err(NoMemory) => {
                drop(chunk);
                Err(EvalStop::NoMemory)
            }
        }
    }

    /// Sends a chunk to a host by a routing function. Condition: where it is sent, it is typed and well formed.
    pub fn send_remote(
        &mut self,
        alloc: Global,
        chunk: Chunk,
        host: Host,
        n: i64,
        route: &Name,
    ) -> Result<(), EvalStop>
        requires safe { (s : ServiceState) × IsSafe (spec.send_remote chunk host n route.now
            (joined_state self.old s)).asks }
        ensures meets { (s : ServiceState) → Meets (spec.send_remote chunk host n route.now
            (joined_state self.old s)) result (joined_state self.new s) }
        ensures falls { self.new.work ≤ self.old.work }
    {
        let purse = Purse::of(self.ctx.purse);
        match remote_way(&purse, &self.ctx, host, n, route) {
            Ok(way) => self.send_named(way, chunk, host, route.copy(alloc)),
            Err(fault) => {
                drop(chunk);
                Err(unsent(alloc, fault))
            }
        }
    }

    /// Sends a chunk to a neighbour. Condition: where it is sent, it is typed and well formed.
    pub fn send_neighbour(
        &mut self,
        alloc: Global,
        chunk: Chunk,
        host: Host,
        n: i64,
        dev: Dev,
    ) -> Result<(), EvalStop>
        requires safe { (s : ServiceState) × IsSafe (spec.send_neighbour chunk host n dev
            (joined_state self.old s)).asks }
        ensures meets { (s : ServiceState) → Meets (spec.send_neighbour chunk host n dev
            (joined_state self.old s)) result (joined_state self.new s) }
        ensures falls { self.new.work ≤ self.old.work }
    {
        let purse = Purse::of(self.ctx.purse);
        match neighbour_way(&purse, &self.ctx, host, n, dev) {
            Ok(way) => self.send_named(way, chunk, host, default_route(alloc)),
            Err(fault) => {
                drop(chunk);
                Err(unsent(alloc, fault))
            }
        }
    }

    /// Keeps the note of a service, if it made one.
    pub fn keep_note(&mut self, note: Option<Note>) -> Result<(), NoMemory>
        ensures ok { OnOk result (self.new ≡ record self.old
            { notes = run.notes_after note self.old.notes }) }
        ensures falls { self.new.work ≤ self.old.work }
    {
        match note {
            Some(note) => {
                self.notes.add(note)?;
                Ok(())
            }
            None => Ok(()),
        }
    }
}
