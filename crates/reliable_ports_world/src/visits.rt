//! Laws: what the visits of messages and acks do.
ghost use Rattle.std.specs.Prelude.{ℤ, pos, ℕ, List};
ghost use Rattle.plan_base.specs.declared.ids.Host.{Host};
ghost use Rattle.service_api.specs.Services.{Offer};
ghost use Rattle.plan_meaning.specs.State.{VisitState};
ghost use Rattle.reliable_ports.specs.Programs.{data_chunk, ack_chunk};
ghost use Rattle.reliable_ports_world.specs.Only.{Good};
ghost use Rattle.reliable_ports_world.specs.Visits.{ServesPort, VisitIsGood, data_said, data_allowed, ack_said, ack_allowed};

/// The visit of a message sends that message alone, and notes it alone, for port 1.
pub fn data_visits()
    ensures { (offer : Offer) (dest : Host) (seq : ℤ) (body : List ℕ) (s : VisitState)
        → Good (data_allowed offer dest seq body) s
        → ServesPort (data_allowed offer dest seq body) dest (pos 1) (data_said seq body)
        → VisitIsGood (data_allowed offer dest seq body) (data_chunk dest seq body) s }
{}

/// The visit of an ack sends that ack alone, and notes it alone, for port 2.
pub fn ack_visits()
    ensures { (offer : Offer) (dest : Host) (next : ℤ) (s : VisitState)
        → Good (ack_allowed offer dest next) s
        → ServesPort (ack_allowed offer dest next) dest (pos 2) (ack_said next)
        → VisitIsGood (ack_allowed offer dest next) (ack_chunk dest next) s }
{}
