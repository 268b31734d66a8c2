//! Packets whose chunk is typed.

ghost use Rattle.std.specs.Prelude.{◌≡◌, ◌≤◌, true, None, Some};
ghost use Rattle.plan_types_spec.specs.Handlers.{is_handler, MayHandle};
ghost use Rattle.checked_chunks.specs.Kept.{IsCheckedChunk};

use crate::checked_chunk::CheckedChunk;
use plan_base::{Family, Host, Name};
use std::marker::Model;

/// A packet whose chunk is typed and whose handler, if it has one, is a function of its code that may handle, which contracts
/// see as that packet.
pub struct CheckedPacket {
    family: Family,
    dest: Host,
    bound: u32,
    route: Name,
    chunk: CheckedChunk,
    handler: Option<Name>,
}

impl Drop for CheckedPacket {
    fn drop(self) {
        let CheckedPacket {
            family: _family,
            dest: _dest,
            bound: _bound,
            route: _route,
            chunk: _chunk,
            handler: _handler,
        } = self;
    }
}

impl Model for CheckedPacket {
    ghost use Rattle.std.specs.Prelude.{◌≤◌};
    ghost use Rattle.plan_base.specs.declared.tree.Packet.{Packet};
    ghost use Rattle.plan_base.specs.contracts.tree.Packet as whole;
    ghost use Rattle.plan_types_spec.specs.Handlers.{MayHandle};
    ghost use Rattle.checked_chunks.specs.Kept.{IsCheckedChunk};

    ghost Value = { Packet };

    ghost coded = { whole.the_row.coded };

    ghost view = { λ k. record {
      family = k.family;
      dest = k.dest;
      bound = k.bound;
      route = k.route;
      chunk = k.chunk;
      handler = k.handler;
    } };

    ghost invariant = { λ k. (k.bound ≤ 65535) × (IsCheckedChunk k.chunk × MayHandle k.chunk
        k.handler) };
}

impl CheckedPacket {
    /// The packet of these parts, without a handler. Condition: the bound is at most 65,535. Takes no memory.
    pub fn of(
        family: Family,
        dest: Host,
        bound: u32,
        route: Name,
        chunk: CheckedChunk,
    ) -> CheckedPacket
        requires { bound ≤ 65535 }
        ensures { result ≡ record {
          family = family;
          dest = dest;
          bound = bound;
          route = route;
          chunk = chunk;
          handler = None;
        } }
    {
        CheckedPacket {
            family,
            dest,
            bound,
            route,
            chunk,
            handler: None,
        }
    }

    /// The packet with this handler. Condition: it is a function of the chunk's code that may handle. Takes no memory.
    pub fn handled_by(self, name: Name) -> CheckedPacket
        requires { is_handler self.chunk.code name ≡ true }
        ensures { result ≡ record self { handler = Some name } }
    {
        let CheckedPacket {
            family,
            dest,
            bound,
            route,
            chunk,
            handler: _old,
        } = self;
        CheckedPacket {
            family,
            dest,
            bound,
            route,
            chunk,
            handler: Some(name),
        }
    }

    /// The packet with another bound. Condition: that is at most 65,535. Takes no memory.
    pub fn with_bound(self, bound: u32) -> CheckedPacket
        requires { bound ≤ 65535 }
        ensures { result ≡ record self { bound = bound } }
    {
        let CheckedPacket {
            family,
            dest,
            bound: _old,
            route,
            chunk,
            handler,
        } = self;
        CheckedPacket {
            family,
            dest,
            bound,
            route,
            chunk,
            handler,
        }
    }

    /// The family that it belongs to. Takes no memory.
    pub fn family(&self) -> Family
        ensures { result ≡ self.now.family }
    {
        self.family
    }

    /// The host at which its chunk is evaluated. Takes no memory.
    pub fn dest(&self) -> Host
        ensures { result ≡ self.now.dest }
    {
        self.dest
    }

    /// The hops and evals that it may still pay. Takes no memory.
    pub fn bound(&self) -> u32
        ensures value { result ≡ self.now.bound }
        ensures small { self.now.bound ≤ 65535 }
    {
        self.bound
    }

    /// The name of the routing function. Takes no memory.
    pub fn route(&self) -> &Name
        ensures { result.now ≡ self.now.route }
    {
        &self.route
    }

    /// What it carries. Takes no memory.
    pub fn chunk(&self) -> &CheckedChunk
        ensures value { result.now ≡ self.now.chunk }
        ensures kept { IsCheckedChunk self.now.chunk }
    {
        &self.chunk
    }

    /// Its handler. Takes no memory.
    pub fn handler(&self) -> &Option<Name>
        ensures value { result.now ≡ self.now.handler }
        ensures kept { MayHandle self.now.chunk self.now.handler }
    {
        &self.handler
    }
}
