//! The edge of a client: where outs are acted on and events come from.

ghost use Rattle.std.specs.Prelude.{◌≡◌, ℕ, ◌≤◌, List, Option, None, OnOk, OnErr, IfOk};
ghost use Rattle.dns_values.specs.Source.{one_more};
ghost use Rattle.client_core.specs.Edge.{after_deed, after_fault};
ghost use Rattle.client_core.specs.declared.edge.Deed.{Deed};
ghost use Rattle.client_core.specs.ListEdge.{is_fault_event};
ghost use Rattle.client_core.specs.Waiting.{Waited};

use client_request::{Out, What};
use dns_base::NoMemory;
use resolv_conf::ServerConf;

/// Where a client's outs are acted on, and its events come from.
///
/// Where an edge knows what was done with it, it tells that as one list, and where it keeps the waits that it was told, it tells
/// those as another. It counts its polls and the faults that it gave as events; a count stands still at its last value.
pub trait Edge {
    ghost deeds: { Self → Option (List Deed) };

    ghost waits: { Self → Option (List ℕ) } = { λ _. None };

    ghost polls: { Self → ℕ };

    ghost faults: { Self → ℕ };

    /// The next server's address, numbered from 0.
    fn learn_server(&mut self, server: &ServerConf) -> Result<(), NoMemory>
        ensures deeds { OnOk result (deeds self.new ≡ after_deed (Deed.Learned server.now) (deeds self.old)) }
        ensures waits { waits self.new ≡ waits self.old }
        ensures polls { polls self.new ≡ polls self.old }
        ensures faults { faults self.new ≡ faults self.old };

    /// Does what an out asks for.
    fn act(&mut self, out: &Out) -> Result<(), NoMemory>
        ensures deeds { OnOk result (deeds self.new ≡ after_deed (Deed.Acted out.now) (deeds self.old)) }
        ensures waits { waits self.new ≡ waits self.old }
        ensures polls { polls self.new ≡ polls self.old }
        ensures faults { faults self.new ≡ faults self.old };

    /// What happened, if anything did.
    fn poll(&mut self) -> Result<Option<What>, NoMemory>
        ensures deeds { IfOk result (λ what. deeds self.new ≡ after_deed (Deed.Polled what) (deeds self.old)) }
        ensures waits { waits self.new ≡ waits self.old }
        ensures polls { OnOk result (polls self.new ≡ one_more (polls self.old)) }
        ensures faults { IfOk result (λ what. faults self.new ≡ after_fault what (faults self.old)) };

    /// Told before a poll: where nothing happened yet, the edge may sleep until something does, but for no more than so many
    /// microseconds. It does nothing else. An edge that can't sleep, or has no need to, leaves this out.
    fn wait(&mut self, _most: u128)
        ensures waits { Waited _most (waits self.old) (waits self.new) }
        ensures deeds { deeds self.new ≡ deeds self.old }
        ensures polls { polls self.new ≡ polls self.old }
        ensures faults { faults self.new ≡ faults self.old }
    {}
}

/// Whether what a poll gave tells of a fault: of an opening, a send, a read or a write, or that a peer ended a stream.
pub fn is_fault(what: &Option<What>) -> bool
    ensures { result ≡ is_fault_event what.now }
{
    match what {
        Some(
            What::OpenFailed { .. }
            | What::SendFailed { .. }
            | What::ShortSend { .. }
            | What::RecvFailed { .. }
            | What::WriteFailed { .. }
            | What::ReadFailed { .. }
            | What::Ended { .. },
        ) => true,
        _ => false,
    }
}

/// What was done with an edge: a server was learned, an out was acted on, or it was polled and gave
/// this.
#[derive(Drop)]
pub enum Deed {
    /// It was told of this server, which has the next number, counted from 0.
    Learned(ServerConf),
    /// It acted on this out.
    Acted(Out),
    /// It was polled, and gave this event or none.
    Polled(Option<What>),
}
