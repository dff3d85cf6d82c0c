//! The servers of an edge.

ghost use Rattle.std.specs.Prelude.{◌≡◌, OnOk, map};
ghost use Rattle.client_core.specs.declared.edge.Deed.{Deed};
ghost use Rattle.client_loop.specs.Turns.{after_deeds};

use client_core::Edge;
use dns_base::NoMemory;
use resolv_conf::ServerConf;

/// Lets an edge learn these servers, in order. After `NoMemory` it has learned some of them.
pub fn learn_all<E: Edge>(edge: &mut E, servers: &[ServerConf]) -> Result<(), NoMemory>
    ensures deeds { OnOk result (E.deeds edge.new ≡ after_deeds (map (λ server. Deed.Learned server) servers.now) (E.deeds edge.old)) }
    ensures waits { E.waits edge.new ≡ E.waits edge.old }
    ensures polls { E.polls edge.new ≡ E.polls edge.old }
    ensures faults { E.faults edge.new ≡ E.faults edge.old }
{
    for server in servers {
        edge.learn_server(server)?;
    }
    Ok(())
}
