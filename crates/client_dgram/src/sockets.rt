//! What a transport's edge is over: something that connects, and sockets for datagrams.

ghost use Rattle.std.specs.Prelude.{◌≡◌, ◌≤◌, ℕ, length, IfOk, OnErr};
ghost use Rattle.dns_values.specs.Source.{Rose};

use client_request::Fault;

/// Makes connections. It counts its faults, and fails only where the count rose.
pub trait Connect {
    type Connection;

    ghost connect_faults: { Self → ℕ };

    /// A new connection.
    fn connect(&mut self) -> Result<Self::Connection, Fault>
        ensures count { connect_faults self.old ≤ connect_faults self.new }
        ensures failed { OnErr result (Rose (connect_faults self.old) (connect_faults self.new)) };
}

/// Receives datagrams. It counts its faults, and fails only where the count rose.
pub trait DgramRecv {
    ghost recv_faults: { Self → ℕ };

    /// The next datagram, cut to the buffer: how many octets of the buffer it fills.
    fn recv(&mut self, buf: &mut [u8]) -> Result<usize, Fault>
        ensures within { IfOk result (λ n. n ≤ length buf.old) }
        ensures count { recv_faults self.old ≤ recv_faults self.new }
        ensures failed { OnErr result (Rose (recv_faults self.old) (recv_faults self.new)) };
}

/// Sends datagrams. It counts its faults, and fails only where the count rose.
pub trait DgramSend {
    ghost send_faults: { Self → ℕ };

    /// Sends a datagram: how many of its octets were sent.
    fn send(&mut self, buf: &[u8]) -> Result<usize, Fault>
        ensures within { IfOk result (λ n. n ≤ length buf.now) }
        ensures count { send_faults self.old ≤ send_faults self.new }
        ensures failed { OnErr result (Rose (send_faults self.old) (send_faults self.new)) };
}
