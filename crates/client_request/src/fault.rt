//! What can go wrong at a socket.

ghost use Rattle.std.specs.Prelude.{◌≡◌, Some};
ghost use Rattle.client_request.specs.Fault.{fault_text};

use std::fmt;

/// The kind of a fault of a socket.
#[derive(Clone, Copy, Debug, PartialEq, Eq, Hash)]
pub enum Fault {
    /// The other side refused the connection.
    Refused,
    /// The other side reset the connection.
    Reset,
    /// The network or the server can't be reached.
    Unreachable,
    /// The address of this side is in use.
    InUse,
    /// The connection is broken.
    Broken,
    /// A fault of another kind.
    Other,
    /// It took too long. The client finds this one by its own timer.
    Expired,
    /// Not all octets of a datagram were sent.
    ShortSend,
    /// A stream took no octet of what was to be written.
    NothingTaken,
    /// A stream came to its end, and not inside the body of a message.
    EndOfData,
}

impl Fault {
    /// The fault's text, as it is printed.
    pub fn text(self) -> &'static str
        ensures { result.now ≡ fault_text self }
    {
        match self {
            Fault::Refused => "connection refused",
            Fault::Reset => "connection reset",
            Fault::Unreachable => "unreachable",
            Fault::InUse => "address in use",
            Fault::Broken => "broken connection",
            Fault::Other => "other fault",
            Fault::Expired => "timeout expired",
            Fault::ShortSend => "short request sent",
            Fault::NothingTaken => "nothing was taken",
            Fault::EndOfData => "end of data",
        }
    }
}

impl fmt::Display for Fault {
    ghost output = { λ f. Some (fault_text f) };

    fn fmt<W: fmt::Write>(&self, f: &mut fmt::Formatter<W>) -> fmt::Result {
        f.write_str(self.text())
    }
}

impl std::error::Error for Fault {}
