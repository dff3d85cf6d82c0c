//! One server by datagrams, and by streams where the message of a datagram was truncated.

ghost use Rattle.std.specs.Prelude.{◌≡◌, IsOkAnd};
ghost use Rattle.client_multi.specs.DgramStream as plain;

use crate::dgram_stream::config::Config;
use crate::dgram_stream::fallback::Fallback;
use crate::multi_stream;
use client_request::ComposeRequest;
use dns_base::NoMemory;
use std::alloc::Global;

/// A server that is asked by datagrams, and by streams where the message of a datagram is truncated.
pub type Connection<Req> = Fallback<
    Req,
    client_dgram::Connection<Req>,
    multi_stream::Connection<Req>,
>;

impl<Req: ComposeRequest> Fallback<
    Req,
    client_dgram::Connection<Req>,
    multi_stream::Connection<Req>,
> {
    /// A connection with the default settings. `server` is the number that its outs name. It takes no
    /// memory.
    pub fn new(alloc: Global, server: u32) -> Result<Connection<Req>, NoMemory>
        ensures { IsOkAnd result (λ c. c ≡ plain.started server plain.default_settings) }
    {
        Connection::with_config(alloc, server, Config::new())
    }

    /// A connection with settings of one's own. It takes no memory.
    pub fn with_config(
        alloc: Global,
        server: u32,
        config: Config,
    ) -> Result<Connection<Req>, NoMemory>
        ensures { IsOkAnd result (λ c. c ≡ plain.started server config) }
    {
        let dgram = client_dgram::Connection::with_config(alloc, server, *config.dgram())?;
        let settings = config.stream().try_clone()?;
        let stream = multi_stream::Connection::with_config(alloc, server, settings)?;
        Ok(Fallback::over(alloc, server, dgram, stream))
    }
}
