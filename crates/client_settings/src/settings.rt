//! The settings of a client.

ghost use Rattle.std.specs.Prelude.{◌≡◌, Ok};
ghost use Rattle.client_settings.specs.Client.{AreLimited, default_settings, default_transports};

use crate::{cache, dgram, multi_stream, redundant};
use dns_base::NoMemory;

/// The settings of transports, for every server alike.
#[derive(Debug, Drop)]
pub struct Transports {
    /// Those of datagrams.
    pub dgram: dgram::Config,
    /// Those of streams: of each, and of trying again on the next.
    pub multi_stream: multi_stream::Config,
}

impl Transports {
    /// There is a place at least, and what is asked is waited for, whatever was set.
    pub fn are_limited(&self)
        ensures { AreLimited self.now }
    {
        self.dgram.are_limited();
        self.multi_stream.are_limited();
    }

    /// The defaults of each transport.
    pub fn new() -> Transports
        ensures { result ≡ default_transports }
    {
        Transports {
            dgram: dgram::Config::new(),
            multi_stream: multi_stream::Config::new(),
        }
    }

    /// The same settings. It takes no memory.
    pub fn try_clone(&self) -> Result<Transports, NoMemory>
        ensures { result ≡ Ok self.now }
    {
        let multi_stream = self.multi_stream.try_clone()?;
        Ok(Transports {
            dgram: self.dgram,
            multi_stream,
        })
    }
}

impl Default for Transports {
    ghost is_default = { λ t. t ≡ default_transports };

    fn default() -> Transports {
        Transports::new()
    }
}

/// The settings of a client.
#[derive(Debug, Drop)]
pub struct Settings {
    /// Which results of one server are put off.
    pub redundant: redundant::Config,
    /// What is kept, and for how long.
    pub cache: cache::Config,
    /// How servers are asked.
    pub transports: Transports,
}

impl Settings {
    /// The defaults of each part.
    pub fn new() -> Settings
        ensures { result ≡ default_settings }
    {
        Settings {
            redundant: redundant::Config::new(),
            cache: cache::Config::new(),
            transports: Transports::new(),
        }
    }

    /// The same settings. It takes no memory.
    pub fn try_clone(&self) -> Result<Settings, NoMemory>
        ensures { result ≡ Ok self.now }
    {
        let cache = self.cache.try_clone()?;
        let transports = self.transports.try_clone()?;
        Ok(Settings {
            redundant: self.redundant,
            cache,
            transports,
        })
    }
}

impl Default for Settings {
    ghost is_default = { λ s. s ≡ default_settings };

    fn default() -> Settings {
        Settings::new()
    }
}
