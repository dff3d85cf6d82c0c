//! The settings of a server by datagrams and streams.

ghost use Rattle.std.specs.Prelude.{◌≡◌, Ok};
ghost use Rattle.std.specs.Borrow.{Lends, sem};
ghost use Rattle.client_multi.specs.DgramStream.{default_settings, with_dgram, with_stream};
ghost use Rattle.client_settings.specs.contracts.dgram.Config.{the_row as dgram_row};
ghost use Rattle.client_settings.specs.contracts.multi_stream.Config.{the_row as stream_row};
ghost use Rattle.client_multi.specs.contracts.dgram_stream.config.Config.{the_row};

use crate::multi_stream;
use dns_base::NoMemory;
use std::marker::Model;

/// The settings of the datagrams, and of the streams.
#[derive(Debug, Drop)]
pub struct Config {
    dgram: client_dgram::Config,
    multi_stream: multi_stream::Config,
}

impl Model for Config {
    ghost use Rattle.client_multi.specs.DgramStream.{Settings};

    ghost Value = { Settings };

    ghost view = { λ c. record { dgram = c.dgram; stream = c.multi_stream } };
}

impl Default for Config {
    ghost is_default = { λ c. c ≡ default_settings };

    fn default() -> Config {
        Config::new()
    }
}

impl Config {
    /// The defaults of both.
    pub fn new() -> Config
        ensures { result ≡ default_settings }
    {
        Config::from_parts(client_dgram::Config::new(), multi_stream::Config::new())
    }

    /// Settings of both.
    pub fn from_parts(dgram: client_dgram::Config, multi_stream: multi_stream::Config) -> Config
        ensures { result ≡ record { dgram = dgram; stream = multi_stream } }
    {
        Config {
            dgram,
            multi_stream,
        }
    }

    /// The same settings. It takes no memory.
    pub fn try_clone(&self) -> Result<Config, NoMemory>
        ensures { result ≡ Ok self.now }
    {
        let multi_stream = self.multi_stream.try_clone()?;
        Ok(Config {
            dgram: self.dgram,
            multi_stream,
        })
    }

    /// The settings of the datagrams.
    pub fn dgram(&self) -> &client_dgram::Config
        ensures { result.now ≡ self.now.dgram }
    {
        &self.dgram
    }

    /// The settings of the datagrams, to be changed.
    pub fn dgram_mut(&mut self) -> &mut client_dgram::Config
        ensures* writes_back { sem 𝓛 (Lends the_row dgram_row self.entry result (with_dgram self.old)) }
        ensures value { result.now ≡ self.old.dgram }
    {
        &mut self.dgram
    }

    /// Sets the settings of the datagrams.
    pub fn set_dgram(&mut self, dgram: client_dgram::Config)
        ensures { self.new ≡ record self.old { dgram = dgram } }
    {
        self.dgram = dgram;
    }

    /// The settings of the streams.
    pub fn stream(&self) -> &multi_stream::Config
        ensures { result.now ≡ self.now.stream }
    {
        &self.multi_stream
    }

    /// The settings of the streams, to be changed.
    pub fn stream_mut(&mut self) -> &mut multi_stream::Config
        ensures* writes_back { sem 𝓛 (Lends the_row stream_row self.entry result (with_stream self.old)) }
        ensures value { result.now ≡ self.old.stream }
    {
        &mut self.multi_stream
    }

    /// Sets the settings of the streams.
    pub fn set_stream(&mut self, stream: multi_stream::Config)
        ensures { self.new ≡ record self.old { stream = stream } }
    {
        self.multi_stream = stream;
    }
}
