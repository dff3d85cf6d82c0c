//! The settings of a choice among servers.

ghost use Rattle.std.specs.Prelude.{◌≡◌, Ok};
ghost use Rattle.client_settings.specs.Settings.{default_redundant};

use dns_base::NoMemory;
use std::marker::Model;

/// Which results of one server are put off while another may still answer.
#[derive(Clone, Copy, Debug, PartialEq, Eq)]
pub struct Config {
    defer_transport_error: bool,
    defer_refused: bool,
    defer_servfail: bool,
}

impl Model for Config {
    ghost use Rattle.client_settings.specs.Settings.{RedundantSettings};

    ghost Value = { RedundantSettings };

    ghost view = { λ c. record {
      defer_transport_error = c.defer_transport_error;
      defer_refused = c.defer_refused;
      defer_servfail = c.defer_servfail;
    } };

    ghost inverse = { λ s. record {
      defer_transport_error = s.defer_transport_error;
      defer_refused = s.defer_refused;
      defer_servfail = s.defer_servfail;
    } };
}

impl Config {
    /// Nothing is put off.
    pub fn new() -> Config
        ensures { result ≡ default_redundant }
    {
        Config {
            defer_transport_error: false,
            defer_refused: false,
            defer_servfail: false,
        }
    }

    /// Whether an error of a transport is put off.
    pub fn defer_transport_error(&self) -> bool
        ensures { result ≡ self.now.defer_transport_error }
    {
        self.defer_transport_error
    }

    /// Lets an error of a transport wait for the other servers, or not.
    pub fn set_defer_transport_error(&mut self, value: bool)
        ensures { self.new ≡ record self.old { defer_transport_error = value } }
    {
        self.defer_transport_error = value;
    }

    /// Whether an answer with the code REFUSED is put off (RFC 1035 4.1.1).
    pub fn defer_refused(&self) -> bool
        ensures { result ≡ self.now.defer_refused }
    {
        self.defer_refused
    }

    /// Lets an answer with the code REFUSED wait for the other servers, or not.
    pub fn set_defer_refused(&mut self, value: bool)
        ensures { self.new ≡ record self.old { defer_refused = value } }
    {
        self.defer_refused = value;
    }

    /// Whether an answer with the code SERVFAIL is put off (RFC 1035 4.1.1).
    pub fn defer_servfail(&self) -> bool
        ensures { result ≡ self.now.defer_servfail }
    {
        self.defer_servfail
    }

    /// Lets an answer with the code SERVFAIL wait for the other servers, or not.
    pub fn set_defer_servfail(&mut self, value: bool)
        ensures { self.new ≡ record self.old { defer_servfail = value } }
    {
        self.defer_servfail = value;
    }

    /// The same settings. It takes no memory.
    pub fn try_clone(&self) -> Result<Config, NoMemory>
        ensures { result ≡ Ok self.now }
    {
        Ok(*self)
    }
}

impl Default for Config {
    ghost is_default = { λ c. c ≡ default_redundant };

    fn default() -> Config {
        Config::new()
    }
}
