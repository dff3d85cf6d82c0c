//! The configuration of a resolver.

ghost use Rattle.std.specs.Prelude.{◌≡◌, [], IfOk, MatchResult};
ghost use Rattle.resolv_conf.specs.Final.{finalized, FinalLaws};
ghost use Rattle.resolv_conf.specs.Conf.{default_options};

use crate::options::ResolvOptions;
use crate::server::{Servers, this_host, with_request_timeout};
use dns_values::NoMemory;
use std::alloc::Global;
use std::mem;

/// The servers that a resolver asks, and its options.
#[derive(Debug, Drop)]
pub struct ResolvConf {
    /// The servers, in the order in which they are written.
    pub servers: Servers,
    /// How they are asked.
    pub options: ResolvOptions,
}

impl ResolvConf {
    /// No servers, and the default options. It takes no memory.
    pub fn new(alloc: Global) -> ResolvConf
        ensures { result ≡ record { servers = []; options = default_options } }
    {
        ResolvConf {
            servers: Servers::new(alloc),
            options: ResolvOptions::new(alloc),
        }
    }

    /// Makes the configuration ready for use: with no server `127.0.0.1` is asked, with an empty
    /// search list the root is searched, and each server has the options' timeout for a request.
    /// `NoMemory` changes nothing.
    pub fn finalize(&mut self, alloc: Global) -> Result<(), NoMemory>
        ensures { MatchResult result (λ _. self.new ≡ finalized self.old) (λ _. self.new ≡ self.old) }
    {
        let servers = if self.servers.len() == 0 {
            Some(this_host(alloc)?)
        } else {
            None
        };
        if self.options.search.is_empty() {
            self.options.search.push_root(alloc)?;
        }
        if let Some(servers) = servers {
            self.servers = servers;
        }
        let servers = mem::replace(&mut self.servers, Servers::new(alloc));
        self.servers = with_request_timeout(servers, self.options.timeout);
        Ok(())
    }

    /// The same servers and options.
    pub fn try_clone(&self, alloc: Global) -> Result<ResolvConf, NoMemory>
        ensures { IfOk result (λ c. c ≡ self.now) }
    {
        let servers = self.servers.try_clone(alloc)?;
        let options = self.options.try_clone(alloc)?;
        Ok(ResolvConf { servers, options })
    }
}

/// The laws of `ResolvConf::finalize`: twice is once, and there are then a server and a suffix.
pub fn finalize_laws()
    ensures { FinalLaws }
{}
