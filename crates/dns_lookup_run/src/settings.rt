//! How the client is set that asks.

ghost use Rattle.std.specs.Prelude.{◌≡◌};
ghost use Rattle.dns_lookup_run.specs.Worlds.{announced, settings_for};

use client_core::{Settings, Transports, cache};
use dns_lookup_words::{Announced, Lookup};
use resolv_conf::ResolvConf;
use resolver_policy::{announcing, practical_choice, practical_transports};

/// The same settings of transports, with the payload size that words announce.
pub fn announced(said: Announced, transports: Transports) -> Transports
    ensures { result ≡ announced said transports }
{
    match said {
        Announced::Usual => transports,
        Announced::Size(size) => announcing(Some(size), transports),
        Announced::Nothing => announcing(None, transports),
    }
}

/// How the client is set that asks the servers of a lookup's configuration.
pub(crate) fn settings_for(lookup: &Lookup, conf: &ResolvConf) -> Settings
    ensures { result ≡ settings_for lookup.now conf.now }
{
    Settings {
        redundant: practical_choice(),
        cache: cache::Config::new(),
        transports: announced(lookup.announced, practical_transports(conf)),
    }
}
