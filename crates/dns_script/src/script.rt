//! Scripts: a configuration, words, and the events of each lane.

use client_request::{Events, WordList};
use client_settings::{Transports, cache, redundant};
use dns_base::Seq;
use resolv_conf::ResolvConf;

/// The events of each lane, in order.
pub type Lanes = Seq<Events>;

/// Why a text was not read.
#[derive(Clone, Copy, Debug, PartialEq, Eq)]
pub enum ScriptFault {
    /// The first line that is refused, counted from 1, or the line after the last where the text
    /// ends early.
    Line(u64),
    /// Memory ran out.
    NoMemory,
}

/// What a script says: the configuration, the settings of the choice among servers, of the cache and of transports, the
/// words to draw, and the events of each lane.
#[derive(Drop)]
pub struct Script {
    /// What its `conf` lines say.
    pub conf: ResolvConf,
    /// The settings of the choice among servers.
    pub redundant: redundant::Config,
    /// The settings of the cache.
    pub cache: cache::Config,
    /// The settings of transports, for every server alike.
    pub transports: Transports,
    /// The words to draw, in order; 0 comes past their end.
    pub words: WordList,
    /// The events, a list for each lane; one list where there are no lanes.
    pub lanes: Lanes,
}
