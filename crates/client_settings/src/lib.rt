//! The settings of a client: of its choice among servers, of its cache, and of its transports.
//!
//! Each setter of the choice among servers, of the cache and of the transports cuts its value into the setting's limits and
//! changes nothing else; each getter gives its setting. By `redundant::Config`, `cache::Config`, `dgram::Config`,
//! `stream::Config`, `multi_stream::Config`.
//!
//! They are values alone: what they have an effect on, the transports and the cache, stands in crates
//! above, and so does what reads them from a script. A setter cuts its value into the setting's limits.
//!
//! ```text
//! let mut config = cache::Config::new();
//! config.set_max_validity(Duration::from_secs(3600));
//! let mut choice = redundant::Config::new();
//! choice.set_defer_refused(true);
//! ```
//!
//! `redundant::Config`, `cache::Config`, `dgram::Config`, `stream::Config` and `multi_stream::Config` are seen as records
//! of their settings, times in microseconds; `Settings` is those of a whole client. `new` and
//! `Default` give the defaults; a setter changes its setting alone, to the value cut into the limits (`limited`); a getter
//! gives it. The crate stands on `client_request` for `DefMinMax` alone.
#![tactic(auto)]

pub mod cache;
pub mod dgram;
pub mod multi_stream;
pub mod redundant;
mod settings;
pub mod stream;

pub use settings::{Settings, Transports};
