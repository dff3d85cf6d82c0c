//! By what a trace is judged.

ghost use Rattle.std.specs.Prelude.{◌≡◌, map, IfOk};
ghost use Rattle.right_trace.specs.Settings as right_settings;
ghost use Rattle.trace_points.specs.questions.Configured.{use_of};
ghost use Rattle.trace_judge.specs.script.Judged as judged;

use crate::script::{conf_of, uses_of};
use client_settings::cache;
use dns_base::NoMemory;
use dns_script::Script;
use std::alloc::Global;
use trace_points::questions::{ServerUse, TraceConf};
use trace_replies::views::ReplySettings;

/// The configuration and the settings of a script.
pub struct Rules {
    pub conf: TraceConf,
    /// How each server of the configuration is used, in order.
    pub servers: Vec<ServerUse>,
    pub settings: ReplySettings,
    /// Whether errors and messages are given at once, whatever other servers may answer.
    pub defers_nothing: bool,
    pub ghost servers_are: { conf.servers ≡ map use_of servers.items },
    pub ghost exact_is: { defers_nothing ≡ right_settings.defers_nothing settings },
}

impl Drop for Rules {
    fn drop(self) {
        let Rules {
            conf: _,
            servers: _,
            settings: _,
            defers_nothing: _,
        } = self;
    }
}

impl Rules {
    /// Those of a script.
    pub(crate) fn of(alloc: Global, script: &Script) -> Result<Rules, NoMemory>
        ensures conf { IfOk result (λ rules. rules.conf ≡ judged.conf_of script.now.conf script.now.transports) }
        ensures settings { IfOk result (λ rules. rules.settings ≡ judged.settings_of script.now.redundant script.now.cache) }
    {
        let cache: cache::Config = script.cache.try_clone()?;
        let errors = script.redundant.defer_transport_error();
        let refused = script.redundant.defer_refused();
        let servfail = script.redundant.defer_servfail();
        Ok(Rules {
            conf: conf_of(alloc, &script.conf, &script.transports)?,
            servers: uses_of(
                alloc,
                script.conf.options.use_vc,
                script.conf.servers.as_slice(),
            )?,
            settings: ReplySettings::new(cache, errors, refused, servfail)?,
            defers_nothing: !errors && !refused && !servfail,
        })
    }
}
