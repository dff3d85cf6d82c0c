//! Limits and settings.
//!
//! `limits DEFAULT LEAST MOST: VALUE ..` says the default, and each value as it is limited once and twice. `settings dgram SETTING, ..`
//! says the settings of a transport by datagrams: how many requests go at a time, the time for an answer in microseconds, how often a
//! request goes again, the payload size and how much is received; a setting is `parallel`, `timeout`, `retries`, `size` or `receive` with its
//! value, or nothing. So do `settings balancer` with `factor`, `errors`, `refused` and `servfail`, and `settings bursts` with `burst`
//! and `interval`, of copies.

use crate::reading::{first_word, number, time_of};
use crate::saying::{say_name, say_value};
use client_choice::load_balancer::{Config, ConnConfig};
use client_request::{DefMinMax, limit_laws};

pub fn show_limits(line: &str, said: &mut String) -> Option<()> {
    let (limits, values) = line.split_once(':')?;
    let (default, bounds) = first_word(limits);
    let (least, most) = first_word(bounds);
    let limits = DefMinMax::new(number(default)?, number(least)?, number(most)?);
    limit_laws::<u64>();
    say_value(said, &limits.default())?;
    for value in values.split_whitespace() {
        let limited = limits.limit(number(value)?);
        say_value(said, &limited)?;
        say_value(said, &limits.limit(limited))?;
    }
    Some(())
}

fn set_dgram(config: &mut client_dgram::Config, setting: &str) -> Option<()> {
    let (word, value) = first_word(setting);
    match word {
        "" => {}
        "parallel" => config.set_max_parallel(number(value)? as usize),
        "timeout" => config.set_read_timeout(time_of(value)?),
        "retries" => config.set_max_retries(value.parse::<u8>().ok()?),
        "size" => config.set_udp_payload_size(value.parse::<u16>().ok()),
        "receive" => config.set_recv_size(number(value)? as usize),
        _ => return None,
    }
    Some(())
}

fn show_dgram(settings: &str, said: &mut String) -> Option<()> {
    let mut config = client_dgram::Config::new();
    for setting in settings.split(',') {
        set_dgram(&mut config, setting.trim())?;
    }
    say_value(said, &config.max_parallel())?;
    say_value(said, &config.read_timeout().as_micros())?;
    say_value(said, &config.max_retries())?;
    say_name(said, &config.udp_payload_size())?;
    say_value(said, &config.recv_size())
}

fn show_balancer(settings: &str, said: &mut String) -> Option<()> {
    let mut config = Config::default();
    for setting in settings.split(',') {
        let (word, value) = first_word(setting.trim());
        match word {
            "" => {}
            "factor" => config.set_slow_rt_factor(value.parse::<u32>().ok()?),
            "errors" => config.set_defer_transport_error(true),
            "refused" => config.set_defer_refused(true),
            "servfail" => config.set_defer_servfail(true),
            _ => return None,
        }
    }
    let copy = config.try_clone().ok()?;
    say_value(said, &copy.slow_rt_factor())?;
    say_value(said, &copy.defer_transport_error())?;
    say_value(said, &copy.defer_refused())?;
    say_value(said, &copy.defer_servfail())
}

fn show_bursts(settings: &str, said: &mut String) -> Option<()> {
    let mut config = ConnConfig::default();
    for setting in settings.split(',') {
        let (word, value) = first_word(setting.trim());
        match word {
            "" => {}
            "burst" => config.set_max_burst(number(value)),
            "interval" => config.set_burst_interval(time_of(value)?),
            _ => return None,
        }
    }
    let copy = config.try_clone().ok()?;
    say_name(said, &copy.max_burst())?;
    say_value(said, &copy.burst_interval().as_micros())
}

pub fn show(line: &str, said: &mut String) -> Option<()> {
    let (word, settings) = first_word(line);
    match word {
        "dgram" => show_dgram(settings, said),
        "balancer" => show_balancer(settings, said),
        "bursts" => show_bursts(settings, said),
        _ => None,
    }
}
