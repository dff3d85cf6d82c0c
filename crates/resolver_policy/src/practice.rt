//! What a client is given in practice.

ghost use Rattle.std.specs.Prelude.{◌≡◌, ◌≤◌, ◌<◌, ◌*◌, length, IfOk};
ghost use Rattle.resolver_policy.specs.Practice.{announcing, first_place, from_place, in_rounds, place_drawn, practical, practical_choice, practical_options, practical_transports, round_time, rounds_of, time_of_round, with_places, words_left};

use client_request::Words;
use client_settings::{Transports, dgram, multi_stream, redundant, stream};
use dns_values::{Duration, NoMemory};
use resolv_conf::{ResolvConf, ResolvOptions, ServerConf, Servers};
use std::alloc::Global;

/// The most rounds (resolver(5)).
const MOST_ROUNDS: usize = 5;

/// The least time for a round, in microseconds.
const LEAST_MICROS: u128 = 1_000_000;

/// The greatest time for a round, in microseconds (resolver(5)).
const MOST_MICROS: u128 = 30_000_000;

/// The settings of a choice among servers that passes a dead one by: an error of a transport, REFUSED and SERVFAIL of one
/// server wait for what the others say.
pub fn practical_choice() -> redundant::Config
    ensures { result ≡ practical_choice }
{
    let mut config = redundant::Config::new();
    config.set_defer_transport_error(true);
    config.set_defer_refused(true);
    config.set_defer_servfail(true);
    config
}

/// The options of a configuration that says none: a lost datagram is asked again after a second, and once more.
pub fn practical_options(alloc: Global) -> ResolvOptions
    ensures { result ≡ practical_options }
{
    let mut options = ResolvOptions::new(alloc);
    options.timeout = Duration::from_secs(1);
    options.attempts = 3;
    options
}

/// How often each server is named.
fn rounds_of(options: &ResolvOptions) -> usize
    ensures value { result ≡ rounds_of options.now }
    ensures range { (1 ≤ result) × (result ≤ 5) }
{
    options.attempts.min(MOST_ROUNDS).max(1)
}

/// How long each round may take, in microseconds.
fn time_of_round(options: &ResolvOptions) -> u64
    ensures value { result ≡ time_of_round options.now }
    ensures range { result ≤ 30000000 }
{
    options
        .timeout
        .as_micros()
        .min(MOST_MICROS)
        .max(LEAST_MICROS) as u64
}

/// One of so many places, which a word says.
fn place_drawn(count: usize, word: u64) -> usize
    ensures value { result ≡ place_drawn count word }
    ensures range { result ≤ count }
{
    ((u128::from(word) * count as u128) >> 64) as usize
}

/// Where the first round begins.
fn first_place<W: Words>(conf: &ResolvConf, words: &mut W) -> usize
    ensures place { result ≡ first_place (W.stream words.old) conf.now }
    ensures range { result ≤ length conf.now.servers }
    ensures left { W.stream words.new ≡ words_left (W.stream words.old) conf.now }
{
    if conf.options.rotate {
        place_drawn(conf.servers.len(), words.next())
    } else {
        0
    }
}

/// The servers from a place on, and then those before it.
fn from_place(
    alloc: Global,
    place: usize,
    servers: &[ServerConf],
) -> Result<Vec<ServerConf>, NoMemory>
    requires { place ≤ length servers.now }
    ensures { IfOk result (λ v. v.items ≡ from_place place servers.now) }
{
    let mut all = Vec::from_slice(alloc, &servers[place..])?;
    all.extend_from_slice(&servers[..place])?;
    Ok(all)
}

/// The servers, once in each round.
fn in_rounds(alloc: Global, rounds: usize, servers: &[ServerConf]) -> Result<Servers, NoMemory>
    ensures { IfOk result (λ all. all ≡ in_rounds rounds servers.now) }
{
    let mut all = Vec::new(alloc);
    for _ in 0..rounds {
        all.extend_from_slice(servers)?;
    }
    Ok(Servers::from_vec(all))
}

/// The configuration that a client is given in practice: each server is named `attempts` times, from 1 to 5, in rounds, and the
/// client's timeout is as long as all rounds, of which each has the time that `timeout` says, from 1 to 30 seconds. So a datagram
/// that is lost is asked again once another server would be, and not by the transport alone. With `rotate` the servers stand from
/// a drawn one on; else no word is drawn. What the options say of both numbers stays. After `NoMemory` a word may have been drawn.
pub fn practical<W: Words>(
    alloc: Global,
    conf: ResolvConf,
    words: &mut W,
) -> Result<ResolvConf, NoMemory>
    ensures conf { IfOk result (λ c. c ≡ practical (W.stream words.old) conf) }
    ensures left { W.stream words.new ≡ words_left (W.stream words.old) conf }
{
    let place = first_place(&conf, words);
    let ResolvConf {
        servers,
        mut options,
    } = conf;
    let rounds = rounds_of(&options);
    let servers = from_place(alloc, place, servers.as_slice())?;
    let servers = in_rounds(alloc, rounds, &servers)?;
    options.timeout = Duration::from_micros(time_of_round(&options) * rounds as u64);
    Ok(ResolvConf { servers, options })
}

/// The greatest time for which a stream waits for an answer, in milliseconds.
const MOST_ROUND_MILLIS: u128 = 600_000;

/// The most requests that are asked at a server at a time.
const MOST_PLACES: usize = 1000;

/// How long each round may take, of a configuration that `practical` made, in whole milliseconds, which scripts tell.
fn round_time(options: &ResolvOptions) -> Duration
    ensures { result ≡ round_time options.now }
{
    let round = options.timeout.as_micros() / rounds_of(options) as u128 / 1000;
    Duration::from_millis(round.min(MOST_ROUND_MILLIS) as u64)
}

/// How servers are asked in practice, of a configuration that `practical` made. No server is asked again by a transport, since the
/// rounds ask again; an answer by datagram counts as long as the request may take, so that a late one counts still, and a stream
/// waits for one as long as a round, so that one slow answer holds it no longer.
pub fn practical_transports(conf: &ResolvConf) -> Transports
    ensures { result ≡ practical_transports conf.now }
{
    let mut dgram = dgram::Config::new();
    dgram.set_max_parallel(MOST_PLACES);
    dgram.set_max_retries(0);
    dgram.set_read_timeout(conf.options.timeout);
    let mut stream = stream::Config::new();
    stream.set_response_timeout(round_time(&conf.options));
    Transports {
        dgram,
        multi_stream: multi_stream::Config::from(stream),
    }
}

/// The same settings, where requests announce this payload size, and at least so many octets of an answer are read; or announce none.
pub fn announcing(size: Option<u16>, mut transports: Transports) -> Transports
    ensures { result ≡ announcing size transports }
{
    let dgram = &mut transports.dgram;
    dgram.set_udp_payload_size(size);
    if let Some(size) = size {
        dgram.set_recv_size(dgram.recv_size().max(usize::from(size)));
    }
    transports
}

/// The same settings, with so many places at a server, 1 to 1000.
pub fn with_places(places: usize, mut transports: Transports) -> Transports
    ensures { result ≡ with_places places transports }
{
    transports.dgram.set_max_parallel(places);
    transports
}
