//! What stands before the first event: the configuration, the settings and the words.

ghost use Rattle.std.specs.Prelude.{◌≡◌, ◌++◌, ◌∷◌, [], ◌/◌, ◌<◌, ◌^◌, ℕ, map, decimal, slice_index, OnOk, IfOk};
ghost use Rattle.std.specs.List.{flat_map};
ghost use Rattle.dns_values.specs.Address.{IsAddress};
ghost use Rattle.script_printing.specs.CanBeTold.{AreAddresses, AreSizesInRange, AreWordsInRange};
ghost use Rattle.script_printing.specs.Texts.{conf_lines, ended, head_text, option_lines, seconds_line, server_line, word_lines};

use crate::settings::push_settings;
use client_settings::{Transports, cache, redundant};
use dns_base::{Duration, IpAddr, NoMemory};
use resolv_conf::{ResolvConf, ResolvOptions, ServerConf};
use std::alloc::Global;

/// The time for a request where no option says so, in seconds.
const DEFAULT_TIMEOUT: u64 = 5;

/// Adds the line of a server.
fn push_server(alloc: Global, text: &mut Vec<u8>, server: &ServerConf) -> Result<(), NoMemory>
    ensures { OnOk result (text.new.items ≡ text.old.items ++ ended (server_line server.now)) }
{
    let ip = server.addr.ip;
    let line = format!(in alloc; "conf nameserver {ip}\n")?;
    text.extend_from_slice(line.as_bytes())?;
    Ok(())
}

/// Adds the line of each server.
fn push_servers(alloc: Global, text: &mut Vec<u8>, servers: &[ServerConf]) -> Result<(), NoMemory>
    ensures { OnOk result (text.new.items ≡ text.old.items ++ flat_map (λ server. ended (server_line server)) servers.now) }
{
    for server in servers {
        push_server(alloc, text, server)?;
    }
    Ok(())
}

/// Adds the line of a time that is not its default, in seconds behind what stands before it.
fn push_seconds(
    alloc: Global,
    text: &mut Vec<u8>,
    front: &str,
    default: u64,
    value: Duration,
) -> Result<(), NoMemory>
    ensures { OnOk result (text.new.items ≡ text.old.items ++ flat_map ended (seconds_line front.now default value)) }
{
    if value == Duration::from_secs(default) {
        return Ok(());
    }
    let seconds = value.as_secs();
    let line = format!(in alloc; "{front}{seconds}\n")?;
    text.extend_from_slice(line.as_bytes())?;
    Ok(())
}

/// Adds the lines of the options that have an effect on a client.
fn push_options(alloc: Global, text: &mut Vec<u8>, options: &ResolvOptions) -> Result<(), NoMemory>
    ensures { OnOk result (text.new.items ≡ text.old.items ++ flat_map ended (option_lines options.now)) }
{
    push_seconds(
        alloc,
        text,
        "conf options timeout:",
        DEFAULT_TIMEOUT,
        options.timeout,
    )?;
    if options.use_vc {
        text.extend_from_slice(b"conf options use-vc\n")?;
    }
    Ok(())
}

/// Adds a word behind a blank.
fn push_word(alloc: Global, text: &mut Vec<u8>, word: u64) -> Result<(), NoMemory>
    ensures { OnOk result (text.new.items ≡ text.old.items ++ 32 ∷ decimal word) }
{
    let digits = format!(in alloc; " {word}")?;
    text.extend_from_slice(digits.as_bytes())?;
    Ok(())
}

/// Adds each word behind a blank.
fn push_words(alloc: Global, text: &mut Vec<u8>, words: &[u64]) -> Result<(), NoMemory>
    ensures { OnOk result (text.new.items ≡ text.old.items ++ flat_map (λ word. 32 ∷ decimal word) words.now) }
{
    for word in words {
        push_word(alloc, text, *word)?;
    }
    Ok(())
}

/// Adds the line of the words, if there are any.
fn push_word_line(alloc: Global, text: &mut Vec<u8>, words: &[u64]) -> Result<(), NoMemory>
    ensures { OnOk result (text.new.items ≡ text.old.items ++ flat_map ended (word_lines words.now)) }
{
    if words.is_empty() {
        return Ok(());
    }
    text.extend_from_slice(b"words")?;
    push_words(alloc, text, words)?;
    text.push(b'\n')?;
    Ok(())
}

/// Adds the lines of a configuration.
fn push_conf(alloc: Global, text: &mut Vec<u8>, conf: &ResolvConf) -> Result<(), NoMemory>
    ensures { OnOk result (text.new.items ≡ text.old.items ++ flat_map ended (conf_lines conf.now)) }
{
    push_servers(alloc, text, conf.servers.as_slice())?;
    push_options(alloc, text, &conf.options)
}

/// What stands before the first event of a script. Of a server its address is told, and of the options the time for a request,
/// in whole seconds, and whether servers are asked by streams alone. `NoMemory` where memory runs out.
pub fn head_text(
    alloc: Global,
    conf: &ResolvConf,
    choice: redundant::Config,
    cache: &cache::Config,
    transports: &Transports,
    words: &[u64],
) -> Result<Vec<u8>, NoMemory>
    ensures { IfOk result (λ v. v.items ≡ head_text conf.now choice cache.now transports.now words.now) }
{
    let mut text = Vec::new(alloc);
    push_conf(alloc, &mut text, conf)?;
    push_settings(alloc, &mut text, choice, cache, transports)?;
    push_word_line(alloc, &mut text, words)?;
    Ok(text)
}

/// Each octet is one.
fn octets_are_in_range(octets: &[u8])
    ensures { (k : ℕ) → slice_index octets.now k < 2 ^ 8 }
{
    let _octets = octets;
}

/// Each group has 16 bits.
fn groups_are_in_range(groups: &[u16])
    ensures { (k : ℕ) → slice_index groups.now k < 2 ^ 16 }
{
    let _groups = groups;
}

/// Each address is one.
fn address_is_in_range(ip: IpAddr)
    ensures { IsAddress ip }
{
    match ip {
        IpAddr::V4(octets) => octets_are_in_range(&octets),
        IpAddr::V6(groups) => groups_are_in_range(&groups),
    }
}

#[tactic(auto, using(crate::proofs::InRange::all_addresses, crate::proofs::InRange::one_address_more))]
fn addresses_are_in_range(servers: &[ServerConf])
    ensures { AreAddresses servers.now }
{
    for server in servers {
        address_is_in_range(server.addr.ip);
    }
}

#[tactic(auto, using(crate::proofs::InRange::words_by_index))]
fn words_are_in_range(words: &[u64])
    ensures { AreWordsInRange words.now }
{
    let _words = words;
}

/// How many octets are read has 64 bits, and a payload size 16.
fn sizes_are_in_range(transports: &Transports)
    ensures { AreSizesInRange transports.now.dgram }
{
    transports.are_limited();
    let _size = transports.dgram.recv_size();
}

/// What stands before the first event has the ranges of its types.
pub fn head_is_in_range(conf: &ResolvConf, transports: &Transports, words: &[u64])
    ensures addresses { AreAddresses conf.now.servers }
    ensures timeout { conf.now.options.timeout / 1000000 < 2 ^ 64 }
    ensures sizes { AreSizesInRange transports.now.dgram }
    ensures words { AreWordsInRange words.now }
{
    addresses_are_in_range(conf.servers.as_slice());
    sizes_are_in_range(transports);
    words_are_in_range(words);
    let _seconds = conf.options.timeout.as_secs();
}
