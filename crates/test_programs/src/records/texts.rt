//! Scripts as they are printed.

use dns_script::{Script, read_script};
use script_printing::{Untold, script_text};
use std::alloc::Global;
use std::test::Fail;

/// Scripts as they are printed: `examples/first.script`, the first lines of `examples/use_vc.script`, one with settings, and one with those
/// of transports.
const SCRIPTS: [&str; 4] = [
    "conf nameserver 192.0.2.53
words 4660
at 0 ask 000001000001000000000000076578616d706c6503636f6d0000010001 00000100 -
at 10 opened 0
at 20000 datagram 0 123481800001000100000000076578616d706c6503636f6d0000010001c00c00010001000000640004c0000201
",
    "conf nameserver 192.0.2.53
conf options use-vc
at 0 ask 000001000001000000000000076578616d706c6503636f6d0000010001 00000100 -
at 10 opened 0
at 20 wrote 0 46
at 30 read-failed 0 reset
at 31 tick
",
    "conf nameserver 2001:db8::53
conf options timeout:7
set defer-refused on
set max-cache-entries 2
set max-validity 60
set stale-for 86400
set cache-truncated on
words 1 18446744073709551615
at 7 ended 0
",
    "conf nameserver 192.0.2.53
set dgram-max-parallel 7
set dgram-max-retries 0
set dgram-recv-size 4096
set dgram-udp-payload-size none
set dgram-read-timeout 1
set stream-response-timeout 1500
set stream-idle-timeout 0
set multi-stream-response-timeout 600000
at 7 ended 0
",
];

/// Scripts that are not told by their text, and why.
const UNTOLD: [(&str, Untold); 2] = [
    ("conf options rotate\n", Untold::Options),
    ("conf search example.com\n", Untold::Options),
];

fn printed(alloc: Global, text: &str) -> Result<Vec<u8>, Untold> {
    match read_script(alloc, text.as_bytes(), false) {
        Ok(script) => script_text(alloc, &script),
        Err(_) => Err(Untold::NoMemory),
    }
}

fn is_printed_again(alloc: Global, text: &str) -> bool {
    match printed(alloc, text) {
        Ok(again) => again.as_slice() == text.as_bytes(),
        Err(_) => false,
    }
}

#[test]
fn scripts_are_printed_as_they_were_read(rt: HostRuntime) -> Result<(), Fail> {
    let alloc = rt.alloc();
    assert!(rt; SCRIPTS.iter().all(|text| is_printed_again(alloc, text)));
    Ok(())
}

fn is_refused(alloc: Global, text: &str, why: Untold) -> bool {
    match printed(alloc, text) {
        Ok(_) => false,
        Err(untold) => untold == why,
    }
}

#[test]
fn what_is_not_told_is_refused(rt: HostRuntime) -> Result<(), Fail> {
    let alloc = rt.alloc();
    assert!(rt; UNTOLD.iter().all(|row| is_refused(alloc, row.0, row.1)));
    Ok(())
}
