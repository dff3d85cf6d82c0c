//! The clock, the random words and the files of this host.

use client_core::Clock;
use client_edge::{FileOpener, RandWords, RealClock};
use client_request::Words;
use dns_values::Source;
use rand::rngs::StdRng;
use resolv_conf::OpenFile;
use std::test::Fail;
use std::time::Duration;
use std::{env, fs, process, thread};

#[test]
fn a_clock_goes_with_the_time(rt: HostRuntime) -> Result<(), Fail> {
    let mut clock = RealClock::new(rt);
    let first = clock.now();
    thread::sleep(&rt, Duration::from_millis(2));
    let second = clock.now();
    assert!(rt;
        second.0 >= first.0.saturating_add(2000),
        "from {} to {}",
        first.0,
        second.0
    );
    assert!(rt; first.0 < 1_000_000, "it began at {}", first.0);
    Ok(())
}

#[test]
fn words_differ(rt: HostRuntime) -> Result<(), Fail> {
    let mut words = RandWords::new(rand::make_rng::<StdRng, _>(&rt)?);
    let mut others = RandWords::new(rand::make_rng::<StdRng, _>(&rt)?);
    let (first, second) = (words.next(), words.next());
    assert!(rt; first != second);
    assert!(rt; first != others.next());
    Ok(())
}

#[test]
fn a_file_is_read_from_its_start(rt: HostRuntime) -> Result<(), Fail> {
    let name = format!(in rt.alloc(); "test_edge.{}", process::id(rt.process()))?;
    let path = env::temp_dir(&rt)?.join(rt.alloc(), name.as_str())?;
    fs::write(&rt, path.as_str(), b"nameserver")?;
    let mut files = FileOpener::new(rt);
    let mut buf = [0u8; 4];
    assert_eq!(rt; files.read(&mut buf), Ok(0));
    for _ in 0..2u32 {
        files.open_file(path.as_str())?;
        assert_eq!(rt; files.read(&mut buf), Ok(4));
        assert!(rt; &buf == b"name");
    }
    fs::remove_file(&rt, path.as_str())?;
    assert!(rt; files.open_file(path.as_str()).is_err());
    assert_eq!(rt; files.read(&mut buf), Ok(4));
    Ok(())
}
