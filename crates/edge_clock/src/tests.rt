use super::*;
use std::io::{Error, ErrorKind};
use std::test::Fail;
use std::time::Duration;
use std::{io, time};

#[test]
fn a_clock_tells_its_numbers(rt: HostRuntime) -> Result<(), Fail> {
    let alloc = rt.alloc();
    let numbers = [7, 5, 9].to_vec(alloc)?;
    let clock = MemClock::new(numbers);
    assert_eq!(rt; clock.now(), 7);
    assert_eq!(rt; clock.now(), 5);
    assert_eq!(rt; clock.now(), 9);
    assert_eq!(rt; clock.now(), 9);
    Ok(())
}

#[test]
fn the_system_has_a_clock(rt: HostRuntime) {
    let clock = StdClock::new(&rt);
    let first = clock.now();
    assert!(rt; 0 < first);
    assert!(rt; first <= clock.now());
}

/// A clock of the system that stands still, or fails.
#[derive(Drop)]
struct Standing {
    shown: Option<Duration>,
}

impl time::Clock for Standing {
    fn monotonic(&self) -> io::Result<Duration> {
        self.shown.ok_or(Error::from(ErrorKind::Other))
    }

    fn since_1970(&self) -> io::Result<Duration> {
        self.monotonic()
    }
}

/// Seconds, milliseconds and microseconds are told in nanoseconds, up to the greatest number. A
/// clock that fails tells 0.
#[test]
fn the_clock_tells_nanoseconds(rt: HostRuntime) {
    for (shown, told) in [
        (Some(Duration::from_nanos(7)), 7),
        (Some(Duration::from_nanos(1_999_999_999)), 1_999_999_999),
        (Some(Duration::from_micros(3)), 3_000),
        (Some(Duration::from_millis(5)), 5_000_000),
        (Some(Duration::from_secs(2)), 2_000_000_000),
        (
            Some(Duration::from_secs(18_446_744_073)),
            18_446_744_073_000_000_000,
        ),
        (Some(Duration::from_secs(18_446_744_074)), u64::MAX),
        (None, 0),
    ] {
        let standing = Standing { shown };
        assert_eq!(rt; StdClock::new(&standing).now(), told);
    }
}

#[test]
fn a_gate_lets_a_request_through() {
    MemGate.pass(0);
}
