// The machine's clock: how long it rests beside a wire, what it counts, and what ends it.
use super::edges::{Ends, ends_by, is_silent, receives, send_from, wire_to};
use live_relay::{Clock, Pulse, Side, SysClock};
use std::fs::File;
use std::io::{Write, pipe};
use std::os::fd::{AsRawFd, RawFd};
use std::thread;
use std::time::{Duration, Instant};

// The clock of the machine.
type RealClock<'a> = SysClock<'a, HostRuntime>;

// How long the tests of its counting last, in milliseconds. A clock of 1,024 microseconds would be 12 ms short of it.
const WHILE: u64 = 500;

// The milliseconds since an instant, by the system's own account.
fn millis_since(rt: &HostRuntime, begun: &Instant) -> Option<u64> {
    u64::try_from(begun.elapsed(rt).ok()?.as_millis()).ok()
}

// How many microseconds a reading of a clock takes.
fn reading_of(rt: &HostRuntime, clock: &mut RealClock<'_>) -> Option<u64> {
    let begun = Instant::now(rt).ok()?;
    clock.now();
    u64::try_from(begun.elapsed(rt).ok()?.as_micros()).ok()
}

// Whether a clock counts as many milliseconds as the system while its thread sleeps. The system is asked within.
fn counts_milliseconds(rt: &HostRuntime, clock: &mut RealClock<'_>) -> Option<bool> {
    let first = clock.now();
    let inner = Instant::now(rt).ok()?;
    thread::sleep(rt, Duration::from_millis(WHILE));
    let least = millis_since(rt, &inner)?;
    let counted = clock.now().saturating_sub(first);
    Some(least >= WHILE && counted >= least)
}

#[test]
fn the_machine_has_a_clock_in_milliseconds(rt: HostRuntime) {
    let pulse = Pulse::new();
    let mut clock = SysClock::new(rt, &pulse, None);
    assert!(rt; counts_milliseconds(&rt, &mut clock) == Some(true));
}

// Whether a clock counts no more milliseconds than the system, which is asked before it and after it.
fn counts_no_more(rt: &HostRuntime, clock: &mut RealClock<'_>) -> Option<bool> {
    let outer = Instant::now(rt).ok()?;
    let first = clock.now();
    thread::sleep(rt, Duration::from_millis(WHILE));
    let counted = clock.now().saturating_sub(first);
    Some(counted <= millis_since(rt, &outer)?.saturating_add(1))
}

#[test]
fn the_clock_is_not_fast(rt: HostRuntime) {
    let pulse = Pulse::new();
    let mut clock = SysClock::new(rt, &pulse, None);
    assert!(rt; counts_no_more(&rt, &mut clock) == Some(true));
}

// How many readings of a clock beside an idle wire, each before a receive, fit into these milliseconds after a silence
// of milliseconds; and the least of them, in microseconds. The clock watches the descriptor.
fn readings_after(
    rt: &HostRuntime,
    descriptor: Option<RawFd>,
    silence: u64,
    milliseconds: u64,
) -> Option<(u32, u64)> {
    let pulse = Pulse::new();
    let mut wire = wire_to(rt, &pulse, 9)?;
    let mut clock = SysClock::new(*rt, &pulse, descriptor);
    clock.now();
    thread::sleep(rt, Duration::from_millis(silence));
    clock.now();
    let begun = Instant::now(rt).ok()?;
    let (mut readings, mut least) = (0u32, u64::MAX);
    for _ in 0..100_000 {
        least = least.min(reading_of(rt, &mut clock)?);
        readings = readings.saturating_add(1);
        if !is_silent(&mut wire, 1) || millis_since(rt, &begun)? >= milliseconds {
            break;
        }
    }
    Some((readings, least))
}

// A clock that wakes at each millisecond is read some 200 times in 200 ms. Without a rest it would be read many
// thousands of times, and one that rested for several milliseconds would have no reading as short. A busy machine lets
// it be read less often, and a reading that comes late, past the millisecond, doesn't rest.
#[test]
fn a_clock_rests_beside_an_idle_wire(rt: HostRuntime) {
    let (readings, least) = readings_after(&rt, None, 0, 200).unwrap_or((0, 0));
    assert!(rt;
        (1..=210).contains(&readings),
        "it was read {readings} times"
    );
    assert!(rt; least <= 2_000, "the least took {least} microseconds");
}

// After a silent second a reading takes five milliseconds, so some 60 fit into 300.
#[test]
fn a_clock_rests_longer_after_a_silent_second(rt: HostRuntime) {
    let (readings, least) = readings_after(&rt, None, 1_100, 300).unwrap_or((0, 0));
    assert!(rt;
        (1..=75).contains(&readings),
        "it was read {readings} times"
    );
    assert!(rt; least <= 9_000, "the least took {least} microseconds");
}

// How many of a hundred readings of a clock take less than 300 microseconds, where a datagram was received just before,
// or else a datagram waits. Each comes soon after a millisecond has begun, so that nearly all are quick on an idle
// machine, and none if the clock rests.
fn quick_readings(rt: &HostRuntime, received: bool) -> Option<u32> {
    let pulse = Pulse::new();
    let Ends {
        first,
        mut wire,
        ..
    } = ends_by(rt, &pulse)?;
    let mut clock = SysClock::new(*rt, &pulse, None);
    let mut quick = 0u32;
    for _ in 0..100 {
        clock.now();
        send_from(&first, b"x", &wire)?;
        if received && !receives(rt, &mut wire, Side::Client, b"x").ok()? {
            return None;
        }
        if reading_of(rt, &mut clock)? < 300 {
            quick = quick.saturating_add(1);
        }
        if !received && !receives(rt, &mut wire, Side::Client, b"x").ok()? {
            return None;
        }
        clock.now();
    }
    Some(quick)
}

#[test]
fn no_rest_follows_a_datagram(rt: HostRuntime) {
    let quick = quick_readings(&rt, true);
    assert!(rt;
        quick.is_some_and(|count| count >= 10),
        "{quick:?} were quick"
    );
}

#[test]
fn a_datagram_that_waits_ends_a_rest(rt: HostRuntime) {
    let quick = quick_readings(&rt, false);
    assert!(rt;
        quick.is_some_and(|count| count >= 10),
        "{quick:?} were quick"
    );
}

// The least of fifty readings of a clock, in microseconds, after a silent second and while a datagram waits.
fn least_of_fifty(rt: &HostRuntime) -> Option<u64> {
    let pulse = Pulse::new();
    let ends = ends_by(rt, &pulse)?;
    let mut clock = SysClock::new(*rt, &pulse, None);
    clock.now();
    thread::sleep(rt, Duration::from_millis(1_100));
    clock.now();
    send_from(&ends.first, b"x", &ends.wire)?;
    let mut least = u64::MAX;
    for _ in 0..50 {
        least = least.min(reading_of(rt, &mut clock)?);
    }
    Some(least)
}

#[test]
fn a_datagram_ends_a_long_rest(rt: HostRuntime) {
    let least = least_of_fifty(&rt);
    assert!(rt;
        least.is_some_and(|micros| micros < 1_000),
        "it took {least:?} microseconds"
    );
}

// Reads a clock after three milliseconds.
fn later(rt: &HostRuntime, clock: &mut RealClock<'_>) -> u64 {
    thread::sleep(rt, Duration::from_millis(3));
    clock.now()
}

// Whether the user of a clock that watches a pipe hasn't ended while the pipe is open, also where somebody writes
// there, and has once it is closed, while it still tells the moment of the system.
fn ends_with_its_pipe(rt: &HostRuntime) -> Option<bool> {
    let (reader, mut writer) = pipe(rt).ok()?;
    let pulse = Pulse::new();
    let mut clock = SysClock::new(*rt, &pulse, Some(reader.as_raw_fd()));
    let goes_on = later(rt, &mut clock) < 3_600_000;
    writer.write(b"still here").ok()?;
    let heard = later(rt, &mut clock) < 3_600_000 && later(rt, &mut clock) < 3_600_000;
    let open = !clock.has_ended();
    drop(writer);
    let ended = later(rt, &mut clock) < 3_600_000 && clock.now() < 3_600_000;
    Some(goes_on && heard && open && ended && clock.has_ended() && clock.moment() < 3_600_000)
}

#[test]
fn the_end_of_a_descriptor_ends_a_clock(rt: HostRuntime) {
    assert!(rt; ends_with_its_pipe(&rt) == Some(true));
}

// Whether a clock goes on that is to watch a descriptor that isn't there.
#[test]
fn a_descriptor_that_is_not_there_ends_nothing(rt: HostRuntime) {
    let pulse = Pulse::new();
    let mut clock = SysClock::new(rt, &pulse, Some(1_000));
    assert!(rt; later(&rt, &mut clock) < 3_600_000 && later(&rt, &mut clock) < 3_600_000);
    assert!(rt; !clock.has_ended());
}

// How many readings of a clock, as above, where the descriptor always has something to read.
fn readings_beside_noise(rt: &HostRuntime, silence: u64) -> Option<u32> {
    let noise = File::open(rt, "/dev/zero").ok()?;
    let (readings, _) = readings_after(rt, Some(noise.as_raw_fd()), silence, 200)?;
    Some(readings)
}

// A descriptor that always has something to read ends no rest.
#[test]
fn a_descriptor_that_always_has_something_to_read_costs_no_readings(rt: HostRuntime) {
    assert!(rt; (1..=210).contains(&readings_beside_noise(&rt, 0).unwrap_or(0)));
    assert!(rt; (1..=50).contains(&readings_beside_noise(&rt, 1_100).unwrap_or(0)));
}
