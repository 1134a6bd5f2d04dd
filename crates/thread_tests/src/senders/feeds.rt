// What senders feed.
use super::{
    Call, Fed, count_packets, feed_all, feed_texts, has_numbers, senders_from, senders_of,
};
use crate::checks::check;
use mark_channel::Feeds;
use mm_base::NoPace;
use packet_record::{Direction, Item, Packet, Row, Schedule, Timed, make_load};
use sender_merge::Senders;
use std::alloc::{AllocError, Global};
use std::marker::Sync;
use std::process::Abort;
use std::sync::Wait;
use std::thread::Threads;

// Two senders of a link that they share.
const FIRST: &[u8] = b"0 up 100\n5 up 100\n";

const SECOND: &[u8] = b"0 up 200\n3 down 50\n9 up 1\n";

// And one that sends nothing.
const THIRD: &[u8] = b"";

const BOTH_WAYS: &[u8] = b"4 up 100\n4 down 100\n";

// The texts of senders, the horizon up to which they feed, and the numbers of the packets that are fed.
struct Case {
    name: &'static str,
    texts: &'static [&'static [u8]],
    horizon: u64,
    ups: &'static [u32],
    downs: &'static [u32],
}

static CASES: [Case; 2] = [
    Case {
        name: "three senders",
        texts: &[FIRST, SECOND, THIRD],
        horizon: 8,
        ups: &[1, 2, 17],
        downs: &[18],
    },
    Case {
        name: "sixteen equal schedules",
        texts: &[BOTH_WAYS; 16],
        horizon: 10,
        ups: &[1, 2, 3, 4, 5, 6, 7, 8, 9, 10, 11, 12, 13, 14, 15, 16],
        downs: &[
            17, 18, 19, 20, 21, 22, 23, 24, 25, 26, 27, 28, 29, 30, 31, 32,
        ],
    },
];

// Whether a case's senders feed what it says.
fn feeds<R: Threads + Wait + Sync + Abort>(rt: &R, alloc: Global, case: &Case) -> bool {
    let fed = feed_texts(rt, alloc, case.texts, case.horizon);
    has_numbers(&fed, case.ups, case.downs)
}

#[test]
fn rows_go_by_moment_then_sender(rt: HostRuntime) {
    for case in &CASES {
        check(&rt, feeds(&rt, rt.alloc(), case), case.name);
    }
}

static TWO: [&[u8]; 2] = [FIRST, SECOND];

// Whether rows have these numbers.
fn are_numbered(rows: &[Row], numbers: &[u32]) -> bool {
    for (row, number) in rows.iter().zip(numbers.iter()) {
        if row.timed.packet.id != *number {
            return false;
        }
    }
    rows.len() == numbers.len()
}

// Whether the rows that are fed have these numbers.
fn feeds_numbered<F: Feeds>(feeds: &F, numbers: &[u32]) -> bool {
    are_numbered(feeds.rows(), numbers)
}

#[test]
fn the_rows_are_merged(rt: HostRuntime) {
    let senders = senders_from(&rt, rt.alloc(), &TWO);
    check(
        &rt,
        feeds_numbered(&senders, &[1, 2, 18, 17, 34]),
        "merged rows",
    );
}

// A packet of 100 bytes.
macro_rules! packet {
    ($id:expr, $moment:expr) => {
        Item::Packet(Timed {
            moment: $moment,
            packet: Packet {
                id: $id,
                size: 100,
            },
        })
    };
}

static ONE_EACH: [&[u8]; 2] = [b"5 up 100\n", b"7 up 100\n"];

const ONE_EACH_UP: [Item; 3] = [packet!(1, 5), packet!(2, 7), Item::End];

const ONE_EACH_DOWN: [Item; 3] = [Item::Mark(5), Item::Mark(7), Item::End];

// Whether these items were fed.
fn is_fed(fed: &Fed, ups: &[Item], downs: &[Item]) -> bool {
    fed.ups.as_slice() == ups && fed.downs.as_slice() == downs
}

// What each sender says of the other direction goes on as far as both have come.
#[test]
fn marks_are_passed_on(rt: HostRuntime) {
    let fed = feed_texts(&rt, rt.alloc(), &ONE_EACH, 10);
    check(&rt, is_fed(&fed, &ONE_EACH_UP, &ONE_EACH_DOWN), "marks");
}

// The text of `count` equal lines.
fn lines_of(alloc: Global, line: &str, count: u32) -> Result<String, AllocError> {
    let mut text = String::new(alloc);
    for _ in 0..count {
        text.push_str(line)?;
    }
    Ok(text)
}

// What two senders feed, one of which is ahead in one direction, and the other behind in the other.
fn feed_apart<R: Threads + Wait + Sync + Abort>(rt: &R, alloc: Global) -> Fed {
    let ahead = lines_of(alloc, "10 down 100\n", 1_000).expect(rt, "memory");
    let behind = lines_of(alloc, "1 up 100\n", 1_000).expect(rt, "memory");
    let texts = [ahead.as_bytes(), behind.as_bytes()];
    feed_texts(rt, alloc, texts.as_slice(), 20)
}

// How many packets were fed up, and down.
fn counts(fed: &Fed) -> (u64, u64) {
    (
        count_packets(fed.ups.as_slice()),
        count_packets(fed.downs.as_slice()),
    )
}

// Each merge needs the sender that is behind, while the one that is ahead fills its channel in the other direction.
#[test]
fn senders_that_are_apart_do_not_stop_each_other(rt: HostRuntime) {
    let fed = feed_apart(&rt, rt.alloc());
    check(
        &rt,
        counts(&fed) == (1_000, 1_000),
        "a thousand packets each way",
    );
}

// The schedules of `senders` senders, of 200 packets each, made from this number on.
fn made_schedules(rt: &impl Abort, alloc: Global, number: u64, senders: u64) -> Vec<Schedule> {
    let mut schedules = Vec::new(alloc);
    for sender in 0..senders {
        let schedule = make_load(alloc, number.saturating_add(sender), 200).expect(rt, "memory");
        schedules.push(schedule).expect(rt, "memory");
    }
    schedules
}

// Adds the rows of a sender, each with its number in the merge.
fn push_rows(rows: &mut Vec<Row>, sender: u32, schedule: &Schedule) -> Result<(), AllocError> {
    let mut id = sender;
    for row in schedule.rows() {
        let mut row = *row;
        row.timed.packet.id = id;
        rows.push(row)?;
        id = id.saturating_add(16);
    }
    Ok(())
}

// The rows of schedules, each with its number in the merge, in the order of a stable sort.
fn sorted_rows(alloc: Global, schedules: &[Schedule]) -> Result<Vec<Row>, AllocError> {
    let mut rows = Vec::new(alloc);
    let mut sender = 0u32;
    for schedule in schedules {
        sender = sender.saturating_add(1);
        push_rows(&mut rows, sender, schedule)?;
    }
    rows.sort_by_key(|row| row.timed.moment)?;
    Ok(rows)
}

const HORIZON: u64 = 250;

// The numbers of the rows of a direction up to the horizon.
fn numbers_up_to(
    alloc: Global,
    rows: &[Row],
    direction: Direction,
) -> Result<Vec<u32>, AllocError> {
    let mut numbers = Vec::new(alloc);
    for row in rows {
        if row.direction == direction && row.timed.moment <= HORIZON {
            numbers.push(row.timed.packet.id)?;
        }
    }
    Ok(numbers)
}

// Whether what was fed is these rows up to the horizon.
fn is_of(rt: &impl Abort, alloc: Global, fed: &Fed, rows: &[Row]) -> bool {
    let ups = numbers_up_to(alloc, rows, Direction::Up).expect(rt, "memory");
    let downs = numbers_up_to(alloc, rows, Direction::Down).expect(rt, "memory");
    has_numbers(fed, ups.as_slice(), downs.as_slice())
}

// Whether these rows are fed. It says nothing of them.
fn has_rows<F: Feeds>(feeds: &F, rows: &[Row]) -> bool {
    feeds.rows() == rows
}

// Senders, and their rows in the order of a stable sort.
#[derive(Drop)]
struct Made {
    senders: Senders,
    rows: Vec<Row>,
}

// So many senders, whose schedules are made.
fn made_by(rt: &impl Abort, alloc: Global, count: u64) -> Made {
    let schedules = made_schedules(rt, alloc, count, count);
    let rows = sorted_rows(alloc, schedules.as_slice()).expect(rt, "memory");
    Made {
        senders: senders_of(rt, alloc, schedules),
        rows,
    }
}

// Whether `count` senders feed their rows in the order of a stable sort.
fn feeds_sorted<R: Threads + Wait + Sync + Abort>(rt: &R, alloc: Global, count: u64) -> bool {
    let mut made = made_by(rt, alloc, count);
    let fed = feed_all(rt, alloc, &mut made.senders, HORIZON, Call::Feed, &NoPace);
    has_rows(&made.senders, made.rows.as_slice()) && is_of(rt, alloc, &fed, made.rows.as_slice())
}

#[test]
fn made_schedules_are_merged(rt: HostRuntime) {
    for count in 2..17 {
        check(&rt, feeds_sorted(&rt, rt.alloc(), count), "sorted rows");
    }
}
