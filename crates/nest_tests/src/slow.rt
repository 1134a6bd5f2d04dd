// A plain slow program of a link, written apart from the contracts and from the code: it sums over whole lists again
// and again.
ghost use Rattle.std.specs.Prelude.{◌<◌, length};

use packet_queue::{QueueKind, QueueSpec};
use packet_record::Timed;
use shell_log::Entry;
use std::alloc::Global;
use std::process::Abort;
use text_base::OutOfMemory;
use trace_reader::Opportunity;

// What becomes of the packets: which departed and which were lost, and the log.
#[derive(Drop)]
pub struct Slow {
    pub departed: Vec<Timed>,
    pub lost: Vec<Timed>,
    pub log: Vec<Entry>,
}

// The packets that entered the queue and weren't lost, and those that were lost.
#[derive(Drop)]
struct Kept {
    kept: Vec<Timed>,
    lost: Vec<Timed>,
}

// Returns how many bytes the packets have.
fn size_of_all(packets: &[Timed]) -> u64 {
    let mut sum: u64 = 0;
    for t in packets {
        sum = sum.saturating_add(u64::from(t.packet.size));
    }
    sum
}

// Returns how many bytes the packets before `moment` have.
fn size_before(packets: &[Timed], moment: u64) -> u64 {
    let mut sum: u64 = 0;
    for t in packets {
        if t.moment < moment {
            sum = sum.saturating_add(u64::from(t.packet.size));
        }
    }
    sum
}

// Returns how many bytes of `kept` are sent up to the moment `until`.
fn sent(kept: &[Timed], opps: &[Opportunity], until: u64) -> u64 {
    let mut sum: u64 = 0;
    for o in opps {
        if o.moment <= until {
            let before = size_before(kept, o.moment);
            sum = sum.saturating_add(u64::from(o.bytes)).min(before);
        }
    }
    sum
}

// Returns whether `n` is within the limit. A limit of 0 is none.
fn within(limit: Option<u64>, n: u64) -> bool {
    match limit {
        None => true,
        Some(most) => most == 0 || n <= most,
    }
}

// Returns whether the packets fit the limits of the queue.
fn fits(queue: &QueueSpec, packets: &[Timed]) -> bool {
    within(queue.packets, packets.len() as u64) && within(queue.bytes, size_of_all(packets))
}

// Keeps a packet, or loses it at `moment`.
fn put(after: &mut Kept, t: Timed, is_lost: bool, moment: u64) -> Result<(), OutOfMemory> {
    if is_lost {
        after.lost.push(Timed {
            moment,
            packet: t.packet,
        })?;
    } else {
        after.kept.push(t)?;
    }
    Ok(())
}

// Keeps or loses each packet that waits, the last of which arrives at `moment`.
fn queued(
    queue: &QueueSpec,
    after: &mut Kept,
    waiting: &[Timed],
    moment: u64,
) -> Result<(), OutOfMemory> {
    let tail_fits = fits(queue, waiting);
    let mut dropping = queue.kind == QueueKind::DropHead;
    for i in 0..waiting.len() {
        dropping = dropping && !fits(queue, &waiting[i..]);
        let last = i + 1 == waiting.len();
        let cut = last && queue.kind == QueueKind::DropTail && !tail_fits;
        put(after, waiting[i], dropping || cut, moment)?;
    }
    Ok(())
}

// Returns how many of the packets, the first ones, have departed or are in transit once `bytes` are sent.
fn count_gone(kept: &[Timed], bytes: u64) -> usize {
    let mut sum: u64 = 0;
    let mut count: usize = 0;
    for t in kept {
        if sum < bytes {
            count = count.saturating_add(1);
        }
        sum = sum.saturating_add(u64::from(t.packet.size));
    }
    count
}

// Returns the packets, and one more.
fn with(rt: &impl Abort, alloc: Global, packets: &[Timed], t: Timed) -> Vec<Timed> {
    let mut list = Vec::from_slice(alloc, packets).expect(rt, "memory");
    list.push(t).expect(rt, "memory");
    list
}

// Returns what is kept of `kept` and a new packet, and what is lost as it arrives.
fn arrive(
    rt: &impl Abort,
    alloc: Global,
    queue: &QueueSpec,
    opps: &[Opportunity],
    kept: &[Timed],
    t: Timed,
) -> Kept {
    let gone = count_gone(kept, sent(kept, opps, t.moment)).min(kept.len());
    let mut after = Kept {
        kept: Vec::from_slice(alloc, &kept[..gone]).expect(rt, "memory"),
        lost: Vec::new(alloc),
    };
    let waiting = with(rt, alloc, &kept[gone..], t);
    queued(queue, &mut after, &waiting, t.moment).expect(rt, "memory");
    after
}

// Returns the number of the first opportunity with which `bytes` are sent, or how many opportunities there are.
fn first_with(kept: &[Timed], opps: &[Opportunity], bytes: u64) -> usize {
    for i in 0..opps.len() {
        if sent(kept, &opps[..i + 1], u64::MAX) >= bytes {
            return i;
        }
    }
    opps.len()
}

// Logs an opportunity and the departures at it.
fn log_opportunity(
    log: &mut Vec<Entry>,
    kept: &[Timed],
    opps: &[Opportunity],
    number: usize,
    o: Opportunity,
) -> Result<(), OutOfMemory> {
    log.push(Entry::Opportunity {
        moment: o.moment,
        bytes: o.bytes,
    })?;
    let mut sum: u64 = 0;
    for t in kept {
        sum = sum.saturating_add(u64::from(t.packet.size));
        if first_with(kept, opps, sum) == number {
            log.push(Entry::Departure {
                moment: o.moment,
                size: t.packet.size,
                delay: o.moment.saturating_sub(t.moment),
            })?;
        }
    }
    Ok(())
}

// Logs an arrival and the packets that it loses.
fn log_arrival(log: &mut Vec<Entry>, t: Timed, lost: &[Timed]) -> Result<(), OutOfMemory> {
    log.push(Entry::Arrival {
        moment: t.moment,
        size: t.packet.size,
    })?;
    if !lost.is_empty() {
        log.push(Entry::Drop {
            moment: t.moment,
            packets: lost.len() as u64,
            bytes: size_of_all(lost),
        })?;
    }
    Ok(())
}

// Returns what is kept and lost of all arrivals.
fn keep(
    rt: &impl Abort,
    alloc: Global,
    queue: &QueueSpec,
    opps: &[Opportunity],
    arrivals: &[Timed],
) -> Kept {
    let mut all = Kept {
        kept: Vec::new(alloc),
        lost: Vec::new(alloc),
    };
    for t in arrivals {
        let after = arrive(rt, alloc, queue, opps, &all.kept, *t);
        all.lost.extend_from_slice(&after.lost).expect(rt, "memory");
        all.kept = after.kept;
    }
    all
}

// Returns the packets that arrival `number` loses.
fn lost_at(
    rt: &impl Abort,
    alloc: Global,
    queue: &QueueSpec,
    opps: &[Opportunity],
    arrivals: &[Timed],
    number: usize,
) -> Vec<Timed>
    requires { number < length arrivals.now }
{
    let before = keep(rt, alloc, queue, opps, &arrivals[..number]);
    arrive(rt, alloc, queue, opps, &before.kept, arrivals[number]).lost
}

// Returns which of the packets that are kept depart.
fn depart(rt: &impl Abort, alloc: Global, kept: &[Timed], opps: &[Opportunity]) -> Vec<Timed> {
    let mut departed = Vec::new(alloc);
    let mut sum: u64 = 0;
    for t in kept {
        sum = sum.saturating_add(u64::from(t.packet.size));
        if let Some(o) = opps.get(first_with(kept, opps, sum)) {
            let gone = Timed {
                moment: o.moment,
                packet: t.packet,
            };
            departed.push(gone).expect(rt, "memory");
        }
    }
    departed
}

// Logs the opportunities of a moment.
fn log_opportunities(
    log: &mut Vec<Entry>,
    kept: &[Timed],
    opps: &[Opportunity],
    moment: u64,
) -> Result<(), OutOfMemory> {
    for i in 0..opps.len() {
        if opps[i].moment == moment {
            log_opportunity(log, kept, opps, i, opps[i])?;
        }
    }
    Ok(())
}

// Logs the arrivals of a moment.
fn log_arrivals(
    rt: &impl Abort,
    alloc: Global,
    log: &mut Vec<Entry>,
    queue: &QueueSpec,
    opps: &[Opportunity],
    arrivals: &[Timed],
    moment: u64,
) {
    for i in 0..arrivals.len() {
        if arrivals[i].moment == moment {
            let lost = lost_at(rt, alloc, queue, opps, arrivals, i);
            log_arrival(log, arrivals[i], &lost).expect(rt, "memory");
        }
    }
}

// Returns the log up to the horizon, moment by moment.
fn log_all(
    rt: &impl Abort,
    alloc: Global,
    queue: &QueueSpec,
    opps: &[Opportunity],
    arrivals: &[Timed],
    kept: &[Timed],
    horizon: u16,
) -> Vec<Entry> {
    let mut log = Vec::new(alloc);
    for moment in 0..=horizon {
        log_opportunities(&mut log, kept, opps, u64::from(moment)).expect(rt, "memory");
        log_arrivals(
            rt,
            alloc,
            &mut log,
            queue,
            opps,
            arrivals,
            u64::from(moment),
        );
    }
    log
}

// Returns what becomes of all arrivals up to the horizon, and the log.
pub fn slow_link(
    rt: &impl Abort,
    alloc: Global,
    queue: &QueueSpec,
    opps: &[Opportunity],
    arrivals: &[Timed],
    horizon: u16,
) -> Slow {
    let after = keep(rt, alloc, queue, opps, arrivals);
    Slow {
        departed: depart(rt, alloc, &after.kept, opps),
        log: log_all(rt, alloc, queue, opps, arrivals, &after.kept, horizon),
        lost: after.lost,
    }
}
