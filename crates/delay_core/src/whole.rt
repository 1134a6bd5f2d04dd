// A delay over the whole list of its arrivals.
ghost use Rattle.std.specs.Prelude.{◌≡◌, ◌≤◌, length, map, take, drop, IfOk, OnOk, OnErr};
ghost use Rattle.packet_record.specs.Moments.{AreUpTo, Rise};
ghost use Rattle.delay_core.specs.Delays.{later, delayed, kept_inside};

use crate::rule::Rule;
use packet_record::Timed;
use std::alloc::Global;
use text_base::OutOfMemory;
use text_base::limits::HOUR;

// How many packets depart up to the horizon: the first of them, since the moments rise.
fn departing(rule: Rule, packets: &[Timed]) -> usize
    requires { Rise packets.now }
    ensures bound { result ≤ length packets.now }
    ensures departed { delayed rule.delay rule.until packets.now ≡ map (later rule.delay) (take result packets.now) }
    ensures held { kept_inside rule.delay rule.until packets.now ≡ drop result packets.now }
{
    packets.partition_point(|t| rule.lets_out(t))
}

fn ids(alloc: Global, packets: &[Timed]) -> Result<Vec<u32>, OutOfMemory>
    ensures { IfOk result (λ ids. ids.items ≡ map (λ t. t.packet.id) packets.now) }
{
    let ids = packets.iter().map(|t| t.packet.id).collect(alloc)?;
    Ok(ids)
}

// Each packet as it departs.
fn let_out(rule: Rule, packets: &mut [Timed])
    requires { AreUpTo HOUR packets.old }
    ensures { packets.new ≡ map (later rule.delay) packets.old }
{
    for t in packets.iter_mut() {
        *t = rule.departure(*t);
    }
}

/// Delays all packets by `ms` milliseconds, in place: the list of arrivals becomes the list of departures up to the
/// horizon. Returns the numbers of those that stay inside, in order. Where it runs out of memory for these the list is
/// as it was.
pub fn delay_all(
    alloc: Global,
    ms: u64,
    horizon: u64,
    packets: &mut Vec<Timed>,
) -> Result<Vec<u32>, OutOfMemory>
    requires ms { ms ≤ HOUR }
    requires horizon { horizon ≤ HOUR }
    requires rises { Rise packets.old.items }
    requires within { AreUpTo horizon packets.old.items }
    ensures departed { OnOk result (packets.new.items ≡ delayed ms horizon packets.old.items) }
    ensures held { IfOk result (λ held. held.items ≡ map (λ t. t.packet.id)
        (kept_inside ms horizon packets.old.items)) }
    ensures err { OnErr result (packets.new.items ≡ packets.old.items) }
{
    let rule = Rule {
        delay: ms,
        until: horizon,
    };
    let count = departing(rule, packets.as_slice());
    let held = ids(alloc, &packets[count..])?;
    packets.truncate(count);
    let_out(rule, packets.as_mut_slice());
    Ok(held)
}
