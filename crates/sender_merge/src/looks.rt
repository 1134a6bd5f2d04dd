// Looks at what was added of all senders, each in one pass over them.
ghost use Rattle.std.specs.Prelude.{◌≡◌, ◌+◌, ◌<◌, ◌≤◌, length, IsSome, Some, is_some};
ghost use Rattle.std.specs.List.{list_all, list_any};
ghost use Rattle.sender_merge.specs.Inflows.{has_ended, is_broken};
ghost use Rattle.sender_merge.specs.Steps.{all_clear as is_clear, bound_of, candidate as candidate_of, clears};
ghost use Rattle.sender_merge.specs.Steps.{earlier as earlier_of, is_needed, lesser as lesser_of};
ghost use Rattle.sender_merge.specs.Steps.{mark_or_need as mark_or_need_of, merged_bound as bound_in};
ghost use Rattle.sender_merge.specs.Steps.{needed as needed_of, senders_after, step_of as step_in};
ghost use Rattle.sender_merge.specs.inside.Lefts.{left_of};

use crate::incoming::Incoming;
use crate::step::{Head, MergeStep};
use packet_record::Item;

// Returns the number of the sender at `index`.
fn number_at(index: usize) -> u32
    requires { index < 16 }
    ensures { result ≡ index + 1 }
{
    index as u32 + 1
}

// Returns whether a sender was broken off.
fn any_broken(senders: &[Incoming]) -> bool
    ensures { result ≡ list_any is_broken senders.now }
{
    senders.iter().any(|sender| sender.is_broken())
}

// Returns whether all senders have ended.
fn all_ended(senders: &[Incoming]) -> bool
    ensures { result ≡ list_all has_ended senders.now }
{
    senders.iter().all(|sender| sender.has_ended())
}

// Returns the earlier one of two heads, or the first if both have the same moment.
fn earlier(first: Option<Head>, second: Option<Head>) -> Option<Head>
    ensures { result ≡ earlier_of first second }
{
    match (first, second) {
        (Some(a), Some(b)) if b.packet.moment < a.packet.moment => Some(b),
        (Some(a), _) => Some(a),
        (None, second) => second,
    }
}

// Returns the candidate: the head that is least by moment, then sender.
pub(crate) fn candidate(senders: &[Incoming]) -> Option<Head>
    requires { length senders.now ≤ 16 }
    ensures { result ≡ candidate_of senders.now }
{
    let mut least = None;
    for (index, incoming) in senders.iter().enumerate() {
        let sender = number_at(index);
        let head = incoming.head().map(|packet| Head { sender, packet });
        least = earlier(least, head);
    }
    least
}

// Returns whether sender `number` clears the candidate: it has a head, or has ended, or its bound is above the
// candidate's moment; or its bound is at that moment, and `number` is above that of the candidate's sender.
fn clears_it(candidate: &Head, number: u32, incoming: &Incoming) -> bool
    ensures { result ≡ clears candidate.now number incoming.now }
{
    let bound = incoming.bound();
    let moment = candidate.packet.moment;
    incoming.head().is_some()
        || incoming.has_ended()
        || bound > moment
        || (bound == moment && number > candidate.sender)
}

// Returns whether all senders clear the candidate.
fn all_clear(candidate: &Head, senders: &[Incoming]) -> bool
    requires { length senders.now ≤ 16 }
    ensures { result ≡ is_clear candidate.now 1 senders.now }
{
    for (index, incoming) in senders.iter().enumerate() {
        if !clears_it(candidate, number_at(index), incoming) {
            return false;
        }
    }
    true
}

// Returns the lesser of two moments, or the one that there is.
fn lesser(first: Option<u64>, second: Option<u64>) -> Option<u64>
    ensures { result ≡ lesser_of first second }
{
    match (first, second) {
        (Some(a), Some(b)) if b < a => Some(b),
        (Some(a), _) => Some(a),
        (None, second) => second,
    }
}

// Returns the moment of a sender's head, or its bound if it has no head. Returns `None` if it has ended.
fn earliest(incoming: &Incoming) -> Option<u64>
    ensures { result ≡ bound_of incoming.now }
{
    if incoming.has_ended() {
        return None;
    }
    match incoming.head() {
        Some(packet) => Some(packet.moment),
        None => Some(incoming.bound()),
    }
}

// Returns the merged bound: the least that `earliest` returns for any sender.
fn merged_bound(senders: &[Incoming]) -> Option<u64>
    ensures { result ≡ bound_in senders.now }
{
    let mut least = None;
    for incoming in senders {
        least = lesser(least, earliest(incoming));
    }
    least
}

// Returns whether sender `number` is missing: it hasn't ended, has no head and, if there is a candidate, doesn't clear
// it.
fn is_missing(candidate: &Option<Head>, number: u32, incoming: &Incoming) -> bool
    ensures { result ≡ is_needed candidate.now number incoming.now }
{
    if incoming.has_ended() || incoming.head().is_some() {
        return false;
    }
    match candidate {
        Some(head) => !clears_it(head, number, incoming),
        None => true,
    }
}

// Returns the number of the least sender that is missing.
fn needed(candidate: &Option<Head>, senders: &[Incoming]) -> u32
    requires few { length senders.now ≤ 16 }
    requires some { IsSome (needed_of candidate.now senders.now) }
    ensures { needed_of candidate.now senders.now ≡ Some result }
{
    for (index, incoming) in senders.iter().enumerate() {
        let sender = number_at(index);
        if is_missing(candidate, sender, incoming) {
            return sender;
        }
    }
    unreachable!()
}

// Returns a mark at the merged bound if that is above `given`, the bound of the flow given. Otherwise returns the
// sender that is needed.
fn mark_or_need(candidate: &Option<Head>, senders: &[Incoming], given: u64) -> MergeStep
    requires few { length senders.now ≤ 16 }
    requires some { IsSome (needed_of candidate.now senders.now) }
    ensures { result ≡ mark_or_need_of candidate.now (bound_in senders.now) senders.now given }
{
    match merged_bound(senders) {
        Some(bound) if bound > given => MergeStep::Item(Item::Mark(bound)),
        _ => MergeStep::Need {
            sender: needed(candidate, senders),
        },
    }
}

// Returns the next step of a merge. `given` is the bound of the flow given.
pub(crate) fn next_step(candidate: &Option<Head>, senders: &[Incoming], given: u64) -> MergeStep
    requires few { length senders.now ≤ 16 }
    requires candidate { candidate.now ≡ candidate_of senders.now }
    ensures { result ≡ step_in senders.now given }
{
    if any_broken(senders) {
        return MergeStep::Item(Item::Broken);
    }
    match candidate {
        Some(head) if all_clear(head, senders) => MergeStep::Item(Item::Packet(head.packet)),
        None if all_ended(senders) => MergeStep::Item(Item::End),
        _ => mark_or_need(candidate, senders, given),
    }
}

// Counts the candidate as given if `item` is a packet. Returns how many packets were given: 0 or 1.
pub(crate) fn pass(senders: &mut [Incoming], item: &Item, candidate: &Option<Head>) -> usize
    requires few { length senders.old ≤ 16 }
    requires candidate { candidate.now ≡ candidate_of senders.old }
    ensures senders { senders.new ≡ senders_after senders.old item.now }
    ensures left { result + left_of senders.new ≡ left_of senders.old }
{
    match (item, candidate) {
        (Item::Packet(_), Some(head)) => {
            let incoming = &mut senders[head.sender as usize - 1];
            incoming.pass();
            1
        }
        _ => 0,
    }
}
