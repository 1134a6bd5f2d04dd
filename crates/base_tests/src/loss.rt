// Tests of rates, of the words of ChaCha20, and of what losses drop by words.
use crate::packets::are_same;
use loss_core::{ChaWords, ListWords, LossCore, Rate, RateError, Words, lose_all, read_rate};
use packet_record::{Packet, Timed};
use std::alloc::Global;
use text_base::OutOfMemory;

// Returns the rate that a text states, in billionths.
fn billionths(text: &str) -> Result<u32, RateError> {
    Ok(read_rate(text)?.billionths())
}

// Texts, and the rate in billionths that each states.
static RATES: [(&str, Result<u32, RateError>); 14] = [
    ("0", Ok(0)),
    ("0.5", Ok(500_000_000)),
    ("00.25", Ok(250_000_000)),
    (".000000001", Ok(1)),
    ("1.0", Ok(1_000_000_000)),
    ("1.000000001", Err(RateError::AboveOne)),
    ("9999999999.999999999", Err(RateError::AboveOne)),
    ("", Err(RateError::BadRate)),
    (".", Err(RateError::BadRate)),
    ("1.", Err(RateError::BadRate)),
    ("0.0000000001", Err(RateError::BadRate)),
    ("0.5.5", Err(RateError::BadRate)),
    ("00000000000", Err(RateError::BadRate)),
    ("0,5", Err(RateError::BadRate)),
];

#[test]
fn reads_rates(rt: HostRuntime) {
    for &(text, said) in &RATES {
        assert!(rt; billionths(text) == said, "at {text}");
    }
    assert!(rt; RateError::BadRate.number() == 1 && RateError::AboveOne.number() == 2);
}

// Returns the words at places 0, 1, 15 and 16 of a stream.
fn words_of(seed: u64, stream: u64) -> [u32; 4] {
    let mut source = ChaWords::new(seed, stream);
    let first = source.next();
    let second = source.next();
    for _ in 2..15 {
        source.next();
    }
    let third = source.next();
    let fourth = source.next();
    [first, second, third, fourth]
}

// Seeds, streams, and their words at places 0, 1, 15 and 16, which another program made.
static WORDS: [(u64, u64, [u32; 4]); 4] = [
    (0, 0, [2917185654, 2419978656, 2254827186, 3202811807]),
    (0, 2, [3082405328, 1919952964, 470977951, 2139353036]),
    (1, 3, [4090127660, 4061355942, 2467370632, 3397459614]),
    (
        u64::MAX,
        17,
        [4190517457, 3622945272, 3013610732, 1934270891],
    ),
];

#[test]
fn draws_the_words_of_chacha(rt: HostRuntime) {
    for (seed, stream, words) in &WORDS {
        assert!(rt; words_of(*seed, *stream) == *words, "seed {seed}");
    }
}

// A packet at a moment.
macro_rules! packet {
    ($moment:expr) => {
        Timed {
            moment: $moment,
            packet: Packet { id: 1, size: 60 },
        }
    };
}

const ARRIVED: [Timed; 3] = [packet!(4), packet!(5), packet!(6)];

const DEPARTED: [Timed; 1] = [packet!(5)];

const LOST: [Timed; 2] = [packet!(4), packet!(6)];

// Returns a word below one half of 2^32, one of exactly one half, and then 0 at every place.
fn two_words(alloc: Global) -> Result<ListWords, OutOfMemory> {
    Ok(ListWords::new(vec![in alloc; 2147483647, 2147483648]?))
}

// Returns a loss at which the packets have arrived.
fn loss_after(
    alloc: Global,
    rate: Rate,
    packets: &[Timed],
) -> Result<LossCore<ListWords>, OutOfMemory> {
    let mut core = LossCore::new(alloc, rate, two_words(alloc)?);
    for t in packets {
        core.arrive(*t)?;
    }
    Ok(core)
}

// Returns whether the first and the last of the packets were lost.
fn lost_two(core: &LossCore<ListWords>) -> bool {
    are_same(core.arrivals(), &ARRIVED)
        && are_same(core.departed(), &DEPARTED)
        && are_same(core.lost(), &LOST)
}

#[test]
fn drops_by_words(rt: HostRuntime) {
    let half = read_rate("0.5").expect(&rt, "a rate");
    let core = loss_after(rt.alloc(), half, &ARRIVED).expect(&rt, "memory");
    assert!(rt; lost_two(&core));
}

// Returns whether the first and the last of the packets are lost where the loss runs over the whole list.
fn loses_two(alloc: Global, rate: Rate) -> Result<bool, OutOfMemory> {
    let mut packets = ARRIVED.to_vec(alloc)?;
    let lost = lose_all(alloc, rate, two_words(alloc)?, &mut packets)?;
    Ok(are_same(packets.as_slice(), &DEPARTED) && are_same(lost.as_slice(), &LOST))
}

#[test]
fn drops_a_whole_list_by_words(rt: HostRuntime) {
    let half = read_rate("0.5").expect(&rt, "a rate");
    assert!(rt; loses_two(rt.alloc(), half).expect(&rt, "memory"));
}
