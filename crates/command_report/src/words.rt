// The words of the stated nest.
ghost use Rattle.std.specs.Prelude.{◌≡◌, Ok, map, string_bytes, IfOk};
ghost use Rattle.nest_spec.specs.Words.{nest_of};
ghost use Rattle.command_report.specs.Made.{made_words};

use nest_spec::{NestError, NestWords, read_nest};
use std::alloc::{AllocError, Global};
use text_base::OutOfMemory;

// A delay, and a link with a queue of each kind that drops.
const WORDS: [&str; 9] = [
    "mm-delay",
    "20",
    "mm-link",
    "T",
    "T",
    "--uplink-queue=droptail",
    "--uplink-queue-args=packets=50",
    "--downlink-queue=drophead",
    "--downlink-queue-args=bytes=60000",
];

// Returns what the words say.
#[tactic(auto, using(crate::proofs::WordLemmas::no_refusal))]
pub(crate) fn read_words(alloc: Global) -> Result<NestWords, OutOfMemory>
    ensures { IfOk result (λ plan. nest_of made_words ≡ Ok plan) }
{
    let words = copy_words(alloc, &WORDS)?;
    match read_nest(alloc, words.as_slice()) {
        Ok(plan) => Ok(plan),
        Err(NestError::OutOfMemory) => Err(OutOfMemory),
        Err(_) => unreachable!(),
    }
}

// Returns a copy of the words.
fn copy_words(alloc: Global, words: &[&str]) -> Result<Vec<String>, AllocError>
    ensures { IfOk result (λ list. map string_bytes list.items ≡ map (λ word. word.now) words.now) }
{
    let mut list = Vec::with_capacity(alloc, words.len())?;
    for word in words {
        list.push(String::from_str(alloc, word)?)?;
    }
    Ok(list)
}
