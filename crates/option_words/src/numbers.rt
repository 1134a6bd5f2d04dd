// The numbers that the values of options stand for.
ghost use Rattle.std.specs.Prelude.{◌≡◌, ◌≤◌, IfSome, option_map};
ghost use Rattle.option_words.specs.Numbers.{number_within, port_of, seed_of};

use text_base::read_decimal;

/// The number that a value stands for, a decimal from the least to the most. `None` if it is no decimal, or one
/// that isn't within these.
#[tactic(auto, unfolding(crate::specs::Numbers::number_within))]
pub fn read_within(text: &str, least: u64, most: u64) -> Option<u64>
    ensures number { result ≡ number_within least most text.now }
    ensures within { IfSome result (λ n. (least ≤ n) × (n ≤ most)) }
{
    let number = read_decimal(text.as_bytes())?;
    if least <= number && number <= most {
        return Some(number);
    }
    None
}

/// The port that a value stands for, from 1 to 65,535. `None` if it stands for none.
pub fn read_port(text: &str) -> Option<u16>
    ensures { result ≡ port_of text.now }
{
    match read_within(text, 1, 65_535) {
        Some(port) => Some(port as u16),
        None => None,
    }
}

/// The seed that a value stands for, a decimal, and 0 if no value is given. `None` if it is no decimal.
pub fn read_seed(text: Option<&str>) -> Option<u64>
    ensures { result ≡ seed_of (option_map (λ s. s.now) text.entry) }
{
    match text {
        Some(seed) => read_decimal(seed.as_bytes()),
        None => Some(0),
    }
}
