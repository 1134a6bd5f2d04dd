// The generator of test loads.
ghost use Rattle.std.specs.Prelude.{◌≡◌, ℕ, ◌<◌};
ghost use Rattle.packet_record.specs.Draws.{draw_start, next_draw};

use std::marker::Model;

/// A linear congruential generator with the multiplier 75 and the increment 74 modulo 65537. Contracts see it as its
/// last draw. It is for test loads alone, and its draws are no good random numbers.
#[derive(Drop)]
pub struct Draws {
    last: u32,
}

impl Model for Draws {
    ghost Value = { ℕ };

    ghost view = { λ d. d.last };

    ghost invariant = { λ d. d.last < 65537 };
}

impl Draws {
    /// The draws of a number.
    pub fn new(number: u64) -> Self
        ensures { result ≡ draw_start number }
    {
        Draws {
            last: (number % 65536) as u32,
        }
    }

    /// Returns the next draw, which is below 65537.
    pub fn draw(&mut self) -> u32
        ensures value { result ≡ next_draw self.old }
        ensures after { self.new ≡ result }
        ensures below { result < 65537 }
    {
        self.last = (75 * self.last + 74) % 65537;
        self.last
    }
}
