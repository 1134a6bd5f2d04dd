// A number whose digits are kept for the next time that it is put.
ghost use Rattle.std.specs.Prelude.{◌≡◌, ◌<◌, ◌≤◌, drop, decimal};

use itoa::write_digits;

// How many digits are kept at most.
const MOST_DIGITS: usize = 8;

// The least number that has more digits.
pub(crate) const LEAST_LONGER: u64 = 100_000_000;

// A number of at most eight digits, which stand at the end of `bytes`, from `start` on.
#[derive(Clone, Copy)]
pub(crate) struct KeptDigits {
    pub(crate) number: u64,
    pub(crate) bytes: [u8; MOST_DIGITS],
    pub(crate) start: usize,
    pub(crate) ghost digits: { drop start bytes ≡ decimal number },
    pub(crate) ghost within: { start ≤ 8 },
}

impl KeptDigits {
    // The digits of `number`, made anew.
    pub(crate) fn new(number: u64) -> Self
        requires { number < LEAST_LONGER }
        ensures { result.number ≡ number }
    {
        let mut bytes = [0; MOST_DIGITS];
        let start = write_digits(number, &mut bytes, MOST_DIGITS);
        KeptDigits {
            number,
            bytes,
            start,
        }
    }

    // The digits of `number`, made anew only where those that are kept are another number's.
    #[inline(always)]
    pub(crate) fn renewed(self, number: u64) -> Self
        requires { number < LEAST_LONGER }
        ensures { result.number ≡ number }
    {
        if number == self.number {
            self
        } else {
            KeptDigits::new(number)
        }
    }
}
