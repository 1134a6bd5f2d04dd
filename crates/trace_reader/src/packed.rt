// A delivery opportunity in one number.
ghost use Rattle.std.specs.Prelude.{◌≡◌, ◌≤◌, ◌%◌};

use crate::Opportunity;
use std::marker::Model;
use text_base::limits::GREATEST_MOMENT;

// The bytes of an opportunity are below this.
const BYTES_END: u64 = 1_048_576;

// An opportunity in 8 bytes: its moment times 1048576, which is 2 to the 20th, and its bytes. Contracts see the
// opportunity.
#[derive(Drop)]
pub(crate) struct PackedOpportunity {
    number: u64,
    ghost some: { 1 ≤ number % 1048576 },
    ghost most: { number % 1048576 ≤ 1000000 },
}

impl Model for PackedOpportunity {
    ghost use Rattle.std.specs.Prelude.{◌/◌, ◌%◌};
    ghost use Rattle.trace_reader.specs.declared.opportunity.Opportunity.{Opportunity};

    ghost Value = { Opportunity };

    ghost view = { λ p. record {
      moment = p.number / 1048576;
      bytes = p.number % 1048576;
      some = p.some;
      most = p.most;
    } };
}

impl PackedOpportunity {
    pub(crate) fn new(o: Opportunity) -> Self
        requires { o.moment ≤ GREATEST_MOMENT }
        ensures { result ≡ o }
    {
        PackedOpportunity {
            number: o.moment * BYTES_END + u64::from(o.bytes),
        }
    }

    pub(crate) fn moment(&self) -> u64
        ensures { result ≡ self.now.moment }
    {
        self.number / BYTES_END
    }

    pub(crate) fn opportunity(&self) -> Opportunity
        ensures { result ≡ self.now }
    {
        Opportunity {
            moment: self.number / BYTES_END,
            bytes: (self.number % BYTES_END) as u32,
        }
    }
}
