// What a delay does with one packet.
ghost use Rattle.std.specs.Prelude.{◌≡◌, ◌≤◌, ◌+◌, nat_le};
ghost use Rattle.text_base.specs.declared.limits.TheConstants.{HOUR};
ghost use Rattle.delay_core.specs.Delays.{later};

use packet_record::Timed;
use text_base::limits::HOUR;

// A delay of `delay` milliseconds, in a run up to the horizon `until`.
#[derive(Clone, Copy)]
pub(crate) struct Rule {
    pub(crate) delay: u64,
    pub(crate) until: u64,
    pub(crate) ghost short: { delay ≤ HOUR },
    pub(crate) ghost near: { until ≤ HOUR },
}

impl Rule {
    // Whether the packet departs up to the horizon. Else it stays inside.
    pub(crate) fn lets_out(self, t: &Timed) -> bool
        ensures { result ≡ nat_le (t.now.moment + self.delay) self.until }
    {
        t.moment.saturating_add(self.delay) <= self.until
    }

    // The packet as it departs.
    pub(crate) fn departure(self, t: Timed) -> Timed
        requires { t.moment ≤ HOUR }
        ensures { result ≡ later self.delay t }
    {
        Timed {
            moment: t.moment + self.delay,
            packet: t.packet,
        }
    }
}
