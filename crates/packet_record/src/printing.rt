// How a schedule is written as text.
ghost use Rattle.std.specs.Prelude.{◌≡◌, IfOk};
ghost use Rattle.packet_record.specs.Printing.{row_text, schedule_text};
ghost use Rattle.packet_record.specs.Schedules.{IsScheduleText};

use crate::{Row, Schedule};
use std::alloc::Global;
use text_base::{Bytes, LineBuffer, OutOfMemory, PrintLine, print_lines};

/// The text of a schedule, or out of memory. Reading the text gives the schedule again.
pub fn print_schedule(alloc: Global, schedule: &Schedule) -> Result<Bytes, OutOfMemory>
    ensures text { IfOk result (λ text. text ≡ schedule_text schedule.now) }
    ensures read { IfOk result (λ text. IsScheduleText text schedule.now) }
{
    print_lines(alloc, b"", schedule.rows())
}

impl PrintLine for Row {
    ghost line = { row_text };

    #[tactic(auto, using(text_base::proofs::TextLemmas::is_ended_line))]
    fn put_line(&self, out: &mut LineBuffer) {
        out.put_byte(b'\n');
        out.put_decimal(u64::from(self.timed.packet.size));
        out.put(self.direction.between_spaces());
        out.put_decimal(self.timed.moment);
    }
}
