// Prints the summary of a run.
ghost use Rattle.std.specs.Prelude.{◌≡◌, ◌≤◌, ◌++◌, length, IfOk, OnOk};
ghost use Rattle.command_report.specs.SummaryText.{last_line, number_line, summary_lines};

use crate::summary::{
    count_departed, count_dropped, count_inside, count_unsent, last_departure, sum_departed,
};
use nest_spec::FateRow;
use packet_record::Row;
use std::alloc::Global;
use text_base::{Bytes, OutOfMemory, write_decimal};

// The most bytes of a summary. It has seven lines, each of a name of at most nine bytes, a number of at most twenty
// digits, and a line feed.
const MOST_BYTES: usize = 256;

// Returns the text of the summary of rows and their fates, which stand in the same order.
pub(crate) fn print_summary(
    alloc: Global,
    rows: &[Row],
    fates: &[FateRow],
) -> Result<Bytes, OutOfMemory>
    requires same { length fates.now ≡ length rows.now }
    requires few { length rows.now ≤ 1000000 }
    ensures { IfOk result (λ text. text ≡ summary_lines rows.now fates.now) }
{
    let mut out = Bytes::with_capacity(alloc, MOST_BYTES)?;
    write_number(&mut out, b"packets ", rows.len() as u64)?;
    write_number(&mut out, b"departed ", count_departed(fates) as u64)?;
    write_number(&mut out, b"dropped ", count_dropped(fates) as u64)?;
    write_number(&mut out, b"inside ", count_inside(fates) as u64)?;
    write_number(&mut out, b"unsent ", count_unsent(fates) as u64)?;
    write_number(&mut out, b"bytes ", sum_departed(rows, fates))?;
    write_last(&mut out, last_departure(fates))?;
    Ok(out)
}

// Writes the line of a number.
fn write_number(out: &mut Bytes, name: &[u8], number: u64) -> Result<(), OutOfMemory>
    ensures { OnOk result (out.new ≡ out.old ++ number_line name.now number) }
{
    out.append(name)?;
    write_decimal(out, number)?;
    out.push(b'\n')
}

// Writes the line of the last departure.
fn write_last(out: &mut Bytes, last: Option<u64>) -> Result<(), OutOfMemory>
    ensures { OnOk result (out.new ≡ out.old ++ last_line last) }
{
    match last {
        Some(moment) => write_number(out, b"last ", moment),
        None => out.append(b"last none\n"),
    }
}
