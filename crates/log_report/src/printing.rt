// Writes reports as text.
ghost use Rattle.std.specs.Prelude.{◌≡◌, ◌++◌, Some, IfOk, OnOk};
ghost use Rattle.log_report.specs.ReportText.{report_text, number_line, pair_line, used_line, delay_line};

use crate::{Delays, Report};
use std::alloc::Global;
use text_base::{Bytes, OutOfMemory, write_decimal};

/// What is printed in place of the report of a log without entries.
pub const EMPTY: &[u8] = b"empty\n";

// The most bytes of a report: eight names, at most sixteen numbers of at most twenty digits, and what is between them.
const MOST_BYTES: usize = 512;

/// Returns the text of a report, which has eight lines:
///
/// - `entries N`, and `span A B` with the moments of the first and the last entry;
/// - `arrived N B`, `offered N B`, `departed N B` and `dropped N B` with packets (or opportunities) and bytes;
/// - `used P` in thousandths, or `used none`;
/// - `delay M P X` with the median, the 95th percentile and the greatest in milliseconds, or `delay none`.
///
/// Returns `OutOfMemory` if an allocation fails.
pub fn print_report(alloc: Global, report: &Report) -> Result<Bytes, OutOfMemory>
    ensures { IfOk result (λ text. text ≡ report_text (Some report.now)) }
{
    let mut out = Bytes::with_capacity(alloc, MOST_BYTES)?;
    write_number(&mut out, b"entries ", report.entries)?;
    write_pair(&mut out, b"span ", (report.first, report.last))?;
    write_pair(&mut out, b"arrived ", report.arrived)?;
    write_pair(&mut out, b"offered ", report.offered)?;
    write_pair(&mut out, b"departed ", report.departed)?;
    write_pair(&mut out, b"dropped ", report.dropped)?;
    write_used(&mut out, report.used)?;
    write_delays(&mut out, report.delays)?;
    Ok(out)
}

// Writes a name and a number.
fn write_number(out: &mut Bytes, name: &[u8], number: u64) -> Result<(), OutOfMemory>
    ensures { OnOk result (out.new ≡ out.old ++ number_line name.now number) }
{
    out.append(name)?;
    write_decimal(out, number)?;
    out.push(b'\n')
}

// Writes a name and two numbers.
fn write_pair(out: &mut Bytes, name: &[u8], pair: (u64, u64)) -> Result<(), OutOfMemory>
    ensures { OnOk result (out.new ≡ out.old ++ pair_line name.now pair) }
{
    out.append(name)?;
    write_decimal(out, pair.0)?;
    out.push(b' ')?;
    write_decimal(out, pair.1)?;
    out.push(b'\n')
}

// Writes the share that was used.
fn write_used(out: &mut Bytes, used: Option<u64>) -> Result<(), OutOfMemory>
    ensures { OnOk result (out.new ≡ out.old ++ used_line used) }
{
    match used {
        Some(thousandths) => write_number(out, b"used ", thousandths),
        None => out.append(b"used none\n"),
    }
}

// Writes the delays.
fn write_delays(out: &mut Bytes, delays: Option<Delays>) -> Result<(), OutOfMemory>
    ensures { OnOk result (out.new ≡ out.old ++ delay_line delays) }
{
    let Some(delays) = delays else {
        return out.append(b"delay none\n");
    };
    out.append(b"delay ")?;
    write_decimal(out, delays.median)?;
    out.push(b' ')?;
    write_decimal(out, delays.p95)?;
    out.push(b' ')?;
    write_decimal(out, delays.most)?;
    out.push(b'\n')
}
