// Writes series as text.
ghost use Rattle.std.specs.Prelude.{◌≡◌, ◌<◌, ◌++◌, OnOk};
ghost use Rattle.log_report.specs.SeriesText.{bin_line, cell, delay_cells, moment_cells, rate_cell, sum_cells};
ghost use Rattle.log_report.specs.SeriesText.{thousandths_text, three_digits};

use crate::{Bin, Delays};
use text_base::{Bytes, OutOfMemory, write_decimal};

/// The first line of a series, which names the cells of the others.
pub const SERIES_HEADER: &[u8] =
    b"from_ms,to_ms,offered_bytes,arrived_bytes,departed_bytes,dropped_packets,mbit_per_s,delay_p50_ms,delay_p95_ms\n";

/// Writes the line of a bin: its moments, its sums, its rate with three decimals, and the median and the 95th
/// percentile of its delays, which are empty if nothing departed. Returns `OutOfMemory` if an allocation fails.
pub fn print_bin(out: &mut Bytes, bin: &Bin) -> Result<(), OutOfMemory>
    ensures { OnOk result (out.new ≡ out.old ++ bin_line bin.now) }
{
    write_moments(out, bin)?;
    write_sums(out, bin)?;
    write_rate(out, bin)?;
    write_delays(out, bin.delays)
}

// Writes the cells of a bin's moments.
fn write_moments(out: &mut Bytes, bin: &Bin) -> Result<(), OutOfMemory>
    ensures { OnOk result (out.new ≡ out.old ++ moment_cells bin.now) }
{
    write_cell(out, bin.from)?;
    write_cell(out, bin.to)
}

// Writes the cells of a bin's sums.
fn write_sums(out: &mut Bytes, bin: &Bin) -> Result<(), OutOfMemory>
    ensures { OnOk result (out.new ≡ out.old ++ sum_cells bin.now) }
{
    write_cell(out, bin.offered)?;
    write_cell(out, bin.arrived)?;
    write_cell(out, bin.departed)?;
    write_cell(out, bin.dropped)
}

// Writes the cell of a bin's rate.
fn write_rate(out: &mut Bytes, bin: &Bin) -> Result<(), OutOfMemory>
    ensures { OnOk result (out.new ≡ out.old ++ rate_cell bin.now) }
{
    write_thousandths(out, bin.rate)?;
    out.push(b',')
}

// Writes a number and a comma.
fn write_cell(out: &mut Bytes, number: u64) -> Result<(), OutOfMemory>
    ensures { OnOk result (out.new ≡ out.old ++ cell number) }
{
    write_decimal(out, number)?;
    out.push(b',')
}

// Writes thousandths with three decimals.
fn write_thousandths(out: &mut Bytes, thousandths: u64) -> Result<(), OutOfMemory>
    ensures { OnOk result (out.new ≡ out.old ++ thousandths_text thousandths) }
{
    write_decimal(out, thousandths / 1000)?;
    out.push(b'.')?;
    write_three_digits(out, thousandths % 1000)
}

// Writes a number below 1000 in three digits.
fn write_three_digits(out: &mut Bytes, number: u64) -> Result<(), OutOfMemory>
    requires { number < 1000 }
    ensures { OnOk result (out.new ≡ out.old ++ three_digits number) }
{
    out.push(b'0' + (number / 100) as u8)?;
    out.push(b'0' + (number / 10 % 10) as u8)?;
    out.push(b'0' + (number % 10) as u8)
}

// Writes the last two cells, and ends the line.
fn write_delays(out: &mut Bytes, delays: Option<Delays>) -> Result<(), OutOfMemory>
    ensures { OnOk result (out.new ≡ out.old ++ delay_cells delays) }
{
    let Some(delays) = delays else {
        return out.append(b",\n");
    };
    write_cell(out, delays.median)?;
    write_decimal(out, delays.p95)?;
    out.push(b'\n')
}
