// Writes reports as JSON objects.
ghost use Rattle.std.specs.Prelude.{◌≡◌, ◌++◌, Some, IfOk, OnOk, codes};
ghost use Rattle.log_report.specs.ReportJson.{report_json, number_member, pair_member, used_member, delay_member};

use crate::{Delays, Report};
use std::alloc::Global;
use text_base::{Bytes, OutOfMemory, write_decimal};

// The object of a log without entries.
const EMPTY_OBJECT: &[u8] =
    b"{\n  \"entries\": 0,\n  \"span\": null,\n  \"arrived\": {\"packets\": 0, \"bytes\": 0},\n  \"offered\": {\"opportunities\": 0, \"bytes\": 0},\n  \"departed\": {\"packets\": 0, \"bytes\": 0},\n  \"dropped\": {\"packets\": 0, \"bytes\": 0},\n  \"used\": null,\n  \"delay\": null\n}\n";

// The most bytes of a report: nine lines of names, and at most sixteen numbers of at most twenty digits.
const MOST_BYTES: usize = 768;

/// Returns the report of a log as a JSON object, or that of a log without entries if there is no report.
///
/// The members are named as the lines of `print_report`. Their numbers are named too, and what a log doesn't have is
/// `null`. Returns `OutOfMemory` if an allocation fails.
pub fn print_json(alloc: Global, report: &Option<Report>) -> Result<Bytes, OutOfMemory>
    ensures { IfOk result (λ text. text ≡ report_json report.now) }
{
    match report {
        Some(report) => print_object(alloc, report),
        None => Bytes::from_slice(alloc, EMPTY_OBJECT),
    }
}

// Returns the object of a report.
fn print_object(alloc: Global, report: &Report) -> Result<Bytes, OutOfMemory>
    ensures { IfOk result (λ text. text ≡ report_json (Some report.now)) }
{
    let mut out = Bytes::with_capacity(alloc, MOST_BYTES)?;
    write_number(&mut out, b"{\n  \"entries\": ", report.entries)?;
    write_pair(
        &mut out,
        b"  \"span\": {\"first\": ",
        report.first,
        b", \"last\": ",
        report.last,
    )?;
    write_sum(&mut out, b"  \"arrived\": {\"packets\": ", report.arrived)?;
    write_sum(
        &mut out,
        b"  \"offered\": {\"opportunities\": ",
        report.offered,
    )?;
    write_sum(&mut out, b"  \"departed\": {\"packets\": ", report.departed)?;
    write_sum(&mut out, b"  \"dropped\": {\"packets\": ", report.dropped)?;
    write_used(&mut out, report.used)?;
    write_delays(&mut out, report.delays)?;
    Ok(out)
}

// Writes the line of a member that has a number.
fn write_number(out: &mut Bytes, opening: &[u8], number: u64) -> Result<(), OutOfMemory>
    ensures { OnOk result (out.new ≡ out.old ++ number_member opening.now number) }
{
    out.append(opening)?;
    write_decimal(out, number)?;
    out.append(b",\n")
}

// Writes the line of a member that is an object with two numbers.
fn write_pair(
    out: &mut Bytes,
    opening: &[u8],
    first: u64,
    middle: &[u8],
    second: u64,
) -> Result<(), OutOfMemory>
    ensures { OnOk result (out.new ≡ out.old ++ pair_member opening.now first middle.now second) }
{
    out.append(opening)?;
    write_decimal(out, first)?;
    out.append(middle)?;
    write_decimal(out, second)?;
    out.append(b"},\n")
}

// Writes the line of a count and its bytes.
fn write_sum(out: &mut Bytes, opening: &[u8], sum: (u64, u64)) -> Result<(), OutOfMemory>
    ensures { OnOk result (out.new ≡ out.old ++ pair_member opening.now sum.0 (codes ", \"bytes\": ") sum.1) }
{
    write_pair(out, opening, sum.0, b", \"bytes\": ", sum.1)
}

// Writes the line of the share that was used.
fn write_used(out: &mut Bytes, used: Option<u64>) -> Result<(), OutOfMemory>
    ensures { OnOk result (out.new ≡ out.old ++ used_member used) }
{
    match used {
        Some(thousandths) => write_number(out, b"  \"used\": ", thousandths),
        None => out.append(b"  \"used\": null,\n"),
    }
}

// Writes the line of the delays, and the end of the object.
fn write_delays(out: &mut Bytes, delays: Option<Delays>) -> Result<(), OutOfMemory>
    ensures { OnOk result (out.new ≡ out.old ++ delay_member delays) }
{
    let Some(delays) = delays else {
        return out.append(b"  \"delay\": null\n}\n");
    };
    out.append(b"  \"delay\": {\"median\": ")?;
    write_decimal(out, delays.median)?;
    out.append(b", \"p95\": ")?;
    write_decimal(out, delays.p95)?;
    out.append(b", \"max\": ")?;
    write_decimal(out, delays.most)?;
    out.append(b"}\n}\n")
}
