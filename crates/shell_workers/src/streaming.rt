// The source whose schedule is read from a file while its packets pass the nest.
ghost use Rattle.std.specs.Prelude.{◌≡◌, ◌≢◌, ◌≤◌, ◌<◌, ℕ, List, None, IfOk, OnErr, OnOk};
ghost use Rattle.mm_base.specs.Pieces.{HasSize};
ghost use Rattle.packet_record.specs.declared.item.FlowEnd.TheVariants.{Open, Broken as IsCut};
ghost use Rattle.packet_record.specs.PartsRead.{HasRead, HasReadAll};
ghost use Rattle.mark_channel.specs.Boths.{BothKeep, ByDirection, OfBoth};
ghost use Rattle.mark_channel.specs.Ends.{IsSameEnd};
ghost use Rattle.shell_workers.specs.inside.Reading.{HasReadFront, HasReadPiece, HasReadWhole, IsReading};
ghost use Rattle.shell_workers.specs.inside.Sent.{HaveSent};
ghost use Rattle.shell_workers.specs.Reading.{IsUnread, ReadsFile};
ghost use Rattle.shell_workers.specs.Sending.{AreAt, IsUnsent};
ghost use Rattle.shell_workers.specs.StreamParts.{AllSent, IsStreamed};

use crate::schedule_file::ScheduleFile;
use crate::sourcing::{Progress, end_both, send_rows};
use mark_channel::{Run, Sender};
use mm_base::{Disk, DiskError, Pace};
use packet_record::{Both, Item, ScheduleParser};
use std::sync::Wait;

// Breaks the stream off in both directions.
fn cut_both<R: Wait>(rt: &R, heads: &mut Both<Sender>)
    requires open { OfBoth (λ head. head.flow.end ≡ Open) heads.old }
    ensures broken { OfBoth (λ head. head.flow.end ≡ IsCut) heads.new }
    ensures same { BothKeep IsSameEnd heads.old heads.new }
{
    heads.up.send(rt, Item::Broken);
    heads.down.send(rt, Item::Broken);
}

// Reads the next piece of the file, and sends the rows of the lines that end in it. Returns how many bytes the piece
// has, and how far the source has come then.
fn stream_piece<D: Disk, Q: Pace, R: Wait>(
    run: &Run<'_, Q, R>,
    disk: &mut D,
    file: &mut ScheduleFile<'_>,
    horizon: u64,
    sent: Progress,
    heads: &mut Both<Sender>,
) -> Result<(u64, Progress), DiskError>
    requires reading { IsReading file.old × (file.old.place.at < file.old.place.size) }
    requires at { AreAt horizon sent heads.old }
    requires sent { HaveSent horizon file.old.text.gathered.rows sent heads.old }
    ensures piece { IfOk result (λ r. HasReadPiece (D.view disk.old).files r.0 file.old file.new) }
    ensures at { IfOk result (λ r. AreAt horizon r.1 heads.new) }
    ensures sent { IfOk result (λ r. HaveSent horizon file.new.text.gathered.rows r.1 heads.new) }
    ensures open { OfBoth (λ head. head.flow.end ≡ Open) heads.new }
    ensures same { BothKeep IsSameEnd heads.old heads.new }
    ensures reads { ReadsFile (D.view disk.old) (D.view disk.new) file.old.place.name.now result }
{
    let done = file.text.rows().len();
    let read = file.read_on(disk)?;
    let rows = file.text.rows();
    let sent = send_rows(run, &rows[done..], horizon, sent, heads);
    Ok((read, sent))
}

// Reads the file and sends its rows, until a line is refused or the file ends. Returns how far the source has come.
fn stream_pieces<D: Disk, Q: Pace, R: Wait>(
    run: &Run<'_, Q, R>,
    disk: &mut D,
    file: &mut ScheduleFile<'_>,
    horizon: u64,
    heads: &mut Both<Sender>,
) -> Result<Progress, DiskError>
    requires few { file.old.place.size ≤ 67108864 }
    requires unread { IsUnread file.old }
    requires unsent { OfBoth (IsUnsent horizon) heads.old }
    ensures front { OnOk result (HasReadFront (D.view disk.old).files file.old file.new) }
    ensures whole { OnOk result (file.new.text.gathered.refused ≡ None
        → HasReadWhole (D.view disk.old).files file.old file.new) }
    ensures at { IfOk result (λ sent. AreAt horizon sent heads.new) }
    ensures sent { IfOk result (λ sent. HaveSent horizon file.new.text.gathered.rows sent heads.new) }
    ensures open { OfBoth (λ head. head.flow.end ≡ Open) heads.new }
    ensures same { BothKeep IsSameEnd heads.old heads.new }
    ensures reads { ReadsFile (D.view disk.old) (D.view disk.new) file.old.place.name.now result }
{
    let mut sent = Progress::new();
    'pieces: while file.place.at < file.place.size && !file.text.is_refused() {
        let (read, now) = stream_piece(run, disk, file, horizon, sent, heads)?;
        sent = now;
        if read == 0 {
            break;
        }
    }
    Ok(sent)
}

// Sends the row of a last line without a line feed, and then the end. If a line is refused, breaks the stream off
// instead.
fn end_stream<Q: Pace, R: Wait>(
    run: &Run<'_, Q, R>,
    text: &mut ScheduleParser,
    horizon: u64,
    sent: Progress,
    heads: &mut Both<Sender>,
)
    requires at { AreAt horizon sent heads.old }
    requires sent { HaveSent horizon text.old.gathered.rows sent heads.old }
    ensures all { (bytes : List ℕ) → HasRead bytes text.old → HasReadAll bytes text.new }
    ensures sent { text.new.gathered.refused ≡ None
        → ByDirection (λ d head. AllSent d horizon text.new.gathered.rows head) heads.new }
    ensures broken { text.new.gathered.refused ≢ None → OfBoth (λ head. head.flow.end ≡ IsCut) heads.new }
    ensures over { OfBoth (λ head. head.flow.end ≢ Open) heads.new }
    ensures same { BothKeep IsSameEnd heads.old heads.new }
{
    let done = text.rows().len();
    text.end();
    let rows = text.rows();
    send_rows(run, &rows[done..], horizon, sent, heads);
    if text.is_refused() {
        cut_both(run.rt, heads);
    } else {
        end_both(run.rt, heads);
    }
}

/// Reads a schedule in pieces, once all other workers have begun. Sends what each row gives in both directions as soon
/// as its line is read, and then the end.
///
/// Breaks the stream off in both directions if a line is refused, memory for the rows runs out, or the disk fails. A
/// refused file is still read to its end, and a fault met there is returned. Returns the errors of `Disk::read_at`. If
/// the other workers can't begin, it breaks both directions off, reads nothing and returns `OutOfMemory`.
pub fn stream_source<D: Disk, Q: Pace, R: Wait>(
    run: &Run<'_, Q, R>,
    disk: &mut D,
    file: &mut ScheduleFile<'_>,
    horizon: u64,
    heads: &mut Both<Sender>,
) -> Result<(), DiskError>
    requires size { HasSize (D.view disk.old).files file.old.place.name.now file.old.place.size }
    requires unread { IsUnread file.old }
    requires unsent { OfBoth (IsUnsent horizon) heads.old }
    ensures text { OnOk result (IsStreamed (D.view disk.old).files file.old.place.name.now file.new.text) }
    ensures sent { OnOk result (file.new.text.gathered.refused ≡ None
        → ByDirection (λ d head. AllSent d horizon file.new.text.gathered.rows head) heads.new) }
    ensures broken { OnOk result (file.new.text.gathered.refused ≢ None
        → OfBoth (λ head. head.flow.end ≡ IsCut) heads.new) }
    ensures failed { OnErr result (OfBoth (λ head. head.flow.end ≡ IsCut) heads.new) }
    ensures over { OfBoth (λ head. head.flow.end ≢ Open) heads.new }
    ensures same { BothKeep IsSameEnd heads.old heads.new }
    ensures reads { ReadsFile (D.view disk.old) (D.view disk.new) file.old.place.name.now result }
{
    run.begun.wait(run.rt, &mut heads.up, &mut heads.down)?;
    let sent = match stream_pieces(run, disk, file, horizon, heads) {
        Ok(sent) => sent,
        Err(error) => {
            cut_both(run.rt, heads);
            return Err(error);
        }
    };
    if file.text.is_refused() {
        cut_both(run.rt, heads);
        return file.skip(disk);
    }
    end_stream(run, &mut file.text, horizon, sent, heads);
    Ok(())
}
