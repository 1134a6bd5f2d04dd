// The lines of a table of packets, as comma-separated values.
ghost use Rattle.std.specs.Prelude.{◌≡◌, ◌+◌, ◌≤◌, ◌++◌, ◌∷◌, decimal, length};
ghost use Rattle.packet_record.specs.declared.packet.Row.{Row as RowValue};
ghost use Rattle.nest_spec.specs.declared.table_text.TableEntry.{TableEntry as EntryValue};
ghost use Rattle.nest_spec.specs.TableText.{direction_cell, fate_cells, run_entry, table_line, table_lines};

use crate::{Fate, FateRow, PackedFate};
use packet_record::{Direction, PackedRow, Row, Timed};
use text_base::LineBuffer;

/// The first line of a table, with its line feed.
pub const TABLE_HEADER: &[u8] =
    b"packet,sender,direction,sent_ms,size_bytes,fate,shell,moment_ms,delay_ms\n";

/// How many lines of a table are made at once.
pub const TABLE_LINES: usize = 1024;

/// A packet in a table.
#[derive(Clone, Copy, PartialEq, Eq)]
pub struct TableEntry {
    /// Its number, as the fates number it.
    pub packet: u32,
    /// The number of its sender.
    pub sender: u32,
    /// The direction in which it goes.
    pub direction: Direction,
    /// What became of it.
    pub fate: Fate,
}

/// A row of a schedule, in any form.
pub trait TableRow {
    /// The row.
    ghost row_of: { Self → RowValue };

    /// Returns the row.
    fn table_row(&self) -> Row
        ensures { result ≡ row_of self.now };
}

/// The fate of a packet, in any form, which tells the packet of a table.
pub trait TableFate {
    /// The packet.
    ghost entry_of: { Self → EntryValue };

    /// Returns the packet.
    fn table_entry(&self) -> TableEntry
        ensures { result ≡ entry_of self.now };
}

impl TableRow for Row {
    ghost row_of = { λ row. row };

    #[inline(always)]
    fn table_row(&self) -> Row {
        *self
    }
}

impl TableRow for PackedRow {
    ghost row_of = { λ row. row };

    #[inline(always)]
    fn table_row(&self) -> Row {
        self.row()
    }
}

impl TableFate for FateRow {
    ghost entry_of = { run_entry };

    #[inline(always)]
    fn table_entry(&self) -> TableEntry {
        TableEntry {
            packet: self.id,
            sender: 1,
            direction: self.direction,
            fate: self.fate,
        }
    }
}

impl TableFate for PackedFate {
    ghost entry_of = { run_entry };

    #[inline(always)]
    fn table_entry(&self) -> TableEntry {
        self.row().table_entry()
    }
}

/// Makes the buffer hold a line of a table for each row and its fate, of which there are at most 1024.
pub fn put_table<P: TableRow, F: TableFate>(lines: &mut LineBuffer, rows: &[P], fates: &[F])
    requires few { length rows.now ≤ 1024 }
    requires same { length fates.now ≡ length rows.now }
    ensures { lines.new ≡ table_lines P.row_of F.entry_of rows.now fates.now }
{
    lines.clear();
    let mut left = rows.len();
    'lines: while left > 0 {
        left -= 1;
        let row = rows[left].table_row();
        let entry = fates[left].table_entry();
        put_line(lines, row, entry);
    }
}

// Puts the line of a packet, at most 144 bytes, in front of `out`.
#[inline(always)]
fn put_line(out: &mut LineBuffer, row: Row, entry: TableEntry)
    requires { length out.old + 144 ≤ 147456 }
    ensures bytes { out.new ≡ table_line row entry ++ out.old }
    ensures length { length out.new ≤ length out.old + 144 }
{
    put_fate_cells(out, row.timed.moment, entry.fate);
    put_sent(out, row.timed);
    put_name(out, entry);
}

// Puts the first three cells of a packet, at most 48 bytes, in front of `out`: its number, its sender's, and its
// direction, with a comma behind.
#[inline(always)]
fn put_name(out: &mut LineBuffer, entry: TableEntry)
    requires { length out.old + 48 ≤ 147456 }
    ensures bytes { out.new ≡ decimal entry.packet ++ 44 ∷ (decimal entry.sender ++ (direction_cell entry.direction
        ++ out.old)) }
    ensures length { length out.new ≤ length out.old + 47 }
{
    out.put(cell_of(entry.direction));
    out.put_decimal(u64::from(entry.sender));
    out.put_byte(b',');
    out.put_decimal(u64::from(entry.packet));
}

// Puts the next two cells, at most 41 bytes, in front of `out`: when the packet was sent, and its size.
#[inline(always)]
fn put_sent(out: &mut LineBuffer, sent: Timed)
    requires { length out.old + 41 ≤ 147456 }
    ensures bytes { out.new ≡ decimal sent.moment ++ 44 ∷ (decimal sent.packet.size ++ out.old) }
    ensures length { length out.new ≤ length out.old + 41 }
{
    out.put_decimal(u64::from(sent.packet.size));
    out.put_byte(b',');
    out.put_moment(sent.moment);
}

// Returns the cell of a direction between two commas, at most 6 bytes.
#[inline(always)]
fn cell_of(direction: Direction) -> &'static [u8]
    ensures text { result.now ≡ direction_cell direction }
    ensures length { length result.now ≤ 6 }
{
    match direction {
        Direction::Up => b",up,",
        Direction::Down => b",down,",
    }
}

// Puts the last four cells of a packet that was sent at `sent`, at most 54 bytes, in front of `out`.
#[inline(always)]
fn put_fate_cells(out: &mut LineBuffer, sent: u64, fate: Fate)
    requires { length out.old + 54 ≤ 147456 }
    ensures bytes { out.new ≡ fate_cells sent fate ++ out.old }
    ensures length { length out.new ≤ length out.old + 54 }
{
    match fate {
        Fate::Departed { moment } => {
            out.put_byte(b'\n');
            out.put_decimal(moment.saturating_sub(sent));
            out.put_byte(b',');
            out.put_decimal(moment);
            out.put(b",departed,,");
        }
        Fate::Dropped { shell, moment } => {
            out.put(b",\n");
            out.put_decimal(moment);
            out.put_byte(b',');
            out.put_decimal(u64::from(shell));
            out.put(b",dropped,");
        }
        Fate::Inside { shell } => {
            out.put(b",,\n");
            out.put_decimal(u64::from(shell));
            out.put(b",inside,");
        }
        Fate::Unsent => out.put(b",unsent,,,\n"),
    }
}
