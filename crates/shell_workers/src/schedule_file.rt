// The file of a schedule, as it is read piece by piece.
ghost use Rattle.std.specs.Prelude.{◌≡◌, ◌<◌, IfOk};
ghost use Rattle.shell_workers.specs.inside.Reading.{HasReadPiece, IsReading};
ghost use Rattle.shell_workers.specs.Reading.{ReadsFile};

use mm_base::{Disk, DiskError, FilePlace, read_piece};
use packet_record::ScheduleParser;
use text_base::PieceReader;

/// A schedule's file that is read piece by piece: how far it was read, and what its text has given.
#[derive(Drop)]
pub struct ScheduleFile<'a> {
    /// How far it was read.
    pub place: FilePlace<'a>,
    /// Room for a piece.
    pub piece: Vec<u8>,
    /// What its text has given.
    pub text: ScheduleParser,
}

impl<'a> ScheduleFile<'a> {
    // Reads the next piece, and adds the lines that end in it. Returns how many bytes it has.
    pub(crate) fn read_on<D: Disk>(&mut self, disk: &mut D) -> Result<u64, DiskError>
        requires reading { IsReading self.old × (self.old.place.at < self.old.place.size) }
        ensures piece { IfOk result (λ read. HasReadPiece (D.view disk.old).files read self.old self.new) }
        ensures reads { ReadsFile (D.view disk.old) (D.view disk.new) self.old.place.name.now result }
    {
        let read = read_piece(disk, &self.place, self.piece.as_mut_slice())?;
        self.text.push(&self.piece[..read]);
        self.place.at += read as u64;
        Ok(read as u64)
    }

    // Reads the rest of the file, and looks at no byte.
    pub(crate) fn skip<D: Disk>(&mut self, disk: &mut D) -> Result<(), DiskError>
        requires reading { IsReading self.old }
        ensures text { self.new.text ≡ self.old.text }
        ensures reads { ReadsFile (D.view disk.old) (D.view disk.new) self.old.place.name.now result }
    {
        'pieces: while self.place.at < self.place.size {
            let read = read_piece(disk, &self.place, self.piece.as_mut_slice())?;
            if read == 0 {
                break;
            }
            self.place.at += read as u64;
        }
        Ok(())
    }
}
