// Why a streamed run gives no result.
ghost use Rattle.std.specs.Prelude.{◌≡◌};
ghost use Rattle.nest_runner.specs.declared.stream_error.StreamError.TheVariants as errors;

use mm_base::{DiskError, LoadError};
use packet_record::ScheduleError;
use text_base::OutOfMemory;

/// Why a run whose schedule is read meanwhile gives no result.
#[derive(Clone, Copy, Debug, PartialEq, Eq)]
pub enum StreamError {
    /// The disk has no file of the schedule's name.
    Absent,
    /// A call of the disk failed, and was counted as a fault of reading.
    Failed,
    /// Out of memory, in any thread.
    OutOfMemory,
    /// The file has `size` bytes, more than are read.
    TooLong { size: u64 },
    /// The first refusal of the schedule's text. It is never `ScheduleError::OutOfMemory`.
    Schedule(ScheduleError),
}

impl From<OutOfMemory> for StreamError {
    ghost from_gives = { λ _ e. e ≡ errors.OutOfMemory };

    fn from(_: OutOfMemory) -> Self {
        StreamError::OutOfMemory
    }
}

impl From<DiskError> for StreamError {
    ghost use Rattle.nest_runner.specs.Streaming.{of_disk};

    ghost from_gives = { λ d e. e ≡ of_disk d };

    fn from(error: DiskError) -> Self {
        match error {
            DiskError::Absent => StreamError::Absent,
            DiskError::Failed => StreamError::Failed,
            DiskError::OutOfMemory => StreamError::OutOfMemory,
        }
    }
}

impl From<LoadError> for StreamError {
    ghost use Rattle.nest_runner.specs.Streaming.{of_load};

    ghost from_gives = { λ l e. e ≡ of_load l };

    fn from(error: LoadError) -> Self {
        match error {
            LoadError::Absent => StreamError::Absent,
            LoadError::Failed => StreamError::Failed,
            LoadError::OutOfMemory => StreamError::OutOfMemory,
            LoadError::TooLong { size } => StreamError::TooLong { size },
        }
    }
}

impl From<ScheduleError> for StreamError {
    ghost use Rattle.nest_runner.specs.Streaming.{of_schedule};

    ghost from_gives = { λ s e. e ≡ of_schedule s };

    fn from(error: ScheduleError) -> Self {
        match error {
            ScheduleError::OutOfMemory => StreamError::OutOfMemory,
            _ => StreamError::Schedule(error),
        }
    }
}
