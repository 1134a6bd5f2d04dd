// The limits that several crates share.

/// The longest delay and the latest horizon of a run, in milliseconds: an hour.
pub const HOUR: u64 = 3_600_000;

/// The greatest moment that a text can name, in milliseconds: ten digits.
pub const GREATEST_MOMENT: u64 = 9_999_999_999;

/// How many opportunities the links of a nest have at most, up to its horizon.
pub const MOST_OPPORTUNITIES: u64 = 16_000_000;

/// How many lines a schedule or a trace has at most.
pub const MOST_LINES: u32 = 1_000_000;

/// How many bytes a file that is read has at most.
pub const MOST_FILE_BYTES: u64 = 67_108_864;

/// How many bytes of a file one read asks for at most.
pub const PIECE_BYTES: u64 = 65_536;

/// How many bytes a connection brings at most.
pub const MOST_CONNECTION_BYTES: u64 = 67_108_864;

/// How many bytes a line that is printed has at most, with its line feed.
pub const LINE_BYTES: usize = 72;

/// How many bytes lines are made in: 2048 of the longest.
pub const BUFFER_BYTES: usize = 147_456;
