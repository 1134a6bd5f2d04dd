// Delivery opportunities, and the two forms of a trace.
ghost use Rattle.std.specs.Prelude.{◌≤◌};

/// A chance to deliver 1 to 1000000 bytes, at a moment in milliseconds from the start of the run.
#[derive(Clone, Copy, PartialEq, Eq)]
pub struct Opportunity {
    /// Whole milliseconds from the start of the run.
    pub moment: u64,
    /// How many bytes it can deliver.
    pub bytes: u32,
    pub ghost some: { 1 ≤ bytes },
    pub ghost most: { bytes ≤ 1000000 },
}

/// What the lines of a trace's text state.
#[derive(Clone, Copy, PartialEq, Eq)]
pub enum TraceForm {
    /// A moment alone; each opportunity has 1504 bytes, which is 1500 and the 4 bytes of the TUN header (mm-link).
    Moments,
    /// A moment and a number of bytes, below the first line `# mm-trace 2`.
    MomentsAndBytes,
}
