// The ends of workers.
ghost use Rattle.std.specs.Prelude.{◌≡◌};
ghost use Rattle.shell_workers.specs.Ends.{worse as worse_of};

/// How a worker ended.
#[derive(Clone, Copy, PartialEq, Eq)]
pub enum WorkEnd {
    /// Its stream came to its end.
    Ended,
    /// Its stream was broken off.
    Broken,
    /// It ran out of memory itself.
    OutOfMemory,
}

impl WorkEnd {
    /// Returns how two workers ended together: `Ended` if both did, otherwise `OutOfMemory` if one did, otherwise
    /// `Broken`.
    pub fn worse(self, other: WorkEnd) -> WorkEnd
        ensures { result ≡ worse_of self other }
    {
        match (self, other) {
            (WorkEnd::Ended, other) => other,
            (WorkEnd::OutOfMemory, _) | (_, WorkEnd::OutOfMemory) => WorkEnd::OutOfMemory,
            (WorkEnd::Broken, _) => WorkEnd::Broken,
        }
    }
}
