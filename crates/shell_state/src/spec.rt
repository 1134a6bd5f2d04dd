// What one direction of a shell does.
ghost use Rattle.std.specs.Prelude.{◌≡◌, IfOk};

use loss_core::Rate;
use packet_queue::QueueSpec;
use text_base::OutOfMemory;
use trace_reader::Trace;

/// What one direction of a shell does with the packets that arrive.
#[derive(Drop)]
pub enum DirSpec {
    /// Each packet passes at once, as in the direction that an mm-loss doesn't name.
    Pass,
    /// Each packet departs `ms` milliseconds later, at most 3,600,000 (mm-delay).
    Delay {
        ms: u64,
    },
    /// Each packet is dropped at this rate, by the words of a seed and a stream, or passes at once (mm-loss).
    Loss {
        rate: Rate,
        seed: u64,
        stream: u64,
    },
    /// Packets wait in a queue for the delivery opportunities of a trace, which is played once or
    /// again and again (mm-link).
    Link {
        trace: Trace,
        once: bool,
        queue: QueueSpec,
    },
}

impl DirSpec {
    /// The same, which shares a link's trace and copies none of it, or out of memory.
    pub fn copy(&self) -> Result<DirSpec, OutOfMemory>
        ensures { IfOk result (λ spec. spec ≡ self.now) }
    {
        Ok(match self {
            DirSpec::Pass => DirSpec::Pass,
            DirSpec::Delay { ms } => DirSpec::Delay { ms: *ms },
            DirSpec::Loss { rate, seed, stream } => DirSpec::Loss {
                rate: *rate,
                seed: *seed,
                stream: *stream,
            },
            DirSpec::Link { trace, once, queue } => DirSpec::Link {
                trace: trace.copy()?,
                once: *once,
                queue: *queue,
            },
        })
    }
}
