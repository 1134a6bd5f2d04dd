// A session, step by step.
ghost use Rattle.std.specs.Prelude.{◌≡◌, ◌<◌, [], false, None, Some};

use crate::ends::ConnEnd;
use http_frame::RequestFrames;
use mm_base::EndError;
use std::alloc::Global;
use text_base::Bytes;

/// A session that goes on: the bytes taken that no request has, the answers that are gathered, and how many bytes were
/// taken and reads begun.
#[derive(Drop)]
pub struct SessionState {
    pub frames: RequestFrames,
    pub gathered: Bytes,
    pub taken: usize,
    pub reads: u64,
}

impl SessionState {
    /// A session that has taken nothing.
    pub fn new(alloc: Global) -> Self
        ensures { result ≡ record {
          frames = record { unread = []; ended = false; failed = None };
          gathered = [];
          taken = 0;
          reads = 0;
        } }
    {
        SessionState {
            frames: RequestFrames::new(alloc),
            gathered: Bytes::new(alloc),
            taken: 0,
            reads: 0,
        }
    }
}
