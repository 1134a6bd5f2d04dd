// A message that is being read: its head was read, and a part of its body.
ghost use Rattle.std.specs.Prelude.{◌≤◌, length, drop};
ghost use Rattle.http_frame.specs.inside.Bodies.{MayGoOn};
ghost use Rattle.http_frame.specs.inside.Frames.{FinishSays};

use crate::body::{BodyStep, read_body};
use crate::chunks::from_place;
use crate::errors::FrameError;
use crate::framing::Framing;
use crate::head::FoundMessage;

/// A head that was read, and where its body is to be read on.
#[derive(Drop)]
pub struct Pending<H> {
    /// What the head says.
    pub head: H,
    /// How many bytes the head has.
    pub len: usize,
    /// Where the body ends.
    pub framing: Framing,
    /// Where in the body reading goes on.
    pub place: usize,
}

/// What reading on gives.
#[derive(Drop)]
pub enum Outcome<H> {
    /// The whole message is there.
    Message(FoundMessage<H>),
    /// More bytes are needed.
    More,
    /// There is no message, and none can come.
    Fault(FrameError),
}

/// Reads on with a body. Returns what is kept for the next call. It takes no memory.
pub fn finish<H: Drop>(
    ended: bool,
    unread: &[u8],
    pending: Pending<H>,
) -> (Option<Pending<H>>, Outcome<H>)
    requires inside { pending.len ≤ length unread.now }
    requires place { MayGoOn pending.framing (drop pending.len unread.now) pending.place }
    ensures { FinishSays ended unread.now pending result.0 result.1 }
{
    let rest = from_place(unread, pending.len);
    match read_body(rest, pending.framing, ended, pending.place) {
        BodyStep::Whole(more) => {
            let found = FoundMessage {
                head: pending.head,
                len: pending.len + more,
            };
            (None, Outcome::Message(found))
        }
        BodyStep::More(place) => {
            let later = Pending {
                head: pending.head,
                len: pending.len,
                framing: pending.framing,
                place,
            };
            (Some(later), Outcome::More)
        }
        BodyStep::Bad => (Some(pending), Outcome::Fault(FrameError::BadChunk)),
        BodyStep::TooLong => (Some(pending), Outcome::Fault(FrameError::BodyTooLong)),
    }
}
