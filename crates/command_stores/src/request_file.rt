// A request from a file that has nothing else.
ghost use Rattle.std.specs.Prelude.{◌≡◌, ℕ, false, List, [], None, IfOk, IfErr};
ghost use Rattle.mm_base.specs.Disk.{OnlyReads};
ghost use Rattle.command_ends.specs.Readings.{Done};
ghost use Rattle.command_ends.specs.Stops.{IsInput, StopsReading};
ghost use Rattle.command_ends.specs.inside.Stops.{RefusesBy};
ghost use Rattle.command_stores.specs.Requests.{IsOneRequest, RefusesRequest, RequestVerdict, reading_request};
ghost use Rattle.command_stores.specs.declared.request_file.RequestError.TheVariants as errors;

use command_ends::{Cause, Refusal, read_input};
use http_frame::{FrameError, FrameFault, RequestFrames, RequestHead, Step};
use mm_base::Disk;
use std::alloc::Global;
use text_base::{OutOfMemory, Text};

/// Why a text isn't accepted as a request.
#[derive(Clone, Copy, Debug, PartialEq, Eq)]
pub(crate) enum RequestError {
    /// The reader of requests refuses it. The number is the reader's, 1 to 8.
    Frame(FrameError),
    /// The text lacks bytes of a request, or has bytes behind one. The number is 9.
    NotOne,
    /// Out of memory. The text wasn't refused.
    OutOfMemory,
}

impl RequestError {
    ghost use Rattle.command_stores.specs.Requests.{number_of};

    // Returns the number of the refusal: 1 to 9, or 0 for out of memory.
    fn number(self) -> u32
        ensures { result ≡ number_of self }
    {
        match self {
            RequestError::Frame(error) => error.number(),
            RequestError::NotOne => 9,
            RequestError::OutOfMemory => 0,
        }
    }
}

impl From<OutOfMemory> for RequestError {
    ghost from_gives = { λ _ e. e ≡ errors.OutOfMemory };

    fn from(_: OutOfMemory) -> Self {
        RequestError::OutOfMemory
    }
}

// Returns the head of the request that a text is. The body isn't kept.
fn read_head(alloc: Global, text: &[u8]) -> Result<RequestHead, RequestError>
    ensures whole { IfOk result (IsOneRequest text.now) }
    ensures refused { IfErr result (RefusesRequest text.now) }
{
    let mut frames = RequestFrames::new(alloc);
    only_head(&mut frames, text)
}

// Returns the head of the request that a text is, by a reader that has read nothing.
fn only_head(frames: &mut RequestFrames, text: &[u8]) -> Result<RequestHead, RequestError>
    requires { frames.old ≡ record { unread = []; ended = false; failed = None } }
    ensures whole { IfOk result (IsOneRequest text.now) }
    ensures refused { IfErr result (RefusesRequest text.now) }
{
    frames.feed(text)?;
    match frames.next_head() {
        Ok(Step::Message(head)) => {
            if frames.unread().is_empty() {
                Ok(head)
            } else {
                Err(RequestError::NotOne)
            }
        }
        Ok(Step::More) => Err(RequestError::NotOne),
        Err(FrameFault::Frame(error)) => Err(RequestError::Frame(error)),
        Err(FrameFault::OutOfMemory) => Err(RequestError::OutOfMemory),
    }
}

// Returns the cause of a request's text, in the file `name`, that isn't accepted.
fn request_cause(name: Text, error: RequestError) -> Cause
    ensures { (text : List ℕ) → RefusesRequest text error → RefusesBy (RequestVerdict name text) result }
{
    match error {
        RequestError::OutOfMemory => Cause::OutOfMemory,
        _ => Cause::Refused(Refusal::BadInput {
            name,
            number: error.number(),
            place: 0,
        }),
    }
}

/// Returns the head of the request in the file `name`. The cause of what can't be read is its refusal, a fault of the
/// disk, or out of memory.
pub(crate) fn load_request<D: Disk>(
    alloc: Global,
    disk: &mut D,
    name: &str,
) -> Result<RequestHead, Cause>
    ensures found { IfOk result (λ head. ((text : List ℕ) × IsInput (D.view disk.old).files name.now text
        × IsOneRequest text head)) }
    ensures stopped { IfErr result (λ cause. StopsReading (reading_request name.now Done) (D.view disk.old)
        (D.view disk.new) cause) }
    ensures only_reads { OnlyReads (D.view disk.old) (D.view disk.new) }
{
    let text = read_input(alloc, disk, name)?;
    match read_head(alloc, text.as_slice()) {
        Ok(head) => Ok(head),
        Err(error) => Err(request_cause(Text::from_text(alloc, name)?, error)),
    }
}
