//! HTTP/1.1 messages, read from a stream that comes in pieces.
#![tactic(auto)]

mod body;
mod buffer;
mod chunks;
mod errors;
mod fields;
mod first;
mod framing;
mod head;
mod limits;
mod messages;
mod pending;
mod request_frames;
mod request_head;
mod response_frames;
mod response_head;

pub use errors::{FrameError, FrameFault, Step};
pub use first::{first_request, first_response};
pub use framing::Framing;
pub use messages::{Request, RequestHead, Response, ResponseHead};
pub use request_frames::RequestFrames;
pub use response_frames::ResponseFrames;
