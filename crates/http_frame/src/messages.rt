// The messages that readers return, and what their heads say.
use text_base::Bytes;

/// What a request's head says.
#[derive(Drop)]
pub struct RequestHead {
    /// Method, target and version with one space between, as `GET / HTTP/1.1`.
    pub line: Bytes,
    /// The value of the first Host field, without the spaces and tabs around it.
    pub host: Option<Bytes>,
    /// The value of the first User-Agent field, without the spaces and tabs around it.
    pub agent: Option<Bytes>,
    /// Whether the method is HEAD, so that the response has no body (RFC 9112, section 6.3).
    pub head_only: bool,
    /// Whether the version is 1.0 or a Connection field has the item `close` (RFC 9112, section 9.3).
    pub closes: bool,
}

/// A request.
#[derive(Drop)]
pub struct Request {
    /// What the head says.
    pub head: RequestHead,
    /// All bytes, head and body.
    pub bytes: Bytes,
}

/// What a response's head says.
#[derive(Clone, Copy, PartialEq, Eq)]
pub struct ResponseHead {
    /// The status code.
    pub status: u16,
    /// Whether a Connection field has the item `close` or the body ends where the input ends.
    pub closes: bool,
}

/// A response.
#[derive(Drop)]
pub struct Response {
    /// What the head says.
    pub head: ResponseHead,
    /// All bytes, head and body.
    pub bytes: Bytes,
}
