// A proxied connection that goes on.
ghost use Rattle.std.specs.Prelude.{◌≡◌, [], false, None};

use http_frame::{Request, RequestFrames, ResponseFrames};
use std::alloc::Global;

/// What was taken and isn't passed on yet, the request to which a response is due, how many bytes were taken of each
/// side, and whether the server's input has ended.
#[derive(Drop)]
pub struct ProxyState {
    pub requests: RequestFrames,
    pub responses: ResponseFrames,
    pub due: Option<Request>,
    pub client_taken: usize,
    pub server_taken: usize,
    pub server_ended: bool,
}

impl ProxyState {
    /// Nothing was taken yet.
    pub fn new(alloc: Global) -> Self
        ensures { result ≡ record {
          requests = record { unread = []; ended = false; failed = None };
          responses = record { unread = []; ended = false; failed = None };
          due = None;
          client_taken = 0;
          server_taken = 0;
          server_ended = false;
        } }
    {
        ProxyState {
            requests: RequestFrames::new(alloc),
            responses: ResponseFrames::new(alloc),
            due: None,
            client_taken: 0,
            server_taken: 0,
            server_ended: false,
        }
    }
}
