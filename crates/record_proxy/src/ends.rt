// How connections end.
use text_base::OutOfMemory;

/// How a proxied connection ended.
#[derive(Clone, Copy, PartialEq, Eq)]
pub enum ProxyEnd {
    /// The client's input ended between requests, or an answer was given whose request or response closes.
    Closed,
    /// There is no request in the client's rest, and never will be; or its input ended within one.
    BadRequest,
    /// A response is due, and there is none in the server's rest, and never will be; or its input ended within it, or
    /// before it.
    BadResponse,
    /// At a fault of the client's connection.
    ClientFault,
    /// At a fault of the server's connection.
    ServerFault,
    /// More bytes are needed of a side from which 67,108,864 were taken.
    Full,
}

/// Why a serving of a proxy stopped early.
#[derive(Clone, Copy, Debug, PartialEq, Eq)]
pub enum ProxyError {
    /// The port can't be listened at, or a client couldn't be accepted, or not be finished.
    Port,
    /// Out of memory.
    OutOfMemory,
}

impl From<OutOfMemory> for ProxyError {
    ghost use Rattle.std.specs.Prelude.{◌≡◌};
    ghost use Rattle.record_proxy.specs.declared.ends.ProxyError.TheVariants as errors;

    ghost from_gives = { λ _ error. error ≡ errors.OutOfMemory };

    fn from(_: OutOfMemory) -> Self {
        ProxyError::OutOfMemory
    }
}
