// How long a connection over TCP waits.
use std::time::Duration;

// For how many seconds a peer may take nothing of what is given to it, and a dialed one may say nothing.
const PATIENCE: u64 = 60;

// For how many seconds a peer is heard out after the last byte was given to it.
const LAST_PATIENCE: u64 = 2;

/// How long a connection over TCP waits for its peer.
#[derive(Clone, Copy)]
pub struct TcpLimits {
    /// How long the peer may take nothing while there is something to be given.
    pub giving: Duration,
    /// How long a read waits for a byte. None: for ever.
    pub reading: Option<Duration>,
    /// How long the peer is heard out after the last byte was given to it.
    pub leaving: Duration,
}

impl TcpLimits {
    /// For a connection that came in: a minute to take, no limit to say something, two seconds to leave.
    pub fn accepted() -> Self {
        TcpLimits {
            giving: Duration::from_secs(PATIENCE),
            reading: None,
            leaving: Duration::from_secs(LAST_PATIENCE),
        }
    }

    /// For a connection that was dialed: a minute to take, a minute to say something, two seconds to leave.
    pub fn dialed() -> Self {
        TcpLimits {
            giving: Duration::from_secs(PATIENCE),
            reading: Some(Duration::from_secs(PATIENCE)),
            leaving: Duration::from_secs(LAST_PATIENCE),
        }
    }
}
