// What a relay returns.
ghost use Rattle.std.specs.Prelude.{◌≡◌};
ghost use Rattle.live_relay.specs.declared.outcome.RelayError.TheVariants as errors;
ghost use Rattle.live_relay.specs.Errors.{relay_error};

use crate::RelayRows;
use mm_base::EndError;
use nest_spec::RunResult;
use text_base::OutOfMemory;

/// Why a relay that is done took no further turn.
#[derive(Clone, Copy, PartialEq, Eq)]
pub enum RelayEnd {
    /// The clock's moment was above the horizon.
    Horizon,
    /// All its turns were taken.
    Turns,
    /// Its user had ended.
    User,
}

/// What a relay has passed.
#[derive(Drop)]
pub struct RelayResult {
    /// The fates and logs of its rows: up to the horizon, or where its user had ended up to the last moment.
    pub run: RunResult,
    /// The datagrams of 1 to 1,504 bytes, in the order in which they were received, each at the moment of its turn.
    pub rows: RelayRows,
    /// How many other datagrams were received.
    pub refused: u32,
    /// Why it took no further turn.
    pub end: RelayEnd,
    /// The last moment that was read, in milliseconds.
    pub last: u64,
}

/// Why a relay stopped.
#[derive(Clone, Copy, Debug, PartialEq, Eq)]
pub enum RelayError {
    /// A call of the wire failed.
    WireFault,
    /// Memory was wanting.
    OutOfMemory,
}

impl From<OutOfMemory> for RelayError {
    ghost from_gives = { λ _ e. e ≡ errors.OutOfMemory };

    fn from(_: OutOfMemory) -> Self {
        RelayError::OutOfMemory
    }
}

impl From<EndError> for RelayError {
    ghost from_gives = { λ d e. e ≡ relay_error d };

    fn from(error: EndError) -> Self {
        match error {
            EndError::Failed => RelayError::WireFault,
            EndError::OutOfMemory => RelayError::OutOfMemory,
        }
    }
}
