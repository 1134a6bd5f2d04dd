// Where a test ends that has failed.
use std::process::Abort;

// Ends the test where this doesn't hold, with what should be. A call of it costs the proof of its caller less than an
// assertion there does.
pub fn check(rt: &impl Abort, holds: bool, what: &str) {
    if !holds {
        rt.panic(what);
    }
}
