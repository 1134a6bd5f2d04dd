//! Ends a test that has failed.
use std::process::Abort;

// Ends the test with the message `what`, unless `holds`. A call costs the proof of its caller less than an assertion
// there.
pub fn check(rt: &impl Abort, holds: bool, what: &str) {
    if !holds {
        rt.panic(what);
    }
}
