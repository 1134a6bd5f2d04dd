// What the system's errors say when a connection is accepted or dialed.
use crate::watch::{EndWatch, Wanted};
use std::io::{self, ErrorKind};

// The numbers of Linux's errors EMFILE, ENFILE and ENOBUFS: it has no more descriptors, for the program or at all, or
// no buffer.
const SHORTAGES: [i32; 3] = [24, 23, 105];

// The numbers of Linux's errors ENONET, EPROTO, ENOPROTOOPT, EOPNOTSUPP, ENETDOWN, ENETUNREACH, EHOSTDOWN and
// EHOSTUNREACH: the network failed a connection before it was accepted.
const NETWORK_ERRORS: [i32; 8] = [64, 71, 92, 95, 100, 101, 112, 113];

// For how many milliseconds it is waited at a shortage, before it is tried again.
const SHORTAGE_REST: i32 = 100;

// The number of no descriptor, which the system passes over.
const NONE: i32 = -1;

// Whether an error of the system has one of these numbers.
fn is_among(error: &io::Error, numbers: &[i32]) -> bool {
    match error.raw_os_error() {
        Some(number) => numbers.contains(&number),
        None => false,
    }
}

/// Whether an error says that the system has no descriptor or no buffer now.
pub fn is_shortage(error: &io::Error) -> bool {
    is_among(error, &SHORTAGES)
}

/// Whether an error of accepting says only that a connection is gone, or hasn't come: the next one may be accepted.
pub(crate) fn is_passed_over(error: &io::Error) -> bool {
    let is_gone = error.kind() == ErrorKind::ConnectionAborted;
    let is_absent = error.kind() == ErrorKind::WouldBlock;
    is_gone || is_absent || is_among(error, &NETWORK_ERRORS)
}

/// Waits a tenth of a second for what the system lacks, or until there is something to see of the watched descriptor.
pub fn rest_at_shortage(watch: &EndWatch) {
    watch.wait_beside(NONE, Wanted::Input, SHORTAGE_REST);
}
