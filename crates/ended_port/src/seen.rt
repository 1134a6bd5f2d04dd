// What is seen of a descriptor, without waiting.
use itoa::Buffer;
use libc::net::{MSG_DONTWAIT, POLLERR, POLLHUP, POLLIN, POLLNVAL, POLLRDHUP, poll, recv};
use libc::types::pollfd;
use libc::{EAGAIN, EINTR, ENOTSOCK, SEEK_CUR, close, lseek, read};
use os::{errno, open_update, set_nonblocking};
use std::os::fd::RawFd;

// How many bytes of what somebody writes there are passed over at a look.
const CHUNK: usize = 4_096;

// The folder in which the system has a name for each descriptor of the process.
const DESCRIPTORS: &[u8] = b"/proc/self/fd/";

// How many bytes the name of a descriptor has at most, with its folder.
const MOST_NAME: usize = 64;

/// What is seen of a descriptor.
#[derive(Clone, Copy, PartialEq, Eq)]
pub(crate) enum Seen {
    /// It is open, and there was nothing to read.
    Open,
    /// It is open, and somebody wrote something.
    Written,
    /// It is at its end.
    Ended,
    /// There is no such descriptor, or it can't be read.
    Gone,
}

/// Looks at a descriptor, and never waits. Of what somebody wrote there some is passed over.
///
/// It is at its end if nobody is left who could write: the last writer of a pipe has closed it, the peer of a socket
/// has shut its output or is gone, a terminal has hung up. What was written before isn't read then. A file, a device as
/// `/dev/null`, and a terminal are at their end if a read finds nothing there.
pub(crate) fn look_at(descriptor: RawFd) -> Seen {
    let mut asked = [pollfd {
        fd: descriptor,
        events: POLLIN | POLLRDHUP,
        revents: 0,
    }];
    if poll(&mut asked, 0) <= 0 {
        return Seen::Open;
    }
    let said = asked[0].revents;
    if said & POLLNVAL != 0 {
        Seen::Gone
    } else if said & (POLLHUP | POLLRDHUP) != 0 {
        Seen::Ended
    } else if said & POLLIN != 0 {
        pass_over(descriptor)
    } else if said & POLLERR != 0 {
        Seen::Ended
    } else {
        Seen::Open
    }
}

// What a read that returned `count` tells. One that was refused since another reader was first, or since a signal came,
// tells nothing.
fn told_by(count: isize) -> Seen {
    match count {
        0 => Seen::Ended,
        1.. => Seen::Written,
        _ => match errno() {
            EAGAIN | EINTR => Seen::Written,
            _ => Seen::Gone,
        },
    }
}

// Passes over some of what can be read. It never waits, though another program that reads there may take all of it
// before: a socket is asked not to; a file or a device with places in it always has an answer; a pipe or a terminal is
// read by a descriptor of its own.
fn pass_over(descriptor: RawFd) -> Seen {
    let mut bytes = [0u8; CHUNK];
    let received = unsafe { recv(descriptor, &mut bytes, MSG_DONTWAIT) };
    if received >= 0 || errno() != ENOTSOCK {
        return told_by(received);
    }
    if lseek(descriptor, 0, SEEK_CUR) >= 0 {
        return told_by(read(descriptor, &mut bytes));
    }
    pass_over_anew(descriptor, &mut bytes)
}

// Opens a pipe or a terminal anew, and reads there without waiting: to set this of the descriptor itself would set it
// for all programs that share it. It is opened for writing too, since opening a pipe for reading alone waits for
// whoever writes. If it can't be opened, what was written stays there, and tells nothing.
fn pass_over_anew(descriptor: RawFd, bytes: &mut [u8]) -> Seen {
    let mut name = [0u8; MOST_NAME];
    let mut number = Buffer::new();
    let number = number.format(descriptor).as_bytes();
    let length = DESCRIPTORS.len() + number.len();
    name[..DESCRIPTORS.len()].copy_from_slice(DESCRIPTORS);
    name[DESCRIPTORS.len()..length].copy_from_slice(number);
    let own = open_update(&name[..length]);
    if own < 0 {
        return Seen::Written;
    }
    let seen = if set_nonblocking(own, true) == 0 {
        told_by(read(own, bytes))
    } else {
        Seen::Written
    };
    close(own);
    seen
}
