// Tests of what is seen of a descriptor whose end is looked for.
use ended_port::EndWatch;
use std::io::{self, Write, pipe};
use std::net::{Ipv4Addr, Net, Shutdown, SocketAddr, TcpStream};
use std::os::fd::AsRawFd;
use std::thread;
use std::time::Duration;

// Returns whether a watch passes over more than a pipe holds, and sees the end though something unread is there.
fn passes_over(rt: &HostRuntime) -> io::Result<bool> {
    let (reader, mut writer) = pipe(rt)?;
    let watch = EndWatch::new(Some(reader.as_raw_fd()));
    for _ in 0..100u32 {
        writer.write_all(&[0u8; 4_096])?;
        if watch.is_at_end() {
            return Ok(false);
        }
    }
    writer.write_all(b"unread")?;
    drop(writer);
    Ok(watch.is_at_end())
}

#[test]
fn what_is_written_into_a_pipe_is_passed_over(rt: HostRuntime) {
    assert!(rt; passes_over(&rt).expect(&rt, "a pipe"));
}

// Returns whether the end comes within ten seconds.
fn ends_soon(rt: &HostRuntime, watch: &EndWatch) -> bool {
    for _ in 0..1_000u32 {
        if watch.is_at_end() {
            return true;
        }
        thread::sleep(rt, Duration::from_millis(10));
    }
    false
}

// Returns whether a watch of a connection sees its end once the peer has shut its output, and not before.
fn ends_with_its_peer(rt: &HostRuntime) -> io::Result<bool> {
    let listener = rt.bind(SocketAddr::from((Ipv4Addr::LOCALHOST, 0)))?;
    let address = SocketAddr::from((Ipv4Addr::LOCALHOST, listener.local_addr()?.port()));
    let mut peer = TcpStream::connect(rt, address)?;
    let (stream, _) = listener.accept()?;
    let watch = EndWatch::new(Some(stream.as_raw_fd()));
    peer.write_all(b"still here")?;
    let is_open = !watch.is_at_end() && watch.can_end();
    peer.shutdown(Shutdown::Write)?;
    Ok(is_open && ends_soon(rt, &watch))
}

#[test]
fn a_connection_is_at_its_end_once_its_peer_has_shut_its_output(rt: HostRuntime) {
    assert!(rt; ends_with_its_peer(&rt).expect(&rt, "a connection"));
}
