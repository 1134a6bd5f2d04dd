// A dialer of TCP on this machine alone. It tells no content.
ghost use Rattle.std.specs.Prelude.{◌≡◌, ◌≤◌, ◌<◌, ◌-◌, ◌^◌, None, IfOk, OnOk};
ghost use Rattle.mm_base.specs.Counts.{Rose};
ghost use Rattle.record_proxy.specs.declared.ports_asked.PortsAsked.TheVariants.{Never};

use crate::dialer::Dialer;
use crate::ports_asked::PortsAsked;
use ended_port::{EndWatch, EndedLink, Silence, is_shortage, rest_at_shortage};
use mm_base::{EndError, TcpLimits};
use std::io::{self, ErrorKind};
use std::marker::Send;
use std::net::{Ipv4Addr, Net, SocketAddr, TcpListener, TcpStream};
use std::time::{Clock, Duration};

// How often a dial is tried at most. No run meets it.
const TRIES: u64 = u64::MAX;

// How long it waits for a site that has no room for one more connection, in seconds.
const DIAL_LIMIT: u64 = 10;

/// A dialer of TCP at the address 127.0.0.1. It tells no content, but at which ports it was asked. Each error other
/// than out of memory is counted as a fault: a port at which nobody listens, a site that has no room for one more
/// connection for ten seconds, or one more connection than a `u64` counts. Where its watch can end, a dial for which the
/// system has no descriptor or no buffer is tried again until the watch is at its end. A connection that it gives waits
/// for a byte no longer than a minute; then its read is a fault of that connection.
#[derive(Drop)]
pub struct TcpDialer<'a, R: Net<Stream = TcpStream, Listener = TcpListener> + Clock + Copy + Drop> {
    rt: R,
    limits: TcpLimits,
    watch: &'a EndWatch,
    asked: PortsAsked,
    dialed: u64,
    faults: u64,
    last_error: Option<i32>,
}

impl<'a, R: Net<Stream = TcpStream, Listener = TcpListener> + Clock + Copy + Drop> TcpDialer<
    'a,
    R,
> {
    /// A dialer over the runtime's network, which has given no connection.
    pub fn new(rt: R, watch: &'a EndWatch) -> Self
        ensures { (result.asked ≡ Never) × ((result.dialed ≡ 0) × (result.faults ≡ 0)) }
    {
        Self::with_limits(rt, watch, TcpLimits::dialed())
    }

    /// A dialer whose connections have these limits.
    pub fn with_limits(rt: R, watch: &'a EndWatch, limits: TcpLimits) -> Self
        ensures { (result.asked ≡ Never) × ((result.dialed ≡ 0) × (result.faults ≡ 0)) }
    {
        TcpDialer {
            rt,
            limits,
            watch,
            asked: PortsAsked::Never,
            dialed: 0,
            faults: 0,
            last_error: None,
        }
    }

    /// The number of the last error that the system gave. None where there was none.
    pub fn last_error(&self) -> Option<i32> {
        self.last_error
    }

    // Counts a fault, unless memory was wanting.
    fn refuse(&mut self, error: io::Error) -> EndError
        ensures failed { result ≡ EndError.Failed → Rose self.old.faults self.new.faults }
        ensures grows { self.old.faults ≤ self.new.faults }
        ensures dialed { self.new.dialed ≡ self.old.dialed }
        ensures asked { self.new.asked ≡ self.old.asked }
    {
        self.last_error = error.raw_os_error();
        if error.kind() == ErrorKind::OutOfMemory {
            return EndError::OutOfMemory;
        }
        self.faults = self.faults.saturating_add(1);
        EndError::Failed
    }

    // A connection to a port of this machine, where it can still be counted.
    fn link_to(&self, number: u16) -> io::Result<EndedLink<'a, R>>
        ensures ok { IfOk result (λ link. link.faults ≡ 0) }
        ensures room { OnOk result (self.now.dialed < 2 ^ 64 - 1) }
    {
        EndedLink::new(
            self.rt,
            self.stream_to(number)?,
            self.limits,
            self.watch,
            Silence::Fault,
        )
    }

    // A stream to a port of this machine, where it can still be counted.
    fn stream_to(&self, number: u16) -> io::Result<TcpStream>
        ensures { OnOk result (self.now.dialed < 2 ^ 64 - 1) }
    {
        if self.dialed == u64::MAX {
            return Err(io::Error::from(ErrorKind::Unsupported));
        }
        let address = SocketAddr::from((Ipv4Addr::LOCALHOST, number));
        for _ in 0..TRIES {
            match TcpStream::connect_timeout(&self.rt, &address, Duration::from_secs(DIAL_LIMIT)) {
                Err(error) if is_shortage(&error) && self.may_rest() => {
                    rest_at_shortage(self.watch);
                }
                dialed => return dialed,
            }
        }
        Err(io::Error::from(ErrorKind::TimedOut))
    }

    // Whether a dial for which the system has no descriptor or no buffer is tried again.
    fn may_rest(&self) -> bool {
        self.watch.can_end() && !self.watch.is_at_end()
    }
}

impl<'a, R: Net<Stream = TcpStream, Listener = TcpListener> + Clock + Send + Copy + Drop> Dialer
    for TcpDialer<'a, R> {
    type Conn = EndedLink<'a, R>;

    ghost view = { λ d. record { asked = d.asked; finished = None; dialed = d.dialed; faults = d.faults } };

    fn dial(&mut self, number: u16) -> Result<EndedLink<'a, R>, EndError> {
        self.asked.ask(number);
        match self.link_to(number) {
            Ok(link) => {
                self.dialed += 1;
                Ok(link)
            }
            Err(error) => Err(self.refuse(error)),
        }
    }

    fn finish(&mut self, conn: EndedLink<'a, R>) -> Result<(), EndError> {
        conn.end();
        Ok(())
    }
}
