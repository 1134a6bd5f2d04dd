// A port whose requests are noted.
ghost use Rattle.std.specs.Prelude.{◌≡◌, None, false};

use crate::link::NotedLink;
use crate::notes::Notes;
use ended_port::{EndedLink, EndedPort};
use mm_base::{EndError, Port};
use std::io::Write;
use std::marker::Send;
use std::net::{Net, TcpListener, TcpStream};
use std::time::Clock;

/// An `EndedPort`, of whose connections each request is noted. All else is that of the port within, and so is what it
/// tells and counts.
#[derive(Drop)]
pub struct NotedPort<
    'a,
    R: Net<Stream = TcpStream, Listener = TcpListener> + Clock + Send + Copy + Drop,
    W: Write + Send + Copy + Drop,
> {
    port: EndedPort<'a, R, W>,
    notes: Option<Notes<'a, W>>,
}

impl<
    'a,
    R: Net<Stream = TcpStream, Listener = TcpListener> + Clock + Send + Copy + Drop,
    W: Write + Send + Copy + Drop,
> NotedPort<'a, R, W> {
    /// The port with its notes, or without any if there are none.
    pub fn new(port: EndedPort<'a, R, W>, notes: Option<Notes<'a, W>>) -> Self
        ensures { result.port ≡ port.entry }
    {
        NotedPort { port, notes }
    }

    /// The port within.
    pub fn port(&self) -> &EndedPort<'a, R, W>
        ensures { result.now ≡ self.now.port }
    {
        &self.port
    }
}

impl<
    'a,
    R: Net<Stream = TcpStream, Listener = TcpListener> + Clock + Send + Copy + Drop,
    W: Write + Send + Copy + Drop,
> Port for NotedPort<'a, R, W> {
    type Conn = NotedLink<'a, EndedLink<'a, R>, W>;

    ghost view = { λ p. record {
      listened = p.port.listened;
      finished = None;
      accepted = p.port.accepted;
      drained = p.port.drained;
      faults = p.port.faults;
      never_fails = false;
    } };

    fn listen(&mut self, number: u16) -> Result<(), EndError> {
        self.port.listen(number)
    }

    fn accept(&mut self) -> Result<Option<NotedLink<'a, EndedLink<'a, R>, W>>, EndError> {
        match self.port.accept()? {
            Some(link) => Ok(Some(NotedLink::new(link, &self.notes))),
            None => Ok(None),
        }
    }

    fn finish(&mut self, conn: NotedLink<'a, EndedLink<'a, R>, W>) -> Result<(), EndError> {
        self.port.finish(conn.into_link())
    }
}
