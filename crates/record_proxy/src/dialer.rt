// A place to which connections go out, as its callers see it.
ghost use Rattle.std.specs.Prelude.{◌≡◌, ◌+◌, IfOk, OnErr, IsErrOf};
ghost use Rattle.mm_base.specs.Counts.{Rose};
ghost use Rattle.mm_base.specs.Link.{IsFresh};
ghost use Rattle.mm_base.specs.Port.{after_finish};
ghost use Rattle.record_proxy.specs.Asking.{asked_at};
ghost use Rattle.record_proxy.specs.Dialers.{DialerView, CountsDials};

use mm_base::{EndError, Link};
use std::marker::Send;

/// A place to which connections go out. It counts its faults, as a port does, and the connections that it gives, and
/// tells at which ports it was asked for them. The count of faults never falls, and where it stands at the last value
/// of a `u64` it is taken as risen.
pub trait Dialer {
    type Conn: Link + Send + Drop;

    /// What the dialer tells, and what it counts.
    ghost view: { Self → DialerView Self.Conn };

    /// Dials the port of this number, and gives the connection. Nothing was taken from it or given to it before.
    ///
    /// `Failed` is counted as a fault. `OutOfMemory` means out of memory.
    fn dial(&mut self, number: u16) -> Result<Self::Conn, EndError>
        ensures ok { IfOk result (λ conn. ((view self.new).dialed ≡ (view self.old).dialed + 1)
            × IsFresh (Self.Conn.view conn)) }
        ensures err { OnErr result ((view self.new).dialed ≡ (view self.old).dialed) }
        ensures asked { (view self.new).asked ≡ asked_at number (view self.old).asked }
        ensures finished { (view self.new).finished ≡ (view self.old).finished }
        ensures counts { CountsDials (view self.old) (view self.new) }
        ensures failed_cause { IsErrOf result EndError.Failed → Rose (view self.old).faults (view self.new).faults };

    /// Ends a connection. After a refusal it is given up.
    ///
    /// `Failed` is counted as a fault. `OutOfMemory` means out of memory.
    fn finish(&mut self, conn: Self::Conn) -> Result<(), EndError>
        ensures finished { (view self.new).finished ≡ after_finish conn result (view self.old).finished }
        ensures dialed { (view self.new).dialed ≡ (view self.old).dialed }
        ensures asked { (view self.new).asked ≡ (view self.old).asked }
        ensures counts { CountsDials (view self.old) (view self.new) }
        ensures failed_cause { IsErrOf result EndError.Failed → Rose (view self.old).faults (view self.new).faults };
}
