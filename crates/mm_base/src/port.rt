// A place where connections come in, as its callers see it.
ghost use Rattle.std.specs.Prelude.{◌≡◌, ◌+◌, true, IfOk, OnErr, IsErrOf, MatchOption};
ghost use Rattle.mm_base.specs.Counts.{Rose};
ghost use Rattle.mm_base.specs.Link.{IsFresh};
ghost use Rattle.mm_base.specs.Port.{PortView, KeepsPort, after_finish};
ghost use Rattle.mm_base.specs.Listened.{after_listen};

use crate::{EndError, Link};
use std::marker::Send;

/// A place where connections come in. It counts its faults, as a link does, and the connections that it gives.
pub trait Port {
    type Conn: Link + Send + Drop;

    /// What the port tells, and what it counts.
    ghost view: { Self → PortView Self.Conn };

    /// Listens at the port of this number. That it was asked to is told, and whether it was refused.
    ///
    /// `Failed` is counted as a fault. After a refusal of this call it is taken to listen as before.
    fn listen(&mut self, number: u16) -> Result<(), EndError>
        ensures listened { (view self.new).listened ≡ after_listen number result (view self.old).listened }
        ensures finished { (view self.new).finished ≡ (view self.old).finished }
        ensures accepted { (view self.new).accepted ≡ (view self.old).accepted }
        ensures keeps { KeepsPort (view self.old) (view self.new) }
        ensures failed_cause { IsErrOf result EndError.Failed → Rose (view self.old).faults (view self.new).faults };

    /// Waits for a connection and gives it. Nothing was taken from it or given to it before. `None` comes only where
    /// there are no more.
    ///
    /// `Failed` is counted as a fault.
    fn accept(&mut self) -> Result<Option<Self::Conn>, EndError>
        ensures ok { IfOk result (λ o. MatchOption o
            (((view self.new).accepted ≡ (view self.old).accepted) × ((view self.new).drained ≡ true))
            (λ conn. ((view self.new).accepted ≡ (view self.old).accepted + 1) × IsFresh (Self.Conn.view conn))) }
        ensures err { OnErr result ((view self.new).accepted ≡ (view self.old).accepted) }
        ensures listened { (view self.new).listened ≡ (view self.old).listened }
        ensures finished { (view self.new).finished ≡ (view self.old).finished }
        ensures keeps { KeepsPort (view self.old) (view self.new) }
        ensures failed_cause { IsErrOf result EndError.Failed → Rose (view self.old).faults (view self.new).faults };

    /// Ends a connection. After a refusal it is given up.
    ///
    /// `Failed` is counted as a fault.
    fn finish(&mut self, conn: Self::Conn) -> Result<(), EndError>
        ensures listened { (view self.new).listened ≡ (view self.old).listened }
        ensures finished { (view self.new).finished ≡ after_finish conn result (view self.old).finished }
        ensures accepted { (view self.new).accepted ≡ (view self.old).accepted }
        ensures keeps { KeepsPort (view self.old) (view self.new) }
        ensures failed_cause { IsErrOf result EndError.Failed → Rose (view self.old).faults (view self.new).faults };
}
