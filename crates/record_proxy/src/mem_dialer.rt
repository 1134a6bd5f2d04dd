// A dialer in memory, which fails by a list.
ghost use Rattle.std.specs.Prelude.{◌≡◌, ◌⊎◌, ◌+◌, ◌∷◌, [], Some, IfOk, OnErr, IsErrOf, IsOk, Contains};
ghost use Rattle.std.specs.Prelude.{MatchResult};
ghost use Rattle.mm_base.specs.Counts.{Rose, one_more};
ghost use Rattle.mm_base.specs.Link.{IsFresh};
ghost use Rattle.mm_base.specs.Listened.{never};
ghost use Rattle.mm_base.specs.MemLink.{mem_link_view};
ghost use Rattle.mm_base.specs.MemPort.{AllUnused, IsPortCall};
ghost use Rattle.mm_base.specs.Port.{after_finish};
ghost use Rattle.record_proxy.specs.Asking.{asked_at};
ghost use Rattle.record_proxy.specs.Dialers.{CountsDials};
ghost use Rattle.record_proxy.specs.MemDialers.{mem_dialer_view};
ghost use Rattle.record_proxy.specs.declared.ports_asked.PortsAsked.TheVariants.{Never};

use crate::dialer::Dialer;
use crate::ports_asked::PortsAsked;
use mm_base::{EndError, MemLink, MemPort, Port};
use std::alloc::Global;
use std::marker::Model;

/// A dialer in memory, which gives links in memory in their order. It tells its finished links and at which ports it
/// was asked, counts its calls from 1, and fails those that its list names, and a `dial` where no link is left.
#[derive(Drop)]
pub struct MemDialer {
    asked: PortsAsked,
    links: MemPort,
    missing: u64,
}

impl Model for MemDialer {
    ghost use Rattle.record_proxy.specs.MemDialers.{MemDialerState};

    ghost Value = { MemDialerState };

    ghost view = { λ d. record { asked = d.asked; links = d.links; missing = d.missing } };
}

impl MemDialer {
    /// A dialer that gives these links, on which no call was made, and whose calls of these numbers are to fail.
    pub fn new(alloc: Global, links: Vec<MemLink>, fails: Vec<u64>) -> Self
        requires { AllUnused links.items }
        ensures links { result.links ≡ record {
          listened = never;
          waiting = links.items;
          finished = [];
          accepted = 0;
          fails = fails.items;
          calls = 0;
          faults = 0;
        } }
        ensures missing { result.missing ≡ 0 }
        ensures asked { result.asked ≡ Never }
    {
        MemDialer {
            asked: PortsAsked::Never,
            links: MemPort::new(alloc, links, fails),
            missing: 0,
        }
    }

    /// At which ports it was asked for links.
    pub fn asked(&self) -> PortsAsked
        ensures { result ≡ self.now.asked }
    {
        self.asked
    }

    /// The finished links, in the order in which they were finished.
    pub fn finished(&self) -> &[MemLink]
        ensures { result.now ≡ self.now.links.finished }
    {
        self.links.finished()
    }
}

impl Dialer for MemDialer {
    type Conn = MemLink;

    ghost view = { mem_dialer_view };

    fn dial(&mut self, number: u16) -> Result<MemLink, EndError>
        ensures counted { self.new.links.calls ≡ one_more self.old.links.calls }
        ensures failed { (Contains self.old.links.fails self.new.links.calls → IsErrOf result EndError.Failed)
            × (IsErrOf result EndError.Failed
            → Contains self.old.links.fails self.new.links.calls ⊎ (self.old.links.waiting ≡ [])) }
        ensures next { MatchResult result (λ link. self.old.links.waiting ≡ link ∷ self.new.links.waiting)
            (λ _. self.new.links.waiting ≡ self.old.links.waiting) }
        ensures none_left { self.old.links.waiting ≡ [] → ¬ IsOk result }
        ensures ok { IfOk result (λ conn. (self.new.links.accepted ≡ self.old.links.accepted + 1)
            × IsFresh (mem_link_view conn)) }
        ensures err { OnErr result (self.new.links.accepted ≡ self.old.links.accepted) }
        ensures asked { self.new.asked ≡ asked_at number self.old.asked }
        ensures finished { Some self.new.links.finished ≡ Some self.old.links.finished }
        ensures counts { CountsDials (mem_dialer_view self.old) (mem_dialer_view self.new) }
        ensures failed_cause { IsErrOf result EndError.Failed
            → Rose (mem_dialer_view self.old).faults (mem_dialer_view self.new).faults }
    {
        self.asked.ask(number);
        match self.links.accept() {
            Ok(Some(link)) => Ok(link),
            Ok(None) => {
                self.missing = self.missing.saturating_add(1);
                Err(EndError::Failed)
            }
            Err(error) => Err(error),
        }
    }

    fn finish(&mut self, conn: MemLink) -> Result<(), EndError>
        ensures call { IsPortCall self.old.links self.new.links result }
        ensures waiting { self.new.links.waiting ≡ self.old.links.waiting }
        ensures finished { Some self.new.links.finished ≡ after_finish conn result (Some self.old.links.finished) }
        ensures dialed { self.new.links.accepted ≡ self.old.links.accepted }
        ensures asked { self.new.asked ≡ self.old.asked }
        ensures counts { CountsDials (mem_dialer_view self.old) (mem_dialer_view self.new) }
        ensures failed_cause { IsErrOf result EndError.Failed
            → Rose (mem_dialer_view self.old).faults (mem_dialer_view self.new).faults }
    {
        self.links.finish(conn)
    }
}
