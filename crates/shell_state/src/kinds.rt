// What differs from kind to kind of shell: its core, packet by packet, behind one type, and its run over a whole list.
ghost use Rattle.std.specs.Prelude.{◌≡◌, ◌≤◌, ◌<◌, ◌+◌, ◌++◌, ◌∷◌, [], None, length, nat_le, map, OnOk, OnErr, IfOk};
ghost use Rattle.std.specs.Prelude.{if◌then◌else◌};
ghost use Rattle.packet_record.specs.Moments.{AreUpTo, Rise};
ghost use Rattle.link_core.specs.Promises.{count_to};
ghost use Rattle.link_core.specs.View.{opps_of};
ghost use Rattle.shell_state.specs.Shells.{IsInRange, IsBuilt, opportunities, out, lost, inside, shell_log, floor};
ghost use Rattle.shell_state.specs.Shells.{whole_out, whole_lost, whole_log};
ghost use Rattle.shell_state.specs.Wholes.{if_link};
ghost use Rattle.shell_state.specs.CoreParts.{CorePart, with_arrival, with_burnt, is_spent, burns, new_part};

use crate::spec::DirSpec;
use crate::whole::{late_passage, link, passage};
use delay_core::{DelayCore, delay_all};
use link_core::{LinkCore, LinkLog, Passage};
use loss_core::{ChaWords, LossCore, lose_all};
use packet_record::Timed;
use std::alloc::Global;
use std::marker::Model;
use text_base::OutOfMemory;
use text_base::limits::{HOUR, MOST_OPPORTUNITIES};

#[derive(Drop)]
pub(crate) enum Inner {
    Pass(Vec<Timed>),
    Delay {
        core: DelayCore,
        ms: u64,
    },
    Loss {
        core: LossCore<ChaWords>,
        seed: u64,
        stream: u64,
    },
    Link(LinkCore),
}

/// One direction of a shell of any kind.
///
/// Contracts see what the direction does, its horizon, the packets that arrived, and how many opportunities are burnt.
/// Everything else that it returns is a function of these.
#[derive(Drop)]
pub struct Core {
    pub(crate) alloc: Global,
    pub(crate) until: u64,
    pub(crate) inner: Inner,
}

impl Model for Core {
    ghost use Rattle.shell_state.specs.CoreParts.{CorePart};

    ghost Value = { CorePart };

    ghost use Rattle.shell_state.specs.views.Core.{core_view};
    ghost use Rattle.shell_state.specs.inside.CoreInside.{IsCore};

    ghost view = { core_view };

    ghost invariant = { IsCore };
}

fn push(list: &mut Vec<Timed>, t: Timed) -> Result<(), OutOfMemory>
    ensures ok { OnOk result (list.new.items ≡ list.old.items ++ t ∷ []) }
    ensures err { OnErr result (list.new.items ≡ list.old.items) }
{
    list.reserve(1)?;
    list.push_reserved(t);
    Ok(())
}

fn has_none_left(core: &LinkCore) -> bool
    ensures { result ≡ nat_le (length (opps_of core.now)) core.now.burnt }
{
    core.next_opportunity().is_none()
}

#[tactic(auto, unfolding(crate::specs::Shells::opportunities, crate::specs::Shells::out, crate::specs::Shells::lost, crate::specs::Shells::inside, crate::specs::Shells::shell_log, crate::specs::Shells::floor))]
impl Core {
    /// The direction before any arrival, with horizon in milliseconds, or out of memory.
    pub fn new(alloc: Global, spec: DirSpec, horizon: u64) -> Result<Core, OutOfMemory>
        requires range { IsInRange spec }
        requires horizon { horizon ≤ HOUR }
        requires few { length (opportunities spec horizon) ≤ MOST_OPPORTUNITIES }
        ensures is { IfOk result (λ c. c ≡ new_part spec horizon) }
        ensures built { OnOk result (IsBuilt spec) }
    {
        let inner = match spec {
            DirSpec::Pass => Inner::Pass(Vec::new(alloc)),
            DirSpec::Delay { ms } => Inner::Delay {
                core: DelayCore::new(alloc, ms, horizon),
                ms,
            },
            DirSpec::Loss { rate, seed, stream } => Inner::Loss {
                core: LossCore::new(alloc, rate, ChaWords::new(seed, stream)),
                seed,
                stream,
            },
            DirSpec::Link { trace, once, queue } => {
                let _ = trace.form(); // fact: what IsTrace says of a trace
                Inner::Link(LinkCore::new(alloc, trace, once, queue, horizon)?)
            }
        };
        Ok(Core {
            alloc,
            until: horizon,
            inner,
        })
    }

    /// Burns every opportunity up to the packet's moment, and then lets the packet in. Where it runs out of memory the
    /// direction is as it was.
    pub fn arrive(&mut self, t: Timed) -> Result<(), OutOfMemory>
        requires until { t.moment ≤ self.old.horizon }
        requires order { AreUpTo t.moment self.old.arrivals }
        requires burnt { self.old.burnt ≤ count_to (opportunities self.old.spec self.old.horizon) t.moment }
        ensures ok { OnOk result (self.new ≡ with_arrival self.old t) }
        ensures err { OnErr result (self.new ≡ self.old) }
    {
        match &mut self.inner {
            Inner::Pass(arrived) => push(arrived, t),
            Inner::Delay { core, ms: _ } => core.arrive(t),
            Inner::Loss {
                core,
                seed: _,
                stream: _,
            } => core.arrive(t),
            Inner::Link(core) => core.arrive(t),
        }
    }

    /// Burns the next opportunities up to the moment `bound`, at most `most` of them, and returns how many. Where there
    /// is none it needs no memory. Where it runs out of memory the direction is as it was.
    pub fn burn(&mut self, bound: u64, most: u32) -> Result<u32, OutOfMemory>
        ensures count { IfOk result (λ n. n ≡ burns self.old bound most) }
        ensures burnt { IfOk result (λ n. self.new ≡ with_burnt self.old n) }
        ensures err { OnErr result (self.new ≡ self.old) }
        ensures due { OnErr result (self.old.burnt < count_to (opportunities self.old.spec self.old.horizon) bound) }
    {
        match &mut self.inner {
            Inner::Pass(_) | Inner::Delay { .. } | Inner::Loss { .. } => Ok(0),
            Inner::Link(core) => core.burn(bound, most),
        }
    }

    /// The packets that arrived, in order.
    pub fn arrivals(&self) -> &[Timed]
        ensures { result.now ≡ self.now.arrivals }
    {
        match &self.inner {
            Inner::Pass(arrived) => arrived.as_slice(),
            Inner::Delay { core, .. } => core.arrivals(),
            Inner::Loss { core, .. } => core.arrivals(),
            Inner::Link(core) => core.arrivals(),
        }
    }

    /// The packets that departed, in order, each at the moment of its departure.
    pub fn departed(&self) -> &[Timed]
        ensures { result.now ≡ out self.now.spec self.now.horizon self.now.burnt self.now.arrivals }
    {
        match &self.inner {
            Inner::Pass(arrived) => arrived.as_slice(),
            Inner::Delay { core, .. } => core.departed(),
            Inner::Loss { core, .. } => core.departed(),
            Inner::Link(core) => core.departed(),
        }
    }

    /// The packets that were dropped, in order, each at the moment of its drop.
    pub fn lost(&self) -> &[Timed]
        ensures { result.now ≡ lost self.now.spec self.now.horizon self.now.burnt self.now.arrivals }
    {
        match &self.inner {
            Inner::Pass(_) | Inner::Delay { .. } => &[],
            Inner::Loss { core, .. } => core.lost(),
            Inner::Link(core) => core.lost(),
        }
    }

    /// The log of a link, of all that arrived and of the opportunities that are burnt; `None` for the other kinds. It
    /// isn't written out: it keeps a copy of the arrivals, for which memory may run out.
    pub fn log(&self) -> Result<Option<LinkLog>, OutOfMemory>
        ensures { IfOk result (λ log. log ≡ if_link self.now.spec
            (shell_log self.now.spec self.now.horizon self.now.burnt self.now.arrivals)) }
    {
        match &self.inner {
            Inner::Pass(_) | Inner::Delay { .. } | Inner::Loss { .. } => Ok(None),
            Inner::Link(core) => Ok(Some(core.log()?)),
        }
    }

    /// The numbers of the packets that neither departed nor were dropped, in order, or out of memory. In a link the
    /// packet in transit is the first.
    pub fn inside(&self) -> Result<Vec<u32>, OutOfMemory>
        ensures { IfOk result (λ ids. ids.items ≡ map (λ t. t.packet.id)
            (inside self.now.spec self.now.horizon self.now.burnt self.now.arrivals)) }
    {
        match &self.inner {
            Inner::Pass(_) | Inner::Loss { .. } => Ok(Vec::new(self.alloc)),
            Inner::Delay { core, .. } => core.inside(),
            Inner::Link(core) => core.inside(),
        }
    }

    /// The floor, in milliseconds: no packet that is still to depart does so before it, where none that is still to
    /// arrive is before `bound`. One that has departed may be before it.
    pub fn floor(&self, bound: u64) -> u64
        requires { bound ≤ self.now.horizon + 1 }
        ensures { result ≡ floor self.now.spec self.now.horizon self.now.burnt bound }
    {
        match &self.inner {
            Inner::Pass(_) | Inner::Loss { .. } => bound,
            Inner::Delay { ms, .. } => (bound + *ms).min(self.until + 1),
            Inner::Link(core) => core.next_opportunity().unwrap_or(self.until + 1),
        }
    }

    /// Whether every opportunity up to the horizon is burnt.
    pub fn is_spent(&self) -> bool
        ensures { result ≡ is_spent self.now }
    {
        match &self.inner {
            Inner::Pass(_) | Inner::Delay { .. } | Inner::Loss { .. } => true,
            Inner::Link(core) => has_none_left(core),
        }
    }

    /// The last moment at which anything happens, in milliseconds.
    pub fn horizon(&self) -> u64
        ensures is { result ≡ self.now.horizon }
        ensures small { result ≤ HOUR }
    {
        self.until
    }

    /// Gives the direction up for its lists, none of which is copied. A link's log isn't written out: it keeps the
    /// packets from which it is made. Memory may run out for the numbers of the packets inside.
    pub fn into_passage(self) -> Result<Passage, OutOfMemory>
        ensures departed { IfOk result (λ p. p.departed.items ≡ out self.spec self.horizon self.burnt self.arrivals) }
        ensures lost { IfOk result (λ p. p.lost.items ≡ lost self.spec self.horizon self.burnt self.arrivals) }
        ensures held { IfOk result (λ p. p.held.items ≡ map (λ t. t.packet.id)
            (inside self.spec self.horizon self.burnt self.arrivals)) }
        ensures log { IfOk result (λ p. p.log ≡ if_link self.spec
            (shell_log self.spec self.horizon self.burnt self.arrivals)) }
    {
        let Core {
            alloc,
            until: _,
            inner,
        } = self;
        match inner {
            Inner::Pass(arrived) => Ok(passage(alloc, arrived, Vec::new(alloc))),
            Inner::Delay { core, ms: _ } => {
                let held = core.inside()?;
                Ok(late_passage(alloc, core.into_departed(), held))
            }
            Inner::Loss {
                core,
                seed: _,
                stream: _,
            } => {
                let (departed, lost) = core.into_lists();
                Ok(passage(alloc, departed, lost))
            }
            Inner::Link(core) => core.into_passage(),
        }
    }
}

/// Runs the direction over all packets up to the horizon, or runs out of memory. The passage has a log exactly where
/// `logged` and the shell is a link; it isn't written out, and keeps the packets from which it is made.
#[tactic(auto, unfolding(crate::specs::Shells::opportunities, crate::specs::Shells::out, crate::specs::Shells::lost, crate::specs::Shells::inside, crate::specs::Shells::shell_log))]
pub fn run_whole(
    alloc: Global,
    spec: DirSpec,
    horizon: u64,
    logged: bool,
    packets: Vec<Timed>,
) -> Result<Passage, OutOfMemory>
    requires range { IsInRange spec }
    requires horizon { horizon ≤ HOUR }
    requires few { length (opportunities spec horizon) ≤ MOST_OPPORTUNITIES }
    requires rises { Rise packets.items }
    requires within { AreUpTo horizon packets.items }
    ensures departed { IfOk result (λ p. p.departed.items ≡ whole_out spec horizon packets.items) }
    ensures lost { IfOk result (λ p. p.lost.items ≡ whole_lost spec horizon packets.items) }
    ensures held { IfOk result (λ p. p.held.items ≡ map (λ t. t.packet.id)
        (inside spec horizon (length (opportunities spec horizon)) packets.items)) }
    ensures log { IfOk result (λ p. p.log ≡ (if logged then if_link spec (whole_log spec horizon packets.items)
        else None)) }
    ensures built { OnOk result (IsBuilt spec) }
{
    let mut packets = packets;
    match spec {
        DirSpec::Pass => Ok(passage(alloc, packets, Vec::new(alloc))),
        DirSpec::Delay { ms } => {
            let held = delay_all(alloc, ms, horizon, &mut packets)?;
            Ok(late_passage(alloc, packets, held))
        }
        DirSpec::Loss { rate, seed, stream } => {
            let words = ChaWords::new(seed, stream);
            let lost = lose_all(alloc, rate, words, &mut packets)?;
            Ok(passage(alloc, packets, lost))
        }
        DirSpec::Link { trace, once, queue } => link(
            alloc, trace, once, queue, horizon, logged, packets,
        ),
    }
}

/// The log of a direction over all packets up to the horizon, where the shell is a link. Nothing is run for it before
/// it is asked for: it keeps the packets from which it is made.
#[tactic(auto, using(crate::proofs::WholeLemmas::all_taken), unfolding(crate::specs::Shells::opportunities, crate::specs::Shells::shell_log))]
pub fn whole_link_log(
    alloc: Global,
    spec: DirSpec,
    horizon: u64,
    packets: Vec<Timed>,
) -> Option<LinkLog>
    requires horizon { horizon ≤ HOUR }
    requires few { length (opportunities spec horizon) ≤ MOST_OPPORTUNITIES }
    requires rises { Rise packets.items }
    requires within { AreUpTo horizon packets.items }
    ensures { result ≡ if_link spec (whole_log spec horizon packets.items) }
{
    match spec {
        DirSpec::Link { trace, once, queue } => Some(LinkLog::whole(
            alloc, trace, once, queue, horizon, packets,
        )),
        DirSpec::Pass | DirSpec::Delay { .. } | DirSpec::Loss { .. } => None,
    }
}
