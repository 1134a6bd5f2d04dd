// How far a proxy has come that serves clients beside each other.
ghost use Rattle.std.specs.Prelude.{◌≤◌, ◌+◌};
ghost use Rattle.replay_server.specs.inside.Tallies.{total};

use crate::ends::ProxyEnd;
use crate::serving::with_end;
use record_store::Store;
use replay_server::Served;
use std::alloc::Global;
use text_base::OutOfMemory;

/// How many clients are accepted in all.
pub(crate) const MOST_RECORDED: u32 = u32::MAX;

/// The records of the clients that came back, how these ended, how many were accepted, and how many of them are away.
#[derive(Drop)]
pub(crate) struct RecordingStanding {
    pub records: Store,
    pub served: Served,
    pub begun: u32,
    pub away: u32,
    pub ghost within: { total served + away ≤ begun },
}

impl RecordingStanding {
    ghost use Rattle.std.specs.Prelude.{◌≡◌, ◌<◌, ◌+◌, ◌-◌, ◌++◌, [], None, IfOk};
    ghost use Rattle.replay_server.specs.Servings.{no_ends};
    ghost use Rattle.record_proxy.specs.Servings.{counted_as, most_recorded};
    ghost use Rattle.record_proxy.specs.inside.Passing.{plus};

    /// Nobody was accepted.
    pub(crate) fn new(alloc: Global) -> RecordingStanding
        ensures records { result.records ≡ [] }
        ensures served { result.served ≡ no_ends }
        ensures none { (result.begun ≡ 0) × (result.away ≡ 0) }
    {
        RecordingStanding {
            records: Store::new(alloc),
            served: Served::none(),
            begun: 0,
            away: 0,
        }
    }

    /// One client more was accepted and sent away.
    pub(crate) fn with_one_away(self) -> RecordingStanding
        requires { self.begun < most_recorded }
        ensures same { (result.records ≡ self.records) × (result.served ≡ self.served) }
        ensures one { (result.begun ≡ self.begun + 1) × (result.away ≡ self.away + 1) }
    {
        RecordingStanding {
            records: self.records,
            served: self.served,
            begun: self.begun + 1,
            away: self.away + 1,
        }
    }

    /// One client more was accepted and is finished, for which the dialer failed.
    pub(crate) fn with_one_lost(self) -> RecordingStanding
        requires { self.begun < most_recorded }
        ensures records { result.records ≡ self.records }
        ensures served { result.served ≡ plus self.served (counted_as None) }
        ensures one { (result.begun ≡ self.begun + 1) × (result.away ≡ self.away) }
    {
        RecordingStanding {
            records: self.records,
            served: with_end(None, self.served),
            begun: self.begun + 1,
            away: self.away,
        }
    }

    /// One that was away came back and has ended so, with these records.
    pub(crate) fn with_one_back(
        self,
        end: Option<ProxyEnd>,
        records: Store,
    ) -> Result<RecordingStanding, OutOfMemory>
        requires { 0 < self.away }
        ensures records { IfOk result (λ next. next.records ≡ self.records ++ records) }
        ensures served { IfOk result (λ next. next.served ≡ plus self.served (counted_as end)) }
        ensures one { IfOk result (λ next. (next.begun ≡ self.begun) × (next.away ≡ self.away - 1)) }
    {
        let RecordingStanding {
            records: before,
            served,
            begun,
            away,
        } = self;
        let mut all = before;
        all.append(records)?;
        Ok(RecordingStanding {
            records: all,
            served: with_end(end, served),
            begun,
            away: away - 1,
        })
    }
}
