// The channels of all senders. They are opened before any thread starts, and settled after all have ended.
ghost use Rattle.std.specs.Prelude.{◌≡◌, ◌≢◌, ◌+◌, length, IfOk, OnOk};
ghost use Rattle.packet_record.specs.declared.item.FlowEnd.TheVariants.{Open};
ghost use Rattle.sender_merge.specs.inside.Gates.{AllEnds, AllFresh, AreEnds, AreSettled, IsFresh, IsSettled};
ghost use Rattle.sender_merge.specs.inside.Inlets.{AllClosed};

use crate::inlet::Inlet;
use crate::outlet::Outlet;
use mark_channel::settle;
use packet_record::Both;
use std::alloc::Global;
use text_base::OutOfMemory;

// How many items a channel of a sender holds at most.
const CAPACITY: u32 = 64;

// The sending ends of each sender, and its receiving ends in both directions.
#[derive(Drop)]
pub(crate) struct Gates {
    pub alloc: Global,
    pub outlets: Vec<Outlet>,
    pub ups: Vec<Inlet>,
    pub downs: Vec<Inlet>,
}

impl Gates {
    // Opens the channels of `senders` senders for a run up to `horizon`.
    pub fn open(alloc: Global, horizon: u64, senders: usize) -> Result<Gates, OutOfMemory>
        ensures fresh { IfOk result (λ g. AllFresh horizon g.outlets.items g.ups.items g.downs.items) }
        ensures long { IfOk result (λ g. length g.outlets.items ≡ senders) }
    {
        let mut gates = Gates {
            alloc,
            outlets: Vec::with_capacity(alloc, senders)?,
            ups: Vec::with_capacity(alloc, senders)?,
            downs: Vec::with_capacity(alloc, senders)?,
        };
        for _ in 0..senders {
            gates.add(horizon)?;
        }
        Ok(gates)
    }

    // Opens the channels of one more sender.
    fn add(&mut self, horizon: u64) -> Result<(), OutOfMemory>
        requires { AllFresh horizon self.old.outlets.items self.old.ups.items self.old.downs.items }
        ensures fresh { OnOk result (AllFresh horizon self.new.outlets.items self.new.ups.items self.new.downs.items) }
        ensures long { OnOk result (length self.new.outlets.items ≡ length self.old.outlets.items + 1) }
    {
        let (outlet, up, down) = open_one(self.alloc, horizon)?;
        self.outlets.push(outlet)?;
        self.ups.push(up)?;
        self.downs.push(down)?;
        Ok(())
    }

    // Settles all channels, once nothing more comes out of any: all that was sent was received.
    pub fn settle(self)
        requires ends { AllEnds self.outlets.items self.ups.items self.downs.items }
        requires closed { AllClosed self.ups.items × AllClosed self.downs.items }
        ensures { AreSettled self.outlets.items self.ups.items self.downs.items }
    {
        let Gates {
            outlets,
            ups,
            downs,
            alloc: _,
        } = self;
        let mut up_inlets = ups.into_iter();
        let mut down_inlets = downs.into_iter();
        for outlet in outlets {
            let (Some(up), Some(down)) = (up_inlets.next(), down_inlets.next()) else {
                unreachable!()
            };
            settle_one(outlet, up, down);
        }
    }
}

// Opens the channels of one sender. Returns its sending ends, and its receiving ends up and down.
fn open_one(alloc: Global, horizon: u64) -> Result<(Outlet, Inlet, Inlet), OutOfMemory>
    ensures { IfOk result (λ ends. IsFresh horizon ends.0 ends.1 ends.2) }
{
    let (up_to, up_from) = mark_channel::open(alloc, CAPACITY, horizon)?;
    let (down_to, down_from) = mark_channel::open(alloc, CAPACITY, horizon)?;
    let heads = Both {
        up: up_to,
        down: down_to,
    };
    Ok((Outlet { heads }, Inlet::new(up_from), Inlet::new(down_from)))
}

// Settles the channels of one sender.
fn settle_one(outlet: Outlet, up: Inlet, down: Inlet)
    requires ends { AreEnds outlet up down }
    requires closed { (up.from.flow.end ≢ Open) × (down.from.flow.end ≢ Open) }
    ensures { IsSettled outlet up down }
{
    let Both {
        up: up_to,
        down: down_to,
    } = outlet.heads;
    settle(up_to, up.from);
    settle(down_to, down.from);
}
