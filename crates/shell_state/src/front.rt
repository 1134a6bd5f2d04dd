// What was taken of a state: how many of its departures, and how far its stream has come.
ghost use Rattle.std.specs.Prelude.{◌≡◌};
ghost use Rattle.packet_record.specs.Reaches.{IsNext};
ghost use Rattle.shell_state.specs.inside.Fronts.{no_front, front_after, CanCount};

use packet_record::{Item, Reach};

// The first `count` departures, and how far the stream of what was taken has come.
#[derive(Clone, Copy)]
pub(crate) struct Front {
    pub(crate) count: usize,
    pub(crate) reach: Reach,
}

impl Front {
    pub(crate) fn new() -> Front
        ensures { result ≡ no_front }
    {
        Front {
            count: 0,
            reach: Reach::new(),
        }
    }

    // Goes on to the item that is taken. A packet is the next departure.
    pub(crate) fn add(&mut self, item: Item)
        requires follows { IsNext self.old.reach item }
        requires room { CanCount self.old.count item }
        ensures { self.new ≡ front_after self.old item }
    {
        if let Item::Packet(_) = item {
            self.count += 1;
        }
        self.reach.add(item);
    }
}
