// The actors that take the steps of a world, and their numbers.
ghost use Rattle.std.specs.Prelude.{◌≡◌};
ghost use Rattle.nest_core.specs.Actors.{actor_of};

// An actor of a world. Shells are counted from 0 in passing order.
#[derive(Clone, Copy)]
pub(crate) enum Actor {
    // The source sends.
    Source,
    // The feeder of a shell receives, or at the place past the last shell the collector.
    Receiver(usize),
    // The feeder of a shell feeds.
    Feeder(usize),
    // The drain of a shell takes.
    Taker(usize),
    // The drain of a shell sends.
    Sender(usize),
}

// Returns the actor of a number: 0 is the source, and each shell has four more.
pub(crate) fn actor_of(number: u32) -> Actor
    ensures { result ≡ actor_of number }
{
    let Some(place) = number.checked_sub(1) else {
        return Actor::Source;
    };
    let shell = (place / 4) as usize;
    match place % 4 {
        0 => Actor::Receiver(shell),
        1 => Actor::Feeder(shell),
        2 => Actor::Taker(shell),
        _ => Actor::Sender(shell),
    }
}
