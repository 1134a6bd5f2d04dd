// How a waiting thread looks before it sleeps.
use std::hint::spin_loop;

/// How often a waiting thread looks before it sleeps. It calls `pause` after each look.
pub const LOOKS: u32 = 2;

// How many spin hints a waiting thread gives after its first look, and how often that number doubles. By the last pause
// a wait has taken some microseconds, about as long as a sleep and a wake.
const FIRST_PAUSE: u32 = 32;

const DOUBLINGS: u32 = 1;

/// Pauses after the look of this number, counted from 0: longer after later ones.
///
/// A pause is long on purpose. Meanwhile the other thread does many things alone. After a short pause both would take
/// turns at the same cache lines, thing by thing.
pub fn pause(look: u32) {
    for _ in 0..FIRST_PAUSE << look.min(DOUBLINGS) {
        spin_loop();
    }
}
