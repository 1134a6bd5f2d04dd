// What there is once for each direction.

/// One value for each direction: packets go up from the innermost shell out, and down the other way.
#[derive(Drop)]
pub struct Both<T> {
    /// What belongs to packets that go up.
    pub up: T,
    /// What belongs to packets that go down.
    pub down: T,
}
