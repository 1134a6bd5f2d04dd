// What `replay` is asked for.
ghost use Rattle.std.specs.Prelude.{◌≤◌};

// The name of a store's file, the port to listen at, how many connections are served, or whether it is served until
// ended and how many at a time, and the port that requests are asked at.
#[derive(Drop)]
pub(crate) struct ReplayJob<'a> {
    pub store: &'a str,
    pub port: u16,
    pub connections: u32,
    pub site_port: u16,
    pub until_ended: bool,
    pub ghost some: { 1 ≤ connections },
    pub ghost few: { connections ≤ 64 },
}
