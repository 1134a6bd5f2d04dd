// What `mm-record` is asked for.
ghost use Rattle.std.specs.Prelude.{◌≤◌};

// The port to listen at, the site's port, how many clients are served, or until ended how many at a time, and the name
// of the store's file.
#[derive(Drop)]
pub(crate) struct ProxyJob<'a> {
    pub port: u16,
    pub site_port: u16,
    pub connections: u32,
    pub out: &'a str,
    pub until_ended: bool,
    pub ghost few: { connections ≤ 64 },
}
