// At which ports a dialer was asked for connections.
ghost use Rattle.std.specs.Prelude.{◌≡◌};
ghost use Rattle.record_proxy.specs.Asking.{asked_at};

/// At which ports a dialer was asked for connections, whether it gave them or not.
#[derive(Clone, Copy, Debug, PartialEq, Eq)]
pub enum PortsAsked {
    /// At none yet.
    Never,
    /// At the port of this number alone.
    Alone(u16),
    /// At ports of several numbers.
    Several,
}

impl PortsAsked {
    /// The dialer is asked once more, at the port of this number.
    pub fn ask(&mut self, number: u16)
        ensures { self.new ≡ asked_at number self.old }
    {
        match *self {
            PortsAsked::Never => *self = PortsAsked::Alone(number),
            PortsAsked::Alone(before) => {
                if before != number {
                    *self = PortsAsked::Several;
                }
            }
            PortsAsked::Several => {}
        }
    }
}
