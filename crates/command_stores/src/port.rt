// The port of an option.
ghost use Rattle.std.specs.Prelude.{◌≡◌, option_map};
ghost use Rattle.command_stores.specs.Ports.{given_port};

use option_words::read_port;

/// Returns the port of an option's text. Returns `Some(None)` if the option isn't given, and `None` if its text
/// is no port.
pub(crate) fn given_port(text: Option<&str>) -> Option<Option<u16>>
    ensures { result ≡ given_port (option_map (λ t. t.now) text.entry) }
{
    match text {
        Some(text) => match read_port(text) {
            Some(port) => Some(Some(port)),
            None => None,
        },
        None => Some(None),
    }
}
