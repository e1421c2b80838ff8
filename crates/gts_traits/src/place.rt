ghost use Rattle.std.specs.Prelude.{◌≡◌};
ghost use Rattle.gts_traits.specs.Places.{place_seen, nowhere};

use std::net::Ipv4Addr;

/// Where the two lines of a circuit are.
#[derive(Clone, Copy, Drop)]
pub struct Place {
    /// The address of this machine on which the switch listens.
    pub address: Ipv4Addr,
    /// The port on which it listens: the circuit's bytes come in there.
    pub input: u16,
    /// The address of the neighbour: callers come from there, and the circuit's bytes go there.
    pub host: Ipv4Addr,
    /// The neighbour's port, to which the circuit's bytes go out.
    pub output: u16,
    /// After how many seconds without a byte a line counts as broken. None: never.
    pub idle: Option<u16>,
}

impl Place {
    /// The place of a circuit that was never to be opened: it has no ports.
    pub fn nowhere() -> Place
        ensures { place_seen result ≡ nowhere }
    {
        Place {
            address: Ipv4Addr::new(127, 0, 0, 1),
            input: 0,
            host: Ipv4Addr::new(127, 0, 0, 1),
            output: 0,
            idle: None,
        }
    }
}
