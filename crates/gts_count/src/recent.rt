ghost use Rattle.std.specs.Prelude.{◌≡◌};
ghost use Rattle.gts_count.specs.Tally as tallies;

/// What is counted of a bulletin that was accepted lately.
#[derive(Clone, Copy)]
pub struct Recent {
    /// Its place among all that were accepted.
    pub position: u64,
    /// The first two groups of its heading, TTAAii CCCC.
    pub key: [u8; 11],
    /// The circuit that it came in on.
    pub from: u32,
    /// How many bytes its body has.
    pub bytes: u32,
}

/// What is counted of a message where it is accepted. Its position is known then.
#[derive(Clone, Copy)]
pub struct Arrival {
    /// The first two groups of its heading, TTAAii CCCC.
    pub key: [u8; 11],
    /// The circuit that it comes in on.
    pub from: u32,
    /// How many bytes its body has.
    pub bytes: u32,
}

/// The bulletin that a message is at a position.
pub fn arrived(arrival: Arrival, position: u64) -> Recent
    ensures { result ≡ tallies.arrived position arrival }
{
    let key = arrival.key;
    Recent {
        position,
        key,
        from: arrival.from,
        bytes: arrival.bytes,
    }
}
