ghost use Rattle.gts_words.specs.declared.command.WordsFault.TheVariants as faults;
ghost use Rattle.std.specs.Prelude.{◌≡◌};

use std::alloc::AllocError;

/// What the switch is asked to do.
#[derive(Clone, Copy, Debug, PartialEq, Eq)]
pub enum Command {
    /// To make an empty journal.
    Init,
    /// To work through a capture.
    Replay,
    /// To work on the lines of the circuits, each over so many incoming connections.
    Serve { connections: u32 },
    /// To work on the lines of the circuits as a service, without end.
    ServeAlways,
    /// To say what the switch stands at.
    Show,
    /// To write the journal anew, shorter.
    Compact,
    /// To work through so many messages that it makes itself.
    Generate { count: u32 },
    /// To take the journal over under a directory that takes over from its own.
    Migrate,
    /// To take it over all the same where something waits on closed circuits, and to say a receipt for each bulletin that is
    /// dropped there.
    MigrateDrop,
    /// To say what would change, and to take nothing over.
    MigrateCheck,
    /// To work through a file of accumulated bulletins, with its messages on this circuit.
    Unpack { c: u32 },
    /// To make a file of accumulated bulletins of a stream of frames.
    Pack,
    /// To tell which numbers are missing in a capture, and to ask for them at this time.
    Gaps { day: u32, hour: u32, minute: u32 },
    /// To say the feed of the journal, for a standby station.
    Ship,
    /// To say what of the feed is behind so many bytes of a journal, which end with a closed gate and this seal before it.
    ShipSince { used: u64, seal: [u8; 32] },
    /// To take a feed into the journal.
    Follow,
    /// To work through a capture, and to say a table of the traffic behind it.
    Count,
    /// To say what is odd of the directory.
    Check,
    /// To say where a bulletin would go whose heading begins so.
    CheckHeading { heading: [u8; 11] },
    /// To say where it would go if it came in on this circuit.
    CheckFrom { heading: [u8; 11], from: u32 },
}

/// Why words are no command.
#[derive(Clone, Copy, Debug, PartialEq, Eq)]
pub enum WordsFault {
    /// They are none of the lists that are defined.
    Words,
    /// There was no memory to read them.
    NoMemory,
}

impl From<AllocError> for WordsFault {
    ghost from_gives = { λ _ e. e ≡ faults.NoMemory };

    fn from(_: AllocError) -> WordsFault {
        WordsFault::NoMemory
    }
}
