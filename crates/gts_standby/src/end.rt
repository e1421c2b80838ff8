ghost use Rattle.std.specs.Prelude.{◌≡◌};
ghost use Rattle.gts_standby.specs.Following.{open_end};
ghost use Rattle.gts_standby.specs.declared.end.FollowEnd.TheVariants as end;

use gts_journal::OpenFault;
use gts_traits::NoMemory;

/// How a feed ended that was taken into a journal.
#[derive(Clone, Copy, Debug, PartialEq, Eq)]
pub enum FollowEnd {
    /// The source gave its end, and each whole record of the feed is in the journal.
    Done,
    /// The journal doesn't open.
    Open(OpenFault),
    /// The feed is bad at this place, from 0 on: a byte of the header differs there from the journal's, or a record begins there
    /// that may not stand there or whose seal differs.
    Feed {
        at: u64,
    },
    /// The records with this number, from 0 on, have different seals, both of them right.
    Diverged {
        index: u64,
        own: [u8; 32],
        fed: [u8; 32],
    },
    /// The source of the feed failed.
    SourceFault,
    /// The disk failed.
    DiskFault,
    /// There was no memory.
    NoMemory,
}

impl From<NoMemory> for FollowEnd {
    ghost from_gives = { λ _ e. e ≡ end.NoMemory };

    fn from(_: NoMemory) -> Self {
        FollowEnd::NoMemory
    }
}

impl From<OpenFault> for FollowEnd {
    ghost from_gives = { λ f e. e ≡ open_end f };

    fn from(fault: OpenFault) -> Self {
        match fault {
            OpenFault::DiskFault => FollowEnd::DiskFault,
            OpenFault::NoMemory => FollowEnd::NoMemory,
            fault => FollowEnd::Open(fault),
        }
    }
}
