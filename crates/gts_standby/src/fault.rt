ghost use Rattle.std.specs.Prelude.{◌≡◌};
ghost use Rattle.gts_standby.specs.Shipping.{ship_fault};
ghost use Rattle.gts_standby.specs.declared.fault.ShipFault.TheVariants as fault;

use gts_journal::OpenFault;
use gts_traits::Failed;

/// Why a feed was not said, or only a front of it.
#[derive(Clone, Copy, Debug, PartialEq, Eq)]
pub enum ShipFault {
    /// The journal doesn't open: nothing was said.
    Open(OpenFault),
    /// The disk failed.
    DiskFault,
    /// Saying failed.
    SayFault,
    /// There was no memory.
    NoMemory,
}

impl From<Failed> for ShipFault {
    ghost from_gives = { λ _ e. e ≡ fault.DiskFault };

    fn from(_: Failed) -> Self {
        ShipFault::DiskFault
    }
}

impl From<OpenFault> for ShipFault {
    ghost from_gives = { λ f e. e ≡ ship_fault f };

    fn from(fault: OpenFault) -> Self {
        match fault {
            OpenFault::DiskFault => ShipFault::DiskFault,
            OpenFault::NoMemory => ShipFault::NoMemory,
            fault => ShipFault::Open(fault),
        }
    }
}
