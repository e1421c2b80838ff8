ghost use Rattle.std.specs.Prelude.{◌≡◌};
ghost use Rattle.gts_migrate.specs.Answers.{write_fault};
ghost use Rattle.gts_migrate.specs.declared.fault.MigrateFault.TheVariants as faults;

use gts_checkpoint::WriteFault;
use gts_engine::CheckpointFull;
use gts_recovery::OpenFault;
use gts_traits::{Failed, NoMemory};

/// Why a journal was not taken over.
#[derive(Clone, Copy, Debug, PartialEq, Eq)]
pub enum MigrateFault {
    /// The journal could not be opened under the old directory.
    Open(OpenFault),
    /// Something waits on a circuit that is closed in the new directory.
    Waits {
        /// The first such circuit.
        circuit: u32,
        /// How many bulletins wait there.
        count: u64,
    },
    /// The checkpoint and all draws that are due would pass the limit of the new directory.
    Full {
        /// The bytes of the journal beside them.
        used: u64,
        /// The bytes that they take.
        need: u64,
        /// The limit.
        limit: u64,
    },
    /// The disk failed at it.
    DiskFault,
    /// The receipts of what is dropped could not be said.
    SayFault,
    /// There was no memory.
    NoMemory,
}

impl From<OpenFault> for MigrateFault {
    ghost from_gives = { λ fault made. made ≡ faults.Open fault };

    fn from(fault: OpenFault) -> MigrateFault {
        MigrateFault::Open(fault)
    }
}

impl From<CheckpointFull> for MigrateFault {
    ghost from_gives = { λ full made. made ≡ faults.Full full.used full.need full.limit };

    fn from(full: CheckpointFull) -> MigrateFault {
        MigrateFault::Full {
            used: full.used,
            need: full.need,
            limit: full.limit,
        }
    }
}

impl From<WriteFault> for MigrateFault {
    ghost from_gives = { λ fault made. made ≡ write_fault fault };

    fn from(fault: WriteFault) -> MigrateFault {
        match fault {
            WriteFault::DiskFault => MigrateFault::DiskFault,
            WriteFault::NoMemory => MigrateFault::NoMemory,
        }
    }
}

impl From<Failed> for MigrateFault {
    ghost from_gives = { λ _ made. made ≡ faults.DiskFault };

    fn from(_: Failed) -> MigrateFault {
        MigrateFault::DiskFault
    }
}

impl From<NoMemory> for MigrateFault {
    ghost from_gives = { λ _ made. made ≡ faults.NoMemory };

    fn from(_: NoMemory) -> MigrateFault {
        MigrateFault::NoMemory
    }
}
