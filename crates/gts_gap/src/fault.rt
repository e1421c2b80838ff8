ghost use Rattle.std.specs.Prelude.{◌≡◌};
ghost use Rattle.gts_gap.specs.Counting.{table_fault};
ghost use Rattle.gts_gap.specs.declared.fault.TableFault.TheVariants as table;

use gts_replay::CaptureFault;
use gts_traits::NoMemory;

/// Why no table of a capture's numbers was made.
#[derive(Clone, Copy, Debug, PartialEq, Eq)]
pub enum TableFault {
    /// The bytes are no capture: the first byte that no capture has in its place, counted from 0, or the number of bytes,
    /// where they end before the line of the end.
    Capture { at: u64 },
    /// Reading the capture failed.
    SourceFault,
    /// There was no memory. Nothing was read.
    NoMemory,
}

impl From<NoMemory> for TableFault {
    ghost from_gives = { λ _ made. made ≡ table.NoMemory };

    fn from(_: NoMemory) -> TableFault {
        TableFault::NoMemory
    }
}

impl From<CaptureFault> for TableFault {
    ghost from_gives = { λ fault made. made ≡ table_fault fault };

    fn from(fault: CaptureFault) -> TableFault {
        match fault {
            CaptureFault::Bad { at } => TableFault::Capture { at },
            CaptureFault::SourceFault => TableFault::SourceFault,
        }
    }
}

/// How a run of a capture ended that names the missing numbers.
#[derive(Clone, Copy, Debug, PartialEq, Eq)]
pub enum GapsEnd {
    /// What is missing was said.
    Done,
    /// The bytes are no capture, as at a table. Nothing was said.
    Capture { at: u64 },
    /// Reading the capture failed. Nothing was said.
    SourceFault,
    /// Saying failed.
    SayFault,
    /// There was no memory. Nothing was said.
    NoMemory,
}
