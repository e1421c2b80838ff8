ghost use Rattle.std.specs.Prelude.{◌≡◌, ◌<◌, ◌≤◌, List, length, Err};
ghost use Rattle.gts_gap.specs.Cited.{Comes, Decode, Directory as DirectoryFields, DoesStep, HasSourceCause, HasTableCause, IsHeadIn, IsNew, IsTabled, at_start, bytes_announced, head_of, no_bytes};

use crate::hearing::feed;
use crate::{GapTable, TableFault};
use gts_connection::CaptureKind;
use gts_directory::Directory;
use gts_frame::Decoder;
use gts_replay::{CaptureFault, Head, Steps, new_decoders, reopen_all};
use gts_traits::Source;
use std::alloc::Global;

/// Does the step of a head that was read. Only feeds and new connections change what the numbers are.
fn do_step<S: Source>(
    table: &mut GapTable,
    decoders: &mut [Decoder],
    steps: &mut Steps,
    capture: &mut S,
    head: Head,
) -> Result<(), CaptureFault>
    requires valid { IsHeadIn (length table.old) CaptureKind.Journaled (head_of head) }
    requires some { head ≡ Head.End → ⊥ }
    requires feed { steps.old.feed ≡ bytes_announced (head_of head) }
    requires decoders { length decoders.old ≡ length table.old }
    ensures does { DoesStep S.observed (head_of head) result steps.old steps.new
        (S.left capture.old) (S.left capture.new) decoders.old decoders.new table.old table.new }
    ensures circuits { length table.new ≡ length table.old }
    ensures cause { HasSourceCause result (S.faults capture.old) (S.faults capture.new) }
{
    match head {
        Head::Feed { c, .. } => {
            let decoder = &mut decoders[c as usize];
            return feed(table, c, decoder, steps, capture);
        }
        Head::Reopen { c } => decoders[c as usize].reopen(),
        Head::Restart => reopen_all(decoders),
        Head::Take { c: _ } => {}
        Head::Drain { c: _ } => {}
        Head::Compact => {}
        Head::End => {}
    }
    Ok(())
}

/// Does the steps of a capture, one after another, through its end.
fn run<S: Source>(
    table: &mut GapTable,
    decoders: &mut [Decoder],
    steps: &mut Steps,
    capture: &mut S,
) -> Result<(), CaptureFault>
    requires begins { steps.old ≡ at_start (length table.old) CaptureKind.Journaled }
    requires few { length table.old ≤ 100 }
    requires decoders { length decoders.old ≡ length table.old }
    ensures comes { (d : DirectoryFields) → IsNew d table.old decoders.old
        → Comes S.observed d result table.new (S.left capture.old) }
    ensures circuits { length table.new ≡ length table.old }
    ensures cause { HasSourceCause result (S.faults capture.old) (S.faults capture.new) }
{
    for _ in 0..u64::MAX {
        let head = steps.next(capture)?;
        if let Head::End = head {
            return Ok(());
        }
        do_step(table, decoders, steps, capture, head)?;
    }
    // No capture that is told has so many steps.
    Err(CaptureFault::Bad { at: u64::MAX })
}

/// Reads a capture through its end, and notes the numbers that came on each circuit of the directory. All memory is taken before
/// the first step.
pub fn table_of<S: Source>(
    alloc: Global,
    directory: &Directory,
    capture: &mut S,
) -> Result<GapTable, TableFault>
    ensures comes { IsTabled S.observed directory.now result (S.left capture.old) }
    ensures unread { result ≡ Err TableFault.NoMemory → capture.new ≡ capture.old }
    ensures cause { HasTableCause result (S.faults capture.old) (S.faults capture.new) }
{
    let circuits = directory.circuits();
    let mut table = GapTable::new(alloc, circuits)?;
    let mut decoders = new_decoders(alloc, circuits)?;
    let mut steps = Steps::new(circuits, CaptureKind::Journaled);
    run(&mut table, &mut decoders, &mut steps, capture)?;
    Ok(table)
}
