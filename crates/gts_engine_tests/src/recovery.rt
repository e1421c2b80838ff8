ghost use Rattle.std.specs.Prelude.{◌≤◌, ◌^◌, length};

use gts_directory::Directory;
use gts_memory::MemStation;
use gts_parts_tests::two_circuits;
use gts_recovery::{OpenFault, open_core};
use gts_traits::{JournalFile, Station};
use std::alloc::Global;
use std::test::Fail;

/// A journal with no record.
const EMPTY: &[u8] = b"GTSJ0002the mark of this small directoryC";

/// A journal with an accepted bulletin, and its draw on circuit 1.
const BOTH: &[u8] =
    b"GTSJ0002the mark of this small directoryOA\0A\0\0\0\0\0\0\0\0\0\0\0\0\x1dSMVG01 TVSV 280000\r\r\
\nNIL=\r\r\n\x03R\xb1\xd8\xad\xe4\x7f\xb4\xb4\xb9\xedZ\x10n=(\xb6\xd8\x7fp\xa5Il\xa1\xeawNy]\xaf\
\xa1\x02\xf2OD\x01\0\0\0\0\0\0\0\0\0\0\0\0\0\0\0\0\0\0\0\0\0T\xe3\xb2\xd7\xba\x9a0{\xbf\xaf\xf9{\
\xb7\x05[\x13\xcdp\xe3`C\xee\xdb\xceO\x1b\xda{\x90x~\x1dC";

/// The same with a draw of another index.
const WRONG_INDEX: &[u8] =
    b"GTSJ0002the mark of this small directoryOA\0A\0\0\0\0\0\0\0\0\0\0\0\0\x1dSMVG01 TVSV 280000\r\r\
\nNIL=\r\r\n\x03R\xb1\xd8\xad\xe4\x7f\xb4\xb4\xb9\xedZ\x10n=(\xb6\xd8\x7fp\xa5Il\xa1\xeawNy]\xaf\
\xa1\x02\xf2OD\x01\0\0\0\0\0\0\0\0\0\0\0\0\0\0\0\0\0\0\0\0\x01\x8e\x10\x84\xc0\xe1g\xb7\xe4'\xf5\
\xe2\xc5*\x0c\x19\xbd>\x11\xfb\xffT\x93f@@\x85\xa2\x86\x81Gi\xbaC";

/// A bulletin that isn't the next.
const WRONG_POSITION: &[u8] =
    b"GTSJ0002the mark of this small directoryOA\0A\0\0\0\0\0\0\0\0\x01\0\0\0\x1dSMVG01 TVSV 280000\r\
\r\nNIL=\r\r\n\x03\x0f?\x16\xc2E\xd5\xdb\xb7U\x9706\xd3(\xdb<\xa9\xce\xd7\xe1\xbb\xa0\xcaoc\xea\
\xcbV\x01\xb8\xc0\x12C";

/// A journal that begins with a checkpoint.
const CHECKPOINT: &[u8] = b"GTSJ0002the mark of this small directoryOC\0\0\0\0\0\0\x02";

/// Opens a journal of these bytes, and answers `used` and how many bulletins were accepted.
fn opened<P: Station>(
    alloc: Global,
    station: &mut P,
    directory: &Directory,
    file: &[u8],
) -> Result<(u64, u64), OpenFault>
    requires { length file.now ≤ 2 ^ 20 }
{
    station.write_at(JournalFile::FIRST, 0, file)?;
    let (core, journal) = open_core(alloc, station, directory)?;
    let found = (journal.used(), core.accepted());
    drop(core);
    drop(journal);
    Ok(found)
}

/// The same in a station that has nothing.
fn opened_of(alloc: Global, file: &[u8]) -> Result<Result<(u64, u64), OpenFault>, Fail> {
    if file.len() > 1000 {
        return Err(Fail::from("too long"));
    }
    let directory = two_circuits(alloc)?;
    let mut station = MemStation::new(alloc, &[])?;
    let found = opened(alloc, &mut station, &directory, file);
    drop(station);
    drop(directory);
    Ok(found)
}

#[test]
fn a_journal_is_opened_to_what_its_records_lead_to(rt: HostRuntime) -> Result<(), Fail> {
    assert!(rt; opened_of(rt.alloc(), EMPTY)? == Ok((41, 0)));
    assert!(rt; opened_of(rt.alloc(), BOTH)? == Ok((175, 1)));
    Ok(())
}

/// Journals with a record that breaks a rule, and where it stands.
const DAMAGED: [(&[u8], u64); 3] = [(WRONG_INDEX, 119), (WRONG_POSITION, 41), (CHECKPOINT, 41)];

#[test]
fn a_record_that_breaks_a_rule_is_damage(rt: HostRuntime) -> Result<(), Fail> {
    for (file, at) in DAMAGED {
        let fault = OpenFault::Damaged { file: 0, at };
        assert!(rt; opened_of(rt.alloc(), file)? == Err(fault));
    }
    let cut = BOTH.get(..118).unwrap_or(&[]);
    let fault = OpenFault::Damaged { file: 0, at: 118 };
    assert!(rt; opened_of(rt.alloc(), cut)? == Err(fault));
    assert!(rt; opened_of(rt.alloc(), b"")? == Err(OpenFault::NoJournal));
    Ok(())
}
