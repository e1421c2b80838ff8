use gts_real::{FileSource, FileStation};
use gts_traits::{Channel, Failed, JournalFile, Source, Station};
use std::fs;
use std::test::Fail;

/// Removes the journal files that a test made: the tests run in one folder, and each begins without them.
fn remove_journal(rt: &HostRuntime) -> Result<(), Fail> {
    for name in ["journal.0", "journal.1", "journal.2"] {
        if fs::exists(rt, name)? {
            fs::remove_file(rt, name)?;
        }
    }
    Ok(())
}

/// Makes the second journal file.
fn write_second(station: &mut FileStation<'_, HostRuntime>) -> Result<(), Failed> {
    station.sync()?;
    station.write_at(JournalFile::SECOND, 0, b"abcdef")?;
    station.cut(JournalFile::SECOND, 5)?;
    station.write_at(JournalFile::SECOND, 1, b"xy")?;
    station.sync()
}

/// Makes the second journal file by a station, and answers what another one reads of it meanwhile, and how its cut ends.
fn written_and_read(
    rt: &HostRuntime,
    into: &mut [u8; 4],
) -> Result<(usize, Result<(), Failed>), Failed> {
    let mut first = FileStation::new(rt);
    let made = write_second(&mut first);
    // While the first one is there, another only reads.
    let mut second = FileStation::new(rt);
    let count = second.read(JournalFile::SECOND, 1, into);
    let cut = second.cut(JournalFile::SECOND, 0);
    drop(second);
    drop(first);
    made?;
    Ok((count?, cut))
}

/// What the first two journal files hold.
fn are_files(rt: &HostRuntime, one: &str, other: &str) -> Result<bool, Fail> {
    Ok(
        fs::read_to_string(rt, "journal.0")?.as_str() == one
            && fs::read_to_string(rt, "journal.1")?.as_str() == other,
    )
}

/// What a station answers that looked at the first file before another one made the journal: its size, what was read of the
/// second file, and how a write ends, since its view is old.
fn looked_early(
    rt: &HostRuntime,
    into: &mut [u8; 4],
) -> (
    Result<u64, Failed>,
    Result<(usize, Result<(), Failed>), Failed>,
    Result<(), Failed>,
) {
    let mut early = FileStation::new(rt);
    let size = early.size(JournalFile::FIRST);
    let read = written_and_read(rt, into);
    let late = early.write_at(JournalFile::FIRST, 0, b"old");
    drop(early);
    (size, read, late)
}

/// How a station writes the first file.
fn written(rt: &HostRuntime) -> Result<(), Failed> {
    FileStation::new(rt).write_at(JournalFile::FIRST, 0, b"new")
}

#[test]
fn one_station_at_a_time_changes_the_journal(rt: HostRuntime) -> Result<(), Fail> {
    let mut into = [0u8; 4];
    let (size, read, late) = looked_early(&rt, &mut into);
    assert!(rt; size == Ok(0));
    assert!(rt; read == Ok((4, Err(Failed))));
    assert!(rt; into == *b"xyde");
    assert!(rt; late == Err(Failed));
    assert!(rt; written(&rt) == Ok(()));
    assert!(rt; are_files(&rt, "new", "axyde")?);
    remove_journal(&rt)
}

/// Writes the first journal file, and answers what a station that only reads sees of it, and how big it finds it once more was
/// written.
fn write_first(
    writer: &mut FileStation<'_, HostRuntime>,
    reader: &mut FileStation<'_, HostRuntime>,
) -> Result<([u8; 2], u64), Failed> {
    let mut into = [0u8; 2];
    writer.write_at(JournalFile::FIRST, 0, b"abcd")?;
    reader.sync()?;
    reader.read(JournalFile::FIRST, 2, &mut into)?;
    writer.write_at(JournalFile::FIRST, 4, b"ef")?;
    Ok((into, reader.size(JournalFile::FIRST)?))
}

/// The same by a station that is made for it.
fn written_and_seen(
    rt: &HostRuntime,
    reader: &mut FileStation<'_, HostRuntime>,
) -> Result<([u8; 2], u64), Failed> {
    let mut writer = FileStation::new(rt);
    let seen = write_first(&mut writer, reader);
    drop(writer);
    seen
}

/// What a station that only reads sees.
#[derive(Drop)]
struct Reader {
    size: Result<u64, Failed>,
    seen: Result<([u8; 2], u64), Failed>,
    changes: [Result<(), Failed>; 3],
}

/// What it sees where no file is there yet, and what once another one has written; and how its changes end.
fn seen_by_reader(rt: &HostRuntime) -> Reader {
    let mut reader = FileStation::for_reading(rt);
    let size = reader.size(JournalFile::FIRST);
    let early = reader.write_at(JournalFile::FIRST, 0, b"x");
    let seen = written_and_seen(rt, &mut reader);
    let cut = reader.cut(JournalFile::FIRST, 1);
    let late = reader.write_at(JournalFile::SECOND, 0, b"x");
    drop(reader);
    Reader {
        size,
        seen,
        changes: [early, cut, late],
    }
}

/// How big a station finds the first two journal files.
fn sizes(rt: &HostRuntime) -> [Result<u64, Failed>; 2] {
    let mut writer = FileStation::new(rt);
    let sizes = [
        writer.size(JournalFile::FIRST),
        writer.size(JournalFile::SECOND),
    ];
    drop(writer);
    sizes
}

#[test]
fn a_reader_and_a_writer_stand_side_by_side(rt: HostRuntime) -> Result<(), Fail> {
    let reader = seen_by_reader(&rt);
    // No file is there yet, and the reader makes none.
    assert!(rt; reader.size == Ok(0));
    // What it looks at is free for one that writes, and it sees what was written since.
    assert!(rt; reader.seen == Ok((*b"cd", 6)));
    assert!(rt; reader.changes == [Err(Failed); 3]);
    assert!(rt; sizes(&rt) == [Ok(6), Ok(0)]);
    remove_journal(&rt)
}

/// How big a station finds the selector.
fn size_of_selector(rt: &HostRuntime) -> Result<u64, Failed> {
    FileStation::new(rt).size(JournalFile::SELECTOR)
}

#[test]
fn a_disk_that_failed_to_sync_is_not_used_again(rt: HostRuntime) -> Result<(), Fail> {
    fs::create_dir(&rt, "journal.2")?;
    let mut station = FileStation::new(&rt);
    assert!(rt; station.sync() == Err(Failed));
    fs::remove_dir(&rt, "journal.2")?;
    assert!(rt; station.sync() == Err(Failed));
    assert!(rt; station.size(JournalFile::SELECTOR) == Err(Failed));
    assert!(rt; size_of_selector(&rt) == Ok(0));
    Ok(())
}

/// Says two pieces on a channel.
fn say_pieces(rt: &HostRuntime) -> [Result<(), Failed>; 2] {
    let mut station = FileStation::new(rt);
    let said = [
        station.say(Channel::of_circuit(7), b"one "),
        station.say(Channel::of_circuit(7), b"two"),
    ];
    drop(station);
    said
}

/// How many bytes of a file a first read gives, and a second one.
fn read_twice(
    rt: &HostRuntime,
    name: &'static str,
    into: &mut [u8; 8],
) -> [Result<usize, Failed>; 2] {
    let mut source = FileSource::new(rt, name);
    let first = source.read(into);
    [first, source.read(&mut [0u8; 8])]
}

#[test]
fn what_is_said_on_a_channel_goes_behind_its_file(rt: HostRuntime) -> Result<(), Fail> {
    assert!(rt; say_pieces(&rt) == [Ok(()); 2]);
    let mut into = [0u8; 8];
    assert!(rt; read_twice(&rt, "circuit.07.out", &mut into) == [Ok(7), Ok(0)]);
    assert!(rt; &into[..7] == b"one two".as_slice());
    assert!(rt; FileSource::new(&rt, "no such file").read(&mut into) == Err(Failed));
    Ok(())
}
