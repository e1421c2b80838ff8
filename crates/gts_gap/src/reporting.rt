ghost use Rattle.std.specs.Prelude.{◌≡◌, ◌<◌, ℕ, List, length};
ghost use Rattle.gts_gap.specs.Cited.{AllStand, AsksOutput, CountsGaps, Names, Numbered, StandsAt, Tells, report, said_of};

use crate::saying::{say_request, say_runs};
use crate::{AskText, GapTable, GapsEnd, Moment, TableFault, table_of};
use gts_directory::Directory;
use gts_traits::{Channel, Failed, Source, Station, say};
use std::alloc::Global;

/// Says what is missing on circuit `c`: a line for each run on channel 0, and the request for all on the circuit's channel.
fn say_circuit<P: Station>(
    table: &GapTable,
    c: u32,
    directory: &Directory,
    moment: Moment,
    text: &mut AskText,
    station: &mut P,
) -> Result<(), Failed>
    requires circuit { c < length directory.now.circuits }
    requires table { length table.now ≡ length directory.now.circuits }
    ensures told { P.observed → (ns : List Numbered) → StandsAt table.now c ns
        → Tells result (said_of directory.now moment c ns)
        (P.calls station.old) (P.calls station.new) }
    ensures cause { AsksOutput P.Station result station.old station.new }
{
    // A directory has few circuits.
    let _few = directory.circuits();
    say_runs(c, table.runs(c), station)?;
    if !table.ask(c, directory.centre(), text) {
        return Ok(());
    }
    say_request(
        Channel::of_circuit(c),
        directory.circuit(c).peer,
        moment,
        text.bytes(),
        station,
    )
}

/// Says what is missing on each circuit, and the end of the report.
fn say_report<P: Station>(
    table: &GapTable,
    directory: &Directory,
    moment: Moment,
    text: &mut AskText,
    station: &mut P,
) -> Result<(), Failed>
    requires { length table.now ≡ length directory.now.circuits }
    ensures told { P.observed → (came : ℕ → List Numbered)
        → AllStand directory.now table.now came → Tells result (report directory.now moment came)
        (P.calls station.old) (P.calls station.new) }
    ensures cause { AsksOutput P.Station result station.old station.new }
{
    for c in 0..directory.circuits() {
        say_circuit(table, c, directory, moment, text, station)?;
    }
    say(station, Channel::OPERATOR, b"end\n")
}

/// Reads a capture through its end, and then says which numbers are missing on each circuit of the directory, and the requests
/// for them. All memory is taken before the first step.
pub fn gaps<S: Source, P: Station>(
    alloc: Global,
    directory: &Directory,
    moment: Moment,
    capture: &mut S,
    station: &mut P,
) -> GapsEnd
    ensures names { Names S.observed P.observed directory.now moment result (S.left capture.old)
        station.old station.new (P.calls station.old) (P.calls station.new) }
    ensures cause { CountsGaps S.Source P.Station result capture.old capture.new
        station.old station.new }
    ensures disk { P.disk_faults station.new ≡ P.disk_faults station.old }
{
    let Ok(mut text) = AskText::new(alloc) else {
        return GapsEnd::NoMemory;
    };
    let table = match table_of(alloc, directory, capture) {
        Ok(table) => table,
        Err(TableFault::Capture { at }) => return GapsEnd::Capture { at },
        Err(TableFault::SourceFault) => return GapsEnd::SourceFault,
        Err(TableFault::NoMemory) => return GapsEnd::NoMemory,
    };
    match say_report(&table, directory, moment, &mut text, station) {
        Ok(()) => GapsEnd::Done,
        Err(Failed) => GapsEnd::SayFault,
    }
}
