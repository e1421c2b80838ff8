ghost use Rattle.std.specs.Prelude.{◌≡◌, ◌⊎◌, Err, None, IfErr};
ghost use Rattle.gts_app.specs.Inspect.{Inspects};
ghost use Rattle.gts_app.specs.Sound.{NoneFailed};

use crate::commands::show::status_said;
use crate::directory::directory_file_of;
use crate::{Status, World};
use gts_dirfile::DirectoryFile;
use gts_inspect::{inspection_text, route_text};
use gts_traits::{Channel, NoMemory, Source, Station};
use std::alloc::Global;

/// A bulletin of which it is asked where it would go.
#[derive(Clone, Copy)]
pub struct Bulletin {
    /// The front of its heading: `TTAAii CCCC`.
    pub heading: [u8; 11],
    /// The circuit that it came in on, where one is said.
    pub from: Option<u32>,
}

/// What is said of a directory, or of where a bulletin would go. `Usage` where no heading begins so, or the circuit isn't there.
fn text_of(
    alloc: Global,
    file: &DirectoryFile,
    bulletin: Option<Bulletin>,
) -> Result<Vec<u8>, Status>
    ensures ends { IfErr result (λ status.
        (status ≡ Status.Usage) ⊎ (status ≡ Status.NoMemory)) }
    ensures whole { bulletin ≡ None → result ≡ Err Status.Usage → ⊥ }
{
    let Some(asked) = bulletin else {
        return match inspection_text(alloc, file) {
            Ok(text) => Ok(text),
            Err(NoMemory) => Err(Status::NoMemory),
        };
    };
    let heading = asked.heading;
    match route_text(alloc, file, &heading, asked.from) {
        Ok(Some(text)) => Ok(text),
        Ok(None) => Err(Status::Usage),
        Err(NoMemory) => Err(Status::NoMemory),
    }
}

/// Reads the directory, and says on channel 0 what is odd of it, or where a bulletin would go. The files of the journal are not
/// looked at.
#[tactic(auto, using(crate::proofs::SoundLemmas::unread))]
pub fn inspect<S: Source, P: Station>(
    alloc: Global,
    world: &mut World<S, S, P>,
    bulletin: Option<Bulletin>,
) -> Status
    ensures inspects { Inspects S.Source P.Station result world.old world.new }
    ensures settled { bulletin ≡ None → result ≡ Status.Usage → ⊥ }
    ensures sound { result ≡ Status.Done → NoneFailed S.Source P.Station world.old world.new }
{
    let file = match directory_file_of(alloc, &mut world.directory) {
        Ok(file) => file,
        Err(status) => return status,
    };
    let text = match text_of(alloc, &file, bulletin) {
        Ok(text) => text,
        Err(status) => return status,
    };
    status_said(world.station.say(Channel::OPERATOR, text.as_slice()))
}
