ghost use Rattle.std.specs.Prelude.{◌≡◌};
ghost use Rattle.gts_app.specs.Cited.{NoneFailed, TriesMigration};

use crate::directory::{directory_file_of, old_directory_file_of};
use crate::opening::refusal;
use crate::{Status, World};
use gts_directory::Change;
use gts_report::{ReportText, changes};
use gts_traits::{Channel, Failed, Source, Station};
use std::alloc::Global;

/// Reads the directory, and then the old one, from which it has to take over, opens the journal under that one, and says on channel 0
/// what would change if it were taken over, and whether `migrate` would refuse it. The files are synced, and not changed.
/// Where the directory is at fault, the old one isn't read.
#[tactic(auto, using(crate::proofs::SoundLemmas::unread, crate::proofs::SoundLemmas::old_unread))]
pub fn check<S: Source, P: Station>(alloc: Global, world: &mut World<S, S, P>) -> Status
    ensures tries { TriesMigration S.Source P.Station result world.old world.new }
    ensures sound { result ≡ Status.Done → NoneFailed S.Source P.Station world.old world.new }
{
    let new = match directory_file_of(alloc, &mut world.directory) {
        Ok(file) => file,
        Err(status) => return status,
    };
    let old = match old_directory_file_of(alloc, &mut world.capture) {
        Ok(file) => file,
        Err(status) => return status,
    };
    if let Err(Change { part, row }) = new.directory().takes_over(old.directory()) {
        return Status::Changed { part, row };
    }
    let mut text = ReportText::new();
    if let Err(fault) = changes(alloc, &mut world.station, &old, &new, &mut text) {
        return refusal(fault);
    }
    match world.station.say(Channel::OPERATOR, text.bytes()) {
        Err(Failed) => Status::OutputFault,
        Ok(()) => Status::Done,
    }
}
