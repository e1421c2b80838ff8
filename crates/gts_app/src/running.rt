ghost use Rattle.std.specs.Prelude.{◌≡◌, ◌⊎◌, ℕ, List, Some, None};
ghost use Rattle.gts_app.specs.Cited.{Compacts, CountsTraffic, FollowsFeed, Generates, Inits, Inspects, IsCommand, IsNoCapture, IsSettled, Migrates, NamesGaps, NoneFailed, PacksStream, Replays, ServesIn, ShipsFeed, Shows, TriesMigration, Unpacks, WithDirectoryAlone, command_of, lines_seen as seen, moment_at, since_at};

use crate::commands::check::check;
use crate::commands::compact::compact;
use crate::commands::count::count;
use crate::commands::follow::follow;
use crate::commands::gaps::gaps;
use crate::commands::generate::generate;
use crate::commands::init::init;
use crate::commands::inspect::{Bulletin, inspect};
use crate::commands::migrate::migrate;
use crate::commands::pack::pack;
use crate::commands::replay::replay;
use crate::commands::serve::serve;
use crate::commands::ship::ship;
use crate::commands::show::show;
use crate::commands::unpack::unpack;
use crate::{Ended, Status, World};
use gts_connection::CaptureKind;
use gts_gap::Moment;
use gts_migrate::Waiting;
use gts_receiver::WITHOUT_END;
use gts_standby::Since;
use gts_traits::{Gate, Lines, Source, Station, WordList};
use gts_words::{Command, WordsFault, a_count_is_within_its_limits, read_words};
use std::alloc::Global;
use std::sync::Wait;
use std::thread::Threads;

/// What a command worked on, beside how it ended.
fn ended<S, P>(status: Status, world: World<S, S, P>) -> Ended<S, P>
    ensures status { result.status ≡ status }
    ensures world { result.world ≡ world }
{
    Ended { status, world }
}

/// Runs the command that the words name: `init`, `replay`, `serve`, `show`, `compact`, `generate`, `migrate`, `migrate drop`,
/// `migrate check`, `unpack`, `pack`, `gaps`, `ship`, `follow`, `count` or `check`. What it worked on is handed back.
pub fn run<R, S, P, L, G>(
    rt: &R,
    alloc: Global,
    words: &WordList,
    mut world: World<S, S, P>,
    lines: &mut L,
    gate: &G,
) -> Ended<S, P>
where
    R: Threads + Wait + Sync,
    S: Source,
    P: Station + Send + Drop,
    L: Lines,
    L::In: Drop,
    L::Out: Drop,
    G: Gate,
    // The words are looked at first; other words change nothing. A circuit is looked for in the directory.
    ensures words { (result.status ≡ Status.Usage → IsSettled words.now → ⊥)
        × ((IsCommand words.now → ⊥)
        → (result.status ≡ Status.Usage) ⊎ (result.status ≡ Status.NoMemory)) }
    ensures unchanged { (IsCommand words.now → ⊥) → result.world ≡ world }

    // What each end of a command means that works on the journal, and reads the directory alone.
    ensures init { command_of words.now ≡ Some Command.Init
        → WithDirectoryAlone (Inits S.Source P.Station result.status) world result.world }
    ensures show { command_of words.now ≡ Some Command.Show
        → WithDirectoryAlone (Shows S.Source P.Station result.status) world result.world }
    ensures compact { command_of words.now ≡ Some Command.Compact
        → WithDirectoryAlone (Compacts S.Source P.Station result.status) world result.world }
    ensures ship { command_of words.now ≡ Some Command.Ship
        → WithDirectoryAlone (ShipsFeed None S.Source P.Station result.status) world result.world }
    ensures ship_since { (used : ℕ) (seal : List ℕ)
        → command_of words.now ≡ Some (Command.ShipSince used seal) → WithDirectoryAlone (ShipsFeed
        (Some (since_at used seal)) S.Source P.Station result.status) world result.world }

    // And of one that reads something beside the directory.
    ensures replay { command_of words.now ≡ Some Command.Replay
        → Replays CaptureKind.Journaled S.Source S.Source P.Station
        result.status world result.world }
    ensures count { command_of words.now ≡ Some Command.Count
        → CountsTraffic S.Source P.Station result.status world result.world }
    ensures unpack { (c : ℕ) → command_of words.now ≡ Some (Command.Unpack c)
        → Unpacks S.Source P.Station c result.status world result.world }
    ensures pack { command_of words.now ≡ Some Command.Pack
        → PacksStream S.Source P.Station result.status world result.world }
    ensures gaps { (day hour minute : ℕ)
        → command_of words.now ≡ Some (Command.Gaps day hour minute) → NamesGaps S.Source
        P.Station (moment_at day hour minute) result.status world result.world }
    ensures migrate { command_of words.now ≡ Some Command.Migrate
        → Migrates Waiting.Refused S.Source P.Station result.status world result.world }
    ensures migrate_drop { command_of words.now ≡ Some Command.MigrateDrop
        → Migrates Waiting.Dropped S.Source P.Station result.status world result.world }
    ensures migrate_check { command_of words.now ≡ Some Command.MigrateCheck
        → TriesMigration S.Source P.Station result.status world result.world }
    ensures follow { command_of words.now ≡ Some Command.Follow
        → FollowsFeed S.Source P.Station result.status world result.world }

    // And of those over lines, and without a journal.
    ensures serve { (n : ℕ) → command_of words.now ≡ Some (Command.Serve n)
        → ServesIn S.Source P.Station L.In.Source L.Out.observed n result.status
        world result.world (seen L.Lines lines.old) (seen L.Lines lines.new) }
    ensures serve_always { command_of words.now ≡ Some Command.ServeAlways
        → ServesIn S.Source P.Station L.In.Source L.Out.observed WITHOUT_END result.status
        world result.world (seen L.Lines lines.old) (seen L.Lines lines.new) }
    ensures generate { (count : ℕ) → command_of words.now ≡ Some (Command.Generate count)
        → (result.world.directory ≡ world.directory) × (result.world.capture ≡ world.capture)
        × Generates P.Station result.status count world.station result.world.station }

    ensures check { command_of words.now ≡ Some Command.Check
        → Inspects S.Source P.Station result.status world result.world }
    ensures check_heading { (heading : List ℕ)
        → command_of words.now ≡ Some (Command.CheckHeading heading)
        → Inspects S.Source P.Station result.status world result.world }
    ensures check_from { (heading : List ℕ) (from : ℕ)
        → command_of words.now ≡ Some (Command.CheckFrom heading from)
        → Inspects S.Source P.Station result.status world result.world }

    // Bytes that are no capture of the directory are not done.
    ensures no_capture { command_of words.now ≡ Some Command.Replay → S.observed → P.observed
        → IsNoCapture (S.left world.directory) (S.left world.capture)
        → result.status ≡ Status.Done → ⊥ }

    // No command is done where a device failed under it: no count of the sources and the station rose.
    ensures sound { result.status ≡ Status.Done
        → NoneFailed S.Source P.Station world result.world }

    // No other command changes the lines.
    ensures untouched { ((connections : ℕ)
        → command_of words.now ≡ Some (Command.Serve connections) → ⊥)
        → (command_of words.now ≡ Some Command.ServeAlways → ⊥) → lines.new ≡ lines.old }
{
    a_count_is_within_its_limits();
    let command = match read_words(alloc, words) {
        Ok(command) => command,
        Err(WordsFault::Words) => return ended(Status::Usage, world),
        Err(WordsFault::NoMemory) => return ended(Status::NoMemory, world),
    };
    match command {
        // Those that work on the journal.
        Command::Init => ended(init(alloc, &mut world), world),
        Command::Show => show(alloc, world),
        Command::Compact => compact(alloc, world),
        Command::Ship => ended(ship(alloc, &mut world, None), world),
        Command::ShipSince { used, seal } => {
            let since = Some(Since { used, seal });
            ended(ship(alloc, &mut world, since), world)
        }
        // Those that read something beside the directory.
        Command::Replay => replay(alloc, world),
        Command::Count => count(alloc, world),
        Command::Unpack { c } => unpack(alloc, world, c),
        Command::Pack => ended(pack(alloc, &mut world), world),
        Command::Gaps { day, hour, minute } => {
            let moment = Moment { day, hour, minute };
            ended(gaps(alloc, &mut world, moment), world)
        }
        Command::Migrate => migrate(alloc, world, Waiting::Refused),
        Command::MigrateDrop => migrate(alloc, world, Waiting::Dropped),
        Command::MigrateCheck => ended(check(alloc, &mut world), world),
        Command::Follow => follow(alloc, world),
        // Those over lines, and without a journal.
        Command::Serve { connections } => {
            let many = u64::from(connections);
            serve(rt, alloc, world, lines, many, gate)
        }
        Command::ServeAlways => serve(rt, alloc, world, lines, WITHOUT_END, gate),
        Command::Generate { count } => ended(generate(alloc, &mut world, count), world),
        Command::Check => ended(inspect(alloc, &mut world, None), world),
        Command::CheckHeading { heading } => {
            let bulletin = Bulletin {
                heading,
                from: None,
            };
            ended(inspect(alloc, &mut world, Some(bulletin)), world)
        }
        Command::CheckFrom { heading, from } => {
            let from = Some(from);
            let bulletin = Bulletin { heading, from };
            ended(inspect(alloc, &mut world, Some(bulletin)), world)
        }
    }
}
