//! Whether a journal may begin anew with the checkpoint of a feed.
ghost use Rattle.std.specs.Prelude.{◌≡◌, ℕ, List, zip, map, IfOk, IfErr};
ghost use Rattle.gts_standby.specs.Cited.{AsksFeed, FindsFurther, HasRead, Holds, IsReadEnd, State, came_to, circuit_need_of, list_any, need_of};
ghost use Rattle.gts_standby.specs.Taking as feeds;

use crate::FollowEnd;
use crate::ahead::Ahead;
use crate::scanning::fed_checkpoint;
use gts_checkpoint::decode;
use gts_core::Core;
use gts_directory::Directory;
use gts_event::{CircuitNeed, Need};
use gts_journal::Version;
use gts_record::first_seal;
use gts_traits::Source;
use std::alloc::Global;

/// How many bulletins came to a circuit: those that were drawn, and those that wait.
fn came_to(circuit: &CircuitNeed) -> u128
    ensures { result ≡ came_to (circuit_need_of circuit.now) }
{
    u128::from(circuit.draws) + u128::from(circuit.waiting.len())
}

/// Whether fewer were drawn on a circuit, or fewer came to it.
fn has_fewer(fed: &CircuitNeed, own: &CircuitNeed) -> bool
    ensures { result ≡ feeds.has_fewer (circuit_need_of fed.now) (circuit_need_of own.now) }
{
    fed.draws < own.draws || came_to(fed) < came_to(own)
}

/// Whether so it is of one of the circuits.
fn one_has_fewer(fed: &[CircuitNeed], own: &[CircuitNeed]) -> bool
    ensures { result ≡ list_any (λ pair. feeds.has_fewer pair.0 pair.1)
        (zip (map circuit_need_of fed.now) (map circuit_need_of own.now)) }
{
    fed.iter()
        .zip(own.iter())
        .any(|pair| has_fewer(pair.0, pair.1))
}

/// Whether a need is behind another one: fewer bulletins were accepted, or of one of the circuits fewer were drawn, or came to it.
fn is_behind(fed: &Need, own: &Need) -> bool
    ensures { result ≡ feeds.is_behind (need_of fed.now) (need_of own.now) }
{
    fed.accepted < own.accepted || one_has_fewer(fed.circuits.as_slice(), own.circuits.as_slice())
}

/// Whether a checkpoint stands at the front of a feed's records with which a journal may begin, and which isn't behind what a core
/// has come to.
pub(crate) fn is_further<S: Source>(
    alloc: Global,
    directory: &Directory,
    core: &Core,
    source: &mut S,
    ahead: &mut Ahead,
) -> Result<bool, FollowEnd>
    ensures further { S.observed → (s : State) (fed : List ℕ) → Holds directory.now core.now s
        → HasRead fed ahead.old (S.left source.old)
        → IfOk result (λ is. FindsFurther is directory.now s fed ahead.new (S.left source.new)) }
    ensures kind { IfErr result IsReadEnd }
    ensures cause { AsksFeed S.Source result source.old source.new }
{
    let version = Version::written();
    let limit = directory.limit();
    let before = first_seal(version, &directory.mark());
    let behind = match fed_checkpoint(source, ahead, limit, version, &before) {
        Ok(found) => found.0,
        Err(FollowEnd::Done | FollowEnd::Feed { .. }) => return Ok(false),
        Err(end) => return Err(end),
    };
    let size = behind - version.seal_size();
    let Some(fed) = decode(alloc, &ahead.bytes()[..size], directory)? else {
        return Ok(false);
    };
    let own = core.need(alloc)?;
    Ok(!is_behind(&fed, &own))
}
