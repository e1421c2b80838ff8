//! Whether the bulletins of a need are those of a history, and which positions have theirs.

ghost use Rattle.std.specs.Prelude.{◌≡◌, ◌&&◌, map, not, is_ok, true};
ghost use Rattle.gts_checkpoint.specs.Cited.{ascends, body_at, bulletin_of, heading_of, list_all, positions};
ghost use Rattle.gts_checkpoint.specs.Sound as definitions;

use crate::ascending::place_of;
use gts_alphabet::LONGEST_BODY;
use gts_directory::Directory;
use gts_event::{Bulletin, is_request};
use gts_message::Body;

/// Whether these are the bytes of a message that is no request.
fn is_body(directory: &Directory, body: &[u8]) -> bool
    ensures { result ≡ (is_ok (body_at body.now)
        && not (definitions.is_request directory.now (heading_of body.now))) }
{
    match Body::split(body) {
        Ok((heading, _)) => !is_request(directory, &heading),
        Err(_) => false,
    }
}

/// Whether a bulletin came in on a circuit of the directory, has a position below the number accepted, and the body of a
/// message that is no request.
fn is_bulletin(directory: &Directory, accepted: u64, bulletin: &Bulletin) -> bool
    ensures { result ≡ definitions.is_bulletin directory.now accepted (bulletin_of bulletin.now) }
{
    let body = bulletin.body.as_slice();
    bulletin.from < directory.circuits()
        && bulletin.position < accepted
        && body.len() <= LONGEST_BODY
        && is_body(directory, body)
}

/// Whether each of these is a bulletin that was accepted.
pub(crate) fn are_bulletins(directory: &Directory, accepted: u64, bulletins: &[Bulletin]) -> bool
    ensures { result ≡ list_all (definitions.is_bulletin directory.now accepted)
        (map bulletin_of bulletins.now) }
{
    bulletins
        .iter()
        .all(|bulletin| is_bulletin(directory, accepted, bulletin))
}

/// Whether the bulletin of a position is there.
fn is_there(bulletins: &[Bulletin], position: u64) -> bool
    requires { ascends (positions bulletins.now) ≡ true }
    ensures { result ≡ definitions.is_there (map bulletin_of bulletins.now) position }
{
    place_of(bulletins, position).is_some()
}

/// Whether the bulletin of each of these positions is there.
pub(crate) fn are_there(bulletins: &[Bulletin], numbers: &[u64]) -> bool
    requires { ascends (positions bulletins.now) ≡ true }
    ensures { result ≡ list_all (definitions.is_there (map bulletin_of bulletins.now)) numbers.now }
{
    for number in numbers {
        if !is_there(bulletins, *number) {
            return false;
        }
    }
    true
}
