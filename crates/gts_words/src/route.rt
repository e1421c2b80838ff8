//! The front of a heading, and a circuit behind it, in words.
ghost use Rattle.std.specs.Prelude.{◌≡◌, length};
ghost use Rattle.gts_words.specs.Commands as commands;

use crate::Command;
use crate::digits::circuit_in;
use crate::reading::is_option;
use gts_traits::WordList;

/// The bytes of a heading's front: `TTAAii CCCC`.
const FRONT: usize = 11;

/// The front of a heading that a word may be: so many bytes, the first no hyphen.
fn front_in(word: &str) -> Option<[u8; FRONT]>
    ensures { result ≡ commands.front_in word.now }
{
    if is_option(word) {
        return None;
    }
    let bytes = word.as_bytes();
    if bytes.len() != FRONT {
        return None;
    }
    let mut front = [0; FRONT];
    front.copy_from_slice(bytes);
    Some(front)
}

/// The command to say where such a bulletin would go.
pub(crate) fn checking(word: &str) -> Option<Command>
    ensures { result ≡ commands.checking word.now }
{
    let heading = front_in(word)?;
    Some(Command::CheckHeading { heading })
}

/// The command that three words are.
fn routed(name: &str, heading: &str, from: &str) -> Option<Command>
    ensures { result ≡ commands.routed name.now heading.now from.now }
{
    if name != "check" {
        return None;
    }
    let heading = front_in(heading)?;
    let from = circuit_in(from)?;
    Some(Command::CheckFrom { heading, from })
}

/// The command that a list of three words is.
pub(crate) fn route_in(words: &WordList) -> Option<Command>
    requires { length words.now ≡ 3 }
    ensures { result ≡ commands.command_of words.now }
{
    let name = words.get(0)?;
    let heading = words.get(1)?;
    let from = words.get(2)?;
    routed(name, heading, from)
}
