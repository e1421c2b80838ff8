ghost use Rattle.std.specs.Prelude.{◌≡◌};
ghost use Rattle.gts_words.specs.Asking as asking;

use gts_traits::WordList;

/// What a user may ask of the program itself, in place of a command.
#[derive(Clone, Copy, Debug, PartialEq, Eq, Drop)]
pub enum About {
    /// Its version, that of its journals, and the kit.
    Version,
    /// Its commands, with a line each.
    Help,
}

/// What this one word asks, if anything.
fn asked(word: &str) -> Option<About>
    ensures { result ≡ asking.asked word.now }
{
    if word == "--version" {
        Some(About::Version)
    } else if word == "--help" {
        Some(About::Help)
    } else {
        None
    }
}

/// What the words ask of the program itself, if anything: they are one word then, and no command. Takes no memory.
pub fn asked_of(words: &WordList) -> Option<About>
    ensures { result ≡ asking.asked_of words.now }
{
    let word = words.get(0)?;
    match words.get(1) {
        None => asked(word),
        Some(_) => None,
    }
}
