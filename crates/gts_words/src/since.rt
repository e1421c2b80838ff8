//! What a standby station has of a journal, in words.
ghost use Rattle.std.specs.Prelude.{◌≡◌, length};
ghost use Rattle.gts_words.specs.Commands as commands;

use crate::Command;
use crate::count::LONGEST_USED;
use gts_alphabet::{decimal_value, digits_pass_the_test};
use gts_traits::WordList;
use hex::{FromHex, encode_to_slice};

/// The bytes of a seal, and the digits that spell it.
const SEAL: usize = 32;

const SEAL_DIGITS: usize = 2 * SEAL;

/// The count of bytes that a word spells, in one to ten digits.
fn used_in(word: &str) -> Option<u64>
    ensures { result ≡ commands.used_in word.now }
{
    let digits = word.as_bytes();
    if digits.is_empty() || digits.len() > LONGEST_USED {
        return None;
    }
    // Digits are what the test for them passes.
    digits_pass_the_test();
    let last = digits.len() - 1;
    let tens = decimal_value(&digits[..last])?;
    let ones = decimal_value(&digits[last..])?;
    Some(u64::from(tens) * 10 + u64::from(ones))
}

/// Whether a word is what a seal is spelled by.
fn is_spelled(seal: &[u8; SEAL], word: &[u8]) -> bool
    ensures { result ≡ commands.is_spelled seal.now word.now }
{
    let mut text = [0u8; SEAL_DIGITS];
    if encode_to_slice(seal.as_slice(), text.as_mut_slice()).is_err() {
        return false;
    }
    text.as_slice() == word
}

/// The seal that a word spells, in 64 hexadecimal digits in lower case.
fn seal_in(word: &str) -> Option<[u8; SEAL]>
    ensures { result ≡ commands.seal_in word.now }
{
    match <[u8; SEAL] as FromHex>::from_hex(word.as_bytes()) {
        Ok(seal) if is_spelled(&seal, word.as_bytes()) => Some(seal),
        _ => None,
    }
}

/// The command that four words are.
fn shipped(name: &str, since: &str, used: &str, seal: &str) -> Option<Command>
    ensures { result ≡ commands.shipped name.now since.now used.now seal.now }
{
    if name != "ship" || since != "since" {
        return None;
    }
    let used = used_in(used)?;
    let seal = seal_in(seal)?;
    Some(Command::ShipSince { used, seal })
}

/// The command that a list of four words is.
pub(crate) fn since_in(words: &WordList) -> Option<Command>
    requires { length words.now ≡ 4 }
    ensures { result ≡ commands.command_of words.now }
{
    let name = words.get(0)?;
    let since = words.get(1)?;
    let used = words.get(2)?;
    let seal = words.get(3)?;
    shipped(name, since, used, seal)
}
