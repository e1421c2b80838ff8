ghost use Rattle.std.specs.Prelude.{◌≡◌, IfOk, false, codes, length};
ghost use Rattle.gts_words.specs.Cited.{app_of, first_value, found_of, grammar, kind_of};
ghost use Rattle.gts_words.specs.Commands as commands;

use crate::count::{
    LONGEST_CONNECTIONS, LONGEST_COUNT, MOST_CONNECTIONS, MOST_GENERATED, count_in,
};
use crate::digits::{circuit_in, moment_in};
use crate::route::{checking, route_in};
use crate::since::since_in;
use crate::{Command, WordsFault};
use clap::error::ErrorKind;
use clap::{Arg, ArgMatches};
use gts_traits::WordList;
use std::alloc::{AllocError, Global};

/// The word in front of those that are read: the program's name.
const PROGRAM: &str = "gts_switch";

/// The most words of a command but `check` with a circuit, and `ship since`.
const MOST_WORDS: u64 = 2;

/// The words of a command that names a heading and a circuit.
const ROUTE_WORDS: u64 = 3;

/// The words of the one command that has more: what a standby station has of a journal.
const SINCE_WORDS: u64 = 4;

/// A command line has the name of a command, and a second word behind it or none.
fn grammar<'a>(alloc: Global) -> Result<clap::Command<'a>, AllocError>
    ensures { IfOk result (λ line. app_of line ≡ grammar) }
{
    let name = Arg::new(alloc, "name").required(true);
    let count = Arg::new(alloc, "count");
    clap::Command::new(alloc, PROGRAM).arg(name)?.arg(count)
}

/// Why a command line was refused.
fn fault_of(error: &clap::Error) -> WordsFault
    ensures { kind_of error.now ≡ ErrorKind.OutOfMemory → result ≡ WordsFault.NoMemory }
{
    match error.kind() {
        ErrorKind::OutOfMemory => WordsFault::NoMemory,
        _ => WordsFault::Words,
    }
}

/// Whether a word begins with a hyphen, as an option does.
pub(crate) fn is_option(word: &str) -> bool
    ensures { result ≡ commands.is_option word.now }
{
    word.as_bytes().first() == Some(&b'-')
}

/// The command that is one word.
fn alone(name: &str) -> Option<Command>
    ensures { result ≡ commands.alone name.now }
{
    match name.as_bytes() {
        b"init" => Some(Command::Init),
        b"replay" => Some(Command::Replay),
        b"serve" => Some(Command::Serve { connections: 1 }),
        b"show" => Some(Command::Show),
        b"compact" => Some(Command::Compact),
        b"migrate" => Some(Command::Migrate),
        b"pack" => Some(Command::Pack),
        b"ship" => Some(Command::Ship),
        b"follow" => Some(Command::Follow),
        b"count" => Some(Command::Count),
        b"check" => Some(Command::Check),
        _ => None,
    }
}

/// The command about a journal that is taken over, with this word behind it.
fn migrating(word: &str) -> Option<Command>
    ensures { result ≡ commands.migrating word.now }
{
    match word.as_bytes() {
        b"drop" => Some(Command::MigrateDrop),
        b"check" => Some(Command::MigrateCheck),
        _ => None,
    }
}

/// The command that a word and another one are.
fn counted(name: &str, word: &str) -> Option<Command>
    ensures { result ≡ commands.counted name.now word.now }
{
    if name == "generate" {
        let count = count_in(LONGEST_COUNT, MOST_GENERATED, word)?;
        return Some(Command::Generate { count });
    }
    if name == "serve" && word == "always" {
        return Some(Command::ServeAlways);
    }
    if name == "serve" {
        let connections = count_in(LONGEST_CONNECTIONS, MOST_CONNECTIONS, word)?;
        return Some(Command::Serve { connections });
    }
    if name == "unpack" {
        let c = circuit_in(word)?;
        return Some(Command::Unpack { c });
    }
    if name == "gaps" {
        return moment_in(word);
    }
    if name == "migrate" {
        return migrating(word);
    }
    if name == "check" {
        return checking(word);
    }
    None
}

/// The command that the parts of a command line are.
fn command_in(matches: &ArgMatches<'_>) -> Result<Command, WordsFault>
    ensures { result ≡ commands.command_in (first_value (found_of matches.now) (codes "name"))
        (first_value (found_of matches.now) (codes "count")) }
{
    let Some(name) = matches.get_str("name") else {
        return Err(WordsFault::Words);
    };
    let command = match matches.get_str("count") {
        None => alone(name),
        Some(count) => counted(name, count),
    };
    command.ok_or(WordsFault::Words)
}

/// Reads a command line of one word.
fn read_one(alloc: Global, name: &str) -> Result<Command, WordsFault>
    requires { commands.is_option name.now ≡ false }
    ensures { commands.Answers result (commands.alone name.now) }
{
    let words = [PROGRAM, name];
    let line = grammar(alloc)?;
    match line.try_get_matches_from(words.as_slice()) {
        Ok(matches) => command_in(&matches),
        Err(error) => Err(fault_of(&error)),
    }
}

/// Reads a command line of two words.
fn read_two(alloc: Global, name: &str, count: &str) -> Result<Command, WordsFault>
    requires name { commands.is_option name.now ≡ false }
    requires count { commands.is_option count.now ≡ false }
    ensures { commands.Answers result (commands.counted name.now count.now) }
{
    let words = [PROGRAM, name, count];
    let line = grammar(alloc)?;
    match line.try_get_matches_from(words.as_slice()) {
        Ok(matches) => command_in(&matches),
        Err(error) => Err(fault_of(&error)),
    }
}

/// Reads a command line of three words.
fn read_route(words: &WordList) -> Result<Command, WordsFault>
    requires { length words.now ≡ 3 }
    ensures { result ≡ commands.or_words (commands.command_of words.now) }
{
    match route_in(words) {
        Some(command) => Ok(command),
        None => Err(WordsFault::Words),
    }
}

/// Reads a command line of four words.
fn read_since(words: &WordList) -> Result<Command, WordsFault>
    requires { length words.now ≡ 4 }
    ensures { result ≡ commands.or_words (commands.command_of words.now) }
{
    match since_in(words) {
        Some(command) => Ok(command),
        None => Err(WordsFault::Words),
    }
}

/// The command that the words after the program's name are. A word that begins with a hyphen is none of any command's, and is
/// not handed to the reader of command lines. `Words` exactly where the list is none of those that are defined; `NoMemory`
/// may come for any list.
pub fn read_words(alloc: Global, words: &WordList) -> Result<Command, WordsFault>
    ensures { commands.Answers result (commands.command_of words.now) }
{
    if words.len() == SINCE_WORDS {
        return read_since(words);
    }
    if words.len() == ROUTE_WORDS {
        return read_route(words);
    }
    let Some(name) = words.get(0) else {
        return Err(WordsFault::Words);
    };
    if words.len() > MOST_WORDS || is_option(name) {
        return Err(WordsFault::Words);
    }
    match words.get(1) {
        None => read_one(alloc, name),
        Some(count) if is_option(count) => Err(WordsFault::Words),
        Some(count) => read_two(alloc, name, count),
    }
}
