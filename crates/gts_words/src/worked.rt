//! Lists of words, each row the contract of a function with an empty body.

#![tactic(auto, unfolding(hex::proofs::OnLiterals::hex_on_literals))]

ghost use Rattle.gts_words.specs.Worked.{OneWord, Counts, ConnectionCounts, DigitWords, MigrateWords, CheckWords, SinceWords, NoCommands};

/// Each command that is one word.
pub fn commands_of_one_word()
    ensures { OneWord }
{}

/// `generate` has a count of one to six digits.
pub fn counts_of_one_to_six_digits()
    ensures { Counts }
{}

/// `serve` alone means one connection, with `always` those without end, and else it has their count of one to four digits.
pub fn connections_of_one_to_four_digits()
    ensures { ConnectionCounts }
{}

/// `unpack` has a circuit of two digits, and `gaps` a time of six.
pub fn circuits_and_times_of_digits()
    ensures { DigitWords }
{}

/// `migrate` has `drop` or `check` behind it, or nothing.
pub fn migrate_has_one_word_more_or_none()
    ensures { MigrateWords }
{}

/// `check` has a heading's front and a circuit behind it, or less.
pub fn check_has_a_heading_and_a_circuit_or_less()
    ensures { CheckWords }
{}

/// `ship since` has a count of bytes and a seal.
pub fn what_a_standby_has()
    ensures { SinceWords }
{}

/// All other lists are no command.
pub fn other_lists_are_no_command()
    ensures { NoCommands }
{}
