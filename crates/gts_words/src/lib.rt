//! The words of the command line: which lists are commands. They are read by the kit's reader of command lines, and what it
//! hands back is compared here; those of `ship since` are read here alone.
//!
//! What a user may ask of the program itself, in place of a command: its version, and its commands.
#![tactic(auto)]

mod asking;
mod command;
mod count;
mod digits;
mod laws;
mod reading;
mod route;
mod since;
mod telling;
mod worked;

pub use asking::{About, asked_of};
pub use command::{Command, WordsFault};
pub use count::{
    LONGEST_CONNECTIONS, LONGEST_COUNT, LONGEST_USED, MOST_CONNECTIONS, MOST_GENERATED,
    limits_are_these_numbers,
};
pub use laws::a_count_is_within_its_limits;
pub use reading::read_words;
pub use telling::{KIT, VERSION};
pub use worked::{
    check_has_a_heading_and_a_circuit_or_less, circuits_and_times_of_digits, commands_of_one_word,
    connections_of_one_to_four_digits, counts_of_one_to_six_digits,
    migrate_has_one_word_more_or_none, other_lists_are_no_command, what_a_standby_has,
};
