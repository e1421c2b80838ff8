//! Rows of a day in literal bytes, each the contract of a function with an empty body.

#![tactic(auto, unfolding(gts_alphabet::specs::Digits::dec, gts_heading::specs::Heading::heading_text))]

ghost use Rattle.std.specs.Prelude.{◌≡◌};
ghost use Rattle.gts_generate.specs.Worked as rows;

use crate::{CIRCUITS, MOST_MESSAGES};

/// The first message, byte for byte; and one behind the number 999.
pub fn messages_are_spelled()
    ensures first { rows.FirstMessage }
    ensures later { rows.LaterMessage }
{}

/// The message that repeats the one before it.
pub fn the_fiftieth_message_repeats_the_one_before_it()
    ensures { rows.RepeatedMessages }
{}

/// The request, byte for byte.
pub fn the_hundredth_message_is_a_request()
    ensures { rows.FirstRequest }
{}

/// What stands behind all messages.
pub fn all_circuits_are_drained_at_the_end()
    ensures { rows.ShortDays }
{}

/// Who gets what, and at which level.
pub fn the_directory_names_two_circuits()
    ensures named { rows.WhoGetsWhat }
    ensures levels { rows.Levels }
{}

/// What of all that was said counts.
pub fn what_was_said_is_counted()
    ensures { rows.WhatWasSaid }
{}

/// The limits of a day, each with its number.
pub fn limits_are_these_numbers()
    ensures messages { MOST_MESSAGES ≡ 100000 }
    ensures circuits { CIRCUITS ≡ 8 }
{}
