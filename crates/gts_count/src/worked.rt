//! Tables of literal histories, each row the contract of a function with an empty body.

#![tactic(auto, unfolding(gts_alphabet::specs::Digits::dec, gts_heading::specs::Heading::heading_text, gts_heading::specs::Reading::bare_group_at, gts_heading::specs::Reading::bare_heading_at, gts_heading::specs::Reading::heading_at, gts_heading::specs::Reading::message_group_at, gts_heading::specs::Reading::plain_heading_at, gts_message::specs::Message::body_at, gts_message::specs::Message::number_at, gts_message::specs::Message::split_at, gts_message::specs::Message::text_at, gts_request::specs::Request::request_at, crate::specs::Worked::digits))]

ghost use Rattle.gts_count.specs.Worked.{DuplicateNotCounted, WindowOfOne, GapInWindow, NothingYet};

/// Three bulletins came in and were drawn on the other circuit. The duplicate between them isn't counted.
pub fn a_duplicate_is_not_counted()
    ensures { DuplicateNotCounted }
{}

/// With a window of one only the last bulletin is counted. All draws are kept, and counted.
pub fn the_window_bounds_what_is_counted()
    ensures { WindowOfOne }
{}

/// A bulletin leaves when its position does, also where those between it and the new one are missing.
pub fn a_bulletin_leaves_by_its_position()
    ensures { GapInWindow }
{}

/// Where nothing was accepted, each circuit has its line.
pub fn nothing_is_counted_of_nothing()
    ensures { NothingYet }
{}
