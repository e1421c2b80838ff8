//! Worked rows over literal bytes, each the contract of a function with an empty body.

#![tactic(auto, unfolding(gts_alphabet::specs::Digits::dec, gts_heading::specs::Heading::heading_text, gts_heading::specs::Reading::bare_group_at, gts_heading::specs::Reading::bare_heading_at, gts_heading::specs::Reading::heading_at, gts_heading::specs::Reading::message_group_at, gts_heading::specs::Reading::plain_heading_at, gts_message::specs::Message::body_at, gts_message::specs::Message::number_at, gts_message::specs::Message::split_at, gts_message::specs::Message::text_at, gts_request::specs::Request::request_at, crate::specs::Worked::digits))]

ghost use Rattle.gts_connection.specs.Worked.{ByteByByte, KeepAliveBetween, LossAndReopen, Losses, FramesBeforeLoss, DrainTakes, RestartedConnections, CountedCompactions, WholeCapture};
ghost use Rattle.gts_connection.specs.Worked.{CutInFeed, CutInHead, BadByte, TrafficHeads};

/// A frame in pieces of one byte is heard as in one piece.
pub fn a_frame_may_come_byte_by_byte()
    ensures { ByteByByte }
{}

/// A keep-alive between two frames is no event.
pub fn a_keep_alive_is_passed_over()
    ensures { KeepAliveBetween }
{}

/// After a loss bytes are dropped until a new connection begins.
pub fn a_new_connection_begins_after_a_loss()
    ensures { LossAndReopen }
{}

/// The first byte that no stream has in its place is a loss, in the field that stands there.
pub fn the_first_byte_that_fits_no_frame_is_a_loss()
    ensures { Losses }
{}

/// Frames in front of a loss are heard.
pub fn frames_before_a_loss_are_heard()
    ensures { FramesBeforeLoss }
{}

/// A drain takes until one take gives nothing.
pub fn a_drain_takes_once_more_than_there_is()
    ensures { DrainTakes }
{}

/// What a restart, a compaction and a new connection do to bytes that came before.
pub fn a_restart_begins_each_connection_anew()
    ensures { RestartedConnections }
{}

/// Each compaction of a capture comes behind so many entries, and is read as a step.
pub fn a_compaction_comes_behind_so_many_entries()
    ensures { CountedCompactions }
{}

/// The text of a small capture, and how it is read.
pub fn a_capture_is_read_through_its_end()
    ensures { WholeCapture }
{}

/// A capture that is cut in a feed is read as far as it is there.
pub fn a_capture_may_end_in_a_feed()
    ensures { CutInFeed }
{}

/// A capture that is cut in a head is read up to its end.
pub fn a_capture_may_end_in_a_head()
    ensures { CutInHead }
{}

/// A capture with a wrong byte is read up to that byte.
pub fn a_capture_may_have_a_bad_byte()
    ensures { BadByte }
{}

/// A capture that is about circuits alone is read up to a step of the journal.
pub fn a_capture_of_traffic_has_no_step_of_the_journal()
    ensures { TrafficHeads }
{}
