//! Reports of literal needs, each row the contract of a function with an empty body.

#![tactic(auto, unfolding(gts_alphabet::specs::Digits::dec, gts_heading::specs::Heading::heading_text, gts_heading::specs::Reading::bare_group_at, gts_heading::specs::Reading::bare_heading_at, gts_heading::specs::Reading::heading_at, gts_heading::specs::Reading::message_group_at, gts_heading::specs::Reading::plain_heading_at, gts_message::specs::Message::body_at, gts_message::specs::Message::text_at, gts_record::specs::Format::written, crate::specs::Worked::digits))]

ghost use Rattle.gts_report.specs.ChangesWorked.{NothingChanges, RuleGone, CircuitClosed, LessKept};

/// Where nothing changes, the report has its end alone.
pub fn nothing_is_told_where_nothing_changes()
    ensures { NothingChanges }
{}

/// A rule that is taken out is told by its pattern and the names of its circuits; of one that names other circuits both forms are.
pub fn a_rule_that_is_gone_is_told()
    ensures { RuleGone }
{}

/// A circuit that is closed is told, with how many bulletins wait on it, and that these refuse it.
pub fn a_circuit_that_is_closed_is_told()
    ensures { CircuitClosed }
{}

/// Fewer draws that are kept, other digits and a smaller window are told by what is lost; an added circuit by its name.
pub fn what_is_lost_is_told()
    ensures { LessKept }
{}
