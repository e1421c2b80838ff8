//! Laws over the definitions, each the contract of a function with an empty body.

ghost use Rattle.std.specs.Prelude.{◌≡◌, ◌≤◌, ◌-◌, ℕ, codes};
ghost use Rattle.gts_generate.specs.Cited.{IsWhole, capture, directory, draws_in, frames_in, frames_said, history, is_accepted, is_draw, is_duplicate, is_granted, is_resend, need, outcomes_on, outside_of, receipts_of, state_after, steps};

use crate::MOST_MESSAGES;

/// The capture of a day, of as many messages as may be, is a whole one of its directory, and its steps are those of the day.
pub fn the_capture_is_read_as_its_steps()
    ensures { (count : ℕ) → count ≤ MOST_MESSAGES
        → IsWhole directory (capture count) (steps count) }
{}

/// The counts of a day's summary, which are those of what was said and of the need behind the day, are the numbers of such
/// outcomes of its history.
pub fn the_summary_counts_what_happened()
    ensures accepted { (count : ℕ) → (need directory (state_after (history count))).accepted
        ≡ outcomes_on count is_accepted }
    ensures duplicates { (count : ℕ) → receipts_of (codes "DUP") (outside_of count)
        ≡ outcomes_on count is_duplicate }
    ensures requests { (count : ℕ) → receipts_of (codes "ASK") (outside_of count)
        ≡ outcomes_on count is_granted }
    ensures draws { (count : ℕ) → draws_in (need directory (state_after (history count)))
        ≡ outcomes_on count is_draw }
    ensures resends { (count : ℕ) → frames_in (frames_said (outside_of count))
        - draws_in (need directory (state_after (history count))) ≡ outcomes_on count is_resend }
{}
