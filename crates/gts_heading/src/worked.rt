//! Headings read byte for byte, each the contract of a function with an empty body.

#![tactic(auto, unfolding(crate::specs::Reading::bare_group_at, crate::specs::Reading::bare_heading_at, crate::specs::Reading::heading_at, crate::specs::Reading::message_group_at, crate::specs::Reading::plain_heading_at))]

ghost use Rattle.std.specs.Prelude.{◌≡◌, [], None, Some, Ok, Err, codes};
ghost use Rattle.gts_heading.specs.Reading.{bare_heading_at, heading_at};
ghost use Rattle.gts_heading.specs.Worked.{last_minute, worked_heading};

use crate::MessageField;

/// Headings without a group and with one, alone and before the end of their line.
pub fn worked_headings()
    ensures plain { bare_heading_at (codes "SMVG01 TVSV 280000") ≡ Ok (worked_heading None, []) }
    ensures grouped { bare_heading_at (codes "SMVG01 TVSV 280000 RRA")
        ≡ Ok (worked_heading (Some (codes "RRA")), []) }
    ensures line { heading_at (codes "SMVG01 TVSV 312359 \r\r\nNIL=")
        ≡ Ok (last_minute, codes "NIL=") }
{}

/// Each field of a heading is refused where it isn't there.
pub fn worked_refusals()
    ensures small_type { bare_heading_at (codes "sm") ≡ Err MessageField.Tt }
    ensures digit_in_area { bare_heading_at (codes "SMV1") ≡ Err MessageField.Aa }
    ensures letter_in_number { bare_heading_at (codes "SMVG0x") ≡ Err MessageField.Ii }
    ensures three_letters_of_centre { bare_heading_at (codes "SMVG01 TVS ")
        ≡ Err MessageField.Cccc }
    ensures day_zero { bare_heading_at (codes "SMVG01 TVSV 00") ≡ Err MessageField.Day }
    ensures day_32 { bare_heading_at (codes "SMVG01 TVSV 32") ≡ Err MessageField.Day }
    ensures hour_24 { bare_heading_at (codes "SMVG01 TVSV 2824") ≡ Err MessageField.Hour }
    ensures minute_60 { bare_heading_at (codes "SMVG01 TVSV 280060") ≡ Err MessageField.Minute }
    ensures no_such_group { bare_heading_at (codes "SMVG01 TVSV 280000 COR")
        ≡ Err MessageField.Bbb }
    ensures digit_in_group { bare_heading_at (codes "SMVG01 TVSV 280000 RR1")
        ≡ Err MessageField.Bbb }
    ensures no_end { heading_at (codes "SMVG01 TVSV 280000") ≡ Err MessageField.HeadingEnd }
    ensures two_blanks { heading_at (codes "SMVG01 TVSV 280000 RRA  \r\r\n")
        ≡ Err MessageField.HeadingEnd }
{}
