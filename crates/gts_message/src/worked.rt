//! Messages taken apart byte for byte, each the contract of a function with an empty body.

#![tactic(auto, unfolding(crate::specs::Message::split_at, crate::specs::Message::body_at, crate::specs::Message::number_at, crate::specs::Message::text_at, gts_heading::specs::Reading::heading_at, gts_heading::specs::Reading::plain_heading_at, gts_heading::specs::Reading::message_group_at, gts_heading::specs::Reading::bare_group_at))]

ghost use Rattle.std.specs.Prelude.{◌≡◌, ◌++◌, [], ◌∷◌, Ok, Err, codes};
ghost use Rattle.gts_message.specs.Cited.{EOL, ETX, SOH, message_end, message_of, split_at};
ghost use Rattle.gts_message.specs.Worked.{grouped_parts, plain_heading, plain_parts, ten_binary_bytes, worked_message};

use gts_heading::MessageField;

/// Messages are taken apart into their parts.
pub fn worked_messages()
    ensures nil { split_at (worked_message (codes "001") plain_heading (codes "NIL="))
        ≡ Ok (plain_parts 1 3 (codes "NIL=")) }
    ensures empty_text { split_at (worked_message (codes "001") plain_heading [])
        ≡ Ok (plain_parts 1 3 []) }
    // A text that holds CR CR LF and ETX.
    ensures binary_text { split_at (worked_message (codes "001") plain_heading ten_binary_bytes)
        ≡ Ok (plain_parts 1 3 ten_binary_bytes) }
    // A number of five digits isn't read as one of three.
    ensures five_digits { split_at (worked_message (codes "00123 ") plain_heading (codes "NIL="))
        ≡ Ok (plain_parts 123 5 (codes "NIL=")) }
    // The body keeps the meaningless blank behind the group.
    ensures blank_in_the_body { split_at
        (worked_message (codes "001") (plain_heading ++ codes " RRA ") (codes "NIL="))
        ≡ Ok (grouped_parts (codes "NIL=")) }
{}

/// Each field but the size is refused by the shortest message that shows it, and by some that are nearly messages.
pub fn worked_refusals()
    ensures no_bytes { split_at [] ≡ Err MessageField.StartLine }
    ensures no_line_feed { split_at (SOH ∷ 13 ∷ 13 ∷ []) ≡ Err MessageField.StartLine }
    ensures etx_for_line_feed { split_at (SOH ∷ 13 ∷ 13 ∷ ETX ∷ []) ≡ Err MessageField.StartLine }
    ensures no_number { split_at (SOH ∷ EOL) ≡ Err MessageField.Number }
    ensures four_digits { split_at (worked_message (codes "0001") plain_heading (codes "NIL="))
        ≡ Err MessageField.Number }
    ensures six_digits { split_at (worked_message (codes "000001") plain_heading (codes "NIL="))
        ≡ Err MessageField.Number }
    ensures no_heading_start { split_at (SOH ∷ EOL ++ codes "001") ≡ Err MessageField.HeadingStart }
    ensures two_blanks_behind_the_number { split_at
        (worked_message (codes "001  ") plain_heading (codes "NIL="))
        ≡ Err MessageField.HeadingStart }
    ensures no_type { split_at (message_of (codes "001") []) ≡ Err MessageField.Tt }
    ensures no_area { split_at (message_of (codes "001") (codes "SM")) ≡ Err MessageField.Aa }
    ensures no_ii { split_at (message_of (codes "001") (codes "SMVG")) ≡ Err MessageField.Ii }
    ensures no_centre { split_at (message_of (codes "001") (codes "SMVG01"))
        ≡ Err MessageField.Cccc }
    ensures no_day { split_at (message_of (codes "001") (codes "SMVG01 TVSV"))
        ≡ Err MessageField.Day }
    ensures no_hour { split_at (message_of (codes "001") (codes "SMVG01 TVSV 28"))
        ≡ Err MessageField.Hour }
    ensures no_minute { split_at (message_of (codes "001") (codes "SMVG01 TVSV 2800"))
        ≡ Err MessageField.Minute }
    ensures no_group { split_at (message_of (codes "001") (plain_heading ++ codes " "))
        ≡ Err MessageField.Bbb }
    ensures no_heading_end { split_at (message_of (codes "001") plain_heading)
        ≡ Err MessageField.HeadingEnd }
    ensures no_end { split_at (message_of (codes "001") (plain_heading ++ EOL))
        ≡ Err MessageField.End }
    ensures hour_24 { split_at
        (worked_message (codes "001") (codes "SMVG01 TVSV 282400") (codes "NIL="))
        ≡ Err MessageField.Hour }
    ensures unknown_group { split_at
        (worked_message (codes "001") (plain_heading ++ codes " COR") (codes "NIL="))
        ≡ Err MessageField.Bbb }
    ensures one_line_end_for_two { split_at
        (message_of (codes "001") (plain_heading ++ message_end))
        ≡ Err MessageField.End }
{}
