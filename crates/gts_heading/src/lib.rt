//! The abbreviated heading of a bulletin: `TTAAii CCCC YYGGgg`, and a BBB group where there is one. Also the cursor
//! that every reader of a message moves, and the names of the fields that can be at fault.
#![tactic(auto)]

mod cursor;
mod field;
mod heading;
mod laws;
mod letters;
mod worked;

pub use cursor::Cursor;
pub use field::MessageField;
pub use heading::Heading;
pub use laws::{
    gaps_are_passed_over, headings_are_known_by_their_texts, read_heading_is_spelled,
    spelled_heading_is_read, words_are_passed_over,
};
pub use letters::{are_capitals, is_bbb};
pub use worked::{worked_headings, worked_refusals};
