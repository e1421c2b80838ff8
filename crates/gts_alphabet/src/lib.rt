//! What every grammar shares: the characters of International Alphabet No. 5 that frame a message, numbers of a fixed
//! count of digits, the limits of the switch, and the one answer that every call has which may find no memory.
#![tactic(auto)]

mod characters;
mod digits;
mod laws;
mod limits;
mod memory;

pub use characters::{BLANK, CR, EOL, ETX, LF, SOH};
pub use digits::{decimal_value, digits_of};
pub use laws::{
    dec_is_read_back, dec_writes_every_number, digits_pass_the_test, longest_body_fits_a_message,
};
pub use limits::{
    CHANNELS, FRAME_HEAD, LONGEST_BODY, LONGEST_FRAME, LONGEST_MESSAGE, MOST_CIRCUITS,
    limits_are_these_numbers,
};
pub use memory::NoMemory;
