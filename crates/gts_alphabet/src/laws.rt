//! Laws over the definitions, each the contract of a function with an empty body.

ghost use Rattle.std.specs.Prelude.{◌≡◌, ℕ, ◌<◌, ◌≤◌, ◌^◌, ◌↔◌, List, IsTrue, length};
ghost use Rattle.gts_alphabet.specs.Cited.{AllDigits, dec, digits_value, is_ascii_digit, list_all, message_of};

use crate::{LONGEST_BODY, LONGEST_MESSAGE};

/// What was written in a fixed count of digits is read again.
pub fn dec_is_read_back()
    ensures digits { (w n : ℕ) → AllDigits 10 (dec w n) }
    ensures length { (w n : ℕ) → length (dec w n) ≡ w }
    ensures value { (w n : ℕ) → n < 10 ^ w → digits_value 10 (dec w n) ≡ n }
{}

/// Any list of digits is what writing its number in as many digits gives.
pub fn dec_writes_every_number()
    ensures { (digits : List ℕ) → AllDigits 10 digits
        → dec (length digits) (digits_value 10 digits) ≡ digits }
{}

/// A message of the longest body, with a number of five digits, is no longer than the longest message.
pub fn longest_body_fits_a_message()
    ensures { (number body : List ℕ) → length number ≤ 5 → length body ≤ LONGEST_BODY
        → length (message_of number body) ≤ LONGEST_MESSAGE }
{}

/// Bytes are decimal digits exactly where each passes the test for one.
pub fn digits_pass_the_test()
    ensures { (bytes : List ℕ) → IsTrue (list_all is_ascii_digit bytes) ↔ AllDigits 10 bytes }
{}
