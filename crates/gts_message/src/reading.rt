ghost use Rattle.std.specs.Prelude.{◌≡◌, ◌≤◌, length};
ghost use Rattle.gts_alphabet.specs.Reads.{Reads};
ghost use Rattle.gts_message.specs.Message as message;

use gts_alphabet::{CR, ETX, LF, decimal_value};
use gts_heading::MessageField;

/// How every message ends: CR CR LF ETX.
const END: [u8; 4] = [CR, CR, LF, ETX];

/// The number of three digits or five at the front, how many they are, and the bytes behind them.
#[tactic(auto, unfolding(crate::specs::Message::number_at))]
pub(crate) fn number_of_run(bytes: &[u8]) -> Result<(u32, u8, &[u8]), MessageField>
    ensures { Reads (λ found. (found.0, found.1, found.2.now)) result
        (message.number_at bytes.now) }
{
    let run = digit_count(bytes);
    if run != 3 && run != 5 {
        return Err(MessageField::Number);
    }
    let (digits, rest) = bytes.split_at(run);
    let number = decimal_value(digits).unwrap();
    Ok((number, run as u8, rest))
}

/// How many digits stand at the front.
fn digit_count(bytes: &[u8]) -> usize
    ensures count { result ≡ length (message.digit_run bytes.now) }
    ensures inside { result ≤ length bytes.now }
{
    bytes
        .iter()
        .take_while(|byte| byte.is_ascii_digit())
        .count()
}

/// The text: what stands before the end of the message.
#[tactic(auto, unfolding(crate::specs::Message::text_at))]
pub(crate) fn text_before_end(bytes: &[u8]) -> Result<&[u8], MessageField>
    ensures { Reads (λ text. text.now) result (message.text_at bytes.now) }
{
    if !bytes.ends_with(&END) {
        return Err(MessageField::End);
    }
    Ok(&bytes[..bytes.len() - END.len()])
}
