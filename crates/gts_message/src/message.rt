ghost use Rattle.std.specs.Prelude.{◌≡◌, List, ℕ, IfOk, IsOkAnd, codes};
ghost use Rattle.gts_message.specs.Cited.{HeadingFields, Reads, fields_of, message_of};

use crate::reading::{number_of_run, text_before_end};
use gts_alphabet::{CR, EOL, LF, LONGEST_BODY, SOH};
use gts_heading::{Cursor, Heading, MessageField};

/// How every message begins: SOH CR CR LF.
const START: [u8; 4] = [SOH, CR, CR, LF];

/// The parts of a message, which they borrow.
#[derive(Clone, Copy, Debug)]
pub struct SplitMessage<'a> {
    /// The sequence number.
    pub number: u32,
    /// How many digits the sequence number has: 3 or 5.
    pub digits: u8,
    /// The abbreviated heading.
    pub heading: Heading,
    /// The text: what stands between the line of the heading and the end. It may be empty, and hold any bytes.
    pub text: &'a [u8],
    /// All from the first byte of the heading to ETX.
    pub body: &'a [u8],
}

/// Names the call that takes a message apart.
pub struct Message;

/// Names the call that takes a body apart.
pub struct Body;

impl Message {
    ghost use Rattle.gts_message.specs.Message.{MessageParts, IsMessage, parts_around, parts_of, split_at};

    /// Takes a message apart. The refusal is the first field, from left to right, that isn't as the Manual and this
    /// project's profile have it; a byte that isn't there is a fault of the field in which it would stand.
    pub fn split(message: &[u8]) -> Result<SplitMessage<'_>, MessageField>
        // What is read is a message of these parts.
        ensures found { IfOk result (λ parts. IsMessage message.now (parts_of parts)) }
        // What is a message is read, and has no other parts.
        ensures only { (parts : MessageParts) → IsMessage message.now parts
            → IsOkAnd result (λ found. parts_of found ≡ parts) }
        // Which field it is.
        ensures exact { Reads parts_of result (split_at message.now) }
    {
        Message::parts(message)
    }

    /// Takes apart the message that has this body behind the sequence number 000, without making it.
    #[tactic(auto, unfolding(crate::specs::Message::split_at))]
    pub fn split_around(body: &[u8]) -> Result<SplitMessage<'_>, MessageField>
        ensures { Reads parts_of result (split_at (message_of (codes "000") body.now)) }
    {
        Message::parts_around(0, 3, body)
    }

    /// Reads the fields from left to right.
    #[tactic(auto, unfolding(crate::specs::Message::split_at))]
    fn parts(message: &[u8]) -> Result<SplitMessage<'_>, MessageField>
        ensures { Reads parts_of result (split_at message.now) }
    {
        let mut cursor = Cursor::new(message);
        cursor.word(&START, MessageField::StartLine)?;
        let (number, digits, rest) = number_of_run(cursor.rest())?;
        let mut cursor = Cursor::new(rest);
        cursor.gap();
        cursor.word(&EOL, MessageField::HeadingStart)?;
        Message::parts_around(number, digits, cursor.rest())
    }

    /// The parts of a message that has this number, of so many digits, and this body.
    #[tactic(auto)]
    fn parts_around(number: u32, digits: u8, body: &[u8]) -> Result<SplitMessage<'_>, MessageField>
        ensures { Reads parts_of result (parts_around number digits body.now) }
    {
        let (heading, text) = Body::parts(body)?;
        if body.len() > LONGEST_BODY {
            return Err(MessageField::Size);
        }
        Ok(SplitMessage {
            number,
            digits,
            heading,
            text,
            body,
        })
    }
}

impl Body {
    ghost use Rattle.gts_message.specs.Message.{IsBody, body_at};

    /// Takes a body apart: its heading and its text. The refusal is the first field from `Tt` to `End`.
    pub fn split(body: &[u8]) -> Result<(Heading, &[u8]), MessageField>
        // What is read is a body with this heading and this text.
        ensures found { IfOk result (λ found. IsBody body.now (fields_of found.0) found.1.now) }
        // What is a body is read, and has no other heading and text.
        ensures only { (h : HeadingFields) (text : List ℕ) → IsBody body.now h text
            → IsOkAnd result (λ found. (fields_of found.0 ≡ h) × (found.1.now ≡ text)) }
        // Which field it is.
        ensures exact { Reads (λ found. (fields_of found.0, found.1.now)) result
            (body_at body.now) }
    {
        Body::parts(body)
    }

    /// Reads the line of the heading, and what stands before the end.
    #[tactic(auto, unfolding(crate::specs::Message::body_at))]
    fn parts(body: &[u8]) -> Result<(Heading, &[u8]), MessageField>
        ensures { Reads (λ found. (fields_of found.0, found.1.now)) result (body_at body.now) }
    {
        let (heading, length) = Heading::read(body)?;
        let text = text_before_end(&body[length..])?;
        Ok((heading, text))
    }
}
