//! Laws over the definitions, each the contract of a function with an empty body.

ghost use Rattle.std.specs.Prelude.{◌≡◌, ◌<◌, ◌≤◌, ◌^◌, ◌++◌, ℕ, List, length, None, Ok, Err};
ghost use Rattle.gts_message.specs.Cited.{HeadingFields, IsBody, IsGap, IsMessage, MessageParts, body_at, dec, fault, message_of, split_at};

use gts_alphabet::LONGEST_BODY;
use gts_heading::MessageField;

/// What is spelled as a message, or as a body, is read as these parts.
pub fn spelled_message_is_split()
    ensures message { (message : List ℕ) (parts : MessageParts) → IsMessage message parts
        → split_at message ≡ Ok parts }
    ensures body { (body text : List ℕ) (h : HeadingFields) → IsBody body h text
        → body_at body ≡ Ok (h, text) }
{}

/// What is read is a message, or a body, of these parts.
pub fn split_message_is_spelled()
    ensures message { (message : List ℕ) (parts : MessageParts) → split_at message ≡ Ok parts
        → IsMessage message parts }
    ensures body { (body text : List ℕ) (h : HeadingFields) → body_at body ≡ Ok (h, text)
        → IsBody body h text }
{}

/// The heading and the text that a message is read with are those of its body.
pub fn a_body_has_the_heading_of_its_message()
    ensures { (message : List ℕ) (parts : MessageParts) → split_at message ≡ Ok parts
        → body_at parts.body ≡ Ok (parts.heading, parts.text) }
{}

/// Exactly what is no message has a fault.
pub fn messages_have_no_fault()
    ensures message { (message : List ℕ) (parts : MessageParts) → IsMessage message parts
        → fault message ≡ None }
    ensures fault { (message : List ℕ) → fault message ≡ None
        → (parts : MessageParts) × IsMessage message parts }
{}

/// A body up to the longest is accepted, and none beyond it, whatever the number (this project's profile).
pub fn body_limit()
    ensures accepted { (gap : List ℕ) (p : MessageParts) → p.digits ≡ 5 → p.number < 10 ^ 5
        → IsGap gap → IsBody p.body p.heading p.text → length p.body ≤ LONGEST_BODY
        → split_at (message_of (dec 5 p.number ++ gap) p.body) ≡ Ok p }
    ensures refused { (n : ℕ) (gap body text : List ℕ) (h : HeadingFields) → n < 10 ^ 5 → IsGap gap
        → IsBody body h text → LONGEST_BODY < length body
        → split_at (message_of (dec 5 n ++ gap) body) ≡ Err MessageField.Size }
{}
