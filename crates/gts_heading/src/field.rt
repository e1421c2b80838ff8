ghost use Rattle.std.specs.Prelude.{◌≡◌, ◌≤◌, length};
ghost use Rattle.gts_heading.specs.MessageField.{field_text};

use std::error::Error;
use std::fmt;

/// The fields of a message from left to right, each with the rule that it can break (the Manual's message format; the
/// blanks, the ranges and the limit are this project's profile).
#[derive(Clone, Copy, Debug, PartialEq, Eq)]
pub enum MessageField {
    /// The message begins with SOH CR CR LF.
    StartLine,
    /// The run of digits that follows has three digits or five.
    Number,
    /// Then comes one blank or none, and CR CR LF.
    HeadingStart,
    /// Two capitals: the data type.
    Tt,
    /// Two capitals: the area.
    Aa,
    /// Two digits.
    Ii,
    /// A blank and four capitals: the centre that compiled the bulletin.
    Cccc,
    /// A blank and a day from 01 to 31.
    Day,
    /// An hour from 00 to 23.
    Hour,
    /// A minute from 00 to 59.
    Minute,
    /// Where a blank follows that isn't followed by CR: the three letters of a BBB group.
    Bbb,
    /// Then comes one blank or none, and CR CR LF.
    HeadingEnd,
    /// At least four bytes are left, and the last four are CR CR LF ETX.
    End,
    /// The body is no longer than the longest.
    Size,
}

impl MessageField {
    /// The name of the field, as a receipt has it (this project's profile): at most twelve characters.
    pub fn text(self) -> &'static str
        ensures text { result.now ≡ field_text self }
        ensures short { length result.now ≤ 12 }
    {
        match self {
            MessageField::StartLine => "StartLine",
            MessageField::Number => "Number",
            MessageField::HeadingStart => "HeadingStart",
            MessageField::Tt => "TT",
            MessageField::Aa => "AA",
            MessageField::Ii => "ii",
            MessageField::Cccc => "CCCC",
            MessageField::Day => "Day",
            MessageField::Hour => "Hour",
            MessageField::Minute => "Minute",
            MessageField::Bbb => "BBB",
            MessageField::HeadingEnd => "HeadingEnd",
            MessageField::End => "End",
            MessageField::Size => "Size",
        }
    }
}

impl fmt::Display for MessageField {
    fn fmt<W: fmt::Write>(&self, f: &mut fmt::Formatter<W>) -> fmt::Result {
        write!(f, "a message is refused by its field {}", self.text())
    }
}

impl Error for MessageField {}
