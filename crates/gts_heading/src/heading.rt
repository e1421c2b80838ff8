ghost use Rattle.std.specs.Prelude.{◌≡◌, ◌<◌, ◌≤◌, ◌+◌, ◌++◌, List, ℕ, IsTrue, IsNone, IsSome, IfOk, IsOkAnd, length, take, drop};
ghost use Rattle.gts_heading.specs.Letters.{are_capitals, is_group};

use crate::{Cursor, MessageField};
use gts_alphabet::{BLANK, CR, EOL, digits_of};

/// An abbreviated heading (the Manual's message format; the range of `ii` and the BBB groups are this project's
/// profile). Two headings are equal where all their fields are, BBB included.
#[derive(Clone, Copy, Debug, PartialEq, Eq)]
pub struct Heading {
    /// The data type: two capitals.
    pub tt: [u8; 2],
    /// The area: two capitals.
    pub aa: [u8; 2],
    /// The number that tells bulletins of one type and area apart: 0 to 99.
    pub ii: u8,
    /// The centre that compiled the bulletin: four capitals.
    pub cccc: [u8; 4],
    /// The day of the month: 1 to 31.
    pub day: u8,
    /// The hour: 0 to 23.
    pub hour: u8,
    /// The minute: 0 to 59.
    pub minute: u8,
    /// The three letters of the BBB group, where there is one.
    pub bbb: Option<[u8; 3]>,
    ghost type_letters: { IsTrue (are_capitals tt) },
    ghost area_letters: { IsTrue (are_capitals aa) },
    ghost number_in_range: { ii < 100 },
    ghost centre_letters: { IsTrue (are_capitals cccc) },
    ghost day_from: { 1 ≤ day },
    ghost day_to: { day ≤ 31 },
    ghost hour_in_range: { hour < 24 },
    ghost minute_in_range: { minute < 60 },
    ghost group_letters: { IsTrue (is_group bbb) },
}

impl Heading {
    ghost use Rattle.gts_heading.specs.Cited.{HeadingFields, IsHeading, IsHeadingLine, NoBlank, Reads, bare_group_at, bare_heading_at, fields_of, heading_at, heading_text, is_same_heading, message_group_at, plain_heading_at};

    /// Reads a heading at the front, with a BBB group where a blank follows the minute, and answers how many bytes it
    /// has: 18 or 22. The refusal is the first field from `Tt` to `Bbb` that isn't there.
    pub fn read_bare(bytes: &[u8]) -> Result<(Heading, usize), MessageField>
        ensures length { IfOk result (λ found. found.1 ≤ length bytes.now) }
        // What is read is a heading, spelled so.
        ensures heading { IfOk result (λ found. IsHeading (fields_of found.0)) }
        ensures spelled { IfOk result (λ found.
            take found.1 bytes.now ≡ heading_text (fields_of found.0)) }
        // What is spelled so is read, where no blank follows.
        ensures only { (h : HeadingFields) (rest : List ℕ) → IsHeading h → NoBlank rest
            → bytes.now ≡ heading_text h ++ rest
            → IsOkAnd result (λ r. (fields_of r.0 ≡ h) × (r.1 ≡ length (heading_text h))) }
        // Which field it is.
        ensures exact { Reads (λ found. (fields_of found.0, drop found.1 bytes.now)) result
            (bare_heading_at bytes.now) }
    {
        Heading::bare_with_length(bytes)
    }

    /// Reads a heading, one meaningless blank where there is one, and CR CR LF, and answers how many bytes these have
    /// together. The refusal is the first field from `Tt` to `HeadingEnd` that isn't there.
    pub fn read(bytes: &[u8]) -> Result<(Heading, usize), MessageField>
        ensures length { IfOk result (λ found. found.1 ≤ length bytes.now) }
        // What is read is the line of a heading.
        ensures heading { IfOk result (λ found. IsHeading (fields_of found.0)) }
        ensures spelled { IfOk result (λ found.
            IsHeadingLine (take found.1 bytes.now) (fields_of found.0)) }
        // What is the line of a heading is read.
        ensures only { (h : HeadingFields) (line rest : List ℕ) → IsHeading h → IsHeadingLine line h
            → bytes.now ≡ line ++ rest
            → IsOkAnd result (λ found. (fields_of found.0 ≡ h) × (found.1 ≡ length line)) }
        // Which field it is.
        ensures exact { Reads (λ found. (fields_of found.0, drop found.1 bytes.now)) result
            (heading_at bytes.now) }
    {
        Heading::line_with_length(bytes)
    }

    /// Writes the 18 or 22 bytes of the heading to the front of `into`, and answers how many.
    pub fn write(&self, into: &mut [u8; 22]) -> usize
        ensures written { take result into.new ≡ heading_text (fields_of self.now) }
        ensures length { result ≡ length (heading_text (fields_of self.now)) }
        ensures short { result ≤ 22 }
        // What is written is a heading: 18 bytes, and with a group 22.
        ensures heading { IsHeading (fields_of self.now) }
        ensures plain { IsNone self.now.bbb → result ≡ 18 }
        ensures grouped { IsSome self.now.bbb → result ≡ 22 }
    {
        let at = put(into, 0, &self.tt);
        let at = put(into, at, &self.aa);
        let at = put(into, at, &digits_of::<2>(u32::from(self.ii)));
        let at = put(into, at, &[BLANK]);
        let at = put(into, at, &self.cccc);
        let at = put(into, at, &[BLANK]);
        let at = put(into, at, &digits_of::<2>(u32::from(self.day)));
        let at = put(into, at, &digits_of::<2>(u32::from(self.hour)));
        let at = put(into, at, &digits_of::<2>(u32::from(self.minute)));
        match self.bbb {
            None => at,
            Some(letters) => {
                let at = put(into, at, &[BLANK]);
                put(into, at, &letters)
            }
        }
    }

    /// Whether two headings are equal in all fields, the BBB group included: they are written alike.
    pub fn is_same(&self, other: &Heading) -> bool
        ensures { result ≡ is_same_heading (fields_of self.now) (fields_of other.now) }
    {
        *self == *other
    }

    /// Reads a heading and its group, with their length.
    fn bare_with_length(bytes: &[u8]) -> Result<(Heading, usize), MessageField>
        ensures length { IfOk result (λ found. found.1 ≤ length bytes.now) }
        ensures exact { Reads (λ found. (fields_of found.0, drop found.1 bytes.now)) result
            (bare_heading_at bytes.now) }
    {
        let mut cursor = Cursor::new(bytes);
        let heading = Heading::bare(&mut cursor)?;
        Ok((heading, bytes.len() - cursor.rest().len()))
    }

    /// Reads a heading and the end of its line, with their length.
    fn line_with_length(bytes: &[u8]) -> Result<(Heading, usize), MessageField>
        ensures length { IfOk result (λ found. found.1 ≤ length bytes.now) }
        ensures exact { Reads (λ found. (fields_of found.0, drop found.1 bytes.now)) result
            (heading_at bytes.now) }
    {
        let mut cursor = Cursor::new(bytes);
        let heading = Heading::line(&mut cursor)?;
        Ok((heading, bytes.len() - cursor.rest().len()))
    }

    /// Reads a heading and its group.
    #[tactic(auto, unfolding(crate::specs::Reading::bare_heading_at))]
    fn bare(cursor: &mut Cursor<'_>) -> Result<Heading, MessageField>
        ensures { Reads (λ heading. (fields_of heading, cursor.new)) result
            (bare_heading_at cursor.old) }
    {
        let mut heading = Heading::plain(cursor)?;
        heading.bbb = Heading::bare_group(cursor)?;
        Ok(heading)
    }

    /// Reads a heading, its group and the end of its line.
    #[tactic(auto, unfolding(crate::specs::Reading::heading_at))]
    fn line(cursor: &mut Cursor<'_>) -> Result<Heading, MessageField>
        ensures { Reads (λ heading. (fields_of heading, cursor.new)) result
            (heading_at cursor.old) }
    {
        let mut heading = Heading::plain(cursor)?;
        heading.bbb = Heading::message_group(cursor)?;
        cursor.gap();
        cursor.word(&EOL, MessageField::HeadingEnd)?;
        Ok(heading)
    }

    /// Reads a heading without its group.
    #[tactic(auto, unfolding(crate::specs::Reading::plain_heading_at))]
    fn plain(cursor: &mut Cursor<'_>) -> Result<Heading, MessageField>
        ensures { Reads (λ heading. (fields_of heading, cursor.new)) result
            (plain_heading_at cursor.old) }
    {
        let tt = cursor.capitals(MessageField::Tt)?;
        let aa = cursor.capitals(MessageField::Aa)?;
        let ii = cursor.two_digits(0, 99, MessageField::Ii)?;
        cursor.word(&[BLANK], MessageField::Cccc)?;
        let cccc = cursor.capitals(MessageField::Cccc)?;
        cursor.word(&[BLANK], MessageField::Day)?;
        let day = cursor.two_digits(1, 31, MessageField::Day)?;
        let hour = cursor.two_digits(0, 23, MessageField::Hour)?;
        let minute = cursor.two_digits(0, 59, MessageField::Minute)?;
        Ok(Heading {
            tt,
            aa,
            ii,
            cccc,
            day,
            hour,
            minute,
            bbb: None,
        })
    }

    /// Reads the group behind a blank, where a blank follows.
    #[tactic(auto, unfolding(crate::specs::Reading::bare_group_at))]
    fn bare_group(cursor: &mut Cursor<'_>) -> Result<Option<[u8; 3]>, MessageField>
        ensures exact { Reads (λ group. (group, cursor.new)) result (bare_group_at cursor.old) }
        ensures group { IfOk result (λ group. IsTrue (is_group group)) }
    {
        if !cursor.is_at(&[BLANK]) {
            return Ok(None);
        }
        cursor.gap();
        let letters = cursor.group()?;
        Ok(Some(letters))
    }

    /// Reads the group behind a blank, where a blank follows that no CR follows.
    #[tactic(auto, unfolding(crate::specs::Reading::message_group_at))]
    fn message_group(cursor: &mut Cursor<'_>) -> Result<Option<[u8; 3]>, MessageField>
        ensures exact { Reads (λ group. (group, cursor.new)) result (message_group_at cursor.old) }
        ensures group { IfOk result (λ group. IsTrue (is_group group)) }
    {
        if cursor.is_at(&[BLANK, CR]) {
            return Ok(None);
        }
        Heading::bare_group(cursor)
    }
}

/// Writes a part at a place, and answers the place behind it.
fn put(into: &mut [u8; 22], at: usize, part: &[u8]) -> usize
    requires { at + length part.now ≤ 22 }
    ensures written { take result into.new ≡ take at into.old ++ part.now }
    ensures place { result ≡ at + length part.now }
{
    let end = at + part.len();
    into[at..end].copy_from_slice(part);
    end
}
