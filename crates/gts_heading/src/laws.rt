//! Laws over the definitions, each the contract of a function with an empty body.

ghost use Rattle.std.specs.Prelude.{◌≡◌, ◌++◌, ◌↔◌, ℕ, List, Ok};
ghost use Rattle.gts_heading.specs.Cited.{EOL, HeadingFields, IsGap, IsHeading, NoBlank, after_gap, after_word, bare_heading_at, heading_at, heading_text};

use crate::MessageField;

/// A word is passed over exactly where the bytes begin with it.
pub fn words_are_passed_over()
    ensures read { (word bytes rest : List ℕ) (field : MessageField)
        → after_word word field bytes ≡ Ok rest → bytes ≡ word ++ rest }
    ensures spelled { (word rest : List ℕ) (field : MessageField)
        → after_word word field (word ++ rest) ≡ Ok rest }
{}

/// One blank or none is passed over.
pub fn gaps_are_passed_over()
    ensures read { (bytes : List ℕ)
        → (gap : List ℕ) × IsGap gap × (bytes ≡ gap ++ after_gap bytes) }
    ensures spelled { (gap rest : List ℕ) → IsGap gap
        → after_gap (gap ++ (EOL ++ rest)) ≡ EOL ++ rest }
{}

/// What is spelled as a heading is read as that heading, whatever follows it: with an empty group where no blank
/// follows, and in a message with one meaningless blank or none before CR CR LF.
pub fn spelled_heading_is_read()
    ensures bare { (h : HeadingFields) (rest : List ℕ) → IsHeading h → NoBlank rest
        → bare_heading_at (heading_text h ++ rest) ≡ Ok (h, rest) }
    ensures line { (h : HeadingFields) (gap rest : List ℕ) → IsHeading h → IsGap gap
        → heading_at (heading_text h ++ gap ++ EOL ++ rest) ≡ Ok (h, rest) }
{}

/// What is read is a heading, and is spelled so.
pub fn read_heading_is_spelled()
    ensures bare { (bytes rest : List ℕ) (h : HeadingFields) → bare_heading_at bytes ≡ Ok (h, rest)
        → IsHeading h × (bytes ≡ heading_text h ++ rest) }
    ensures line { (bytes rest : List ℕ) (h : HeadingFields) → heading_at bytes ≡ Ok (h, rest)
        → IsHeading h
        × ((gap : List ℕ) × IsGap gap × (bytes ≡ heading_text h ++ gap ++ EOL ++ rest)) }
{}

/// Two headings are equal exactly where their texts are.
pub fn headings_are_known_by_their_texts()
    ensures { (g h : HeadingFields) → IsHeading g → IsHeading h
        → (heading_text g ≡ heading_text h) ↔ (g ≡ h) }
{}
