ghost use Rattle.std.specs.Prelude.{◌≡◌, ◌≤◌, List, ℕ, IsTrue, IfOk, OnErr, nat_eq};
ghost use Rattle.gts_heading.specs.Cited.{Reads, after_gap, after_word, capitals_at, letters_at, starts_with, two_digits_at};
ghost use Rattle.gts_heading.specs.Letters as letters;

use crate::MessageField;
use crate::letters::{are_capitals, is_bbb};
use gts_alphabet::{BLANK, decimal_value};
use std::marker::Model;

/// The bytes of a message that are left to read. A field that is there is passed over; one that isn't there is named,
/// and the cursor stays where it is.
#[derive(Debug, Drop)]
pub struct Cursor<'a> {
    rest: &'a [u8],
}

impl<'a> Model for Cursor<'a> {
    ghost Value = { List ℕ };

    ghost view = { λ cursor. cursor.rest.now };
}

impl<'a> Cursor<'a> {
    /// A cursor before the first of these bytes.
    pub fn new(bytes: &'a [u8]) -> Cursor<'a>
        ensures { result ≡ bytes.now }
    {
        Cursor { rest: bytes }
    }

    /// All that is left.
    pub fn rest(&self) -> &'a [u8]
        ensures { result.now ≡ self.now }
    {
        self.rest
    }

    /// Whether this is what comes next.
    pub fn is_at(&self, word: &[u8]) -> bool
        ensures { result ≡ starts_with nat_eq self.now word.now }
    {
        self.rest.starts_with(word)
    }

    /// Passes over this word. The refusal is the field that was given.
    pub fn word(&mut self, word: &[u8], field: MessageField) -> Result<(), MessageField>
        ensures exact { Reads (λ _. self.new) result (after_word word.now field self.old) }
        ensures stays { OnErr result (self.new ≡ self.old) }
    {
        if !self.rest.starts_with(word) {
            return Err(field);
        }
        self.rest = &self.rest[word.len()..];
        Ok(())
    }

    /// Passes over one blank, where there is one.
    pub fn gap(&mut self)
        ensures { self.new ≡ after_gap self.old }
    {
        if self.is_at(&[BLANK]) {
            self.rest = &self.rest[1..];
        }
    }

    /// Reads so many capitals. The refusal is the field that was given.
    pub fn capitals<const N: usize>(&mut self, field: MessageField) -> Result<[u8; N], MessageField>
        ensures exact { Reads (λ letters. (letters, self.new)) result
            (capitals_at N field self.old) }
        ensures capitals { IfOk result (λ capitals. IsTrue (letters.are_capitals capitals)) }
        ensures stays { OnErr result (self.new ≡ self.old) }
    {
        let (letters, rest) = self.rest.split_first_chunk::<N>().ok_or(field)?;
        if !are_capitals(letters) {
            return Err(field);
        }
        self.rest = rest;
        Ok(*letters)
    }

    /// Reads a number of two digits, from low to high. The refusal is the field that was given.
    pub fn two_digits(&mut self, low: u8, high: u8, field: MessageField) -> Result<u8, MessageField>
        ensures exact { Reads (λ number. (number, self.new)) result
            (two_digits_at low high field self.old) }
        ensures range { IfOk result (λ number. (low ≤ number) × (number ≤ high)) }
        ensures stays { OnErr result (self.new ≡ self.old) }
    {
        let (digits, rest) = self.rest.split_first_chunk::<2>().ok_or(field)?;
        let number = decimal_value(digits).ok_or(field)? as u8;
        if number < low || high < number {
            return Err(field);
        }
        self.rest = rest;
        Ok(number)
    }

    /// Reads the three letters of a BBB group (this project's profile). The refusal is `Bbb`.
    pub fn group(&mut self) -> Result<[u8; 3], MessageField>
        ensures exact { Reads (λ group. (group, self.new)) result (letters_at self.old) }
        ensures group { IfOk result (λ group. IsTrue (letters.is_bbb group)) }
        ensures stays { OnErr result (self.new ≡ self.old) }
    {
        let (letters, rest) = self.rest.split_first_chunk::<3>().ok_or(MessageField::Bbb)?;
        if !is_bbb(*letters) {
            return Err(MessageField::Bbb);
        }
        self.rest = rest;
        Ok(*letters)
    }
}
