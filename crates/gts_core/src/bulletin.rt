ghost use Rattle.std.specs.Prelude.{◌≡◌, ◌≤◌, Ok, count_ones};
ghost use Rattle.gts_core.specs.Cited.{IsDigestOf, Reads, digest_of, fields_of, message_weighed, parts_of, split_at};

use gts_directory::CircuitSet;
use gts_frame::Kind;
use gts_heading::MessageField;
use gts_message::{Message, SplitMessage};
use std::marker::Model;

/// What is weighed.
#[derive(Clone, Copy)]
pub enum Weighed<'m> {
    /// A message, as it came in.
    Message(&'m [u8]),
    /// The body of a message, as a journal has it: weighed like a message that has it behind the sequence number 000.
    Body(&'m [u8]),
}

impl<'m> Weighed<'m> {
    /// Its parts, or the first field at fault.
    pub(crate) fn split(self) -> Result<SplitMessage<'m>, MessageField>
        ensures { Reads parts_of result (split_at (message_weighed self.entry)) }
    {
        match self {
            Weighed::Message(message) => Message::split(message),
            Weighed::Body(body) => Message::split_around(body),
        }
    }
}

/// A message that is a new bulletin, with what was found of it: its parts, the digest of its heading and its text, and the
/// circuits that it is for. Its type keeps that the parts and the digest are those of its message.
#[derive(Drop)]
pub struct Bulletin<'m> {
    weighed: Weighed<'m>,
    parts: SplitMessage<'m>,
    digest: [u8; 32],
    named: CircuitSet,
}

impl<'m> Model for Bulletin<'m> {
    ghost use Rattle.gts_core.specs.Bulletins as bulletins;

    ghost Value = { bulletins.NewBulletin };

    ghost view = { bulletins.bulletin_of };

    ghost invariant = { bulletins.IsSplit };
}

impl<'m> Bulletin<'m> {
    /// What was weighed, as a new bulletin for these circuits.
    pub(crate) fn new(
        weighed: Weighed<'m>,
        parts: SplitMessage<'m>,
        digest: [u8; 32],
        named: CircuitSet,
    ) -> Bulletin<'m>
        requires read { split_at (message_weighed weighed) ≡ Ok (parts_of parts) }
        requires digest { digest ≡ digest_of (fields_of parts.heading) parts.text.now }
        ensures message { result.message ≡ message_weighed weighed.entry }
        ensures mask { result.mask ≡ named }
    {
        Bulletin {
            weighed,
            parts,
            digest,
            named,
        }
    }

    /// The parts of its message.
    pub fn parts(&self) -> SplitMessage<'m>
        ensures { split_at self.now.message ≡ Ok (parts_of result) }
    {
        self.parts
    }

    /// The digest of its heading and its text.
    pub fn digest(&self) -> [u8; 32]
        ensures { IsDigestOf self.now.message result }
    {
        self.digest
    }

    /// The circuits that it is for.
    pub fn named(&self) -> CircuitSet
        ensures { result ≡ self.now.mask }
    {
        self.named
    }

    /// For how many circuits it is.
    pub fn circuits(&self) -> u32
        ensures count { result ≡ count_ones self.now.mask }
        ensures few { result ≤ 64 }
    {
        self.named.count()
    }
}

/// A new bulletin as it was received: on which circuit, and in a frame of which type.
#[derive(Clone, Copy)]
pub(crate) struct Received<'a, 'm> {
    pub(crate) c: u32,
    pub(crate) kind: Kind,
    pub(crate) bulletin: &'a Bulletin<'m>,
}
