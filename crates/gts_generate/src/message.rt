ghost use Rattle.std.specs.Prelude.{◌≡◌, ◌+◌, ◌<◌, ◌≤◌, ◌++◌, length};
ghost use Rattle.gts_generate.specs.Cited.{heading_text, message_end};
ghost use Rattle.gts_frame.specs.Frame as frames;
ghost use Rattle.gts_generate.specs.Day as day;

use crate::{CIRCUITS, MOST_MESSAGES};
use gts_alphabet::{EOL, ETX, FRAME_HEAD, SOH, digits_of};
use gts_frame::Kind;
use gts_traits::{LONGEST_PIECE, Piece};

/// The bytes of a heading without a group.
const HEADING: usize = 18;

/// The most bytes of a body of the day.
const LONGEST_DAY_BODY: usize = 40;

/// The most bytes of a message of the day.
const LONGEST_DAY_MESSAGE: usize = 50;

/// Writes the heading of message `i`.
fn add_heading(piece: &mut Piece, i: u32, tt: [u8; 2], aa: [u8; 2], ii: u32)
    requires { length piece.old + HEADING ≤ LONGEST_PIECE }
    ensures text { piece.new ≡ piece.old ++ heading_text (day.heading_at i tt aa ii) }
    ensures long { length piece.new ≡ length piece.old + HEADING }
{
    piece.append(&tt);
    piece.append(&aa);
    piece.append(&digits_of::<2>(ii));
    piece.append(b" TVSV ");
    piece.append(&digits_of::<2>(1 + i / 1440 % 28));
    piece.append(&digits_of::<2>(i / 60 % 24));
    piece.append(&digits_of::<2>(i % 60));
}

/// Writes the end of a message: line end and ETX.
fn add_end(piece: &mut Piece)
    requires { length piece.old + 4 ≤ LONGEST_PIECE }
    ensures { piece.new ≡ piece.old ++ message_end }
{
    piece.append(&EOL);
    piece.append(&[ETX]);
}

/// Writes the body of report `i`.
fn add_report(piece: &mut Piece, i: u32)
    requires { length piece.old + LONGEST_DAY_BODY ≤ LONGEST_PIECE }
    ensures text { piece.new ≡ piece.old ++ day.report i }
    ensures short { length piece.new ≤ length piece.old + LONGEST_DAY_BODY }
{
    let letter = b'A' + (i % 26) as u8;
    add_heading(piece, i, [b'S', letter], *b"VG", i % 60);
    piece.append(&EOL);
    piece.append(b"REPORT ");
    piece.append(&digits_of::<6>(i));
    piece.append(b"=");
    add_end(piece);
}

/// Writes the body of the request that is message `i`.
fn add_request(piece: &mut Piece, i: u32)
    requires { length piece.old + LONGEST_DAY_BODY ≤ LONGEST_PIECE }
    ensures text { piece.new ≡ piece.old ++ day.request i }
    ensures short { length piece.new ≤ length piece.old + LONGEST_DAY_BODY }
{
    add_heading(piece, i, *b"BM", *b"RR", 1);
    piece.append(&EOL);
    piece.append(b"AAAA");
    piece.append(&EOL);
    piece.append(b"SQN 001=");
    add_end(piece);
}

/// Writes the body of message `i`.
fn add_body(piece: &mut Piece, i: u32)
    requires { length piece.old + LONGEST_DAY_BODY ≤ LONGEST_PIECE }
    ensures text { piece.new ≡ piece.old ++ day.body i }
    ensures short { length piece.new ≤ length piece.old + LONGEST_DAY_BODY }
{
    match i % 100 {
        99 => add_request(piece, i),
        49 => add_report(piece, i - 1),
        _ => add_report(piece, i),
    }
}

/// Message `i`.
fn message(i: u32) -> Piece
    ensures text { result ≡ day.message i }
    ensures short { length result ≤ LONGEST_DAY_MESSAGE }
{
    let mut piece = Piece::new();
    piece.append(&[SOH]);
    piece.append(&EOL);
    piece.append(&digits_of::<3>((i / 8 + 1) % 1000));
    piece.append(&EOL);
    add_body(&mut piece, i);
    piece
}

/// The frame of message `i`.
fn frame(i: u32) -> Piece
    ensures text { result ≡ frames.frame Kind.An (day.message i) }
    ensures short { length result ≤ LONGEST_DAY_MESSAGE + FRAME_HEAD }
{
    let message = message(i);
    let mut piece = Piece::new();
    piece.append(&digits_of::<8>(message.bytes().len() as u32));
    piece.append(b"AN");
    piece.append(message.bytes());
    piece
}

/// What stands in a capture for message `i`: its frame comes on a circuit, and something is taken on another one.
pub(crate) fn turn(i: u32) -> Piece
    requires { i < MOST_MESSAGES }
    ensures text { result ≡ day.turn i }
    ensures some { 0 < length result }
{
    let frame = frame(i);
    let mut piece = Piece::new();
    piece.append(b"F ");
    piece.append(&digits_of::<2>(i % 8));
    piece.append(b" ");
    piece.append(&digits_of::<6>(frame.bytes().len() as u32));
    piece.append(b"\n");
    piece.append(frame.bytes());
    piece.append(b"T ");
    piece.append(&digits_of::<2>(3 * i % 8));
    piece.append(b"\n");
    piece
}

/// What stands in a capture behind all messages: all that waits is taken.
pub(crate) fn ending() -> Piece
    ensures text { result ≡ day.ending }
    ensures some { 0 < length result }
{
    let mut piece = Piece::new();
    for c in 0..CIRCUITS {
        piece.append(b"D ");
        piece.append(&digits_of::<2>(c));
        piece.append(b"\n");
    }
    piece.append(b"E\n");
    piece
}
