ghost use Rattle.std.specs.Prelude.{◌≡◌, ◌≤◌, ◌+◌, ◌++◌, List, length};
ghost use Rattle.gts_gap.specs.Cited.{AllByRecursion, AsksOutput, HasDigits, IsDigits, Tells, ask_frame, ask_heading, dec, on, run_line, run_lines};
ghost use Rattle.gts_gap.specs.Saying.{front_text};

use crate::{Moment, Runs};
use gts_alphabet::{EOL, LONGEST_BODY, SOH, digits_of};
use gts_traits::{Channel, Failed, LONGEST_PIECE, Piece, Station, say};

/// The end of a message.
const END: [u8; 4] = *b"\r\r\n\x03";

/// The bytes of a request's message around its text: the start, the number 000 and its line ends, the heading and its line end,
/// and the end.
const AROUND_TEXT: u32 = 35;

/// Writes a number in its digits.
fn append_number(piece: &mut Piece, number: u32, digits: u8)
    requires digits { IsDigits digits }
    requires room { length piece.old + 5 ≤ LONGEST_PIECE }
    ensures text { piece.new ≡ piece.old ++ dec digits number }
    ensures long { length piece.new ≤ length piece.old + 5 }
{
    if digits == 3 {
        piece.append(&digits_of::<3>(number));
    } else {
        piece.append(&digits_of::<5>(number));
    }
}

/// Writes the line of a run on circuit `c`.
fn line_of(c: u32, first: u32, last: u32, digits: u8) -> Piece
    requires { IsDigits digits }
    ensures { result ≡ run_line c (first, last, digits) }
{
    let mut line = Piece::new();
    line.append(b"gap ");
    line.append(&digits_of::<2>(c));
    line.append(b" ");
    append_number(&mut line, first, digits);
    if first != last {
        line.append(b"-");
        append_number(&mut line, last, digits);
    }
    line.append(b"\n");
    line
}

/// Says a line for each run on circuit `c`.
pub(crate) fn say_runs<P: Station>(c: u32, runs: Runs<'_>, station: &mut P) -> Result<(), Failed>
    requires { AllByRecursion HasDigits runs }
    ensures told { P.observed → Tells result (on 0 (run_lines c runs.entry))
        (P.calls station.old) (P.calls station.new) }
    ensures cause { AsksOutput P.Station result station.old station.new }
{
    let mut runs = runs;
    while let Some((first, last, digits)) = runs.next() {
        let line = line_of(c, first, last, digits);
        say(station, Channel::OPERATOR, line.bytes())?;
    }
    Ok(())
}

/// What stands in front of the text of a request with so many bytes.
fn front_of(peer: [u8; 4], moment: Moment, size: u32) -> Piece
    ensures { result ≡ front_text peer moment size }
{
    let mut front = Piece::new();
    front.append(&digits_of::<8>(size));
    front.append(b"AN");
    front.append(&[SOH]);
    front.append(&EOL);
    front.append(b"000");
    front.append(&EOL);
    front.append(b"BMRR01 ");
    front.append(&peer);
    front.append(b" ");
    front.append(&digits_of::<2>(moment.day));
    front.append(&digits_of::<2>(moment.hour));
    front.append(&digits_of::<2>(moment.minute));
    front.append(&EOL);
    front
}

/// Says the frame of a request on a channel: its message has the number 000, and goes to this peer.
pub(crate) fn say_request<P: Station>(
    channel: Channel,
    peer: [u8; 4],
    moment: Moment,
    text: &[u8],
    station: &mut P,
) -> Result<(), Failed>
    requires { length text.now ≤ LONGEST_BODY }
    ensures told { P.observed → Tells result (on channel (ask_frame
        (ask_heading peer moment.day moment.hour moment.minute) text.now))
        (P.calls station.old) (P.calls station.new) }
    ensures cause { AsksOutput P.Station result station.old station.new }
{
    let front = front_of(peer, moment, AROUND_TEXT + text.len() as u32);
    say(station, channel, front.bytes())?;
    say(station, channel, text)?;
    say(station, channel, &END)
}
