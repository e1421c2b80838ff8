ghost use Rattle.std.specs.Prelude.{◌≡◌, true, None, IsTrue, ◌+◌, ◌<◌, ◌≤◌, ◌^◌, ℕ, List, Ok, OnOk, OnErr, IfOk, IfSome, Some, take, drop, length, Option as OptionOf};
ghost use Rattle.gts_count.specs.Cited.{Accepted, AfterAccepted, AfterHeard, AfterTaken, CanNote, Counts, Directory, Entry, Heard, IsAccepted, IsDrawn, IsReady, IsSound, KeepsRest, Kind, Prepares, State, WasRead, fields_of, heard_of, is_request, outcome};

use crate::rows::has_row;
use crate::{Arrival, Numbers, arrived};
use gts_alphabet::NoMemory;
use gts_event::{Outcome, SwitchFault};
use gts_heading::Heading;
use gts_message::Message;

/// What is kept beside a switch: the own centre, how many digits the numbers of each circuit have, the running numbers, and
/// whether these are current. They aren't any more once a device failed: saying doesn't tell what an event led to then, and of
/// what was counted the disk may have lost the last.
#[derive(Drop)]
pub struct Counting {
    pub centre: [u8; 4],
    pub digits: Vec<u32>,
    pub numbers: Numbers,
    pub current: bool,
}

/// The eleven bytes from a place on. All zeros where there aren't so many.
pub fn key_in(bytes: &[u8], from: usize) -> [u8; 11]
    requires { from < 2 ^ 40 }
    ensures { from + 11 ≤ length bytes.now → result ≡ take 11 (drop from bytes.now) }
{
    let mut key = [0; 11];
    if from + 11 <= bytes.len() {
        key.copy_from_slice(&bytes[from..from + 11]);
    }
    key
}

/// Whether a heading is that of a request for repetition to this centre.
fn is_request(centre: &[u8; 4], heading: &Heading) -> bool
    ensures { (d : Directory) → centre.now ≡ d.centre
        → result ≡ is_request d (fields_of heading.now) }
{
    heading.tt == *b"BM" && heading.aa == *b"RR" && heading.cccc == *centre
}

/// What is noted of a message that can be read and is no request. `None` where it is none such, and so isn't accepted.
fn heard_in(centre: &[u8; 4], c: u32, message: &[u8]) -> Option<Arrival>
    ensures some { IfSome result (λ arrival. arrival ≡ heard_of c message.now) }
    ensures read { IfSome result (λ arrival. (d : Directory) → centre.now ≡ d.centre
        → WasRead d message.now) }
    ensures none { (d : Directory) (s : State) (kind : Kind) (p n : ℕ) → result ≡ None
        → centre.now ≡ d.centre → outcome d s (Heard c kind message.now)
        ≡ Accepted p n → ⊥ }
{
    let Ok(parts) = Message::split(message) else {
        return None;
    };
    if is_request(centre, &parts.heading) {
        return None;
    }
    Some(Arrival {
        key: key_in(parts.body, 0),
        from: c,
        bytes: parts.body.len() as u32,
    })
}

/// What is to be noted of a message where it is accepted, with a row for its key. `None` where it won't be, or the numbers
/// aren't current. Want of memory comes only for a bulletin that would be accepted, and nothing that is counted changes.
pub fn ready(counting: &mut Counting, c: u32, message: &[u8]) -> Result<Option<Arrival>, NoMemory>
    requires { IsSound counting.old.numbers }
    ensures prepares { Prepares counting.old.numbers counting.new.numbers }
    ensures rest { KeepsRest counting.old counting.new }
    ensures note { IfOk result (CanNote counting.new) }
    ensures ready { IfOk result (λ ready. (d : Directory) (s : State) (h : List Entry)
        → counting.old.current ≡ true → c < length d.circuits → Counts d s h counting.old
        → IsReady c message.now ready d s) }
    ensures left { OnErr result ((d : Directory) (s : State) (h : List Entry) (kind : Kind)
        → Counts d s h counting.old
        → IsAccepted (outcome d s (Heard c kind message.now))) }
{
    if !counting.current || c as usize >= counting.numbers.came.len() {
        return Ok(None);
    }
    let Some(arrival) = heard_in(&counting.centre, c, message) else {
        return Ok(None);
    };
    counting.numbers.prepare(arrival.key)?;
    Ok(Some(arrival))
}

/// Notes a bulletin that was accepted at a position. Takes no memory.
fn accept(counting: &mut Counting, ready: Option<Arrival>, position: u64)
    requires sound { IsSound counting.old.numbers }
    requires note { CanNote counting.old ready }
    ensures sound { IsSound counting.new.numbers }
    ensures noted { AfterAccepted ready position counting.old counting.new }
{
    if let Some(arrival) = ready {
        counting.numbers.note_accepted(arrived(arrival, position));
    }
}

/// Notes what a message led to. Takes no memory.
pub fn note_heard(
    counting: &mut Counting,
    ready: Option<Arrival>,
    answer: Result<Outcome, SwitchFault>,
)
    requires sound { IsSound counting.old.numbers }
    requires note { CanNote counting.old ready }
    ensures sound { IsSound counting.new.numbers }
    ensures noted { AfterHeard ready answer counting.old counting.new }
{
    match answer {
        Ok(Outcome::Accepted { position, .. }) => accept(counting, ready, position),
        Err(SwitchFault::DiskFault | SwitchFault::SayFault) => counting.current = false,
        _ => {}
    }
}

/// Notes a draw on a circuit whose frame this is. Takes no memory.
fn draw(counting: &mut Counting, c: u32, frame: &[u8])
    requires { IsSound counting.old.numbers }
    ensures { IsDrawn c frame.now counting.old counting.new }
{
    let Some(digits) = counting.digits.get(c as usize) else {
        return;
    };
    let key = key_in(frame, 17 + *digits as usize);
    let there = (c as usize) < counting.numbers.drawn.len();
    if there && has_row(&counting.numbers.rows, &key) {
        counting.numbers.note_drawn(c, key);
    }
}

/// Notes what a take on a circuit led to, with the frame that it left. Takes no memory.
pub fn note_taken(
    counting: &mut Counting,
    c: u32,
    frame: &[u8],
    answer: Result<Outcome, SwitchFault>,
)
    requires { IsSound counting.old.numbers }
    ensures sound { IsSound counting.new.numbers }
    ensures noted { AfterTaken c frame.now answer counting.old counting.new }
{
    match answer {
        Ok(Outcome::Draw { .. }) => draw(counting, c, frame),
        Err(SwitchFault::DiskFault | SwitchFault::SayFault) => counting.current = false,
        _ => {}
    }
}
