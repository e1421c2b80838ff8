//! What a crash of the machine leaves at a call, and what a run does with it.

use super::migrations::opens;
use super::*;
use gts_traits::{Channel, JournalFile};

/// The call in which the gate of the first bulletin is opened.
const GATE: u64 = FIRST + 6;

/// What stands at the gate of a bulletin after a crash, and the receipt when it comes once more: only where the gate is open,
/// it was accepted.
const GATES: [(Touched, &[u8]); 6] = [
    (Touched::Old, ACCEPTED),
    (Touched::Fill(0), ACCEPTED),
    (Touched::Fill(0x43), ACCEPTED),
    (Touched::Fill(0xff), ACCEPTED),
    (Touched::New, b"DUP 0 0\n"),
    (Touched::Fill(0x4f), b"DUP 0 0\n"),
];

#[test]
fn a_bulletin_was_accepted_where_its_gate_is_open(rt: HostRuntime) -> Result<(), Fail> {
    let Left { station, .. } = replayed(&rt, DRAWN, &[])?;
    for (choice, receipts) in GATES {
        let left = crashed(&station, GATE, choice)?;
        let Left { status, station } = run_word(&rt, "replay", DRAWN, left)?;
        assert!(rt; status == Status::Done);
        assert!(rt; station.said(Channel::OPERATOR) == receipts);
        assert!(rt; station.said(Channel::of_circuit(1)) == FRAME);
    }
    Ok(())
}

/// Two bulletins come, the switch is opened again, and two are drawn. The journal is compacted behind the first bulletin and
/// behind the first draw.
const BOTH: &[u8] = b"F 00 000049\n\
    00000039AN\x01\r\r\n001\r\r\nSMVG01 TVSV 280000\r\r\nNIL=\r\r\n\x03C\nF 00 000049\n\
    00000039AN\x01\r\r\n002\r\r\nSMVG01 TVSV 280000\r\r\nNIM=\r\r\n\x03R\nT 01\nC\nT 01\nE\n";

/// They come once more, the other way round, and all that is left is drawn.
const REST: &[u8] = b"F 00 000049\n\
    00000039AN\x01\r\r\n002\r\r\nSMVG01 TVSV 280000\r\r\nNIM=\r\r\n\x03F 00 000049\n\
    00000039AN\x01\r\r\n001\r\r\nSMVG01 TVSV 280000\r\r\nNIL=\r\r\n\x03D 01\nE\n";

/// Whether some frame has this text.
fn has_text(frames: &[u8], text: &[u8]) -> bool {
    frames
        .chunks(SIZE)
        .any(|frame| frame.get(41..45) == Some(text))
}

/// Whether frames of one number have one text, and frames of one text one number.
fn each_number_has_its_text(frames: &[u8]) -> bool {
    frames.chunks(SIZE).all(|first| {
        frames.chunks(SIZE).all(|second| {
            (first.get(14..17) == second.get(14..17)) == (first.get(41..45) == second.get(41..45))
        })
    })
}

/// Whether both texts were sent, each under its number.
fn are_both_sent(frames: &[u8]) -> bool {
    has_text(frames, b"NIL=") && has_text(frames, b"NIM=") && each_number_has_its_text(frames)
}

/// The rest of a capture comes to a station that a crash left: all is sent.
fn are_sent_by<R: AllocGlobal + Threads + Wait + Sync + Abort>(
    rt: &R,
    call: u64,
    left: MemStation,
) -> Result<(), Fail> {
    let Left { status, station } = run_word(rt, "replay", REST, left)?;
    assert!(rt; status == Status::Done, "call {call}");
    assert!(rt;
        are_both_sent(station.said(Channel::of_circuit(1))),
        "call {call}"
    );
    Ok(())
}

/// Whether two stations have the same files.
fn have_same_files(left: &MemStation, plain: &MemStation) -> bool {
    left.file(JournalFile::FIRST) == plain.file(JournalFile::FIRST)
        && left.file(JournalFile::SECOND) == plain.file(JournalFile::SECOND)
        && left.file(JournalFile::SELECTOR) == plain.file(JournalFile::SELECTOR)
}

/// What a crash may leave in each place that was touched.
const CHOICES: [Touched; 5] = [
    Touched::Old,
    Touched::New,
    Touched::Fill(0),
    Touched::Fill(0x4f),
    Touched::Fill(0xff),
];

/// What is to hold of a station that a stop left.
#[derive(Clone, Copy)]
pub enum Then {
    /// The rest of a capture comes, and all is sent.
    AllIsSent,
    /// The next run goes on, and each bulletin is accepted and drawn once.
    TheNextRunGoesOn,
    /// The journal opens under one of two directories.
    OneOfTwoOpens,
}

/// It holds of this station, which a stop in this call left.
fn holds<R: AllocGlobal + Threads + Wait + Sync + Abort>(
    rt: &R,
    then: Then,
    call: u64,
    left: MemStation,
) -> Result<(), Fail> {
    match then {
        Then::AllIsSent => are_sent_by(rt, call, left),
        Then::TheNextRunGoesOn => goes_on(rt, call, left),
        Then::OneOfTwoOpens => opens(rt, call, left),
    }
}

/// It holds after a stop in this call, whatever that leaves. Where no place of the journal was touched, each choice leaves the
/// same.
pub fn holds_after<R: AllocGlobal + Threads + Wait + Sync + Abort>(
    rt: &R,
    then: Then,
    station: &MemStation,
    call: u64,
) -> Result<(), Fail> {
    let plain = crashed(station, call, Touched::Old)?;
    for choice in CHOICES {
        let left = crashed(station, call, choice)?;
        if choice == Touched::Old || !have_same_files(&left, &plain) {
            holds(rt, then, call, left)?;
        }
    }
    Ok(())
}

#[test]
fn each_number_has_its_bytes_whenever_the_machine_stops(rt: HostRuntime) -> Result<(), Fail> {
    let Left { station, .. } = replayed(&rt, BOTH, &[])?;
    for call in FIRST..station.calls() {
        holds_after(&rt, Then::AllIsSent, &station, call)?;
    }
    Ok(())
}

#[test]
fn the_next_run_goes_on_whenever_the_machine_stops(rt: HostRuntime) -> Result<(), Fail> {
    let Left { station, .. } = replayed(&rt, COMPACTED, &[])?;
    for call in FIRST..station.calls() {
        holds_after(&rt, Then::TheNextRunGoesOn, &station, call)?;
    }
    Ok(())
}
