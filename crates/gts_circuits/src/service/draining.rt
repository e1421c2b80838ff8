//! What waits once the threads have ended: it is taken through the engine itself, and written.
ghost use Rattle.std.specs.Prelude.{◌≡◌, ◌<◌, ◌≤◌, length};
ghost use Rattle.gts_circuits.specs.Cited.{AreDrained, Drains, HasLineCause, HasSendCause, MOST_CIRCUITS, WritesAll, WritesOnce};

use crate::service::ended::Outgoing;
use crate::{Began, Housed};
use gts_frame::FrameBuf;
use gts_lock::Pass;
use gts_sender::{SendEnd, write_given};
use gts_traits::{Sink, Station};
use std::sync::Wait;

/// Takes once on circuit `c`, and writes the frame that was given. False where nothing was.
fn take_one<P: Station, B: Began, K: Sink>(
    housed: &mut Housed<P, B>,
    c: u32,
    sink: &mut K,
    out: &mut FrameBuf,
) -> Result<bool, SendEnd>
    requires { c < length housed.old.engine.directory.circuits }
    ensures directory { housed.new.engine.directory ≡ housed.old.engine.directory }
    ensures taken { WritesOnce P.Station K.Sink B.beginning c result
        housed.old.engine housed.new.engine sink.old sink.new }
    ensures cause { HasSendCause K.Sink result sink.old sink.new }
{
    let outcome = housed.take(c, out)?;
    write_given(outcome, sink, out)
}

/// Takes on circuit `c` until nothing is given, and writes the frames.
fn take_all<R: Wait, P: Station, B: Began, K: Sink>(
    rt: &R,
    housed: &mut Housed<P, B>,
    c: u32,
    sink: &mut K,
    out: &mut FrameBuf,
) -> SendEnd
    requires { c < length housed.old.engine.directory.circuits }
    ensures directory { housed.new.engine.directory ≡ housed.old.engine.directory }
    ensures taken { WritesAll P.Station K.Sink B.beginning c result
        housed.old.engine housed.new.engine sink.old sink.new }
    ensures cause { HasLineCause K.Sink result sink.old sink.new }
{
    for _ in rt.forever() {
        match take_one(housed, c, sink, out) {
            Ok(true) => {}
            Ok(false) => return SendEnd::Quiet,
            Err(end) => return end,
        }
    }
    unreachable!()
}

/// Sends what waits on circuit `c`, where its sender ended with nothing to send. A fault becomes that sender's end. Where it
/// ended otherwise, nothing more is taken or written.
fn drain<R: Wait, P: Station, B: Began, K: Sink>(
    rt: &R,
    housed: &mut Housed<P, B>,
    c: u32,
    line: &mut Outgoing<K>,
)
    requires { c < length housed.old.engine.directory.circuits }
    ensures directory { housed.new.engine.directory ≡ housed.old.engine.directory }
    ensures drained { Drains P.Station B.beginning K.Sink c line.old line.new
        housed.old.engine housed.new.engine }
{
    let SendEnd::Quiet = line.end else {
        return;
    };
    line.end = take_all(rt, housed, c, &mut line.sink, &mut line.frame);
}

/// Sends what waits on each circuit whose sender ended with nothing to send, behind the history that the pass has seen.
pub(crate) fn drain_all<R: Wait, P: Station, B: Began, K: Sink>(
    rt: &R,
    housed: &mut Housed<P, B>,
    pass: &Pass<Housed<P, B>>,
    lines: &mut Vec<Outgoing<K>>,
)
    requires few { length lines.old.items ≤ MOST_CIRCUITS }
    requires circuits { length lines.old.items ≤ length B.beginning.origin.directory.circuits }
    requires stands { AreDrained P.Station B.beginning K.Sink pass.now.seen lines.old.items 0
        housed.old.engine }
    ensures drained { AreDrained P.Station B.beginning K.Sink pass.now.seen lines.new.items
        (length lines.old.items) housed.new.engine }
    ensures count { length lines.new.items ≡ length lines.old.items }
{
    let _ = pass;
    for c in 0..lines.len() {
        drain(rt, housed, c as u32, &mut lines[c]);
    }
}
