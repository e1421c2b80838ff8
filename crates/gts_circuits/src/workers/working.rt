ghost use Rattle.std.specs.Prelude.{◌≡◌, ◌<◌, ℕ, length, slice_index_or};
ghost use Rattle.gts_circuits.specs.Cited.{AcceptsAt, AcceptsEach, AtAny, ChangesAt, DoneAtEach, Work, ends};
ghost use denote.Param.Send.{IsSend, IsSync};

use crate::Began;
use crate::workers::tools::Tools;
use crate::workers::worker::Worker;
use gts_traits::{Gate, Line, Sink, Station};
use std::sync::Wait;
use std::thread;
use std::thread::Threads;

/// Lets each worker come to its end, each in a thread of its own where one can be made. The receivers are to be the first half.
/// Where no thread can be made for the second half, it begins when the first has come to its end: a receiver waits for no sender,
/// but a sender waits until each receiver has its end.
pub fn work_all<R, P, B, S, K, G>(tools: &Tools<'_, R, G>, workers: &mut [Worker<'_, P, B, S, K>])
where
    R: Threads + Wait + Sync,
    P: Station + Send,
    B: Began + Send,
    S: Line + Send,
    K: Sink + Send,
    G: Gate,
    ensures { (i : ℕ) (d : Work S K) → i < length workers.old
        → slice_index_or workers.new i d ≡ ends (slice_index_or workers.old i d) }
{
    in_halves(
        tools.rt,
        &|_, worker: &mut Worker<'_, P, B, S, K>| worker.work(tools),
        workers,
    );
}

/// Calls `f` at each place of the list, whose first half are receivers and whose second half senders.
fn in_halves<R: Threads + Sync, T: Send, F: Fn(usize, &mut T) + Sync>(rt: &R, f: &F, list: &mut [T])
    requires { (i : ℕ) (x : T) → AcceptsAt F.Fn f.now i x }
    ensures { DoneAtEach (AtAny (ChangesAt F.Fn f.now)) list.old list.new }
{
    let middle = list.len() / 2;
    let (receivers, senders) = list.split_at_mut(middle);
    at_halves(rt, f, receivers, senders);
}

/// Calls `f` at each place of both lists. Where no thread can be made, the senders' turn comes when the receivers' calls are
/// done.
fn at_halves<R: Threads + Sync, T: Send, F: Fn(usize, &mut T) + Sync>(
    rt: &R,
    f: &F,
    receivers: &mut [T],
    senders: &mut [T],
)
    requires receivers { AcceptsEach F.Fn f.now receivers.old }
    requires senders { AcceptsEach F.Fn f.now senders.old }
    ensures receivers { DoneAtEach (ChangesAt F.Fn f.now) receivers.old receivers.new }
    ensures senders { DoneAtEach (ChangesAt F.Fn f.now) senders.old senders.new }
{
    let mut last = ||
        requires { IsSync R.row × IsSync F.row × IsSend T.row
            × AcceptsEach F.Fn f.now senders.now }
        ensures { DoneAtEach (ChangesAt F.Fn f.entry.now) senders.entry.now senders.exit.now }
    { at_each(rt, f, senders) };
    let mut first = ||
        requires { IsSync R.row × IsSync F.row × IsSend T.row
            × AcceptsEach F.Fn f.now receivers.now }
        ensures { DoneAtEach (ChangesAt F.Fn f.entry.now) receivers.entry.now receivers.exit.now }
    { at_each(rt, f, receivers) };
    // Where no thread can be made, `join_mut` calls its first closure after its second.
    thread::join_mut(rt, &mut last, &mut first);
}

/// Calls `f` at each place, each call in a thread of its own where one can be made, otherwise one after another.
fn at_each<R: Threads + Sync, T: Send, F: Fn(usize, &mut T) + Sync>(rt: &R, f: &F, list: &mut [T])
    requires { AcceptsEach F.Fn f.now list.old }
    ensures { DoneAtEach (ChangesAt F.Fn f.now) list.old list.new }
{
    let threads = list.len().max(1);
    thread::for_each_mut(rt, list, threads, f);
}
