//! Closing the hall behind all workers.
ghost use Rattle.std.specs.Prelude.{◌≡◌, ◌*◌, ◌≤◌, [], Some, List, true, length};
ghost use Rattle.gts_circuits.specs.Cited.{AllJoined, HaveEnded, LinesStand, MOST_TURNS, NamesAreUpTo, Sockets as SocketsOf, Stands, entries, flat};

use crate::workers::line::Line;
use crate::{Began, Housed};
use gts_lock::{Hall, Pass};
use gts_traits::{Line as Connections, Sink, Station};

/// What the workers of all circuits leave: the engine, the pass that has seen the history of all threads, and the lines of the
/// workers, those of the receivers first.
pub struct Ran<P: Station, B: Began, S, K> {
    pub housed: Housed<P, B>,
    pub pass: Pass<Housed<P, B>>,
    pub lines: Vec<Line<S, K>>,
}

/// Closes the hall in which all workers have come to their ends.
pub fn close<P, B, S, K>(
    hall: Hall<Housed<P, B>>,
    first: Pass<Housed<P, B>>,
    lines: Vec<Line<S, K>>,
) -> Ran<P, B, S, K>
where
    P: Station,
    B: Began,
    S: Connections,
    K: Sink,
    requires hall { first.hall ≡ Some hall }
    requires first { (first.name ≡ 0) × (first.own ≡ []) }
    requires joined { AllJoined first }

    // There is one history of all threads, which the engine stands for, and each line for its part of it.
    ensures engine { Stands P.Station B.beginning
        (entries (flat result.pass.seen)) result.housed.engine }
    ensures kept { result.lines ≡ lines }
    ensures lines { (sockets : List (SocketsOf S K)) → HaveEnded B.beginning S.Source K.Sink
        hall sockets first lines.items → LinesStand B.beginning S.Source K.Sink
        hall sockets result.pass.seen result.lines.items }
    ensures names { (sockets : List (SocketsOf S K)) → HaveEnded B.beginning S.Source K.Sink
        hall sockets first lines.items → NamesAreUpTo (2 * length sockets) result.pass.seen }
    ensures full { result.pass.full ≡ true → length result.pass.seen ≡ MOST_TURNS }
    ensures few { length result.pass.seen ≤ MOST_TURNS }
{
    let (housed, pass) = hall.close(first);
    Ran {
        housed,
        pass,
        lines,
    }
}
