//! Handing back the lines of all circuits.
ghost use Rattle.std.specs.Prelude.{◌≡◌, ℕ, ◌<◌, ◌≤◌, true, length};
ghost use Rattle.gts_circuits.specs.Cited.{AreClosed, IsSame, MOST_CIRCUITS, ends_of, first_fault, lines_seen as seen};

use crate::ServeEnd;
use crate::service::ended::{Incoming, Outgoing};
use crate::service::ending::end_with;
use gts_traits::Lines;

/// Hands back the lines of all circuits, and answers with the first fault of them.
pub(crate) fn close_all<L: Lines>(
    lines: &mut L,
    incoming: Vec<Incoming<L::In>>,
    outgoing: Vec<Outgoing<L::Out>>,
) -> ServeEnd
where
    L::In: Drop,
    L::Out: Drop,
    requires few { length outgoing.items ≤ MOST_CIRCUITS }
    requires pairs { length incoming.items ≡ length outgoing.items }
    requires open { (c : ℕ) → c < length outgoing.items → L.is_open lines.old c ≡ true }
    ensures closed { AreClosed L.In.Source L.Out.Sink (seen L.Lines lines.old)
        (seen L.Lines lines.new) incoming.items outgoing.items }
    ensures others { (c : ℕ) → length outgoing.items ≤ c
        → IsSame (seen L.Lines lines.old) (seen L.Lines lines.new) c }
    ensures end { result ≡ first_fault 0 (ends_of incoming.items outgoing.items) }
{
    let mut incoming = incoming;
    let mut outgoing = outgoing;
    let mut end = ServeEnd::Done;
    while let Some(to) = outgoing.pop() {
        let Some(from) = incoming.pop() else {
            unreachable!()
        };
        let c = outgoing.len() as u32;
        end = end_with(c, from.end, to.end, end);
        lines.close(c, from.source, to.sink);
    }
    end
}
