//! What the rule of a hall says of two passes at once.
ghost use Rattle.std.specs.Prelude.{Option};
ghost use Rattle.gts_lock.specs.Cited.{InTurn, JoinedNamesDiffer, NamesDiffer, OneHolds, State, TicketsDiffer, View};

use crate::history::HasHistory;

/// No two passes have one ticket, one holds at most, and all names differ, those of joined passes included.
pub fn no_two_passes_are_confused<T: HasHistory>()
    ensures tickets { (s : State (Option T) (View T.Entry)) → InTurn T.stands s →
        TicketsDiffer s.views }
    ensures holds { (s : State (Option T) (View T.Entry)) → InTurn T.stands s → OneHolds s.views }
    ensures names { (s : State (Option T) (View T.Entry)) → InTurn T.stands s →
        NamesDiffer s.views }
    ensures joined { (s : State (Option T) (View T.Entry)) → (r : InTurn T.stands s) →
        JoinedNamesDiffer s.views r.common.joined }
{}
