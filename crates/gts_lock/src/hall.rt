ghost use Rattle.std.specs.Prelude.{◌≡◌, ◌≢◌, ℕ, ◌<◌, ◌+◌, ◌≤◌, ◌||◌, List, [], ◌∷◌, ◌++◌, length, true, false, Some, None, IfOk, IfErr, MatchOption};
ghost use Rattle.gts_lock.specs.Cited.{Accounts, AllJoined, Holding, Idle, Known, NamesAreJoined, Spent, StartsWith, Takes, Waiting, after_join, after_seeing, after_split, ended, entries, first_pass, marked, split_off, staged};

use crate::history::{Adds, EntryFact, HasHistory};
use crate::limits::MOST_TURNS;
use crate::pass::Pass;
use crate::queue::Queue;
use crate::rule::InTurn;
use crate::steps::{Compare, Copied, Draw, Look, Part, Raise, RaiseSome};
use crate::turn::Turn;
use crate::view::View;
use atomic_table::{Refused, Seat, Table};
use gts_alphabet::NoMemory;
use std::alloc::{AllocFailed, Global};
use std::marker::Model;
use std::sync::Wait;

/// A lock round a value that keeps a history. Passes take their turns in the order in which they drew their tickets, and
/// each turn adds one entry.
pub struct Hall<T: HasHistory> {
    table: Table<Option<T>, View<T::Entry>, (), InTurn<T>, Global>,
    // Nothing is claimed of it: a turn is taken where the table says so.
    queue: Queue,
}

impl<T: HasHistory> Model for Hall<T> {
    ghost use Rattle.std.specs.Prelude.{◌≡◌};
    ghost use Rattle.atomic_table.specs.Seated.{TableId};

    ghost Value = { TableId };

    ghost view = { λ h. h.table.shared.table_id };

    ghost invariant = { λ h. (h.table.shared.table_id.words ≡ 2) × (h.table.shared.table_id.slots ≡ 1) };
}

impl<T: HasHistory> Hall<T> {
    /// A hall round a value that stands for the empty history, and its first pass, whose name is 0.
    /// Without memory the value comes back.
    pub fn new(alloc: Global, value: T) -> Result<(Hall<T>, Pass<T>), (T, NoMemory)>
        requires { T.stands value [] }
        ensures done { IfOk result (λ r. r.1 ≡ first_pass r.0) }
        ensures no_memory { IfErr result (λ r. r.0 ≡ value) }
    {
        let mut slots = match Vec::with_capacity(alloc, 1) {
            Ok(slots) => slots,
            Err(_) => return Err((value, NoMemory)),
        };
        if let Err(AllocFailed { value }) = slots.push(Some(value)) {
            slots.destroy_empty();
            let Some(value) = value else { unreachable!() };
            return Err((value, NoMemory));
        }
        match Table::new(alloc, &[0, 0], slots, &()) {
            Ok((table, seat)) => {
                let queue = Queue::new();
                Ok((Hall { table, queue }, Pass { seat }))
            }
            Err(Refused { mut slots }) => {
                let Some(value) = slots.pop() else {
                    unreachable!()
                };
                slots.destroy_empty();
                let Some(value) = value else { unreachable!() };
                Err((value, NoMemory))
            }
        }
    }

    /// Draws a ticket and waits for its turn. The turn's value stands for the history as it is then, which begins with
    /// all that the pass had seen. The pass comes back, marked as full, exactly where no ticket was left to be drawn.
    pub fn enter<R: Wait>(&self, rt: &R, pass: Pass<T>) -> Result<Turn<'_, T>, Pass<T>>
        requires hall { pass.hall ≡ Some self.now }
        ensures same { IfOk result (λ t. t.pass ≡ after_seeing pass t.pass.seen) }
        ensures later { IfOk result (λ t. StartsWith t.pass.seen pass.seen) }
        ensures value { IfOk result (λ t. T.stands t.value (entries t.pass.seen)) }
        ensures accounts { IfOk result (λ t. Accounts t.pass t.pass.seen) }
        ensures room { IfOk result (λ t. length t.pass.seen < MOST_TURNS) }
        ensures full { IfErr result (λ p. p ≡ record pass { full = true }) }
    {
        let Pass { mut seat } = pass;
        let Some(ticket) = self.draw(rt, &mut seat) else {
            return Err(Pass { seat });
        };
        self.await_turn(rt, &mut seat, ticket);
        let before = self.table.shared.exchange(&mut seat, 0, None);
        let Some(value) = before else { unreachable!() };
        Ok(Turn {
            hall: self,
            seat,
            value,
        })
    }

    /// Splits a pass off the first one. It has the next name, has seen as much, and has no entry yet.
    pub fn split(&self, pass: Pass<T>) -> (Pass<T>, Pass<T>)
        requires hall { pass.hall ≡ Some self.now }
        requires first { pass.name ≡ 0 }
        ensures old { result.0 ≡ after_split pass }
        ensures new { result.1 ≡ split_off pass }
    {
        let Pass { mut seat } = pass;
        let other = self.table.shared.split_seat::<Part>(&mut seat);
        (Pass { seat }, Pass { seat: other })
    }

    /// Joins a pass into the first one, which has then seen what either had seen, and knows the other's entries.
    pub fn join(&self, first: Pass<T>, other: Pass<T>) -> Pass<T>
        requires hall { (first.hall ≡ Some self.now) × (other.hall ≡ Some self.now) }
        requires first { first.name ≡ 0 }
        ensures pass { result ≡ after_join first other }
        ensures first_seen { StartsWith result.seen first.seen }
        ensures other_seen { StartsWith result.seen other.seen }
    {
        let Pass { mut seat } = first;
        let Pass { seat: other } = other;
        self.table.shared.join_seat::<Part>(&mut seat, other);
        self.table.shared.load::<Compare>(&mut seat, 0);
        Pass { seat }
    }

    /// Gives the value back, once each pass that was split off was joined into the first one. The value stands for the
    /// whole history, which the pass has seen. The pass stays, and has no hall any more.
    pub fn close(self, pass: Pass<T>) -> (T, Pass<T>)
        requires hall { pass.hall ≡ Some self }
        requires first { pass.name ≡ 0 }
        requires joined { AllJoined pass }
        ensures pass { result.1 ≡ record pass { hall = None } }
        ensures value { T.stands result.0 (entries pass.seen) }
        ensures accounts { Accounts pass pass.seen }
        ensures names { NamesAreJoined pass pass.seen }
        ensures full { pass.full ≡ true → length pass.seen ≡ MOST_TURNS }
        ensures few { length pass.seen ≤ MOST_TURNS }
    {
        let Hall { table, queue: _ } = self;
        let Pass { mut seat } = pass;
        let copy = table.shared.split_seat::<Copied>(&mut seat);
        let mut closed = table.close_with(seat);
        let slot = closed.take(0);
        closed.free();
        let Some(value) = slot else { unreachable!() };
        (value, Pass { seat: copy })
    }

    // Draws a ticket. None where none is left.
    fn draw<R: Wait>(&self, rt: &R, seat: &mut Seat<Option<T>, View<T::Entry>>) -> Option<u64>
        requires hall { seat.old.table_id ≡ self.now }
        requires idle { seat.old.me.0.stage ≡ Idle }
        ensures table { seat.new.table_id ≡ seat.old.table_id }
        ensures slot { seat.new.me.1 ≡ seat.old.me.1 }
        ensures ticket { MatchOption result
            (seat.new.me.0 ≡ marked seat.old.me.0)
            (λ t. seat.new.me.0 ≡ staged (Waiting t) seat.old.me.0) }
    {
        let shared = &self.table.shared;
        let mut next = shared.peek(1).min(MOST_TURNS - 1);
        for _ in rt.forever() {
            let found = shared.compare_exchange::<Draw>(seat, 1, next, next + 1);
            if found == next {
                return Some(next);
            }
            if found == MOST_TURNS {
                return None;
            }
            next = found;
        }
        unreachable!()
    }

    // Waits until the ticket is served, and takes the turn.
    fn await_turn<R: Wait>(&self, rt: &R, seat: &mut Seat<Option<T>, View<T::Entry>>, ticket: u64)
        requires hall { seat.old.table_id ≡ self.now }
        requires waits { seat.old.me.0.stage ≡ Waiting ticket }
        ensures table { seat.new.table_id ≡ seat.old.table_id }
        ensures turn { Takes T.stands ticket seat.old.me seat.new.me }
    {
        let bell = self.queue.bell(ticket);
        for _ in rt.forever() {
            let seen = bell.look();
            let serving = self.table.shared.load::<Look<T>>(seat, 0);
            if serving == ticket {
                return;
            }
            bell.wait(rt, seen);
        }
        unreachable!()
    }

    // Puts the value back and serves the next ticket.
    pub(crate) fn end_turn<N: Adds<T::Entry>>(
        &self,
        mut seat: Seat<Option<T>, View<T::Entry>>,
        value: T,
    ) -> Seat<Option<T>, View<T::Entry>>
        requires hall { seat.table_id ≡ self.now }
        requires slot { seat.me.1 ≡ (0, None) ∷ [] }
        requires holds { (t : ℕ) × (seat.me.0.stage ≡ Holding t) }
        requires one { length N.added ≡ 1 }
        requires stands { T.stands value (entries seat.me.0.seen ++ N.added) }
        ensures { (result.table_id ≡ seat.table_id) × (result.me ≡ (ended N.added seat.me.0, [])) }
    {
        let shared = &self.table.shared;
        let before = shared.exchange(&mut seat, 0, Some(value));
        let None = before else { unreachable!() };
        let served = shared.fetch_add::<Raise<N>>(&mut seat, 0, 1);
        self.queue.call_behind(served);
        seat
    }

    // The same, where of the entry no more is told than something that holds of it.
    pub(crate) fn end_turn_some<N: EntryFact<T::Entry>>(
        &self,
        mut seat: Seat<Option<T>, View<T::Entry>>,
        value: T,
    ) -> Seat<Option<T>, View<T::Entry>>
        requires hall { seat.table_id ≡ self.now }
        requires slot { seat.me.1 ≡ (0, None) ∷ [] }
        requires holds { (t : ℕ) × (seat.me.0.stage ≡ Holding t) }
        requires stands { (entry : T.Entry) × N.fact entry
            × T.stands value (entries seat.me.0.seen ++ entry ∷ []) }
        ensures table { result.table_id ≡ seat.table_id }
        ensures me { (entry : T.Entry) × N.fact entry
            × (result.me ≡ (ended (entry ∷ []) seat.me.0, [])) }
    {
        let shared = &self.table.shared;
        let before = shared.exchange(&mut seat, 0, Some(value));
        let None = before else { unreachable!() };
        let served = shared.fetch_add::<RaiseSome<N>>(&mut seat, 0, 1);
        self.queue.call_behind(served);
        seat
    }
}
