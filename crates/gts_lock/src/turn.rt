ghost use Rattle.std.specs.Prelude.{◌≡◌, [], ◌∷◌, ◌++◌};
ghost use Rattle.std.specs.Borrow.{sem};
ghost use Rattle.gts_lock.specs.History.{entries, entries_under};
ghost use Rattle.gts_lock.specs.Passes.{after_adding};
ghost use Rattle.gts_lock.specs.Lending.{lends_value};

use crate::hall::Hall;
use crate::history::{EntryFact, HasHistory};
use crate::pass::Pass;
use crate::view::View;
use atomic_table::Seat;
use std::marker::{Brand, Model};

/// The turn of a pass: until it leaves, no other pass has the value.
pub struct Turn<'a, T: HasHistory> {
    pub(crate) hall: &'a Hall<T>,
    pub(crate) seat: Seat<Option<T>, View<T::Entry>>,
    pub(crate) value: T,
}

impl<'a, T: HasHistory> Model for Turn<'a, T> {
    ghost use Rattle.std.specs.Prelude.{◌≡◌, [], ◌∷◌, None};
    ghost use Rattle.gts_lock.specs.Passes.{Held};

    ghost Value = { Held T T.Entry };

    ghost use Rattle.gts_lock.specs.Views.{known, IsHolding};

    ghost view = { λ t. record { pass = known t.seat.table_id t.seat.me.0; value = t.value } };

    ghost invariant = { λ t. (t.hall.now ≡ t.seat.table_id) × (t.seat.me.1 ≡ (0, None) ∷ []) × IsHolding t.seat.me.0 };
}

impl<'a, T: HasHistory> Turn<'a, T> {
    /// Lends the value. What is written through it is the turn's value.
    pub fn value(&mut self) -> &mut T
        ensures* writes_back { sem 𝓛
            (lends_value T.row T.Entry.row T.HasHistory self.entry result) }
        ensures value { result.now ≡ self.old.value }
    {
        &mut self.value
    }

    /// Puts the value back and serves the next ticket. The turn adds one entry to the history, under its pass's name;
    /// the value stands for the history with that entry.
    pub fn leave(self) -> Pass<T>
        ghost entry: { T.Entry }
        requires { T.stands self.value (entries self.pass.seen ++ entry ∷ []) }
        ensures pass { result ≡ after_adding self.entry.pass entry }
        ensures own { result.own ≡ entries_under result.name result.seen }
    {
        let Turn { hall, seat, value } = self;
        let seat = hall.end_turn::<Brand>(seat, value);
        Pass { seat }
    }

    /// The same, where the entry is not known, but that something holds of it: there is one, and the value stands for the history
    /// with that.
    pub fn leave_some<N: EntryFact<T::Entry>>(self) -> Pass<T>
        requires { (entry : T.Entry) × N.fact entry
            × T.stands self.value (entries self.pass.seen ++ entry ∷ []) }
        ensures pass { (entry : T.Entry) × N.fact entry
            × (result ≡ after_adding self.entry.pass entry) }
        ensures own { result.own ≡ entries_under result.name result.seen }
    {
        let Turn { hall, seat, value } = self;
        let seat = hall.end_turn_some::<N>(seat, value);
        Pass { seat }
    }
}
