use crate::history::HasHistory;
use crate::view::View;
use atomic_table::Seat;
use std::marker::Model;

/// The right to enter a hall, and what its owner has seen of the history. All passes of one hall see beginnings of one
/// history. It has no bytes.
#[derive(Drop)]
pub struct Pass<T: HasHistory> {
    pub(crate) seat: Seat<Option<T>, View<T::Entry>>,
}

impl<T: HasHistory> Model for Pass<T> {
    ghost use Rattle.std.specs.Prelude.{◌≡◌, []};
    ghost use Rattle.gts_lock.specs.Passes.{Known};

    ghost Value = { Known T.Entry };

    ghost use Rattle.gts_lock.specs.Views.{known, IsResting};

    ghost view = { λ p. known p.seat.table_id p.seat.me.0 };

    ghost invariant = { λ p. (p.seat.me.1 ≡ []) × IsResting p.seat.me.0 };
}
