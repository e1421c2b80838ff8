//! The kinds of step at a hall's table, and what each tells the pass that makes it.
use crate::history::{Adds, EntryFact, HasHistory};
use crate::view::View;
use atomic_table::{Join, Play, Split};
use std::marker::PhantomData;

/// Draws a ticket, by a compare and exchange of the ticket word.
pub(crate) struct Draw;

impl<T, E> Play<Option<T>, View<E>> for Draw {
    ghost use Rattle.gts_lock.specs.Steps.{Draws};

    ghost then = { Draws };
}

/// Looks at the ticket that is served. Where it is the pass's own, the turn is taken, and the value with it.
pub(crate) struct Look<T> {
    of: PhantomData<T>,
}

impl<T: HasHistory> Play<Option<T>, View<T::Entry>> for Look<T> {
    ghost use Rattle.gts_lock.specs.Steps.{Looks};

    ghost then = { Looks T.stands };
}

/// Serves the next ticket: the value goes home, and the history gets the entry.
pub(crate) struct Raise<N> {
    of: PhantomData<N>,
}

impl<T, E, N: Adds<E>> Play<Option<T>, View<E>> for Raise<N> {
    ghost use Rattle.gts_lock.specs.Steps.{Raises};

    ghost then = { Raises N.added };
}

/// The same, where of the entry no more is told than something that holds of it.
pub(crate) struct RaiseSome<N> {
    of: PhantomData<N>,
}

impl<T, E, N: EntryFact<E>> Play<Option<T>, View<E>> for RaiseSome<N> {
    ghost use Rattle.gts_lock.specs.Steps.{RaisesSome};

    ghost then = { RaisesSome N.fact };
}

/// Looks whether both of two joined passes had seen beginnings of one history.
pub(crate) struct Compare;

impl<T, E> Play<Option<T>, View<E>> for Compare {
    ghost use Rattle.gts_lock.specs.Steps.{Compares};

    ghost then = { Compares };
}

/// Splits a pass off the first one, or joins one into it.
pub(crate) struct Part;

impl<E> Split<View<E>> for Part {
    ghost use Rattle.gts_lock.specs.Views.{parting, part};

    ghost left = { parting };

    ghost right = { part };
}

impl<E> Join<View<E>> for Part {
    ghost use Rattle.gts_lock.specs.Views.{joining, spent};

    ghost both = { joining };

    ghost spent = { spent };
}

/// Splits off a copy that says the same and has no right to enter, since closing a hall uses its pass up.
pub(crate) struct Copied;

impl<E> Split<View<E>> for Copied {
    ghost use Rattle.gts_lock.specs.Views.{copy};

    ghost left = { λ v. v };

    ghost right = { copy };
}
