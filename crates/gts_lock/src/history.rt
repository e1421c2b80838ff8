use std::marker::Brand;

/// A value that stands for lists of entries, in contracts alone: what it is after turns that added these entries.
pub trait HasHistory {
    /// What one turn adds to the history.
    type Entry;

    ghost use Rattle.std.specs.Prelude.{List};

    ghost stands: { Self → List Self.Entry → Type 0 };
}

/// The entries that a turn adds. The call that ends the turn picks them.
pub(crate) trait Adds<E> {
    ghost use Rattle.std.specs.Prelude.{List};

    ghost added: { List E };
}

impl<E> Adds<E> for Brand {
    ghost use Rattle.std.specs.Prelude.{[]};

    ghost added = { [] };
}

/// What is told of the entry that a turn adds, where no more is known of it: it is one of which this holds. The call that ends the
/// turn picks that.
pub trait EntryFact<E> {
    ghost fact: { E → Type 0 };
}

impl<E> EntryFact<E> for Brand {
    ghost fact = { λ e. Unit {0} };
}
