use crate::history::HasHistory;
use crate::view::View;
use atomic_table::TableRule;
use std::marker::PhantomData;

/// The rule of a hall's table, which each step keeps. Word 0 is the ticket that is served, word 1 the next ticket to be
/// drawn, and the slot has the value, unless a turn has it.
pub struct InTurn<T> {
    of: PhantomData<T>,
}

impl<T: HasHistory> TableRule<Option<T>, View<T::Entry>, ()> for InTurn<T> {
    ghost use Rattle.gts_lock.specs.Views.{newcomer};
    ghost use Rattle.gts_lock.specs.Rule as rule;

    ghost holds = { λ _. rule.InTurn T.stands };

    ghost first = { λ _. newcomer };
}
