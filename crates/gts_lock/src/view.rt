use std::collections::LinkedList;

/// A turn is waited for by a ticket, and then held.
pub enum Stage {
    /// No ticket.
    Idle,
    /// With this ticket, which isn't served yet.
    Waiting(u64),
    /// With this ticket, which is served: the value is in the pass's hands.
    Holding(u64),
    /// The rule doesn't look at this view any more.
    Spent,
}

/// What a pass knows, as the rule sees it. No value of it is made.
pub struct View<E> {
    /// The pass's name. The first pass has the name 0.
    pub name: u64,
    /// Its ticket, or none.
    pub stage: Stage,
    /// What it has seen of the history.
    pub seen: LinkedList<(u64, E)>,
    /// What the other of two joined passes had seen.
    pub other_seen: LinkedList<(u64, E)>,
    /// The entries of its own turns.
    pub own: LinkedList<E>,
    /// It found that no ticket is left.
    pub full: bool,
    /// How many passes were split off it.
    pub parted: u64,
    /// The passes joined into it: their names and entries.
    pub joined: LinkedList<(u64, LinkedList<E>)>,
}
