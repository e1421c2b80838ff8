//! The plainest use of a hall, for readers of its contracts: the value counts the turns.
ghost use Rattle.std.specs.Prelude.{◌≡◌, ℕ, [], ◌∷◌, ◌++◌, ◌+◌, length, map, Some, true, IfOk, IfErr};
ghost use lib.ListN.{get_elem?};
ghost use mathlib.Core.Option.{some};
ghost use Rattle.gts_lock.specs.History.{entries};
ghost use Rattle.gts_lock.specs.Passes.{after_adding, after_split, Known, AllJoined, Accounts, NamesAreJoined};
ghost use Rattle.gts_lock.specs.Counting.{Counts, IsOf, AreSplitOff};

use crate::hall::Hall;
use crate::history::HasHistory;
use crate::pass::Pass;
use crate::turn::Turn;
use std::sync::Wait;

/// How many turns there were.
#[derive(Drop)]
pub(crate) struct Count {
    pub(crate) turns: u64,
}

impl HasHistory for Count {
    type Entry = u32;

    ghost use Rattle.std.specs.Prelude.{◌≡◌, length};

    ghost stands = { λ count list. count.turns ≡ length list };
}

// Ends a turn that counted itself, and adds a number to the history. The caller picks the entry: here it is the number.
fn leave_with(turn: Turn<'_, Count>, number: u32) -> Pass<Count>
    ghost entry: { ℕ }
    requires entry { entry ≡ number }
    requires counted { turn.value.turns ≡ length (entries turn.pass.seen ++ number ∷ []) }
    ensures { result ≡ after_adding turn.entry.pass number }
{
    let _ = number;
    turn.leave()
}

// Counts one turn of the pass. It comes back where no ticket is left.
pub(crate) fn count_one<R: Wait>(
    rt: &R,
    hall: &Hall<Count>,
    pass: Pass<Count>,
    number: u32,
) -> Result<Pass<Count>, Pass<Count>>
    requires { pass.hall ≡ Some hall.now }
    ensures done { IfOk result (λ p. Counts number pass p) }
    ensures full { IfErr result (λ p. p ≡ record pass { full = true }) }
{
    let mut turn = hall.enter(rt, pass)?;
    turn.value().turns += 1;
    Ok(leave_with(turn, number))
}

// Counts one turn of a pass that is split off the first one.
pub(crate) fn count_apart<R: Wait>(
    rt: &R,
    hall: &Hall<Count>,
    pass: Pass<Count>,
    number: u32,
) -> (Pass<Count>, Result<Pass<Count>, Pass<Count>>)
    requires hall { pass.hall ≡ Some hall.now }
    requires first { pass.name ≡ 0 }
    ensures first { result.0 ≡ after_split pass }
    ensures other { IfOk result.1 (λ p. (p.name ≡ pass.parted + 1) × (p.own ≡ number ∷ [])) }
{
    let (first, other) = hall.split(pass);
    (first, count_one(rt, hall, other, number))
}

// Joins all passes that were split off the first one, in their order.
fn join_all(hall: &Hall<Count>, mut first: Pass<Count>, others: Vec<Pass<Count>>) -> Pass<Count>
    requires first { IsOf hall.now 0 first × (first.joined ≡ []) }
    requires count { first.parted ≡ length others.items }
    requires others { AreSplitOff hall.now others.items }
    ensures same { IsOf hall.now 0 result }
    ensures all { AllJoined result }
    ensures own { result.joined ≡ map (λ p. (p.name, p.own)) others.items }
{
    for other in others {
        first = hall.join(first, other);
    }
    first
}

// Joins all passes and closes the hall. The count is that of the whole history.
pub(crate) fn close_all(
    hall: Hall<Count>,
    first: Pass<Count>,
    others: Vec<Pass<Count>>,
) -> (Count, Pass<Count>)
    requires first { IsOf hall 0 first × (first.joined ≡ []) }
    requires count { first.parted ≡ length others.items }
    requires others { AreSplitOff hall others.items }
    ensures count { result.0.turns ≡ length (entries result.1.seen) }
    ensures accounts { Accounts result.1 result.1.seen }
    ensures names { NamesAreJoined result.1 result.1.seen }
{
    let first = join_all(&hall, first, others);
    hall.close(first)
}
