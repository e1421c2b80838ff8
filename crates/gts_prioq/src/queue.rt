ghost use Rattle.std.specs.Prelude.{◌≡◌, ◌≢◌, ◌<◌, ◌≤◌, ◌+◌, ◌-◌, [], ◌∷◌, ◌++◌, ℕ, slice_get, length, flat_map, IfSome, IfNone, IfOk, OnOk, MatchOption};
ghost use Rattle.gts_prioq.specs.Cited.{AllBelow, GoesNext, IsFirstFilled, NothingWaits, PutsAt, TakesNext, at_level, count_of, items_at, items_of, most_waiting, spare};

use crate::levels::LEVELS;
use gts_alphabet::NoMemory;
use std::alloc::Global;
use std::collections::VecDeque;
use std::marker::Model;

/// Positions that wait, by levels: the first position of the smallest level goes next (profile). Contracts see the
/// positions of each level in order, and how many more it takes without memory.
#[derive(Drop)]
pub struct PrioQueue {
    levels: [VecDeque<u64>; LEVELS],
}

impl Model for PrioQueue {
    ghost use Rattle.gts_prioq.specs.Waiting.{Waiting, waiting_code};
    ghost use Rattle.gts_prioq.specs.Queue.{waiting_in, AreQueues};

    ghost Value = { Waiting };

    ghost coded = { waiting_code };

    ghost view = { λ q. waiting_in q.levels };

    ghost invariant = { λ q. AreQueues q.levels };
}

impl PrioQueue {
    /// A queue in which nothing waits. It takes no memory.
    pub fn new(alloc: Global) -> PrioQueue
        ensures { result.levels ≡ [] ∷ [] ∷ [] ∷ [] ∷ [] }
    {
        PrioQueue {
            levels: [
                VecDeque::new(alloc),
                VecDeque::new(alloc),
                VecDeque::new(alloc),
                VecDeque::new(alloc),
            ],
        }
    }

    /// Makes room for one more position on a level. What waits stays, also where there is no memory.
    pub fn reserve(&mut self, level: u8) -> Result<(), NoMemory>
        requires from { 1 ≤ level }
        requires to { level ≤ LEVELS }
        ensures room { OnOk result (1 ≤ spare self.new level) }
        ensures unchanged { self.new.levels ≡ self.old.levels }
        ensures spares { (l : ℕ) → spare self.old l ≤ spare self.new l }
    {
        self.levels[usize::from(level) - 1].reserve(1)?;
        Ok(())
    }

    /// Puts a position behind the others of its level. It takes no memory.
    pub fn put(&mut self, level: u8, position: u64)
        requires from { 1 ≤ level }
        requires to { level ≤ LEVELS }
        requires room { 1 ≤ spare self.old level }
        requires above { AllBelow position (at_level self.old level) }
        requires few { count_of self.old < most_waiting }
        ensures put { PutsAt self.old self.new level position }
        ensures count { count_of self.new ≡ count_of self.old + 1 }
        ensures used { spare self.new level ≡ spare self.old level - 1 }
        ensures spares { (l : ℕ) → l ≢ level → spare self.new l ≡ spare self.old l }
    {
        self.levels[usize::from(level) - 1].push_back_reserved(position);
    }

    /// The i-th position of a level, from 0. `None` exactly past its end.
    pub fn get(&self, level: u8, i: u64) -> Option<u64>
        requires from { 1 ≤ level }
        requires to { level ≤ LEVELS }
        ensures { result ≡ slice_get (at_level self.now level) i }
    {
        self.levels[usize::from(level) - 1].get(i as usize).copied()
    }

    /// The first position of the smallest level. `None` exactly where nothing waits.
    pub fn peek(&self) -> Option<u64>
        ensures { MatchOption result (NothingWaits self.now) (GoesNext self.now) }
    {
        let i = first_filled(&self.levels)?;
        self.levels[i].front().copied()
    }

    /// Takes the first position of the smallest level. `None` exactly where nothing waits.
    pub fn pop(&mut self) -> Option<u64>
        ensures taken { MatchOption result (NothingWaits self.old) (TakesNext self.old self.new) }
        ensures count { IfSome result (λ _. count_of self.new + 1 ≡ count_of self.old) }
        ensures spares { (l : ℕ) → spare self.old l ≤ spare self.new l }
        ensures unchanged { IfNone result (self.new ≡ self.old) }
    {
        let i = first_filled(&self.levels)?;
        self.levels[i].pop_front()
    }

    /// How many positions wait, over all levels.
    pub fn len(&self) -> u64
        ensures { result ≡ count_of self.now }
    {
        self.levels.iter().map(|level| level.len() as u64).sum()
    }

    /// All the positions that wait, level by level. `NoMemory` where there is no room for them.
    pub fn positions(&self, alloc: Global) -> Result<Vec<u64>, NoMemory>
        ensures { IfOk result (λ positions.
            positions.items ≡ flat_map (λ level. level) self.now.levels) }
    {
        positions_in(alloc, &self.levels)
    }
}

/// The positions of some queues, one queue after the other.
fn positions_in(alloc: Global, queues: &[VecDeque<u64>]) -> Result<Vec<u64>, NoMemory>
    ensures { IfOk result (λ positions. positions.items ≡ flat_map items_of queues.now) }
{
    let mut positions = Vec::new(alloc);
    for queue in queues {
        push_all(&mut positions, queue)?;
    }
    Ok(positions)
}

/// Adds the positions of a queue.
fn push_all(positions: &mut Vec<u64>, queue: &VecDeque<u64>) -> Result<(), NoMemory>
    ensures { OnOk result (positions.new.items ≡ positions.old.items ++ items_of queue.now) }
{
    for i in 0..queue.len() {
        positions.push(queue[i])?;
    }
    Ok(())
}

/// The place of the first queue that has a position.
fn first_filled(queues: &[VecDeque<u64>]) -> Option<usize>
    ensures inside { IfSome result (λ i. i < length queues.now) }
    ensures first { IfSome result (IsFirstFilled queues.now) }
    ensures none { IfNone result ((k : ℕ) → items_at queues.now k ≡ []) }
{
    for (i, queue) in queues.iter().enumerate() {
        if !queue.is_empty() {
            return Some(i);
        }
    }
    None
}
