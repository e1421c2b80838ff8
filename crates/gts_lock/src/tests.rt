//! Halls over a list of numbers that stands for itself.
ghost use Rattle.std.specs.Prelude.{◌≡◌, ℕ, ◌≤◌, [], ◌∷◌, ◌++◌, Some};
ghost use Rattle.gts_lock.specs.History.{entries, entries_under};
ghost use Rattle.gts_lock.specs.Passes.{after_adding};
ghost use Rattle.gts_lock.specs.Counting.{Counts};
ghost use Rattle.gts_lock.specs.Tested.{IsSamePass, IsRun};

use super::*;
use std::alloc::Global;
use std::process::Abort;
use std::sync::Wait;
use std::test::Fail;
use std::thread;
use std::thread::Threads;

impl HasHistory for Vec<u32> {
    type Entry = u32;

    ghost use Rattle.std.specs.Prelude.{◌≡◌};

    ghost stands = { λ v list. v.items ≡ list };
}

// Ends a turn that added the number.
fn leave_with(turn: Turn<'_, Vec<u32>>, number: u32) -> Pass<Vec<u32>>
    ghost entry: { ℕ }
    requires entry { entry ≡ number }
    requires added { turn.value.items ≡ entries turn.pass.seen ++ number ∷ [] }
    ensures { result ≡ after_adding turn.entry.pass number }
{
    let _ = number;
    turn.leave()
}

// Adds a number in a turn of the pass.
fn add<R: Wait + Abort>(
    rt: &R,
    hall: &Hall<Vec<u32>>,
    pass: Pass<Vec<u32>>,
    number: u32,
) -> Pass<Vec<u32>>
    requires { pass.hall ≡ Some hall.now }
    ensures { Counts number pass result }
{
    let Ok(mut turn) = hall.enter(rt, pass) else {
        panic!(rt; "no ticket is left")
    };
    turn.value().push(number).expect(rt, "no memory");
    leave_with(turn, number)
}

// The first pass adds 5, and then one that is split off it adds 6.
fn add_in_turns<R: Wait + Abort>(rt: &R, alloc: Global) -> (Vec<u32>, Pass<Vec<u32>>)
    ensures list { result.0.items ≡ entries result.1.seen }
    ensures first { entries_under 0 result.1.seen ≡ 5 ∷ [] }
    ensures other { entries_under 1 result.1.seen ≡ 6 ∷ [] }
{
    let made = Hall::new(alloc, Vec::new(alloc));
    let Ok((hall, first)) = made else {
        panic!(rt; "no memory")
    };
    let first = add(rt, &hall, first, 5);
    let (first, other) = hall.split(first);
    let other = add(rt, &hall, other, 6);
    let first = hall.join(first, other);
    hall.close(first)
}

#[test]
fn the_list_has_what_each_of_two_names_added(rt: HostRuntime) -> Result<(), Fail> {
    let (list, _) = add_in_turns(&rt, rt.alloc());
    assert_eq!(rt; list.as_slice(), [5, 6].as_slice());
    Ok(())
}

// Adds a hundred numbers, one in each turn.
fn add_hundred<R: Wait + Abort>(
    rt: &R,
    hall: &Hall<Vec<u32>>,
    mut pass: Pass<Vec<u32>>,
    from: u32,
) -> Pass<Vec<u32>>
    requires hall { pass.hall ≡ Some hall.now }
    requires new { pass.own ≡ [] }
    requires small { from ≤ 1000 }
    ensures same { IsSamePass pass result }
    ensures own { IsRun result.own from 100 }
{
    for i in 0..100 {
        pass = add(rt, hall, pass, from + i);
    }
    pass
}

// Two threads add a hundred numbers each.
fn add_in_threads<R: Threads + Wait + Abort + Sync>(
    rt: &R,
    alloc: Global,
) -> (Vec<u32>, Pass<Vec<u32>>)
    ensures list { result.0.items ≡ entries result.1.seen }
    ensures first { IsRun (entries_under 0 result.1.seen) 0 100 }
    ensures other { IsRun (entries_under 1 result.1.seen) 1000 100 }
{
    let made = Hall::new(alloc, Vec::new(alloc));
    let Ok((hall, first)) = made else {
        panic!(rt; "no memory")
    };
    let (first, other) = hall.split(first);
    let shared = &hall;
    let (first, other) = thread::join(
        rt,
        move || -> Pass<Vec<u32>>
            requires { (first.hall ≡ Some shared.now) × (first.own ≡ []) }
            ensures { IsSamePass first result × IsRun result.own 0 100 }
        { add_hundred(rt, shared, first, 0) },
        move || -> Pass<Vec<u32>>
            requires { (other.hall ≡ Some shared.now) × (other.own ≡ []) }
            ensures { IsSamePass other result × IsRun result.own 1000 100 }
        { add_hundred(rt, shared, other, 1000) },
    );
    let first = hall.join(first, other);
    hall.close(first)
}

// True where the numbers of a hundred, from `from` on, stand in their order, each once.
fn has_hundred(list: &[u32], from: u32) -> bool {
    let mut next = from;
    for number in list {
        if *number >= from && *number - from < 100 {
            if *number != next {
                return false;
            }
            next = next.wrapping_add(1);
        }
    }
    next == from.wrapping_add(100)
}

#[test]
fn the_list_has_a_hundred_numbers_of_each_of_two_threads(rt: HostRuntime) -> Result<(), Fail> {
    let (list, _) = add_in_threads(&rt, rt.alloc());
    assert_eq!(rt; list.len(), 200);
    assert!(rt; has_hundred(list.as_slice(), 0));
    assert!(rt; has_hundred(list.as_slice(), 1000));
    Ok(())
}
