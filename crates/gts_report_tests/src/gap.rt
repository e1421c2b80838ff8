ghost use Rattle.std.specs.Prelude.{◌≡◌, length, IfOk};

use gts_gap::{AskText, GapTable};
use gts_parts_tests::is_same;
use std::alloc::Global;
use std::test::Fail;

/// The centre that asks.
const OWN: [u8; 4] = *b"TVSV";

/// Notes a number of three or five digits on the second one of two circuits.
fn note(table: &mut GapTable, number: u32, digits: u8)
    requires { length table.old ≡ 2 }
    ensures { length table.new ≡ 2 }
{
    match digits {
        3 if number < 1_000 => table.note(1, number, 3),
        5 if number < 100_000 => table.note(1, number, 5),
        _ => {}
    }
}

/// A table for two circuits, in which these numbers were noted on the second one.
fn noted(alloc: Global, numbers: &[(u32, u8)]) -> Result<GapTable, Fail>
    ensures { IfOk result (λ table. length table ≡ 2) }
{
    let mut table = GapTable::new(alloc, 2)?;
    for (number, digits) in numbers {
        note(&mut table, *number, *digits);
    }
    Ok(table)
}

/// The text that asks for what is missing.
fn asked(alloc: Global, numbers: &[(u32, u8)]) -> Result<(bool, AskText), Fail> {
    let table = noted(alloc, numbers)?;
    let mut text = AskText::new(alloc)?;
    let some = table.ask(1, OWN, &mut text);
    Ok((some, text))
}

/// Numbers, and the text that asks for those that are missing.
const ASKED: [(&[(u32, u8)], &[u8]); 3] = [
    (&[(998, 3), (1, 3)], b"TVSV\r\r\nSQN 999-000="),
    (
        &[(9, 3), (99_998, 5), (1, 5)],
        b"TVSV\r\r\nSQN 99999-00000=",
    ),
    (&[(1, 3), (1, 3)], b""),
];

#[test]
fn missing_numbers_are_asked_for(rt: HostRuntime) -> Result<(), Fail> {
    for (numbers, wanted) in ASKED {
        let (some, text) = asked(rt.alloc(), numbers)?;
        assert!(rt; is_same(text.bytes(), wanted));
        assert!(rt; some != wanted.is_empty());
    }
    Ok(())
}

#[test]
fn the_runs_of_missing_numbers_are_listed(rt: HostRuntime) -> Result<(), Fail> {
    let table = noted(rt.alloc(), &[(997, 3), (999, 3), (3, 3)])?;
    let mut runs = table.runs(1);
    assert!(rt; runs.next() == Some((998, 998, 3)));
    assert!(rt; runs.next() == Some((0, 2, 3)));
    assert!(rt; runs.next().is_none());
    assert!(rt; table.runs(0).next().is_none());
    Ok(())
}
