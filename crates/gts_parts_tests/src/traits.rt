use gts_traits::{FreeGate, Gate, Point, WordList};
use std::test::Fail;

#[test]
fn a_word_list_gives_its_words_by_place(rt: HostRuntime) -> Result<(), Fail> {
    let mut words = WordList::new();
    assert!(rt; words.len() == 0);
    assert!(rt; words.get(0).is_none());
    words.push(rt.alloc(), "run")?;
    words.push(rt.alloc(), "gts.toml")?;
    assert!(rt; words.len() == 2);
    assert!(rt; words.get(0) == Some("run"));
    assert!(rt; words.get(1) == Some("gts.toml"));
    assert!(rt; words.get(2).is_none());
    Ok(())
}

#[test]
fn the_free_gate_lets_everyone_through() {
    FreeGate.at(Point::Hear { c: 0 });
    FreeGate.at(Point::Take { c: 1 });
    FreeGate.at(Point::Sent { c: 63 });
}
