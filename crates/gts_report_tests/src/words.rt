use gts_traits::WordList;
use gts_words::{Command, WordsFault, read_words};
use std::alloc::Global;
use std::test::Fail;

/// What these words are.
fn read(alloc: Global, words: &[&str]) -> Result<Result<Command, WordsFault>, Fail> {
    let mut list = WordList::new();
    for word in words {
        list.push(alloc, word)?;
    }
    Ok(read_words(alloc, &list))
}

#[test]
fn words_are_a_command_or_none(rt: HostRuntime) -> Result<(), Fail> {
    let serve = Command::Serve { connections: 12 };
    assert!(rt; read(rt.alloc(), &["serve", "0012"])? == Ok(serve));
    assert!(rt; read(rt.alloc(), &["serve", "0"])? == Err(WordsFault::Words));
    Ok(())
}
