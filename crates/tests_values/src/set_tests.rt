//! Sets of words.

use basic_lattices::{SetOf, TextSet, Word};
use lattice_laws::Lattice;
use std::alloc::Global;
use std::test::Fail;

fn set_of(alloc: Global, words: &[&[u8]]) -> Result<TextSet, Fail> {
    let mut set: TextSet = SetOf::new(alloc);
    for word in words {
        set.insert(Word::of(word)?)?;
    }
    Ok(set)
}

fn shows(set: &TextSet, words: &[&[u8]]) -> bool {
    set.len() == words.len()
        && (0..set.len()).all(|i| {
            matches!(set.at(i), Some(word) if word.as_bytes() == words[i])
        })
        && set.at(set.len()).is_none()
        && set.iter().count() == words.len()
        && set
            .iter()
            .zip(words)
            .all(|(shown, word)| shown.as_bytes() == *word)
        && set.is_empty() == words.is_empty()
}

#[test]
fn a_word_is_new_once(rt: HostRuntime) -> Result<(), Fail> {
    let mut set: TextSet = SetOf::new(rt.alloc());
    for (word, is_new) in [(b"b".as_slice(), true), (b"a", true), (b"b", false)] {
        assert_eq!(rt; set.insert(Word::of(word)?)?, is_new);
    }
    assert!(rt; shows(&set, &[b"a", b"b"]));
    assert!(rt; set.has(&Word::of(b"a")?));
    assert!(rt; !set.has(&Word::of(b"ab")?));
    Ok(())
}

#[test]
fn pushes_words_that_come_after_the_others(rt: HostRuntime) -> Result<(), Fail> {
    let mut set: TextSet = SetOf::new(rt.alloc());
    let pushes = [
        (b"b".as_slice(), true),
        (b"milk", true),
        (b"eggs", false),
        (b"milk", false),
        (b"milk1", true),
    ];
    for (word, is_pushed) in pushes {
        assert_eq!(rt; set.push(Word::of(word)?)?, is_pushed);
    }
    assert!(rt; shows(&set, &[b"b", b"milk", b"milk1"]));
    Ok(())
}

#[test]
fn a_merge_is_the_union(rt: HostRuntime) -> Result<(), Fail> {
    let mine = set_of(rt.alloc(), &[b"milk", b"eggs"])?;
    let theirs = set_of(rt.alloc(), &[b"tea", b"milk", b"bread"])?;
    let mut both = mine.copy()?;
    assert!(rt; shows(&both, &[b"eggs", b"milk"]));
    both.join(&theirs)?;
    assert!(rt; shows(&both, &[b"bread", b"eggs", b"milk", b"tea"]));
    assert!(rt; mine.at_most(&both) && theirs.at_most(&both));
    assert!(rt; !both.at_most(&mine) && !mine.at_most(&theirs));
    Ok(())
}
