//! Sets with removal.

use basic_lattices::Word;
use clock_lattice::Clock;
use dot_lattices::DotSet;
use lattice_laws::Lattice;
use std::alloc::Global;
use std::test::Fail;

/// A put to a set.
#[derive(Clone, Copy)]
enum Put {
    /// An insert of the word, by its session and number.
    Insert(&'static [u8], u16, u64),
    /// A remove of the word, whose session had seen so many puts of one session.
    Remove(&'static [u8], u16, u64),
}

/// The set of one put.
fn set_of(alloc: Global, put: Put) -> Result<DotSet, Fail> {
    match put {
        Put::Insert(word, session, number) => {
            Ok(DotSet::insert(alloc, Word::of(word)?, session, number.max(1))?)
        }
        Put::Remove(word, session, number) => {
            let mut seen = Clock::new(alloc);
            seen.raise(session, number)?;
            Ok(DotSet::remove(alloc, Word::of(word)?, seen)?)
        }
    }
}

/// The inserts of a set, as a text.
fn inserts(alloc: Global, set: &DotSet) -> Result<String, Fail> {
    let mut text = String::new(alloc);
    for i in 0..set.inserts() {
        if let Some((word, session, number)) = set.insert_at(i) {
            for byte in word.as_bytes() {
                text.push(char::from(*byte))?;
            }
            text.push_str(format!(in alloc; "@{session}:{number} ")?.as_str())?;
        }
    }
    Ok(text)
}

/// Joins the puts in order and in the other, some twice: the two sets are one, and have these inserts.
fn leave(alloc: Global, puts: &[Put], left: &str) -> Result<bool, Fail> {
    let mut onward = DotSet::new(alloc);
    for put in puts {
        onward.join(&set_of(alloc, *put)?)?;
    }
    let mut back = DotSet::new(alloc);
    for put in puts.iter().rev() {
        back.join(&set_of(alloc, *put)?)?;
        back.join(&onward)?;
    }
    let same = back.at_most(&onward) && onward.at_most(&back);
    Ok(same && inserts(alloc, &onward)?.as_str() == left && inserts(alloc, &back)?.as_str() == left)
}

#[test]
fn a_remove_takes_away_what_it_had_seen(rt: HostRuntime) -> Result<(), Fail> {
    let milk = Put::Insert(b"milk", 1, 1);
    assert!(rt; leave(rt.alloc(), &[], "")?);
    assert!(rt; leave(rt.alloc(), &[milk], "milk@1:1 ")?);
    assert!(rt; leave(rt.alloc(), &[milk, Put::Remove(b"milk", 1, 1)], "")?);
    // It had seen nothing.
    assert!(rt; leave(rt.alloc(), &[milk, Put::Remove(b"milk", 1, 0)], "milk@1:1 ")?);
    Ok(())
}

#[test]
fn a_remove_leaves_what_it_had_not_seen(rt: HostRuntime) -> Result<(), Fail> {
    let milk = Put::Insert(b"milk", 1, 1);
    // It had seen another session's puts.
    assert!(rt; leave(rt.alloc(), &[milk, Put::Remove(b"milk", 2, 1)], "milk@1:1 ")?);
    // It had seen the first of two inserts of the word.
    let third = Put::Insert(b"milk", 1, 3);
    assert!(rt;
        leave(
            rt.alloc(),
            &[third, Put::Remove(b"milk", 1, 2), milk],
            "milk@1:3 "
        )?
    );
    // It had seen an insert of another word.
    let tea = Put::Insert(b"tea", 1, 1);
    let later = Put::Insert(b"milk", 2, 1);
    let remove = Put::Remove(b"milk", 1, 1);
    assert!(rt; leave(rt.alloc(), &[tea, later, remove], "milk@2:1 tea@1:1 ")?);
    // Two sessions insert a word, and it had seen one of them.
    let theirs = Put::Insert(b"milk", 2, 4);
    assert!(rt;
        leave(
            rt.alloc(),
            &[theirs, milk, Put::Remove(b"milk", 1, 7)],
            "milk@2:4 "
        )?
    );
    Ok(())
}

#[test]
fn removes_of_a_word_join(rt: HostRuntime) -> Result<(), Fail> {
    let milk = Word::of(b"milk")?;
    let mut set = set_of(rt.alloc(), Put::Insert(b"milk", 1, 1))?;
    set.join(&set_of(rt.alloc(), Put::Remove(b"milk", 2, 1))?)?;
    assert!(rt; set.has(&milk) && !set.has(&Word::of(b"tea")?));
    let before = set.copy()?;
    set.join(&set_of(rt.alloc(), Put::Remove(b"milk", 1, 1))?)?;
    assert!(rt; !set.has(&milk));
    assert!(rt; before.at_most(&set) && !set.at_most(&before));
    assert_eq!(rt; set.removals(), 1);
    let Some((word, seen)) = set.removal_at(0) else {
        return Err("a removal".into());
    };
    assert_eq!(rt; word.as_bytes(), b"milk".as_slice());
    assert_eq!(rt; (seen.len(), seen.count(1), seen.count(2)), (2, 1, 1));
    assert!(rt; set.insert_at(0).is_none() && set.removal_at(1).is_none());
    Ok(())
}
