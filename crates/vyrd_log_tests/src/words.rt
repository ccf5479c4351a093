//! The words that a log begins with.

use std::test::Fail;
use vyrd_base::{Header, StartWord, Subject};
use vyrd_words::{words_at_start, words_of};

/// A multiset whose first slot holds a 5.
const START: [StartWord; 2] = [
    StartWord { word: 0, value: 2 },
    StartWord { word: 1, value: 5 },
];

#[test]
fn starting_words_and_their_values(rt: HostRuntime) -> Result<(), Fail> {
    let header = Header::new(2, Subject::Multiset, 1, 1).ok_or("no header")?;
    let words = words_at_start(rt.alloc(), header, &START)?;
    assert_eq!(rt; words.as_slice(), [2, 5, 0, 0, 0, 0, 0, 0].as_slice());
    let changed = words_of(rt.alloc(), &START)?;
    assert_eq!(rt; changed.as_slice(), [0, 1].as_slice());
    Ok(())
}
