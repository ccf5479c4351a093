//! The words and the changed words of a small log.

use std::test::Fail;
use vyrd_base::{Header, Subject};
use vyrd_shadow::Shadow;

/// Whether these words have changed, and these are all words.
fn has(shadow: &Shadow, changed: &[u32], words: &[u64]) -> bool {
    shadow.changed() == changed && shadow.words() == words
}

#[test]
fn writes_change_words_in_their_order(rt: HostRuntime) -> Result<(), Fail> {
    let header = Header::new(1, Subject::Multiset, 1, 2).unwrap();
    let mut shadow = Shadow::new(rt.alloc(), header)?;
    shadow.write(0, 1, 5)?;
    shadow.write(0, 0, 2)?;
    assert!(rt; has(&shadow, &[1, 0], &[2, 5, 0, 0, 0, 0, 0, 0]));
    Ok(())
}

#[test]
fn blocks_change_words_at_their_end(rt: HostRuntime) -> Result<(), Fail> {
    let header = Header::new(1, Subject::Multiset, 1, 2).unwrap();
    let mut shadow = Shadow::new(rt.alloc(), header)?;
    shadow.write(0, 6, 1)?;
    shadow.clear_changed();
    shadow.open_block(1);
    shadow.write(1, 3, 7)?;
    shadow.write(1, 2, 8)?;
    shadow.write(1, 3, 9)?;
    assert!(rt; shadow.changed().is_empty());
    shadow.close_block(1);
    assert!(rt; has(&shadow, &[3, 2], &[0, 0, 8, 9, 0, 0, 1, 0]));
    Ok(())
}

#[test]
fn starts_from_words_and_needs_no_commit(rt: HostRuntime) -> Result<(), Fail> {
    let header = Header::new(2, Subject::Multiset, 1, 1).unwrap();
    let start = [2, 5, 0, 0, 0, 0, 0, 0];
    let mut shadow = Shadow::start_from(rt.alloc(), header, start.as_slice())?;
    assert!(rt; has(&shadow, &[], &start));
    // The log is: call, open, write 0 0, commit, write 1 9, close. The call and the commit aren't
    // told.
    shadow.open_block(0);
    shadow.write(0, 0, 0)?;
    shadow.write(0, 1, 9)?;
    assert!(rt; shadow.words() == start.as_slice());
    shadow.close_block(0);
    assert!(rt; has(&shadow, &[0, 1], &[0, 9, 0, 0, 0, 0, 0, 0]));
    Ok(())
}
