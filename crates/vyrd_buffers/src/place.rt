//! The places of the procedures: what comes next, with the numbers on which the rest depends.

use crate::held::Held;
use crate::text::Text;

/// How far an operation has come, after the mark of its call.
#[derive(Clone, Copy)]
pub(crate) enum Place {
    /// Looking at the count of the buffer, for this.
    Look(Purpose, Looking),
    /// Appending the character to this many.
    Append(u32, Appending),
    /// Giving the buffer this count.
    Change(u64, Changing),
    /// Loading the characters that are left to read, and then unlocking the buffer.
    Read(Text),
    /// Looking at the counts of both buffers.
    Count(Counting),
    /// Appending the characters of the other buffer.
    Join(Joining),
    /// Nothing is to be changed: commit. This is the reply to come.
    Commit(u64),
    /// Unlock the buffer. This is the reply to come.
    Unlock(u64),
    /// Leave the mark of the return with this reply.
    Return(u64),
    /// All is done.
    Over,
}

/// What the count of the one buffer of an operation is looked at for.
#[derive(Clone, Copy)]
pub(crate) enum Purpose {
    /// To append a character.
    Append,
    /// To cut the buffer.
    Cut,
    /// To reply with it.
    Length,
    /// To read that many characters.
    Read,
}

/// The places of looking at the count.
#[derive(Clone, Copy)]
pub(crate) enum Looking {
    /// Lock the buffer.
    Lock,
    /// Load its count.
    Load,
}

/// The places of appending a character.
#[derive(Clone, Copy)]
pub(crate) enum Appending {
    /// Open the block.
    Open,
    /// Store the character.
    Store,
}

/// The places of the block that gives a buffer its count.
#[derive(Clone, Copy)]
pub(crate) enum Changing {
    /// Open the block.
    Open,
    /// Store the count.
    Store,
    /// Close the block and commit.
    Close,
}

/// The places of looking at the counts of both buffers. The second group is that of the broken
/// variant.
#[derive(Clone, Copy)]
pub(crate) enum Counting {
    /// Lock the first buffer.
    LockFirst,
    /// Lock the second buffer, which is another.
    LockOther,
    /// Load the count of the buffer that is appended to.
    LoadCount,
    /// Load the count of the other. The first was this.
    LoadMore(u64),
    /// Lock the buffer whose characters are appended.
    LockMore,
    /// Load its count.
    LoadMoreAlone,
    /// Unlock it. Its count was this.
    UnlockMore(u64),
    /// Lock the buffer that is appended to. The count of the other was this.
    LockCount(u64),
    /// Load its count. That of the other was this.
    LoadCountAlone(u64),
}

/// The places of appending the characters of another buffer, with the counts known.
#[derive(Clone, Copy)]
pub(crate) enum Joining {
    /// Load the next character to append to this many, or open the block if none is left.
    Load(u32, Held),
    /// Store the character of this number after this many, or the count if none is left.
    Store(u32, Held, u32),
    /// Close the block and commit.
    Close,
    /// There is no room: commit.
    Refuse,
    /// Unlock the second buffer, which is another. This is the reply to come.
    UnlockOther(u64),
    /// Unlock the first buffer. This is the reply to come.
    Unlock(u64),
}
