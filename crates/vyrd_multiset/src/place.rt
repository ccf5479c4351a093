//! The places of the procedures: what comes next, with the numbers on which the rest depends.

ghost use Rattle.std.specs.Prelude.{◌≡◌, ◌≢◌, ◌<◌, ◌+◌, ◌-◌, ◌^◌};

/// How far an operation has come, after the mark of its call.
#[derive(Clone, Copy)]
pub(crate) enum Place {
    /// Finding a free slot.
    Find(Want, Finding),
    /// Searching for a value.
    Search(Query, Searching),
    /// Making the slot of an insert valid: lock the bucket.
    Insert(u32),
    /// Giving one slot this state, under the lock of its bucket.
    Change(u32, u64, Changing),
    /// Making both slots of a pair valid.
    Both(u32, u32, Pairing),
    /// Freeing the slot that was reserved for the first value of a pair.
    Undo(u32, Undoing),
    /// Nothing was found to delete: commit.
    Absent,
    /// No free slot was found: commit.
    GiveUp,
    /// Unlock the bucket of the first value. This is the reply to come.
    Unlock(u64),
    /// Leave the mark of the return with this reply.
    Return(u64),
    /// All is done.
    Over,
}

/// What a free slot is wanted for.
#[derive(Clone, Copy)]
pub(crate) enum Want {
    /// The value of an insert.
    Only,
    /// The first value of a pair.
    First,
    /// The second value of a pair, of which the first has this slot.
    Second(u32),
}

/// What the search for a value is for.
#[derive(Clone, Copy)]
pub(crate) enum Query {
    /// To delete it.
    Delete,
    /// To say whether it is there.
    Lookup,
}

/// A slot that is looked at, and how many slots of its bucket come after it.
#[derive(Clone, Copy)]
pub(crate) struct Cursor {
    pub(crate) slot: u32,
    pub(crate) after: u32,
}

impl Cursor {
    /// The slot that comes after it.
    pub(crate) fn next(self) -> Cursor
        requires after { self.after ≢ 0 }
        requires slot { self.slot + 1 < 2 ^ 32 }
        ensures slot { result.slot ≡ self.slot + 1 }
        ensures after { result.after ≡ self.after - 1 }
    {
        Cursor {
            slot: self.slot + 1,
            after: self.after - 1,
        }
    }
}

/// The places of finding a free slot.
#[derive(Clone, Copy)]
pub(crate) enum Finding {
    /// Lock the bucket.
    Lock,
    /// Load the state of this slot.
    Load(Cursor),
    /// Store the value in this slot, which is free.
    StoreValue(u32),
    /// Store the state of this slot, which is then reserved.
    StoreState(u32),
    /// Unlock the bucket. This slot was found, or none.
    Unlock(Option<u32>),
}

/// The places of a search.
#[derive(Clone, Copy)]
pub(crate) enum Searching {
    /// Lock the bucket.
    Lock,
    /// Load the state of this slot.
    LoadState(Cursor),
    /// Load the value of this slot, which is valid.
    LoadValue(Cursor),
}

/// The places of the block that changes one slot.
#[derive(Clone, Copy)]
pub(crate) enum Changing {
    /// Open the block.
    Open,
    /// Store the state.
    Store,
    /// Close the block and commit.
    Close,
}

/// The places of making both slots of a pair valid.
#[derive(Clone, Copy)]
pub(crate) enum Pairing {
    /// Lock the first bucket.
    Lock,
    /// Lock the second bucket, which is another.
    LockOther,
    /// Open the block.
    Open,
    /// Store the state of the slot of the first value.
    StoreFirst,
    /// Store the state of the slot of the second value.
    StoreSecond,
    /// Close the block and commit.
    Close,
    /// Unlock the second bucket, which is another.
    UnlockOther,
    /// Unlock the first bucket.
    Unlock,
}

/// The places of freeing a reserved slot.
#[derive(Clone, Copy)]
pub(crate) enum Undoing {
    /// Lock the bucket.
    Lock,
    /// Store the state.
    Store,
    /// Unlock the bucket.
    Unlock,
}
