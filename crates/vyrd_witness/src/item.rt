//! What is said of a verdict, item by item.

use crate::change::Change;
use crate::effect::Effect;
use vyrd_base::Effect as Doing;

/// One item. Positions count the entries before, from 0.
#[derive(Clone, Copy)]
pub enum Item {
    /// Where the call stands of the execution that the verdict is about.
    Called {
        at: usize,
    },
    /// Where it returns.
    Replied {
        at: usize,
    },
    /// What the words showed of the key at the commit before, which stands there.
    Agreed {
        at: usize,
        key: u64,
        amount: u128,
    },
    /// What they showed of it at the start, if no commit stands before.
    AgreedAtStart {
        key: u64,
        amount: u128,
    },
    /// What they show of it at the fault, which stands there.
    Shown {
        at: usize,
        key: u64,
        amount: u128,
    },
    /// What one of their parts gives to the key there, of what they show of it. Parts are counted
    /// from 0: slots, chunks, nodes, buffers, or the parts of a user's own specification.
    Given {
        at: usize,
        part: usize,
        key: u64,
        amount: u128,
    },
    /// A write since then that changed what they show of it.
    Changed {
        key: u64,
        change: Change,
    },
    /// What the specification's state has of the key before the commit that stands there.
    Before {
        at: usize,
        key: u64,
        amount: u64,
    },
    /// The value of a register of a user's own specification before that commit. Registers count
    /// from 0. 2^64 - 1 is `none`.
    Register {
        at: usize,
        number: usize,
        value: u64,
    },
    /// The size of a list of such a specification before that commit, and its first and its last
    /// element, which are 2^64 - 1, `none`, if it is empty. Lists count from 0.
    Elements {
        at: usize,
        number: usize,
        size: u64,
        first: u64,
        last: u64,
    },
    /// What the state of such a specification hides of the key before that commit.
    Hidden {
        at: usize,
        key: u64,
        amount: u64,
    },
    /// What the state has of the key after that commit.
    After {
        at: usize,
        key: u64,
        amount: u64,
    },
    /// A reply that the state before the commit allows.
    Allowed {
        reply: u64,
    },
    /// What an observer would reply from the entry on that stands there.
    Answered {
        at: usize,
        reply: u64,
    },
    /// That by a user's own specification no reply without a commit is right from the entry on that
    /// stands there.
    Unanswered {
        at: usize,
    },
    /// A call that is open there.
    OpenCall {
        at: usize,
    },
    /// Where a block begins that is open there.
    OpenBlock {
        at: usize,
    },
    /// The last write of another caller's open block to the word.
    Held {
        at: usize,
    },
    /// A write of another caller to the word, which took effect behind the commit inside the
    /// writer's block.
    Passed {
        effect: Effect,
    },
    /// A write that takes effect and changes nothing of what the words show, and what its word was
    /// before it.
    Wrote {
        effect: Effect,
        was: u64,
    },
    /// What the specification's step does at the commit that stands there.
    Stepped {
        at: usize,
        doing: Doing,
    },
    /// What the last step does that sets what was told of the state before. Its commit stands there.
    LastStepped {
        at: usize,
        doing: Doing,
    },
}
